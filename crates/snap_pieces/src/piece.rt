//! The pieces of a saved store.
use snap_call::Namespace;
use snap_record::Text;
use snap_saved::{Head, Piece};
use snap_usage::Usage;

/// What a saved store has besides its pieces: its configuration without the namespaces, and its numbers. Nothing of it is
/// tested, nor of pieces.
#[derive(Debug, Drop)]
pub struct StoreHead {
    /// The directory that the snapshots' directories lie in.
    pub root: Text,
    /// How many snapshots may be open at one time.
    pub slots: u64,
    /// The most entries of the journal.
    pub journal: u64,
    /// The id of the first snapshot.
    pub first_id: u32,
    /// The most inodes of each layer.
    pub layer_inodes: u64,
    /// The most committed ancestors of each snapshot.
    pub ancestors: u64,
    /// The number of its last entry.
    pub entries: u64,
    /// The id of its next snapshot.
    pub next_id: u64,
}

/// What the hand of an active snapshot has besides the pieces of its layer.
#[derive(Clone, Copy, Debug)]
pub struct HandHead {
    /// Whether the layer doesn't change any more.
    pub sealed: bool,
    /// What the layer has besides its pieces.
    pub layer: Head,
}

/// What a saved snapshot holds, without the pieces of its layer.
#[derive(Clone, Copy, Debug)]
pub enum SnapshotKind {
    /// A view.
    View,
    /// An active snapshot: its slot, what its namespace is charged for it, and its hand.
    Active {
        slot: u64,
        charged: Usage,
        hand: Option<HandHead>,
    },
    /// A committed snapshot.
    Committed {
        layer: Head,
    },
}

/// A saved snapshot without its labels and the pieces of its layer.
#[derive(Debug, Drop)]
pub struct SnapshotHead {
    /// The name of its namespace.
    pub namespace: Text,
    /// The key of an active snapshot or a view, the name of a committed snapshot.
    pub key: Text,
    /// The name of the parent, empty where there is none.
    pub parent: Text,
    /// Its id.
    pub id: u32,
    /// The number of the entry that made it.
    pub created: u64,
    /// The number of the entry that last changed it.
    pub updated: u64,
    /// What it holds.
    pub kind: SnapshotKind,
}

/// A piece of a saved store. Labels and pieces of a layer are those of the snapshot that was the last to begin, names those
/// of the lease.
#[derive(Debug, Drop)]
pub enum StorePiece {
    /// The next place for a namespace.
    Namespace(Namespace),
    /// A snapshot begins.
    Snapshot(SnapshotHead),
    /// The next label of the snapshot.
    Label {
        key: Text,
        value: Text,
    },
    /// The next piece of the snapshot's layer.
    Layer(Piece),
    /// A lease begins: its namespace, its name, and its last moment, if it has one.
    Lease {
        namespace: Text,
        name: Text,
        until: Option<u64>,
    },
    /// The next snapshot that the lease names.
    Leased(Text),
}
