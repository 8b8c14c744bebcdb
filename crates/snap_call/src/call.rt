use snap_layer::Shared;
use snap_record::{Filter, Labels, Sequence, Text};
use snap_usage::Usage;

/// A call on the store.
#[derive(Debug, PartialEq, Eq)]
pub enum Call {
    /// Opens a session.
    Session,
    /// Makes an active snapshot on a parent, the empty text for none (containerd's `Prepare`).
    Prepare {
        namespace: Text,
        key: Text,
        parent: Text,
        labels: Labels,
    },
    /// Charges the active snapshot of a slot for the wanted amount, or for the needed one.
    Charge {
        slot: u64,
        id: u32,
        need: Usage,
        want: Usage,
    },
    /// Lowers the charge of the active snapshot of a slot to the count of its layer.
    Trim {
        slot: u64,
        id: u32,
    },
    /// Commits the active snapshot of a slot under a name, with these labels or with its own
    /// (containerd's `Commit`).
    Commit {
        slot: u64,
        id: u32,
        name: Text,
        lease: Option<Text>,
        labels: Option<Labels>,
    },
    /// Drops the active snapshot of a slot.
    Discard {
        slot: u64,
        id: u32,
    },
    /// Asks for a snapshot's info (containerd's `Stat`).
    Stat {
        namespace: Text,
        key: Text,
    },
    /// Asks what a snapshot is charged (containerd's `Usage`).
    Usage {
        namespace: Text,
        key: Text,
    },
    /// Asks for the mounts that show a snapshot (containerd's `Mounts`).
    Mounts {
        namespace: Text,
        key: Text,
    },
    /// Makes a view on a parent, the empty text for none (containerd's `View`).
    View {
        namespace: Text,
        key: Text,
        parent: Text,
        labels: Labels,
    },
    /// Takes a snapshot away (containerd's `Remove`).
    Remove {
        namespace: Text,
        key: Text,
    },
    /// Changes a snapshot's labels by field paths (containerd's `Update`).
    Update {
        namespace: Text,
        key: Text,
        labels: Labels,
        paths: Sequence<Text>,
    },
    /// Asks for the infos of the snapshots of a namespace whose keys come after a text and that have
    /// every part of a filter, at most `most` (containerd's `Walk`).
    Walk {
        namespace: Text,
        after: Text,
        most: u64,
        asked: Filter,
    },
    /// Makes a namespace.
    NamespaceCreate {
        namespace: Text,
        limit: Usage,
    },
    /// Takes a namespace away that has no snapshot and no lease.
    NamespaceRemove {
        namespace: Text,
    },
    /// Gives a namespace another limit.
    SetLimit {
        namespace: Text,
        limit: Usage,
    },
    /// Makes a lease that names nothing, with a last moment or none (containerd's
    /// `leases.Manager.Create`).
    LeaseCreate {
        namespace: Text,
        lease: Text,
        until: Option<u64>,
    },
    /// Names a committed snapshot in a lease too (containerd's `leases.Manager.AddResource`).
    LeaseAdd {
        namespace: Text,
        lease: Text,
        name: Text,
    },
    /// Takes one name out of a lease (containerd's `leases.Manager.DeleteResource`).
    LeaseDrop {
        namespace: Text,
        lease: Text,
        name: Text,
    },
    /// Takes a lease away with its names (containerd's `leases.Manager.Delete`).
    LeaseRelease {
        namespace: Text,
        lease: Text,
    },
    /// Takes the leases of a namespace away that have ended at a moment, and its committed snapshots that
    /// nothing in use stands on.
    Sweep {
        namespace: Text,
        moment: u64,
    },
}

/// What the value handed in adds to a call.
#[derive(Debug, PartialEq, Eq)]
pub enum Given {
    Nothing,
    /// The count of the layer of an active snapshot that is trimmed.
    Count(Usage),
    /// The layer that is committed.
    Layer(Shared),
}

// By hand: a derived one is proved anew, part by part, wherever a value is let go.
impl Drop for Call {
    fn drop(self) {
        match self {
            Call::Session => {}
            Call::Prepare {
                namespace: _,
                key: _,
                parent: _,
                labels: _,
            } => {}
            Call::Charge {
                slot: _,
                id: _,
                need: _,
                want: _,
            } => {}
            Call::Trim { slot: _, id: _ } => {}
            Call::Commit {
                slot: _,
                id: _,
                name: _,
                lease: _,
                labels: _,
            } => {}
            Call::Discard { slot: _, id: _ } => {}
            Call::Stat {
                namespace: _,
                key: _,
            } => {}
            Call::Usage {
                namespace: _,
                key: _,
            } => {}
            Call::Mounts {
                namespace: _,
                key: _,
            } => {}
            Call::View {
                namespace: _,
                key: _,
                parent: _,
                labels: _,
            } => {}
            Call::Remove {
                namespace: _,
                key: _,
            } => {}
            Call::Update {
                namespace: _,
                key: _,
                labels: _,
                paths: _,
            } => {}
            Call::Walk {
                namespace: _,
                after: _,
                most: _,
                asked: _,
            } => {}
            Call::NamespaceCreate {
                namespace: _,
                limit: _,
            } => {}
            Call::NamespaceRemove { namespace: _ } => {}
            Call::SetLimit {
                namespace: _,
                limit: _,
            } => {}
            Call::LeaseCreate {
                namespace: _,
                lease: _,
                until: _,
            } => {}
            Call::LeaseAdd {
                namespace: _,
                lease: _,
                name: _,
            } => {}
            Call::LeaseDrop {
                namespace: _,
                lease: _,
                name: _,
            } => {}
            Call::LeaseRelease {
                namespace: _,
                lease: _,
            } => {}
            Call::Sweep {
                namespace: _,
                moment: _,
            } => {}
        }
    }
}

// By hand: a derived one is proved anew, part by part, wherever a value is let go.
impl Drop for Given {
    fn drop(self) {
        match self {
            Given::Nothing => {}
            Given::Count(_) => {}
            Given::Layer(_) => {}
        }
    }
}
