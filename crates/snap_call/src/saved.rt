use snap_layer::Shared;
use snap_record::{Labels, Text};
use snap_usage::Usage;

/// What is saved of what a snapshot holds: what the rest of its store doesn't give.
#[derive(Debug, Drop)]
pub enum SavedContent {
    /// A view shows the layers of its committed ancestors.
    View,
    /// An active snapshot has one of the slots of its store, counted from 0, and what its namespace is charged for it.
    Active { slot: u64, charged: Usage },
    /// A committed snapshot has its layer, over which its usage is counted.
    Committed { layer: Shared },
}

/// A snapshot as it is saved.
#[derive(Debug, Drop)]
pub struct Saved {
    /// The name of its namespace.
    pub namespace: Text,
    /// The key of an active snapshot or a view, the name of a committed snapshot.
    pub key: Text,
    /// The name of the parent, empty where there is none.
    pub parent: Text,
    /// The number that its directories are named by.
    pub id: u32,
    /// Its labels.
    pub labels: Labels,
    /// The number of the journal entry that made the snapshot.
    pub created: u64,
    /// The number of the journal entry that last changed it.
    pub updated: u64,
    /// What it holds, by its kind.
    pub content: SavedContent,
}
