use snap_record::{Sequence, Text};

/// A lease as it is saved.
#[derive(Debug, Drop)]
pub struct SavedLease {
    /// The name of its namespace.
    pub namespace: Text,
    /// Its name.
    pub name: Text,
    /// Its last moment, if it has one.
    pub until: Option<u64>,
    /// The snapshots that it names, in order.
    pub names: Sequence<Text>,
}
