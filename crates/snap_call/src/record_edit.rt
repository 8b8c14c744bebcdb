use snap_record::{Content, Labels, Record};

/// A change of a record that leaves its namespace, its key and its parent.
#[derive(Drop)]
pub(crate) enum RecordEdit {
    /// What an active one holds.
    Content(Content),
    /// The labels, as the journal entry of this number leaves the record, and a copy of it without labels, which is for
    /// one that may have several holders.
    Labels {
        labels: Labels,
        number: u64,
        copy: Box<Record>,
    },
}
