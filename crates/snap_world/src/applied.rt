// What an operation with the charge that it needs comes to.

use snap_call::Refusal;
use snap_merge::FsError;
use snap_usage::Usage;
use thiserror::Error;

/// What a snapshot takes and is charged once an operation on it is done, in blocks of 4096 bytes and inodes.
#[derive(Clone, Copy, Debug, PartialEq, Eq)]
pub struct Changed {
    /// What its layer takes.
    pub count: Usage,
    /// What its slot is charged.
    pub share: Usage,
}

/// Why an operation was not done.
#[derive(Clone, Copy, Debug, PartialEq, Eq, Error)]
pub enum Unapplied {
    /// The operation's own error, or want of memory.
    #[error("{0}")]
    File(FsError),
    /// The refusal of the charge that it needs.
    #[error("{0}")]
    Charge(Refusal),
    /// It needs a charge, and the session isn't open.
    #[error("it needs a charge, and the session is not open")]
    NoSession,
    /// The slot isn't open, or its layer is sealed; or it needs a charge, and the snapshot has another id.
    #[error("the snapshot is not open")]
    NoHand,
}
