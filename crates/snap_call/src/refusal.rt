ghost use Rattle.std.specs.Prelude.{◌≡◌};
ghost use Rattle.snap_path.specs.Memory.{no_memory};
ghost use Rattle.snap_call.specs.declared.refusal.Refusal.TheVariants.{OutOfMemory};

use snap_path::NoMemory;
use std::alloc::AllocError;
use thiserror::Error;

/// Why a call is refused.
///
/// `JournalFull` and `OutOfMemory` leave everything as it was. The others leave everything as it
/// was but for the journal, which records the refused call.
#[derive(Clone, Copy, Debug, PartialEq, Eq, Error)]
pub enum Refusal {
    /// A key, a name, a parent, a lease, a label, a namespace, a limit or a part of a configuration is malformed.
    #[error("bad argument")]
    BadArgument,
    /// The store has no such namespace.
    #[error("no such namespace")]
    NoNamespace,
    /// The store has a namespace of this name already.
    #[error("the namespace exists already")]
    NamespaceExists,
    /// The store has as many namespaces as it can have.
    #[error("too many namespaces")]
    TooManyNamespaces,
    /// The namespace has a snapshot or a lease.
    #[error("the namespace isn't empty")]
    NotEmpty,
    /// The namespace has no snapshot of this key.
    #[error("not found")]
    NotFound,
    /// The namespace has a snapshot of this key already.
    #[error("already exists")]
    AlreadyExists,
    /// The snapshot is not a committed one.
    #[error("not committed")]
    NotCommitted,
    /// The snapshot is neither active nor a view.
    #[error("not active")]
    NotActive,
    /// The snapshot is the parent of another.
    #[error("has children")]
    HasChildren,
    /// The snapshot is active, and its writer holds it.
    #[error("in use")]
    InUse,
    /// A lease names the snapshot.
    #[error("leased")]
    Leased,
    /// The namespace has no lease of this name.
    #[error("no such lease")]
    NoLease,
    /// The namespace has a lease of this name already.
    #[error("the lease exists already")]
    LeaseExists,
    /// The snapshot would have more committed ancestors than the store allows.
    #[error("too many ancestors")]
    TooDeep,
    /// As many snapshots are open as the store may have: all its slots are taken.
    #[error("too many active snapshots")]
    TooManyActives,
    /// The namespace's limit does not cover the amount; the fields say how much was free.
    #[error("over the limit: {free_blocks} blocks and {free_inodes} inodes are free")]
    OverLimit { free_blocks: u64, free_inodes: u64 },
    /// The new limit does not cover what the namespace is charged.
    #[error("below the charge")]
    BelowCharge,
    /// There is no further number for a snapshot, a session or an entry.
    #[error("numbers spent")]
    NumbersSpent,
    /// The journal has no entry left beside those that open snapshots need.
    #[error("journal full")]
    JournalFull,
    /// A growth was refused.
    #[error("out of memory")]
    OutOfMemory(NoMemory),
}

impl From<AllocError> for Refusal {
    ghost from_gives = { λ _ e. e ≡ OutOfMemory no_memory };

    fn from(refused: AllocError) -> Refusal {
        Refusal::OutOfMemory(refused.into())
    }
}
