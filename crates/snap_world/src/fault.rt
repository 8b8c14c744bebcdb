// Why a saved store isn't restored.
ghost use Rattle.std.specs.Prelude.{◌≡◌, ◌⊎◌};
ghost use Rattle.snap_path.specs.Memory.{no_memory};
ghost use Rattle.snap_call.specs.declared.refusal.Refusal.TheVariants as refusals;
ghost use Rattle.snap_world.specs.declared.fault.RestoreFault.TheVariants as faults;

use snap_call::{ConfigField, Refusal};
use snap_path::NoMemory;
use std::alloc::AllocError;
use thiserror::Error;

/// Why a saved store isn't restored: the first of its parts that is refused, with its place.
#[derive(Clone, Copy, Debug, PartialEq, Eq, Error)]
pub enum RestoreFault {
    /// A part of its configuration is malformed.
    #[error("a part of the configuration is malformed")]
    Config(ConfigField),
    /// The number of its last entry is above 2^62.
    #[error("the number of the last entry is above 2^62")]
    Entries,
    /// The snapshot at this place of its list, counted from 0, is refused: `NumbersSpent` where the ids don't rise, and
    /// where it wasn't made by an entry up to the last one, and changed by that or a later one; `TooManyActives` where its
    /// slot is none of the store's, or another's.
    #[error("snapshot {0}: {1}")]
    Snapshot(usize, Refusal),
    /// The lease at this place of its list, counted from 0, is refused.
    #[error("lease {0}: {1}")]
    Lease(usize, Refusal),
    /// The id of its next snapshot is below the configuration's first id, or isn't above that of each snapshot.
    #[error("the next id is one that was given")]
    NextId,
    /// A round of as many entries can't begin there.
    #[error("the journal: {0}")]
    Journal(Refusal),
    /// Memory is refused.
    #[error("out of memory")]
    OutOfMemory(NoMemory),
}

impl From<AllocError> for RestoreFault {
    ghost use Rattle.snap_world.specs.declared.fault.RestoreFault.TheVariants.{OutOfMemory};

    ghost from_gives = { λ _ e. e ≡ OutOfMemory no_memory };

    fn from(refused: AllocError) -> RestoreFault {
        RestoreFault::OutOfMemory(refused.into())
    }
}

/// The fault of the part that is refused, or of memory.
pub(crate) fn fault_of(part: RestoreFault, why: Refusal) -> RestoreFault
    ensures part { (result ≡ part) ⊎ (why ≡ refusals.OutOfMemory no_memory) }
    ensures memory { why ≡ refusals.OutOfMemory no_memory → result ≡ faults.OutOfMemory no_memory }
{
    if let Refusal::OutOfMemory(no_memory) = why {
        return RestoreFault::OutOfMemory(no_memory);
    }
    part
}
