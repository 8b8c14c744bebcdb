//! Why a piece isn't put, or why pieces make no saved store.
ghost use Rattle.std.specs.Prelude.{◌≡◌};

use snap_path::NoMemory;
use snap_saved::{Fault, Part, PieceError};
use std::alloc::{AllocError, AllocFailed};
use thiserror::Error;

/// Why a piece isn't put, or why pieces make no saved store.
#[derive(Clone, Copy, Debug, PartialEq, Eq, Error)]
pub enum StoreFault {
    /// A label or a piece of a layer where the last part is no snapshot that has one, a name where it is no lease, or a
    /// piece of a layer that isn't in its place there.
    #[error("not in its place")]
    Misplaced,
    /// The end says that there are more or fewer lines than have come.
    #[error("a line is missing")]
    Incomplete,
    /// With these bytes a file has more than 1,048,576.
    #[error("more than 1,048,576 bytes")]
    TooBig,
    /// The snapshot has a label of this key already.
    #[error("the label is there already")]
    LabelTwice,
    /// The snapshot has 64 labels already.
    #[error("more than 64 labels")]
    TooManyLabels,
    /// The layer of the snapshot at this place, counted from 0, has a part that no layer has there.
    #[error("snapshot {0}: {1}: {2}")]
    Layer(usize, Part, Fault),
    /// Memory is refused.
    #[error("out of memory")]
    OutOfMemory(NoMemory),
}

impl From<AllocError> for StoreFault {
    ghost use Rattle.snap_path.specs.Memory.{no_memory};
    ghost use Rattle.snap_checkpoint.specs.declared.fault.StoreFault.TheVariants.{OutOfMemory};

    ghost from_gives = { λ _ e. e ≡ OutOfMemory no_memory };

    fn from(refused: AllocError) -> StoreFault {
        StoreFault::OutOfMemory(refused.into())
    }
}

impl<T: Drop> From<AllocFailed<T>> for StoreFault {
    ghost use Rattle.snap_path.specs.Memory.{no_memory};
    ghost use Rattle.snap_checkpoint.specs.declared.fault.StoreFault.TheVariants.{OutOfMemory};

    ghost from_gives = { λ _ e. e ≡ OutOfMemory no_memory };

    fn from(failed: AllocFailed<T>) -> StoreFault {
        StoreFault::OutOfMemory(failed.into())
    }
}

impl From<PieceError> for StoreFault {
    ghost use Rattle.snap_checkpoint.specs.Gathered.{piece_fault};

    ghost from_gives = { λ error fault. fault ≡ piece_fault error };

    fn from(error: PieceError) -> StoreFault {
        match error {
            PieceError::Misplaced => StoreFault::Misplaced,
            PieceError::TooBig => StoreFault::TooBig,
            PieceError::OutOfMemory(no_memory) => StoreFault::OutOfMemory(no_memory),
        }
    }
}
