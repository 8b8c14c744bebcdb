ghost use Rattle.snap_path.specs.Memory.{no_memory};

use snap_path::NoMemory;
use std::alloc::{AllocError, AllocFailed};
use thiserror::Error;

/// Why an update of labels is refused. The labels are then as they were.
#[derive(Clone, Copy, Debug, PartialEq, Eq, Error)]
pub enum LabelsError {
    /// A given label or a path without its form, or more than 64 labels as the result.
    #[error("bad labels")]
    BadLabels,
    /// Memory was wanting.
    #[error("out of memory")]
    OutOfMemory(NoMemory),
}

impl From<AllocError> for LabelsError {
    ghost use Rattle.std.specs.Prelude.{◌≡◌};
    ghost use Rattle.snap_record.specs.declared.error.LabelsError.TheVariants.{OutOfMemory};

    ghost from_gives = { λ _ e. e ≡ OutOfMemory no_memory };

    fn from(refused: AllocError) -> LabelsError {
        LabelsError::OutOfMemory(refused.into())
    }
}

impl<T: Drop> From<AllocFailed<T>> for LabelsError {
    ghost use Rattle.std.specs.Prelude.{◌≡◌};
    ghost use Rattle.snap_record.specs.declared.error.LabelsError.TheVariants.{OutOfMemory};

    ghost from_gives = { λ _ e. e ≡ OutOfMemory no_memory };

    fn from(failed: AllocFailed<T>) -> LabelsError {
        LabelsError::OutOfMemory(failed.into())
    }
}
