ghost use Rattle.std.specs.Prelude.{◌≡◌};
ghost use Rattle.snap_path.specs.Memory.{no_memory};

use snap_path::NoMemory;
use std::alloc::{AllocError, AllocFailed};
use thiserror::Error;

/// Why an edit was refused. The layer is then as it was.
#[derive(Clone, Copy, Debug, PartialEq, Eq, Error)]
pub enum LayerError {
    /// The layer would have more inodes than it may, or its file numbers are used up.
    #[error("the layer is full")]
    LayerFull,
    /// A growth was refused.
    #[error("out of memory")]
    OutOfMemory(NoMemory),
}

impl From<AllocError> for LayerError {
    ghost use Rattle.snap_layer.specs.declared.error.LayerError.TheVariants.{OutOfMemory};

    ghost from_gives = { λ _ e. e ≡ OutOfMemory no_memory };

    fn from(refused: AllocError) -> LayerError {
        LayerError::OutOfMemory(refused.into())
    }
}

impl<T: Drop> From<AllocFailed<T>> for LayerError {
    ghost use Rattle.snap_layer.specs.declared.error.LayerError.TheVariants.{OutOfMemory};

    ghost from_gives = { λ _ e. e ≡ OutOfMemory no_memory };

    fn from(failed: AllocFailed<T>) -> LayerError {
        LayerError::OutOfMemory(failed.into())
    }
}
