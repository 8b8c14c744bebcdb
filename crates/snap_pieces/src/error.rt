//! Why a line isn't read.
ghost use Rattle.std.specs.Prelude.{◌≡◌};

use crate::field::LineField;
use snap_path::NoMemory;
use std::alloc::AllocError;
use thiserror::Error;

/// Why a line isn't read.
#[derive(Clone, Copy, Debug, PartialEq, Eq, Error)]
pub enum LineError {
    /// The first field, in the order of reading, that is missing or isn't of its kind.
    #[error("bad field {0}")]
    BadField(LineField),
    /// Memory is refused.
    #[error("out of memory")]
    OutOfMemory(NoMemory),
}

impl From<LineField> for LineError {
    ghost use Rattle.snap_pieces.specs.declared.error.LineError.TheVariants.{BadField};

    ghost from_gives = { λ field e. e ≡ BadField field };

    fn from(field: LineField) -> LineError {
        LineError::BadField(field)
    }
}

impl From<AllocError> for LineError {
    ghost use Rattle.snap_path.specs.Memory.{no_memory};
    ghost use Rattle.snap_pieces.specs.declared.error.LineError.TheVariants.{OutOfMemory};

    ghost from_gives = { λ _ e. e ≡ OutOfMemory no_memory };

    fn from(refused: AllocError) -> LineError {
        LineError::OutOfMemory(refused.into())
    }
}
