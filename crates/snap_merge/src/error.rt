ghost use Rattle.std.specs.Prelude.{◌≡◌};
ghost use Rattle.snap_path.specs.Memory.{no_memory};
ghost use Rattle.snap_merge.specs.declared.error.FsError.TheVariants.{OutOfMemory};
ghost use Rattle.snap_merge.specs.Errors.{OfLayer, OfPath};

use snap_layer::LayerError;
use snap_path::{NoMemory, PathError};
use snap_usage::Usage;
use std::alloc::{AllocError, AllocFailed};
use thiserror::Error;

/// Why a file call fails. The calls that answer each one say when.
#[derive(Clone, Copy, Debug, PartialEq, Eq, Error)]
pub enum FsError {
    /// A name would have more than 255 bytes, or a path more than 4095 (ENAMETOOLONG).
    #[error("invalid path")]
    BadPath,
    /// Nothing is seen there (ENOENT).
    #[error("no such file or directory")]
    NotFound,
    /// What is seen there, or above it, is no directory (ENOTDIR).
    #[error("not a directory")]
    NotDir,
    /// A directory is seen there (EISDIR).
    #[error("is a directory")]
    IsDir,
    /// Something is seen there already (EEXIST).
    #[error("file exists")]
    Exists,
    /// The directory has names (ENOTEMPTY).
    #[error("directory not empty")]
    NotEmpty,
    /// A directory that a lower layer has too can't be renamed (EXDEV).
    #[error("invalid cross-device link")]
    CrossDevice,
    /// An argument that the call doesn't take (EINVAL).
    #[error("invalid argument")]
    Invalid,
    /// A hard link to a directory (EPERM).
    #[error("operation not permitted")]
    NotPermitted,
    /// A file or a target would be too large (EFBIG).
    #[error("file too large")]
    TooBig,
    /// The upper layer would have too many inodes, or its file numbers are used up (ENOSPC).
    #[error("the layer is full")]
    LayerFull,
    /// The upper layer would take this usage, which its charge doesn't cover.
    #[error("a charge of {0} is needed")]
    NeedsCharge(Usage),
    /// More symlinks than may be followed (ELOOP).
    #[error("too many levels of symbolic links")]
    TooManyLinks,
    /// The allocator refused memory (ENOMEM).
    #[error("out of memory")]
    OutOfMemory(NoMemory),
}

impl From<AllocError> for FsError {
    ghost from_gives = { λ _ e. e ≡ OutOfMemory no_memory };

    fn from(refused: AllocError) -> FsError {
        FsError::OutOfMemory(refused.into())
    }
}

impl<T: Drop> From<AllocFailed<T>> for FsError {
    ghost from_gives = { λ _ e. e ≡ OutOfMemory no_memory };

    fn from(failed: AllocFailed<T>) -> FsError {
        FsError::OutOfMemory(failed.into())
    }
}

impl From<LayerError> for FsError {
    ghost from_gives = { OfLayer };

    fn from(error: LayerError) -> FsError {
        match error {
            LayerError::LayerFull => FsError::LayerFull,
            LayerError::OutOfMemory(no_memory) => FsError::OutOfMemory(no_memory),
        }
    }
}

impl From<PathError> for FsError {
    ghost from_gives = { OfPath };

    fn from(error: PathError) -> FsError {
        match error {
            PathError::BadPath => FsError::BadPath,
            PathError::OutOfMemory(no_memory) => FsError::OutOfMemory(no_memory),
        }
    }
}
