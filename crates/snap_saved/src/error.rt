//! Why parts make no layer.
ghost use Rattle.std.specs.Prelude.{◌≡◌};
ghost use Rattle.snap_path.specs.Memory.{no_memory};
ghost use Rattle.snap_saved.specs.Refusing.{refusal};

use snap_layer::LayerError;
use snap_path::NoMemory;
use std::alloc::{AllocError, AllocFailed};
use std::fmt;
use thiserror::Error;

/// A part of a saved layer, by its place in its list, which is counted from 0.
#[derive(Clone, Copy, Debug, PartialEq, Eq)]
pub enum Part {
    /// The root.
    Root,
    /// A directory.
    Dir(usize),
    /// A whiteout.
    Whiteout(usize),
    /// A file or symlink.
    File(usize),
    /// A name of a file or symlink.
    Name { file: usize, name: usize },
    /// The number of the next file.
    Next,
    /// The most inodes.
    Most,
}

/// The part's list and place, as `directory 3`.
impl fmt::Display for Part {
    fn fmt<W: fmt::Write>(&self, f: &mut fmt::Formatter<W>) -> fmt::Result {
        match *self {
            Part::Root => write!(f, "the root"),
            Part::Dir(place) => write!(f, "directory {place}"),
            Part::Whiteout(place) => write!(f, "whiteout {place}"),
            Part::File(place) => write!(f, "file {place}"),
            Part::Name { file, name } => write!(f, "name {name} of file {file}"),
            Part::Next => write!(f, "the next number"),
            Part::Most => write!(f, "the most inodes"),
        }
    }
}

/// What is wrong with a part.
#[derive(Clone, Copy, Debug, PartialEq, Eq, Error)]
pub enum Fault {
    /// A mode above octal 7777.
    #[error("a mode above 7777")]
    BadMode,
    /// No inodes, or more than 16,777,216.
    #[error("no such number of inodes")]
    BadMost,
    /// A path that doesn't come after the one before it.
    #[error("not in order")]
    NotInOrder,
    /// A path in no directory.
    #[error("not in a directory")]
    NoParent,
    /// A path at which something stands already.
    #[error("something stands there already")]
    Occupied,
    /// A file or symlink without names.
    #[error("no name")]
    NoNames,
    /// A number of 0, or one that isn't above those before it.
    #[error("a number that is taken")]
    BadNumber,
    /// A file's meta or content, or a symlink's target, that is past its limits.
    #[error("past a limit of files")]
    BadBody,
    /// More inodes than the layer may have, or the last number.
    #[error("the layer is full")]
    Full,
}

/// Why parts make no layer.
#[derive(Clone, Copy, Debug, PartialEq, Eq, Error)]
pub enum RestoreError {
    /// A part that no layer has there.
    #[error("{0}: {1}")]
    Malformed(Part, Fault),
    /// A growth was refused.
    #[error("out of memory")]
    OutOfMemory(NoMemory),
}

impl From<AllocError> for RestoreError {
    ghost use Rattle.snap_saved.specs.declared.error.RestoreError.TheVariants.{OutOfMemory};

    ghost from_gives = { λ _ e. e ≡ OutOfMemory no_memory };

    fn from(refused: AllocError) -> RestoreError {
        RestoreError::OutOfMemory(refused.into())
    }
}

/// Why a piece isn't put.
#[derive(Clone, Copy, Debug, PartialEq, Eq, Error)]
pub enum PieceError {
    /// Bytes or a name where no file or symlink has begun, or bytes where it keeps none.
    #[error("not in its place")]
    Misplaced,
    /// With these bytes the file has more than 1,048,576.
    #[error("more than 1,048,576 bytes")]
    TooBig,
    /// A growth was refused.
    #[error("out of memory")]
    OutOfMemory(NoMemory),
}

impl From<AllocError> for PieceError {
    ghost use Rattle.snap_saved.specs.declared.error.PieceError.TheVariants.{OutOfMemory};

    ghost from_gives = { λ _ e. e ≡ OutOfMemory no_memory };

    fn from(refused: AllocError) -> PieceError {
        PieceError::OutOfMemory(refused.into())
    }
}

impl<T: Drop> From<AllocFailed<T>> for PieceError {
    ghost use Rattle.snap_saved.specs.declared.error.PieceError.TheVariants.{OutOfMemory};

    ghost from_gives = { λ _ e. e ≡ OutOfMemory no_memory };

    fn from(failed: AllocFailed<T>) -> PieceError {
        PieceError::OutOfMemory(failed.into())
    }
}

/// The error where an edit for the part was refused.
pub(crate) fn refused(error: LayerError, part: Part) -> RestoreError
    ensures { result ≡ refusal error part }
{
    match error {
        LayerError::LayerFull => RestoreError::Malformed(part, Fault::Full),
        LayerError::OutOfMemory(no_memory) => RestoreError::OutOfMemory(no_memory),
    }
}
