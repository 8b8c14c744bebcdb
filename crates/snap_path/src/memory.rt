//! Want of memory: made of an allocator's refusal, and for a count at the last address.
ghost use Rattle.std.specs.Prelude.{◌≡◌, ◌≤◌, ◌+◌, ◌^◌};
ghost use Rattle.snap_path.specs.Memory.{no_memory};

use std::alloc::{AllocError, AllocFailed};
use thiserror::Error;

/// An allocator refused memory.
///
/// The field is private, so one is made of an error that a call of `std` answered, or, where its contract lets it,
/// by [`NoMemory::of_last_address`].
#[derive(Clone, Copy, Debug, PartialEq, Eq, Error)]
#[error("out of memory")]
pub struct NoMemory {
    refused: AllocError,
}

impl From<AllocError> for NoMemory {
    ghost from_gives = { λ _ n. n ≡ no_memory };

    fn from(refused: AllocError) -> NoMemory {
        NoMemory { refused }
    }
}

impl<T: Drop> From<AllocFailed<T>> for NoMemory {
    ghost from_gives = { λ _ n. n ≡ no_memory };

    fn from(failed: AllocFailed<T>) -> NoMemory {
        NoMemory {
            refused: failed.into(),
        }
    }
}

/// A function that fails by want of memory alone may answer the allocator's error itself.
impl From<NoMemory> for AllocError {
    fn from(no_memory: NoMemory) -> AllocError {
        no_memory.refused
    }
}

impl NoMemory {
    /// For a count that has come to the last addresses: no memory has room for one more of what it counts. It is
    /// no allocator's refusal, and stands where a count can't be bounded otherwise.
    pub fn of_last_address(_count: usize) -> NoMemory
        requires { 2 ^ 64 ≤ _count + 2 }
        ensures { result ≡ no_memory }
    {
        NoMemory {
            refused: AllocError,
        }
    }

    /// The refusal, and the value that was not stored.
    pub fn with_value<T>(failed: AllocFailed<T>) -> (NoMemory, T)
        ensures { result.1 ≡ failed.value }
    {
        let no_memory = NoMemory {
            refused: AllocError,
        };
        (no_memory, failed.value)
    }
}
