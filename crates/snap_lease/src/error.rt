//! Why a call on leases fails.
ghost use Rattle.std.specs.Prelude.{◌≡◌};
ghost use Rattle.snap_path.specs.Memory.{no_memory};
ghost use Rattle.snap_lease.specs.declared.error.LeaseError.TheVariants.{OutOfMemory};

use snap_path::NoMemory;
use std::alloc::{AllocError, AllocFailed};
use thiserror::Error;

/// Why a call on [`Leases`](crate::Leases) fails. A call that fails leaves the leases as they were.
#[derive(Clone, Copy, Debug, PartialEq, Eq, Error)]
pub enum LeaseError {
    /// The namespace has no lease of this name.
    #[error("no such lease")]
    NoLease,
    /// The namespace has a lease of this name already.
    #[error("the lease exists already")]
    LeaseExists,
    /// A growth was refused.
    #[error("out of memory")]
    OutOfMemory(NoMemory),
}

/// Why a lease doesn't name a snapshot.
#[derive(Clone, Copy, Debug, PartialEq, Eq, Error)]
pub enum LeaseNameError {
    /// The namespace has no lease of this name.
    #[error("no such lease")]
    NoLease,
    /// The lease doesn't name the snapshot.
    #[error("no such name in the lease")]
    NoName,
}

impl From<AllocError> for LeaseError {
    ghost from_gives = { λ _ e. e ≡ OutOfMemory no_memory };

    fn from(refused: AllocError) -> LeaseError {
        LeaseError::OutOfMemory(refused.into())
    }
}

impl<T: Drop> From<AllocFailed<T>> for LeaseError {
    ghost from_gives = { λ _ e. e ≡ OutOfMemory no_memory };

    fn from(failed: AllocFailed<T>) -> LeaseError {
        LeaseError::OutOfMemory(failed.into())
    }
}
