use json::Invalid;
use snap_path::NoMemory;
use std::alloc::{AllocError, AllocFailed};

/// Why no value was read.
#[derive(Clone, Copy, Debug, PartialEq, Eq)]
pub enum Unreadable {
    /// The text is no value that `serde_json` reads.
    NotJson,
    OutOfMemory(NoMemory),
}

impl From<Invalid> for Unreadable {
    ghost use Rattle.std.specs.Prelude.{◌≡◌};
    ghost use Rattle.snap_json.specs.declared.unreadable.Unreadable.TheVariants.{NotJson};

    ghost from_gives = { λ _ e. e ≡ NotJson };

    fn from(_invalid: Invalid) -> Unreadable {
        Unreadable::NotJson
    }
}

impl From<AllocError> for Unreadable {
    ghost use Rattle.std.specs.Prelude.{◌≡◌};
    ghost use Rattle.snap_path.specs.Memory.{no_memory};
    ghost use Rattle.snap_json.specs.declared.unreadable.Unreadable.TheVariants.{OutOfMemory};

    ghost from_gives = { λ _ e. e ≡ OutOfMemory no_memory };

    fn from(refused: AllocError) -> Unreadable {
        Unreadable::OutOfMemory(refused.into())
    }
}

impl<T: Drop> From<AllocFailed<T>> for Unreadable {
    ghost use Rattle.std.specs.Prelude.{◌≡◌};
    ghost use Rattle.snap_path.specs.Memory.{no_memory};
    ghost use Rattle.snap_json.specs.declared.unreadable.Unreadable.TheVariants.{OutOfMemory};

    ghost from_gives = { λ _ e. e ≡ OutOfMemory no_memory };

    fn from(failed: AllocFailed<T>) -> Unreadable {
        Unreadable::OutOfMemory(failed.into())
    }
}
