// Why a command is not carried out.
use crate::stop::Stop;
use snap_book::Refusal;
use snap_merge::FsError;
use snap_script::Answer;
use std::alloc::{AllocError, AllocFailed};

#[derive(Clone, Copy)]
pub(crate) enum Refused {
    // The script holds no such snapshot.
    NotHeld,
    // The session isn't open.
    NoSession,
    // The snapshot is sealed.
    NoHand,
    // A snapshot is open, so the round goes on.
    StillOut,
    // The store's refusal.
    Book(Refusal),
    // An error of a file command or of a lookup.
    File(FsError),
}

impl Refused {
    // What the script is answered, if anything. Want of memory ends the run.
    pub(crate) fn answer(self) -> Result<Option<Answer>, Stop> {
        match self {
            Refused::NotHeld => Ok(None),
            Refused::NoSession => Ok(Some(Answer::NoSession)),
            Refused::NoHand => Ok(Some(Answer::NoHand)),
            Refused::StillOut => Ok(Some(Answer::StillOut)),
            Refused::Book(Refusal::OutOfMemory(_)) => Err(Stop::NoMemory),
            Refused::Book(why) => Ok(Some(Answer::refused(why))),
            Refused::File(FsError::OutOfMemory(_)) => Err(Stop::NoMemory),
            Refused::File(error) => Ok(Some(Answer::Failed(error))),
        }
    }
}

impl From<Refusal> for Refused {
    ghost from_gives = { λ _ _. Unit {0} };

    fn from(why: Refusal) -> Refused {
        Refused::Book(why)
    }
}

impl From<FsError> for Refused {
    ghost from_gives = { λ _ _. Unit {0} };

    fn from(error: FsError) -> Refused {
        Refused::File(error)
    }
}

impl From<AllocError> for Refused {
    ghost from_gives = { λ _ _. Unit {0} };

    fn from(refused: AllocError) -> Refused {
        Refused::Book(Refusal::OutOfMemory(refused.into()))
    }
}

impl<T: Drop> From<AllocFailed<T>> for Refused {
    ghost from_gives = { λ _ _. Unit {0} };

    fn from(failed: AllocFailed<T>) -> Refused {
        Refused::Book(Refusal::OutOfMemory(failed.into()))
    }
}
