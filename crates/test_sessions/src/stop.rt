// Why a run ends before the end of its input.
use snap_script::ReadError;
use std::alloc::AllocError;
use std::io;
use std::io::ErrorKind;

#[derive(Clone, Copy)]
pub(crate) enum Stop {
    // The store was not closed, or no next round of it was opened.
    NotClosed,
    // A line is no command.
    Line,
    // A word asks for nothing.
    Word,
    InputFailed,
    OutputFailed,
    NoMemory,
}

impl Stop {
    // The status, and what is said on standard error.
    pub(crate) fn told(self) -> (u8, &'static str) {
        match self {
            Stop::NotClosed => (1, "the store is not closed"),
            Stop::Line => (2, "a line is no command"),
            Stop::Word => (2, "a word asks for nothing"),
            Stop::InputFailed => (3, "input failed"),
            Stop::OutputFailed => (3, "output failed"),
            Stop::NoMemory => (4, "want of memory"),
        }
    }
}

impl From<AllocError> for Stop {
    ghost from_gives = { λ _ _. Unit {0} };

    fn from(_error: AllocError) -> Stop {
        Stop::NoMemory
    }
}

impl From<ReadError> for Stop {
    ghost from_gives = { λ _ _. Unit {0} };

    fn from(error: ReadError) -> Stop {
        match error {
            ReadError::Fault(_) => Stop::Line,
            ReadError::OutOfMemory(_) => Stop::NoMemory,
        }
    }
}

// Of a word or a read. Bytes that are no text are lines that are no commands.
impl From<io::Error> for Stop {
    ghost from_gives = { λ _ _. Unit {0} };

    fn from(error: io::Error) -> Stop {
        match error.kind() {
            ErrorKind::OutOfMemory => Stop::NoMemory,
            ErrorKind::InvalidData => Stop::Line,
            _ => Stop::InputFailed,
        }
    }
}
