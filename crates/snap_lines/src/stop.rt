ghost use Rattle.std.specs.Prelude.{◌≡◌, Some};
ghost use Rattle.snap_path.specs.Memory.{no_memory};
ghost use Rattle.snap_lines.specs.Words.{fault_status, status_of};

use snap_path::NoMemory;
use snap_script::Fault;
use std::alloc::{AllocError, AllocFailed};
use std::fmt;

/// The line, counted from 1 with the empty ones, and what is wrong with it.
#[derive(Debug, PartialEq, Eq, Drop)]
pub struct LineFault {
    pub line: u64,
    pub cause: Fault,
}

/// Why a run ended before the end of its input.
#[derive(Debug, PartialEq, Eq, Drop)]
pub enum Stop {
    /// A line is no command, or its command was refused where the run ends at that.
    Line(LineFault),
    /// A read failed, or there were more reads than were allowed.
    InputFailed,
    /// A write failed.
    OutputFailed,
    /// Memory was refused.
    OutOfMemory(NoMemory),
}

impl From<AllocError> for Stop {
    ghost use Rattle.std.specs.Prelude.{◌≡◌};
    ghost use Rattle.snap_lines.specs.declared.stop.Stop.TheVariants.{OutOfMemory};

    ghost from_gives = { λ _ e. e ≡ OutOfMemory no_memory };

    fn from(refused: AllocError) -> Stop {
        Stop::OutOfMemory(refused.into())
    }
}

impl<T: Drop> From<AllocFailed<T>> for Stop {
    ghost use Rattle.std.specs.Prelude.{◌≡◌};
    ghost use Rattle.snap_lines.specs.declared.stop.Stop.TheVariants.{OutOfMemory};

    ghost from_gives = { λ _ e. e ≡ OutOfMemory no_memory };

    fn from(failed: AllocFailed<T>) -> Stop {
        Stop::OutOfMemory(failed.into())
    }
}

// The status of a program that ends at a line of this fault.
fn fault_status(fault: &Fault) -> u8
    ensures { result ≡ fault_status fault.now }
{
    match fault {
        Fault::Refused(_) => 5,
        Fault::TooLong
        | Fault::NotJson
        | Fault::NotAnObject
        | Fault::FirstLineMustBeOpen
        | Fault::OpenTwice
        | Fault::NoSuchCommand(_)
        | Fault::UnknownField(_, _)
        | Fault::BadField(_, _)
        | Fault::Operation(_, _)
        | Fault::BadOpen(_) => 2,
    }
}

impl Stop {
    /// The status of a program that ends with it: 2 for a line's fault, 3 for a read or a write, 4 for memory, 5 for a
    /// command that was refused.
    pub fn status(&self) -> u8
        ensures { result ≡ status_of self.now }
    {
        match self {
            Stop::Line(fault) => fault_status(&fault.cause),
            Stop::InputFailed | Stop::OutputFailed => 3,
            Stop::OutOfMemory(_) => 4,
        }
    }
}

/// The words for it; a width or a precision has no effect.
impl fmt::Display for Stop {
    ghost use Rattle.std.specs.Prelude.{Some};
    ghost use Rattle.snap_lines.specs.Words.{stop_words};

    ghost output = { λ s. Some (stop_words s) };

    fn fmt<W: fmt::Write>(&self, f: &mut fmt::Formatter<W>) -> fmt::Result {
        match self {
            Stop::Line(fault) => write!(f, "{}", fault),
            Stop::InputFailed => f.write_str("input failed"),
            Stop::OutputFailed => f.write_str("output failed"),
            Stop::OutOfMemory(_) => f.write_str("want of memory"),
        }
    }
}

/// The words for it; a width or a precision has no effect.
impl fmt::Display for LineFault {
    ghost use Rattle.std.specs.Prelude.{Some};
    ghost use Rattle.snap_lines.specs.Words.{line_words};

    ghost output = { λ s. Some (line_words s) };

    fn fmt<W: fmt::Write>(&self, f: &mut fmt::Formatter<W>) -> fmt::Result {
        let (line, cause) = (self.line, &self.cause);
        write!(f, "line {line}: {cause}")
    }
}
