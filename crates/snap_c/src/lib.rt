//! The static library for C: it runs a script that is in memory, as `snap_replay run` runs its standard input, and keeps
//! a store between calls, as `snap_replay serve` does between lines.
//!
//! What the caller of a run gets is `GivesRun` in `specs/Run.antt`: the text of `script` of `snap_session`, as `replay`
//! writes it, and how the run ended. What the caller of a store gets of a line is `Called` in `specs/Calls.antt`: what
//! `served` of `snap_session` makes of the store, and its text. `clients/c/pibroulez.h` has the declarations for C.
#![tactic(auto)]

ghost use Rattle.std.specs.Prelude.{◌≡◌};
ghost use Rattle.snap_c.specs.Run.{Given, GivesRun, line_number_of, options_of, status_at};

mod calls;
mod handle;
mod held;
mod loose;

pub use calls::{pibroulez_answer, pibroulez_call, pibroulez_close, pibroulez_open};
pub use handle::{Handle, Opaque};
use snap_script::FieldRule;
use snap_session::{RunOptions, Stop, replay};
use std::alloc::Global;

// The answers are longer than the room for them.
const NO_ROOM: u32 = 6;

// How a script is run, by the options of `snap_replay run`.
fn options_of(strict: bool, stop: bool) -> RunOptions
    ensures { result ≡ options_of strict stop }
{
    RunOptions {
        fields: if strict {
            FieldRule::Known
        } else {
            FieldRule::Any
        },
        stops_at_refusal: stop,
    }
}

// The status of a run that ended so.
fn status_at(ended: &Result<(), Stop>) -> u32
    ensures { result ≡ status_at ended.now }
{
    match ended {
        Ok(()) => 0,
        Err(stop) => u32::from(stop.status()),
    }
}

// The number of the line at which it ended, or 0.
fn line_at(ended: &Result<(), Stop>) -> u64
    ensures { result ≡ line_number_of ended.now }
{
    match ended {
        Ok(()) => 0,
        Err(Stop::Line(fault)) => fault.line,
        Err(Stop::InputFailed | Stop::OutputFailed | Stop::OutOfMemory(_)) => 0,
    }
}

// Gives the end of a run and its text to the caller.
fn give(
    ended: &Result<(), Stop>,
    text: &[u8],
    answers: &mut [u8],
    written: &mut usize,
    line: &mut u64,
) -> u32
    ensures { Given ended.now text.now result line.new written.new answers.old answers.new }
{
    *line = line_at(ended);
    *written = text.len();
    if answers.len() < text.len() {
        return NO_ROOM;
    }
    answers[..text.len()].copy_from_slice(text);
    status_at(ended)
}

/// Runs a script, as `snap_replay run` does, by `--strict` and by `--stop` where these are true. The answers go to the
/// front of the room for them, their number of bytes to `written`, and to `line` the number of the line that ended the
/// run, or 0.
///
/// The status is that of `snap_replay run`: 0 where all lines were answered; 2 for a line's fault, 3 where the answers
/// could not be kept, 4 where memory was refused, 5 for a command that was refused where that ends the run. The answers
/// are then those of whole lines from the first on, but for 3, by which a first part of a text may follow. It is 6 where
/// the room is too small: it is as it was, and `written` says how much the answers take.
///
/// A call has a store of its own, and lets it go. It takes memory for the answers beside what `replay` takes.
#[unsafe(no_mangle)]
pub extern "C" fn pibroulez_run(
    alloc: Global,
    script: &[u8],
    strict: bool,
    stop: bool,
    answers: &mut [u8],
    written: &mut usize,
    line: &mut u64,
) -> u32
    ensures { GivesRun (options_of strict stop) script.now result line.new written.new answers.old answers.new }
{
    let mut input = script;
    let mut output: Vec<u8> = Vec::new(alloc);
    let ended = replay(alloc, &mut input, &mut output, options_of(strict, stop));
    give(&ended, output.as_slice(), answers, written, line)
}
