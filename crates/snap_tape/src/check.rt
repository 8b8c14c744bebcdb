// The check of all sessions of a round.
ghost use Rattle.std.specs.Prelude.{List, IfOk};
ghost use Rattle.snap_call.specs.declared.entry.Entry.{Entry as EntryValue};
ghost use Rattle.snap_tape.specs.Sessions.{AreAll, IsCheck, IsFirstMismatch};
ghost use Rattle.snap_tape.specs.Tapes.{SessionValue};

use crate::indexes::{all_indexes, are_known, are_once};
use crate::mismatch::{Mismatch, first_indexed, first_mismatch};
use crate::session::Session;
use snap_call::SharedEntry;
use std::alloc::{AllocError, Global};

/// What is wrong with the sessions of a round.
#[derive(Clone, Copy, Debug, PartialEq, Eq)]
pub enum SessionsFault {
    /// They are not all those of the round: their numbers are not 0 to n - 1, each once, or an entry of the
    /// journal has another.
    Missing,
    /// A tape doesn't have exactly its session's entries of the journal.
    Mismatch(Mismatch),
}

// Of sessions that are all those of the round.
fn checked(first: Option<Mismatch>) -> Result<(), SessionsFault>
    ensures { (journal : List EntryValue) (sessions : List SessionValue) → AreAll journal sessions → IsFirstMismatch journal sessions first → IsCheck journal sessions result }
{
    match first {
        Some(mismatch) => Err(SessionsFault::Mismatch(mismatch)),
        None => Ok(()),
    }
}

// In one pass over the journal and the tapes.
fn check_indexed(
    alloc: Global,
    journal: &[SharedEntry],
    sessions: &[Session],
) -> Result<Result<(), SessionsFault>, AllocError>
    ensures { IfOk result (λ check. IsCheck journal.now sessions.now check) }
{
    let Some(indexes) = all_indexes(alloc, sessions)? else {
        return Ok(Err(SessionsFault::Missing));
    };
    if !are_known(journal, sessions.len()) {
        return Ok(Err(SessionsFault::Missing));
    }
    let first = first_indexed(alloc, journal, sessions, indexes.as_slice())?;
    Ok(checked(first))
}

// Without memory.
fn check_counted(journal: &[SharedEntry], sessions: &[Session]) -> Result<(), SessionsFault>
    ensures { IsCheck journal.now sessions.now result }
{
    if !are_once(sessions) || !are_known(journal, sessions.len()) {
        return Err(SessionsFault::Missing);
    }
    checked(first_mismatch(journal, sessions))
}

/// Checks that the sessions are all those of the round, and then that each tape has just its session's own
/// entries of the journal, in order.
///
/// Takes memory for a place and a number for each session, and answers the same where it is refused. The
/// cost is one pass over the journal and the tapes; without memory it grows with the sessions times the
/// entries, and with the square of the sessions.
pub fn check_sessions(
    alloc: Global,
    journal: &[SharedEntry],
    sessions: &[Session],
) -> Result<(), SessionsFault>
    ensures { IsCheck journal.now sessions.now result }
{
    match check_indexed(alloc, journal, sessions) {
        Ok(check) => check,
        Err(_) => check_counted(journal, sessions),
    }
}
