// Whether the sessions that are handed in are all those of a round.
ghost use Rattle.std.specs.Prelude.{◌≡◌, ℕ, ◌<◌, ◌↔◌, All, IfOk, IsTrue, IfSome, IfNone, IsSome, None, Some, if◌then◌else◌, count_by, length, slice_get, slice_set};
ghost use Rattle.std.specs.List.{AllByRecursion};
ghost use Rattle.snap_tape.specs.Sessions.{AreOnce, has_session_number};
ghost use Rattle.snap_tape.specs.Following.{AreIndexes, index_in};

use crate::session::Session;
use snap_call::SharedEntry;
use std::alloc::{AllocError, Global};

// Every entry is of one of the first `sessions` sessions.
pub(crate) fn are_known(journal: &[SharedEntry], sessions: usize) -> bool
    ensures { IsTrue result ↔ AllByRecursion (λ e. e.session < sessions) journal.now }
{
    journal
        .iter()
        .all(|entry| entry.entry().session < sessions as u64)
}

// How many sessions have this number.
fn count_with(sessions: &[Session], number: u64) -> usize
    ensures { result ≡ count_by (has_session_number number) sessions.now }
{
    sessions
        .iter()
        .filter(|session| session.number() == number)
        .count()
}

// The numbers are below the number of sessions.
fn are_inside(sessions: &[Session]) -> bool
    ensures { IsTrue result ↔ AllByRecursion (λ s. s.number < length sessions.now) sessions.now }
{
    sessions
        .iter()
        .all(|session| session.number() < sessions.len() as u64)
}

// Each number below the number of sessions stands once.
fn is_each_once(sessions: &[Session]) -> bool
    ensures { IsTrue result ↔ ((n : ℕ) → n < length sessions.now → count_by (has_session_number n) sessions.now ≡ 1) }
{
    for number in 0..sessions.len() as u64 {
        if count_with(sessions, number) != 1 {
            return false;
        }
    }
    true
}

// The numbers are 0 to n - 1, each once. It takes no memory, and grows with the square of the sessions.
pub(crate) fn are_once(sessions: &[Session]) -> bool
    ensures { IsTrue result ↔ AreOnce sessions.now }
{
    are_inside(sessions) && is_each_once(sessions)
}

// The place of the session of this number.
pub(crate) fn index_in(indexes: &[Option<usize>], number: u64) -> Option<usize>
    ensures { result ≡ index_in indexes.now number }
{
    match indexes.get(number as usize) {
        Some(index) => *index,
        None => None,
    }
}

// Puts a place at the number, where none stands there yet.
fn set_index(indexes: &mut [Option<usize>], number: u64, place: usize) -> bool
    ensures free { IsTrue result ↔ (slice_get indexes.old number ≡ Some None) }
    ensures taken { indexes.new ≡ (if result then slice_set indexes.old number (Some place) else indexes.old) }
{
    match indexes.get(number as usize) {
        Some(None) => {
            indexes[number as usize] = Some(place);
            true
        }
        _ => false,
    }
}

// The place of each session at its number; none where two have one number, or one has none of these.
fn indexes_of(alloc: Global, sessions: &[Session]) -> Result<Option<Vec<Option<usize>>>, AllocError>
    ensures indexes { IfOk result (λ indexes. IfSome indexes (λ indexes. AreIndexes sessions.now indexes.items)) }
    ensures size { IfOk result (λ indexes. IfSome indexes (λ indexes. length indexes.items ≡ length sessions.now)) }
    ensures none { IfOk result (λ indexes. IfNone indexes (AreOnce sessions.now → ⊥)) }
{
    let mut indexes = vec![in alloc; None; sessions.len()]?;
    for (place, session) in sessions.iter().enumerate() {
        if !set_index(indexes.as_mut_slice(), session.number(), place) {
            return Ok(None);
        }
    }
    Ok(Some(indexes))
}

// No place is free.
fn are_taken(indexes: &[Option<usize>]) -> bool
    ensures { IsTrue result ↔ All (λ index. IsSome index) indexes.now }
{
    indexes.iter().all(|index| index.is_some())
}

// The place of each session at its number, where the numbers are 0 to n - 1, each once.
pub(crate) fn all_indexes(
    alloc: Global,
    sessions: &[Session],
) -> Result<Option<Vec<Option<usize>>>, AllocError>
    ensures indexes { IfOk result (λ indexes. IfSome indexes (λ indexes. AreIndexes sessions.now indexes.items × AreOnce sessions.now)) }
    ensures none { IfOk result (λ indexes. IfNone indexes (AreOnce sessions.now → ⊥)) }
{
    let Some(indexes) = indexes_of(alloc, sessions)? else {
        return Ok(None);
    };
    if are_taken(indexes.as_slice()) {
        Ok(Some(indexes))
    } else {
        Ok(None)
    }
}
