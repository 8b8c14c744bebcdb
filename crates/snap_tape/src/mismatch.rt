// The comparison of tapes with the journal.
ghost use Rattle.std.specs.Prelude.{◌≡◌, ◌++◌, ◌∷◌, [], List, IfOk, length};
ghost use Rattle.snap_call.specs.Journal.{session_entries};
ghost use Rattle.snap_call.specs.declared.entry.Entry.{Entry as EntryValue};
ghost use Rattle.snap_tape.specs.Sessions.{IsFirst, IsFirstMismatch};
ghost use Rattle.snap_tape.specs.Following.{AreFollowed, AreIndexes, IsDifference, IsProgress};
ghost use Rattle.snap_tape.specs.Tapes.{SessionValue};

use crate::indexes::index_in;
use crate::session::Session;
use snap_call::SharedEntry;
use std::alloc::{AllocError, Global};

/// Where the tape of a session and its own entries of the journal differ first: the session's number, and
/// the place on its tape, from 0.
#[derive(Clone, Copy, Debug, PartialEq, Eq)]
pub struct Mismatch {
    pub session: u64,
    pub place: usize,
}

// How far a tape was compared with its session's entries: up to a place, at which they may differ.
#[derive(Clone, Copy)]
struct Progress {
    place: usize,
    differs: bool,
}

impl Progress {
    // No entry was compared.
    fn start() -> Progress
        ensures { (tape : List EntryValue) → IsProgress tape [] result }
    {
        Progress {
            place: 0,
            differs: false,
        }
    }

    // The session has one more entry.
    fn next(self, tape: &[SharedEntry], entry: &SharedEntry) -> Progress
        ensures { (seen : List EntryValue) → IsProgress tape.now seen self → IsProgress tape.now (seen ++ entry.now ∷ []) result }
    {
        if self.differs {
            return self;
        }
        match tape.get(self.place) {
            Some(copy) if copy.is_same(entry) => Progress {
                place: self.place + 1,
                differs: false,
            },
            _ => Progress {
                place: self.place,
                differs: true,
            },
        }
    }

    // The session has no more entries.
    fn end(self, tape: &[SharedEntry]) -> Option<usize>
        ensures { (seen : List EntryValue) → IsProgress tape.now seen self → IsDifference tape.now seen result }
    {
        if self.differs || self.place < tape.len() {
            Some(self.place)
        } else {
            None
        }
    }
}

// The first place at which the session's tape and its own entries differ.
fn difference_of(journal: &[SharedEntry], session: &Session) -> Option<usize>
    ensures { IsDifference session.now.tape (session_entries journal.now session.now.number) result }
{
    let number = session.number();
    let tape = session.tape();
    let mut progress = Progress::start();
    for entry in journal {
        if entry.entry().session == number {
            progress = progress.next(tape, entry);
        }
    }
    progress.end(tape)
}

// The mismatch of a session, from the first place at which its tape differs.
fn mismatch_at(session: &Session, difference: Option<usize>) -> Option<Mismatch>
    ensures { (journal : List EntryValue) → IsDifference session.now.tape (session_entries journal session.now.number) difference → IsFirstMismatch journal (session.now ∷ []) result }
{
    match difference {
        Some(place) => Some(Mismatch {
            session: session.number(),
            place,
        }),
        None => None,
    }
}

// The one of a lesser session, or of the same session at a lesser place.
fn lesser(a: Mismatch, b: Mismatch) -> Mismatch
    ensures { (journal : List EntryValue) (left right : List SessionValue) → IsFirst journal left a → IsFirst journal right b → IsFirst journal (left ++ right) result }
{
    if b.session < a.session {
        return b;
    }
    if a.session < b.session {
        return a;
    }
    if b.place < a.place { b } else { a }
}

// The first mismatch of the sessions of two lists.
fn earlier(a: Option<Mismatch>, b: Option<Mismatch>) -> Option<Mismatch>
    ensures { (journal : List EntryValue) (left right : List SessionValue) → IsFirstMismatch journal left a → IsFirstMismatch journal right b → IsFirstMismatch journal (left ++ right) result }
{
    match (a, b) {
        (Some(a), Some(b)) => Some(lesser(a, b)),
        (Some(a), None) => Some(a),
        (None, b) => b,
    }
}

/// The first mismatch between the tapes of the sessions and their own entries of the journal: that of the
/// least session, and of its first place. None exactly where each tape has just its session's entries, in
/// order.
///
/// Takes no memory. The cost grows with the number of sessions times that of the entries; a close takes one
/// pass where it has memory.
pub fn first_mismatch(journal: &[SharedEntry], sessions: &[Session]) -> Option<Mismatch>
    ensures { IsFirstMismatch journal.now sessions.now result }
{
    let mut first = None;
    for session in sessions {
        first = earlier(first, mismatch_at(session, difference_of(journal, session)));
    }
    first
}

// One more entry of the journal: its session's tape is compared one place further.
fn follow_entry(
    sessions: &[Session],
    indexes: &[Option<usize>],
    progress: &mut [Progress],
    entry: &SharedEntry,
)
    requires indexes { AreIndexes sessions.now indexes.now }
    requires size { length progress.old ≡ length sessions.now }
    ensures size { length progress.new ≡ length progress.old }
    ensures followed { (seen : List EntryValue) → AreFollowed seen sessions.now progress.old → AreFollowed (seen ++ entry.now ∷ []) sessions.now progress.new }
{
    if let Some(index) = index_in(indexes, entry.entry().session) {
        progress[index] = progress[index].next(sessions[index].tape(), entry);
    }
}

// Compares each tape as far as its session's entries go, in one pass over the journal.
fn follow(
    alloc: Global,
    journal: &[SharedEntry],
    sessions: &[Session],
    indexes: &[Option<usize>],
) -> Result<Vec<Progress>, AllocError>
    requires { AreIndexes sessions.now indexes.now }
    ensures size { IfOk result (λ progress. length progress.items ≡ length sessions.now) }
    ensures followed { IfOk result (λ progress. AreFollowed journal.now sessions.now progress.items) }
{
    let mut progress = vec![in alloc; Progress::start(); sessions.len()]?;
    for entry in journal {
        follow_entry(sessions, indexes, progress.as_mut_slice(), entry);
    }
    Ok(progress)
}

// The first mismatch of the sessions that were compared so far.
fn first_followed(sessions: &[Session], progress: &[Progress]) -> Option<Mismatch>
    requires { length progress.now ≡ length sessions.now }
    ensures { (journal : List EntryValue) → AreFollowed journal sessions.now progress.now → IsFirstMismatch journal sessions.now result }
{
    let mut first = None;
    for (place, session) in sessions.iter().enumerate() {
        let difference = progress[place].end(session.tape());
        first = earlier(first, mismatch_at(session, difference));
    }
    first
}

// As `first_mismatch`, in one pass over the journal and the tapes.
pub(crate) fn first_indexed(
    alloc: Global,
    journal: &[SharedEntry],
    sessions: &[Session],
    indexes: &[Option<usize>],
) -> Result<Option<Mismatch>, AllocError>
    requires { AreIndexes sessions.now indexes.now }
    ensures { IfOk result (λ first. IsFirstMismatch journal.now sessions.now first) }
{
    let progress = follow(alloc, journal, sessions, indexes)?;
    Ok(first_followed(sessions, progress.as_slice()))
}
