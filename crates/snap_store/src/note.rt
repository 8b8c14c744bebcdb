// Which calls left an entry, by their answers, and how it gets on the tape.
ghost use Rattle.std.specs.Prelude.{◌≡◌, ◌≤◌, ◌<◌, ◌+◌, None, length, if◌then◌else◌};
ghost use Rattle.snap_tape.specs.Tapes.{count_with, is_recorded, is_noted, session_with_entry};
ghost use Rattle.snap_store.specs.Rounds.{round_of};

use snap_book::{Book, Refusal, Reply, SharedEntry};
use snap_ledger::StoreName;
use snap_tape::{Session, TapeCount};

// A refused call left an entry, except where the journal is full or memory is refused.
pub(crate) fn is_recorded(why: Refusal) -> bool
    ensures { result ≡ is_recorded why }
{
    match why {
        Refusal::JournalFull | Refusal::OutOfMemory(_) => false,
        _ => true,
    }
}

// So did a call with this reply.
pub(crate) fn is_noted(reply: &Reply) -> bool
    ensures { result ≡ is_noted reply.now }
{
    match reply {
        Reply::Refused(why) => is_recorded(*why),
        _ => true,
    }
}

// The last entry, for the tape, where the last call left one.
fn entry_of<N: StoreName>(book: &mut Book<N>, is_there: bool) -> Option<SharedEntry>
    ensures entry { result ≡ (if is_there then book.old.copy else None) }
    ensures round { round_of book.new ≡ round_of book.old }
    ensures journal { book.new.journal ≡ book.old.journal }
{
    if is_there { book.take_entry() } else { None }
}

// Puts it on the tape and counts it. The journal has it, and else as many entries as were counted.
pub(crate) fn note_entry<N: StoreName>(
    book: &mut Book<N>,
    tapes: &mut TapeCount,
    session: &mut Session,
    is_there: bool,
)
    requires room { 0 < session.old.spare }
    requires made { count_with tapes.old (if is_there then book.old.copy else None) ≡ length book.old.journal }
    ensures entry { session.new ≡ session_with_entry session.old (if is_there then book.old.copy else None) }
    ensures room { session.old.spare ≤ session.new.spare + 1 }
    ensures round { round_of book.new ≡ round_of book.old }
    ensures count { tapes.new ≡ length book.new.journal }
{
    let entry = entry_of(book, is_there);
    tapes.note(session, book.journal(), entry);
}
