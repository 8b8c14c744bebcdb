// Why a store is not closed.
ghost use Rattle.std.specs.Prelude.{◌≡◌, ◌<◌, List, IfOk, IfErr};
ghost use Rattle.snap_call.specs.Records.{is_active, open_count};
ghost use Rattle.snap_call.specs.State.{name_at};
ghost use Rattle.snap_book.specs.Book.{BookValue};
ghost use Rattle.snap_tape.specs.Sessions.{IsCheck};
ghost use Rattle.snap_tape.specs.Tapes.{SessionValue};
ghost use Rattle.snap_store.specs.Closing.{IsCause, KeptBook, open_keys};

use snap_book::Book;
use snap_call::Records;
use snap_ledger::StoreName;
use snap_path::NoMemory;
use snap_record::{Content, Record, Sequence, Text};
use snap_tape::{Mismatch, Session, SessionsFault, check_sessions};
use std::alloc::{AllocError, Global};
use thiserror::Error;

/// The namespace and the key of a snapshot that is open.
#[derive(Debug, Drop)]
pub struct OpenKey {
    pub namespace: Text,
    pub key: Text,
}

/// Why a store is not closed. The causes are tested in this order.
#[derive(Debug, Drop, Error)]
pub enum Cause {
    /// Active snapshots are open: these, in the order of their namespaces' places, and of the bytes of their
    /// keys. Each is ended by a commit or a discard.
    #[error("snapshots are open")]
    StillOut(Sequence<OpenKey>),
    /// The sessions are not all those of the round: their numbers are not 0 to n - 1, each once, or an entry
    /// of the journal has another.
    #[error("sessions are missing")]
    SessionsMissing,
    /// A tape doesn't have exactly its session's entries of the journal.
    #[error("the tape of session {} differs at place {}", .0.session, .0.place)]
    TapeMismatch(Mismatch),
    /// Memory was refused for the list of what is open.
    #[error("out of memory")]
    OutOfMemory(NoMemory),
}

fn is_active(snapshot: &Record) -> bool
    ensures { result ≡ is_active snapshot.now.content }
{
    matches!(&snapshot.content, Content::Active { .. })
}

fn key_of<N: StoreName>(
    alloc: Global,
    book: &Book<N>,
    snapshot: &Record,
) -> Result<OpenKey, AllocError>
    ensures { IfOk result (λ key. key ≡ record { namespace = name_at snapshot.now.namespace book.now.state.namespaces; key = snapshot.now.key }) }
{
    Ok(OpenKey {
        namespace: Text::copy_of(alloc, book.namespace_at(snapshot.namespace))?,
        key: snapshot.key.clone()?,
    })
}

// The keys of the snapshots that are open among the book's records.
fn open_keys<N: StoreName>(
    alloc: Global,
    book: &Book<N>,
    records: &Records,
) -> Result<Sequence<OpenKey>, NoMemory>
    requires { records.now ≡ book.now.state.records }
    ensures { IfOk result (λ keys. keys ≡ open_keys book.now.state) }
{
    let records = records.list(alloc)?;
    let mut keys = Sequence::new(alloc);
    for record in &records {
        if is_active(record) {
            keys.push(key_of(alloc, book, record)?)?;
        }
    }
    Ok(keys)
}

// What the check of the sessions says, as a cause.
fn cause_of(check: Result<(), SessionsFault>) -> Option<Cause>
    ensures { (b : BookValue) (sessions : List SessionValue) → open_count b.state.records ≡ 0 → IsCheck b.journal sessions check → IsCause b sessions result }
{
    match check {
        Ok(()) => None,
        Err(SessionsFault::Missing) => Some(Cause::SessionsMissing),
        Err(SessionsFault::Mismatch(mismatch)) => Some(Cause::TapeMismatch(mismatch)),
    }
}

/// Why a book whose sessions are these can't be closed, or nothing where it can: `StillOut` exactly where a
/// snapshot is open, then `SessionsMissing` exactly where the sessions are not all those of the round, then
/// `TapeMismatch` with the first mismatch ([`first_mismatch`](crate::first_mismatch)).
///
/// `NoMemory` where memory for the list of open snapshots is refused, and at no other place. The cost is one
/// pass over the journal and the tapes; where memory for a place and a number of each session is refused, it
/// grows with the sessions times the entries.
pub fn close_cause<N: StoreName>(
    alloc: Global,
    book: &Book<N>,
    sessions: &[Session],
) -> Result<Option<Cause>, NoMemory>
    ensures cause { IfOk result (λ cause. IsCause book.now sessions.now cause) }
    // What the book keeps, where its round began without open snapshots.
    ensures kept { open_count book.now.opening.records ≡ 0 → KeptBook book.now }
    // Memory is taken for the list of what is open alone.
    ensures memory { IfErr result (λ _. 0 < open_count book.now.state.records) }
{
    let records = book.records();
    if book.open_slots() > 0 {
        return Ok(Some(Cause::StillOut(open_keys(alloc, book, records)?)));
    }
    Ok(cause_of(check_sessions(alloc, book.journal(), sessions)))
}
