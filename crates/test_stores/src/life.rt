// The life of a snapshot, in the two tasks that containerd has a snapshotter for: a layer is unpacked
// and committed, and then a container runs on it. No test runs these functions; that they meet what
// each call asks is proved.
use snap_book::{Active, Book, Held, Sealed};
use snap_call::Refusal;
use snap_ledger::StoreName;
use snap_merge::FsError;
use snap_record::{Labels, Text};
use snap_upper::Op;
use snap_usage::Usage;
use std::test::Fail;

/// Does the operation. Where the share doesn't cover the layer afterwards, the snapshot is charged for
/// what is missing, and the operation is done then.
fn do_charged<N: StoreName>(
    book: &mut Book<N>,
    session: u64,
    active: &mut Active<N>,
    op: &Op,
) -> Result<(), Fail> {
    match active.apply(op) {
        Err(FsError::NeedsCharge(need)) => {
            book.charge(session, active, need, need)?;
            active.apply(op)?;
            Ok(())
        }
        Err(error) => Err(error.into()),
        Ok(()) => Ok(()),
    }
}

/// Commits the snapshot under the name, or drops it. The answer is what the layer takes.
fn commit_or_discard<N: StoreName>(
    book: &mut Book<N>,
    session: u64,
    name: Text,
    sealed: Sealed<N>,
) -> Result<Usage, Refusal> {
    match book.commit(session, name, None, None, sealed) {
        Ok(usage) => Ok(usage),
        Err((why, sealed)) => {
            book.discard(session, Held::Sealed(sealed));
            Err(why)
        }
    }
}

/// A layer of an image is unpacked: an active snapshot over its parent is filled, sealed and committed under the name.
/// From then on it never changes, and its namespace is charged exactly its blocks and inodes.
fn unpack_layer<N: StoreName>(
    book: &mut Book<N>,
    session: u64,
    name: Text,
    parent: &str,
    labels: &Labels,
    files: &[Op],
) -> Result<Usage, Fail> {
    let mut active = book.prepare(session, "images", "unpacking", parent, labels)?;
    for op in files {
        if let Err(fail) = do_charged(book, session, &mut active, op) {
            book.discard(session, Held::Active(active));
            return Err(fail);
        }
    }
    match active.seal() {
        Ok(sealed) => Ok(commit_or_discard(book, session, name, sealed)?),
        Err((no_memory, active)) => {
            book.discard(session, Held::Active(active));
            Err(Refusal::OutOfMemory(no_memory).into())
        }
    }
}

/// A container runs on a committed layer: its active snapshot takes what the container writes, and is
/// dropped at the end, with all that its namespace was charged for it.
fn run_container<N: StoreName>(
    book: &mut Book<N>,
    session: u64,
    labels: &Labels,
    written: &[Op],
) -> Result<Usage, Fail> {
    let mut active = book.prepare(session, "images", "container", "layer", labels)?;
    for op in written {
        if let Err(fail) = do_charged(book, session, &mut active, op) {
            book.discard(session, Held::Active(active));
            return Err(fail);
        }
    }
    Ok(book.discard(session, Held::Active(active)))
}
