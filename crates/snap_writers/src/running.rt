// An operation, with the charge that it needs.
ghost use Rattle.std.specs.Prelude.{◌≡◌, ◌≤◌, ◌+◌, OnOk, OnErr, Ok};
ghost use Rattle.snap_upper.specs.After.{after};
ghost use Rattle.snap_writers.specs.Run.{HasRun, IsSameSnapshot};

use snap_book::{Active, ApplyFault, Refusal};
use snap_merge::FsError;
use snap_store::{RoundName, Session, Store, StoreCharger};
use snap_upper::Op;
use snap_usage::Usage;
use std::sync::Wait;
use thiserror::Error;

/// Why an operation was not done.
#[derive(Clone, Copy, Debug, PartialEq, Eq, Error)]
pub enum RunError {
    /// The operation's own error, or want of memory.
    #[error("{0}")]
    File(FsError),
    /// The refusal of the charge that it needs.
    #[error("{0}")]
    Book(Refusal),
}

/// Does the operation on the snapshot's layer. Where the share doesn't cover what the layer takes
/// afterwards, it charges the snapshot for that, and for an extra amount too where the limit covers it
/// ([`wanted`](snap_book::wanted)), and does the operation then.
///
/// The session's tape gets an entry exactly where a charge was asked for and wasn't refused by
/// `JournalFull` or `OutOfMemory`. `File` with the operation's error, or with `OutOfMemory`; `Book` with the
/// charge's refusal. After an error the layer is as it was. Where memory is refused after the charge, the
/// charge stays as spare, and the same operation again charges nothing.
///
/// It waits for the store's lock where a charge is needed, and else for nobody. The cost is that of
/// [`Active::apply_by`], and of [`Store::charge`] where a charge is needed.
pub fn run<N: RoundName, R: Wait>(
    store: &Store<N>,
    rt: &R,
    session: &mut Session,
    active: &mut Active<N>,
    op: &Op,
    extra: Usage,
) -> Result<(), RunError>
    // Ok: the layer is the operation's next one.
    ensures done { OnOk result (after op.now active.old.layer active.old.lowers ≡ Ok active.new.layer) }
    // Err: the layer is as it was.
    ensures unchanged { OnErr result (active.new.layer ≡ active.old.layer) }
    ensures same { IsSameSnapshot active.old active.new }
    ensures room { session.old.spare ≤ session.new.spare + 1 }
    // All of it: which answer, what is on the tape, and the share.
    ensures run { HasRun session.old session.new active.old active.new op.now extra result }
{
    match active.apply_by(&StoreCharger { store, rt }, session, op, extra) {
        Ok(_) => Ok(()),
        Err(fault) => match fault {
            ApplyFault::File(error) => Err(RunError::File(error)),
            ApplyFault::Charge(why) => Err(RunError::Book(why)),
        },
    }
}
