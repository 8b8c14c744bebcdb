// An operation on an open snapshot, with the charge that it needs.
ghost use Rattle.std.specs.Prelude.{◌≡◌};
ghost use Rattle.snap_book.specs.Applied.{HasApplied, IsGranted, IsUncharged};

use crate::active::Active;
use crate::book::Book;
use crate::charge::wanted;
use crate::charger::{ApplyFault, Charger};
use snap_call::Refusal;
use snap_ledger::{Share, StoreName};
use snap_merge::FsError;
use snap_upper::Op;
use snap_usage::Usage;
use thiserror::Error;

/// Why an operation was not done.
#[derive(Clone, Copy, Debug, PartialEq, Eq, Error)]
pub enum OpFault {
    /// The operation's own error, or want of memory.
    #[error("{0}")]
    File(FsError),
    /// The refusal of the charge that it needs.
    #[error("{0}")]
    Book(Refusal),
    /// It needs a charge, and the session isn't open.
    #[error("it needs a charge, and the session is not open")]
    NoSession,
    /// It needs a charge, and the snapshot has another id.
    #[error("it needs a charge, and the snapshot has another id")]
    OtherId,
}

// A session of the book that charges the share of the snapshot of an id.
#[derive(Clone, Copy)]
struct BookCharger {
    session: u64,
    id: u32,
}

impl<N: StoreName> Charger<N> for BookCharger {
    type Ledger = Book<N>;

    type Fault = OpFault;

    ghost grants = { λ by b c s need extra now. IsGranted b c by.session by.id s need extra now };

    ghost refuses = { λ by b c s need extra fault. IsUncharged b c by.session by.id s need extra fault };

    fn charge(
        &self,
        book: &mut Book<N>,
        share: &mut Share<N>,
        need: Usage,
        extra: Usage,
    ) -> Result<(), OpFault> {
        if self.session >= book.sessions() {
            return Err(OpFault::NoSession);
        }
        if share.id() != self.id {
            return Err(OpFault::OtherId);
        }
        match book.charge_share(self.session, share, need, wanted(need, extra)) {
            Ok(()) => Ok(()),
            Err(why) => Err(OpFault::Book(why)),
        }
    }
}

impl<N: StoreName> Book<N> {
    /// Does the operation on the snapshot's layer. Where its share doesn't cover what the layer takes afterwards, it is
    /// charged for that first, and for an extra amount too where the limit covers it ([`wanted`]). The answer is
    /// what the layer takes now, in blocks of 4096 bytes and inodes.
    ///
    /// Errors, in this order: those of [`Active::apply`] but for `NeedsCharge`; and of an operation that needs a charge
    /// `NoSession`, `OtherId`, and the refusals of [`Book::charge`]; then `OutOfMemory`. After any of them the layer is as
    /// it was, and so is all else, but for the entry of a charge that is refused, and for the one that was granted
    /// where memory was refused after it: that stays as spare.
    ///
    /// The cost is that of [`Active::apply`], and of [`Book::charge`] where a charge is needed. It takes no memory where
    /// the operation takes none and the share covers it.
    pub fn apply(
        &mut self,
        session: u64,
        id: u32,
        active: &mut Active<N>,
        op: &Op,
        extra: Usage,
    ) -> Result<Usage, OpFault>
        ensures { HasApplied self.old self.new session id active.old active.new op.now extra result }
    {
        match active.apply_by(&BookCharger { session, id }, self, op, extra) {
            Ok(count) => Ok(count),
            Err(ApplyFault::File(error)) => Err(OpFault::File(error)),
            Err(ApplyFault::Charge(fault)) => Err(fault),
        }
    }
}
