// An operation on an open snapshot, with the charge that it needs, by one who charges.
ghost use Rattle.std.specs.Prelude.{◌≡◌, ◌<◌, OnOk, OnErr, IfErr};
ghost use Rattle.snap_usage.specs.declared.usage.Usage as usages;
ghost use Rattle.snap_usage.specs.Counted.{Covers};
ghost use Rattle.snap_ledger.specs.States.{ShareState};
ghost use Rattle.snap_call.specs.Records.{max_slots};
ghost use Rattle.snap_book.specs.Charging.{HasAppliedBy, HasCovered};

use crate::active::Active;
use snap_ledger::{Share, StoreName};
use snap_merge::FsError;
use snap_upper::{Op, perform_op, prepare_op};
use snap_usage::Usage;

/// Who charges the share of an open snapshot for an operation: a session of a book, or of a store behind its lock.
pub trait Charger<N: StoreName> {
    /// What a charge changes beside the share.
    type Ledger;

    /// Why a charge is not made.
    type Fault;

    // A charge that is made: the ledger before and after it, the share before it, what is needed, the extra, and what the
    // share is then.
    ghost grants: { Self → Self.Ledger → Self.Ledger → ShareState → usages.Usage → usages.Usage → usages.Usage → Type 0 };

    // A charge that is not made, and why.
    ghost refuses: { Self → Self.Ledger → Self.Ledger → ShareState → usages.Usage → usages.Usage → Self.Fault → Type 0 };

    /// Charges the share for what is needed, and for an extra amount too where the limit covers it
    /// ([`wanted`](crate::wanted)), in blocks of 4096 bytes and inodes. It is asked where the share doesn't cover the
    /// need.
    ///
    /// Ok: the share covers the need, and is no smaller than before. An error leaves the share as it was.
    fn charge(
        &self,
        ledger: &mut Self::Ledger,
        share: &mut Share<N>,
        need: Usage,
        extra: Usage,
    ) -> Result<(), Self::Fault>
        requires { share.old.slot < max_slots }
        ensures granted { OnOk result (grants self.now ledger.old ledger.new share.old need extra share.new.usage) }
        ensures share { OnOk result (share.new ≡ record share.old { usage = share.new.usage }) }
        ensures more { OnOk result (Covers share.new.usage share.old.usage) }
        ensures needed { OnOk result (Covers share.new.usage need) }
        ensures refused { IfErr result (λ fault. refuses self.now ledger.old ledger.new share.old need extra fault) }
        ensures same { OnErr result (share.new ≡ share.old) };
}

/// Why an operation was not done.
#[derive(Drop)]
pub enum ApplyFault<E> {
    /// The operation's own error, or want of memory.
    File(FsError),
    /// Why the charge that it needs is not made.
    Charge(E),
}

// Has the share charged for what is needed, where it doesn't cover that.
fn cover<N: StoreName, C: Charger<N>>(
    charger: &C,
    ledger: &mut C::Ledger,
    share: &mut Share<N>,
    need: Usage,
    extra: Usage,
) -> Result<(), C::Fault>
    requires { share.old.slot < max_slots }
    ensures { HasCovered (C.grants charger.now) (C.refuses charger.now) ledger.old ledger.new share.old share.new need extra result }
{
    if share.held().covers(need) {
        return Ok(());
    }
    charger.charge(ledger, share, need, extra)
}

impl<N: StoreName> Active<N> {
    /// Does the operation on its layer. Where its share doesn't cover what the layer takes afterwards, `charger` charges
    /// it for that first, and for an extra amount too where the limit covers it. The answer is what the layer takes now,
    /// in blocks of 4096 bytes and inodes.
    ///
    /// Errors, in this order: `File` with those of [`Active::apply`] but for `NeedsCharge`; of an operation that needs a
    /// charge `Charge` with the charger's; then `File` with `OutOfMemory`. After any of them the layer is as it was, and
    /// so is all else, but for what a charge that is refused leaves, and for one that was made where memory was refused
    /// after it: that stays as spare.
    ///
    /// The operation is tested once. The cost is that of [`Active::apply`], and of the charge where one is needed. It
    /// takes no memory where the operation takes none and the share covers it.
    pub fn apply_by<C: Charger<N>>(
        &mut self,
        charger: &C,
        ledger: &mut C::Ledger,
        op: &Op,
        extra: Usage,
    ) -> Result<Usage, ApplyFault<C::Fault>>
        ensures { HasAppliedBy (C.grants charger.now) (C.refuses charger.now) ledger.old ledger.new self.old self.new op.now extra result }
    {
        let lowers = self.lowers.as_slice();
        let ready = match prepare_op(&self.layer, lowers, op) {
            Ok(ready) => ready,
            Err(error) => return Err(ApplyFault::File(error)),
        };
        let need = ready.after;
        match cover(charger, ledger, &mut self.share, need, extra) {
            Ok(()) => {}
            Err(fault) => return Err(ApplyFault::Charge(fault)),
        }
        if let Err(error) = perform_op(&mut self.layer, lowers, ready) {
            return Err(ApplyFault::File(error));
        }
        Ok(need)
    }
}
