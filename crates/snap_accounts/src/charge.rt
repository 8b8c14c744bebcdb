// What a snapshot's slot is charged.
ghost use Rattle.std.specs.Prelude.{◌≡◌, ◌<◌, ◌+◌, ◌^◌, length, true, IfOk, IfErr};
ghost use Rattle.snap_usage.specs.Counted.{Covers, covers as covers_of};
ghost use Rattle.snap_ledger.specs.States.{CoversOne, Meets, minus, plus};
ghost use Rattle.snap_call.specs.Records.{charge_of, charge_at, active_at, recharged, open_count, max_slots};
ghost use Rattle.snap_call.specs.State.{limit_at, over_limit};
ghost use Rattle.snap_call.specs.Step.{charge as charge_step, trim as trim_step, discard as discard_step, greater, fits_limit, granted, IsOpenSlot, IsCovered};
ghost use Rattle.snap_call.specs.declared.call.Given.TheVariants.{Count};
ghost use Rattle.snap_call.specs.declared.reply.Reply.TheVariants.{Charged, Trimmed, Discarded, Refused};
ghost use Rattle.snap_call.specs.declared.refusal.Refusal.TheVariants.{OverLimit};
ghost use Rattle.snap_accounts.specs.Charged.{IsShareCharged};
ghost use Rattle.snap_accounts.specs.Totals.{place_if};

use crate::accounts::Accounts;
use snap_call::Refusal;
use snap_ledger::{Share, StoreName};
use snap_usage::{Usage, difference};

// The greater of both, in each quantity.
fn greater(a: Usage, b: Usage) -> Usage
    ensures { result ≡ greater a b }
{
    Usage {
        blocks: a.blocks.max(b.blocks),
        inodes: a.inodes.max(b.inodes),
    }
}

// The limit covers what is charged besides, with this much more.
pub(crate) fn has_room(limit: Usage, rest: Usage, to: Usage) -> bool
    requires { Covers limit rest }
    ensures { result ≡ covers_of limit (plus rest to) }
{
    to.blocks <= limit.blocks - rest.blocks && to.inodes <= limit.inodes - rest.inodes
}

impl<N: StoreName> Accounts<N> {
    /// What both halves of an open slot's charge hold, by its share: the slot is open under the share's
    /// id, and charged the share's usage. Takes no memory. The cost is constant.
    pub fn meet(&mut self, share: &mut Share<N>) -> Usage
        requires { share.old.slot < max_slots }
        ensures met { Meets (charge_at share.old.slot self.old.records) share.old }
        ensures held { result ≡ share.old.usage }
        ensures covers { CoversOne result }
        ensures same { self.new ≡ self.old }
        ensures share { share.new ≡ share.old }
    {
        self.slots.meet(share)
    }

    // The place of the namespace of an open slot.
    pub(crate) fn place(&self, slot: u64) -> usize
        requires { (charge_at slot self.now.records).issued ≡ true }
        ensures place { result ≡ place_if (active_at slot self.now.records) }
        ensures low { result < length self.now.namespaces }
        ensures held { Covers (charge_of result self.now.records) (charge_at slot self.now.records).usage }
        ensures within { Covers (limit_at result self.now.namespaces) (charge_of result self.now.records) }
    {
        self.state.records.place_in(slot).unwrap_or(0)
    }

    // What is free in the namespace at a place.
    pub(crate) fn free(&self, place: usize) -> Usage
        requires { place < length self.now.namespaces }
        ensures { result ≡ minus (limit_at place self.now.namespaces) (charge_of place self.now.records) }
    {
        difference(self.state.limit_at(place), self.total(place))
    }

    // The refusal of an amount that doesn't fit.
    pub(crate) fn over_limit(&self, place: usize) -> Refusal
        requires { place < length self.now.namespaces }
        ensures { result ≡ over_limit self.now place }
    {
        let free = self.free(place);
        Refusal::OverLimit {
            free_blocks: free.blocks,
            free_inodes: free.inodes,
        }
    }

    fn fits(&self, place: usize, held: Usage, to: Usage) -> bool
        requires place { place < length self.now.namespaces }
        requires held { Covers (charge_of place self.now.records) held }
        ensures { result ≡ fits_limit self.now place held to }
    {
        has_room(
            self.state.limit_at(place),
            difference(self.total(place), held),
            to,
        )
    }

    // The wanted amount where it fits, else the needed one where that does.
    fn grant(&self, place: usize, held: Usage, need: Usage, want: Usage) -> Option<Usage>
        requires place { place < length self.now.namespaces }
        requires held { Covers (charge_of place self.now.records) held }
        ensures { result ≡ granted self.now place held need want }
    {
        let needed = greater(held, need);
        let wanted = greater(needed, want);
        if self.fits(place, held, wanted) {
            Some(wanted)
        } else if self.fits(place, held, needed) {
            Some(needed)
        } else {
            None
        }
    }

    // Charges the slot so.
    fn recharge(&mut self, share: &mut Share<N>, place: usize, to: Usage)
        requires charged { IsShareCharged self.old place share.old }
        requires fits { fits_limit self.old place share.old.usage to ≡ true }
        requires covers { CoversOne to }
        requires entries { self.old.entries < 2 ^ 63 }
        ensures state { self.new ≡ record self.old { records = recharged share.old.slot to self.old.records; entries = self.old.entries + 1 } }
        ensures share { share.new ≡ record share.old { usage = to } }
    {
        let slot = share.slot();
        let rest = difference(self.total(place), share.held());
        let after = rest.plus(to);
        self.slots.set(share, to);
        self.totals.set(place, after);
        self.state.records.recharge(slot, to);
        self.state.entries += 1;
    }

    /// Charges the slot of the share for the wanted usage where the limit of its namespace covers that,
    /// else for the needed one; never for less than it is charged already. `Err` has what is free, which
    /// covers neither. Both count an entry. The share has met its charge before ([`Accounts::meet`]). Takes
    /// no memory. The cost grows with the logarithm of the number of records.
    pub fn charge(&mut self, share: &mut Share<N>, need: Usage, want: Usage) -> Result<Usage, Usage>
        requires slot { share.old.slot < max_slots }
        requires met { Meets (charge_at share.old.slot self.old.records) share.old }
        requires entries { self.old.entries < 2 ^ 63 }
        ensures allowed { IsOpenSlot share.old.id (active_at share.old.slot self.old.records) }
        ensures granted { IfOk result (λ now. charge_step self.old share.old.slot need want (active_at share.old.slot self.old.records) ≡ (self.new, Charged now)) }
        ensures refused { IfErr result (λ free. charge_step self.old share.old.slot need want (active_at share.old.slot self.old.records) ≡ (self.new, Refused (OverLimit free.blocks free.inodes))) }
        ensures share { IfOk result (λ now. share.new ≡ record share.old { usage = now }) }
        ensures same { IfErr result (λ _. share.new ≡ share.old) }
        ensures more { IfOk result (λ now. Covers now share.old.usage) }
        ensures open { open_count self.new.records ≡ open_count self.old.records }
    {
        let held = share.held();
        let place = self.place(share.slot());
        match self.grant(place, held, need, want) {
            Some(to) => {
                self.recharge(share, place, to);
                Ok(to)
            }
            None => {
                let free = self.free(place);
                self.count_entry();
                Err(free)
            }
        }
    }

    /// Lowers the charge of the share's slot to a count that it covers, and counts an entry. The share has
    /// met its charge before ([`Accounts::meet`]). Takes no memory. The cost grows with the logarithm of the
    /// number of records.
    pub fn trim(&mut self, share: &mut Share<N>, count: Usage)
        requires slot { share.old.slot < max_slots }
        requires met { Meets (charge_at share.old.slot self.old.records) share.old }
        requires entries { self.old.entries < 2 ^ 63 }
        requires count { Covers share.old.usage count }
        requires one { CoversOne count }
        ensures allowed { IsCovered share.old.id count (active_at share.old.slot self.old.records) }
        ensures step { trim_step self.old share.old.slot (Count count) (active_at share.old.slot self.old.records) ≡ (self.new, Trimmed) }
        ensures share { share.new ≡ record share.old { usage = count } }
        ensures open { open_count self.new.records ≡ open_count self.old.records }
    {
        let place = self.place(share.slot());
        self.recharge(share, place, count);
    }

    /// Removes the snapshot of the share's slot, and frees the slot; the answer is what it was charged.
    /// It counts an entry. Takes no memory. The cost grows with the logarithm of the number of records.
    pub fn discard(&mut self, share: Share<N>) -> Usage
        requires slot { share.slot < max_slots }
        requires entries { self.old.entries < 2 ^ 63 }
        ensures allowed { IsOpenSlot share.id (active_at share.slot self.old.records) }
        ensures step { discard_step self.old share.slot (active_at share.slot self.old.records) ≡ (self.new, Discarded result) }
        ensures held { result ≡ share.usage }
        ensures open { open_count self.new.records + 1 ≡ open_count self.old.records }
    {
        let mut share = share;
        let slot = share.slot();
        let held = self.meet(&mut share);
        let place = self.place(slot);
        let rest = difference(self.total(place), held);
        self.totals.set(place, rest);
        self.slots.spend(share);
        let _ = self.state.records.take_slot(slot);
        self.opened -= 1;
        self.state.entries += 1;
        held
    }
}
