// The charges of all slots.
ghost use Rattle.std.specs.Prelude.{◌≡◌, ◌<◌, IfOk, slice_set, true};
ghost use Rattle.snap_usage.specs.Counted.{no_usage};
ghost use Rattle.snap_ledger.specs.States.{CoversOne, Meets, free_row, free_charge};
ghost use Rattle.snap_call.specs.Records.{max_slots};
ghost use Rattle.snap_accounts.specs.Slots.{charge_in};

use snap_call::limits::MAX_SLOTS;
use snap_ledger::{Charge, NewTable, Share, StoreName};
use snap_usage::Usage;
use std::alloc::{AllocError, Global};
use std::marker::Model;

// The charge of each slot that a store can have, in its place: those past the slots of this one stay free.
#[derive(Drop)]
pub(crate) struct Slots<N: StoreName> {
    charges: Vec<Charge<N>>,
}

impl<N: StoreName> Model for Slots<N> {
    ghost use Rattle.std.specs.Prelude.{List};
    ghost use Rattle.snap_ledger.specs.States.{ChargeState};
    ghost use Rattle.snap_accounts.specs.Slots.{IsRow};

    ghost Value = { List ChargeState };

    ghost view = { λ s. s.charges.items };

    ghost invariant = { λ s. IsRow s.charges.items };
}

impl<N: StoreName> Slots<N> {
    // All slots free. It takes memory for the charges.
    pub(crate) fn open(alloc: Global, table: NewTable) -> Result<Slots<N>, AllocError>
        requires { table ≡ N.table }
        ensures { IfOk result (λ slots. slots ≡ free_row max_slots) }
    {
        Ok(Slots {
            charges: Charge::row(alloc, table, MAX_SLOTS)?,
        })
    }

    // What both halves of the share's slot hold.
    pub(crate) fn meet(&mut self, share: &mut Share<N>) -> Usage
        requires { share.old.slot < max_slots }
        ensures met { Meets (charge_in self.old share.old.slot) share.old }
        ensures held { result ≡ share.old.usage }
        ensures covers { CoversOne result }
        ensures charges { self.new ≡ self.old }
        ensures share { share.new ≡ share.old }
    {
        let charge = &mut self.charges[share.slot() as usize];
        charge.meet(share)
    }

    // Sets both halves of the share's slot to the same amount.
    pub(crate) fn set(&mut self, share: &mut Share<N>, to: Usage)
        requires slot { share.old.slot < max_slots }
        requires covers { CoversOne to }
        ensures met { Meets (charge_in self.old share.old.slot) share.old }
        ensures charges { self.new ≡ slice_set self.old share.old.slot (record (charge_in self.old share.old.slot) { usage = to }) }
        ensures share { share.new ≡ record share.old { usage = to } }
    {
        let charge = &mut self.charges[share.slot() as usize];
        charge.set(share, to)
    }

    // Charges a free slot and hands out its share.
    pub(crate) fn issue(&mut self, slot: u64, id: u32, first: Usage) -> Share<N>
        requires slot { slot < max_slots }
        requires free { (charge_in self.old slot).usage ≡ no_usage }
        requires covers { CoversOne first }
        ensures charges { self.new ≡ slice_set self.old slot (record { slot = slot; id = id; usage = first; issued = true }) }
        ensures share { result ≡ record { slot = slot; id = id; usage = first } }
    {
        let charge = &mut self.charges[slot as usize];
        charge.issue(id, first)
    }

    // Takes a share back and frees its slot. The answer is what both halves held.
    pub(crate) fn spend(&mut self, share: Share<N>) -> Usage
        requires { share.slot < max_slots }
        ensures met { Meets (charge_in self.old share.slot) share }
        ensures held { result ≡ share.usage }
        ensures charges { self.new ≡ slice_set self.old share.slot (free_charge share.slot) }
    {
        let charge = &mut self.charges[share.slot() as usize];
        charge.spend(share)
    }
}
