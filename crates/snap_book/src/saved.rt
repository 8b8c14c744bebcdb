// A saved active snapshot put back into its writer's hands.
ghost use Rattle.std.specs.Prelude.{◌≡◌, ◌<◌, ◌+◌, ◌^◌, Some, IfOk, OnOk, OnErr};
ghost use Rattle.snap_call.specs.Records.{without_slot};
ghost use Rattle.snap_call.specs.Saved.{CanPutBack, record_of, with_saved};
ghost use Rattle.snap_call.specs.State.{ancestors, layers_of};
ghost use Rattle.snap_accounts.specs.Saved.{saved_share};
ghost use Rattle.snap_book.specs.Held.{share_of};
ghost use Rattle.snap_book.specs.Saved.{IsActiveFor};

use crate::active::{Active, Held, Released};
use snap_accounts::Accounts;
use snap_call::{EntryRoom, Saved};
use snap_layer::Layer;
use snap_ledger::StoreName;
use std::alloc::{AllocError, Global};

impl<N: StoreName> Active<N> {
    /// Puts a saved snapshot, which is active in the slot and charged so much, back into the namespace at the
    /// place, with its layer. [`Accounts::check_saved`] is the test of the one condition, and
    /// [`Usage::covers`](snap_usage::Usage::covers) that of the other.
    ///
    /// Takes memory for the record's place, for its slot, for the entry of its discard, and for a list of its
    /// ancestors' layers; where that is refused, the accounts are as they were. The cost grows with the logarithm
    /// of the number of records, once for each ancestor.
    pub fn put_saved(
        accounts: &mut Accounts<N>,
        alloc: Global,
        place: usize,
        saved: Saved,
        layer: Layer,
    ) -> Result<Active<N>, AllocError>
        requires possible { CanPutBack accounts.old (record_of accounts.old place saved) }
        requires active { IsActiveFor saved.content layer }
        ensures done { OnOk result (accounts.new ≡ with_saved accounts.old (record_of accounts.old place saved)) }
        ensures active { IfOk result (λ a. a ≡ record { namespace = place; key = saved.key; lowers = layers_of (ancestors place saved.parent accounts.old.records); layer = layer; share = a.share }) }
        ensures share { IfOk result (λ a. saved_share (record_of accounts.old place saved) ≡ Some a.share) }
        ensures err { OnErr result (accounts.new ≡ accounts.old) }
    {
        let key = saved.key.clone()?;
        let parent = saved.parent.as_str();
        let chain = accounts.state().records.chain(alloc, place, parent)?;
        let discard_room = EntryRoom::new(alloc)?;
        match accounts.put_saved(alloc, place, saved)? {
            Some(share) => Ok(Active {
                alloc,
                namespace: place,
                key,
                lowers: chain.layers,
                layer,
                share,
                discard_room,
            }),
            None => unreachable!(),
        }
    }
}

impl<N: StoreName> Held<N> {
    /// Gives the snapshot back to accounts that have no book yet, as a restore does that is given up: its record
    /// goes, and its layer is let go. It counts an entry, whose number is below 2^63. Takes no memory. The cost is that
    /// of [`Held::release`], and grows with the logarithm of the number of records.
    pub fn give_back(self, accounts: &mut Accounts<N>)
        requires entries { accounts.old.entries < 2 ^ 63 }
        ensures { accounts.new ≡ record accounts.old { records = without_slot (share_of self).slot accounts.old.records; entries = accounts.old.entries + 1 } }
    {
        let Released {
            share,
            discard_room: _,
        } = self.release();
        accounts.discard(share);
    }
}
