// A commit of an open snapshot.
ghost use Rattle.std.specs.Prelude.{◌≡◌, ◌<◌, ◌+◌, ◌^◌, length, true, OnOk, OnErr, IfOk, IfErr};
ghost use Rattle.snap_layer.specs.Tree.{Tree};
ghost use Rattle.snap_usage.specs.Counted.{Covers, count_of};
ghost use Rattle.snap_ledger.specs.States.{Meets, minus, plus};
ghost use Rattle.snap_call.specs.Records.{charge_of, charge_at, active_at, open_count, max_slots};
ghost use Rattle.snap_call.specs.Step.{are_formed, commit_as, refused, IsCovered};
ghost use Rattle.snap_call.specs.declared.reply.Reply.TheVariants.{Committed};
ghost use Rattle.snap_accounts.specs.Commits.{CanCommit};
ghost use Rattle.snap_accounts.specs.Entries.{IsRecorded};

use crate::accounts::Accounts;
use snap_call::{Refusal, is_key};
use snap_layer::Shared;
use snap_ledger::{Share, StoreName};
use snap_path::NoMemory;
use snap_record::{Labels, Text};
use snap_usage::{Usage, count, difference};

// The name of a commit is well-formed, and so are its lease and its labels, if they are given.
fn are_formed(name: &str, lease: &Option<Text>, labels: &Option<Labels>) -> bool
    ensures { result ≡ are_formed name.now lease.now labels.now }
{
    is_key(name)
        && match lease {
            Some(lease) => is_key(lease.as_str()),
            None => true,
        }
        && match labels {
            Some(labels) => labels.are_valid(),
            None => true,
        }
}

impl<N: StoreName> Accounts<N> {
    // The id of the next snapshot.
    fn next_id(&self) -> u64
        ensures { result ≡ self.now.next_id }
    {
        self.state.next_id
    }

    /// Why the snapshot of an open slot can't be committed under the name, if it can't. In this order:
    /// `BadArgument` for a name, a lease or labels that are malformed; `AlreadyExists` where its namespace
    /// has the name; `NoLease` where it has no such lease. Takes no memory. The cost grows with the labels that are
    /// given, and with the logarithms of the number of records and of the number of leases.
    pub fn check_commit(
        &self,
        slot: u64,
        name: &str,
        lease: &Option<Text>,
        labels: &Option<Labels>,
    ) -> Result<(), Refusal>
        requires { (charge_at slot self.now.records).issued ≡ true }
        ensures ok { OnOk result (CanCommit self.now slot name.now lease.now labels.now) }
        ensures recorded { IfErr result IsRecorded }
        ensures refused { IfErr result (λ why. (layer : Tree) → commit_as self.now slot name.now lease.now labels.now layer (active_at slot self.now.records) ≡ refused self.now why) }
    {
        if !are_formed(name, lease, labels) {
            return Err(Refusal::BadArgument);
        }
        let place = self.place(slot);
        if self.state().records.has_key(place, name) {
            return Err(Refusal::AlreadyExists);
        }
        if !self.state().has_named(place, lease) {
            return Err(Refusal::NoLease);
        }
        Ok(())
    }

    // The charge of the namespace at the place, once what is charged `held` is charged `count`.
    fn total_with(&self, place: usize, held: Usage, count: Usage) -> Usage
        requires place { place < length self.now.namespaces }
        requires held { Covers (charge_of place self.now.records) held }
        requires count { Covers held count }
        ensures { result ≡ plus (minus (charge_of place self.now.records) held) count }
    {
        let rest = difference(self.total(place), held);
        rest.plus(count)
    }

    /// Makes the snapshot of the share's slot a committed one of this name and layer, with the labels in
    /// place of its own, where they are given, names it in the lease, where one is given, frees the slot and
    /// counts an entry. Its namespace is charged for the count of the layer, which is the answer, and no
    /// longer for the rest of the share. [`Accounts::check_commit`] tests the name, the lease and the labels,
    /// and the share has met its charge before ([`Accounts::meet`]).
    ///
    /// Takes memory for the committed record, with copies of its name, its parent and its labels, and for a
    /// name that is new to the lease; where that is refused, nothing changes, and the share comes back. The
    /// cost grows with the logarithms of the number of records and of the number of leases, and with these texts.
    pub fn commit(
        &mut self,
        share: Share<N>,
        name: &Text,
        lease: &Option<Text>,
        labels: &Option<Labels>,
        layer: &Shared,
    ) -> Result<Usage, (NoMemory, Share<N>)>
        requires slot { share.slot < max_slots }
        requires met { Meets (charge_at share.slot self.old.records) share }
        requires entries { self.old.entries < 2 ^ 63 }
        requires covers { Covers share.usage (count_of layer.now) }
        requires possible { CanCommit self.old share.slot name.now lease.now labels.now }
        ensures allowed { IsCovered share.id (count_of layer.now) (active_at share.slot self.old.records) }
        ensures step { IfOk result (λ usage. commit_as self.old share.slot name.now lease.now labels.now layer.now (active_at share.slot self.old.records) ≡ (self.new, Committed share.id usage)) }
        ensures count { IfOk result (λ usage. usage ≡ count_of layer.now) }
        ensures open { OnOk result (open_count self.new.records + 1 ≡ open_count self.old.records) }
        ensures unchanged { OnErr result (self.new ≡ self.old) }
        ensures returned { IfErr result (λ back. back.1 ≡ share) }
    {
        let slot = share.slot();
        let held = share.held();
        let place = self.place(slot);
        let usage = count(layer.layer());
        let after = self.total_with(place, held, usage);
        let number = self.state.entries + 1;
        // There are fewer records than the next id, so there is room for one more.
        let next = self.next_id();
        prove!((self.state.records.len() as u64) < next);
        if let Err(refused) = self.state.commit(slot, name, lease, labels, layer) {
            return Err((refused.into(), share));
        }
        self.totals.set(place, after);
        self.slots.spend(share);
        self.opened -= 1;
        self.state.entries = number;
        Ok(usage)
    }
}
