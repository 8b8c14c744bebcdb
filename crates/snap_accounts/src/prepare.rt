// A new snapshot.
ghost use Rattle.std.specs.Prelude.{◌≡◌, ◌<◌, ◌≤◌, ◌+◌, ◌^◌, length, true, None, Some, IfOk, OnOk, OnErr, IfErr, Ok, Err};
ghost use Rattle.snap_path.specs.Limits.{most_number};
ghost use Rattle.snap_usage.specs.Counted.{covers as covers_of};
ghost use Rattle.snap_ledger.specs.States.{plus};
ghost use Rattle.snap_call.specs.Records.{charge_of, active_at, lowest_free, has_key, max_slots, open_count};
ghost use Rattle.snap_call.specs.State.{limit_at, place_of, is_base, is_too_deep};
ghost use Rattle.snap_call.specs.Step.{prepare, prepared, new_record, one, refused, place_on, place_for, slot_for};
ghost use Rattle.snap_accounts.specs.Entries.{IsRecorded};
ghost use Rattle.snap_accounts.specs.Vacant.{IsVacant};
ghost use Rattle.snap_record.specs.declared.record.Content.TheVariants.{Active};

use crate::accounts::Accounts;
use crate::charge::has_room;
use snap_call::limits::MAX_ID;
use snap_call::{Refusal, is_key, is_parent};
use snap_ledger::{Share, StoreName};
use snap_record::{Content, Labels, Record, Text};
use snap_usage::Usage;
use std::alloc::{AllocError, Global};

/// Where a new snapshot goes.
#[derive(Clone, Copy)]
pub struct Vacancy {
    /// The place of its namespace among those of the store, from 0.
    pub place: usize,
    /// The lowest free slot of the store.
    pub slot: u64,
}

// A root directory takes a block and an inode.
pub(crate) fn one() -> Usage
    ensures { result ≡ one }
{
    Usage {
        blocks: 1,
        inodes: 1,
    }
}

impl<N: StoreName> Accounts<N> {
    // The slot of a new snapshot in the namespace at a place, or the first refusal.
    fn slot_for(&self, place: usize) -> Result<u64, Refusal>
        requires { place < length self.now.namespaces }
        ensures ok { IfOk result (λ slot. slot_for self.now place ≡ Ok slot) }
        ensures low { IfOk result (λ slot. slot < self.now.slots) }
        ensures few { IfOk result (λ slot. slot < max_slots) }
        ensures free { IfOk result (λ slot. active_at slot self.now.records ≡ None) }
        ensures fits { IfOk result (λ slot. covers_of (limit_at place self.now.namespaces) (plus (charge_of place self.now.records) one) ≡ true) }
        ensures numbers { IfOk result (λ slot. self.now.next_id ≤ most_number) }
        ensures recorded { IfErr result IsRecorded }
        ensures refused { IfErr result (λ why. slot_for self.now place ≡ Err why) }
    {
        let Some(slot) = self.state.records.lowest_free(self.state.slots) else {
            return Err(Refusal::TooManyActives);
        };
        if !has_room(self.state.limit_at(place), self.total(place), one()) {
            return Err(self.over_limit(place));
        }
        if self.state.next_id > MAX_ID {
            return Err(Refusal::NumbersSpent);
        }
        Ok(slot)
    }

    // The place, where a snapshot of this key can stand on the parent there, or the first refusal.
    fn place_on(&self, place: usize, key: &str, parent: &str) -> Result<usize, Refusal>
        ensures ok { IfOk result (λ p. place_on self.now.ancestors place key.now parent.now self.now.records ≡ Ok p) }
        ensures recorded { IfErr result IsRecorded }
        ensures refused { IfErr result (λ why. place_on self.now.ancestors place key.now parent.now self.now.records ≡ Err why) }
    {
        let records = &self.state.records;
        if !records.is_present(place, parent) {
            return Err(Refusal::NotFound);
        }
        if records.has_key(place, key) {
            return Err(Refusal::AlreadyExists);
        }
        if !records.is_base(place, parent) {
            return Err(Refusal::NotCommitted);
        }
        if records.is_too_deep(self.state.ancestors, place, parent) {
            return Err(Refusal::TooDeep);
        }
        Ok(place)
    }

    // The place of the namespace of a new snapshot, or the first refusal.
    pub(crate) fn place_for(
        &self,
        namespace: &str,
        key: &str,
        parent: &str,
        labels: &Labels,
    ) -> Result<usize, Refusal>
        ensures ok { IfOk result (λ place. place_for self.now namespace.now key.now parent.now labels.now ≡ Ok place) }
        ensures recorded { IfErr result IsRecorded }
        ensures refused { IfErr result (λ why. place_for self.now namespace.now key.now parent.now labels.now ≡ Err why) }
    {
        if !(is_key(key) && is_parent(parent) && labels.are_valid()) {
            return Err(Refusal::BadArgument);
        }
        let Some(place) = self.state.place_of(namespace) else {
            return Err(Refusal::NoNamespace);
        };
        self.place_on(place, key, parent)
    }

    /// Where a new snapshot of this key and parent goes: the place of its namespace and the lowest free
    /// slot.
    ///
    /// The refusals, in this order: `BadArgument` for a key, a parent or labels that are malformed,
    /// or for more than 64 labels; `NoNamespace`; `NotFound` where the namespace has no snapshot of the
    /// parent's name; `AlreadyExists` where it has one of the key; `NotCommitted` where the parent is not
    /// committed; `TooDeep` where the snapshot would have more committed ancestors than the store allows;
    /// `TooManyActives` where all slots of the store are open, whatever namespaces have them; `OverLimit`
    /// with what is free, where 1/1 does not fit; `NumbersSpent` after the id 4,294,967,295. Takes no
    /// memory. The cost grows with the number of slots, of which 64 open ones are one step, with the
    /// logarithm of the number of records, once for each ancestor, and with the number of labels.
    pub fn vacancy(
        &self,
        namespace: &str,
        key: &str,
        parent: &str,
        labels: &Labels,
    ) -> Result<Vacancy, Refusal>
        ensures ok { IfOk result (λ v. prepare self.now namespace.now key.now parent.now labels.now ≡ prepared self.now v.place key.now parent.now labels.now v.slot) }
        ensures named { IfOk result (λ v. place_of namespace.now self.now.namespaces ≡ Some v.place) }
        ensures vacant { IfOk result (λ v. IsVacant self.now v key.now parent.now labels.now) }
        ensures recorded { IfErr result IsRecorded }
        ensures refused { IfErr result (λ why. prepare self.now namespace.now key.now parent.now labels.now ≡ refused self.now why) }
    {
        let place = self.place_for(namespace, key, parent, labels)?;
        let slot = self.slot_for(place)?;
        Ok(Vacancy { place, slot })
    }

    // The record of a new snapshot.
    pub(crate) fn new_record(
        &self,
        alloc: Global,
        place: usize,
        key: &str,
        parent: &str,
        labels: &Labels,
        content: Content,
    ) -> Result<Record, AllocError>
        requires numbers { self.now.next_id ≤ most_number }
        requires entries { self.now.entries < 2 ^ 63 }
        ensures { IfOk result (λ r. r ≡ new_record self.now place key.now parent.now labels.now content) }
    {
        let number = self.state.entries + 1;
        Ok(Record {
            namespace: place,
            key: Text::copy_of(alloc, key)?,
            parent: Text::copy_of(alloc, parent)?,
            id: self.state.next_id as u32,
            labels: labels.clone()?,
            created: number,
            updated: number,
            content,
        })
    }

    // The record is one more, in a slot that is free.
    fn insert(&mut self, vacancy: Vacancy, added: Record) -> Result<Share<N>, AllocError>
        requires vacant { IsVacant self.old vacancy added.key added.parent added.labels }
        requires entries { self.old.entries < 2 ^ 63 }
        requires added { added ≡ new_record self.old vacancy.place added.key added.parent added.labels (Active vacancy.slot one) }
        ensures added { OnOk result (self.new ≡ (prepared self.old vacancy.place added.key added.parent added.labels vacancy.slot).0) }
        ensures share { IfOk result (λ s. s ≡ record { slot = vacancy.slot; id = self.old.next_id; usage = one }) }
        ensures open { OnOk result (open_count self.new.records ≡ open_count self.old.records + 1) }
        ensures err { OnErr result (self.new ≡ self.old) }
    {
        let Vacancy { place, slot } = vacancy;
        let id = added.id;
        let after = self.total(place).plus(one());
        let held = self.state.records.hold(added)?;
        if let Err((no_memory, _)) = self.state.records.insert(held) {
            return Err(no_memory.into());
        }
        self.state.next_id += 1;
        self.state.entries += 1;
        self.totals.set(place, after);
        self.opened += 1;
        Ok(self.slots.issue(slot, id, one()))
    }

    /// Adds an active snapshot with these labels, charged 1/1 for its root, and counts an entry. The answer
    /// is the share of its slot. [`Accounts::vacancy`] is the test of the condition.
    ///
    /// Takes memory for the record, its place and its slot; where that is refused, nothing changes. The cost
    /// grows with the texts and the labels, and with the logarithm of the number of records.
    pub fn add(
        &mut self,
        alloc: Global,
        vacancy: Vacancy,
        key: &str,
        parent: &str,
        labels: &Labels,
    ) -> Result<Share<N>, AllocError>
        requires vacant { IsVacant self.old vacancy key.now parent.now labels.now }
        requires entries { self.old.entries < 2 ^ 63 }
        ensures added { OnOk result (self.new ≡ (prepared self.old vacancy.place key.now parent.now labels.now vacancy.slot).0) }
        ensures share { IfOk result (λ s. s ≡ record { slot = vacancy.slot; id = self.old.next_id; usage = one }) }
        ensures open { OnOk result (open_count self.new.records ≡ open_count self.old.records + 1) }
        ensures err { OnErr result (self.new ≡ self.old) }
    {
        let content = Content::Active {
            slot: vacancy.slot,
            charged: one(),
        };
        let added = self.new_record(alloc, vacancy.place, key, parent, labels, content)?;
        self.insert(vacancy, added)
    }
}
