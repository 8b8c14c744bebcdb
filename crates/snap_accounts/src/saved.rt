// A saved snapshot put back.
ghost use Rattle.std.specs.Prelude.{◌≡◌, ◌<◌, ◌≤◌, length, false, None, Some, IfOk, OnOk, OnErr, IfErr, Ok, Err};
ghost use Rattle.snap_record.specs.Records.{usage_of};
ghost use Rattle.snap_call.specs.Indexes.{slot_of};
ghost use Rattle.snap_call.specs.Saved.{CanPutBack, charge_for, content_for, numbers_answer, put_back, record_of, room_answer, slot_answer, with_saved};
ghost use Rattle.snap_call.specs.State.{is_too_deep, shown_layers};
ghost use Rattle.snap_accounts.specs.Entries.{IsRecorded};
ghost use Rattle.snap_accounts.specs.Saved.{saved_share};

use crate::accounts::Accounts;
use crate::change::or_empty;
use crate::charge::has_room;
use crate::prepare::one;
use snap_call::{Refusal, Saved, SavedContent, slot_of};
use snap_layer::Shared;
use snap_ledger::{Share, StoreName};
use snap_record::{Content, Record, Sequence};
use snap_usage::{Usage, count};
use std::alloc::{AllocError, Global};

// What its namespace is charged for a saved snapshot.
fn charge_for(content: &SavedContent) -> Usage
    ensures { result ≡ charge_for content.now }
{
    match content {
        SavedContent::View => Usage::ZERO,
        SavedContent::Active { charged, .. } => *charged,
        SavedContent::Committed { layer } => count(layer.layer()),
    }
}

impl<N: StoreName> Accounts<N> {
    // The id comes after all others, and of the entries so far one made the snapshot, and this or a later one last
    // changed it.
    fn check_numbers(&self, saved: &Saved) -> Result<(), Refusal>
        ensures answer { result ≡ numbers_answer self.now saved.now }
        ensures above { OnOk result (1 ≤ saved.now.id) }
        ensures recorded { IfErr result IsRecorded }
    {
        if (saved.id as u64) < self.state.next_id {
            return Err(Refusal::NumbersSpent);
        }
        if saved.created == 0
            || saved.created > saved.updated
            || saved.updated > self.state.entries
        {
            return Err(Refusal::NumbersSpent);
        }
        Ok(())
    }

    // The slot of an active snapshot is a free one of the store, and is charged at least 1/1.
    fn check_slot(&self, content: &SavedContent) -> Result<(), Refusal>
        ensures answer { result ≡ slot_answer self.now content.now }
        ensures recorded { IfErr result IsRecorded }
    {
        let SavedContent::Active { slot, charged } = content else {
            return Ok(());
        };
        if *slot >= self.state.slots || self.state.records.is_open(*slot) {
            return Err(Refusal::TooManyActives);
        }
        if !charged.covers(one()) {
            return Err(Refusal::BadArgument);
        }
        Ok(())
    }

    // The limit of the namespace at the place covers its charge with the usage added.
    fn check_room(&self, place: usize, more: Usage) -> Result<(), Refusal>
        requires { place < length self.now.namespaces }
        ensures answer { result ≡ room_answer self.now place more }
        ensures recorded { IfErr result IsRecorded }
    {
        if !has_room(self.state.limit_at(place), self.total(place), more) {
            return Err(self.over_limit(place));
        }
        Ok(())
    }

    /// The place of the namespace that a saved snapshot can be put back into.
    ///
    /// The refusals, in this order: those of a new snapshot of its key on its parent, as [`Accounts::vacancy`]
    /// has them, up to `TooDeep`; `NumbersSpent` where its id is not above all that were given, where an
    /// entry that is to come made or changed it, and where none made it or an earlier one changed it;
    /// `TooManyActives` where its slot is none of the store's, or is open; `BadArgument` where its slot is charged less than 1/1; `OverLimit` with what is free, where its
    /// charge does not fit. Takes no memory. The cost grows with the logarithm of the number of records, once for
    /// each ancestor, and with the number of labels.
    pub fn check_saved(&self, saved: &Saved) -> Result<usize, Refusal>
        ensures ok { IfOk result (λ place. put_back self.now saved.now ≡ Ok (with_saved self.now (record_of self.now place saved.now))) }
        ensures possible { IfOk result (λ place. CanPutBack self.now (record_of self.now place saved.now)) }
        ensures recorded { IfErr result IsRecorded }
        ensures refused { IfErr result (λ why. put_back self.now saved.now ≡ Err why) }
    {
        let (namespace, key) = (saved.namespace.as_str(), saved.key.as_str());
        let place = self.place_for(namespace, key, saved.parent.as_str(), &saved.labels)?;
        self.check_numbers(saved)?;
        self.check_slot(&saved.content)?;
        self.check_room(place, charge_for(&saved.content))?;
        Ok(place)
    }

    // The layers that a view on the parent shows.
    fn shown(
        &self,
        alloc: Global,
        place: usize,
        parent: &str,
    ) -> Result<Sequence<Shared>, AllocError>
        requires { is_too_deep self.now.ancestors place parent.now self.now.records ≡ false }
        ensures { IfOk result (λ shown. shown ≡ shown_layers place parent.now self.now.records) }
    {
        let chain = self.state.records.chain(alloc, place, parent)?;
        or_empty(alloc, chain.layers)
    }

    // What a saved snapshot holds on the parent.
    fn content_for(
        &self,
        alloc: Global,
        place: usize,
        parent: &str,
        content: SavedContent,
    ) -> Result<Content, AllocError>
        requires { is_too_deep self.now.ancestors place parent.now self.now.records ≡ false }
        ensures { IfOk result (λ held. held ≡ content_for content place parent.now self.now.records) }
    {
        match content {
            SavedContent::View => Ok(Content::View {
                layers: self.shown(alloc, place, parent)?,
            }),
            SavedContent::Active { slot, charged } => Ok(Content::Active { slot, charged }),
            SavedContent::Committed { layer } => {
                let usage = count(layer.layer());
                Ok(Content::Committed { layer, usage })
            }
        }
    }

    // The record of a saved snapshot.
    fn record_of(&self, alloc: Global, place: usize, saved: Saved) -> Result<Record, AllocError>
        requires { is_too_deep self.now.ancestors place saved.parent self.now.records ≡ false }
        ensures { IfOk result (λ r. r ≡ record_of self.now place saved) }
    {
        let Saved {
            namespace: _,
            key,
            parent,
            id,
            labels,
            created,
            updated,
            content,
        } = saved;
        let content = self.content_for(alloc, place, parent.as_str(), content)?;
        Ok(Record {
            namespace: place,
            key,
            parent,
            id,
            labels,
            created,
            updated,
            content,
        })
    }

    // A view or a committed snapshot is one more.
    fn put_idle(&mut self, added: Record) -> Result<(), AllocError>
        requires possible { CanPutBack self.old added }
        requires idle { slot_of added.content ≡ None }
        ensures done { OnOk result (self.new ≡ with_saved self.old added) }
        ensures err { OnErr result (self.new ≡ self.old) }
    {
        let place = added.namespace;
        let after = self.total(place).plus(added.content.usage());
        self.state.put_saved(added)?;
        self.totals.set(place, after);
        Ok(())
    }

    // A snapshot that is active in the slot is one more.
    fn put_active(&mut self, added: Record, slot: u64) -> Result<Share<N>, AllocError>
        requires possible { CanPutBack self.old added }
        requires active { slot_of added.content ≡ Some slot }
        ensures done { OnOk result (self.new ≡ with_saved self.old added) }
        ensures share { IfOk result (λ share. share ≡ record { slot = slot; id = added.id; usage = usage_of added.content }) }
        ensures err { OnErr result (self.new ≡ self.old) }
    {
        let place = added.namespace;
        let id = added.id;
        let charged = added.content.usage();
        let after = self.total(place).plus(charged);
        self.state.put_saved(added)?;
        self.totals.set(place, after);
        self.opened += 1;
        Ok(self.slots.issue(slot, id, charged))
    }

    /// Puts a saved snapshot back into the namespace at the place, and counts no entry. The answer is the share
    /// of its slot, where it is active. The next snapshot has a greater id. [`Accounts::check_saved`] is the
    /// test of the condition.
    ///
    /// Takes memory for the record's place, for its slot, and for a list of the layers that a view shows; where
    /// that is refused, nothing changes. The cost grows with the logarithm of the number of records; that of a
    /// view with that logarithm times its ancestors.
    pub fn put_saved(
        &mut self,
        alloc: Global,
        place: usize,
        saved: Saved,
    ) -> Result<Option<Share<N>>, AllocError>
        requires possible { CanPutBack self.old (record_of self.old place saved) }
        ensures done { OnOk result (self.new ≡ with_saved self.old (record_of self.old place saved)) }
        ensures share { IfOk result (λ share. share ≡ saved_share (record_of self.old place saved)) }
        ensures err { OnErr result (self.new ≡ self.old) }
    {
        let added = self.record_of(alloc, place, saved)?;
        match slot_of(&added.content) {
            Some(slot) => Ok(Some(self.put_active(added, slot)?)),
            None => {
                self.put_idle(added)?;
                Ok(None)
            }
        }
    }

    /// The next snapshot gets this id, and the next entry the number after this one: those that a saved store
    /// had. Takes no memory. The cost is constant.
    pub fn number_from(&mut self, next_id: u64, entries: u64)
        requires next { self.old.next_id ≤ next_id }
        requires entries { self.old.entries ≤ entries }
        ensures { self.new ≡ record self.old { next_id = next_id; entries = entries } }
    {
        self.state.next_id = next_id;
        self.state.entries = entries;
    }
}
