ghost use Rattle.std.specs.Prelude.{◌≡◌, ◌<◌, ◌+◌, ◌^◌, [], true, false, map, filter, ◌==◌, length, option_copied, None, Some, OnOk, OnErr, IfErr, IfOk, IsTrue, ◌↔◌, ℕ};
ghost use Rattle.std.specs.List.{list_any};
ghost use Rattle.std.specs.Option.{option_map, option_to_list};
ghost use Rattle.snap_call.specs.Records.{record_at, has_key, has_records, has_children, child_count, is_slot, active_at, with_record, without_key, without_keys, without_slot, recharged, relabelled, info_page, lowest_free, HasLowSlot, max_slots, unlabelled};
ghost use Rattle.snap_record.specs.declared.record.Record.{Record};
ghost use Rattle.snap_call.specs.Indexes.{slot_of};

use crate::held_record::HeldRecord;
use crate::open_slots::{Name, OpenSlots};
use crate::record_edit::RecordEdit;
use crate::removed::Removed;
use crate::spaces::Spaces;
use snap_path::NoMemory;
use snap_record::{Content, Filter, Info, Labels, Record, Sequence, Text};
use snap_usage::Usage;
use std::alloc::{AllocError, Global};
use std::marker::Model;

/// The records of a store, in order of their namespaces' places and the bytes of their keys.
/// Contracts see the list.
///
/// A call that is given a key or a slot passes over no records: its cost grows with the logarithm of their
/// number. A table has the name of the snapshot that is active in each slot.
#[derive(Drop)]
pub struct Records {
    spaces: Spaces,
    slots: OpenSlots,
}

impl Model for Records {
    ghost use Rattle.std.specs.Prelude.{List};
    ghost use Rattle.snap_record.specs.declared.record.Record.{Record};

    ghost Value = { List Record };

    ghost use Rattle.snap_call.specs.Indexes.{AreIndexed};
    ghost use Rattle.snap_call.specs.Spaces.{AreCounted, joined_records};

    ghost view = { λ r. joined_records r.spaces.list.items };

    ghost invariant = { λ r. AreCounted r.spaces.list.items r.spaces.count × AreIndexed (joined_records r.spaces.list.items) r.slots };
}

/// The slot of an active snapshot. Takes no memory.
pub fn slot_of(content: &Content) -> Option<u64>
    ensures { result ≡ slot_of content.now }
{
    match content {
        Content::View { .. } => None,
        Content::Active { slot, .. } => Some(*slot),
        Content::Committed { .. } => None,
    }
}

// The records themselves.
fn records_of(alloc: Global, held: Vec<&HeldRecord>) -> Result<Vec<&Record>, AllocError>
    ensures { IfOk result (λ list. map (λ r. r.now) list.items ≡ map (λ r. r.now) held.entry.items) }
{
    let mut list = Vec::with_capacity(alloc, held.len())?;
    for it in held {
        list.push(it.record())?;
    }
    Ok(list)
}

impl Records {
    /// No records. Takes no memory.
    pub fn new(alloc: Global) -> Records
        ensures { result ≡ [] }
    {
        Records {
            spaces: Spaces {
                list: Vec::new(alloc),
                count: 0,
            },
            slots: OpenSlots::new(alloc),
        }
    }

    // The records with who has them, in their order.
    pub(crate) fn held(&self, alloc: Global) -> Result<Vec<&HeldRecord>, AllocError>
        ensures { IfOk result (λ list. map (λ r. r.now) list.items ≡ self.now) }
    {
        let mut list = Vec::with_capacity(alloc, self.spaces.count)?;
        for space in &self.spaces.list {
            list = space.listed(list)?;
        }
        Ok(list)
    }

    // The same of the namespace at the place.
    fn held_of(&self, alloc: Global, place: usize) -> Result<Vec<&HeldRecord>, AllocError>
        ensures { IfOk result (λ list. map (λ r. r.now) list.items ≡ filter (λ r. r.namespace == place) self.now) }
    {
        let list = Vec::new(alloc);
        match self.spaces.list.get(place) {
            Some(space) => space.listed(list),
            None => Ok(list),
        }
    }

    /// The records, in their order. Takes memory for the list. The cost grows with their number.
    pub fn list(&self, alloc: Global) -> Result<Vec<&Record>, AllocError>
        ensures { IfOk result (λ list. map (λ r. r.now) list.items ≡ self.now) }
    {
        records_of(alloc, self.held(alloc)?)
    }

    /// The records of the namespace at the place, in the order of their keys. Takes memory for the list. The cost
    /// grows with their number, whatever other namespaces have.
    pub fn list_of(&self, alloc: Global, place: usize) -> Result<Vec<&Record>, AllocError>
        ensures { IfOk result (λ list. map (λ r. r.now) list.items ≡ filter (λ r. r.namespace == place) self.now) }
    {
        records_of(alloc, self.held_of(alloc, place)?)
    }

    /// How many records there are. Takes no memory. The cost is constant.
    pub fn len(&self) -> usize
        ensures { result ≡ length self.now }
    {
        self.spaces.count
    }

    /// Whether there are no records. Takes no memory. The cost is constant.
    pub fn is_empty(&self) -> bool
        ensures { IsTrue result ↔ (self.now ≡ []) }
    {
        self.spaces.count == 0
    }

    /// Whether the namespace at the place has a snapshot. Takes no memory. The cost is constant.
    pub fn has_any(&self, place: usize) -> bool
        ensures { result ≡ has_records place self.now }
    {
        self.spaces.has_any(place)
    }

    /// Whether the namespace at the place has a snapshot of this key. Takes no memory.
    pub fn has_key(&self, place: usize, key: &str) -> bool
        ensures { result ≡ has_key place key.now self.now }
    {
        self.record_at(place, key).is_some()
    }

    /// The record of this key in the namespace at the place. Takes no memory.
    pub fn record_at(&self, place: usize, key: &str) -> Option<&Record>
        ensures { option_copied result ≡ record_at place key.now self.now }
    {
        match self.spaces.list.get(place) {
            Some(space) => space.get(key),
            None => None,
        }
    }

    /// Whether the namespace at the place has a snapshot on this parent. Takes no memory.
    pub fn has_children(&self, place: usize, key: &str) -> bool
        ensures { result ≡ has_children place key.now self.now }
    {
        self.child_count(place, key) > 0
    }

    /// How many snapshots of the namespace at the place are on this parent. Takes no memory.
    pub fn child_count(&self, place: usize, key: &str) -> u64
        ensures { result ≡ child_count place key.now self.now }
    {
        match self.spaces.list.get(place) {
            Some(space) => space.child_count(key),
            None => 0,
        }
    }

    /// The record that is active in the slot, if the slot is open. Takes no memory.
    pub fn active_at(&self, slot: u64) -> Option<&Record>
        ensures { option_copied result ≡ active_at slot self.now }
    {
        let Some(name) = self.slots.get(slot) else {
            return None;
        };
        self.record_at(name.place, name.key.as_str())
    }

    /// The place of the namespace of the snapshot that is active in the slot, if the slot is open. Takes no memory. The
    /// cost is constant: no record is searched for.
    pub fn place_in(&self, slot: u64) -> Option<usize>
        ensures { result ≡ option_map (λ r. r.namespace) (active_at slot self.now) }
    {
        match self.slots.get(slot) {
            Some(name) => Some(name.place),
            None => None,
        }
    }

    /// Whether a snapshot is active in the slot. Takes no memory. The cost is constant.
    pub fn is_open(&self, slot: u64) -> bool
        ensures { result ≡ list_any (is_slot slot) self.now }
    {
        self.slots.get(slot).is_some()
    }

    /// The lowest slot below a number that is not open, if there is one. Takes no memory. It goes over
    /// the open slots below that one, where 64 that follow on each other from a multiple of 64 are one
    /// step: of 4096 slots it takes 128 steps at most.
    pub fn lowest_free(&self, slots: u64) -> Option<u64>
        ensures { result ≡ lowest_free slots self.now }
    {
        let mut slot = 0;
        while slot < slots {
            let open = self.slots.open_from(slot);
            if open == 0 {
                return Some(slot);
            }
            slot = slot.saturating_add(open);
        }
        None
    }

    /// The record, as it is put in its place. Takes memory for it without its texts.
    pub fn hold(&self, value: Record) -> Result<HeldRecord, NoMemory>
        ensures { IfOk result (λ held. held ≡ value) }
    {
        HeldRecord::new(*self.spaces.list.allocator(), value)
    }

    /// Puts a record in its place. Its key is new in its namespace, and where it is active its slot is
    /// free. Where memory is refused, the records are as they were and the error gives the record back.
    pub fn insert(&mut self, added: HeldRecord) -> Result<(), (NoMemory, HeldRecord)>
        requires new { has_key added.namespace added.key self.old ≡ false }
        requires few { length self.old + 1 < 2 ^ 64 }
        requires low { HasLowSlot max_slots added.content }
        requires free { (slot : ℕ) → is_slot slot added ≡ true → active_at slot self.old ≡ None }
        ensures ok { OnOk result (self.new ≡ with_record added self.old) }
        ensures err { OnErr result (self.new ≡ self.old) }
        ensures value_returned { IfErr result (λ back. back.1 ≡ added) }
    {
        let Some(slot) = slot_of(&added.record().content) else {
            return self.spaces.put(added);
        };
        let key = match added.record().key.clone() {
            Ok(key) => key,
            Err(refused) => return Err((refused.into(), added)),
        };
        if let Err(refused) = self.slots.reserve(slot) {
            return Err((refused.into(), added));
        }
        let name = Name {
            place: added.record().namespace,
            key,
        };
        let inserted = self.spaces.put(added);
        if inserted.is_ok() {
            self.slots.set(slot, name);
        }
        inserted
    }

    /// Takes the record of a slot away. Where the slot is not open, the records are as they were.
    /// Takes no memory.
    pub fn take_slot(&mut self, slot: u64) -> Option<HeldRecord>
        ensures taken { self.new ≡ without_slot slot self.old }
        ensures record_taken { result ≡ active_at slot self.old }
    {
        let Some(name) = self.slots.take(slot) else {
            return None;
        };
        self.spaces.take_out(name.place, name.key.as_str())
    }

    /// Takes the record of the key in the namespace at the place away. Where there is none, the records
    /// are as they were. Takes no memory.
    pub fn take_key(&mut self, place: usize, key: &str) -> Option<HeldRecord>
        ensures taken { self.new ≡ without_key place key.now self.old }
        ensures record_taken { result ≡ record_at place key.now self.old }
    {
        let Some(taken) = self.spaces.take_out(place, key) else {
            return None;
        };
        let Some(slot) = slot_of(&taken.record().content) else {
            return Some(taken);
        };
        let _ = self.slots.take(slot);
        Some(taken)
    }

    /// Takes the records of these keys in the namespace at the place away, and gives them to `removed`. A key that it
    /// doesn't have changes nothing. Takes no memory.
    pub fn take_keys(&mut self, place: usize, keys: &[Text], removed: &mut Removed)
        ensures { self.new ≡ without_keys place keys.now self.old }
    {
        for key in keys {
            removed.keep(self.take_key(place, key.as_str()));
        }
    }

    /// Sets the charge of a slot's record to `to`. Where the slot is not open, the records are as
    /// they were. Takes no memory.
    pub fn recharge(&mut self, slot: u64, to: Usage)
        ensures { self.new ≡ recharged slot to self.old }
    {
        let Some(name) = self.slots.get(slot) else {
            return;
        };
        let content = Content::Active { slot, charged: to };
        let edit = RecordEdit::Content(content);
        self.spaces.edit_at(name.place, name.key.as_str(), edit);
    }

    /// Gives the record of the key in the namespace at the place these labels, as the journal entry of
    /// this number leaves it. Where there is none, the records are as they were. Takes no memory.
    pub fn relabel(
        &mut self,
        place: usize,
        key: &str,
        labels: Labels,
        number: u64,
        copy: Box<Record>,
    )
        requires { (r : Record) → record_at place key.now self.old ≡ Some r → copy.value ≡ unlabelled r }
        ensures { self.new ≡ relabelled place key.now labels number self.old }
    {
        let edit = RecordEdit::Labels {
            labels,
            number,
            copy,
        };
        self.spaces.edit_at(place, key, edit);
    }

    /// The infos of the records of the namespace at the place whose keys come after the text and that
    /// have every part of the filter: the first `most` of them, in the order of their keys. The cost grows with the
    /// records that are passed over, and with the texts and labels of the infos.
    pub fn page(
        &self,
        alloc: Global,
        place: usize,
        after: &str,
        most: usize,
        asked: &Filter,
    ) -> Result<Sequence<Info>, AllocError>
        ensures { IfOk result (λ infos. infos ≡ info_page place after.now most asked.now self.now) }
    {
        match self.spaces.list.get(place) {
            Some(space) => space.page(alloc, after, most, asked),
            None => Ok(Sequence::new(alloc)),
        }
    }

    /// The page that the record of the key alone makes, in the namespace at the place: its info, where there is
    /// such a record, its key comes after the text, it has every part of the filter and `most` is not 0; else
    /// none. It is one look-up: no record is passed over. Takes memory for the info.
    pub fn page_at(
        &self,
        alloc: Global,
        place: usize,
        key: &str,
        after: &str,
        most: usize,
        asked: &Filter,
    ) -> Result<Sequence<Info>, AllocError>
        ensures { IfOk result (λ infos. infos ≡ info_page place after.now most asked.now (option_to_list (record_at place key.now self.now))) }
    {
        let mut infos = Sequence::new(alloc);
        let Some(record) = self.record_at(place, key) else {
            return Ok(infos);
        };
        if 0 < most && after < record.key.as_str() && record.matches(asked) {
            infos.push(record.info()?)?;
        }
        Ok(infos)
    }
}
