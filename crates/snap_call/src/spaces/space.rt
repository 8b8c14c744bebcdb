// The records of one namespace.
ghost use Rattle.std.specs.Prelude.{◌≡◌, Some, ◌↔◌, IsTrue, ◌<◌, ◌+◌, ◌^◌, ℕ, [], ◌++◌, length, false, map, option_copied, OnOk, OnErr, IfErr, IfOk};
ghost use Rattle.std.specs.Map.{values_of};
ghost use Rattle.snap_call.specs.Records.{record_at, has_key, child_count, with_record, without_key, info_page};
ghost use Rattle.snap_call.specs.Spaces.{IsOf, AreGroups, IsEditOf, beginning, joined_records, edited_at};
ghost use Rattle.snap_record.specs.declared.record.Record.{Record};

use super::group::Group;
use crate::held_record::HeldRecord;
use crate::record_edit::RecordEdit;
use arrayvec::ArrayVec;
use snap_counts::Counts;
use snap_path::NoMemory;
use snap_record::{Filter, Info, Record, Sequence};
use std::alloc::{AllocError, Global};
use std::collections::BTreeMap;
use std::marker::Model;
use std::ops::Bound;

/// How many bytes of a key stand in the map itself.
const BEGINNING_BYTES: usize = 16;

/// The first bytes of a key.
type Beginning = ArrayVec<u8, BEGINNING_BYTES>;

/// The records of one namespace, in groups by the first bytes of their keys, and how many of them are
/// on each parent. Contracts see the list, in the order of the keys.
///
/// A search compares these bytes, which stand in the map's nodes, and reads the texts of but one group.
#[derive(Drop)]
pub(crate) struct Space {
    alloc: Global,
    map: BTreeMap<Beginning, Group>,
    parents: Counts,
}

impl Model for Space {
    ghost use Rattle.std.specs.Prelude.{List};
    ghost use Rattle.std.specs.Map.{values_of};
    ghost use Rattle.snap_record.specs.declared.record.Record.{Record};
    ghost use Rattle.snap_call.specs.Spaces.{joined_records, AreGroups, AreParentCounts};

    ghost Value = { List Record };

    ghost view = { λ s. joined_records (values_of s.map.entries) };

    ghost invariant = { λ s. AreGroups s.map.entries × AreParentCounts (joined_records (values_of s.map.entries)) s.parents };
}

fn beginning_of(key: &str) -> Beginning
    ensures { result.items ≡ beginning key.now }
{
    let bytes = key.as_bytes();
    let most = bytes.len().min(BEGINNING_BYTES);
    let mut beginning = Beginning::new();
    let _ = beginning.try_extend_from_slice(&bytes[..most]);
    beginning
}

impl Space {
    /// No records. Takes no memory.
    pub(super) fn new(alloc: Global) -> Space
        ensures { result ≡ [] }
    {
        Space {
            alloc,
            map: BTreeMap::new(alloc),
            parents: Counts::new(alloc),
        }
    }

    /// Whether there are no records. Takes no memory.
    pub(super) fn is_empty(&self) -> bool
        ensures { IsTrue result ↔ (self.now ≡ []) }
    {
        self.map.is_empty()
    }

    /// The record of this key. Takes no memory.
    pub(crate) fn get(&self, key: &str) -> Option<&Record>
        ensures { (place : ℕ) → IsOf place self.now → option_copied result ≡ record_at place key.now self.now }
    {
        match self.map.get(&beginning_of(key)) {
            Some(group) => group.get(key),
            None => None,
        }
    }

    /// How many records are on this parent. Takes no memory.
    pub(crate) fn child_count(&self, key: &str) -> u64
        ensures { (place : ℕ) → IsOf place self.now → result ≡ child_count place key.now self.now }
    {
        self.parents.count(key)
    }

    /// Puts a record in its place. Where memory is refused, the records are as they were and the
    /// error gives the record back.
    pub(super) fn insert(&mut self, added: HeldRecord) -> Result<(), (NoMemory, HeldRecord)>
        requires of { IsOf added.namespace self.old }
        requires absent { has_key added.namespace added.key self.old ≡ false }
        requires few { length self.old + 1 < 2 ^ 64 }
        ensures ok { OnOk result (self.new ≡ with_record added self.old) }
        ensures err { OnErr result (self.new ≡ self.old) }
        ensures value_returned { IfErr result (λ back. back.1 ≡ added) }
    {
        if let Err(refused) = self.parents.add(added.record().parent.as_str()) {
            return Err((refused.into(), added));
        }
        match put(&mut self.map, self.alloc, added) {
            Ok(()) => Ok(()),
            Err((no_memory, added)) => {
                self.parents.take(added.record().parent.as_str());
                Err((no_memory, added))
            }
        }
    }

    /// Takes the record of this key away. Where there is none, the records are as they were. Takes
    /// no memory.
    pub(super) fn remove(&mut self, key: &str) -> Option<HeldRecord>
        ensures taken { (place : ℕ) → IsOf place self.old → self.new ≡ without_key place key.now self.old }
        ensures record_taken { (place : ℕ) → IsOf place self.old → result ≡ record_at place key.now self.old }
    {
        let removed = take_out(&mut self.map, key)?;
        self.parents.take(removed.record().parent.as_str());
        Some(removed)
    }

    /// Edits the record of this key. Where there is none, the records are as they were. Takes no memory.
    pub(super) fn edit(&mut self, key: &str, edit: RecordEdit)
        requires { (place : ℕ) × IsOf place self.old × ((r : Record) → record_at place key.now self.old ≡ Some r → IsEditOf edit r) }
        ensures { (place : ℕ) → IsOf place self.old → self.new ≡ edited_at place key.now edit self.old }
    {
        let Some(group) = self.map.get_mut(&beginning_of(key)) else {
            return;
        };
        group.edit(key, edit);
    }

    /// The infos of the records whose keys come after the text and that have every part of the
    /// filter: the first `most` of them. It begins by a search for the text. The memory is that of the infos and, where
    /// keys begin alike, of a copy of the text at a time.
    pub(crate) fn page(
        &self,
        alloc: Global,
        after: &str,
        most: usize,
        asked: &Filter,
    ) -> Result<Sequence<Info>, AllocError>
        ensures { IfOk result (λ infos. (place : ℕ) → IsOf place self.now → infos ≡ info_page place after.now most asked.now self.now) }
    {
        let start = Bound::Included(beginning_of(after));
        let mut infos = Sequence::new(alloc);
        for (_, group) in self.map.range((start, Bound::Unbounded)) {
            if infos.len() >= most {
                return Ok(infos);
            }
            infos = group.page(alloc, infos, after, most, asked)?;
        }
        Ok(infos)
    }

    /// The list with references to the records after its own, in their order.
    pub(crate) fn listed<'a>(
        &'a self,
        before: Vec<&'a HeldRecord>,
    ) -> Result<Vec<&'a HeldRecord>, AllocError>
        ensures { IfOk result (λ all. map (λ r. r.now) all.items ≡ map (λ r. r.now) before.entry.items ++ self.now) }
    {
        let mut list = before;
        for group in self.map.values() {
            list = group.listed(list)?;
        }
        Ok(list)
    }
}

/// Puts a record into the map of a namespace. Where memory is refused, the records are as they were and the error gives
/// the record back.
fn put(
    map: &mut BTreeMap<Beginning, Group>,
    alloc: Global,
    added: HeldRecord,
) -> Result<(), (NoMemory, HeldRecord)>
    requires groups { AreGroups map.old.entries }
    requires of { IsOf added.namespace (joined_records (values_of map.old.entries)) }
    requires absent { has_key added.namespace added.key (joined_records (values_of map.old.entries)) ≡ false }
    ensures groups { AreGroups map.new.entries }
    ensures ok { OnOk result (joined_records (values_of map.new.entries) ≡ with_record added (joined_records (values_of map.old.entries))) }
    ensures err { OnErr result (joined_records (values_of map.new.entries) ≡ joined_records (values_of map.old.entries)) }
    ensures value_returned { IfErr result (λ back. back.1 ≡ added) }
{
    let beginning = beginning_of(added.record().key.as_str());
    let Some(group) = map.get_mut(&beginning) else {
        let alone = Group::of(alloc, added);
        let Err(failed) = map.insert(beginning, alone) else {
            return Ok(());
        };
        let (no_memory, (_, alone)) = NoMemory::with_value(failed);
        return Err((no_memory, alone.into_only()));
    };
    let Err((no_memory, added)) = group.insert(alloc, added) else {
        return Ok(());
    };
    Err((no_memory, added))
}

/// Takes the record of this key away from the map of a namespace, and its group where it was the last.
/// Where there is none, the records are as they were. Takes no memory.
fn take_out(map: &mut BTreeMap<Beginning, Group>, key: &str) -> Option<HeldRecord>
    requires { AreGroups map.old.entries }
    ensures groups { AreGroups map.new.entries }
    ensures taken { (place : ℕ) → IsOf place (joined_records (values_of map.old.entries)) → joined_records (values_of map.new.entries) ≡ without_key place key.now (joined_records (values_of map.old.entries)) }
    ensures record_taken { (place : ℕ) → IsOf place (joined_records (values_of map.old.entries)) → result ≡ record_at place key.now (joined_records (values_of map.old.entries)) }
{
    let beginning = beginning_of(key);
    let group = map.get_mut(&beginning)?;
    let removed = group.remove(key)?;
    if group.is_empty() {
        map.remove(&beginning);
    }
    Some(removed)
}
