// Records of one namespace whose keys begin alike.
ghost use Rattle.std.specs.Prelude.{◌≡◌, Some, ℕ, [], ◌∷◌, ◌++◌, length, false, map, option_copied, OnOk, OnErr, IfErr, IfOk, IsTrue, ◌↔◌};
ghost use Rattle.std.specs.Map.{values_of};
ghost use Rattle.snap_call.specs.Records.{record_at, has_key, with_record, without_key};
ghost use Rattle.snap_call.specs.Spaces.{IsOf, IsKeyed, IsEditOf, page_after, edited_at};
ghost use Rattle.snap_record.specs.declared.record.Record.{Record};

use crate::held_record::HeldRecord;
use crate::record_edit::RecordEdit;
use snap_path::NoMemory;
use snap_record::{Filter, Info, Record, Sequence};
use std::alloc::{AllocError, Global};
use std::collections::BTreeMap;
use std::marker::Model;
use std::ops::Bound;

/// Records of one namespace whose keys begin alike, most often one. Contracts see the list, in the
/// order of the keys.
///
/// A record that is alone stands beside the map of several by their keys, which then takes no memory.
#[derive(Drop)]
pub(super) struct Group {
    alone: Option<HeldRecord>,
    others: BTreeMap<String, HeldRecord>,
}

impl Model for Group {
    ghost use Rattle.std.specs.Prelude.{List, ◌++◌, ◌≡◌, [], IsSome};
    ghost use Rattle.std.specs.Map.{values_of};
    ghost use Rattle.std.specs.Option.{option_to_list};
    ghost use Rattle.snap_record.specs.declared.record.Record.{Record};
    ghost use Rattle.snap_call.specs.Spaces.{IsKeyed};

    ghost Value = { List Record };

    ghost view = { λ g. option_to_list g.alone ++ values_of g.others.entries };

    ghost invariant = { λ g. (IsSome g.alone → values_of g.others.entries ≡ []) × IsKeyed g.others.entries };
}

impl Group {
    /// The record alone. Takes no memory.
    pub(super) fn of(alloc: Global, alone: HeldRecord) -> Group
        ensures { result ≡ alone ∷ [] }
    {
        Group {
            alone: Some(alone),
            others: BTreeMap::new(alloc),
        }
    }

    /// The record of a group that has no other. Takes no memory.
    pub(super) fn into_only(self) -> HeldRecord
        requires { length self ≡ 1 }
        ensures { self ≡ result ∷ [] }
    {
        let Group { alone, mut others } = self;
        match alone {
            Some(alone) => alone,
            None => others.pop_first().unwrap().1,
        }
    }

    /// Takes no memory.
    pub(super) fn is_empty(&self) -> bool
        ensures { IsTrue result ↔ (self.now ≡ []) }
    {
        self.alone.is_none() && self.others.is_empty()
    }

    /// The record of this key. Takes no memory.
    pub(super) fn get(&self, key: &str) -> Option<&Record>
        ensures { (place : ℕ) → IsOf place self.now → option_copied result ≡ record_at place key.now self.now }
    {
        let Some(alone) = &self.alone else {
            return match self.others.get(key) {
                Some(boxed) => Some(boxed.record()),
                None => None,
            };
        };
        let record = alone.record();
        if record.key.as_str() == key {
            Some(record)
        } else {
            None
        }
    }

    /// Puts a record in its place. Where memory is refused, the records are as they were and the
    /// error gives the record back.
    pub(super) fn insert(
        &mut self,
        alloc: Global,
        added: HeldRecord,
    ) -> Result<(), (NoMemory, HeldRecord)>
        requires of { IsOf added.namespace self.old }
        requires absent { has_key added.namespace added.key self.old ≡ false }
        ensures ok { OnOk result (self.new ≡ with_record added self.old) }
        ensures err { OnErr result (self.new ≡ self.old) }
        ensures value_returned { IfErr result (λ back. back.1 ≡ added) }
    {
        if let Some(alone) = self.alone.take() {
            if let Err((no_memory, alone)) = put(&mut self.others, alloc, alone) {
                self.alone = Some(alone);
                return Err((no_memory, added));
            }
        }
        put(&mut self.others, alloc, added)
    }

    /// Takes the record of this key away. Where there is none, the records are as they were. Takes
    /// no memory.
    pub(super) fn remove(&mut self, key: &str) -> Option<HeldRecord>
        ensures taken { (place : ℕ) → IsOf place self.old → self.new ≡ without_key place key.now self.old }
        ensures record_taken { (place : ℕ) → IsOf place self.old → result ≡ record_at place key.now self.old }
    {
        let Some(alone) = &self.alone else {
            return self.others.remove(key);
        };
        if alone.record().key.as_str() == key {
            self.alone.take()
        } else {
            None
        }
    }

    /// Edits the record of this key. Where there is none, the records are as they were. Takes no memory.
    pub(super) fn edit(&mut self, key: &str, edit: RecordEdit)
        requires { (place : ℕ) × IsOf place self.old × ((r : Record) → record_at place key.now self.old ≡ Some r → IsEditOf edit r) }
        ensures { (place : ℕ) → IsOf place self.old → self.new ≡ edited_at place key.now edit self.old }
    {
        let Some(alone) = &mut self.alone else {
            let Some(boxed) = self.others.get_mut(key) else {
                return;
            };
            boxed.edit(edit);
            return;
        };
        if alone.record().key.as_str() == key {
            alone.edit(edit);
        }
    }

    /// The infos with those of the records whose keys come after the text and that have every part of
    /// the filter, until there are `most`. It begins by a search for the text.
    pub(super) fn page(
        &self,
        alloc: Global,
        before: Sequence<Info>,
        after: &str,
        most: usize,
        asked: &Filter,
    ) -> Result<Sequence<Info>, AllocError>
        ensures { IfOk result (λ infos. infos ≡ page_after after.now most asked.now before self.now) }
    {
        let mut infos = before;
        if let Some(alone) = &self.alone {
            if infos.len() < most
                && after < alone.record().key.as_str()
                && alone.record().matches(asked)
            {
                infos.push(alone.record().info()?)?;
            }
            return Ok(infos);
        }
        let start = String::from_str(alloc, after)?;
        for (_, boxed) in self
            .others
            .range((Bound::Excluded(start), Bound::Unbounded))
        {
            if infos.len() >= most {
                return Ok(infos);
            }
            if boxed.record().matches(asked) {
                infos.push(boxed.record().info()?)?;
            }
        }
        Ok(infos)
    }

    /// The list with references to the records after its own, in their order.
    pub(super) fn listed<'a>(
        &'a self,
        before: Vec<&'a HeldRecord>,
    ) -> Result<Vec<&'a HeldRecord>, AllocError>
        ensures { IfOk result (λ all. map (λ r. r.now) all.items ≡ map (λ r. r.now) before.entry.items ++ self.now) }
    {
        let mut list = before;
        if let Some(alone) = &self.alone {
            list.push(alone)?;
        }
        for held in self.others.values() {
            list.push(held)?;
        }
        Ok(list)
    }
}

/// Puts a record into a map of records of one namespace by their keys. Where memory is refused, the
/// map is as it was and the error gives the record back.
fn put(
    map: &mut BTreeMap<String, HeldRecord>,
    alloc: Global,
    added: HeldRecord,
) -> Result<(), (NoMemory, HeldRecord)>
    requires keyed { IsKeyed map.old.entries }
    requires of { IsOf added.namespace (values_of map.old.entries) }
    requires absent { has_key added.namespace added.key (values_of map.old.entries) ≡ false }
    ensures keyed { IsKeyed map.new.entries }
    ensures ok { OnOk result (values_of map.new.entries ≡ with_record added (values_of map.old.entries)) }
    ensures err { OnErr result (values_of map.new.entries ≡ values_of map.old.entries) }
    ensures value_returned { IfErr result (λ back. back.1 ≡ added) }
{
    let key = match String::from_str(alloc, added.record().key.as_str()) {
        Ok(key) => key,
        Err(refused) => return Err((refused.into(), added)),
    };
    match map.insert(key, added) {
        Ok(_) => Ok(()),
        Err(failed) => {
            let (no_memory, (_, value)) = NoMemory::with_value(failed);
            Err((no_memory, value))
        }
    }
}
