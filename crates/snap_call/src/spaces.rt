// The records of all namespaces.
ghost use Rattle.std.specs.Prelude.{◌≡◌, Some, ◌<◌, ◌+◌, ◌^◌, false, length, OnOk, OnErr, IfErr, vec_len};
ghost use Rattle.snap_call.specs.Records.{record_at, has_key, has_records, with_record, without_key};
ghost use Rattle.snap_call.specs.Spaces.{AreCounted, AreFrom, IsEditOf, joined_records, edited_at};
ghost use Rattle.snap_record.specs.declared.record.Record.{Record};

use crate::held_record::HeldRecord;
use crate::record_edit::RecordEdit;
use snap_path::NoMemory;
use std::alloc::AllocError;

mod group;
mod space;

pub(crate) use space::Space;

/// The records of each namespace, by its place, and how many all have.
///
/// A namespace has a map of its records by their keys, so that no call moves the records of others, and
/// the number of the records on each parent: the cost of a call that is given a key grows with the
/// logarithm of the number of the namespace's records.
#[derive(Drop)]
pub(crate) struct Spaces {
    pub(crate) list: Vec<Space>,
    pub(crate) count: usize,
}

impl Spaces {
    /// Whether the namespace at the place has a record.
    pub(crate) fn has_any(&self, place: usize) -> bool
        requires { AreCounted self.now.list.items self.now.count }
        ensures { result ≡ has_records place (joined_records self.now.list.items) }
    {
        match self.list.get(place) {
            Some(space) => !space.is_empty(),
            None => false,
        }
    }

    /// Puts a record in its place. Where memory is refused, the records are as they were and the
    /// error gives the record back.
    ///
    /// The first record of a namespace makes room for the namespaces at its place and below. The
    /// memory is that of the room, of the record and of its entry, of a copy of the name of its parent
    /// where no other record of the namespace is on it, and of copies of the keys that begin as its
    /// own where there are such.
    pub(crate) fn put(&mut self, added: HeldRecord) -> Result<(), (NoMemory, HeldRecord)>
        requires counted { AreCounted self.old.list.items self.old.count }
        requires new { has_key added.namespace added.key (joined_records self.old.list.items) ≡ false }
        requires few { length (joined_records self.old.list.items) + 1 < 2 ^ 64 }
        ensures counted { AreCounted self.new.list.items self.new.count }
        ensures ok { OnOk result (joined_records self.new.list.items ≡ with_record added (joined_records self.old.list.items)) }
        ensures err { OnErr result (joined_records self.new.list.items ≡ joined_records self.old.list.items) }
        ensures value_returned { IfErr result (λ back. back.1 ≡ added) }
    {
        let place = added.record().namespace;
        if let Err(refused) = grow(&mut self.list, place) {
            return Err((refused.into(), added));
        }
        let space = &mut self.list[place];
        space.insert(added)?;
        self.count += 1;
        Ok(())
    }

    /// Takes the record of the key in the namespace at the place away. Where there is none, the
    /// records are as they were. Takes no memory.
    pub(crate) fn take_out(&mut self, place: usize, key: &str) -> Option<HeldRecord>
        requires { AreCounted self.old.list.items self.old.count }
        ensures counted { AreCounted self.new.list.items self.new.count }
        ensures taken { joined_records self.new.list.items ≡ without_key place key.now (joined_records self.old.list.items) }
        ensures record_taken { result ≡ record_at place key.now (joined_records self.old.list.items) }
    {
        if place >= self.list.len() {
            return None;
        }
        let space = &mut self.list[place];
        let removed = space.remove(key)?;
        self.count -= 1;
        Some(removed)
    }

    /// Edits the record of the key in the namespace at the place. Where there is none, the records are
    /// as they were. Takes no memory.
    pub(crate) fn edit_at(&mut self, place: usize, key: &str, edit: RecordEdit)
        requires counted { AreCounted self.old.list.items self.old.count }
        requires edit { (r : Record) → record_at place key.now (joined_records self.old.list.items) ≡ Some r → IsEditOf edit r }
        ensures counted { AreCounted self.new.list.items self.new.count }
        ensures edited { joined_records self.new.list.items ≡ edited_at place key.now edit (joined_records self.old.list.items) }
    {
        if place >= self.list.len() {
            return;
        }
        let space = &mut self.list[place];
        space.edit(key, edit);
    }
}

/// Makes room for the namespaces at the place and below. Where memory is refused, there may be room
/// for some of them.
fn grow(spaces: &mut Vec<Space>, place: usize) -> Result<(), AllocError>
    requires { AreFrom 0 spaces.old.items }
    ensures from { AreFrom 0 spaces.new.items }
    ensures same { joined_records spaces.new.items ≡ joined_records spaces.old.items }
    ensures room { OnOk result (place < vec_len spaces.new) }
{
    let alloc = *spaces.allocator();
    while spaces.len() <= place {
        spaces.push(Space::new(alloc))?;
    }
    Ok(())
}
