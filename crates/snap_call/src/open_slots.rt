// Which snapshot is active in each slot.
ghost use Rattle.std.specs.Prelude.{◌≡◌, ◌<◌, ◌+◌, ℕ, [], None, Some, true, length, option_copied, slice_set, OnOk, ◌==◌, if◌then◌else◌};
ghost use Rattle.std.specs.Option.{is_some};
ghost use Rattle.snap_call.specs.Indexes.{name_in, stretch_of};
ghost use Rattle.snap_call.specs.Records.{max_slots};

use snap_record::Text;
use std::alloc::{AllocError, Global};
use std::marker::Model;

// The slots of a stretch, which are passed over at once where all are open. So the lowest free one of
// 4096 is found in 128 steps at most.
const STRETCH: u64 = 64;

// The place of a snapshot's namespace and its key.
#[derive(Drop)]
pub(crate) struct Name {
    pub(crate) place: usize,
    pub(crate) key: Text,
}

// The name of the snapshot that is active in each slot, and a mark for each stretch whose slots are all
// open. The tables are as long as the highest slot that was ever open; slots past it are free.
#[derive(Drop)]
pub(crate) struct OpenSlots {
    names: Vec<Option<Name>>,
    marks: Vec<bool>,
}

impl Model for OpenSlots {
    ghost use Rattle.std.specs.Prelude.{List, Option};
    ghost use Rattle.snap_call.specs.Indexes.{AreMarked};
    ghost use Rattle.snap_call.specs.declared.open_slots.Name.{Name};

    ghost Value = { List (Option Name) };

    ghost view = { λ s. s.names.items };

    ghost invariant = { λ s. AreMarked s.marks.items s.names.items };
}

// Whether the table has a name for the slot.
fn is_taken(names: &[Option<Name>], slot: u64) -> bool
    ensures { result ≡ is_some (name_in slot names.now) }
{
    match names.get(slot as usize) {
        Some(Some(_)) => true,
        Some(None) | None => false,
    }
}

// Whether the table has a name for each slot of the slot's stretch.
fn is_full(names: &[Option<Name>], slot: u64) -> bool
    requires { slot < length names.now }
    ensures { result ≡ true → (k : ℕ) → stretch_of k ≡ stretch_of slot → is_some (name_in k names.now) ≡ true }
{
    let first = slot - slot % STRETCH;
    for place in 0..STRETCH {
        if !is_taken(names, first + place) {
            return false;
        }
    }
    true
}

// The mark of the slot's stretch, where there is one.
fn mark(marks: &mut [bool], slot: u64, full: bool)
    ensures { marks.new ≡ slice_set marks.old (stretch_of slot) full }
{
    let place = (slot / STRETCH) as usize;
    if place < marks.len() {
        marks[place] = full;
    }
}

impl OpenSlots {
    // All slots are free. Takes no memory.
    pub(crate) fn new(alloc: Global) -> OpenSlots
        ensures { result ≡ [] }
    {
        OpenSlots {
            names: Vec::new(alloc),
            marks: Vec::new(alloc),
        }
    }

    // The name of the snapshot in the slot. Takes no memory. The cost is constant.
    pub(crate) fn get(&self, slot: u64) -> Option<&Name>
        ensures { option_copied result ≡ name_in slot self.now }
    {
        match self.names.get(slot as usize) {
            Some(Some(name)) => Some(name),
            _ => None,
        }
    }

    // How many slots from this one on are seen to be open at once: a whole stretch that begins with it
    // and is marked, else the slot, or none where it is free. Takes no memory. The cost is constant.
    pub(crate) fn open_from(&self, slot: u64) -> u64
        ensures open { (k : ℕ) → k < result → is_some (name_in (slot + k) self.now) ≡ true }
        ensures free { result ≡ 0 → name_in slot self.now ≡ None }
    {
        if slot % STRETCH == 0 && self.is_marked(slot) {
            return STRETCH;
        }
        if is_taken(&self.names, slot) { 1 } else { 0 }
    }

    // Whether the slot's stretch is marked, as only one is whose slots are all open.
    fn is_marked(&self, slot: u64) -> bool
        ensures { result ≡ true → (k : ℕ) → stretch_of k ≡ stretch_of slot → is_some (name_in k self.now) ≡ true }
    {
        match self.marks.get((slot / STRETCH) as usize) {
            Some(mark) => *mark,
            None => false,
        }
    }

    // Makes room for the slot. Where memory is refused, nothing changes.
    pub(crate) fn reserve(&mut self, slot: u64) -> Result<(), AllocError>
        requires { slot < max_slots }
        ensures room { OnOk result (slot < length self.new) }
        ensures same { (k : ℕ) → name_in k self.new ≡ name_in k self.old }
    {
        self.reserve_mark(slot)?;
        let count = slot as usize + 1;
        while self.names.len() < count {
            self.names.push(None)?;
        }
        Ok(())
    }

    // Makes room for the mark of the slot's stretch.
    fn reserve_mark(&mut self, slot: u64) -> Result<(), AllocError>
        requires { slot < max_slots }
        ensures { self.new ≡ self.old }
    {
        let count = (slot / STRETCH) as usize + 1;
        while self.marks.len() < count {
            self.marks.push(false)?;
        }
        Ok(())
    }

    // Puts the name in the slot. Takes no memory. It goes over the slot's stretch.
    pub(crate) fn set(&mut self, slot: u64, name: Name)
        requires { slot < length self.old }
        ensures { (k : ℕ) → name_in k self.new ≡ (if k == slot then Some name else name_in k self.old) }
    {
        self.names[slot as usize] = Some(name);
        let full = is_full(&self.names, slot);
        mark(&mut self.marks, slot, full);
    }

    // Frees the slot. The answer is the name that was in it. Takes no memory. The cost is constant.
    pub(crate) fn take(&mut self, slot: u64) -> Option<Name>
        ensures taken { result ≡ name_in slot self.old }
        ensures rest { (k : ℕ) → name_in k self.new ≡ (if k == slot then None else name_in k self.old) }
    {
        let place = self.names.get_mut(slot as usize)?;
        let name = place.take();
        mark(&mut self.marks, slot, false);
        name
    }
}
