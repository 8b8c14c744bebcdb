// A store that is kept between calls, as C holds it. Only the functions of this file that are proved by hand reach what
// stands behind the pointer.
ghost use Rattle.std.specs.Prelude.{◌≡◌, true, false, string_bytes};
ghost use Rattle.std.specs.declared.alloc.Global.{Global};
ghost use Rattle.atomic_table.specs.Seated.{TableId, table_id_coded};
ghost use Rattle.snap_c.specs.Held.{HeldValue, Worked, unserved};
ghost use Rattle.snap_c.specs.Owned.{handle_owns, heap_coded, held_coded};

use crate::held::{Held, Told, Work, let_go};
use crate::loose::Loose;
use snap_ledger::NewTable;
use std::alloc::Global;
use std::marker::{Brand, Model};
use std::mem;
use std::ptr::null_mut;

/// What stands behind a handle, of which C sees nothing.
#[repr(C)]
#[derive(Drop)]
pub struct Opaque {
    byte: u8,
}

/// A store that is kept between calls, or none. Where one stands, this owns it: it isn't copied, and it goes back by
/// `pibroulez_close`. Contracts see whether one stands, and its value; no clause says anything of the value else.
#[repr(C)]
#[derive(Drop)]
pub struct Handle {
    at: *mut Opaque,
    pub stands: bool,
    ghost heap: { Global } by { heap_coded },
    ghost table: { TableId } by { table_id_coded },
    pub ghost value: { HeldValue } by { held_coded },
}

impl Model for Handle {
    ghost also_owns = { λ h. handle_owns h.stands h.heap h.table h.at h.value };
}

// What it holds may go to another thread.
unsafe impl Send for Handle {}

impl Handle {
    // One without a store.
    pub(crate) fn closed(alloc: Global) -> Handle
        ensures { result.stands ≡ false }
    {
        Handle {
            at: null_mut(),
            stands: false,
        }
    }

    // One with a store that has answered no line, or without one where memory was refused.
    pub(crate) fn opened(alloc: Global, table: NewTable) -> Handle
        ensures { result.stands ≡ true → result.value ≡ unserved }
    {
        match Held::<Brand>::boxed(alloc, table) {
            Some(held) => {
                let Loose { at, alloc: _ } = held;
                Handle {
                    at: at as *mut Opaque,
                    stands: true,
                }
            }
            None => Handle {
                at: null_mut(),
                stands: false,
            },
        }
    }

    // Whether a store stands.
    pub(crate) fn stands(&mut self) -> bool
        ensures stands { result ≡ self.old.stands }
        ensures same { self.new ≡ self.old }
    {
        self.stands
    }

    pub(crate) fn work(&mut self, work: Work<'_>) -> Told
        requires { self.old.stands ≡ true }
        ensures worked { Worked self.old.value work.entry self.new.value result }
        ensures stands { self.new.stands ≡ true }
    {
        let held = unsafe { &mut *(self.at as *mut Held<Brand>) };
        held.work(work)
    }

    fn let_go(self, alloc: Global)
        requires { self.stands ≡ true }
    {
        let_go(Loose {
            at: self.at as *mut Held<Brand>,
            alloc,
        });
    }

    // Lets the store go, where one stands.
    pub(crate) fn close(&mut self, alloc: Global)
        ensures { self.new.stands ≡ false }
    {
        if self.stands() {
            let held = mem::replace(self, Handle::closed(alloc));
            held.let_go(alloc);
        }
    }

    // Keeps this answer, and gives the one that was kept.
    pub(crate) fn swap(&mut self, alloc: Global, answer: String) -> String
        requires { self.old.stands ≡ true }
        ensures stands { self.new.stands ≡ true }
        ensures value { self.new.value ≡ record { server = self.old.value.server; answer = string_bytes answer } }
        ensures result { string_bytes result ≡ self.old.value.answer }
    {
        match self.work(Work::Swap(answer)) {
            Told::Text(text) => text,
            Told::OutOfMemory => String::new(alloc),
        }
    }
}
