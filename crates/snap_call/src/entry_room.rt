ghost use Rattle.std.specs.Prelude.{◌≡◌};

use crate::call::{Call, Given};
use crate::entry::Entry;
use crate::reply::Reply;
use crate::shared_entry::SharedEntry;
use std::alloc::{AllocError, Global};
use std::marker::Model;

/// Memory for an entry without texts, once for each of its two holders, taken before the entry is known.
/// Contracts see nothing of it.
#[derive(Debug)]
pub struct EntryRoom {
    entry: Box<Entry>,
    copy: Box<Entry>,
}

impl Model for EntryRoom {
    ghost Value = { Unit {0} };

    ghost view = { λ _. tt };
}

// By hand: a derived one is proved anew, part by part, wherever a value is let go.
impl Drop for EntryRoom {
    fn drop(self) {
        let EntryRoom { entry: _, copy: _ } = self;
    }
}

// What stands in a room until it is filled.
fn nothing() -> Entry {
    Entry {
        session: 0,
        call: Call::Session,
        given: Given::Nothing,
        reply: Reply::Opened,
    }
}

impl EntryRoom {
    /// Room for one entry. Takes memory for it twice. The cost is constant.
    pub fn new(alloc: Global) -> Result<EntryRoom, AllocError> {
        Ok(EntryRoom {
            entry: Box::new(alloc, nothing())?,
            copy: Box::new(alloc, nothing())?,
        })
    }

    /// The entry and its copy, in this room. Takes no memory. The cost is constant.
    pub fn fill(self, entry: Entry, copy: Entry) -> (SharedEntry, SharedEntry)
        ensures entry { result.0 ≡ entry }
        ensures copy { result.1 ≡ copy }
    {
        let EntryRoom {
            entry: mut first,
            copy: mut second,
        } = self;
        *first = entry;
        *second = copy;
        (SharedEntry::own(first), SharedEntry::own(second))
    }
}
