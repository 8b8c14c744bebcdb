// An entry of the journal in the hands of two holders.
ghost use Rattle.std.specs.Prelude.{◌≡◌, ◌↔◌, IfOk, IsTrue};

use crate::entry::Entry;
use std::alloc::{AllocError, Global};
use std::marker::Model;
use std::sync::Arc;

// Where the entry stands: counted, or in memory of its own.
#[derive(Debug, Drop)]
enum Holder {
    Counted(Arc<Entry>),
    Own(Box<Entry>),
}

/// An entry of the journal, which does not change. It has two holders, the journal and the session's tape.
/// Contracts see the entry.
///
/// Its texts stand in memory once, for both holders.
#[derive(Debug)]
pub struct SharedEntry {
    holder: Holder,
}

// By hand: a derived one is proved anew, part by part, wherever a value is let go.
impl Drop for SharedEntry {
    fn drop(self) {
        let SharedEntry { holder: _ } = self;
    }
}

impl Model for SharedEntry {
    ghost use Rattle.snap_call.specs.declared.entry.Entry.{Entry};

    ghost Value = { Entry };

    ghost use Rattle.snap_call.specs.Holder.{held_in};

    ghost view = { λ s. held_in s.holder };
}

impl SharedEntry {
    /// The entry for two holders. Where memory is refused it goes. Takes memory for the entry without its
    /// texts, once. The cost is constant.
    pub fn pair(alloc: Global, entry: Entry) -> Result<(SharedEntry, SharedEntry), AllocError>
        ensures first { IfOk result (λ p. p.0 ≡ entry) }
        ensures second { IfOk result (λ p. p.1 ≡ entry) }
    {
        let first = Arc::new(alloc, entry)?;
        let second = Arc::try_clone(&first)?;
        let first = SharedEntry {
            holder: Holder::Counted(first),
        };
        let second = SharedEntry {
            holder: Holder::Counted(second),
        };
        Ok((first, second))
    }

    // In memory of its own.
    pub(crate) fn own(entry: Box<Entry>) -> SharedEntry
        ensures { result ≡ entry.value }
    {
        SharedEntry {
            holder: Holder::Own(entry),
        }
    }

    /// The entry. Takes no memory. The cost is constant.
    pub fn entry(&self) -> &Entry
        ensures { result.now ≡ self.now }
    {
        match &self.holder {
            Holder::Counted(entry) => entry,
            Holder::Own(entry) => entry,
        }
    }

    /// Whether the entries are equal in all parts. Takes no memory. Its cost grows with what is compared.
    pub fn is_same(&self, other: &SharedEntry) -> bool
        ensures { IsTrue result ↔ (self.now ≡ other.now) }
    {
        self.entry().is_same(other.entry())
    }
}
