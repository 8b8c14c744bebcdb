// A session: its number and its tape.
ghost use Rattle.std.specs.Prelude.{◌≡◌, ◌≤◌, ◌<◌, ◌+◌, ◌-◌, OnOk, OnErr, vec_len};
ghost use Rattle.std.specs.Vec.{vec_capacity};
ghost use Rattle.snap_tape.specs.Tapes.{Untaped, session_with_entry};

use snap_call::SharedEntry;
use std::alloc::AllocError;
use std::marker::Model;

/// A session of a store, on one thread at a time: its number, and its tape, which has each entry that its
/// calls left in the store's journal, in order. The journal and the tape share the entries.
///
/// The store's close asks for all sessions of the round. One that is dropped is missing there.
#[derive(Drop)]
pub struct Session {
    number: u64,
    tape: Vec<SharedEntry>,
}

impl Model for Session {
    ghost use Rattle.std.specs.Prelude.{◌-◌, vec_len};
    ghost use Rattle.std.specs.Vec.{vec_capacity};
    ghost use Rattle.snap_tape.specs.Tapes.{SessionValue};

    ghost Value = { SessionValue };

    ghost view = { λ s. record { number = s.number; tape = s.tape.items; spare = vec_capacity s.tape - vec_len s.tape } };
}

impl Session {
    /// A session of this number, with this tape. Takes no memory.
    pub fn of(number: u64, tape: Vec<SharedEntry>) -> Session
        ensures number { result.number ≡ number }
        ensures tape { result.tape ≡ tape.items }
        ensures spare { result.spare ≡ vec_capacity tape - vec_len tape }
    {
        Session { number, tape }
    }

    /// Its number among the sessions of the round, from 0. Takes no memory. The cost is constant.
    pub fn number(&self) -> u64
        ensures { result ≡ self.now.number }
    {
        self.number
    }

    /// The entries that its calls left, in order; the first is that of its own opening. Takes no memory.
    /// The cost is constant.
    pub fn tape(&self) -> &[SharedEntry]
        ensures { result.now ≡ self.now.tape }
    {
        self.tape.as_slice()
    }

    /// For how many more entries its tape has memory. Takes no memory. The cost is constant.
    pub fn spare(&self) -> usize
        ensures { result ≡ self.now.spare }
    {
        self.tape.capacity() - self.tape.len()
    }

    /// Makes room on the tape for `entries` more entries, as a discard needs for one. Where memory
    /// is refused the tape is as it was. The cost is that of moving the tape, if it has to grow.
    pub fn reserve(&mut self, entries: usize) -> Result<(), AllocError>
        ensures same { Untaped self.old self.new }
        ensures room { OnOk result (entries ≤ self.new.spare) }
        ensures unchanged { OnErr result (self.new ≡ self.old) }
    {
        self.tape.reserve(entries)
    }

    /// Puts the entry on the tape, where there is one. Takes no memory. The cost is constant.
    pub fn note(&mut self, entry: Option<SharedEntry>)
        requires { 0 < self.old.spare }
        ensures entry { self.new ≡ session_with_entry self.old entry }
        ensures room { self.old.spare ≤ self.new.spare + 1 }
    {
        if let Some(entry) = entry {
            self.tape.push_reserved(entry);
        }
    }
}
