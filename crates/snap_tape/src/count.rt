// How many entries of a journal were put on tapes.
ghost use Rattle.std.specs.Prelude.{◌≡◌, ◌≤◌, ◌<◌, ◌+◌, length};
ghost use Rattle.snap_tape.specs.Tapes.{count_with, session_with_entry};

use crate::session::Session;
use snap_call::SharedEntry;
use std::marker::Model;

/// How many entries of a round's journal were put on tapes of its sessions. A store keeps it under its lock beside
/// the journal, which has as many entries whenever the lock is free: what no tape took was not made.
///
/// Contracts see the number.
#[derive(Drop)]
pub struct TapeCount {
    count: u64,
}

impl Model for TapeCount {
    ghost use Rattle.std.specs.Prelude.{ℕ};

    ghost Value = { ℕ };

    ghost view = { λ c. c.count };
}

impl TapeCount {
    /// That of a round without entries. Takes no memory.
    pub fn none() -> TapeCount
        ensures { result ≡ 0 }
    {
        TapeCount { count: 0 }
    }

    /// Puts the entry on the session's tape, where there is one, and counts it. `journal` has it already. Takes no
    /// memory. The cost is constant.
    pub fn note(
        &mut self,
        session: &mut Session,
        journal: &[SharedEntry],
        entry: Option<SharedEntry>,
    )
        requires room { 0 < session.old.spare }
        requires made { count_with self.old entry ≡ length journal.now }
        ensures entry { session.new ≡ session_with_entry session.old entry }
        ensures room { session.old.spare ≤ session.new.spare + 1 }
        ensures count { self.new ≡ length journal.now }
    {
        session.note(entry);
        self.count = journal.len() as u64;
    }
}
