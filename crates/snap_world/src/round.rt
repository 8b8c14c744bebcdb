// The next round of a world.
ghost use Rattle.std.specs.Prelude.{◌≡◌, OnOk, OnErr};
ghost use Rattle.snap_book.specs.Round.{roll_answer};
ghost use Rattle.snap_world.specs.Round.{reopen_answer, reopened};

use crate::world::World;
use snap_call::Refusal;
use snap_ledger::StoreName;
use std::alloc::AllocError;
use thiserror::Error;

/// Why no round was begun.
#[derive(Clone, Copy, Debug, PartialEq, Eq, Error)]
pub enum ReopenFault {
    /// A snapshot is open.
    #[error("a snapshot is open")]
    StillOut,
    /// The store refuses it.
    #[error("{0}")]
    Book(Refusal),
}

impl<N: StoreName> World<N> {
    /// Takes the memory for the entry of a session, so that the next one is opened without memory, also in the
    /// next round ([`Book::reserve_session`](snap_book::Book::reserve_session)). Where that memory is kept
    /// already it takes none; where memory is refused the world is as it was. The cost is constant, except where the
    /// journal's list of entries has to grow.
    pub fn reserve_session(&mut self) -> Result<(), AllocError>
        ensures { self.new ≡ self.old }
    {
        self.book.reserve_session()
    }

    /// Begins the next round, whose journal has at most `journal` entries: it is empty, and sessions are counted from 0
    /// again. All snapshots stay, and what they show.
    ///
    /// `StillOut` where a snapshot is open, and else the refusal of
    /// [`Book::next_round`](snap_book::Book::next_round); the world is then as it was. No entry is made.
    /// Memory and cost are those of that call.
    pub fn reopen(&mut self, journal: u64) -> Result<(), ReopenFault>
        ensures answer { result ≡ reopen_answer self.old journal }
        ensures began { OnOk result (self.new ≡ reopened self.old journal) }
        ensures same { OnErr result (self.new ≡ self.old) }
    {
        if self.book.open_slots() > 0 {
            return Err(ReopenFault::StillOut);
        }
        match self.book.next_round(journal) {
            Ok(()) => Ok(()),
            Err(why) => Err(ReopenFault::Book(why)),
        }
    }

    /// Begins the next round as [`World::reopen`] does, and snapshots may be open: they stay in their hands as
    /// they are. It needs no place in the journal of the round that ends.
    ///
    /// The refusals are those of [`Book::roll`](snap_book::Book::roll), `JournalFull` among them where the new
    /// journal has no room for an entry for the end of each open snapshot and one more; the world is then as it was. No
    /// entry is made. Memory and cost are those of that call.
    pub fn roll(&mut self, journal: u64) -> Result<(), Refusal>
        ensures answer { result ≡ roll_answer self.old.state journal }
        ensures began { OnOk result (self.new ≡ reopened self.old journal) }
        ensures same { OnErr result (self.new ≡ self.old) }
    {
        self.book.roll(journal)
    }
}
