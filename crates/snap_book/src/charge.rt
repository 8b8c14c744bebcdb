// What a snapshot's slot is charged, and its end without a commit.
ghost use Rattle.std.specs.Prelude.{◌≡◌, ◌≤◌, ◌<◌, ◌+◌, ◌↔◌, length, OnOk, IfErr, IsErrOf};
ghost use Rattle.snap_usage.specs.Counted.{Covers, count_of};
ghost use Rattle.snap_ledger.specs.States.{Meets};
ghost use Rattle.snap_call.specs.Records.{charge_at, max_slots, open_count};
ghost use Rattle.snap_call.specs.declared.call.Call.TheVariants as calls;
ghost use Rattle.snap_call.specs.declared.call.Given.TheVariants.{Nothing, Count};
ghost use Rattle.snap_call.specs.declared.reply.Reply.TheVariants.{Charged, Trimmed, Discarded};
ghost use Rattle.snap_call.specs.declared.refusal.Refusal.TheVariants.{JournalFull};
ghost use Rattle.snap_book.specs.Book.{Recorded, RefusedBy};
ghost use Rattle.snap_book.specs.Held.{share_of};
ghost use Rattle.snap_book.specs.Wanted.{more, needed_by, wanted_charge};

use crate::active::{Active, Held, Released};
use crate::book::Book;
use crate::journal::{charge_entry, discard_entry, trim_entry};
use snap_call::limits::MAX_LIMIT;
use snap_call::{EntryRoom, Refusal, Reply};
use snap_ledger::{Share, StoreName};
use snap_merge::FsError;
use snap_usage::Usage;

/// What the snapshot has to be charged for before its operation can be done, where that is its error. Takes
/// no memory. The cost is constant.
pub fn needed_by(error: FsError) -> Option<Usage>
    ensures { result ≡ needed_by error }
{
    match error {
        FsError::NeedsCharge(need) => Some(need),
        _ => None,
    }
}

// What is needed and the extra, which is cut to the greatest limit first.
fn more(need: u64, extra: u64) -> u64
    ensures { result ≡ more need extra }
{
    need.saturating_add(extra.min(MAX_LIMIT))
}

/// What a writer wants of a charge that needs `need`, to have `extra` to spare: the sum, in blocks of 4096 bytes and
/// inodes. Of the extra at most 2^40 of each quantity count, the greatest limit of a namespace, and a sum past 2^64 - 1
/// is that number. Takes no memory. The cost is constant.
pub fn wanted(need: Usage, extra: Usage) -> Usage
    ensures { result ≡ wanted_charge need extra }
{
    Usage {
        blocks: more(need.blocks, extra.blocks),
        inodes: more(need.inodes, extra.inodes),
    }
}

impl<N: StoreName> Book<N> {
    /// Charges the snapshot for the wanted amount where its namespace's limit covers that, else for
    /// the needed one; never for less than it is charged already.
    ///
    /// `JournalFull` where each further entry is kept for an open snapshot's end; then `OutOfMemory`
    /// where memory for the entry is refused; then `OverLimit` with what is free. After any of them
    /// the snapshot is as it was. The cost grows with the logarithm of the number of records.
    pub fn charge(
        &mut self,
        session: u64,
        active: &mut Active<N>,
        need: Usage,
        want: Usage,
    ) -> Result<(), Refusal>
        // Whatever the answer, the share is what the snapshot's slot is charged.
        ensures met { Meets (charge_at active.old.share.slot self.old.state.records) active.old.share }
        // Ok: one step of the store, with its entry, and the snapshot's share is what it is charged now.
        ensures granted { OnOk result (Recorded self.old self.new session (calls.Charge active.old.share.slot active.old.share.id need want) Nothing (Charged active.new.share.usage)) }
        ensures share { OnOk result (active.new ≡ record active.old { share = record active.old.share { usage = active.new.share.usage } }) }
        // Err: the refusal is the step's, and the snapshot is as it was.
        ensures refused { IfErr result (λ why. RefusedBy self.old self.new session (calls.Charge active.old.share.slot active.old.share.id need want) Nothing why) }
        ensures same { IfErr result (λ why. active.new ≡ active.old) }
        ensures full { IsErrOf result JournalFull ↔ (self.old.limit ≤ length self.old.journal + open_count self.old.state.records) }
    {
        self.charge_share(session, &mut active.share, need, want)
    }

    /// Charges the slot of a share, as [`Book::charge`] does that of a snapshot, with the same refusals and cost. The slot
    /// is one that a store can have.
    pub fn charge_share(
        &mut self,
        session: u64,
        share: &mut Share<N>,
        need: Usage,
        want: Usage,
    ) -> Result<(), Refusal>
        requires { share.old.slot < max_slots }
        ensures met { Meets (charge_at share.old.slot self.old.state.records) share.old }
        ensures granted { OnOk result (Recorded self.old self.new session (calls.Charge share.old.slot share.old.id need want) Nothing (Charged share.new.usage)) }
        ensures share { OnOk result (share.new ≡ record share.old { usage = share.new.usage }) }
        ensures more { OnOk result (Covers share.new.usage share.old.usage) }
        ensures needed { OnOk result (Covers share.new.usage need) }
        ensures refused { IfErr result (λ why. RefusedBy self.old self.new session (calls.Charge share.old.slot share.old.id need want) Nothing why) }
        ensures same { IfErr result (λ why. share.new ≡ share.old) }
        ensures full { IsErrOf result JournalFull ↔ (self.old.limit ≤ length self.old.journal + open_count self.old.state.records) }
    {
        self.accounts.meet(share);
        self.journal.admit(self.accounts.open_slots(), 1)?;
        let room = EntryRoom::new(self.alloc)?;
        let slot = share.slot();
        let id = share.id();
        match self.accounts.charge(share, need, want) {
            Ok(now) => {
                let copy = charge_entry(session, slot, id, need, want, Reply::Charged { now });
                let entry = charge_entry(session, slot, id, need, want, Reply::Charged { now });
                self.journal.push_into(room, entry, copy);
                Ok(())
            }
            Err(free) => {
                let why = Refusal::OverLimit {
                    free_blocks: free.blocks,
                    free_inodes: free.inodes,
                };
                let copy = charge_entry(session, slot, id, need, want, Reply::Refused(why));
                let entry = charge_entry(session, slot, id, need, want, Reply::Refused(why));
                self.journal.push_into(room, entry, copy);
                Err(why)
            }
        }
    }

    /// Lowers the snapshot's charge to the count of its layer.
    ///
    /// `JournalFull` and `OutOfMemory` as for [`Book::charge`]; the snapshot is then as it was.
    pub fn trim(&mut self, session: u64, active: &mut Active<N>) -> Result<(), Refusal>
        ensures met { Meets (charge_at active.old.share.slot self.old.state.records) active.old.share }
        ensures granted { OnOk result (Recorded self.old self.new session (calls.Trim active.old.share.slot active.old.share.id) (Count (count_of active.old.layer)) Trimmed) }
        ensures share { OnOk result (active.new ≡ record active.old { share = record active.old.share { usage = count_of active.old.layer } }) }
        ensures refused { IfErr result (λ why. RefusedBy self.old self.new session (calls.Trim active.old.share.slot active.old.share.id) (Count (count_of active.old.layer)) why) }
        ensures same { IfErr result (λ why. active.new ≡ active.old) }
        ensures full { IsErrOf result JournalFull ↔ (self.old.limit ≤ length self.old.journal + open_count self.old.state.records) }
    {
        self.accounts.meet(&mut active.share);
        self.journal.admit(self.accounts.open_slots(), 1)?;
        let room = EntryRoom::new(self.alloc)?;
        let slot = active.share.slot();
        let id = active.share.id();
        let count = active.count();
        self.accounts.trim(&mut active.share, count);
        let copy = trim_entry(session, slot, id, count);
        self.journal
            .push_into(room, trim_entry(session, slot, id, count), copy);
        Ok(())
    }

    /// Drops the snapshot and frees its slot; the answer is what it was charged.
    ///
    /// It has no refusal and takes no memory: the room for its entry was kept when it was prepared. Its cost is that
    /// of [`Held::release`] and of [`Book::take_back`].
    pub fn discard(&mut self, session: u64, held: Held<N>) -> Usage
        ensures granted { Recorded self.old self.new session (calls.Discard (share_of held).slot (share_of held).id) Nothing (Discarded result) }
        ensures held { result ≡ (share_of held).usage }
    {
        self.take_back(session, held.release())
    }

    /// Frees the slot of a snapshot whose layer is let go; the answer is what it was charged. So a store lets the
    /// layer go before it takes its lock.
    ///
    /// It has no refusal and takes no memory. Its cost grows with the logarithm of the number of records.
    pub fn take_back(&mut self, session: u64, released: Released<N>) -> Usage
        ensures granted { Recorded self.old self.new session (calls.Discard released.slot released.id) Nothing (Discarded result) }
        ensures held { result ≡ released.usage }
    {
        let Released {
            share,
            discard_room,
        } = released;
        let slot = share.slot();
        let id = share.id();
        let held = self.accounts.discard(share);
        let copy = discard_entry(session, slot, id, held);
        self.journal
            .push_into(discard_room, discard_entry(session, slot, id, held), copy);
        held
    }
}
