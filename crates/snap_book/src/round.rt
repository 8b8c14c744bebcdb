// The next round of a book.
ghost use Rattle.std.specs.Prelude.{◌≡◌, ◌⊎◌, ◌≤◌, ◌+◌, ◌^◌, [], None, IfErr, IfOk, IsErrOf, OnOk, OnErr, Ok, Err};
ghost use Rattle.snap_call.specs.Good.{Good};
ghost use Rattle.snap_call.specs.Records.{open_count, max_journal};
ghost use Rattle.snap_call.specs.declared.refusal.Refusal.{Refusal};
ghost use Rattle.snap_path.specs.Memory.{no_memory};
ghost use Rattle.snap_call.specs.declared.refusal.Refusal.TheVariants.{OutOfMemory};
ghost use Rattle.snap_book.specs.Book.{IsRefusedWith};
ghost use Rattle.snap_book.specs.Round.{next_round, roll_answer, round_answer};

use crate::book::Book;
use crate::journal::Journal;
use snap_accounts::Accounts;
use snap_call::limits::{MAX_ENTRY, MAX_JOURNAL};
use snap_call::{Refusal, State};
use snap_ledger::StoreName;
use std::alloc::Global;

// Whether a round with this most of entries may begin at the state.
fn test_round(state: &State, journal: u64) -> Result<(), Refusal>
    ensures answer { result ≡ round_answer state.now journal }
    ensures limit { OnOk result (journal ≤ max_journal) }
    ensures numbers { OnOk result (state.now.entries + journal ≤ 2 ^ 62) }
{
    if journal > MAX_JOURNAL {
        return Err(Refusal::BadArgument);
    }
    let entries = state.entries;
    if entries > MAX_ENTRY || journal > MAX_ENTRY - entries {
        return Err(Refusal::NumbersSpent);
    }
    Ok(())
}

// The journal of a round that begins at the state of the accounts, with an entry for the end of each open snapshot and
// one more.
fn journal_at<N: StoreName>(
    alloc: Global,
    accounts: &Accounts<N>,
    journal: u64,
) -> Result<Journal, Refusal>
    ensures ok { IfOk result (λ j. j ≡ record { entries = []; opening = accounts.now; limit = journal; copy = None; room = j.room }) }
    ensures room { IfOk result (λ j. open_count accounts.now.records + 1 ≤ j.room) }
    ensures good { OnOk result (Good accounts.now) }
    ensures numbers { OnOk result (accounts.now.entries + journal ≤ 2 ^ 62) }
    ensures owed { OnOk result (open_count accounts.now.records + 1 ≤ journal) }
    ensures answer { OnOk result (roll_answer accounts.now journal ≡ Ok tt) }
    ensures first { (why : Refusal) → roll_answer accounts.now journal ≡ Err why → IsErrOf result why }
    ensures refused { IfErr result (λ why. (roll_answer accounts.now journal ≡ Err why) ⊎ (why ≡ OutOfMemory no_memory)) }
{
    test_round(accounts.state(), journal)?;
    if journal <= accounts.open_slots() {
        return Err(Refusal::JournalFull);
    }
    let mut entries = Journal::new(alloc, accounts.state(), journal)?;
    entries.admit(accounts.open_slots(), 1)?;
    Ok(entries)
}

impl<N: StoreName> Book<N> {
    /// A book whose round begins at the state of these accounts: its journal is empty and has at most `journal`
    /// entries, and sessions are counted from 0. Snapshots may be open, as in [`Book::roll`], in their writers'
    /// hands.
    ///
    /// The refusals of [`Book::roll`], and then `OutOfMemory`; the accounts come back, without sessions. Takes memory
    /// for a place for each slot, and for an entry for the end of each open snapshot and one more. The cost grows with
    /// the numbers of slots and of records.
    pub fn begin(
        alloc: Global,
        accounts: Accounts<N>,
        journal: u64,
    ) -> Result<Book<N>, (Refusal, Accounts<N>)>
        ensures began { IfOk result (λ b. b ≡ record { state = next_round accounts; journal = []; opening = next_round accounts; limit = journal; copy = None }) }
        ensures answer { OnOk result (roll_answer accounts journal ≡ Ok tt) }
        ensures first { (why : Refusal) → roll_answer accounts journal ≡ Err why → IsRefusedWith result why }
        ensures refused { IfErr result (λ back. (roll_answer accounts journal ≡ Err back.0) ⊎ (back.0 ≡ OutOfMemory no_memory)) }
        ensures back { IfErr result (λ back. back.1 ≡ next_round accounts) }
    {
        let mut accounts = accounts;
        accounts.end_sessions();
        match journal_at(alloc, &accounts, journal) {
            Ok(journal) => Ok(Book {
                alloc,
                accounts,
                journal,
            }),
            Err(why) => Err((why, accounts)),
        }
    }

    /// Begins the next round, whose journal has at most `journal` entries: it is empty, and sessions are
    /// counted from 0 again. All snapshots stay, and their records and charges; the first entry has the
    /// number after the last one's. No snapshot may be open.
    ///
    /// `BadArgument` where the journal would be above 1,048,576 entries, then `NumbersSpent` where the
    /// numbers of its entries could pass 2^62; the book is then as it was. No entry is made.
    ///
    /// The entries of the round that ends go four with each later one. Takes memory for a list of them, 8 bytes each;
    /// where that is refused they go at once. The cost grows with that list and with the number of slots.
    pub fn next_round(&mut self, journal: u64) -> Result<(), Refusal>
        requires { open_count self.old.state.records ≡ 0 }
        ensures answer { result ≡ round_answer self.old.state journal }
        ensures began { OnOk result (self.new ≡ record { state = next_round self.old.state; journal = []; opening = next_round self.old.state; limit = journal; copy = None }) }
        ensures same { OnErr result (self.new ≡ self.old) }
    {
        test_round(self.accounts.state(), journal)?;
        self.accounts.end_sessions();
        self.journal.begin(self.accounts.state(), journal);
        Ok(())
    }

    /// What [`Book::roll`] would answer now. Takes no memory. The cost is constant.
    pub fn test_roll(&self, journal: u64) -> Result<(), Refusal>
        ensures { result ≡ roll_answer self.now.state journal }
    {
        test_round(self.accounts.state(), journal)?;
        if journal <= self.accounts.open_slots() {
            return Err(Refusal::JournalFull);
        }
        Ok(())
    }

    /// Begins the next round as [`Book::next_round`] does, and snapshots may be open: they stay as they are in
    /// their writers' hands, with their ids and shares. It needs no place in the journal of the round that ends.
    ///
    /// `BadArgument` and `NumbersSpent` as for [`Book::next_round`], then `JournalFull` where the new journal
    /// lacks an entry for the end of each open snapshot and one more; the book is then as it was. No entry is
    /// made. Memory and cost are those of [`Book::next_round`].
    pub fn roll(&mut self, journal: u64) -> Result<(), Refusal>
        ensures answer { result ≡ roll_answer self.old.state journal }
        ensures began { OnOk result (self.new ≡ record { state = next_round self.old.state; journal = []; opening = next_round self.old.state; limit = journal; copy = None }) }
        ensures same { OnErr result (self.new ≡ self.old) }
    {
        self.test_roll(journal)?;
        self.accounts.end_sessions();
        self.journal.begin(self.accounts.state(), journal);
        Ok(())
    }
}
