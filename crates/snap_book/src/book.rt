// A book: its state, its journal, and what is read of both.
ghost use Rattle.std.specs.Prelude.{◌≡◌, ◌≤◌, ◌<◌, ◌+◌, ◌↔◌, ℕ, None, Some, length, Ok, Err, IfErr, IsErrOf, ◌⊎◌, [], IfOk, OnErr, false, true};
ghost use Rattle.snap_call.specs.Good.{Good};
ghost use Rattle.snap_call.specs.Promised.{Promised};
ghost use Rattle.snap_call.specs.Journal.{Replays};
ghost use Rattle.snap_call.specs.Records.{open_count, charge_of, sum_of, max_sessions};
ghost use Rattle.snap_call.specs.declared.call.Call.TheVariants as calls;
ghost use Rattle.snap_call.specs.declared.call.Given.TheVariants.{Nothing};
ghost use Rattle.snap_call.specs.declared.reply.Reply.TheVariants.{Opened};
ghost use Rattle.snap_call.specs.declared.refusal.Refusal.TheVariants.{JournalFull, BadArgument, NumbersSpent, OutOfMemory};
ghost use Rattle.snap_book.specs.Book.{IsBeginning, IsLast, Recorded};
ghost use Rattle.snap_call.specs.Forms.{is_config, is_layer_limit};
ghost use Rattle.snap_call.specs.State.{opening, limit_at, place_of, name_at};
ghost use Rattle.snap_call.specs.Totals.{usage_taken};
ghost use Rattle.snap_accounts.specs.Entries.{IsUnrecorded};
ghost use Rattle.std.specs.Option.{option_map};
ghost use Rattle.snap_path.specs.Memory.{no_memory};
ghost use Rattle.snap_usage.specs.Counted.{Covers};
ghost use Rattle.snap_book.specs.Slot.{found_of, slot_and_id_of};
ghost use Rattle.snap_history.specs.Changes.{no_shares};
ghost use Rattle.snap_history.specs.Open.{shares_of};

use crate::journal::{Journal, session_entry};
use snap_accounts::Accounts;
use snap_call::limits::MAX_SESSIONS;
use snap_call::{Config, Records, Refusal, SharedEntry, State};
use snap_history::Shares;
use snap_ledger::{NewTable, StoreName};
use snap_record::{Content, Record};
use snap_usage::Usage;
use std::alloc::{AllocError, Global};
use std::marker::Model;

/// The book of a store: its state and the journal of the calls that made it.
pub struct Book<N: StoreName> {
    pub(crate) alloc: Global,
    pub(crate) accounts: Accounts<N>,
    pub(crate) journal: Journal,
}

// By hand: a derived one is proved anew, part by part, wherever a value is let go.
impl<N: StoreName> Drop for Book<N> {
    fn drop(self) {
        let Book {
            alloc: _,
            accounts: _,
            journal: _,
        } = self;
    }
}

impl<N: StoreName> Model for Book<N> {
    ghost use Rattle.snap_book.specs.Book.{BookValue, Kept};

    ghost Value = { BookValue };

    ghost view = { λ b. record { state = b.accounts; journal = b.journal.entries; opening = b.journal.opening; limit = b.journal.limit; copy = b.journal.copy } };

    ghost invariant = { λ b. Kept b.accounts b.journal };
}

impl<N: StoreName> Book<N> {
    /// A book with the namespaces of the configuration and no snapshots.
    ///
    /// `BadArgument` where a part of the configuration is malformed; `OutOfMemory` where memory is
    /// refused. Memory and cost grow with the numbers of namespaces and of slots; besides there is a charge
    /// for each of the 4096 slots that a store can have, together 192 KiB.
    pub fn open(alloc: Global, table: NewTable, config: Config) -> Result<Book<N>, Refusal>
        requires { table ≡ N.table }
        ensures opened { IfOk result (λ b. b ≡ record { state = opening config; journal = []; opening = opening config; limit = config.journal; copy = None }) }
        ensures bad { IsErrOf result BadArgument ↔ (is_config config ≡ false) }
        ensures err { IfErr result (λ why. (why ≡ BadArgument) ⊎ (why ≡ OutOfMemory no_memory)) }
    {
        if !config.is_valid() {
            return Err(Refusal::BadArgument);
        }
        let limit = config.journal;
        let accounts = Accounts::opening(alloc, table, config)?;
        let journal = Journal::new(alloc, accounts.state(), limit)?;
        Ok(Book {
            alloc,
            accounts,
            journal,
        })
    }

    /// Opens a session and gives its number, counted from 0.
    ///
    /// `JournalFull` and `OutOfMemory` as for [`Book::charge`]; `NumbersSpent` after 65,536 sessions.
    /// None of them is recorded, and the book is as it was. Takes no memory after
    /// [`Book::reserve_session`].
    pub fn open_session(&mut self) -> Result<u64, Refusal>
        ensures number { IfOk result (λ n. n ≡ self.old.state.sessions) }
        ensures granted { IfOk result (λ n. Recorded self.old self.new n calls.Session Nothing Opened) }
        ensures same { OnErr result (self.new ≡ self.old) }
        ensures err { IfErr result (λ why. IsUnrecorded why ⊎ ((why ≡ NumbersSpent) × (max_sessions ≤ self.old.state.sessions))) }
        ensures full { IsErrOf result JournalFull ↔ (self.old.limit ≤ length self.old.journal + open_count self.old.state.records) }
    {
        self.journal.admit(self.accounts.open_slots(), 1)?;
        let number = self.accounts.state().sessions;
        if number >= MAX_SESSIONS {
            return Err(Refusal::NumbersSpent);
        }
        let room = self.journal.take_session_room(self.alloc)?;
        self.accounts.open_session();
        self.journal
            .push_into(room, session_entry(number), session_entry(number));
        Ok(number)
    }

    /// Takes the memory for the entry of a session, so that the next [`Book::open_session`] needs none, also
    /// in the next round. Where that memory is kept already it takes none; where memory is refused the
    /// book is as it was. The cost is constant, except where the journal's list of entries has to grow.
    pub fn reserve_session(&mut self) -> Result<(), AllocError>
        ensures { self.new ≡ self.old }
    {
        self.journal.reserve_session(self.alloc)
    }

    /// Gives once the entry of the last recorded call, which the journal holds too. Takes no memory. The
    /// cost is constant.
    pub fn take_entry(&mut self) -> Option<SharedEntry>
        ensures entry { result ≡ self.old.copy }
        ensures last { IsLast result self.old.journal }
        ensures same { self.new ≡ record self.old { copy = None } }
    {
        self.journal.take_copy()
    }

    /// The most inodes of the layer of each snapshot that is prepared. Takes no memory. The cost is constant.
    pub fn layer_inodes(&self) -> u64
        ensures same { result ≡ self.now.state.layer_inodes }
        ensures formed { is_layer_limit result ≡ true }
    {
        self.accounts.state().layer_inodes
    }

    /// The entries of the round. Takes no memory. The cost is constant.
    pub fn journal(&self) -> &[SharedEntry]
        ensures { result.now ≡ self.now.journal }
    {
        self.journal.entries()
    }

    /// The state: the namespaces with their limits, the records, and the leases. Takes no memory. The cost
    /// is constant.
    pub fn state(&self) -> &State
        ensures { result.now ≡ self.now.state }
    {
        self.accounts.state()
    }

    /// The records of all snapshots, in order of their namespaces' places and the bytes of their keys.
    /// Takes no memory. The cost is constant.
    #[tactic(auto, using(crate::proofs::Promises::good_promises))]
    pub fn records(&self) -> &Records
        ensures records { result.now ≡ self.now.state.records }
        // What holds of every book: what its store promises of its snapshots, and what each call keeps besides.
        ensures promised { Promised self.now.state }
        ensures good { Good self.now.state }
        ensures began { IsBeginning self.now.opening }
        ensures replays { Replays self.now.opening self.now.journal self.now.state }
        ensures below { length self.now.journal + open_count self.now.state.records ≤ self.now.limit }
    {
        &self.accounts.state().records
    }

    /// What the open snapshots of the namespace were charged when the round began, for
    /// [`history`](snap_history::history); a place without a share for each slot where the store has no such
    /// namespace. Takes memory for a place for each slot. The cost grows with the numbers of slots and of namespaces.
    pub fn opening_shares(&self, namespace: &str) -> Result<Shares, AllocError>
        ensures shares { IfOk result (λ shares. (place : ℕ) → place_of namespace.now self.now.state.namespaces ≡ Some place → shares ≡ shares_of self.now.opening.slots place self.now.opening.records) }
        ensures none { IfOk result (λ shares. place_of namespace.now self.now.state.namespaces ≡ None → shares ≡ no_shares self.now.state.slots) }
    {
        match self.accounts.state().place_of(namespace) {
            Some(place) => self.journal.shares().of_namespace(self.alloc, place),
            None => Shares::none(self.alloc, self.accounts.state().slots),
        }
    }

    /// The most entries of the round's journal. Takes no memory. The cost is constant.
    pub fn most_entries(&self) -> u64
        ensures { result ≡ self.now.limit }
    {
        self.journal.limit()
    }

    /// How many snapshots are open. Takes no memory. The cost is constant.
    pub fn open_slots(&self) -> u64
        ensures { result ≡ open_count self.now.state.records }
    {
        self.accounts.open_slots()
    }

    /// How many sessions were opened in the round. Takes no memory. The cost is constant.
    pub fn sessions(&self) -> u64
        ensures { result ≡ self.now.state.sessions }
    {
        self.accounts.state().sessions
    }

    /// The number of the last entry, counted through all rounds, and 0 before the first one. Takes no memory.
    /// The cost is constant.
    pub fn last_entry(&self) -> u64
        ensures { result ≡ self.now.state.entries }
    {
        self.accounts.state().entries
    }

    /// What the namespace is charged, in blocks of 4096 bytes and inodes: the stored usages of its
    /// committed snapshots and the charges of its active ones. `None` where the store has no such
    /// namespace. Takes no memory. The cost grows with the logarithm of the number of namespaces.
    pub fn totals(&self, namespace: &str) -> Option<Usage>
        ensures charge { result ≡ option_map (λ place. charge_of place self.now.state.records) (place_of namespace.now self.now.state.namespaces) }
        // The counts over its committed layers, and its open shares.
        ensures counts { result ≡ option_map (λ place. sum_of usage_taken place self.now.state.records) (place_of namespace.now self.now.state.namespaces) }
    {
        match self.accounts.state().place_of(namespace) {
            Some(place) => Some(self.accounts.total(place)),
            None => None,
        }
    }

    /// What the namespace at a place is charged. Its limit covers that. Takes no memory. The cost is
    /// constant.
    pub fn total_at(&self, place: usize) -> Usage
        requires { place < length self.now.state.namespaces }
        ensures total { result ≡ charge_of place self.now.state.records }
        ensures within { Covers (limit_at place self.now.state.namespaces) result }
    {
        self.accounts.total(place)
    }

    /// The name of the namespace at a place among those of the store, from 0; no text past the last
    /// one. Takes no memory. The cost is constant.
    pub fn namespace_at(&self, place: usize) -> &str
        ensures { result.now ≡ name_at place self.now.state.namespaces }
    {
        self.accounts.state().name_at(place)
    }

    /// The record of the snapshot of this key. `NoNamespace` where the store has no such namespace, then
    /// `NotFound`. It leaves no entry. Takes no memory. The cost grows with the logarithm of the number of
    /// records.
    pub fn record(&self, namespace: &str, key: &str) -> Result<&Record, Refusal>
        ensures found { IfOk result (λ r. found_of self.now.state namespace.now key.now ≡ Ok r.now) }
        ensures refused { IfErr result (λ why. found_of self.now.state namespace.now key.now ≡ Err why) }
    {
        let state = self.accounts.state();
        let Some(place) = state.place_of(namespace) else {
            return Err(Refusal::NoNamespace);
        };
        match state.records.record_at(place, key) {
            Some(found) => Ok(found),
            None => Err(Refusal::NotFound),
        }
    }

    /// The slot and the id of the active snapshot of this key. `NoNamespace` where the store has no
    /// such namespace, then `NotFound`, then `NotActive` for a view or a committed snapshot. It leaves
    /// no entry. Takes no memory. The cost grows with the logarithm of the number of records.
    pub fn slot_of(&self, namespace: &str, key: &str) -> Result<(u64, u32), Refusal>
        ensures { result ≡ slot_and_id_of self.now.state namespace.now key.now }
    {
        let found = self.record(namespace, key)?;
        match &found.content {
            Content::Active { slot, charged: _ } => Ok((*slot, found.id)),
            _ => Err(Refusal::NotActive),
        }
    }
}
