// The state, and what each namespace is charged.
ghost use Rattle.std.specs.Prelude.{◌≡◌, ◌<◌, ◌+◌, ◌^◌, ◌++◌, ◌∷◌, [], IfOk, OnErr, OnOk, length, replicate, slice_set, take, true};
ghost use Rattle.snap_usage.specs.Counted.{Covers, no_usage};
ghost use Rattle.snap_call.specs.Forms.{is_limit, is_saved_config};
ghost use Rattle.snap_call.specs.Good.{Good};
ghost use Rattle.snap_call.specs.Records.{charge_of, open_count, max_sessions};
ghost use Rattle.snap_call.specs.State.{limit_at, opening};
ghost use Rattle.snap_call.specs.Step.{counted};
ghost use Rattle.snap_accounts.specs.Totals.{total_at};

use crate::slots::Slots;
use snap_call::{Config, State};
use snap_ledger::{NewTable, StoreName};
use snap_usage::Usage;
use std::alloc::{AllocError, Global};
use std::marker::Model;

/// The state of a store, the totals of its namespaces, the charges of its slots and the number of those
/// that are open. Usages are in blocks of 4096 bytes and in inodes.
#[derive(Drop)]
pub struct Accounts<N: StoreName> {
    pub(crate) state: State,
    pub(crate) totals: Totals,
    pub(crate) slots: Slots<N>,
    pub(crate) opened: u64,
}

impl<N: StoreName> Model for Accounts<N> {
    ghost use Rattle.snap_call.specs.declared.state.State.{State};
    ghost use Rattle.snap_accounts.specs.Accounts.{AreAccounts};

    ghost Value = { State };

    ghost view = { λ a. a.state };

    ghost invariant = { λ a. AreAccounts a.state a.totals a.slots a.opened };
}

impl<N: StoreName> Accounts<N> {
    /// The state of a new store, or of a saved one before anything is put back: all namespaces of the
    /// configuration are charged 0/0, and all slots are free. Takes memory for the totals, and for a charge of each
    /// of the 4096 slots that a store can have, however many this one has. The cost grows with the number of
    /// namespaces.
    pub fn opening(
        alloc: Global,
        table: NewTable,
        config: Config,
    ) -> Result<Accounts<N>, AllocError>
        requires table { table ≡ N.table }
        requires config { is_saved_config config ≡ true }
        ensures { IfOk result (λ accounts. accounts ≡ opening config) }
    {
        let totals = Totals::zero(alloc, config.namespaces.len())?;
        let slots = Slots::open(alloc, table)?;
        let state = State::opening(alloc, config)?;
        Ok(Accounts {
            state,
            totals,
            slots,
            opened: 0,
        })
    }

    /// The state. Takes no memory. The cost is constant.
    pub fn state(&self) -> &State
        ensures same { result.now ≡ self.now }
        ensures good { Good self.now }
    {
        &self.state
    }

    /// How many slots are open. Takes no memory. The cost is constant.
    pub fn open_slots(&self) -> u64
        ensures { result ≡ open_count self.now.records }
    {
        self.opened
    }

    /// What the namespace at a place is charged. Its limit, of at most 2^40 blocks and inodes, covers that.
    /// Takes no memory. The cost is constant.
    pub fn total(&self, place: usize) -> Usage
        requires { place < length self.now.namespaces }
        ensures total { result ≡ charge_of place self.now.records }
        ensures within { Covers (limit_at place self.now.namespaces) result }
        ensures limit { is_limit (limit_at place self.now.namespaces) ≡ true }
    {
        self.totals.at(place)
    }

    /// Counts an entry that leaves the state as it is otherwise. Takes no memory. The cost is constant.
    pub fn count_entry(&mut self)
        requires { self.old.entries < 2 ^ 63 }
        ensures { self.new ≡ counted self.old }
    {
        self.state.entries += 1;
    }

    /// Opens a session, and counts its entry. Takes no memory. The cost is constant.
    pub fn open_session(&mut self)
        requires sessions { self.old.sessions < max_sessions }
        requires entries { self.old.entries < 2 ^ 63 }
        ensures { self.new ≡ record self.old { sessions = self.old.sessions + 1; entries = self.old.entries + 1 } }
    {
        self.state.sessions += 1;
        self.state.entries += 1;
    }

    /// No session is open: the next one has the number 0. Takes no memory. The cost is constant.
    pub fn end_sessions(&mut self)
        ensures { self.new ≡ record self.old { sessions = 0 } }
    {
        self.state.sessions = 0;
    }
}

// A usage for each namespace, by its place.
#[derive(Drop)]
pub(crate) struct Totals {
    list: Vec<Usage>,
}

impl Model for Totals {
    ghost use Rattle.std.specs.Prelude.{List};
    ghost use Rattle.snap_usage.specs.declared.usage.Usage.{Usage};

    ghost Value = { List Usage };

    ghost view = { λ t. t.list.items };
}

impl Totals {
    // 0/0 for `count` namespaces.
    pub(crate) fn zero(alloc: Global, count: usize) -> Result<Totals, AllocError>
        ensures { IfOk result (λ t. t ≡ replicate count no_usage) }
    {
        let mut list = Vec::new(alloc);
        list.resize(count, Usage::ZERO)?;
        Ok(Totals { list })
    }

    // One more total, of nothing.
    pub(crate) fn push_none(&mut self) -> Result<(), AllocError>
        ensures ok { OnOk result (self.new ≡ self.old ++ no_usage ∷ []) }
        ensures err { OnErr result (self.new ≡ self.old) }
    {
        self.list.push(Usage::ZERO)?;
        Ok(())
    }

    // Keeps at most the first `count` totals.
    pub(crate) fn cut(&mut self, count: usize)
        ensures { self.new ≡ take count self.old }
    {
        self.list.truncate(count);
    }

    pub(crate) fn at(&self, place: usize) -> Usage
        requires { place < length self.now }
        ensures { result ≡ total_at place self.now }
    {
        self.list[place]
    }

    pub(crate) fn set(&mut self, place: usize, to: Usage)
        requires { place < length self.old }
        ensures { self.new ≡ slice_set self.old place to }
    {
        self.list[place] = to;
    }
}
