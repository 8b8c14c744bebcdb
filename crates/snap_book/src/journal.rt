// The journal of a round, and its entries.
ghost use Rattle.std.specs.Prelude.{◌≡◌, ◌↔◌, ◌<◌, ◌≤◌, ◌+◌, ◌++◌, ◌∷◌, [], length, None, Some, OnOk, IfErr, IsErrOf, IfOk};
ghost use Rattle.snap_call.specs.declared.refusal.Refusal.TheVariants.{JournalFull};
ghost use Rattle.snap_accounts.specs.Entries.{IsUnrecorded};
ghost use Rattle.snap_call.specs.Journal.{call_entry};
ghost use Rattle.snap_call.specs.Records.{max_journal};
ghost use Rattle.snap_history.specs.Open.{open_shares};
ghost use Rattle.snap_call.specs.declared.call.Call.TheVariants as calls;
ghost use Rattle.snap_call.specs.declared.call.Given.TheVariants.{Nothing, Count};
ghost use Rattle.snap_call.specs.declared.reply.Reply.TheVariants.{Opened, Trimmed, Discarded};

use atomic_table::{Play, Seat, Table, TableRule};
use snap_call::{Call, Entry, EntryRoom, Given, Refusal, Reply, SharedEntry, State};
use snap_history::OpenShares;
use snap_usage::Usage;
use std::alloc::{AllocError, Global};
use std::marker::Model;

/// The rule of the table: it asks nothing.
pub struct AnyState;

impl TableRule<State, State, State> for AnyState {
    ghost holds = { λ _ _. Unit {0} };

    ghost first = { λ state. state };
}

/// A step after which the seat knows the state that is handed in.
pub struct SetState;

impl Play<State, State> for SetState {
    ghost use Rattle.snap_book.specs.Opening.{IsSaid};

    ghost then = { IsSaid };
}

// A state, of which no copy is kept. Contracts see it as that state.
#[derive(Drop)]
pub(crate) struct Opening {
    table: Table<State, State, State, AnyState, Global>,
    seat: Seat<State, State>,
}

impl Model for Opening {
    ghost use Rattle.std.specs.Prelude.{◌≡◌, ◌<◌, []};
    ghost use Rattle.snap_call.specs.declared.state.State.{State};

    ghost Value = { State };

    ghost view = { λ o. o.seat.me.0 };

    ghost invariant = { λ o. (o.seat.table_id ≡ o.table.shared.table_id) × (0 < o.table.shared.table_id.words) × (o.seat.me.1 ≡ []) };
}

impl Opening {
    // It takes memory for a table of one word.
    pub(crate) fn of(alloc: Global, state: &State) -> Result<Opening, AllocError>
        ensures { IfOk result (λ o. o ≡ state.now) }
    {
        let (table, seat) = Table::of_words(alloc, &[0], state)?;
        Ok(Opening { table, seat })
    }

    // Another state. It takes no memory.
    pub(crate) fn set(&mut self, state: &State)
        ensures { self.new ≡ state.now }
    {
        let table = &self.table;
        table
            .shared
            .compare_exchange_with::<SetState>(&mut self.seat, 0, 1, 1, state);
    }
}

// How many entries of earlier rounds go with each new one.
const GOING: usize = 4;

// The entries of a round, the state that it began at and what its open snapshots were charged, the most entries,
// the second holder of the last entry until it is taken, room for the entry of a session, where it was made
// beforehand, and the entries of earlier rounds that have not gone yet.
#[derive(Drop)]
pub(crate) struct Journal {
    entries: Vec<SharedEntry>,
    opening: Opening,
    shares: OpenShares,
    limit: u64,
    copy: Option<SharedEntry>,
    session_room: Option<EntryRoom>,
    spent: Vec<SharedEntry>,
}

impl Model for Journal {
    ghost use Rattle.std.specs.Prelude.{◌≡◌, ◌-◌, ◌≤◌};
    ghost use Rattle.std.specs.Vec.{vec_capacity, vec_len};
    ghost use Rattle.snap_call.specs.Records.{max_journal};
    ghost use Rattle.snap_history.specs.Open.{open_shares};
    ghost use Rattle.snap_book.specs.Book.{JournalValue};

    ghost Value = { JournalValue };

    ghost view = { λ j. record { entries = j.entries.items; opening = j.opening; limit = j.limit; copy = j.copy; room = vec_capacity j.entries - vec_len j.entries } };

    ghost invariant = { λ j. (j.limit ≤ max_journal) × (j.shares ≡ open_shares j.opening.slots j.opening.records) };
}

impl Journal {
    // The most entries.
    pub(crate) fn limit(&self) -> u64
        ensures { result ≡ self.now.limit }
    {
        self.limit
    }

    // Without entries.
    pub(crate) fn new(alloc: Global, state: &State, limit: u64) -> Result<Journal, AllocError>
        requires { limit ≤ max_journal }
        ensures { IfOk result (λ j. j ≡ record { entries = []; opening = state.now; limit = limit; copy = None; room = j.room }) }
    {
        Ok(Journal {
            entries: Vec::new(alloc),
            opening: Opening::of(alloc, state)?,
            shares: OpenShares::of(alloc, state.slots, &state.records)?,
            limit,
            copy: None,
            session_room: None,
            spent: Vec::new(alloc),
        })
    }

    // No entries, at another state with as many slots. Those that were there go a few with each new one, where there is
    // memory for a list of them, and else at once.
    pub(crate) fn begin(&mut self, state: &State, limit: u64)
        requires limit { limit ≤ max_journal }
        requires slots { state.now.slots ≡ self.old.opening.slots }
        ensures room { self.old.room ≤ self.new.room }
        ensures began { self.new ≡ record { entries = []; opening = state.now; limit = limit; copy = None; room = self.new.room } }
    {
        let _ = self.spent.append(&mut self.entries);
        self.entries.clear();
        self.opening.set(state);
        self.shares.set(&state.records);
        self.limit = limit;
        self.copy = None;
    }

    // Lets in `more` entries beside one for each open snapshot, and makes room for all of them. It is `JournalFull`
    // where the limit is below that, and else `OutOfMemory` where there is no memory.
    pub(crate) fn admit(&mut self, owed: u64, more: u64) -> Result<(), Refusal>
        requires { length self.old.entries + owed ≤ self.old.limit }
        ensures full { IsErrOf result JournalFull ↔ (self.old.limit < length self.old.entries + owed + more) }
        ensures below { OnOk result (length self.new.entries + owed + more ≤ self.new.limit) }
        ensures room { OnOk result (owed + more ≤ self.new.room) }
        ensures more { self.old.room ≤ self.new.room }
        ensures same { self.new ≡ record self.old { room = self.new.room } }
        ensures err { IfErr result IsUnrecorded }
    {
        let taken = self.entries.len() as u64 + owed;
        if self.limit - taken < more {
            return Err(Refusal::JournalFull);
        }
        match self.entries.reserve((owed + more) as usize) {
            Ok(()) => Ok(()),
            Err(refused) => Err(refused.into()),
        }
    }

    // Makes room for the entry of a session, where there is none.
    pub(crate) fn reserve_session(&mut self, alloc: Global) -> Result<(), AllocError>
        ensures more { self.old.room ≤ self.new.room }
        ensures same { self.new ≡ record self.old { room = self.new.room } }
    {
        self.entries.reserve(1)?;
        if self.session_room.is_none() {
            self.session_room = Some(EntryRoom::new(alloc)?);
        }
        Ok(())
    }

    // The room for the entry of a session: what was made beforehand, or else a new one.
    pub(crate) fn take_session_room(&mut self, alloc: Global) -> Result<EntryRoom, AllocError>
        ensures { self.new ≡ self.old }
    {
        match self.session_room.take() {
            Some(room) => Ok(room),
            None => EntryRoom::new(alloc),
        }
    }

    // Some entries of earlier rounds go, and with the last of them their list.
    fn drop_spent(&mut self)
        ensures { self.new ≡ self.old }
    {
        let count = self.spent.len();
        if count > GOING {
            self.spent.truncate(count - GOING);
        } else {
            self.spent = Vec::new(*self.spent.allocator());
        }
    }

    // One more entry, and its second holder. Some of earlier rounds go. It takes no memory.
    pub(crate) fn push(&mut self, entry: SharedEntry, copy: SharedEntry)
        requires room { 0 < self.old.room }
        requires copy { copy ≡ entry }
        ensures room { self.new.room + 1 ≡ self.old.room }
        ensures entry { self.new ≡ record self.old { entries = self.old.entries ++ entry ∷ []; copy = Some entry; room = self.new.room } }
    {
        self.drop_spent();
        self.entries.push_reserved(entry);
        self.copy = Some(copy);
    }

    // One more entry, and its copy, in the room that was made for them. It takes no memory.
    pub(crate) fn push_into(&mut self, room: EntryRoom, entry: Entry, copy: Entry)
        requires room { 0 < self.old.room }
        requires copy { copy ≡ entry }
        ensures room { self.new.room + 1 ≡ self.old.room }
        ensures entry { self.new ≡ record self.old { entries = self.old.entries ++ entry ∷ []; copy = Some entry; room = self.new.room } }
    {
        let (entry, copy) = room.fill(entry, copy);
        self.push(entry, copy);
    }

    // The second holder of the last entry, once.
    pub(crate) fn take_copy(&mut self) -> Option<SharedEntry>
        ensures copy { result ≡ self.old.copy }
        ensures same { self.new ≡ record self.old { copy = None } }
    {
        self.copy.take()
    }

    // What the open snapshots of the state that the round began at were charged.
    pub(crate) fn shares(&self) -> &OpenShares
        ensures { result.now ≡ open_shares self.now.opening.slots self.now.opening.records }
    {
        &self.shares
    }

    pub(crate) fn entries(&self) -> &[SharedEntry]
        ensures { result.now ≡ self.now.entries }
    {
        self.entries.as_slice()
    }
}

// An entry for its two holders.
pub(crate) fn shared(
    alloc: Global,
    session: u64,
    call: Call,
    given: Given,
    reply: Reply,
) -> Result<(SharedEntry, SharedEntry), AllocError>
    ensures { IfOk result (λ p. (p.0 ≡ call_entry session call given reply) × (p.1 ≡ call_entry session call given reply)) }
{
    let entry = Entry {
        session,
        call,
        given,
        reply,
    };
    SharedEntry::pair(alloc, entry)
}

pub(crate) fn session_entry(session: u64) -> Entry
    ensures { result ≡ call_entry session calls.Session Nothing Opened }
{
    Entry {
        session,
        call: Call::Session,
        given: Given::Nothing,
        reply: Reply::Opened,
    }
}

pub(crate) fn charge_entry(
    session: u64,
    slot: u64,
    id: u32,
    need: Usage,
    want: Usage,
    reply: Reply,
) -> Entry
    ensures { result ≡ call_entry session (calls.Charge slot id need want) Nothing reply }
{
    Entry {
        session,
        call: Call::Charge {
            slot,
            id,
            need,
            want,
        },
        given: Given::Nothing,
        reply,
    }
}

pub(crate) fn trim_entry(session: u64, slot: u64, id: u32, count: Usage) -> Entry
    ensures { result ≡ call_entry session (calls.Trim slot id) (Count count) Trimmed }
{
    Entry {
        session,
        call: Call::Trim { slot, id },
        given: Given::Count(count),
        reply: Reply::Trimmed,
    }
}

pub(crate) fn discard_entry(session: u64, slot: u64, id: u32, held: Usage) -> Entry
    ensures { result ≡ call_entry session (calls.Discard slot id) Nothing (Discarded held) }
{
    Entry {
        session,
        call: Call::Discard { slot, id },
        given: Given::Nothing,
        reply: Reply::Discarded(held),
    }
}
