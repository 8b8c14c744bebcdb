ghost use Rattle.std.specs.Prelude.{◌≡◌, ◌≤◌, [], IfOk, IfSome, OnOk, None, true, false, is_some, option_copied, option_map};
ghost use Rattle.snap_call.specs.Forms.{is_config};
ghost use Rattle.snap_call.specs.declared.call.Call.TheVariants as calls;
ghost use Rattle.snap_script.specs.Changes.{changes_store};
ghost use Rattle.snap_world.specs.declared.step.Answer.{Answer as StepAnswer};
ghost use Rattle.snap_world.specs.declared.step.Step.TheVariants.{Locked};
ghost use Rattle.snap_world.specs.Move.{move};
ghost use Rattle.snap_session.specs.Commands.{is_started, store_begun};
ghost use Rattle.snap_session.specs.Opened.{new_world, only_store, unopened};
ghost use Rattle.snap_session.specs.Restoring.{begun_again, restored_by, store_restored};
ghost use Rattle.snap_session.specs.Script.{first_done, opened_by, script_done, with_store};

use crate::opened::Opened;
use crate::restore::{begun_again, store_told, world_told};
use crate::round::is_started;
use crate::step::call;
use snap_call::{Call, Config, Refusal, Reply};
use snap_checkpoint::LineGathering;
use snap_ledger::{NewTable, StoreName};
use snap_pieces::{Line as SavedLine, LineField};
use snap_script::{Answer, Command, RestoreRefusal};
use snap_world::{NoMemory, SavedWorld, World};
use std::alloc::Global;
use std::marker::Model;

/// Runs the commands of a script, and keeps the store that it has opened. Contracts see that store, or none, and
/// whether the name of a store is spent without one.
///
/// The table names the store, and goes to the first one that is opened. Where that is refused memory, the name is
/// spent, and the refusal is kept for a later `Open`. So it is where a saved store can't be opened.
#[derive(Drop)]
pub struct Script<N: StoreName> {
    alloc: Global,
    table: Option<NewTable>,
    refused: Option<NoMemory>,
    lost: Option<RestoreRefusal>,
    gathering: LineGathering,
    store: Option<Opened<N>>,
}

impl<N: StoreName> Model for Script<N> {
    ghost use Rattle.std.specs.Prelude.{◌≡◌, ◌||◌, true, is_some, IfSome};
    ghost use Rattle.snap_session.specs.Opened.{ScriptValue};

    ghost Value = { ScriptValue };

    ghost view = { λ s. record { store = s.store; gathered = s.gathering; lost = s.lost; spent = is_some s.refused } };

    // The table is there until a store is opened with it, memory is refused or a saved store can't be opened.
    ghost invariant = { λ s. IfSome s.table (λ t. t ≡ N.table) × ((is_some s.table || (is_some s.refused || (is_some s.lost || is_some s.store))) ≡ true) };
}

// A world of the configuration, which is valid and has room for an entry, with its session 0.
fn begun<N: StoreName>(alloc: Global, table: NewTable, config: Config) -> Result<World<N>, NoMemory>
    requires table { table ≡ N.table }
    requires valid { is_config config ≡ true }
    requires room { 1 ≤ config.journal }
    ensures first { IfOk result (λ world. (first : StepAnswer) × (is_started first ≡ true) × (move (new_world config) (Locked 0 calls.Session) ≡ (world, first))) }
    ensures opening { IfOk result (λ world. world.opening.records ≡ []) }
{
    let mut world = match World::open(alloc, table, config) {
        Ok(world) => world,
        Err(Refusal::OutOfMemory(no_memory)) => return Err(no_memory),
        Err(_) => unreachable!(),
    };
    let answer = call(&mut world, 0, Call::Session)?;
    if !is_started(&answer) {
        unreachable!()
    }
    Ok(world)
}

impl<N: StoreName> Script<N> {
    /// A script that has opened no store. Takes no memory.
    pub fn new(alloc: Global, table: NewTable) -> Script<N>
        requires { table ≡ N.table }
        ensures { result ≡ unopened }
    {
        Script {
            alloc,
            table: Some(table),
            refused: None,
            lost: None,
            gathering: LineGathering::new(alloc),
            store: None,
        }
    }

    /// Whether a store stands. Takes no memory.
    pub fn is_open(&self) -> bool
        ensures { result ≡ is_some self.now.store }
    {
        self.store.is_some()
    }

    // A world of the configuration, which is valid and has room for an entry, and its session 0.
    fn start(&mut self, config: Config) -> Result<Answer, NoMemory>
        requires valid { is_config config ≡ true }
        requires room { 1 ≤ config.journal }
        requires none { self.old.store ≡ None }
        requires not_lost { self.old.lost ≡ None }
        ensures { IfOk result (λ answer. with_store self.old (store_begun config) ≡ (self.new, answer)) }
    {
        if let Some(no_memory) = self.refused {
            return Err(no_memory);
        }
        let Some(table) = self.table.take() else {
            unreachable!()
        };
        match begun(self.alloc, table, config) {
            Ok(world) => {
                self.store = Some(Opened::new(self.alloc, world));
                Ok(Answer::Reply(Reply::Done))
            }
            Err(no_memory) => {
                self.refused = Some(no_memory);
                Err(no_memory)
            }
        }
    }

    // The first command, where it isn't a line of a saved store.
    fn open(&mut self, config: Config) -> Result<Answer, NoMemory>
        requires { self.old.store ≡ None }
        ensures { IfOk result (λ answer. opened_by self.old config ≡ (self.new, answer)) }
    {
        if let Some(why) = self.lost {
            return Ok(Answer::BadRestore(why));
        }
        if self.gathering.has_begun() {
            return Ok(Answer::BadRestore(RestoreRefusal::Misplaced));
        }
        if let Some(field) = config.bad_field() {
            return Ok(Answer::BadConfig(field));
        }
        if config.journal == 0 {
            return Ok(Answer::refused(Refusal::JournalFull));
        }
        self.start(config)
    }

    // The saved store that lines have made, and its session 0.
    fn open_saved(&mut self, saved: SavedWorld) -> Result<Answer, NoMemory>
        requires none { self.old.store ≡ None }
        requires not_lost { self.old.lost ≡ None }
        ensures { IfOk result (λ answer. store_restored self.old (begun_again saved) ≡ (self.new, answer)) }
    {
        if let Some(no_memory) = self.refused {
            return Err(no_memory);
        }
        let Some(table) = self.table.take() else {
            unreachable!()
        };
        let fault = match begun_again(self.alloc, table, saved) {
            Ok((opened, answer)) => {
                self.store = Some(opened);
                return Ok(answer);
            }
            Err(fault) => fault,
        };
        match world_told(fault) {
            Ok(why) => {
                self.lost = Some(why);
                Ok(Answer::BadRestore(why))
            }
            Err(no_memory) => {
                self.refused = Some(no_memory);
                Err(no_memory)
            }
        }
    }

    // A line of a saved store.
    fn restore(&mut self, line: Result<SavedLine, LineField>) -> Result<Answer, NoMemory>
        requires { self.old.store ≡ None }
        ensures { IfOk result (λ answer. restored_by self.old line ≡ (self.new, answer)) }
    {
        if let Some(why) = self.lost {
            return Ok(Answer::BadRestore(why));
        }
        let line = match line {
            Ok(line) => line,
            Err(field) => {
                self.gathering = LineGathering::new(self.alloc);
                return Ok(Answer::BadRestore(RestoreRefusal::BadField(field)));
            }
        };
        match self.gathering.put(line) {
            Ok(None) => Ok(Answer::Reply(Reply::Done)),
            Ok(Some(saved)) => self.open_saved(saved),
            Err(fault) => Ok(Answer::BadRestore(store_told(fault)?)),
        }
    }

    // A command where no store stands.
    fn begin(&mut self, command: Command<'_>) -> Result<Answer, NoMemory>
        requires { self.old.store ≡ None }
        ensures { IfOk result (λ answer. first_done self.old command.entry ≡ (self.new, answer)) }
    {
        match command {
            Command::Open { config } => self.open(config),
            Command::Restore(line) => self.restore(line),
            _ => Ok(Answer::NoSession),
        }
    }

    // A command by a session of this number.
    fn carry_out(&mut self, n: u64, command: Command<'_>) -> Result<Answer, NoMemory>
        ensures { IfOk result (λ answer. script_done self.old n command.entry ≡ (self.new, answer)) }
    {
        match &mut self.store {
            Some(opened) => opened.act(self.alloc, n, command),
            None => self.begin(command),
        }
    }

    // The world, where a store stands.
    pub(crate) fn world(&self) -> Option<&World<N>>
        ensures { option_copied result ≡ option_map (λ opened. opened.world) self.now.store }
    {
        match &self.store {
            Some(opened) => Some(opened.world()),
            None => None,
        }
    }

    // The world, where a store stands and nothing else is kept of stores.
    pub(crate) fn only_world(&self) -> Option<&World<N>>
        ensures { IfSome result (λ world. self.now ≡ only_store (record { world = world.now })) }
    {
        if self.gathering.has_begun() || self.lost.is_some() || self.refused.is_some() {
            return None;
        }
        self.world()
    }

    /// A command by a session of this number: its answer, and what it makes of the store.
    ///
    /// Without a store every command but `Open` and `Restore` is answered `NoSession`; with one, these are refused as
    /// a bad argument and the store stays. No line of a script asks for either. Of `Save` it is always refused: a
    /// [`Stepper`](crate::Stepper) answers it. A malformed `Open` is answered
    /// `BadConfig` with its first malformed field; it, and one whose journal has no room, leave the name to a later
    /// one. `NoMemory` where memory was refused; the run of a script ends with it, and nothing is said of the store.
    /// An `Open` that it ends may have spent the store's name, so that a later one answers `NoMemory` too. The cost is
    /// that of the command's steps, at most three, but of a batch one and at most three for each operation, and for a
    /// whole one a copy of the layer; of a `Restore` that of [`LineGathering::put`], and for the last line also that of
    /// [`World::restore`].
    pub fn act(&mut self, n: u64, command: Command<'_>) -> Result<Answer, NoMemory>
        ensures done { IfOk result (λ answer. script_done self.old n command.entry ≡ (self.new, answer)) }
        ensures unchanged { IfOk result (λ answer. changes_store command.entry ≡ false → self.new ≡ self.old) }
        ensures spent { OnOk result (self.new.spent ≡ self.old.spent) }
    {
        self.carry_out(n, command)
    }
}
