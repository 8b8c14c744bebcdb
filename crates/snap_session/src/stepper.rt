ghost use Rattle.std.specs.Prelude.{◌≡◌, IfOk, IfSome, Some, is_some, option_copied, option_map};
ghost use Rattle.snap_session.specs.Opened.{only_store};
ghost use Rattle.snap_session.specs.Script.{line_step, paged, unstepped};

use crate::pages::Pages;
use crate::script::Script;
use snap_ledger::{NewTable, StoreName};
use snap_script::{Answer, Command, Line};
use snap_world::{NoMemory, World};
use std::alloc::Global;
use std::marker::Model;

/// Carries out the lines of a script. Contracts see the script, how many lines of saved stores
/// have come, and those that are left of the last one.
#[derive(Drop)]
pub struct Stepper<N: StoreName> {
    alloc: Global,
    script: Script<N>,
    pages: Pages,
}

impl<N: StoreName> Model for Stepper<N> {
    ghost use Rattle.snap_session.specs.Script.{SteppedValue};

    ghost Value = { SteppedValue };

    ghost view = { λ s. record { script = s.script; pages = s.pages } };
}

impl<N: StoreName> Stepper<N> {
    /// Before the first line: no store was opened, and none was saved. Takes no memory.
    pub fn new(alloc: Global, table: NewTable) -> Stepper<N>
        requires { table ≡ N.table }
        ensures { result ≡ unstepped }
    {
        Stepper {
            alloc,
            script: Script::new(alloc, table),
            pages: Pages::new(),
        }
    }

    /// Whether a store stands. Takes no memory.
    pub fn is_open(&self) -> bool
        ensures { result ≡ is_some self.now.script.store }
    {
        self.script.is_open()
    }

    /// The world of the store, where one stands. Takes no memory. The cost is constant.
    pub fn world(&self) -> Option<&World<N>>
        ensures { option_copied result ≡ option_map (λ opened. opened.world) self.now.script.store }
    {
        self.script.world()
    }

    // The world, where a store stands and nothing else is kept of stores.
    pub(crate) fn only_world(&self) -> Option<&World<N>>
        ensures { IfSome result (λ world. self.now.script ≡ only_store (record { world = world.now })) }
    {
        self.script.only_world()
    }

    // A page of the lines of the saved store.
    fn save(&mut self, after: u64, most: u64) -> Result<Answer, NoMemory>
        ensures { IfOk result (λ answer. paged self.old after most ≡ (self.new, Some answer)) }
    {
        match self.script.world() {
            Some(world) => self.pages.take(self.alloc, world, after, most),
            None => Ok(Answer::NoSession),
        }
    }

    /// Carries out a line, and answers its command; an empty one does nothing and has no answer.
    ///
    /// `Save` is answered with lines of the store as it was when the first of them were asked for: `NoSession` where no
    /// store stands, a refusal where no page begins there, or where it would have none or more than 1,024 lines. Such a
    /// page takes memory for its lines, and the first for what is saved ([`World::save`](snap_world::World::save)); cost
    /// and memory grow with them. Of any other command as [`Script::act`]. After `NoMemory` nothing is said of the store,
    /// nor of what was saved.
    pub fn step(&mut self, line: Line<'_>) -> Result<Option<Answer>, NoMemory>
        ensures { IfOk result (λ answer. line_step self.old line.entry ≡ (self.new, answer)) }
    {
        match line {
            Line::Empty => Ok(None),
            Line::Command {
                session: _,
                command: Command::Save { after, most },
            } => Ok(Some(self.save(after, most)?)),
            Line::Command { session, command } => Ok(Some(self.script.act(session, command)?)),
        }
    }
}
