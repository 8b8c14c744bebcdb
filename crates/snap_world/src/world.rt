ghost use Rattle.std.specs.Prelude.{◌≡◌, ◌↔◌, ◌⊎◌, ℕ, [], Err, None, Some, IfOk, IfErr, OnErr, IsErrOf, false, replicate};
ghost use Rattle.std.specs.Option.{option_map};
ghost use Rattle.snap_path.specs.Memory.{no_memory};
ghost use Rattle.snap_usage.specs.Counted.{count_of};
ghost use Rattle.snap_call.specs.Forms.{is_config};
ghost use Rattle.snap_call.specs.Journal.{Replays};
ghost use Rattle.snap_call.specs.Records.{charge_of, open_count, sum_of};
ghost use Rattle.snap_call.specs.State.{opening, place_of};
ghost use Rattle.snap_call.specs.Totals.{usage_taken};
ghost use Rattle.snap_call.specs.declared.refusal.Refusal.TheVariants.{BadArgument, OutOfMemory};
ghost use Rattle.snap_book.specs.Book.{IsBeginning};
ghost use Rattle.snap_book.specs.Slot.{found_of, slot_and_id_of};
ghost use Rattle.snap_history.specs.Changes.{no_shares};
ghost use Rattle.snap_history.specs.Open.{shares_of};
ghost use Rattle.snap_world.specs.declared.step.Step.TheVariants.{Hand, Locked};
ghost use Rattle.snap_world.specs.World.{Fits, hand_at};
ghost use Rattle.snap_world.specs.Applied.{Applies};
ghost use Rattle.snap_world.specs.Runs.{Moves, Runs};
ghost use Rattle.snap_world.specs.Stacks.{IsOver, stack_of};

use crate::applied::{Changed, Unapplied};
use crate::hands::Hands;
use crate::step::{Answer, Step, is_its_session};
use snap_book::Book;
use snap_call::{Call, Config, Records, Refusal, SharedEntry, State};
use snap_history::Shares;
use snap_lease::Leases;
use snap_ledger::{NewTable, StoreName};
use snap_merge::Stack;
use snap_path::NoMemory;
use snap_record::Content;
use snap_upper::Op;
use snap_usage::Usage;
use std::alloc::{AllocError, Global};
use std::marker::Model;

/// A store of snapshots and the hands of all its writers, in one thread.
///
/// It goes from one state to the next by steps, each of which is a call of a session on the store or
/// an operation on the layer of an open snapshot. Dropping it discards its open snapshots.
pub struct World<N: StoreName> {
    pub(crate) book: Book<N>,
    pub(crate) hands: Hands<N>,
}

impl<N: StoreName> Model for World<N> {
    ghost use Rattle.snap_world.specs.World.{Fits, WorldValue, world_of};

    ghost Value = { WorldValue };

    ghost view = { λ w. world_of w.book w.hands };

    ghost invariant = { λ w. Fits (world_of w.book w.hands) };
}

impl<N: StoreName> Drop for World<N> {
    fn drop(self) {
        let World { mut book, hands } = self;
        hands.discard_all(&mut book);
    }
}

impl<N: StoreName> World<N> {
    /// A world with the namespaces of the configuration, without snapshots and hands.
    ///
    /// `BadArgument` where a part of the configuration is malformed; `OutOfMemory` where memory is
    /// refused. Memory and cost are those of the book's, and a place for the hand of each slot.
    pub fn open(alloc: Global, table: NewTable, config: Config) -> Result<World<N>, Refusal>
        requires { table ≡ N.table }
        ensures opened { IfOk result (λ w. w ≡ record { state = opening config; journal = []; opening = opening config; limit = config.journal; hands = replicate config.slots None }) }
        ensures bad { IsErrOf result BadArgument ↔ (is_config config ≡ false) }
        ensures err { IfErr result (λ why. (why ≡ BadArgument) ⊎ (why ≡ OutOfMemory no_memory)) }
    {
        let slots = config.slots;
        let book = Book::open(alloc, table, config)?;
        let hands = Hands::open(alloc, slots)?;
        Ok(World { book, hands })
    }

    /// A call on the store, by the session of this number: its answer, as [`World::run`] has it for
    /// [`Step::Locked`]. The call is handed on and never copied: one that takes no snapshot out of a hand and
    /// puts none into one goes into its entry as it is.
    ///
    /// `NoSession` and `NoHand` leave the world as it was, and so does `OutOfMemory`, the answer where memory
    /// is refused, but for a commit, which may have sealed its snapshot's layer. The cost is that of the
    /// [`Book`](snap_book::Book)'s call.
    pub fn call(&mut self, session: u64, call: Call) -> Answer
        ensures moves { Moves self.old (Locked session call) result self.new }
        ensures fits { Fits self.new }
    {
        if !is_its_session(self.book.sessions(), session, &call) {
            return Answer::NoSession;
        }
        self.hands.call(&mut self.book, session, call)
    }

    /// An operation on the layer of the slot's snapshot: its answer, as [`World::run`] has it for
    /// [`Step::Hand`]. It leaves no entry.
    ///
    /// `NoHand` and every error of the operation leave the world as it was, `OutOfMemory` too, the error where
    /// memory is refused. The cost is that of the operation.
    pub fn operate(&mut self, slot: u64, op: &Op) -> Answer
        ensures moves { Moves self.old (Hand slot op.now) result self.new }
        ensures fits { Fits self.new }
    {
        self.hands.file(slot, op)
    }

    /// An operation on the layer of the slot's snapshot, by the session of this number. Where its charge doesn't cover
    /// what the layer takes afterwards, it is charged for that first, and for an extra amount too where the limit
    /// covers it. The answer is what the layer takes now and what the slot is charged. The world is then as these
    /// steps leave it one after another: the operation, the charge, and the operation again.
    ///
    /// Errors, in this order: `NoHand` where the slot isn't open or its layer is sealed; the operation's own; and where
    /// it needs a charge, `NoSession`, `NoHand` for another id, and the refusal of the charge. After each the layer is as
    /// it was, and so is all else but for the entry of a refused charge; where memory is refused after the charge was
    /// granted, that stays as spare. The cost is that of [`Book::apply`](snap_book::Book::apply).
    pub fn apply(
        &mut self,
        session: u64,
        slot: u64,
        id: u32,
        op: &Op,
        extra: Usage,
    ) -> Result<Changed, Unapplied>
        ensures applies { Applies self.old session slot id op.now extra result self.new }
        ensures fits { Fits self.new }
    {
        self.hands
            .apply(&mut self.book, session, slot, id, op, extra)
    }

    // One step.
    fn take_step(&mut self, step: Step) -> Answer
        ensures moves { Moves self.old step result self.new }
        ensures fits { Fits self.new }
    {
        match step {
            Step::Locked(session, call) => self.call(session, call),
            Step::Hand(slot, op) => self.operate(slot, &op),
        }
    }

    /// Takes the steps in order. The answers are those of the steps, one for each.
    ///
    /// What a step answers, and what it leaves, are the definition `move`'s. A step for which memory is
    /// refused answers `OutOfMemory` and leaves the world as it was, but for a commit, which may have
    /// sealed its snapshot's layer. `NoMemory` where memory for the answers is refused: then no step
    /// was taken, and the steps are dropped. The cost is that of the steps.
    pub fn run(&mut self, steps: Vec<Step>) -> Result<Vec<Answer>, NoMemory>
        ensures run { IfOk result (λ answers. Runs self.old steps.items answers.items self.new) }
        ensures err { OnErr result (self.new ≡ self.old) }
    {
        let mut answers = Vec::with_capacity(self.hands.alloc(), steps.len())?;
        for step in steps {
            answers.push_reserved(self.take_step(step));
        }
        Ok(answers)
    }

    /// The slot and the id of the active snapshot of this key. `NoNamespace` where the store has no
    /// such namespace, then `NotFound`, then `NotActive` for a view or a committed snapshot. It leaves
    /// no entry. Takes no memory. The cost grows with the logarithm of the number of records.
    pub fn hand(&self, namespace: &str, key: &str) -> Result<(u64, u32), Refusal>
        ensures { result ≡ slot_and_id_of self.now.state namespace.now key.now }
    {
        self.book.slot_of(namespace, key)
    }

    /// What the snapshot of this key shows: an active one, sealed or not, its layer over those of its
    /// ancestors, nearest first; a view the layers of its ancestors alone, or one empty layer whose root
    /// has the permission bits 755 in octal where it has none. Bytes that the stack shows are lent by the
    /// world.
    ///
    /// `NoNamespace` where the store has no such namespace, then `NotFound`, then `NotActive` for a
    /// committed snapshot. It leaves no entry. Takes no memory. The cost grows with the logarithm of the
    /// number of records.
    pub fn stack(&self, namespace: &str, key: &str) -> Result<Stack<'_>, Refusal>
        ensures stack { result ≡ stack_of self.now namespace.now key.now }
        // A snapshot that `hand` finds has a stack.
        ensures refused { IfErr result (λ why. slot_and_id_of self.now.state namespace.now key.now ≡ Err why) }
        // The layers below an active one's own, and those of a view, are those of the committed ancestors.
        ensures ancestors { IfOk result (λ layers. IsOver self.now.state.records layers (found_of self.now.state namespace.now key.now)) }
    {
        let found = self.book.record(namespace, key)?;
        match &found.content {
            Content::View { layers } => Ok(Stack::of(layers.as_slice())),
            Content::Active { slot, charged: _ } => {
                let Some(hand) = self.hands.get(*slot) else {
                    unreachable!()
                };
                Ok(hand.stack())
            }
            Content::Committed { .. } => Err(Refusal::NotActive),
        }
    }

    /// What the layer of the slot's snapshot takes, sealed or not. `None` where the slot isn't open.
    /// Takes no memory. The cost is constant.
    pub fn count(&self, slot: u64) -> Option<Usage>
        ensures { result ≡ option_map (λ h. count_of h.snapshot.layer) (hand_at slot self.now.hands) }
    {
        match self.hands.get(slot) {
            Some(hand) => Some(hand.count()),
            None => None,
        }
    }

    /// What the slot's snapshot is charged. `None` where the slot isn't open. Takes no memory. The cost
    /// is constant.
    pub fn share(&self, slot: u64) -> Option<Usage>
        ensures { result ≡ option_map (λ h. h.snapshot.share.usage) (hand_at slot self.now.hands) }
    {
        match self.hands.get(slot) {
            Some(hand) => Some(hand.share()),
            None => None,
        }
    }

    /// What the namespace is charged, in blocks of 4096 bytes and inodes. `None` where the store has no
    /// such namespace. Takes no memory. The cost grows with the logarithm of the number of namespaces.
    pub fn totals(&self, namespace: &str) -> Option<Usage>
        ensures charge { result ≡ option_map (λ place. charge_of place self.now.state.records) (place_of namespace.now self.now.state.namespaces) }
        // The counts over its committed layers, and its open shares.
        ensures counts { result ≡ option_map (λ place. sum_of usage_taken place self.now.state.records) (place_of namespace.now self.now.state.namespaces) }
    {
        self.book.totals(namespace)
    }

    /// What the open snapshots of the namespace were charged when the round began, as
    /// [`Book::opening_shares`](snap_book::Book::opening_shares) has it.
    pub fn opening_shares(&self, namespace: &str) -> Result<Shares, AllocError>
        ensures shares { IfOk result (λ shares. (place : ℕ) → place_of namespace.now self.now.state.namespaces ≡ Some place → shares ≡ shares_of self.now.opening.slots place self.now.opening.records) }
        ensures none { IfOk result (λ shares. place_of namespace.now self.now.state.namespaces ≡ None → shares ≡ no_shares self.now.state.slots) }
    {
        self.book.opening_shares(namespace)
    }

    /// How many snapshots are open. Takes no memory. The cost is constant.
    pub fn open_slots(&self) -> u64
        ensures { result ≡ open_count self.now.state.records }
    {
        self.book.open_slots()
    }

    /// The state: the namespaces with their limits, the records, and the leases. Takes no memory. The cost
    /// is constant.
    pub fn state(&self) -> &State
        ensures { result.now ≡ self.now.state }
    {
        self.book.state()
    }

    /// The records of all snapshots, in order of their namespaces' places and the bytes of their keys.
    /// Takes no memory. The cost is constant.
    pub fn records(&self) -> &Records
        ensures records { result.now ≡ self.now.state.records }
        // What holds of every world.
        ensures fits { Fits self.now }
    {
        self.book.records()
    }

    /// The leases of all namespaces, in the order in which they were created. Takes no memory. The cost is
    /// constant.
    pub fn leases(&self) -> &Leases
        ensures { result.now ≡ self.now.state.leases }
    {
        &self.book.state().leases
    }

    /// The entries of the round. Takes no memory. The cost is constant.
    pub fn journal(&self) -> &[SharedEntry]
        ensures entries { result.now ≡ self.now.journal }
        // They lead from the state that the round began at to this one.
        ensures began { IsBeginning self.now.opening }
        ensures replays { Replays self.now.opening self.now.journal self.now.state }
    {
        self.book.journal()
    }

    /// How many sessions were opened in the round. Takes no memory. The cost is constant.
    pub fn sessions(&self) -> u64
        ensures { result ≡ self.now.state.sessions }
    {
        self.book.sessions()
    }

    /// The number of the last entry, counted through all rounds, and 0 before the first one. Takes no memory.
    /// The cost is constant.
    pub fn last_entry(&self) -> u64
        ensures { result ≡ self.now.state.entries }
    {
        self.book.last_entry()
    }
}
