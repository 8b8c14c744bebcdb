// The steps of a world, and how each is taken.
ghost use Rattle.std.specs.Prelude.{◌≡◌, ◌≤◌, ◌+◌, ◌↔◌, length, ◌<◌, None, true};
ghost use Rattle.snap_usage.specs.Counted.{count_of};
ghost use Rattle.snap_call.specs.Records.{open_count};
ghost use Rattle.snap_call.specs.declared.call.Call.TheVariants as calls;
ghost use Rattle.snap_call.specs.declared.call.Given.TheVariants.{Nothing, Count, Layer as LayerGiven};
ghost use Rattle.snap_call.specs.declared.refusal.Refusal.TheVariants.{JournalFull};
ghost use Rattle.snap_call.specs.declared.reply.Reply.TheVariants as replies;
ghost use Rattle.snap_book.specs.Book.{AnsweredBy, BookValue, IsCommit};
ghost use Rattle.snap_world.specs.Move.{charged, committed_hand, is_its_session, with_prepared};
ghost use Rattle.snap_call.specs.State.{place_of};
ghost use Rattle.snap_accounts.specs.Entries.{IsPlain};
ghost use Rattle.snap_world.specs.World.{Fits, hand_at, with_hand, world_of};
ghost use Rattle.snap_world.specs.Runs.{DoesCall, Moves};
ghost use Rattle.snap_world.specs.declared.step.Step.TheVariants as steps;

use crate::hands::{Hand, Hands};
use snap_book::{Active, Book, Sealed};
use snap_call::{Call, Refusal, Reply};
use snap_ledger::StoreName;
use snap_merge::FsError;
use snap_record::{Labels, Text};
use snap_upper::Op;
use snap_usage::Usage;

/// A step of a world.
#[derive(Debug, Drop)]
pub enum Step {
    /// A call on the store, by the session of this number. On a store that is used from threads the
    /// session holds the store's lock meanwhile.
    Locked(u64, Call),
    /// An operation on the layer of the hand of this slot, the open snapshot as its writer has it. It
    /// takes no lock.
    Hand(u64, Op),
}

/// What a step answers.
#[derive(Debug, Drop, PartialEq, Eq)]
pub enum Answer {
    /// The store's reply to a call.
    Reply(Reply),
    /// The outcome of an operation.
    File(Result<(), FsError>),
    /// The session isn't open; or it is a session to be opened, and its number isn't the next one.
    NoSession,
    /// The slot isn't open, or not under the id; or its layer is sealed, and the step would change the
    /// snapshot's layer or share.
    NoHand,
}

// A charge of the snapshot.
pub(crate) fn charge_active<N: StoreName>(
    book: &mut Book<N>,
    session: u64,
    active: &mut Active<N>,
    need: Usage,
    want: Usage,
) -> Reply
    ensures answered { AnsweredBy book.old book.new session (calls.Charge active.old.share.slot active.old.share.id need want) Nothing result }
    ensures snapshot { active.new ≡ charged active.old result }
    ensures full { (result ≡ replies.Refused JournalFull) ↔ (book.old.limit ≤ length book.old.journal + open_count book.old.state.records) }
{
    match book.charge(session, active, need, want) {
        Ok(()) => Reply::Charged {
            now: active.share(),
        },
        Err(why) => Reply::Refused(why),
    }
}

// A trim of the snapshot.
pub(crate) fn trim_active<N: StoreName>(
    book: &mut Book<N>,
    session: u64,
    active: &mut Active<N>,
) -> Reply
    ensures answered { AnsweredBy book.old book.new session (calls.Trim active.old.share.slot active.old.share.id) (Count (count_of active.old.layer)) result }
    ensures snapshot { active.new ≡ charged active.old result }
    ensures full { (result ≡ replies.Refused JournalFull) ↔ (book.old.limit ≤ length book.old.journal + open_count book.old.state.records) }
{
    match book.trim(session, active) {
        Ok(()) => Reply::Trimmed,
        Err(why) => Reply::Refused(why),
    }
}

// The call is by its session: a session to be opened has the next number, and any other is open.
pub(crate) fn is_its_session(sessions: u64, session: u64, call: &Call) -> bool
    ensures { result ≡ is_its_session sessions session call.now }
{
    match call {
        Call::Session => session == sessions,
        _ => session < sessions,
    }
}

impl<N: StoreName> Hands<N> {
    fn open_session(&mut self, book: &mut Book<N>) -> Answer
        ensures { DoesCall (world_of book.old self.old) book.old.state.sessions calls.Session result (world_of book.new self.new) }
    {
        Answer::Reply(match book.open_session() {
            Ok(_) => Reply::Opened,
            Err(why) => Reply::Refused(why),
        })
    }

    // A call that takes no snapshot out of a hand and puts none into one.
    fn plain(&mut self, book: &mut Book<N>, session: u64, call: Call) -> Answer
        requires { IsPlain call }
        ensures { DoesCall (world_of book.old self.old) session call result (world_of book.new self.new) }
    {
        Answer::Reply(book.do_call(session, call))
    }

    // A new snapshot goes into the hand of its slot. The reply is that of its entry.
    fn prepare(
        &mut self,
        book: &mut Book<N>,
        session: u64,
        namespace: &str,
        key: &str,
        parent: &str,
        labels: &Labels,
    ) -> Reply
        requires { Fits (world_of book.old self.old) }
        ensures answered { AnsweredBy book.old book.new session (calls.Prepare namespace.now key.now parent.now labels.now) Nothing result }
        ensures hands { self.new ≡ with_prepared book.old.state.layer_inodes (place_of namespace.now book.old.state.namespaces) key.now parent.now book.old.state.records self.old result }
        ensures full { (result ≡ replies.Refused JournalFull) ↔ (book.old.limit < length book.old.journal + open_count book.old.state.records + 2) }
    {
        let layer_inodes = book.layer_inodes();
        match book.prepare_within(session, namespace, key, parent, labels, layer_inodes) {
            Ok((active, reply)) => {
                let slot = active.slot();
                self.put(slot, Hand::of(active));
                reply
            }
            Err(why) => Reply::Refused(why),
        }
    }

    fn prepare_as(
        &mut self,
        book: &mut Book<N>,
        session: u64,
        namespace: &Text,
        key: &Text,
        parent: &Text,
        labels: &Labels,
    ) -> Answer
        requires { Fits (world_of book.old self.old) }
        ensures { DoesCall (world_of book.old self.old) session (calls.Prepare namespace.now key.now parent.now labels.now) result (world_of book.new self.new) }
    {
        Answer::Reply(self.prepare(
            book,
            session,
            namespace.as_str(),
            key.as_str(),
            parent.as_str(),
            labels,
        ))
    }

    fn charge(
        &mut self,
        book: &mut Book<N>,
        session: u64,
        slot: u64,
        id: u32,
        need: Usage,
        want: Usage,
    ) -> Answer
        requires { Fits (world_of book.old self.old) }
        ensures { DoesCall (world_of book.old self.old) session (calls.Charge slot id need want) result (world_of book.new self.new) }
    {
        let Some(mut active) = self.take_working(slot, id) else {
            return Answer::NoHand;
        };
        let reply = charge_active(book, session, &mut active, need, want);
        self.put(slot, Hand::of(active));
        Answer::Reply(reply)
    }

    fn trim(&mut self, book: &mut Book<N>, session: u64, slot: u64, id: u32) -> Answer
        requires { Fits (world_of book.old self.old) }
        ensures { DoesCall (world_of book.old self.old) session (calls.Trim slot id) result (world_of book.new self.new) }
    {
        let Some(mut active) = self.take_working(slot, id) else {
            return Answer::NoHand;
        };
        let reply = trim_active(book, session, &mut active);
        self.put(slot, Hand::of(active));
        Answer::Reply(reply)
    }

    // A sealed snapshot is committed, or comes back into its place.
    fn settle(
        &mut self,
        book: &mut Book<N>,
        session: u64,
        slot: u64,
        call: Call,
        sealed: Sealed<N>,
    ) -> Reply
        requires low { slot < length self.old }
        requires free { hand_at slot self.old ≡ None }
        requires slot { sealed.share.slot ≡ slot }
        requires commit { IsCommit sealed.share.slot sealed.share.id call }
        ensures answered { AnsweredBy book.old book.new session call (LayerGiven sealed.layer) result }
        ensures hands { self.new ≡ with_hand slot (committed_hand sealed result) self.old }
        ensures full { (result ≡ replies.Refused JournalFull) ↔ (book.old.limit ≤ length book.old.journal + open_count book.old.state.records) }
    {
        let id = sealed.id();
        match book.commit_as(session, call, sealed) {
            Ok(usage) => Reply::Committed { id, usage },
            Err((why, sealed)) => {
                self.put(slot, Hand::of_sealed(sealed));
                Reply::Refused(why)
            }
        }
    }

    // The call is a commit of the snapshot in the slot.
    fn commit(&mut self, book: &mut Book<N>, session: u64, slot: u64, id: u32, call: Call) -> Answer
        requires fits { Fits (world_of book.old self.old) }
        requires commit { IsCommit slot id call }
        ensures { DoesCall (world_of book.old self.old) session call result (world_of book.new self.new) }
    {
        let Some(hand) = self.take_under(slot, id) else {
            return Answer::NoHand;
        };
        match hand.seal() {
            Ok(sealed) => Answer::Reply(self.settle(book, session, slot, call, sealed)),
            Err((no_memory, hand)) => {
                self.put(slot, hand);
                Answer::Reply(Reply::Refused(Refusal::OutOfMemory(no_memory)))
            }
        }
    }

    fn discard(&mut self, book: &mut Book<N>, session: u64, slot: u64, id: u32) -> Answer
        requires { Fits (world_of book.old self.old) }
        ensures { DoesCall (world_of book.old self.old) session (calls.Discard slot id) result (world_of book.new self.new) }
    {
        let Some(hand) = self.take_under(slot, id) else {
            return Answer::NoHand;
        };
        let usage = book.discard(session, hand.into_held());
        Answer::Reply(Reply::Discarded(usage))
    }

    // A call in its session.
    pub(crate) fn call(&mut self, book: &mut Book<N>, session: u64, call: Call) -> Answer
        requires fits { Fits (world_of book.old self.old) }
        requires session { is_its_session book.old.state.sessions session call ≡ true }
        ensures { DoesCall (world_of book.old self.old) session call result (world_of book.new self.new) }
    {
        match &call {
            Call::Session => self.open_session(book),
            Call::Prepare {
                namespace,
                key,
                parent,
                labels,
            } => self.prepare_as(book, session, namespace, key, parent, labels),
            Call::Charge {
                slot,
                id,
                need,
                want,
            } => self.charge(book, session, *slot, *id, *need, *want),
            Call::Trim { slot, id } => self.trim(book, session, *slot, *id),
            Call::Commit { slot, id, .. } => self.commit(book, session, *slot, *id, call),
            Call::Discard { slot, id } => self.discard(book, session, *slot, *id),
            _ => self.plain(book, session, call),
        }
    }

    // An operation on the layer of the slot's snapshot. No book takes part in it.
    pub(crate) fn file(&mut self, slot: u64, op: &Op) -> Answer
        ensures { (b : BookValue) → Moves (world_of b self.old) (steps.Hand slot op.now) result (world_of b self.new) }
    {
        let Some(mut active) = self.take_unsealed(slot) else {
            return Answer::NoHand;
        };
        let outcome = active.apply(op);
        self.put(slot, Hand::of(active));
        Answer::File(outcome)
    }
}
