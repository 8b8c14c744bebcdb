// The close of a store, and the next round.
ghost use Rattle.std.specs.Prelude.{◌≡◌, IfOk, OnOk, IfErr, Ok, Err, length};
ghost use Rattle.std.specs.Option.{option_map};
ghost use Rattle.snap_call.specs.Questions.{reply_to};
ghost use Rattle.snap_call.specs.Records.{charge_of, open_count, sum_of};
ghost use Rattle.snap_call.specs.State.{place_of};
ghost use Rattle.snap_call.specs.Totals.{counted_in};
ghost use Rattle.snap_book.specs.Questions.{chain_usage};
ghost use Rattle.snap_book.specs.Round.{next_round, round_answer};
ghost use Rattle.snap_round.specs.Rounds.{whole_round};
ghost use Rattle.snap_store.specs.Rounds.{HasLayers, round_of};
ghost use Rattle.snap_store.specs.Closing.{AreSessions, HasCause, KeptBook, IsClosingRefusal, IsSettled};

use crate::cause::{Cause, close_cause};
use crate::store::{Store, begun};
use snap_book::{Book, Question, Refusal, Reply, SharedEntry};
use snap_call::Records;
use snap_round::{RoundName, Tie};
use snap_tape::{Session, TapeCount};
use snap_usage::Usage;
use std::alloc::{AllocError, Global};
use std::marker::Model;

/// A store that is closed: no snapshot is open, and no session calls it.
#[derive(Drop)]
pub struct Closed<N: RoundName> {
    alloc: Global,
    book: Book<N>,
    tie: Tie<N>,
}

impl<N: RoundName> Model for Closed<N> {
    ghost use Rattle.std.specs.Prelude.{◌≡◌};
    ghost use Rattle.snap_call.specs.Records.{open_count};
    ghost use Rattle.snap_round.specs.Rounds.{whole_round};
    ghost use Rattle.snap_book.specs.Book.{BookValue};
    ghost use Rattle.snap_store.specs.Rounds.{round_of};

    ghost Value = { BookValue };

    ghost view = { λ c. c.book };

    ghost invariant = { λ c. (open_count c.book.state.records ≡ 0) × (c.tie ≡ whole_round (round_of c.book)) };
}

/// A store that was not closed, as it was: the store, in the same round, the sessions that were handed in, and why.
#[derive(Drop)]
pub struct NotClosed<N: RoundName> {
    pub store: Store<N>,
    pub sessions: Vec<Session>,
    pub cause: Cause,
}

/// A closed store of which no next round was opened, as it was, and why.
#[derive(Drop)]
pub struct NotOpened<N: RoundName> {
    pub closed: Closed<N>,
    pub refusal: Refusal,
}

impl<N: RoundName> Store<N> {
    /// Closes the store, once all its sessions are joined and all its snapshots spent, and tells what each
    /// namespace is charged: exactly the blocks and inodes counted over its remaining layers.
    ///
    /// `NotClosed`, with the store and the sessions as they were, for the first [`Cause`] that holds. No entry
    /// is made, and no lock is waited for, since nobody else has the store. Takes memory for a place and a
    /// number of each session, or for the list of open snapshots. The cost is one pass over the journal and
    /// the tapes, as [`close_cause`] has it.
    pub fn close(self, sessions: Vec<Session>) -> Result<Closed<N>, NotClosed<N>>
        ensures round { IfOk result (λ closed. round_of closed ≡ self) }
        ensures sessions { IfOk result (λ closed. AreSessions closed.journal sessions.items) }
        ensures totals { IfOk result (λ closed. IsSettled closed.state) }
        ensures kept { IfOk result (λ closed. KeptBook closed) }
        ensures same { IfErr result (λ back. back.store ≡ self) }
        ensures returned { IfErr result (λ back. back.sessions ≡ sessions) }
        ensures cause { IfErr result (λ back. HasCause back.store back.sessions.items back.cause) }
    {
        let (alloc, book, tie, layer_inodes, tapes) = self.into_book();
        match close_cause(alloc, &book, sessions.as_slice()) {
            Ok(None) => Ok(Closed::of(alloc, book, tie)),
            Ok(Some(cause)) => Err(NotClosed::of(
                alloc,
                book,
                tie,
                layer_inodes,
                tapes,
                sessions,
                cause,
            )),
            Err(no_memory) => Err(NotClosed::of(
                alloc,
                book,
                tie,
                layer_inodes,
                tapes,
                sessions,
                Cause::OutOfMemory(no_memory),
            )),
        }
    }

    /// Opens the next round over the same snapshots, leases, limits and ids: its journal is empty and has at most
    /// `journal` entries, and sessions are counted from 0 again.
    ///
    /// `BadArgument` where the journal would be above 1,048,576 entries, then `NumbersSpent` where the numbers
    /// of its entries could pass 2^62; the closed store comes back as it was. Memory and
    /// cost are those of [`Book::next_round`](snap_book::Book::next_round).
    pub fn reopen(closed: Closed<N>, journal: u64) -> Result<Store<N>, NotOpened<N>>
        ensures opened { OnOk result (round_answer closed.state journal ≡ Ok tt) }
        ensures round { IfOk result (λ store. store ≡ record { opening = next_round closed.state; limit = journal }) }
        ensures refused { IfErr result (λ back. round_answer closed.state journal ≡ Err back.refusal) }
        ensures same { IfErr result (λ back. back.closed ≡ closed) }
    {
        let Closed {
            alloc,
            mut book,
            tie,
        } = closed;
        match book.next_round(journal) {
            Ok(()) => Ok(begun(alloc, book, tie)),
            Err(refusal) => Err(NotOpened {
                closed: Closed { alloc, book, tie },
                refusal,
            }),
        }
    }
}

impl<N: RoundName> NotClosed<N> {
    // The store of a book that can't be closed for the cause.
    fn of(
        alloc: Global,
        book: Book<N>,
        tie: Tie<N>,
        layer_inodes: u64,
        tapes: TapeCount,
        sessions: Vec<Session>,
        cause: Cause,
    ) -> NotClosed<N>
        requires refused { IsClosingRefusal book sessions.items cause }
        requires kept { KeptBook book }
        requires whole { tie ≡ whole_round (round_of book) }
        requires layers { HasLayers (round_of book) layer_inodes }
        requires made { tapes ≡ length book.journal }
        ensures same { result.store ≡ round_of book }
        ensures returned { result.sessions ≡ sessions }
        ensures cause { HasCause result.store result.sessions.items result.cause }
    {
        NotClosed {
            store: Store::of(alloc, book, tie, layer_inodes, tapes),
            sessions,
            cause,
        }
    }
}

impl<N: RoundName> Closed<N> {
    // The closed store of a book.
    fn of(alloc: Global, book: Book<N>, tie: Tie<N>) -> Closed<N>
        requires idle { open_count book.state.records ≡ 0 }
        requires whole { tie ≡ whole_round (round_of book) }
        ensures closed { result ≡ book }
    {
        Closed { alloc, book, tie }
    }

    /// What the namespace is charged, in blocks of 4096 bytes and inodes: the sum of the counts over its
    /// committed layers. `None` where the store has no such namespace. Takes no memory. The cost grows with
    /// the logarithm of the number of namespaces.
    pub fn totals(&self, namespace: &str) -> Option<Usage>
        ensures counts { result ≡ option_map (λ place. sum_of counted_in place self.now.state.records) (place_of namespace.now self.now.state.namespaces) }
        ensures charge { result ≡ option_map (λ place. charge_of place self.now.state.records) (place_of namespace.now self.now.state.namespaces) }
    {
        self.book.totals(namespace)
    }

    /// What the call that asks the same would reply, as [`Book::answer`](snap_book::Book::answer) answers it, with its
    /// cost and its memory. It leaves no entry; where memory is refused there is no answer.
    pub fn answer(&self, question: &Question) -> Result<Reply, AllocError>
        ensures { IfOk result (λ reply. reply ≡ reply_to self.now.state question.now) }
    {
        self.book.answer(question)
    }

    /// What the snapshot of this key is charged together with its committed ancestors, as
    /// [`Book::chain_usage`](snap_book::Book::chain_usage) answers it, with its refusals and its cost.
    pub fn chain_usage(&self, namespace: &str, key: &str) -> Result<Usage, Refusal>
        ensures { result ≡ chain_usage self.now.state namespace.now key.now }
    {
        self.book.chain_usage(namespace, key)
    }

    /// The records of all snapshots, in order of their namespaces' places and the bytes of their keys; none is
    /// active. Takes no memory. The cost is constant.
    pub fn records(&self) -> &Records
        ensures { result.now ≡ self.now.state.records }
    {
        self.book.records()
    }

    /// The entries of the round. Takes no memory. The cost is constant.
    pub fn journal(&self) -> &[SharedEntry]
        ensures { result.now ≡ self.now.journal }
    {
        self.book.journal()
    }
}
