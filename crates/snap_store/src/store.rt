// A store: its book behind the lock, and the calls that hand snapshots out and take them back.
ghost use Rattle.std.specs.Prelude.{◌≡◌, ◌≤◌, ◌+◌, ◌⊎◌, ◌∷◌, ◌<◌, [], None, false, length, IfOk, IfErr, OnOk, IsErrOf, ◌↔◌};
ghost use Rattle.snap_path.specs.Memory.{no_memory};
ghost use Rattle.snap_usage.specs.Counted.{count_of};
ghost use Rattle.snap_call.specs.Forms.{is_config};
ghost use Rattle.snap_call.specs.Journal.{call_entry};
ghost use Rattle.snap_call.specs.Records.{open_count};
ghost use Rattle.snap_call.specs.State.{opening};
ghost use Rattle.snap_call.specs.declared.call.Call.TheVariants as calls;
ghost use Rattle.snap_call.specs.declared.call.Given.TheVariants.{Nothing, Count, Layer as LayerGiven};
ghost use Rattle.snap_call.specs.declared.refusal.Refusal.TheVariants.{BadArgument, JournalFull, NumbersSpent, OutOfMemory};
ghost use Rattle.snap_call.specs.declared.reply.Reply.TheVariants as replies;
ghost use Rattle.snap_book.specs.Held.{share_of};
ghost use Rattle.snap_tape.specs.Tapes.{RefusedOn, Taped};
ghost use Rattle.snap_round.specs.Rounds.{whole_round};
ghost use Rattle.snap_store.specs.Rounds.{HasLayers, round_of};
ghost use Rattle.snap_store.specs.Values.{IsChargedTo, IsPrepared, IsViewed};

use crate::note::{is_recorded, note_entry};
use snap_book::{Active, Book, Config, Held, Refusal, Sealed, Viewed};
use snap_record::{Labels, Text};
use snap_round::{Half, KnownRound, NewStore, RoundName, Tie};
use snap_tape::{Session, TapeCount};
use snap_usage::Usage;
use std::alloc::{AllocError, Global};
use std::hint::spin_loop;
use std::marker::{Brand, Model};
use std::sync::{Mutex, MutexGuard, Wait};

// What the lock holds: the book, the half of the round that it is of, which takes no bytes, and how many entries the
// sessions' tapes were given.
#[derive(Drop)]
pub(crate) struct Locked<N: RoundName> {
    pub(crate) book: Book<N>,
    pub(crate) half: Half<N>,
    pub(crate) tapes: TapeCount,
}

impl<N: RoundName> Model for Locked<N> {
    ghost use Rattle.std.specs.Prelude.{◌≡◌, length};
    ghost use Rattle.snap_round.specs.Rounds.{inner};
    ghost use Rattle.snap_book.specs.Book.{BookValue};
    ghost use Rattle.snap_store.specs.Rounds.{round_of};

    ghost Value = { BookValue };

    ghost view = { λ l. l.book };

    // The tapes were given each entry that was made.
    ghost invariant = { λ l. (l.half ≡ inner (round_of l.book)) × (l.tapes ≡ length l.book.journal) };
}

// How often a thread asks for the lock before it sleeps. A call takes microseconds under it, and a thread that sleeps has
// to be woken, which takes longer than some calls.
const TRIES: u32 = 100;

// How often a thread pauses between two of them.
const PAUSES: u32 = 20;

// Lets other threads go on for some hundred cycles.
fn pause() {
    for _ in 0..PAUSES {
        spin_loop();
    }
}

/// A store of snapshots: a [`Book`] behind one lock, which any number of threads call at once, each by a
/// [`Session`] of its own.
///
/// Each call makes room for one entry on its session's tape, waits for the lock, makes the book's call under
/// it, and puts the call's entry on the tape, which shares it with the journal. No call lends the lock or the book, so nothing else
/// waits for it: the calls of an [`Active`], a [`Sealed`] and a [`Viewed`] take no runtime.
///
/// `OutOfMemory` where room on the tape is refused, before the lock is taken, and where the book's call
/// answers it; `JournalFull` where each entry that is left is kept for the end of an open snapshot. These two
/// leave no entry, neither in the journal nor on the tape; every other refusal is recorded in both. Each
/// returns only if it gets the lock. The cost is that of the book's call.
///
/// Contracts see a store as its [`Round`](crate::Round): the state that it began at, and the most entries of its
/// journal. No call changes them, and the book under the lock is of this round ([`Tie`]).
#[derive(Drop)]
pub struct Store<N: RoundName> {
    pub(crate) alloc: Global,
    pub(crate) book: Mutex<Locked<N>>,
    tie: Tie<N>,
    // The most inodes of a new layer. The book has it too, of which nothing is known here.
    layer_inodes: u64,
}

impl<N: RoundName> Model for Store<N> {
    ghost use Rattle.std.specs.Prelude.{◌≡◌};
    ghost use Rattle.snap_call.specs.Records.{open_count};
    ghost use Rattle.snap_round.specs.Rounds.{outer};
    ghost use Rattle.snap_round.specs.declared.rule.Round.{Round};
    ghost use Rattle.snap_store.specs.Rounds.{HasLayers};

    ghost Value = { Round };

    ghost view = { λ s. s.tie.round };

    // No call rolls the book: the round began without open snapshots.
    ghost invariant = { λ s. (s.tie ≡ outer s.tie.round) × (open_count s.tie.round.opening.records ≡ 0) × HasLayers s.tie.round s.layer_inodes };
}

// The store of a book that begins a round, which the type names.
fn known<N: RoundName, K: KnownRound>(
    alloc: Global,
    book: Book<N>,
    tie: Tie<N>,
    layer_inodes: u64,
) -> Store<N>
    requires known { round_of book ≡ K.round }
    requires idle { open_count book.opening.records ≡ 0 }
    requires layers { HasLayers (round_of book) layer_inodes }
    requires whole { tie ≡ whole_round tie.round }
    requires empty { book.journal ≡ [] }
    ensures { result ≡ round_of book }
{
    Store::of(
        alloc,
        book,
        tie.begin::<K>(),
        layer_inodes,
        TapeCount::none(),
    )
}

// The store of a book that begins a round.
pub(crate) fn begun<N: RoundName>(alloc: Global, book: Book<N>, tie: Tie<N>) -> Store<N>
    requires begins { book ≡ record { state = book.opening; journal = []; opening = book.opening; limit = book.limit; copy = None } }
    requires idle { open_count book.opening.records ≡ 0 }
    requires whole { tie ≡ whole_round tie.round }
    ensures { result ≡ round_of book }
{
    let layer_inodes = book.layer_inodes();
    known::<N, Brand>(alloc, book, tie, layer_inodes)
}

// The texts and the labels of a commit, for its entry.
fn copies(
    alloc: Global,
    name: &str,
    lease: &Option<Text>,
    labels: &Option<Labels>,
) -> Result<(Text, Option<Text>, Option<Labels>), AllocError>
    ensures { IfOk result (λ copies. copies ≡ (name.now, lease.now, labels.now)) }
{
    Ok((Text::copy_of(alloc, name)?, lease.clone()?, labels.clone()?))
}

impl<N: RoundName> Store<N> {
    // The store of a book, which is of the round of the tie.
    pub(crate) fn of(
        alloc: Global,
        book: Book<N>,
        tie: Tie<N>,
        layer_inodes: u64,
        tapes: TapeCount,
    ) -> Store<N>
        requires whole { tie ≡ whole_round (round_of book) }
        requires idle { open_count book.opening.records ≡ 0 }
        requires layers { HasLayers (round_of book) layer_inodes }
        requires made { tapes ≡ length book.journal }
        ensures { result ≡ round_of book }
    {
        let (tie, half) = tie.split();
        Store {
            alloc,
            book: Mutex::new(Locked { book, half, tapes }),
            tie,
            layer_inodes,
        }
    }

    // Its book, out of the lock: it is of the store's round. Beside it the most inodes of a new layer, and how many
    // entries the tapes were given.
    pub(crate) fn into_book(self) -> (Global, Book<N>, Tie<N>, u64, TapeCount)
        ensures round { round_of result.1 ≡ self }
        ensures whole { result.2 ≡ whole_round (round_of result.1) }
        ensures idle { open_count result.1.opening.records ≡ 0 }
        ensures layers { HasLayers (round_of result.1) result.3 }
        ensures made { result.4 ≡ length result.1.journal }
    {
        let Store {
            alloc,
            book,
            tie,
            layer_inodes,
        } = self;
        let Locked { book, half, tapes } = book.into_inner();
        (alloc, book, tie.join(half), layer_inodes, tapes)
    }

    /// A store with the namespaces of the configuration and no snapshots, in a round without sessions.
    ///
    /// `BadArgument` where a part of the configuration is malformed; `OutOfMemory` where memory is
    /// refused. Memory and cost are those of [`Book::open`](snap_book::Book::open). It waits for nobody.
    pub fn open(alloc: Global, new: NewStore, config: Config) -> Result<Store<N>, Refusal>
        requires { new ≡ (N.table, N.rounds) }
        ensures opened { IfOk result (λ store. store ≡ record { opening = opening config; limit = config.journal }) }
        ensures bad { IsErrOf result BadArgument ↔ (is_config config ≡ false) }
        ensures err { IfErr result (λ why. (why ≡ BadArgument) ⊎ (why ≡ OutOfMemory no_memory)) }
    {
        let (charges, tie) = new.into_parts();
        let book = Book::open(alloc, charges, config)?;
        Ok(begun(alloc, book, tie))
    }

    /// The most inodes of the layer of each snapshot that is prepared. Takes no memory, and waits for nobody. The cost
    /// is constant.
    pub fn layer_inodes(&self) -> u64
        ensures { result ≡ self.now.opening.layer_inodes }
    {
        self.layer_inodes
    }

    // The book, once no other thread has it.
    pub(crate) fn locked<R: Wait>(&self, rt: &R) -> MutexGuard<'_, Locked<N>> {
        for _ in 0..TRIES {
            if let Some(guard) = self.book.try_lock() {
                return guard;
            }
            pause();
        }
        self.book.lock(rt)
    }

    /// Opens a session of the round. Its tape begins with the entry of this call.
    ///
    /// `OutOfMemory` and `JournalFull` as for every call; `NumbersSpent` after 65,536 sessions of the round.
    /// None of them is recorded, and no session is opened.
    pub fn session<R: Wait>(&self, rt: &R) -> Result<Session, Refusal>
        ensures opened { IfOk result (λ s. s.tape ≡ call_entry s.number calls.Session Nothing replies.Opened ∷ []) }
        ensures err { IfErr result (λ why. (why ≡ JournalFull) ⊎ ((why ≡ OutOfMemory no_memory) ⊎ (why ≡ NumbersSpent))) }
    {
        let mut tape = Vec::new(self.alloc);
        tape.reserve(1)?;
        let mut locked = self.locked(rt);
        let Locked { book, tapes, .. } = &mut *locked;
        let mut session = Session::of(book.open_session()?, tape);
        note_entry(book, tapes, &mut session, true);
        Ok(session)
    }

    /// Makes an active snapshot in the lowest free slot, charged 1/1 for its root, over a parent or over
    /// nothing (containerd's `Snapshotter.Prepare`), as [`Book::prepare`] does.
    ///
    /// `JournalFull` where an entry for the call and one for the snapshot's end are not left. The other
    /// refusals, after `OutOfMemory`: `BadArgument`, `NoNamespace`, `NotFound` for the parent,
    /// `AlreadyExists`, `NotCommitted`, `TooDeep`, `TooManyActives`, `OverLimit`, `NumbersSpent`.
    pub fn prepare<R: Wait>(
        &self,
        rt: &R,
        session: &mut Session,
        namespace: &str,
        key: &str,
        parent: &str,
        labels: &Labels,
    ) -> Result<Active<N>, Refusal>
        // Ok: the entry is on the tape, and the snapshot is the step's.
        ensures granted { IfOk result (λ a. IsPrepared self.now.opening.layer_inodes session.old session.new namespace.now key.now parent.now labels.now a) }
        ensures refused { IfErr result (λ why. RefusedOn session.old session.new (calls.Prepare namespace.now key.now parent.now labels.now) Nothing why) }
        ensures room { session.old.spare ≤ session.new.spare + 1 }
    {
        session.reserve(1)?;
        let mut locked = self.locked(rt);
        let Locked { book, tapes, .. } = &mut *locked;
        let n = session.number();
        match book.prepare_within(n, namespace, key, parent, labels, self.layer_inodes) {
            Ok((active, _)) => {
                note_entry(book, tapes, session, true);
                Ok(active)
            }
            Err(why) => {
                note_entry(book, tapes, session, is_recorded(why));
                Err(why)
            }
        }
    }

    /// Makes a view of a parent or of nothing (containerd's `Snapshotter.View`), as [`Book::view`] does.
    ///
    /// Refusals, after `JournalFull` and `OutOfMemory`: `BadArgument`, `NoNamespace`, `NotFound` for the
    /// parent, `AlreadyExists`, `NotCommitted`, `TooDeep`, `NumbersSpent`.
    pub fn view<R: Wait>(
        &self,
        rt: &R,
        session: &mut Session,
        namespace: &str,
        key: &str,
        parent: &str,
        labels: &Labels,
    ) -> Result<Viewed, Refusal>
        ensures granted { IfOk result (λ v. IsViewed session.old session.new namespace.now key.now parent.now labels.now v) }
        ensures refused { IfErr result (λ why. RefusedOn session.old session.new (calls.View namespace.now key.now parent.now labels.now) Nothing why) }
        ensures room { session.old.spare ≤ session.new.spare + 1 }
    {
        session.reserve(1)?;
        let mut locked = self.locked(rt);
        let Locked { book, tapes, .. } = &mut *locked;
        match book.view(session.number(), namespace, key, parent, labels) {
            Ok(viewed) => {
                note_entry(book, tapes, session, true);
                Ok(viewed)
            }
            Err(why) => {
                note_entry(book, tapes, session, is_recorded(why));
                Err(why)
            }
        }
    }

    /// Charges the snapshot for the wanted amount where its namespace's limit covers that, else for the
    /// needed one, in blocks of 4096 bytes and inodes; never for less than it is charged already.
    ///
    /// Refusals, after `JournalFull` and `OutOfMemory`: `OverLimit` with what is free. After each the
    /// snapshot is as it was.
    pub fn charge<R: Wait>(
        &self,
        rt: &R,
        session: &mut Session,
        active: &mut Active<N>,
        need: Usage,
        want: Usage,
    ) -> Result<(), Refusal>
        ensures granted { OnOk result (Taped session.old session.new (calls.Charge active.old.share.slot active.old.share.id need want) Nothing (replies.Charged active.new.share.usage)) }
        ensures amount { OnOk result (IsChargedTo active.old.share.usage need want active.new.share.usage) }
        ensures share { OnOk result (active.new ≡ record active.old { share = record active.old.share { usage = active.new.share.usage } }) }
        ensures refused { IfErr result (λ why. RefusedOn session.old session.new (calls.Charge active.old.share.slot active.old.share.id need want) Nothing why) }
        ensures room { session.old.spare ≤ session.new.spare + 1 }
        ensures same { IfErr result (λ why. active.new ≡ active.old) }
    {
        session.reserve(1)?;
        let mut locked = self.locked(rt);
        let Locked { book, tapes, .. } = &mut *locked;
        match book.charge(session.number(), active, need, want) {
            Ok(()) => {
                note_entry(book, tapes, session, true);
                Ok(())
            }
            Err(why) => {
                note_entry(book, tapes, session, is_recorded(why));
                Err(why)
            }
        }
    }

    /// Lowers the snapshot's charge to the count of its layer.
    ///
    /// `JournalFull` and `OutOfMemory` alone; the snapshot is then as it was.
    pub fn trim<R: Wait>(
        &self,
        rt: &R,
        session: &mut Session,
        active: &mut Active<N>,
    ) -> Result<(), Refusal>
        ensures granted { OnOk result (Taped session.old session.new (calls.Trim active.old.share.slot active.old.share.id) (Count (count_of active.old.layer)) replies.Trimmed) }
        ensures share { OnOk result (active.new ≡ record active.old { share = record active.old.share { usage = count_of active.old.layer } }) }
        ensures refused { IfErr result (λ why. RefusedOn session.old session.new (calls.Trim active.old.share.slot active.old.share.id) (Count (count_of active.old.layer)) why) }
        ensures room { session.old.spare ≤ session.new.spare + 1 }
        ensures same { IfErr result (λ why. active.new ≡ active.old) }
    {
        session.reserve(1)?;
        let mut locked = self.locked(rt);
        let Locked { book, tapes, .. } = &mut *locked;
        match book.trim(session.number(), active) {
            Ok(()) => {
                note_entry(book, tapes, session, true);
                Ok(())
            }
            Err(why) => {
                note_entry(book, tapes, session, is_recorded(why));
                Err(why)
            }
        }
    }

    /// Commits the snapshot under a name, with the labels in place of its own where they are given, and names
    /// it in a lease where one is given (containerd's `Snapshotter.Commit`, and its `WithLabels`). The answer is
    /// what its layer takes, in blocks of 4096 bytes and inodes.
    ///
    /// Refusals, after `JournalFull` and `OutOfMemory`: `BadArgument`, `AlreadyExists`, `NoLease`. Each gives
    /// the snapshot back as it was. The texts and the labels are copied before the lock is taken.
    pub fn commit<R: Wait>(
        &self,
        rt: &R,
        session: &mut Session,
        name: &str,
        lease: &Option<Text>,
        labels: &Option<Labels>,
        sealed: Sealed<N>,
    ) -> Result<Usage, (Refusal, Sealed<N>)>
        ensures granted { IfOk result (λ usage. Taped session.old session.new (calls.Commit sealed.share.slot sealed.share.id name.now lease.now labels.now) (LayerGiven sealed.layer) (replies.Committed sealed.share.id usage)) }
        ensures count { IfOk result (λ usage. usage ≡ count_of sealed.layer) }
        ensures refused { IfErr result (λ back. RefusedOn session.old session.new (calls.Commit sealed.share.slot sealed.share.id name.now lease.now labels.now) (LayerGiven sealed.layer) back.0) }
        ensures room { session.old.spare ≤ session.new.spare + 1 }
        ensures same { IfErr result (λ back. back.1 ≡ sealed) }
    {
        if let Err(refused) = session.reserve(1) {
            return Err((refused.into(), sealed));
        }
        let (name, lease, labels) = match copies(self.alloc, name, lease, labels) {
            Ok(copies) => copies,
            Err(refused) => return Err((refused.into(), sealed)),
        };
        let mut locked = self.locked(rt);
        let Locked { book, tapes, .. } = &mut *locked;
        match book.commit(session.number(), name, lease, labels, sealed) {
            Ok(usage) => {
                note_entry(book, tapes, session, true);
                Ok(usage)
            }
            Err((why, sealed)) => {
                note_entry(book, tapes, session, is_recorded(why));
                Err((why, sealed))
            }
        }
    }

    /// Drops the snapshot and frees its slot. The answer is what it was charged, in blocks of 4096 bytes and
    /// inodes.
    ///
    /// It has no refusal and takes no memory: its entry was kept when it was prepared, and the tape has room
    /// for one entry, which [`Session::reserve`] makes and [`Session::spare`] tests. The layer is let go before the
    /// lock is taken.
    pub fn discard<R: Wait>(&self, rt: &R, session: &mut Session, held: Held<N>) -> Usage
        requires { 0 < session.old.spare }
        ensures granted { Taped session.old session.new (calls.Discard (share_of held).slot (share_of held).id) Nothing (replies.Discarded result) }
        ensures held { result ≡ (share_of held).usage }
    {
        let released = held.release();
        let mut locked = self.locked(rt);
        let Locked { book, tapes, .. } = &mut *locked;
        let freed = book.take_back(session.number(), released);
        note_entry(book, tapes, session, true);
        freed
    }
}
