// A world that is restored from what was saved of one.
ghost use Rattle.std.specs.Prelude.{◌≡◌, ◌⊎◌, ◌≤◌, ◌+◌, ◌^◌, false, None, Some, IfOk, IfErr, IsErrOf, OnOk, OnErr, Ok, Err, length};
ghost use Rattle.snap_path.specs.Memory.{no_memory};
ghost use Rattle.snap_call.specs.Saved.{CanPutBack, put_back, record_of, with_saved};
ghost use Rattle.snap_call.specs.SavedLeases.{lease_of, put_lease, with_leases};
ghost use Rattle.snap_call.specs.declared.refusal.Refusal.{Refusal};
ghost use Rattle.snap_call.specs.declared.refusal.Refusal.TheVariants.{BadArgument, OutOfMemory};
ghost use Rattle.snap_world.specs.declared.fault.RestoreFault.{RestoreFault};
ghost use Rattle.snap_world.specs.declared.fault.RestoreFault.TheVariants as faults;
ghost use Rattle.snap_book.specs.Round.{next_round, roll_answer};
ghost use Rattle.snap_world.specs.Saved.{finish_answer, hand_answer, hands_after, open_answer, opened_with, put_snapshot, restored_world, unsealed};
ghost use Rattle.snap_world.specs.World.{Fits};

use crate::fault::{RestoreFault, fault_of};
use crate::hands::{Hand, Hands};
use crate::world::World;
use snap_accounts::Accounts;
use snap_book::{Active, Book};
use snap_call::limits::MAX_ENTRY;
use snap_call::{Config, Refusal, Saved, SavedContent, SavedLease};
use snap_layer::Layer;
use snap_ledger::{NewTable, StoreName};
use snap_path::NoMemory;
use snap_usage::count;
use std::alloc::Global;
use std::marker::Model;

/// The hand of an active snapshot as it is saved.
#[derive(Debug, Drop)]
pub struct SavedHand {
    /// The snapshot's own layer.
    pub layer: Layer,
    /// Whether it doesn't change any more.
    pub sealed: bool,
}

/// A world as far as it is restored: the state, and the hands of the snapshots that are open. Dropping it discards
/// them.
pub struct Restoring<N: StoreName> {
    alloc: Global,
    accounts: Accounts<N>,
    hands: Hands<N>,
}

impl<N: StoreName> Model for Restoring<N> {
    ghost use Rattle.snap_world.specs.Saved.{FitsSoFar, RestoringValue};

    ghost Value = { RestoringValue };

    ghost view = { λ r. record { state = r.accounts; hands = r.hands } };

    ghost invariant = { λ r. FitsSoFar (record { state = r.accounts; hands = r.hands }) };
}

impl<N: StoreName> Drop for Restoring<N> {
    fn drop(self) {
        let Restoring {
            alloc: _,
            mut accounts,
            hands,
        } = self;
        hands.give_back(&mut accounts);
    }
}

impl<N: StoreName> Restoring<N> {
    /// A saved store before anything is put back: the parts of the configuration, which may have places that are free
    /// for a namespace, and the number of its last entry. The first snapshot has the configuration's first id or a
    /// greater one.
    ///
    /// `Config` with the first part of the configuration that is malformed ([`Config::bad_saved_field`]), `Entries`
    /// where the number is above 2^62, `OutOfMemory` where memory is refused. Memory and cost are those of
    /// [`Config::bad_saved_field`] and [`Accounts::opening`], and a place for the hand of each slot.
    pub fn open(
        alloc: Global,
        table: NewTable,
        config: Config,
        entries: u64,
    ) -> Result<Restoring<N>, RestoreFault>
        requires { table ≡ N.table }
        ensures opened { IfOk result (λ r. r ≡ opened_with config entries) }
        ensures answer { OnOk result (open_answer config entries ≡ Ok tt) }
        ensures first { (fault : RestoreFault) → open_answer config entries ≡ Err fault → IsErrOf result fault }
        ensures refused { IfErr result (λ fault. (open_answer config entries ≡ Err fault) ⊎ (fault ≡ faults.OutOfMemory no_memory)) }
    {
        if let Some(field) = config.bad_saved_field() {
            return Err(RestoreFault::Config(field));
        }
        if entries > MAX_ENTRY {
            return Err(RestoreFault::Entries);
        }
        let (slots, first) = (config.slots, config.first_id as u64);
        let mut accounts = Accounts::opening(alloc, table, config)?;
        accounts.number_from(first, entries);
        let hands = Hands::open(alloc, slots)?;
        Ok(Restoring {
            alloc,
            accounts,
            hands,
        })
    }

    /// Puts a saved lease back, as the last one of all. The snapshots that it names have to be there.
    ///
    /// The refusals, memory and cost are those of [`Accounts::put_lease`]. After an error a part of the lease may be
    /// there.
    pub fn put_lease(&mut self, lease: &SavedLease) -> Result<(), Refusal>
        ensures ok { OnOk result (put_lease self.old.state (lease_of lease.now) ≡ Ok self.new.state) }
        ensures refused { IfErr result (λ why. (put_lease self.old.state (lease_of lease.now) ≡ Err why) ⊎ (why ≡ OutOfMemory no_memory)) }
        ensures rest { self.new ≡ record { state = with_leases self.old.state self.new.state.leases; hands = self.old.hands } }
    {
        let answer = self.accounts.put_lease(lease);
        // The state of any accounts is good.
        let _ = self.accounts.state();
        answer
    }

    // A snapshot that isn't active.
    fn put_idle(&mut self, place: usize, saved: Saved) -> Result<(), Refusal>
        requires possible { CanPutBack self.old.state (record_of self.old.state place saved) }
        ensures first { (why : Refusal) → hand_answer saved.content None ≡ Err why → IsErrOf result why × (self.new ≡ self.old) }
        ensures left { OnErr result (self.new ≡ self.old) }
        ensures ok { OnOk result ((hand_answer saved.content None ≡ Ok tt) × (self.new ≡ record { state = with_saved self.old.state (record_of self.old.state place saved); hands = self.old.hands })) }
        ensures refused { IfErr result (λ why. (hand_answer saved.content None ≡ Err why) ⊎ (why ≡ OutOfMemory no_memory)) }
    {
        if let SavedContent::Active { .. } = &saved.content {
            return Err(Refusal::BadArgument);
        }
        match self.accounts.put_saved(self.alloc, place, saved)? {
            None => Ok(()),
            Some(_) => unreachable!(),
        }
    }

    // A snapshot that is active, with its hand. Where memory for its seal is refused it is there, and not sealed.
    fn put_open(&mut self, place: usize, saved: Saved, hand: SavedHand) -> Result<(), Refusal>
        requires possible { CanPutBack self.old.state (record_of self.old.state place saved) }
        ensures first { (why : Refusal) → hand_answer saved.content (Some hand) ≡ Err why → IsErrOf result why × (self.new ≡ self.old) }
        ensures left { OnErr result ((self.new ≡ self.old) ⊎ ((hand_answer saved.content (Some hand) ≡ Ok tt) × (self.new ≡ record { state = with_saved self.old.state (record_of self.old.state place saved); hands = hands_after (with_saved self.old.state (record_of self.old.state place saved)).records saved.content (Some (record hand { sealed = false })) self.old.hands }))) }
        ensures ok { OnOk result ((hand_answer saved.content (Some hand) ≡ Ok tt) × (self.new ≡ record { state = with_saved self.old.state (record_of self.old.state place saved); hands = hands_after (with_saved self.old.state (record_of self.old.state place saved)).records saved.content (Some hand) self.old.hands })) }
        ensures refused { IfErr result (λ why. (hand_answer saved.content (Some hand) ≡ Err why) ⊎ (why ≡ OutOfMemory no_memory)) }
    {
        let SavedContent::Active { slot, charged } = &saved.content else {
            return Err(Refusal::BadArgument);
        };
        let slot = *slot;
        let SavedHand { layer, sealed } = hand;
        if !charged.covers(count(&layer)) {
            return Err(Refusal::BadArgument);
        }
        let active = Active::put_saved(&mut self.accounts, self.alloc, place, saved, layer)?;
        match hand_of(active, sealed) {
            Ok(hand) => {
                self.hands.put(slot, hand);
                Ok(())
            }
            Err((no_memory, hand)) => {
                self.hands.put(slot, hand);
                Err(Refusal::OutOfMemory(no_memory))
            }
        }
    }

    /// Puts a saved snapshot back, an active one with its hand. Snapshots come in the order of their ids.
    ///
    /// The refusals of [`Accounts::check_saved`], and then `BadArgument` where an active one has no hand, another has
    /// one, or what it is charged doesn't cover the layer of its hand; after them nothing is changed. `OutOfMemory` where
    /// memory is refused; an active snapshot may then be there, and not sealed. Memory and cost are those of
    /// [`Accounts::check_saved`], [`Accounts::put_saved`], [`Active::put_saved`] and [`Active::seal`].
    pub fn put(&mut self, saved: Saved, hand: Option<SavedHand>) -> Result<(), Refusal>
        ensures ok { OnOk result (put_snapshot self.old saved hand ≡ Ok self.new) }
        ensures first { (why : Refusal) → put_snapshot self.old saved hand ≡ Err why → IsErrOf result why × (self.new ≡ self.old) }
        // After another error nothing is changed, or the snapshot is there and not sealed.
        ensures left { OnErr result ((self.new ≡ self.old) ⊎ (put_snapshot self.old saved (unsealed hand) ≡ Ok self.new)) }
        ensures refused { IfErr result (λ why. (put_snapshot self.old saved hand ≡ Err why) ⊎ (why ≡ OutOfMemory no_memory)) }
    {
        let place = self.accounts.check_saved(&saved)?;
        match hand {
            None => self.put_idle(place, saved),
            Some(hand) => self.put_open(place, saved, hand),
        }
    }

    /// The world, whose round begins at the state that is restored: its journal is empty and has at most `journal`
    /// entries, the next snapshot has the id, and sessions are counted from 0.
    ///
    /// `NextId` where the id is below the configuration's first id, or isn't above that of each snapshot; `Journal` with
    /// the refusal of [`Book::begin`](snap_book::Book::begin); `OutOfMemory` where memory is refused. After a fault
    /// nothing is left. Memory and cost are those of [`Book::begin`](snap_book::Book::begin), after a fault also that of
    /// letting the open snapshots go.
    pub fn finish(self, next_id: u64, journal: u64) -> Result<World<N>, RestoreFault>
        ensures restored { IfOk result (λ w. w ≡ restored_world self next_id journal) }
        ensures answer { OnOk result (finish_answer self next_id journal ≡ Ok tt) }
        ensures first { (fault : RestoreFault) → finish_answer self next_id journal ≡ Err fault → IsErrOf result fault }
        ensures refused { IfErr result (λ fault. (finish_answer self next_id journal ≡ Err fault) ⊎ (fault ≡ faults.OutOfMemory no_memory)) }
        ensures fits { IfOk result Fits }
    {
        let Restoring {
            alloc,
            mut accounts,
            hands,
        } = self;
        if next_id < accounts.state().next_id {
            hands.give_back(&mut accounts);
            return Err(RestoreFault::NextId);
        }
        let entries = accounts.state().entries;
        accounts.number_from(next_id, entries);
        match Book::begin(alloc, accounts, journal) {
            Ok(book) => Ok(World { book, hands }),
            Err((why, mut accounts)) => {
                hands.give_back(&mut accounts);
                Err(fault_of(RestoreFault::Journal(why), why))
            }
        }
    }
}

// The hand of the snapshot, sealed or not. Where memory for a seal is refused it comes back, and is not sealed.
fn hand_of<N: StoreName>(active: Active<N>, sealed: bool) -> Result<Hand<N>, (NoMemory, Hand<N>)>
    ensures ok { IfOk result (λ h. h ≡ record { snapshot = active; sealed = sealed }) }
    ensures err { IfErr result (λ back. back.1 ≡ record { snapshot = active; sealed = false }) }
{
    if !sealed {
        return Ok(Hand::of(active));
    }
    match active.seal() {
        Ok(sealed) => Ok(Hand::of_sealed(sealed)),
        Err((no_memory, active)) => Err((no_memory, Hand::of(active))),
    }
}
