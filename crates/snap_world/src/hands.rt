// The open snapshots of a world, each in the place of its slot. They have to be spent.
ghost use Rattle.std.specs.Prelude.{◌≡◌, ◌<◌, ◌≤◌, ◌+◌, ◌^◌, false, true, replicate, Some, None, IfOk, IfErr, OnErr, OnOk, IfSome, MatchOption, option_copied, length};
ghost use Rattle.snap_usage.specs.Counted.{count_of};
ghost use Rattle.snap_book.specs.Held.{share_of};
ghost use Rattle.snap_world.specs.World.{Fits, hand_at, with_hand, world_of};
ghost use Rattle.snap_world.specs.Applied.{Applies, HandApplied, PlaceApplied};
ghost use Rattle.snap_world.specs.Move.{is_under, is_unsealed, is_working, meets};
ghost use Rattle.snap_world.specs.Layers.{MayHave, layer_put, open_layer};
ghost use Rattle.snap_world.specs.Stacks.{layers_in};
ghost use Rattle.snap_world.specs.Sums.{spare_in};

use crate::applied::{Changed, Unapplied};
use snap_accounts::Accounts;
use snap_book::{Active, Book, Held, OpFault, Sealed};
use snap_layer::Layer;
use snap_ledger::StoreName;
use snap_merge::Stack;
use snap_path::NoMemory;
use snap_upper::Op;
use snap_usage::{Usage, difference};
use std::alloc::{AllocError, Global};
use std::marker::Model;
use std::mem;

// An open snapshot, sealed or not.
pub(crate) struct Hand<N: StoreName> {
    held: Held<N>,
}

impl<N: StoreName> Model for Hand<N> {
    ghost use Rattle.snap_world.specs.World.{HandValue};
    ghost use Rattle.snap_world.specs.Hand.{hand_of};

    ghost Value = { HandValue };

    ghost view = { λ h. hand_of h.held };
}

impl<N: StoreName> Hand<N> {
    // A snapshot whose layer may change.
    pub(crate) fn of(active: Active<N>) -> Hand<N>
        ensures { result ≡ record { snapshot = active; sealed = false } }
    {
        Hand {
            held: Held::Active(active),
        }
    }

    // A sealed one.
    pub(crate) fn of_sealed(sealed: Sealed<N>) -> Hand<N>
        ensures { result ≡ record { snapshot = sealed; sealed = true } }
    {
        Hand {
            held: Held::Sealed(sealed),
        }
    }

    // It is the snapshot of this id.
    pub(crate) fn is_under(&self, id: u32) -> bool
        ensures { result ≡ is_under id self.now }
    {
        match &self.held {
            Held::Active(active) => active.id() == id,
            Held::Sealed(sealed) => sealed.id() == id,
        }
    }

    // The place of its namespace.
    pub(crate) fn namespace(&self) -> usize
        ensures { result ≡ self.now.snapshot.namespace }
    {
        match &self.held {
            Held::Active(active) => active.namespace(),
            Held::Sealed(sealed) => sealed.namespace(),
        }
    }

    // What its slot is charged.
    pub(crate) fn share(&self) -> Usage
        ensures { result ≡ self.now.snapshot.share.usage }
    {
        match &self.held {
            Held::Active(active) => active.share(),
            Held::Sealed(sealed) => sealed.share(),
        }
    }

    // What its layer takes.
    pub(crate) fn count(&self) -> Usage
        ensures { result ≡ count_of self.now.snapshot.layer }
    {
        match &self.held {
            Held::Active(active) => active.count(),
            Held::Sealed(sealed) => sealed.usage(),
        }
    }

    // What its slot is charged beyond what its layer takes.
    pub(crate) fn spare(&self) -> Usage
        ensures { result ≡ spare_in self.now }
    {
        match &self.held {
            Held::Active(active) => active.spare(),
            Held::Sealed(sealed) => difference(sealed.share(), sealed.usage()),
        }
    }

    // Its layer.
    pub(crate) fn layer(&self) -> &Layer
        ensures { result.now ≡ self.now.snapshot.layer }
    {
        match &self.held {
            Held::Active(active) => active.layer(),
            Held::Sealed(sealed) => sealed.layer(),
        }
    }

    // Its layer doesn't change any more.
    pub(crate) fn is_sealed(&self) -> bool
        ensures { result ≡ self.now.sealed }
    {
        match &self.held {
            Held::Active(_) => false,
            Held::Sealed(_) => true,
        }
    }

    // Its layer, where it may change.
    pub(crate) fn open_layer(&self) -> Option<&Layer>
        ensures { option_copied result ≡ open_layer self.now }
    {
        match &self.held {
            Held::Active(active) => Some(active.layer()),
            Held::Sealed(_) => None,
        }
    }

    // Its layer over those of its ancestors.
    pub(crate) fn stack(&self) -> Stack<'_>
        ensures { result ≡ layers_in self.now }
    {
        match &self.held {
            Held::Active(active) => active.stack(),
            Held::Sealed(sealed) => sealed.stack(),
        }
    }

    // An operation, with the charge that it needs.
    pub(crate) fn apply(
        &mut self,
        book: &mut Book<N>,
        session: u64,
        id: u32,
        op: &Op,
        extra: Usage,
    ) -> Result<Changed, Unapplied>
        ensures { HandApplied book.old book.new session id self.old self.new op.now extra result }
    {
        let Held::Active(active) = &mut self.held else {
            return Err(Unapplied::NoHand);
        };
        match book.apply(session, id, active, op, extra) {
            Ok(count) => Ok(Changed {
                count,
                share: active.share(),
            }),
            Err(OpFault::File(error)) => Err(Unapplied::File(error)),
            Err(OpFault::Book(why)) => Err(Unapplied::Charge(why)),
            Err(OpFault::NoSession) => Err(Unapplied::NoSession),
            Err(OpFault::OtherId) => Err(Unapplied::NoHand),
        }
    }

    // What is given back to the book.
    pub(crate) fn into_held(self) -> Held<N>
        ensures { share_of result ≡ self.snapshot.share }
    {
        let Hand { held } = self;
        held
    }

    // Its layer does not change any more. Where memory is refused it comes back as it was.
    pub(crate) fn seal(self) -> Result<Sealed<N>, (NoMemory, Hand<N>)>
        ensures ok { IfOk result (λ s. s ≡ self.snapshot) }
        ensures err { IfErr result (λ back. back.1 ≡ self) }
        ensures unsealed { OnErr result (self.sealed ≡ false) }
    {
        let Hand { held } = self;
        match held {
            Held::Active(active) => match active.seal() {
                Ok(sealed) => Ok(sealed),
                Err((no_memory, active)) => Err((no_memory, Hand::of(active))),
            },
            Held::Sealed(sealed) => Ok(sealed),
        }
    }
}

// An operation on the hand of a place, if one stands there.
fn apply_at<N: StoreName>(
    place: &mut Option<Hand<N>>,
    book: &mut Book<N>,
    session: u64,
    id: u32,
    op: &Op,
    extra: Usage,
) -> Result<Changed, Unapplied>
    ensures { PlaceApplied book.old book.new session id place.old place.new op.now extra result }
{
    match place {
        Some(hand) => hand.apply(book, session, id, op, extra),
        None => Err(Unapplied::NoHand),
    }
}

// A place for each slot of the store.
pub(crate) struct Hands<N: StoreName> {
    alloc: Global,
    list: Vec<Option<Hand<N>>>,
}

impl<N: StoreName> Model for Hands<N> {
    ghost use Rattle.std.specs.Prelude.{List, Option};
    ghost use Rattle.snap_world.specs.World.{HandValue};

    ghost Value = { List (Option HandValue) };

    ghost view = { λ h. h.list.items };
}

impl<N: StoreName> Hands<N> {
    // No hands, and `slots` places.
    pub(crate) fn open(alloc: Global, slots: u64) -> Result<Hands<N>, AllocError>
        ensures { IfOk result (λ hands. hands ≡ replicate slots None) }
    {
        let mut list = Vec::with_capacity(alloc, slots as usize)?;
        for _ in 0..slots {
            list.push_reserved(None);
        }
        Ok(Hands { alloc, list })
    }

    // How many places there are.
    pub(crate) fn len(&self) -> u64
        ensures { result ≡ length self.now }
    {
        self.list.len() as u64
    }

    // Where memory comes from.
    pub(crate) fn alloc(&self) -> Global {
        self.alloc
    }

    // The hand of the slot, if one stands there.
    pub(crate) fn get(&self, slot: u64) -> Option<&Hand<N>>
        ensures { option_copied result ≡ hand_at slot self.now }
    {
        match self.list.get(slot as usize) {
            Some(place) => place.as_ref(),
            None => None,
        }
    }

    // The hand goes out of its place.
    pub(crate) fn take(&mut self, slot: u64) -> Option<Hand<N>>
        ensures taken { result ≡ hand_at slot self.old }
        ensures low { IfSome result (λ _. slot < length self.new) }
        ensures rest { self.new ≡ with_hand slot None self.old }
    {
        let place = slot as usize;
        if place < self.list.len() {
            self.list[place].take()
        } else {
            None
        }
    }

    // The snapshot of this id goes out of its place, if it stands there.
    pub(crate) fn take_under(&mut self, slot: u64, id: u32) -> Option<Hand<N>>
        ensures { MatchOption result ((meets (is_under id) (hand_at slot self.old) ≡ false) × (self.new ≡ self.old)) (λ h. (hand_at slot self.old ≡ Some h) × (is_under id h ≡ true) × (slot < length self.new) × (self.new ≡ with_hand slot None self.old)) }
    {
        let hand = self.take(slot)?;
        if hand.is_under(id) {
            return Some(hand);
        }
        self.put(slot, hand);
        None
    }

    // And if it isn't sealed.
    pub(crate) fn take_working(&mut self, slot: u64, id: u32) -> Option<Active<N>>
        ensures { MatchOption result ((meets (is_working id) (hand_at slot self.old) ≡ false) × (self.new ≡ self.old)) (λ a. (hand_at slot self.old ≡ Some (record { snapshot = a; sealed = false })) × (is_under id (record { snapshot = a; sealed = false }) ≡ true) × (slot < length self.new) × (self.new ≡ with_hand slot None self.old)) }
    {
        let Hand { held } = self.take_under(slot, id)?;
        match held {
            Held::Active(active) => Some(active),
            Held::Sealed(sealed) => {
                self.put(slot, Hand::of_sealed(sealed));
                None
            }
        }
    }

    // The snapshot goes out of its place, if one stands there that isn't sealed.
    pub(crate) fn take_unsealed(&mut self, slot: u64) -> Option<Active<N>>
        ensures { MatchOption result ((meets is_unsealed (hand_at slot self.old) ≡ false) × (self.new ≡ self.old)) (λ a. (hand_at slot self.old ≡ Some (record { snapshot = a; sealed = false })) × (slot < length self.new) × (self.new ≡ with_hand slot None self.old)) }
    {
        let Hand { held } = self.take(slot)?;
        match held {
            Held::Active(active) => Some(active),
            Held::Sealed(sealed) => {
                self.put(slot, Hand::of_sealed(sealed));
                None
            }
        }
    }

    // An operation on the snapshot in the slot, with the charge that it needs.
    pub(crate) fn apply(
        &mut self,
        book: &mut Book<N>,
        session: u64,
        slot: u64,
        id: u32,
        op: &Op,
        extra: Usage,
    ) -> Result<Changed, Unapplied>
        requires { Fits (world_of book.old self.old) }
        ensures { Applies (world_of book.old self.old) session slot id op.now extra result (world_of book.new self.new) }
    {
        let place = slot as usize;
        if place < self.list.len() {
            apply_at(&mut self.list[place], book, session, id, op, extra)
        } else {
            Err(Unapplied::NoHand)
        }
    }

    // A hand comes into a free place.
    pub(crate) fn put(&mut self, slot: u64, hand: Hand<N>)
        requires low { slot < length self.old }
        requires free { hand_at slot self.old ≡ None }
        ensures { self.new ≡ with_hand slot (Some hand) self.old }
    {
        let before = mem::replace(&mut self.list[slot as usize], Some(hand));
        let None = before else { unreachable!() };
    }

    // The layer in place of that of the slot's snapshot, where its hand may have it; else it comes back.
    pub(crate) fn put_layer(&mut self, slot: u64, layer: Layer) -> Result<(), Layer>
        ensures ok { OnOk result (self.new ≡ layer_put slot layer self.old) }
        ensures may { OnOk result (MayHave layer (hand_at slot self.old)) }
        ensures back { IfErr result (λ back. back ≡ layer) }
        ensures same { OnErr result (self.new ≡ self.old) }
        ensures lacks { OnErr result (¬ MayHave layer (hand_at slot self.old)) }
    {
        let Some(mut active) = self.take_unsealed(slot) else {
            return Err(layer);
        };
        let outcome = active.put_layer(layer);
        self.put(slot, Hand::of(active));
        outcome
    }

    // All hands are given back to the book.
    pub(crate) fn discard_all(self, book: &mut Book<N>) {
        let Hands { alloc: _, mut list } = self;
        while let Some(place) = list.pop() {
            if let Some(hand) = place {
                book.discard(0, hand.into_held());
            }
        }
        list.destroy_empty();
    }

    // All hands are given back to accounts that have no book yet.
    pub(crate) fn give_back(self, accounts: &mut Accounts<N>)
        requires entries { accounts.old.entries + length self ≤ 2 ^ 63 }
    {
        let Hands { alloc: _, mut list } = self;
        while let Some(place) = list.pop() {
            if let Some(hand) = place {
                hand.into_held().give_back(accounts);
            }
        }
        list.destroy_empty();
    }
}
