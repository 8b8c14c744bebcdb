// What the open snapshots of a namespace are charged, entry by entry.
ghost use Rattle.std.specs.Prelude.{◌≡◌, IfOk, length};
ghost use Rattle.snap_history.specs.Changes.{change_of, is_own, named_shares, no_shares, recharged_to, share_of_slot, shares_after, slot_shares, with_share};

use crate::change::{Change, ONE, named_change, slot_change};
use crate::target::{namespace_in, slot_in};
use snap_call::{Call, Entry, Given, Reply};
use snap_usage::Usage;
use std::alloc::{AllocError, Global};
use std::marker::Model;

/// What the open snapshots of one namespace are charged, in a place for each slot of the store.
///
/// Contracts see the list of the places.
#[derive(Drop)]
pub struct Shares {
    pub(crate) list: Vec<Option<Usage>>,
}

impl Model for Shares {
    ghost use Rattle.std.specs.Prelude.{List, Option};
    ghost use Rattle.snap_usage.specs.declared.usage.Usage.{Usage};

    ghost Value = { List (Option Usage) };

    ghost view = { λ s. s.list.items };
}

impl Shares {
    /// Those of a namespace without open snapshots, in a store with `slots` slots. Takes memory for a place for each.
    pub fn none(alloc: Global, slots: u64) -> Result<Shares, AllocError>
        ensures { IfOk result (λ shares. shares ≡ no_shares slots) }
    {
        let mut list = Vec::with_capacity(alloc, slots as usize)?;
        for _ in 0..slots {
            list.push_reserved(None);
        }
        Ok(Shares { list })
    }

    // The same once more.
    pub(crate) fn again(&self, alloc: Global) -> Result<Shares, AllocError>
        ensures { IfOk result (λ shares. shares ≡ self.now) }
    {
        let mut list = Vec::new(alloc);
        list.extend_from_slice(&self.list)?;
        Ok(Shares { list })
    }

    // How many places there are.
    pub(crate) fn slots(&self) -> u64
        ensures { result ≡ length self.now }
    {
        self.list.len() as u64
    }

    // What the namespace's open snapshot in the slot is charged.
    fn get(&self, slot: u64) -> Option<Usage>
        ensures { result ≡ share_of_slot slot self.now }
    {
        match self.list.get(slot as usize) {
            Some(share) => *share,
            None => None,
        }
    }

    fn set(&mut self, slot: u64, share: Option<Usage>)
        ensures { self.new ≡ with_share slot share self.old }
    {
        let place = slot as usize;
        if place < self.list.len() {
            self.list[place] = share;
        }
    }

    // The share of the slot becomes another amount, where there is one.
    fn recharge(&mut self, slot: u64, now: Usage)
        ensures { self.new ≡ recharged_to slot now self.old }
    {
        let share = match self.get(slot) {
            Some(_) => Some(now),
            None => None,
        };
        self.set(slot, share);
    }

    fn follow_named(&mut self, own: bool, reply: &Reply)
        ensures { self.new ≡ named_shares own self.old reply.now }
    {
        match reply {
            Reply::Prepared { slot, .. } => {
                let share = if own { Some(ONE) } else { None };
                self.set(*slot, share);
            }
            _ => {}
        }
    }

    fn follow_slot(&mut self, reply: &Reply, given: &Given, slot: u64)
        ensures { self.new ≡ slot_shares reply.now given.now slot self.old }
    {
        match reply {
            Reply::Charged { now } => self.recharge(slot, *now),
            Reply::Trimmed => match given {
                Given::Count(now) => self.recharge(slot, *now),
                _ => {}
            },
            Reply::Committed { .. } => self.set(slot, None),
            Reply::Discarded(_) => self.set(slot, None),
            _ => {}
        }
    }

    // The shares after the entry.
    #[tactic(auto, unfolding(crate::specs::Changes::shares_after))]
    pub(crate) fn follow(&mut self, name: &str, entry: &Entry)
        ensures { self.new ≡ shares_after name.now self.old entry.now }
    {
        match namespace_in(&entry.call) {
            Some(namespace) => self.follow_named(namespace.as_str() == name, &entry.reply),
            None => match slot_in(&entry.call) {
                Some(slot) => self.follow_slot(&entry.reply, &entry.given, slot),
                None => {}
            },
        }
    }

    // What the entry makes of the charge.
    #[tactic(auto, unfolding(crate::specs::Changes::change_of))]
    pub(crate) fn change_of(&self, name: &str, entry: &Entry) -> Change
        ensures { result ≡ change_of name.now self.now entry.now }
    {
        match namespace_in(&entry.call) {
            Some(namespace) => named_change(namespace.as_str() == name, &entry.reply),
            None => match slot_in(&entry.call) {
                Some(slot) => slot_change(&entry.reply, &entry.given, self.get(slot)),
                None => Change::NONE,
            },
        }
    }

    // The call is one of the namespace.
    #[tactic(auto, unfolding(crate::specs::Changes::is_own))]
    pub(crate) fn is_own(&self, name: &str, call: &Call) -> bool
        ensures { result ≡ is_own name.now self.now call.now }
    {
        match namespace_in(call) {
            Some(namespace) => namespace.as_str() == name,
            None => match slot_in(call) {
                Some(slot) => self.get(slot).is_some(),
                None => false,
            },
        }
    }
}
