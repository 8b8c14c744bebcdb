// What a namespace may take and what it takes.
ghost use Rattle.std.specs.Prelude.{◌≡◌, ◌<◌, ◌^◌, IfOk, length};
ghost use Rattle.snap_call.specs.Questions.{reply_to};
ghost use Rattle.snap_call.specs.Step.{sweep};
ghost use Rattle.snap_book.specs.Questions.{chain_usage};
ghost use Rattle.snap_world.specs.Quota.{quota, quota_at};
ghost use Rattle.snap_world.specs.Sums.{added_by, share_in, spare_in, hand_sum_below};
ghost use Rattle.snap_world.specs.World.{hand_at};

use crate::hands::Hands;
use crate::world::World;
use snap_call::{Question, Refusal, Reply};
use snap_ledger::StoreName;
use snap_usage::{Usage, difference};
use std::alloc::AllocError;

/// What a namespace may take and what it takes, in blocks of 4096 bytes and inodes.
#[derive(Clone, Copy, Debug, PartialEq, Eq)]
pub struct Quota {
    pub limit: Usage,
    /// What is charged: what is committed and what is active.
    pub charged: Usage,
    /// What the committed snapshots are charged, the counts over their layers.
    pub committed: Usage,
    /// What the active snapshots are charged, their shares.
    pub active: Usage,
    /// What of these shares the layers don't take.
    pub spare: Usage,
    /// What can still be charged: the limit less the charge.
    pub free: Usage,
}

impl<N: StoreName> Hands<N> {
    // What the slot's hand adds to the sum of the namespace's shares.
    fn share_in(&self, slot: u64, place: usize) -> Usage
        ensures { result ≡ added_by share_in place (hand_at slot self.now) }
    {
        match self.get(slot) {
            Some(hand) if hand.namespace() == place => hand.share(),
            _ => Usage::ZERO,
        }
    }

    // What it adds to the sum of what is spare.
    fn spare_in(&self, slot: u64, place: usize) -> Usage
        ensures { result ≡ added_by spare_in place (hand_at slot self.now) }
    {
        match self.get(slot) {
            Some(hand) if hand.namespace() == place => hand.spare(),
            _ => Usage::ZERO,
        }
    }

    // The shares of the open snapshots of the namespace at the place.
    fn shares(&self, place: usize) -> Usage
        requires blocks { (hand_sum_below share_in place self.now (length self.now)).blocks < 2 ^ 64 }
        requires inodes { (hand_sum_below share_in place self.now (length self.now)).inodes < 2 ^ 64 }
        ensures { result ≡ hand_sum_below share_in place self.now (length self.now) }
    {
        let mut sum = Usage::ZERO;
        for slot in 0..self.len() {
            sum = sum.plus(self.share_in(slot, place));
        }
        sum
    }

    // What of these their layers don't take.
    fn spares(&self, place: usize) -> Usage
        requires blocks { (hand_sum_below spare_in place self.now (length self.now)).blocks < 2 ^ 64 }
        requires inodes { (hand_sum_below spare_in place self.now (length self.now)).inodes < 2 ^ 64 }
        ensures { result ≡ hand_sum_below spare_in place self.now (length self.now) }
    {
        let mut sum = Usage::ZERO;
        for slot in 0..self.len() {
            sum = sum.plus(self.spare_in(slot, place));
        }
        sum
    }
}

impl<N: StoreName> World<N> {
    // The quota of the namespace at a place.
    fn quota_at(&self, place: usize) -> Quota
        requires { place < length self.now.state.namespaces }
        ensures { result ≡ quota_at self.now place }
    {
        let limit = self.book.state().limit_at(place);
        let charged = self.book.total_at(place);
        let active = self.hands.shares(place);
        let spare = self.hands.spares(place);
        let committed = difference(charged, active);
        let free = difference(limit, charged);
        Quota {
            limit,
            charged,
            committed,
            active,
            spare,
            free,
        }
    }

    /// What the namespace may take and what it takes. `None` where the store has no such namespace. It leaves no
    /// entry. Takes no memory. The cost grows with the logarithm of the number of namespaces, and goes over the slots.
    pub fn quota(&self, namespace: &str) -> Option<Quota>
        ensures { result ≡ quota self.now namespace.now }
    {
        match self.book.state().place_of(namespace) {
            Some(place) => Some(self.quota_at(place)),
            None => None,
        }
    }

    /// What the snapshot of this key is charged together with its committed ancestors, as
    /// [`Book::chain_usage`](snap_book::Book::chain_usage) answers it, with its refusals and its cost.
    pub fn chain_usage(&self, namespace: &str, key: &str) -> Result<Usage, Refusal>
        ensures { result ≡ chain_usage self.now.state namespace.now key.now }
    {
        self.book.chain_usage(namespace, key)
    }

    /// The reply of a sweep that takes nothing, as [`Book::plan_sweep`](snap_book::Book::plan_sweep) answers it,
    /// with its cost and its memory.
    pub fn plan_sweep(&self, namespace: &str, moment: u64) -> Result<Reply, AllocError>
        ensures { IfOk result (λ reply. reply ≡ (sweep self.now.state namespace.now moment).1) }
    {
        self.book.plan_sweep(namespace, moment)
    }

    /// What the call that asks the same would reply, as [`Book::answer`](snap_book::Book::answer) answers it, with its
    /// cost and its memory. No step is made.
    pub fn answer(&self, question: &Question) -> Result<Reply, AllocError>
        ensures { IfOk result (λ reply. reply ≡ reply_to self.now.state question.now) }
    {
        self.book.answer(question)
    }
}
