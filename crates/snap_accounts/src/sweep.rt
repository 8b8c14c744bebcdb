// A sweep of a namespace.
ghost use Rattle.std.specs.Prelude.{◌≡◌, ◌<◌, ◌^◌, ◌+◌, IfOk, Some};
ghost use Rattle.snap_call.specs.Records.{open_count};
ghost use Rattle.snap_call.specs.State.{place_of};
ghost use Rattle.snap_call.specs.Step.{sweep, sweep_at, swept_at};
ghost use Rattle.snap_accounts.specs.Changes.{CanChange, IsSweepAt, changed_state};
ghost use Rattle.snap_accounts.specs.Entries.{IsInEntry};

use crate::accounts::Accounts;
use crate::change::Change;
use snap_call::{Refusal, Removed, Reply, Sweep};
use snap_ledger::StoreName;
use snap_record::Text;
use snap_usage::{Usage, difference};
use std::alloc::{AllocError, Global};

impl<N: StoreName> Accounts<N> {
    // What a sweep of the namespace at the place takes away, and the reply with it.
    fn sweep_at(
        &self,
        alloc: Global,
        place: usize,
        namespace: &Text,
        moment: u64,
    ) -> Result<(Reply, Change), AllocError>
        requires named { place_of namespace.now self.now.namespaces ≡ Some place }
        ensures reply { IfOk result (λ p. sweep_at self.now namespace.now moment place ≡ (changed_state self.now p.1, p.0)) }
        ensures recorded { IfOk result (λ p. IsInEntry p.0) }
        ensures possible { IfOk result (λ p. CanChange self.now p.1) }
    {
        let state = self.state();
        let Sweep { removed, freed } = state.plan_sweep(alloc, place, namespace.as_str(), moment)?;
        let keys = removed.clone()?;
        let leases = state.leases.ended(namespace.as_str(), moment);
        let namespace = namespace.clone()?;
        let reply = Reply::Swept {
            removed,
            leases,
            freed,
        };
        let change = Change::Sweep {
            place,
            namespace,
            moment,
            keys,
            freed,
        };
        Ok((reply, change))
    }

    // A sweep of the namespace, if the store has it.
    pub(crate) fn plan_sweep(
        &self,
        alloc: Global,
        namespace: &Text,
        moment: u64,
    ) -> Result<(Reply, Change), AllocError>
        ensures reply { IfOk result (λ p. sweep self.now namespace.now moment ≡ (changed_state self.now p.1, p.0)) }
        ensures recorded { IfOk result (λ p. IsInEntry p.0) }
        ensures possible { IfOk result (λ p. CanChange self.now p.1) }
    {
        match self.state.place_of(namespace.as_str()) {
            Some(place) => self.sweep_at(alloc, place, namespace, moment),
            None => Ok((Reply::Refused(Refusal::NoNamespace), Change::Nothing)),
        }
    }

    // The snapshots of the keys go to `removed`, and the leases that have ended go, and the namespace is no longer
    // charged for the snapshots.
    pub(crate) fn sweep(
        &mut self,
        place: usize,
        namespace: &str,
        moment: u64,
        keys: &[Text],
        freed: Usage,
        removed: &mut Removed,
    )
        requires possible { IsSweepAt self.old place namespace.now moment keys.now freed }
        requires entries { self.old.entries < 2 ^ 63 }
        ensures done { self.new ≡ swept_at self.old namespace.now place moment }
        ensures open { open_count self.new.records ≡ open_count self.old.records }
    {
        let rest = difference(self.total(place), freed);
        self.state.records.take_keys(place, keys, removed);
        self.state.leases.drop_ended(namespace, moment);
        self.totals.set(place, rest);
        self.state.entries += 1;
    }
}
