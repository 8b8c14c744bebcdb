// Limits of namespaces, and leases.
ghost use Rattle.std.specs.Prelude.{◌≡◌, ◌<◌, ◌^◌, ◌+◌, ◌++◌, ◌∷◌, [], IfOk, IfErr, IsOk, OnOk, OnErr, Option, ℕ, true, false};
ghost use Rattle.snap_lease.specs.Lease.{empty_lease};
ghost use Rattle.snap_lease.specs.Leases.{has_lease, lease_names, with_name_added, with_name_dropped, without_lease};
ghost use Rattle.snap_call.specs.Forms.{is_key};
ghost use Rattle.snap_call.specs.Records.{open_count};
ghost use Rattle.snap_call.specs.Step.{leasing, refused, spacing};
ghost use Rattle.snap_call.specs.Steps.{lease_add, lease_create, lease_drop, lease_release, set_limit};
ghost use Rattle.snap_call.specs.declared.reply.Reply.TheVariants.{Done};
ghost use Rattle.snap_accounts.specs.Changes.{CanChange, IsLimitFor, IsLeaseName, IsSpace, changed_state};
ghost use Rattle.snap_accounts.specs.Entries.{IsInEntry, IsRecorded};
ghost use Rattle.snap_call.specs.State.{with_limit};

use crate::accounts::Accounts;
use crate::change::Change;
use snap_call::{Namespace, Refusal, Reply, is_committed, is_key, is_limit};
use snap_lease::{LeaseError, LeaseNameError};
use snap_ledger::StoreName;
use snap_record::Text;
use snap_usage::Usage;
use std::alloc::AllocError;

impl<N: StoreName> Accounts<N> {
    // The place of a namespace that can have the limit, or why it can't.
    fn check_limit(&self, namespace: &str, limit: Usage) -> Result<usize, Refusal>
        ensures ok { IfOk result (λ place. set_limit self.now namespace.now limit ≡ (spacing self.now (with_limit place limit self.now.namespaces), Done)) }
        ensures fits { IfOk result (λ place. IsLimitFor self.now place (record { name = namespace.now; limit = limit })) }
        ensures recorded { IfErr result IsRecorded }
        ensures refused { IfErr result (λ why. set_limit self.now namespace.now limit ≡ refused self.now why) }
    {
        if !is_limit(limit) {
            return Err(Refusal::BadArgument);
        }
        let Some(place) = self.state.place_of(namespace) else {
            return Err(Refusal::NoNamespace);
        };
        if !limit.covers(self.total(place)) {
            return Err(Refusal::BelowCharge);
        }
        Ok(place)
    }

    // Another limit of a namespace, or why it stays.
    pub(crate) fn plan_limit(
        &self,
        namespace: &Text,
        limit: Usage,
    ) -> Result<(Reply, Change), AllocError>
        ensures reply { IfOk result (λ p. set_limit self.now namespace.now limit ≡ (changed_state self.now p.1, p.0)) }
        ensures recorded { IfOk result (λ p. IsInEntry p.0) }
        ensures possible { IfOk result (λ p. CanChange self.now p.1) }
    {
        match self.check_limit(namespace.as_str(), limit) {
            Ok(place) => {
                let name = namespace.clone()?;
                let namespace = Namespace { name, limit };
                Ok((Reply::Done, Change::Limit { place, namespace }))
            }
            Err(why) => Ok((Reply::Refused(why), Change::Nothing)),
        }
    }

    // Whether a lease of the name can be made, or why it can't.
    fn check_lease(&self, namespace: &str, lease: &str) -> Result<(), Refusal>
        ensures ok { OnOk result ((until : Option ℕ) → lease_create self.now namespace.now lease.now until ≡ (leasing self.now (self.now.leases ++ empty_lease namespace.now lease.now until ∷ []), Done)) }
        ensures space { OnOk result (IsSpace self.now namespace.now) }
        ensures new { OnOk result (has_lease self.now.leases namespace.now lease.now ≡ false) }
        ensures formed { OnOk result (is_key lease.now ≡ true) }
        ensures recorded { IfErr result IsRecorded }
        ensures refused { IfErr result (λ why. (until : Option ℕ) → lease_create self.now namespace.now lease.now until ≡ refused self.now why) }
    {
        if !is_key(lease) {
            return Err(Refusal::BadArgument);
        }
        if self.state.place_of(namespace).is_none() {
            return Err(Refusal::NoNamespace);
        }
        if self.state.leases.has(namespace, lease) {
            return Err(Refusal::LeaseExists);
        }
        Ok(())
    }

    // One more lease, or why there is none.
    pub(crate) fn plan_lease(
        &self,
        namespace: &Text,
        lease: &Text,
        until: Option<u64>,
    ) -> Result<(Reply, Change), AllocError>
        ensures reply { IfOk result (λ p. lease_create self.now namespace.now lease.now until ≡ (changed_state self.now p.1, p.0)) }
        ensures recorded { IfOk result (λ p. IsInEntry p.0) }
        ensures possible { IfOk result (λ p. CanChange self.now p.1) }
    {
        match self.check_lease(namespace.as_str(), lease.as_str()) {
            Ok(()) => {
                let namespace = namespace.clone()?;
                let lease = lease.clone()?;
                Ok((
                    Reply::Done,
                    Change::Lease {
                        namespace,
                        lease,
                        until,
                    },
                ))
            }
            Err(why) => Ok((Reply::Refused(why), Change::Nothing)),
        }
    }

    // Whether the lease can be given the name, or why it can't.
    fn check_lease_name(&self, namespace: &str, lease: &str, name: &str) -> Result<(), Refusal>
        ensures ok { OnOk result (lease_add self.now namespace.now lease.now name.now ≡ (leasing self.now (with_name_added self.now.leases namespace.now lease.now name.now), Done)) }
        ensures name { OnOk result (IsLeaseName self.now namespace.now lease.now name.now) }
        ensures recorded { IfErr result IsRecorded }
        ensures refused { IfErr result (λ why. lease_add self.now namespace.now lease.now name.now ≡ refused self.now why) }
    {
        if !(is_key(lease) && is_key(name)) {
            return Err(Refusal::BadArgument);
        }
        let Some(place) = self.state.place_of(namespace) else {
            return Err(Refusal::NoNamespace);
        };
        let Some(snapshot) = self.state.records.record_at(place, name) else {
            return Err(Refusal::NotFound);
        };
        if !is_committed(snapshot) {
            return Err(Refusal::NotCommitted);
        }
        if !self.state.leases.has(namespace, lease) {
            return Err(Refusal::NoLease);
        }
        Ok(())
    }

    // One more name in a lease, or why there is none.
    pub(crate) fn plan_lease_name(
        &self,
        namespace: &Text,
        lease: &Text,
        name: &Text,
    ) -> Result<(Reply, Change), AllocError>
        ensures reply { IfOk result (λ p. lease_add self.now namespace.now lease.now name.now ≡ (changed_state self.now p.1, p.0)) }
        ensures recorded { IfOk result (λ p. IsInEntry p.0) }
        ensures possible { IfOk result (λ p. CanChange self.now p.1) }
    {
        match self.check_lease_name(namespace.as_str(), lease.as_str(), name.as_str()) {
            Ok(()) => {
                let namespace = namespace.clone()?;
                let lease = lease.clone()?;
                let name = name.clone()?;
                Ok((
                    Reply::Done,
                    Change::LeaseName {
                        namespace,
                        lease,
                        name,
                    },
                ))
            }
            Err(why) => Ok((Reply::Refused(why), Change::Nothing)),
        }
    }

    // Whether the lease has the name, so that it can lose it, or why it can't.
    fn check_lease_name_end(&self, namespace: &str, lease: &str, name: &str) -> Result<(), Refusal>
        ensures ok { OnOk result (lease_drop self.now namespace.now lease.now name.now ≡ (leasing self.now (with_name_dropped self.now.leases namespace.now lease.now name.now), Done)) }
        ensures named { OnOk result (lease_names self.now.leases namespace.now lease.now name.now ≡ true) }
        ensures recorded { IfErr result IsRecorded }
        ensures refused { IfErr result (λ why. lease_drop self.now namespace.now lease.now name.now ≡ refused self.now why) }
    {
        if !(is_key(lease) && is_key(name)) {
            return Err(Refusal::BadArgument);
        }
        if self.state.place_of(namespace).is_none() {
            return Err(Refusal::NoNamespace);
        }
        match self.state.leases.find_name(namespace, lease, name) {
            Ok(()) => Ok(()),
            Err(LeaseNameError::NoLease) => Err(Refusal::NoLease),
            Err(LeaseNameError::NoName) => Err(Refusal::NotFound),
        }
    }

    // One name fewer in a lease, or why it stays.
    pub(crate) fn plan_lease_name_end(
        &self,
        namespace: &Text,
        lease: &Text,
        name: &Text,
    ) -> Result<(Reply, Change), AllocError>
        ensures reply { IfOk result (λ p. lease_drop self.now namespace.now lease.now name.now ≡ (changed_state self.now p.1, p.0)) }
        ensures recorded { IfOk result (λ p. IsInEntry p.0) }
        ensures possible { IfOk result (λ p. CanChange self.now p.1) }
    {
        match self.check_lease_name_end(namespace.as_str(), lease.as_str(), name.as_str()) {
            Ok(()) => {
                let namespace = namespace.clone()?;
                let lease = lease.clone()?;
                let name = name.clone()?;
                Ok((
                    Reply::Done,
                    Change::LeaseNameEnd {
                        namespace,
                        lease,
                        name,
                    },
                ))
            }
            Err(why) => Ok((Reply::Refused(why), Change::Nothing)),
        }
    }

    // Whether the namespace has the lease, so that it can go, or why it can't.
    fn check_lease_end(&self, namespace: &str, lease: &str) -> Result<(), Refusal>
        ensures ok { OnOk result (lease_release self.now namespace.now lease.now ≡ (leasing self.now (without_lease self.now.leases namespace.now lease.now), Done)) }
        ensures there { OnOk result (has_lease self.now.leases namespace.now lease.now ≡ true) }
        ensures recorded { IfErr result IsRecorded }
        ensures refused { IfErr result (λ why. lease_release self.now namespace.now lease.now ≡ refused self.now why) }
    {
        if !is_key(lease) {
            return Err(Refusal::BadArgument);
        }
        if self.state.place_of(namespace).is_none() {
            return Err(Refusal::NoNamespace);
        }
        if !self.state.leases.has(namespace, lease) {
            return Err(Refusal::NoLease);
        }
        Ok(())
    }

    // One lease fewer, or why it stays.
    pub(crate) fn plan_lease_end(
        &self,
        namespace: &Text,
        lease: &Text,
    ) -> Result<(Reply, Change), AllocError>
        ensures reply { IfOk result (λ p. lease_release self.now namespace.now lease.now ≡ (changed_state self.now p.1, p.0)) }
        ensures recorded { IfOk result (λ p. IsInEntry p.0) }
        ensures possible { IfOk result (λ p. CanChange self.now p.1) }
    {
        match self.check_lease_end(namespace.as_str(), lease.as_str()) {
            Ok(()) => {
                let namespace = namespace.clone()?;
                let lease = lease.clone()?;
                Ok((Reply::Done, Change::LeaseEnd { namespace, lease }))
            }
            Err(why) => Ok((Reply::Refused(why), Change::Nothing)),
        }
    }

    // The namespace has another limit.
    pub(crate) fn limit(&mut self, place: usize, namespace: Namespace)
        requires possible { IsLimitFor self.old place namespace }
        requires entries { self.old.entries < 2 ^ 63 }
        ensures done { self.new ≡ spacing self.old (with_limit place namespace.limit self.old.namespaces) }
        ensures open { open_count self.new.records ≡ open_count self.old.records }
    {
        self.state.set_limit(place, namespace);
        self.state.entries += 1;
    }

    // There is one more lease.
    pub(crate) fn add_lease(
        &mut self,
        namespace: &str,
        lease: &str,
        until: Option<u64>,
    ) -> Result<(), AllocError>
        requires space { IsSpace self.old namespace.now }
        requires new { has_lease self.old.leases namespace.now lease.now ≡ false }
        requires formed { is_key lease.now ≡ true }
        requires entries { self.old.entries < 2 ^ 63 }
        ensures done { OnOk result (self.new ≡ leasing self.old (self.old.leases ++ empty_lease namespace.now lease.now until ∷ [])) }
        ensures open { OnOk result (open_count self.new.records ≡ open_count self.old.records) }
        ensures err { OnErr result (self.new ≡ self.old) }
    {
        match self.state.leases.create(namespace, lease, until) {
            Ok(()) => {
                self.state.entries += 1;
                Ok(())
            }
            Err(LeaseError::OutOfMemory(no_memory)) => Err(no_memory.into()),
            Err(LeaseError::NoLease | LeaseError::LeaseExists) => unreachable!(),
        }
    }

    // The lease has one more name.
    pub(crate) fn add_lease_name(
        &mut self,
        namespace: &str,
        lease: &str,
        name: &str,
    ) -> Result<(), AllocError>
        requires name { IsLeaseName self.old namespace.now lease.now name.now }
        requires entries { self.old.entries < 2 ^ 63 }
        ensures done { OnOk result (self.new ≡ leasing self.old (with_name_added self.old.leases namespace.now lease.now name.now)) }
        ensures open { OnOk result (open_count self.new.records ≡ open_count self.old.records) }
        ensures sure { lease_names self.old.leases namespace.now lease.now name.now ≡ true → IsOk result }
        ensures err { OnErr result (self.new ≡ self.old) }
    {
        match self.state.leases.add(namespace, lease, name) {
            Ok(()) => {
                self.state.entries += 1;
                Ok(())
            }
            Err(LeaseError::OutOfMemory(no_memory)) => Err(no_memory.into()),
            Err(LeaseError::NoLease | LeaseError::LeaseExists) => unreachable!(),
        }
    }

    // The lease has one name fewer.
    pub(crate) fn end_lease_name(&mut self, namespace: &str, lease: &str, name: &str)
        requires named { lease_names self.old.leases namespace.now lease.now name.now ≡ true }
        requires entries { self.old.entries < 2 ^ 63 }
        ensures done { self.new ≡ leasing self.old (with_name_dropped self.old.leases namespace.now lease.now name.now) }
        ensures open { open_count self.new.records ≡ open_count self.old.records }
    {
        let _ = self.state.leases.drop_name(namespace, lease, name);
        self.state.entries += 1;
    }

    // There is one lease fewer.
    pub(crate) fn end_lease(&mut self, namespace: &str, lease: &str)
        requires there { has_lease self.old.leases namespace.now lease.now ≡ true }
        requires entries { self.old.entries < 2 ^ 63 }
        ensures done { self.new ≡ leasing self.old (without_lease self.old.leases namespace.now lease.now) }
        ensures open { open_count self.new.records ≡ open_count self.old.records }
    {
        let _ = self.state.leases.release(namespace, lease);
        self.state.entries += 1;
    }
}
