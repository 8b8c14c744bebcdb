// A saved lease put back.
ghost use Rattle.std.specs.Prelude.{◌≡◌, ◌⊎◌, [], true, false, Some, IfOk, OnOk, OnErr, IfErr, Ok, Err};
ghost use Rattle.snap_path.specs.Memory.{no_memory};
ghost use Rattle.snap_lease.specs.Leases.{has_lease};
ghost use Rattle.snap_call.specs.Forms.{is_key};
ghost use Rattle.snap_call.specs.Good.{Good};
ghost use Rattle.snap_call.specs.SavedLeases.{lease_of, lease_place, name_answer, put_lease, put_leases, put_lease_name, put_lease_names, with_empty_lease, with_leases};
ghost use Rattle.snap_call.specs.State.{place_of};
ghost use Rattle.snap_call.specs.declared.refusal.Refusal.TheVariants.{OutOfMemory};
ghost use Rattle.snap_call.specs.declared.state.State.{State};
ghost use Rattle.snap_accounts.specs.Saved.{HasLeaseAt};

use crate::accounts::Accounts;
use snap_call::{Refusal, SavedLease, is_key};
use snap_lease::LeaseError;
use snap_ledger::StoreName;
use std::alloc::AllocError;

impl<N: StoreName> Accounts<N> {
    // The place of its namespace, or the first refusal of the lease.
    fn lease_place(&self, lease: &SavedLease) -> Result<usize, Refusal>
        ensures answer { result ≡ lease_place self.now (lease_of lease.now) }
        ensures named { IfOk result (λ place. place_of lease.now.namespace self.now.namespaces ≡ Some place) }
        ensures formed { OnOk result (is_key lease.now.name ≡ true) }
        ensures new { OnOk result (has_lease self.now.leases lease.now.namespace lease.now.name ≡ false) }
    {
        let (namespace, name) = (lease.namespace.as_str(), lease.name.as_str());
        if !is_key(name) {
            return Err(Refusal::BadArgument);
        }
        let Some(place) = self.state.place_of(namespace) else {
            return Err(Refusal::NoNamespace);
        };
        if self.state.leases.has(namespace, name) {
            return Err(Refusal::LeaseExists);
        }
        Ok(place)
    }

    // The name is a committed snapshot's of the namespace at the place, and the lease doesn't have it yet.
    fn check_name(&self, place: usize, lease: &SavedLease, name: &str) -> Result<(), Refusal>
        ensures answer { result ≡ name_answer self.now place (lease_of lease.now) name.now }
    {
        let records = &self.state.records;
        if !records.has_key(place, name) {
            return Err(Refusal::NotFound);
        }
        if records.committed_at(place, name).is_none() {
            return Err(Refusal::NotCommitted);
        }
        let (namespace, lease) = (lease.namespace.as_str(), lease.name.as_str());
        match self.state.leases.find_name(namespace, lease, name) {
            Ok(()) => Err(Refusal::BadArgument),
            Err(_) => Ok(()),
        }
    }

    // The lease is one more, and has no name yet.
    fn put_unnamed(&mut self, place: usize, lease: &SavedLease) -> Result<(), AllocError>
        requires named { place_of lease.now.namespace self.old.namespaces ≡ Some place }
        requires formed { is_key lease.now.name ≡ true }
        requires new { has_lease self.old.leases lease.now.namespace lease.now.name ≡ false }
        ensures done { OnOk result (self.new ≡ with_leases self.old (with_empty_lease self.old.leases (lease_of lease.now))) }
        ensures there { OnOk result (HasLeaseAt self.new place (lease_of lease.now)) }
        ensures err { OnErr result (self.new ≡ self.old) }
    {
        let (namespace, name) = (lease.namespace.as_str(), lease.name.as_str());
        match self.state.leases.create(namespace, name, lease.until) {
            Ok(()) => Ok(()),
            Err(LeaseError::OutOfMemory(no_memory)) => Err(no_memory.into()),
            Err(LeaseError::NoLease | LeaseError::LeaseExists) => unreachable!(),
        }
    }

    // The lease has one name more.
    fn add_name(&mut self, place: usize, lease: &SavedLease, name: &str) -> Result<(), AllocError>
        requires there { HasLeaseAt self.old place (lease_of lease.now) }
        requires possible { name_answer self.old place (lease_of lease.now) name.now ≡ Ok tt }
        ensures done { OnOk result (put_lease_name self.old place (lease_of lease.now) name.now ≡ Ok self.new) }
        ensures there { OnOk result (HasLeaseAt self.new place (lease_of lease.now)) }
        ensures err { OnErr result (self.new ≡ self.old) }
    {
        let (namespace, lease) = (lease.namespace.as_str(), lease.name.as_str());
        match self.state.leases.add(namespace, lease, name) {
            Ok(()) => Ok(()),
            Err(LeaseError::OutOfMemory(no_memory)) => Err(no_memory.into()),
            Err(LeaseError::NoLease | LeaseError::LeaseExists) => unreachable!(),
        }
    }

    // The lease has one name more, where it can have it.
    fn put_name(&mut self, place: usize, lease: &SavedLease, name: &str) -> Result<(), Refusal>
        requires there { HasLeaseAt self.old place (lease_of lease.now) }
        ensures ok { OnOk result (put_lease_name self.old place (lease_of lease.now) name.now ≡ Ok self.new) }
        ensures there { OnOk result (HasLeaseAt self.new place (lease_of lease.now)) }
        ensures refused { IfErr result (λ why. (put_lease_name self.old place (lease_of lease.now) name.now ≡ Err why) ⊎ (why ≡ OutOfMemory no_memory)) }
        ensures rest { self.new ≡ with_leases self.old self.new.leases }
    {
        self.check_name(place, lease, name)?;
        self.add_name(place, lease, name)?;
        Ok(())
    }

    // The lease has all its names, one after another.
    fn put_names(&mut self, place: usize, lease: &SavedLease) -> Result<(), Refusal>
        requires there { HasLeaseAt self.old place (lease_of lease.now) }
        ensures ok { OnOk result (put_lease_names self.old place (lease_of lease.now) lease.now.names ≡ Ok self.new) }
        ensures refused { IfErr result (λ why. (put_lease_names self.old place (lease_of lease.now) lease.now.names ≡ Err why) ⊎ (why ≡ OutOfMemory no_memory)) }
        ensures rest { self.new ≡ with_leases self.old self.new.leases }
    {
        for name in lease.names.as_slice() {
            self.put_name(place, lease, name.as_str())?;
        }
        Ok(())
    }

    /// Puts a saved lease back, as the last one of all, and counts no entry. The snapshots that it names have to
    /// be there.
    ///
    /// The refusals, in this order: `BadArgument` for a name of the lease that is malformed; `NoNamespace`;
    /// `LeaseExists`; then for each of its names, one after another, `NotFound` where the namespace has no snapshot
    /// of the name, `NotCommitted` where that one is not committed, `BadArgument` where the lease has the name
    /// already. `OutOfMemory` where memory is refused, which it takes for copies of the texts, for the lease's
    /// place and number, and for each name's place and count. After an error the lease may be there with a part of
    /// its names; nothing else is changed.
    ///
    /// The cost grows with the logarithm of the number of leases, and for each name with the logarithms of the
    /// numbers of records, of leases, and of names that the namespace's leases have.
    pub fn put_lease(&mut self, lease: &SavedLease) -> Result<(), Refusal>
        ensures ok { OnOk result (put_lease self.old (lease_of lease.now) ≡ Ok self.new) }
        ensures refused { IfErr result (λ why. (put_lease self.old (lease_of lease.now) ≡ Err why) ⊎ (why ≡ OutOfMemory no_memory)) }
        // Nothing but the leases changes, whatever it answers.
        ensures rest { self.new ≡ with_leases self.old self.new.leases }
        // All leases of a good state, put back one after another into the state without them, give it again.
        ensures back { (s : State) → Good s → put_leases (with_leases s []) s.leases ≡ Ok s }
    {
        let place = self.lease_place(lease)?;
        self.put_unnamed(place, lease)?;
        self.put_names(place, lease)
    }
}
