//! The leases of all namespaces.
ghost use Rattle.std.specs.Prelude.{◌≡◌, ◌≢◌, ◌↔◌, ◌<◌, ◌≤◌, ◌^◌, ℕ, List, [], ◌∷◌, ◌++◌, map, false, count_by, string_bytes, Some, IsTrue, IsOk, IfOk, OnOk, OnErr, IsErrOf, IsOkUnless};
ghost use Rattle.std.specs.List.{AllByRecursion};
ghost use Rattle.std.specs.Map.{keys_of, values_of};
ghost use Rattle.snap_path.specs.Memory.{no_memory};
ghost use Rattle.snap_lease.specs.Lease.{empty_lease, NamesOnce};
ghost use Rattle.snap_lease.specs.Leases.{AreDistinct, has_lease, has_leases, names_in_lease, lease_names, naming_count, is_guarded, is_guarded_at, has_ended, with_name_added, with_name_dropped, without_lease, without_ended, CountsAdded, CountsDropped, CountsReleased, CountsLive};
ghost use Rattle.snap_lease.specs.Index.{AreUncounted};
ghost use Rattle.snap_lease.specs.Live.{is_among};
ghost use Rattle.snap_lease.specs.Numbers.{AreUnnumbered, next_number};

use crate::entry::LeaseEntry;
use crate::live::LiveNames;
use crate::numbers::LeaseNumbers;
use crate::{LeaseError, LeaseNameError};
use snap_counts::NamespaceCounts;
use snap_path::NoMemory;
use std::alloc::{AllocError, Global};
use std::collections::BTreeMap;
use std::marker::Model;

/// The leases of all namespaces.
///
/// Contracts see them as a list of records, in the order in which the leases were created; a release and a sweep leave the
/// others in their order. The names of a lease are in the order in which they were added, each once; one that is dropped
/// leaves the others in their order. No two leases of one namespace have the same name. Beside them stand the number of
/// each lease by its namespace and name, so a lease is found without passing over others, and how many leases of each
/// namespace name a snapshot, so [`Leases::holds`] and [`Leases::count`] pass over no lease.
#[derive(Drop)]
pub struct Leases {
    pub(crate) alloc: Global,
    pub(crate) list: BTreeMap<usize, LeaseEntry>,
    pub(crate) numbers: LeaseNumbers,
    counts: NamespaceCounts,
}

impl Model for Leases {
    ghost use Rattle.std.specs.Prelude.{List};
    ghost use Rattle.std.specs.BTreeMap.{IsOrdered};
    ghost use Rattle.std.specs.List.{AllByRecursion};
    ghost use Rattle.std.specs.Map.{values_of};
    ghost use Rattle.std.specs.Ordering.{nat_cmp};
    ghost use Rattle.snap_lease.specs.Lease.{Lease, NamesOnce};
    ghost use Rattle.snap_lease.specs.Leases.{AreDistinct};
    ghost use Rattle.snap_lease.specs.Index.{AreNameCounts};
    ghost use Rattle.snap_lease.specs.Numbers.{AreNumbers};

    ghost Value = { List Lease };

    ghost view = { λ a. values_of a.list.entries };

    ghost invariant = { λ a. AreDistinct (values_of a.list.entries) × AllByRecursion NamesOnce (values_of a.list.entries) × AreNameCounts (values_of a.list.entries) a.counts × AreNumbers a.list.entries a.numbers × IsOrdered nat_cmp a.list };
}

impl Leases {
    /// No leases. Takes no memory.
    pub fn new(alloc: Global) -> Leases
        ensures { result ≡ [] }
    {
        Leases {
            alloc,
            list: BTreeMap::new(alloc),
            numbers: LeaseNumbers::new(alloc),
            counts: NamespaceCounts::new(alloc),
        }
    }

    /// Whether the namespace has a lease of this name, live or ended.
    ///
    /// Takes no memory. Its cost grows with the logarithm of the number of leases.
    pub fn has(&self, namespace: &str, lease: &str) -> bool
        ensures { result ≡ has_lease self.now namespace.now lease.now }
    {
        self.numbers.get(namespace, lease).is_some()
    }

    /// Whether the namespace has a lease, live or ended.
    ///
    /// Takes no memory. Its cost grows with the logarithm of the number of namespaces that have leases.
    pub fn has_any(&self, namespace: &str) -> bool
        ensures { result ≡ has_leases self.now namespace.now }
    {
        self.numbers.has_any(namespace)
    }

    /// Makes a lease that names nothing, with a last moment or none, as containerd's `leases.Manager.Create` does.
    ///
    /// `LeaseExists` where the namespace has a lease of this name, live or ended. `OutOfMemory` where memory is refused, which
    /// it takes for two copies of the name and one of the namespace's, one more for its first lease, and for the places of
    /// the lease and of its number; and where no number is left above the last lease's. After either the leases are as they
    /// were. Its cost grows with the logarithm of the number of leases.
    pub fn create(
        &mut self,
        namespace: &str,
        lease: &str,
        until: Option<u64>,
    ) -> Result<(), LeaseError>
        // The lease is the last one. What is named how often stays.
        ensures ok { OnOk result (self.new ≡ self.old ++ empty_lease namespace.now lease.now until ∷ []) }
        ensures counts { (space name : List ℕ) → naming_count self.new space name ≡ naming_count self.old space name }

        // The one refusal other than want of memory comes exactly where the lease is there already.
        ensures exists { IsErrOf result LeaseError.LeaseExists ↔ IsTrue (has_lease self.old namespace.now lease.now) }
        ensures no_lease { result ≢ Err LeaseError.NoLease }
        ensures err { OnErr result (self.new ≡ self.old) }
    {
        if self.has(namespace, lease) {
            return Err(LeaseError::LeaseExists);
        }
        let number = next_number(&self.list)?;
        let entry = LeaseEntry::new(self.alloc, namespace, lease, until)?;
        self.numbers.put(namespace, lease, number)?;
        let Err(refused) = self.list.insert(number, entry) else {
            return Ok(());
        };
        self.numbers.take(namespace, lease);
        Err(refused.into())
    }

    /// Names the snapshot in the lease too, as its last name. A name that is there already changes nothing.
    ///
    /// `NoLease` where the namespace has no lease of this name. `OutOfMemory` where memory is refused, which it takes for copies
    /// of the text, for a place in the set and for the count of the name, and not for a name that is there already. After
    /// either the leases are as they were. Its cost grows with the logarithms of the number of leases and of the number of
    /// names that the namespace's leases have.
    pub fn add(&mut self, namespace: &str, lease: &str, name: &str) -> Result<(), LeaseError>
        // The lease has the name, once, and every other lease stays.
        ensures ok { OnOk result (self.new ≡ with_name_added self.old namespace.now lease.now name.now) }
        ensures counts { OnOk result (CountsAdded self.old self.new namespace.now lease.now name.now) }

        // Without the lease it is refused. Want of memory comes only for a name that is new.
        ensures no_lease { IsErrOf result LeaseError.NoLease ↔ (has_lease self.old namespace.now lease.now ≡ false) }
        ensures memory { IsErrOf result (LeaseError.OutOfMemory no_memory) → lease_names self.old namespace.now lease.now name.now ≡ false }
        ensures exists { result ≢ Err LeaseError.LeaseExists }
        ensures err { OnErr result (self.new ≡ self.old) }
    {
        let Some(number) = self.numbers.get(namespace, lease) else {
            return Err(LeaseError::NoLease);
        };
        // A count has room for one more.
        prove!(self.list.len() < usize::MAX);
        let Some(entry) = self.list.get_mut(&number) else {
            unreachable!()
        };
        entry.add(self.alloc, name, &mut self.counts)?;
        Ok(())
    }

    /// Whether the lease names the snapshot, live or ended: Ok where it does.
    ///
    /// `NoLease` where the namespace has no lease of this name, `NoName` where the lease doesn't name the snapshot. Takes no
    /// memory. Its cost grows with the logarithm of the number of leases.
    pub fn find_name(&self, namespace: &str, lease: &str, name: &str) -> Result<(), LeaseNameError>
        ensures named { IsOk result ↔ IsTrue (lease_names self.now namespace.now lease.now name.now) }
        ensures no_lease { IsErrOf result LeaseNameError.NoLease ↔ (has_lease self.now namespace.now lease.now ≡ false) }
    {
        let Some(number) = self.numbers.get(namespace, lease) else {
            return Err(LeaseNameError::NoLease);
        };
        if self.list[&number].does_name(name) {
            Ok(())
        } else {
            Err(LeaseNameError::NoName)
        }
    }

    /// Takes the name out of the lease, as containerd's `leases.Manager.DeleteResource` does. The lease's other names keep their
    /// order, and the lease stays, also without a name.
    ///
    /// `NoLease` where the namespace has no lease of this name, `NoName` where the lease doesn't name the snapshot; after
    /// either the leases are as they were. Takes no memory. Its cost grows with the number of the lease's names, and with the
    /// logarithms of the number of leases and of the number of names that the namespace's leases have.
    pub fn drop_name(
        &mut self,
        namespace: &str,
        lease: &str,
        name: &str,
    ) -> Result<(), LeaseNameError>
        // The lease has every other name, and every other lease stays.
        ensures ok { OnOk result (self.new ≡ with_name_dropped self.old namespace.now lease.now name.now) }
        ensures counts { OnOk result (CountsDropped self.old self.new namespace.now name.now) }

        // It is refused exactly where no lease of this name has the name, with `NoLease` exactly where there is no such lease.
        ensures named { IsOk result ↔ IsTrue (lease_names self.old namespace.now lease.now name.now) }
        ensures no_lease { IsErrOf result LeaseNameError.NoLease ↔ (has_lease self.old namespace.now lease.now ≡ false) }
        ensures err { OnErr result (self.new ≡ self.old) }
    {
        let Some(number) = self.numbers.get(namespace, lease) else {
            return Err(LeaseNameError::NoLease);
        };
        let Some(entry) = self.list.get_mut(&number) else {
            unreachable!()
        };
        if entry.drop_name(name, &mut self.counts) {
            Ok(())
        } else {
            Err(LeaseNameError::NoName)
        }
    }

    /// Takes the lease away with its names, as containerd's `leases.Manager.Delete` does.
    ///
    /// `NoLease`, and nothing changed, where the namespace has no lease of this name. Takes no memory. Its cost grows with the
    /// logarithm of the number of leases, and for each name of the lease with the logarithm of the number of names that the
    /// namespace's leases have.
    pub fn release(&mut self, namespace: &str, lease: &str) -> Result<(), LeaseError>
        // The others stay as they are, in their order.
        ensures ok { OnOk result (self.new ≡ without_lease self.old namespace.now lease.now) }
        ensures counts { OnOk result (CountsReleased self.old self.new namespace.now lease.now) }

        // The only refusal comes exactly where there is no such lease.
        ensures no_lease { IsErrOf result LeaseError.NoLease ↔ (has_lease self.old namespace.now lease.now ≡ false) }
        ensures only { IsOkUnless result LeaseError.NoLease }
        ensures err { OnErr result (self.new ≡ self.old) }
    {
        let Some(number) = self.numbers.get(namespace, lease) else {
            return Err(LeaseError::NoLease);
        };
        self.list[&number].take_counts(&mut self.counts);
        self.numbers.take(namespace, lease);
        drop(self.list.remove(&number));
        Ok(())
    }

    /// Whether a lease of the namespace names the snapshot, live or ended. Takes no memory, and costs what `count` does.
    pub fn holds(&self, namespace: &str, name: &str) -> bool
        ensures value { result ≡ is_guarded self.now namespace.now name.now }
        ensures count { IsTrue result ↔ (0 < naming_count self.now namespace.now name.now) }
    {
        self.count(namespace, name) > 0
    }

    /// A copy of the names of the lease, in the order in which they were added, as containerd's
    /// `leases.Manager.ListResources` gives them.
    ///
    /// `NoLease` where the namespace has no lease of this name. `OutOfMemory` where memory is refused, which it takes for the
    /// copy. Its cost grows with the logarithm of the number of leases, and with the length of the names.
    pub fn of(&self, namespace: &str, lease: &str) -> Result<Vec<String>, LeaseError>
        ensures ok { IfOk result (λ v. names_in_lease self.now namespace.now lease.now ≡ Some (map string_bytes v.items)) }
        ensures no_lease { IsErrOf result LeaseError.NoLease ↔ (has_lease self.now namespace.now lease.now ≡ false) }
        ensures exists { result ≢ Err LeaseError.LeaseExists }
    {
        let Some(number) = self.numbers.get(namespace, lease) else {
            return Err(LeaseError::NoLease);
        };
        let names = self.list[&number].copy_names(self.alloc)?;
        Ok(names)
    }

    /// The number of the namespace's leases that name the snapshot, live or ended.
    ///
    /// Takes no memory. Its cost grows with the logarithms of the number of namespaces and of the number of names that the
    /// namespace's leases have, and not with the leases.
    pub fn count(&self, namespace: &str, name: &str) -> u64
        ensures value { result ≡ naming_count self.now namespace.now name.now }

        // What is so of all leases: no two of one namespace have the same name, and each names a snapshot
        // once.
        ensures distinct { AreDistinct self.now }
        ensures once { AllByRecursion NamesOnce self.now }
    {
        self.counts.count(namespace, name)
    }

    /// Whether a lease of the namespace that is live at the moment names the snapshot.
    ///
    /// Takes no memory. Its cost grows with the number of leases.
    pub fn live(&self, namespace: &str, name: &str, now: u64) -> bool
        ensures { result ≡ is_guarded_at self.now namespace.now name.now now }
    {
        self.list.values().any(|l| l.is_of(namespace) && l.does_name(name) && l.is_live(now))
    }

    /// The names in the namespace's leases that are live at the moment, as a set: [`Leases::live`] for
    /// many names.
    ///
    /// Takes memory for copies of the names. Its cost grows with the number of leases and with the length of the names.
    pub fn live_names(&self, namespace: &str, now: u64) -> Result<LiveNames, AllocError>
        ensures { IfOk result (λ names. (name : List ℕ) → is_among name names ≡ is_guarded_at self.now namespace.now name now) }
    {
        let mut names = LiveNames::new(self.alloc);
        for lease in self.list.values() {
            if lease.is_of(namespace) && lease.is_live(now) {
                lease.put_names(self.alloc, &mut names)?;
            }
        }
        Ok(names)
    }

    /// The number of the namespace's leases that have ended at the moment.
    ///
    /// Takes no memory. Its cost grows with the number of leases.
    pub fn ended(&self, namespace: &str, now: u64) -> u64
        ensures { result ≡ count_by (has_ended namespace.now now) self.now }
    {
        self.list
            .values()
            .filter(|l| l.is_of(namespace) && !l.is_live(now))
            .count() as u64
    }

    /// Takes away the namespace's leases that have ended at the moment, with their names.
    ///
    /// Takes no memory. Its cost grows with the number of leases, for each lease that goes with the logarithm of that number, and
    /// for each name of such a lease with the logarithm of the number of names that the namespace's leases have.
    pub fn drop_ended(&mut self, namespace: &str, now: u64)
        ensures leases { self.new ≡ without_ended self.old namespace.now now }
        ensures counts { CountsLive self.old self.new namespace.now now }
    {
        take_ended(
            &self.list,
            &mut self.counts,
            &mut self.numbers,
            namespace,
            now,
        );
        self.list
            .retain(|_, l| !(l.is_of(namespace) && !l.is_live(now)));
    }
}

// The number of the next lease, which is above those of all leases.
fn next_number(list: &BTreeMap<usize, LeaseEntry>) -> Result<usize, AllocError>
    ensures number { IfOk result (λ n. n ≡ next_number list.now.entries) }
    ensures above { IfOk result (λ n. AllByRecursion (λ k. k < n) (keys_of list.now.entries)) }
    ensures last { OnErr result (2 ^ 64 ≤ next_number list.now.entries) }
{
    let Some((last, _)) = list.last_key_value() else {
        return Ok(0);
    };
    let last = *last;
    match last.checked_add(1) {
        Some(next) => Ok(next),
        None => Err(NoMemory::of_last_address(last).into()),
    }
}

// Takes back the counts of the names in the namespace's leases that have ended at the moment, and their numbers.
fn take_ended(
    list: &BTreeMap<usize, LeaseEntry>,
    counts: &mut NamespaceCounts,
    numbers: &mut LeaseNumbers,
    namespace: &str,
    now: u64,
)
    requires { AllByRecursion NamesOnce (values_of list.now.entries) }
    ensures counted { AreUncounted (has_ended namespace.now now) (values_of list.now.entries) counts.old counts.new }
    ensures numbered { AreUnnumbered (has_ended namespace.now now) (values_of list.now.entries) numbers.old numbers.new }
{
    for lease in list.values() {
        if lease.is_of(namespace) && !lease.is_live(now) {
            lease.take_counts(counts);
            lease.take_number(numbers);
        }
    }
}
