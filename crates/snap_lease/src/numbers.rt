//! The numbers of leases, by namespace and name.
ghost use Rattle.std.specs.Prelude.{◌≡◌, ◌↔◌, ℕ, List, false, None, Some, OnOk, OnErr, bytes_eq, ◌&&◌, if◌then◌else◌};
ghost use Rattle.snap_lease.specs.Numbers.{number_in};

use std::alloc::{AllocError, Global};
use std::collections::BTreeMap;
use std::marker::Model;

/// The number of each lease: a map of namespaces to maps of names. Contracts see the list of the namespaces with their
/// leases' names, by their bytes.
#[derive(Drop)]
pub(crate) struct LeaseNumbers {
    alloc: Global,
    map: BTreeMap<String, BTreeMap<String, usize>>,
}

impl Model for LeaseNumbers {
    ghost use Rattle.snap_lease.specs.Numbers.{LeaseIndex, index_of, HasNoBareNamespace};

    ghost Value = { LeaseIndex };

    ghost view = { λ n. index_of n.map.entries };

    ghost invariant = { λ n. HasNoBareNamespace n.map };
}

impl LeaseNumbers {
    /// No lease has a number.
    pub(crate) fn new(alloc: Global) -> LeaseNumbers
        ensures { (space q : List ℕ) → number_in space q result ≡ None }
    {
        LeaseNumbers {
            alloc,
            map: BTreeMap::new(alloc),
        }
    }

    /// The number of the namespace's lease of this name.
    pub(crate) fn get(&self, namespace: &str, lease: &str) -> Option<usize>
        ensures { result ≡ number_in namespace.now lease.now self.now }
    {
        match self.map.get(namespace) {
            Some(leases) => leases.get(lease).copied(),
            None => None,
        }
    }

    /// Whether a lease of the namespace has a number.
    pub(crate) fn has_any(&self, namespace: &str) -> bool
        ensures { (result ≡ false) ↔ ((q : List ℕ) → number_in namespace.now q self.now ≡ None) }
    {
        self.map.get(namespace).is_some()
    }

    /// Gives the lease the number. Takes memory for copies of the texts; where it is refused, every number is as it was.
    pub(crate) fn put(
        &mut self,
        namespace: &str,
        lease: &str,
        number: usize,
    ) -> Result<(), AllocError>
        ensures ok { OnOk result ((space q : List ℕ) → number_in space q self.new ≡ (if bytes_eq space namespace.now && bytes_eq q lease.now then Some number else number_in space q self.old)) }
        ensures err { OnErr result ((space q : List ℕ) → number_in space q self.new ≡ number_in space q self.old) }
    {
        let key = String::from_str(self.alloc, lease)?;
        if let Some(leases) = self.map.get_mut(namespace) {
            leases.insert(key, number)?;
            return Ok(());
        }
        let space = String::from_str(self.alloc, namespace)?;
        let mut leases = BTreeMap::new(self.alloc);
        leases.insert(key, number)?;
        self.map.insert(space, leases)?;
        Ok(())
    }

    /// Takes the lease's number away. Takes no memory.
    pub(crate) fn take(&mut self, namespace: &str, lease: &str)
        ensures { (space q : List ℕ) → number_in space q self.new ≡ (if bytes_eq space namespace.now && bytes_eq q lease.now then None else number_in space q self.old) }
    {
        let Some(leases) = self.map.get_mut(namespace) else {
            return;
        };
        leases.remove(lease);
        if leases.is_empty() {
            drop(self.map.remove(namespace));
        }
    }
}
