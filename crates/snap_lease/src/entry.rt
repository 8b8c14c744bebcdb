//! One lease, over texts that it owns.
ghost use Rattle.std.specs.Prelude.{◌≡◌, ◌<◌, ◌+◌, ◌^◌, ◌||◌, false, List, ℕ, None, map, string_bytes, IsTrue, IsOk, IfOk, OnOk, OnErr, if◌then◌else◌};
ghost use Rattle.snap_counts.specs.Counts.{count_within};
ghost use Rattle.snap_lease.specs.Lease.{is_of, is_lease, does_name, is_live, empty_lease, with_lease_name, without_lease_name, NamesOnce};
ghost use Rattle.snap_lease.specs.Index.{IsSame, IsRecounted, IsUncounted};
ghost use Rattle.snap_lease.specs.Live.{is_among};
ghost use Rattle.snap_lease.specs.Numbers.{number_in};
ghost use Rattle.snap_lease.specs.Told.{told};

use crate::live::LiveNames;
use crate::numbers::LeaseNumbers;
use crate::told::{LeaseCopy, LeaseInfo};
use indexmap::IndexMap;
use snap_counts::NamespaceCounts;
use std::alloc::{AllocError, Global};
use std::marker::Model;

/// One lease. Contracts see it as a record of its texts.
pub(crate) struct LeaseEntry {
    namespace: String,
    name: String,
    until: Option<u64>,
    names: IndexMap<String, ()>,
}

// By hand: a derived one is proved anew, part by part, wherever a value is let go.
impl Drop for LeaseEntry {
    fn drop(self) {
        let LeaseEntry {
            namespace: _,
            name: _,
            until: _,
            names: _,
        } = self;
    }
}

impl Model for LeaseEntry {
    ghost use Rattle.std.specs.Prelude.{map, string_bytes};
    ghost use Rattle.std.specs.Map.{keys_of};
    ghost use Rattle.snap_lease.specs.Lease.{Lease};

    ghost Value = { Lease };

    ghost view = { λ e. record { namespace = string_bytes e.namespace; name = string_bytes e.name; until = e.until; names = map string_bytes (keys_of e.names.entries) } };
}

impl LeaseEntry {
    /// A lease that names nothing.
    pub(crate) fn new(
        alloc: Global,
        namespace: &str,
        lease: &str,
        until: Option<u64>,
    ) -> Result<LeaseEntry, AllocError>
        ensures { IfOk result (λ l. l ≡ empty_lease namespace.now lease.now until) }
    {
        Ok(LeaseEntry {
            namespace: String::from_str(alloc, namespace)?,
            name: String::from_str(alloc, lease)?,
            until,
            names: IndexMap::new(alloc),
        })
    }

    /// A copy of what is told of it.
    pub(crate) fn info(&self, alloc: Global) -> Result<LeaseInfo, AllocError>
        ensures { IfOk result (λ info. info ≡ told self.now) }
    {
        Ok(LeaseInfo {
            name: self.name.clone()?,
            until: self.until,
            names: self.copy_names(alloc)?,
        })
    }

    /// A copy of it.
    pub(crate) fn copy(&self, alloc: Global) -> Result<LeaseCopy, AllocError>
        ensures { IfOk result (λ copy. copy ≡ self.now) }
    {
        let LeaseInfo { name, until, names } = self.info(alloc)?;
        Ok(LeaseCopy {
            namespace: self.namespace.clone()?,
            name,
            until,
            names,
        })
    }

    /// Whether it is of the namespace.
    pub(crate) fn is_of(&self, namespace: &str) -> bool
        ensures { result ≡ is_of namespace.now self.now }
    {
        namespace == self.namespace.as_str()
    }

    /// Whether it names the snapshot.
    pub(crate) fn does_name(&self, name: &str) -> bool
        ensures { result ≡ does_name name.now self.now }
    {
        self.names.contains_key(name)
    }

    /// Whether it is live at the moment.
    pub(crate) fn is_live(&self, now: u64) -> bool
        ensures { result ≡ is_live now self.now }
    {
        match self.until {
            None => true,
            Some(until) => now <= until,
        }
    }

    // Puts a name that the lease lacks last.
    fn put(&mut self, alloc: Global, name: &str) -> Result<(), AllocError>
        requires { does_name name.now self.old ≡ false }
        ensures ok { OnOk result (self.new ≡ with_lease_name name.now self.old) }
        ensures err { OnErr result (self.new ≡ self.old) }
    {
        let name = String::from_str(alloc, name)?;
        self.names.insert(name, ())?;
        Ok(())
    }

    /// Names the snapshot too, and counts the name in its namespace. A name that is there already takes no memory.
    pub(crate) fn add(
        &mut self,
        alloc: Global,
        name: &str,
        counts: &mut NamespaceCounts,
    ) -> Result<(), AllocError>
        requires { count_within self.old.namespace name.now counts.old + 1 < 2 ^ 64 }
        ensures ok { OnOk result (self.new ≡ with_lease_name name.now self.old) }
        ensures counted { OnOk result (IsRecounted self.old self.new counts.old counts.new) }
        ensures there { IsTrue (does_name name.now self.old) → IsOk result }
        ensures err { OnErr result (self.new ≡ self.old) }
        ensures err_counts { OnErr result (IsSame counts.old counts.new) }
    {
        if self.does_name(name) {
            return Ok(());
        }
        counts.add(self.namespace.as_str(), name)?;
        if let Err(refused) = self.put(alloc, name) {
            counts.take(self.namespace.as_str(), name);
            return Err(refused);
        }
        Ok(())
    }

    // Takes the name away, and says whether it was there.
    fn take(&mut self, name: &str) -> bool
        requires { NamesOnce self.old }
        ensures there { result ≡ does_name name.now self.old }
        ensures left { self.new ≡ without_lease_name name.now self.old }
    {
        self.names.shift_remove(name).is_some()
    }

    /// Names the snapshot no longer, and takes one count of the name in its namespace back. Says whether it named it.
    pub(crate) fn drop_name(&mut self, name: &str, counts: &mut NamespaceCounts) -> bool
        requires once { NamesOnce self.old }
        requires counted { IsTrue (does_name name.now self.old) → 0 < count_within self.old.namespace name.now counts.old }
        ensures there { result ≡ does_name name.now self.old }
        ensures left { self.new ≡ without_lease_name name.now self.old }
        ensures counted { IsRecounted self.old self.new counts.old counts.new }
    {
        let is_there = self.take(name);
        if is_there {
            counts.take(self.namespace.as_str(), name);
        }
        is_there
    }

    /// Takes one count of each of its names back.
    pub(crate) fn take_counts(&self, counts: &mut NamespaceCounts)
        requires { NamesOnce self.now }
        ensures { IsUncounted self.now counts.old counts.new }
    {
        let namespace = self.namespace.as_str();
        for name in self.names.keys().as_slice() {
            counts.take(namespace, name.as_str());
        }
    }

    /// Takes its number away.
    pub(crate) fn take_number(&self, numbers: &mut LeaseNumbers)
        ensures { (space name : List ℕ) → number_in space name numbers.new ≡ (if is_lease space name self.now then None else number_in space name numbers.old) }
    {
        numbers.take(self.namespace.as_str(), self.name.as_str());
    }

    /// A copy of the names, in order.
    pub(crate) fn copy_names(&self, alloc: Global) -> Result<Vec<String>, AllocError>
        ensures { IfOk result (λ v. map string_bytes v.items ≡ self.now.names) }
    {
        let mut names = Vec::with_capacity(alloc, self.names.len())?;
        for name in self.names.keys().as_slice() {
            names.push(String::from_str(alloc, name.as_str())?)?;
        }
        Ok(names)
    }

    /// Adds copies of the names to the set.
    pub(crate) fn put_names(&self, alloc: Global, set: &mut LiveNames) -> Result<(), AllocError>
        ensures { OnOk result ((name : List ℕ) → is_among name set.new ≡ (is_among name set.old || does_name name self.now)) }
    {
        for name in self.names.keys().as_slice() {
            set.add(alloc, name.as_str())?;
        }
        Ok(())
    }
}
