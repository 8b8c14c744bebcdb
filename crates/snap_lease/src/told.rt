//! What is told of leases.
ghost use Rattle.std.specs.Prelude.{◌≡◌, map, string_bytes, IfOk};
ghost use Rattle.snap_lease.specs.Told.{told, told_lease, told_leases};

use crate::list::Leases;
use std::alloc::AllocError;
use std::marker::Model;

/// A lease as one of its namespace. Contracts see it as a record of its texts.
#[derive(Drop)]
pub struct LeaseInfo {
    pub(crate) name: String,
    pub(crate) until: Option<u64>,
    pub(crate) names: Vec<String>,
}

impl Model for LeaseInfo {
    ghost use Rattle.std.specs.Prelude.{map, string_bytes};
    ghost use Rattle.snap_lease.specs.Told.{ToldLease};

    ghost Value = { ToldLease };

    ghost view = { λ i. record { name = string_bytes i.name; until = i.until; names = map string_bytes i.names.items } };
}

impl LeaseInfo {
    /// Its name. Takes no memory. The cost is constant.
    pub fn name(&self) -> &str
        ensures { result.now ≡ self.now.name }
    {
        self.name.as_str()
    }

    /// Its last moment, if it has one. Takes no memory. The cost is constant.
    pub fn until(&self) -> Option<u64>
        ensures { result ≡ self.now.until }
    {
        self.until
    }

    /// The snapshots that it names, in the order in which they were added. Takes no memory. The cost is constant.
    pub fn names(&self) -> &[String]
        ensures { map string_bytes result.now ≡ self.now.names }
    {
        self.names.as_slice()
    }
}

/// A copy of a lease, with its namespace. Contracts see it as the lease.
#[derive(Drop)]
pub struct LeaseCopy {
    /// The name of its namespace.
    pub namespace: String,
    /// Its name.
    pub name: String,
    /// Its last moment, if it has one.
    pub until: Option<u64>,
    /// The snapshots that it names, in the order in which they were added.
    pub names: Vec<String>,
}

impl Model for LeaseCopy {
    ghost use Rattle.std.specs.Prelude.{map, string_bytes};
    ghost use Rattle.snap_lease.specs.Lease.{Lease};

    ghost Value = { Lease };

    ghost view = { λ c. record { namespace = string_bytes c.namespace; name = string_bytes c.name; until = c.until; names = map string_bytes c.names.items } };
}

impl Leases {
    /// Copies of the leases of all namespaces, in the order in which they were created.
    ///
    /// Takes memory for the list and for copies of the texts, and its one error is want of that memory. Its cost grows with
    /// the number of leases, and with the texts that it copies.
    pub fn copies(&self) -> Result<Vec<LeaseCopy>, AllocError>
        ensures { IfOk result (λ copies. copies.items ≡ self.now) }
    {
        let mut copies = Vec::new(self.alloc);
        for lease in self.list.values() {
            copies.push(lease.copy(self.alloc)?)?;
        }
        Ok(copies)
    }

    /// What is told of each lease of the namespace, live or ended, in the order in which they were created, as
    /// containerd's `leases.Manager.List` and `ListResources` give them.
    ///
    /// Takes memory for the list and for copies of the texts, and its one error is want of that memory. Its cost grows with
    /// the number of leases of all namespaces, and with the texts that it copies.
    pub fn infos(&self, namespace: &str) -> Result<Vec<LeaseInfo>, AllocError>
        ensures { IfOk result (λ infos. infos.items ≡ told_leases self.now namespace.now) }
    {
        let mut infos = Vec::new(self.alloc);
        for lease in self.list.values() {
            if lease.is_of(namespace) {
                infos.push(lease.info(self.alloc)?)?;
            }
        }
        Ok(infos)
    }

    /// What is told of the namespace's lease of this name, live or ended. `None` where there is none.
    ///
    /// Takes memory for copies of the texts, and its one error is want of that memory. Its cost grows with the logarithm of
    /// the number of leases, and with the texts that it copies.
    pub fn info(&self, namespace: &str, lease: &str) -> Result<Option<LeaseInfo>, AllocError>
        ensures { IfOk result (λ found. found ≡ told_lease self.now namespace.now lease.now) }
    {
        let Some(number) = self.numbers.get(namespace, lease) else {
            return Ok(None);
        };
        let info = self.list[&number].info(self.alloc)?;
        Ok(Some(info))
    }
}
