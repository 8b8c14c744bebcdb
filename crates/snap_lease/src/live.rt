//! The names that live leases have, as a set.
ghost use Rattle.std.specs.Prelude.{◌≡◌, [], OnOk};
ghost use Rattle.snap_lease.specs.Live.{is_among, with_added_name};

use indexmap::IndexMap;
use std::alloc::{AllocError, Global};
use std::marker::Model;

/// Names of snapshots, each once. Contracts see the list of their bytes, in the order in which they came.
#[derive(Drop)]
pub struct LiveNames {
    names: IndexMap<String, ()>,
}

impl Model for LiveNames {
    ghost use Rattle.std.specs.Prelude.{List, ℕ, map, string_bytes};
    ghost use Rattle.std.specs.Map.{keys_of};

    ghost Value = { List (List ℕ) };

    ghost view = { λ n. map string_bytes (keys_of n.names.entries) };
}

impl LiveNames {
    /// No names. Takes no memory.
    pub(crate) fn new(alloc: Global) -> LiveNames
        ensures { result ≡ [] }
    {
        LiveNames {
            names: IndexMap::new(alloc),
        }
    }

    /// Whether the name is one of them. Takes no memory. The cost grows with the length of the name alone.
    pub fn has(&self, name: &str) -> bool
        ensures { result ≡ is_among name.now self.now }
    {
        self.names.contains_key(name)
    }

    /// Puts a copy of the name last. A name that is there already takes no memory.
    pub(crate) fn add(&mut self, alloc: Global, name: &str) -> Result<(), AllocError>
        ensures { OnOk result (self.new ≡ with_added_name name.now self.old) }
    {
        if self.has(name) {
            return Ok(());
        }
        let name = String::from_str(alloc, name)?;
        self.names.insert(name, ())?;
        Ok(())
    }
}
