ghost use Rattle.std.specs.Prelude.{◌≡◌, IsOk};

use crate::held_record::HeldRecord;
use std::alloc::{AllocError, Global};
use std::marker::Model;

/// Records that have left a store. With them go their texts and those of their layers that nobody else holds, which
/// takes time by the files in them: so whoever has a lock lets this go once the lock is given back. Contracts see
/// nothing of it.
#[derive(Debug)]
pub struct Removed {
    records: Vec<HeldRecord>,
}

impl Model for Removed {
    ghost Value = { Unit {0} };

    ghost view = { λ _. tt };
}

// By hand: a derived one is proved anew, part by part, wherever a value is let go.
impl Drop for Removed {
    fn drop(self) {
        let Removed { records: _ } = self;
    }
}

impl Removed {
    /// No records, and no room for one. Takes no memory.
    pub fn none(alloc: Global) -> Removed {
        Removed {
            records: Vec::new(alloc),
        }
    }

    /// No records, and room for `count`. Takes memory for them without their texts and layers, and none for 0 records.
    pub fn with_room(alloc: Global, count: usize) -> Result<Removed, AllocError>
        ensures sure { count ≡ 0 → IsOk result }
    {
        Ok(Removed {
            records: Vec::with_capacity(alloc, count)?,
        })
    }

    /// Keeps the record, if there is one; where there is no room for it, it goes at once. Takes no memory.
    pub fn keep(&mut self, taken: Option<HeldRecord>) {
        if let Some(record) = taken {
            if self.records.len() < self.records.capacity() {
                self.records.push_reserved(record);
            }
        }
    }
}
