// The snapshots that were active when a round began.
ghost use Rattle.std.specs.Prelude.{◌≡◌, IfOk, option_and_then, option_copied};
ghost use Rattle.snap_call.specs.Records.{active_at};
ghost use Rattle.snap_session.specs.Carried.{carried_from, carried_name, carried_of};

use snap_call::{Namespace, State};
use snap_record::{Record, Sequence, Text};
use std::alloc::{AllocError, Global};

// What names an active snapshot.
#[derive(Drop)]
pub(crate) struct SnapshotName {
    pub(crate) namespace: Text,
    pub(crate) key: Text,
}

// A snapshot that was active when the round began, by its id.
#[derive(Drop)]
pub(crate) struct Carried {
    pub(crate) id: u32,
    pub(crate) name: SnapshotName,
}

impl SnapshotName {
    // The same once more.
    pub(crate) fn again(&self) -> Result<SnapshotName, AllocError>
        ensures { IfOk result (λ same. same ≡ self.now) }
    {
        Ok(SnapshotName {
            namespace: self.namespace.clone()?,
            key: self.key.clone()?,
        })
    }
}

// The snapshot of the record.
fn carried_from(namespaces: &[Namespace], snapshot: &Record) -> Result<Option<Carried>, AllocError>
    ensures { IfOk result (λ found. found ≡ carried_from namespaces.now snapshot.now) }
{
    let Some(namespace) = namespaces.get(snapshot.namespace) else {
        return Ok(None);
    };
    let name = SnapshotName {
        namespace: namespace.name.clone()?,
        key: snapshot.key.clone()?,
    };
    Ok(Some(Carried {
        id: snapshot.id,
        name,
    }))
}

// The one that is active in the slot.
fn carried_in(state: &State, slot: u64) -> Result<Option<Carried>, AllocError>
    ensures { IfOk result (λ found. found ≡ option_and_then (carried_from state.now.namespaces) (active_at slot state.now.records)) }
{
    match state.records.active_at(slot) {
        Some(snapshot) => carried_from(state.namespaces.as_slice(), snapshot),
        None => Ok(None),
    }
}

// The active ones of the state, by their slots. The cost grows with the number of slots.
pub(crate) fn carried_of(alloc: Global, state: &State) -> Result<Sequence<Carried>, AllocError>
    ensures { IfOk result (λ found. found ≡ carried_of state.now) }
{
    let mut found = Sequence::new(alloc);
    for slot in 0..state.slots {
        if let Some(snapshot) = carried_in(state, slot)? {
            found.push(snapshot)?;
        }
    }
    Ok(found)
}

// The name of the one that has this id.
pub(crate) fn carried_name(id: u32, snapshots: &[Carried]) -> Option<&SnapshotName>
    ensures { option_copied result ≡ carried_name id snapshots.now }
{
    for snapshot in snapshots {
        if snapshot.id == id {
            return Some(&snapshot.name);
        }
    }
    None
}
