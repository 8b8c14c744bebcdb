// A state's snapshots as they are saved.
ghost use Rattle.std.specs.Prelude.{◌≡◌, ℕ, ◌≤◌, [], map, IfOk, Ok};
ghost use Rattle.std.specs.List.{AllByRecursion};
ghost use Rattle.snap_call.specs.Good.{Good};
ghost use Rattle.snap_call.specs.Saved.{by_id, without_snapshots, IsChargedOne, put_all_back, saved_content, saved_of};

use crate::config::Namespace;
use crate::held_record::HeldRecord;
use crate::saved::{Saved, SavedContent};
use crate::state::State;
use snap_record::{Content, Record, Text};
use std::alloc::{AllocError, Global};
use std::marker::Model;

// What is saved of what a snapshot holds.
fn saved_content(content: &Content) -> Result<SavedContent, AllocError>
    ensures { IfOk result (λ saved. saved ≡ saved_content content.now) }
{
    match content {
        Content::View { layers: _ } => Ok(SavedContent::View),
        Content::Active { slot, charged } => Ok(SavedContent::Active {
            slot: *slot,
            charged: *charged,
        }),
        Content::Committed { layer, usage: _ } => Ok(SavedContent::Committed {
            layer: layer.again()?,
        }),
    }
}

/// A record with its id beside it, so that a sort by the ids reads no record. Contracts see the record.
#[derive(Drop)]
pub struct RecordById {
    id: u32,
    held: HeldRecord,
}

impl Model for RecordById {
    ghost use Rattle.std.specs.Prelude.{◌≡◌};
    ghost use Rattle.snap_record.specs.declared.record.Record.{Record};

    ghost Value = { Record };

    ghost view = { λ r. r.held };

    ghost invariant = { λ r. r.id ≡ r.held.id };
}

impl RecordById {
    fn new(held: HeldRecord) -> RecordById
        ensures { result ≡ held }
    {
        RecordById {
            id: held.record().id,
            held,
        }
    }

    fn id(&self) -> u32
        ensures { result ≡ self.now.id }
    {
        self.id
    }

    /// The record. Takes no memory.
    pub fn record(&self) -> &Record
        ensures { result.now ≡ self.now }
    {
        self.held.record()
    }
}

// The records once more, each with its id beside it.
fn with_ids(alloc: Global, records: Vec<&HeldRecord>) -> Result<Vec<RecordById>, AllocError>
    ensures { IfOk result (λ list. list.items ≡ map (λ r. r.now) records.entry.items) }
{
    let mut list = Vec::with_capacity(alloc, records.len())?;
    for held in records {
        list.push(RecordById::new(held.again(alloc)?))?;
    }
    Ok(list)
}

impl State {
    /// The records in the order of their ids: each comes after its parent. They stay as they are now, whatever calls come.
    ///
    /// Takes memory for a list of them, and for copies of those of active snapshots; the others are shared. Fails only
    /// where it is refused. The cost grows with the number of records times its logarithm, and with these copies.
    pub fn by_id(&self, alloc: Global) -> Result<Vec<RecordById>, AllocError>
        requires { Good self.now }
        ensures records { IfOk result (λ list. list.items ≡ by_id self.now.next_id self.now.records) }
        // What is saved of them, put back in turn, gives the state without its leases; its next id may be a lower one.
        ensures back { AllByRecursion (λ r. IsChargedOne r.content) self.now.records → IfOk result (λ list. (next : ℕ) × (next ≤ self.now.next_id) × (put_all_back (without_snapshots self.now) (map (saved_of self.now.namespaces) list.items) ≡ Ok (record self.now { leases = []; next_id = next }))) }
    {
        let mut list = with_ids(alloc, self.records.held(alloc)?)?;
        list.sort_by_key(|record| record.id())?;
        Ok(list)
    }
}

/// What is saved of a record of a store with these namespaces. The layer of a committed one is shared and not copied.
///
/// Takes memory for copies of its texts and labels; fails only where it is refused. The cost grows with them.
pub fn saved_of(
    alloc: Global,
    namespaces: &[Namespace],
    record: &Record,
) -> Result<Saved, AllocError>
    ensures { IfOk result (λ saved. saved ≡ saved_of namespaces.now «record».now) }
{
    let namespace = match namespaces.get(record.namespace) {
        Some(namespace) => namespace.name.clone()?,
        None => Text::new(alloc),
    };
    Ok(Saved {
        namespace,
        key: record.key.clone()?,
        parent: record.parent.clone()?,
        id: record.id,
        labels: record.labels.clone()?,
        created: record.created,
        updated: record.updated,
        content: saved_content(&record.content)?,
    })
}
