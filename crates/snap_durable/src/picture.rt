// What a store has of each namespace: each snapshot and each lease.
ghost use Rattle.std.specs.Prelude.{◌≡◌, IfOk, map};
ghost use Rattle.snap_durable.specs.Pictures.{lease_entry, snapshot_entry, space_at};

use crate::holding::FromNamespace;
use snap_lease::LeaseInfo;
use snap_ledger::StoreName;
use snap_record::{Kind, Labels, Record, Sequence, Text};
use snap_usage::Usage;
use snap_world::World;
use std::alloc::{AllocError, Global};

/// What is compared of a snapshot: not its id, not the numbers of entries, and not what its layer has.
#[derive(Drop)]
pub struct Snapshot {
    pub kind: Kind,
    /// The name of the parent, empty where there is none.
    pub parent: Text,
    pub labels: Labels,
    /// What its namespace is charged for it.
    pub usage: Usage,
}

/// What a store has of a namespace: copies of what is told of its snapshots and of its leases.
#[derive(Drop)]
pub struct Space {
    /// What it is charged.
    pub charged: Usage,
    /// The most that it may be charged.
    pub limit: Usage,
    /// Its snapshots with their keys, in the order of these.
    pub snapshots: Sequence<(Text, Snapshot)>,
    /// Its leases with their names, live or ended, in the order in which they were created.
    pub leases: Sequence<(Text, LeaseInfo)>,
}

fn snapshot_entry(record: &Record) -> Result<(Text, Snapshot), AllocError>
    ensures { IfOk result (λ entry. entry ≡ snapshot_entry record.now) }
{
    let snapshot = Snapshot {
        kind: record.content.kind(),
        parent: record.parent.clone()?,
        labels: record.labels.clone()?,
        usage: record.content.usage(),
    };
    Ok((record.key.clone()?, snapshot))
}

fn snapshot_entries(
    alloc: Global,
    records: &[&Record],
) -> Result<Sequence<(Text, Snapshot)>, AllocError>
    ensures { IfOk result (λ entries. entries ≡ map snapshot_entry (map (λ r. r.now) records.now)) }
{
    let mut entries = Sequence::new(alloc);
    for record in records {
        entries.push(snapshot_entry(*record)?)?;
    }
    Ok(entries)
}

fn lease_entries(
    alloc: Global,
    leases: Vec<LeaseInfo>,
) -> Result<Sequence<(Text, LeaseInfo)>, AllocError>
    ensures { IfOk result (λ entries. entries ≡ map lease_entry leases.items) }
{
    let mut entries = Sequence::new(alloc);
    for lease in leases {
        let name = Text::copy_of(alloc, lease.name())?;
        entries.push((name, lease))?;
    }
    Ok(entries)
}

impl FromNamespace for Space {
    ghost of_namespace = { space_at };

    fn from_namespace<N: StoreName>(
        alloc: Global,
        world: &World<N>,
        name: &Text,
        place: usize,
        charged: Usage,
    ) -> Result<Space, AllocError> {
        let records = world.records().list_of(alloc, place)?;
        let leases = world.leases().infos(name.as_str())?;
        Ok(Space {
            charged,
            limit: world.state().limit_at(place),
            snapshots: snapshot_entries(alloc, records.as_slice())?,
            leases: lease_entries(alloc, leases)?,
        })
    }
}
