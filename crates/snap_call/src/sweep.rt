// What a sweep takes away: a mark and sweep over the records, by their places in the list.
ghost use Rattle.std.specs.Prelude.{◌≡◌, ◌+◌, ◌<◌, ◌≤◌, ◌^◌, [], ◌∷◌, ◌++◌, Some, true, false, map, length, position, IfOk, OnOk};
ghost use Rattle.std.specs.List.Sorted.{IsPartitionPoint, IsStrictlySortedBy};
ghost use Rattle.std.specs.Ordering.{is_lt};
ghost use Rattle.snap_ledger.specs.States.{plus};
ghost use Rattle.snap_record.specs.Records.{usage_of};
ghost use Rattle.snap_usage.specs.Counted.{no_usage};
ghost use Rattle.snap_call.specs.Good.{Good};
ghost use Rattle.snap_call.specs.Marked.{key_cmp, parent_place, is_kept, marked};
ghost use Rattle.snap_call.specs.Reached.{swept, swept_keys};
ghost use Rattle.snap_call.specs.Records.{record_cmp, charge_of, is_named};
ghost use Rattle.snap_call.specs.State.{place_of};

use crate::chain::is_committed;
use crate::state::State;
use snap_lease::{LiveNames, sweep_set};
use snap_record::{Record, Sequence, Text};
use snap_usage::Usage;
use std::alloc::{AllocError, Global};
use std::cmp::Ordering;

/// What a sweep takes away.
#[derive(Drop)]
pub struct Sweep {
    /// The names of the snapshots, in the order of their bytes.
    pub removed: Sequence<Text>,
    /// What their namespace is charged for them.
    pub freed: Usage,
}

impl Sweep {
    // Takes the snapshot away too.
    fn add(&mut self, snapshot: &Record) -> Result<(), AllocError>
        requires blocks { self.old.freed.blocks + (usage_of snapshot.now.content).blocks < 2 ^ 64 }
        requires inodes { self.old.freed.inodes + (usage_of snapshot.now.content).inodes < 2 ^ 64 }
        ensures removed { OnOk result (self.new.removed ≡ self.old.removed ++ snapshot.now.key ∷ []) }
        ensures freed { OnOk result (self.new.freed ≡ plus self.old.freed (usage_of snapshot.now.content)) }
    {
        self.removed.push(snapshot.key.clone()?)?;
        self.freed = self.freed.plus(snapshot.content.usage());
        Ok(())
    }
}

// How the record stands to the key in the namespace at the place, in the order of the records.
fn compare(snapshot: &Record, place: usize, key: &str) -> Ordering
    ensures { result ≡ key_cmp place key.now snapshot.now }
{
    match snapshot.namespace.cmp(&place) {
        Ordering::Equal => snapshot.key.as_str().cmp(key),
        other => other,
    }
}

// Whether the record has this key in the namespace at this place.
fn is_named(snapshot: &Record, place: usize, key: &str) -> bool
    ensures { result ≡ is_named place key.now snapshot.now }
{
    snapshot.namespace == place && snapshot.key.as_str() == key
}

// Where the first record stands that doesn't come before the key in the namespace at the place. A
// binary search.
fn place_from(records: &[&Record], place: usize, key: &str) -> usize
    requires { IsStrictlySortedBy record_cmp (map (λ r. r.now) records.now) }
    ensures within { result ≤ length (map (λ r. r.now) records.now) }
    ensures parted { IsPartitionPoint (λ r. is_lt (key_cmp place key.now r) ≡ true) (λ r. is_lt (key_cmp place key.now r) ≡ false) (map (λ r. r.now) records.now) result }
{
    records.partition_point(|snapshot| compare(snapshot, place, key).is_lt())
}

// Where the record of the key in the namespace at the place stands. A binary search.
fn place_of_key(records: &[&Record], place: usize, key: &str) -> Option<usize>
    requires { IsStrictlySortedBy record_cmp (map (λ r. r.now) records.now) }
    ensures { result ≡ position (is_named place key.now) (map (λ r. r.now) records.now) }
{
    let at = place_from(records, place, key);
    if at < records.len() && is_named(records[at], place, key) {
        Some(at)
    } else {
        None
    }
}

// Where the parent of a record of the namespace at the place stands.
fn parent_place(records: &[&Record], place: usize, snapshot: &Record) -> Option<usize>
    requires { IsStrictlySortedBy record_cmp (map (λ r. r.now) records.now) }
    ensures { result ≡ parent_place place (map (λ r. r.now) records.now) snapshot.now }
{
    if snapshot.namespace != place || snapshot.parent.is_empty() {
        return None;
    }
    place_of_key(records, place, snapshot.parent.as_str())
}

// Where the parents of the records of the namespace at the place stand.
fn parent_places(
    alloc: Global,
    records: &[&Record],
    place: usize,
) -> Result<Vec<Option<usize>>, AllocError>
    requires { IsStrictlySortedBy record_cmp (map (λ r. r.now) records.now) }
    ensures { IfOk result (λ parents. parents.items ≡ map (λ r. parent_place place (map (λ r. r.now) records.now) r.now) records.now) }
{
    records
        .iter()
        .map(|snapshot| parent_place(records, place, snapshot))
        .collect(alloc)
}

// Whether the record is one of the namespace at the place, and is active, a view or has one of the
// names.
fn is_kept(snapshot: &Record, place: usize, names: &LiveNames) -> bool
    ensures { result ≡ is_kept place names.now snapshot.now }
{
    snapshot.namespace == place && (!is_committed(snapshot) || names.has(snapshot.key.as_str()))
}

// Which of the records are kept for what they are.
fn roots(
    alloc: Global,
    records: &[&Record],
    place: usize,
    names: &LiveNames,
) -> Result<Vec<bool>, AllocError>
    ensures { IfOk result (λ roots. roots.items ≡ map (λ r. is_kept place names.now r.now) records.now) }
{
    records
        .iter()
        .map(|snapshot| is_kept(snapshot, place, names))
        .collect(alloc)
}

// What goes where the marked records of the namespace at the place go.
fn gather(
    alloc: Global,
    records: &[&Record],
    place: usize,
    marks: &[bool],
) -> Result<Sweep, AllocError>
    requires lengths { length marks.now ≡ length records.now }
    requires blocks { (charge_of place (map (λ r. r.now) records.now)).blocks < 2 ^ 64 }
    requires inodes { (charge_of place (map (λ r. r.now) records.now)).inodes < 2 ^ 64 }
    ensures removed { IfOk result (λ w. w.removed ≡ map (λ r. r.key) (marked place (map (λ r. r.now) records.now) marks.now)) }
    ensures freed { IfOk result (λ w. w.freed ≡ charge_of place (marked place (map (λ r. r.now) records.now) marks.now)) }
{
    let mut sweep = Sweep {
        removed: Sequence::new(alloc),
        freed: Usage::ZERO,
    };
    for (at, snapshot) in records.iter().enumerate() {
        if snapshot.namespace == place && marks[at] {
            sweep.add(snapshot)?;
        }
    }
    Ok(sweep)
}

impl State {
    /// What a sweep of the namespace at the place takes away at the moment.
    ///
    /// Takes memory for the answer, for copies of the names in the live leases of the namespace, and
    /// for four lists with an item for each of its records. The cost grows with the leases and their names,
    /// and with these records times the logarithm of their number, which is what it takes to find their
    /// parents; not with what other namespaces have.
    pub fn plan_sweep(
        &self,
        alloc: Global,
        place: usize,
        namespace: &str,
        moment: u64,
    ) -> Result<Sweep, AllocError>
        requires good { Good self.now }
        requires named { place_of namespace.now self.now.namespaces ≡ Some place }
        ensures removed { IfOk result (λ w. w.removed ≡ swept_keys self.now namespace.now place moment) }
        ensures freed { IfOk result (λ w. w.freed ≡ charge_of place (swept self.now namespace.now place moment)) }
    {
        let records = self.records.list_of(alloc, place)?;
        let names = self.leases.live_names(namespace, moment)?;
        let parents = parent_places(alloc, &records, place)?;
        let roots = roots(alloc, &records, place, &names)?;
        let marks = sweep_set(alloc, &parents, &roots)?;
        gather(alloc, &records, place, &marks)
    }
}
