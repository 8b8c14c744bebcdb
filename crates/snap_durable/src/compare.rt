// In what two stores differ: in which fields of a namespace, of a snapshot and of a lease.
ghost use Rattle.std.specs.Prelude.{◌≡◌, ◌++◌, IfOk, OnOk, bytes_eq, map, string_bytes};
ghost use Rattle.std.specs.Cmp.Lexicographic.{pointwise};
ghost use Rattle.std.specs.List.{list_all};
ghost use Rattle.snap_durable.specs.Fields.{field_unless, field_word, has_equal_label, has_same_labels, if_any, is_same_space, lease_difference, snapshot_difference, space_difference, spaces_in, store_differences};

use crate::differ::{Compare, Difference, differences};
use crate::holding::Contents;
use crate::picture::{Snapshot, Space};
use snap_lease::LeaseInfo;
use snap_record::{Labels, Sequence, Text};
use std::alloc::{AllocError, Global};

/// What a namespace, a snapshot or a lease may differ in.
#[derive(Clone, Copy, Debug, PartialEq, Eq)]
pub enum Field {
    /// What a namespace is charged.
    Charged,
    /// The most that it may be charged.
    Limit,
    /// What a snapshot is.
    Kind,
    /// A snapshot's labels, in any order.
    Labels,
    /// The name of its parent.
    Parent,
    /// What its namespace is charged for it.
    Usage,
    /// The snapshots that a lease names, in their order.
    Names,
    /// A lease's last moment.
    Until,
}

/// In what a namespace that both stores have differs.
#[derive(Drop)]
pub struct SpaceDifference {
    pub fields: Sequence<Field>,
    /// At its snapshots' keys.
    pub snapshots: Sequence<Difference<Sequence<Field>>>,
    /// At its leases' names.
    pub leases: Sequence<Difference<Sequence<Field>>>,
}

/// In what two stores differ.
#[derive(Drop)]
pub struct Differences {
    /// At their namespaces' names.
    pub namespaces: Sequence<Difference<SpaceDifference>>,
}

impl Field {
    /// The word for it. Takes no memory. The cost is constant.
    pub fn as_str(&self) -> &'static str
        ensures { result.now ≡ field_word self.now }
    {
        match self {
            Field::Charged => "charged",
            Field::Limit => "limit",
            Field::Kind => "kind",
            Field::Labels => "labels",
            Field::Parent => "parent",
            Field::Usage => "usage",
            Field::Names => "names",
            Field::Until => "until",
        }
    }
}

// Adds a field, unless it is the same.
fn note(fields: &mut Sequence<Field>, is_same: bool, field: Field) -> Result<(), AllocError>
    ensures { OnOk result (fields.new ≡ fields.old ++ field_unless is_same field) }
{
    if !is_same {
        fields.push(field)?;
    }
    Ok(())
}

// The fields, if there are any.
fn if_any(fields: Sequence<Field>) -> Option<Sequence<Field>>
    ensures { result ≡ if_any fields }
{
    if fields.is_empty() {
        None
    } else {
        Some(fields)
    }
}

// Whether the key has this value.
fn has_equal_label(labels: &Labels, key: &Text, value: &Text) -> bool
    ensures { result ≡ has_equal_label labels.now (key.now, value.now) }
{
    match labels.get(key) {
        Some(other) => *value == *other,
        None => false,
    }
}

// Whether each of the keys has its value.
fn has_all_labels(labels: &Labels, wanted: &[(Text, Text)]) -> bool
    ensures { result ≡ list_all (has_equal_label labels.now) wanted.now }
{
    wanted
        .iter()
        .all(|(key, value)| has_equal_label(labels, key, value))
}

// Whether the labels are the same, in any order.
fn has_same_labels(a: &Labels, b: &Labels) -> bool
    ensures { result ≡ has_same_labels a.now b.now }
{
    a.len() == b.len() && has_all_labels(b, a.as_slice())
}

// Whether the names are the same, in this order.
fn has_same_names(a: &[String], b: &[String]) -> bool
    ensures { result ≡ pointwise bytes_eq (map string_bytes a.now) (map string_bytes b.now) }
{
    a == b
}

impl Compare for Snapshot {
    type Difference = Sequence<Field>;

    ghost difference = { snapshot_difference };

    fn difference(
        &self,
        alloc: Global,
        other: &Snapshot,
    ) -> Result<Option<Sequence<Field>>, AllocError> {
        let mut fields = Sequence::new(alloc);
        note(&mut fields, self.kind == other.kind, Field::Kind)?;
        note(
            &mut fields,
            has_same_labels(&self.labels, &other.labels),
            Field::Labels,
        )?;
        note(&mut fields, self.parent == other.parent, Field::Parent)?;
        note(&mut fields, self.usage == other.usage, Field::Usage)?;
        Ok(if_any(fields))
    }
}

impl Compare for LeaseInfo {
    type Difference = Sequence<Field>;

    ghost difference = { lease_difference };

    fn difference(
        &self,
        alloc: Global,
        other: &LeaseInfo,
    ) -> Result<Option<Sequence<Field>>, AllocError> {
        let mut fields = Sequence::new(alloc);
        note(
            &mut fields,
            has_same_names(self.names(), other.names()),
            Field::Names,
        )?;
        note(&mut fields, self.until() == other.until(), Field::Until)?;
        Ok(if_any(fields))
    }
}

impl SpaceDifference {
    /// Whether there is none. Takes no memory. The cost is constant.
    pub fn is_empty(&self) -> bool
        ensures { result ≡ is_same_space self.now }
    {
        self.fields.is_empty() && self.snapshots.is_empty() && self.leases.is_empty()
    }
}

impl Compare for Space {
    type Difference = SpaceDifference;

    ghost difference = { space_difference };

    fn difference(
        &self,
        alloc: Global,
        other: &Space,
    ) -> Result<Option<SpaceDifference>, AllocError> {
        let mut fields = Sequence::new(alloc);
        note(&mut fields, self.charged == other.charged, Field::Charged)?;
        note(&mut fields, self.limit == other.limit, Field::Limit)?;
        let (a, b) = (self.snapshots.as_slice(), other.snapshots.as_slice());
        let snapshots = differences(alloc, a, b)?;
        let leases = differences(alloc, self.leases.as_slice(), other.leases.as_slice())?;
        let found = SpaceDifference {
            fields,
            snapshots,
            leases,
        };
        if found.is_empty() {
            return Ok(None);
        }
        Ok(Some(found))
    }
}

// The namespaces, none without a store.
fn spaces_in(contents: &Option<Contents<Space>>) -> &[(Text, Space)]
    ensures { result.now ≡ spaces_in contents.now }
{
    match contents {
        Some(contents) => contents.namespaces.as_slice(),
        None => &[],
    }
}

/// In what two stores differ, where there are any: at the namespaces of the first in their order, and then at those
/// that the second alone has. Without a store there is no namespace.
///
/// It fails only where memory is refused, which it takes for maps of the names of namespaces, and of the keys and the
/// leases of one at a time, and for the differences. The cost grows with the number of snapshots and of leases times
/// its logarithm, with their texts, and for each snapshot with the product of the numbers of its labels.
pub fn store_differences(
    alloc: Global,
    a: &Option<Contents<Space>>,
    b: &Option<Contents<Space>>,
) -> Result<Differences, AllocError>
    ensures { IfOk result (λ found. found ≡ store_differences a.now b.now) }
{
    Ok(Differences {
        namespaces: differences(alloc, spaces_in(a), spaces_in(b))?,
    })
}
