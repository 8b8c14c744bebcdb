// Whether two tables are the same layer.
ghost use Rattle.std.specs.Prelude.{[], ◌≡◌, ◌+◌, ◌∷◌, ◌++◌, ◌↔◌, IsTrue, length, take};
ghost use Rattle.snap_path.specs.Text.{Names};
ghost use Rattle.std.specs.Option.{option_copied};
ghost use Rattle.snap_layer.specs.Tree.{Entries};
ghost use Rattle.snap_layer.specs.Equal.{tree_eq};
ghost use Rattle.snap_layer.specs.Walk.{body_at};
ghost use Rattle.snap_layer.specs.Holds.{bodies_of};
ghost use Rattle.snap_layer.specs.Rows.{AreHoused};

use super::super::edit::body_at;
use super::super::inode::Inode;
use super::super::node::{Body, Node};
use super::super::rows::{MOST_FRAMES, Row, Rows};
use super::Table;
use slab::Slab;
use std::collections::BTreeMap;

/// Whether the same stands at both.
fn is_same_node(node: Option<Node>, other: Option<Node>) -> bool
    ensures { IsTrue result ↔ (node ≡ other) }
{
    match (node, other) {
        (Some(node), Some(other)) => node == other,
        (None, None) => true,
        _ => false,
    }
}

/// Whether both entries have as many names above, the same name and the same node.
fn is_same_row(row: &Row<'_>, other: &Row<'_>) -> bool
    ensures { IsTrue result ↔ ((row.now.above ≡ other.now.above) × (row.now.name.now ≡ other.now.name.now) × (row.now.node ≡ other.now.node)) }
{
    row.above == other.above && row.name == other.name && row.node == other.node
}

/// Whether the walk's next entry is that of the row, which another walk gave after the same path.
fn is_next(row: &Row<'_>, others: &mut Rows<'_, MOST_FRAMES>) -> bool
    ensures same { (p : Names)
        → p ≡ take row.now.above others.old.path ++ row.now.name.now ∷ []
        → row.now.above + 1 ≡ length p
        → IsTrue result ↔ ((rest : Entries) × (others.old.rest ≡ (p, row.now.node) ∷ rest)) }
    ensures path { IsTrue result → others.new.path ≡ take row.now.above others.old.path ++ row.now.name.now ∷ [] }
    ensures rest { IsTrue result → others.old.rest ≡ (others.new.path, row.now.node) ∷ others.new.rest }
{
    match others.next() {
        Some(other) => is_same_row(row, &other),
        None => false,
    }
}

/// Whether both bodies are the same.
fn is_same_body(body: Option<&Body>, other: Option<&Body>) -> bool
    ensures { IsTrue result ↔ (option_copied body.entry ≡ option_copied other.entry) }
{
    match (body, other) {
        (Some(body), Some(other)) => body == other,
        (None, None) => true,
        _ => false,
    }
}

/// Whether the bodies at the places are the same, number by number.
fn has_same_bodies(
    slots: &Slab<Inode>,
    places: &BTreeMap<u32, usize>,
    other_slots: &Slab<Inode>,
    other_places: &BTreeMap<u32, usize>,
) -> bool
    requires bodies { AreHoused slots.now places.now.entries }
    requires others { AreHoused other_slots.now other_places.now.entries }
    ensures { IsTrue result ↔ (bodies_of (body_at slots.now) places.now.entries ≡ bodies_of (body_at other_slots.now) other_places.now.entries) }
{
    let mut others = other_places.iter();
    for (number, key) in places {
        let Some((other_number, other_key)) = others.next() else {
            return false;
        };
        if *number != *other_number {
            return false;
        }
        if !is_same_body(body_at(slots, *key), body_at(other_slots, *other_key)) {
            return false;
        }
    }
    others.next().is_none()
}

impl Table {
    /// Whether the entries are the same.
    fn has_entries_of(&self, other: &Table) -> bool
        ensures { IsTrue result ↔ (self.now.entries ≡ other.now.entries) }
    {
        if !is_same_node(self.node_at(&[]), other.node_at(&[])) {
            return false;
        }
        let mut rows = self.all_below(&[]);
        let mut others = other.all_below(&[]);
        while let Some(row) = rows.next() {
            if !is_next(&row, &mut others) {
                return false;
            }
        }
        others.next().is_none()
    }

    /// Whether the bodies are the same.
    fn has_bodies_of(&self, other: &Table) -> bool
        ensures { IsTrue result ↔ (self.now.bodies ≡ other.now.bodies) }
    {
        has_same_bodies(&self.slots, &self.places, &other.slots, &other.places)
    }

    /// Whether the entries, the bodies, the next numbers and the most inodes are the same.
    ///
    /// Takes no memory. Cost: the number of paths, times the logarithm of a directory's entries, and the bytes of
    /// the files.
    pub fn is_same(&self, other: &Table) -> bool
        ensures { result ≡ tree_eq self.now other.now }
    {
        if !self.has_entries_of(other) {
            return false;
        }
        if !self.has_bodies_of(other) {
            return false;
        }
        if self.next != other.next {
            return false;
        }
        self.most == other.most
    }
}
