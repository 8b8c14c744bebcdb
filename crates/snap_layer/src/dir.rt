// A directory of a layer, by which a walk goes on name by name.
ghost use Rattle.std.specs.Prelude.{◌≡◌, ◌≤◌, ℕ, [], Some, true, IfOk};
ghost use Rattle.std.specs.FinMap as map;
ghost use Rattle.std.specs.Bound.{bound_map};
ghost use Rattle.std.specs.List.Sorted.{IsStrictlySortedBy};
ghost use Rattle.std.specs.Map.{keys_of};
ghost use Rattle.std.specs.Option.{option_copied};
ghost use Rattle.snap_layer.specs.Tree.{Tree, at, body, is_dir, names_below};
ghost use Rattle.snap_layer.specs.Directory.{entry, IsFirstName};
ghost use Rattle.snap_layer.specs.Rows.{name_cmp, items_at};
ghost use Rattle.snap_layer.specs.Walk.{view_of, IsTable};
ghost use Rattle.snap_layer.specs.Holds.{Holds, Holds-prop};
ghost use Rattle.snap_layer.specs.Reached.{OnlyPath, OnlyPath-prop};
ghost use Rattle.snap_layer.specs.contracts.node.Node as node_contracts;
ghost use Rattle.snap_layer.specs.contracts.inode.Target as target_contracts;

use super::inode::{Inode, Target};
use super::node::{Body, Node};
use super::table::Table;
use super::table::reads::names_in;
use super::walk::{entry_at, node_of};
use slab::Slab;
use snap_path::Name;
use std::alloc::AllocError;
use std::collections::BTreeMap;
use std::marker::Model;
use std::ops::Bound;

/// The first name of the entries from the bound on.
fn name_from<'a>(entries: &'a BTreeMap<Name, Target>, from: Bound<&Name>) -> Option<&'a Name>
    ensures first { IsFirstName (bound_map (λ n. n.now) from.entry) (keys_of entries.now.entries) (option_copied result) }
    ensures order { IsStrictlySortedBy name_cmp (keys_of entries.now.entries) }
{
    match entries.range((from, Bound::Unbounded)).next() {
        Some((name, _)) => Some(name),
        None => None,
    }
}

/// The same in the directory with the key.
#[tactic(auto, using(crate::proofs::Inside::no_names))]
fn name_at<'a>(slots: &'a Slab<Inode>, key: usize, from: Bound<&Name>) -> Option<&'a Name>
    ensures first { IsFirstName (bound_map (λ n. n.now) from.entry) (keys_of (items_at slots.now key)) (option_copied result) }
    ensures order { IsStrictlySortedBy name_cmp (keys_of (items_at slots.now key)) }
{
    match slots.get(key) {
        Some(Inode::Dir { entries, .. }) => name_from(entries, from),
        Some(Inode::Leaf { .. }) => None,
        None => None,
    }
}

/// A directory of a layer, from which a walk goes on name by name. It lends its layer, which no edit changes
/// for as long.
///
/// Contracts see it as a `Directory`: the layer, and the directory's path in it.
#[derive(Drop)]
pub struct Dir<'a> {
    table: &'a Table,
    slots: &'a Slab<Inode>,
    root: usize,
    key: usize,
    ghost tree: { Holds slots.now root } by { Holds-prop (node_contracts.the_row).coded slots.now root },
    ghost path: { OnlyPath slots.now root key } by { OnlyPath-prop (target_contracts.the_row).coded slots.now root key },
}

impl<'a> Model for Dir<'a> {
    ghost use Rattle.std.specs.FinMap as map;
    ghost use Rattle.std.specs.Prelude.{◌≡◌};
    ghost use Rattle.snap_layer.specs.Tree.{IsDirAt};
    ghost use Rattle.snap_layer.specs.Directory.{Directory};
    ghost use Rattle.snap_layer.specs.Walk.{IsTable, node_at, view_of};

    ghost Value = { Directory };

    ghost view = { λ d. record { layer = d.table.now; path = d.path.0 } };

    ghost invariant = { λ d. IsTable (view_of d.slots.now) d.root × IsDirAt (node_at d.slots.now d.key) × (map.entries d.tree.0 ≡ d.table.now.entries) };
}

impl<'a> Dir<'a> {
    /// The root of the table that has these slots.
    pub(crate) fn root(table: &'a Table, slots: &'a Slab<Inode>, root: usize) -> Dir<'a>
        requires table { IsTable (view_of slots.now) root }
        requires holds { (h : Holds slots.now root) × (map.entries h.0 ≡ table.now.entries) }
        ensures { result ≡ record { layer = table.now; path = [] } }
    {
        Dir {
            table,
            slots,
            root,
            key: root,
        }
    }

    /// The directory's own node, which is a directory with its meta and mark.
    ///
    /// Takes no memory. The cost is constant.
    pub fn node(&self) -> Node
        ensures node { at self.now.layer self.now.path ≡ Some result }
        ensures dir { is_dir result ≡ true }
    {
        match node_of(self.slots, self.key) {
            Some(node) => node,
            None => unreachable!(),
        }
    }

    /// What the directory has at the name, a whiteout too, and the directory that it is where it is one: the
    /// walk goes on from there.
    ///
    /// Takes no memory. Cost: the logarithm of the directory's entries.
    pub fn entry(&self, name: &Name) -> Option<(Node, Option<Dir<'a>>)>
        ensures { result ≡ entry self.now name.now }
    {
        match entry_at(self.slots, self.key, name) {
            None => None,
            Some(Target::Whiteout) => Some((Node::Whiteout, None)),
            Some(Target::Inode(key)) => {
                let Some(node) = node_of(self.slots, key) else {
                    unreachable!()
                };
                if !node.is_dir() {
                    return Some((node, None));
                }
                let dir = Dir {
                    table: self.table,
                    slots: self.slots,
                    root: self.root,
                    key,
                };
                Some((node, Some(dir)))
            }
        }
    }

    /// The first of the directory's names from the bound on, in byte order, a whiteout's too, or nothing where there
    /// is none: from `Bound::Excluded` of a name it is the next one.
    ///
    /// Takes no memory. Cost: the logarithm of the directory's entries.
    pub fn first_name(&self, from: Bound<&Name>) -> Option<&'a Name>
        ensures { IsFirstName (bound_map (λ n. n.now) from.entry) (names_below self.now.path self.now.layer.entries) (option_copied result) }
    {
        name_at(self.slots, self.key, from)
    }

    /// The names in the directory, in byte order, whiteouts among them.
    ///
    /// It fails only where memory is refused. Cost: the directory's entries.
    pub fn children(&self) -> Result<Vec<Name>, AllocError>
        ensures { IfOk result (λ names. names.items ≡ names_below self.now.path self.now.layer.entries) }
    {
        let table = self.table;
        let target = Target::Inode(self.key);
        names_in(table.alloc, self.slots, target)
    }

    /// The file or symlink of the directory's layer with the number, or nothing.
    ///
    /// Takes no memory. Cost: the logarithm of the number of files.
    pub fn body(&self, number: u32) -> Option<&'a Body>
        ensures { option_copied result ≡ body self.now.layer number }
    {
        self.table.body(number)
    }
}
