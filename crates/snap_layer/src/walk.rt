ghost use Rattle.std.specs.Prelude.{◌≡◌, ◌++◌, ◌∷◌, [], ℕ, List, Option, Some, None, option_and_then};
ghost use Rattle.snap_path.specs.Text.{Names, IsPath};
ghost use Rattle.slab.specs.Slab.{get};
ghost use Rattle.snap_layer.specs.Tree.{IsDirAt, number_of};
ghost use Rattle.std.specs.List.Sorted.{IsStrictlySortedBy};
ghost use Rattle.std.specs.Map.{keys_of};
ghost use Rattle.snap_layer.specs.Walk.{walk, entry_at, node_of, node_at, stands, view_of};
ghost use Rattle.snap_layer.specs.Rows.{name_cmp, items_at};

use super::inode::{Inode, Target};
use super::node::{Body, Node};
use slab::Slab;
use snap_path::{Name, Path};

/// What stands where the names lead from the root.
pub(crate) fn walk(slots: &Slab<Inode>, root: usize, names: &[Name]) -> Option<Target>
    ensures { result ≡ walk (entry_at slots.now) root names.now }
{
    let mut spot = Target::Inode(root);
    for name in names {
        let Target::Inode(dir) = spot else {
            return None;
        };
        let Some(next) = entry_at(slots, dir, name) else {
            return None;
        };
        spot = next;
    }
    Some(spot)
}

pub(crate) fn entry_at(slots: &Slab<Inode>, dir: usize, name: &Name) -> Option<Target>
    ensures { result ≡ entry_at slots.now dir name.now }
{
    match slots.get(dir) {
        Some(Inode::Dir { entries, .. }) => entries.get(name).copied(),
        Some(Inode::Leaf { .. }) => None,
        None => None,
    }
}

/// The node of the inode with the key, whose entries are in order.
#[tactic(auto, using(crate::proofs::Inside::no_names))]
pub(crate) fn node_of(slots: &Slab<Inode>, key: usize) -> Option<Node>
    ensures node { result ≡ node_of (get slots.now key) }
    ensures order { IsStrictlySortedBy name_cmp (keys_of (items_at slots.now key)) }
{
    match slots.get(key) {
        Some(
            Inode::Dir {
                meta,
                opaque,
                entries,
            },
        ) => {
            prove!(entries.len() < usize::MAX);
            Some(Node::Dir {
                meta: *meta,
                opaque: *opaque,
            })
        }
        Some(Inode::Leaf { number, body, .. }) => match body {
            Body::File { .. } => Some(Node::File { number: *number }),
            Body::Symlink { .. } => Some(Node::Symlink { number: *number }),
        },
        None => None,
    }
}

/// The node that stands there.
pub(crate) fn stands(slots: &Slab<Inode>, root: usize, names: &[Name]) -> Option<Node>
    ensures { result ≡ stands (view_of slots.now) root names.now }
{
    match walk(slots, root, names) {
        Some(Target::Inode(key)) => node_of(slots, key),
        Some(Target::Whiteout) => Some(Node::Whiteout),
        None => None,
    }
}

/// The key of the directory to which the names lead.
pub(crate) fn dir_at(slots: &Slab<Inode>, root: usize, names: &[Name]) -> usize
    requires { IsDirAt (stands (view_of slots.now) root names.now) }
    ensures leads { walk (entry_at slots.now) root names.now ≡ Some (Target.Inode result) }
    ensures dir { IsDirAt (node_at slots.now result) }
{
    match walk(slots, root, names) {
        Some(Target::Inode(key)) => key,
        Some(Target::Whiteout) => unreachable!(),
        None => unreachable!(),
    }
}

/// The key of the directory in which the path lies, and the path's last name.
pub(crate) fn parent_at<'a>(slots: &Slab<Inode>, root: usize, path: &'a Path) -> (usize, &'a Name)
    requires below_root { path.now ≡ [] → ⊥ }
    requires parent { (q : Names) (n : List ℕ) → path.now ≡ q ++ n ∷ [] → IsDirAt (stands (view_of slots.now) root q) }
    ensures leads { (q : Names) × (path.now ≡ q ++ result.1.now ∷ []) × (walk (entry_at slots.now) root q ≡ Some (Target.Inode result.0)) }
    ensures dir { IsDirAt (node_at slots.now result.0) }
    ensures path { IsPath path.now }
{
    parent_of(slots, root, path.names())
}

/// The same of the path of the names.
pub(crate) fn parent_of<'a>(
    slots: &Slab<Inode>,
    root: usize,
    names: &'a [Name],
) -> (usize, &'a Name)
    requires below_root { names.now ≡ [] → ⊥ }
    requires parent { (q : Names) (n : List ℕ) → names.now ≡ q ++ n ∷ [] → IsDirAt (stands (view_of slots.now) root q) }
    ensures leads { (q : Names) × (names.now ≡ q ++ result.1.now ∷ []) × (walk (entry_at slots.now) root q ≡ Some (Target.Inode result.0)) }
    ensures dir { IsDirAt (node_at slots.now result.0) }
{
    let Some((name, front)) = names.split_last() else {
        unreachable!()
    };
    (dir_at(slots, root, front), name)
}

/// The file number of the inode with the key.
pub(crate) fn number_at(slots: &Slab<Inode>, key: usize) -> Option<u32>
    ensures { result ≡ option_and_then number_of (node_at slots.now key) }
{
    match node_of(slots, key) {
        Some(node) => node.number(),
        None => None,
    }
}
