ghost use Rattle.std.specs.Prelude.{◌≡◌, ℕ, List, Some, None, IfOk, OnOk, OnErr, cond, ◌<◌, ◌+◌, ◌^◌, IsSome, option_and_then, find, nat_lt};
ghost use Rattle.std.specs.Option.{option_copied};
ghost use Rattle.std.specs.Ordering.{nat_cmp};
ghost use Rattle.std.specs.Cmp.Lexicographic.{slice_cmp};
ghost use Rattle.std.specs.Map.{lookup, keys_of};
ghost use Rattle.std.specs.BTreeMap.{is_at, insert_entry, IsOrdered};
ghost use Rattle.slab.specs.Slab.{slab_len, HasRoomFor};
ghost use Rattle.snap_layer.specs.Tree.{IsDirAt, number_of, leaf_node};
ghost use Rattle.snap_layer.specs.Walk.{entry_of, entry_at, node_of, body_of, links_of, node_at, body_at, count_at, node_shown, view_of, Links, Same, Adds, Shifted, Frees, Releases, Drops, LeavesWhiteout, Clears, Enters, Renames, Relocates, Lowers, Raises, Renodes, Rebodies};
ghost use Rattle.snap_layer.specs.Holds.{place};
ghost use Rattle.snap_layer.specs.Edits.{body_with_mode};
ghost use Rattle.snap_layer.specs.Counts.{body_blocks};
ghost use Rattle.snap_layer.specs.Contents.{body_content, body_edited, Grows, IsShort};
ghost use Rattle.snap_layer.specs.declared.node.Node.{Node as ANode};
ghost use Rattle.snap_layer.specs.declared.node.Body.{Body as BodyValue};

use super::bytes::Edit;
use super::inode::{Inode, Target};
use super::node::{Body, Meta, Node};
use super::walk::{entry_at as entry, number_at};
use slab::Slab;
use snap_path::Name;
use std::alloc::AllocError;
use std::collections::BTreeMap;
use std::ops::Bound;

/// Puts the target at the name. Where one stands there it takes no memory.
fn set_entry(
    entries: &mut BTreeMap<Name, Target>,
    name: &Name,
    target: Target,
) -> Result<(), AllocError>
    ensures ok { OnOk result ((m : List ℕ) → lookup (is_at (slice_cmp nat_cmp m)) entries.new.entries ≡ cond (is_at (slice_cmp nat_cmp name.now) m) (Some target) (lookup (is_at (slice_cmp nat_cmp m)) entries.old.entries)) }
    ensures err { OnErr result (entries.new.entries ≡ entries.old.entries) }
    ensures sure { OnErr result (lookup (is_at (slice_cmp nat_cmp name.now)) entries.old.entries ≡ None) }
{
    if let Some(slot) = entries.get_mut(name) {
        *slot = target;
        return Ok(());
    }
    entries.insert(name.clone()?, target)?;
    Ok(())
}

/// Puts the entry into the directory that stands at the key.
pub(crate) fn link(
    slots: &mut Slab<Inode>,
    dir: usize,
    name: &Name,
    target: Target,
) -> Result<(), AllocError>
    requires { IsDirAt (node_at slots.old dir) }
    ensures ok { OnOk result (Links (view_of slots.old) (view_of slots.new) dir name.now (Some target)) }
    ensures err { OnErr result (Same (view_of slots.old) (view_of slots.new)) }
    ensures sure { OnErr result (entry_at slots.old dir name.now ≡ None) }
    ensures len { slab_len slots.new ≡ slab_len slots.old }
    ensures capacity { slots.new.capacity ≡ slots.old.capacity }
    ensures vacant { slots.new.vacant_key ≡ slots.old.vacant_key }
{
    let Some(inode) = slots.get_mut(dir) else {
        unreachable!()
    };
    match inode {
        Inode::Dir { entries, .. } => set_entry(entries, name, target),
        Inode::Leaf { .. } => unreachable!(),
    }
}

/// Takes the name's entry from the directory that stands at the key.
pub(crate) fn unlink(slots: &mut Slab<Inode>, dir: usize, name: &Name)
    requires { IsDirAt (node_at slots.old dir) }
    ensures { Links (view_of slots.old) (view_of slots.new) dir name.now None }
{
    let Some(inode) = slots.get_mut(dir) else {
        unreachable!()
    };
    match inode {
        Inode::Dir { entries, .. } => {
            entries.remove(name);
        }
        Inode::Leaf { .. } => unreachable!(),
    }
}

/// Puts the inode under the next key, and the entry for it.
pub(crate) fn put_inode(
    slots: &mut Slab<Inode>,
    dir: usize,
    name: &Name,
    inode: Inode,
) -> Result<(), AllocError>
    requires dir { IsDirAt (node_at slots.old dir) }
    requires bare { (m : List ℕ) → entry_of (Some inode) m ≡ None }
    ensures ok { OnOk result ((v : ANode) → node_of (Some inode) ≡ Some v → Adds (view_of slots.old) (view_of slots.new) dir name.now slots.old.vacant_key v (body_of (Some inode)) (links_of (Some inode))) }
    ensures err { OnErr result (Same (view_of slots.old) (view_of slots.new)) }
    ensures sure { HasRoomFor slots.old 1 → OnErr result (entry_at slots.old dir name.now ≡ None) }
{
    slots.reserve(1)?;
    let key = slots.vacant_key();
    link(slots, dir, name, Target::Inode(key))?;
    slots.insert_reserved(inode);
    Ok(())
}

/// Puts the target at one place, in place of what stands there, and takes it from the other, where a whiteout is
/// left if `leaves` says so.
pub(crate) fn relocate(
    slots: &mut Slab<Inode>,
    places: &mut BTreeMap<u32, usize>,
    from: usize,
    old: &Name,
    to: usize,
    new: &Name,
    target: Target,
    leaves: bool,
) -> Result<(), AllocError>
    requires from { IsDirAt (node_at slots.old from) }
    requires to { IsDirAt (node_at slots.old to) }
    requires there { entry_at slots.old from old.now ≡ Some target }
    requires apart { from ≡ to → old.now ≡ new.now → ⊥ }
    requires not_from { entry_at slots.old to new.now ≡ Some (Target.Inode from) → ⊥ }
    requires not_to { entry_at slots.old to new.now ≡ Some (Target.Inode to) → ⊥ }
    ensures ok { OnOk result (Relocates (view_of slots.old) (view_of slots.new) places.old.entries places.new.entries from old.now to new.now leaves) }
    ensures err { OnErr result (Same (view_of slots.old) (view_of slots.new) × (places.new.entries ≡ places.old.entries)) }
    ensures sure { OnErr result (entry_at slots.old to new.now ≡ None) }
{
    clear_entry(slots, places, to, new);
    shift(slots, from, old, to, new, target, leaves)
}

/// Puts the target at one place, and takes it from the other, where a whiteout is left if `leaves` says so.
fn shift(
    slots: &mut Slab<Inode>,
    from: usize,
    old: &Name,
    to: usize,
    new: &Name,
    target: Target,
    leaves: bool,
) -> Result<(), AllocError>
    requires from { IsDirAt (node_at slots.old from) }
    requires to { IsDirAt (node_at slots.old to) }
    requires there { entry_at slots.old from old.now ≡ Some target }
    requires apart { from ≡ to → old.now ≡ new.now → ⊥ }
    ensures ok { OnOk result (Shifted (view_of slots.old) (view_of slots.new) from old.now to new.now leaves) }
    ensures err { OnErr result (Same (view_of slots.old) (view_of slots.new)) }
    ensures sure { OnErr result (entry_at slots.old to new.now ≡ None) }
{
    link(slots, to, new, target)?;
    if leaves {
        let _ = link(slots, from, old, Target::Whiteout);
        return Ok(());
    }
    unlink(slots, from, old);
    Ok(())
}

/// One link fewer of the leaf at the key.
fn drop_link(slots: &mut Slab<Inode>, key: usize)
    requires { 1 < count_at slots.old key }
    ensures lowers { Lowers (view_of slots.old) (view_of slots.new) key }
    ensures room { HasRoomFor slots.old 1 → HasRoomFor slots.new 1 }
{
    let Some(inode) = slots.get_mut(key) else {
        unreachable!()
    };
    match inode {
        Inode::Leaf { links, .. } => *links -= 1,
        Inode::Dir { .. } => unreachable!(),
    }
}

/// One name fewer of the file or symlink with the key. With its last one the inode and its place go.
fn drop_name(slots: &mut Slab<Inode>, places: &mut BTreeMap<u32, usize>, key: usize, number: u32)
    requires { option_and_then number_of (node_at slots.old key) ≡ Some number }
    ensures frees { Frees (view_of slots.old) (view_of slots.new) places.old.entries places.new.entries key }
    ensures room { HasRoomFor slots.old 1 → HasRoomFor slots.new 1 }
{
    if links_at(slots, key) > 1 {
        drop_link(slots, key);
        return;
    }
    slots.try_remove(key);
    places.remove(&number);
}

/// Takes a directory's inode, or one name of a file or symlink.
fn free(slots: &mut Slab<Inode>, places: &mut BTreeMap<u32, usize>, key: usize)
    ensures frees { Frees (view_of slots.old) (view_of slots.new) places.old.entries places.new.entries key }
    ensures room { HasRoomFor slots.old 1 → HasRoomFor slots.new 1 }
{
    match number_at(slots, key) {
        Some(number) => drop_name(slots, places, key, number),
        None => {
            slots.try_remove(key);
        }
    }
}

/// Takes what an entry had, once it has it no more.
fn release(slots: &mut Slab<Inode>, places: &mut BTreeMap<u32, usize>, target: Option<Target>)
    ensures releases { Releases (view_of slots.old) (view_of slots.new) places.old.entries places.new.entries target }
    ensures room { HasRoomFor slots.old 1 → HasRoomFor slots.new 1 }
{
    match target {
        Some(Target::Inode(key)) => free(slots, places, key),
        Some(Target::Whiteout) => {}
        None => {}
    }
}

/// Puts a whiteout at the entry, in place of what stands there.
pub(crate) fn cover(
    slots: &mut Slab<Inode>,
    places: &mut BTreeMap<u32, usize>,
    dir: usize,
    name: &Name,
) -> Result<(), AllocError>
    requires { IsDirAt (node_at slots.old dir) }
    ensures ok { OnOk result (LeavesWhiteout (view_of slots.old) (view_of slots.new) places.old.entries places.new.entries dir name.now) }
    ensures err { OnErr result (Same (view_of slots.old) (view_of slots.new) × (places.new.entries ≡ places.old.entries)) }
    ensures sure { OnErr result (entry_at slots.old dir name.now ≡ None) }
    ensures room { HasRoomFor slots.old 1 → HasRoomFor slots.new 1 }
{
    let target = entry(slots, dir, name);
    link(slots, dir, name, Target::Whiteout)?;
    release(slots, places, target);
    Ok(())
}

/// Puts a whiteout in place of what stands at the entry, if anything does.
fn clear_entry(slots: &mut Slab<Inode>, places: &mut BTreeMap<u32, usize>, dir: usize, name: &Name)
    requires { IsDirAt (node_at slots.old dir) }
    ensures clears { Clears (view_of slots.old) (view_of slots.new) places.old.entries places.new.entries dir name.now (entry_at slots.old dir name.now) }
    ensures room { HasRoomFor slots.old 1 → HasRoomFor slots.new 1 }
{
    if entry(slots, dir, name).is_some() {
        let _ = cover(slots, places, dir, name);
    }
}

/// Gives the number, which has a place, another one.
fn set_place(places: &mut BTreeMap<u32, usize>, number: u32, key: usize)
    requires { IsSome (place places.old.entries number) }
    ensures entries { places.new.entries ≡ insert_entry nat_cmp places.old.entries number key }
    ensures ordered { IsOrdered nat_cmp places.old }
{
    let _ = places.insert(number, key);
}

/// Puts the inode of a file or symlink with the number, and its place, in place of what stands at the entry.
pub(crate) fn put_leaf(
    slots: &mut Slab<Inode>,
    places: &mut BTreeMap<u32, usize>,
    dir: usize,
    name: &Name,
    number: u32,
    inode: Inode,
) -> Result<(), AllocError>
    requires dir { IsDirAt (node_at slots.old dir) }
    requires bare { (m : List ℕ) → entry_of (Some inode) m ≡ None }
    requires fresh { place places.old.entries number ≡ None }
    requires sorted { IsOrdered nat_cmp places.old }
    requires apart { entry_at slots.old dir name.now ≡ Some (Target.Inode dir) → ⊥ }
    requires other { option_and_then number_of (node_shown (node_at slots.old) (entry_at slots.old dir name.now)) ≡ Some number → ⊥ }
    ensures ok { OnOk result ((v : ANode) → node_of (Some inode) ≡ Some v → Enters (view_of slots.old) (view_of slots.new) places.old.entries places.new.entries dir name.now number v (body_of (Some inode)) (links_of (Some inode))) }
    ensures err { OnErr result (Same (view_of slots.old) (view_of slots.new) × (places.new.entries ≡ places.old.entries)) }
{
    slots.reserve(1)?;
    places.insert(number, dir)?;
    clear_entry(slots, places, dir, name);
    let key = slots.vacant_key();
    match put_inode(slots, dir, name, inode) {
        Ok(()) => {
            set_place(places, number, key);
            Ok(())
        }
        Err(error) => {
            places.remove(&number);
            Err(error)
        }
    }
}

/// Takes the entry, and what stands there.
pub(crate) fn take_target(
    slots: &mut Slab<Inode>,
    places: &mut BTreeMap<u32, usize>,
    dir: usize,
    name: &Name,
)
    requires { IsDirAt (node_at slots.old dir) }
    ensures { Drops (view_of slots.old) (view_of slots.new) places.old.entries places.new.entries dir name.now None }
{
    let target = entry(slots, dir, name);
    unlink(slots, dir, name);
    release(slots, places, target);
}

/// One link more of the leaf at the key.
fn raise_link(slots: &mut Slab<Inode>, key: usize)
    requires leaf { IsSome (body_at slots.old key) }
    requires few { count_at slots.old key + 1 < 2 ^ 64 }
    ensures { Raises (view_of slots.old) (view_of slots.new) key }
{
    let Some(inode) = slots.get_mut(key) else {
        unreachable!()
    };
    match inode {
        Inode::Leaf { links, .. } => *links += 1,
        Inode::Dir { .. } => unreachable!(),
    }
}

/// Puts one more name of the leaf with the key in place of what stands at the entry.
pub(crate) fn replace_name(
    slots: &mut Slab<Inode>,
    places: &mut BTreeMap<u32, usize>,
    dir: usize,
    name: &Name,
    key: usize,
) -> Result<(), AllocError>
    requires dir { IsDirAt (node_at slots.old dir) }
    requires leaf { IsSome (body_at slots.old key) }
    requires few { count_at slots.old key + 1 < 2 ^ 64 }
    requires apart { entry_at slots.old dir name.now ≡ Some (Target.Inode dir) → ⊥ }
    requires other { entry_at slots.old dir name.now ≡ Some (Target.Inode key) → ⊥ }
    ensures ok { OnOk result (Renames (view_of slots.old) (view_of slots.new) places.old.entries places.new.entries dir name.now key) }
    ensures err { OnErr result (Same (view_of slots.old) (view_of slots.new) × (places.new.entries ≡ places.old.entries)) }
    ensures sure { OnErr result (entry_at slots.old dir name.now ≡ None) }
{
    clear_entry(slots, places, dir, name);
    link(slots, dir, name, Target::Inode(key))?;
    raise_link(slots, key);
    Ok(())
}

/// The body of the leaf with the key.
pub(crate) fn body_at(slots: &Slab<Inode>, key: usize) -> Option<&Body>
    ensures { option_copied result ≡ body_at slots.now key }
{
    match slots.get(key) {
        Some(Inode::Leaf { body, .. }) => Some(body),
        Some(Inode::Dir { .. }) => None,
        None => None,
    }
}

/// How many links the leaf with the key has.
pub(crate) fn links_at(slots: &Slab<Inode>, key: usize) -> usize
    ensures { result ≡ count_at slots.now key }
{
    match slots.get(key) {
        Some(Inode::Leaf { links, .. }) => *links,
        Some(Inode::Dir { .. }) => 0,
        None => 0,
    }
}

/// Gives the leaf with the key another body.
pub(crate) fn set_body(slots: &mut Slab<Inode>, key: usize, body: Body)
    requires leaf { IsSome (body_at slots.old key) }
    requires kind { (b : BodyValue) (k : ℕ) → body_at slots.old key ≡ Some b → leaf_node k body ≡ leaf_node k b }
    ensures { Rebodies (view_of slots.old) (view_of slots.new) key body }
{
    let Some(inode) = slots.get_mut(key) else {
        unreachable!()
    };
    match inode {
        Inode::Leaf { body: own, .. } => *own = body,
        Inode::Dir { .. } => unreachable!(),
    }
}

/// Edits the file with the key in place, and gives the blocks that it took and those that it takes.
pub(crate) fn edit_body(
    slots: &mut Slab<Inode>,
    key: usize,
    edit: Edit<'_>,
) -> Result<(u64, u64), AllocError>
    requires short { (b : BodyValue) → body_at slots.old key ≡ Some b → IsShort edit (body_content (Some b)) }
    requires leaf { IsSome (body_at slots.old key) }
    ensures ok { (b : BodyValue) → body_at slots.old key ≡ Some b → OnOk result (Rebodies (view_of slots.old) (view_of slots.new) key (body_edited b edit.entry)) }
    ensures blocks { (b : BodyValue) → body_at slots.old key ≡ Some b → IfOk result (λ n. n ≡ (body_blocks b, body_blocks (body_edited b edit.entry))) }
    ensures grows { (b : BodyValue) → body_at slots.old key ≡ Some b → OnErr result (Grows edit.entry (body_content (Some b))) }
    ensures err { OnErr result (Same (view_of slots.old) (view_of slots.new)) }
{
    let Some(inode) = slots.get_mut(key) else {
        unreachable!()
    };
    match inode {
        Inode::Leaf { body, .. } => body.edit(edit),
        Inode::Dir { .. } => unreachable!(),
    }
}

/// Sets the mode of the leaf with the key.
pub(crate) fn set_mode(slots: &mut Slab<Inode>, key: usize, mode: u32)
    requires { IsSome (body_at slots.old key) }
    ensures { (b : BodyValue) → body_at slots.old key ≡ Some b → Rebodies (view_of slots.old) (view_of slots.new) key (body_with_mode b mode) }
{
    let Some(inode) = slots.get_mut(key) else {
        unreachable!()
    };
    match inode {
        Inode::Leaf { body, .. } => body.set_mode(mode),
        Inode::Dir { .. } => unreachable!(),
    }
}

/// Sets the meta and the mark of the directory at the key.
pub(crate) fn set_dir(slots: &mut Slab<Inode>, key: usize, meta: Meta, opaque: bool)
    requires { IsDirAt (node_at slots.old key) }
    ensures { Renodes (view_of slots.old) (view_of slots.new) key (Node.Dir meta opaque) }
{
    let Some(inode) = slots.get_mut(key) else {
        unreachable!()
    };
    match inode {
        Inode::Dir {
            meta: own,
            opaque: mark,
            ..
        } => {
            *own = meta;
            *mark = opaque;
        }
        Inode::Leaf { .. } => unreachable!(),
    }
}

/// A copy of the places.
pub(crate) fn copied(places: &BTreeMap<u32, usize>) -> Result<BTreeMap<u32, usize>, AllocError>
    ensures { IfOk result (λ m. m.entries ≡ places.now.entries) }
{
    places.clone()
}

/// The key of the inode of the number.
pub(crate) fn place_of(places: &BTreeMap<u32, usize>, number: u32) -> Option<usize>
    ensures { result ≡ place places.now.entries number }
{
    places.get(&number).copied()
}

/// The least number above `after` that has a place.
pub(crate) fn next_place(places: &BTreeMap<u32, usize>, after: u32) -> Option<u32>
    ensures { result ≡ find (λ k. nat_lt after k) (keys_of places.now.entries) }
{
    match places
        .range((Bound::Excluded(after), Bound::Unbounded))
        .next()
    {
        Some((number, _)) => Some(*number),
        None => None,
    }
}
