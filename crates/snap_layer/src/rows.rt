// The entries of a table in order of paths.
ghost use Rattle.std.specs.Prelude.{[], ◌≡◌, ◌≤◌, ◌+◌, ◌∷◌, ◌++◌, length, take, ℕ, Some, MatchOption, IfSome, IfNone, IfOk, IsOk, IsSome};
ghost use Rattle.std.specs.Option.{option_copied};
ghost use Rattle.std.specs.List.Sorted.{IsStrictlySortedBy};
ghost use Rattle.std.specs.Map.{keys_of};
ghost use Rattle.smallvec.specs.SmallVec.{HasRoomFor};
ghost use Rattle.snap_path.specs.Limits.{most_path_bytes};
ghost use Rattle.snap_path.specs.Text.{Names, text_below};
ghost use Rattle.snap_layer.specs.contracts.node.Node as node_contracts;
ghost use Rattle.snap_layer.specs.Walk.{walk, entry_at, node_at, node_shown};
ghost use Rattle.snap_layer.specs.Holds.{Holds, Holds-prop};
ghost use Rattle.snap_layer.specs.Rows.{name_cmp, items_at, items_in, items_above, last_path, ahead, frame_text, frames_text, frame_of, entered_from, items_from, Passes};

use super::inode::{Inode, Target};
use super::node::Node;
use super::walk::{node_of, walk};
use slab::Slab;
use smallvec::SmallVec;
use snap_path::Name;
use std::alloc::{AllocError, Global};
use std::collections::BTreeMap;
use std::marker::Model;
use std::ops::Bound;

/// How many inodes on the way a walk has room for in itself, where it may take memory for more.
pub(crate) const FEW_FRAMES: usize = 16;

/// One more than the most names of a path: no walk passes more inodes.
pub(crate) const MOST_FRAMES: usize = 2048;

/// An inode on the way: its key, and its name that came last.
#[derive(Default, Drop)]
pub(crate) struct Frame<'a> {
    key: usize,
    last: Option<&'a Name>,
}

impl<'a> Model for Frame<'a> {
    ghost use Rattle.std.specs.Prelude.{ℕ, List, Option};
    ghost use Rattle.std.specs.Option.{option_copied};

    ghost Value = { ℕ × Option (List ℕ) };

    ghost view = { λ f. (f.key, option_copied f.last) };
}

type Frames<'a, const ROOM: usize> = SmallVec<Frame<'a>, ROOM>;

/// The first item above the name.
fn item_after<'a>(
    entries: &'a BTreeMap<Name, Target>,
    last: Option<&'a Name>,
) -> Option<(&'a Name, Target)>
    ensures { MatchOption result (items_above (option_copied last.entry) entries.now.entries ≡ []) (λ i. items_above (option_copied last.entry) entries.now.entries ≡ (i.0.now, i.1) ∷ items_above (Some i.0.now) entries.now.entries) }
{
    let start = match last {
        Some(name) => Bound::Excluded(name),
        None => Bound::Unbounded,
    };
    match entries.range((start, Bound::Unbounded)).next() {
        Some((name, target)) => Some((name, *target)),
        None => None,
    }
}

/// The first item above the name, in the directory with the key.
fn first_after<'a>(
    slots: &'a Slab<Inode>,
    key: usize,
    last: Option<&'a Name>,
) -> Option<(&'a Name, Target)>
    ensures { MatchOption result (items_above (option_copied last.entry) (items_at slots.now key) ≡ []) (λ i. items_above (option_copied last.entry) (items_at slots.now key) ≡ (i.0.now, i.1) ∷ items_above (Some i.0.now) (items_at slots.now key)) }
{
    match slots.get(key) {
        Some(Inode::Dir { entries, .. }) => item_after(entries, last),
        Some(Inode::Leaf { .. }) => None,
        None => None,
    }
}

/// The bytes of a path's text that the name takes.
#[tactic(auto, using(crate::proofs::Ahead::name_short))]
fn text_of(last: Option<&Name>) -> usize
    ensures value { result ≡ frame_text (option_copied last.entry) }
    ensures small { result ≤ 256 }
{
    match last {
        Some(name) => 1 + name.as_str().len(),
        None => 0,
    }
}

/// Goes on to the next name and its target, and leaves the inodes that have no more.
fn advance<'a, const ROOM: usize>(
    slots: &'a Slab<Inode>,
    frames: &mut Frames<'a, ROOM>,
    text: &mut usize,
) -> Option<(&'a Name, Target)>
    requires text { text.old ≡ frames_text frames.old.items }
    requires small { text.old ≤ most_path_bytes }
    requires room { length frames.old.items ≤ frames.old.capacity }
    ensures ahead { (p : Names)
        → MatchOption result (ahead slots.now p frames.old.items ≡ []) (λ i. ahead slots.now p frames.old.items ≡ (last_path p frames.new.items, i.1) ∷ ahead slots.now p frames.new.items) }
    ensures passes { IfSome result (λ i. Passes frames.old.items frames.new.items i.0.now) }
    ensures gone { IfNone result (frames.new.items ≡ []) }
    ensures text { text.new ≡ frames_text frames.new.items }
    ensures room { length frames.new.items ≤ frames.new.capacity }
    ensures capacity { frames.new.capacity ≡ frames.old.capacity }
{
    while let Some(frame) = frames.pop() {
        *text -= text_of(frame.last);
        if let Some((name, target)) = first_after(slots, frame.key, frame.last) {
            let last = Some(name);
            *text += text_of(last);
            frames.push_reserved(Frame {
                key: frame.key,
                last,
            });
            return Some((name, target));
        }
    }
    None
}

/// Enters the inode that the target is.
fn enter<const ROOM: usize>(frames: &mut Frames<'_, ROOM>, target: Target)
    requires { HasRoomFor frames.old 1 }
    ensures items { frames.new.items ≡ frames.old.items ++ frame_of target }
    ensures room { length frames.new.items ≤ frames.new.capacity }
    ensures capacity { frames.new.capacity ≡ frames.old.capacity }
{
    if let Target::Inode(key) = target {
        frames.push_reserved(Frame { key, last: None });
    }
}

/// Enters the inode to which the path leads, whose items are in order.
#[tactic(auto, using(crate::proofs::Inside::no_names))]
fn enter_first<const ROOM: usize>(
    slots: &Slab<Inode>,
    root: usize,
    front: &[Name],
    frames: &mut Frames<'_, ROOM>,
)
    requires there { (c : ℕ) → walk (entry_at slots.now) root front.now ≡ Some (Target.Inode c) → IsSome (node_at slots.now c) }
    requires none { frames.old.items ≡ [] }
    requires room { 1 ≤ frames.old.capacity }
    ensures frames { frames.new.items ≡ entered_from (walk (entry_at slots.now) root front.now) }
    ensures order { IsStrictlySortedBy name_cmp (keys_of (items_from slots.now (walk (entry_at slots.now) root front.now))) }
    ensures room { length frames.new.items ≤ frames.new.capacity }
    ensures capacity { frames.new.capacity ≡ frames.old.capacity }
{
    if let Some(target) = walk(slots, root, front) {
        prove!(node_of_target(slots, target).is_some());
        enter(frames, target);
    }
}

/// The node of the target, whose items are in order.
#[tactic(auto, using(crate::proofs::Inside::no_names))]
pub(crate) fn node_of_target(slots: &Slab<Inode>, target: Target) -> Option<Node>
    ensures node { result ≡ node_shown (node_at slots.now) (Some target) }
    ensures order { IsStrictlySortedBy name_cmp (keys_of (items_in slots.now target)) }
{
    match target {
        Target::Whiteout => Some(Node::Whiteout),
        Target::Inode(key) => node_of(slots, key),
    }
}

/// An entry: how many names are above its own, its own name, the bytes that its names take below the front
/// of the walk, and what stands there.
#[derive(Drop)]
pub(crate) struct Row<'a> {
    pub(crate) above: usize,
    pub(crate) name: &'a Name,
    pub(crate) text: usize,
    pub(crate) node: Node,
}

/// A walk through the entries below a path, in order. It has room in itself for `ROOM` inodes on the way, and takes
/// memory for more: with `MOST_FRAMES` never.
///
/// Contracts see it as `Progress`: the path below which it goes, the path that came last, and the list of the
/// entries still to come.
#[derive(Drop)]
pub(crate) struct Rows<'a, const ROOM: usize> {
    slots: &'a Slab<Inode>,
    root: usize,
    front: &'a [Name],
    frames: Frames<'a, ROOM>,
    text: usize,
    ghost tree: { Holds slots.now root } by { Holds-prop (node_contracts.the_row).coded slots.now root },
}

impl<'a, const ROOM: usize> Model for Rows<'a, ROOM> {
    ghost use Rattle.std.specs.FinMap as map;
    ghost use Rattle.std.specs.Prelude.{◌≡◌, ◌≤◌, length};
    ghost use Rattle.snap_layer.specs.Rows.{Progress, last_path, ahead, spread, frames_text, IsWalk};

    ghost Value = { Progress };

    ghost view = { λ r. record { front = r.front.now; path = last_path r.front.now r.frames.items; rest = spread (map.entries r.tree.0) (ahead r.slots.now r.front.now r.frames.items) } };

    ghost invariant = { λ r. IsWalk r.slots.now r.root (map.entries r.tree.0) r.front.now r.frames.items × (r.text ≡ frames_text r.frames.items) × (ROOM ≤ r.frames.capacity) × (length r.frames.items ≤ r.frames.capacity) };
}

impl<'a, const ROOM: usize> Rows<'a, ROOM> {
    ghost use Rattle.std.specs.FinMap as map;
    ghost use Rattle.snap_layer.specs.Edits.{inside};
    ghost use Rattle.snap_layer.specs.Walk.{stands, view_of};
    ghost use Rattle.snap_layer.specs.Rows.{own, IsListed};

    /// The walk through what stands below the path. It takes no memory.
    pub(crate) fn below(
        alloc: Global,
        slots: &'a Slab<Inode>,
        root: usize,
        front: &'a [Name],
    ) -> Rows<'a, ROOM>
        requires table { (h : Holds slots.now root) × IsListed slots.now root (map.entries h.0) }
        requires room { 1 ≤ ROOM }
        ensures front { result.front ≡ front.now }
        ensures path { result.path ≡ front.now }
        ensures rest { (h : Holds slots.now root) → inside front.now (map.entries h.0) ≡ own front.now (stands (view_of slots.now) root front.now) ++ result.rest }
    {
        let mut frames = SmallVec::new(alloc);
        enter_first(slots, root, front, &mut frames);
        Rows {
            slots,
            root,
            front,
            frames,
            text: 0,
        }
    }

    /// The next entry.
    ///
    /// It fails only where memory is refused for the inodes on the way, and the walk then leaves out what is below
    /// this entry. Cost: the logarithm of a directory's entries, for the entry and for each directory that is left.
    pub(crate) fn try_next(&mut self) -> Result<Option<Row<'a>>, AllocError>
        ensures row { IfOk result (λ o. MatchOption o (self.old.rest ≡ []) (λ r. self.old.rest ≡ (self.new.path, r.node) ∷ self.new.rest)) }
        ensures path { IfOk result (λ o. IfSome o (λ r. self.new.path ≡ take r.above self.old.path ++ r.name.now ∷ [])) }
        ensures above { IfOk result (λ o. IfSome o (λ r. r.above + 1 ≡ length self.new.path)) }
        ensures text { IfOk result (λ o. IfSome o (λ r. length (text_below self.new.path) ≡ length (text_below self.old.front) + r.text)) }
        ensures front { self.new.front ≡ self.old.front }
        ensures sure { 2048 ≤ ROOM → IsOk result }
    {
        let Some((name, target)) = advance(self.slots, &mut self.frames, &mut self.text) else {
            return Ok(None);
        };
        self.frames.reserve(1)?;
        let above = self.front.len() + (self.frames.len() - 1);
        let Some(node) = node_of_target(self.slots, target) else {
            unreachable!()
        };
        enter(&mut self.frames, target);
        Ok(Some(Row {
            above,
            name,
            text: self.text,
            node,
        }))
    }
}

impl<'a> Rows<'a, MOST_FRAMES> {
    /// The next entry. It takes no memory. Cost: as `try_next`.
    pub(crate) fn next(&mut self) -> Option<Row<'a>>
        ensures row { MatchOption result (self.old.rest ≡ []) (λ r. self.old.rest ≡ (self.new.path, r.node) ∷ self.new.rest) }
        ensures path { IfSome result (λ r. self.new.path ≡ take r.above self.old.path ++ r.name.now ∷ []) }
        ensures above { IfSome result (λ r. r.above + 1 ≡ length self.new.path) }
        ensures text { IfSome result (λ r. length (text_below self.new.path) ≡ length (text_below self.old.front) + r.text) }
        ensures front { self.new.front ≡ self.old.front }
    {
        match self.try_next() {
            Ok(row) => row,
            Err(_) => unreachable!(),
        }
    }
}
