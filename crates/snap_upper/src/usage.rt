// How much the upper layer takes after an operation.
ghost use Rattle.std.specs.Prelude.{◌≡◌, [], ◌∷◌, ◌++◌, ◌+◌, ◌≤◌, ℕ, List, None, Some, Ok, is_some, true, false};
ghost use Rattle.std.specs.Option.{option_map};
ghost use Rattle.snap_path.specs.Limits.{most_mode};
ghost use Rattle.snap_path.specs.Text.{IsPath};
ghost use Rattle.snap_layer.specs.Layers.{IsLayer};
ghost use Rattle.snap_layer.specs.Tree.{Tree, at, body, IsDirAt};
ghost use Rattle.snap_layer.specs.Counts.{block_count, inode_count, most_inodes, most_file_blocks};
ghost use Rattle.snap_layer.specs.Edits.{IsFree, IsInnerDir, HasMode, with_mode, with_opaque, without};
ghost use Rattle.snap_layer.specs.declared.node.Meta.{Meta};
ghost use Rattle.snap_layer.specs.declared.node.Body.TheVariants as body_kinds;
ghost use Rattle.snap_layer.specs.Contents.{edited, size_of, IsContent, IsShort};
ghost use Rattle.snap_layer.specs.declared.content.Content.{Content as ContentValue};
ghost use Rattle.snap_merge.specs.Objects.{object, seen, AreLayers};
ghost use Rattle.snap_merge.specs.Walk.{walk_error, Answers};
ghost use Rattle.snap_copyup.specs.declared.parents.Last.{Last};
ghost use Rattle.snap_copyup.specs.Copying.{below, with_parents};
ghost use Rattle.snap_copyup.specs.Places.{with_last, CanStand};
ghost use Rattle.snap_upper.specs.After.{after, first_error, tests, planned, limited, next_layer, erased, tree_erased, before_move, renamed, is_same_name, with_content, lists_names};
ghost use Rattle.snap_upper.specs.Changes.{outcome, IsReady};
ghost use Rattle.snap_upper.specs.Adding.{Takes, weight_of, last_blocks, object_blocks, IsPlaceable, IsNext};
ghost use Rattle.snap_upper.specs.declared.op.Op.TheVariants as op;

use super::change::{Change, is_whiteout};
use super::op::Op;
use super::rules::rule;
use snap_copyup::{missing_dirs, missing_dirs_of_both};
use snap_layer::{Edit, Layer, Node, Shared};
use snap_merge::{FsError, Seen, Stack};
use snap_path::Path;
use snap_usage::{Usage, blocks_of, count};

/// What a plan of an operation answers.
#[derive(Clone, Copy, Debug, PartialEq, Eq)]
pub struct Planned {
    /// How much the upper layer takes after the operation.
    pub after: Usage,
}

/// How much the layer would take after the operation over the lower layers, which stand nearest first.
///
/// The errors are those of `apply`, in the same order. It changes nothing, and the next layer isn't built.
/// Cost: that of a few looks through the layers at each path, whatever is missing above it.
///
/// It takes no memory but for the names of a directory that is seen at the path of an `Rmdir`, or where a
/// `Rename` goes to, and for the walk through a directory that a `Whiteout` takes or a `Rename` moves to a longer
/// path, as `Layer::inodes_without` does. The plans that list names may answer `OutOfMemory`, where no test before
/// the list fails, and their cost is also that of the list.
pub fn plan(layer: &Layer, lowers: &[Shared], op: &Op) -> Result<Planned, FsError>
    ensures answer { Answers (planned (after op.now layer.now lowers.now)) result }
    ensures sure { lists_names op.now (layer.now ∷ lowers.now) ≡ false → result ≡ planned (after op.now layer.now lowers.now) }
{
    let change = rule(layer, lowers, op)?;
    weigh(layer, lowers, change)
}

/// How much the layer takes after the change.
pub(crate) fn weigh(
    layer: &Layer,
    lowers: &[Shared],
    change: Change<'_>,
) -> Result<Planned, FsError>
    requires layers { AreLayers lowers.now }
    requires layer { IsLayer layer.now }
    requires ready { IsReady change layer.now lowers.now }
    ensures { result ≡ planned (outcome change.entry layer.now lowers.now) }
{
    let after = count(layer);
    match change {
        Change::Nothing => Ok(Planned { after }),
        Change::Put { path, new } => plan_growth(layer, path, new.blocks(), new.is_numbered()),
        Change::Fill { number, size, edit } => plan_filling(layer, number, size, edit),
        Change::SetMode { .. } => Ok(Planned { after }),
        Change::SetOpaque { .. } => Ok(Planned { after }),
        Change::Erase { path, covers } => plan_erasing(layer, path, covers),
        Change::EraseTree { path, covers } => Ok(counted_without(layer, path, covers)),
        Change::Link { from, to } => plan_link(layer, lowers, from, to),
        Change::Move {
            from,
            to,
            leaves,
            ..
        } => plan_move(layer, lowers, from, to, leaves),
    }
}

/// What the layer takes without its directory at the path and all that is in it. A whiteout is put there where `covers`
/// says that a lower layer shows something.
fn counted_without(layer: &Layer, path: &Path, covers: bool) -> Planned
    requires dir { IsInnerDir layer.now path.now }
    requires layer { IsLayer layer.now }
    ensures { (lowers : List Tree) → covers ≡ is_some (below layer.now lowers path.now) → Ok result ≡ planned (limited (tree_erased layer.now lowers path.now)) }
{
    let (inodes, blocks) = layer.left_without_tree(path);
    let inodes = inodes as u64 + u64::from(covers);
    let after = Usage { blocks, inodes };
    Planned { after }
}

/// How much the layer takes where what is seen at `from` gets the name `to`.
fn plan_link(layer: &Layer, lowers: &[Shared], from: &Path, to: &Path) -> Result<Planned, FsError>
    requires layers { AreLayers lowers.now }
    requires layer { IsLayer layer.now }
    requires passes { first_error (tests (op.Link from.now to.now) (layer.now ∷ lowers.now)) ≡ None }
    ensures { result ≡ planned (limited (next_layer (op.Link from.now to.now) layer.now lowers.now)) }
{
    let after = count_placed(layer, lowers, from, to);
    fitting(layer, after, layer.at(from).is_none())
}

/// How much the layer takes once what is seen at `from` is copied up, where the layer doesn't have it, and
/// the directories above `to` are added, without what stands at `to`.
fn count_placed(layer: &Layer, lowers: &[Shared], from: &Path, to: &Path) -> Usage
    requires layers { AreLayers lowers.now }
    requires placeable { IsPlaceable layer.now lowers.now from.now to.now }
    ensures count { result ≡ record { blocks = block_count (without (before_move layer.now lowers.now from.now to.now) to.now); inodes = inode_count (without (before_move layer.now lowers.now from.now to.now) to.now) } }
    ensures few { result.inodes ≤ most_inodes + 10000 }
    ensures source { IsPath from.now }
    ensures target { IsPath to.now }
{
    let left = count_without(layer, to);
    if layer.at(from).is_some() {
        let missing = missing_dirs(layer, to) as u64;
        return Usage {
            blocks: left.blocks + missing,
            inodes: left.inodes + missing,
        };
    }
    let missing = missing_dirs_of_both(layer, from, to) as u64;
    Usage {
        blocks: left.blocks + missing + seen_blocks(Stack::over(layer, lowers).look(from)),
        inodes: left.inodes + missing + 1,
    }
}

/// The blocks that what is seen takes once it is copied up.
fn seen_blocks(seen: Option<Seen<'_>>) -> u64
    ensures { result ≡ object_blocks (option_map object seen.entry) }
{
    match seen {
        Some(Seen::File { content, .. }) => blocks_of(content.size()),
        Some(Seen::Dir { .. }) => 1,
        Some(Seen::Symlink { .. }) => 0,
        None => 0,
    }
}

/// How much the layer takes where what is seen at the path is taken: a name, or a directory in which
/// nothing is seen. A whiteout is put there where `covers` says that a lower layer shows something.
fn plan_erasing(layer: &Layer, path: &Path, covers: bool) -> Result<Planned, FsError>
    requires below_root { path.now ≡ [] → ⊥ }
    requires clear { (n : List ℕ) → IsFree (at layer.now (path.now ++ n ∷ [])) }
    ensures { (lowers : List Tree) → AreLayers lowers → walk_error (layer.now ∷ lowers) path.now ≡ None → is_some (seen (layer.now ∷ lowers) path.now) ≡ true → covers ≡ is_some (below layer.now lowers path.now) → result ≡ planned (limited (erased layer.now lowers path.now)) }
{
    if layer.at(path).is_none() {
        return plan_growth(layer, path, 0, false);
    }
    let left = count_without(layer, path);
    let after = Usage {
        blocks: left.blocks,
        inodes: left.inodes + u64::from(covers),
    };
    fitting(layer, after, false)
}

/// How much the layer takes where what is seen at `from` moves to `to`. What stands there goes, and a
/// whiteout is left at `from` where `leaves` says that a lower layer shows something.
fn plan_move(
    layer: &Layer,
    lowers: &[Shared],
    from: &Path,
    to: &Path,
    leaves: bool,
) -> Result<Planned, FsError>
    requires layers { AreLayers lowers.now }
    requires layer { IsLayer layer.now }
    requires passes { first_error (tests (op.Rename from.now to.now) (layer.now ∷ lowers.now)) ≡ None }
    requires moves { is_same_name layer.now from.now to.now ≡ false }
    requires leaves { leaves ≡ is_some (below layer.now lowers.now from.now) }
    ensures { result ≡ planned (limited (renamed layer.now lowers.now from.now to.now)) }
{
    let left = count_placed(layer, lowers, from, to);
    let after = Usage {
        blocks: left.blocks,
        inodes: left.inodes + u64::from(leaves),
    };
    fitting(layer, after, layer.at(from).is_none())
}

/// How much the layer takes without what stands at the path, in which there are whiteouts alone.
fn count_without(layer: &Layer, path: &Path) -> Usage
    requires { (n : List ℕ) → IsFree (at layer.now (path.now ++ n ∷ [])) }
    ensures count { result ≡ record { blocks = block_count (without layer.now path.now); inodes = inode_count (without layer.now path.now) } }
    ensures few { result.inodes ≤ most_inodes }
    ensures fewer { result.blocks ≤ block_count layer.now }
    ensures path { IsPath path.now }
{
    Usage {
        blocks: layer.blocks() - freed_blocks(layer, path),
        inodes: layer.inodes_without(path) as u64,
    }
}

/// The blocks that go with what stands at the path: that of a directory, or those of a file that has no
/// other name.
fn freed_blocks(layer: &Layer, path: &Path) -> u64
    requires { (n : List ℕ) → IsFree (at layer.now (path.now ++ n ∷ [])) }
    ensures { block_count layer.now ≡ block_count (without layer.now path.now) + result }
{
    match layer.at(path) {
        Some(Node::Dir { .. }) => 1,
        Some(Node::File { number }) => last_blocks(layer, number),
        Some(Node::Symlink { number }) => last_blocks(layer, number),
        Some(Node::Whiteout) => 0,
        None => 0,
    }
}

/// The blocks that go with one name of the number: those of its file, where it has no other name.
fn last_blocks(layer: &Layer, number: u32) -> u64
    ensures { result ≡ last_blocks layer.now number }
{
    if layer.link_count(number) == 1 {
        return match layer.body(number) {
            Some(body) => body.blocks(),
            None => 0,
        };
    }
    0
}

/// How much the layer takes where what takes these blocks, and a file number where `numbered` says so,
/// is put at the path, and the directories that are missing above it.
fn plan_growth(layer: &Layer, path: &Path, blocks: u64, numbered: bool) -> Result<Planned, FsError>
    requires few { blocks ≤ most_file_blocks }
    requires free { IsFree (at layer.now path.now) }
    ensures { (last : Last) (lowers : List Tree) → Takes last blocks numbered → AreLayers lowers → walk_error (layer.now ∷ lowers) path.now ≡ None → CanStand last layer.now path.now → result ≡ planned (limited (with_last last (with_parents layer.now lowers path.now) path.now)) }
{
    let now = count(layer);
    let missing = missing_dirs(layer, path) as u64;
    let whiteouts = u64::from(is_whiteout(layer.at(path)));
    let after = Usage {
        blocks: now.blocks + missing + blocks,
        inodes: now.inodes + missing + 1 - whiteouts,
    };
    fitting(layer, after, numbered)
}

/// The plan of a next layer that takes this usage, with one file number more where `numbered` says so.
fn fitting(layer: &Layer, after: Usage, numbered: bool) -> Result<Planned, FsError>
    ensures { (next : Tree) → IsNext layer.now next after numbered → result ≡ planned (limited next) }
{
    let number = layer.next_number();
    if numbered && number == u32::MAX {
        return Err(FsError::LayerFull);
    }
    let most = layer.most_inodes() as u64;
    if after.inodes > most {
        return Err(FsError::LayerFull);
    }
    Ok(Planned { after })
}

/// How much the layer takes where its file with the number, which has this number of bytes, is edited.
fn plan_filling(layer: &Layer, number: u32, size: u64, edit: Edit<'_>) -> Result<Planned, FsError>
    requires there { (m : Meta) × (old : ContentValue) × (body layer.now number ≡ Some (body_kinds.File m old)) × (size ≡ size_of old) × IsShort edit old × IsContent (edited edit old) }
    ensures { result ≡ planned (limited (with_content layer.now (Some number) (edited edit.entry))) }
{
    let now = count(layer);
    let new = blocks_of(edit.size(size));
    let old = blocks_of(size);
    let after = Usage {
        blocks: now.blocks - old + new,
        inodes: now.inodes,
    };
    Ok(Planned { after })
}
