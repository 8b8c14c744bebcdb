// The upper layer, on which an operation is done.
ghost use Rattle.std.specs.Prelude.{◌≡◌, ◌⊎◌, ◌∷◌, OnOk, OnErr, IfErr, IfOk, Ok, Err, false, ℕ, List, Some, None, [], ◌++◌, is_some, true, IsSome};
ghost use Rattle.snap_path.specs.Memory.{no_memory};
ghost use Rattle.snap_layer.specs.Layers.{IsLayer};
ghost use Rattle.snap_layer.specs.Tree.{at, body};
ghost use Rattle.snap_layer.specs.Edits.{IsFree, IsInnerDir};
ghost use Rattle.snap_layer.specs.declared.node.Meta.{Meta};
ghost use Rattle.snap_layer.specs.declared.node.Body.TheVariants as body_kinds;
ghost use Rattle.snap_layer.specs.Contents.{edited, IsShort};
ghost use Rattle.snap_layer.specs.declared.content.Content.{Content as ContentValue};
ghost use Rattle.snap_usage.specs.Counted.{count_of, Covers};
ghost use Rattle.snap_merge.specs.declared.error.FsError.{FsError};
ghost use Rattle.snap_merge.specs.Objects.{seen, AreLayers};
ghost use Rattle.snap_merge.specs.Walk.{walk_error};
ghost use Rattle.snap_copyup.specs.Copying.{below, with_parents};
ghost use Rattle.snap_copyup.specs.Places.{with_last, CanStand};
ghost use Rattle.snap_upper.specs.After.{after, lists_names, within_share, limited, with_content, erased, tree_erased};
ghost use Rattle.snap_upper.specs.Changed.{changed, Changes};
ghost use Rattle.snap_upper.specs.Changes.{outcome, IsInPlace, IsReady, as_last, IsSound};
ghost use Rattle.snap_upper.specs.Memory.{IsNoGrowth, TakesNoMemory};
ghost use Rattle.snap_upper.specs.Ready.{IsReadyFor};
ghost use Rattle.snap_upper.specs.declared.op.Op.{Op};

use super::change::{Change, New};
use super::names::{link, shift};
use super::op::Op;
use super::rules::rule;
use super::usage::weigh;
use snap_copyup::{Last, put};
use snap_layer::{Edit, Layer, Shared};
use snap_merge::FsError;
use snap_path::Path;
use snap_usage::Usage;

/// Does the operation on the layer, over the lower layers, which stand nearest first and stay as they
/// are. What is changed in a lower layer is copied up first, and missing directories above it are added
/// (overlayfs.rst, "Non-directories").
///
/// Errors, in this order, of the first that applies:
/// - `NotFound`, `NotDir`: above the path, from the root on, nothing is seen, or no directory; of two
///   paths `from` comes first.
/// - `Exists`: something is seen where a directory, a file or a symlink is to be made; `NotFound`,
///   `IsDir`, `Invalid`: nothing, a directory or a symlink is seen where a file's bytes are to be
///   changed; `NotFound`, `Invalid`: nothing or a symlink is seen where a mode is to be set; `NotFound`,
///   `IsDir`: nothing or a directory is seen where a name is to be taken; `Invalid`, `NotFound`, `NotDir`,
///   `NotEmpty`: the root, nothing, no directory or a directory with names where one is to be taken;
///   `NotFound`, `NotPermitted`, `Exists`: nothing or a directory is seen that is to get one more name,
///   or something where that name is to be; `NotFound`, `NotDir`: nothing or no directory is seen where one
///   is to hide what lies below; `Invalid`, `NotFound`: the root, or nothing is seen where all is to be taken.
/// - Of a rename, after the errors above `from` and then above `to`: `Invalid`: one is the root;
///   `NotFound`: nothing is seen at `from`; `Invalid`: `from` is a directory, and `to` lies below it;
///   `NotDir`, `IsDir`: a directory would take the place of another object, or another object that of a
///   directory; `CrossDevice`: `from` is a directory that is seen, whole or in part, from a lower layer;
///   `NotEmpty`: `to` is a directory with names; `BadPath`: a moved path would have more than 4095 bytes.
///   Where it has nothing to do, none of the last six comes.
/// - `Invalid`: the mode is above octal 7777, or the target is empty or has a NUL; `TooBig`: the file
///   would have more than 1,048,576 bytes, or more than 2^40 where they aren't kept, or the target has more
///   than 4095, or a digest more than 1024.
/// - `LayerFull`: the layer would have more inodes than it may, or a new file's number would pass
///   4,294,967,294.
/// - `OutOfMemory`: a growth was refused, which may be found before `LayerFull` is.
///
/// After any of them the layer is as it was. Cost: a few looks through the layers at each path; for each directory
/// that is missing in the upper layer one more at that directory, and its path's text; the bytes that are written,
/// and those of a file that grows, is cut or is copied up; for a rename to a longer path also the paths that move,
/// and for a directory that is removed or replaced the list of its names. A link or a rename also lists the paths
/// of the directories that it adds.
///
/// These take no memory, so that a caller to whom it is refused can still give some back:
/// - a write within a file of the layer itself, or a cut of it; where the bytes aren't kept, each write and truncation;
/// - a mode or an opaque mark of what the layer itself has at the path;
/// - an unlink, or a whiteout of a file or a symlink, where the layer itself has the name, also where a whiteout is put;
/// - a rename that has nothing to do.
///
/// Each other one makes a file longer, adds a path, or first lists the names or the paths in a directory.
pub fn apply(layer: &mut Layer, lowers: &[Shared], op: &Op) -> Result<(), FsError>
    ensures ok { OnOk result (after op.now layer.old lowers.now ≡ Ok layer.new) }
    ensures error { IfErr result (λ e. (e ≡ FsError.OutOfMemory no_memory) ⊎ (after op.now layer.old lowers.now ≡ Err e)) }
    ensures unchanged { OnErr result (layer.new ≡ layer.old) }
    // Where no names are listed, want of memory never stands for another error but `LayerFull`.
    ensures first { lists_names op.now (layer.old ∷ lowers.now) ≡ false → IfErr (after op.now layer.old lowers.now) (λ e. (e ≡ FsError.LayerFull) ⊎ (result ≡ Err e)) }

    // Want of memory never stands for the answer of an operation that takes none.
    ensures sure { TakesNoMemory op.now layer.old → IfErr result (λ e. after op.now layer.old lowers.now ≡ Err e) }
    // What `after` means for what is seen: here, and for the operation over any lower layers.
    ensures view { OnOk result (changed op.now layer.old (seen (layer.old ∷ lowers.now)) (seen (layer.new ∷ lowers.now))) }
    ensures law { Changes op.now layer.old }
{
    let change = rule(layer, lowers, op)?;
    perform(layer, lowers, change)
}

/// Does the operation as [`apply`] does it, where the share covers what the layer takes afterwards: the
/// count of the whole next layer, which is what [`plan`](super::plan) answers.
///
/// The errors are those of `apply` in the same order, `LayerFull` last; then `NeedsCharge`, with that count,
/// where the share doesn't cover it in both quantities; then `OutOfMemory`, as `plan` may answer it, or for a
/// growth that was refused. After any of them the layer is as it was. It takes no memory where `apply` takes none. The
/// cost is that of `apply`: the count is kept beside the layer.
pub fn apply_within(
    layer: &mut Layer,
    lowers: &[Shared],
    op: &Op,
    share: Usage,
) -> Result<(), FsError>
    ensures ok { OnOk result (within_share share (after op.now layer.old lowers.now) ≡ Ok layer.new) }
    ensures covers { OnOk result (Covers share (count_of layer.new)) }
    ensures error { IfErr result (λ e. (e ≡ FsError.OutOfMemory no_memory) ⊎ (within_share share (after op.now layer.old lowers.now) ≡ Err e)) }
    ensures unchanged { OnErr result (layer.new ≡ layer.old) }
    // Where no names are listed, want of memory never stands for another error.
    ensures first { lists_names op.now (layer.old ∷ lowers.now) ≡ false → IfErr (within_share share (after op.now layer.old lowers.now)) (λ e. result ≡ Err e) }
    // It never stands for the answer of an operation that takes none.
    ensures sure { TakesNoMemory op.now layer.old → IfErr result (λ e. within_share share (after op.now layer.old lowers.now) ≡ Err e) }
{
    let change = rule(layer, lowers, op)?;
    let need = weigh(layer, lowers, change)?.after;
    if !share.covers(need) {
        return Err(FsError::NeedsCharge(need));
    }
    perform(layer, lowers, change)
}

/// An operation whose tests have passed on a layer, and what the layer takes after it. It is for this layer as it is.
#[derive(Clone, Copy)]
pub struct Ready<'a> {
    change: Change<'a>,
    /// How much the layer takes after the operation.
    pub after: Usage,
}

/// Tests the operation on the layer, over the lower layers, which stand nearest first, and changes nothing. [`perform_op`]
/// does it.
///
/// The errors are those of [`apply`] in the same order, `LayerFull` last; `OutOfMemory` as [`plan`](super::plan) answers
/// it. So is the cost.
pub fn prepare_op<'a>(layer: &Layer, lowers: &'a [Shared], op: &'a Op) -> Result<Ready<'a>, FsError>
    ensures ok { IfOk result (λ ready. IsReadyFor ready op.now layer.now lowers.now) }
    ensures error { IfErr result (λ e. (e ≡ FsError.OutOfMemory no_memory) ⊎ (after op.now layer.now lowers.now ≡ Err e)) }
    // Where no names are listed, want of memory never stands for another error.
    ensures sure { lists_names op.now (layer.now ∷ lowers.now) ≡ false → IfErr result (λ e. after op.now layer.now lowers.now ≡ Err e) }
{
    let change = rule(layer, lowers, op)?;
    let planned = weigh(layer, lowers, change)?;
    Ok(Ready {
        change,
        after: planned.after,
    })
}

/// Does the operation that was tested on the layer.
///
/// `OutOfMemory` where a growth was refused; the layer is then as it was. It takes no memory where [`apply`] takes none.
/// The cost is that of `apply`, without its tests.
pub fn perform_op(layer: &mut Layer, lowers: &[Shared], ready: Ready<'_>) -> Result<(), FsError>
    requires { (op : Op) × IsReadyFor ready op layer.old lowers.now }
    ensures ok { OnOk result ((op : Op) → IsReadyFor ready.entry op layer.old lowers.now → after op layer.old lowers.now ≡ Ok layer.new) }
    ensures count { OnOk result (count_of layer.new ≡ ready.entry.after) }
    // What is seen changes as that of the operation.
    ensures view { OnOk result ((op : Op) → IsReadyFor ready.entry op layer.old lowers.now → changed op layer.old (seen (layer.old ∷ lowers.now)) (seen (layer.new ∷ lowers.now))) }
    ensures error { IfErr result (λ e. e ≡ FsError.OutOfMemory no_memory) }
    ensures unchanged { OnErr result (layer.new ≡ layer.old) }
    // It is never refused memory where the operation takes none.
    ensures sure { OnErr result ((op : Op) → IsReadyFor ready.entry op layer.old lowers.now → TakesNoMemory op layer.old → ⊥) }
{
    perform(layer, lowers, ready.change)
}

/// Does the change to the layer.
fn perform(layer: &mut Layer, lowers: &[Shared], change: Change<'_>) -> Result<(), FsError>
    requires layers { AreLayers lowers.now }
    requires layer { IsLayer layer.old }
    requires ready { IsReady change layer.old lowers.now }
    ensures ok { OnOk result (outcome change.entry layer.old lowers.now ≡ Ok layer.new) }
    ensures error { IfErr result (λ e. (e ≡ FsError.OutOfMemory no_memory) ⊎ (outcome change.entry layer.old lowers.now ≡ Err e)) }
    ensures sure { IsInPlace change.entry layer.old → IfErr result (λ e. outcome change.entry layer.old lowers.now ≡ Err e) }
    ensures unchanged { OnErr result (layer.new ≡ layer.old) }
{
    match change {
        Change::Nothing => Ok(()),
        Change::Put { path, new } => put_new(layer, lowers, path, new),
        Change::Fill { number, edit, .. } => fill(layer, number, edit),
        Change::SetMode { path, mode } => {
            layer.set_mode(path, mode);
            Ok(())
        }
        Change::SetOpaque { path } => {
            layer.set_opaque(path, true);
            Ok(())
        }
        Change::Erase { path, covers } => erase(layer, lowers, path, covers),
        Change::EraseTree { path, covers } => erase_tree(layer, lowers, path, covers),
        Change::Link { from, to } => link(layer, lowers, from, to),
        Change::Move {
            from,
            to,
            leaves,
            covers,
        } => shift(layer, lowers, from, to, leaves, covers),
    }
}

/// Puts it at the path, with the directories that are missing above it.
fn grow(layer: &mut Layer, lowers: &[Shared], path: &Path, last: Last) -> Result<(), FsError>
    requires way { walk_error (layer.old ∷ lowers.now) path.now ≡ None }
    requires fit { CanStand last layer.old path.now }
    ensures ok { OnOk result (limited (with_last last (with_parents layer.old lowers.now path.now) path.now) ≡ Ok layer.new) }
    ensures error { IfErr result (λ e. (e ≡ FsError.OutOfMemory no_memory) ⊎ (limited (with_last last (with_parents layer.old lowers.now path.now) path.now) ≡ Err e)) }
    ensures unchanged { OnErr result (layer.new ≡ layer.old) }
{
    if let Err(error) = put(layer, lowers, path, last) {
        return Err(error);
    }
    Ok(())
}

/// Makes it with its own content, and puts it at the path, with the directories that are missing above it.
fn put_new(layer: &mut Layer, lowers: &[Shared], path: &Path, new: New<'_>) -> Result<(), FsError>
    requires way { walk_error (layer.old ∷ lowers.now) path.now ≡ None }
    requires fit { CanStand (as_last new) layer.old path.now }
    requires sound { IsSound new }
    ensures ok { OnOk result (limited (with_last (as_last new.entry) (with_parents layer.old lowers.now path.now) path.now) ≡ Ok layer.new) }
    ensures error { IfErr result (λ e. (e ≡ FsError.OutOfMemory no_memory) ⊎ (limited (with_last (as_last new.entry) (with_parents layer.old lowers.now path.now) path.now) ≡ Err e)) }
    ensures unchanged { OnErr result (layer.new ≡ layer.old) }
{
    let last = new.last(layer.alloc())?;
    grow(layer, lowers, path, last)
}

/// Edits the layer's file with the number, in place.
fn fill(layer: &mut Layer, number: u32, edit: Edit<'_>) -> Result<(), FsError>
    requires there { (m : Meta) × (old : ContentValue) × (body layer.old number ≡ Some (body_kinds.File m old)) × IsShort edit old }
    ensures ok { OnOk result (limited (with_content layer.old (Some number) (edited edit.entry)) ≡ Ok layer.new) }
    ensures error { IfErr result (λ e. e ≡ FsError.OutOfMemory no_memory) }
    ensures sure { IsNoGrowth layer.old (Some number) (edited edit.entry) → IfErr result (λ e. ⊥) }
    ensures unchanged { OnErr result (layer.new ≡ layer.old) }
{
    layer.edit_content(number, edit)?;
    Ok(())
}

/// Takes what the layer has at the path, a name or a directory with whiteouts alone, and puts a whiteout
/// there where `covers` says that a lower layer shows something.
fn erase(layer: &mut Layer, lowers: &[Shared], path: &Path, covers: bool) -> Result<(), FsError>
    requires way { walk_error (layer.old ∷ lowers.now) path.now ≡ None }
    requires there { is_some (seen (layer.old ∷ lowers.now) path.now) ≡ true }
    requires below_root { path.now ≡ [] → ⊥ }
    requires clear { (n : List ℕ) → IsFree (at layer.old (path.now ++ n ∷ [])) }
    requires covers { covers ≡ is_some (below layer.old lowers.now path.now) }
    ensures ok { OnOk result (limited (erased layer.old lowers.now path.now) ≡ Ok layer.new) }
    ensures error { IfErr result (λ e. (e ≡ FsError.OutOfMemory no_memory) ⊎ (limited (erased layer.old lowers.now path.now) ≡ Err e)) }
    ensures sure { IsSome (at layer.old path.now) → IfErr result (λ e. limited (erased layer.old lowers.now path.now) ≡ Err e) }
    ensures unchanged { OnErr result (layer.new ≡ layer.old) }
{
    if layer.at(path).is_none() {
        return grow(layer, lowers, path, Last::Whiteout);
    }
    if covers {
        if let Err(error) = layer.add_whiteout(path) {
            return Err(FsError::from(error));
        }
        return Ok(());
    }
    layer.take_name(path);
    Ok(())
}

/// Takes the layer's directory at the path and all that is in it, and puts a whiteout there where `covers` says that a
/// lower layer shows something. It takes memory for a list of the paths in the directory.
fn erase_tree(
    layer: &mut Layer,
    lowers: &[Shared],
    path: &Path,
    covers: bool,
) -> Result<(), FsError>
    requires there { IsInnerDir layer.old path.now }
    requires layer { IsLayer layer.old }
    requires covers { covers ≡ is_some (below layer.old lowers.now path.now) }
    ensures ok { OnOk result (limited (tree_erased layer.old lowers.now path.now) ≡ Ok layer.new) }
    ensures error { IfErr result (λ e. e ≡ FsError.OutOfMemory no_memory) }
    ensures unchanged { OnErr result (layer.new ≡ layer.old) }
{
    layer.take_tree(path, covers)?;
    Ok(())
}
