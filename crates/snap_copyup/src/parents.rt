// The directories above a path that a layer doesn't have, and what is put at the path once they stand.
ghost use Rattle.std.specs.Prelude.{◌≡◌, ◌∷◌, ◌+◌, ◌-◌, ◌<◌, ◌≤◌, List, OnOk, OnErr, IfErr, None, length, take};
ghost use Rattle.snap_path.specs.Text.{Names};
ghost use Rattle.snap_layer.specs.Layers.{IsLayer};
ghost use Rattle.snap_layer.specs.Tree.{Tree};
ghost use Rattle.snap_merge.specs.Objects.{seen, AreLayers};
ghost use Rattle.snap_merge.specs.Walk.{walk_error};
ghost use Rattle.snap_copyup.specs.Copying.{with_parents};
ghost use Rattle.snap_copyup.specs.Undoing.{fronts, Undoes};
ghost use Rattle.snap_copyup.specs.Places.{with_last, CanStand, IsRefusal, ParentStands, StandsAbove, TakesMore};

use snap_layer::{Bytes, Content, Layer, Meta, Shared};
use snap_merge::{FsError, Stack, show_are_layers};
use snap_path::{Name, Path};

/// What is put at a path, once the directories above it stand.
#[derive(Debug, Drop)]
pub enum Last {
    /// Nothing: only the directories above the path are wanted.
    Nothing,
    /// A directory.
    Dir { meta: Meta, opaque: bool },
    /// A regular file, which gets the layer's next number.
    File { meta: Meta, content: Content },
    /// A symlink, which gets the layer's next number.
    Symlink { target: Bytes },
    /// A whiteout.
    Whiteout,
}

/// Adds to the layer the directories above the path that it doesn't have, each with the [`Meta`] of the one that
/// is seen, and none of them opaque (overlayfs.rst, "Non-directories").
///
/// The condition is that each directory above the path is seen as one over the lower layers, the nearest
/// first, so that `Stack::walk` finds no error. `LayerFull` where the layer would have more inodes than it
/// may. `OutOfMemory` where memory for a path or an entry is refused. After either the layer is as it
/// was: what had been added is taken back, which takes no memory. Cost: a walk to the path in the layer, as far as
/// it has a node. Where a directory is missing also a walk to the path in each lower layer, and two more in the layer;
/// calls then nest as deep as directories are missing. Where memory for what `put` puts last is refused, one more walk
/// in the layer for each directory that is taken back.
pub fn ensure_dirs(layer: &mut Layer, lowers: &[Shared], path: &Path) -> Result<(), FsError>
    requires { walk_error (layer.old ∷ lowers.now) path.now ≡ None }
    ensures ok { OnOk result (layer.new ≡ with_parents layer.old lowers.now path.now) }
    ensures layer { OnOk result (IsLayer layer.new) }
    ensures error { IfErr result (λ e. IsRefusal (with_parents layer.old lowers.now path.now) e) }
    ensures unchanged { OnErr result (layer.new ≡ layer.old) }
    // Nothing that is seen changes.
    ensures view { OnOk result ((q : Names) → seen (layer.new ∷ lowers.now) q ≡ seen (layer.old ∷ lowers.now) q) }
{
    put(layer, lowers, path, Last::Nothing)
}

/// Adds to the layer the directories above the path that it doesn't have, as `ensure_dirs` does, and then
/// what is to stand at the path itself. Either all of it is added or nothing.
///
/// The conditions: each directory above the path is seen as one, as in `ensure_dirs`; and what is put is
/// nothing, or nothing but a whiteout stands at the path, which isn't the root, and the [`Meta`], the content or
/// the target is one that `add_dir`, `add_file` or `add_symlink` takes. `LayerFull` where the layer would
/// have more inodes than it may, or where the file numbers are used up. `OutOfMemory` where memory is
/// refused. After either the layer is as it was, and the content is gone. Cost: as `ensure_dirs`.
pub fn put(layer: &mut Layer, lowers: &[Shared], path: &Path, last: Last) -> Result<(), FsError>
    requires way { walk_error (layer.old ∷ lowers.now) path.now ≡ None }
    requires fit { CanStand last layer.old path.now }
    ensures ok { OnOk result (layer.new ≡ with_last last (with_parents layer.old lowers.now path.now) path.now) }
    ensures layer { OnOk result (IsLayer layer.new) }
    ensures error { IfErr result (λ e. IsRefusal (with_last last (with_parents layer.old lowers.now path.now) path.now) e) }
    ensures unchanged { OnErr result (layer.new ≡ layer.old) }
{
    show_are_layers(lowers);
    let first = standing_dirs(layer, path);
    if first == path.names().len() {
        return put_last(layer, path, last);
    }
    add_missing(layer, lowers, path, first)?;
    match put_last(layer, path, last) {
        Ok(()) => Ok(()),
        Err(error) => {
            take_dirs(layer, path, first);
            Err(error)
        }
    }
}

/// Adds the directories above the path that the layer doesn't have, the first of them the one of `first` names.
fn add_missing(
    layer: &mut Layer,
    lowers: &[Shared],
    path: &Path,
    first: usize,
) -> Result<(), FsError>
    requires layers { AreLayers lowers.now }
    requires layer { IsLayer layer.old }
    requires way { walk_error (layer.old ∷ lowers.now) path.now ≡ None }
    requires above { StandsAbove layer.old path.now first }
    requires missing { first < length path.now }
    ensures ok { OnOk result (layer.new ≡ with_parents layer.old lowers.now path.now) }
    ensures layer { OnOk result (IsLayer layer.new) }
    ensures error { IfErr result (λ e. IsRefusal (with_parents layer.old lowers.now path.now) e) }
    ensures unchanged { OnErr result (layer.new ≡ layer.old) }
{
    let metas = Stack::of(lowers).metas(layer.alloc(), path, first)?;
    layer.add_dirs(path, first - 1, &metas)?;
    Ok(())
}

/// Takes the directories above the path, the lowest first, down to that of `first` names.
fn take_dirs(layer: &mut Layer, path: &Path, first: usize)
    requires within { first ≤ length path.now }
    requires undo { (u : Tree) × Undoes (fronts path.now first (length path.now - first)) layer.old u }
    ensures { (u : Tree) → Undoes (fronts path.now first (length path.now - first)) layer.old u → layer.new ≡ u }
{
    for names in (first..path.names().len()).rev() {
        layer.take_front(path, names);
    }
}

/// Puts it at the path, in one edit.
pub(crate) fn put_last(layer: &mut Layer, path: &Path, last: Last) -> Result<(), FsError>
    requires layer { IsLayer layer.old }
    requires fit { CanStand last layer.old path.now }
    requires parent { ParentStands layer.old path.now }
    ensures ok { OnOk result (layer.new ≡ with_last last layer.old path.now) }
    ensures layer { OnOk result (IsLayer layer.new) }
    ensures error { IfErr result (λ e. IsRefusal (with_last last layer.old path.now) e) }
    ensures unchanged { OnErr result (layer.new ≡ layer.old) }
{
    match last {
        Last::Nothing => {}
        Last::Dir { meta, opaque } => layer.add_dir(path, meta, opaque)?,
        Last::File { meta, content } => {
            layer.add_file(path, meta, content)?;
        }
        Last::Symlink { target } => {
            layer.add_symlink(path, target)?;
        }
        Last::Whiteout => layer.add_whiteout(path)?,
    }
    Ok(())
}

/// How many directories above the path the layer doesn't have. It takes this number of inodes, and as many blocks,
/// more once `ensure_dirs` has added them, whatever the lower layers are.
///
/// Takes no memory. Cost: for each name of the path, as far as the layer has a node, the logarithm of a
/// directory's entries.
pub fn missing_dirs(layer: &Layer, path: &Path) -> usize
    ensures count { (lowers : List Tree) → walk_error (layer.now ∷ lowers) path.now ≡ None → TakesMore result layer.now (with_parents layer.now lowers path.now) }
    ensures few { result ≤ length path.now }
{
    path.names().len() - standing_dirs(layer, path)
}

/// How many directories above the one path or the other the layer doesn't have; what is above both counts
/// once. It takes this number of inodes, and as many blocks, more once `ensure_dirs` has added them for both.
///
/// Takes no memory. Cost: for each name of both paths, as far as the layer has a node, the logarithm of a
/// directory's entries.
pub fn missing_dirs_of_both(layer: &Layer, one: &Path, other: &Path) -> usize
    ensures count { (lowers : List Tree) → walk_error (layer.now ∷ lowers) one.now ≡ None → walk_error (layer.now ∷ lowers) other.now ≡ None → TakesMore result layer.now (with_parents (with_parents layer.now lowers one.now) lowers other.now) }
    ensures few { result ≤ length one.now + length other.now }
{
    let shared = shared_names(one.names(), other.names());
    let counted = one.names().len().min(shared + 1);
    let passed = counted.max(standing_dirs(layer, other));
    let more = other.names().len().saturating_sub(passed);
    missing_dirs(layer, one) + more
}

/// At how many paths above the path the layer has a node, from the root on: one look-up in one directory for each
/// name, and none after the first at which it has nothing.
pub(crate) fn standing_dirs(layer: &Layer, path: &Path) -> usize
    ensures above { StandsAbove layer.now path.now result }
    ensures layer { IsLayer layer.now }
{
    let names = path.names();
    let mut dir = layer.root_dir();
    for (front, name) in names.iter().enumerate() {
        match dir.entry(name) {
            Some((_, Some(next))) => dir = next,
            Some((_, None)) => return names.len().min(front + 2),
            None => return front + 1,
        }
    }
    names.len()
}

/// How many names the lists have in common at their front.
fn shared_names(one: &[Name], other: &[Name]) -> usize
    ensures few { result ≤ length one.now }
    ensures same { take result one.now ≡ take result other.now }
    ensures most { result < length one.now → result < length other.now → take (result + 1) one.now ≡ take (result + 1) other.now → ⊥ }
{
    let most = one.len().min(other.len());
    for names in 0..most {
        if one[names] != other[names] {
            return names;
        }
    }
    most
}
