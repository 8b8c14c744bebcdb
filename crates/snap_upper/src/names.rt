// Names in the upper layer: one more for a file or a symlink, and a rename.
ghost use Rattle.std.specs.Prelude.{◌≡◌, ◌⊎◌, ◌∷◌, OnOk, OnErr, IfErr, Ok, Err, Some, None, IsSome, is_some, false};
ghost use Rattle.snap_path.specs.Memory.{no_memory};
ghost use Rattle.snap_path.specs.Text.{IsPath, begins};
ghost use Rattle.snap_layer.specs.Tree.{at, body, leaf_node, number_at};
ghost use Rattle.snap_layer.specs.Layers.{IsBody, IsLayer};
ghost use Rattle.snap_layer.specs.Edits.{with_linked, with_name, with_new, with_node, named_node, HasParent, HasPlace, HasRooms, IsMovable};
ghost use Rattle.snap_layer.specs.declared.node.Body.{Body};
ghost use Rattle.snap_layer.specs.declared.node.Node.TheVariants as Node;
ghost use Rattle.snap_merge.specs.declared.error.FsError.{FsError};
ghost use Rattle.snap_merge.specs.Objects.{AreLayers};
ghost use Rattle.snap_merge.specs.Walk.{walk_error};
ghost use Rattle.snap_copyup.specs.Copying.{below, object_body, with_parents};
ghost use Rattle.snap_copyup.specs.Places.{IsRefusal};
ghost use Rattle.snap_upper.specs.After.{tests, first_error, limited, next_layer, is_same_name, renamed, shifted};
ghost use Rattle.snap_upper.specs.Adding.{with_shifted};
ghost use Rattle.snap_upper.specs.declared.op.Op.TheVariants as op;

use super::change::{is_dir_there, own_number};
use snap_copyup::{add_dirs, add_dirs_of_both, body_below, take_all};
use snap_layer::{Body, Layer, Shared};
use snap_merge::FsError;
use snap_path::Path;

/// Gives what is seen at `from` the name `to`. What the layer lacks for it is added first, and taken back after
/// an error.
pub(crate) fn link(
    layer: &mut Layer,
    lowers: &[Shared],
    from: &Path,
    to: &Path,
) -> Result<(), FsError>
    requires layers { AreLayers lowers.now }
    requires layer { IsLayer layer.old }
    requires passes { first_error (tests (op.Link from.now to.now) (layer.old ∷ lowers.now)) ≡ None }
    ensures ok { OnOk result (limited (next_layer (op.Link from.now to.now) layer.old lowers.now) ≡ Ok layer.new) }
    ensures error { IfErr result (λ e. (e ≡ FsError.OutOfMemory no_memory) ⊎ (limited (next_layer (op.Link from.now to.now) layer.old lowers.now) ≡ Err e)) }
    ensures unchanged { OnErr result (layer.new ≡ layer.old) }
{
    if let Err(error) = add_link(layer, lowers, from, to) {
        return Err(error);
    }
    Ok(())
}

/// Adds the name, to a file or symlink of the layer or to a copy of a lower one.
fn add_link(layer: &mut Layer, lowers: &[Shared], from: &Path, to: &Path) -> Result<(), FsError>
    requires layers { AreLayers lowers.now }
    requires layer { IsLayer layer.old }
    requires passes { first_error (tests (op.Link from.now to.now) (layer.old ∷ lowers.now)) ≡ None }
    ensures ok { OnOk result (layer.new ≡ next_layer (op.Link from.now to.now) layer.old lowers.now) }
    ensures layer { OnOk result (IsLayer layer.new) }
    ensures error { IfErr result (λ e. IsRefusal (next_layer (op.Link from.now to.now) layer.old lowers.now) e) }
    ensures unchanged { OnErr result (layer.new ≡ layer.old) }
{
    if let Some(number) = own_number(layer, from) {
        return add_dirs_and_name(layer, lowers, to, number);
    }
    link_lower(layer, lowers, from, to)
}

/// Links a lower file or symlink: a copy of it gets both names, once the directories above them are added.
fn link_lower(layer: &mut Layer, lowers: &[Shared], from: &Path, to: &Path) -> Result<(), FsError>
    requires layers { AreLayers lowers.now }
    requires layer { IsLayer layer.old }
    requires passes { first_error (tests (op.Link from.now to.now) (layer.old ∷ lowers.now)) ≡ None }
    requires lower { number_at layer.old from.now ≡ None }
    ensures ok { OnOk result (layer.new ≡ next_layer (op.Link from.now to.now) layer.old lowers.now) }
    ensures layer { OnOk result (IsLayer layer.new) }
    ensures error { IfErr result (λ e. IsRefusal (next_layer (op.Link from.now to.now) layer.old lowers.now) e) }
    ensures unchanged { OnErr result (layer.new ≡ layer.old) }
{
    let (above_from, above_to) = add_dirs_of_both(layer, lowers, from, to)?;
    if let Err(error) = put_linked_copy(layer, lowers, from, to) {
        take_all(layer, &above_to);
        take_all(layer, &above_from);
        return Err(error);
    }
    Ok(())
}

/// Adds a copy of the file or symlink that is below at `from`, under that name and the name `to`.
fn put_linked_copy(
    layer: &mut Layer,
    lowers: &[Shared],
    from: &Path,
    to: &Path,
) -> Result<(), FsError>
    requires layers { AreLayers lowers.now }
    requires layer { IsLayer layer.old }
    requires rooms { HasRooms layer.old from.now to.now }
    ensures ok { OnOk result ((b : Body) → object_body (below layer.old lowers.now from.now) ≡ Some b → layer.new ≡ with_linked layer.old from.now to.now b) }
    ensures layer { OnOk result (IsLayer layer.new) }
    ensures error { IfErr result (λ e. (b : Body) → object_body (below layer.old lowers.now from.now) ≡ Some b → IsRefusal (with_linked layer.old from.now to.now b) e) }
    ensures unchanged { OnErr result (layer.new ≡ layer.old) }
{
    let Some(body) = body_below(layer, lowers, from)? else {
        return Ok(());
    };
    layer.add_linked(from, to, body)?;
    Ok(())
}

/// Puts one more name of the layer's file or symlink at `to`, once the directories above it are added.
fn add_dirs_and_name(
    layer: &mut Layer,
    lowers: &[Shared],
    to: &Path,
    number: u32,
) -> Result<(), FsError>
    requires way { walk_error (layer.old ∷ lowers.now) to.now ≡ None }
    requires place { HasPlace (with_parents layer.old lowers.now to.now) to.now }
    requires there { IsSome (body layer.old number) }
    requires apart { number_at layer.old to.now ≡ Some number → ⊥ }
    ensures ok { OnOk result (layer.new ≡ with_name (with_parents layer.old lowers.now to.now) to.now (named_node number (body layer.old number))) }
    ensures layer { OnOk result (IsLayer layer.new) }
    ensures error { IfErr result (λ e. IsRefusal (with_parents layer.old lowers.now to.now) e) }
    ensures unchanged { OnErr result (layer.new ≡ layer.old) }
{
    let dirs = add_dirs(layer, lowers, to)?;
    if let Err(error) = layer.add_name(to, number) {
        take_all(layer, &dirs);
        return Err(FsError::from(error));
    }
    Ok(())
}

/// Moves what is seen at `from` to `to`. A lower layer shows something at `from` where `leaves` says so, and
/// at `to` where `covers` does. What the layer lacks for it is added first, and taken back after an error.
pub(crate) fn shift(
    layer: &mut Layer,
    lowers: &[Shared],
    from: &Path,
    to: &Path,
    leaves: bool,
    covers: bool,
) -> Result<(), FsError>
    requires layers { AreLayers lowers.now }
    requires layer { IsLayer layer.old }
    requires passes { first_error (tests (op.Rename from.now to.now) (layer.old ∷ lowers.now)) ≡ None }
    requires moves { is_same_name layer.old from.now to.now ≡ false }
    requires leaves { leaves ≡ is_some (below layer.old lowers.now from.now) }
    requires covers { covers ≡ is_some (below layer.old lowers.now to.now) }
    ensures ok { OnOk result (limited (renamed layer.old lowers.now from.now to.now) ≡ Ok layer.new) }
    ensures error { IfErr result (λ e. (e ≡ FsError.OutOfMemory no_memory) ⊎ (limited (renamed layer.old lowers.now from.now to.now) ≡ Err e)) }
    ensures unchanged { OnErr result (layer.new ≡ layer.old) }
{
    if layer.at(from).is_none() {
        shift_lower(layer, lowers, from, to)?;
        return Ok(());
    }
    add_dirs_and_move(layer, lowers, from, to, leaves, covers)?;
    Ok(())
}

/// Moves the lower file or symlink that is seen at `from`: a copy of it is put at `to`, and a whiteout at `from`,
/// once the directories above both are added.
///
/// Where the layer with the whiteout would pass the limits of a layer, so would the rename's own result, which
/// takes no fewer inodes, though what stands at `to` goes: that is no directory, so that one inode at most goes.
fn shift_lower(layer: &mut Layer, lowers: &[Shared], from: &Path, to: &Path) -> Result<(), FsError>
    requires layers { AreLayers lowers.now }
    requires layer { IsLayer layer.old }
    requires passes { first_error (tests (op.Rename from.now to.now) (layer.old ∷ lowers.now)) ≡ None }
    requires moves { is_same_name layer.old from.now to.now ≡ false }
    requires lower { at layer.old from.now ≡ None }
    ensures ok { OnOk result (layer.new ≡ renamed layer.old lowers.now from.now to.now) }
    ensures layer { OnOk result (IsLayer layer.new) }
    ensures error { IfErr result (λ e. IsRefusal (renamed layer.old lowers.now from.now to.now) e) }
    ensures unchanged { OnErr result (layer.new ≡ layer.old) }
{
    let (above_from, above_to) = add_dirs_of_both(layer, lowers, from, to)?;
    if let Err(error) = put_shifted_copy(layer, lowers, from, to) {
        take_all(layer, &above_to);
        take_all(layer, &above_from);
        return Err(error);
    }
    Ok(())
}

/// Puts a whiteout at `from`, where nothing stands, and a copy of the file or symlink that is below there at `to`.
fn put_shifted_copy(
    layer: &mut Layer,
    lowers: &[Shared],
    from: &Path,
    to: &Path,
) -> Result<(), FsError>
    requires layers { AreLayers lowers.now }
    requires layer { IsLayer layer.old }
    requires bare { at layer.old from.now ≡ None }
    requires parent { HasParent layer.old from.now }
    requires place { HasPlace layer.old to.now }
    requires not_inside { begins from.now to.now ≡ false }
    requires not_around { begins to.now from.now ≡ false }
    ensures ok { OnOk result ((b : Body) → object_body (below layer.old lowers.now from.now) ≡ Some b → layer.new ≡ with_shifted layer.old from.now to.now b) }
    ensures layer { OnOk result (IsLayer layer.new) }
    ensures error { IfErr result (λ e. (b : Body) → object_body (below layer.old lowers.now from.now) ≡ Some b → IsRefusal (with_node layer.old from.now Node.Whiteout) e ⊎ IsRefusal (with_shifted layer.old from.now to.now b) e) }
    ensures unchanged { OnErr result (layer.new ≡ layer.old) }
{
    let Some(body) = body_below(layer, lowers, from)? else {
        return Ok(());
    };
    layer.add_whiteout(from)?;
    if let Err(error) = layer.add_body(to, body) {
        layer.take_name(from);
        return Err(FsError::from(error));
    }
    Ok(())
}

/// Moves what stands at `from` to `to`, once the directories above `to` are added.
fn add_dirs_and_move(
    layer: &mut Layer,
    lowers: &[Shared],
    from: &Path,
    to: &Path,
    leaves: bool,
    covers: bool,
) -> Result<(), FsError>
    requires way { walk_error (layer.old ∷ lowers.now) to.now ≡ None }
    requires movable { IsPath to.now → IsLayer (with_parents layer.old lowers.now to.now) → IsMovable (with_parents layer.old lowers.now to.now) from.now to.now }
    ensures ok { OnOk result (layer.new ≡ shifted (with_parents layer.old lowers.now to.now) from.now to.now leaves covers) }
    ensures layer { OnOk result (IsLayer layer.new) }
    ensures error { IfErr result (λ e. IsRefusal (with_parents layer.old lowers.now to.now) e ⊎ IsRefusal (shifted (with_parents layer.old lowers.now to.now) from.now to.now leaves covers) e) }
    ensures unchanged { OnErr result (layer.new ≡ layer.old) }
{
    let dirs = add_dirs(layer, lowers, to)?;
    if let Err(error) = relocate(layer, from, to, leaves, covers) {
        take_all(layer, &dirs);
        return Err(error);
    }
    Ok(())
}

/// Moves what stands at `from` to `to`. It leaves a whiteout where `leaves` says so, and a directory
/// becomes opaque where `covers` does.
fn relocate(
    layer: &mut Layer,
    from: &Path,
    to: &Path,
    leaves: bool,
    covers: bool,
) -> Result<(), FsError>
    requires movable { IsMovable layer.old from.now to.now }
    requires layer { IsLayer layer.old }
    ensures ok { OnOk result (layer.new ≡ shifted layer.old from.now to.now leaves covers) }
    ensures layer { OnOk result (IsLayer layer.new) }
    ensures error { IfErr result (λ e. IsRefusal (shifted layer.old from.now to.now leaves covers) e) }
    ensures unchanged { OnErr result (layer.new ≡ layer.old) }
{
    layer.move_tree(from, to, leaves)?;
    if covers && is_dir_there(layer, to) {
        layer.set_opaque(to, true);
    }
    Ok(())
}
