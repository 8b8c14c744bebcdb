// What was added to a layer is taken back.
ghost use Rattle.std.specs.Prelude.{◌≡◌, ◌∷◌, List, OnOk, OnErr, IfOk, IfErr, None};
ghost use Rattle.snap_path.specs.Text.{IsPath};
ghost use Rattle.snap_layer.specs.Layers.{IsLayer};
ghost use Rattle.snap_layer.specs.Tree.{Tree};
ghost use Rattle.snap_merge.specs.Walk.{walk_error};
ghost use Rattle.snap_copyup.specs.Copying.{with_parents};
ghost use Rattle.snap_copyup.specs.Places.{IsRefusal};
ghost use Rattle.snap_copyup.specs.Undoing.{Undoes};

use super::parents::{ensure_dirs, standing_dirs};
use snap_layer::{Layer, Shared};
use snap_merge::FsError;
use snap_path::Path;
use std::alloc::AllocError;

/// The directories above the path that the layer doesn't have, the lowest first: so `take_all` takes them back
/// once `ensure_dirs` has added them.
fn missing_paths(layer: &Layer, path: &Path) -> Result<Vec<Path>, AllocError>
    ensures dirs { IfOk result (λ dirs. (lowers : List Tree) → walk_error (layer.now ∷ lowers) path.now ≡ None → Undoes dirs.items (with_parents layer.now lowers path.now) layer.now) }
    ensures layer { IsLayer layer.now }
{
    let first = standing_dirs(layer, path);
    let mut missing = Vec::new(layer.alloc());
    for names in (first..path.names().len()).rev() {
        missing.push(path.front(names)?)?;
    }
    Ok(missing)
}

/// Adds to the layer the directories above the path that it doesn't have, as `ensure_dirs` does, and gives
/// their paths, the lowest first: so `take_all` takes them back.
///
/// The condition, the errors and what stands after them are those of `ensure_dirs`. Cost: where the directory
/// of the path stands, a walk to it in the layer. Else as `ensure_dirs`, and once more the walk and the text of each
/// path.
pub fn add_dirs(layer: &mut Layer, lowers: &[Shared], path: &Path) -> Result<Vec<Path>, FsError>
    requires { walk_error (layer.old ∷ lowers.now) path.now ≡ None }
    ensures ok { OnOk result (layer.new ≡ with_parents layer.old lowers.now path.now) }
    ensures undo { IfOk result (λ dirs. Undoes dirs.items layer.new layer.old) }
    ensures path { IsPath path.now }
    ensures layer { IsLayer layer.new }
    ensures error { IfErr result (λ e. IsRefusal (with_parents layer.old lowers.now path.now) e) }
    ensures unchanged { OnErr result (layer.new ≡ layer.old) }
{
    if layer.has_parent(path) {
        return Ok(Vec::new(layer.alloc()));
    }
    let dirs = missing_paths(layer, path)?;
    ensure_dirs(layer, lowers, path)?;
    Ok(dirs)
}

/// Adds to the layer the directories above the one path that it doesn't have, and then those above the other,
/// and gives the paths of the first and those of the others: `take_all` takes the others back, and then the
/// first.
///
/// The condition for each path, the errors and what stands after them are those of `ensure_dirs`. Cost: that of
/// `add_dirs` for each path.
pub fn add_dirs_of_both(
    layer: &mut Layer,
    lowers: &[Shared],
    one: &Path,
    other: &Path,
) -> Result<(Vec<Path>, Vec<Path>), FsError>
    requires one { walk_error (layer.old ∷ lowers.now) one.now ≡ None }
    requires other { walk_error (layer.old ∷ lowers.now) other.now ≡ None }
    ensures ok { OnOk result (layer.new ≡ with_parents (with_parents layer.old lowers.now one.now) lowers.now other.now) }
    ensures first { IfOk result (λ dirs. Undoes dirs.0.items (with_parents layer.old lowers.now one.now) layer.old) }
    ensures layer { OnOk result (IsLayer layer.new) }
    ensures others { IfOk result (λ dirs. Undoes dirs.1.items layer.new (with_parents layer.old lowers.now one.now)) }
    ensures error { IfErr result (λ e. IsRefusal (with_parents (with_parents layer.old lowers.now one.now) lowers.now other.now) e) }
    ensures unchanged { OnErr result (layer.new ≡ layer.old) }
{
    let first = add_dirs(layer, lowers, one)?;
    match add_dirs(layer, lowers, other) {
        Ok(others) => Ok((first, others)),
        Err(error) => {
            take_all(layer, &first);
            Err(error)
        }
    }
}

/// Takes what stands at the paths, one after another.
///
/// The condition is that each can be taken then, as by `take_name`. Takes no memory. Cost: for each path that
/// of `take_name`.
pub fn take_all(layer: &mut Layer, paths: &[Path])
    requires { (u : Tree) × Undoes paths.now layer.old u }
    ensures { (u : Tree) → Undoes paths.now layer.old u → layer.new ≡ u }
{
    for path in paths {
        layer.take_name(path);
    }
}
