// The names that are seen in a directory: what each layer that shares in it adds, the top one first.
ghost use Rattle.std.specs.Prelude.{◌≡◌, ◌&&◌, Bool, List, ℕ, [], ◌∷◌, ◌++◌, if◌then◌else◌, is_some, true, false, Option, OnOk, IfOk};
ghost use Rattle.std.specs.Str.{bytes_eq};
ghost use Rattle.snap_layer.specs.Tree.{at};
ghost use Rattle.snap_merge.specs.Objects.{Object, seen, seen_over};
ghost use Rattle.snap_merge.specs.Shares.{has, seen_so_far, is_shown};

use super::look::share_in;
use snap_layer::{Dir, Layer, Node, Shared};
use snap_path::{Name, Path};
use std::alloc::AllocError;
use std::collections::BTreeSet;

/// Puts the layer's names in the directory among those that the layers above it show and hide, and says whether
/// the layers below are to be gone through.
pub(crate) fn put_layer(
    shown: &mut BTreeSet<Name>,
    gone: &mut BTreeSet<Name>,
    layer: &Layer,
    path: &Path,
) -> Result<bool, AllocError>
    ensures { IfOk result (λ on. (n : List ℕ) (under : Option Object) → seen_so_far shown.new.keys gone.new.keys n (on && is_some under) ≡ seen_so_far shown.old.keys gone.old.keys n (is_some (seen_over layer.now (at layer.now (path.now ++ n ∷ [])) (path.now ++ n ∷ []) under))) }
{
    let share = share_in(layer, path.names());
    if let Some(dir) = &share.dir {
        put_dir(shown, gone, dir, dir.children()?)?;
    }
    Ok(!share.hides)
}

/// Puts the names of the layers among them, one layer after another, down to the first that hides what is below.
pub(crate) fn put_layers(
    shown: &mut BTreeSet<Name>,
    gone: &mut BTreeSet<Name>,
    lowers: &[Shared],
    path: &Path,
) -> Result<(), AllocError>
    ensures { OnOk result ((n : List ℕ) → has n shown.new.keys ≡ seen_so_far shown.old.keys gone.old.keys n (is_some (seen lowers.now (path.now ++ n ∷ [])))) }
{
    for shared in lowers {
        if !put_layer(shown, gone, shared.layer(), path)? {
            return Ok(());
        }
    }
    Ok(())
}

/// Puts the names of the layers among them, one layer after another, down to the first that shows one or hides
/// what is below.
pub(crate) fn put_some(
    shown: &mut BTreeSet<Name>,
    gone: &mut BTreeSet<Name>,
    lowers: &[Shared],
    path: &Path,
) -> Result<(), AllocError>
    requires { shown.old.keys ≡ [] }
    ensures some { OnOk result ((n : List ℕ) → has n shown.new.keys ≡ true → seen_so_far [] gone.old.keys n (is_some (seen lowers.now (path.now ++ n ∷ []))) ≡ true) }
    ensures none { OnOk result (shown.new.keys ≡ [] → (n : List ℕ) → seen_so_far [] gone.old.keys n (is_some (seen lowers.now (path.now ++ n ∷ []))) ≡ false) }
{
    for shared in lowers {
        let goes_on = put_layer(shown, gone, shared.layer(), path)?;
        if !goes_on {
            return Ok(());
        }
        if !shown.is_empty() {
            return Ok(());
        }
    }
    Ok(())
}

/// Puts the names of one layer's directory among them.
pub(crate) fn put_dir(
    shown: &mut BTreeSet<Name>,
    gone: &mut BTreeSet<Name>,
    dir: &Dir<'_>,
    names: Vec<Name>,
) -> Result<(), AllocError>
    ensures { OnOk result ((n : List ℕ) (under : Bool) → seen_so_far shown.new.keys gone.new.keys n under ≡ seen_so_far shown.old.keys gone.old.keys n (if has n names.items then is_shown dir.now n else under)) }
{
    for name in names {
        let is_there = is_shown_in(dir, &name);
        put_name(shown, gone, name, is_there)?;
    }
    Ok(())
}

/// Puts one name among them, which decides where the layers above have said nothing.
fn put_name(
    shown: &mut BTreeSet<Name>,
    gone: &mut BTreeSet<Name>,
    name: Name,
    is_there: bool,
) -> Result<(), AllocError>
    ensures { OnOk result ((n : List ℕ) (under : Bool) → seen_so_far shown.new.keys gone.new.keys n under ≡ seen_so_far shown.old.keys gone.old.keys n (if bytes_eq n name then is_there else under)) }
{
    if is_there {
        if !gone.contains(&name) {
            shown.insert(name)?;
        }
    } else if !shown.contains(&name) {
        gone.insert(name)?;
    }
    Ok(())
}

/// Whether the directory has something else than a whiteout at the name.
fn is_shown_in(dir: &Dir<'_>, name: &Name) -> bool
    ensures { result ≡ is_shown dir.now name.now }
{
    match dir.entry(name) {
        None => false,
        Some((Node::Whiteout, _)) => false,
        Some((Node::Dir { .. }, _)) => true,
        Some((Node::File { .. }, _)) => true,
        Some((Node::Symlink { .. }, _)) => true,
    }
}
