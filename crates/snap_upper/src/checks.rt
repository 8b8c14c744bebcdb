// The tests that an operation has to pass.
ghost use Rattle.std.specs.Prelude.{◌≡◌, ◌⊎◌, ◌==◌, [], ◌∷◌, is_some, true, false, None, Some, OnOk, IfErr, MatchOption, ◌||◌, ◌&&◌, not, IfOk, Ok, Err};
ghost use Rattle.std.specs.Option.{option_map};
ghost use Rattle.std.specs.Result.{result_err};
ghost use Rattle.std.specs.List.{list_any};
ghost use Rattle.snap_path.specs.Memory.{no_memory};
ghost use Rattle.snap_path.specs.Text.{begins};
ghost use Rattle.snap_layer.specs.declared.node.Meta.{Meta};
ghost use Rattle.snap_layer.specs.Contents.{most_bytes, size_of};
ghost use Rattle.snap_layer.specs.Layers.{IsLayer};
ghost use Rattle.snap_layer.specs.declared.content.Content.{Content as ContentValue};
ghost use Rattle.snap_merge.specs.declared.error.FsError.{FsError};
ghost use Rattle.snap_merge.specs.Objects.{object, dir, file, seen, is_shown_dir, AreLayers};
ghost use Rattle.snap_merge.specs.Walk.{walk_error};
ghost use Rattle.snap_copyup.specs.Copying.{below};
ghost use Rattle.snap_upper.specs.After.{tests, most_of, first_error, error_if, has_names, is_long_digest, is_no_target, move_tests, kind_error, is_root, is_same_name, is_same_path, is_same_number, moves_too_long, is_late, lists_names, error_by_kind};
ghost use Rattle.snap_upper.specs.declared.op.Op.TheVariants as op;

use super::change::own_number;
use snap_copyup::{below, is_pure_over};
use snap_layer::{Bytes, Content, Layer, Meta, Shared};
use snap_merge::{FsError, Seen, Stack, is_dir};
use snap_path::Path;
use snap_path::limits::{MAX_DIGEST_BYTES, MAX_MODE, MAX_SIZED_BYTES, MAX_TARGET_BYTES};
use std::alloc::Global;

/// Walks to the path, at which nothing may be seen.
fn check_unseen(stack: &Stack<'_>, path: &Path) -> Result<(), FsError>
    ensures error { result_err result ≡ first_error (walk_error stack.now path.now ∷ error_if (is_some (seen stack.now path.now)) FsError.Exists ∷ []) }
    ensures layers { AreLayers stack.now }
{
    if stack.walk_to(path)?.is_some() {
        return Err(FsError::Exists);
    }
    Ok(())
}

/// Tests whether an object with the mode can be made at the path.
pub(crate) fn check_new(stack: &Stack<'_>, path: &Path, mode: u32) -> Result<(), FsError>
    ensures error { result_err result ≡ first_error (tests (op.Mkdir path.now mode) stack.now) }
    ensures layers { AreLayers stack.now }
{
    check_unseen(stack, path)?;
    if mode > MAX_MODE {
        return Err(FsError::Invalid);
    }
    Ok(())
}

/// Tests whether a file of the size can be made at the path, with the mode and the digest.
pub(crate) fn check_put(
    stack: &Stack<'_>,
    path: &Path,
    mode: u32,
    size: u64,
    digest: &Option<Bytes>,
) -> Result<(), FsError>
    ensures error { result_err result ≡ first_error (tests (op.Put path.now mode size digest.now) stack.now) }
    ensures layers { AreLayers stack.now }
{
    check_unseen(stack, path)?;
    if mode > MAX_MODE {
        return Err(FsError::Invalid);
    }
    if size > MAX_SIZED_BYTES || is_long_digest(digest) {
        return Err(FsError::TooBig);
    }
    Ok(())
}

/// Whether the digest has more than 1024 bytes.
fn is_long_digest(digest: &Option<Bytes>) -> bool
    ensures { result ≡ is_long_digest digest.now }
{
    match digest {
        Some(digest) => digest.as_slice().len() > MAX_DIGEST_BYTES,
        None => false,
    }
}

/// Tests whether the bytes can be put at the offset of the file at the path, and gives the file's size.
pub(crate) fn check_write(
    stack: &Stack<'_>,
    path: &Path,
    offset: u64,
    bytes: &Bytes,
) -> Result<u64, FsError>
    ensures error { result_err result ≡ first_error (tests (op.Write path.now offset bytes.now) stack.now) }
    ensures size { IfOk result (λ n. (m : Meta) (old : ContentValue) → seen stack.now path.now ≡ Some (file m old) → n ≡ size_of old) }
    ensures layers { AreLayers stack.now }
{
    let old = check_file(stack.walk_to(path)?)?;
    let end = offset.saturating_add(bytes.as_slice().len() as u64);
    if end > old.most_bytes() {
        return Err(FsError::TooBig);
    }
    Ok(old.size())
}

/// Tests whether the file at the path can be given `size` bytes, and gives the file's size.
pub(crate) fn check_truncate(stack: &Stack<'_>, path: &Path, size: u64) -> Result<u64, FsError>
    ensures error { result_err result ≡ first_error (tests (op.Truncate path.now size) stack.now) }
    ensures size { IfOk result (λ n. (m : Meta) (old : ContentValue) → seen stack.now path.now ≡ Some (file m old) → n ≡ size_of old) }
    ensures layers { AreLayers stack.now }
{
    let old = check_file(stack.walk_to(path)?)?;
    if size > old.most_bytes() {
        return Err(FsError::TooBig);
    }
    Ok(old.size())
}

/// Tests whether the directory or file at the path can be given the mode.
pub(crate) fn check_mode(stack: &Stack<'_>, path: &Path, mode: u32) -> Result<(), FsError>
    ensures error { result_err result ≡ first_error (tests (op.SetMode path.now mode) stack.now) }
    ensures layers { AreLayers stack.now }
{
    check_has_mode(stack.walk_to(path)?)?;
    if mode > MAX_MODE {
        return Err(FsError::Invalid);
    }
    Ok(())
}

/// Tests whether a symlink with the target can be made at the path.
pub(crate) fn check_symlink(stack: &Stack<'_>, path: &Path, target: &Bytes) -> Result<(), FsError>
    ensures error { result_err result ≡ first_error (tests (op.Symlink path.now target.now) stack.now) }
    ensures layers { AreLayers stack.now }
{
    check_unseen(stack, path)?;
    let bytes = target.as_slice();
    if is_no_target(bytes) {
        return Err(FsError::Invalid);
    }
    if bytes.len() > MAX_TARGET_BYTES {
        return Err(FsError::TooBig);
    }
    Ok(())
}

/// Whether the bytes are empty or have a NUL.
fn is_no_target(bytes: &[u8]) -> bool
    ensures { result ≡ is_no_target bytes.now }
{
    bytes.len() == 0 || has_nul(bytes)
}

fn has_nul(bytes: &[u8]) -> bool
    ensures { result ≡ list_any (λ b. b == 0) bytes.now }
{
    bytes.iter().any(|byte| *byte == 0)
}

/// Tests whether a regular file is seen, and gives its content.
fn check_file<'a>(found: Option<Seen<'a>>) -> Result<&'a Content, FsError>
    ensures error { result_err result ≡ error_by_kind (Some FsError.IsDir) None (Some FsError.Invalid) (option_map object found.entry) }
    ensures most { IfOk result (λ own. most_of (option_map object found.entry) ≡ most_bytes own.now) }
    ensures size { IfOk result (λ own. (m : Meta) (old : ContentValue) → option_map object found.entry ≡ Some (file m old) → size_of own.now ≡ size_of old) }
{
    match found {
        Some(Seen::File { content, .. }) => Ok(content),
        Some(Seen::Dir { .. }) => Err(FsError::IsDir),
        Some(Seen::Symlink { .. }) => Err(FsError::Invalid),
        None => Err(FsError::NotFound),
    }
}

/// Tests whether a directory or a regular file, which have a mode, is seen.
fn check_has_mode(found: Option<Seen<'_>>) -> Result<(), FsError>
    ensures { result_err result ≡ error_by_kind None None (Some FsError.Invalid) (option_map object found.entry) }
{
    match found {
        Some(Seen::File { .. }) => Ok(()),
        Some(Seen::Dir { .. }) => Ok(()),
        Some(Seen::Symlink { .. }) => Err(FsError::Invalid),
        None => Err(FsError::NotFound),
    }
}

/// Tests whether what is seen at `from` can get the name `to`.
pub(crate) fn check_link(stack: &Stack<'_>, from: &Path, to: &Path) -> Result<(), FsError>
    ensures error { result_err result ≡ first_error (tests (op.Link from.now to.now) stack.now) }
    ensures layers { AreLayers stack.now }
{
    let linked = stack.walk_to(from)?;
    let target = stack.walk_to(to)?;
    check_linked(linked)?;
    if target.is_some() {
        return Err(FsError::Exists);
    }
    Ok(())
}

/// Tests whether a file or a symlink is seen.
fn check_linked(found: Option<Seen<'_>>) -> Result<(), FsError>
    ensures { result_err result ≡ error_by_kind (Some FsError.NotPermitted) None None (option_map object found.entry) }
{
    match found {
        Some(Seen::File { .. }) => Ok(()),
        Some(Seen::Symlink { .. }) => Ok(()),
        Some(Seen::Dir { .. }) => Err(FsError::NotPermitted),
        None => Err(FsError::NotFound),
    }
}

/// Tests whether the name at the path can be taken. The answer is what is seen there.
pub(crate) fn check_unlink<'a>(stack: &Stack<'a>, path: &Path) -> Result<Option<Seen<'a>>, FsError>
    ensures error { result_err result ≡ first_error (tests (op.Unlink path.now) stack.now) }
    ensures seen { IfOk result (λ o. option_map object o ≡ seen stack.now path.now) }
    ensures layers { AreLayers stack.now }
{
    let found = stack.walk_to(path)?;
    check_name(found)?;
    Ok(found)
}

/// Tests whether a file or a symlink is seen, whose name can be taken.
fn check_name(found: Option<Seen<'_>>) -> Result<(), FsError>
    ensures { result_err result ≡ error_by_kind (Some FsError.IsDir) None None (option_map object found.entry) }
{
    match found {
        Some(Seen::File { .. }) => Ok(()),
        Some(Seen::Symlink { .. }) => Ok(()),
        Some(Seen::Dir { .. }) => Err(FsError::IsDir),
        None => Err(FsError::NotFound),
    }
}

/// Tests whether the directory at the path can be taken. The answer is what is seen there. The list of its
/// names takes memory.
pub(crate) fn check_rmdir<'a>(
    stack: &Stack<'a>,
    alloc: Global,
    path: &Path,
) -> Result<Option<Seen<'a>>, FsError>
    ensures ok { OnOk result (first_error (tests (op.Rmdir path.now) stack.now) ≡ None) }
    ensures seen { IfOk result (λ o. option_map object o ≡ seen stack.now path.now) }
    ensures error { IfErr result (λ e. (e ≡ FsError.OutOfMemory no_memory) ⊎ (first_error (tests (op.Rmdir path.now) stack.now) ≡ Some e)) }
    ensures sure { lists_names (op.Rmdir path.now) stack.now ≡ false → IfErr result (λ e. first_error (tests (op.Rmdir path.now) stack.now) ≡ Some e) }
    ensures layers { AreLayers stack.now }
{
    let found = stack.walk_to(path)?;
    if path.names().is_empty() {
        return Err(FsError::Invalid);
    }
    check_dir(found)?;
    check_empty(stack, alloc, path, found)?;
    Ok(found)
}

/// Tests that nothing is seen in the path's directory, if there is one.
fn check_empty(
    stack: &Stack<'_>,
    alloc: Global,
    path: &Path,
    found: Option<Seen<'_>>,
) -> Result<(), FsError>
    requires seen { option_map object found ≡ seen stack.now path.now }
    requires way { walk_error stack.now path.now ≡ None }
    requires layers { AreLayers stack.now }
    ensures ok { OnOk result (has_names stack.now path.now ≡ false) }
    ensures error { IfErr result (λ e. (e ≡ FsError.OutOfMemory no_memory) ⊎ ((e ≡ FsError.NotEmpty) × (has_names stack.now path.now ≡ true))) }
    ensures sure { is_shown_dir (seen stack.now path.now) ≡ false → result_err result ≡ None }
{
    if !is_dir(found) {
        return Ok(());
    }
    if stack.has_names(alloc, path)? {
        return Err(FsError::NotEmpty);
    }
    Ok(())
}

/// Tests whether a directory is seen, and gives its `Meta`.
fn check_dir(found: Option<Seen<'_>>) -> Result<Meta, FsError>
    ensures error { result_err result ≡ error_by_kind None (Some FsError.NotDir) (Some FsError.NotDir) (option_map object found.entry) }
    ensures meta { IfOk result (λ m. option_map object found.entry ≡ Some (dir m)) }
{
    match found {
        Some(Seen::Dir { meta }) => Ok(meta),
        Some(Seen::File { .. }) => Err(FsError::NotDir),
        Some(Seen::Symlink { .. }) => Err(FsError::NotDir),
        None => Err(FsError::NotFound),
    }
}

/// Tests whether something other than the root is seen at the path, and gives it.
pub(crate) fn check_whiteout<'a>(
    stack: &Stack<'a>,
    path: &Path,
) -> Result<Option<Seen<'a>>, FsError>
    ensures error { result_err result ≡ first_error (tests (op.Whiteout path.now) stack.now) }
    ensures seen { IfOk result (λ o. option_map object o ≡ seen stack.now path.now) }
    ensures layers { AreLayers stack.now }
{
    let found = stack.walk_to(path)?;
    if path.names().is_empty() {
        return Err(FsError::Invalid);
    }
    if found.is_none() {
        return Err(FsError::NotFound);
    }
    Ok(found)
}

/// Tests whether a directory is seen at the path, and gives its `Meta`.
pub(crate) fn check_opaque(stack: &Stack<'_>, path: &Path) -> Result<Meta, FsError>
    ensures error { result_err result ≡ first_error (tests (op.Opaque path.now) stack.now) }
    ensures meta { IfOk result (λ m. seen stack.now path.now ≡ Some (dir m)) }
    ensures layers { AreLayers stack.now }
{
    check_dir(stack.walk_to(path)?)
}

/// What the lower layers show at both ends of a rename, and the layer doesn't hide.
#[derive(Clone, Copy)]
pub(crate) struct Sides {
    /// Whether they show something at `from`.
    pub(crate) leaves: bool,
    /// Whether they show something at `to`.
    pub(crate) covers: bool,
}

/// What is seen at both ends of a rename.
#[derive(Clone, Copy)]
struct Ends<'a> {
    moved: Option<Seen<'a>>,
    target: Option<Seen<'a>>,
}

/// Tests whether a rename can be done. The answer is nothing where it has nothing to do: one path, or two
/// names of one file in the layer, stay as they are.
pub(crate) fn check_rename(
    layer: &Layer,
    lowers: &[Shared],
    from: &Path,
    to: &Path,
) -> Result<Option<Sides>, FsError>
    ensures ok { OnOk result (first_error (tests (op.Rename from.now to.now) (layer.now ∷ lowers.now)) ≡ None) }
    ensures moves { IfOk result (λ o. MatchOption o (is_same_name layer.now from.now to.now ≡ true) (λ sides. (is_same_name layer.now from.now to.now ≡ false) × (sides.leaves ≡ is_some (below layer.now lowers.now from.now)) × (sides.covers ≡ is_some (below layer.now lowers.now to.now)))) }
    ensures error { IfErr result (λ e. (e ≡ FsError.OutOfMemory no_memory) ⊎ (first_error (tests (op.Rename from.now to.now) (layer.now ∷ lowers.now)) ≡ Some e)) }
    // Memory is taken for the names of a directory that is seen at `to`.
    ensures sure { lists_names (op.Rename from.now to.now) (layer.now ∷ lowers.now) ≡ false → IfErr result (λ e. first_error (tests (op.Rename from.now to.now) (layer.now ∷ lowers.now)) ≡ Some e) }
    ensures layers { AreLayers (layer.now ∷ lowers.now) }
{
    let ends = check_ends(&Stack::over(layer, lowers), from, to)?;
    if is_same_name(layer, from, to) {
        return Ok(None);
    }
    let under = under(layer, lowers, from, ends.moved);
    check_move(layer, lowers, from, to, ends, under)?;
    let leaves = under.is_some();
    let covers = is_below(layer, lowers, to, ends.target);
    Ok(Some(Sides { leaves, covers }))
}

/// Tests the ways to both paths, that neither is the root, and that something is seen at `from`.
fn check_ends<'a>(stack: &Stack<'a>, from: &Path, to: &Path) -> Result<Ends<'a>, FsError>
    ensures error { result_err result ≡ first_error (walk_error stack.now from.now ∷ walk_error stack.now to.now ∷ error_if (is_root from.now || is_root to.now) FsError.Invalid ∷ error_if (not (is_some (seen stack.now from.now))) FsError.NotFound ∷ []) }
    ensures seen { IfOk result (λ ends. (option_map object ends.moved ≡ seen stack.now from.now) × (option_map object ends.target ≡ seen stack.now to.now)) }
    ensures layers { AreLayers stack.now }
{
    let moved = stack.walk_to(from)?;
    let target = stack.walk_to(to)?;
    if from.names().is_empty() || to.names().is_empty() {
        return Err(FsError::Invalid);
    }
    if moved.is_none() {
        return Err(FsError::NotFound);
    }
    Ok(Ends { moved, target })
}

/// What the lower layers show at the path, and the layer doesn't hide there. Where the layer has nothing at the
/// path, that is what is seen.
fn under<'a>(
    layer: &Layer,
    lowers: &'a [Shared],
    path: &Path,
    found: Option<Seen<'a>>,
) -> Option<Seen<'a>>
    requires seen { option_map object found ≡ seen (layer.now ∷ lowers.now) path.now }
    ensures { option_map object result ≡ below layer.now lowers.now path.now }
{
    if layer.at(path).is_none() {
        return found;
    }
    below(layer, lowers, path)
}

/// Whether the lower layers show something at the path, and the layer doesn't hide it there.
pub(crate) fn is_below(
    layer: &Layer,
    lowers: &[Shared],
    path: &Path,
    found: Option<Seen<'_>>,
) -> bool
    requires seen { option_map object found ≡ seen (layer.now ∷ lowers.now) path.now }
    ensures { result ≡ is_some (below layer.now lowers.now path.now) }
{
    under(layer, lowers, path, found).is_some()
}

/// Whether both are one path, or two names of one file in the layer.
fn is_same_name(layer: &Layer, from: &Path, to: &Path) -> bool
    ensures { result ≡ is_same_name layer.now from.now to.now }
{
    is_same_path(from, to) || is_same_number(own_number(layer, from), own_number(layer, to))
}

/// Whether the paths are one.
fn is_same_path(from: &Path, to: &Path) -> bool
    ensures { result ≡ is_same_path from.now to.now }
{
    to.begins(from) && from.begins(to)
}

/// Whether both numbers are there, and they are one.
fn is_same_number(one: Option<u32>, other: Option<u32>) -> bool
    ensures { result ≡ is_same_number one other }
{
    match (one, other) {
        (Some(one), Some(other)) => one == other,
        (Some(_), None) => false,
        (None, _) => false,
    }
}

/// Tests whether what is seen at `from`, and below the layer there, can move to `to`. The list of the names at
/// `to` takes memory.
fn check_move(
    layer: &Layer,
    lowers: &[Shared],
    from: &Path,
    to: &Path,
    ends: Ends<'_>,
    under: Option<Seen<'_>>,
) -> Result<(), FsError>
    requires seen { (option_map object ends.moved ≡ seen (layer.now ∷ lowers.now) from.now) × (option_map object ends.target ≡ seen (layer.now ∷ lowers.now) to.now) }
    requires under { option_map object under ≡ below layer.now lowers.now from.now }
    requires way { walk_error (layer.now ∷ lowers.now) to.now ≡ None }
    requires roots { (is_root from.now || is_root to.now) ≡ false }
    requires layers { AreLayers (layer.now ∷ lowers.now) }
    ensures ok { OnOk result (first_error (move_tests layer.now lowers.now from.now to.now) ≡ None) }
    ensures error { IfErr result (λ e. (e ≡ FsError.OutOfMemory no_memory) ⊎ (first_error (move_tests layer.now lowers.now from.now to.now) ≡ Some e)) }
    ensures sure { (is_shown_dir (seen (layer.now ∷ lowers.now) to.now) && is_late (first_error (move_tests layer.now lowers.now from.now to.now))) ≡ false → IfErr result (λ e. first_error (move_tests layer.now lowers.now from.now to.now) ≡ Some e) }
{
    let Ends { moved, target } = ends;
    if is_dir(moved) && to.begins(from) {
        return Err(FsError::Invalid);
    }
    check_kinds(moved, target)?;
    if is_dir(moved) && !is_pure_over(layer.at(from), under) {
        return Err(FsError::CrossDevice);
    }
    check_empty(&Stack::over(layer, lowers), layer.alloc(), to, target)?;
    if is_too_long(layer, from, to) {
        return Err(FsError::BadPath);
    }
    Ok(())
}

/// Whether a path of the layer at or below `from` would be too long at `to`.
fn is_too_long(layer: &Layer, from: &Path, to: &Path) -> bool
    requires roots { (is_root from.now || is_root to.now) ≡ false }
    requires layer { IsLayer layer.now }
    ensures { result ≡ moves_too_long layer.now from.now to.now }
{
    !layer.has_short_paths(from, to)
}

/// Tests that a directory takes the place of no other object, and that no other object takes the place of
/// a directory.
fn check_kinds(moved: Option<Seen<'_>>, target: Option<Seen<'_>>) -> Result<(), FsError>
    ensures { result_err result ≡ kind_error (option_map object moved.entry) (option_map object target.entry) }
{
    match target {
        None => Ok(()),
        Some(Seen::Dir { .. }) if is_dir(moved) => Ok(()),
        Some(Seen::Dir { .. }) => Err(FsError::IsDir),
        Some(Seen::File { .. }) if is_dir(moved) => Err(FsError::NotDir),
        Some(Seen::Symlink { .. }) if is_dir(moved) => Err(FsError::NotDir),
        Some(_) => Ok(()),
    }
}
