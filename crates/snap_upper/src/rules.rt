// The rule of each operation: its tests, and the change that it makes where they pass.
ghost use Rattle.std.specs.Prelude.{◌≡◌, ◌⊎◌, ◌∷◌, Some, None, IfOk, IfErr, Err, false, is_some};
ghost use Rattle.snap_path.specs.Memory.{no_memory};
ghost use Rattle.snap_layer.specs.declared.node.Meta.{Meta};
ghost use Rattle.snap_layer.specs.Layers.{IsLayer};
ghost use Rattle.snap_layer.specs.Tree.{at, number_at};
ghost use Rattle.snap_layer.specs.Contents.{edited, size_of, IsShort};
ghost use Rattle.snap_layer.specs.declared.content.Content.{Content as ContentValue};
ghost use Rattle.snap_merge.specs.declared.error.FsError.{FsError};
ghost use Rattle.snap_merge.specs.Objects.{file, seen, AreLayers};
ghost use Rattle.snap_merge.specs.Walk.{walk_error};
ghost use Rattle.snap_copyup.specs.Copying.{below, copied_up};
ghost use Rattle.snap_upper.specs.After.{after, limited, with_content, lists_names, error_by_kind};
ghost use Rattle.snap_upper.specs.Changes.{outcome, IsChange, IsInPlace, IsReady, IsWithMode};
ghost use Rattle.snap_upper.specs.Memory.{IsNoGrowth};
ghost use Rattle.snap_upper.specs.declared.op.Op.TheVariants as op;

use super::change::{Change, New, is_dir_there, is_whiteout, own_number};
use super::checks::{
    check_link, check_mode, check_new, check_opaque, check_put, check_rename, check_rmdir,
    check_symlink, check_truncate, check_unlink, check_whiteout, check_write, is_below,
};
use super::op::Op;
use snap_copyup::below;
use snap_layer::{Bytes, Edit, Layer, Meta, Shared};
use snap_merge::{FsError, Seen, Stack};
use snap_path::Path;

/// The change that the operation makes on the layer over the lower layers, where its tests pass.
pub(crate) fn rule<'a>(
    layer: &Layer,
    lowers: &'a [Shared],
    op: &'a Op,
) -> Result<Change<'a>, FsError>
    ensures ok { IfOk result (λ c. IsChange c op.now layer.now lowers.now) }
    ensures layer { IsLayer layer.now }
    ensures error { IfErr result (λ e. (e ≡ FsError.OutOfMemory no_memory) ⊎ (after op.now layer.now lowers.now ≡ Err e)) }
    ensures sure { lists_names op.now (layer.now ∷ lowers.now) ≡ false → IfErr result (λ e. after op.now layer.now lowers.now ≡ Err e) }
{
    match op {
        Op::Mkdir { path, mode } => mkdir(layer, lowers, path, *mode),
        Op::Create { path, mode } => create(layer, lowers, path, *mode),
        Op::Put {
            path,
            mode,
            size,
            digest,
        } => put(layer, lowers, path, *mode, *size, digest),
        Op::Write {
            path,
            offset,
            bytes,
        } => write(layer, lowers, path, *offset, bytes),
        Op::Truncate { path, size } => truncate(layer, lowers, path, *size),
        Op::SetMode { path, mode } => set_mode(layer, lowers, path, *mode),
        Op::Symlink { path, target } => symlink(layer, lowers, path, target),
        Op::Link { from, to } => link(layer, lowers, from, to),
        Op::Unlink { path } => unlink(layer, lowers, path),
        Op::Rmdir { path } => rmdir(layer, lowers, path),
        Op::Rename { from, to } => rename(layer, lowers, from, to),
        Op::Opaque { path } => opaque(layer, lowers, path),
        Op::Whiteout { path } => whiteout(layer, lowers, path),
    }
}

fn mkdir<'a>(
    layer: &Layer,
    lowers: &'a [Shared],
    path: &'a Path,
    mode: u32,
) -> Result<Change<'a>, FsError>
    ensures ok { IfOk result (λ c. IsChange c (op.Mkdir path.now mode) layer.now lowers.now) }
    ensures layer { IsLayer layer.now }
    ensures error { IfErr result (λ e. after (op.Mkdir path.now mode) layer.now lowers.now ≡ Err e) }
{
    check_new(&Stack::over(layer, lowers), path, mode)?;
    let meta = Meta { mode };
    let opaque = is_whiteout(layer.at(path));
    let new = New::Dir { meta, opaque };
    Ok(Change::Put { path, new })
}

fn create<'a>(
    layer: &Layer,
    lowers: &'a [Shared],
    path: &'a Path,
    mode: u32,
) -> Result<Change<'a>, FsError>
    ensures ok { IfOk result (λ c. IsChange c (op.Create path.now mode) layer.now lowers.now) }
    ensures layer { IsLayer layer.now }
    ensures error { IfErr result (λ e. after (op.Create path.now mode) layer.now lowers.now ≡ Err e) }
{
    check_new(&Stack::over(layer, lowers), path, mode)?;
    let meta = Meta { mode };
    let new = New::Empty { meta };
    Ok(Change::Put { path, new })
}

fn put<'a>(
    layer: &Layer,
    lowers: &'a [Shared],
    path: &'a Path,
    mode: u32,
    size: u64,
    digest: &'a Option<Bytes>,
) -> Result<Change<'a>, FsError>
    ensures ok { IfOk result (λ c. IsChange c (op.Put path.now mode size digest.now) layer.now lowers.now) }
    ensures layer { IsLayer layer.now }
    ensures error { IfErr result (λ e. after (op.Put path.now mode size digest.now) layer.now lowers.now ≡ Err e) }
{
    check_put(&Stack::over(layer, lowers), path, mode, size, digest)?;
    let meta = Meta { mode };
    let digest = digest.as_ref();
    let new = New::Sized { meta, size, digest };
    Ok(Change::Put { path, new })
}

fn symlink<'a>(
    layer: &Layer,
    lowers: &'a [Shared],
    path: &'a Path,
    target: &'a Bytes,
) -> Result<Change<'a>, FsError>
    ensures ok { IfOk result (λ c. IsChange c (op.Symlink path.now target.now) layer.now lowers.now) }
    ensures layer { IsLayer layer.now }
    ensures error { IfErr result (λ e. after (op.Symlink path.now target.now) layer.now lowers.now ≡ Err e) }
{
    check_symlink(&Stack::over(layer, lowers), path, target)?;
    let target = target.as_slice();
    let new = New::Symlink { target };
    Ok(Change::Put { path, new })
}

fn write<'a>(
    layer: &Layer,
    lowers: &'a [Shared],
    path: &'a Path,
    offset: u64,
    bytes: &'a Bytes,
) -> Result<Change<'a>, FsError>
    ensures ok { IfOk result (λ c. IsChange c (op.Write path.now offset bytes.now) layer.now lowers.now) }
    ensures layer { IsLayer layer.now }
    ensures error { IfErr result (λ e. after (op.Write path.now offset bytes.now) layer.now lowers.now ≡ Err e) }
{
    let old = check_write(&Stack::over(layer, lowers), path, offset, bytes)?;
    let edit = Edit::Write {
        offset: offset as usize,
        bytes: bytes.as_slice(),
    };
    editing(layer, lowers, path, old, edit)
}

fn truncate<'a>(
    layer: &Layer,
    lowers: &'a [Shared],
    path: &'a Path,
    size: u64,
) -> Result<Change<'a>, FsError>
    ensures ok { IfOk result (λ c. IsChange c (op.Truncate path.now size) layer.now lowers.now) }
    ensures layer { IsLayer layer.now }
    ensures error { IfErr result (λ e. after (op.Truncate path.now size) layer.now lowers.now ≡ Err e) }
{
    let old = check_truncate(&Stack::over(layer, lowers), path, size)?;
    let edit = Edit::Resize {
        size: size as usize,
    };
    editing(layer, lowers, path, old, edit)
}

/// The edit of the regular file that is seen at the path and has `size` bytes: of the layer's own, or of a lower
/// one, which is copied up with the new content in place of its own.
fn editing<'a>(
    layer: &Layer,
    lowers: &'a [Shared],
    path: &'a Path,
    size: u64,
    edit: Edit<'a>,
) -> Result<Change<'a>, FsError>
    requires layer { IsLayer layer.now }
    requires layers { AreLayers lowers.now }
    requires way { walk_error (layer.now ∷ lowers.now) path.now ≡ None }
    requires there { (m : Meta) × (old : ContentValue) × (seen (layer.now ∷ lowers.now) path.now ≡ Some (file m old)) }
    requires size { (m : Meta) (old : ContentValue) → seen (layer.now ∷ lowers.now) path.now ≡ Some (file m old) → size ≡ size_of old }
    requires short { (m : Meta) (old : ContentValue) → seen (layer.now ∷ lowers.now) path.now ≡ Some (file m old) → IsShort edit old }
    ensures ok { IfOk result (λ c. IsReady c layer.now lowers.now × (outcome c layer.now lowers.now ≡ limited (with_content (copied_up layer.now lowers.now path.now) (number_at (copied_up layer.now lowers.now path.now) path.now) (edited edit.entry)))) }
    ensures in_place { IfOk result (λ c. IsNoGrowth layer.now (number_at layer.now path.now) (edited edit.entry) → IsInPlace c layer.now) }
    ensures sure { IfErr result (λ e. ⊥) }
{
    if let Some(number) = own_number(layer, path) {
        return Ok(Change::Fill { number, size, edit });
    }
    let Some(Seen::File { meta, content }) = below(layer, lowers, path) else {
        return Err(FsError::NotFound);
    };
    let old = content;
    let new = New::File { meta, old, edit };
    Ok(Change::Put { path, new })
}

fn set_mode<'a>(
    layer: &Layer,
    lowers: &'a [Shared],
    path: &'a Path,
    mode: u32,
) -> Result<Change<'a>, FsError>
    ensures ok { IfOk result (λ c. IsChange c (op.SetMode path.now mode) layer.now lowers.now) }
    ensures layer { IsLayer layer.now }
    ensures error { IfErr result (λ e. after (op.SetMode path.now mode) layer.now lowers.now ≡ Err e) }
{
    check_mode(&Stack::over(layer, lowers), path, mode)?;
    if layer.at(path).is_some() {
        return Ok(Change::SetMode { path, mode });
    }
    let new = lower_with(layer, lowers, path, mode)?;
    Ok(Change::Put { path, new })
}

/// The directory or file that is seen at the path below the layer, with the mode.
fn lower_with<'a>(
    layer: &Layer,
    lowers: &'a [Shared],
    path: &Path,
    mode: u32,
) -> Result<New<'a>, FsError>
    requires nothing { at layer.now path.now ≡ None }
    requires there { error_by_kind None None (Some FsError.Invalid) (seen (layer.now ∷ lowers.now) path.now) ≡ None }
    ensures ok { IfOk result (λ new. IsWithMode new (seen (layer.now ∷ lowers.now) path.now) mode) }
    ensures sure { IfErr result (λ e. ⊥) }
{
    match below(layer, lowers, path) {
        Some(Seen::Dir { meta }) => {
            let meta = Meta { mode, ..meta };
            let opaque = false;
            Ok(New::Dir { meta, opaque })
        }
        Some(Seen::File { meta, content }) => {
            let meta = Meta { mode, ..meta };
            let old = content;
            let edit = Edit::Keep;
            Ok(New::File { meta, old, edit })
        }
        _ => Err(FsError::NotFound),
    }
}

fn link<'a>(
    layer: &Layer,
    lowers: &'a [Shared],
    from: &'a Path,
    to: &'a Path,
) -> Result<Change<'a>, FsError>
    ensures ok { IfOk result (λ c. IsChange c (op.Link from.now to.now) layer.now lowers.now) }
    ensures layer { IsLayer layer.now }
    ensures error { IfErr result (λ e. after (op.Link from.now to.now) layer.now lowers.now ≡ Err e) }
{
    check_link(&Stack::over(layer, lowers), from, to)?;
    Ok(Change::Link { from, to })
}

fn unlink<'a>(layer: &Layer, lowers: &'a [Shared], path: &'a Path) -> Result<Change<'a>, FsError>
    ensures ok { IfOk result (λ c. IsChange c (op.Unlink path.now) layer.now lowers.now) }
    ensures layer { IsLayer layer.now }
    ensures error { IfErr result (λ e. after (op.Unlink path.now) layer.now lowers.now ≡ Err e) }
{
    let found = check_unlink(&Stack::over(layer, lowers), path)?;
    let covers = is_below(layer, lowers, path, found);
    Ok(Change::Erase { path, covers })
}

fn rmdir<'a>(layer: &Layer, lowers: &'a [Shared], path: &'a Path) -> Result<Change<'a>, FsError>
    ensures ok { IfOk result (λ c. IsChange c (op.Rmdir path.now) layer.now lowers.now) }
    ensures layer { IsLayer layer.now }
    ensures error { IfErr result (λ e. (e ≡ FsError.OutOfMemory no_memory) ⊎ (after (op.Rmdir path.now) layer.now lowers.now ≡ Err e)) }
    ensures sure { lists_names (op.Rmdir path.now) (layer.now ∷ lowers.now) ≡ false → IfErr result (λ e. after (op.Rmdir path.now) layer.now lowers.now ≡ Err e) }
{
    let found = check_rmdir(&Stack::over(layer, lowers), layer.alloc(), path)?;
    let covers = is_below(layer, lowers, path, found);
    Ok(Change::Erase { path, covers })
}

fn rename<'a>(
    layer: &Layer,
    lowers: &'a [Shared],
    from: &'a Path,
    to: &'a Path,
) -> Result<Change<'a>, FsError>
    ensures ok { IfOk result (λ c. IsChange c (op.Rename from.now to.now) layer.now lowers.now) }
    ensures layer { IsLayer layer.now }
    ensures error { IfErr result (λ e. (e ≡ FsError.OutOfMemory no_memory) ⊎ (after (op.Rename from.now to.now) layer.now lowers.now ≡ Err e)) }
    ensures sure { lists_names (op.Rename from.now to.now) (layer.now ∷ lowers.now) ≡ false → IfErr result (λ e. after (op.Rename from.now to.now) layer.now lowers.now ≡ Err e) }
{
    let Some(sides) = check_rename(layer, lowers, from, to)? else {
        return Ok(Change::Nothing);
    };
    Ok(Change::Move {
        from,
        to,
        leaves: sides.leaves,
        covers: sides.covers,
    })
}

fn opaque<'a>(layer: &Layer, lowers: &'a [Shared], path: &'a Path) -> Result<Change<'a>, FsError>
    ensures ok { IfOk result (λ c. IsChange c (op.Opaque path.now) layer.now lowers.now) }
    ensures layer { IsLayer layer.now }
    ensures error { IfErr result (λ e. after (op.Opaque path.now) layer.now lowers.now ≡ Err e) }
{
    let meta = check_opaque(&Stack::over(layer, lowers), path)?;
    if layer.at(path).is_some() {
        return Ok(Change::SetOpaque { path });
    }
    let opaque = true;
    let new = New::Dir { meta, opaque };
    Ok(Change::Put { path, new })
}

fn whiteout<'a>(layer: &Layer, lowers: &'a [Shared], path: &'a Path) -> Result<Change<'a>, FsError>
    ensures ok { IfOk result (λ c. IsChange c (op.Whiteout path.now) layer.now lowers.now) }
    ensures layer { IsLayer layer.now }
    ensures error { IfErr result (λ e. after (op.Whiteout path.now) layer.now lowers.now ≡ Err e) }
{
    let found = check_whiteout(&Stack::over(layer, lowers), path)?;
    let covers = is_below(layer, lowers, path, found);
    if is_dir_there(layer, path) {
        return Ok(Change::EraseTree { path, covers });
    }
    Ok(Change::Erase { path, covers })
}
