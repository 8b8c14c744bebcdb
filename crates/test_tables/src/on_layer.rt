// The edits of the layer, each where its condition holds.
ghost use Rattle.std.specs.Prelude.{◌≡◌, ◌↔◌, ◌≤◌, ◌==◌, IsTrue, length};
ghost use Rattle.std.specs.List.{list_any};
ghost use Rattle.snap_layer.specs.Layers.{is_target};

use super::edit::{Answer, Edit, Kind};
use super::plain::Standing;
use snap_layer::{Body, Bytes, Content, Layer, LayerError, Meta, Node};
use snap_path::Path;
use snap_path::limits::{MAX_FILE_BYTES, MAX_MODE, MAX_TARGET_BYTES};

/// Makes the edit where its condition holds.
pub(crate) fn edit_layer(layer: &mut Layer, edit: &Edit) -> Result<Answer, LayerError> {
    let Edit { path, to, mode, .. } = *edit;
    match edit.kind {
        Kind::AddDir => {
            if mode > MAX_MODE || !layer.has_room(path) {
                return Ok(Answer::Refused);
            }
            layer.add_dir(path, Meta { mode }, edit.mark)?;
        }
        Kind::AddWhiteout => {
            if !layer.has_place(path) {
                return Ok(Answer::Refused);
            }
            layer.add_whiteout(path)?;
        }
        Kind::TakeName => {
            if !layer.is_takeable(path) {
                return Ok(Answer::Refused);
            }
            layer.take_name(path);
        }
        Kind::MoveTree => {
            if !layer.can_move(path, to) {
                return Ok(Answer::Refused);
            }
            layer.move_tree(path, to, edit.mark)?;
        }
        Kind::AddName => return add_name(layer, path, edit.number),
        Kind::SetOpaque | Kind::SetMode => return Ok(set(layer, edit)),
        _ => return edit_body(layer, edit),
    }
    Ok(Answer::Made)
}

fn add_name(layer: &mut Layer, path: &Path, number: u32) -> Result<Answer, LayerError> {
    let named = match layer.at(path) {
        Some(node) => node.number(),
        None => None,
    };
    if layer.body(number).is_none() || named == Some(number) || !layer.has_place(path) {
        return Ok(Answer::Refused);
    }
    layer.add_name(path, number)?;
    Ok(Answer::Made)
}

/// The edits of a directory's mark, and of the mode of a directory or a file.
fn set(layer: &mut Layer, edit: &Edit) -> Answer {
    let (path, mode) = (edit.path, edit.mode);
    match (edit.kind, layer.at(path)) {
        (Kind::SetOpaque, Some(Node::Dir { .. })) => layer.set_opaque(path, edit.mark),
        (Kind::SetMode, Some(Node::Dir { .. })) if mode <= MAX_MODE => layer.set_mode(path, mode),
        (Kind::SetMode, Some(Node::File { .. })) if mode <= MAX_MODE => layer.set_mode(path, mode),
        _ => return Answer::Refused,
    }
    Answer::Made
}

/// The edits that take bytes.
fn edit_body(layer: &mut Layer, edit: &Edit) -> Result<Answer, LayerError> {
    let (path, to, mode) = (edit.path, edit.to, edit.mode);
    let bytes = Bytes::copy_of(layer.alloc(), edit.bytes)?;
    if matches!(edit.kind, Kind::AddSymlink) {
        if !is_target(edit.bytes) || !layer.has_place(path) {
            return Ok(Answer::Refused);
        }
        return Ok(Answer::Numbered(layer.add_symlink(path, bytes)?));
    }
    if mode > MAX_MODE || !is_short(edit.bytes) {
        return Ok(Answer::Refused);
    }
    let meta = Meta { mode };
    match edit.kind {
        Kind::AddFile if layer.has_place(path) => {
            Ok(Answer::Numbered(layer.add_file(path, meta, Content::Bytes(bytes))?))
        }
        Kind::AddLinked if layer.has_rooms(path, to) => {
            let content = Content::Bytes(bytes);
            layer.add_linked(path, to, Body::File { meta, content })?;
            Ok(Answer::Made)
        }
        Kind::SetBytes if matches!(layer.body(edit.number), Some(Body::File { .. })) => {
            layer.set_content(edit.number, Content::Bytes(bytes));
            Ok(Answer::Made)
        }
        _ => Ok(Answer::Refused),
    }
}

/// Whether a file may have the bytes.
pub(crate) fn is_short(bytes: &[u8]) -> bool
    ensures { IsTrue result ↔ (length bytes.now ≤ 1048576) }
{
    bytes.len() as u64 <= MAX_FILE_BYTES
}

/// Whether a symlink may have the target.
pub(crate) fn is_target(target: &[u8]) -> bool
    ensures { result ≡ is_target target.now }
{
    !target.is_empty() && target.len() <= MAX_TARGET_BYTES && !target.contains(&0)
}

/// What the layer answers of a path.
pub(crate) fn standing(layer: &Layer, path: &Path) -> Standing {
    let has_place = layer.has_place(path);
    let inodes_without = if has_place {
        Some(layer.inodes_without(path))
    } else {
        None
    };
    Standing {
        at: layer.at(path),
        has_parent: layer.has_parent(path),
        has_room: layer.has_room(path),
        has_place,
        is_takeable: layer.is_takeable(path),
        inodes_without,
    }
}

/// What it answers of two paths: as `Plain::between`.
pub(crate) fn between(layer: &Layer, from: &Path, to: &Path) -> (bool, bool, bool) {
    let has_root = from.names().is_empty() || to.names().is_empty();
    (
        layer.has_rooms(from, to),
        layer.can_move(from, to),
        has_root || layer.has_short_paths(from, to),
    )
}
