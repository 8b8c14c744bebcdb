// What is below the upper layer at a path, and its copy in that layer.
ghost use Rattle.std.specs.Prelude.{◌≡◌, ◌∷◌, OnOk, OnErr, IfOk, IfErr, None};
ghost use Rattle.std.specs.Option.{option_map};
ghost use Rattle.snap_path.specs.Text.{Names};
ghost use Rattle.snap_layer.specs.Layers.{IsLayer};
ghost use Rattle.snap_layer.specs.Tree.{at};
ghost use Rattle.snap_merge.specs.Objects.{object, seen};
ghost use Rattle.snap_merge.specs.Walk.{walk_error};
ghost use Rattle.snap_copyup.specs.Copying.{below, copied_up, is_pure, is_pure_over, object_body};
ghost use Rattle.snap_copyup.specs.Places.{last_of, IsRefusal};

use super::parents::{Last, put};
use snap_layer::{Body, Bytes, Layer, Node, Shared};
use snap_merge::{FsError, Seen, Stack, hides, is_dir, show_are_layers};
use snap_path::Path;
use std::alloc::AllocError;

/// What the lower layers, the nearest first, show at the path, unless the layer over them hides it there
/// by what stands above the path (overlayfs.rst, "whiteouts and opaque directories"). What the layer has
/// at the path itself doesn't count.
///
/// Contents and targets are lent by the layer that has them. Takes no memory. Cost: that of a look through the
/// layers.
pub fn below<'a>(layer: &Layer, lowers: &'a [Shared], path: &Path) -> Option<Seen<'a>>
    ensures { option_map object result ≡ below layer.now lowers.now path.now }
{
    if hides(layer, path) {
        return None;
    }
    Stack::of(lowers).look(path)
}

/// Whether the layer alone has the directory at the path: a directory stands there in the layer, and it
/// is opaque or has no directory of the lower layers below it. Only such a directory can be renamed
/// (overlayfs.rst, "renaming directories").
///
/// Takes no memory. Cost: as `below`.
pub fn is_pure(layer: &Layer, lowers: &[Shared], path: &Path) -> bool
    ensures { result ≡ is_pure layer.now lowers.now path.now }
{
    is_pure_over(layer.at(path), below(layer, lowers, path))
}

/// Whether the node is a directory that is opaque, or that has no directory under it: what `is_pure` says,
/// where the layer has the node at a path, and the lower layers show what is under it.
///
/// Takes no memory. The cost is constant.
pub fn is_pure_over(node: Option<Node>, under: Option<Seen<'_>>) -> bool
    ensures { result ≡ is_pure_over node (option_map object under.entry) }
{
    match node {
        Some(Node::Dir { opaque, .. }) => opaque || !is_dir(under),
        Some(Node::File { .. }) => false,
        Some(Node::Symlink { .. }) => false,
        Some(Node::Whiteout) => false,
        None => false,
    }
}

/// Copies up what is seen at the path: the layer gets the directories above it, as by `ensure_dirs`, and,
/// where it has no node at the path, what is below there: a directory with its `Meta`, not opaque, or a file
/// or a symlink under the layer's next number, with a file's `Meta` and its own copy of the content. Other names of a lower file
/// stay names of the lower file: a hard link is broken (overlayfs.rst, "Non-standard behavior").
///
/// The condition is that of `ensure_dirs`. Where nothing is seen at the path, only the directories are
/// added. `LayerFull` where the layer would have more inodes than it may, or where a number is needed and
/// the file numbers are used up. `OutOfMemory` where memory for the content, a path or an entry is refused.
/// After either the layer is as it was. Cost: that of `ensure_dirs` and of `below`, and the file's content.
pub fn copy_up(layer: &mut Layer, lowers: &[Shared], path: &Path) -> Result<(), FsError>
    requires { walk_error (layer.old ∷ lowers.now) path.now ≡ None }
    ensures ok { OnOk result (layer.new ≡ copied_up layer.old lowers.now path.now) }
    ensures error { IfErr result (λ e. IsRefusal (copied_up layer.old lowers.now path.now) e) }
    ensures unchanged { OnErr result (layer.new ≡ layer.old) }
    // Nothing that is seen changes.
    ensures view { OnOk result ((q : Names) → seen (layer.new ∷ lowers.now) q ≡ seen (layer.old ∷ lowers.now) q) }
{
    show_are_layers(lowers);
    let last = copy_below(layer, lowers, path)?;
    put(layer, lowers, path, last)
}

/// What a copy-up puts at the path: what is below, where the layer has no node there, with a copy of its content.
fn copy_below(layer: &Layer, lowers: &[Shared], path: &Path) -> Result<Last, AllocError>
    ensures last { IfOk result (λ last. last ≡ last_of (at layer.now path.now) (below layer.now lowers.now path.now)) }
    ensures layer { IsLayer layer.now }
{
    if layer.at(path).is_some() {
        return Ok(Last::Nothing);
    }
    let alloc = layer.alloc();
    match below(layer, lowers, path) {
        None => Ok(Last::Nothing),
        Some(Seen::Dir { meta }) => Ok(Last::Dir {
            meta,
            opaque: false,
        }),
        Some(Seen::File { meta, content }) => Ok(Last::File {
            meta,
            content: content.clone()?,
        }),
        Some(Seen::Symlink { target }) => Ok(Last::Symlink {
            target: Bytes::copy_of(alloc, target)?,
        }),
    }
}

/// A copy of the file or symlink that is below at the path, or nothing where a directory or nothing is.
///
/// It fails only where memory is refused. Cost: that of `below`, and the file's content.
pub fn body_below(layer: &Layer, lowers: &[Shared], path: &Path) -> Result<Option<Body>, AllocError>
    ensures { IfOk result (λ body. body ≡ object_body (below layer.now lowers.now path.now)) }
{
    let alloc = layer.alloc();
    match below(layer, lowers, path) {
        None => Ok(None),
        Some(Seen::Dir { .. }) => Ok(None),
        Some(Seen::File { meta, content }) => Ok(Some(Body::File {
            meta,
            content: content.clone()?,
        })),
        Some(Seen::Symlink { target }) => Ok(Some(Body::Symlink {
            target: Bytes::copy_of(alloc, target)?,
        })),
    }
}
