// The saved form of a layer.
ghost use Rattle.std.specs.Prelude.{◌≡◌, ℕ, [], filter_map, if◌then◌else◌, IfOk, IsSome, Some, None};
ghost use Rattle.snap_layer.specs.Tree.{at, body};
ghost use Rattle.snap_layer.specs.Layers.{IsLayer};
ghost use Rattle.snap_layer.specs.declared.node.Body.{Body as BodyValue};
ghost use Rattle.snap_saved.specs.Saved.{saved, dir_meta, dir_opaque, file_names, files_of};
ghost use Rattle.snap_saved.specs.Walked.{saved_dir_at, whiteout_at, listed_names};

use super::dir::SavedDir;
use super::file::SavedFile;
use super::names::{NameList, names_by_number, take_names};
use super::saved::Saved;
use snap_layer::{Layer, Meta, Node};
use snap_path::{NoMemory, Path};
use std::alloc::{AllocError, Global};
use std::collections::BTreeMap;

/// The saved form of the layer: from it `restore` makes the same layer.
///
/// It fails only where memory is refused. Takes the memory of the parts, with a copy of each file's bytes, and that of
/// the paths once more. Cost: these, and for each name of a path the logarithm of a directory's entries.
pub fn save(alloc: Global, layer: &Layer) -> Result<Saved, NoMemory>
    ensures { IfOk result (λ s. s ≡ saved layer.now) }
{
    let paths = layer.paths()?;
    let (meta, opaque) = root_of(layer);
    let dirs = dirs_among(alloc, layer, &paths)?;
    let whiteouts = whiteouts_among(alloc, layer, &paths)?;
    let names = names_by_number(alloc, layer, &paths)?;
    let files = files_with(alloc, layer, names)?;
    Ok(Saved {
        meta,
        opaque,
        dirs,
        whiteouts,
        files,
        next: layer.next_number(),
        most: layer.most_inodes(),
    })
}

/// The mode and the mark of the root.
fn root_of(layer: &Layer) -> (Meta, bool)
    ensures meta { result.0 ≡ dir_meta (at layer.now []) }
    ensures opaque { result.1 ≡ dir_opaque (at layer.now []) }
{
    match layer.root_dir().node() {
        Node::Dir { meta, opaque } => (meta, opaque),
        _ => unreachable!(),
    }
}

/// The directory at the path, if there is one other than the root.
fn saved_dir_at(layer: &Layer, path: &Path) -> Result<Option<SavedDir>, AllocError>
    ensures { IfOk result (λ d. d ≡ saved_dir_at layer.now path.now) }
{
    match layer.at(path) {
        Some(Node::Dir { meta, opaque }) => {
            if path.names().is_empty() {
                return Ok(None);
            }
            let path = path.clone()?;
            Ok(Some(SavedDir { path, meta, opaque }))
        }
        _ => Ok(None),
    }
}

/// The directories among the paths but the root.
fn dirs_among(alloc: Global, layer: &Layer, paths: &[Path]) -> Result<Vec<SavedDir>, AllocError>
    ensures { IfOk result (λ dirs. dirs.items ≡ filter_map (saved_dir_at layer.now) paths.now) }
{
    let mut dirs = Vec::new(alloc);
    for path in paths {
        if let Some(dir) = saved_dir_at(layer, path)? {
            dirs.push(dir)?;
        }
    }
    Ok(dirs)
}

/// Whether a whiteout stands at the path.
fn is_whiteout_at(layer: &Layer, path: &Path) -> bool
    ensures { (if result then Some path.now else None) ≡ whiteout_at layer.now path.now }
{
    match layer.at(path) {
        Some(node) => node.is_whiteout(),
        None => false,
    }
}

/// The paths at which a whiteout stands.
fn whiteouts_among(alloc: Global, layer: &Layer, paths: &[Path]) -> Result<Vec<Path>, AllocError>
    ensures { IfOk result (λ whiteouts. whiteouts.items ≡ filter_map (whiteout_at layer.now) paths.now) }
{
    let mut whiteouts = Vec::new(alloc);
    for path in paths {
        if is_whiteout_at(layer, path) {
            whiteouts.push(path.clone()?)?;
        }
    }
    Ok(whiteouts)
}

/// The files and symlinks in order of their numbers, with these names.
fn files_with(
    alloc: Global,
    layer: &Layer,
    mut names: BTreeMap<u32, NameList>,
) -> Result<Vec<SavedFile>, AllocError>
    requires layer { IsLayer layer.now }
    requires names { (k : ℕ) → listed_names names.entries k ≡ file_names k layer.now.entries }
    ensures { IfOk result (λ files. files.items ≡ files_of layer.now.entries layer.now.bodies) }
{
    let mut files = Vec::new(alloc);
    let mut after = 0;
    while let Some(number) = layer.next_body(after) {
        let own = take_names(alloc, &mut names, number);
        files.push(file_of(layer, number, own)?)?;
        after = number;
    }
    Ok(files)
}

/// The file or symlink with the number and the names.
fn file_of(layer: &Layer, number: u32, names: NameList) -> Result<SavedFile, AllocError>
    requires { IsSome (body layer.now number) }
    ensures { (b : BodyValue) → body layer.now number ≡ Some b → IfOk result (λ f. f ≡ record { number = number; body = b; names = names }) }
{
    let Some(body) = layer.body(number) else {
        unreachable!()
    };
    let body = body.clone()?;
    let NameList { paths } = names;
    Ok(SavedFile {
        number,
        body,
        names: paths,
    })
}
