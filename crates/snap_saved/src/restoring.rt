// A layer from its saved form.
ghost use Rattle.std.specs.Prelude.{◌≡◌, ◌≤◌, ◌+◌, ◌++◌, ◌∷◌, ◌⊎◌, [], IfErr, IfOk, IsSome, MatchOption, OnOk, Some, Ok, Err};
ghost use Rattle.std.specs.declared.cmp.Ordering.TheVariants.{Less};
ghost use Rattle.std.specs.List.{AllByRecursion};
ghost use Rattle.std.specs.List.Sorted.{IsStrictlySortedBy};
ghost use Rattle.snap_path.specs.Memory.{no_memory};
ghost use Rattle.snap_layer.specs.Tree.{Tree, at, body, leaf_node, path_cmp};
ghost use Rattle.snap_layer.specs.Edits.{with_entry};
ghost use Rattle.snap_layer.specs.Layers.{IsLayer};
ghost use Rattle.snap_layer.specs.declared.node.Body.{Body as BodyValue};
ghost use Rattle.snap_saved.specs.Saved.{saved, dir_meta, dirs_of, whiteouts_of, file_names, files_of};
ghost use Rattle.snap_saved.specs.Named.{AddsNames, IsFreePath};
ghost use Rattle.snap_saved.specs.Refusing.{Refutes, LacksNode, LacksNodeWithRoom, HasDirsAlone, HasSameRoot, HasSameDirs, HasNext, HasNames, HasLeastNext};
ghost use Rattle.snap_saved.specs.declared.error.RestoreError.TheVariants.{OutOfMemory};
ghost use Rattle.snap_saved.specs.Restored.{restored_layer, obstacle, put_dir, put_dirs, put_each, put_file, put_first, put_name, put_other_names, put_root, put_whiteout, put_whiteouts};

use super::dir::SavedDir;
use super::error::{Fault, Part, RestoreError, refused};
use super::file::SavedFile;
use super::limits::{is_body, is_meta};
use super::order::{unsorted, unsorted_dirs};
use super::saved::Saved;
use snap_layer::{Body, Layer, Meta, Node};
use snap_path::Path;
use snap_path::limits::MAX_LAYER_INODES;
use std::alloc::Global;

/// The layer that has this saved form.
///
/// `Malformed` names the first part found that no layer has there, and what is wrong with it: no layer has this saved
/// form. Within a list the order of the paths is tested before all else. `OutOfMemory` where memory is refused. Nothing
/// is left after an error. Takes the memory of the layer; the contents of files are taken from the parts. Cost: the
/// texts of the paths, each name of them times the logarithm of a directory's entries.
pub fn restore(alloc: Global, parts: Saved) -> Result<Layer, RestoreError>
    ensures ok { IfOk result (λ l. saved l ≡ parts) }
    // A layer that was saved is restored.
    ensures back { (t : Tree) → IsLayer t → saved t ≡ parts → IfOk result (λ l. l ≡ t) }
    ensures malformed { IfErr result (λ e. Refutes e (λ t. saved t ≡ parts)) }
    ensures layer { IfOk result (λ l. IsLayer l) }
    // Which layer it is, or which part is malformed and why.
    ensures made { IfOk result (λ l. restored_layer parts ≡ Ok l) }
    ensures refused { IfErr result (λ e. (restored_layer parts ≡ Err e) ⊎ (e ≡ OutOfMemory no_memory)) }
{
    let Saved {
        meta,
        opaque,
        dirs,
        whiteouts,
        files,
        next,
        most,
    } = parts;
    let mut layer = root_alone(alloc, meta, opaque, most)?;
    add_dirs(&mut layer, &dirs)?;
    add_whiteouts(&mut layer, &whiteouts)?;
    add_files(&mut layer, files)?;
    if next < layer.next_number() {
        return Err(RestoreError::Malformed(Part::Next, Fault::BadNumber));
    }
    layer.raise(next);
    Ok(layer)
}

/// The layer of the root alone.
fn root_alone(alloc: Global, meta: Meta, opaque: bool, most: usize) -> Result<Layer, RestoreError>
    ensures ok { IfOk result (λ l. saved l ≡ record { meta = meta; opaque = opaque; dirs = []; whiteouts = []; files = []; next = 1; most = most }) }
    ensures malformed { IfErr result (λ e. Refutes e (λ t. (dir_meta (at t []) ≡ meta) × (t.most ≡ most))) }
    ensures layer { IfOk result (λ l. IsLayer l) }
    ensures made { IfOk result (λ l. put_root meta opaque most ≡ Ok l) }
    ensures refused { IfErr result (λ e. (put_root meta opaque most ≡ Err e) ⊎ (e ≡ OutOfMemory no_memory)) }
{
    if !is_meta(meta) {
        return Err(RestoreError::Malformed(Part::Root, Fault::BadMode));
    }
    if most == 0 || most > MAX_LAYER_INODES {
        return Err(RestoreError::Malformed(Part::Most, Fault::BadMost));
    }
    let root = Path::root(alloc);
    let mut layer = Layer::within(alloc, meta, most)?;
    layer.set_opaque(&root, opaque);
    Ok(layer)
}

/// What keeps something from being put at the path.
fn obstacle(layer: &Layer, path: &Path) -> Option<Fault>
    ensures free { MatchOption result (IsFreePath layer.now path.now) (λ _. IsFreePath layer.now path.now → ⊥) }
    ensures first { result ≡ obstacle layer.now path.now }
{
    if layer.at(path).is_some() {
        return Some(Fault::Occupied);
    }
    if !layer.has_parent(path) {
        return Some(Fault::NoParent);
    }
    None
}

/// Adds the directories to a layer that has none but the root.
fn add_dirs(layer: &mut Layer, dirs: &[SavedDir]) -> Result<(), RestoreError>
    requires layer { IsLayer layer.old }
    requires none { dirs_of layer.old.entries ≡ [] }
    requires bare { HasDirsAlone layer.old }
    ensures ok { OnOk result (saved layer.new ≡ record (saved layer.old) { dirs = dirs.now }) }
    ensures malformed { IfErr result (λ e. Refutes e (λ t. HasSameRoot layer.old t × (dirs_of t.entries ≡ dirs.now))) }
    ensures layer { OnOk result (IsLayer layer.new) }
    ensures made { OnOk result (put_dirs layer.old dirs.now ≡ Ok layer.new) }
    ensures refused { IfErr result (λ e. (put_dirs layer.old dirs.now ≡ Err e) ⊎ (e ≡ OutOfMemory no_memory)) }
{
    if let Some(place) = unsorted_dirs(dirs) {
        return Err(RestoreError::Malformed(Part::Dir(place), Fault::NotInOrder));
    }
    for (place, dir) in dirs.iter().enumerate() {
        add_dir(layer, dir, Part::Dir(place))?;
    }
    Ok(())
}

/// Adds a directory, whose path comes after those of the others.
fn add_dir(layer: &mut Layer, dir: &SavedDir, part: Part) -> Result<(), RestoreError>
    requires layer { IsLayer layer.old }
    requires rises { AllByRecursion (λ d. path_cmp d.path dir.now.path ≡ Less) (dirs_of layer.old.entries) }
    ensures ok { OnOk result (saved layer.new ≡ record (saved layer.old) { dirs = dirs_of layer.old.entries ++ dir.now ∷ [] }) }
    ensures malformed { IfErr result (λ e. Refutes e (λ t. LacksNodeWithRoom layer.old t dir.now.path (Node.Dir dir.now.meta dir.now.opaque))) }
    ensures layer { OnOk result (IsLayer layer.new) }
    ensures made { OnOk result (put_dir part layer.old dir.now ≡ Ok layer.new) }
    ensures refused { IfErr result (λ e. (put_dir part layer.old dir.now ≡ Err e) ⊎ (e ≡ OutOfMemory no_memory)) }
{
    if !is_meta(dir.meta) {
        return Err(RestoreError::Malformed(part, Fault::BadMode));
    }
    if let Some(fault) = obstacle(layer, &dir.path) {
        return Err(RestoreError::Malformed(part, fault));
    }
    match layer.add_dir(&dir.path, dir.meta, dir.opaque) {
        Ok(()) => Ok(()),
        Err(error) => Err(refused(error, part)),
    }
}

/// Adds the whiteouts to a layer that has none.
fn add_whiteouts(layer: &mut Layer, whiteouts: &[Path]) -> Result<(), RestoreError>
    requires layer { IsLayer layer.old }
    requires bare { HasDirsAlone layer.old }
    ensures ok { OnOk result (saved layer.new ≡ record (saved layer.old) { whiteouts = whiteouts.now }) }
    ensures malformed { IfErr result (λ e. Refutes e (λ t. HasSameRoot layer.old t × (dirs_of layer.old.entries ≡ dirs_of t.entries) × (whiteouts_of t.entries ≡ whiteouts.now))) }
    ensures layer { OnOk result (IsLayer layer.new) }
    ensures made { OnOk result (put_whiteouts layer.old whiteouts.now ≡ Ok layer.new) }
    ensures refused { IfErr result (λ e. (put_whiteouts layer.old whiteouts.now ≡ Err e) ⊎ (e ≡ OutOfMemory no_memory)) }
{
    if let Some(place) = unsorted(whiteouts) {
        return Err(RestoreError::Malformed(Part::Whiteout(place), Fault::NotInOrder));
    }
    for (place, path) in whiteouts.iter().enumerate() {
        add_whiteout(layer, path, Part::Whiteout(place))?;
    }
    Ok(())
}

/// Adds a whiteout, whose path comes after those of the others.
fn add_whiteout(layer: &mut Layer, path: &Path, part: Part) -> Result<(), RestoreError>
    requires layer { IsLayer layer.old }
    requires rises { AllByRecursion (λ p. path_cmp p path.now ≡ Less) (whiteouts_of layer.old.entries) }
    ensures ok { OnOk result (saved layer.new ≡ record (saved layer.old) { whiteouts = whiteouts_of layer.old.entries ++ path.now ∷ [] }) }
    ensures malformed { IfErr result (λ e. Refutes e (λ t. LacksNodeWithRoom layer.old t path.now Node.Whiteout)) }
    ensures layer { OnOk result (IsLayer layer.new) }
    ensures made { OnOk result (put_whiteout part layer.old path.now ≡ Ok layer.new) }
    ensures refused { IfErr result (λ e. (put_whiteout part layer.old path.now ≡ Err e) ⊎ (e ≡ OutOfMemory no_memory)) }
{
    if let Some(fault) = obstacle(layer, path) {
        return Err(RestoreError::Malformed(part, fault));
    }
    match layer.add_whiteout(path) {
        Ok(()) => Ok(()),
        Err(error) => Err(refused(error, part)),
    }
}

/// Adds the files and symlinks to a layer that has none.
fn add_files(layer: &mut Layer, files: Vec<SavedFile>) -> Result<(), RestoreError>
    requires layer { IsLayer layer.old }
    requires none { files_of layer.old.entries layer.old.bodies ≡ [] }
    requires tight { HasLeastNext layer.old }
    ensures ok { OnOk result (saved layer.new ≡ record (saved layer.old) { files = files.items; next = layer.new.next }) }
    ensures tight { OnOk result (HasLeastNext layer.new) }
    ensures malformed { IfErr result (λ e. Refutes e (λ t. HasSameDirs layer.old t × (files_of t.entries t.bodies ≡ files.items))) }
    ensures layer { OnOk result (IsLayer layer.new) }
    ensures made { OnOk result (put_each put_file 0 layer.old files.items ≡ Ok layer.new) }
    ensures refused { IfErr result (λ e. (put_each put_file 0 layer.old files.items ≡ Err e) ⊎ (e ≡ OutOfMemory no_memory)) }
{
    let mut place = 0;
    for file in files {
        add_file(layer, file, place)?;
        place += 1;
    }
    Ok(())
}

/// Adds a file or symlink with its names.
fn add_file(layer: &mut Layer, file: SavedFile, place: usize) -> Result<(), RestoreError>
    requires layer { IsLayer layer.old }
    ensures ok { OnOk result (saved layer.new ≡ record (saved layer.old) { files = files_of layer.old.entries layer.old.bodies ++ file ∷ []; next = layer.new.next }) }
    ensures next { OnOk result (layer.new.next ≡ file.number + 1) }
    ensures malformed { IfErr result (λ e. Refutes e (λ t. HasNext layer.old t file)) }
    ensures layer { OnOk result (IsLayer layer.new) }
    ensures made { OnOk result (put_file place layer.old file ≡ Ok layer.new) }
    ensures refused { IfErr result (λ e. (put_file place layer.old file ≡ Err e) ⊎ (e ≡ OutOfMemory no_memory)) }
{
    let SavedFile {
        number,
        body,
        names,
    } = file;
    let Some((first, others)) = names.split_first() else {
        return Err(RestoreError::Malformed(Part::File(place), Fault::NoNames));
    };
    if let Some(name) = unsorted(&names) {
        let part = Part::Name { file: place, name };
        return Err(RestoreError::Malformed(part, Fault::NotInOrder));
    }
    add_first(layer, number, body, first, Part::File(place))?;
    add_names(layer, number, others, place)
}

/// Adds a file or symlink under the number, at its first name.
fn add_first(
    layer: &mut Layer,
    number: u32,
    content: Body,
    name: &Path,
    part: Part,
) -> Result<(), RestoreError>
    requires layer { IsLayer layer.old }
    ensures numbers { OnOk result (layer.old.next ≤ number) }
    ensures bodies { OnOk result (layer.new.bodies ≡ layer.old.bodies ++ (number, content) ∷ []) }
    ensures names { OnOk result (AddsNames number layer.old.entries layer.new.entries (name.now ∷ [])) }
    ensures most { OnOk result (layer.new.most ≡ layer.old.most) }
    ensures next { OnOk result (layer.new.next ≡ number + 1) }
    ensures malformed { IfErr result (λ e. Refutes e (λ t. (layer.old.next ≤ number) × (body t number ≡ Some content) × LacksNodeWithRoom layer.old t name.now (leaf_node number content))) }
    ensures layer { OnOk result (IsLayer layer.new) }
    ensures made { OnOk result (put_first part number content layer.old name.now ≡ Ok layer.new) }
    ensures refused { IfErr result (λ e. (put_first part number content layer.old name.now ≡ Err e) ⊎ (e ≡ OutOfMemory no_memory)) }
{
    if number < layer.next_number() {
        return Err(RestoreError::Malformed(part, Fault::BadNumber));
    }
    if !is_body(&content) {
        return Err(RestoreError::Malformed(part, Fault::BadBody));
    }
    if let Some(fault) = obstacle(layer, name) {
        return Err(RestoreError::Malformed(part, fault));
    }
    layer.raise(number);
    match layer.add_body(name, content) {
        Ok(_) => Ok(()),
        Err(error) => Err(refused(error, part)),
    }
}

/// Adds the names after the first one of the file or symlink that is the given one of its list.
fn add_names(
    layer: &mut Layer,
    number: u32,
    names: &[Path],
    file: usize,
) -> Result<(), RestoreError>
    requires layer { IsLayer layer.old }
    requires body { IsSome (body layer.old number) }
    requires rises { IsStrictlySortedBy path_cmp (file_names number layer.old.entries ++ names.now) }
    ensures names { OnOk result (AddsNames number layer.old.entries layer.new.entries names.now) }
    ensures malformed { IfErr result (λ e. Refutes e (λ t. HasNames layer.old t number names.now)) }
    ensures rest { OnOk result (layer.new ≡ record layer.old { entries = layer.new.entries }) }
    ensures layer { OnOk result (IsLayer layer.new) }
    ensures made { (b : BodyValue) → body layer.old number ≡ Some b → OnOk result (put_other_names file number b layer.old names.now ≡ Ok layer.new) }
    ensures refused { (b : BodyValue) → body layer.old number ≡ Some b → IfErr result (λ e. (put_other_names file number b layer.old names.now ≡ Err e) ⊎ (e ≡ OutOfMemory no_memory)) }
{
    for (place, path) in names.iter().enumerate() {
        let name = place + 1;
        add_name(layer, number, path, Part::Name { file, name })?;
    }
    Ok(())
}

/// Adds a name of the file or symlink with the number, which comes after its others.
fn add_name(layer: &mut Layer, number: u32, name: &Path, part: Part) -> Result<(), RestoreError>
    requires layer { IsLayer layer.old }
    requires body { IsSome (body layer.old number) }
    requires rises { AllByRecursion (λ p. path_cmp p name.now ≡ Less) (file_names number layer.old.entries) }
    ensures names { OnOk result (AddsNames number layer.old.entries layer.new.entries (name.now ∷ [])) }
    ensures put { (b : BodyValue) → body layer.old number ≡ Some b → OnOk result (layer.new ≡ with_entry layer.old name.now (leaf_node number b)) }
    ensures malformed { IfErr result (λ e. Refutes e (λ t. (b : BodyValue) × LacksNode layer.old t name.now (leaf_node number b))) }
    ensures rest { OnOk result (layer.new ≡ record layer.old { entries = layer.new.entries }) }
    ensures layer { OnOk result (IsLayer layer.new) }
    ensures made { (b : BodyValue) → body layer.old number ≡ Some b → OnOk result (put_name part number b layer.old name.now ≡ Ok layer.new) }
    ensures refused { (b : BodyValue) → body layer.old number ≡ Some b → IfErr result (λ e. (put_name part number b layer.old name.now ≡ Err e) ⊎ (e ≡ OutOfMemory no_memory)) }
{
    if let Some(fault) = obstacle(layer, name) {
        return Err(RestoreError::Malformed(part, fault));
    }
    layer.add_name(name, number)?;
    Ok(())
}
