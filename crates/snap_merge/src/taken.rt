// What is taken by what is seen at and below a path.
ghost use Rattle.std.specs.Prelude.{◌≡◌, ◌⊎◌, ◌+◌, ◌++◌, ◌≤◌, [], Option, Ok, Err, IfOk, IfErr, OnOk, unwrap_or};
ghost use Rattle.std.specs.List.{flat_map, sum_by};
ghost use Rattle.snap_path.specs.Memory.{no_memory};
ghost use Rattle.snap_merge.specs.declared.error.FsError.TheVariants as errors;
ghost use Rattle.snap_merge.specs.declared.taken.Part.{Part as PartValue};
ghost use Rattle.snap_merge.specs.Row.{part_in, part_over_dir, parts_in, row_at};
ghost use Rattle.snap_merge.specs.Taken.{capped, dirs, file_at, files, part, part_of, parts_below, disk_usage, usage_of_parts, with_inside};

use crate::error::FsError;
use crate::look::hides;
use crate::row::{names_in, put_row};
use crate::stack::Stack;
use smallvec::SmallVec;
use snap_layer::{Dir, Node, Shared};
use snap_path::{Name, Path};
use snap_usage::Usage;
use std::alloc::{AllocError, Global};
use std::collections::BTreeSet;

/// The most names of a path.
const MOST_NAMES: u64 = 2047;

/// A file or a symlink that is seen, by the place of its layer from the top and its number there.
#[derive(Clone, Copy, PartialEq, Eq, PartialOrd, Ord)]
pub(crate) struct FileAt {
    pub(crate) place: u64,
    pub(crate) number: u32,
    /// What it takes.
    pub(crate) blocks: u64,
}

/// What is seen at a path.
#[derive(Clone, Copy)]
pub(crate) enum Part {
    Dir,
    File(FileAt),
}

/// The file or symlink that has the number in the directory's layer, which has a place.
fn file_at(place: u64, dir: &Dir<'_>, number: u32) -> Part
    ensures { result ≡ file_at place dir.now.layer number }
{
    let blocks = match dir.body(number) {
        Some(body) => body.blocks(),
        None => 0,
    };
    Part::File(FileAt {
        place,
        number,
        blocks,
    })
}

/// What a node of the directory's layer, which has a place, shows.
fn part_of(place: u64, dir: &Dir<'_>, node: Node) -> Option<Part>
    ensures { result ≡ part_of place dir.now.layer node }
{
    match node {
        Node::Dir { .. } => Some(Part::Dir),
        Node::File { number } => Some(file_at(place, dir, number)),
        Node::Symlink { number } => Some(file_at(place, dir, number)),
        Node::Whiteout => None,
    }
}

/// What the layers show at the path, from the place of the first one on.
fn part_below(place: u64, lowers: &[Shared], path: &Path) -> Option<Part>
    requires { place ≤ 1 }
    ensures { result ≡ part place lowers.now path.now }
{
    let mut place = place;
    for shared in lowers {
        let layer = shared.layer();
        match layer.at(path) {
            Some(node) => return part_of(place, &layer.root_dir(), node),
            None if hides(layer, path) => return None,
            None => place += 1,
        }
    }
    None
}

/// How many of the parts are directories.
#[tactic(auto, using(crate::proofs::Parts::capped_end))]
fn dirs(parts: &[Part]) -> u64
    ensures { result ≡ capped (dirs parts.now) }
{
    let mut sum: u64 = 0;
    for part in parts {
        match part {
            Part::Dir => sum = sum.saturating_add(1),
            Part::File(_) => {}
        }
    }
    sum
}

/// The files and symlinks among the parts, each once.
fn files(alloc: Global, parts: &[Part]) -> Result<BTreeSet<FileAt>, AllocError>
    ensures { IfOk result (λ found. found.keys ≡ files parts.now []) }
{
    let mut found = BTreeSet::new(alloc);
    for part in parts {
        match part {
            Part::Dir => {}
            Part::File(file) => {
                found.insert(*file)?;
            }
        }
    }
    Ok(found)
}

/// The blocks, and those of the files.
#[tactic(auto, using(crate::proofs::Parts::capped_end))]
fn blocks_and(blocks: u64, files: &BTreeSet<FileAt>) -> u64
    ensures { result ≡ capped (blocks + sum_by (λ f. f.blocks) files.now.keys) }
{
    let mut sum = blocks;
    for file in files.iter() {
        sum = sum.saturating_add(file.blocks);
    }
    sum
}

/// What the parts take.
fn taken_by(alloc: Global, parts: &[Part]) -> Result<Usage, AllocError>
    ensures { IfOk result (λ usage. usage ≡ usage_of_parts parts.now) }
{
    let files = files(alloc, parts)?;
    let dirs = dirs(parts);
    Ok(Usage {
        blocks: blocks_and(dirs, &files),
        inodes: dirs.saturating_add(files.len() as u64),
    })
}

impl<'a> Stack<'a> {
    /// What is seen at the path, and which layer has it.
    fn part(&self, path: &Path) -> Option<Part>
        ensures { result ≡ part 0 self.now path.now }
    {
        let Some(top) = self.top else {
            return part_below(0, self.lowers, path);
        };
        match top.at(path) {
            Some(node) => part_of(0, &top.root_dir(), node),
            None if hides(top, path) => None,
            None => part_below(1, self.lowers, path),
        }
    }

    /// What is taken by what is seen at the path and below it, counted as du(1) counts it: a block of 4096 bytes and
    /// an inode for each directory, and for each file or symlink an inode and the blocks of its bytes, however many of
    /// its names are seen there. A file is that of a layer: where a copy-up has made two of the names of one, both
    /// count (overlayfs.rst, "Non-standard behavior"). Whiteouts aren't seen. No symlink is followed.
    ///
    /// The errors of the walk come first; then `NotFound` where nothing is seen. `OutOfMemory` where memory for
    /// names, for the directories of more than 16 layers or for what is found is refused. Cost: a walk to the path in
    /// each layer; for each name that a layer has in a directory at or below it the logarithm of the directory's
    /// names; for each name that is seen the logarithm of a directory's entries, at most twice in each layer that has
    /// the directory, and the logarithm of the number of files.
    pub fn taken(&self, alloc: Global, path: &Path) -> Result<Usage, FsError>
        ensures ok { IfOk result (λ usage. disk_usage self.now path.now ≡ Ok usage) }
        ensures err { IfErr result (λ e. (e ≡ errors.OutOfMemory no_memory) ⊎ (disk_usage self.now path.now ≡ Err e)) }
        // Want of memory never stands for another error.
        ensures first { IfErr (disk_usage self.now path.now) (λ e. result ≡ Err e) }
    {
        if self.walk_to(path)?.is_none() {
            return Err(FsError::NotFound);
        }
        let mut parts = Vec::new(alloc);
        self.put_below(alloc, path, &mut parts)?;
        Ok(taken_by(alloc, &parts)?)
    }

    /// Puts what is seen at the path and below it last.
    fn put_below(&self, alloc: Global, path: &Path, parts: &mut Vec<Part>) -> Result<(), AllocError>
        ensures { OnOk result (parts.new.items ≡ parts.old.items ++ parts_below 2048 self.now path.now) }
    {
        self.show_are_layers();
        match self.part(path) {
            None => Ok(()),
            Some(Part::File(file)) => Ok(parts.push(Part::File(file))?),
            Some(Part::Dir) => {
                parts.push(Part::Dir)?;
                let row = self.row(alloc, path.names())?;
                put_inside(alloc, row.as_slice(), MOST_NAMES, parts)?;
                Ok(())
            }
        }
    }
}

/// What is seen at the name in the directory that has the row.
fn part_in(row: &[Option<Dir<'_>>], name: &Name) -> Option<Part>
    ensures { result ≡ part_in 0 row.now name.now }
{
    let mut place = 0;
    for dir in row {
        if let Some(part) = part_here(place, dir, name) {
            return part;
        }
        place += 1;
    }
    None
}

/// What the directory of the layer at a place shows at the name, or nothing where it has nothing there.
fn part_here(place: u64, dir: &Option<Dir<'_>>, name: &Name) -> Option<Option<Part>>
    ensures { (under : Option PartValue) → part_over_dir place dir.now name.now under ≡ unwrap_or result under }
{
    let Some(dir) = dir else {
        return None;
    };
    match dir.entry(name) {
        Some((node, _)) => Some(part_of(place, dir, node)),
        None => None,
    }
}

/// Puts what is seen in the directory that has the row last, and what is below it, at `most` names in a row at the
/// most.
#[cycle(put_inside)]
#[tactic(auto, unfolding(crate::specs::Row::parts_in))]
fn put_inside(
    alloc: Global,
    row: &[Option<Dir<'_>>],
    most: u64,
    parts: &mut Vec<Part>,
) -> Result<(), AllocError>
    ensures { OnOk result (parts.new.items ≡ parts.old.items ++ parts_in most row.now) }
{
    if most == 0 {
        return Ok(());
    }
    let names = names_in(alloc, row)?;
    put_entries(alloc, row, names, most - 1, parts)?;
    Ok(())
}

/// Puts what is seen at the directory's entries of these names and below them last.
#[cycle(put_inside)]
fn put_entries(
    alloc: Global,
    row: &[Option<Dir<'_>>],
    names: Vec<Name>,
    most: u64,
    parts: &mut Vec<Part>,
) -> Result<(), AllocError>
    ensures { OnOk result (parts.new.items ≡ parts.old.items ++ flat_map (λ n. with_inside (parts_in most (row_at row.now n)) (part_in 0 row.now n)) names.items) }
{
    for name in names {
        put_entry(alloc, row, &name, most, parts)?;
    }
    Ok(())
}

/// Puts what is seen at the directory's entry of this name and below it last.
#[cycle(put_inside)]
fn put_entry(
    alloc: Global,
    row: &[Option<Dir<'_>>],
    name: &Name,
    most: u64,
    parts: &mut Vec<Part>,
) -> Result<(), AllocError>
    ensures { OnOk result (parts.new.items ≡ parts.old.items ++ with_inside (parts_in most (row_at row.now name.now)) (part_in 0 row.now name.now)) }
{
    match part_in(row, name) {
        None => Ok(()),
        Some(Part::File(file)) => Ok(parts.push(Part::File(file))?),
        Some(Part::Dir) => {
            parts.push(Part::Dir)?;
            let mut below = SmallVec::new(alloc);
            put_row(&mut below, row, name)?;
            put_inside(alloc, below.as_slice(), most, parts)?;
            Ok(())
        }
    }
}
