// A layer, and what is read of it.
ghost use Rattle.std.specs.Prelude.{◌≡◌, ◌↔◌, ◌≤◌, ◌+◌, [], ◌∷◌, ◌++◌, ℕ, List, if◌then◌else◌, IfOk, IsSome, IsTrue, is_some, length, take, find, nat_lt, option_and_then};
ghost use Rattle.std.specs.Option.{option_copied};
ghost use Rattle.std.specs.List.{sum_by};
ghost use Rattle.std.specs.Map.{keys_of, values_of};
ghost use Rattle.snap_path.specs.Limits.{most_path_bytes};
ghost use Rattle.snap_path.specs.Text.{Names, IsPath, text_below};
ghost use Rattle.snap_layer.specs.Tree.{at, body, names_below, number_of, IsDirAt};
ghost use Rattle.snap_layer.specs.Counts.{dir_count, whiteout_count, name_count, inode_count, block_count, body_blocks, most_inodes};
ghost use Rattle.snap_layer.specs.Totals.{path_count, IsClear};
ghost use Rattle.snap_layer.specs.Layers.{IsLayer, IsMeta};
ghost use Rattle.snap_layer.specs.Edits.{root_only, root_within, without, without_tree, HasParent, HasRoom, HasRooms, HasPlace, IsFree, IsTakeable, IsMovable};

use super::dir::Dir;
use super::node::{Body, Meta, Node};
use super::table::Table;
use super::totals::Totals;
use snap_path::limits::DEFAULT_LAYER_INODES;
use snap_path::{Name, Path};
use std::alloc::{AllocError, Global};
use std::fmt;
use std::marker::Model;

/// A layer of a file system in memory: a table of inodes, what they take, and the number of the paths.
///
/// Contracts see it as a `Tree`: the list of its entries in order of paths, the list of its bodies in
/// order of numbers, the next number, and the most inodes that it may have, which no edit changes. An edit is one
/// change of these lists; after an error the layer is as it was. It keeps the allocator that it was made with.
#[derive(Drop)]
pub struct Layer {
    pub(crate) table: Table,
    pub(crate) totals: Totals,
}

impl Model for Layer {
    ghost use Rattle.snap_layer.specs.Tree.{Tree};
    ghost use Rattle.snap_layer.specs.Totals.{IsCounted};

    ghost Value = { Tree };

    ghost view = { λ l. l.table };

    ghost invariant = { λ l. IsCounted l.totals l.table };
}

/// Shows what the layer takes.
impl fmt::Debug for Layer {
    fn fmt<W: fmt::Write>(&self, f: &mut fmt::Formatter<W>) -> fmt::Result {
        f.debug_struct("Layer")
            .field("inodes", &self.totals.inodes)
            .field("blocks", &self.totals.blocks)
            .finish()
    }
}

impl Layer {
    /// The layer of an empty root directory, which may have 65,536 inodes, and whose first file gets number 1.
    ///
    /// The condition is a mode of at most octal 7777. It fails only where memory is refused. The cost is
    /// constant.
    pub fn empty(alloc: Global, meta: Meta) -> Result<Layer, AllocError>
        requires { IsMeta meta }
        ensures { IfOk result (λ l. l ≡ root_only meta 1) }
    {
        Layer::empty_from(alloc, meta, 1)
    }

    /// The same, of a layer that may have at most `most` inodes, the root's one among them.
    ///
    /// The conditions are a mode of at most octal 7777, and 1 to 16,777,216 inodes. It fails only where memory is
    /// refused, and takes the same for each number of inodes. The cost is constant.
    pub fn within(alloc: Global, meta: Meta, most: usize) -> Result<Layer, AllocError>
        requires meta { IsMeta meta }
        requires most { (1 ≤ most) × (most ≤ most_inodes) }
        ensures { IfOk result (λ l. l ≡ root_within most meta 1) }
    {
        Layer::root_alone(alloc, meta, 1, most)
    }

    /// As `empty`, with the number of the first file.
    ///
    /// The conditions are a mode of at most octal 7777, and a number from 1. File numbers are given in
    /// rising order, and none is ever given again; 4,294,967,294 is the last one.
    pub fn empty_from(alloc: Global, meta: Meta, first: u32) -> Result<Layer, AllocError>
        requires meta { IsMeta meta }
        requires first { 1 ≤ first }
        ensures { IfOk result (λ l. l ≡ root_only meta first) }
    {
        Layer::root_alone(alloc, meta, first, DEFAULT_LAYER_INODES)
    }

    /// The layer of an empty root directory, with at most `most` inodes, whose first file gets the number.
    fn root_alone(alloc: Global, meta: Meta, first: u32, most: usize) -> Result<Layer, AllocError>
        requires meta { IsMeta meta }
        requires first { 1 ≤ first }
        requires most { (1 ≤ most) × (most ≤ most_inodes) }
        ensures { IfOk result (λ l. l ≡ root_within most meta first) }
    {
        Ok(Layer {
            table: Table::new(alloc, meta, first, most)?,
            totals: Totals {
                inodes: 1,
                blocks: 1,
                paths: 1,
            },
        })
    }

    /// A copy of the layer, which shares nothing with it.
    ///
    /// It fails only where memory is refused. Cost: its inodes and paths, with all bytes of its
    /// files.
    pub fn copy(&self) -> Result<Layer, AllocError>
        ensures same { IfOk result (λ l. l ≡ self.now) }
        ensures layer { IfOk result IsLayer }
    {
        Ok(Layer {
            table: self.table.copy()?,
            totals: self.totals,
        })
    }

    /// The root directory, from which a walk goes on name by name.
    ///
    /// Takes no memory. The cost is constant.
    pub fn root_dir(&self) -> Dir<'_>
        ensures dir { result ≡ record { layer = self.now; path = [] } }
        ensures layer { IsLayer self.now }
    {
        Dir::root(&self.table, &self.table.slots, self.table.root)
    }

    /// What stands at the path in this layer alone, or nothing.
    ///
    /// Takes no memory. Cost: for each name of the path the logarithm of a directory's entries.
    pub fn at(&self, path: &Path) -> Option<Node>
        ensures node { result ≡ at self.now path.now }
        ensures path { IsPath path.now }
        ensures layer { IsLayer self.now }
    {
        self.table.node_at(path.names())
    }

    /// What stands at the path of the first `names` names of a path.
    ///
    /// The condition is that the path has as many. Takes no memory. Cost: as `at`, for these names.
    pub fn at_front(&self, path: &Path, names: usize) -> Option<Node>
        requires { names ≤ length path.now }
        ensures { result ≡ at self.now (take names path.now) }
    {
        self.table.node_at(&path.names()[..names])
    }

    /// The names in a directory, in byte order, whiteouts among them. There are none where no directory
    /// stands.
    ///
    /// It fails only where memory is refused. Cost: as `at`, and the directory's entries.
    pub fn children(&self, path: &Path) -> Result<Vec<Name>, AllocError>
        ensures { IfOk result (λ names. names.items ≡ names_below path.now self.now.entries) }
    {
        self.table.children(path)
    }

    /// The paths at which something stands, in order: the root first, and each directory before what is in it.
    ///
    /// It fails only where memory is refused. Cost: the texts of the paths, and their number times the logarithm of a
    /// directory's entries.
    pub fn paths(&self) -> Result<Vec<Path>, AllocError>
        ensures paths { IfOk result (λ paths. paths.items ≡ keys_of self.now.entries) }
        ensures layer { IsLayer self.now }
    {
        let root = Path::root(self.alloc());
        self.table.paths_inside(&root)
    }

    /// The file or symlink with the number, or nothing.
    ///
    /// Takes no memory. Cost: the logarithm of the number of files.
    pub fn body(&self, number: u32) -> Option<&Body>
        ensures body { option_copied result ≡ body self.now number }
        ensures layer { IsLayer self.now }
    {
        self.table.body(number)
    }

    /// How many names the file number has: its link count (stat(2), `st_nlink`). A name is its file's last
    /// exactly where this is 1.
    ///
    /// Takes no memory. Cost: the logarithm of the number of files.
    pub fn link_count(&self, number: u32) -> usize
        ensures { result ≡ name_count number self.now.entries }
    {
        self.table.link_count(number)
    }

    /// The inodes that the layer takes: one for each directory, the root included, one for each whiteout,
    /// and one for each file or symlink however many names it has. At most `most_inodes`.
    ///
    /// Takes no memory. The cost is constant.
    pub fn inodes(&self) -> usize
        ensures count { result ≡ inode_count self.now }
        ensures layer { IsLayer self.now }
    {
        self.totals.inodes
    }

    /// The most inodes that the layer may have: an edit that would make more answers `LayerFull`.
    ///
    /// Takes no memory. The cost is constant.
    pub fn most_inodes(&self) -> usize
        ensures most { result ≡ self.now.most }
        ensures bounds { (1 ≤ result) × (result ≤ most_inodes) }
        ensures layer { IsLayer self.now }
    {
        self.table.most
    }

    /// The inodes that are left where what stands at the path and the whiteouts in it are taken. The inode of a file or
    /// a symlink at the path goes where it has no name elsewhere (unlink(2)).
    ///
    /// The condition is that nothing but whiteouts stands below the path, which `has_place` and `is_takeable` test. A
    /// walk of more than 16 directories, each in the other, takes memory, and does without it where it is refused.
    /// Cost: as `at`, and, where a directory stands there, the number of paths below it times the logarithm of a
    /// directory's entries.
    pub fn inodes_without(&self, path: &Path) -> usize
        requires { (n : List ℕ) → IsFree (at self.now (path.now ++ n ∷ [])) }
        ensures count { result ≡ inode_count (without self.now path.now) }
        ensures few { result ≤ self.now.most }
        ensures most { self.now.most ≤ most_inodes }
        ensures path { IsPath path.now }
    {
        self.left(path).inodes
    }

    /// What the layer takes where what stands at the path and the whiteouts in it are taken.
    pub(crate) fn left(&self, path: &Path) -> Totals
        requires { IsClear self.now path.now }
        ensures inodes { result.inodes ≡ inode_count (without self.now path.now) }
        ensures blocks { result.blocks ≡ block_count (without self.now path.now) }
        ensures paths { result.paths ≡ path_count (without self.now path.now) }
        ensures few { result.inodes ≤ self.now.most }
        ensures path { IsPath path.now }
        ensures layer { IsLayer self.now }
    {
        self.left_front(path, path.names().len())
    }

    /// The same at the path of the first `front` names of a path.
    pub(crate) fn left_front(&self, path: &Path, front: usize) -> Totals
        requires within { front ≤ length path.now }
        requires clear { IsClear self.now (take front path.now) }
        ensures inodes { result.inodes ≡ inode_count (without self.now (take front path.now)) }
        ensures blocks { result.blocks ≡ block_count (without self.now (take front path.now)) }
        ensures paths { result.paths ≡ path_count (without self.now (take front path.now)) }
        ensures few { result.inodes ≤ self.now.most }
        ensures layer { IsLayer self.now }
    {
        let node = self.at_front(path, front);
        let (dirs, whiteouts) = self.table.tally_inside(&path.names()[..front], node);
        let (files, freed) = self.last_body(path, front, node);
        let names = names_in(node);
        Totals {
            inodes: self.totals.inodes - dirs - whiteouts - files,
            blocks: self.totals.blocks - dirs as u64 - freed,
            paths: self.totals.paths - dirs - whiteouts - names,
        }
    }

    /// The inodes and the blocks that are left where the directory at the path and all below it is taken. A file or
    /// symlink goes where it has no name elsewhere (unlink(2)).
    ///
    /// The condition is that a directory stands there. Takes memory as `inodes_without`, and for a count of each file
    /// with several names below it; it does without where that is refused. Cost: as `at`, and the number of paths below
    /// it times the logarithm of a directory's entries and of these files; where memory is refused, once more for each
    /// name there of a file that has several.
    pub fn left_without_tree(&self, path: &Path) -> (usize, u64)
        requires { IsDirAt (at self.now path.now) }
        ensures inodes { result.0 ≡ inode_count (without_tree self.now path.now) }
        ensures blocks { result.1 ≡ block_count (without_tree self.now path.now) }
        ensures fewer { result.0 + 1 ≤ inode_count self.now }
        ensures path { IsPath path.now }
    {
        let node = self.at(path);
        let (dirs, whiteouts) = self.table.tally_inside(path.names(), node);
        let bound = self.totals.paths;
        let (files, freed) = self.table.ended_below(path.names(), bound);
        (
            self.totals.inodes - dirs - whiteouts - files,
            self.totals.blocks - dirs as u64 - freed,
        )
    }

    /// The inodes and blocks of the file or symlink whose last name is at the path of the first `front` names, where
    /// the node stands: none where there is none.
    fn last_body(&self, path: &Path, front: usize, node: Option<Node>) -> (usize, u64)
        requires node { node ≡ at self.now (take front path.now) }
        requires layer { IsLayer self.now }
        ensures inodes { length (without self.now (take front path.now)).bodies + result.0 ≡ length self.now.bodies }
        ensures blocks { sum_by body_blocks (values_of (without self.now (take front path.now)).bodies) + result.1 ≡ sum_by body_blocks (values_of self.now.bodies) }
    {
        let Some(number) = number_in(node) else {
            return (0, 0);
        };
        if self.link_count(number) != 1 {
            return (0, 0);
        }
        match self.body(number) {
            Some(body) => (1, body.blocks()),
            None => (0, 0),
        }
    }

    /// The blocks of 4096 bytes that the layer takes: one for each directory, those of each file however
    /// many names it has, and none for symlinks and whiteouts.
    ///
    /// Takes no memory. The cost is constant.
    pub fn blocks(&self) -> u64
        ensures count { result ≡ block_count self.now }
        ensures layer { IsLayer self.now }
    {
        self.totals.blocks
    }

    /// The number that the next file or symlink gets; at 4,294,967,295 the numbers are used up.
    ///
    /// The cost is constant.
    pub fn next_number(&self) -> u32
        ensures next { result ≡ self.now.next }
        ensures layer { IsLayer self.now }
    {
        self.table.next
    }

    /// The allocator that the layer keeps. The cost is constant.
    pub fn alloc(&self) -> Global
        ensures layer { IsLayer self.now }
    {
        self.table.alloc
    }

    /// How many directories and how many whiteouts there are, counted from scratch.
    ///
    /// Takes memory as `inodes_without`. Cost: the number of paths, times the logarithm of a directory's entries.
    pub fn tally(&self) -> (usize, usize)
        ensures counts { result ≡ (dir_count self.now, whiteout_count self.now) }
        ensures layer { IsLayer self.now }
    {
        self.table.tally()
    }

    /// The least number above `after` that a file or symlink has, or nothing. From 0 on it goes over all.
    ///
    /// Takes no memory. Cost: the logarithm of the number of files.
    pub fn next_body(&self, after: u32) -> Option<u32>
        ensures { result ≡ find (λ k. nat_lt after k) (keys_of self.now.bodies) }
    {
        self.table.next_body(after)
    }

    /// Whether the path isn't the root, and its parent is a directory of this layer.
    ///
    /// Takes no memory. Cost: as `at`.
    pub fn has_parent(&self, path: &Path) -> bool
        ensures parent { IsTrue result ↔ HasParent self.now path.now }
        ensures path { IsPath path.now }
    {
        let names = path.names().len();
        if names == 0 {
            return false;
        }
        match self.at_front(path, names - 1) {
            Some(node) => node.is_dir(),
            None => false,
        }
    }

    /// Whether a directory may be added at the path: nothing or a whiteout stands there, in a directory.
    ///
    /// Takes no memory. Cost: as `at`.
    pub fn has_room(&self, path: &Path) -> bool
        ensures { IsTrue result ↔ HasRoom self.now path.now }
    {
        if !self.has_parent(path) {
            return false;
        }
        match self.at(path) {
            Some(node) => node.is_whiteout(),
            None => true,
        }
    }

    /// Whether a new file may be added at `path` with one more name at `link`: nothing stands at `path`,
    /// nothing or a whiteout at `link`, both lie in a directory, and they differ.
    ///
    /// Takes no memory. Cost: as `at` for both paths.
    pub fn has_rooms(&self, path: &Path, link: &Path) -> bool
        ensures { IsTrue result ↔ HasRooms self.now path.now link.now }
    {
        if self.at(path).is_some() || !self.has_parent(path) {
            return false;
        }
        if path == link {
            return false;
        }
        self.has_room(link)
    }

    /// Whether what stands at the path may be replaced: nothing, a name, a whiteout, or a directory in
    /// which nothing but whiteouts stands; and it lies in a directory.
    ///
    /// Takes no memory. Cost: as `at`, and the directory's entries where one stands there, up to the first
    /// that is no whiteout.
    pub fn has_place(&self, path: &Path) -> bool
        ensures place { IsTrue result ↔ HasPlace self.now path.now }
        ensures path { IsPath path.now }
    {
        if !self.has_parent(path) {
            return false;
        }
        self.table.has_clear(path)
    }

    /// Whether what stands at the path may be taken: a name, a whiteout, or a directory other than the
    /// root in which nothing but whiteouts stands.
    ///
    /// Takes no memory. Cost: as `has_place`.
    pub fn is_takeable(&self, path: &Path) -> bool
        ensures { IsTrue result ↔ IsTakeable self.now path.now }
    {
        if path.names().is_empty() || self.at(path).is_none() {
            return false;
        }
        self.table.has_clear(path)
    }

    /// Whether what stands at `from` may move to `to`: something stands there, what stands at `to` may be
    /// replaced, neither path begins with the other, and each moved path has at most 4095 bytes.
    ///
    /// Takes memory and time as `has_place` and `has_short_paths`.
    pub fn can_move(&self, from: &Path, to: &Path) -> bool
        ensures { IsTrue result ↔ IsMovable self.now from.now to.now }
    {
        if self.at(from).is_none() || !self.has_place(to) {
            return false;
        }
        if to.begins(from) || from.begins(to) {
            return false;
        }
        self.has_short_paths(from, to)
    }

    /// Whether what stands at `from` and below it would have paths of at most 4095 bytes at `to`.
    ///
    /// The conditions are that neither path is the root. Takes memory as `inodes_without`. The cost is constant where
    /// the text of `to` is no longer than that of `from`. Else it is the number of paths there, times the logarithm of
    /// a directory's entries.
    pub fn has_short_paths(&self, from: &Path, to: &Path) -> bool
        requires from { from.now ≡ [] → ⊥ }
        requires to { to.now ≡ [] → ⊥ }
        ensures { IsTrue result ↔ ((r : Names) → IsSome (at self.now (from.now ++ r)) → length (text_below (to.now ++ r)) ≤ most_path_bytes) }
    {
        self.table.has_short_paths(from, to)
    }
}

/// The file number that the node names, if it is a name.
fn number_in(node: Option<Node>) -> Option<u32>
    ensures { result ≡ option_and_then number_of node }
{
    match node {
        Some(node) => node.number(),
        None => None,
    }
}

/// One where the node is a name of a file or symlink.
fn names_in(node: Option<Node>) -> usize
    ensures { result ≡ (if is_some (option_and_then number_of node) then 1 else 0) }
{
    match number_in(node) {
        Some(_) => 1,
        None => 0,
    }
}

/// Layers are equal where their entries, their bodies, their next numbers and their most inodes are. Takes no
/// memory. Cost: the number of paths, times the logarithm of a directory's entries, and the bytes of the files.
impl PartialEq for Layer {
    ghost use Rattle.std.specs.Prelude.{◌≡◌, ◌↔◌, IsTrue};
    ghost use Rattle.std.specs.Cmp.{partial_equiv_from_equiv};
    ghost use Rattle.snap_layer.specs.Equal.{tree_eq};
    ghost use Rattle.snap_layer.specs.Equal.{tree_eq_equiv};

    ghost eq = { tree_eq };

    ghost laws = { partial_equiv_from_equiv tree_eq_equiv };

    fn eq(&self, other: &Layer) -> bool
        ensures value { result ≡ tree_eq self.now other.now }
        ensures equal { IsTrue result ↔ (self.now ≡ other.now) }
    {
        self.table.is_same(&other.table)
    }
}

impl Eq for Layer {
    ghost use Rattle.snap_layer.specs.Equal.{tree_eq_equiv};

    ghost laws = { tree_eq_equiv };
}
