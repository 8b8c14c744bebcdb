// What is read of a table entry by entry.
ghost use Rattle.std.specs.Prelude.{[], ◌≡◌, ◌∷◌, ◌++◌, ◌↔◌, ◌<◌, ◌≤◌, ◌+◌, ◌^◌, ℕ, List, IfOk, IsOk, IsSome, IsTrue, OnOk, cond, count_by, length, take};
ghost use Rattle.std.specs.BTreeMap.{is_at};
ghost use Rattle.std.specs.List.{list_all, sum_by};
ghost use Rattle.std.specs.List.Sorted.{IsStrictlySortedBy};
ghost use Rattle.std.specs.Map.{keys_of, values_of};
ghost use Rattle.std.specs.Ordering.{nat_cmp};
ghost use Rattle.snap_path.specs.Limits.{most_path_bytes};
ghost use Rattle.snap_path.specs.Text.{Names, text_of, text_below};
ghost use Rattle.snap_layer.specs.Tree.{Entries, at, is_dir, is_whiteout, names_below, IsDirAt};
ghost use Rattle.snap_layer.specs.Counts.{body_blocks, dir_count, name_count, whiteout_count};
ghost use Rattle.snap_layer.specs.Edits.{bodies_unnamed, inside, outside, IsFree};
ghost use Rattle.snap_layer.specs.Ended.{ended, met_of, AreMet};
ghost use Rattle.snap_layer.specs.Layers.{IsLayer};
ghost use Rattle.snap_layer.specs.Totals.{path_count};
ghost use Rattle.snap_layer.specs.Walk.{node_at, node_shown, walk, entry_at};
ghost use Rattle.snap_layer.specs.Rows.{name_cmp, items_in, own, targets_whiteout, is_text_within};

use super::super::inode::{Inode, Target};
use super::super::node::Node;
use super::super::rows::{FEW_FRAMES, MOST_FRAMES, Rows};
use super::super::walk::{stands, walk};
use super::Table;
use slab::Slab;
use snap_path::limits::MAX_PATH_BYTES;
use snap_path::{Name, Path, PathError};
use std::alloc::{AllocError, Global};
use std::collections::BTreeMap;

/// One for a directory, and one for a whiteout.
fn counts_of(node: Option<Node>) -> (usize, usize)
    ensures dirs { (p : Names) → result.0 ≡ count_by is_dir (values_of (own p node)) }
    ensures whiteouts { (p : Names) → result.1 ≡ count_by is_whiteout (values_of (own p node)) }
{
    match node {
        Some(node) => (usize::from(node.is_dir()), usize::from(node.is_whiteout())),
        None => (0, 0),
    }
}

/// Whether a directory stands there.
fn is_directory(node: Option<Node>) -> bool
    ensures { IsTrue result ↔ IsDirAt node }
{
    match node {
        Some(node) => node.is_dir(),
        None => false,
    }
}

/// The path of the first `names` names of a path, and the name.
fn path_beside(path: &Path, names: usize, name: &Name) -> Result<Path, AllocError>
    requires names { names ≤ length path.now }
    requires short { length (text_below (take names path.now ++ name.now ∷ [])) ≤ most_path_bytes }
    ensures { IfOk result (λ p. p ≡ take names path.now ++ name.now ∷ []) }
{
    match path.front(names)?.join(name) {
        Ok(path) => Ok(path),
        Err(PathError::OutOfMemory(no_memory)) => Err(no_memory.into()),
        Err(PathError::BadPath) => unreachable!(),
    }
}

/// The names of the entries, which are in order.
fn names_of(alloc: Global, entries: &BTreeMap<Name, Target>) -> Result<Vec<Name>, AllocError>
    ensures names { IfOk result (λ names. names.items ≡ keys_of entries.now.entries) }
    ensures order { IsStrictlySortedBy name_cmp (keys_of entries.now.entries) }
{
    let mut names = Vec::new(alloc);
    for name in entries.keys() {
        names.push(name.clone()?)?;
    }
    Ok(names)
}

/// The names of the items, which are in order.
#[tactic(auto, using(crate::proofs::Inside::no_names))]
pub(crate) fn names_in(
    alloc: Global,
    slots: &Slab<Inode>,
    target: Target,
) -> Result<Vec<Name>, AllocError>
    ensures names { IfOk result (λ names. names.items ≡ keys_of (items_in slots.now target)) }
    ensures order { IsStrictlySortedBy name_cmp (keys_of (items_in slots.now target)) }
{
    let Target::Inode(key) = target else {
        return Ok(Vec::new(alloc));
    };
    match slots.get(key) {
        Some(Inode::Dir { entries, .. }) => names_of(alloc, entries),
        Some(Inode::Leaf { .. }) => Ok(Vec::new(alloc)),
        None => Ok(Vec::new(alloc)),
    }
}

/// Whether each item is a whiteout. The items are in order.
#[tactic(auto, using(crate::proofs::Inside::no_names))]
fn are_whiteouts(slots: &Slab<Inode>, target: Target) -> bool
    ensures all { result ≡ list_all targets_whiteout (values_of (items_in slots.now target)) }
    ensures order { IsStrictlySortedBy name_cmp (keys_of (items_in slots.now target)) }
{
    let Target::Inode(key) = target else {
        return true;
    };
    match slots.get(key) {
        Some(Inode::Dir { entries, .. }) => entries
            .values()
            .all(|target| matches!(target, Target::Whiteout)),
        Some(Inode::Leaf { .. }) => true,
        None => true,
    }
}

/// How many of the walk's first `many` entries are names of the file number.
fn names_of_rows<const ROOM: usize>(
    number: u32,
    many: usize,
    rows: &mut Rows<'_, ROOM>,
) -> Result<usize, AllocError>
    ensures ok { IfOk result (λ n. n ≡ name_count number (take many rows.old.rest)) }
    ensures sure { 2048 ≤ ROOM → IsOk result }
{
    let (mut names, mut left) = (0, many);
    while let Some(row) = rows.try_next()? {
        if left == 0 {
            return Ok(names);
        }
        left -= 1;
        names += usize::from(row.node.has_number(number));
    }
    Ok(names)
}

/// Counts one more name of the file number, and gives how many have come.
fn meet(met: &mut BTreeMap<u32, usize>, number: u32) -> Result<usize, AllocError>
    requires { met_of met.old.entries number + 1 < 2 ^ 64 }
    ensures ok { IfOk result (λ n. n ≡ met_of met.old.entries number + 1) }
    ensures met { OnOk result ((k : ℕ) → met_of met.new.entries k ≡ cond (is_at (nat_cmp number) k) (met_of met.old.entries number + 1) (met_of met.old.entries k)) }
{
    if let Some(names) = met.get_mut(&number) {
        *names += 1;
        return Ok(*names);
    }
    met.insert(number, 1)?;
    Ok(1)
}

impl Table {
    /// The walk through what stands below the path. It has room for few inodes on the way, and takes memory for more.
    fn below<'a>(&'a self, front: &'a [Name]) -> Rows<'a, FEW_FRAMES>
        ensures front { result.front ≡ front.now }
        ensures path { result.path ≡ front.now }
        ensures rest { inside front.now self.now.entries ≡ own front.now (at self.now front.now) ++ result.rest }
        ensures layer { IsLayer self.now }
    {
        Rows::below(self.alloc, &self.slots, self.root, front)
    }

    /// The same with room for all of them.
    pub(super) fn all_below<'a>(&'a self, front: &'a [Name]) -> Rows<'a, MOST_FRAMES>
        ensures front { result.front ≡ front.now }
        ensures path { result.path ≡ front.now }
        ensures rest { inside front.now self.now.entries ≡ own front.now (at self.now front.now) ++ result.rest }
        ensures layer { IsLayer self.now }
    {
        Rows::below(self.alloc, &self.slots, self.root, front)
    }

    /// What stands at the path of the names.
    pub(crate) fn node_at(&self, names: &[Name]) -> Option<Node>
        ensures { result ≡ at self.now names.now }
    {
        stands(&self.slots, self.root, names)
    }

    /// How many directories and how many whiteouts stand at the path, where the node is, and below it. Only where
    /// it is a directory is there a walk.
    pub(crate) fn tally_inside(&self, front: &[Name], node: Option<Node>) -> (usize, usize)
        requires node { node ≡ at self.now front.now }
        requires layer { IsLayer self.now }
        ensures dirs { result.0 ≡ count_by is_dir (values_of (inside front.now self.now.entries)) }
        ensures whiteouts { result.1 ≡ count_by is_whiteout (values_of (inside front.now self.now.entries)) }
    {
        if !is_directory(node) {
            return counts_of(node);
        }
        self.tally_walk(front)
    }

    /// The same, by a walk. Where it is refused memory, it begins again with room for all.
    fn tally_walk(&self, front: &[Name]) -> (usize, usize)
        ensures dirs { result.0 ≡ count_by is_dir (values_of (inside front.now self.now.entries)) }
        ensures whiteouts { result.1 ≡ count_by is_whiteout (values_of (inside front.now self.now.entries)) }
    {
        if let Ok(counts) = self.tally_rows(front, &mut self.below(front)) {
            return counts;
        }
        self.tally_all(front)
    }

    /// The same, by a walk with room for all.
    #[cold]
    #[inline(never)]
    fn tally_all(&self, front: &[Name]) -> (usize, usize)
        ensures dirs { result.0 ≡ count_by is_dir (values_of (inside front.now self.now.entries)) }
        ensures whiteouts { result.1 ≡ count_by is_whiteout (values_of (inside front.now self.now.entries)) }
    {
        match self.tally_rows(front, &mut self.all_below(front)) {
            Ok(counts) => counts,
            Err(_) => unreachable!(),
        }
    }

    /// The same, by the walk.
    fn tally_rows<const ROOM: usize>(
        &self,
        front: &[Name],
        rows: &mut Rows<'_, ROOM>,
    ) -> Result<(usize, usize), AllocError>
        requires rows { inside front.now self.now.entries ≡ own front.now (at self.now front.now) ++ rows.old.rest }
        requires layer { IsLayer self.now }
        ensures dirs { IfOk result (λ n. n.0 ≡ count_by is_dir (values_of (inside front.now self.now.entries))) }
        ensures whiteouts { IfOk result (λ n. n.1 ≡ count_by is_whiteout (values_of (inside front.now self.now.entries))) }
        ensures sure { 2048 ≤ ROOM → IsOk result }
    {
        let (mut dirs, mut whiteouts) = counts_of(self.node_at(front));
        while let Some(row) = rows.try_next()? {
            dirs += usize::from(row.node.is_dir());
            whiteouts += usize::from(row.node.is_whiteout());
        }
        Ok((dirs, whiteouts))
    }

    /// How many directories and how many whiteouts there are, counted from scratch.
    ///
    /// Cost: the number of paths, times the logarithm of a directory's entries.
    pub fn tally(&self) -> (usize, usize)
        ensures { result ≡ (dir_count self.now, whiteout_count self.now) }
    {
        self.tally_walk(&[])
    }

    /// The path and the paths below it at which something stands, in order.
    ///
    /// The condition is that something stands at the path. It fails only where memory is refused. Cost: the texts
    /// of the paths, and the number of paths times the logarithm of a directory's entries.
    pub(crate) fn paths_inside(&self, front: &Path) -> Result<Vec<Path>, AllocError>
        requires { IsSome (at self.now front.now) }
        ensures { IfOk result (λ paths. paths.items ≡ keys_of (inside front.now self.now.entries)) }
    {
        let mut paths = Vec::new(self.alloc);
        let mut last = front.clone()?;
        let mut rows = self.below(front.names());
        while let Some(row) = rows.try_next()? {
            let path = path_beside(&last, row.above, row.name)?;
            paths.push(last)?;
            last = path;
        }
        paths.push(last)?;
        Ok(paths)
    }

    /// How many of the first `many` entries below the path are names of the file number. Where a walk is refused
    /// memory, it begins again with room for all.
    fn names_among(&self, front: &[Name], number: u32, many: usize) -> usize
        ensures { (rest : Entries) → inside front.now self.now.entries ≡ own front.now (at self.now front.now) ++ rest → result ≡ name_count number (take many rest) }
    {
        if let Ok(names) = names_of_rows(number, many, &mut self.below(front)) {
            return names;
        }
        self.names_among_all(front, number, many)
    }

    /// The same, by a walk with room for all.
    #[cold]
    #[inline(never)]
    fn names_among_all(&self, front: &[Name], number: u32, many: usize) -> usize
        ensures { (rest : Entries) → inside front.now self.now.entries ≡ own front.now (at self.now front.now) ++ rest → result ≡ name_count number (take many rest) }
    {
        match names_of_rows(number, many, &mut self.all_below(front)) {
            Ok(names) => names,
            Err(_) => unreachable!(),
        }
    }

    /// The inode and the blocks of the file or symlink whose last name is the entry, which is that many entries below
    /// the path: none where it has a name further on, or beside the path.
    fn ended_at(&self, front: &[Name], node: Node, many: usize) -> (usize, u64)
        requires there { (rest : Entries) × (q : Names) × (past : Entries) × (inside front.now self.now.entries ≡ own front.now (at self.now front.now) ++ rest) × (rest ≡ take many rest ++ past) × (pre : Entries) × (take many rest ≡ pre ++ (q, node) ∷ []) }
        ensures { (rest : Entries) → inside front.now self.now.entries ≡ own front.now (at self.now front.now) ++ rest → result ≡ ended self.now node (take many rest) }
    {
        let Some(number) = node.number() else {
            return (0, 0);
        };
        let links = self.link_count(number);
        if links > 1 && self.names_among(front, number, many) != links {
            return (0, 0);
        }
        match self.body(number) {
            Some(body) => (1, body.blocks()),
            None => (0, 0),
        }
    }

    /// The inode and the blocks of the file or symlink whose last name the entry is. The counts are of the names that
    /// came before, of files with several; this name is counted too.
    fn ended_by(
        &self,
        node: Node,
        met: &mut BTreeMap<u32, usize>,
    ) -> Result<(usize, u64), AllocError>
        requires there { (pre : Entries) × (q : Names) × AreMet self.now pre met.old.entries × ((k : ℕ) → name_count k (pre ++ (q, node) ∷ []) ≤ name_count k self.now.entries) }
        ensures ended { (pre : Entries) (q : Names) → AreMet self.now pre met.old.entries → ((k : ℕ) → name_count k (pre ++ (q, node) ∷ []) ≤ name_count k self.now.entries) → IfOk result (λ n. n ≡ ended self.now node (pre ++ (q, node) ∷ [])) }
        ensures met { (pre : Entries) (q : Names) → AreMet self.now pre met.old.entries → OnOk result (AreMet self.now (pre ++ (q, node) ∷ []) met.new.entries) }
    {
        let Some(number) = node.number() else {
            return Ok((0, 0));
        };
        let links = self.link_count(number);
        if links > 1 && meet(met, number)? != links {
            return Ok((0, 0));
        }
        match self.body(number) {
            Some(body) => Ok((1, body.blocks())),
            None => Ok((0, 0)),
        }
    }

    /// The inodes and the blocks of the files and symlinks that have all their names below the directory. The bound is
    /// one on the number of paths.
    ///
    /// It takes memory for the walk and for a count of each file with several names there; it does without where that
    /// is refused. Cost: the number of paths below it times the logarithm of a directory's entries and of these files;
    /// where memory is refused, once more for each name there of a file that has several.
    pub(crate) fn ended_below(&self, front: &[Name], bound: usize) -> (usize, u64)
        requires dir { IsDirAt (at self.now front.now) }
        requires few { path_count self.now ≤ bound }
        ensures inodes { result.0 ≡ length (bodies_unnamed (outside front.now self.now.entries) self.now.bodies) }
        ensures blocks { result.1 ≡ sum_by body_blocks (values_of (bodies_unnamed (outside front.now self.now.entries) self.now.bodies)) }
    {
        if let Ok(ended) = self.ended_rows(front) {
            return ended;
        }
        self.ended_all(front, bound)
    }

    /// The same, by one walk with counts.
    fn ended_rows(&self, front: &[Name]) -> Result<(usize, u64), AllocError>
        requires { IsDirAt (at self.now front.now) }
        ensures inodes { IfOk result (λ n. n.0 ≡ length (bodies_unnamed (outside front.now self.now.entries) self.now.bodies)) }
        ensures blocks { IfOk result (λ n. n.1 ≡ sum_by body_blocks (values_of (bodies_unnamed (outside front.now self.now.entries) self.now.bodies))) }
    {
        let mut met = BTreeMap::new(self.alloc);
        let mut rows = self.below(front);
        let (mut inodes, mut blocks) = (0, 0);
        while let Some(row) = rows.try_next()? {
            let (file, freed) = self.ended_by(row.node, &mut met)?;
            inodes += file;
            blocks += freed;
        }
        Ok((inodes, blocks))
    }

    /// The same without memory: by a walk with room for all, and a walk to each name of a file that has several.
    #[cold]
    #[inline(never)]
    fn ended_all(&self, front: &[Name], bound: usize) -> (usize, u64)
        requires dir { IsDirAt (at self.now front.now) }
        requires few { path_count self.now ≤ bound }
        ensures inodes { result.0 ≡ length (bodies_unnamed (outside front.now self.now.entries) self.now.bodies) }
        ensures blocks { result.1 ≡ sum_by body_blocks (values_of (bodies_unnamed (outside front.now self.now.entries) self.now.bodies)) }
    {
        let mut rows = self.all_below(front);
        let (mut inodes, mut blocks, mut many) = (0, 0, 0);
        while let Some(row) = rows.next() {
            many += 1;
            let (file, freed) = self.ended_at(front, row.node, many);
            inodes += file;
            blocks += freed;
        }
        (inodes, blocks)
    }

    /// The names in a directory, in byte order, whiteouts among them. There are none where no directory
    /// stands.
    ///
    /// It fails only where memory is refused. Cost: the directory's entries.
    pub fn children(&self, path: &Path) -> Result<Vec<Name>, AllocError>
        ensures { IfOk result (λ names. names.items ≡ names_below path.now self.now.entries) }
    {
        match walk(&self.slots, self.root, path.names()) {
            Some(target) => names_in(self.alloc, &self.slots, target),
            None => Ok(Vec::new(self.alloc)),
        }
    }

    /// Whether nothing but whiteouts stands in the directory.
    ///
    /// Takes no memory. Cost: the directory's entries, up to the first other one.
    pub fn has_clear(&self, path: &Path) -> bool
        ensures { IsTrue result ↔ ((n : List ℕ) → IsFree (at self.now (path.now ++ n ∷ []))) }
    {
        match walk(&self.slots, self.root, path.names()) {
            Some(target) => are_whiteouts(&self.slots, target),
            None => true,
        }
    }

    /// Whether the texts of the paths at the front and below it have at most `most` bytes. Where a walk is refused
    /// memory, it begins again with room for all.
    fn has_texts_within(&self, front: &Path, most: usize) -> bool
        requires front { front.now ≡ [] → ⊥ }
        requires most { length (text_of front.now) ≤ most }
        ensures { result ≡ list_all (is_text_within most) (inside front.now self.now.entries) }
    {
        if let Ok(within) = self.has_rows_within(front, most, &mut self.below(front.names())) {
            return within;
        }
        self.has_all_within(front, most)
    }

    /// The same, by a walk with room for all.
    #[cold]
    #[inline(never)]
    fn has_all_within(&self, front: &Path, most: usize) -> bool
        requires front { front.now ≡ [] → ⊥ }
        requires most { length (text_of front.now) ≤ most }
        ensures { result ≡ list_all (is_text_within most) (inside front.now self.now.entries) }
    {
        match self.has_rows_within(front, most, &mut self.all_below(front.names())) {
            Ok(within) => within,
            Err(_) => unreachable!(),
        }
    }

    /// The same, by the walk.
    fn has_rows_within<const ROOM: usize>(
        &self,
        front: &Path,
        most: usize,
        rows: &mut Rows<'_, ROOM>,
    ) -> Result<bool, AllocError>
        requires front { front.now ≡ [] → ⊥ }
        requires most { length (text_of front.now) ≤ most }
        requires at { rows.old.front ≡ front.now }
        requires rows { inside front.now self.now.entries ≡ own front.now (at self.now front.now) ++ rows.old.rest }
        ensures ok { IfOk result (λ b. b ≡ list_all (is_text_within most) (inside front.now self.now.entries)) }
        ensures sure { 2048 ≤ ROOM → IsOk result }
    {
        let own = front.as_str().len();
        while let Some(row) = rows.try_next()? {
            if row.text > most - own {
                return Ok(false);
            }
        }
        Ok(true)
    }

    /// Whether what stands at `from` and below it would have paths of at most 4095 bytes at `to`.
    ///
    /// The conditions are that neither path is the root. The cost is constant where the text of `to` is no longer than
    /// that of `from`. Else it is the number of paths there, times the logarithm of a directory's entries.
    pub fn has_short_paths(&self, from: &Path, to: &Path) -> bool
        requires from { from.now ≡ [] → ⊥ }
        requires to { to.now ≡ [] → ⊥ }
        requires layer { IsLayer self.now }
        ensures { IsTrue result ↔ ((r : Names) → IsSome (at self.now (from.now ++ r)) → length (text_below (to.now ++ r)) ≤ most_path_bytes) }
    {
        let front = from.as_str().len();
        let goal = to.as_str().len();
        if goal <= front {
            return true;
        }
        self.has_texts_within(from, MAX_PATH_BYTES + front - goal)
    }
}
