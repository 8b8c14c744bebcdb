// The open directory of each layer that shares in a path: what is below it is asked name by name, without a walk from
// the root.
ghost use Rattle.std.specs.Prelude.{◌≡◌, ◌≤◌, ◌∷◌, ◌++◌, [], ℕ, List, Bool, not, length, take, drop, OnOk, IfOk};
ghost use Rattle.snap_layer.specs.Tree.{at};
ghost use Rattle.snap_merge.specs.Objects.{metas_from};
ghost use Rattle.snap_merge.specs.Shares.{has, seen_so_far};
ghost use Rattle.snap_merge.specs.Row.{dir_at, entry_hides, entry_in, hides_inside, is_seen_in, is_seen_over, meta_in, metas_in, names_in, next_dir, node_meta, row, row_at};

use super::look::{node_hides, share_in};
use super::names::put_dir;
use super::stack::Stack;
use smallvec::SmallVec;
use snap_layer::{Dir, Layer, Meta, Node, Shared};
use snap_path::{Name, Path};
use std::alloc::{AllocError, Global};
use std::collections::BTreeSet;

/// A row of at most this number of directories takes no memory.
const INLINE_DIRS: usize = 16;

/// The meta of a directory that isn't there.
const NO_META: Meta = Meta { mode: 0 };

/// The directories of the layers at one path, the top one first. It has `None` for a layer that has none there, and no
/// place for the layers below one that hides what they have.
pub(crate) type Row<'a> = SmallVec<Option<Dir<'a>>, INLINE_DIRS>;

impl<'a> Stack<'a> {
    /// The row at the path of the names: one walk of each layer.
    pub(crate) fn row(&self, alloc: Global, names: &[Name]) -> Result<Row<'a>, AllocError>
        ensures { IfOk result (λ r. r.items ≡ row self.now names.now) }
    {
        let mut rows = SmallVec::new(alloc);
        if let Some(top) = self.top {
            let goes_on = put_layer(&mut rows, top, names)?;
            if !goes_on {
                return Ok(rows);
            }
        }
        put_layers(&mut rows, self.lowers, names)?;
        Ok(rows)
    }

    /// The metas of the directories that are seen above the path, from that of its first `front` names on; one of
    /// mode 0 where none is seen.
    ///
    /// The condition is that the path has as many names. It fails only where memory is refused. Cost: one walk to the
    /// path in each layer.
    pub fn metas(&self, alloc: Global, path: &Path, front: usize) -> Result<Vec<Meta>, AllocError>
        requires { front ≤ length path.now }
        ensures { IfOk result (λ metas. metas.items ≡ metas_from self.now (take front path.now) (drop front path.now)) }
    {
        self.show_are_layers();
        let names = path.names();
        let row = self.row(alloc, &names[..front])?;
        let mut metas = Vec::new(alloc);
        put_metas(alloc, row, &names[front..], &mut metas)?;
        Ok(metas)
    }
}

/// Puts the metas of the directory that has the row, and of those at the names but the last, one in the other, last.
fn put_metas(
    alloc: Global,
    row: Row<'_>,
    names: &[Name],
    metas: &mut Vec<Meta>,
) -> Result<(), AllocError>
    ensures { OnOk result (metas.new.items ≡ metas.old.items ++ metas_in row.entry.items names.now) }
{
    let mut row = row;
    for name in names {
        metas.push(meta_in(row.as_slice()))?;
        let mut next = SmallVec::new(alloc);
        put_row(&mut next, row.as_slice(), name)?;
        row = next;
    }
    Ok(())
}

/// The meta of the directory that is seen: the topmost one's.
fn meta_in(row: &[Option<Dir<'_>>]) -> Meta
    ensures { result ≡ meta_in row.now }
{
    for dir in row {
        if let Some(dir) = dir {
            return meta_of(dir);
        }
    }
    NO_META
}

/// The meta of the directory.
fn meta_of(dir: &Dir<'_>) -> Meta
    ensures { result ≡ node_meta (at dir.now.layer dir.now.path) }
{
    match dir.node() {
        Node::Dir { meta, .. } => meta,
        Node::File { .. } => unreachable!(),
        Node::Symlink { .. } => unreachable!(),
        Node::Whiteout => unreachable!(),
    }
}

/// Puts the layer's directory at the path of the names last, and says whether the layers below share in it.
fn put_layer<'a>(rows: &mut Row<'a>, layer: &'a Layer, names: &[Name]) -> Result<bool, AllocError>
    ensures dir { OnOk result (rows.new.items ≡ rows.old.items ++ dir_at layer.now names.now ∷ []) }
    ensures on { IfOk result (λ on. on ≡ not (hides_inside layer.now names.now)) }
{
    let share = share_in(layer, names);
    let goes_on = !share.hides;
    rows.push(share.dir)?;
    Ok(goes_on)
}

/// Puts those of the layers last, one layer after another, down to the first that hides what is below.
fn put_layers<'a>(
    rows: &mut Row<'a>,
    lowers: &'a [Shared],
    names: &[Name],
) -> Result<(), AllocError>
    ensures { OnOk result (rows.new.items ≡ rows.old.items ++ row lowers.now names.now) }
{
    for shared in lowers {
        let goes_on = put_layer(rows, shared.layer(), names)?;
        if !goes_on {
            return Ok(());
        }
    }
    Ok(())
}

/// Puts the row of the name in the directory that has this row last: one look-up in each directory of the row.
pub(crate) fn put_row<'a>(
    rows: &mut Row<'a>,
    row: &[Option<Dir<'a>>],
    name: &Name,
) -> Result<(), AllocError>
    ensures { OnOk result (rows.new.items ≡ rows.old.items ++ row_at row.now name.now) }
{
    for dir in row {
        let hides = put_next(rows, dir, name)?;
        if hides {
            return Ok(());
        }
    }
    Ok(())
}

/// Puts the directory that is at the name last, and says whether what is there hides what the layers below have.
fn put_next<'a>(rows: &mut Row<'a>, dir: &Option<Dir<'a>>, name: &Name) -> Result<bool, AllocError>
    ensures dir { OnOk result (rows.new.items ≡ rows.old.items ++ next_dir (entry_in dir.now name.now) ∷ []) }
    ensures hides { IfOk result (λ hides. hides ≡ entry_hides (entry_in dir.now name.now)) }
{
    match entry_in(dir, name) {
        Some((node, next)) => {
            rows.push(next)?;
            Ok(node_hides(Some(node)))
        }
        None => {
            rows.push(None)?;
            Ok(false)
        }
    }
}

/// What the directory has at the name.
pub(crate) fn entry_in<'a>(dir: &Option<Dir<'a>>, name: &Name) -> Option<(Node, Option<Dir<'a>>)>
    ensures { result ≡ entry_in dir.now name.now }
{
    match dir {
        Some(dir) => dir.entry(name),
        None => None,
    }
}

/// The names at which something is seen in the directory that has the row.
pub(crate) fn names_in(alloc: Global, row: &[Option<Dir<'_>>]) -> Result<Vec<Name>, AllocError>
    ensures { IfOk result (λ names. names.items ≡ names_in row.now) }
{
    let shown = shown_in(alloc, row)?;
    let mut names = Vec::with_capacity(alloc, shown.len())?;
    for name in shown {
        names.push(name)?;
    }
    Ok(names)
}

/// The same as a set.
fn shown_in(alloc: Global, row: &[Option<Dir<'_>>]) -> Result<BTreeSet<Name>, AllocError>
    ensures { IfOk result (λ shown. (n : List ℕ) → has n shown.keys ≡ is_seen_in row.now n) }
{
    let mut shown = BTreeSet::new(alloc);
    let mut gone = BTreeSet::new(alloc);
    for dir in row {
        put_names(&mut shown, &mut gone, dir)?;
    }
    Ok(shown)
}

/// Puts the names of one layer's directory among those that the layers above it show and hide.
fn put_names(
    shown: &mut BTreeSet<Name>,
    gone: &mut BTreeSet<Name>,
    dir: &Option<Dir<'_>>,
) -> Result<(), AllocError>
    ensures { OnOk result ((n : List ℕ) (under : Bool) → seen_so_far shown.new.keys gone.new.keys n under ≡ seen_so_far shown.old.keys gone.old.keys n (is_seen_over dir.now n under)) }
{
    let Some(dir) = dir else {
        return Ok(());
    };
    let names = dir.children()?;
    put_dir(shown, gone, dir, names)?;
    Ok(())
}
