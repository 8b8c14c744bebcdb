// The walk over what a layer changes.
ghost use Rattle.std.specs.Prelude.{◌≡◌, ◌≤◌, [], ◌∷◌, ◌++◌, length, take, drop, None, Some, true, false, IfOk, OnOk};
ghost use Rattle.std.specs.Bound.{bound_map};
ghost use Rattle.std.specs.Option.{option_copied, option_map};
ghost use Rattle.std.specs.List.{flat_map};
ghost use Rattle.snap_merge.specs.Objects.{object, seen, is_shown_dir, AreLayers};
ghost use Rattle.snap_merge.specs.Listing.{names, put_names};
ghost use Rattle.snap_diff.specs.Changes.{both_names, changes, changes_below, is_untouched, page, page_start, put_rows, told_change};
ghost use Rattle.snap_layer.specs.Directory.{names_from};
ghost use Rattle.snap_diff.specs.Places.{after_entry, after_here, directory_names, IsOwnPlace};

use crate::change::{Change, ChangeKind, change_at};
use crate::own::Own;
use crate::text::PathText;
use snap_layer::{Layer, Shared};
use snap_merge::{FsError, Seen, Stack, is_dir, show_are_layers};
use snap_path::{Name, NoMemory, Path, PathError};
use std::alloc::{AllocError, Global};
use std::cmp::Ordering;
use std::collections::BTreeSet;
use std::ops::Bound;

/// The most names of a path, and one for the root.
const MAX_DEPTH: u64 = 2048;

/// Where a walk goes, and how many of the changes it keeps.
#[derive(Clone, Copy)]
struct Walk<'a> {
    alloc: Global,
    layer: &'a Layer,
    lowers: &'a [Shared],
    most: usize,
}

/// Where a walk is.
#[derive(Drop)]
struct Place<'a> {
    path: PathText,
    own: Own<'a>,
    // Which of the changes from here on are of the page: those after the path and these names, or all.
    after: Option<&'a [Name]>,
}

/// Puts the names among the others, each once.
fn put_names(all: &mut BTreeSet<Name>, names: Vec<Name>) -> Result<(), AllocError>
    ensures { OnOk result (all.new.keys ≡ put_names names.items all.old.keys) }
{
    for name in names {
        all.insert(name)?;
    }
    Ok(())
}

/// The names in the directory at which the stack shows something. There are none where it shows no directory.
#[tactic(auto, using(crate::proofs::Walks::no_listing))]
fn names_in(alloc: Global, stack: &Stack<'_>, path: &Path) -> Result<Vec<Name>, NoMemory>
    requires { AreLayers stack.now }
    ensures { IfOk result (λ v. v.items ≡ names stack.now path.now) }
{
    match stack.list(alloc, path) {
        Ok(names) => Ok(names),
        Err(error) => match error {
            FsError::OutOfMemory(no_memory) => Err(no_memory),
            _ => Ok(Vec::new(alloc)),
        },
    }
}

/// Which of the changes at an entry of a directory are of the page, as it is told at the directory: those after the
/// entry's path and these names, or all. `None` where none are.
fn after_entry<'a>(after: Option<&'a [Name]>, name: &Name) -> Option<Option<&'a [Name]>>
    ensures { option_map option_copied result ≡ after_entry (option_copied after.entry) name.now }
{
    let Some(after) = after else {
        return Some(None);
    };
    let Some((first, rest)) = after.split_first() else {
        return Some(None);
    };
    match name.cmp(first) {
        Ordering::Less => None,
        Ordering::Equal => Some(Some(rest)),
        Ordering::Greater => Some(None),
    }
}

impl<'a> Place<'a> {
    /// Where in the directory the page begins.
    fn start(&self) -> Bound<&'a Name>
        ensures { bound_map (λ n. n.now) result ≡ page_start (after_here self.now.path (option_copied self.now.after)) self.now.path }
    {
        let Some(after) = self.after else {
            return Bound::Unbounded;
        };
        match after.first() {
            Some(name) => Bound::Included(name),
            None => Bound::Unbounded,
        }
    }
}

impl<'a> Walk<'a> {
    /// Shows a proof that each of the layers is one by `IsLayer`.
    fn show_are_layers(&self)
        ensures { AreLayers (self.now.layer.now ∷ self.now.lowers.now) }
    {
        self.layer.root_dir();
        show_are_layers(self.lowers);
    }

    /// Keeps the change at the place, if there is one, where it is of the page and has room.
    fn put_change(
        &self,
        kind: Option<ChangeKind>,
        place: &Place<'a>,
        rows: &mut Vec<Change>,
    ) -> Result<(), AllocError>
        ensures { OnOk result (rows.new.items ≡ put_rows self.now.most (after_here place.now.path (option_copied place.now.after)) rows.old.items (told_change place.now.path kind)) }
    {
        let Some(kind) = kind else {
            return Ok(());
        };
        // No path comes after one that it begins.
        let None = place.after else {
            return Ok(());
        };
        if rows.len() < self.most {
            let path = place.path.copy(self.alloc)?;
            rows.push(Change { kind, path })?;
        }
        Ok(())
    }

    /// The names in the directory at which something is seen with the layer or without it.
    fn both_names(&self, path: &PathText) -> Result<BTreeSet<Name>, NoMemory>
        ensures { IfOk result (λ all. all.keys ≡ both_names self.now.lowers.now (self.now.layer.now ∷ self.now.lowers.now) path.now) }
    {
        self.show_are_layers();
        let path = path.path(self.alloc)?;
        let mut all = BTreeSet::new(self.alloc);
        put_names(
            &mut all,
            names_in(self.alloc, &Stack::over(self.layer, self.lowers), &path)?,
        )?;
        put_names(
            &mut all,
            names_in(self.alloc, &Stack::of(self.lowers), &path)?,
        )?;
        Ok(all)
    }

    /// What the layers below show at the path, where they may show something.
    fn look_below(&self, path: &PathText, below: bool) -> Result<Option<Seen<'a>>, NoMemory>
        requires { below ≡ false → seen self.now.lowers.now path.now ≡ None }
        ensures { IfOk result (λ o. option_map object o ≡ seen self.now.lowers.now path.now) }
    {
        if !below {
            return Ok(None);
        }
        if self.lowers.is_empty() {
            return Ok(None);
        }
        let path = path.path(self.alloc)?;
        Ok(Stack::of(self.lowers).look(&path))
    }

    /// Keeps the changes at the place and below it, at `depth` names in a row at the most. `below` is false where the
    /// layers below show nothing at the path.
    #[cycle(put_below)]
    fn put_below(
        &self,
        place: &Place<'a>,
        below: bool,
        depth: u64,
        rows: &mut Vec<Change>,
    ) -> Result<(), NoMemory>
        requires own { IsOwnPlace self.now.layer.now place.now.path place.now.own.node place.now.own.dir place.now.own.hidden }
        requires below { below ≡ false → seen self.now.lowers.now place.now.path ≡ None }
        ensures { OnOk result (rows.new.items ≡ put_rows self.now.most (after_here place.now.path (option_copied place.now.after)) rows.old.items (changes_below depth self.now.layer.now self.now.lowers.now place.now.path)) }
    {
        self.show_are_layers();
        if depth == 0 {
            return Ok(());
        }
        if rows.len() >= self.most {
            return Ok(());
        }
        if place.own.is_untouched() {
            return Ok(());
        }
        let old = self.look_below(&place.path, below)?;
        let new = place.own.seen_over(self.layer, old);
        let kind = change_at(old, new);
        self.put_change(kind, place, rows)?;
        if is_dir(new) {
            self.put_inside(place, is_dir(old), depth - 1, rows)?;
        }
        Ok(())
    }

    /// Keeps the changes in the directory. `below` is false where the layers below show none at the path.
    #[cycle(put_below)]
    fn put_inside(
        &self,
        place: &Place<'a>,
        below: bool,
        depth: u64,
        rows: &mut Vec<Change>,
    ) -> Result<(), NoMemory>
        requires own { IsOwnPlace self.now.layer.now place.now.path place.now.own.node place.now.own.dir place.now.own.hidden }
        requires below { below ≡ false → is_shown_dir (seen self.now.lowers.now place.now.path) ≡ false }
        requires touched { is_untouched self.now.layer.now place.now.path ≡ false }
        ensures { OnOk result (rows.new.items ≡ put_rows self.now.most (after_here place.now.path (option_copied place.now.after)) rows.old.items (flat_map (λ name. changes_below depth self.now.layer.now self.now.lowers.now (place.now.path ++ name ∷ [])) (both_names self.now.lowers.now (self.now.layer.now ∷ self.now.lowers.now) place.now.path))) }
    {
        self.show_are_layers();
        if place.own.is_merged() {
            self.put_own(place, place.start(), below, depth, rows)
        } else {
            self.put_both(place, below, depth, rows)
        }
    }

    /// Keeps the changes at the directory's own names from the bound on.
    #[cycle(put_below)]
    fn put_own(
        &self,
        place: &Place<'a>,
        from: Bound<&'a Name>,
        below: bool,
        depth: u64,
        rows: &mut Vec<Change>,
    ) -> Result<(), NoMemory>
        requires own { IsOwnPlace self.now.layer.now place.now.path place.now.own.node place.now.own.dir place.now.own.hidden }
        requires below { below ≡ false → is_shown_dir (seen self.now.lowers.now place.now.path) ≡ false }
        ensures { OnOk result (rows.new.items ≡ put_rows self.now.most (after_here place.now.path (option_copied place.now.after)) rows.old.items (flat_map (λ name. changes_below depth self.now.layer.now self.now.lowers.now (place.now.path ++ name ∷ [])) (names_from (bound_map (λ n. n.now) from.entry) (directory_names place.now.own.dir)))) }
    {
        let mut from = from;
        while let Some(name) = place.own.first_name(from) {
            if rows.len() >= self.most {
                return Ok(());
            }
            self.put_entry(place, name, below, depth, rows)?;
            from = Bound::Excluded(name);
        }
        Ok(())
    }

    /// Keeps the changes in a directory of which the layer hides something: at all names that are seen there.
    #[cycle(put_below)]
    fn put_both(
        &self,
        place: &Place<'a>,
        below: bool,
        depth: u64,
        rows: &mut Vec<Change>,
    ) -> Result<(), NoMemory>
        requires own { IsOwnPlace self.now.layer.now place.now.path place.now.own.node place.now.own.dir place.now.own.hidden }
        requires below { below ≡ false → is_shown_dir (seen self.now.lowers.now place.now.path) ≡ false }
        ensures { OnOk result (rows.new.items ≡ put_rows self.now.most (after_here place.now.path (option_copied place.now.after)) rows.old.items (flat_map (λ name. changes_below depth self.now.layer.now self.now.lowers.now (place.now.path ++ name ∷ [])) (both_names self.now.lowers.now (self.now.layer.now ∷ self.now.lowers.now) place.now.path))) }
    {
        let names = self.both_names(&place.path)?;
        for name in names.range((place.start(), Bound::Unbounded)) {
            if rows.len() >= self.most {
                return Ok(());
            }
            self.put_entry(place, name, below, depth, rows)?;
        }
        Ok(())
    }

    /// Keeps the changes at the directory's entry of this name and below it.
    #[cycle(put_below)]
    fn put_entry(
        &self,
        place: &Place<'a>,
        name: &Name,
        below: bool,
        depth: u64,
        rows: &mut Vec<Change>,
    ) -> Result<(), NoMemory>
        requires own { IsOwnPlace self.now.layer.now place.now.path place.now.own.node place.now.own.dir place.now.own.hidden }
        requires below { below ≡ false → is_shown_dir (seen self.now.lowers.now place.now.path) ≡ false }
        ensures { OnOk result (rows.new.items ≡ put_rows self.now.most (after_here place.now.path (option_copied place.now.after)) rows.old.items (changes_below depth self.now.layer.now self.now.lowers.now (place.now.path ++ name.now ∷ []))) }
    {
        self.show_are_layers();
        let Some(after) = after_entry(place.after, name) else {
            return Ok(());
        };
        match place.path.join(self.alloc, name) {
            Ok(path) => {
                let own = place.own.entry(name);
                let entry = Place { path, own, after };
                self.put_below(&entry, below, depth, rows)
            }
            Err(PathError::BadPath) => Ok(()),
            Err(PathError::OutOfMemory(no_memory)) => Err(no_memory),
        }
    }

    /// The place at the first `names` names of the path that the page begins after.
    fn front(&self, after: &'a Path, names: usize, own: Own<'a>) -> Result<Place<'a>, AllocError>
        requires { names ≤ length after.now }
        ensures { IfOk result (λ place. (place.path ≡ take names after.now) × (place.own ≡ own.entry) × (option_copied place.after ≡ Some (drop names after.now))) }
    {
        let (front, rest) = after.names().split_at(names);
        let path = PathText::of(self.alloc, front)?;
        Ok(Place {
            path,
            own,
            after: Some(rest),
        })
    }

    /// Keeps the changes at the first `names` names of the path that the page begins after, and below them. A directory
    /// there that the layer shares with the layers below comes before the page: it is looked at, and gets a path, only
    /// where a name of the layer's comes after the place.
    fn put_way(
        &self,
        after: &'a Path,
        names: usize,
        own: Own<'a>,
        depth: u64,
        rows: &mut Vec<Change>,
    ) -> Result<(), NoMemory>
        requires within { names ≤ length after.now }
        requires own { IsOwnPlace self.now.layer.now (take names after.now) own.node own.dir own.hidden }
        ensures { OnOk result (rows.new.items ≡ put_rows self.now.most (Some after.now) rows.old.items (changes_below depth self.now.layer.now self.now.lowers.now (take names after.now))) }
    {
        self.show_are_layers();
        if depth == 0 {
            return Ok(());
        }
        if own.is_untouched() {
            return Ok(());
        }
        if !own.is_merged() {
            return self.put_front(after, names, own, depth, rows);
        }
        let Some(place) = after.names().get(names) else {
            return self.put_front(after, names, own, depth, rows);
        };
        let from = Bound::Included(place);
        if let Some(first) = own.first_name(from) {
            if first == place {
                self.put_way(after, names + 1, own.entry(place), depth - 1, rows)?;
                let from = Bound::Excluded(first);
                return self.put_rest(after, names, own, from, depth - 1, rows);
            }
        }
        self.put_rest(after, names, own, from, depth - 1, rows)
    }

    /// Keeps the changes at the first `names` names of the path, and below them.
    fn put_front(
        &self,
        after: &'a Path,
        names: usize,
        own: Own<'a>,
        depth: u64,
        rows: &mut Vec<Change>,
    ) -> Result<(), NoMemory>
        requires within { names ≤ length after.now }
        requires own { IsOwnPlace self.now.layer.now (take names after.now) own.node own.dir own.hidden }
        ensures { OnOk result (rows.new.items ≡ put_rows self.now.most (Some after.now) rows.old.items (changes_below depth self.now.layer.now self.now.lowers.now (take names after.now))) }
    {
        let place = self.front(after, names, own)?;
        self.put_below(&place, true, depth, rows)
    }

    /// Keeps the changes at the own names from the bound on in the directory at the first `names` names of the path.
    /// The directory gets a path where there is such a name, and room for its changes.
    fn put_rest(
        &self,
        after: &'a Path,
        names: usize,
        own: Own<'a>,
        from: Bound<&'a Name>,
        depth: u64,
        rows: &mut Vec<Change>,
    ) -> Result<(), NoMemory>
        requires within { names ≤ length after.now }
        requires own { IsOwnPlace self.now.layer.now (take names after.now) own.node own.dir own.hidden }
        ensures { OnOk result (rows.new.items ≡ put_rows self.now.most (Some after.now) rows.old.items (flat_map (λ name. changes_below depth self.now.layer.now self.now.lowers.now (take names after.now ++ name ∷ [])) (names_from (bound_map (λ n. n.now) from.entry) (directory_names own.entry.dir)))) }
    {
        if rows.len() >= self.most {
            return Ok(());
        }
        if own.first_name(from).is_none() {
            return Ok(());
        }
        let place = self.front(after, names, own)?;
        let below = is_dir(self.look_below(&place.path, true)?);
        self.put_own(&place, from, below, depth, rows)
    }
}

/// What the layer changes of what the lower layers show, the nearest of them first, in order of the paths: of the
/// changes after a path, or of all, the first `most`.
///
/// A path is added where something is seen with the layer alone, removed where something is seen without it alone, and
/// changed where the two objects differ in kind, mode, content or target. A content of a size without a digest, which
/// nobody knows, differs from each; but where the layer has nothing at a path, and nothing that hides it, nothing is
/// changed (our choice). Of a directory that is gone what was in it isn't told. A directory comes before what is in it,
/// and names are in byte order.
///
/// It fails only where memory is refused: for names, for paths or for the changes. Cost: for each path of the layer from
/// the page's place on its text, and a look at what the layers below show there, where they show its directory; a list of
/// each directory there of which the layer hides something, and the same for each name of it from that place on; the
/// bytes of files that are compared. A directory on the way to the place that hides nothing costs a logarithm of its
/// names, and where a name comes after the place its path and a look below. The walk ends where the page is full.
pub fn changes(
    alloc: Global,
    layer: &Layer,
    lowers: &[Shared],
    after: Option<&Path>,
    most: usize,
) -> Result<Vec<Change>, NoMemory>
    ensures { IfOk result (λ v. v.items ≡ page (option_copied after.entry) most (changes layer.now lowers.now)) }
{
    let walk = Walk {
        alloc,
        layer,
        lowers,
        most,
    };
    let own = Own::root(layer);
    let mut rows = Vec::new(alloc);
    match after {
        Some(after) => walk.put_way(after, 0, own, MAX_DEPTH, &mut rows)?,
        None => {
            let path = PathText::root(alloc);
            let place = Place {
                path,
                own,
                after: None,
            };
            walk.put_below(&place, true, MAX_DEPTH, &mut rows)?;
        }
    }
    Ok(rows)
}
