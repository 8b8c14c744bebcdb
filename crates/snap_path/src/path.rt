ghost use Rattle.std.specs.Prelude.{Some, take, ◌≡◌, ◌↔◌, ◌<◌, ◌≤◌, ◌++◌, ◌∷◌, [], ℕ, List, IfOk, IsOk, OnOk, IsErrOf, IsTrue, length, ◌==◌, true, false};
ghost use Rattle.std.specs.Fmt.{padded};
ghost use Rattle.std.specs.String.{string_bytes};
ghost use Rattle.std.specs.Option.{option_copied};
ghost use Rattle.std.specs.List.{list_all, slice_split};
ghost use Rattle.snap_path.specs.Limits.{most_path_bytes};
ghost use Rattle.snap_path.specs.Text.{is_name, is_path, path_names, text_of, text_below, parent_of, last_name, Begins, begins, IsHeld, IsPath, IsJoined, IsSpelling};

use super::limits::MAX_PATH_BYTES;
use super::name::{Name, PathError, is_name_text};
use std::alloc::{AllocError, Global};
use std::cmp::Ordering;
use std::fmt;
use std::marker::Model;

/// An absolute path: a list of names, from the root down. The root has none.
///
/// A contract sees it as the list of its names' bytes. Paths are ordered name by name, and names by
/// their bytes, so what is below a directory follows it at once: `/a`, `/a/b`, `/a-b`. A comparison
/// takes no memory, and its cost grows with the shorter path.
///
/// A path keeps its text and its names side by side, so it takes about twice its text in memory, in
/// an allocation for each name and two more; the root takes none. It keeps its allocator, with which
/// `clone`, `parent`, `front` and `join` make theirs. A clone's cost is that of the path's text.
#[derive(Debug, Drop)]
pub struct Path {
    // Empty for the root.
    text: String,
    names: Vec<Name>,
}

impl Model for Path {
    ghost Value = { List (List ℕ) };

    ghost view = { λ p. p.names.items };

    ghost invariant = { λ p. IsHeld (string_bytes p.text) p.names.items };
}

impl Path {
    /// The root, `/`. It takes no memory, and its cost is constant.
    pub fn root(alloc: Global) -> Path
        ensures { result ≡ [] }
    {
        Path {
            text: String::new(alloc),
            names: Vec::new(alloc),
        }
    }

    /// Reads a path.
    ///
    /// `BadPath` where the text is no path: empty, without a `/` in front, with a closing `/` or two
    /// in a row, with a name that `Name::parse` refuses, or longer than 4095 bytes. `OutOfMemory`
    /// where memory for the path is refused; a text that is no path is found out first. Cost: two
    /// passes over the text, and a text above 4095 bytes isn't read at all.
    #[tactic(auto, using(crate::proofs::Texts::spelling))]
    pub fn parse(alloc: Global, text: &str) -> Result<Path, PathError>
        ensures ok { IfOk result (λ p. (p ≡ path_names text.now) × (text_of p ≡ text.now)) }
        ensures bad { IsErrOf result PathError.BadPath ↔ (is_path text.now ≡ false) }

        // What `is_path` and `path_names` mean, in terms of the text that names have.
        ensures spelling { IsSpelling text.now }
    {
        if !is_path_text(text) {
            return Err(PathError::BadPath);
        }
        Ok(Path::from_valid(alloc, text)?)
    }

    /// The path of a text that was tested.
    fn from_valid(alloc: Global, text: &str) -> Result<Path, AllocError>
        requires { is_path text.now ≡ true }
        ensures { IfOk result (λ p. (p ≡ path_names text.now) × (text_of p ≡ text.now)) }
    {
        if text.len() <= 1 {
            return Ok(Path::root(alloc));
        }
        let kept = String::from_str(alloc, text)?;
        let mut names = Vec::new(alloc);
        for part in text[1..].split('/') {
            names.push(Name::from_valid(alloc, part)?)?;
        }
        Ok(Path { text: kept, names })
    }

    /// The names from the root down, lent. It takes no memory, and its cost is constant.
    pub fn names(&self) -> &[Name]
        ensures names { result.now ≡ self.now }
        ensures valid { IsPath self.now }
    {
        self.names.as_slice()
    }

    /// The path's text, lent: `/` for the root, and else each name after a `/`. It takes no memory,
    /// and its cost is constant.
    pub fn as_str(&self) -> &str
        ensures value { result.now ≡ text_of self.now }
        ensures short { length (text_of self.now) ≤ most_path_bytes }
        ensures valid { IsPath self.now }
    {
        if self.text.is_empty() {
            "/"
        } else {
            self.text.as_str()
        }
    }

    /// The last name, lent; the root has none. It takes no memory, and its cost is constant.
    pub fn name(&self) -> Option<&Name>
        ensures { option_copied result ≡ last_name self.now }
    {
        self.names.last()
    }

    /// The path without its last name; the root has no parent. (In path_resolution(7) the parent of
    /// `/` is `/`; here a walk to the root ends.)
    ///
    /// It takes memory for the parent, and the error is that this was refused; at the root and one
    /// name below it, it takes none. Cost: that of the parent's text.
    pub fn parent(&self) -> Result<Option<Path>, AllocError>
        ensures ok { IfOk result (λ p. p ≡ parent_of self.now) }
        ensures sure { length self.now ≤ 1 → IsOk result }
    {
        let Some((_, front)) = self.names.split_last() else {
            return Ok(None);
        };
        Ok(Some(Path::from_names(*self.names.allocator(), front)?))
    }

    /// The path of the first names: the root at 0, the path itself at all of them.
    ///
    /// It takes memory for the result, and the error is that this was refused; the root takes none.
    /// Cost: that of the result's text.
    pub fn front(&self, names: usize) -> Result<Path, AllocError>
        requires { names ≤ length self.now }
        ensures ok { IfOk result (λ p. p ≡ take names self.now) }
        ensures sure { names ≡ 0 → IsOk result }
    {
        let front = &self.names[..names];
        Path::from_names(*self.names.allocator(), front)
    }

    /// The path of the entry of that name in this directory.
    ///
    /// `BadPath` where the result would be longer than 4095 bytes, which is tested first, and
    /// `OutOfMemory` where memory for the result is refused. Cost: that of the result's text.
    #[tactic(auto, using(crate::proofs::Texts::text_below_push_length))]
    pub fn join(&self, name: &Name) -> Result<Path, PathError>
        ensures ok { IfOk result (λ p. p ≡ self.now ++ name.now ∷ []) }
        ensures bad { IsErrOf result PathError.BadPath
            ↔ (most_path_bytes < length (text_below (self.now ++ name.now ∷ []))) }

        // A path is its parent joined with its name.
        ensures parts { IfOk result (IsJoined self.now name.now) }
    {
        if self.text.len() + 1 + name.as_str().len() > MAX_PATH_BYTES {
            return Err(PathError::BadPath);
        }
        Ok(self.joined(name)?)
    }

    /// The path and a name more, where its text is short enough.
    fn joined(&self, name: &Name) -> Result<Path, AllocError>
        requires { length (text_below (self.now ++ name.now ∷ [])) ≤ most_path_bytes }
        ensures { IfOk result (λ p. p ≡ self.now ++ name.now ∷ []) }
    {
        let mut path = Path::from_names(*self.names.allocator(), &self.names)?;
        path.text.push('/')?;
        path.text.push_str(name.as_str())?;
        path.names.push(name.clone()?)?;
        Ok(path)
    }

    /// The path of the names. The root takes no memory.
    fn from_names(alloc: Global, names: &[Name]) -> Result<Path, AllocError>
        requires { IsPath names.now }
        ensures ok { IfOk result (λ p. p ≡ names.now) }
        ensures sure { names.now ≡ [] → IsOk result }
    {
        if names.is_empty() {
            return Ok(Path::root(alloc));
        }
        let mut text = String::new(alloc);
        let mut all = Vec::new(alloc);
        append_names(&mut all, names)?;
        append_text(&mut text, names)?;
        Ok(Path { text, names: all })
    }

    /// Whether `front` is this path, or a directory above it. It takes no memory, and its cost grows
    /// with the front's text at most.
    pub fn begins(&self, front: &Path) -> bool
        ensures value { result ≡ begins front.now self.now }
        ensures prefix { IsTrue result ↔ Begins front.now self.now }
    {
        self.names.starts_with(&front.names)
    }
}

/// Appends copies of the names.
fn append_names(all: &mut Vec<Name>, names: &[Name]) -> Result<(), AllocError>
    ensures { OnOk result (all.new.items ≡ all.old.items ++ names.now) }
{
    for name in names {
        all.push(name.clone()?)?;
    }
    Ok(())
}

/// Appends the names, each after a `/`.
fn append_text(text: &mut String, names: &[Name]) -> Result<(), AllocError>
    ensures { OnOk result (string_bytes text.new ≡ string_bytes text.old ++ text_below names.now) }
{
    for name in names {
        text.push('/')?;
        text.push_str(name.as_str())?;
    }
    Ok(())
}

/// Whether a text is a path's.
fn is_path_text(text: &str) -> bool
    ensures { result ≡ is_path text.now }
{
    if text.len() > MAX_PATH_BYTES {
        return false;
    }
    if text == "/" {
        return true;
    }
    match text.strip_prefix('/') {
        Some(names) => are_names(names),
        None => false,
    }
}

/// Whether a text is names with a `/` between two.
fn are_names(text: &str) -> bool
    ensures { result ≡ list_all is_name (slice_split (λ b. b == 47) text.now) }
{
    text.split('/').all(|name| is_name_text(name))
}

impl fmt::Display for Path {
    ghost output = { λ path. Some (text_of path) };

    ghost styled_output = { λ path style. Some (padded style (text_of path)) };

    fn fmt<W: fmt::Write>(&self, f: &mut fmt::Formatter<W>) -> fmt::Result {
        f.pad(self.as_str())
    }
}

impl Clone for Path {
    ghost is_clone = { λ a b. b ≡ a };

    fn clone(&self) -> Result<Path, AllocError> {
        Path::from_names(*self.names.allocator(), &self.names)
    }
}

impl PartialEq for Path {
    ghost use Rattle.std.specs.Cmp.Lexicographic.{pointwise, lists_per, nat_list_eq_equiv};
    ghost use Rattle.std.specs.Prelude.{nat_eq};
    ghost use Rattle.std.specs.Cmp.{partial_equiv_from_equiv};

    ghost eq = { pointwise (pointwise nat_eq) };

    ghost laws = { lists_per (partial_equiv_from_equiv nat_list_eq_equiv) };

    fn eq(&self, other: &Path) -> bool {
        self.names == other.names
    }
}

impl Eq for Path {
    ghost use Rattle.std.specs.Cmp.Lexicographic.{lists_equiv, nat_list_eq_equiv};

    ghost laws = { lists_equiv nat_list_eq_equiv };
}

impl PartialOrd for Path {
    ghost use Rattle.std.specs.Cmp.Lexicographic.{slice_cmp, lists_total, lists_ties, nat_list_cmp_total, texts_ties};
    ghost use Rattle.std.specs.Prelude.{Some, refl};
    ghost use Rattle.std.specs.Ordering.{nat_cmp};
    ghost use Rattle.std.specs.Cmp.{partial_order_from_agreeing_total};

    ghost partial_cmp = { λ a b. Some (slice_cmp (slice_cmp nat_cmp) a b) };

    ghost laws = { partial_order_from_agreeing_total (slice_cmp (slice_cmp nat_cmp)) (lists_total nat_list_cmp_total) (λ a b. refl) (lists_ties (slice_cmp nat_cmp) texts_ties) };

    fn partial_cmp(&self, other: &Path) -> Option<Ordering> {
        Some(self.cmp(other))
    }
}

impl Ord for Path {
    ghost use Rattle.std.specs.Cmp.Lexicographic.{slice_cmp, lists_total, lists_ties, nat_list_cmp_total, texts_ties};
    ghost use Rattle.std.specs.Prelude.{refl};
    ghost use Rattle.std.specs.Ordering.{nat_cmp};

    ghost cmp = { slice_cmp (slice_cmp nat_cmp) };

    ghost total = { lists_total nat_list_cmp_total };

    ghost matches_partial_cmp = { λ a b. refl };

    ghost matches_eq = { lists_ties (slice_cmp nat_cmp) texts_ties };

    fn cmp(&self, other: &Path) -> Ordering {
        self.names.cmp(&other.names)
    }
}
