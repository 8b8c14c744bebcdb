// The text of a path, of which nothing else is kept.
ghost use Rattle.std.specs.Prelude.{◌≡◌, ◌↔◌, ◌≤◌, ◌<◌, ◌∷◌, ◌++◌, [], IfOk, IsErrOf, length};
ghost use Rattle.std.specs.String.{string_bytes};
ghost use Rattle.snap_path.specs.Limits.{most_path_bytes};
ghost use Rattle.snap_path.specs.Text.{text_below, text_of, IsPath};

use snap_path::limits::MAX_PATH_BYTES;
use snap_path::{Name, NoMemory, Path, PathError};
use std::alloc::{AllocError, Global};
use std::marker::Model;

/// The text of a path. It takes one allocation, where a [`Path`] takes one more for each of its names; that of the root
/// takes none.
#[derive(Debug)]
pub struct PathText {
    // Empty for the root.
    text: String,
}

// By hand: a derived one is proved anew, part by part, wherever a value is let go.
impl Drop for PathText {
    fn drop(self) {
        let PathText { text: _ } = self;
    }
}

impl Model for PathText {
    ghost use Rattle.std.specs.Prelude.{◌≡◌, List, ℕ};
    ghost use Rattle.std.specs.String.{string_bytes};
    ghost use Rattle.snap_path.specs.Text.{path_names, IsHeld};

    ghost Value = { List (List ℕ) };

    ghost view = { λ p. path_names (string_bytes p.text) };

    ghost invariant = { λ p. IsHeld (string_bytes p.text) (path_names (string_bytes p.text)) };
}

impl PathText {
    /// That of the root.
    pub(crate) fn root(alloc: Global) -> PathText
        ensures { result ≡ [] }
    {
        PathText {
            text: String::new(alloc),
        }
    }

    /// That of the path of these names.
    pub(crate) fn of(alloc: Global, names: &[Name]) -> Result<PathText, AllocError>
        requires { IsPath names.now }
        ensures { IfOk result (λ path. path ≡ names.now) }
    {
        let mut text = String::new(alloc);
        for name in names {
            text.push('/')?;
            text.push_str(name.as_str())?;
        }
        Ok(PathText { text })
    }

    /// That of the entry of this name in the directory: one copy of its text. `BadPath` where it would be longer than
    /// 4095 bytes.
    #[tactic(auto, using(snap_path::proofs::Texts::text_below_push_length))]
    pub(crate) fn join(&self, alloc: Global, name: &Name) -> Result<PathText, PathError>
        ensures ok { IfOk result (λ path. path ≡ self.now ++ name.now ∷ []) }
        ensures bad { IsErrOf result PathError.BadPath ↔ (most_path_bytes < length (text_below (self.now ++ name.now ∷ []))) }
    {
        if self.text.len() + 1 + name.as_str().len() > MAX_PATH_BYTES {
            return Err(PathError::BadPath);
        }
        Ok(self.joined(alloc, name)?)
    }

    /// The same where the text is short enough.
    fn joined(&self, alloc: Global, name: &Name) -> Result<PathText, AllocError>
        requires { length (text_below (self.now ++ name.now ∷ [])) ≤ most_path_bytes }
        ensures { IfOk result (λ path. path ≡ self.now ++ name.now ∷ []) }
    {
        let mut text = String::with_capacity(alloc, self.text.len() + 1 + name.as_str().len())?;
        text.push_str(self.text.as_str())?;
        text.push('/')?;
        text.push_str(name.as_str())?;
        Ok(PathText { text })
    }

    /// A copy.
    pub(crate) fn copy(&self, alloc: Global) -> Result<PathText, AllocError>
        ensures { IfOk result (λ path. path ≡ self.now) }
    {
        let text = String::from_str(alloc, self.text.as_str())?;
        Ok(PathText { text })
    }

    /// The path itself, of which each name takes an allocation.
    pub(crate) fn path(&self, alloc: Global) -> Result<Path, NoMemory>
        ensures { IfOk result (λ path. path ≡ self.now) }
    {
        prove!(self.text.len() <= MAX_PATH_BYTES);
        match Path::parse(alloc, self.as_str()) {
            Ok(path) => Ok(path),
            Err(PathError::BadPath) => unreachable!(),
            Err(PathError::OutOfMemory(no_memory)) => Err(no_memory),
        }
    }

    /// The text, lent: `/` for the root, and else each name after a `/`. It takes no memory, and its cost is constant.
    pub fn as_str(&self) -> &str
        ensures { result.now ≡ text_of self.now }
    {
        if self.text.is_empty() {
            "/"
        } else {
            self.text.as_str()
        }
    }
}
