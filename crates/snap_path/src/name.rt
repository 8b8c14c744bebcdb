ghost use Rattle.std.specs.Prelude.{◌≡◌, ◌↔◌, IfOk, IsErrOf, ℕ, List, Some, true, false};
ghost use Rattle.std.specs.Fmt.{padded};
ghost use Rattle.std.specs.String.{string_bytes};
ghost use Rattle.std.specs.List.{list_all};
ghost use Rattle.snap_path.specs.Memory.{no_memory};
ghost use Rattle.snap_path.specs.Text.{is_name, is_name_byte};

use super::limits::MAX_NAME_BYTES;
use super::memory::NoMemory;
use std::alloc::{AllocError, AllocFailed, Global};
use std::cmp::Ordering;
use std::fmt;
use std::marker::Model;
use thiserror::Error;

/// Why there is no path or name.
#[derive(Clone, Copy, Debug, PartialEq, Eq, Error)]
pub enum PathError {
    /// The text is no path or no name, or the path would be longer than 4095 bytes.
    #[error("invalid path")]
    BadPath,
    /// The allocator refused memory.
    #[error("out of memory")]
    OutOfMemory(NoMemory),
}

impl From<AllocError> for PathError {
    ghost use Rattle.snap_path.specs.declared.name.PathError.TheVariants.{OutOfMemory};

    ghost from_gives = { λ _ e. e ≡ OutOfMemory no_memory };

    fn from(refused: AllocError) -> PathError {
        PathError::OutOfMemory(refused.into())
    }
}

impl<T: Drop> From<AllocFailed<T>> for PathError {
    ghost use Rattle.snap_path.specs.declared.name.PathError.TheVariants.{OutOfMemory};

    ghost from_gives = { λ _ e. e ≡ OutOfMemory no_memory };

    fn from(failed: AllocFailed<T>) -> PathError {
        PathError::OutOfMemory(failed.into())
    }
}

/// One name of a path: UTF-8 of 1 to 255 bytes without NUL and `/`, and neither `.` nor `..`.
///
/// A contract sees it as its bytes. Names are ordered by their bytes. A comparison takes no memory,
/// and its cost grows with the shorter name. A clone takes memory for the bytes.
#[derive(Debug)]
pub struct Name {
    text: String,
}

// By hand: a derived one is proved anew, part by part, wherever a value is let go.
impl Drop for Name {
    fn drop(self) {
        let Name { text: _ } = self;
    }
}

impl Model for Name {
    ghost Value = { List ℕ };

    ghost view = { λ n. string_bytes n.text };

    ghost invariant = { λ n. is_name (string_bytes n.text) ≡ true };
}

impl Name {
    /// Reads a name.
    ///
    /// `BadPath` where the text is no name (path_resolution(7) forbids NUL and `/` in one, and gives
    /// `.` and `..` meanings of their own; NAME_MAX is 255), and `OutOfMemory` where the copy of the
    /// text is refused. Cost: one pass over the text, of which at most 256 bytes are read.
    pub fn parse(alloc: Global, text: &str) -> Result<Name, PathError>
        ensures ok { IfOk result (λ n. n ≡ text.now) }
        ensures bad { IsErrOf result PathError.BadPath ↔ (is_name text.now ≡ false) }
    {
        if !is_name_text(text) {
            return Err(PathError::BadPath);
        }
        Ok(Name::from_valid(alloc, text)?)
    }

    /// The name of a text that was tested.
    pub(crate) fn from_valid(alloc: Global, text: &str) -> Result<Name, AllocError>
        requires { is_name text.now ≡ true }
        ensures { IfOk result (λ n. n ≡ text.now) }
    {
        let text = String::from_str(alloc, text)?;
        Ok(Name { text })
    }

    /// The name's text, lent. It takes no memory, and its cost is constant.
    pub fn as_str(&self) -> &str
        ensures value { result.now ≡ self.now }
        ensures valid { is_name self.now ≡ true }
    {
        self.text.as_str()
    }
}

/// Whether a byte may stand in a name.
fn is_name_byte(byte: u8) -> bool
    ensures { result ≡ is_name_byte byte }
{
    byte != 0 && byte != b'/'
}

/// Whether a text is a name: the test that `Name::parse` and `Path::parse` make before they copy.
#[tactic(auto, using(std::proofs::lemmas::Bool::Decides::nat_tests))]
pub(crate) fn is_name_text(text: &str) -> bool
    ensures { result ≡ is_name text.now }
{
    if text == "." || text == ".." {
        return false;
    }
    let bytes = text.as_bytes();
    if bytes.is_empty() || bytes.len() > MAX_NAME_BYTES {
        return false;
    }
    are_name_bytes(bytes)
}

/// Whether each of the bytes may stand in a name.
fn are_name_bytes(bytes: &[u8]) -> bool
    ensures { result ≡ list_all is_name_byte bytes.now }
{
    bytes.iter().all(|b| is_name_byte(*b))
}

impl fmt::Display for Name {
    ghost output = { λ name. Some name };

    ghost styled_output = { λ name style. Some (padded style name) };

    fn fmt<W: fmt::Write>(&self, f: &mut fmt::Formatter<W>) -> fmt::Result {
        f.pad(self.as_str())
    }
}

impl Clone for Name {
    ghost is_clone = { λ a b. b ≡ a };

    fn clone(&self) -> Result<Name, AllocError> {
        Ok(Name {
            text: self.text.clone()?,
        })
    }
}

impl PartialEq for Name {
    ghost use Rattle.std.specs.Cmp.Lexicographic.{pointwise, nat_list_eq_equiv};
    ghost use Rattle.std.specs.Prelude.{nat_eq};
    ghost use Rattle.std.specs.Cmp.{partial_equiv_from_equiv};

    ghost eq = { pointwise nat_eq };

    ghost laws = { partial_equiv_from_equiv nat_list_eq_equiv };

    fn eq(&self, other: &Name) -> bool {
        self.text == other.text
    }
}

impl Eq for Name {
    ghost use Rattle.std.specs.Cmp.Lexicographic.{nat_list_eq_equiv};

    ghost laws = { nat_list_eq_equiv };
}

impl PartialOrd for Name {
    ghost use Rattle.std.specs.Cmp.Lexicographic.{slice_cmp, texts_po};
    ghost use Rattle.std.specs.Prelude.{Some};
    ghost use Rattle.std.specs.Ordering.{nat_cmp};

    ghost partial_cmp = { λ a b. Some (slice_cmp nat_cmp a b) };

    ghost laws = { texts_po };

    fn partial_cmp(&self, other: &Name) -> Option<Ordering> {
        Some(self.cmp(other))
    }
}

impl Ord for Name {
    ghost use Rattle.std.specs.Cmp.Lexicographic.{slice_cmp, nat_list_cmp_total, texts_ties};
    ghost use Rattle.std.specs.Prelude.{refl};
    ghost use Rattle.std.specs.Ordering.{nat_cmp};

    ghost cmp = { slice_cmp nat_cmp };

    ghost total = { nat_list_cmp_total };

    ghost matches_partial_cmp = { λ a b. refl };

    ghost matches_eq = { texts_ties };

    fn cmp(&self, other: &Name) -> Ordering {
        self.text.cmp(&other.text)
    }
}
