ghost use Rattle.std.specs.Prelude.{◌≡◌, [], List, ℕ, IfOk, OnOk, OnErr, IsTrue, ◌↔◌};
ghost use Rattle.std.specs.String.{string_bytes};
ghost use Rattle.snap_record.specs.Cut.{cut};

use std::alloc::{AllocError, Global};
use std::cmp::Ordering;
use std::fmt;
use std::hash::{Hash, Hasher};
use std::marker::Model;

/// A text of any length: a key, a name, a label, a path of labels. It keeps its allocator.
///
/// Contracts see its bytes. Texts are equal where their bytes are, and ordered by their bytes.
#[derive(Debug)]
pub struct Text {
    text: String,
}

// By hand: a derived one is proved anew, part by part, wherever a value is let go.
impl Drop for Text {
    fn drop(self) {
        let Text { text: _ } = self;
    }
}

impl Model for Text {
    ghost Value = { List ℕ };

    ghost view = { λ t. string_bytes t.text };
}

impl Text {
    /// The empty text. Takes no memory.
    pub fn new(alloc: Global) -> Text
        ensures { result ≡ [] }
    {
        Text {
            text: String::new(alloc),
        }
    }

    /// A copy of `text`. Fails only where memory is wanting. Its cost and its memory grow with the
    /// length of the text.
    pub fn copy_of(alloc: Global, text: &str) -> Result<Text, AllocError>
        ensures { IfOk result (λ t. t ≡ text.now) }
    {
        Ok(Text {
            text: String::from_str(alloc, text)?,
        })
    }

    /// Cuts a text of more than `most` bytes: its first `most` stay, one more, and the rest of that one's character, so
    /// that it is too long still. Takes memory only for these bytes; fails only where it is wanting, and then the text is
    /// as it was. The cost grows with them.
    #[tactic(auto, using(crate::proofs::CutLemmas::cut_within))]
    pub fn cut(&mut self, most: usize) -> Result<(), AllocError>
        ensures ok { OnOk result (self.new ≡ cut most self.old) }
        ensures err { OnErr result (self.new ≡ self.old) }
    {
        if self.as_str().len() > most {
            *self = self.cut_copy(most)?;
        }
        Ok(())
    }

    /// A copy of the text, cut.
    #[tactic(auto, using(crate::proofs::CutLemmas::cut_at, crate::proofs::CutLemmas::cut_within))]
    pub(crate) fn cut_copy(&self, most: usize) -> Result<Text, AllocError>
        ensures { IfOk result (λ text. text ≡ cut most self.now) }
    {
        let whole = self.as_str();
        if whole.len() <= most {
            return self.clone();
        }
        let (kept, _) = whole.split_at(whole.ceil_char_boundary(most + 1));
        Text::copy_of(*self.text.allocator(), kept)
    }

    /// The text, without a copy. Takes no memory. The cost is constant.
    pub fn as_str(&self) -> &str
        ensures { result.now ≡ self.now }
    {
        self.text.as_str()
    }

    /// Whether the text is the empty one. Takes no memory. The cost is constant.
    pub fn is_empty(&self) -> bool
        ensures { IsTrue result ↔ (self.now ≡ []) }
    {
        self.text.is_empty()
    }
}

/// The `String` as it is. Takes no memory.
impl From<String> for Text {
    ghost from_gives = { λ s t. t ≡ string_bytes s };

    fn from(text: String) -> Text {
        Text { text }
    }
}

/// A copy of the text. Its cost and its memory grow with the length of the text.
impl Clone for Text {
    ghost is_clone = { λ a b. b ≡ a };

    fn clone(&self) -> Result<Text, AllocError> {
        Ok(Text {
            text: self.text.clone()?,
        })
    }
}

impl PartialEq for Text {
    ghost use Rattle.std.specs.Cmp.Lexicographic.{pointwise, nat_list_eq_equiv};
    ghost use Rattle.std.specs.Prelude.{nat_eq};
    ghost use Rattle.std.specs.Cmp.{partial_equiv_from_equiv};

    ghost eq = { pointwise nat_eq };

    ghost laws = { partial_equiv_from_equiv nat_list_eq_equiv };

    fn eq(&self, other: &Text) -> bool {
        self.as_str() == other.as_str()
    }
}

impl Eq for Text {
    ghost use Rattle.std.specs.Cmp.Lexicographic.{nat_list_eq_equiv};

    ghost laws = { nat_list_eq_equiv };
}

impl PartialOrd for Text {
    ghost use Rattle.std.specs.Cmp.Lexicographic.{slice_cmp, texts_po};
    ghost use Rattle.std.specs.Prelude.{Some};
    ghost use Rattle.std.specs.Ordering.{nat_cmp};

    ghost partial_cmp = { λ a b. Some (slice_cmp nat_cmp a b) };

    ghost laws = { texts_po };

    fn partial_cmp(&self, other: &Text) -> Option<Ordering> {
        Some(self.cmp(other))
    }
}

impl Ord for Text {
    ghost use Rattle.std.specs.Cmp.Lexicographic.{slice_cmp, nat_list_cmp_total, texts_ties};
    ghost use Rattle.std.specs.Prelude.{refl};
    ghost use Rattle.std.specs.Ordering.{nat_cmp};

    ghost cmp = { slice_cmp nat_cmp };

    ghost total = { nat_list_cmp_total };

    ghost matches_partial_cmp = { λ a b. refl };

    ghost matches_eq = { texts_ties };

    fn cmp(&self, other: &Text) -> Ordering {
        self.as_str().cmp(other.as_str())
    }
}

impl Hash for Text {
    ghost use Rattle.std.specs.Hash as fed;
    ghost use Rattle.std.specs.Cmp.Rules.{hashing};
    ghost use Rattle.std.proofs.Common.{rules};

    ghost hash_input = { fed.str };

    ghost respects_eq = { Prim.search (hashing, rules) };

    fn hash<H: Hasher>(&self, state: &mut H) {
        self.as_str().hash(state);
    }
}

/// The text, padded as a `str` is.
impl fmt::Display for Text {
    ghost use Rattle.std.specs.Prelude.{Some};
    ghost use Rattle.std.specs.Fmt.{padded};

    ghost output = { λ t. Some t };

    ghost styled_output = { λ t style. Some (padded style t) };

    fn fmt<W: fmt::Write>(&self, f: &mut fmt::Formatter<W>) -> fmt::Result {
        f.pad(self.as_str())
    }
}
