ghost use Rattle.std.specs.Prelude.{◌≡◌, Some};
ghost use Rattle.std.specs.Fmt.{padded};
ghost use Rattle.snap_record.specs.Kinds.{kind_word};

use std::fmt;

/// What a snapshot is, in the words of containerd's `snapshots.Kind`.
#[derive(Clone, Copy, Debug, PartialEq, Eq)]
pub enum Kind {
    /// A read-only snapshot, which can't be committed.
    View,
    /// A snapshot that is written to, until it is committed.
    Active,
    /// A snapshot that doesn't change any more and can be a parent.
    Committed,
}

impl Kind {
    /// The kind's word: `View`, `Active` or `Committed`. Takes no memory.
    pub fn as_str(&self) -> &'static str
        ensures { result.now ≡ kind_word self.now }
    {
        match self {
            Kind::View => "View",
            Kind::Active => "Active",
            Kind::Committed => "Committed",
        }
    }
}

/// The kind's word, padded as a `str` is.
impl fmt::Display for Kind {
    ghost output = { λ k. Some (kind_word k) };

    ghost styled_output = { λ k style. Some (padded style (kind_word k)) };

    fn fmt<W: fmt::Write>(&self, f: &mut fmt::Formatter<W>) -> fmt::Result {
        f.pad(self.as_str())
    }
}
