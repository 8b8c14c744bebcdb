ghost use Rattle.std.specs.Prelude.{◌≡◌};
ghost use Rattle.std.specs.List.{list_all};
ghost use Rattle.snap_record.specs.Filters.{has_label, is_kind_asked, is_match, is_same_kind, is_text_asked, no_filter};
ghost use Rattle.snap_record.specs.Records.{info_of};

use crate::info::Info;
use crate::kind::Kind;
use crate::labels::Labels;
use crate::record::Record;
use crate::sequence::Sequence;
use crate::text::Text;
use std::alloc::AllocError;

/// A label that a snapshot has to have.
#[derive(Debug, PartialEq, Eq)]
pub struct LabelFilter {
    /// The key that the label has to have.
    pub key: Text,
    /// The value that is asked for. `None` asks only that the label is there, with any value.
    pub value: Option<Text>,
}

// By hand: a derived one is proved anew, part by part, wherever a value is let go.
impl Drop for LabelFilter {
    fn drop(self) {
        let LabelFilter { key: _, value: _ } = self;
    }
}

impl Clone for LabelFilter {
    ghost is_clone = { λ a b. b ≡ a };

    fn clone(&self) -> Result<LabelFilter, AllocError> {
        Ok(LabelFilter {
            key: self.key.clone()?,
            value: self.value.clone()?,
        })
    }
}

/// Which snapshots are asked for: those that have every part that is given. Parts may be of any
/// form, and a filter without parts asks for all snapshots.
#[derive(Debug, PartialEq, Eq)]
pub struct Filter {
    /// The key of an active snapshot or a view, the name of a committed snapshot.
    pub name: Option<Text>,
    /// `Some` of the empty text asks for snapshots without a parent.
    pub parent: Option<Text>,
    /// What the snapshot has to be.
    pub kind: Option<Kind>,
    /// The labels that the snapshot has to have, all of them.
    pub labels: Sequence<LabelFilter>,
}

// By hand: a derived one is proved anew, part by part, wherever a value is let go.
impl Drop for Filter {
    fn drop(self) {
        let Filter {
            name: _,
            parent: _,
            kind: _,
            labels: _,
        } = self;
    }
}

impl Clone for Filter {
    ghost is_clone = { λ a b. b ≡ a };

    fn clone(&self) -> Result<Filter, AllocError> {
        Ok(Filter {
            name: self.name.clone()?,
            parent: self.parent.clone()?,
            kind: self.kind,
            labels: self.labels.clone()?,
        })
    }
}

impl Filter {
    /// Leaves no part, so that all snapshots are asked for. Takes no memory, and gives that of the parts back.
    pub fn clear(&mut self)
        ensures { self.new ≡ no_filter }
    {
        self.name = None;
        self.parent = None;
        self.kind = None;
        self.labels.clear();
    }
}

/// Whether the snapshot has every part of the filter. Takes no memory. Its cost grows with the
/// filter's labels and with the bytes that are compared.
pub fn matches(info: &Info, filter: &Filter) -> bool
    ensures { result ≡ is_match info.now filter.now }
{
    asks_text(&filter.name, &info.name)
        && asks_text(&filter.parent, &info.parent)
        && asks_kind(&filter.kind, info.kind)
        && has_labels(&info.labels, filter.labels.as_slice())
}

impl Record {
    /// Whether the snapshot has every part of the filter, as [`matches`] tells it of the snapshot's
    /// info. Takes no memory: no info is made. Its cost is that of [`matches`].
    pub fn matches(&self, filter: &Filter) -> bool
        ensures { result ≡ is_match (info_of self.now) filter.now }
    {
        asks_text(&filter.name, &self.key)
            && asks_text(&filter.parent, &self.parent)
            && asks_kind(&filter.kind, self.content.kind())
            && has_labels(&self.labels, filter.labels.as_slice())
    }
}

fn asks_text(part: &Option<Text>, text: &Text) -> bool
    ensures { result ≡ is_text_asked part.now text.now }
{
    match part {
        None => true,
        Some(wanted) => text.as_str() == wanted.as_str(),
    }
}

fn asks_kind(part: &Option<Kind>, kind: Kind) -> bool
    ensures { result ≡ is_kind_asked part.now kind }
{
    match part {
        None => true,
        Some(wanted) => is_same_kind(kind, *wanted),
    }
}

fn is_same_kind(a: Kind, b: Kind) -> bool
    ensures { result ≡ is_same_kind a b }
{
    match (a, b) {
        (Kind::View, Kind::View) => true,
        (Kind::Active, Kind::Active) => true,
        (Kind::Committed, Kind::Committed) => true,
        _ => false,
    }
}

fn has_labels(labels: &Labels, filters: &[LabelFilter]) -> bool
    ensures { result ≡ list_all (has_label labels.now) filters.now }
{
    filters.iter().all(|filter| has_label(labels, filter))
}

fn has_label(labels: &Labels, filter: &LabelFilter) -> bool
    ensures { result ≡ has_label labels.now filter.now }
{
    match labels.get(&filter.key) {
        None => false,
        Some(value) => asks_text(&filter.value, value),
    }
}
