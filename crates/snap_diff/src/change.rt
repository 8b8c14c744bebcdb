ghost use Rattle.std.specs.Prelude.{◌≡◌};
ghost use Rattle.std.specs.Option.{option_map};
ghost use Rattle.snap_merge.specs.Objects.{object};
ghost use Rattle.snap_diff.specs.Changes.{change_at, change_word, same, same_content};

use crate::text::PathText;
use snap_layer::Content;
use snap_merge::Seen;

/// How what is seen at a path differs from what is seen there without the layer.
#[derive(Clone, Copy, Debug, PartialEq, Eq)]
pub enum ChangeKind {
    /// Without the layer nothing is seen.
    Added,
    /// Another object is seen: of another kind, or with another mode, content or target. A content of a size without a
    /// digest is another than each.
    Changed,
    /// With the layer nothing is seen.
    Removed,
}

impl ChangeKind {
    /// The change's word: `added`, `changed` or `removed`. Takes no memory.
    pub fn as_str(&self) -> &'static str
        ensures { result.now ≡ change_word self.now }
    {
        match self {
            ChangeKind::Added => "added",
            ChangeKind::Changed => "changed",
            ChangeKind::Removed => "removed",
        }
    }
}

/// What a layer changes at a path.
#[derive(Debug, Drop)]
pub struct Change {
    pub kind: ChangeKind,
    pub path: PathText,
}

/// Whether the two are known and equal.
fn same_content(content: &Content, others: &Content) -> bool
    ensures { result ≡ same_content content.now others.now }
{
    match (content, others) {
        (Content::Bytes(bytes), Content::Bytes(others)) => bytes == others,
        (
            Content::Sized {
                size,
                digest: Some(digest),
            },
            Content::Sized {
                size: other,
                digest: Some(others),
            },
        ) => *size == *other && digest == others,
        _ => false,
    }
}

/// Whether the two are one object.
fn same(old: Seen<'_>, new: Seen<'_>) -> bool
    ensures { result ≡ same (object old.entry) (object new.entry) }
{
    match (old, new) {
        (Seen::Dir { meta }, Seen::Dir { meta: other }) => meta == other,
        (
            Seen::File { meta, content },
            Seen::File {
                meta: other,
                content: others,
            },
        ) => meta == other && same_content(content, others),
        (Seen::Symlink { target }, Seen::Symlink { target: other }) => target == other,
        _ => false,
    }
}

/// How what is seen with the layer differs from what is seen without it.
pub(crate) fn change_at(old: Option<Seen<'_>>, new: Option<Seen<'_>>) -> Option<ChangeKind>
    ensures { result ≡ change_at (option_map object old.entry) (option_map object new.entry) }
{
    match (old, new) {
        (None, None) => None,
        (None, Some(_)) => Some(ChangeKind::Added),
        (Some(_), None) => Some(ChangeKind::Removed),
        (Some(old), Some(new)) if same(old, new) => None,
        (Some(_), Some(_)) => Some(ChangeKind::Changed),
    }
}
