//! The fields of lines.
ghost use Rattle.std.specs.Prelude.{◌≡◌, Some};
ghost use Rattle.std.specs.Fmt.{padded};
ghost use Rattle.snap_pieces.specs.Fields.{line_field_name};

use std::fmt;

/// A field of a line.
#[derive(Clone, Copy, Debug, PartialEq, Eq)]
pub enum LineField {
    Ancestors,
    Blocks,
    Bytes,
    Created,
    Digest,
    Entries,
    FirstId,
    /// `snapshot_id`: a line of any command may have an `id` of its client's.
    Id,
    Inodes,
    Journal,
    Key,
    Kind,
    LayerInodes,
    /// How many lines a store has.
    Lines,
    Mode,
    /// The most inodes of a layer.
    Most,
    Name,
    /// `ns`, a namespace's name.
    Namespace,
    /// The number of a layer's next file or symlink.
    Next,
    /// The id of a store's next snapshot.
    NextId,
    Number,
    Opaque,
    Parent,
    Path,
    Piece,
    Root,
    Sealed,
    Size,
    Slot,
    Slots,
    Target,
    Until,
    Updated,
    Value,
}

impl LineField {
    /// Its name in a line. Takes no memory. The cost is constant.
    pub fn name(self) -> &'static str
        ensures { result.now ≡ line_field_name self }
    {
        match self {
            LineField::Ancestors => "ancestors",
            LineField::Blocks => "blocks",
            LineField::Bytes => "bytes",
            LineField::Created => "created",
            LineField::Digest => "digest",
            LineField::Entries => "entries",
            LineField::FirstId => "first_id",
            LineField::Id => "snapshot_id",
            LineField::Inodes => "inodes",
            LineField::Journal => "journal",
            LineField::Key => "key",
            LineField::Kind => "kind",
            LineField::LayerInodes => "layer_inodes",
            LineField::Lines => "lines",
            LineField::Mode => "mode",
            LineField::Most => "most",
            LineField::Name => "name",
            LineField::Namespace => "ns",
            LineField::Next => "next",
            LineField::NextId => "next_id",
            LineField::Number => "number",
            LineField::Opaque => "opaque",
            LineField::Parent => "parent",
            LineField::Path => "path",
            LineField::Piece => "piece",
            LineField::Root => "root",
            LineField::Sealed => "sealed",
            LineField::Size => "size",
            LineField::Slot => "slot",
            LineField::Slots => "slots",
            LineField::Target => "target",
            LineField::Until => "until",
            LineField::Updated => "updated",
            LineField::Value => "value",
        }
    }
}

/// The name, padded as a `str` is.
impl fmt::Display for LineField {
    ghost output = { λ f. Some (line_field_name f) };

    ghost styled_output = { λ f style. Some (padded style (line_field_name f)) };

    fn fmt<W: fmt::Write>(&self, f: &mut fmt::Formatter<W>) -> fmt::Result {
        f.pad(self.name())
    }
}
