//! The words of pieces.
ghost use Rattle.std.specs.Prelude.{◌≡◌};
ghost use Rattle.snap_pieces.specs.Words.{word_named};

/// What a line is, by the word of its field `piece`.
#[derive(Clone, Copy, Debug, PartialEq, Eq)]
pub enum Word {
    Bytes,
    Dir,
    End,
    File,
    Label,
    Lease,
    Leased,
    Name,
    Namespace,
    Sized,
    Snapshot,
    Store,
    Symlink,
    Whiteout,
}

impl Word {
    /// The word of this text, if it is one. Takes no memory. The cost grows with the text.
    pub(crate) fn named(text: &str) -> Option<Word>
        ensures { result ≡ word_named text.now }
    {
        match text {
            "bytes" => Some(Word::Bytes),
            "dir" => Some(Word::Dir),
            "end" => Some(Word::End),
            "file" => Some(Word::File),
            "label" => Some(Word::Label),
            "lease" => Some(Word::Lease),
            "leased" => Some(Word::Leased),
            "name" => Some(Word::Name),
            "namespace" => Some(Word::Namespace),
            "sized" => Some(Word::Sized),
            "snapshot" => Some(Word::Snapshot),
            "store" => Some(Word::Store),
            "symlink" => Some(Word::Symlink),
            "whiteout" => Some(Word::Whiteout),
            _ => None,
        }
    }
}
