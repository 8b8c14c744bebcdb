//! A saved layer a piece at a time.
use super::dir::SavedDir;
use snap_layer::{Bytes, Meta};
use snap_path::Path;

/// The most bytes of a file that a piece has.
pub const PIECE_BYTES: usize = 262_144;

/// What a saved layer has besides its pieces.
#[derive(Clone, Copy, Debug)]
pub struct Head {
    /// The mode of the root.
    pub meta: Meta,
    /// Whether the root is opaque.
    pub opaque: bool,
    /// The number that the next file or symlink gets.
    pub next: u32,
    /// The most inodes that the layer may have.
    pub most: usize,
}

/// What a saved file or symlink is, apart from its bytes and its names.
#[derive(Debug, Drop)]
pub enum FileKind {
    /// A regular file. Its bytes come in pieces of their own.
    Bytes {
        meta: Meta,
    },
    /// A regular file of a size, whose bytes aren't kept.
    Sized {
        meta: Meta,
        size: u64,
        digest: Option<Bytes>,
    },
    /// A symlink.
    Symlink {
        target: Bytes,
    },
}

/// A piece of a saved layer. Bytes and names are those of the file or symlink that was the last to begin.
#[derive(Debug, Drop)]
pub enum Piece {
    /// A directory.
    Dir(SavedDir),
    /// The path of a whiteout.
    Whiteout(Path),
    /// A file or symlink begins: its number, and what it is.
    File { number: u32, kind: FileKind },
    /// The next bytes of the file.
    Bytes(Bytes),
    /// The next name of the file or symlink.
    Name(Path),
}
