//! A layer as plain data, to be kept outside of the process and made again.
//!
//! Contracts say by `saved` which data a layer is saved as: its root, its other directories and its whiteouts in order of
//! their paths, its files and symlinks in order of their numbers, each with its names, the next number, and the most
//! inodes.
#![tactic(auto)]

mod dir;
mod error;
mod file;
mod gathering;
mod limits;
mod names;
mod order;
mod piece;
mod pieces;
mod restoring;
mod saved;
mod saving;

pub use dir::SavedDir;
pub use error::{Fault, Part, PieceError, RestoreError};
pub use file::SavedFile;
pub use gathering::Gathering;
pub use piece::{FileKind, Head, PIECE_BYTES, Piece};
pub use restoring::restore;
pub use saved::Saved;
pub use saving::save;
