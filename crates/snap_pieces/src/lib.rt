//! The pieces of a saved store, and the line of each: a command of a script, which makes the store again.
//!
//! Contracts say by `line_data` in `specs/Written.antt` which JSON a line is, and by `line_said` in `specs/Read.antt` what is
//! read of one.
#![tactic(auto)]

mod error;
mod field;
mod head;
mod layer;
mod line;
mod piece;
mod read;
mod values;
mod word;
mod write;

pub use error::LineError;
pub use field::LineField;
pub use line::Line;
pub use piece::{HandHead, SnapshotHead, SnapshotKind, StoreHead, StorePiece};
pub use read::read_line;
pub use write::write_line;
