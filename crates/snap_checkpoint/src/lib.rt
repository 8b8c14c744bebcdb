//! A saved store in pieces, each of which fits a line, and the saved store that such pieces make.
//!
//! Contracts say by `store_pieces` which pieces a saved store has, and by `with_store_piece` what each adds to those before
//! it; by `store_lines` and `line_put` the same of its lines.
#![tactic(auto)]

mod fault;
mod gathering;
mod lines;
mod open;
mod pieces;
mod split;

pub use fault::StoreFault;
pub use gathering::StoreGathering;
pub use lines::{LineGathering, StoreLines};
pub use pieces::StorePieces;
