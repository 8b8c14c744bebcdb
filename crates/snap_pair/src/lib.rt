//! A log in two files, of which one counts, so that further lines can take the place of all before, once one byte is on
//! the disk.
//!
//! The second file counts where it has a line, else the first one. Lines that are to take the place of the others are
//! written into the file that doesn't count, in parts, while further ones are added to the one that does; then one byte
//! is written.
#![tactic(auto)]

mod error;
mod finish;
mod halves;
mod pair;
mod replacing;

pub use error::{Failed, PairUnopened, ReplaceFailed, Which};
pub use halves::Halves;
pub use pair::Pair;
pub use replacing::{Replacing, ReplacingParts};
