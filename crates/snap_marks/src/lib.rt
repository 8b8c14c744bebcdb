//! Marks of a log: lines that have the sum of the lines before them, and of the answers that these had.
//!
//! A sum goes on with each line, and with each answer: it is the SHA-256 of the sum before and of the bytes that come
//! next. Whoever reads the lines again and carries them out computes both anew, and finds at each mark whether they are
//! the lines that were written, and whether their answers are those that were given.
#![tactic(auto)]

mod mark;
mod sums;

pub use mark::{chained_lines, is_continued, is_mark};
pub use sums::{Difference, Differs, Sums};
