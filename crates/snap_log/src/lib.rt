//! A log of JSON lines in one file, which a person can read and no crash can tear.
//!
//! A line counts if it begins with an open brace and ends with a line feed. Behind the last one stands a closed gate, a
//! blank, in the place of the next one's brace. What follows that brace is written first, with the next closed gate behind
//! it, and synced; the brace is written last, and synced. So further lines count together, once one byte is on the disk.
#![tactic(auto)]

mod batch;
mod error;
mod lines;
mod log;
mod scan;
mod settle;
mod stage;

pub use batch::Batch;
pub use error::{AppendFailed, ClearFailed, OpenError, OpenFailed};
pub use lines::Lines;
pub use log::{Appending, Log};
