//! Sessions of a store with their tapes, and the comparison of the tapes with the journal.
#![tactic(auto)]

mod check;
mod count;
mod indexes;
mod mismatch;
mod session;

pub use check::{SessionsFault, check_sessions};
pub use count::TapeCount;
pub use mismatch::{Mismatch, first_mismatch};
pub use session::Session;
