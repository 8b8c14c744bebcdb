//! The lines of an input, one after another: each is handed to what takes it, and its text is written to
//! an output.
//!
//! What is written, and what becomes of what takes the lines, is one definition, `transcript` in
//! `specs/Transcripts.antt`, a recursion over the lines. It stands over what one line makes of a value,
//! which an impl of `TakeLine` says.
#![tactic(auto)]

mod keep;
mod read;
mod reader;
mod stop;
mod take;

pub use keep::KeepLine;
pub use read::{MAX_BYTES, read_lines};
pub use reader::write_bytes;
pub use stop::{LineFault, Stop};
pub use take::TakeLine;
