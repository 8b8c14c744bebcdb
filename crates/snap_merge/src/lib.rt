//! What a stack of layers shows, as one file system.
//!
//! The rules are those of overlayfs (overlayfs.rst: "Upper and lower", "whiteouts and opaque
//! directories", "Multiple lower layers"). Contracts see a stack as the list of its layers, the top
//! one first, and say what each call shows by `seen`.
#![tactic(auto)]

mod error;
mod look;
mod names;
mod resolve;
mod row;
mod stack;
mod taken;

pub use error::FsError;
pub use look::{Seen, hides, is_dir, node_hides, show_are_layers, shown_at};
pub use stack::Stack;
