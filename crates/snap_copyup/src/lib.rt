//! What a write to the upper layer of a stack copies up into it first.
//!
//! The rules are those of overlayfs (overlayfs.rst, "Non-directories"): before a file of a lower layer
//! changes, it is copied into the upper layer, and the directories above it are made there. Nothing
//! that is seen changes by it. Contracts see a layer as a `Tree`, the lower layers as a list of them,
//! the nearest first.
#![tactic(auto)]

mod lower;
mod parents;
mod undo;

pub use lower::{below, body_below, copy_up, is_pure, is_pure_over};
pub use parents::{Last, ensure_dirs, missing_dirs, missing_dirs_of_both, put};
pub use undo::{add_dirs, add_dirs_of_both, take_all};
