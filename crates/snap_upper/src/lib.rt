//! File operations on the upper layer of a stack of layers.
//!
//! The rules are those of overlayfs (overlayfs.rst) for a process that may do anything. Contracts say
//! what an operation does by `after`: its first error, or the next upper layer.
#![tactic(auto)]

mod change;
mod checks;
mod names;
mod op;
mod rules;
mod upper;
mod usage;

pub use op::Op;
pub use snap_merge::FsError;
pub use upper::{Ready, apply, apply_within, perform_op, prepare_op};
pub use usage::{Planned, plan};
