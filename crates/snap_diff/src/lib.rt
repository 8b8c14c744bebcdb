//! What a layer changes of what the layers below it show.
//!
//! What is seen is that of overlayfs, as `snap_merge` has it. Contracts see a layer as a `Tree`, the lower layers as a
//! list of them, the nearest first, and say what is answered by `changes`.
#![tactic(auto)]

mod change;
mod own;
mod text;
mod walk;

pub use change::{Change, ChangeKind};
pub use text::PathText;
pub use walk::changes;
