//! How snapshots are mounted.
#![tactic(auto)]

mod mount;
mod table;

pub use mount::{Mount, MountKind};
pub use table::{MAX_ROOT_BYTES, is_root_text, mounts_of};
