//! What a layer takes: its inodes, and its blocks of 4096 bytes.
//!
//! Contracts count over the paths of a layer. There is an inode for each directory, each whiteout,
//! and each file or symlink however many hard links name it (link(2)). There is a block for each
//! directory, and each file has the blocks of its bytes; a symlink and a whiteout have none. Every
//! whiteout counts, though the kernel links those of one mount to one inode.
#![tactic(auto)]

mod usage;

pub use usage::{Usage, blocks_of, count, difference, recount};
