//! A layer of a file system in memory: directories, files with hard links, symlinks, whiteouts and opaque directories.
//!
//! A layer is what overlayfs keeps in one lower or upper directory (overlayfs.rst). Contracts see a
//! [`Layer`] as a `Tree`: the list of its paths in order, the list of its files' bodies in order of
//! their numbers, the number of its next file, and the most inodes that it may have. Each edit is one change of these
//! lists.
//!
//! It is kept as a table of inodes, whose directories have entries by name: `specs/Walk.antt` says what stands
//! at a path of it, and `specs/Holds.antt` which `Tree` it is.
#![tactic(auto)]

mod bytes;
mod chain;
mod content;
mod dir;
mod edit;
mod edits;
mod error;
mod inode;
mod layer;
mod node;
mod rows;
mod shared;
mod table;
mod totals;
mod walk;

pub use bytes::Edit;
pub use content::Content;
pub use dir::Dir;
pub use error::LayerError;
pub use layer::Layer;
pub use node::{Body, Bytes, Meta, Node};
pub use shared::Shared;
