//! Absolute paths, seen as lists of names.
//!
//! A path is `/`, or a `/` and names separated by one `/`. A name is 1 to 255 bytes of UTF-8
//! without NUL and `/`, and is neither `.` nor `..`; a path's text is at most 4095 bytes. So each
//! path has one text: there is no empty name, no closing `/` and nothing to resolve.
//!
//! Sources: path_resolution(7) for `/`, `.` and `..`, and `NAME_MAX` and `PATH_MAX` of limits.h for
//! the two limits (4095 bytes and the NUL that ends a C string). That a closing `/`, two `/` in a
//! row, `.` and `..` are refused, where Linux resolves them, and that a path is UTF-8, are limits of
//! this project.
#![tactic(auto)]

pub mod limits;
mod memory;
mod name;
mod path;

pub use memory::NoMemory;
pub use name::{Name, PathError};
pub use path::Path;
