use super::dir::SavedDir;
use super::file::SavedFile;
use snap_layer::Meta;
use snap_path::Path;
use std::marker::Model;

/// A layer as plain data, of which nothing is tested. Contracts see it as a `SavedValue`; which one a layer has, `saved`
/// says.
#[derive(Debug, Drop)]
pub struct Saved {
    /// The mode of the root.
    pub meta: Meta,
    /// Whether the root is opaque.
    pub opaque: bool,
    /// The other directories, in order of their paths.
    pub dirs: Vec<SavedDir>,
    /// The paths of the whiteouts, in order.
    pub whiteouts: Vec<Path>,
    /// The files and symlinks, in order of their numbers.
    pub files: Vec<SavedFile>,
    /// The number that the next file or symlink gets.
    pub next: u32,
    /// The most inodes that the layer may have.
    pub most: usize,
}

impl Model for Saved {
    ghost use Rattle.snap_saved.specs.Values.{SavedValue};

    ghost Value = { SavedValue };

    ghost view = { λ s. record { meta = s.meta; opaque = s.opaque; dirs = s.dirs.items; whiteouts = s.whiteouts.items; files = s.files.items; next = s.next; most = s.most } };
}
