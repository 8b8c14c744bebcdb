use snap_layer::Meta;
use snap_path::Path;

/// A directory of a layer other than its root, as it is saved.
#[derive(Debug, Drop)]
pub struct SavedDir {
    /// Where it stands.
    pub path: Path,
    /// Its mode.
    pub meta: Meta,
    /// Whether it hides what the layers below have in it.
    pub opaque: bool,
}
