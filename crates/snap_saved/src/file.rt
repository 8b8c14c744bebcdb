use snap_layer::Body;
use snap_path::Path;
use std::marker::Model;

/// A file or symlink of a layer, as it is saved. Contracts see it as a `SavedFileValue`.
#[derive(Debug, Drop)]
pub struct SavedFile {
    /// Its number in the layer.
    pub number: u32,
    /// Its meta and content, or its target.
    pub body: Body,
    /// Its names, in order.
    pub names: Vec<Path>,
}

impl Model for SavedFile {
    ghost use Rattle.snap_saved.specs.Values.{SavedFileValue};

    ghost Value = { SavedFileValue };

    ghost view = { λ f. record { number = f.number; body = f.body; names = f.names.items } };
}
