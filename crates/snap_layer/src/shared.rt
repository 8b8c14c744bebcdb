ghost use Rattle.std.specs.Prelude.{◌≡◌, IfOk, IfErr};
ghost use Rattle.snap_layer.specs.Layers.{IsLayer};

use super::layer::Layer;
use snap_path::NoMemory;
use std::alloc::AllocError;
use std::marker::Model;
use std::sync::Arc;

/// A layer that several stacks hold: it is not copied, and it does not change. Contracts see the layer.
#[derive(Debug)]
pub struct Shared {
    layer: Arc<Layer>,
}

// By hand: a derived one is proved anew, part by part, wherever a value is let go.
impl Drop for Shared {
    fn drop(self) {
        let Shared { layer: _ } = self;
    }
}

impl Model for Shared {
    ghost use Rattle.std.specs.Arc.{arc_value};
    ghost use Rattle.snap_layer.specs.Tree.{Tree};
    ghost use Rattle.snap_layer.specs.Layers.{IsLayer};

    ghost Value = { Tree };

    ghost view = { λ s. arc_value s.layer };

    ghost invariant = { λ s. IsLayer (arc_value s.layer) };
}

impl Shared {
    /// The layer, to be shared, in memory of its own allocator. Where that is refused it comes back unchanged. The cost
    /// is constant.
    pub fn new(layer: Layer) -> Result<Shared, (NoMemory, Layer)>
        ensures ok { IfOk result (λ s. s ≡ layer) }
        ensures err { IfErr result (λ back. back.1 ≡ layer) }
    {
        match Arc::new(layer.alloc(), layer) {
            Ok(layer) => Ok(Shared { layer }),
            Err(failed) => Err(NoMemory::with_value(failed)),
        }
    }

    /// One more holder of the same layer. The cost is constant.
    pub fn again(&self) -> Result<Shared, AllocError>
        ensures { IfOk result (λ s. s ≡ self.now) }
    {
        Ok(Shared {
            layer: self.layer.clone()?,
        })
    }

    /// The layer. The cost is constant, and it takes no memory.
    pub fn layer(&self) -> &Layer
        ensures value { result.now ≡ self.now }
        ensures layer { IsLayer self.now }
    {
        &self.layer
    }
}

/// As the layers. Takes no memory.
impl PartialEq for Shared {
    ghost use Rattle.std.specs.Prelude.{◌≡◌, ◌↔◌, IsTrue};
    ghost use Rattle.std.specs.Cmp.{partial_equiv_from_equiv};
    ghost use Rattle.snap_layer.specs.Equal.{tree_eq};
    ghost use Rattle.snap_layer.specs.Equal.{tree_eq_equiv};

    ghost eq = { tree_eq };

    ghost laws = { partial_equiv_from_equiv tree_eq_equiv };

    fn eq(&self, other: &Shared) -> bool
        ensures value { result ≡ tree_eq self.now other.now }
        ensures equal { IsTrue result ↔ (self.now ≡ other.now) }
    {
        self.layer() == other.layer()
    }
}

impl Eq for Shared {
    ghost use Rattle.snap_layer.specs.Equal.{tree_eq_equiv};

    ghost laws = { tree_eq_equiv };
}
