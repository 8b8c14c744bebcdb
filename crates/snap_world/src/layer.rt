// A copy of an open snapshot's layer, and a layer in its place.
ghost use Rattle.std.specs.Prelude.{◌≡◌, IfErr, IfOk, IfSome, OnErr, OnOk};
ghost use Rattle.snap_world.specs.Layers.{MayHave, open_layer_at, with_layer};
ghost use Rattle.snap_world.specs.World.{Fits, hand_at};

use crate::world::World;
use snap_layer::Layer;
use snap_ledger::StoreName;
use std::alloc::AllocError;

impl<N: StoreName> World<N> {
    /// A copy of the layer of the slot's snapshot, which shares nothing with it. `None` where the slot isn't open, or
    /// its layer is sealed: a sealed one doesn't change.
    ///
    /// It leaves no entry, and fails only where memory is refused. Memory and cost are those of
    /// [`Layer::copy`](snap_layer::Layer::copy): the layer's inodes, names and bytes.
    pub fn copy_layer(&self, slot: u64) -> Result<Option<Layer>, AllocError>
        ensures copy { IfOk result (λ o. o ≡ open_layer_at slot self.now.hands) }
        // The hand may have it back.
        ensures may { IfOk result (λ o. IfSome o (λ layer. MayHave layer (hand_at slot self.now.hands))) }
        // What holds of every world.
        ensures fits { Fits self.now }
    {
        let Some(hand) = self.hands.get(slot) else {
            return Ok(None);
        };
        match hand.open_layer() {
            Some(layer) => Ok(Some(layer.copy()?)),
            None => Ok(None),
        }
    }

    /// Puts the layer in place of that of the slot's snapshot, which is dropped. Where the slot isn't open, its
    /// layer is sealed, or the snapshot's share doesn't cover the layer's count, the layer comes back, and the
    /// world is as it was.
    ///
    /// It is no step, and leaves no entry: records, shares and all other hands stay. Takes no memory. The cost is
    /// that of dropping a layer.
    pub fn put_layer(&mut self, slot: u64, layer: Layer) -> Result<(), Layer>
        ensures ok { OnOk result (self.new ≡ with_layer slot layer self.old) }
        ensures may { OnOk result (MayHave layer (hand_at slot self.old.hands)) }
        ensures back { IfErr result (λ back. back ≡ layer) }
        ensures same { OnErr result (self.new ≡ self.old) }
        ensures lacks { OnErr result (¬ MayHave layer (hand_at slot self.old.hands)) }
        ensures fits { Fits self.new }
    {
        self.hands.put_layer(slot, layer)
    }
}
