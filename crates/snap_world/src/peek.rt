// What a committed snapshot would show, and the layer of a snapshot with those of its ancestors.
ghost use Rattle.std.specs.Prelude.{◌≡◌, ◌∷◌, IfOk};
ghost use Rattle.std.specs.Option.{option_copied, option_map};
ghost use Rattle.snap_world.specs.Stacks.{own_layer, own_of, peeked_of};

use crate::hands::Hands;
use crate::world::World;
use snap_layer::{Layer, Shared};
use snap_ledger::StoreName;
use snap_record::{Content, Sequence};
use std::alloc::AllocError;

// The layer of a snapshot with this content; a view has none of its own.
fn own_layer<'a, N: StoreName>(hands: &'a Hands<N>, content: &'a Content) -> Option<&'a Layer>
    ensures { option_copied result ≡ own_layer hands.now content.now }
{
    match content {
        Content::View { .. } => None,
        Content::Active { slot, charged: _ } => match hands.get(*slot) {
            Some(hand) => Some(hand.layer()),
            None => None,
        },
        Content::Committed { layer, usage: _ } => Some(layer.layer()),
    }
}

impl<N: StoreName> World<N> {
    /// What the committed snapshot of this key would show: its layer, lent by the world, and the layers of its
    /// ancestors below it, nearest first, which are not copied. `None` where the store has no such namespace, the
    /// namespace no such snapshot, or this is active or a view: [`World::stack`] has what these show.
    ///
    /// It leaves no entry. Takes memory for the list of the ancestors' layers, and fails only where that is refused.
    /// The cost grows with the logarithm of the number of records, once for each ancestor.
    pub fn peek(
        &self,
        namespace: &str,
        key: &str,
    ) -> Result<Option<(&Layer, Sequence<Shared>)>, AllocError>
        ensures { IfOk result (λ o. option_map (λ p. p.0.now ∷ p.1) o ≡ peeked_of self.now namespace.now key.now) }
    {
        let Ok(found) = self.book.record(namespace, key) else {
            return Ok(None);
        };
        match &found.content {
            Content::View { .. } => Ok(None),
            Content::Active { .. } => Ok(None),
            Content::Committed { layer, usage: _ } => {
                let records = self.book.records();
                let chain = records.chain(
                    self.hands.alloc(),
                    found.namespace,
                    found.parent.as_str(),
                )?;
                Ok(Some((layer.layer(), chain.layers)))
            }
        }
    }

    /// The layer of the snapshot of this key, lent by the world, and the layers of its ancestors below it, nearest
    /// first, which are not copied: of an active one, sealed or not, and of a committed one. `None` where the store
    /// has no such namespace, the namespace no such snapshot, or this is a view, which has no layer of its own.
    ///
    /// It leaves no entry. Takes memory for the list of the ancestors' layers, and fails only where that is refused.
    /// The cost grows with the logarithm of the number of records, once for each ancestor.
    pub fn own(
        &self,
        namespace: &str,
        key: &str,
    ) -> Result<Option<(&Layer, Sequence<Shared>)>, AllocError>
        ensures { IfOk result (λ o. option_map (λ p. (p.0.now, p.1)) o ≡ own_of self.now namespace.now key.now) }
    {
        let Ok(found) = self.book.record(namespace, key) else {
            return Ok(None);
        };
        let Some(layer) = own_layer(&self.hands, &found.content) else {
            return Ok(None);
        };
        let chain = self
            .book
            .records()
            .chain(self.hands.alloc(), found.namespace, found.parent.as_str())?;
        Ok(Some((layer, chain.layers)))
    }
}
