// The committed ancestors of a snapshot.
ghost use Rattle.std.specs.Prelude.{◌≡◌, false, [], ◌++◌, IfOk, OnOk, IsSome, is_some, unwrap_or, option_copied, option_to_list};
ghost use Rattle.snap_call.specs.Records.{is_committed, committed_at};
ghost use Rattle.snap_call.specs.State.{chain_from, ancestors, ids_of, layer_of, layers_of, is_present, is_base, is_too_deep, most_ancestors};

use crate::limits::MAX_ANCESTORS;
use crate::records::Records;
use snap_layer::Shared;
use snap_record::{Content, Record, Sequence};
use std::alloc::{AllocError, Global};

/// The committed ancestors of a snapshot, nearest first.
#[derive(Drop)]
pub struct Chain {
    pub ids: Sequence<u32>,
    pub layers: Sequence<Shared>,
}

/// Whether the snapshot is a committed one. Takes no memory.
pub fn is_committed(snapshot: &Record) -> bool
    ensures { result ≡ is_committed snapshot.now.content }
{
    match &snapshot.content {
        Content::View { .. } => false,
        Content::Active { .. } => false,
        Content::Committed { .. } => true,
    }
}

// Puts the layer of a committed record last.
fn put_layer(content: &Content, layers: &mut Sequence<Shared>) -> Result<(), AllocError>
    ensures { OnOk result (layers.new ≡ layers.old ++ option_to_list (layer_of content.now)) }
{
    if let Content::Committed { layer, .. } = content {
        layers.push(layer.again()?)?;
    }
    Ok(())
}

impl Records {
    /// The committed snapshot of this name in the namespace at the place. Takes no memory.
    pub fn committed_at(&self, place: usize, name: &str) -> Option<&Record>
        ensures { option_copied result ≡ committed_at place name.now self.now }
    {
        match self.record_at(place, name) {
            Some(record) if is_committed(record) => Some(record),
            _ => None,
        }
    }

    /// Whether the parent is the empty text, or the namespace at the place has a snapshot of this key.
    /// Takes no memory.
    pub fn is_present(&self, place: usize, parent: &str) -> bool
        ensures { result ≡ is_present place parent.now self.now }
    {
        parent.is_empty() || self.has_key(place, parent)
    }

    /// Whether the parent is the empty text, or the name of a committed snapshot of the namespace at
    /// the place. Takes no memory.
    pub fn is_base(&self, place: usize, parent: &str) -> bool
        ensures { result ≡ is_base place parent.now self.now }
    {
        parent.is_empty() || self.committed_at(place, parent).is_some()
    }

    // Whether a snapshot on the parent has at most `most` committed ancestors, and all are there.
    fn has_chain(&self, most: u64, place: usize, parent: &str) -> bool
        ensures { result ≡ is_some (chain_from most self.now place parent.now) }
    {
        if parent.is_empty() {
            return true;
        }
        if most == 0 {
            return false;
        }
        match self.committed_at(place, parent) {
            Some(record) => self.has_chain(most - 1, place, record.parent.as_str()),
            None => false,
        }
    }

    /// Whether a snapshot on the parent would have more than `most` committed ancestors. Takes no
    /// memory. It searches the records once for each ancestor.
    pub fn is_too_deep(&self, most: u64, place: usize, parent: &str) -> bool
        ensures { result ≡ is_too_deep most place parent.now self.now }
    {
        !self.has_chain(most, place, parent)
    }

    // Puts the ancestors' ids last.
    fn put_ids(
        &self,
        most: u64,
        place: usize,
        parent: &str,
        ids: &mut Sequence<u32>,
    ) -> Result<(), AllocError>
        requires { IsSome (chain_from most self.now place parent.now) }
        ensures { OnOk result (ids.new ≡ ids.old ++ ids_of (unwrap_or (chain_from most self.now place parent.now) [])) }
    {
        if parent.is_empty() || most == 0 {
            return Ok(());
        }
        let Some(ancestor) = self.committed_at(place, parent) else {
            return Ok(());
        };
        ids.push(ancestor.id)?;
        self.put_ids(most - 1, place, ancestor.parent.as_str(), ids)
    }

    /// The ids of the committed ancestors of a snapshot on the parent, nearest first. It searches the
    /// records once for each.
    pub fn chain_ids(
        &self,
        alloc: Global,
        place: usize,
        parent: &str,
    ) -> Result<Sequence<u32>, AllocError>
        requires { is_too_deep most_ancestors place parent.now self.now ≡ false }
        ensures { IfOk result (λ ids. ids ≡ ids_of (ancestors place parent.now self.now)) }
    {
        let mut ids = Sequence::new(alloc);
        self.put_ids(MAX_ANCESTORS, place, parent, &mut ids)?;
        Ok(ids)
    }

    // Puts the ancestors last.
    fn put_chain(
        &self,
        most: u64,
        place: usize,
        parent: &str,
        chain: &mut Chain,
    ) -> Result<(), AllocError>
        requires { IsSome (chain_from most self.now place parent.now) }
        ensures ids { OnOk result (chain.new.ids ≡ chain.old.ids ++ ids_of (unwrap_or (chain_from most self.now place parent.now) [])) }
        ensures layers { OnOk result (chain.new.layers ≡ chain.old.layers ++ layers_of (unwrap_or (chain_from most self.now place parent.now) [])) }
    {
        if parent.is_empty() || most == 0 {
            return Ok(());
        }
        let Some(record) = self.committed_at(place, parent) else {
            return Ok(());
        };
        chain.ids.push(record.id)?;
        put_layer(&record.content, &mut chain.layers)?;
        self.put_chain(most - 1, place, record.parent.as_str(), chain)
    }

    /// The committed ancestors of a snapshot on the parent: their ids, and their layers, which are not
    /// copied. It searches the records once for each.
    pub fn chain(&self, alloc: Global, place: usize, parent: &str) -> Result<Chain, AllocError>
        requires { is_too_deep most_ancestors place parent.now self.now ≡ false }
        ensures ids { IfOk result (λ chain. chain.ids ≡ ids_of (ancestors place parent.now self.now)) }
        ensures layers { IfOk result (λ chain. chain.layers ≡ layers_of (ancestors place parent.now self.now)) }
    {
        let mut chain = Chain {
            ids: Sequence::new(alloc),
            layers: Sequence::new(alloc),
        };
        self.put_chain(MAX_ANCESTORS, place, parent, &mut chain)?;
        Ok(chain)
    }
}
