//! The last part of a store that is gathered, with the pieces that it has yet.
ghost use Rattle.std.specs.Prelude.{◌≡◌, ◌⊎◌, IfErr, IfOk, IsErrOf, OnErr, OnOk, Ok, Err};
ghost use Rattle.snap_path.specs.Memory.{no_memory};
ghost use Rattle.snap_saved.specs.Pieces.{gathered_layer, with_piece};
ghost use Rattle.snap_checkpoint.specs.Gathered.{begun_content, begun_hand, begun_snapshot, content_closed, content_with, with_new_label, layer_fault, part_with_label, part_with_layer_piece, part_with_name, piece_fault, snapshot_closed, with_fault};
ghost use Rattle.snap_checkpoint.specs.declared.fault.StoreFault.{StoreFault as Fault};
ghost use Rattle.snap_checkpoint.specs.declared.fault.StoreFault.TheVariants.{OutOfMemory};

use crate::fault::StoreFault;
use snap_call::{Saved, SavedContent, SavedLease};
use snap_layer::{Layer, Shared};
use snap_pieces::{HandHead, SnapshotHead, SnapshotKind};
use snap_record::{Labels, MAX_LABELS, Text};
use snap_saved::{Gathering, Piece, RestoreError};
use snap_usage::Usage;
use snap_world::{SavedHand, SavedSnapshot};
use std::alloc::Global;

/// A hand, as far as the pieces of its layer have come.
#[derive(Debug, Drop)]
pub struct OpenHand {
    pub sealed: bool,
    pub layer: Gathering,
}

/// What a snapshot holds, as far as the pieces of its layer have come.
#[derive(Debug, Drop)]
pub enum OpenContent {
    View,
    Active {
        slot: u64,
        charged: Usage,
        hand: Option<OpenHand>,
    },
    Committed {
        layer: Gathering,
    },
}

/// A snapshot, as far as its pieces have come.
#[derive(Debug, Drop)]
pub struct OpenSnapshot {
    pub namespace: Text,
    pub key: Text,
    pub parent: Text,
    pub id: u32,
    pub created: u64,
    pub updated: u64,
    pub labels: Labels,
    pub content: OpenContent,
}

/// The last part: none before the first snapshot or lease.
#[derive(Debug, Drop)]
pub enum OpenPart {
    Nothing,
    Snapshot(OpenSnapshot),
    Lease(SavedLease),
}

impl OpenHand {
    fn begin(alloc: Global, head: HandHead) -> OpenHand
        ensures { result ≡ begun_hand head }
    {
        OpenHand {
            sealed: head.sealed,
            layer: Gathering::begin(alloc, head.layer),
        }
    }
}

// Puts a piece of a layer.
fn put_piece(layer: &mut Gathering, piece: Piece) -> Result<(), StoreFault>
    ensures ok { OnOk result (with_fault piece_fault (with_piece layer.old piece) ≡ Ok layer.new) }
    ensures first { (fault : Fault) → with_fault piece_fault (with_piece layer.old piece) ≡ Err fault → IsErrOf result fault }
    ensures err { OnErr result (layer.new ≡ layer.old) }
    ensures refused { IfErr result (λ fault. (with_fault piece_fault (with_piece layer.old piece) ≡ Err fault) ⊎ (fault ≡ OutOfMemory no_memory)) }
{
    layer.put(piece)?;
    Ok(())
}

// The layer of the snapshot at the place.
fn made(at: usize, layer: Gathering) -> Result<Layer, StoreFault>
    ensures ok { IfOk result (λ l. with_fault (layer_fault at) (gathered_layer layer) ≡ Ok l) }
    ensures refused { IfErr result (λ fault. (with_fault (layer_fault at) (gathered_layer layer) ≡ Err fault) ⊎ (fault ≡ OutOfMemory no_memory)) }
{
    match layer.restore() {
        Ok(layer) => Ok(layer),
        Err(RestoreError::Malformed(part, fault)) => Err(StoreFault::Layer(at, part, fault)),
        Err(RestoreError::OutOfMemory(no_memory)) => Err(StoreFault::OutOfMemory(no_memory)),
    }
}

// The same, to be shared.
fn made_shared(at: usize, layer: Gathering) -> Result<Shared, StoreFault>
    ensures ok { IfOk result (λ l. with_fault (layer_fault at) (gathered_layer layer) ≡ Ok l) }
    ensures refused { IfErr result (λ fault. (with_fault (layer_fault at) (gathered_layer layer) ≡ Err fault) ⊎ (fault ≡ OutOfMemory no_memory)) }
{
    match Shared::new(made(at, layer)?) {
        Ok(layer) => Ok(layer),
        Err((no_memory, _)) => Err(StoreFault::OutOfMemory(no_memory)),
    }
}

impl OpenContent {
    fn begin(alloc: Global, kind: SnapshotKind) -> OpenContent
        ensures { result ≡ begun_content kind }
    {
        match kind {
            SnapshotKind::View => OpenContent::View,
            SnapshotKind::Active {
                slot,
                charged,
                hand,
            } => OpenContent::Active {
                slot,
                charged,
                hand: match hand {
                    None => None,
                    Some(hand) => Some(OpenHand::begin(alloc, hand)),
                },
            },
            SnapshotKind::Committed { layer } => OpenContent::Committed {
                layer: Gathering::begin(alloc, layer),
            },
        }
    }

    // Puts a piece of its layer.
    fn put(&mut self, piece: Piece) -> Result<(), StoreFault>
        ensures ok { OnOk result (content_with self.old piece ≡ Ok self.new) }
        ensures first { (fault : Fault) → content_with self.old piece ≡ Err fault → IsErrOf result fault }
        ensures err { OnErr result (self.new ≡ self.old) }
        ensures refused { IfErr result (λ fault. (content_with self.old piece ≡ Err fault) ⊎ (fault ≡ OutOfMemory no_memory)) }
    {
        match self {
            OpenContent::View => Err(StoreFault::Misplaced),
            OpenContent::Active {
                slot: _,
                charged: _,
                hand,
            } => match hand {
                None => Err(StoreFault::Misplaced),
                Some(hand) => put_piece(&mut hand.layer, piece),
            },
            OpenContent::Committed { layer } => put_piece(layer, piece),
        }
    }

    // What the snapshot at the place holds, and its hand.
    fn close(self, at: usize) -> Result<(SavedContent, Option<SavedHand>), StoreFault>
        ensures ok { IfOk result (λ held. content_closed at self ≡ Ok held) }
        ensures refused { IfErr result (λ fault. (content_closed at self ≡ Err fault) ⊎ (fault ≡ OutOfMemory no_memory)) }
    {
        match self {
            OpenContent::View => Ok((SavedContent::View, None)),
            OpenContent::Active {
                slot,
                charged,
                hand,
            } => {
                let content = SavedContent::Active { slot, charged };
                match hand {
                    None => Ok((content, None)),
                    Some(hand) => {
                        let OpenHand { sealed, layer } = hand;
                        let layer = made(at, layer)?;
                        Ok((content, Some(SavedHand { layer, sealed })))
                    }
                }
            }
            OpenContent::Committed { layer } => {
                let layer = made_shared(at, layer)?;
                Ok((SavedContent::Committed { layer }, None))
            }
        }
    }
}

// Adds a label, of a key that isn't there yet.
fn add_label(labels: &mut Labels, key: Text, value: Text) -> Result<(), StoreFault>
    ensures ok { OnOk result (with_new_label labels.old key value ≡ Ok labels.new) }
    ensures first { (fault : Fault) → with_new_label labels.old key value ≡ Err fault → IsErrOf result fault }
    ensures err { OnErr result (labels.new ≡ labels.old) }
    ensures refused { IfErr result (λ fault. (with_new_label labels.old key value ≡ Err fault) ⊎ (fault ≡ OutOfMemory no_memory)) }
{
    if labels.get(&key).is_some() {
        return Err(StoreFault::LabelTwice);
    }
    if labels.len() >= MAX_LABELS {
        return Err(StoreFault::TooManyLabels);
    }
    labels.insert(key, value)?;
    Ok(())
}

impl OpenSnapshot {
    /// One that begins: it has neither labels nor pieces of a layer yet. Takes no memory.
    pub(crate) fn begin(alloc: Global, head: SnapshotHead) -> OpenSnapshot
        ensures { result ≡ begun_snapshot head }
    {
        let SnapshotHead {
            namespace,
            key,
            parent,
            id,
            created,
            updated,
            kind,
        } = head;
        OpenSnapshot {
            namespace,
            key,
            parent,
            id,
            created,
            updated,
            labels: Labels::new(alloc),
            content: OpenContent::begin(alloc, kind),
        }
    }

    /// The snapshot, which is at the place of the list. The errors, the memory and the cost are those of its layer.
    pub(crate) fn close(self, at: usize) -> Result<SavedSnapshot, StoreFault>
        ensures ok { IfOk result (λ s. snapshot_closed at self ≡ Ok s) }
        ensures refused { IfErr result (λ fault. (snapshot_closed at self ≡ Err fault) ⊎ (fault ≡ OutOfMemory no_memory)) }
    {
        let OpenSnapshot {
            namespace,
            key,
            parent,
            id,
            created,
            updated,
            labels,
            content,
        } = self;
        let (content, hand) = content.close(at)?;
        let saved = Saved {
            namespace,
            key,
            parent,
            id,
            labels,
            created,
            updated,
            content,
        };
        Ok(SavedSnapshot { saved, hand })
    }
}

impl OpenPart {
    /// Adds a label to the snapshot.
    pub(crate) fn add_label(&mut self, key: Text, value: Text) -> Result<(), StoreFault>
        ensures ok { OnOk result (part_with_label self.old key value ≡ Ok self.new) }
        ensures first { (fault : Fault) → part_with_label self.old key value ≡ Err fault → IsErrOf result fault }
        ensures err { OnErr result (self.new ≡ self.old) }
        ensures refused { IfErr result (λ fault. (part_with_label self.old key value ≡ Err fault) ⊎ (fault ≡ OutOfMemory no_memory)) }
    {
        match self {
            OpenPart::Snapshot(snapshot) => add_label(&mut snapshot.labels, key, value),
            OpenPart::Nothing | OpenPart::Lease(_) => Err(StoreFault::Misplaced),
        }
    }

    /// Puts a piece of the snapshot's layer.
    pub(crate) fn put_piece(&mut self, piece: Piece) -> Result<(), StoreFault>
        ensures ok { OnOk result (part_with_layer_piece self.old piece ≡ Ok self.new) }
        ensures first { (fault : Fault) → part_with_layer_piece self.old piece ≡ Err fault → IsErrOf result fault }
        ensures err { OnErr result (self.new ≡ self.old) }
        ensures refused { IfErr result (λ fault. (part_with_layer_piece self.old piece ≡ Err fault) ⊎ (fault ≡ OutOfMemory no_memory)) }
    {
        match self {
            OpenPart::Snapshot(snapshot) => snapshot.content.put(piece),
            OpenPart::Nothing | OpenPart::Lease(_) => Err(StoreFault::Misplaced),
        }
    }

    /// Adds a name to the lease.
    pub(crate) fn add_name(&mut self, name: Text) -> Result<(), StoreFault>
        ensures ok { OnOk result (part_with_name self.old name ≡ Ok self.new) }
        ensures first { (fault : Fault) → part_with_name self.old name ≡ Err fault → IsErrOf result fault }
        ensures err { OnErr result (self.new ≡ self.old) }
        ensures refused { IfErr result (λ fault. (part_with_name self.old name ≡ Err fault) ⊎ (fault ≡ OutOfMemory no_memory)) }
    {
        match self {
            OpenPart::Lease(lease) => {
                lease.names.push(name)?;
                Ok(())
            }
            OpenPart::Nothing | OpenPart::Snapshot(_) => Err(StoreFault::Misplaced),
        }
    }
}
