//! The pieces of one part of a saved store.
ghost use Rattle.std.specs.Prelude.{◌≡◌, ◌++◌, [], map, IfOk, OnOk};
ghost use Rattle.std.specs.Option.{option_map, option_map_or};
ghost use Rattle.snap_saved.specs.Pieces.{head_of, pieces_of};
ghost use Rattle.snap_saved.specs.Saved.{saved};
ghost use Rattle.snap_world.specs.Saved.{saved_layer};
ghost use Rattle.snap_checkpoint.specs.Pieces.{hand_head, saved_kind, label_piece, lease_pieces, head_holding, snapshot_pieces};
ghost use Rattle.snap_pieces.specs.declared.piece.StorePiece.TheVariants as piece_kinds;

use snap_call::{Namespace, Saved, SavedContent, SavedLease};
use snap_layer::Layer;
use snap_pieces::{HandHead, SnapshotHead, SnapshotKind, StorePiece};
use snap_record::{Labels, Text};
use snap_saved::{Head, Piece, save};
use snap_world::SavedHand;
use std::alloc::{AllocError, Global};

// What the layer has besides its pieces, and these.
fn split_layer(alloc: Global, layer: &Layer) -> Result<(Head, Vec<Piece>), AllocError>
    ensures head { IfOk result (λ p. p.0 ≡ head_of (saved layer.now)) }
    ensures pieces { IfOk result (λ p. p.1.items ≡ pieces_of (saved layer.now)) }
{
    save(alloc, layer)?.into_pieces(alloc)
}

// The same of a hand.
fn split_hand(
    alloc: Global,
    hand: &Option<SavedHand>,
) -> Result<(Option<HandHead>, Vec<Piece>), AllocError>
    ensures head { IfOk result (λ p. p.0 ≡ option_map hand_head hand.now) }
    ensures pieces { IfOk result (λ p. p.1.items ≡ option_map_or (λ h. pieces_of (saved h.layer)) hand.now []) }
{
    let Some(hand) = hand else {
        return Ok((None, Vec::new(alloc)));
    };
    let (layer, pieces) = split_layer(alloc, &hand.layer)?;
    let sealed = hand.sealed;
    Ok((Some(HandHead { sealed, layer }), pieces))
}

// What the snapshot holds, and the pieces of its layer.
fn split_content(
    alloc: Global,
    content: &SavedContent,
    hand: &Option<SavedHand>,
) -> Result<(SnapshotKind, Vec<Piece>), AllocError>
    ensures kind { IfOk result (λ p. p.0 ≡ saved_kind content.now hand.now) }
    ensures pieces { IfOk result (λ p. p.1.items ≡ option_map_or (λ t. pieces_of (saved t)) (saved_layer content.now hand.now) []) }
{
    match content {
        SavedContent::View => Ok((SnapshotKind::View, Vec::new(alloc))),
        SavedContent::Active { slot, charged } => {
            let (slot, charged) = (*slot, *charged);
            let (hand, pieces) = split_hand(alloc, hand)?;
            let kind = SnapshotKind::Active {
                slot,
                charged,
                hand,
            };
            Ok((kind, pieces))
        }
        SavedContent::Committed { layer } => {
            let (layer, pieces) = split_layer(alloc, layer.layer())?;
            Ok((SnapshotKind::Committed { layer }, pieces))
        }
    }
}

// Adds the labels.
fn push_labels(labels: &Labels, pieces: &mut Vec<StorePiece>) -> Result<(), AllocError>
    ensures { OnOk result (pieces.new.items ≡ pieces.old.items ++ map label_piece labels.now) }
{
    for (key, value) in labels.as_slice() {
        pieces.push(StorePiece::Label {
            key: key.clone()?,
            value: value.clone()?,
        })?;
    }
    Ok(())
}

// Adds the pieces of a layer.
fn push_layer(layer: Vec<Piece>, pieces: &mut Vec<StorePiece>) -> Result<(), AllocError>
    ensures { OnOk result (pieces.new.items ≡ pieces.old.items ++ map piece_kinds.Layer layer.items) }
{
    for piece in layer {
        pieces.push(StorePiece::Layer(piece))?;
    }
    Ok(())
}

// The snapshot without its labels and the pieces of its layer, with what it holds.
fn snapshot_head(saved: &Saved, kind: SnapshotKind) -> Result<SnapshotHead, AllocError>
    ensures { IfOk result (λ head. head ≡ head_holding kind saved.now) }
{
    Ok(SnapshotHead {
        namespace: saved.namespace.clone()?,
        key: saved.key.clone()?,
        parent: saved.parent.clone()?,
        id: saved.id,
        created: saved.created,
        updated: saved.updated,
        kind,
    })
}

/// The pieces of a snapshot. Takes memory for them, with copies of its texts and of the bytes of its layer's files.
pub(crate) fn split_snapshot(
    alloc: Global,
    saved: &Saved,
    hand: &Option<SavedHand>,
) -> Result<Vec<StorePiece>, AllocError>
    ensures { IfOk result (λ pieces. pieces.items ≡ snapshot_pieces (record { saved = saved.now; hand = hand.now })) }
{
    let (kind, layer) = split_content(alloc, &saved.content, hand)?;
    let head = snapshot_head(saved, kind)?;
    let mut pieces = Vec::with_capacity(alloc, 1 + saved.labels.len() + layer.len())?;
    pieces.push(StorePiece::Snapshot(head))?;
    push_labels(&saved.labels, &mut pieces)?;
    push_layer(layer, &mut pieces)?;
    Ok(pieces)
}

// Adds the names.
fn push_names(names: &[Text], pieces: &mut Vec<StorePiece>) -> Result<(), AllocError>
    ensures { OnOk result (pieces.new.items ≡ pieces.old.items ++ map piece_kinds.Leased names.now) }
{
    for name in names {
        pieces.push(StorePiece::Leased(name.clone()?))?;
    }
    Ok(())
}

/// The pieces of a lease. Takes memory for them, with copies of its texts.
pub(crate) fn split_lease(alloc: Global, lease: &SavedLease) -> Result<Vec<StorePiece>, AllocError>
    ensures { IfOk result (λ pieces. pieces.items ≡ lease_pieces lease.now) }
{
    let mut pieces = Vec::new(alloc);
    pieces.push(StorePiece::Lease {
        namespace: lease.namespace.clone()?,
        name: lease.name.clone()?,
        until: lease.until,
    })?;
    push_names(lease.names.as_slice(), &mut pieces)?;
    Ok(pieces)
}

/// The pieces of places for namespaces. Takes memory for them, with copies of the names.
pub(crate) fn split_namespaces(
    alloc: Global,
    namespaces: &[Namespace],
) -> Result<Vec<StorePiece>, AllocError>
    ensures { IfOk result (λ pieces. pieces.items ≡ map piece_kinds.Namespace namespaces.now) }
{
    let mut pieces = Vec::with_capacity(alloc, namespaces.len())?;
    for namespace in namespaces {
        pieces.push(StorePiece::Namespace(namespace.clone()?))?;
    }
    Ok(pieces)
}
