//! The lines of heads: that of a store, and that of a snapshot.
ghost use Rattle.std.specs.Prelude.{◌≡◌, None, OnOk};
ghost use Rattle.std.specs.Option.{option_map};
ghost use Rattle.serde_json.specs.Data.{Members};
ghost use Rattle.snap_json.specs.Tokens.{with_members, with_value};
ghost use Rattle.snap_json.specs.View.{view};
ghost use Rattle.snap_pieces.specs.Back.{IsKind, IsLine, IsSmall, IsWide};
ghost use Rattle.snap_pieces.specs.declared.line.Line.TheVariants as line_kinds;
ghost use Rattle.snap_pieces.specs.Gives.{GivesLine};
ghost use Rattle.snap_pieces.specs.Read.{active_read, hand_head_read, store_read, kind_read, layer_head_read, maybe_read, snapshot_read};
ghost use Rattle.snap_pieces.specs.Written.{charged_in, first_members, head_data, kind_name, last_members, layer_in, next_members, sealed_in, active_slot, snapshot_data};
ghost use Rattle.snap_pieces.specs.declared.field.LineField.TheVariants as fields;

use crate::error::LineError;
use crate::field::LineField;
use crate::piece::{HandHead, SnapshotHead, SnapshotKind, StoreHead};
use crate::values::{
    flag, lent_text, meta, number, put_maybe_flag, put_maybe_number, put_number, put_small,
    put_text, small, text, usage,
};
use snap_json::{Token, Value, Writer};
use snap_record::Kind;
use snap_saved::Head;
use std::alloc::{AllocError, Global};

pub(crate) fn read_head(alloc: Global, line: &Value<'_>) -> Result<StoreHead, LineError>
    ensures { GivesLine result (store_read (view line.now)) }
{
    Ok(StoreHead {
        root: text(alloc, LineField::Root, line)?,
        slots: number(LineField::Slots, line)?,
        journal: number(LineField::Journal, line)?,
        first_id: small(LineField::FirstId, line)?,
        layer_inodes: number(LineField::LayerInodes, line)?,
        ancestors: number(LineField::Ancestors, line)?,
        entries: number(LineField::Entries, line)?,
        next_id: number(LineField::NextId, line)?,
    })
}

pub(crate) fn write_head(out: &mut Writer, head: &StoreHead) -> Result<(), AllocError>
    ensures written { OnOk result (out.new ≡ with_value (head_data head.now) out.old) }
    ensures is { OnOk result (IsLine (line_kinds.Head head.now)) }
{
    out.token(Token::BeginObject)?;
    put_number(out, "ancestors", head.ancestors)?;
    put_text(out, "do", "restore")?;
    put_number(out, "entries", head.entries)?;
    put_small(out, "first_id", head.first_id)?;
    put_number(out, "journal", head.journal)?;
    put_number(out, "layer_inodes", head.layer_inodes)?;
    put_number(out, "next_id", head.next_id)?;
    put_text(out, "piece", "store")?;
    put_text(out, "root", head.root.as_str())?;
    put_number(out, "slots", head.slots)?;
    out.token(Token::EndObject)
}

/// The head of a layer.
fn layer_head(line: &Value<'_>) -> Result<Head, LineField>
    ensures { result ≡ layer_head_read (view line.now) }
{
    let meta = meta(line)?;
    let opaque = flag(LineField::Opaque, line)?;
    let next = small(LineField::Next, line)?;
    let most = number(LineField::Most, line)? as usize;
    Ok(Head {
        meta,
        opaque,
        next,
        most,
    })
}

/// The head of a hand, where the line says whether it is sealed.
fn hand_head(line: &Value<'_>) -> Result<Option<HandHead>, LineField>
    ensures { result ≡ maybe_read hand_head_read fields.Sealed (view line.now) }
{
    if line.get(LineField::Sealed.name()).is_none() {
        return Ok(None);
    }
    let sealed = flag(LineField::Sealed, line)?;
    let layer = layer_head(line)?;
    Ok(Some(HandHead { sealed, layer }))
}

fn active(line: &Value<'_>) -> Result<SnapshotKind, LineField>
    ensures { result ≡ active_read (view line.now) }
{
    let slot = number(LineField::Slot, line)?;
    let charged = usage(line)?;
    let hand = hand_head(line)?;
    Ok(SnapshotKind::Active {
        slot,
        charged,
        hand,
    })
}

/// What a snapshot holds.
fn kind(line: &Value<'_>) -> Result<SnapshotKind, LineError>
    ensures { GivesLine result (kind_read (view line.now)) }
{
    match lent_text(LineField::Kind, line)? {
        "View" => Ok(SnapshotKind::View),
        "Active" => Ok(active(line)?),
        "Committed" => {
            let layer = layer_head(line)?;
            Ok(SnapshotKind::Committed { layer })
        }
        _ => Err(LineError::BadField(LineField::Kind)),
    }
}

pub(crate) fn read_snapshot(alloc: Global, line: &Value<'_>) -> Result<SnapshotHead, LineError>
    ensures { GivesLine result (snapshot_read (view line.now)) }
{
    Ok(SnapshotHead {
        namespace: text(alloc, LineField::Namespace, line)?,
        key: text(alloc, LineField::Key, line)?,
        parent: text(alloc, LineField::Parent, line)?,
        id: small(LineField::Id, line)?,
        created: number(LineField::Created, line)?,
        updated: number(LineField::Updated, line)?,
        kind: kind(line)?,
    })
}

/// The word of its kind.
fn word(kind: SnapshotKind) -> &'static str
    ensures { result.now ≡ kind_name kind }
{
    match kind {
        SnapshotKind::View => Kind::View.as_str(),
        SnapshotKind::Active { .. } => Kind::Active.as_str(),
        SnapshotKind::Committed { .. } => Kind::Committed.as_str(),
    }
}

/// What a line has of a layer's head.
#[derive(Clone, Copy)]
struct HeadParts {
    mode: Option<u64>,
    most: Option<u64>,
    next: Option<u64>,
    opaque: Option<bool>,
}

fn head_parts(layer: Option<Head>) -> HeadParts
    ensures mode { result.mode ≡ option_map (λ l. l.meta.mode) layer }
    ensures most { result.most ≡ option_map (λ l. l.most) layer }
    ensures next { result.next ≡ option_map (λ l. l.next) layer }
    ensures opaque { result.opaque ≡ option_map (λ l. l.opaque) layer }
{
    match layer {
        Some(layer) => HeadParts {
            mode: Some(u64::from(layer.meta.mode)),
            most: Some(layer.most as u64),
            next: Some(u64::from(layer.next)),
            opaque: Some(layer.opaque),
        },
        None => HeadParts {
            mode: None,
            most: None,
            next: None,
            opaque: None,
        },
    }
}

/// What a line has of what a snapshot holds, beside its layer's head.
#[derive(Clone, Copy)]
struct KindParts {
    blocks: Option<u64>,
    inodes: Option<u64>,
    sealed: Option<bool>,
    slot: Option<u64>,
    layer: Option<Head>,
}

fn kind_parts(kind: SnapshotKind) -> KindParts
    ensures blocks { result.blocks ≡ option_map (λ u. u.blocks) (charged_in kind) }
    ensures inodes { result.inodes ≡ option_map (λ u. u.inodes) (charged_in kind) }
    ensures sealed { result.sealed ≡ sealed_in kind }
    ensures slot { result.slot ≡ active_slot kind }
    ensures layer { result.layer ≡ layer_in kind }
    ensures is { IsKind kind }
{
    let (slot, charged, hand) = match kind {
        SnapshotKind::Active {
            slot,
            charged,
            hand,
        } => (slot, charged, hand),
        SnapshotKind::View => return no_parts(None),
        SnapshotKind::Committed { layer } => return no_parts(Some(layer)),
    };
    KindParts {
        blocks: Some(charged.blocks),
        inodes: Some(charged.inodes),
        sealed: match hand {
            Some(hand) => Some(hand.sealed),
            None => None,
        },
        slot: Some(slot),
        layer: match hand {
            Some(hand) => Some(hand.layer),
            None => None,
        },
    }
}

/// Those of one that isn't active.
fn no_parts(layer: Option<Head>) -> KindParts
    ensures { result ≡ record { blocks = None; inodes = None; sealed = None; slot = None; layer = layer } }
{
    KindParts {
        blocks: None,
        inodes: None,
        sealed: None,
        slot: None,
        layer,
    }
}

/// The first members, up to the word of its kind.
#[tactic(auto, using(crate::proofs::Members::with_members_maybe))]
fn put_first(out: &mut Writer, head: &SnapshotHead) -> Result<(), AllocError>
    ensures written { (rest : Members) → OnOk result (with_members (first_members head.now rest) out.old ≡ with_members rest out.new) }
    ensures is { OnOk result (IsKind head.now.kind × IsWide head.now.created) }
{
    let kind = kind_parts(head.kind);
    put_maybe_number(out, "blocks", kind.blocks)?;
    put_number(out, "created", head.created)?;
    put_text(out, "do", "restore")?;
    put_maybe_number(out, "inodes", kind.inodes)?;
    put_text(out, "key", head.key.as_str())?;
    put_text(out, "kind", word(head.kind))?;
    Ok(())
}

/// The next ones: its layer's head, its namespace and its parent.
#[tactic(auto, using(crate::proofs::Members::with_members_maybe))]
fn put_next(out: &mut Writer, head: &SnapshotHead) -> Result<(), AllocError>
    ensures { (rest : Members) → OnOk result (with_members (next_members head.now rest) out.old ≡ with_members rest out.new) }
{
    let layer = head_parts(kind_parts(head.kind).layer);
    put_maybe_number(out, "mode", layer.mode)?;
    put_maybe_number(out, "most", layer.most)?;
    put_maybe_number(out, "next", layer.next)?;
    put_text(out, "ns", head.namespace.as_str())?;
    put_maybe_flag(out, "opaque", layer.opaque)?;
    put_text(out, "parent", head.parent.as_str())?;
    Ok(())
}

/// The last ones.
#[tactic(auto, using(crate::proofs::Members::with_members_maybe))]
fn put_last(out: &mut Writer, head: &SnapshotHead) -> Result<(), AllocError>
    ensures written { OnOk result (out.new ≡ with_members (last_members head.now) out.old) }
    ensures is { OnOk result (IsSmall head.now.id × IsWide head.now.updated) }
{
    let kind = kind_parts(head.kind);
    put_text(out, "piece", "snapshot")?;
    put_maybe_flag(out, "sealed", kind.sealed)?;
    put_maybe_number(out, "slot", kind.slot)?;
    put_small(out, "snapshot_id", head.id)?;
    put_number(out, "updated", head.updated)?;
    out.token(Token::EndObject)
}

pub(crate) fn write_snapshot(out: &mut Writer, head: &SnapshotHead) -> Result<(), AllocError>
    ensures written { OnOk result (out.new ≡ with_value (snapshot_data head.now) out.old) }
    ensures is { OnOk result (IsSmall head.now.id × IsKind head.now.kind × IsWide head.now.created × IsWide head.now.updated) }
{
    out.token(Token::BeginObject)?;
    put_first(out, head)?;
    put_next(out, head)?;
    put_last(out, head)?;
    Ok(())
}
