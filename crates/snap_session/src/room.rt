// How much is in a page: what room a line leaves in it, by its texts and the bytes of a file.
ghost use Rattle.std.specs.Prelude.{◌≡◌, ◌-◌, length};
ghost use Rattle.snap_session.specs.Pages.{room_after, room_after_file, room_after_layer, room_after_piece};

use snap_pieces::{Line, SnapshotHead, StorePiece};
use snap_record::Text;
use snap_saved::{FileKind, Piece};

// The room for bytes and texts that a page has.
pub(crate) const PAGE_ROOM: usize = 1_048_576;

// What room two texts leave.
fn after_texts(room: usize, first: &Text, second: &Text) -> usize
    ensures { result ≡ room - length first.now - length second.now }
{
    room.saturating_sub(first.as_str().len())
        .saturating_sub(second.as_str().len())
}

// What room for bytes a file or symlink leaves.
fn after_file(room: usize, kind: &FileKind) -> usize
    ensures { result ≡ room_after_file room kind.now }
{
    match kind {
        FileKind::Bytes { meta: _ } => room,
        FileKind::Sized {
            meta: _,
            size: _,
            digest,
        } => match digest {
            Some(digest) => room.saturating_sub(digest.as_slice().len()),
            None => room,
        },
        FileKind::Symlink { target } => room.saturating_sub(target.as_slice().len()),
    }
}

// What room a piece of a layer leaves.
fn after_layer(room: usize, piece: &Piece) -> usize
    ensures { result ≡ room_after_layer room piece.now }
{
    match piece {
        Piece::Dir(dir) => room.saturating_sub(dir.path.as_str().len()),
        Piece::Whiteout(path) | Piece::Name(path) => room.saturating_sub(path.as_str().len()),
        Piece::File { number: _, kind } => after_file(room, kind),
        Piece::Bytes(bytes) => room.saturating_sub(bytes.as_slice().len()),
    }
}

// What room the head of a snapshot leaves.
fn after_snapshot(room: usize, head: &SnapshotHead) -> usize
    ensures { result ≡ room - length head.now.namespace - length head.now.key - length head.now.parent }
{
    after_texts(room, &head.namespace, &head.key).saturating_sub(head.parent.as_str().len())
}

// What room a piece leaves.
fn after_piece(room: usize, piece: &StorePiece) -> usize
    ensures { result ≡ room_after_piece room piece.now }
{
    match piece {
        StorePiece::Namespace(namespace) => room.saturating_sub(namespace.name.as_str().len()),
        StorePiece::Snapshot(head) => after_snapshot(room, head),
        StorePiece::Label { key, value } => after_texts(room, key, value),
        StorePiece::Layer(piece) => after_layer(room, piece),
        StorePiece::Lease {
            namespace,
            name,
            until: _,
        } => after_texts(room, namespace, name),
        StorePiece::Leased(name) => room.saturating_sub(name.as_str().len()),
    }
}

// What room a line leaves.
pub(crate) fn room_after(room: usize, line: &Line) -> usize
    ensures { result ≡ room_after room line.now }
{
    match line {
        Line::Head(head) => room.saturating_sub(head.root.as_str().len()),
        Line::Piece(piece) => after_piece(room, piece),
        Line::End { lines: _ } => room,
    }
}
