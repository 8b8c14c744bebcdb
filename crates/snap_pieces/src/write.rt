//! From what is saved to its line.
ghost use Rattle.std.specs.Prelude.{◌≡◌, Some, Ok, OnOk};
ghost use Rattle.serde_json.specs.Read.{read};
ghost use Rattle.serde_json.specs.Written.{compact_text};
ghost use Rattle.snap_json.specs.Tokens.{with_value};
ghost use Rattle.snap_pieces.specs.Back.{IsLine, IsStorePiece};
ghost use Rattle.snap_pieces.specs.Read.{line_said};
ghost use Rattle.snap_pieces.specs.Written.{line_data, piece_data};

use crate::head::{write_head, write_snapshot};
use crate::layer::write_layer;
use crate::line::Line;
use crate::piece::StorePiece;
use crate::values::{begin, put_maybe_number, put_number, put_text};
use snap_json::{Token, Writer};
use std::alloc::{AllocError, Global};

#[tactic(auto, using(crate::proofs::Members::with_members_maybe))]
fn write_piece(alloc: Global, out: &mut Writer, piece: &StorePiece) -> Result<(), AllocError>
    ensures written { OnOk result (out.new ≡ with_value (piece_data piece.now) out.old) }
    ensures is { OnOk result (IsStorePiece piece.now) }
{
    match piece {
        StorePiece::Snapshot(head) => return write_snapshot(out, head),
        StorePiece::Layer(piece) => return write_layer(alloc, out, piece),
        StorePiece::Namespace(namespace) => {
            out.token(Token::BeginObject)?;
            put_number(out, "blocks", namespace.limit.blocks)?;
            put_text(out, "do", "restore")?;
            put_number(out, "inodes", namespace.limit.inodes)?;
            put_text(out, "name", namespace.name.as_str())?;
            put_text(out, "piece", "namespace")?;
        }
        StorePiece::Label { key, value } => {
            begin(out)?;
            put_text(out, "key", key.as_str())?;
            put_text(out, "piece", "label")?;
            put_text(out, "value", value.as_str())?;
        }
        StorePiece::Lease {
            namespace,
            name,
            until,
        } => {
            begin(out)?;
            put_text(out, "name", name.as_str())?;
            put_text(out, "ns", namespace.as_str())?;
            put_text(out, "piece", "lease")?;
            put_maybe_number(out, "until", *until)?;
        }
        StorePiece::Leased(name) => {
            begin(out)?;
            put_text(out, "name", name.as_str())?;
            put_text(out, "piece", "leased")?;
        }
    }
    out.token(Token::EndObject)
}

/// Writes the line's value: the command `restore` with what the line says.
///
/// It fails only where memory is refused, and then nothing is said of what `out` has. Takes memory for the text, and for
/// the hexadecimal digits of bytes. The cost grows with them.
#[tactic(auto, using(crate::proofs::Back::line_back, crate::proofs::TextLaws::line_reads))]
pub fn write_line(alloc: Global, out: &mut Writer, line: &Line) -> Result<(), AllocError>
    ensures written { OnOk result (out.new ≡ with_value (line_data line.now) out.old) }
    // What is read of a line is what was written.
    ensures back { OnOk result (line_said (line_data line.now) ≡ Ok line.now) }
    // What is read of its text is its value.
    ensures reads { OnOk result (read (compact_text (line_data line.now)) ≡ Some (line_data line.now)) }
    ensures is { OnOk result (IsLine line.now) }
{
    match line {
        Line::Head(head) => write_head(out, head),
        Line::Piece(piece) => write_piece(alloc, out, piece),
        Line::End { lines } => {
            begin(out)?;
            put_number(out, "lines", *lines)?;
            put_text(out, "piece", "end")?;
            out.token(Token::EndObject)
        }
    }
}
