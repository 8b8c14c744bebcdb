//! The lines of a layer's pieces.
ghost use Rattle.std.specs.Prelude.{◌≡◌, OnOk};
ghost use Rattle.snap_json.specs.Tokens.{with_value};
ghost use Rattle.snap_json.specs.View.{view};
ghost use Rattle.snap_pieces.specs.Back.{IsLayerPiece};
ghost use Rattle.snap_pieces.specs.Gives.{GivesLine};
ghost use Rattle.snap_pieces.specs.Read.{dir_read, file_read, kept_read, sized_read, symlink_read};
ghost use Rattle.snap_pieces.specs.Written.{file_data, layer_data};
ghost use Rattle.snap_saved.specs.declared.piece.Piece.TheVariants as piece_kinds;

use crate::error::LineError;
use crate::field::LineField;
use crate::values::{
    begin, bytes, flag, maybe_bytes, meta, number, path, put_bytes, put_flag, put_maybe_bytes,
    put_number, put_path, put_small, put_text, small,
};
use snap_json::{Token, Value, Writer};
use snap_saved::{FileKind, Piece, SavedDir};
use std::alloc::{AllocError, Global};

pub(crate) fn read_dir(alloc: Global, line: &Value<'_>) -> Result<SavedDir, LineError>
    ensures { GivesLine result (dir_read (view line.now)) }
{
    Ok(SavedDir {
        path: path(alloc, LineField::Path, line)?,
        meta: meta(line)?,
        opaque: flag(LineField::Opaque, line)?,
    })
}

/// A file whose bytes come in lines of their own.
pub(crate) fn read_file(line: &Value<'_>) -> Result<Piece, LineField>
    ensures { result ≡ file_read kept_read (view line.now) }
{
    let number = small(LineField::Number, line)?;
    let meta = meta(line)?;
    Ok(Piece::File {
        number,
        kind: FileKind::Bytes { meta },
    })
}

/// A file of a size.
pub(crate) fn read_sized(alloc: Global, line: &Value<'_>) -> Result<Piece, LineError>
    ensures { GivesLine result (file_read sized_read (view line.now)) }
{
    let file = small(LineField::Number, line)?;
    let meta = meta(line)?;
    let size = number(LineField::Size, line)?;
    let digest = maybe_bytes(alloc, LineField::Digest, line)?;
    Ok(Piece::File {
        number: file,
        kind: FileKind::Sized { meta, size, digest },
    })
}

pub(crate) fn read_symlink(alloc: Global, line: &Value<'_>) -> Result<Piece, LineError>
    ensures { GivesLine result (file_read symlink_read (view line.now)) }
{
    let number = small(LineField::Number, line)?;
    let target = bytes(alloc, LineField::Target, line)?;
    Ok(Piece::File {
        number,
        kind: FileKind::Symlink { target },
    })
}

fn write_dir(out: &mut Writer, dir: &SavedDir) -> Result<(), AllocError>
    ensures written { OnOk result (out.new ≡ with_value (layer_data (piece_kinds.Dir dir.now)) out.old) }
    ensures is { OnOk result (IsLayerPiece (piece_kinds.Dir dir.now)) }
{
    begin(out)?;
    put_small(out, "mode", dir.meta.mode)?;
    put_flag(out, "opaque", dir.opaque)?;
    put_path(out, &dir.path)?;
    put_text(out, "piece", "dir")?;
    out.token(Token::EndObject)
}

#[tactic(auto, using(crate::proofs::Members::with_members_maybe))]
fn write_file(
    alloc: Global,
    out: &mut Writer,
    number: u32,
    kind: &FileKind,
) -> Result<(), AllocError>
    ensures written { OnOk result (out.new ≡ with_value (file_data number kind.now) out.old) }
    ensures is { OnOk result (IsLayerPiece (piece_kinds.File number kind.now)) }
{
    match kind {
        FileKind::Bytes { meta } => {
            begin(out)?;
            put_small(out, "mode", meta.mode)?;
            put_small(out, "number", number)?;
            put_text(out, "piece", "file")?;
        }
        FileKind::Sized { meta, size, digest } => {
            out.token(Token::BeginObject)?;
            put_maybe_bytes(alloc, out, "digest", digest)?;
            put_text(out, "do", "restore")?;
            put_small(out, "mode", meta.mode)?;
            put_small(out, "number", number)?;
            put_text(out, "piece", "sized")?;
            put_number(out, "size", *size)?;
        }
        FileKind::Symlink { target } => {
            begin(out)?;
            put_small(out, "number", number)?;
            put_text(out, "piece", "symlink")?;
            put_bytes(alloc, out, "target", target)?;
        }
    }
    out.token(Token::EndObject)
}

pub(crate) fn write_layer(alloc: Global, out: &mut Writer, piece: &Piece) -> Result<(), AllocError>
    ensures written { OnOk result (out.new ≡ with_value (layer_data piece.now) out.old) }
    ensures is { OnOk result (IsLayerPiece piece.now) }
{
    match piece {
        Piece::Dir(dir) => return write_dir(out, dir),
        Piece::File { number, kind } => return write_file(alloc, out, *number, kind),
        Piece::Whiteout(path) => {
            begin(out)?;
            put_path(out, path)?;
            put_text(out, "piece", "whiteout")?;
        }
        Piece::Bytes(bytes) => {
            out.token(Token::BeginObject)?;
            put_bytes(alloc, out, "bytes", bytes)?;
            put_text(out, "do", "restore")?;
            put_text(out, "piece", "bytes")?;
        }
        Piece::Name(path) => {
            begin(out)?;
            put_path(out, path)?;
            put_text(out, "piece", "name")?;
        }
    }
    out.token(Token::EndObject)
}
