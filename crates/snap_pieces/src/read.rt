//! From a line to what it says.
ghost use Rattle.snap_json.specs.View.{view};
ghost use Rattle.snap_pieces.specs.Gives.{GivesLine};
ghost use Rattle.snap_pieces.specs.Read.{label_read, lease_read, line_said, line_of_word, namespace_read};

use crate::error::LineError;
use crate::field::LineField;
use crate::head::{read_head, read_snapshot};
use crate::layer::{read_dir, read_file, read_sized, read_symlink};
use crate::line::Line;
use crate::piece::StorePiece;
use crate::values::{bytes, lent_text, maybe_number, number, path, text, usage};
use crate::word::Word;
use snap_call::Namespace;
use snap_json::Value;
use snap_saved::Piece;
use std::alloc::Global;

fn read_lease(alloc: Global, line: &Value<'_>) -> Result<StorePiece, LineError>
    ensures { GivesLine result (lease_read (view line.now)) }
{
    let namespace = text(alloc, LineField::Namespace, line)?;
    let name = text(alloc, LineField::Name, line)?;
    let until = maybe_number(LineField::Until, line)?;
    Ok(StorePiece::Lease {
        namespace,
        name,
        until,
    })
}

fn read_word(alloc: Global, word: Word, line: &Value<'_>) -> Result<Line, LineError>
    ensures { GivesLine result (line_of_word word (view line.now)) }
{
    let piece = match word {
        Word::Bytes => StorePiece::Layer(Piece::Bytes(bytes(alloc, LineField::Bytes, line)?)),
        Word::Dir => StorePiece::Layer(Piece::Dir(read_dir(alloc, line)?)),
        Word::End => {
            let lines = number(LineField::Lines, line)?;
            return Ok(Line::End { lines });
        }
        Word::File => StorePiece::Layer(read_file(line)?),
        Word::Label => {
            let key = text(alloc, LineField::Key, line)?;
            let value = text(alloc, LineField::Value, line)?;
            StorePiece::Label { key, value }
        }
        Word::Lease => read_lease(alloc, line)?,
        Word::Leased => StorePiece::Leased(text(alloc, LineField::Name, line)?),
        Word::Name => StorePiece::Layer(Piece::Name(path(alloc, LineField::Path, line)?)),
        Word::Namespace => {
            let name = text(alloc, LineField::Name, line)?;
            let limit = usage(line)?;
            StorePiece::Namespace(Namespace { name, limit })
        }
        Word::Sized => StorePiece::Layer(read_sized(alloc, line)?),
        Word::Snapshot => StorePiece::Snapshot(read_snapshot(alloc, line)?),
        Word::Store => return Ok(Line::Head(read_head(alloc, line)?)),
        Word::Symlink => StorePiece::Layer(read_symlink(alloc, line)?),
        Word::Whiteout => StorePiece::Layer(Piece::Whiteout(path(alloc, LineField::Path, line)?)),
    };
    Ok(Line::Piece(piece))
}

/// What a line of a saved store says, by its field `piece`. Other fields than those of the piece are passed over.
///
/// `BadField` with the first field, in the order of reading, that is missing or isn't of its kind; `OutOfMemory` where
/// memory is refused. Takes memory for the texts and bytes. The cost grows with the line.
pub fn read_line(alloc: Global, line: &Value<'_>) -> Result<Line, LineError>
    ensures { GivesLine result (line_said (view line.now)) }
{
    let word = lent_text(LineField::Piece, line)?;
    let Some(word) = Word::named(word) else {
        return Err(LineError::BadField(LineField::Piece));
    };
    read_word(alloc, word, line)
}
