//! The fields of a line, each of its kind, as they are read and as they are written.
ghost use Rattle.std.specs.Prelude.{◌≡◌, ◌∷◌, codes, IfOk, IfSome, OnOk};
ghost use Rattle.hex.specs.Hex.{IsBytes, decode_of};
ghost use Rattle.snap_path.specs.Text.{IsPath};
ghost use Rattle.std.specs.Option.{option_map};
ghost use Rattle.std.specs.Result.{result_ok};
ghost use Rattle.serde_json.specs.Data.{boolean, string};
ghost use Rattle.snap_json.specs.Tokens.{with_value};
ghost use Rattle.snap_json.specs.View.{view};
ghost use Rattle.json.specs.Token as tokens;
ghost use Rattle.snap_pieces.specs.Back.{IsSmall, IsWide};
ghost use Rattle.snap_pieces.specs.Gives.{GivesLine, Lends};
ghost use Rattle.snap_pieces.specs.Read.{bytes_read, flag_read, maybe_read, meta_read, natural_read, names_read, small_read, text_read, usage_read};
ghost use Rattle.snap_pieces.specs.Members.{maybe_tokens};
ghost use Rattle.snap_pieces.specs.Written.{bytes_data, natural_data, path_data};

use crate::error::LineError;
use crate::field::LineField;
use snap_json::{Token, Value, Writer};
use snap_layer::{Bytes, Meta};
use snap_path::{Path, PathError};
use snap_record::Text;
use snap_usage::Usage;
use std::alloc::{AllocError, Global};

/// A number.
pub(crate) fn number(field: LineField, line: &Value<'_>) -> Result<u64, LineField>
    ensures { result ≡ natural_read field (view line.now) }
{
    let Some(value) = line.get(field.name()) else {
        return Err(field);
    };
    match value.as_u64() {
        Some(number) => Ok(number),
        None => Err(field),
    }
}

/// A number below 2^32.
pub(crate) fn small(field: LineField, line: &Value<'_>) -> Result<u32, LineField>
    ensures { result ≡ small_read field (view line.now) }
{
    let number = number(field, line)?;
    if number > u32::MAX as u64 {
        return Err(field);
    }
    Ok(number as u32)
}

/// `true` or `false`.
pub(crate) fn flag(field: LineField, line: &Value<'_>) -> Result<bool, LineField>
    ensures { result ≡ flag_read field (view line.now) }
{
    match line.get(field.name()) {
        Some(Value::Bool(flag)) => Ok(*flag),
        Some(_) => Err(field),
        None => Err(field),
    }
}

/// A text, lent by the line.
pub(crate) fn lent_text<'a>(field: LineField, line: &Value<'a>) -> Result<&'a str, LineField>
    ensures { Lends (λ text. text.now) result (text_read field (view line.now)) }
{
    match line.get(field.name()) {
        Some(Value::String(text)) => Ok(*text),
        Some(_) => Err(field),
        None => Err(field),
    }
}

/// A text.
pub(crate) fn text(alloc: Global, field: LineField, line: &Value<'_>) -> Result<Text, LineError>
    ensures { GivesLine result (text_read field (view line.now)) }
{
    let text = lent_text(field, line)?;
    Ok(Text::copy_of(alloc, text)?)
}

/// A path.
pub(crate) fn path(alloc: Global, field: LineField, line: &Value<'_>) -> Result<Path, LineError>
    ensures { GivesLine result (names_read field (view line.now)) }
{
    let text = lent_text(field, line)?;
    match Path::parse(alloc, text) {
        Ok(path) => Ok(path),
        Err(PathError::BadPath) => Err(LineError::BadField(field)),
        Err(PathError::OutOfMemory(no_memory)) => Err(LineError::OutOfMemory(no_memory)),
    }
}

/// Bytes.
pub(crate) fn bytes(alloc: Global, field: LineField, line: &Value<'_>) -> Result<Bytes, LineError>
    ensures { GivesLine result (bytes_read field (view line.now)) }
{
    let text = lent_text(field, line)?;
    let mut bytes = vec![in alloc; 0; text.len() / 2]?;
    match hex::decode_to_slice(text.as_bytes(), bytes.as_mut_slice()) {
        Ok(()) => Ok(Bytes::new(bytes)),
        Err(_) => Err(LineError::BadField(field)),
    }
}

/// The mode.
pub(crate) fn meta(line: &Value<'_>) -> Result<Meta, LineField>
    ensures { result ≡ meta_read (view line.now) }
{
    let mode = small(LineField::Mode, line)?;
    Ok(Meta { mode })
}

/// Blocks and inodes.
pub(crate) fn usage(line: &Value<'_>) -> Result<Usage, LineField>
    ensures { result ≡ usage_read (view line.now) }
{
    let blocks = number(LineField::Blocks, line)?;
    let inodes = number(LineField::Inodes, line)?;
    Ok(Usage { blocks, inodes })
}

/// A number that may be absent.
pub(crate) fn maybe_number(field: LineField, line: &Value<'_>) -> Result<Option<u64>, LineField>
    ensures { result ≡ maybe_read natural_read field (view line.now) }
{
    if line.get(field.name()).is_none() {
        return Ok(None);
    }
    Ok(Some(number(field, line)?))
}

/// Bytes that may be absent.
pub(crate) fn maybe_bytes(
    alloc: Global,
    field: LineField,
    line: &Value<'_>,
) -> Result<Option<Bytes>, LineError>
    ensures { GivesLine result (maybe_read bytes_read field (view line.now)) }
{
    if line.get(field.name()).is_none() {
        return Ok(None);
    }
    Ok(Some(bytes(alloc, field, line)?))
}

/// Writes a member that is a text.
pub(crate) fn put_text(out: &mut Writer, key: &str, text: &str) -> Result<(), AllocError>
    ensures { OnOk result (out.new ≡ with_value (string text.now) (tokens.key key.now ∷ out.old)) }
{
    out.token(Token::Key(key))?;
    out.token(Token::String(text))
}

/// Writes a member that is a number.
pub(crate) fn put_number(out: &mut Writer, key: &str, number: u64) -> Result<(), AllocError>
    ensures wide { IsWide number }
    ensures written { OnOk result (out.new ≡ with_value (natural_data number) (tokens.key key.now ∷ out.old)) }
{
    out.token(Token::Key(key))?;
    out.number(number)
}

/// Writes a member that is a number of 32 bits.
pub(crate) fn put_small(out: &mut Writer, key: &str, number: u32) -> Result<(), AllocError>
    ensures written { OnOk result (out.new ≡ with_value (natural_data number) (tokens.key key.now ∷ out.old)) }
    ensures small { IsSmall number }
{
    put_number(out, key, u64::from(number))
}

/// Writes a member that is true or false.
pub(crate) fn put_flag(out: &mut Writer, key: &str, flag: bool) -> Result<(), AllocError>
    ensures { OnOk result (out.new ≡ with_value (boolean flag) (tokens.key key.now ∷ out.old)) }
{
    out.token(Token::Key(key))?;
    out.token(Token::Bool(flag))
}

/// Writes a member that is a number, where there is one.
pub(crate) fn put_maybe_number(
    out: &mut Writer,
    key: &str,
    number: Option<u64>,
) -> Result<(), AllocError>
    ensures wide { IfSome number IsWide }
    ensures written { OnOk result (out.new ≡ maybe_tokens key.now (option_map natural_data number) out.old) }
{
    match number {
        Some(number) => put_number(out, key, number),
        None => Ok(()),
    }
}

/// Writes a member that is true or false, where there is one.
pub(crate) fn put_maybe_flag(
    out: &mut Writer,
    key: &str,
    flag: Option<bool>,
) -> Result<(), AllocError>
    ensures { OnOk result (out.new ≡ maybe_tokens key.now (option_map boolean flag) out.old) }
{
    match flag {
        Some(flag) => put_flag(out, key, flag),
        None => Ok(()),
    }
}

/// Writes a member that is bytes, where there are some.
pub(crate) fn put_maybe_bytes(
    alloc: Global,
    out: &mut Writer,
    key: &str,
    bytes: &Option<Bytes>,
) -> Result<(), AllocError>
    ensures written { OnOk result (out.new ≡ maybe_tokens key.now (option_map bytes_data bytes.now) out.old) }
    ensures bytes { OnOk result (IfSome bytes.now IsBytes) }
{
    match bytes {
        Some(bytes) => put_bytes(alloc, out, key, bytes),
        None => Ok(()),
    }
}

fn put_hexadecimal(
    alloc: Global,
    out: &mut Writer,
    key: &str,
    bytes: &[u8],
) -> Result<(), AllocError>
    ensures written { OnOk result (out.new ≡ with_value (bytes_data bytes.now) (tokens.key key.now ∷ out.old)) }
    ensures bytes { OnOk result (IsBytes bytes.now) }
{
    let digits = hex::encode(alloc, bytes)?;
    put_text(out, key, digits.as_str())?;
    Ok(())
}

/// Writes a member that is bytes.
pub(crate) fn put_bytes(
    alloc: Global,
    out: &mut Writer,
    key: &str,
    bytes: &Bytes,
) -> Result<(), AllocError>
    ensures written { OnOk result (out.new ≡ with_value (bytes_data bytes.now) (tokens.key key.now ∷ out.old)) }
    ensures bytes { OnOk result (IsBytes bytes.now) }
{
    put_hexadecimal(alloc, out, key, bytes.as_slice())
}

/// Writes the path of a piece.
pub(crate) fn put_path(out: &mut Writer, path: &Path) -> Result<(), AllocError>
    ensures written { OnOk result (out.new ≡ with_value (path_data path.now) (tokens.key (codes "path") ∷ out.old)) }
    ensures path { OnOk result (IsPath path.now) }
{
    put_text(out, "path", path.as_str())
}

/// Begins a line's object with the command, which comes first.
pub(crate) fn begin(out: &mut Writer) -> Result<(), AllocError>
    ensures { OnOk result (out.new ≡ with_value (string (codes "restore")) (tokens.key (codes "do") ∷ tokens.begin_object ∷ out.old)) }
{
    out.token(Token::BeginObject)?;
    put_text(out, "do", "restore")
}
