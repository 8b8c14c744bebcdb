// From text to a value, in one pass over the tokens.
ghost use Rattle.std.specs.Prelude.{◌≡◌, ◌<◌, ◌≤◌, ◌∷◌, length, Some, None, Err, IfOk, OnOk, OnErr, option_map};
ghost use Rattle.json.specs.Json.{value, items, members};
ghost use Rattle.json.specs.Reads.{token_of};
ghost use Rattle.serde_json.specs.Data.{no_members};
ghost use Rattle.serde_json.specs.Read.{of_json, of_items, of_members, converted, read as read_text};
ghost use Rattle.snap_json.specs.Objects.{object_alone, object_read, rest_of};
ghost use Rattle.snap_json.specs.View.{view, items_view, members_view};

use crate::number::number;
use crate::unreadable::Unreadable;
use crate::value::{Member, Value};
use json::{Invalid, Reader, Scratch, Token};
use std::alloc::Global;

/// So deep arrays and objects nest at most.
pub(crate) const MAX_DEPTH: usize = 127;

impl<'a> Value<'a> {
    /// Reads a text as `serde_json` reads it: arrays and objects nest at most 127 deep, and each number is in the
    /// range of a float. A value that is no object is checked, and not kept: `None`.
    ///
    /// `NotJson` where the text is no such value. `OutOfMemory` where memory was refused: for the scratch, which
    /// grows to the length of the text and lends the texts that have escapes, or for the members of an object and
    /// what is in them. A text without escapes is lent by the line. The cost grows with the text, and so does the
    /// memory of an object.
    pub fn read_object(
        alloc: Global,
        text: &'a str,
        scratch: &'a mut Scratch,
    ) -> Result<Option<Value<'a>>, Unreadable>
        ensures ok { IfOk result (λ o. option_map object_alone (read_text text.now) ≡ Some (option_map view o)) }
        ensures not_json { result ≡ Err Unreadable.NotJson → read_text text.now ≡ None }
    {
        let mut reader = Reader::new(text, scratch)?;
        let object = read_alone(alloc, &mut reader)?;
        if reader.next().is_some() {
            return Err(Unreadable::NotJson);
        }
        Ok(object)
    }
}

/// Reads an object, or checks another value.
fn read_alone<'a>(alloc: Global, reader: &mut Reader<'a>) -> Result<Option<Value<'a>>, Unreadable>
    ensures ok { IfOk result (λ o. object_read (converted of_json (value 127 reader.old)) ≡ Some (option_map view o, reader.new)) }
    ensures not_json { result ≡ Err Unreadable.NotJson
        → converted of_json (value 127 reader.old) ≡ None }
{
    let Some(token) = reader.next() else {
        return Err(Unreadable::NotJson);
    };
    match token {
        Token::BeginObject => {
            let members = read_members(alloc, reader, MAX_DEPTH - 1)?;
            Ok(Some(Value::Object(members)))
        }
        Token::BeginArray
        | Token::EndArray
        | Token::EndObject
        | Token::Key(_)
        | Token::String(_)
        | Token::Number(_)
        | Token::Bool(_)
        | Token::Null
        | Token::Bad => {
            check(token, reader, MAX_DEPTH)?;
            Ok(None)
        }
    }
}

/// Checks the value that begins with the token.
#[cycle(check)]
pub(crate) fn check(token: Token<'_>, reader: &mut Reader<'_>, depth: usize) -> Result<(), Invalid>
    ensures ok { OnOk result (rest_of (converted of_json (value depth (token_of token.entry ∷ reader.old))) ≡ Some reader.new) }
    ensures shorter { OnOk result (length reader.new ≤ length reader.old) }
    ensures not_json { OnErr result (converted of_json (value depth (token_of token.entry ∷ reader.old)) ≡ None) }
{
    match token {
        Token::String(_) | Token::Bool(_) | Token::Null => Ok(()),
        Token::Number(text) => match number(text) {
            Some(_) => Ok(()),
            None => Err(Invalid),
        },
        Token::EndObject | Token::EndArray | Token::Key(_) | Token::Bad => Err(Invalid),
        Token::BeginArray => {
            if depth == 0 {
                return Err(Invalid);
            }
            check_items(reader, depth - 1)
        }
        Token::BeginObject => {
            if depth == 0 {
                return Err(Invalid);
            }
            check_members(reader, depth - 1)
        }
    }
}

#[cycle(check)]
pub(crate) fn check_items(reader: &mut Reader<'_>, depth: usize) -> Result<(), Invalid>
    ensures ok { OnOk result
        (rest_of (converted of_items (items (value depth) (length reader.old) reader.old)) ≡ Some reader.new) }
    ensures shorter { OnOk result (length reader.new < length reader.old) }
    ensures not_json { OnErr result
        (converted of_items (items (value depth) (length reader.old) reader.old) ≡ None) }
{
    'items: while !reader.take_end_array() {
        let Some(token) = reader.next() else {
            return Err(Invalid);
        };
        check(token, reader, depth)?;
    }
    Ok(())
}

#[cycle(check)]
pub(crate) fn check_members(reader: &mut Reader<'_>, depth: usize) -> Result<(), Invalid>
    ensures ok { OnOk result
        (rest_of (converted (λ ms. of_members ms no_members)
        (members (value depth) (length reader.old) reader.old)) ≡ Some reader.new) }
    ensures shorter { OnOk result (length reader.new < length reader.old) }
    ensures not_json { OnErr result
        (converted (λ ms. of_members ms no_members)
        (members (value depth) (length reader.old) reader.old) ≡ None) }
{
    'members: while let Some(_) = reader.next_key()? {
        let Some(token) = reader.next() else {
            return Err(Invalid);
        };
        check(token, reader, depth)?;
    }
    Ok(())
}

#[cycle(read)]
fn read<'a>(alloc: Global, reader: &mut Reader<'a>, depth: usize) -> Result<Value<'a>, Unreadable>
    ensures ok { IfOk result
        (λ v. converted of_json (value depth reader.old) ≡ Some (view v, reader.new)) }
    ensures shorter { OnOk result (length reader.new < length reader.old) }
    ensures not_json { result ≡ Err Unreadable.NotJson
        → converted of_json (value depth reader.old) ≡ None }
{
    let Some(token) = reader.next() else {
        return Err(Unreadable::NotJson);
    };
    match token {
        Token::String(text) => Ok(Value::String(text)),
        Token::Number(text) => match number(text) {
            Some(number) => Ok(Value::Number(number)),
            None => Err(Unreadable::NotJson),
        },
        Token::Bool(b) => Ok(Value::Bool(b)),
        Token::Null => Ok(Value::Null),
        Token::EndObject | Token::EndArray | Token::Key(_) | Token::Bad => Err(Unreadable::NotJson),
        Token::BeginArray => {
            if depth == 0 {
                return Err(Unreadable::NotJson);
            }
            Ok(Value::Array(read_items(alloc, reader, depth - 1)?))
        }
        Token::BeginObject => {
            if depth == 0 {
                return Err(Unreadable::NotJson);
            }
            Ok(Value::Object(read_members(alloc, reader, depth - 1)?))
        }
    }
}

#[cycle(read)]
pub(crate) fn read_items<'a>(
    alloc: Global,
    reader: &mut Reader<'a>,
    depth: usize,
) -> Result<Vec<Value<'a>>, Unreadable>
    ensures ok { IfOk result
        (λ v. converted of_items (items (value depth) (length reader.old) reader.old)
        ≡ Some (items_view v.items, reader.new)) }
    ensures shorter { OnOk result (length reader.new < length reader.old) }
    ensures not_json { result ≡ Err Unreadable.NotJson
        → converted of_items (items (value depth) (length reader.old) reader.old) ≡ None }
{
    let mut found = Vec::new(alloc);
    'items: while !reader.take_end_array() {
        let item = read(alloc, reader, depth)?;
        found.push(item)?;
    }
    Ok(found)
}

#[cycle(read)]
pub(crate) fn read_members<'a>(
    alloc: Global,
    reader: &mut Reader<'a>,
    depth: usize,
) -> Result<Vec<Member<'a>>, Unreadable>
    ensures ok { IfOk result
        (λ m. converted (λ ms. of_members ms no_members)
        (members (value depth) (length reader.old) reader.old)
        ≡ Some (members_view m.items, reader.new)) }
    ensures shorter { OnOk result (length reader.new < length reader.old) }
    ensures not_json { result ≡ Err Unreadable.NotJson
        → converted (λ ms. of_members ms no_members)
        (members (value depth) (length reader.old) reader.old) ≡ None }
{
    let mut found = Vec::new(alloc);
    'members: while let Some(name) = reader.next_key()? {
        let member = read(alloc, reader, depth)?;
        found.push((name, member))?;
    }
    Ok(found)
}
