// From text to an object with the whole values of some names alone.
ghost use Rattle.std.specs.Prelude.{◌≡◌, ◌<◌, ◌≤◌, length, Some, None, Err, IfOk, OnOk, option_map};
ghost use Rattle.json.specs.Json.{value, items, members, parse_map};
ghost use Rattle.serde_json.specs.Data.{no_members};
ghost use Rattle.serde_json.specs.Read.{of_json, of_items, of_members, converted, read as read_text};
ghost use Rattle.snap_json.specs.Objects.{object_alone, object_read};
ghost use Rattle.snap_json.specs.Shallow.{is_one_of, items_if, members_if, value_if, shallow_members, shallow, shallow_read};
ghost use Rattle.snap_json.specs.View.{view, items_view, members_view};

use crate::number::number;
use crate::read::{MAX_DEPTH, check, check_items, check_members, read_items, read_members};
use crate::unreadable::Unreadable;
use crate::value::{Member, Value};
use json::{Reader, Scratch, Token};
use std::alloc::Global;

impl<'a> Value<'a> {
    /// Reads a text as [`Value::read_object`] does, and keeps of an object only the members of these names whole. An
    /// array or an object of another name is checked, and is empty.
    ///
    /// The errors and the memory are those of `read_object`, without that of what isn't kept. The cost grows with the
    /// text, and with the names for each member that is an array or an object.
    pub fn read_shallow(
        alloc: Global,
        text: &'a str,
        whole: &[&str],
        scratch: &'a mut Scratch,
    ) -> Result<Option<Value<'a>>, Unreadable>
        ensures ok { IfOk result (λ o. option_map (λ d. option_map (shallow (is_one_of whole.now)) (object_alone d)) (read_text text.now) ≡ Some (option_map view o)) }
        ensures not_json { result ≡ Err Unreadable.NotJson → read_text text.now ≡ None }
    {
        let mut reader = Reader::new(text, scratch)?;
        let object = read_alone(alloc, &mut reader, whole)?;
        if reader.next().is_some() {
            return Err(Unreadable::NotJson);
        }
        Ok(object)
    }
}

/// Reads an object, or checks another value.
fn read_alone<'a>(
    alloc: Global,
    reader: &mut Reader<'a>,
    whole: &[&str],
) -> Result<Option<Value<'a>>, Unreadable>
    ensures ok { IfOk result (λ o. shallow_read (is_one_of whole.now) (object_read (converted of_json (value 127 reader.old))) ≡ Some (option_map view o, reader.new)) }
    ensures not_json { result ≡ Err Unreadable.NotJson
        → converted of_json (value 127 reader.old) ≡ None }
{
    let Some(token) = reader.next() else {
        return Err(Unreadable::NotJson);
    };
    match token {
        Token::BeginObject => {
            let members = read_shallow_members(alloc, reader, whole)?;
            Ok(Some(Value::Object(members)))
        }
        Token::BeginArray
        | Token::EndArray
        | Token::EndObject
        | Token::Key(_)
        | Token::String(_)
        | Token::Number(_)
        | Token::Bool(_)
        | Token::Null
        | Token::Bad => {
            check(token, reader, MAX_DEPTH)?;
            Ok(None)
        }
    }
}

/// The members of a line's object, after its brace.
fn read_shallow_members<'a>(
    alloc: Global,
    reader: &mut Reader<'a>,
    whole: &[&str],
) -> Result<Vec<Member<'a>>, Unreadable>
    ensures ok { IfOk result
        (λ m. parse_map (shallow_members (is_one_of whole.now)) (converted (λ ms. of_members ms no_members)
        (members (value 126) (length reader.old) reader.old))
        ≡ Some (members_view m.items, reader.new)) }
    ensures not_json { result ≡ Err Unreadable.NotJson
        → converted (λ ms. of_members ms no_members)
        (members (value 126) (length reader.old) reader.old) ≡ None }
{
    let mut found = Vec::new(alloc);
    'members: while let Some(name) = reader.next_key()? {
        let member = read_member(alloc, reader, whole, name)?;
        found.push((name, member))?;
    }
    Ok(found)
}

/// The value of a member of this name.
fn read_member<'a>(
    alloc: Global,
    reader: &mut Reader<'a>,
    whole: &[&str],
    name: &str,
) -> Result<Value<'a>, Unreadable>
    ensures ok { IfOk result
        (λ v. parse_map (value_if (is_one_of whole.now name.now)) (converted of_json (value 126 reader.old))
        ≡ Some (view v, reader.new)) }
    ensures shorter { OnOk result (length reader.new < length reader.old) }
    ensures not_json { result ≡ Err Unreadable.NotJson
        → converted of_json (value 126 reader.old) ≡ None }
{
    let Some(token) = reader.next() else {
        return Err(Unreadable::NotJson);
    };
    match token {
        Token::String(text) => Ok(Value::String(text)),
        Token::Number(text) => match number(text) {
            Some(number) => Ok(Value::Number(number)),
            None => Err(Unreadable::NotJson),
        },
        Token::Bool(b) => Ok(Value::Bool(b)),
        Token::Null => Ok(Value::Null),
        Token::EndObject | Token::EndArray | Token::Key(_) | Token::Bad => Err(Unreadable::NotJson),
        Token::BeginArray => {
            let items = read_items_if(alloc, reader, is_one_of(whole, name))?;
            Ok(Value::Array(items))
        }
        Token::BeginObject => {
            let members = read_members_if(alloc, reader, is_one_of(whole, name))?;
            Ok(Value::Object(members))
        }
    }
}

/// The items of a member, after its bracket, or none of them.
fn read_items_if<'a>(
    alloc: Global,
    reader: &mut Reader<'a>,
    whole: bool,
) -> Result<Vec<Value<'a>>, Unreadable>
    ensures ok { IfOk result
        (λ v. parse_map (items_if whole) (converted of_items (items (value 125) (length reader.old) reader.old))
        ≡ Some (items_view v.items, reader.new)) }
    ensures shorter { OnOk result (length reader.new < length reader.old) }
    ensures not_json { result ≡ Err Unreadable.NotJson
        → converted of_items (items (value 125) (length reader.old) reader.old) ≡ None }
{
    if whole {
        return read_items(alloc, reader, MAX_DEPTH - 2);
    }
    check_items(reader, MAX_DEPTH - 2)?;
    Ok(Vec::new(alloc))
}

/// The members of a member, after its brace, or none of them.
fn read_members_if<'a>(
    alloc: Global,
    reader: &mut Reader<'a>,
    whole: bool,
) -> Result<Vec<Member<'a>>, Unreadable>
    ensures ok { IfOk result
        (λ m. parse_map (members_if whole) (converted (λ ms. of_members ms no_members)
        (members (value 125) (length reader.old) reader.old))
        ≡ Some (members_view m.items, reader.new)) }
    ensures shorter { OnOk result (length reader.new < length reader.old) }
    ensures not_json { result ≡ Err Unreadable.NotJson
        → converted (λ ms. of_members ms no_members)
        (members (value 125) (length reader.old) reader.old) ≡ None }
{
    if whole {
        return read_members(alloc, reader, MAX_DEPTH - 2);
    }
    check_members(reader, MAX_DEPTH - 2)?;
    Ok(Vec::new(alloc))
}

/// Whether one of the names is this one.
fn is_one_of(mut names: &[&str], name: &str) -> bool
    ensures { result ≡ is_one_of names.entry.now name.now }
{
    while let [other, rest @ ..] = names {
        if name == *other {
            return true;
        }
        names = rest;
    }
    false
}
