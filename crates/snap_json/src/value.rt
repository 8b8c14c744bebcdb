// A value that lends the texts of its line.
ghost use Rattle.std.specs.Prelude.{◌≡◌, option_map, is_some};
ghost use Rattle.std.specs.Prelude.{option_and_then, IfOk};
ghost use Rattle.serde_json.specs.Find.{get, as_number, as_u64, as_str, as_array, as_object};
ghost use Rattle.snap_json.specs.View.{view, items_view, members_view, members_of};

use serde_json::Number;
use std::alloc::{AllocError, Global};
use std::collections::BTreeMap;

/// A value whose texts are lent by the text that it was read from, or by the scratch of that read.
///
/// Contracts see the value of `serde_json`.
#[derive(Drop)]
pub enum Value<'a> {
    Null,
    Bool(bool),
    Number(Number),
    String(&'a str),
    Array(Vec<Value<'a>>),
    /// The members as they came. Of equal names the last counts.
    Object(Vec<Member<'a>>),
}

/// A name and its value.
pub type Member<'a> = (&'a str, Value<'a>);

impl<'a> Value<'a> {
    /// The member of that name, where this is an object; of several the last. The cost grows with the members.
    pub fn get(&self, name: &str) -> Option<&Value<'a>>
        ensures { option_map (λ v. view v.now) result ≡ get name.now (view self.now) }
    {
        let Value::Object(members) = self else {
            return None;
        };
        let mut left = members.len();
        while left > 0 {
            left -= 1;
            let member = &members[left];
            if member.0 == name {
                return Some(&member.1);
            }
        }
        None
    }

    /// Whether it is an object. Takes no memory, and its cost is constant.
    pub fn is_object(&self) -> bool
        ensures { result ≡ is_some (as_object (view self.now)) }
    {
        matches!(self, Value::Object(_))
    }

    /// The members, where this is an object, as they came.
    pub fn as_object(&self) -> Option<&[Member<'a>]>
        ensures { option_map (λ members. members_view members.now) result ≡ as_object (view self.now) }
    {
        if let Value::Object(members) = self {
            Some(members.as_slice())
        } else {
            None
        }
    }

    /// The items, where this is an array.
    pub fn as_array(&self) -> Option<&[Value<'a>]>
        ensures { option_map (λ items. items_view items.now) result ≡ as_array (view self.now) }
    {
        if let Value::Array(items) = self {
            Some(items.as_slice())
        } else {
            None
        }
    }

    /// The text, where this is one.
    pub fn as_str(&self) -> Option<&'a str>
        ensures { option_map (λ text. text.now) result ≡ as_str (view self.now) }
    {
        if let Value::String(text) = self {
            Some(*text)
        } else {
            None
        }
    }

    /// The number, where this is one of digits alone, below 2^64.
    pub fn as_u64(&self) -> Option<u64>
        ensures { result ≡ option_and_then as_u64 (as_number (view self.now)) }
    {
        if let Value::Number(number) = self {
            number.as_u64()
        } else {
            None
        }
    }
}

/// The values of an object's members by their names, of equal names the last. Takes memory for a map. The cost
/// grows with the members.
#[tactic(auto, using(crate::proofs::Views::members_of_insert_entry))]
pub fn by_name<'v, 'a>(
    alloc: Global,
    members: &'v [Member<'a>],
) -> Result<BTreeMap<&'a str, &'v Value<'a>>, AllocError>
    ensures { IfOk result (λ map. members_of map.entries ≡ members_view members.now) }
{
    let mut map = BTreeMap::new(alloc);
    for member in members {
        map.insert(member.0, &member.1)?;
    }
    Ok(map)
}
