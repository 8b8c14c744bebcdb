//! What is written as JSON.
ghost use Rattle.std.specs.Prelude.{◌≡◌, map, string_bytes, OnOk};
ghost use Rattle.std.specs.Option.{option_map};
ghost use Rattle.serde_json.specs.Data.{Data, array, boolean, member, object, no_members, string};
ghost use Rattle.serde_json.specs.View.{items_of};
ghost use Rattle.snap_json.specs.Tokens.{with_value};
ghost use Rattle.snap_values.specs.Values.{digest_data, members_with_entries, number_data, only, text_data, usage_data};
ghost use Rattle.snap_values.specs.Written.{written_members_of, with_maybe, member_tokens};

use snap_json::{Token, Writer};
use snap_layer::Bytes;
use snap_path::Name;
use snap_record::{Labels, Sequence, Text};
use snap_usage::Usage;
use std::alloc::{AllocError, Global};
use std::collections::BTreeMap;

/// What is written as a value.
pub trait ToJson {
    ghost value: { Self → Data };

    fn write(&self, alloc: Global, out: &mut Writer) -> Result<(), AllocError>
        ensures { OnOk result (out.new ≡ with_value (value self.now) out.old) };
}

impl ToJson for bool {
    ghost value = { boolean };

    fn write(&self, _alloc: Global, out: &mut Writer) -> Result<(), AllocError> {
        out.token(Token::Bool(*self))
    }
}

impl ToJson for u32 {
    ghost value = { number_data };

    fn write(&self, _alloc: Global, out: &mut Writer) -> Result<(), AllocError> {
        out.number(u64::from(*self))
    }
}

impl ToJson for u64 {
    ghost value = { number_data };

    fn write(&self, _alloc: Global, out: &mut Writer) -> Result<(), AllocError> {
        out.number(*self)
    }
}

impl ToJson for &str {
    ghost value = { λ text. string text.now };

    fn write(&self, _alloc: Global, out: &mut Writer) -> Result<(), AllocError> {
        out.token(Token::String(*self))
    }
}

impl ToJson for Text {
    ghost value = { string };

    fn write(&self, _alloc: Global, out: &mut Writer) -> Result<(), AllocError> {
        out.token(Token::String(self.as_str()))
    }
}

/// The texts, in their order.
impl ToJson for &[String] {
    ghost value = { λ texts. array (items_of (map string (map string_bytes texts.now))) };

    fn write(&self, _alloc: Global, out: &mut Writer) -> Result<(), AllocError> {
        out.token(Token::BeginArray)?;
        for text in self.iter() {
            out.token(Token::String(text.as_str()))?;
        }
        out.token(Token::EndArray)
    }
}

impl ToJson for Name {
    ghost value = { string };

    fn write(&self, _alloc: Global, out: &mut Writer) -> Result<(), AllocError> {
        out.token(Token::String(self.as_str()))
    }
}

/// The text, or null where the bytes are none.
impl ToJson for Bytes {
    ghost value = { text_data };

    #[tactic(auto, using(crate::proofs::Texts::is_text))]
    fn write(&self, _alloc: Global, out: &mut Writer) -> Result<(), AllocError> {
        match str::from_utf8(self.as_slice()) {
            Ok(text) => out.token(Token::String(text)),
            Err(_) => out.token(Token::Null),
        }
    }
}

/// The digest's text, or null where there is none.
impl ToJson for Option<Bytes> {
    ghost value = { digest_data };

    fn write(&self, alloc: Global, out: &mut Writer) -> Result<(), AllocError> {
        match self {
            Some(digest) => digest.write(alloc, out),
            None => out.token(Token::Null),
        }
    }
}

/// Blocks, then inodes.
impl ToJson for Usage {
    ghost value = { usage_data };

    fn write(&self, _alloc: Global, out: &mut Writer) -> Result<(), AllocError> {
        out.token(Token::BeginArray)?;
        out.number(self.blocks)?;
        out.number(self.inodes)?;
        out.token(Token::EndArray)
    }
}

impl<T: ToJson> ToJson for Sequence<T> {
    ghost value = { λ items. array (items_of (map T.value items)) };

    fn write(&self, alloc: Global, out: &mut Writer) -> Result<(), AllocError> {
        out.token(Token::BeginArray)?;
        for item in self.as_slice() {
            item.write(alloc, out)?;
        }
        out.token(Token::EndArray)
    }
}

/// The members in byte order of their keys.
impl<V: ToJson> ToJson for BTreeMap<&str, V> {
    ghost value = { λ map. object (written_members_of V.value map.entries) };

    fn write(&self, alloc: Global, out: &mut Writer) -> Result<(), AllocError> {
        out.token(Token::BeginObject)?;
        for (key, value) in self.iter() {
            member(alloc, out, key, value)?;
        }
        out.token(Token::EndObject)
    }
}

impl ToJson for Labels {
    ghost value = { λ labels. object (members_with_entries string labels no_members) };

    #[tactic(auto, using(crate::proofs::Maps::members_of_insert_entry))]
    fn write(&self, alloc: Global, out: &mut Writer) -> Result<(), AllocError> {
        let mut members = BTreeMap::new(alloc);
        let labels = self.as_slice();
        for (key, value) in labels {
            members.insert(key.as_str(), value.as_str())?;
        }
        members.write(alloc, out)
    }
}

/// A value for each name, of equal names the last.
#[tactic(auto, using(crate::proofs::Maps::members_of_insert_entry))]
pub fn by_name<V: ToJson + Copy>(
    alloc: Global,
    out: &mut Writer,
    entries: &[(Text, V)],
) -> Result<(), AllocError>
    ensures { OnOk result (out.new ≡ with_value (object (members_with_entries V.value entries.now no_members)) out.old) }
{
    let mut members = BTreeMap::new(alloc);
    for (name, value) in entries {
        members.insert(name.as_str(), *value)?;
    }
    members.write(alloc, out)
}

/// A member of the object that is open.
pub fn member<V: ToJson>(
    alloc: Global,
    out: &mut Writer,
    key: &str,
    value: &V,
) -> Result<(), AllocError>
    ensures { OnOk result (out.new ≡ member_tokens key.now (V.value value.now) out.old) }
{
    out.token(Token::Key(key))?;
    value.write(alloc, out)
}

/// The member, where there is one.
pub fn maybe<V: ToJson>(
    alloc: Global,
    out: &mut Writer,
    key: &str,
    value: &Option<V>,
) -> Result<(), AllocError>
    ensures { OnOk result (out.new ≡ with_maybe key.now (option_map V.value value.now) out.old) }
{
    match value {
        Some(value) => member(alloc, out, key, value),
        None => Ok(()),
    }
}

/// An object of one member.
pub fn only<V: ToJson>(
    alloc: Global,
    out: &mut Writer,
    key: &str,
    value: &V,
) -> Result<(), AllocError>
    ensures { OnOk result (out.new ≡ with_value (object (only key.now (V.value value.now))) out.old) }
{
    out.token(Token::BeginObject)?;
    member(alloc, out, key, value)?;
    out.token(Token::EndObject)
}

/// An object of two members, whose keys come in byte order.
pub fn pair<V: ToJson, W: ToJson>(
    alloc: Global,
    out: &mut Writer,
    key: &str,
    value: &V,
    second: &str,
    other: &W,
) -> Result<(), AllocError>
    ensures { OnOk result (out.new ≡ with_value
        (object (member key.now (V.value value.now) (only second.now (W.value other.now)))) out.old) }
{
    out.token(Token::BeginObject)?;
    member(alloc, out, key, value)?;
    member(alloc, out, second, other)?;
    out.token(Token::EndObject)
}
