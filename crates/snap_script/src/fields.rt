// The fields of a line, each of its kind.
ghost use Rattle.std.specs.Prelude.{◌≡◌, [], Some, None, Ok, IfOk, OnOk, option_map, false};
ghost use Rattle.serde_json.specs.Find.{as_bool, as_str};
ghost use Rattle.snap_json.specs.View.{view, items_view, members_of};
ghost use Rattle.snap_script.specs.declared.fault.Field.TheVariants as fields;
ghost use Rattle.snap_script.specs.Fields.{found_in, misfit, missing, text, required, optional, given, as_natural, as_mode, pair_in, as_pair, as_usage, each_item, as_texts, kind_named, as_kind, with_label_within, labels_with, as_labels, malformed_in, with_member, with_named_in, deciding_in, labels_of_update, label_filter, label_filters_in, as_label_filters, as_namespace, as_namespaces, as_fill, content_bytes_of};
ghost use Rattle.snap_script.specs.Gives.{Gives, GivesAll};

use crate::fault::{Fault, Field, Found, ReadError};
use crate::lent::LentText;
use snap_call::Namespace;
use snap_json::{Value, by_name};
use snap_layer::Bytes;
use snap_path::limits::MAX_FILE_BYTES;
use snap_record::{
    Kind, LabelFilter, Labels, MAX_LABELS, Sequence, Text, is_label, named_key, replaces_all,
};
use snap_usage::Usage;
use std::alloc::{AllocError, Global};
use std::collections::BTreeMap;

fn found_in(value: &Value<'_>) -> Found
    ensures { result ≡ found_in (view value.now) }
{
    match value {
        Value::Null => Found::Null,
        Value::Bool(_) => Found::Truth,
        Value::Number(_) => Found::Number,
        Value::String(_) => Found::Text,
        Value::Array(_) => Found::Array,
        Value::Object(_) => Found::Object,
    }
}

/// The fault of a field that this value doesn't fit.
pub(crate) fn misfit(field: Field, value: &Value<'_>) -> Fault
    ensures { result ≡ misfit field (view value.now) }
{
    Fault::BadField(field, Some(found_in(value)))
}

/// The fault of a field that must be there.
pub(crate) fn missing(field: Field) -> Fault
    ensures { result ≡ missing field }
{
    Fault::BadField(field, Some(Found::Nothing))
}

/// Whether a field is true; it is not where it is absent. `BadField` where it is there and no `true` or `false`.
pub fn is_true(field: Field, line: &Value<'_>) -> Result<bool, Fault>
    ensures { result ≡ optional as_bool field (Ok false) (view line.now) }
{
    match line.get(field.name()) {
        Some(Value::Bool(truth)) => Ok(*truth),
        Some(value) => Err(misfit(field, value)),
        None => Ok(false),
    }
}

/// A number that may be absent.
pub(crate) fn number_or(default: u64, field: Field, line: &Value<'_>) -> Result<u64, Fault>
    ensures { result ≡ optional as_natural field (Ok default) (view line.now) }
{
    match line.get(field.name()) {
        Some(value) => match value.as_u64() {
            Some(number) => Ok(number),
            None => Err(misfit(field, value)),
        },
        None => Ok(default),
    }
}

/// A number, if there is one.
pub(crate) fn optional_number(field: Field, line: &Value<'_>) -> Result<Option<u64>, Fault>
    ensures { result ≡ given as_natural field (view line.now) }
{
    match line.get(field.name()) {
        Some(value) => match value.as_u64() {
            Some(number) => Ok(Some(number)),
            None => Err(misfit(field, value)),
        },
        None => Ok(None),
    }
}

/// A number that must be there.
pub(crate) fn required_number(field: Field, line: &Value<'_>) -> Result<u64, Fault>
    ensures { result ≡ required as_natural field (view line.now) }
{
    match line.get(field.name()) {
        Some(value) => match value.as_u64() {
            Some(number) => Ok(number),
            None => Err(misfit(field, value)),
        },
        None => Err(missing(field)),
    }
}

fn mode(value: &Value<'_>) -> Option<u32>
    ensures { result ≡ as_mode (view value.now) }
{
    match value.as_u64() {
        Some(number) if number <= u32::MAX as u64 => Some(number as u32),
        Some(_) => Some(u32::MAX),
        None => None,
    }
}

/// A mode that may be absent.
pub(crate) fn mode_or(default: u32, line: &Value<'_>) -> Result<u32, Fault>
    ensures { result ≡ optional as_mode fields.Mode (Ok default) (view line.now) }
{
    match line.get(Field::Mode.name()) {
        Some(value) => match mode(value) {
            Some(mode) => Ok(mode),
            None => Err(misfit(Field::Mode, value)),
        },
        None => Ok(default),
    }
}

/// A mode that must be there.
pub(crate) fn required_mode(line: &Value<'_>) -> Result<u32, Fault>
    ensures { result ≡ required as_mode fields.Mode (view line.now) }
{
    match line.get(Field::Mode.name()) {
        Some(value) => match mode(value) {
            Some(mode) => Ok(mode),
            None => Err(misfit(Field::Mode, value)),
        },
        None => Err(missing(Field::Mode)),
    }
}

/// A text that must be there, lent by the line. `BadField` where it is not.
pub fn lent_text<'a>(field: Field, line: &Value<'a>) -> Result<&'a str, Fault>
    ensures { GivesAll (λ s. s.now) result (text field (view line.now)) }
{
    match line.get(field.name()) {
        Some(Value::String(text)) => Ok(*text),
        Some(value) => Err(misfit(field, value)),
        None => Err(missing(field)),
    }
}

/// A text that must be there. The cost grows with it.
pub fn text(alloc: Global, field: Field, line: &Value<'_>) -> Result<Text, ReadError>
    ensures { Gives (λ t. t) result (text field (view line.now)) }
{
    let text = lent_text(field, line)?;
    Ok(Text::copy_of(alloc, text)?)
}

/// A text that may be absent. The cost grows with it.
pub fn optional_text(
    alloc: Global,
    field: Field,
    line: &Value<'_>,
) -> Result<Option<Text>, ReadError>
    ensures { Gives (λ t. t) result (given as_str field (view line.now)) }
{
    match line.get(field.name()) {
        Some(Value::String(text)) => Ok(Some(Text::copy_of(alloc, text)?)),
        Some(value) => Err(ReadError::Fault(misfit(field, value))),
        None => Ok(None),
    }
}

/// The same, lent by the line.
pub(crate) fn lent_optional_text<'a>(
    field: Field,
    line: &Value<'a>,
) -> Result<Option<LentText<'a>>, Fault>
    ensures { result ≡ given as_str field (view line.now) }
{
    match line.get(field.name()) {
        Some(Value::String(text)) => Ok(Some(LentText::new(text))),
        Some(value) => Err(misfit(field, value)),
        None => Ok(None),
    }
}

/// A text, lent by the line, the empty one where it is absent.
pub(crate) fn text_or_empty<'a>(field: Field, line: &Value<'a>) -> Result<&'a str, Fault>
    ensures { GivesAll (λ s. s.now) result (optional as_str field (Ok []) (view line.now)) }
{
    match line.get(field.name()) {
        Some(_) => lent_text(field, line),
        None => Ok(""),
    }
}

/// The texts of an array, where each item is one.
fn texts_in(alloc: Global, values: &[Value<'_>]) -> Result<Option<Sequence<Text>>, AllocError>
    ensures { IfOk result (λ texts. texts ≡ each_item as_str (items_view values.now)) }
{
    let mut texts = Sequence::new(alloc);
    for value in values {
        let Some(text) = value.as_str() else {
            return Ok(None);
        };
        texts.push(Text::copy_of(alloc, text)?)?;
    }
    Ok(Some(texts))
}

/// The paths of an update, none where the line has no such field.
pub(crate) fn paths(alloc: Global, line: &Value<'_>) -> Result<Sequence<Text>, ReadError>
    ensures { Gives (λ paths. paths) result (optional as_texts fields.Paths (Ok []) (view line.now)) }
{
    let Some(value) = line.get(Field::Paths.name()) else {
        return Ok(Sequence::new(alloc));
    };
    let Some(values) = value.as_array() else {
        return Err(ReadError::Fault(misfit(Field::Paths, value)));
    };
    let paths = texts_in(alloc, values)?;
    Ok(paths.ok_or(misfit(Field::Paths, value))?)
}

/// The kind that has the word.
fn kind_named(word: &str) -> Option<Kind>
    ensures { result ≡ kind_named word.now }
{
    match word {
        "View" => Some(Kind::View),
        "Active" => Some(Kind::Active),
        "Committed" => Some(Kind::Committed),
        _ => None,
    }
}

/// A kind that may be absent.
pub(crate) fn optional_kind(line: &Value<'_>) -> Result<Option<Kind>, Fault>
    ensures { result ≡ given as_kind fields.Kind (view line.now) }
{
    match line.get(Field::Kind.name()) {
        Some(value) => {
            let word = value.as_str().ok_or(misfit(Field::Kind, value))?;
            Ok(Some(kind_named(word).ok_or(misfit(Field::Kind, value))?))
        }
        None => Ok(None),
    }
}

/// Two numbers, where these values are two.
#[tactic(auto, using(crate::proofs::Items::no_pair))]
fn pair_in(values: &[Value<'_>]) -> Option<(u64, u64)>
    ensures { result ≡ pair_in (items_view values.now) }
{
    match values {
        [first, second] => Some((first.as_u64()?, second.as_u64()?)),
        _ => None,
    }
}

/// Two numbers in an array.
fn pair(value: &Value<'_>) -> Option<(u64, u64)>
    ensures { result ≡ as_pair (view value.now) }
{
    pair_in(value.as_array()?)
}

fn usage(value: &Value<'_>) -> Option<Usage>
    ensures { result ≡ as_usage (view value.now) }
{
    let (blocks, inodes) = pair(value)?;
    Some(Usage { blocks, inodes })
}

/// A usage that must be there.
pub(crate) fn required_usage(field: Field, line: &Value<'_>) -> Result<Usage, Fault>
    ensures { result ≡ required as_usage field (view line.now) }
{
    match line.get(field.name()) {
        Some(value) => match usage(value) {
            Some(usage) => Ok(usage),
            None => Err(misfit(field, value)),
        },
        None => Err(missing(field)),
    }
}

/// A usage, `[blocks, inodes]`, that may be absent. `BadField` where it is there and no such pair.
pub fn usage_or(default: Usage, field: Field, line: &Value<'_>) -> Result<Usage, Fault>
    ensures { result ≡ optional as_usage field (Ok default) (view line.now) }
{
    match line.get(field.name()) {
        Some(value) => match usage(value) {
            Some(usage) => Ok(usage),
            None => Err(misfit(field, value)),
        },
        None => Ok(default),
    }
}

/// Adds a label to those that there are, where these are at most as many as a snapshot may have: one more is kept,
/// since it is refused.
fn insert_within(
    alloc: Global,
    labels: &mut Labels,
    key: &str,
    value: &str,
) -> Result<(), AllocError>
    ensures { OnOk result (labels.new ≡ with_label_within labels.old key.now value.now) }
{
    if labels.len() > MAX_LABELS {
        return Ok(());
    }
    let key = Text::copy_of(alloc, key)?;
    let value = Text::copy_of(alloc, value)?;
    labels.insert(key, value)
}

/// The labels of an object's members, where each is a text: the first 65.
fn labels_in(
    alloc: Global,
    members: &BTreeMap<&str, &Value<'_>>,
) -> Result<Option<Labels>, AllocError>
    ensures { IfOk result (λ labels. labels ≡ labels_with [] (members_of members.now.entries)) }
{
    let mut labels = Labels::new(alloc);
    for (key, member) in members.iter() {
        let Some(value) = member.as_str() else {
            return Ok(None);
        };
        insert_within(alloc, &mut labels, key, value)?;
    }
    Ok(Some(labels))
}

/// The first member that is no well-formed label.
fn malformed_in<'v, 'a>(members: &BTreeMap<&'a str, &'v Value<'a>>) -> Option<(&'a str, &'a str)>
    ensures { option_map (λ label. (label.0.now, label.1.now)) result ≡ malformed_in (members_of members.now.entries) }
{
    for (key, member) in members.iter() {
        if let Some(value) = member.as_str() {
            if !is_label(key, value) {
                return Some((*key, value));
            }
        }
    }
    None
}

/// Adds the member of this key to the labels, if there is one.
fn insert_member(
    alloc: Global,
    members: &BTreeMap<&str, &Value<'_>>,
    labels: &mut Labels,
    key: &str,
) -> Result<(), AllocError>
    ensures { OnOk result (labels.new ≡ with_member (members_of members.now.entries) labels.old key.now) }
{
    let Some(member) = members.get(key) else {
        return Ok(());
    };
    match member.as_str() {
        Some(value) => insert_within(alloc, labels, key, value),
        None => Ok(()),
    }
}

/// The labels of those members that the paths name.
fn named_in(
    alloc: Global,
    members: &BTreeMap<&str, &Value<'_>>,
    paths: &[Text],
) -> Result<Labels, AllocError>
    ensures { IfOk result (λ labels. labels ≡ with_named_in (members_of members.now.entries) [] paths.now) }
{
    let mut labels = Labels::new(alloc);
    for path in paths {
        if let Some(key) = named_key(path.as_str()) {
            insert_member(alloc, members, &mut labels, key)?;
        }
    }
    Ok(labels)
}

/// What decides an update by paths that gives more than `MAX_LABELS` labels.
fn deciding_in<'v, 'a>(
    alloc: Global,
    members: &BTreeMap<&'a str, &'v Value<'a>>,
    paths: &[Text],
) -> Result<Labels, AllocError>
    ensures { IfOk result (λ labels. labels ≡ deciding_in (members_of members.now.entries) paths.now) }
{
    let Some((key, value)) = malformed_in(members) else {
        return named_in(alloc, members, paths);
    };
    let mut labels = Labels::new(alloc);
    insert_within(alloc, &mut labels, key, value)?;
    Ok(labels)
}

/// The labels of an update with these paths, of which the first 65 were found.
pub(crate) fn labels_of_update(
    alloc: Global,
    line: &Value<'_>,
    paths: &[Text],
    found: Labels,
) -> Result<Labels, AllocError>
    ensures { IfOk result (λ labels. labels ≡ labels_of_update (view line.now) paths.now found) }
{
    if found.len() <= MAX_LABELS || replaces_all(paths) {
        return Ok(found);
    }
    let Some(value) = line.get(Field::Labels.name()) else {
        return Ok(found);
    };
    match value.as_object() {
        Some(members) => deciding_in(alloc, &by_name(alloc, members)?, paths),
        None => Ok(found),
    }
}

/// Labels that must be there.
pub(crate) fn required_labels(alloc: Global, line: &Value<'_>) -> Result<Labels, ReadError>
    ensures { Gives (λ labels. labels) result (required as_labels fields.Labels (view line.now)) }
{
    let value = line
        .get(Field::Labels.name())
        .ok_or(missing(Field::Labels))?;
    let Some(members) = value.as_object() else {
        return Err(ReadError::Fault(misfit(Field::Labels, value)));
    };
    let labels = labels_in(alloc, &by_name(alloc, members)?)?;
    Ok(labels.ok_or(misfit(Field::Labels, value))?)
}

/// Labels, none where the line has no such field.
pub(crate) fn labels(alloc: Global, line: &Value<'_>) -> Result<Labels, ReadError>
    ensures { Gives (λ labels. labels) result (optional as_labels fields.Labels (Ok []) (view line.now)) }
{
    match line.get(Field::Labels.name()) {
        Some(_) => required_labels(alloc, line),
        None => Ok(Labels::new(alloc)),
    }
}

/// Labels that may be absent: at most the first 65 in byte order of their keys, since more than 64 are refused.
/// `BadField` where they are there and no object of texts. The memory and the cost grow with the object.
pub fn optional_labels(alloc: Global, line: &Value<'_>) -> Result<Option<Labels>, ReadError>
    ensures { Gives (λ labels. labels) result (given as_labels fields.Labels (view line.now)) }
{
    let Some(value) = line.get(Field::Labels.name()) else {
        return Ok(None);
    };
    let Some(members) = value.as_object() else {
        return Err(ReadError::Fault(misfit(Field::Labels, value)));
    };
    let labels = labels_in(alloc, &by_name(alloc, members)?)?;
    Ok(Some(labels.ok_or(misfit(Field::Labels, value))?))
}

/// A label that is asked for: with the text as its value, or with any value where null stands for it.
fn label_filter(
    alloc: Global,
    key: &str,
    value: &Value<'_>,
) -> Result<Option<LabelFilter>, AllocError>
    ensures { IfOk result (λ filter. filter ≡ label_filter key.now (view value.now)) }
{
    let value = match value {
        Value::Null => None,
        Value::String(text) => Some(Text::copy_of(alloc, text)?),
        _ => return Ok(None),
    };
    let key = Text::copy_of(alloc, key)?;
    Ok(Some(LabelFilter { key, value }))
}

/// The labels that an object's members ask for, where each is a text or null.
fn label_filters_in(
    alloc: Global,
    members: &BTreeMap<&str, &Value<'_>>,
) -> Result<Option<Sequence<LabelFilter>>, AllocError>
    ensures { IfOk result (λ filters. filters ≡ label_filters_in (members_of members.now.entries)) }
{
    let mut filters = Sequence::new(alloc);
    for (key, value) in members.iter() {
        let Some(filter) = label_filter(alloc, key, value)? else {
            return Ok(None);
        };
        filters.push(filter)?;
    }
    Ok(Some(filters))
}

/// The labels that are asked for, none where the line has no such field.
pub(crate) fn label_filters(
    alloc: Global,
    line: &Value<'_>,
) -> Result<Sequence<LabelFilter>, ReadError>
    ensures { Gives (λ filters. filters) result (optional as_label_filters fields.Labels (Ok []) (view line.now)) }
{
    let Some(value) = line.get(Field::Labels.name()) else {
        return Ok(Sequence::new(alloc));
    };
    let Some(members) = value.as_object() else {
        return Err(ReadError::Fault(misfit(Field::Labels, value)));
    };
    let filters = label_filters_in(alloc, &by_name(alloc, members)?)?;
    Ok(filters.ok_or(misfit(Field::Labels, value))?)
}

/// A namespace: a name, blocks and inodes.
fn namespace(alloc: Global, value: &Value<'_>) -> Result<Option<Namespace>, AllocError>
    ensures { IfOk result (λ namespace. namespace ≡ as_namespace (view value.now)) }
{
    let Some(values) = value.as_array() else {
        return Ok(None);
    };
    let [name, limit @ ..] = values else {
        return Ok(None);
    };
    let (Some(name), Some((blocks, inodes))) = (name.as_str(), pair_in(limit)) else {
        return Ok(None);
    };
    Ok(Some(Namespace {
        name: Text::copy_of(alloc, name)?,
        limit: Usage { blocks, inodes },
    }))
}

/// The namespaces of an array, where each item is one.
fn namespaces_in(
    alloc: Global,
    values: &[Value<'_>],
) -> Result<Option<Sequence<Namespace>>, AllocError>
    ensures { IfOk result (λ namespaces. namespaces ≡ each_item as_namespace (items_view values.now)) }
{
    let mut namespaces = Sequence::new(alloc);
    for value in values {
        let Some(namespace) = namespace(alloc, value)? else {
            return Ok(None);
        };
        namespaces.push(namespace)?;
    }
    Ok(Some(namespaces))
}

/// The namespaces of a line.
pub(crate) fn namespaces(alloc: Global, line: &Value<'_>) -> Result<Sequence<Namespace>, ReadError>
    ensures { Gives (λ namespaces. namespaces) result (required as_namespaces fields.Namespaces (view line.now)) }
{
    let value = line
        .get(Field::Namespaces.name())
        .ok_or(missing(Field::Namespaces))?;
    let Some(values) = value.as_array() else {
        return Err(ReadError::Fault(misfit(Field::Namespaces, value)));
    };
    let namespaces = namespaces_in(alloc, values)?;
    Ok(namespaces.ok_or(misfit(Field::Namespaces, value))?)
}

/// The bytes of a fill.
fn fill(alloc: Global, line: &Value<'_>) -> Result<Bytes, ReadError>
    ensures { Gives (λ bytes. bytes) result (required as_fill fields.Fill (view line.now)) }
{
    let value = line.get(Field::Fill.name()).ok_or(missing(Field::Fill))?;
    let (byte, number) = pair(value).ok_or(misfit(Field::Fill, value))?;
    if byte > 255 || number > MAX_FILE_BYTES {
        return Err(ReadError::Fault(misfit(Field::Fill, value)));
    }
    Ok(Bytes::new(vec![in alloc; byte as u8; number as usize]?))
}

/// The bytes that are written.
pub(crate) fn content(alloc: Global, line: &Value<'_>) -> Result<Bytes, ReadError>
    ensures { Gives (λ bytes. bytes) result (content_bytes_of (view line.now)) }
{
    match line.get(Field::Text.name()) {
        Some(Value::String(text)) => Ok(Bytes::copy_of(alloc, text.as_bytes())?),
        Some(value) => Err(ReadError::Fault(misfit(Field::Text, value))),
        None => fill(alloc, line),
    }
}

/// The digest of a file, if there is one.
pub(crate) fn digest(alloc: Global, line: &Value) -> Result<Option<Bytes>, ReadError>
    ensures { Gives (λ digest. digest) result (given as_str fields.Digest (view line.now)) }
{
    match line.get(Field::Digest.name()) {
        Some(Value::String(text)) => Ok(Some(Bytes::copy_of(alloc, text.as_bytes())?)),
        Some(value) => Err(ReadError::Fault(misfit(Field::Digest, value))),
        None => Ok(None),
    }
}

/// The target of a symlink.
pub(crate) fn target(alloc: Global, line: &Value<'_>) -> Result<Bytes, ReadError>
    ensures { Gives (λ bytes. bytes) result (text fields.Target (view line.now)) }
{
    let target = lent_text(Field::Target, line)?;
    Ok(Bytes::copy_of(alloc, target.as_bytes())?)
}
