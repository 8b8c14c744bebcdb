ghost use Rattle.std.specs.Prelude.{◌≡◌, ◌==◌};
ghost use Rattle.std.specs.List.{list_any, list_all};
ghost use Rattle.snap_call.specs.Namespaces.{has_name};
ghost use Rattle.snap_call.specs.Forms.{is_text, is_key, is_parent, is_page, is_slots, is_start, is_limit, is_namespace, is_space, have_distinct_names};

use crate::config::Namespace;
use crate::limits::{MAX_KEY_BYTES, MAX_LIMIT, MAX_NAMESPACE_BYTES, MAX_PAGE, MAX_SLOTS};
use snap_usage::Usage;

/// Whether the text has 1 to `most` bytes, none of them NUL.
fn is_text(most: usize, text: &str) -> bool
    ensures { result ≡ is_text most text.now }
{
    let bytes = text.as_bytes();
    1 <= bytes.len() && bytes.len() <= most && !has_nul(bytes)
}

fn has_nul(bytes: &[u8]) -> bool
    ensures { result ≡ list_any (λ b. b == 0) bytes.now }
{
    for byte in bytes {
        if *byte == 0 {
            return true;
        }
    }
    false
}

/// Whether the text can be a key of a snapshot, or the name of a committed snapshot, of a parent or
/// of a lease: 1 to 1024 bytes without NUL. Takes no memory.
pub fn is_key(text: &str) -> bool
    ensures { result ≡ is_key text.now }
{
    is_text(MAX_KEY_BYTES, text)
}

/// Whether the text can be given as a parent: the empty text, which stands for none, or a key. Takes
/// no memory.
pub fn is_parent(text: &str) -> bool
    ensures { result ≡ is_parent text.now }
{
    text.is_empty() || is_key(text)
}

/// Whether one walk can ask for `most` infos: 1 to 64. Takes no memory.
pub fn is_page(most: u64) -> bool
    ensures { result ≡ is_page most }
{
    1 <= most && most <= MAX_PAGE
}

/// Whether a store can have `slots` slots: 1 to 4096. Takes no memory.
pub(crate) fn is_slots(slots: u64) -> bool
    ensures { result ≡ is_slots slots }
{
    1 <= slots && slots <= MAX_SLOTS
}

/// Whether a walk can begin after the text: at most 1024 bytes. Takes no memory.
pub fn is_start(text: &str) -> bool
    ensures { result ≡ is_start text.now }
{
    text.len() <= MAX_KEY_BYTES
}

/// Whether the usage can be a namespace's limit: at most 2^40 blocks and 2^40 inodes.
pub fn is_limit(limit: Usage) -> bool
    ensures { result ≡ is_limit limit }
{
    limit.blocks <= MAX_LIMIT && limit.inodes <= MAX_LIMIT
}

/// Whether the namespace has the form of one: a name of 1 to 255 bytes without NUL, and a limit of at most
/// 2^40 blocks and 2^40 inodes. Takes no memory. The cost grows with the name.
pub fn is_namespace(namespace: &Namespace) -> bool
    ensures { result ≡ is_namespace namespace.now }
{
    is_text(MAX_NAMESPACE_BYTES, namespace.name.as_str()) && is_limit(namespace.limit)
}

/// Whether it is a namespace, or stands at a place that is free for one: without a name, and with the limit
/// 0/0.
fn is_space(namespace: &Namespace) -> bool
    ensures { result ≡ is_space namespace.now }
{
    let limit = namespace.limit;
    is_namespace(namespace) || (!namespace.is_taken() && limit.blocks == 0 && limit.inodes == 0)
}

/// Whether each of them is a namespace.
pub(crate) fn are_namespaces(namespaces: &[Namespace]) -> bool
    ensures { result ≡ list_all is_namespace namespaces.now }
{
    namespaces.iter().all(is_namespace)
}

/// Whether each of them is a namespace, or stands at a place that is free for one.
pub(crate) fn are_spaces(places: &[Namespace]) -> bool
    ensures { result ≡ list_all is_space places.now }
{
    places.iter().all(is_space)
}

/// Whether it is a namespace of this name.
fn has_name(namespace: &Namespace, name: &str) -> bool
    ensures { result ≡ has_name name.now namespace.now }
{
    namespace.is_taken() && namespace.name.as_str() == name
}

fn is_named_in(namespaces: &[Namespace], name: &str) -> bool
    ensures { result ≡ list_any (has_name name.now) namespaces.now }
{
    namespaces.iter().any(|namespace| has_name(namespace, name))
}

/// Whether no two namespaces have the same name. Its cost grows with the square of their number.
pub(crate) fn has_distinct_names(namespaces: &[Namespace]) -> bool
    ensures { result ≡ have_distinct_names namespaces.now }
{
    for (place, namespace) in namespaces.iter().enumerate() {
        if is_named_in(&namespaces[place + 1..], namespace.name.as_str()) {
            return false;
        }
    }
    true
}
