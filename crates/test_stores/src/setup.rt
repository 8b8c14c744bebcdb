// What the tests share. Where memory is missing, or an answer that a test only builds on, the test ends.
ghost use Rattle.std.specs.Prelude.{◌≡◌, [], ◌∷◌, codes};

use snap_call::limits::DEFAULT_SLOTS;
use snap_call::{Config, Namespace};
use snap_ledger::NewTable;
use snap_path::Path;
use snap_record::{Sequence, Text};
use snap_store::NewStore;
use snap_usage::Usage;
use std::alloc::Global;
use std::fmt::{Debug, Display};
use std::process::Abort;

pub fn usage(blocks: u64, inodes: u64) -> Usage {
    Usage { blocks, inodes }
}

/// Ends the test where the two differ, and prints what is shown by them. An `assert_eq!` of its own in each
/// place is dearer to prove.
pub fn equal<T: PartialEq + Debug + Drop, R: Abort>(rt: &R, shown: &str, found: T, wanted: T) {
    assert_eq!(rt; found, wanted, "{shown}");
}

/// Ends the test where the value isn't printed as these words.
pub fn says<T: Display, R: Abort>(rt: &R, alloc: Global, value: &T, words: &str) {
    let said = value.to_string(alloc).expect(rt, "memory for words");
    equal(rt, "the words of a value", said.as_str(), words);
}

pub fn text<R: Abort>(rt: &R, alloc: Global, text: &str) -> Text
    ensures { result ≡ text.now }
{
    Text::copy_of(alloc, text).expect(rt, "memory for a text")
}

pub fn path<R: Abort>(rt: &R, alloc: Global, text: &str) -> Path {
    Path::parse(alloc, text).expect(rt, "a path")
}

/// The namespace a with the limit, and a journal of `journal` entries.
pub fn config<R: Abort>(rt: &R, alloc: Global, limit: Usage, journal: u64) -> Config
    ensures { result ≡ record { root = codes "/r"; namespaces = record { name = codes "a"; limit = limit } ∷ []; slots = 64; journal = journal; first_id = 1; layer_inodes = 65536; ancestors = 64 } }
{
    let mut namespaces = Sequence::new(alloc);
    let name = text(rt, alloc, "a");
    let pushed = namespaces.push(Namespace { name, limit });
    pushed.expect(rt, "memory for a namespace");
    Config {
        root: text(rt, alloc, "/r"),
        namespaces,
        slots: DEFAULT_SLOTS,
        journal,
        first_id: 1,
        layer_inodes: 65_536,
        ancestors: 64,
    }
}

pub fn new_table<R: Abort>(rt: &R, alloc: Global) -> NewTable {
    NewTable::new(alloc).expect(rt, "a table")
}

pub fn new_store<R: Abort>(rt: &R, alloc: Global) -> NewStore {
    NewStore::new(alloc).expect(rt, "the tables of a store")
}
