// What the tests share. Where memory is missing, the test ends.
ghost use Rattle.std.specs.Prelude.{◌≡◌, ◌≤◌, IsTrue};
ghost use Rattle.snap_layer.specs.Edits.{root_only};
ghost use Rattle.snap_path.specs.Text.{path_names};
ghost use Rattle.test_parts.specs.Worked.{usage};

use snap_layer::{Layer, Meta};
use snap_path::Path;
use snap_record::Text;
use snap_usage::Usage;
use std::alloc::Global;
use std::fmt::Debug;
use std::process::Abort;

/// Ends the test where the two differ. An `assert_eq!` of its own in each place is dearer to prove.
pub fn equal<T: PartialEq + Debug + Drop, R: Abort>(rt: &R, found: T, wanted: T) {
    assert_eq!(rt; found, wanted);
}

/// Ends the test where this does not hold.
pub fn holds<R: Abort>(rt: &R, fact: bool)
    ensures { IsTrue fact }
{
    assert!(rt; fact);
}

pub fn usage(blocks: u64, inodes: u64) -> Usage
    ensures { result ≡ usage blocks inodes }
{
    Usage { blocks, inodes }
}

pub fn path<R: Abort>(rt: &R, alloc: Global, text: &str) -> Path
    ensures { result ≡ path_names text.now }
{
    Path::parse(alloc, text).expect(rt, "a path")
}

pub fn text<R: Abort>(rt: &R, alloc: Global, text: &str) -> Text
    ensures { result ≡ text.now }
{
    Text::copy_of(alloc, text).expect(rt, "memory for a text")
}

/// A layer of the root alone.
pub fn layer<R: Abort>(rt: &R, alloc: Global, mode: u32) -> Layer
    requires { mode ≤ 4095 }
    ensures { result ≡ root_only (record { mode = mode }) 1 }
{
    Layer::empty(alloc, Meta { mode }).expect(rt, "memory for a layer")
}
