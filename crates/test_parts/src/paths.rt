// Paths: which texts are paths, and the parts of a path.
ghost use Rattle.std.specs.Prelude.{◌≡◌, not};
ghost use Rattle.snap_path.specs.Text.{is_path};

use crate::setup::path;
use snap_path::{Name, Path, PathError};
use std::alloc::Global;
use std::cmp::Ordering;

/// Whether the text is refused as no path.
fn is_bad(alloc: Global, text: &str) -> bool
    ensures { result ≡ not (is_path text.now) }
{
    match Path::parse(alloc, text) {
        Err(PathError::BadPath) => true,
        _ => false,
    }
}

#[test]
fn texts_of_paths(rt: HostRuntime) {
    let alloc = rt.alloc();
    let root = is_bad(alloc, "/");
    let hidden = is_bad(alloc, "/.a");
    let dots = is_bad(alloc, "/a./..b/...");
    let two_bytes = is_bad(alloc, "/\u{e9}");
    prove!(!root);
    assert!(rt; !hidden && !dots && !two_bytes);
    let empty = is_bad(alloc, "");
    let relative = is_bad(alloc, "a");
    let closed = is_bad(alloc, "/a/");
    let doubled = is_bad(alloc, "/a//b");
    let above = is_bad(alloc, "/..");
    let nul = is_bad(alloc, "/a\0");
    prove!(empty && relative);
    assert!(rt; closed && doubled && above && nul);
}

#[test]
fn parts_of_a_path(rt: HostRuntime) {
    let path = path(&rt, rt.alloc(), "/usr/lib/x");
    let (names, text, name) = (path.names().len(), path.as_str(), path.name().unwrap());
    let name = name.as_str();
    prove!(names == 3 && text == "/usr/lib/x" && name == "x");
}

#[test]
fn a_parent_and_a_front(rt: HostRuntime) {
    let path = path(&rt, rt.alloc(), "/usr/lib/x");
    let parent = path.parent().expect(&rt, "memory for a path").unwrap();
    let front = path.front(1).expect(&rt, "memory for a path");
    let (parent, front) = (parent.as_str(), front.as_str());
    prove!(parent == "/usr/lib" && front == "/usr");
}

#[test]
fn the_root(rt: HostRuntime) {
    let root = Path::root(rt.alloc());
    let parent = root.parent().expect(&rt, "memory for a path");
    let (text, has_name, has_parent) = (root.as_str(), root.name().is_some(), parent.is_some());
    prove!(text == "/" && !has_name && !has_parent);
}

#[test]
fn a_join(rt: HostRuntime) {
    let lib = Name::parse(rt.alloc(), "lib").expect(&rt, "a name");
    let joined = path(&rt, rt.alloc(), "/usr")
        .join(&lib)
        .expect(&rt, "a path");
    let text = joined.as_str();
    prove!(text == "/usr/lib");
}

#[test]
fn the_order(rt: HostRuntime) {
    let below = path(&rt, rt.alloc(), "/a/b");
    let beside = path(&rt, rt.alloc(), "/a-b");
    let order = below.cmp(&beside);
    prove!(order == Ordering::Less);
}
