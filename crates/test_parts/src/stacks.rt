// Stacks of layers that operations have made, and a copy-up.
use crate::setup::{equal, holds, layer, path, usage};
use snap_copyup::copy_up;
use snap_layer::{Bytes, Layer, Meta, Node, Shared};
use snap_merge::{FsError, Stack};
use snap_path::limits::DEFAULT_MODE;
use snap_upper::{Op, apply};
use snap_usage::count;
use std::alloc::Global;
use std::process::Abort;

fn mkdir<R: Abort>(rt: &R, alloc: Global, text: &str) -> Op {
    Op::Mkdir {
        path: path(rt, alloc, text),
        mode: DEFAULT_MODE,
    }
}

fn create<R: Abort>(rt: &R, alloc: Global, text: &str) -> Op {
    Op::Create {
        path: path(rt, alloc, text),
        mode: 420,
    }
}

fn symlink<R: Abort>(rt: &R, alloc: Global, text: &str, target: &str) -> Op {
    Op::Symlink {
        path: path(rt, alloc, text),
        target: Bytes::copy_of(alloc, target.as_bytes()).expect(rt, "memory for a target"),
    }
}

/// Does these operations on the layer.
fn carry_out<const N: usize, R: Abort>(
    rt: &R,
    alloc: Global,
    top: &mut Layer,
    lowers: &[Shared],
    ops: [Op; N],
) {
    let ops = Vec::from_array(alloc, ops).expect(rt, "memory for operations");
    for op in &ops {
        equal(rt, apply(top, lowers, op), Ok(()));
    }
}

/// The layer over the lower ones with these operations done.
fn made<const N: usize, R: Abort>(
    rt: &R,
    alloc: Global,
    lowers: &[Shared],
    ops: [Op; N],
) -> Shared {
    let mut made = layer(rt, alloc, DEFAULT_MODE);
    carry_out(rt, alloc, &mut made, lowers, ops);
    Shared::new(made).expect(rt, "memory for a layer")
}

/// A layer with a whiteout over the lowest one.
fn with_a_whiteout<R: Abort>(rt: &R, alloc: Global, lowest: &[Shared]) -> Shared {
    let file = Op::Unlink {
        path: path(rt, alloc, "/a/b"),
    };
    let directory = Op::Rmdir {
        path: path(rt, alloc, "/a"),
    };
    let middle = made(rt, alloc, lowest, [file, directory]);
    equal(rt, count(middle.layer()), usage(1, 2));
    middle
}

fn shows_an_empty_directory<R: Abort>(rt: &R, alloc: Global, top: &Layer, lowers: &[Shared]) {
    let a = path(rt, alloc, "/a");
    equal(rt, count(top), usage(2, 2));
    let (meta, opaque) = (Meta { mode: DEFAULT_MODE }, false);
    equal(rt, top.at(&a), Some(Node::Dir { meta, opaque }));
    let listed = Stack::over(top, lowers).list(alloc, &a);
    equal(rt, listed.map(|names| names.len()), Ok(0));
}

// A whiteout of the middle layer hides what the lowest one has, also where the top has a directory there. That one
// isn't opaque, as the top had no whiteout.
#[test]
fn a_middle_whiteout(rt: HostRuntime) {
    let alloc = rt.alloc();
    let ops = [mkdir(&rt, alloc, "/a"), create(&rt, alloc, "/a/b")];
    let lowest = [made(&rt, alloc, &[], ops)];
    let middle = with_a_whiteout(&rt, alloc, &lowest);
    let lowers = [middle, lowest[0].again().expect(&rt, "a holder")];
    let top = made(&rt, alloc, &lowers, [mkdir(&rt, alloc, "/a")]);
    shows_an_empty_directory(&rt, alloc, top.layer(), &lowers);
}

fn copies_one_name<R: Abort>(rt: &R, alloc: Global, lowers: &[Shared]) {
    let (p, q) = (path(rt, alloc, "/p"), path(rt, alloc, "/q"));
    let mut top = layer(rt, alloc, DEFAULT_MODE);
    holds(rt, Stack::over(&top, lowers).walk(&p).is_ok());
    equal(rt, copy_up(&mut top, lowers, &p), Ok(()));
    equal(rt, top.at(&p), Some(Node::File { number: 1 }));
    equal(rt, top.at(&q), None);
    equal(rt, count(&top), usage(1, 2));
}

// A copy-up of one of a file's names leaves the others in the lower layer.
#[test]
fn a_copy_of_one_name(rt: HostRuntime) {
    let alloc = rt.alloc();
    let link = Op::Link {
        from: path(&rt, alloc, "/p"),
        to: path(&rt, alloc, "/q"),
    };
    let ops = [create(&rt, alloc, "/p"), link];
    copies_one_name(&rt, alloc, &[made(&rt, alloc, &[], ops)]);
}

fn add_link<R: Abort>(rt: &R, alloc: Global, top: &mut Layer, link: u32, end: u32) {
    let target = format!(in alloc; "l{end}").expect(rt, "memory for a text");
    let text = format!(in alloc; "/l{link}").expect(rt, "memory for a text");
    let op = symlink(rt, alloc, text.as_str(), target.as_str());
    carry_out(rt, alloc, top, &[], [op]);
}

/// A layer with a link to a directory, one to itself, and a file through up to 41 others.
fn with_links<R: Abort>(rt: &R, alloc: Global) -> Layer {
    let mut top = layer(rt, alloc, DEFAULT_MODE);
    let ops = [
        mkdir(rt, alloc, "/d"),
        create(rt, alloc, "/d/x"),
        symlink(rt, alloc, "/l", "d"),
        symlink(rt, alloc, "/s", "s"),
        create(rt, alloc, "/l0"),
    ];
    carry_out(rt, alloc, &mut top, &[], ops);
    for number in 0..41 {
        add_link(rt, alloc, &mut top, number + 1, number);
    }
    top
}

fn leads<R: Abort>(rt: &R, alloc: Global, top: &Layer, text: &str, wanted: Result<&str, FsError>) {
    let place = Stack::over(top, &[]).resolve(alloc, &path(rt, alloc, text));
    match &place {
        Ok(place) => equal(rt, Ok(place.as_str()), wanted),
        Err(error) => equal(rt, Err(*error), wanted),
    }
}

// Where paths lead: through a directory's link, and through 40 symlinks but not 41.
#[test]
fn paths_lead(rt: HostRuntime) {
    let top = with_links(&rt, rt.alloc());
    for (text, wanted) in [
        ("/l/x", Ok("/d/x")),
        ("/s", Err(FsError::TooManyLinks)),
        ("/d/x/y", Err(FsError::NotDir)),
        ("/no", Err(FsError::NotFound)),
        ("/l40", Ok("/l0")),
        ("/l41", Err(FsError::TooManyLinks)),
    ] {
        leads(&rt, rt.alloc(), &top, text, wanted);
    }
}
