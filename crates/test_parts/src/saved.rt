// Layers that are saved and restored, at once and piece by piece, and parts that make no layer.
ghost use Rattle.std.specs.Prelude.{◌≡◌, IfSome};
ghost use Rattle.snap_layer.specs.Layers.{IsLayer};

use crate::setup::{equal, layer, path};
use snap_layer::{Body, Bytes, Content, Layer, Meta};
use snap_path::Path;
use snap_path::limits::DEFAULT_MODE;
use snap_saved::{Gathering, Piece, PieceError, Saved, SavedDir, SavedFile, restore, save};
use std::alloc::Global;
use std::process::Abort;

#[test]
fn a_layer_comes_back(rt: HostRuntime) {
    let mut layer = layer(&rt, rt.alloc(), DEFAULT_MODE);
    let (file, link) = (path(&rt, rt.alloc(), "/f"), path(&rt, rt.alloc(), "/g"));
    let bytes = Bytes::copy_of(rt.alloc(), b"hi").expect(&rt, "memory for bytes");
    assert!(rt; layer.has_rooms(&file, &link));
    let content = Content::Bytes(bytes);
    let meta = Meta { mode: 420 };
    let added = layer.add_linked(&file, &link, Body::File { meta, content });
    added.expect(&rt, "memory for a file");
    let parts = save(rt.alloc(), &layer).expect(&rt, "memory for a saved layer");
    let next = parts.next;
    prove!(next == 2);
    let again = restore(rt.alloc(), parts).expect(&rt, "the layer");
    let same = again == layer;
    prove!(same);
}

// The layer of a layer's pieces is the same, wherever memory suffices.
fn again(alloc: Global, layer: &Layer) -> Option<Layer>
    requires { IsLayer layer.now }
    ensures { IfSome result (λ l. l ≡ layer.now) }
{
    let Ok(saved) = save(alloc, layer) else {
        return None;
    };
    let Ok((head, pieces)) = saved.into_pieces(alloc) else {
        return None;
    };
    let mut gathering = Gathering::begin(alloc, head);
    for piece in pieces {
        let Ok(()) = gathering.put(piece) else {
            return None;
        };
    }
    gathering.restore().ok()
}

// Its file has two pieces of bytes, of which the second has one.
#[test]
fn pieces_make_the_layer(rt: HostRuntime) {
    let mut layer = layer(&rt, rt.alloc(), DEFAULT_MODE);
    let (file, link) = (path(&rt, rt.alloc(), "/f"), path(&rt, rt.alloc(), "/g"));
    let bytes = Vec::from_elem(rt.alloc(), 120, 262_145).expect(&rt, "memory for bytes");
    assert!(rt; layer.has_rooms(&file, &link));
    let content = Content::Bytes(Bytes::new(bytes));
    let meta = Meta { mode: 420 };
    let added = layer.add_linked(&file, &link, Body::File { meta, content });
    added.expect(&rt, "memory for a file");
    let again = again(rt.alloc(), &layer).expect(&rt, "the layer");
    let same = again == layer;
    prove!(same);
}

// No file has begun.
#[test]
fn a_piece_has_its_place(rt: HostRuntime) {
    let layer = layer(&rt, rt.alloc(), DEFAULT_MODE);
    let saved = save(rt.alloc(), &layer).expect(&rt, "memory for a saved layer");
    let (head, _) = saved
        .into_pieces(rt.alloc())
        .expect(&rt, "memory for pieces");
    let mut gathering = Gathering::begin(rt.alloc(), head);
    let put = gathering.put(Piece::Name(path(&rt, rt.alloc(), "/f")));
    let refused = put == Err(PieceError::Misplaced);
    assert!(rt; refused);
}

fn paths<R: Abort>(rt: &R, alloc: Global, texts: &[&str]) -> Vec<Path> {
    let mut paths = Vec::new(alloc);
    for text in texts {
        let path = path(rt, alloc, text);
        paths.push(path).expect(rt, "memory for a path");
    }
    paths
}

fn dirs<R: Abort>(rt: &R, alloc: Global, mode: u32, texts: &[&str]) -> Vec<SavedDir> {
    let mut dirs = Vec::new(alloc);
    for path in paths(rt, alloc, texts) {
        let meta = Meta { mode };
        let opaque = false;
        let dir = SavedDir { path, meta, opaque };
        dirs.push(dir).expect(rt, "memory for a directory");
    }
    dirs
}

// A layer of these parts: its root's mode and that of its other directories, their paths, those of its whiteouts, the
// number and the names of its one file, which is empty, the next number, and the most inodes.
#[derive(Clone, Copy)]
struct Given<'a> {
    modes: (u32, u32),
    dirs: &'a [&'a str],
    whiteouts: &'a [&'a str],
    number: u32,
    names: &'a [&'a str],
    next: u32,
    most: usize,
}

// The text of the error, or none where they make a layer.
fn refusal<R: Abort>(rt: &R, alloc: Global, given: &Given<'_>) -> String {
    let (root, below) = given.modes;
    let body = Body::File {
        meta: Meta { mode: 420 },
        content: Content::empty(alloc),
    };
    let file = SavedFile {
        number: given.number,
        body,
        names: paths(rt, alloc, given.names),
    };
    let parts = Saved {
        meta: Meta { mode: root },
        opaque: false,
        dirs: dirs(rt, alloc, below, given.dirs),
        whiteouts: paths(rt, alloc, given.whiteouts),
        files: Vec::from_array(alloc, [file]).expect(rt, "memory for a file"),
        next: given.next,
        most: given.most,
    };
    match restore(alloc, parts) {
        Ok(_) => String::new(alloc),
        Err(error) => format!(in alloc; "{error}").expect(rt, "memory for a text"),
    }
}

#[test]
fn the_part_and_its_fault_are_named(rt: HostRuntime) {
    let whole = Given {
        modes: (493, 493),
        dirs: &["/d", "/d/e"],
        whiteouts: &["/w"],
        number: 3,
        names: &["/d/f", "/g"],
        next: 4,
        most: 5,
    };
    for (given, text) in [
        (Given { ..whole }, ""),
        (
            Given {
                modes: (4096, 493),
                ..whole
            },
            "the root: a mode above 7777",
        ),
        (
            Given {
                modes: (493, 4096),
                ..whole
            },
            "directory 0: a mode above 7777",
        ),
        (
            Given { most: 0, ..whole },
            "the most inodes: no such number of inodes",
        ),
        (Given { most: 2, ..whole }, "directory 1: the layer is full"),
        (
            Given {
                dirs: &["/d", "/c"],
                ..whole
            },
            "directory 1: not in order",
        ),
        (
            Given {
                dirs: &["/d", "/x/e"],
                ..whole
            },
            "directory 1: not in a directory",
        ),
        (
            Given {
                whiteouts: &["/a", "/d"],
                ..whole
            },
            "whiteout 1: something stands there already",
        ),
        (
            Given {
                names: &[],
                ..whole
            },
            "file 0: no name",
        ),
        (
            Given { number: 0, ..whole },
            "file 0: a number that is taken",
        ),
        (
            Given {
                names: &["/f", "/w"],
                ..whole
            },
            "name 1 of file 0: something stands there already",
        ),
        (
            Given {
                names: &["/f", "/w/g"],
                ..whole
            },
            "name 1 of file 0: not in a directory",
        ),
        (
            Given { next: 3, ..whole },
            "the next number: a number that is taken",
        ),
    ] {
        let found = refusal(&rt, rt.alloc(), &given);
        equal(&rt, found.as_str(), text);
    }
}
