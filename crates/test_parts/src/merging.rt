// What a stack shows, what is below an upper layer and what that changes, by layers of a root, alone or with a file.
ghost use Rattle.std.specs.Prelude.{◌≡◌, ◌∷◌, [], None};
ghost use Rattle.snap_layer.specs.declared.content.Content.TheVariants as content_kinds;
ghost use Rattle.snap_layer.specs.declared.node.Body.TheVariants as body_kinds;
ghost use Rattle.snap_layer.specs.declared.node.Node.TheVariants as node_kinds;
ghost use Rattle.snap_layer.specs.Edits.{root_only, with_new};

use crate::setup::{layer, path};
use snap_copyup::{below, is_pure};
use snap_diff::changes;
use snap_layer::{Content, Layer, Meta, Shared};
use snap_merge::{FsError, Seen, Stack, hides};
use snap_path::Path;
use snap_path::limits::DEFAULT_MODE;
use std::alloc::Global;
use std::process::Abort;

/// A lower layer with a root of mode octal 755.
fn lower<R: Abort>(rt: &R, alloc: Global) -> Shared
    ensures { result ≡ root_only (record { mode = 493 }) 1 }
{
    Shared::new(layer(rt, alloc, DEFAULT_MODE)).expect(rt, "memory for a lower layer")
}

/// A layer with a file of 10 bytes at `/f`, which nobody knows.
fn unknown<R: Abort>(rt: &R, alloc: Global) -> Layer
    ensures { result ≡ with_new (root_only (record { mode = 493 }) 1) ((102 ∷ []) ∷ []) (node_kinds.File 1) (body_kinds.File (record { mode = 420 }) (content_kinds.Sized 10 None)) }
{
    let mut layer = layer(rt, alloc, DEFAULT_MODE);
    let path = path(rt, alloc, "/f");
    assert!(rt; layer.has_place(&path));
    let content = Content::Sized {
        size: 10,
        digest: None,
    };
    let added = layer.add_file(&path, Meta { mode: 420 }, content);
    added.expect(rt, "memory for a file");
    layer
}

#[test]
fn what_roots_show(rt: HostRuntime) {
    let root = Path::root(rt.alloc());
    let (lowers, top) = ([lower(&rt, rt.alloc())], layer(&rt, rt.alloc(), 448));
    let seen = Stack::over(&top, &lowers).look(&root);
    prove!(matches!(
        &seen,
        Some(Seen::Dir {
            meta: Meta { mode: 448 }
        })
    ));
    let under = Stack::of(&lowers).look(&root);
    prove!(matches!(
        &under,
        Some(Seen::Dir {
            meta: Meta { mode: DEFAULT_MODE }
        })
    ));
}

#[test]
fn nothing_is_there(rt: HostRuntime) {
    let layer = layer(&rt, rt.alloc(), DEFAULT_MODE);
    let stack = Stack::over(&layer, &[]);
    let walked = stack.walk(&path(&rt, rt.alloc(), "/no/x"));
    prove!(matches!(&walked, Err(FsError::NotFound)));
    let read = stack.read(&Path::root(rt.alloc()));
    prove!(matches!(&read, Err(FsError::IsDir)));
    let taken = stack.taken(rt.alloc(), &path(&rt, rt.alloc(), "/no/x"));
    prove!(matches!(&taken, Err(FsError::NotFound)));
}

#[test]
fn the_root_is_empty(rt: HostRuntime) {
    let layer = layer(&rt, rt.alloc(), DEFAULT_MODE);
    let stack = Stack::over(&layer, &[]);
    let root = Path::root(rt.alloc());
    let names = stack.list(rt.alloc(), &root);
    let names = names.expect(&rt, "memory for a list").len();
    prove!(names == 0);
    let place = stack.resolve(rt.alloc(), &root);
    let place = place.expect(&rt, "memory for a path");
    let place = place.as_str();
    prove!(place == "/");
}

#[test]
#[tactic(auto, using(crate::proofs::Counted::root_taken))]
fn the_root_takes_one_of_both(rt: HostRuntime) {
    let layer = layer(&rt, rt.alloc(), DEFAULT_MODE);
    let taken = Stack::over(&layer, &[]).taken(rt.alloc(), &Path::root(rt.alloc()));
    let taken = taken.expect(&rt, "memory for what is found");
    prove!(taken.blocks == 1 && taken.inodes == 1);
}

#[test]
#[tactic(auto, using(crate::proofs::Counted::root_changed))]
fn a_root_of_another_mode_is_changed(rt: HostRuntime) {
    let (lowers, top) = ([lower(&rt, rt.alloc())], layer(&rt, rt.alloc(), 448));
    let found = changes(rt.alloc(), &top, &lowers, None, 64);
    let found = found.expect(&rt, "memory for changes").len();
    prove!(found == 1);
}

#[test]
#[tactic(auto, using(crate::proofs::Counted::unknown_changed))]
fn a_file_that_nobody_knows_is_changed(rt: HostRuntime) {
    let lower = Shared::new(unknown(&rt, rt.alloc()));
    let lowers = [lower.expect(&rt, "memory for a lower layer")];
    let found = changes(rt.alloc(), &unknown(&rt, rt.alloc()), &lowers, None, 64);
    let found = found.expect(&rt, "memory for changes").len();
    prove!(found == 1);
}

#[test]
#[tactic(auto, using(crate::proofs::Counted::unknown_untouched))]
fn an_untouched_file_is_not_changed(rt: HostRuntime) {
    let lower = Shared::new(unknown(&rt, rt.alloc()));
    let lowers = [lower.expect(&rt, "memory for a lower layer")];
    let top = layer(&rt, rt.alloc(), DEFAULT_MODE);
    let found = changes(rt.alloc(), &top, &lowers, None, 64);
    let found = found.expect(&rt, "memory for changes").len();
    prove!(found == 0);
}

#[test]
fn an_opaque_root_is_pure(rt: HostRuntime) {
    let lowers = [lower(&rt, rt.alloc())];
    let mut layer = layer(&rt, rt.alloc(), 448);
    let root = Path::root(rt.alloc());
    let pure = is_pure(&layer, &lowers, &root);
    prove!(!pure);
    layer.set_opaque(&root, true);
    let pure = is_pure(&layer, &lowers, &root);
    prove!(pure);
    let hidden = hides(&layer, &path(&rt, rt.alloc(), "/a"));
    prove!(hidden);
    let under = below(&layer, &lowers, &root);
    prove!(matches!(
        &under,
        Some(Seen::Dir {
            meta: Meta { mode: DEFAULT_MODE }
        })
    ));
}
