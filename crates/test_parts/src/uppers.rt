// Operations on an upper layer: what they take, and what no view shows.
ghost use Rattle.std.specs.Prelude.{◌≡◌, ◌∷◌, [], false};
ghost use Rattle.snap_path.specs.Text.{path_names};
ghost use Rattle.snap_layer.specs.Edits.{with_entry};
ghost use Rattle.snap_upper.specs.After.{after, lists_names, planned};

use crate::setup::{equal, holds, layer, path, usage};
use snap_layer::{Layer, Meta, Node};
use snap_merge::FsError;
use snap_path::Path;
use snap_path::limits::DEFAULT_MODE;
use snap_upper::{Op, Planned, apply, plan};
use std::alloc::Global;
use std::process::Abort;

// As `plan` says it of the layer alone. An operation of its own in each test is dearer to prove.
fn plan_alone(layer: &Layer, op: Op) -> Result<Planned, FsError>
    ensures { lists_names op (layer.now ∷ []) ≡ false → result ≡ planned (after op layer.now []) }
{
    plan(layer, &[], &op)
}

#[test]
fn plans(rt: HostRuntime) {
    let (alloc, mode) = (rt.alloc(), DEFAULT_MODE);
    let layer = layer(&rt, alloc, mode);
    let path = path(&rt, alloc, "/d");
    let answer = plan_alone(&layer, Op::Mkdir { path, mode });
    let after = usage(2, 2);
    prove!(answer == Ok(Planned { after }));
    let (path, mode) = (Path::root(alloc), 420);
    let answer = plan_alone(&layer, Op::Create { path, mode });
    prove!(answer == Err(FsError::Exists));
}

#[test]
fn a_file_of_a_size_is_planned(rt: HostRuntime) {
    let layer = layer(&rt, rt.alloc(), DEFAULT_MODE);
    let op = Op::Put {
        path: path(&rt, rt.alloc(), "/b"),
        mode: 493,
        size: 5_000_000,
        digest: None,
    };
    let answer = plan_alone(&layer, op);
    let after = usage(1222, 2);
    prove!(answer == Ok(Planned { after }));
}

#[test]
fn an_opaque_root_is_planned(rt: HostRuntime) {
    let layer = layer(&rt, rt.alloc(), DEFAULT_MODE);
    let path = Path::root(rt.alloc());
    let answer = plan_alone(&layer, Op::Opaque { path });
    let after = usage(1, 1);
    prove!(answer == Ok(Planned { after }));
}

#[test]
fn a_whiteout_of_nothing_is_refused(rt: HostRuntime) {
    let layer = layer(&rt, rt.alloc(), DEFAULT_MODE);
    let path = path(&rt, rt.alloc(), "/d");
    let answer = plan_alone(&layer, Op::Whiteout { path });
    prove!(answer == Err(FsError::NotFound));
}

#[test]
fn no_number_is_left(rt: HostRuntime) {
    let last = Layer::empty_from(rt.alloc(), Meta { mode: DEFAULT_MODE }, 4_294_967_295);
    let layer = last.expect(&rt, "memory for a layer");
    let (path, mode) = (path(&rt, rt.alloc(), "/f"), 420);
    let answer = plan_alone(&layer, Op::Create { path, mode });
    prove!(answer == Err(FsError::LayerFull));
}

// Adds a directory to the layer.
fn add_dir<R: Abort>(rt: &R, layer: &mut Layer, text: &str)
    ensures { layer.new ≡ with_entry layer.old (path_names text.now) (Node.Dir (record { mode = 493 }) false) }
{
    let path = path(rt, layer.alloc(), text);
    holds(rt, layer.has_room(&path));
    let added = layer.add_dir(&path, Meta { mode: DEFAULT_MODE }, false);
    added.expect(rt, "memory for a directory");
}

#[test]
fn a_layer_of_three_inodes_is_full(rt: HostRuntime) {
    let made = Layer::within(rt.alloc(), Meta { mode: DEFAULT_MODE }, 3);
    let mut layer = made.expect(&rt, "memory for a layer");
    add_dir(&rt, &mut layer, "/a");
    add_dir(&rt, &mut layer, "/b");
    let path = path(&rt, rt.alloc(), "/c");
    let answer = plan_alone(&layer, Op::Create { path, mode: 420 });
    prove!(answer == Err(FsError::LayerFull));
}

// Does the operation on the layer alone.
fn apply_and_see<R: Abort>(rt: &R, layer: &mut Layer, op: Op, wanted: Result<(), FsError>) {
    equal(rt, apply(layer, &[], &op), wanted);
}

#[test]
fn the_last_file_number_is_given(rt: HostRuntime) {
    let last = Layer::empty_from(rt.alloc(), Meta { mode: DEFAULT_MODE }, 4_294_967_294);
    let mut layer = last.expect(&rt, "memory for a layer");
    for (text, wanted) in [("/f", Ok(())), ("/g", Err(FsError::LayerFull))] {
        let (path, mode) = (path(&rt, rt.alloc(), text), 420);
        apply_and_see(&rt, &mut layer, Op::Create { path, mode }, wanted);
    }
}

// No view shows the mark, so no script can.
#[test]
fn a_directory_in_place_of_a_whiteout_is_opaque(rt: HostRuntime) {
    let (alloc, mode) = (rt.alloc(), DEFAULT_MODE);
    let (mut layer, place) = (layer(&rt, alloc, mode), path(&rt, alloc, "/d"));
    holds(&rt, layer.has_place(&place));
    layer
        .add_whiteout(&place)
        .expect(&rt, "memory for a whiteout");
    let path = path(&rt, alloc, "/d");
    apply_and_see(&rt, &mut layer, Op::Mkdir { path, mode }, Ok(()));
    let (meta, opaque) = (Meta { mode }, true);
    equal(&rt, layer.at(&place), Some(Node::Dir { meta, opaque }));
}
