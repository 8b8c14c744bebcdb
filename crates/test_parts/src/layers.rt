// Edits of a layer, and what they make of its nodes and of its usage.
use crate::setup::{layer, path};
use snap_layer::{Body, Bytes, Content, Layer, LayerError, Meta, Node};
use snap_path::Path;
use snap_path::limits::DEFAULT_MODE;
use snap_usage::{count, recount};

#[test]
fn the_root_alone(rt: HostRuntime) {
    let mut layer = layer(&rt, rt.alloc(), DEFAULT_MODE);
    let usage = count(&layer);
    prove!(usage.blocks == 1);
    prove!(usage.inodes == 1);
    let again = recount(&layer);
    prove!(again == usage);
    let next = layer.next_number();
    prove!(next == 1);
    let root = Path::root(rt.alloc());
    layer.set_opaque(&root, true);
    layer.set_mode(&root, 448);
    let node = layer.at(&root);
    prove!(matches!(
        &node,
        Some(Node::Dir {
            meta: Meta { mode: 448 },
            opaque: true
        })
    ));
}

#[test]
fn equal_layers(rt: HostRuntime) {
    let layer = layer(&rt, rt.alloc(), DEFAULT_MODE);
    let copy = layer.copy().expect(&rt, "memory for a copy");
    let same = copy == layer;
    prove!(same);
    let other = Layer::empty_from(rt.alloc(), Meta { mode: DEFAULT_MODE }, 7);
    let other = other.expect(&rt, "memory for a layer");
    let same = other == layer;
    prove!(!same);
}

#[test]
fn a_whiteout(rt: HostRuntime) {
    let mut layer = layer(&rt, rt.alloc(), DEFAULT_MODE);
    let path = path(&rt, rt.alloc(), "/a");
    assert!(rt; layer.has_place(&path));
    layer
        .add_whiteout(&path)
        .expect(&rt, "memory for a whiteout");
    let usage = count(&layer);
    prove!(usage.blocks == 1);
    prove!(usage.inodes == 2);
    let node = layer.at(&path);
    prove!(matches!(&node, Some(Node::Whiteout)));
}

#[test]
fn a_file(rt: HostRuntime) {
    let mut layer = layer(&rt, rt.alloc(), DEFAULT_MODE);
    let path = path(&rt, rt.alloc(), "/f");
    let bytes = Bytes::copy_of(rt.alloc(), b"hi").expect(&rt, "memory for bytes");
    assert!(rt; layer.has_place(&path));
    let number = layer
        .add_file(&path, Meta { mode: 420 }, Content::Bytes(bytes))
        .expect(&rt, "memory for a file");
    prove!(number == 1);
    let usage = count(&layer);
    prove!(usage.blocks == 2);
    prove!(usage.inodes == 2);
}

#[test]
fn a_file_with_two_names(rt: HostRuntime) {
    let mut layer = layer(&rt, rt.alloc(), DEFAULT_MODE);
    let (file, link) = (path(&rt, rt.alloc(), "/f"), path(&rt, rt.alloc(), "/g"));
    let bytes = Bytes::copy_of(rt.alloc(), b"hi").expect(&rt, "memory for bytes");
    assert!(rt; layer.has_rooms(&file, &link));
    let content = Content::Bytes(bytes);
    let meta = Meta { mode: 420 };
    let added = layer.add_linked(&file, &link, Body::File { meta, content });
    added.expect(&rt, "memory for a file");
    let usage = count(&layer);
    prove!(usage.blocks == 2);
    prove!(usage.inodes == 2);
    let names = layer.link_count(1);
    prove!(names == 2);
    let next = layer.next_number();
    prove!(next == 2);
}

#[test]
fn file_numbers_end(rt: HostRuntime) {
    let last = Layer::empty_from(rt.alloc(), Meta { mode: DEFAULT_MODE }, 4_294_967_295);
    let mut layer = last.expect(&rt, "memory for a layer");
    let path = path(&rt, rt.alloc(), "/f");
    assert!(rt; layer.has_place(&path));
    let refused = layer.add_file(&path, Meta { mode: 420 }, Content::empty(rt.alloc()));
    prove!(matches!(&refused, Err(LayerError::LayerFull)));
}

#[test]
fn inodes_end(rt: HostRuntime) {
    let few = Layer::within(rt.alloc(), Meta { mode: DEFAULT_MODE }, 3);
    let mut layer = few.expect(&rt, "memory for a layer");
    let most = layer.most_inodes();
    prove!(most == 3);
    let (file, link) = (path(&rt, rt.alloc(), "/f"), path(&rt, rt.alloc(), "/g"));
    let content = Content::empty(rt.alloc());
    assert!(rt; layer.has_rooms(&file, &link));
    let meta = Meta { mode: 420 };
    let added = layer.add_linked(&file, &link, Body::File { meta, content });
    added.expect(&rt, "memory for a file");
    let whiteout = path(&rt, rt.alloc(), "/h");
    assert!(rt; layer.has_place(&whiteout));
    let added = layer.add_whiteout(&whiteout);
    added.expect(&rt, "memory for a whiteout");
    let path = path(&rt, rt.alloc(), "/i");
    assert!(rt; layer.has_place(&path));
    let refused = layer.add_whiteout(&path);
    prove!(matches!(&refused, Err(LayerError::LayerFull)));
}
