// How snapshots are mounted, and which texts can be a root.
use crate::setup::equal;
use snap_mount::{MountKind, is_root_text, mounts_of};
use snap_record::Kind;

#[test]
fn texts_of_roots() {
    let root = is_root_text("/r");
    let empty = is_root_text("");
    let relative = is_root_text("r");
    let marked = is_root_text("/a:b");
    let nul = is_root_text("/a\0b");
    prove!(root && !empty && !relative && !marked && !nul);
}

#[test]
fn kinds_of_mounts(rt: HostRuntime) {
    let alloc = rt.alloc();
    let active = mounts_of(alloc, "/r", Kind::Active, 1, &[]).expect(&rt, "memory for a mount");
    let count = active.len();
    prove!(count == 1);
    let mount = &active.as_slice()[0];
    let options = mount.options.len();
    prove!(matches!(&mount.kind, MountKind::Bind));
    prove!(options == 2);
    let view = mounts_of(alloc, "/r", Kind::View, 2, &[1]).expect(&rt, "memory for a mount");
    let count = view.len();
    prove!(count == 1);
    let mount = &view.as_slice()[0];
    prove!(matches!(&mount.kind, MountKind::Bind));
    let active = mounts_of(alloc, "/r", Kind::Active, 4, &[3, 1]).expect(&rt, "memory for a mount");
    let count = active.len();
    prove!(count == 1);
    let mount = &active.as_slice()[0];
    let options = mount.options.len();
    prove!(matches!(&mount.kind, MountKind::Overlay));
    prove!(options == 3);
}

#[test]
fn mounts_are_printed(rt: HostRuntime) {
    for (is_view, id, parent_ids, wanted) in [
        (
            false,
            1,
            &[] as &[u32],
            "-t bind -o rw,rbind /r/snapshots/1/fs",
        ),
        (true, 2, &[1], "-t bind -o ro,rbind /r/snapshots/1/fs"),
        (
            false,
            4,
            &[3, 1],
            "-t overlay -o workdir=/r/snapshots/4/work,upperdir=/r/snapshots/4/fs,lowerdir=/r/snapshots/3/fs:/r/snapshots/1/fs overlay",
        ),
    ] {
        let kind = if is_view { Kind::View } else { Kind::Active };
        let mounts = mounts_of(rt.alloc(), "/r", kind, id, parent_ids);
        let mounts = mounts.expect(&rt, "memory for a mount");
        assert_eq!(rt; mounts.len(), 1);
        let mount = &mounts.as_slice()[0];
        let line = format!(in rt.alloc(); "{mount}").expect(&rt, "memory for a text");
        equal(&rt, line.as_str(), wanted);
    }
}
