// Directories put one in the other.
ghost use Rattle.std.specs.Prelude.{None, IfOk, OnOk, OnErr, false};
ghost use Rattle.snap_layer.specs.Tree.{IsDirAt};
ghost use Rattle.snap_layer.specs.Walk.{node_at, view_of, Same, Adds, AddsDirs, IsVacantAt};

use super::edit::{put_inode, unlink};
use super::inode::Inode;
use super::node::{Meta, Node};
use slab::Slab;
use snap_path::Name;
use std::alloc::{AllocError, Global};
use std::collections::BTreeMap;

/// Puts an empty directory under the next key, and the entry for it, and gives the key.
fn put_empty(
    slots: &mut Slab<Inode>,
    alloc: Global,
    dir: usize,
    name: &Name,
    meta: Meta,
) -> Result<usize, AllocError>
    requires { IsDirAt (node_at slots.old dir) }
    ensures ok { IfOk result (λ key. Adds (view_of slots.old) (view_of slots.new) dir name.now key (Node.Dir meta false) None 0) }
    ensures err { OnErr result (Same (view_of slots.old) (view_of slots.new)) }
{
    let key = slots.vacant_key();
    let inode = Inode::Dir {
        meta,
        opaque: false,
        entries: BTreeMap::new(alloc),
    };
    put_inode(slots, dir, name, inode)?;
    Ok(key)
}

/// Puts a directory for each meta, one in the other, at the names that come next in the directory, in which
/// nothing is at the first of them. Where memory is refused, it takes back what it has put, without memory.
pub(crate) fn put_dirs(
    slots: &mut Slab<Inode>,
    alloc: Global,
    dir: usize,
    names: &[Name],
    metas: &[Meta],
) -> Result<(), AllocError>
    requires dir { IsDirAt (node_at slots.old dir) }
    requires vacant { IsVacantAt (view_of slots.old) dir names.now }
    ensures ok { OnOk result (AddsDirs (view_of slots.old) (view_of slots.new) dir names.now metas.now) }
    ensures err { OnErr result (Same (view_of slots.old) (view_of slots.new)) }
{
    let Some((name, names)) = names.split_first() else {
        return Ok(());
    };
    let Some((meta, metas)) = metas.split_first() else {
        return Ok(());
    };
    let key = put_empty(slots, alloc, dir, name, *meta)?;
    match put_dirs(slots, alloc, key, names, metas) {
        Ok(()) => Ok(()),
        Err(refused) => {
            unlink(slots, dir, name);
            slots.try_remove(key);
            Err(refused)
        }
    }
}
