// A layer as a table of inodes.
ghost use Rattle.std.specs.Prelude.{[], ◌≡◌, ◌<◌, ◌≤◌, ◌+◌, ◌-◌, ◌^◌, Option, Some, None, OnOk, OnErr, IfOk, IsSome, length, take, drop, find, nat_lt};
ghost use Rattle.std.specs.Option.{option_copied};
ghost use Rattle.std.specs.List.{AllByRecursion};
ghost use Rattle.std.specs.Map.{keys_of};
ghost use Rattle.snap_path.specs.Limits.{most_mode, most_number};
ghost use Rattle.snap_layer.specs.Tree.{Tree, at, body, number_at, IsDirAt, leaf_node};
ghost use Rattle.snap_layer.specs.Counts.{inode_count, name_count, body_blocks, most_inodes};
ghost use Rattle.snap_layer.specs.Contents.{body_content, body_edited, Grows, IsShort};
ghost use Rattle.snap_path.specs.Text.{IsPath};
ghost use Rattle.snap_layer.specs.Layers.{IsLayer, IsFile, IsMeta};
ghost use Rattle.snap_layer.specs.Edits.{root_within, with_body, with_entry, with_dirs, with_node, with_new, without, with_moved, with_file_mode, with_linked, with_next, HasPlace, HasRooms, IsTakeable, IsFree, HasParent, IsMovable};
ghost use Rattle.snap_layer.specs.declared.node.Body.{Body as BodyValue};
ghost use Rattle.snap_layer.specs.declared.node.Node.{Node as NodeValue};
ghost use Rattle.snap_layer.specs.contracts.node.Node as node_contracts;
ghost use Rattle.snap_layer.specs.Holds.{Holds, Holds-prop};
ghost use Rattle.snap_layer.specs.Undoing.{IsNew};

pub(crate) mod reads;
mod same;

use super::bytes::Edit;
use super::chain::put_dirs;
use super::edit::{
    body_at, copied, cover, edit_body, links_at, next_place, place_of, put_inode, put_leaf,
    relocate, replace_name, set_body, set_dir, set_mode, take_target,
};
use super::inode::Inode;
use super::node::{Body, Meta, Node};
use super::walk::{dir_at, entry_at, parent_at, parent_of};
use slab::Slab;
use snap_path::{Name, Path};
use std::alloc::{AllocError, Global};
use std::collections::BTreeMap;
use std::marker::Model;

/// A layer as a table of inodes. A directory has its entries in byte order; a file or symlink has its number,
/// its body, and the count of its names; a whiteout is an entry without an inode.
#[derive(Drop)]
pub struct Table {
    pub(crate) alloc: Global,
    pub(crate) slots: Slab<Inode>,
    pub(crate) root: usize,
    pub(crate) places: BTreeMap<u32, usize>,
    pub(crate) next: u32,
    /// The most inodes that it may have.
    pub(crate) most: usize,
    ghost tree: { Holds slots root } by { Holds-prop (node_contracts.the_row).coded slots root },
}

impl Model for Table {
    ghost use Rattle.snap_layer.specs.Tree.{Tree};

    ghost Value = { Tree };

    ghost use Rattle.snap_layer.specs.Holds.{tree_of, IsKept};
    ghost use Rattle.snap_layer.specs.Walk.{view_of};

    ghost view = { λ t. tree_of t.tree.0 t.slots t.places.entries t.next t.most };

    ghost invariant = { λ t. IsKept (view_of t.slots) t.root t.places.entries (tree_of t.tree.0 t.slots t.places.entries t.next t.most) };
}

impl Table {
    /// The layer of the root alone, which may have at most `most` inodes.
    pub fn new(alloc: Global, meta: Meta, first: u32, most: usize) -> Result<Table, AllocError>
        requires meta { IsMeta meta }
        requires first { 1 ≤ first }
        requires most { (1 ≤ most) × (most ≤ most_inodes) }
        ensures { IfOk result (λ t. t ≡ root_within most meta first) }
    {
        let mut slots = Slab::new(alloc);
        let root = slots.insert(Inode::Dir {
            meta,
            opaque: false,
            entries: BTreeMap::new(alloc),
        })?;
        Ok(Table {
            alloc,
            slots,
            root,
            places: BTreeMap::new(alloc),
            next: first,
            most,
        })
    }

    /// A copy of the table, which shares nothing with it.
    pub fn copy(&self) -> Result<Table, AllocError>
        ensures { IfOk result (λ t. t ≡ self.now) }
    {
        Ok(Table {
            alloc: self.alloc,
            slots: self.slots.clone()?,
            root: self.root,
            places: copied(&self.places)?,
            next: self.next,
            most: self.most,
        })
    }

    /// The file or symlink with the number, or nothing.
    pub fn body(&self, number: u32) -> Option<&Body>
        ensures { option_copied result ≡ body self.now number }
    {
        match place_of(&self.places, number) {
            Some(key) => body_at(&self.slots, key),
            None => None,
        }
    }

    /// How many names the file number has.
    pub fn link_count(&self, number: u32) -> usize
        ensures { result ≡ name_count number self.now.entries }
    {
        match place_of(&self.places, number) {
            Some(key) => links_at(&self.slots, key),
            None => 0,
        }
    }

    /// The least number above `after` that a file or symlink has, or nothing.
    pub fn next_body(&self, after: u32) -> Option<u32>
        ensures { result ≡ find (λ k. nat_lt after k) (keys_of self.now.bodies) }
    {
        next_place(&self.places, after)
    }

    /// Puts a directory where nothing or a whiteout stands.
    pub fn put_dir(&mut self, path: &Path, meta: Meta, opaque: bool) -> Result<(), AllocError>
        requires free { IsFree (at self.old path.now) }
        requires above { HasParent self.old path.now }
        requires layer { IsLayer (with_entry self.old path.now (Node.Dir meta opaque)) }
        ensures ok { OnOk result (self.new ≡ with_entry self.old path.now (Node.Dir meta opaque)) }
        ensures err { OnErr result (self.new ≡ self.old) }
    {
        let (dir, name) = parent_at(&self.slots, self.root, path);
        let inode = Inode::Dir {
            meta,
            opaque,
            entries: BTreeMap::new(self.alloc),
        };
        put_inode(&mut self.slots, dir, name, inode)
    }

    /// Puts a directory for each meta, one in the other, at the names of the path that come after the first `front`.
    pub fn put_dirs(&mut self, path: &Path, front: usize, metas: &[Meta]) -> Result<(), AllocError>
        requires within { front ≤ length path.now }
        requires dir { IsDirAt (at self.old (take front path.now)) }
        requires bare { front < length path.now → at self.old (take (front + 1) path.now) ≡ None }
        requires metas { AllByRecursion IsMeta metas.now }
        requires few { inode_count self.old + length metas.now ≤ self.old.most }
        ensures ok { OnOk result (self.new ≡ with_dirs self.old (take front path.now) (drop front path.now) metas.now) }
        ensures err { OnErr result (self.new ≡ self.old) }
    {
        let names = path.names();
        let dir = dir_at(&self.slots, self.root, &names[..front]);
        put_dirs(&mut self.slots, self.alloc, dir, &names[front..], metas)
    }

    /// Puts a new file or symlink, which has the next number, in place of what stands at the path.
    pub fn put_leaf(&mut self, path: &Path, body: Body) -> Result<(), AllocError>
        requires place { HasPlace self.old path.now }
        requires last { self.old.next < most_number }
        requires layer { IsLayer (with_new self.old path.now (leaf_node self.old.next body) body) }
        ensures ok { OnOk result (self.new ≡ with_new self.old path.now (leaf_node self.old.next body) body) }
        ensures err { OnErr result (self.new ≡ self.old) }
    {
        let (dir, name) = parent_at(&self.slots, self.root, path);
        let number = self.next;
        let inode = Inode::Leaf {
            number,
            links: 1,
            body,
        };
        put_leaf(&mut self.slots, &mut self.places, dir, name, number, inode)?;
        self.next += 1;
        Ok(())
    }

    /// Puts one more name of a file or symlink in place of what stands at the path.
    pub fn put_name(&mut self, path: &Path, number: u32) -> Result<(), AllocError>
        requires place { HasPlace self.old path.now }
        requires there { IsSome (body self.old number) }
        requires apart { number_at self.old path.now ≡ Some number → ⊥ }
        requires few { name_count number self.old.entries + 1 < 2 ^ 64 }
        requires layer { (b : BodyValue) → body self.old number ≡ Some b → IsLayer (with_node self.old path.now (leaf_node number b)) }
        ensures ok { OnOk result ((b : BodyValue) → body self.old number ≡ Some b → self.new ≡ with_node self.old path.now (leaf_node number b)) }
        ensures sure { OnErr result (at self.old path.now ≡ None) }
        ensures err { OnErr result (self.new ≡ self.old) }
    {
        let (dir, name) = parent_at(&self.slots, self.root, path);
        let Some(key) = place_of(&self.places, number) else {
            unreachable!()
        };
        replace_name(&mut self.slots, &mut self.places, dir, name, key)
    }

    /// Puts a new file or symlink, which has the next number, and one more name of it at the link.
    pub fn put_linked(&mut self, path: &Path, link: &Path, body: Body) -> Result<(), AllocError>
        requires rooms { HasRooms self.old path.now link.now }
        requires last { self.old.next < most_number }
        requires layer { IsLayer (with_linked self.old path.now link.now body) }
        ensures ok { OnOk result (self.new ≡ with_linked self.old path.now link.now body) }
        ensures err { OnErr result (self.new ≡ self.old) }
    {
        // a new name takes the place of a whiteout first: so no table on the way has more inodes than the last
        let number = self.next;
        let covers = self.node_at(link.names()).is_some();
        self.put_leaf(link, body)?;
        if let Err(refused) = self.put_name(path, number) {
            self.take_back(link, covers);
            return Err(refused);
        }
        Ok(())
    }

    /// Takes back the new file or symlink at the path with its number, and puts the whiteout back that stood
    /// there, if one did.
    fn take_back(&mut self, path: &Path, covers: bool)
        requires new { (u : Tree) × IsNew covers path.now self.old u }
        requires layer { IsLayer self.old }
        ensures { (u : Tree) → IsNew covers path.now self.old u → self.new ≡ u }
    {
        if covers {
            let _ = self.whiteout(path);
        } else {
            self.take(path.names());
        }
        self.give_back_number();
    }

    /// Gives back the number before the next one, which no file or symlink has.
    fn give_back_number(&mut self)
        requires given { 1 < self.old.next }
        requires gone { body self.old (self.old.next - 1) ≡ None }
        ensures { self.new ≡ with_next self.old (self.old.next - 1) }
    {
        self.next -= 1;
    }

    /// Gives the next file or symlink a later number.
    pub fn raise(&mut self, next: u32)
        requires { self.old.next ≤ next }
        ensures { self.new ≡ with_next self.old next }
    {
        self.next = next;
    }

    /// Puts a whiteout in place of what stands at the path, if anything does. A file or symlink goes with its last name.
    pub fn whiteout(&mut self, path: &Path) -> Result<(), AllocError>
        requires place { HasPlace self.old path.now }
        requires layer { IsLayer (with_node self.old path.now Node.Whiteout) }
        ensures ok { OnOk result (self.new ≡ with_node self.old path.now Node.Whiteout) }
        ensures sure { OnErr result (at self.old path.now ≡ None) }
        ensures err { OnErr result (self.new ≡ self.old) }
    {
        let (dir, name) = parent_at(&self.slots, self.root, path);
        cover(&mut self.slots, &mut self.places, dir, name)
    }

    /// Takes a name, a whiteout, or a directory that has whiteouts alone, at the path of the names. A file or symlink
    /// goes with its last name.
    pub fn take(&mut self, names: &[Name])
        requires takeable { IsTakeable self.old names.now }
        requires layer { IsLayer (without self.old names.now) }
        ensures { self.new ≡ without self.old names.now }
    {
        let (dir, name) = parent_of(&self.slots, self.root, names);
        take_target(&mut self.slots, &mut self.places, dir, name);
    }

    /// Moves what stands at `from`, and all below it, to `to`, in place of what stands there.
    pub fn relocate(&mut self, from: &Path, to: &Path, leaves: bool) -> Result<(), AllocError>
        requires movable { IsMovable self.old from.now to.now }
        requires layer { IsLayer (with_moved self.old from.now to.now leaves) }
        ensures ok { OnOk result (self.new ≡ with_moved self.old from.now to.now leaves) }
        ensures sure { OnErr result (at self.old to.now ≡ None) }
        ensures err { OnErr result (self.new ≡ self.old) }
    {
        let (left, old) = parent_at(&self.slots, self.root, from);
        let (gained, new) = parent_at(&self.slots, self.root, to);
        let Some(target) = entry_at(&self.slots, left, old) else {
            unreachable!()
        };
        relocate(
            &mut self.slots,
            &mut self.places,
            left,
            old,
            gained,
            new,
            target,
            leaves,
        )
    }

    /// Sets the meta and the mark of the directory at the path.
    pub fn set_dir(&mut self, path: &Path, meta: Meta, opaque: bool)
        requires dir { IsDirAt (at self.old path.now) }
        requires layer { IsLayer (with_entry self.old path.now (Node.Dir meta opaque)) }
        ensures { self.new ≡ with_entry self.old path.now (Node.Dir meta opaque) }
    {
        let dir = dir_at(&self.slots, self.root, path.names());
        set_dir(&mut self.slots, dir, meta, opaque);
    }

    /// Sets the mode of the file with the number.
    pub fn set_file_mode(&mut self, number: u32, mode: u32)
        requires file { IsFile (body self.old number) }
        requires mode { mode ≤ most_mode }
        ensures { self.new ≡ with_file_mode self.old number (body self.old number) mode }
    {
        let Some(key) = place_of(&self.places, number) else {
            unreachable!()
        };
        set_mode(&mut self.slots, key, mode);
    }

    /// Edits the file with the number in place, and gives the blocks that it took and those that it takes.
    pub fn edit_content(&mut self, number: u32, edit: Edit<'_>) -> Result<(u64, u64), AllocError>
        requires file { IsFile (body self.old number) }
        requires short { IsShort edit (body_content (body self.old number)) }
        ensures ok { (b : BodyValue) → body self.old number ≡ Some b → OnOk result (self.new ≡ with_body self.old number (body_edited b edit.entry)) }
        ensures blocks { (b : BodyValue) → body self.old number ≡ Some b → IfOk result (λ n. n ≡ (body_blocks b, body_blocks (body_edited b edit.entry))) }
        ensures grows { OnErr result (Grows edit.entry (body_content (body self.old number))) }
        ensures err { OnErr result (self.new ≡ self.old) }
    {
        let Some(key) = place_of(&self.places, number) else {
            unreachable!()
        };
        edit_body(&mut self.slots, key, edit)
    }

    /// Gives the file with the number another body, which is a file too.
    pub fn set_body(&mut self, number: u32, new: Body)
        requires kind { (b : BodyValue) → body self.old number ≡ Some b → leaf_node number b ≡ leaf_node number new }
        requires there { IsSome (body self.old number) }
        requires layer { IsLayer (with_body self.old number new) }
        ensures { self.new ≡ with_body self.old number new }
    {
        let Some(key) = place_of(&self.places, number) else {
            unreachable!()
        };
        set_body(&mut self.slots, key, new);
    }
}
