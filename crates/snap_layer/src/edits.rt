// The edits of a layer.
ghost use Rattle.std.specs.Prelude.{◌≡◌, ◌↔◌, ◌<◌, ◌≤◌, ◌+◌, ◌-◌, ◌^◌, length, take, drop, Some, None, IfOk, OnOk, OnErr, IsErrOf, IsSome, ◌∷◌, [], true, false};
ghost use Rattle.std.specs.List.{AllByRecursion};
ghost use Rattle.std.specs.Map.{keys_of};
ghost use Rattle.snap_path.specs.Limits.{most_mode};
ghost use Rattle.snap_path.specs.Memory.{no_memory};
ghost use Rattle.snap_path.specs.Text.{IsPath};
ghost use Rattle.snap_layer.specs.Tree.{at, body, number_at, IsDirAt, leaf_node};
ghost use Rattle.snap_layer.specs.Counts.{body_blocks, is_within, most_file_blocks};
ghost use Rattle.snap_layer.specs.Contents.{body_content, edited, Grows, IsContent, IsShort};
ghost use Rattle.snap_layer.specs.Totals.{path_count, fits, IsClear, IsRoom};
ghost use Rattle.snap_layer.specs.Layers.{IsLayer, IsBody, IsMeta, is_target};
ghost use Rattle.snap_layer.specs.declared.content.Content.{Content as ContentValue};
ghost use Rattle.snap_layer.specs.Edits.{with_body, with_entry, with_dirs, with_node, with_new, with_name, named_node, with_filled, with_mode, with_opaque, with_moved, with_linked, with_next, with_tree_taken, without, without_tree, inside, HasRoom, HasRooms, HasPlace, IsInnerDir, IsTakeable, IsMovable, IsRegular, HasMode};

use super::bytes::Edit;
use super::content::Content;
use super::error::LayerError;
use super::layer::Layer;
use super::node::{Body, Bytes, Meta, Node};
use super::totals::{Totals, more_paths, paths_with};
use snap_path::Path;
use std::alloc::AllocError;

impl Layer {
    /// Adds a directory, over nothing or in place of a whiteout.
    ///
    /// The conditions are those of `has_room`, and a mode of at most octal 7777. `LayerFull` where the
    /// layer would have more inodes than it may. `OutOfMemory` where memory is refused. After either the
    /// layer is as it was. Cost: as `at`.
    pub fn add_dir(&mut self, path: &Path, meta: Meta, opaque: bool) -> Result<(), LayerError>
        requires room { HasRoom self.old path.now }
        requires meta { IsMeta meta }
        ensures ok { OnOk result (self.new ≡ with_entry self.old path.now (Node.Dir meta opaque)) }
        ensures layer { OnOk result (IsLayer self.new) }
        ensures full { IsErrOf result LayerError.LayerFull ↔ (is_within (with_entry self.old path.now (Node.Dir meta opaque)) ≡ false) }
        ensures err { OnErr result (self.new ≡ self.old) }
    {
        let room = self.room_for(path, 0, 1, 1)?;
        self.table.put_dir(path, meta, opaque)?;
        self.totals = room;
        Ok(())
    }

    /// Adds a directory for each meta, none of them opaque, at the path's names after the first `front`: the first
    /// where nothing stands, and each other one in the one before it.
    ///
    /// The conditions: a directory stands at the path of the first `front` names, and nothing at that of one name more;
    /// the path has a name for each meta; and each mode is at most octal 7777. `LayerFull` where the layer would have
    /// more inodes than it may. `OutOfMemory` where memory is refused. After either the layer is as it was: what had
    /// been added is taken back, which takes no memory. Cost: as `at` for as many names, however many directories are
    /// added; the calls nest as deep as there are metas.
    pub fn add_dirs(&mut self, path: &Path, front: usize, metas: &[Meta]) -> Result<(), LayerError>
        requires within { front + length metas.now ≤ length path.now }
        requires dir { IsDirAt (at self.old (take front path.now)) }
        requires bare { front < length path.now → at self.old (take (front + 1) path.now) ≡ None }
        requires metas { AllByRecursion IsMeta metas.now }
        ensures ok { OnOk result (self.new ≡ with_dirs self.old (take front path.now) (drop front path.now) metas.now) }
        ensures layer { OnOk result (IsLayer self.new) }
        ensures full { IsErrOf result LayerError.LayerFull ↔ (is_within (with_dirs self.old (take front path.now) (drop front path.now) metas.now) ≡ false) }
        ensures err { OnErr result (self.new ≡ self.old) }
    {
        let count = metas.len();
        prove!(path.names().len() - front >= count);
        if count > self.most_inodes() - self.inodes() {
            return Err(LayerError::LayerFull);
        }
        let paths = paths_with(self.totals.paths, count)?;
        self.table.put_dirs(path, front, metas)?;
        self.totals = Totals {
            inodes: self.totals.inodes + count,
            blocks: self.totals.blocks + count as u64,
            paths,
        };
        Ok(())
    }

    /// Adds a regular file with the next number, in place of what stands at the path, and gives the number.
    ///
    /// The conditions are those of `has_place`, a mode of at most octal 7777, and a content within its limits.
    /// `LayerFull` where the layer would have more inodes than it may, or where the file numbers are used
    /// up. `OutOfMemory` where memory is refused. After either the layer is as it was, and the content is
    /// gone. Cost: as `at`, and where a directory stands there, its entries.
    pub fn add_file(&mut self, path: &Path, meta: Meta, content: Content) -> Result<u32, LayerError>
        requires place { HasPlace self.old path.now }
        requires meta { IsMeta meta }
        requires content { IsContent content }
        ensures ok { OnOk result (self.new ≡ with_new self.old path.now (Node.File self.old.next) (Body.File meta content)) }
        ensures layer { OnOk result (IsLayer self.new) }
        ensures number { IfOk result (λ k. k ≡ self.old.next) }
        ensures full { IsErrOf result LayerError.LayerFull ↔ (is_within (with_new self.old path.now (Node.File self.old.next) (Body.File meta content)) ≡ false) }
        ensures err { OnErr result (self.new ≡ self.old) }
    {
        self.add_body(path, Body::File { meta, content })
    }

    /// Adds a symlink with the next number, in place of what stands at the path, and gives the number.
    ///
    /// The conditions are those of `has_place`, and a target of 1 to 4095 bytes without NUL (symlink(2)).
    /// Errors and cost are those of `add_file`.
    pub fn add_symlink(&mut self, path: &Path, target: Bytes) -> Result<u32, LayerError>
        requires place { HasPlace self.old path.now }
        requires target { is_target target ≡ true }
        ensures ok { OnOk result (self.new ≡ with_new self.old path.now (Node.Symlink self.old.next) (Body.Symlink target)) }
        ensures layer { OnOk result (IsLayer self.new) }
        ensures number { IfOk result (λ k. k ≡ self.old.next) }
        ensures full { IsErrOf result LayerError.LayerFull ↔ (is_within (with_new self.old path.now (Node.Symlink self.old.next) (Body.Symlink target)) ≡ false) }
        ensures err { OnErr result (self.new ≡ self.old) }
    {
        self.add_body(path, Body::Symlink { target })
    }

    /// Adds a file or symlink with the next number, in place of what stands at the path, and gives the number.
    ///
    /// The conditions are those of `has_place`, and the limits of `add_file` and `add_symlink`. Errors and cost are
    /// those of `add_file`.
    pub fn add_body(&mut self, path: &Path, body: Body) -> Result<u32, LayerError>
        requires place { HasPlace self.old path.now }
        requires fits { IsBody body }
        ensures ok { OnOk result (self.new ≡ with_new self.old path.now (leaf_node self.old.next body) body) }
        ensures layer { OnOk result (IsLayer self.new) }
        ensures number { IfOk result (λ k. k ≡ self.old.next) }
        ensures full { IsErrOf result LayerError.LayerFull ↔ (is_within (with_new self.old path.now (leaf_node self.old.next body) body) ≡ false) }
        ensures err { OnErr result (self.new ≡ self.old) }
    {
        let number = self.next_number();
        let room = self.room_for(path, 1, 1, body.blocks())?;
        self.table.put_leaf(path, body)?;
        self.totals = room;
        Ok(number)
    }

    /// Adds one more name of a file or symlink (link(2)), in place of what stands at the path.
    ///
    /// The conditions are those of `has_place`, that the number has a body, and that the path doesn't name
    /// it already. It fails only where memory is refused, which can't be where something stands there; the
    /// layer is then as it was. Cost: as `add_file`.
    pub fn add_name(&mut self, path: &Path, number: u32) -> Result<(), AllocError>
        requires place { HasPlace self.old path.now }
        requires there { IsSome (body self.old number) }
        requires apart { number_at self.old path.now ≡ Some number → ⊥ }
        ensures ok { OnOk result (self.new ≡ with_name self.old path.now (named_node number (body self.old number))) }
        ensures layer { OnOk result (IsLayer self.new) }
        ensures sure { OnErr result (at self.old path.now ≡ None) }
        ensures err { OnErr result (self.new ≡ self.old) }
    {
        let left = self.left(path);
        let paths = more_paths(left.paths, 1)?;
        self.table.put_name(path, number)?;
        self.totals = Totals { paths, ..left };
        Ok(())
    }

    /// Adds a new file or symlink with the next number at `path`, where nothing stands, and one more name of
    /// it at `link`, where nothing or a whiteout stands.
    ///
    /// The conditions are those of `has_rooms`, and the limits of `add_file` and `add_symlink`. The errors are
    /// those of `add_file`: there are both names afterwards, or neither, and then the number isn't used. Cost:
    /// as `at` for both paths.
    pub fn add_linked(&mut self, path: &Path, link: &Path, body: Body) -> Result<(), LayerError>
        requires rooms { HasRooms self.old path.now link.now }
        requires fits { IsBody body }
        ensures ok { OnOk result (self.new ≡ with_linked self.old path.now link.now body) }
        ensures layer { OnOk result (IsLayer self.new) }
        ensures full { IsErrOf result LayerError.LayerFull ↔ (is_within (with_linked self.old path.now link.now body) ≡ false) }
        ensures err { OnErr result (self.new ≡ self.old) }
    {
        prove!(!path.names().is_empty());
        let room = self.room_for(link, 1, 1, body.blocks())?;
        let paths = more_paths(room.paths, 1)?;
        self.table.put_linked(path, link, body)?;
        self.totals = Totals { paths, ..room };
        Ok(())
    }

    /// Adds a whiteout, in place of what stands at the path: nothing, a name, a whiteout, or a directory
    /// with its whiteouts.
    ///
    /// The conditions are those of `has_place`. `LayerFull` where the layer would have more inodes
    /// than it may. `OutOfMemory` where memory is refused, which can't be where something stands there. After
    /// either the layer is as it was. Cost: as `add_file`.
    pub fn add_whiteout(&mut self, path: &Path) -> Result<(), LayerError>
        requires { HasPlace self.old path.now }
        ensures ok { OnOk result (self.new ≡ with_node self.old path.now Node.Whiteout) }
        ensures layer { OnOk result (IsLayer self.new) }
        ensures full { IsErrOf result LayerError.LayerFull ↔ (is_within (with_node self.old path.now Node.Whiteout) ≡ false) }
        ensures sure { IsErrOf result (LayerError.OutOfMemory no_memory) → at self.old path.now ≡ None }
        ensures err { OnErr result (self.new ≡ self.old) }
    {
        let room = self.room_for(path, 0, 1, 0)?;
        self.table.whiteout(path)?;
        self.totals = room;
        Ok(())
    }

    /// Takes a name, a whiteout, or a directory with its whiteouts. A file or symlink goes with its last
    /// name (unlink(2)), and its number is never given again.
    ///
    /// The conditions are those of `is_takeable`. Takes no memory. Cost: as `add_file`.
    pub fn take_name(&mut self, path: &Path)
        requires { IsTakeable self.old path.now }
        ensures next { self.new ≡ without self.old path.now }
        ensures layer { IsLayer self.new }
    {
        self.take_front(path, path.names().len());
    }

    /// Takes what stands at the path of the first `front` names of a path, as `take_name` does.
    ///
    /// The conditions are that the path has as many, and those of `is_takeable` for their path. Takes no
    /// memory. Cost: as `take_name`.
    pub fn take_front(&mut self, path: &Path, front: usize)
        requires within { front ≤ length path.now }
        requires takeable { IsTakeable self.old (take front path.now) }
        ensures next { self.new ≡ without self.old (take front path.now) }
        ensures layer { IsLayer self.new }
    {
        let left = self.left_front(path, front);
        self.table.take(&path.names()[..front]);
        self.totals = left;
    }

    /// Takes a directory and all that is below it, and leaves a whiteout in its place where `leaves` says so. A file
    /// or symlink goes with its last name (unlink(2)), and its number is never given again.
    ///
    /// The conditions are that a directory stands there, and that it isn't the root. It fails only where memory is
    /// refused for a list of the paths below it, and the layer is then as it was. Cost: as `left_without_tree`, and
    /// the texts of these paths.
    pub fn take_tree(&mut self, path: &Path, leaves: bool) -> Result<(), AllocError>
        requires { IsInnerDir self.old path.now }
        ensures ok { OnOk result (self.new ≡ with_tree_taken self.old path.now leaves) }
        ensures layer { OnOk result (IsLayer self.new) }
        ensures err { OnErr result (self.new ≡ self.old) }
    {
        let paths = self.table.paths_inside(path)?;
        self.take_below(path, paths);
        if leaves {
            let _ = self.add_whiteout(path);
            return Ok(());
        }
        self.take_name(path);
        Ok(())
    }

    /// Takes what stands at all of the paths but the first, which is that of a directory; the others are those below it,
    /// in order.
    fn take_below(&mut self, path: &Path, mut paths: Vec<Path>)
        requires paths { paths.items ≡ keys_of (inside path.now self.old.entries) }
        requires dir { IsDirAt (at self.old path.now) }
        requires layer { IsLayer self.old }
        ensures below { keys_of (inside path.now self.new.entries) ≡ path.now ∷ [] }
        ensures same { at self.new path.now ≡ at self.old path.now }
        ensures rest { without_tree self.new path.now ≡ without_tree self.old path.now }
        ensures layer { IsLayer self.new }
    {
        while paths.len() > 1 {
            if let Some(last) = paths.pop() {
                self.take_name(&last);
            }
        }
    }

    /// Moves what stands at `from`, and all below it, to `to`, in place of what stands there, and leaves a
    /// whiteout at `from` where `leaves` says so (rename(2)).
    ///
    /// The conditions: something stands at `from`; what stands at `to` may be replaced, as in `has_place`;
    /// neither path begins with the other; and each moved path has at most 4095 bytes. `LayerFull` where
    /// the layer would have more inodes than it may: what stands at `to` is taken before the whiteout is
    /// counted. `OutOfMemory` where memory is refused. After either the layer is as it was. Cost: as
    /// `at` for both paths, and where a directory stands at `to`, its entries. What lies below `from` isn't
    /// touched.
    pub fn move_tree(&mut self, from: &Path, to: &Path, leaves: bool) -> Result<(), LayerError>
        requires { IsMovable self.old from.now to.now }
        ensures ok { OnOk result (self.new ≡ with_moved self.old from.now to.now leaves) }
        ensures layer { OnOk result (IsLayer self.new) }
        ensures full { IsErrOf result LayerError.LayerFull ↔ (is_within (with_moved self.old from.now to.now leaves) ≡ false) }
        ensures err { OnErr result (self.new ≡ self.old) }
    {
        let room = self.room_for(to, 0, usize::from(leaves), 0)?;
        self.table.relocate(from, to, leaves)?;
        self.totals = room;
        Ok(())
    }

    /// Gives a file another content, for all its names.
    ///
    /// The conditions are that the number is a regular file's, and a content within its limits. Takes no
    /// memory. Cost: the logarithm of the number of files.
    pub fn set_content(&mut self, number: u32, content: Content)
        requires file { IsRegular (body self.old number) }
        requires content { IsContent content }
        ensures next { self.new ≡ with_filled self.old number (body self.old number) content }
        ensures layer { IsLayer self.new }
    {
        let Some(old) = self.body(number) else {
            return;
        };
        let freed = old.blocks();
        if let Body::File { meta, .. } = old {
            let meta = *meta;
            self.fill(number, meta, freed, content);
        }
    }

    /// Edits a file in place, for all its names.
    ///
    /// The conditions are that the number is a regular file's, and that what is written ends at its `most_bytes` at
    /// the most, or that the file is to have no more than that. It fails only where memory for more bytes is refused,
    /// and the layer is then as it was: a write within the file's size takes none, a cut gives some back, and a file
    /// of a size takes none. Cost: the logarithm of the number of files, and the bytes that are written; where the
    /// file grows, in one growth of several also its bytes; where it is cut, those that are left.
    pub fn edit_content(&mut self, number: u32, edit: Edit<'_>) -> Result<(), AllocError>
        requires file { IsRegular (body self.old number) }
        requires short { IsShort edit (body_content (body self.old number)) }
        ensures ok { OnOk result (self.new ≡ with_filled self.old number (body self.old number) (edited edit.entry (body_content (body self.old number)))) }
        ensures layer { OnOk result (IsLayer self.new) }
        // Only a growth takes memory.
        ensures grows { OnErr result (Grows edit.entry (body_content (body self.old number))) }
        ensures err { OnErr result (self.new ≡ self.old) }
    {
        let (freed, taken) = self.table.edit_content(number, edit)?;
        self.totals.blocks = self.totals.blocks - freed + taken;
        Ok(())
    }

    /// Sets or clears the mark of a directory: an opaque one hides what the layers below have in it
    /// (overlayfs.rst, "whiteouts and opaque directories").
    ///
    /// The condition is that a directory stands there. Takes no memory. Cost: as `at`.
    pub fn set_opaque(&mut self, path: &Path, opaque: bool)
        requires { IsDirAt (at self.old path.now) }
        ensures next { self.new ≡ with_opaque self.old path.now (at self.old path.now) opaque }
        ensures layer { IsLayer self.new }
    {
        if let Some(Node::Dir { meta, .. }) = self.at(path) {
            self.set_dir(path, meta, opaque);
        }
    }

    /// Sets the mode of a directory, or of a regular file for all its names (chmod(2)).
    ///
    /// The conditions are that one of these stands there, and a mode of at most octal 7777. Takes no
    /// memory. Cost: as `at`.
    pub fn set_mode(&mut self, path: &Path, mode: u32)
        requires there { HasMode (at self.old path.now) }
        requires mode { mode ≤ most_mode }
        ensures next { self.new ≡ with_mode self.old path.now (at self.old path.now) mode }
        ensures layer { IsLayer self.new }
    {
        match self.at(path) {
            Some(Node::Dir { meta, opaque }) => self.set_dir(path, Meta { mode, ..meta }, opaque),
            Some(Node::File { number }) => self.table.set_file_mode(number, mode),
            Some(Node::Symlink { .. }) => {}
            Some(Node::Whiteout) => {}
            None => {}
        }
    }

    /// Gives the next file or symlink a later number: those between are never given.
    ///
    /// The condition is that it isn't below `next_number`. Takes no memory. The cost is constant.
    pub fn raise(&mut self, next: u32)
        requires { self.old.next ≤ next }
        ensures next { self.new ≡ with_next self.old next }
        ensures layer { IsLayer self.new }
    {
        self.table.raise(next);
    }

    /// What the layer takes once something that takes these stands at the path in place of what stands there:
    /// `LayerFull` where that would pass a limit.
    fn room_for(
        &self,
        path: &Path,
        numbers: u32,
        inodes: usize,
        blocks: u64,
    ) -> Result<Totals, LayerError>
        requires blocks { blocks ≤ most_file_blocks }
        requires inodes { inodes ≤ 1 }
        requires clear { IsClear self.now path.now }
        ensures room { IfOk result (λ v. IsRoom v self.now path.now inodes blocks) }
        ensures fits { OnOk result (fits self.now path.now numbers inodes ≡ true) }
        ensures full { IsErrOf result LayerError.LayerFull ↔ (fits self.now path.now numbers inodes ≡ false) }
        // It fails only at the last address.
        ensures last { IsErrOf result (LayerError.OutOfMemory no_memory) → path_count (without self.now path.now) ≡ 2 ^ 64 - 1 }
        ensures path { IsPath path.now }
        ensures layer { IsLayer self.now }
    {
        let left = self.left(path);
        if inodes > self.most_inodes() - left.inodes || numbers > u32::MAX - self.next_number() {
            return Err(LayerError::LayerFull);
        }
        let paths = more_paths(left.paths, inodes)?;
        Ok(Totals {
            inodes: left.inodes + inodes,
            blocks: left.blocks + blocks,
            paths,
        })
    }

    /// Sets the meta and the mark of the directory at the path.
    fn set_dir(&mut self, path: &Path, meta: Meta, opaque: bool)
        requires dir { IsDirAt (at self.old path.now) }
        requires meta { IsMeta meta }
        ensures next { self.new ≡ with_entry self.old path.now (Node.Dir meta opaque) }
        ensures layer { IsLayer self.new }
    {
        self.table.set_dir(path, meta, opaque);
    }

    /// Gives the file with the number, which has the meta and takes `freed` blocks, another content.
    fn fill(&mut self, number: u32, meta: Meta, freed: u64, content: Content)
        requires there { (old : ContentValue) × (freed ≡ body_blocks (Body.File meta old)) × (body self.old number ≡ Some (Body.File meta old)) }
        requires content { IsContent content }
        ensures next { self.new ≡ with_body self.old number (Body.File meta content) }
        ensures layer { IsLayer self.new }
    {
        let new = Body::File { meta, content };
        let blocks = self.totals.blocks - freed + new.blocks();
        self.table.set_body(number, new);
        self.totals.blocks = blocks;
    }
}
