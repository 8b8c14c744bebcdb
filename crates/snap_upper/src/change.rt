// What an operation does to the layer, once its tests have passed.
ghost use Rattle.std.specs.Prelude.{◌≡◌, ◌↔◌, ◌≤◌, Bool, IfOk, IsTrue};
ghost use Rattle.std.specs.Option.{option_copied};
ghost use Rattle.snap_layer.specs.Counts.{blocks_of, most_file_blocks};
ghost use Rattle.snap_layer.specs.Contents.{edited, size_of, IsContent, IsShort};
ghost use Rattle.snap_layer.specs.Tree.{at, number_at, IsDirAt};
ghost use Rattle.snap_upper.specs.Adding.{Takes};
ghost use Rattle.snap_upper.specs.Changes.{as_last, is_numbered, IsSound};
ghost use Rattle.snap_upper.specs.After.{is_whiteout_at};

use snap_copyup::Last;
use snap_layer::{Bytes, Content, Edit, Layer, Meta, Node};
use snap_path::Path;
use snap_usage::blocks_of;
use std::alloc::{AllocError, Global};

/// What is put at a path: as `Last`, whose contents and targets aren't made yet.
#[derive(Clone, Copy)]
pub(crate) enum New<'a> {
    Dir {
        meta: Meta,
        opaque: bool,
    },
    /// A file without bytes.
    Empty {
        meta: Meta,
    },
    /// A file of a size, whose bytes aren't kept.
    Sized {
        meta: Meta,
        size: u64,
        digest: Option<&'a Bytes>,
    },
    /// A file with what the edit makes of the old content.
    File {
        meta: Meta,
        old: &'a Content,
        edit: Edit<'a>,
    },
    Symlink {
        target: &'a [u8],
    },
}

/// What an operation that has passed its tests does to the layer. It takes no memory.
#[derive(Clone, Copy)]
pub(crate) enum Change<'a> {
    /// Nothing.
    Nothing,
    /// It is put at the path, with the directories that are missing above it.
    Put {
        path: &'a Path,
        new: New<'a>,
    },
    /// The layer's own file with the number, which has this number of bytes, is edited.
    Fill {
        number: u32,
        size: u64,
        edit: Edit<'a>,
    },
    /// The mode of the layer's own directory or file changes.
    SetMode {
        path: &'a Path,
        mode: u32,
    },
    /// The layer's own directory becomes opaque.
    SetOpaque {
        path: &'a Path,
    },
    /// What is seen goes: no directory of the layer, or one that has whiteouts alone. A whiteout is put where `covers`
    /// says that a lower layer shows something.
    Erase {
        path: &'a Path,
        covers: bool,
    },
    /// The layer's own directory goes, with all that is in it. A whiteout is put as in `Erase`.
    EraseTree {
        path: &'a Path,
        covers: bool,
    },
    /// What is seen at `from` gets the name `to`.
    Link {
        from: &'a Path,
        to: &'a Path,
    },
    /// What is seen at `from` moves to `to`. A lower layer shows something at `from` where `leaves` says so,
    /// and at `to` where `covers` does.
    Move {
        from: &'a Path,
        to: &'a Path,
        leaves: bool,
        covers: bool,
    },
}

impl<'a> New<'a> {
    /// The blocks that it takes.
    pub(crate) fn blocks(self) -> u64
        requires { IsSound self }
        ensures few { result ≤ most_file_blocks }
        ensures takes { (numbered : Bool) → is_numbered self.entry ≡ numbered → Takes (as_last self.entry) result numbered }
    {
        match self {
            New::Dir { .. } => 1,
            New::Empty { .. } => 0,
            New::Sized { size, .. } => blocks_of(size),
            New::File { old, edit, .. } => edited_blocks(old, edit),
            New::Symlink { .. } => 0,
        }
    }

    /// Whether it takes a file number.
    pub(crate) fn is_numbered(self) -> bool
        ensures { result ≡ is_numbered self.entry }
    {
        match self {
            New::Dir { .. } => false,
            New::Empty { .. } => true,
            New::Sized { .. } => true,
            New::File { .. } => true,
            New::Symlink { .. } => true,
        }
    }

    /// The same with its own content.
    pub(crate) fn last(self, alloc: Global) -> Result<Last, AllocError>
        requires { IsSound self }
        ensures { IfOk result (λ last. last ≡ as_last self.entry) }
    {
        match self {
            New::Dir { meta, opaque } => Ok(Last::Dir { meta, opaque }),
            New::Empty { meta } => Ok(Last::File {
                meta,
                content: Content::empty(alloc),
            }),
            New::Sized { meta, size, digest } => {
                let digest = copy_of(digest)?;
                let content = Content::Sized { size, digest };
                Ok(Last::File { meta, content })
            }
            New::File { meta, old, edit } => Ok(Last::File {
                meta,
                content: edit.content(alloc, old)?,
            }),
            New::Symlink { target } => Ok(Last::Symlink {
                target: Bytes::copy_of(alloc, target)?,
            }),
        }
    }
}

/// The blocks of a file after the edit.
fn edited_blocks(old: &Content, edit: Edit<'_>) -> u64
    requires short { IsShort edit old.now }
    requires fits { IsContent (edited edit old.now) }
    ensures same { result ≡ blocks_of (size_of (edited edit.entry old.now)) }
    ensures few { result ≤ most_file_blocks }
{
    let was = old.size();
    let after = edit.size(was);
    blocks_of(after)
}

/// A copy of the digest, if there is one.
fn copy_of(digest: Option<&Bytes>) -> Result<Option<Bytes>, AllocError>
    ensures { IfOk result (λ copy. copy ≡ option_copied digest.entry) }
{
    match digest {
        Some(digest) => Ok(Some(digest.clone()?)),
        None => Ok(None),
    }
}

/// Whether a whiteout stands there.
pub(crate) fn is_whiteout(node: Option<Node>) -> bool
    ensures { result ≡ is_whiteout_at node }
{
    match node {
        Some(node) => node.is_whiteout(),
        None => false,
    }
}

/// The number of the file or symlink that the layer has at the path.
pub(crate) fn own_number(layer: &Layer, path: &Path) -> Option<u32>
    ensures { result ≡ number_at layer.now path.now }
{
    layer.at(path)?.number()
}

/// Whether the layer has a directory at the path.
pub(crate) fn is_dir_there(layer: &Layer, path: &Path) -> bool
    ensures { IsTrue result ↔ IsDirAt (at layer.now path.now) }
{
    match layer.at(path) {
        Some(node) => node.is_dir(),
        None => false,
    }
}
