ghost use Rattle.std.specs.Prelude.{◌≡◌, List, ℕ, IfOk, OnOk, OnErr};
ghost use Rattle.snap_layer.specs.Counts.{body_blocks};
ghost use Rattle.snap_layer.specs.Contents.{edited, body_content, body_edited, Grows, IsShort};
ghost use Rattle.snap_layer.specs.declared.content.Content.TheVariants as content_kinds;

use super::bytes::{Edit, put_at, resize};
use super::content::Content;
use std::alloc::{AllocError, Global};
use std::marker::Model;

/// The bytes of a file, its digest, or the target of a symlink.
#[derive(Debug)]
pub struct Bytes {
    items: Vec<u8>,
}

// By hand: a derived one is proved anew, part by part, wherever a value is let go.
impl Drop for Bytes {
    fn drop(self) {
        let Bytes { items: _ } = self;
    }
}

impl Model for Bytes {
    ghost use Rattle.std.specs.Prelude.{List, ℕ};

    ghost Value = { List ℕ };

    ghost view = { λ b. b.items.items };
}

impl Bytes {
    /// These bytes. Takes no memory.
    pub fn new(items: Vec<u8>) -> Bytes
        ensures { result ≡ items.items }
    {
        Bytes { items }
    }

    /// A copy of the bytes. Its cost grows with their number.
    pub fn copy_of(alloc: Global, bytes: &[u8]) -> Result<Bytes, AllocError>
        ensures { IfOk result (λ b. b ≡ bytes.now) }
    {
        Ok(Bytes {
            items: Vec::from_slice(alloc, bytes)?,
        })
    }

    /// The bytes.
    pub fn as_slice(&self) -> &[u8]
        ensures { result.now ≡ self.now }
    {
        self.items.as_slice()
    }

    /// Changes the bytes in place. Only a growth takes memory, and nothing changes before it is there.
    pub(crate) fn edit(&mut self, edit: Edit<'_>) -> Result<(), AllocError>
        requires { IsShort edit (content_kinds.Bytes self.old) }
        ensures ok { OnOk result (content_kinds.Bytes self.new ≡ edited edit.entry (content_kinds.Bytes self.old)) }
        ensures grows { OnErr result (Grows edit.entry (content_kinds.Bytes self.old)) }
        ensures err { OnErr result (self.new ≡ self.old) }
    {
        match edit {
            Edit::Keep => Ok(()),
            Edit::Write { offset, bytes } => put_at(&mut self.items, offset, bytes),
            Edit::Resize { size } => resize(&mut self.items, size),
        }
    }
}

impl Clone for Bytes {
    ghost is_clone = { λ a b. b ≡ a };

    fn clone(&self) -> Result<Bytes, AllocError> {
        Ok(Bytes {
            items: self.items.clone()?,
        })
    }
}

impl PartialEq for Bytes {
    ghost use Rattle.std.specs.Cmp.Lexicographic.{pointwise, nat_list_eq_equiv};
    ghost use Rattle.std.specs.Prelude.{nat_eq};
    ghost use Rattle.std.specs.Cmp.{partial_equiv_from_equiv};

    ghost eq = { pointwise nat_eq };

    ghost laws = { partial_equiv_from_equiv nat_list_eq_equiv };

    fn eq(&self, other: &Bytes) -> bool {
        self.items == other.items
    }
}

impl Eq for Bytes {
    ghost use Rattle.std.specs.Cmp.Lexicographic.{nat_list_eq_equiv};

    ghost laws = { nat_list_eq_equiv };
}

/// What a directory or a regular file has besides its kind and what is in it (inode(7)).
#[derive(Clone, Copy, Debug, PartialEq, Eq)]
pub struct Meta {
    /// The permission bits, at most octal 7777 (chmod(2)).
    pub mode: u32,
}

/// What stands at a path of a layer.
#[derive(Clone, Copy, Debug)]
pub enum Node {
    /// A directory. An opaque one hides what the layers below have in it.
    Dir { meta: Meta, opaque: bool },
    /// A name of the regular file with the number.
    File { number: u32 },
    /// A name of the symlink with the number.
    Symlink { number: u32 },
    /// A whiteout: the name is hidden in the layers below.
    Whiteout,
}

impl Node {
    ghost use Rattle.std.specs.Prelude.{◌≡◌};
    ghost use Rattle.snap_layer.specs.Tree.{is_dir, is_whiteout, has_number, number_of};

    /// Whether it is a directory.
    pub fn is_dir(&self) -> bool
        ensures { result ≡ is_dir self.now }
    {
        matches!(self, Node::Dir { .. })
    }

    /// Whether it is a whiteout.
    pub fn is_whiteout(&self) -> bool
        ensures { result ≡ is_whiteout self.now }
    {
        matches!(self, Node::Whiteout)
    }

    /// The number of the file or symlink that it names.
    pub fn number(&self) -> Option<u32>
        ensures { result ≡ number_of self.now }
    {
        match self {
            Node::File { number } => Some(*number),
            Node::Symlink { number } => Some(*number),
            Node::Dir { .. } => None,
            Node::Whiteout => None,
        }
    }

    /// Whether it names the file or symlink with the number.
    pub fn has_number(&self, number: u32) -> bool
        ensures { result ≡ has_number number self.now }
    {
        match self {
            Node::File { number: own } => *own == number,
            Node::Symlink { number: own } => *own == number,
            Node::Dir { .. } => false,
            Node::Whiteout => false,
        }
    }
}

impl PartialEq for Node {
    ghost use Rattle.std.specs.Prelude.{◌≡◌, ◌↔◌, IsTrue};
    ghost use Rattle.std.specs.Cmp.{partial_equiv_from_equiv};
    ghost use Rattle.snap_layer.specs.Equal.{node_eq};
    ghost use Rattle.snap_layer.specs.Equal.{node_eq_equiv};

    ghost eq = { node_eq };

    ghost laws = { partial_equiv_from_equiv node_eq_equiv };

    fn eq(&self, other: &Node) -> bool {
        match (*self, *other) {
            (
                Node::Dir { meta, opaque },
                Node::Dir {
                    meta: other,
                    opaque: mark,
                },
            ) => meta == other && opaque == mark,
            (Node::File { number }, Node::File { number: other }) => number == other,
            (Node::Symlink { number }, Node::Symlink { number: other }) => number == other,
            (Node::Whiteout, Node::Whiteout) => true,
            _ => false,
        }
    }
}

impl Eq for Node {
    ghost use Rattle.snap_layer.specs.Equal.{node_eq_equiv};

    ghost laws = { node_eq_equiv };
}

/// A file or a symlink, apart from its names.
#[derive(Clone, Debug, Drop)]
pub enum Body {
    /// A regular file, and its content.
    File { meta: Meta, content: Content },
    /// A symlink, with a target of 1 to 4095 bytes without NUL.
    Symlink { target: Bytes },
}

impl Body {
    ghost use Rattle.std.specs.Prelude.{◌≡◌};
    ghost use Rattle.snap_layer.specs.Counts.{body_blocks};
    ghost use Rattle.snap_layer.specs.Edits.{body_with_mode};

    /// The blocks of 4096 bytes that it takes: a symlink takes none.
    pub fn blocks(&self) -> u64
        ensures { result ≡ body_blocks self.now }
    {
        match self {
            Body::File { content, .. } => content.blocks(),
            Body::Symlink { .. } => 0,
        }
    }

    /// Sets the mode of a file.
    pub(crate) fn set_mode(&mut self, mode: u32)
        ensures { self.new ≡ body_with_mode self.old mode }
    {
        match self {
            Body::File { meta, .. } => meta.mode = mode,
            Body::Symlink { .. } => {}
        }
    }

    /// Edits a file in place, and gives the blocks that it took and those that it takes.
    pub(crate) fn edit(&mut self, edit: Edit<'_>) -> Result<(u64, u64), AllocError>
        requires { IsShort edit (body_content (Some self.old)) }
        ensures ok { OnOk result (self.new ≡ body_edited self.old edit.entry) }
        ensures blocks { IfOk result (λ b. b ≡ (body_blocks self.old, body_blocks (body_edited self.old edit.entry))) }
        ensures grows { OnErr result (Grows edit.entry (body_content (Some self.old))) }
        ensures err { OnErr result (self.new ≡ self.old) }
    {
        match self {
            Body::File { content, .. } => {
                let freed = content.blocks();
                content.edit(edit)?;
                Ok((freed, content.blocks()))
            }
            Body::Symlink { .. } => Ok((0, 0)),
        }
    }
}

impl PartialEq for Body {
    ghost use Rattle.std.specs.Cmp.{partial_equiv_from_equiv};
    ghost use Rattle.snap_layer.specs.Equal.{body_eq};
    ghost use Rattle.snap_layer.specs.Equal.{body_eq_equiv};

    ghost eq = { body_eq };

    ghost laws = { partial_equiv_from_equiv body_eq_equiv };

    fn eq(&self, other: &Body) -> bool {
        match (self, other) {
            (
                Body::File { meta, content },
                Body::File {
                    meta: other,
                    content: others,
                },
            ) => *meta == *other && content == others,
            (Body::Symlink { target }, Body::Symlink { target: other }) => target == other,
            _ => false,
        }
    }
}

impl Eq for Body {
    ghost use Rattle.snap_layer.specs.Equal.{body_eq_equiv};

    ghost laws = { body_eq_equiv };
}
