// What a regular file has.
ghost use Rattle.std.specs.Prelude.{[], ◌≡◌, OnOk, OnErr};
ghost use Rattle.snap_layer.specs.Counts.{blocks_of};
ghost use Rattle.snap_layer.specs.Contents.{edited, most_bytes, size_of, Grows, IsShort};
ghost use Rattle.snap_layer.specs.declared.content.Content.TheVariants as content_kinds;

use super::bytes::Edit;
use super::node::Bytes;
use snap_path::limits::{BLOCK_BYTES, MAX_FILE_BYTES, MAX_SIZED_BYTES};
use std::alloc::{AllocError, Global};

/// What a regular file has: its bytes, or a size alone.
#[derive(Debug, Drop)]
pub enum Content {
    /// At most 1,048,576 bytes.
    Bytes(Bytes),
    /// A size of at most 2^40 bytes, which aren't kept. The digest says which they are (OCI image specification,
    /// "Descriptors"): a text of at most 1024 bytes, or none where nobody knows them.
    Sized { size: u64, digest: Option<Bytes> },
}

impl Content {
    /// A file without bytes. Takes no memory.
    pub fn empty(alloc: Global) -> Content
        ensures { result ≡ content_kinds.Bytes [] }
    {
        Content::Bytes(Bytes::new(Vec::new(alloc)))
    }

    /// How many bytes the file has. Takes no memory. The cost is constant.
    pub fn size(&self) -> u64
        ensures { result ≡ size_of self.now }
    {
        match self {
            Content::Bytes(bytes) => bytes.as_slice().len() as u64,
            Content::Sized { size, .. } => *size,
        }
    }

    /// How many bytes the file may have after an edit: 1,048,576 where its bytes are kept, else 2^40. Takes no
    /// memory. The cost is constant.
    pub fn most_bytes(&self) -> u64
        ensures { result ≡ most_bytes self.now }
    {
        match self {
            Content::Bytes(_) => MAX_FILE_BYTES,
            Content::Sized { .. } => MAX_SIZED_BYTES,
        }
    }

    /// The blocks of 4096 bytes that it takes.
    pub(crate) fn blocks(&self) -> u64
        ensures { result ≡ blocks_of (size_of self.now) }
    {
        self.size().div_ceil(BLOCK_BYTES)
    }

    /// Edits the file in place. Only a growth of bytes takes memory, and nothing changes before it is there.
    pub(crate) fn edit(&mut self, edit: Edit<'_>) -> Result<(), AllocError>
        requires { IsShort edit self.old }
        ensures ok { OnOk result (self.new ≡ edited edit.entry self.old) }
        ensures grows { OnErr result (Grows edit.entry self.old) }
        ensures err { OnErr result (self.new ≡ self.old) }
    {
        match self {
            Content::Bytes(bytes) => bytes.edit(edit),
            Content::Sized { size, digest } => {
                if edit.changes(*size) {
                    *size = edit.size(*size);
                    *digest = None;
                }
                Ok(())
            }
        }
    }
}

impl Clone for Content {
    ghost is_clone = { λ a b. b ≡ a };

    fn clone(&self) -> Result<Content, AllocError> {
        match self {
            Content::Bytes(bytes) => Ok(Content::Bytes(bytes.clone()?)),
            Content::Sized { size, digest } => Ok(Content::Sized {
                size: *size,
                digest: digest.clone()?,
            }),
        }
    }
}

impl PartialEq for Content {
    ghost use Rattle.std.specs.Cmp.{partial_equiv_from_equiv};
    ghost use Rattle.snap_layer.specs.Equal.{content_eq};
    ghost use Rattle.snap_layer.specs.Equal.{content_eq_equiv};

    ghost eq = { content_eq };

    ghost laws = { partial_equiv_from_equiv content_eq_equiv };

    fn eq(&self, other: &Content) -> bool {
        match (self, other) {
            (Content::Bytes(bytes), Content::Bytes(others)) => bytes == others,
            (
                Content::Sized { size, digest },
                Content::Sized {
                    size: other,
                    digest: others,
                },
            ) => *size == *other && digest == others,
            _ => false,
        }
    }
}

impl Eq for Content {
    ghost use Rattle.snap_layer.specs.Equal.{content_eq_equiv};

    ghost laws = { content_eq_equiv };
}
