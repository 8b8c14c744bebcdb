// How a file is edited, and how bytes change in place.
ghost use Rattle.std.specs.Prelude.{◌≡◌, ◌+◌, ◌<◌, ◌≤◌, ℕ, List, IfOk, OnOk, OnErr, length, take, drop, ◌++◌};
ghost use Rattle.std.specs.Vec.{vec_capacity};
ghost use Rattle.snap_path.specs.Limits.{most_file_bytes};
ghost use Rattle.snap_layer.specs.Contents.{bytes_resized, bytes_written, changes_size, edited, size_of, IsShort};
ghost use Rattle.snap_layer.specs.declared.content.Content.{Content as ContentValue};
ghost use Rattle.snap_layer.specs.declared.content.Content.TheVariants as content_kinds;

use super::content::Content;
use super::node::Bytes;
use std::alloc::{AllocError, Global};

/// How a file changes.
#[derive(Clone, Copy)]
pub enum Edit<'a> {
    /// It stays.
    Keep,
    /// The bytes are put at the offset, over a gap of zero bytes where it lies behind the end. No bytes change
    /// nothing. Of a file of a size, that alone is kept: the greater of its own and where the bytes end.
    Write { offset: usize, bytes: &'a [u8] },
    /// The file is cut, or filled with zero bytes, to this size. Of a file of a size, only the new one is kept; its own
    /// changes nothing.
    Resize { size: usize },
}

impl<'a> Edit<'a> {
    /// The size of a file of `old` bytes afterwards, whether they are kept or not.
    pub fn size(self, old: u64) -> u64
        ensures { (was : ContentValue) → size_of was ≡ old → IsShort self.entry was → result ≡ size_of (edited self.entry was) }
    {
        match self {
            Edit::Keep => old,
            Edit::Write { offset, bytes } => {
                if bytes.is_empty() {
                    return old;
                }
                old.max((offset as u64).saturating_add(bytes.len() as u64))
            }
            Edit::Resize { size } => size as u64,
        }
    }

    /// Whether it changes a file of the size, whose bytes aren't kept.
    pub(crate) fn changes(self, old: u64) -> bool
        ensures { result ≡ changes_size self.entry old }
    {
        match self {
            Edit::Keep => false,
            Edit::Write { bytes, .. } => !bytes.is_empty(),
            Edit::Resize { size } => old != size as u64,
        }
    }

    /// How many of `old` bytes the edit goes on from: those behind are cut.
    fn kept(self, old: usize) -> usize
        ensures few { result ≤ old }
        ensures same { (was : List ℕ) → length was ≡ old → edited self.entry (content_kinds.Bytes (take result was)) ≡ edited self.entry (content_kinds.Bytes was) }
    {
        match self {
            Edit::Resize { size } => size.min(old),
            Edit::Keep => old,
            Edit::Write { .. } => old,
        }
    }

    /// A copy of the file, edited.
    ///
    /// It fails only where memory is refused. Cost: the bytes afterwards, or the digest where it stays.
    pub fn content(self, alloc: Global, old: &Content) -> Result<Content, AllocError>
        requires { IsShort self old.now }
        ensures { IfOk result (λ c. c ≡ edited self.entry old.now) }
    {
        match old {
            Content::Bytes(bytes) => {
                let old = bytes.as_slice();
                let mut bytes = Bytes::copy_of(alloc, &old[..self.kept(old.len())])?;
                bytes.edit(self)?;
                Ok(Content::Bytes(bytes))
            }
            Content::Sized { size, .. } => {
                if !self.changes(*size) {
                    return old.clone();
                }
                Ok(Content::Sized {
                    size: self.size(*size),
                    digest: None,
                })
            }
        }
    }
}

/// Puts the bytes at the offset, over a gap of zero bytes. Only a growth takes memory, and nothing changes before it is
/// there.
pub(crate) fn put_at(items: &mut Vec<u8>, offset: usize, bytes: &[u8]) -> Result<(), AllocError>
    requires { offset + length bytes.now ≤ most_file_bytes }
    ensures ok { OnOk result (items.new.items ≡ bytes_written items.old.items offset bytes.now) }
    ensures grows { OnErr result (length items.old.items < length (bytes_written items.old.items offset bytes.now)) }
    ensures err { OnErr result (items.new.items ≡ items.old.items) }
{
    if bytes.is_empty() {
        return Ok(());
    }
    let end = offset + bytes.len();
    if end <= items.len() {
        overwrite(items, offset, bytes);
        return Ok(());
    }
    items.resize(end, 0)?;
    overwrite(items, offset, bytes);
    Ok(())
}

/// Puts the bytes at the offset in place of as many.
fn overwrite(items: &mut [u8], offset: usize, bytes: &[u8])
    requires { offset + length bytes.now ≤ length items.old }
    ensures after { items.new ≡ take offset items.old ++ bytes.now ++ drop (offset + length bytes.now) items.old }
    ensures len { length items.new ≡ length items.old }
{
    items[offset..offset + bytes.len()].copy_from_slice(bytes);
}

/// Cuts to the size, and gives the memory of the others back, or fills up with zero bytes. A cut doesn't fail.
pub(crate) fn resize(items: &mut Vec<u8>, size: usize) -> Result<(), AllocError>
    ensures ok { OnOk result (items.new.items ≡ bytes_resized items.old.items size) }
    // A cut gives memory back: all of it where no byte is left.
    ensures capacity { size ≤ length items.old.items → vec_capacity items.new ≤ vec_capacity items.old }
    ensures frees { size ≡ 0 → vec_capacity items.new ≡ 0 }
    ensures grows { OnErr result (length items.old.items < length (bytes_resized items.old.items size)) }
    ensures err { OnErr result (items.new.items ≡ items.old.items) }
{
    if size <= items.len() {
        items.truncate(size);
        items.shrink_to_fit();
        return Ok(());
    }
    items.resize(size, 0)
}
