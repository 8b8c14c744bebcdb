//! The limits of what stands in a layer.
ghost use Rattle.std.specs.Prelude.{◌≡◌, ◌↔◌, ◌≤◌, IsTrue};
ghost use Rattle.snap_layer.specs.Contents.{IsContent, IsDigest};
ghost use Rattle.snap_layer.specs.Layers.{IsBody, IsMeta, is_target};
ghost use Rattle.snap_saved.specs.Limits.{is_body, is_content, is_digest, is_meta};

use snap_layer::{Body, Bytes, Content, Meta};
use snap_path::limits::{
    MAX_DIGEST_BYTES, MAX_FILE_BYTES, MAX_MODE, MAX_SIZED_BYTES, MAX_TARGET_BYTES,
};

/// Whether the mode is at most octal 7777.
pub(crate) fn is_meta(meta: Meta) -> bool
    ensures fits { IsTrue result ↔ IsMeta meta }
    ensures test { result ≡ is_meta meta }
{
    meta.mode <= MAX_MODE
}

/// Whether a file or symlink may be this.
pub(crate) fn is_body(body: &Body) -> bool
    ensures fits { IsTrue result ↔ IsBody body.now }
    ensures test { result ≡ is_body body.now }
{
    match body {
        Body::File { meta, content } => is_meta(*meta) && is_content(content),
        Body::Symlink { target } => is_target(target.as_slice()),
    }
}

/// Whether a file may have the content.
fn is_content(content: &Content) -> bool
    ensures fits { IsTrue result ↔ IsContent content.now }
    ensures test { result ≡ is_content content.now }
{
    match content {
        Content::Bytes(bytes) => bytes.as_slice().len() as u64 <= MAX_FILE_BYTES,
        Content::Sized { size, digest } => *size <= MAX_SIZED_BYTES && is_digest(digest),
    }
}

/// Whether the digest has at most 1024 bytes.
fn is_digest(digest: &Option<Bytes>) -> bool
    ensures fits { IsTrue result ↔ IsDigest digest.now }
    ensures test { result ≡ is_digest digest.now }
{
    match digest {
        Some(digest) => digest.as_slice().len() <= MAX_DIGEST_BYTES,
        None => true,
    }
}

/// Whether a symlink may have the target.
fn is_target(target: &[u8]) -> bool
    ensures { result ≡ is_target target.now }
{
    !target.is_empty() && target.len() <= MAX_TARGET_BYTES && !target.contains(&0)
}
