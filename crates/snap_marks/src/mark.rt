// The text of a mark, and the sums that it has.
ghost use Rattle.std.specs.Prelude.{◌≡◌, ◌++◌, ◌∷◌, [], IfOk};
ghost use Rattle.snap_marks.specs.Marks.{chained, chained_from, chained_lines, first_part, is_continued_line, is_mark_line, stem};

use sha2::{Digest, Sha256};
use std::alloc::{AllocError, Global};

/// Whether a line, which stands here without its line feed, is a mark. Takes no memory.
pub fn is_mark(line: &[u8]) -> bool
    ensures { result ≡ is_mark_line line.now }
{
    line.starts_with(b"{\"do\":\"report\",\"lines\":\"")
}

/// Whether a line, which stands here without its line feed, is a mark from which sums go on. Takes no memory.
pub fn is_continued(line: &[u8]) -> bool
    ensures { result ≡ is_continued_line line.now }
{
    line.starts_with(b"{\"do\":\"report\",\"lines\":\"\",\"continued\":\"")
}

// The sum behind these bytes.
pub(crate) fn chained(sum: &[u8; 32], bytes: &[u8]) -> [u8; 32]
    ensures { result ≡ chained sum.now bytes.now }
{
    let mut hasher = Sha256::new();
    hasher.update(sum.as_slice());
    hasher.update(bytes);
    hasher.finalize()
}

// The sum behind a line, which stands here without its line feed.
pub(crate) fn chained_line(sum: &[u8; 32], line: &[u8]) -> [u8; 32]
    ensures { result ≡ chained sum.now (line.now ++ 10 ∷ []) }
{
    let mut hasher = Sha256::new();
    hasher.update(sum.as_slice());
    hasher.update(line);
    hasher.update(b"\n".as_slice());
    hasher.finalize()
}

/// The sum behind whole lines, each with its line feed. Takes no memory; the cost grows with their bytes.
pub fn chained_lines(sum: &[u8; 32], lines: &[u8]) -> [u8; 32]
    ensures { result ≡ chained_lines sum.now lines.now }
{
    let mut next = *sum;
    let mut from = 0;
    let mut at = 0;
    'bytes: while at < lines.len() {
        if lines[at] == b'\n' {
            next = chained_line(&next, &lines[from..at]);
            from = at + 1;
        }
        at += 1;
    }
    next
}

// The first part of a mark, by its sum of lines.
pub(crate) fn first_part(alloc: Global, lines: &[u8; 32]) -> Result<Vec<u8>, AllocError>
    ensures { IfOk result (λ text. text.items ≡ first_part lines.now) }
{
    let mut text = Vec::new(alloc);
    let sum = hex::encode(alloc, lines.as_slice())?;
    text.extend_from_slice(b"{\"do\":\"report\",\"lines\":\"")?;
    text.extend_from_slice(sum.as_bytes())?;
    text.extend_from_slice(b"\",\"answers\":\"")?;
    Ok(text)
}

// A mark but for its end.
pub(crate) fn stem(
    alloc: Global,
    lines: &[u8; 32],
    answers: &[u8; 32],
) -> Result<Vec<u8>, AllocError>
    ensures { IfOk result (λ text. text.items ≡ stem lines.now answers.now) }
{
    let mut text = first_part(alloc, lines)?;
    let sum = hex::encode(alloc, answers.as_slice())?;
    text.extend_from_slice(sum.as_bytes())?;
    Ok(text)
}
