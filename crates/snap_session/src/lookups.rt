// What a snapshot shows at a path.
ghost use Rattle.std.specs.Prelude.{◌≡◌, IfOk, Ok, drop, length, take};
ghost use Rattle.snap_merge.specs.Objects.{file, object};
ghost use Rattle.snap_script.specs.declared.answer.Answer.TheVariants as answers;
ghost use Rattle.snap_session.specs.Commands.{layers_at, read_of, shown_of, looked_up, lookup};

use snap_layer::{Bytes, Content, Meta};
use snap_ledger::StoreName;
use snap_merge::{FsError, Seen, Stack};
use snap_path::Path;
use snap_record::Sequence;
use snap_script::{Answer, Lookup, Shown};
use snap_world::{NoMemory, World};
use std::alloc::{AllocError, Global};

// How many of a file's bytes are shown.
const HEAD_BYTES: usize = 16;

// What is seen, with its own target.
fn shown_of(alloc: Global, seen: Seen<'_>) -> Result<Shown, AllocError>
    ensures { IfOk result (λ shown. shown ≡ shown_of (object seen.entry)) }
{
    match seen {
        Seen::Dir { meta } => Ok(Shown::Dir { mode: meta.mode }),
        Seen::File { meta, content } => shown_file(alloc, meta, content),
        Seen::Symlink { target } => Ok(Shown::Symlink {
            target: Bytes::copy_of(alloc, target)?,
        }),
    }
}

// A file that is seen, with its own digest.
fn shown_file(alloc: Global, meta: Meta, content: &Content) -> Result<Shown, AllocError>
    ensures { IfOk result (λ shown. shown ≡ shown_of (file meta content.now)) }
{
    match content {
        Content::Bytes(_) => Ok(Shown::File {
            mode: meta.mode,
            size: content.size(),
        }),
        Content::Sized { size, digest } => Ok(Shown::Sized {
            mode: meta.mode,
            size: *size,
            digest: digest.clone()?,
        }),
    }
}

// The file's first bytes, and how many it has; or its size and its digest, where its bytes aren't kept.
fn read_of(alloc: Global, content: &Content) -> Result<Answer, AllocError>
    ensures { IfOk result (λ answer. answer ≡ read_of (λ bytes. answers.Head (take 16 bytes) (length bytes)) content.now) }
{
    match content {
        Content::Bytes(bytes) => head_of(alloc, bytes.as_slice()),
        Content::Sized { size, digest } => Ok(Answer::Known {
            size: *size,
            digest: digest.clone()?,
        }),
    }
}

// The file's first bytes, and how many it has.
fn head_of(alloc: Global, bytes: &[u8]) -> Result<Answer, AllocError>
    ensures { IfOk result (λ answer. answer ≡ answers.Head (take 16 bytes.now) (length bytes.now)) }
{
    let first = &bytes[..HEAD_BYTES.min(bytes.len())];
    Ok(Answer::Head {
        head: Bytes::copy_of(alloc, first)?,
        size: bytes.len() as u64,
    })
}

// A part of the file's bytes, and how many it has; or its size and its digest, where its bytes aren't kept.
fn part_of(alloc: Global, content: &Content, offset: u64, most: u64) -> Result<Answer, AllocError>
    ensures { IfOk result (λ answer. answer ≡ read_of (λ bytes. answers.Part (take most (drop offset bytes)) (length bytes)) content.now) }
{
    match content {
        Content::Bytes(bytes) => part_in(alloc, bytes.as_slice(), offset, most),
        Content::Sized { size, digest } => Ok(Answer::Known {
            size: *size,
            digest: digest.clone()?,
        }),
    }
}

// The file's bytes from the offset on, at most `most`, and how many it has.
#[tactic(auto, using(std::proofs::lemmas::List::drop_min, std::proofs::lemmas::List::take_min))]
fn part_in(alloc: Global, bytes: &[u8], offset: u64, most: u64) -> Result<Answer, AllocError>
    ensures { IfOk result (λ answer. answer ≡ answers.Part (take most (drop offset bytes.now)) (length bytes.now)) }
{
    let (_, rest) = bytes.split_at((offset as usize).min(bytes.len()));
    let (part, _) = rest.split_at((most as usize).min(rest.len()));
    Ok(Answer::Part {
        bytes: Bytes::copy_of(alloc, part)?,
        size: bytes.len() as u64,
    })
}

fn looked_up(
    alloc: Global,
    lookup: Lookup,
    stack: &Stack<'_>,
    path: &Path,
) -> Result<Answer, NoMemory>
    ensures { IfOk result (λ answer. answer ≡ looked_up lookup stack.now path.now) }
{
    match lookup {
        Lookup::Look => match stack.look(path) {
            Some(seen) => Ok(Answer::Seen(Some(shown_of(alloc, seen)?))),
            None => Ok(Answer::Seen(None)),
        },
        Lookup::List => match stack.list(alloc, path) {
            Ok(names) => Ok(Answer::Names(Sequence::from(names))),
            Err(FsError::OutOfMemory(no_memory)) => Err(no_memory),
            Err(error) => Ok(Answer::Failed(error)),
        },
        Lookup::Read => match stack.read(path) {
            Ok(content) => Ok(read_of(alloc, content)?),
            Err(error) => Ok(Answer::Failed(error)),
        },
        Lookup::Part { offset, most } => match stack.read(path) {
            Ok(content) => Ok(part_of(alloc, content, offset, most)?),
            Err(error) => Ok(Answer::Failed(error)),
        },
        Lookup::Resolve => match stack.resolve(alloc, path) {
            Ok(found) => Ok(Answer::Path(found)),
            Err(FsError::OutOfMemory(no_memory)) => Err(no_memory),
            Err(error) => Ok(Answer::Failed(error)),
        },
        Lookup::Usage => match stack.taken(alloc, path) {
            Ok(taken) => Ok(Answer::Taken(taken)),
            Err(FsError::OutOfMemory(no_memory)) => Err(no_memory),
            Err(error) => Ok(Answer::Failed(error)),
        },
    }
}

// A lookup in the layers; there is no path where its text was none.
fn lookup_in(
    alloc: Global,
    asked: Lookup,
    path: Option<Path>,
    stack: &Stack<'_>,
) -> Result<Answer, NoMemory>
    ensures { IfOk result (λ answer. answer ≡ lookup asked path (Ok stack.now)) }
{
    match path {
        Some(path) => looked_up(alloc, asked, stack, &path),
        None => Ok(Answer::Failed(FsError::BadPath)),
    }
}

// A lookup of a snapshot; where it may be peeked at, also of a committed one.
pub(crate) fn lookup<N: StoreName>(
    alloc: Global,
    world: &World<N>,
    namespace: &str,
    key: &str,
    asked: Lookup,
    path: Option<Path>,
    peek: bool,
) -> Result<Answer, NoMemory>
    ensures { IfOk result (λ answer. answer ≡ lookup asked path (layers_at world.now namespace.now key.now peek)) }
{
    if peek {
        if let Some((layer, lowers)) = world.peek(namespace, key)? {
            let stack = Stack::over(layer, lowers.as_slice());
            return lookup_in(alloc, asked, path, &stack);
        }
    }
    match world.stack(namespace, key) {
        Ok(stack) => lookup_in(alloc, asked, path, &stack),
        Err(why) => Ok(Answer::refused(why)),
    }
}
