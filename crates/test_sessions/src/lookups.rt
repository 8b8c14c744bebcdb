// What a snapshot shows at a path.
use crate::refused::Refused;
use crate::round::Round;
use snap_book::Held;
use snap_layer::{Bytes, Content, Meta};
use snap_merge::{FsError, Seen, Stack};
use snap_path::Path;
use snap_record::Sequence;
use snap_script::{Answer, Lookup, Shown};
use snap_store::RoundName;
use std::alloc::{AllocError, Global};
use std::sync::Wait;

// How many of a file's bytes are shown.
const HEAD_BYTES: usize = 16;

// A file that is seen, with its own digest.
fn shown(meta: Meta, content: &Content) -> Result<Shown, AllocError> {
    Ok(match content {
        Content::Bytes(_) => Shown::File {
            mode: meta.mode,
            size: content.size(),
        },
        Content::Sized { size, digest } => Shown::Sized {
            mode: meta.mode,
            size: *size,
            digest: digest.clone()?,
        },
    })
}

// The first bytes of a file, and how many it has; or its size and its digest.
fn read(alloc: Global, content: &Content) -> Result<Answer, AllocError> {
    match content {
        Content::Bytes(bytes) => {
            let bytes = bytes.as_slice();
            let first = &bytes[..HEAD_BYTES.min(bytes.len())];
            Ok(Answer::Head {
                head: Bytes::copy_of(alloc, first)?,
                size: bytes.len() as u64,
            })
        }
        Content::Sized { size, digest } => Ok(Answer::Known {
            size: *size,
            digest: digest.clone()?,
        }),
    }
}

// The bytes of a file from the offset on, at most `most`, and how many it has; or its size and its digest.
fn part(alloc: Global, content: &Content, offset: u64, most: u64) -> Result<Answer, AllocError> {
    match content {
        Content::Bytes(bytes) => {
            let bytes = bytes.as_slice();
            let (_, rest) = bytes.split_at((offset as usize).min(bytes.len()));
            let (part, _) = rest.split_at((most as usize).min(rest.len()));
            Ok(Answer::Part {
                bytes: Bytes::copy_of(alloc, part)?,
                size: bytes.len() as u64,
            })
        }
        Content::Sized { size, digest } => Ok(Answer::Known {
            size: *size,
            digest: digest.clone()?,
        }),
    }
}

// What is seen, with its own target.
fn looked_up(
    alloc: Global,
    lookup: Lookup,
    stack: &Stack<'_>,
    path: &Path,
) -> Result<Answer, Refused> {
    match lookup {
        Lookup::Look => match stack.look(path) {
            Some(Seen::Dir { meta }) => Ok(Answer::Seen(Some(Shown::Dir { mode: meta.mode }))),
            Some(Seen::File { meta, content }) => Ok(Answer::Seen(Some(shown(meta, content)?))),
            Some(Seen::Symlink { target }) => {
                let target = Bytes::copy_of(alloc, target)?;
                Ok(Answer::Seen(Some(Shown::Symlink { target })))
            }
            None => Ok(Answer::Seen(None)),
        },
        Lookup::List => Ok(Answer::Names(Sequence::from(stack.list(alloc, path)?))),
        Lookup::Read => Ok(read(alloc, stack.read(path)?)?),
        Lookup::Part { offset, most } => Ok(part(alloc, stack.read(path)?, offset, most)?),
        Lookup::Resolve => Ok(Answer::Path(stack.resolve(alloc, path)?)),
        Lookup::Usage => Ok(Answer::Taken(stack.taken(alloc, path)?)),
    }
}

impl<'a, N: RoundName, R: Wait> Round<'a, N, R> {
    // The layers of an open snapshot, or of a view.
    fn stack(&self, namespace: &str, key: &str) -> Result<Stack<'_>, Refused> {
        for view in &self.views {
            if view.is(namespace, key) {
                return Ok(view.viewed.stack());
            }
        }
        match self.hands.get(self.found(namespace, key)?) {
            Some(hand) => match &hand.held {
                Held::Active(active) => Ok(active.stack()),
                Held::Sealed(sealed) => Ok(sealed.stack()),
            },
            None => Err(Refused::NoHand),
        }
    }

    pub(crate) fn lookup(
        &self,
        namespace: &str,
        key: &str,
        asked: Lookup,
        path: &Option<Path>,
    ) -> Result<Answer, Refused> {
        let stack = self.stack(namespace, key)?;
        match path {
            Some(path) => looked_up(self.alloc, asked, &stack, path),
            None => Err(Refused::File(FsError::BadPath)),
        }
    }
}
