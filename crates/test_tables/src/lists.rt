// Lists of lookups and operations, which are carried out on layers.
use snap_layer::{Bytes, Layer, Meta, Shared};
use snap_merge::{Seen, Stack};
use snap_path::Path;
use snap_path::limits::DEFAULT_MODE;
use snap_upper::{Op, apply};
use std::alloc::{AllocError, Global};
use std::io;
use std::io::{BufRead, BufReader};

/// The mode of a new file, and the one that `setmode` sets.
const FILE_MODE: u32 = 0o644;

const OWN_MODE: u32 = 0o600;

/// What the root of each layer has.
const ROOT_META: Meta = Meta { mode: DEFAULT_MODE };

/// The layers, and the lists of what is to be done with them.
#[derive(Drop)]
struct Lists {
    alloc: Global,
    /// The nearest one first.
    lowers: Vec<Shared>,
    uppers: Vec<Layer>,
    paths: Vec<Path>,
    operations: Vec<Op>,
}

/// Takes each line of the input. The answer is whether each is one.
pub(crate) fn carry_out(rt: &(impl Input + Print + AllocGlobal)) -> io::Result<bool> {
    let alloc = rt.alloc();
    let mut lists = Lists {
        alloc,
        lowers: Vec::new(alloc),
        uppers: Vec::new(alloc),
        paths: Vec::new(alloc),
        operations: Vec::new(alloc),
    };
    lists.set_uppers(1)?;
    for text in BufReader::new(alloc, rt.reader())?.lines(alloc) {
        let text = text?;
        if !lists.take(rt, text.as_str())? {
            return Ok(false);
        }
    }
    Ok(true)
}

impl Lists {
    /// Does what the line asks for, and prints an answer where it has one. The result is whether it is a line that
    /// can be read.
    fn take(&mut self, rt: &impl Print, line: &str) -> io::Result<bool> {
        let (word, rest) = line.split_once(' ').unwrap_or((line, ""));
        match word {
            "look" => match Path::parse(self.alloc, rest) {
                Ok(path) => self.paths.push(path)?,
                Err(_) => return Ok(false),
            },
            "looks" => match rest.parse() {
                Ok(times) => self.looks(rt, times)?,
                Err(_) => return Ok(false),
            },
            "apply" => apply_to(rt, &mut self.uppers, &self.lowers, &self.operations)?,
            "fill" => apply_to(rt, &mut self.uppers, &[], &self.operations)?,
            "clear" => {
                self.paths.clear();
                self.operations.clear();
            }
            "commit" => self.commit()?,
            "uppers" => match rest.parse() {
                Ok(count) => self.set_uppers(count)?,
                Err(_) => return Ok(false),
            },
            _ => match operation(self.alloc, word, rest) {
                Some(operation) => self.operations.push(operation)?,
                None => return Ok(false),
            },
        }
        Ok(true)
    }

    fn set_uppers(&mut self, count: u64) -> Result<(), AllocError> {
        self.uppers.clear();
        for _ in 0..count {
            self.uppers.push(Layer::empty(self.alloc, ROOT_META)?)?;
        }
        Ok(())
    }

    fn commit(&mut self) -> Result<(), AllocError> {
        if let Some(layer) = self.uppers.pop() {
            match Shared::new(layer) {
                Ok(shared) => self.lowers.insert(0, shared)?,
                Err((no_memory, _)) => return Err(no_memory.into()),
            }
        }
        self.uppers.push(Layer::empty(self.alloc, ROOT_META)?)?;
        Ok(())
    }

    /// Looks all paths up `times` times, and prints how many of the lookups met a file.
    fn looks(&self, rt: &impl Print, times: u64) -> io::Result<()> {
        let mut seen = 0u64;
        if let Some(upper) = self.uppers.first() {
            let stack = Stack::over(upper, self.lowers.as_slice());
            for _ in 0..times {
                for path in &self.paths {
                    if let Some(Seen::File { .. }) = stack.look(path) {
                        seen = seen.saturating_add(1);
                    }
                }
            }
        }
        println!(rt; "seen {seen}")
    }
}

/// Applies the operations to each upper layer over the lower ones. Prints how many of them had no error, and what
/// the last upper layer takes.
fn apply_to(
    rt: &impl Print,
    uppers: &mut [Layer],
    lowers: &[Shared],
    operations: &[Op],
) -> io::Result<()> {
    let (mut done, mut blocks, mut inodes) = (0u64, 0, 0);
    for upper in uppers {
        for operation in operations {
            if apply(upper, lowers, operation).is_ok() {
                done = done.saturating_add(1);
            }
        }
        blocks = upper.blocks();
        inodes = upper.inodes();
    }
    println!(rt; "done {done} blocks {blocks} inodes {inodes}")
}

/// The operation of the word, or nothing where it is none or memory is refused.
fn operation(alloc: Global, word: &str, rest: &str) -> Option<Op> {
    let (first, second) = rest.split_once(' ').unwrap_or((rest, ""));
    let path = Path::parse(alloc, first).ok()?;
    match word {
        "mkdir" => Some(Op::Mkdir {
            path,
            mode: DEFAULT_MODE,
        }),
        "create" => Some(Op::Create {
            path,
            mode: FILE_MODE,
        }),
        "setmode" => Some(Op::SetMode {
            path,
            mode: OWN_MODE,
        }),
        "unlink" => Some(Op::Unlink { path }),
        "write" => Some(Op::Write {
            path,
            offset: 0,
            bytes: Bytes::copy_of(alloc, second.as_bytes()).ok()?,
        }),
        "rename" => Some(Op::Rename {
            from: path,
            to: Path::parse(alloc, second).ok()?,
        }),
        _ => None,
    }
}
