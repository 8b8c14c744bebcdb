// Where a run stands within an input, and the step of one line.
ghost use Rattle.std.specs.Prelude.{None, ◌≡◌, ◌<◌, [], ◌∷◌, length, false, Ok, Err, OnOk, IfOk, IfErr};
ghost use Rattle.std.specs.Io.KnownBytes.{Appends};
ghost use Rattle.memchr.specs.Find.{IsFirstByte, is_byte};
ghost use Rattle.snap_path.specs.declared.memory.NoMemory.{NoMemory};
ghost use Rattle.snap_lines.specs.Effects.{effect_with, text_bytes};
ghost use Rattle.snap_lines.specs.Transcripts.{Tells, next_line, passes, left_after};
ghost use Rattle.snap_lines.specs.Runs.{nothing, within, transcript_on, line_in, TakesLine, Goes, Refuses, Breaks, LeavesLine, StopsIn, StopsAtEnd};

use crate::stop::{LineFault, Stop};
use crate::take::TakeLine;
use memchr::memchr;
use snap_script::{Fault, MAX_LINE_BYTES, ReadError};
use std::alloc::Global;
use std::io::{ErrorKind, Write};
use std::marker::Model;

// The most writes that a text is written by.
const WRITES: u64 = u64::MAX;

// The fault of the line after the first `lines`.
fn fault(lines: u64, cause: Fault) -> Stop
    ensures { result ≡ Stop.Line (record { line = next_line lines; cause = cause }) }
{
    let line = lines.saturating_add(1);
    Stop::Line(LineFault { line, cause })
}

// Whether `len` bytes are more than is left.
fn passes(left: Option<usize>, len: usize) -> bool
    ensures { result ≡ passes left len }
{
    match left {
        Some(left) => left < len,
        None => false,
    }
}

// What is left after `len` bytes.
fn left_after(left: Option<usize>, len: usize) -> Option<usize>
    ensures { result ≡ left_after left len }
{
    match left {
        Some(left) => Some(left.saturating_sub(len)),
        None => None,
    }
}

// The text of a line, and what the line makes of the taker.
fn text_of<T: TakeLine>(
    alloc: Global,
    lines: u64,
    taker: &mut T,
    line: &[u8],
) -> Result<Option<String>, Stop>
    ensures ok { IfOk result (λ text. T.effect taker.old line.now ≡ Ok (effect_with taker.new text)) }
    ensures err { IfErr result (λ stop. Refuses (T.effect taker.old line.now) lines stop) }
    ensures memory { (want : NoMemory) → result ≡ Err (Stop.OutOfMemory want) → T.wanting taker.new }
{
    match taker.take_line(alloc, line) {
        Ok(text) => Ok(text),
        Err(ReadError::Fault(cause)) => Err(fault(lines, cause)),
        Err(ReadError::OutOfMemory(shortage)) => Err(Stop::OutOfMemory(shortage)),
    }
}

/// Writes the bytes to an output. A write that is interrupted is made again.
///
/// `OutputFailed` where a write failed or took nothing; then a first part of the bytes may be written, and no more.
/// Takes no memory itself. The cost is that of the writes.
pub fn write_bytes<W: Write>(output: &mut W, bytes: &[u8]) -> Result<(), Stop>
    ensures ok { OnOk result (Appends (W.contents output.old) (W.contents output.new) bytes.now) }
    ensures err { IfErr result (λ stop. Breaks bytes.now stop (W.contents output.old) (W.contents output.new)) }
{
    let mut written = 0;
    'writes: for _ in 0..WRITES {
        if written == bytes.len() {
            return Ok(());
        }
        match output.write(&bytes[written..]) {
            Ok(0) => return Err(Stop::OutputFailed),
            Ok(n) => written += n,
            Err(e) if e.kind() == ErrorKind::Interrupted => {}
            Err(_) => return Err(Stop::OutputFailed),
        }
    }
    Err(Stop::OutputFailed)
}

fn write_text<W: Write>(output: &mut W, text: Option<String>) -> Result<(), Stop>
    ensures ok { OnOk result (Appends (W.contents output.old) (W.contents output.new) (text_bytes text)) }
    ensures err { IfErr result (λ stop. Breaks (text_bytes text) stop (W.contents output.old) (W.contents output.new)) }
{
    match text {
        Some(text) => write_bytes(output, text.as_bytes()),
        None => Ok(()),
    }
}

// Where a run stands: within a line, of which `pending` has come. Where all lines have a limit, `left` of it is left;
// where they have none, of a line that is too long one byte more than a line may have is pending, and the others are let go.
#[derive(Drop)]
pub(crate) struct Reader {
    alloc: Global,
    lines: u64,
    left: Option<usize>,
    pending: Vec<u8>,
}

impl Model for Reader {
    ghost use Rattle.std.specs.Prelude.{◌≡◌, ◌≤◌, true, length};
    ghost use Rattle.snap_lines.specs.Lines.{is_open};
    ghost use Rattle.snap_lines.specs.Runs.{Behind, kept_length};

    ghost Value = { Behind };

    ghost view = { λ s. record { lines = s.lines; left = s.left; pending = s.pending.items } };

    ghost invariant = { λ s. (length s.pending.items ≤ kept_length s.left) × (is_open s.pending.items ≡ true) };
}

impl Reader {
    // Before the first line, where all lines have at most `most` bytes, or no limit.
    pub(crate) fn new(alloc: Global, most: Option<usize>) -> Reader
        ensures { result ≡ nothing most }
    {
        Reader {
            alloc,
            lines: 0,
            left: most,
            pending: Vec::new(alloc),
        }
    }

    // Hands on the line that has come, with its line feed where it has one, and writes its text.
    fn take_line<T: TakeLine, W: Write>(
        &mut self,
        ended: bool,
        taker: &mut T,
        output: &mut W,
    ) -> Result<(), Stop>
        requires { ended ≡ false → 0 < length self.old.pending }
        ensures ok { OnOk result (TakesLine T.effect (within self.old taker.old) (line_in self.old.pending ended)
            (within self.new taker.new) (W.contents output.old) (W.contents output.new)) }
        ensures err { IfErr result (λ stop. LeavesLine T.effect (within self.old taker.old) (line_in self.old.pending ended) stop
            (W.contents output.old) (W.contents output.new)) }
        ensures memory { (want : NoMemory) → result ≡ Err (Stop.OutOfMemory want) → T.wanting taker.new }
    {
        let line = self.pending.as_slice();
        let len = line.len() + usize::from(ended);
        if passes(self.left, len) {
            return Err(fault(self.lines, Fault::TooLong));
        }
        let text = text_of(self.alloc, self.lines, taker, line)?;
        write_text(output, text)?;
        self.lines = self.lines.saturating_add(1);
        self.left = left_after(self.left, len);
        self.pending.clear();
        Ok(())
    }

    // Takes one more byte.
    fn take_byte<T: TakeLine, W: Write>(
        &mut self,
        b: u8,
        taker: &mut T,
        output: &mut W,
    ) -> Result<(), Stop>
        ensures ok { OnOk result (Goes T.effect (within self.old taker.old) (b ∷ []) (within self.new taker.new)
            (W.contents output.old) (W.contents output.new)) }
        ensures err { IfErr result (λ stop. StopsIn T.effect (within self.old taker.old) (b ∷ []) stop
            (W.contents output.old) (W.contents output.new)) }
    {
        let len = self.pending.as_slice().len();
        if b == b'\n' {
            return self.take_line(true, taker, output);
        }
        if len > MAX_LINE_BYTES {
            return Ok(());
        }
        if len == MAX_LINE_BYTES && self.left.is_some() {
            return Err(fault(self.lines, Fault::TooLong));
        }
        self.pending.push(b)?;
        Ok(())
    }

    // Takes the bytes one by one.
    fn take_bytes<T: TakeLine, W: Write>(
        &mut self,
        bytes: &[u8],
        taker: &mut T,
        output: &mut W,
    ) -> Result<(), Stop>
        ensures ok { OnOk result (Goes T.effect (within self.old taker.old) bytes.now (within self.new taker.new)
            (W.contents output.old) (W.contents output.new)) }
        ensures err { IfErr result (λ stop. StopsIn T.effect (within self.old taker.old) bytes.now stop
            (W.contents output.old) (W.contents output.new)) }
    {
        for b in bytes {
            self.take_byte(*b, taker, output)?;
        }
        Ok(())
    }

    // Takes bytes without a line feed.
    fn take_open<T: TakeLine, W: Write>(
        &mut self,
        bytes: &[u8],
        taker: &mut T,
        output: &mut W,
    ) -> Result<(), Stop>
        requires { IsFirstByte (is_byte 10) bytes.now None }
        ensures ok { OnOk result (Goes T.effect (within self.old taker.old) bytes.now (within self.new taker.new)
            (W.contents output.old) (W.contents output.new)) }
        ensures err { IfErr result (λ stop. StopsIn T.effect (within self.old taker.old) bytes.now stop
            (W.contents output.old) (W.contents output.new)) }
    {
        let len = self.pending.as_slice().len();
        if bytes.len() > MAX_LINE_BYTES.saturating_sub(len) {
            return self.take_bytes(bytes, taker, output);
        }
        self.pending.extend_from_slice(bytes)?;
        Ok(())
    }

    // Takes the bytes that come next, and writes the texts of the lines that end in them.
    pub(crate) fn feed<T: TakeLine, W: Write>(
        &mut self,
        bytes: &[u8],
        taker: &mut T,
        output: &mut W,
    ) -> Result<(), Stop>
        ensures ok { OnOk result (Goes T.effect (within self.old taker.old) bytes.now (within self.new taker.new)
            (W.contents output.old) (W.contents output.new)) }
        ensures err { IfErr result (λ stop. StopsIn T.effect (within self.old taker.old) bytes.now stop
            (W.contents output.old) (W.contents output.new)) }
    {
        let mut from = 0;
        'lines: while let Some(n) = memchr(b'\n', &bytes[from..]) {
            let end = from + n;
            self.take_open(&bytes[from..end], taker, output)?;
            self.take_byte(b'\n', taker, output)?;
            from = end + 1;
        }
        self.take_open(&bytes[from..], taker, output)?;
        Ok(())
    }

    // Takes the end of the input.
    pub(crate) fn finish<T: TakeLine, W: Write>(
        &mut self,
        taker: &mut T,
        output: &mut W,
    ) -> Result<(), Stop>
        ensures ok { OnOk result (Tells (transcript_on T.effect (within self.old taker.old) None []) None
            (W.contents output.old) (W.contents output.new)) }
        ensures value { OnOk result ((transcript_on T.effect (within self.old taker.old) None []).value ≡ taker.new) }
        ensures err { IfErr result (λ stop. StopsAtEnd T.effect (within self.old taker.old) stop
            (W.contents output.old) (W.contents output.new)) }
    {
        if self.pending.as_slice().is_empty() {
            return Ok(());
        }
        self.take_line(false, taker, output)
    }
}
