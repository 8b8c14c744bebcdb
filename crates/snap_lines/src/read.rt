ghost use Rattle.std.specs.Prelude.{◌≡◌, None, OnOk, IfOk, IfErr, IfSome, length, ◌<◌};
ghost use Rattle.snap_lines.specs.Transcripts.{transcript, Tells, Stops};
ghost use Rattle.snap_lines.specs.Runs.{within, Goes, StopsIn};

use crate::reader::Reader;
use crate::stop::Stop;
use crate::take::TakeLine;
use std::alloc::{AllocError, Global};
use std::io::{Read, Write};

/// The most bytes that all lines of a script have, with their line feeds.
pub const MAX_BYTES: usize = 1_073_741_824;

// The most bytes that a read takes.
const CHUNK: usize = 65_536;

// Room for a read.
fn chunk(alloc: Global) -> Result<Vec<u8>, AllocError>
    ensures { IfOk result (λ v. 0 < length v.items) }
{
    filled(alloc, CHUNK)
}

fn filled(alloc: Global, n: usize) -> Result<Vec<u8>, AllocError>
    ensures { IfOk result (λ v. length v.items ≡ n) }
{
    vec![in alloc; 0u8; n]
}

// Takes the bytes of a read. The texts of the lines that end in them have left a buffered output
// before the next read.
fn take_read<T: TakeLine, W: Write>(
    reader: &mut Reader,
    bytes: &[u8],
    taker: &mut T,
    output: &mut W,
) -> Result<(), Stop>
    ensures ok { OnOk result (Goes T.effect (within reader.old taker.old) bytes.now (within reader.new taker.new)
        (W.contents output.old) (W.contents output.new)) }
    ensures err { IfErr result (λ stop. StopsIn T.effect (within reader.old taker.old) bytes.now stop
        (W.contents output.old) (W.contents output.new)) }
{
    reader.feed(bytes, taker, output)?;
    match output.flush() {
        Ok(()) => Ok(()),
        Err(_) => Err(Stop::OutputFailed),
    }
}

// The reads. The last texts may still be in a buffered output.
fn read_all<T: TakeLine, R: Read, W: Write>(
    alloc: Global,
    taker: &mut T,
    input: &mut R,
    output: &mut W,
    most: Option<usize>,
    reads: u64,
) -> Result<(), Stop>
    ensures done { OnOk result (IfSome (R.remaining input.old) (λ bytes.
        Tells (transcript most T.effect taker.old bytes) None (W.contents output.old) (W.contents output.new))) }
    ensures value { OnOk result (IfSome (R.remaining input.old) (λ bytes.
        (transcript most T.effect taker.old bytes).value ≡ taker.new)) }
    ensures stopped { IfErr result (λ stop. IfSome (R.remaining input.old) (λ bytes.
        Stops most T.effect taker.old bytes (R.remaining input.new) stop (W.contents output.old) (W.contents output.new))) }
{
    let mut reader = Reader::new(alloc, most);
    let mut chunk = chunk(alloc)?;
    let buffer = chunk.as_mut_slice();
    'reads: for _ in 0..reads {
        match input.read(buffer) {
            Ok(0) => return reader.finish(taker, output),
            Ok(n) => take_read(&mut reader, &buffer[..n], taker, output)?,
            Err(_) => return Err(Stop::InputFailed),
        }
    }
    Err(Stop::InputFailed)
}

/// Reads the lines of the input, hands each to the taker, and writes its text to the output.
///
/// Where `most` says how many bytes all lines may have, with their line feeds, one that takes them past it, or has more
/// than 16,777,216 bytes without its line feed, ends the run. Where it is none, there is no such limit, and of a line
/// that is too long the taker gets the first 16,777,217 bytes, once the line has ended.
///
/// Where it ends well, and the input and the output tell their bytes, what was written is the text of
/// `transcript` for all that the input had, no line has a fault, and the taker is what the last line
/// left. Where it stops, what was written is the text for whole lines from the first on: at a line, which is
/// the first with a fault, for those before it; at a read that failed, for all that were read; where a write
/// failed, a first part of a text may follow. Nothing is said of the taker after an error.
///
/// `Line` where the taker finds a fault, or a line is too long. `InputFailed` where a read failed, or the end of
/// the input didn't come within `reads` reads; `OutputFailed` where a write failed; `OutOfMemory` where memory was
/// refused. What was written stays written, and is flushed before each read and at the end.
///
/// Takes memory for a read and for one line, beside what the taker takes. The cost is that of the taker's
/// calls, and grows with the bytes.
pub fn read_lines<T: TakeLine, R: Read, W: Write>(
    alloc: Global,
    taker: &mut T,
    input: &mut R,
    output: &mut W,
    most: Option<usize>,
    reads: u64,
) -> Result<(), Stop>
    ensures done { OnOk result (IfSome (R.remaining input.old) (λ bytes.
        Tells (transcript most T.effect taker.old bytes) None (W.contents output.old) (W.contents output.new))) }
    ensures value { OnOk result (IfSome (R.remaining input.old) (λ bytes.
        (transcript most T.effect taker.old bytes).value ≡ taker.new)) }
    ensures stopped { IfErr result (λ stop. IfSome (R.remaining input.old) (λ bytes.
        Stops most T.effect taker.old bytes (R.remaining input.new) stop (W.contents output.old) (W.contents output.new))) }
{
    let result = read_all(alloc, taker, input, output, most, reads);
    match output.flush() {
        Ok(()) => result,
        Err(_) => Err(Stop::OutputFailed),
    }
}
