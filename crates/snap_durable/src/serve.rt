ghost use Rattle.std.specs.Prelude.{◌≡◌, ◌⊎◌, ◌≤◌, ◌++◌, ◌∷◌, [], true, length, ℕ, List, IfOk, IfErr, IfSome, IsTrue};
ghost use Rattle.snap_log.specs.Batches.{none_yet};
ghost use Rattle.snap_log.specs.Log.{text_in, IsHonest};
ghost use Rattle.snap_durable.specs.Ended.{disk_after, disk_ended};
ghost use Rattle.snap_durable.specs.Parts.{LeavesPart, line_limit};
ghost use Rattle.snap_durable.specs.Served.{Done, Ends, IsBegun, Went};

use crate::batch::serve_batch;
use crate::chunk::{LIMIT, READS, chunk};
use crate::ended::Ended;
use snap_lines::{KeepLine, Stop};
use snap_log::{Batch, Log};
use sqlite_disk::Disk;
use std::alloc::Global;
use std::io::{Read, Write};

// Takes further bytes, and serves the lines that end in them, as one part.
fn take_part<T: KeepLine, W: Write, D: Disk>(
    alloc: Global,
    taker: &mut T,
    batch: &mut Batch,
    bytes: &[u8],
    log: Log<D>,
    output: &mut W,
) -> Result<Log<D>, Ended<D>>
    requires begun { IsBegun batch.old }
    requires timely { (T.settled taker.old ≡ true) ⊎ (length bytes.now ≤ 1) }
    ensures went { IfOk result (λ log_new. Went T.TakeLine.effect T.changes T.mark T.keeping T.settled taker.old batch.old log (W.contents output.old) bytes.now taker.new batch.new log_new (W.contents output.new)) }
    ensures crash { IfErr result (λ ended. IsTrue (D.Disk.is_clean (disk_ended ended)) → (c : List ℕ) → D.Disk.may_leave (disk_ended ended) c
        → LeavesPart T.TakeLine.effect T.changes T.mark T.keeping T.settled taker.old batch.old (text_in log) bytes.now c (W.contents output.old) (W.contents output.new)) }
    ensures clean { IsTrue (D.Disk.is_clean (disk_after result)) → IsHonest log }
{
    if let Err(refused) = batch.take(bytes) {
        return Err(Ended::Stopped(log, refused.into()));
    }
    if batch.whole().is_empty() {
        return Ok(log);
    }
    match serve_batch(alloc, taker, batch.whole(), log, output) {
        Ok(kept) => {
            batch.clear();
            Ok(kept.log)
        }
        Err(ended) => Err(ended),
    }
}

// Takes the bytes of a read. Up to the line by which the taker is settled, each line is a part of its own.
pub(crate) fn take_read<T: KeepLine, W: Write, D: Disk>(
    alloc: Global,
    taker: &mut T,
    batch: &mut Batch,
    bytes: &[u8],
    log: Log<D>,
    output: &mut W,
) -> Result<Log<D>, Ended<D>>
    requires { IsBegun batch.old }
    ensures went { IfOk result (λ log_new. Went T.TakeLine.effect T.changes T.mark T.keeping T.settled taker.old batch.old log (W.contents output.old) bytes.now taker.new batch.new log_new (W.contents output.new)) }
    ensures crash { IfErr result (λ ended. IsTrue (D.Disk.is_clean (disk_ended ended)) → (c : List ℕ) → D.Disk.may_leave (disk_ended ended) c
        → LeavesPart T.TakeLine.effect T.changes T.mark T.keeping T.settled taker.old batch.old (text_in log) bytes.now c (W.contents output.old) (W.contents output.new)) }
    ensures clean { IsTrue (D.Disk.is_clean (disk_after result)) → IsHonest log }
{
    let mut log = log;
    let mut at = 0;
    'bytes: while at < bytes.len() && !taker.is_settled() {
        match take_part(alloc, taker, batch, &bytes[at..at + 1], log, output) {
            Ok(next) => log = next,
            Err(ended) => return Err(ended),
        }
        at += 1;
    }
    take_part(alloc, taker, batch, &bytes[at..], log, output)
}

// Serves the line that has begun, at the end of the input.
pub(crate) fn finish<T: KeepLine, W: Write, D: Disk>(
    alloc: Global,
    taker: &mut T,
    batch: &mut Batch,
    log: Log<D>,
    output: &mut W,
) -> Result<Log<D>, Ended<D>>
    requires { IsBegun batch.old }
    ensures ok { IfOk result (λ log_new. Ends T.TakeLine.effect T.changes T.mark T.keeping T.settled taker.old batch.old log (W.contents output.old) taker.new log_new (W.contents output.new)) }
    ensures crash { IfErr result (λ ended. IsTrue (D.Disk.is_clean (disk_ended ended)) → (c : List ℕ) → D.Disk.may_leave (disk_ended ended) c
        → LeavesPart T.TakeLine.effect T.changes T.mark T.keeping T.settled taker.old batch.old (text_in log) (10 ∷ []) c (W.contents output.old) (W.contents output.new)) }
    ensures clean { IsTrue (D.Disk.is_clean (disk_after result)) → IsHonest log }
{
    if !batch.has_held() {
        return Ok(log);
    }
    take_part(alloc, taker, batch, b"\n", log, output)
}

/// Serves the lines of an input: those of a read that change something are added to the log, as one, and then all of
/// them are carried out, and their answers written and flushed before the next read. A line in pieces waits. Blanks
/// before a line are dropped, and so is all but the first 16,777,217 bytes of a line that is too long. Where the log
/// can't keep the lines of a read that change something, each of them is refused, and the others are answered.
///
/// Where it ends well, all lines are answered and the log has those that were kept. Whatever it answers, a crash leaves
/// the lines that were kept of a first part of the input; a line that was answered, and not refused because the log
/// couldn't keep it, is there where it changes something.
///
/// `Stopped` with `InputFailed` where a read failed, or the input's end didn't come within 18,446,744,073,709,551,615
/// reads; with `OutputFailed` where a write of an answer failed; with `OutOfMemory` where memory was refused. `Unknown`
/// where a sync of the log failed: nothing of the read was carried out then. A part that changes something takes two
/// syncs and three writes of the log, another one none. The memory is that for the lines of a read and for one line,
/// beside what the taker takes.
pub fn serve_lines<T: KeepLine, R: Read, W: Write, D: Disk>(
    alloc: Global,
    taker: &mut T,
    log: Log<D>,
    input: &mut R,
    output: &mut W,
) -> Result<Log<D>, Ended<D>>
    ensures done { IfOk result (λ log_new. IfSome (R.remaining input.old) (λ bytes.
        Done T.TakeLine.effect T.changes T.mark T.keeping T.settled line_limit bytes taker.old (text_in log) (W.contents output.old) taker.new log_new (W.contents output.new))) }
    // Whatever the call answers, a crash leaves what was kept of a first part of the input, and who was answered is there.
    ensures crash { IsTrue (D.Disk.is_clean (disk_after result)) → (c : List ℕ) → D.Disk.may_leave (disk_after result) c
        → IfSome (R.remaining input.old) (λ bytes. LeavesPart T.TakeLine.effect T.changes T.mark T.keeping T.settled taker.old (none_yet line_limit) (text_in log) (bytes ++ 10 ∷ []) c (W.contents output.old) (W.contents output.new)) }
    ensures clean { IsTrue (D.Disk.is_clean (disk_after result)) → IsHonest log }
{
    let mut batch = Batch::new(alloc, LIMIT);
    let mut buffer = match chunk(alloc) {
        Ok(buffer) => buffer,
        Err(refused) => return Err(Ended::Stopped(log, refused.into())),
    };
    let bytes = buffer.as_mut_slice();
    let mut log = log;
    'reads: for _ in 0..READS {
        match input.read(bytes) {
            Ok(0) => return finish(alloc, taker, &mut batch, log, output),
            Ok(n) => match take_read(alloc, taker, &mut batch, &bytes[..n], log, output) {
                Ok(next) => log = next,
                Err(ended) => return Err(ended),
            },
            Err(_) => return Err(Ended::Stopped(log, Stop::InputFailed)),
        }
    }
    Err(Ended::Stopped(log, Stop::InputFailed))
}
