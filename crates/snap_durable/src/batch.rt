ghost use Rattle.std.specs.Prelude.{◌≡◌, ◌⊎◌, ◌+◌, ◌≤◌, ◌^◌, ◌++◌, ℕ, List, length, true, false, IfOk, IfErr, IsTrue};
ghost use Rattle.sqlite_disk.specs.Disk.{MoreFaults};
ghost use Rattle.snap_log.specs.Kept.{IsBeforeOrAfter};
ghost use Rattle.snap_log.specs.Log.{disk_of, text_in, IsHonest, Keeps};
ghost use Rattle.snap_durable.specs.Ended.{disk_ended};
ghost use Rattle.snap_durable.specs.Parts.{IsNoLine, kept_of, lines_added};
ghost use Rattle.snap_durable.specs.Served.{AreAnswered, LeavesBatch, disk_kept};

use crate::changes::add_lines;
use crate::chunk::READS;
use crate::ended::Ended;
use snap_lines::{KeepLine, Stop, read_lines};
use snap_log::{AppendFailed, Lines, Log};
use sqlite_disk::Disk;
use std::alloc::Global;
use std::io::Write;

// A log that was asked to keep lines, and whether it did.
#[derive(Drop)]
pub(crate) struct Kept<D: Disk> {
    pub(crate) log: Log<D>,
    pub(crate) is_kept: bool,
}

// Adds those of the lines that change something to the log, with a mark and as one, where that can be.
fn keep<T: KeepLine, D: Disk>(
    alloc: Global,
    taker: &mut T,
    whole: &[u8],
    log: Log<D>,
) -> Result<Kept<D>, Ended<D>>
    ensures kept { IfOk result (λ kept. IsHonest kept.log → Keeps kept.log (text_in log ++ kept_of (T.changes taker.old) (T.mark taker.old) (record { whole = whole.now; is_kept = kept.is_kept }))) }
    ensures refused { IfOk result (λ kept. kept.is_kept ≡ false → IsHonest kept.log
        → MoreFaults (D.Disk.faults (disk_of log)) (D.Disk.faults (disk_of kept.log)) ⊎ IsNoLine (T.changes taker.old) (T.mark taker.old) whole.now
        ⊎ (2 ^ 64 ≤ length (text_in log) + length (lines_added (T.changes taker.old) (T.mark taker.old) whole.now) + 1)) }
    ensures crash { IfErr result (λ ended. IsTrue (D.Disk.is_clean (disk_ended ended)) → (c : List ℕ) → D.Disk.may_leave (disk_ended ended) c
        → IsBeforeOrAfter (text_in log) (lines_added (T.changes taker.old) (T.mark taker.old) whole.now) c) }
    ensures same { taker.new ≡ taker.old }
    ensures clean { IsTrue (D.Disk.is_clean (disk_kept result)) → IsHonest log }
{
    let mut added = Lines::new(alloc);
    let are_there = match add_lines(alloc, taker, whole, &mut added) {
        Ok(are_there) => are_there,
        Err(shortage) => return Err(Ended::Stopped(log, Stop::OutOfMemory(shortage))),
    };
    if !are_there {
        return Ok(Kept {
            log,
            is_kept: false,
        });
    }
    match log.append(added.as_slice()) {
        Ok(log) => Ok(Kept { log, is_kept: true }),
        Err(AppendFailed::NotKept(log, _)) => Ok(Kept {
            log,
            is_kept: false,
        }),
        Err(AppendFailed::Unknown(disk, error)) => Err(Ended::Unknown(disk, error)),
    }
}

// Adds those of the lines that change something to the log, and then carries all of them out and writes their answers.
// Where the log can't keep them, each of those is refused.
pub(crate) fn serve_batch<T: KeepLine, W: Write, D: Disk>(
    alloc: Global,
    taker: &mut T,
    whole: &[u8],
    log: Log<D>,
    output: &mut W,
) -> Result<Kept<D>, Ended<D>>
    ensures answered { IfOk result (λ kept. AreAnswered T.TakeLine.effect (T.keeping kept.is_kept taker.old) whole.now taker.new (W.contents output.old) (W.contents output.new)) }
    ensures kept { IfOk result (λ kept. IsHonest kept.log → Keeps kept.log (text_in log ++ kept_of (T.changes taker.old) (T.mark taker.old) (record { whole = whole.now; is_kept = kept.is_kept }))) }
    ensures refused { IfOk result (λ kept. kept.is_kept ≡ false → IsHonest kept.log
        → MoreFaults (D.Disk.faults (disk_of log)) (D.Disk.faults (disk_of kept.log)) ⊎ IsNoLine (T.changes taker.old) (T.mark taker.old) whole.now
        ⊎ (2 ^ 64 ≤ length (text_in log) + length (lines_added (T.changes taker.old) (T.mark taker.old) whole.now) + 1)) }
    ensures crash { IfErr result (λ ended. IsTrue (D.Disk.is_clean (disk_ended ended)) → (c : List ℕ) → D.Disk.may_leave (disk_ended ended) c
        → LeavesBatch T.TakeLine.effect T.changes T.mark T.keeping taker.old (text_in log) whole.now c (W.contents output.old) (W.contents output.new)) }
    ensures clean { IsTrue (D.Disk.is_clean (disk_kept result)) → IsHonest log }
{
    let Kept { log, is_kept } = match keep(alloc, taker, whole, log) {
        Ok(kept) => kept,
        Err(ended) => return Err(ended),
    };
    taker.set_keeping(is_kept);
    let mut lines = whole;
    match read_lines(alloc, taker, &mut lines, output, None, READS) {
        Ok(()) => Ok(Kept { log, is_kept }),
        Err(stop) => Err(Ended::Stopped(log, stop)),
    }
}
