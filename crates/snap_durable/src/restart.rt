ghost use Rattle.std.specs.Prelude.{◌≡◌, ◌+◌, ◌<◌, ◌≤◌, ◌++◌, ℕ, List, None, length, take, OnOk};
ghost use Rattle.snap_log.specs.Batches.{batched, emptied};
ghost use Rattle.snap_log.specs.Log.{disk_of, text_in, IsHonest};
ghost use Rattle.snap_durable.specs.Served.{AreAnswered, Carried, IsReplayed};

use crate::chunk::{READS, chunk};
use snap_lines::{Stop, TakeLine, read_lines};
use snap_log::{Batch, Log};
use sqlite_disk::Disk;
use std::alloc::Global;
use std::io;

/// Why a log was not carried out.
#[derive(Drop)]
pub enum ReplayError {
    /// A call of the disk failed.
    Io(io::Error),
    /// Its lines' run stopped.
    Stopped(Stop),
}

impl From<Stop> for ReplayError {
    ghost use Rattle.std.specs.Prelude.{◌≡◌};
    ghost use Rattle.snap_durable.specs.declared.restart.ReplayError.TheVariants.{Stopped};

    ghost from_gives = { λ stop e. e ≡ Stopped stop };

    fn from(stop: Stop) -> ReplayError {
        ReplayError::Stopped(stop)
    }
}

impl From<io::Error> for ReplayError {
    ghost use Rattle.std.specs.Prelude.{◌≡◌};
    ghost use Rattle.snap_durable.specs.declared.restart.ReplayError.TheVariants.{Io};

    ghost from_gives = { λ error e. e ≡ Io error };

    fn from(error: io::Error) -> ReplayError {
        ReplayError::Io(error)
    }
}

// Carries out the lines that end in these bytes.
fn take_chunk<T: TakeLine>(
    alloc: Global,
    taker: &mut T,
    batch: &mut Batch,
    bytes: &[u8],
) -> Result<(), Stop>
    ensures answered { OnOk result (AreAnswered T.effect taker.old (batched batch.old bytes.now).whole taker.new None None) }
    ensures batch { OnOk result (batch.new ≡ emptied (batched batch.old bytes.now)) }
{
    batch.take(bytes)?;
    let mut lines = batch.whole();
    read_lines(alloc, taker, &mut lines, &mut io::sink(), None, READS)?;
    batch.clear();
    Ok(())
}

// Reads the bytes of the text that come next, as many as the buffer has, and carries out the lines that end in them.
fn replay_next<T: TakeLine, D: Disk>(
    alloc: Global,
    taker: &mut T,
    batch: &mut Batch,
    log: &mut Log<D>,
    at: usize,
    buf: &mut [u8],
) -> Result<(), ReplayError>
    requires { 0 < length buf.old }
    ensures answered { OnOk result (AreAnswered T.effect taker.old (batched batch.old buf.new).whole taker.new None None) }
    ensures batch { OnOk result (batch.new ≡ emptied (batched batch.old buf.new)) }
    ensures read { (n : ℕ) → n ≡ length buf.old → OnOk result (IsHonest log.new → at + n ≤ length (text_in log.old) → take (at + n) (text_in log.old) ≡ take at (text_in log.old) ++ buf.new) }
    ensures text { text_in log.new ≡ text_in log.old }
    ensures crash { (c : List ℕ) → D.Disk.may_leave (disk_of log.new) c → D.Disk.may_leave (disk_of log.old) c }
    ensures clean { IsHonest log.new → IsHonest log.old }
{
    log.read_at(at, buf)?;
    take_chunk(alloc, taker, batch, buf)?;
    Ok(())
}

/// Carries out the lines of a log, and drops their answers.
///
/// At `Ok` the taker is what the log's text makes of it. `Io` where a call of the disk failed; `Stopped` where the lines'
/// run ended, as by want of memory. The log has its text as before. Reads it once, by 64 KiB; the memory is that for such
/// a part and for one line, beside what the taker takes.
pub fn replay<T: TakeLine, D: Disk>(
    alloc: Global,
    taker: &mut T,
    log: &mut Log<D>,
) -> Result<(), ReplayError>
    ensures done { OnOk result (IsHonest log.new → IsReplayed T.effect taker.old (text_in log.old) taker.new) }
    ensures text { text_in log.new ≡ text_in log.old }
    ensures crash { (c : List ℕ) → D.Disk.may_leave (disk_of log.new) c → D.Disk.may_leave (disk_of log.old) c }
    ensures clean { IsHonest log.new → IsHonest log.old }
{
    let mut batch = Batch::new(alloc, usize::MAX);
    let mut buffer = match chunk(alloc) {
        Ok(buffer) => buffer,
        Err(refused) => return Err(ReplayError::Stopped(refused.into())),
    };
    let bytes = buffer.as_mut_slice();
    let len = log.len();
    let mut at = 0;
    'chunks: while at < len {
        let n = (len - at).min(bytes.len());
        replay_next(alloc, taker, &mut batch, log, at, &mut bytes[..n])?;
        at += n;
    }
    Ok(())
}
