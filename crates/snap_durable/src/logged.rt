// A server of scripts over a log.
ghost use Rattle.std.specs.Prelude.{◌≡◌, ◌⊎◌, ◌++◌, ◌∷◌, [], false, ℕ, List, IfErr, IfOk, IfSome, IsTrue};
ghost use Rattle.snap_log.specs.Kept.{IsBeforeOrAfter};
ghost use Rattle.snap_log.specs.Log.{text_in, IsHonest, Keeps};
ghost use Rattle.snap_log.specs.Texts.{log_text};
ghost use Rattle.snap_marks.specs.Sums.{marks_agree, rebased_mark};
ghost use Rattle.snap_session.specs.Kept.{idle_kept};
ghost use Rattle.snap_durable.specs.Logged.{HasServedLog, HasStarted, IfDiffers, IsRefused, LeavesLog, Starts, disk_left, disk_unserved};

use crate::ended::Ended;
use crate::restart::{ReplayError, replay};
use crate::serve::serve_lines;
use snap_ledger::{NewTable, StoreName};
use snap_lines::Stop;
use snap_log::{AppendFailed, Lines, Log};
use snap_marks::Sums;
use snap_path::NoMemory;
use snap_session::{KeptServer, Resuming};
use sqlite_disk::Disk;
use std::alloc::Global;
use std::io::{self, Read, Write};
use std::marker::Brand;

/// Why a server over a log ended before the end of its input.
#[derive(Drop)]
pub enum Unserved<D: Disk> {
    /// The log's own lines were not carried out, and none of the input was read. The log is as it was.
    Replay(Log<D>, ReplayError),
    /// A mark of the log doesn't agree with the lines before it or with their answers, or the last line is no mark. The
    /// log is as it was, and none of the input was read.
    Differs(Log<D>, Sums),
    /// The mark from which on marks are compared anew could not be written, and none of the input was read. The log is as
    /// it was.
    NotRebased(Log<D>, io::Error),
    /// The lines of the input were not all answered.
    Ended(Ended<D>),
}

// The mark from which on marks are compared anew, as a line of a log.
fn rebased_line<N: StoreName>(alloc: Global, server: &KeptServer<N>) -> Result<Lines, NoMemory>
    ensures { IfOk result (λ lines. lines ≡ rebased_mark server.now.sums ++ 10 ∷ []) }
{
    let mark = server.rebased(alloc)?;
    let mut lines = Lines::new(alloc);
    if lines.push(mark.as_slice())? {
        return Ok(lines);
    }
    unreachable!()
}

// Adds this mark.
fn rebased<N: StoreName, D: Disk>(
    alloc: Global,
    server: &KeptServer<N>,
    log: Log<D>,
) -> Result<Log<D>, Unserved<D>>
    ensures added { IfOk result (λ log_new. IsHonest log_new → Keeps log_new (text_in log ++ (rebased_mark server.now.sums ++ 10 ∷ []))) }
    ensures crash { IfErr result (λ why. IsTrue (D.Disk.is_clean (disk_unserved why)) → (c : List ℕ) → D.Disk.may_leave (disk_unserved why) c
        → IsBeforeOrAfter (text_in log) (rebased_mark server.now.sums ++ 10 ∷ []) c) }
    ensures agrees { IfErr result (λ why. IfDiffers why (λ _ _. ⊥)) }
    ensures clean { IsTrue (D.Disk.is_clean (disk_left result)) → IsHonest log }
{
    let lines = match rebased_line(alloc, server) {
        Ok(lines) => lines,
        Err(refused) => {
            return Err(Unserved::Replay(log, ReplayError::Stopped(Stop::OutOfMemory(refused))));
        }
    };
    match log.append(lines.as_slice()) {
        Ok(log) => Ok(log),
        Err(AppendFailed::NotKept(log, error)) => Err(Unserved::NotRebased(log, error)),
        Err(AppendFailed::Unknown(disk, error)) => Err(Unserved::Ended(Ended::Unknown(
            disk, error,
        ))),
    }
}

// The log to serve over, where its marks agree, or begin anew.
pub(crate) fn started<N: StoreName, D: Disk>(
    alloc: Global,
    server: &KeptServer<N>,
    log: Log<D>,
    rebases: bool,
) -> Result<Log<D>, Unserved<D>>
    ensures started { IfOk result (λ log_new. HasStarted rebases server.now.sums log log_new) }
    ensures differs { IfErr result (λ why. IfDiffers why (λ log_new sums. (log_new ≡ log) × (sums ≡ server.now.sums) × (marks_agree sums ≡ false))) }
    ensures crash { IfErr result (λ why. IsTrue (D.Disk.is_clean (disk_unserved why)) → (c : List ℕ) → D.Disk.may_leave (disk_unserved why) c
        → (log_text c ≡ text_in log) ⊎ ((start : List ℕ) × Starts rebases server.now.sums start × IsBeforeOrAfter (text_in log) start c)) }
    ensures clean { IsTrue (D.Disk.is_clean (disk_left result)) → IsHonest log }
{
    if server.is_whole() {
        return Ok(log);
    }
    if !rebases {
        return Err(Unserved::Differs(log, *server.sums()));
    }
    rebased(alloc, server, log)
}

// The same by a server that has carried out no line.
fn serve_by<N: StoreName, R: Read, W: Write, D: Disk>(
    alloc: Global,
    mut resuming: Resuming<N>,
    mut log: Log<D>,
    rebases: bool,
    input: &mut R,
    output: &mut W,
) -> Result<Log<D>, Unserved<D>>
    requires { resuming ≡ idle_kept }
    ensures done { IfOk result (λ log_new. IfSome (R.remaining input.old) (λ bytes. HasServedLog rebases bytes log (W.contents output.old) log_new (W.contents output.new))) }
    ensures differs { IfErr result (λ why. IfDiffers why (λ log_new sums. IsRefused log log_new sums)) }
    ensures crash { IsTrue (D.Disk.is_clean (disk_left result)) → (c : List ℕ) → D.Disk.may_leave (disk_left result) c
        → IfSome (R.remaining input.old) (λ bytes. LeavesLog rebases bytes (text_in log) c (W.contents output.old) (W.contents output.new)) }
    ensures clean { IsTrue (D.Disk.is_clean (disk_left result)) → IsHonest log }
{
    if let Err(error) = replay(alloc, &mut resuming, &mut log) {
        return Err(Unserved::Replay(log, error));
    }
    let mut server = resuming.into_server();
    let log = match started(alloc, &server, log, rebases) {
        Ok(log) => log,
        Err(why) => return Err(why),
    };
    server.begin_input();
    match serve_lines(alloc, &mut server, log, input, output) {
        Ok(log) => Ok(log),
        Err(ended) => Err(Unserved::Ended(ended)),
    }
}

fn run<N: StoreName, R: Read, W: Write, D: Disk>(
    alloc: Global,
    table: NewTable,
    log: Log<D>,
    rebases: bool,
    input: &mut R,
    output: &mut W,
) -> Result<Log<D>, Unserved<D>>
    requires { table ≡ N.table }
    ensures done { IfOk result (λ log_new. IfSome (R.remaining input.old) (λ bytes. HasServedLog rebases bytes log (W.contents output.old) log_new (W.contents output.new))) }
    ensures differs { IfErr result (λ why. IfDiffers why (λ log_new sums. IsRefused log log_new sums)) }
    ensures crash { IsTrue (D.Disk.is_clean (disk_left result)) → (c : List ℕ) → D.Disk.may_leave (disk_left result) c
        → IfSome (R.remaining input.old) (λ bytes. LeavesLog rebases bytes (text_in log) c (W.contents output.old) (W.contents output.new)) }
    ensures clean { IsTrue (D.Disk.is_clean (disk_left result)) → IsHonest log }
{
    let server: KeptServer<N> = KeptServer::new(alloc, table);
    serve_by(alloc, Resuming::new(server), log, rebases, input, output)
}

/// Carries out a log from no store on, and then serves the lines of an input, of which those that change the store are
/// added to the log before they are carried out. Each part that is added ends with a mark, which has the sum of all lines
/// and that of the answers to those before the part. Where a mark of the log doesn't agree with its lines, or with the
/// answers that they have now, or the last line is no mark, nothing is served, unless `rebases`: then a mark is added from
/// which on they are compared anew.
///
/// Where it ends well, all lines of the input are answered, and what is then in the log gives back the very store that
/// they have made. Whatever it answers, a crash leaves the log's text and what was kept of a first part of the input, and
/// who was answered is there.
///
/// `Replay` with `Io` where the log could not be read, and with `Stopped` where memory was refused, also for the store's
/// name, which is made here, and for a mark. `Differs` where marks don't agree; `NotRebased` where the mark could not be
/// written; the log is as it was. `Ended` as [`serve_lines`], also where a sync of that mark failed. The cost is that of
/// the commands of the log and of the input.
pub fn serve_log<R: Read, W: Write, D: Disk>(
    alloc: Global,
    log: Log<D>,
    rebases: bool,
    input: &mut R,
    output: &mut W,
) -> Result<Log<D>, Unserved<D>>
    ensures done { IfOk result (λ log_new. IfSome (R.remaining input.old) (λ bytes. HasServedLog rebases bytes log (W.contents output.old) log_new (W.contents output.new))) }
    // A log whose marks don't agree is served only after a new one.
    ensures differs { IfErr result (λ why. IfDiffers why (λ log_new sums. IsRefused log log_new sums)) }
    // Whatever the call answers, a crash leaves what was kept, and who was answered is there.
    ensures crash { IsTrue (D.Disk.is_clean (disk_left result)) → (c : List ℕ) → D.Disk.may_leave (disk_left result) c
        → IfSome (R.remaining input.old) (λ bytes. LeavesLog rebases bytes (text_in log) c (W.contents output.old) (W.contents output.new)) }
    ensures clean { IsTrue (D.Disk.is_clean (disk_left result)) → IsHonest log }
{
    let table = match NewTable::new(alloc) {
        Ok(table) => table,
        Err(refused) => return Err(Unserved::Replay(log, ReplayError::Stopped(refused.into()))),
    };
    run::<Brand, R, W, D>(alloc, table, log, rebases, input, output)
}
