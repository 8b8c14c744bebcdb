//! A server of scripts over a log in two files, which is made short on the way.
ghost use Rattle.std.specs.Prelude.{◌≡◌, ◌++◌, ◌∷◌, [], if◌then◌else◌, ℕ, List, IfErr, IfOk, IfSome};
ghost use Rattle.snap_log.specs.Batches.{none_yet};
ghost use Rattle.snap_log.specs.Log.{disk_of};
ghost use Rattle.snap_pair.specs.Pair.{joined, lines_in};
ghost use Rattle.snap_pair.specs.Texts.{pair_text};
ghost use Rattle.snap_session.specs.Kept.{idle_kept};
ghost use Rattle.snap_durable.specs.Files.{AreApart, AreEndsHonest, AreFilesHonest, FilesStand, WentOn, first_end, second_end};
ghost use Rattle.snap_durable.specs.Logged.{disk_unserved};
ghost use Rattle.snap_durable.specs.Parts.{line_limit};
ghost use Rattle.snap_durable.specs.Served.{IsBegun};
ghost use Rattle.snap_durable.specs.Shortened.{AreHonestBehind, DiffersIn, AreRefused, DoneTurns, HasServedFiles, IfFilesDiffer, LeavesFiles, first_behind, first_unserved, second_behind, second_unserved};
ghost use Rattle.snap_durable.specs.Turns.{LeavesTurns};

use crate::chunk::{LIMIT, READS, chunk};
use crate::files::{Beside, EndedFiles, Files, ended_files};
use crate::logged::{Unserved, started};
use crate::restart::ReplayError;
use crate::shorten::{Replayed, replay_pair};
use crate::step::step;
use crate::turn::{last_turn, turn};
use snap_ledger::{NewTable, StoreName};
use snap_lines::Stop;
use snap_log::{Batch, Log};
use snap_marks::Sums;
use snap_pair::{Halves, Pair};
use snap_session::{KeptServer, Resuming};
use sqlite_disk::Disk;
use std::alloc::Global;
use std::io::{self, Read, Write};
use std::marker::Brand;

// The bytes that a log has at least before it is made short.
const LEAST: usize = 1_048_576;

/// Why a server over a log in two files ended before the end of its input. What was written beside the log is given up.
#[derive(Drop)]
pub enum UnservedFiles<D: Disk> {
    /// The log's own lines were not carried out, and none of the input was read. The log is as it was.
    Replay(Pair<D>, ReplayError),
    /// A mark of the log doesn't agree with the lines before it or with their answers, or the last line is no mark. The
    /// log is as it was, and none of the input was read.
    Differs(Pair<D>, Sums),
    /// The mark from which on marks are compared anew could not be written, and none of the input was read. The log is as
    /// it was.
    NotRebased(Pair<D>, io::Error),
    /// The run of the input's lines stopped. The log has what it could keep of them, also of those that have no answer.
    Stopped(Pair<D>, Stop),
    /// A sync of a file failed, or the write of a byte by which lines count. What is on the disk is unknown: the lines of
    /// the last step are there or not. Open the files again, in another process where their cache may lie.
    Unknown(D, D, io::Error),
}

// When a log is made short: where it has grown to so many times what it last had behind a checkpoint.
#[derive(Drop)]
struct Growth {
    times: u64,
    base: usize,
}

impl Growth {
    // Whether it has grown so far.
    fn is_due(&self, len: usize) -> bool {
        self.times > 0 && len as u64 / self.times >= self.base as u64
    }

    // It has so many bytes behind a checkpoint, or where none could be made.
    fn begin(&mut self, len: usize) {
        self.base = len.max(LEAST);
    }
}

// Takes the bytes of a read, and then the next step by which the log is made short.
fn turn_and_step<N: StoreName, W: Write, D: Disk>(
    alloc: Global,
    server: &mut KeptServer<N>,
    batch: &mut Batch,
    bytes: &[u8],
    files: Files<D>,
    growth: &mut Growth,
    output: &mut W,
) -> Result<Files<D>, EndedFiles<D>>
    requires begun { IsBegun batch.old }
    requires apart { AreApart files }
    ensures went { IfOk result (λ files_new. WentOn server.old batch.old (W.contents output.old) bytes.now server.new batch.new (W.contents output.new)) }
    ensures apart { IfOk result AreApart }
    ensures stand { IfOk result (λ files_new. AreFilesHonest files_new → AreFilesHonest files × (FilesStand server.old files → FilesStand server.new files_new)) }
    ensures crash { IfErr result (λ ended. AreEndsHonest ended → AreFilesHonest files × (FilesStand server.old files → (c d : List ℕ) → D.Disk.may_leave (first_end ended) c → D.Disk.may_leave (second_end ended) d
        → LeavesTurns server.old batch.old bytes.now (pair_text c d) (W.contents output.old) (W.contents output.new))) }
{
    let files = match turn(alloc, server, batch, bytes, files, output) {
        Ok(files) => files,
        Err(ended) => return Err(ended),
    };
    let is_due = growth.is_due(files.counting.len());
    let was_idle = files.is_idle();
    match step(alloc, server, files, is_due) {
        Ok(files) => {
            if files.is_idle() && (is_due || !was_idle) {
                growth.begin(files.counting.len());
            }
            Ok(files)
        }
        Err(ended) => Err(ended),
    }
}

// Serves the lines of an input.
fn serve_turns<N: StoreName, R: Read, W: Write, D: Disk>(
    alloc: Global,
    server: &mut KeptServer<N>,
    files: Files<D>,
    times: u64,
    input: &mut R,
    output: &mut W,
) -> Result<Files<D>, EndedFiles<D>>
    requires { AreApart files }
    ensures done { IfOk result (λ files_new. IfSome (R.remaining input.old) (λ bytes. DoneTurns bytes server.old (W.contents output.old) server.new (W.contents output.new))) }
    ensures apart { IfOk result AreApart }
    ensures stand { IfOk result (λ files_new. AreFilesHonest files_new → AreFilesHonest files × (FilesStand server.old files → FilesStand server.new files_new)) }
    ensures crash { IfErr result (λ ended. AreEndsHonest ended → AreFilesHonest files × (FilesStand server.old files → (c d : List ℕ) → D.Disk.may_leave (first_end ended) c → D.Disk.may_leave (second_end ended) d
        → IfSome (R.remaining input.old) (λ bytes. LeavesTurns server.old (none_yet line_limit) (bytes ++ 10 ∷ []) (pair_text c d) (W.contents output.old) (W.contents output.new)))) }
{
    let mut batch = Batch::new(alloc, LIMIT);
    let mut buffer = match chunk(alloc) {
        Ok(buffer) => buffer,
        Err(refused) => return Err(EndedFiles::Stopped(files, refused.into())),
    };
    let bytes = buffer.as_mut_slice();
    let mut growth = Growth { times, base: LEAST };
    let mut files = files;
    'reads: for _ in 0..READS {
        match input.read(bytes) {
            Ok(0) => return last_turn(alloc, server, &mut batch, files, output),
            Ok(n) => {
                match turn_and_step(
                    alloc,
                    server,
                    &mut batch,
                    &bytes[..n],
                    files,
                    &mut growth,
                    output,
                ) {
                    Ok(next) => files = next,
                    Err(ended) => return Err(ended),
                }
            }
            Err(_) => return Err(EndedFiles::Stopped(files, Stop::InputFailed)),
        }
    }
    Err(EndedFiles::Stopped(files, Stop::InputFailed))
}

// Why not all lines were answered, of the files of a pair.
fn unserved<D: Disk>(ended: EndedFiles<D>) -> UnservedFiles<D>
    ensures first { first_unserved result ≡ first_end ended }
    ensures second { second_unserved result ≡ second_end ended }
    ensures differs { IfFilesDiffer result (λ _ _. ⊥) }
{
    match ended {
        EndedFiles::Stopped(files, stop) => UnservedFiles::Stopped(files.into_pair(), stop),
        EndedFiles::Unknown(first, second, error) => UnservedFiles::Unknown(first, second, error),
    }
}

// Why no line of the input was read, of both files.
fn unstarted<D: Disk>(why: Unserved<D>, other: Log<D>, is_second: bool) -> UnservedFiles<D>
    ensures first { first_unserved result ≡ (if is_second then disk_of other else disk_unserved why) }
    ensures second { second_unserved result ≡ (if is_second then disk_unserved why else disk_of other) }
    ensures differs { IfFilesDiffer result (DiffersIn why other is_second) }
{
    match why {
        Unserved::Replay(log, error) => UnservedFiles::Replay(
            pair_of(log, other, is_second),
            error,
        ),
        Unserved::Differs(log, sums) => UnservedFiles::Differs(
            pair_of(log, other, is_second),
            sums,
        ),
        Unserved::NotRebased(log, error) => UnservedFiles::NotRebased(
            pair_of(log, other, is_second),
            error,
        ),
        Unserved::Ended(ended) => unserved(ended_files(ended, Beside::Idle(other), is_second)),
    }
}

// The pair of a log that counts and of the other one.
fn pair_of<D: Disk>(counting: Log<D>, other: Log<D>, is_second: bool) -> Pair<D>
    ensures { result ≡ joined (record { counting = counting; other = other; is_second = is_second }) }
{
    let halves = Halves {
        counting,
        other,
        is_second,
    };
    halves.join()
}

// The same by a server that has carried out no line.
fn serve_by<N: StoreName, R: Read, W: Write, D: Disk>(
    alloc: Global,
    mut resuming: Resuming<N>,
    pair: Pair<D>,
    rebases: bool,
    times: u64,
    input: &mut R,
    output: &mut W,
) -> Result<Pair<D>, UnservedFiles<D>>
    requires { resuming ≡ idle_kept }
    ensures done { IfOk result (λ pair_new. IfSome (R.remaining input.old) (λ bytes. HasServedFiles rebases bytes pair (W.contents output.old) pair_new (W.contents output.new))) }
    ensures differs { IfErr result (λ why. IfFilesDiffer why (λ pair_new sums. AreRefused pair pair_new sums)) }
    ensures crash { AreHonestBehind result → (c d : List ℕ) → D.Disk.may_leave (first_behind result) c → D.Disk.may_leave (second_behind result) d
        → IfSome (R.remaining input.old) (λ bytes. LeavesFiles rebases bytes (lines_in pair) (pair_text c d) (W.contents output.old) (W.contents output.new)) }
{
    let Replayed { pair, done } = replay_pair(alloc, &mut resuming, pair);
    if let Err(error) = done {
        return Err(UnservedFiles::Replay(pair, error));
    }
    let mut server = resuming.into_server();
    let Halves {
        counting,
        other,
        is_second,
    } = pair.split();
    let counting = match started(alloc, &server, counting, rebases) {
        Ok(log) => log,
        Err(why) => return Err(unstarted(why, other, is_second)),
    };
    server.begin_input();
    let files = Files {
        counting,
        beside: Beside::Idle(other),
        is_second,
    };
    match serve_turns(alloc, &mut server, files, times, input, output) {
        Ok(files) => Ok(files.into_pair()),
        Err(ended) => Err(unserved(ended)),
    }
}

fn run<N: StoreName, R: Read, W: Write, D: Disk>(
    alloc: Global,
    table: NewTable,
    pair: Pair<D>,
    rebases: bool,
    times: u64,
    input: &mut R,
    output: &mut W,
) -> Result<Pair<D>, UnservedFiles<D>>
    requires { table ≡ N.table }
    ensures done { IfOk result (λ pair_new. IfSome (R.remaining input.old) (λ bytes. HasServedFiles rebases bytes pair (W.contents output.old) pair_new (W.contents output.new))) }
    ensures differs { IfErr result (λ why. IfFilesDiffer why (λ pair_new sums. AreRefused pair pair_new sums)) }
    ensures crash { AreHonestBehind result → (c d : List ℕ) → D.Disk.may_leave (first_behind result) c → D.Disk.may_leave (second_behind result) d
        → IfSome (R.remaining input.old) (λ bytes. LeavesFiles rebases bytes (lines_in pair) (pair_text c d) (W.contents output.old) (W.contents output.new)) }
{
    let server: KeptServer<N> = KeptServer::new(alloc, table);
    serve_by(
        alloc,
        Resuming::new(server),
        pair,
        rebases,
        times,
        input,
        output,
    )
}

/// Serves the lines of an input over a log in two files, as [`serve_log`](crate::serve_log), and makes the log short
/// where it has grown to `times` times what it had behind the last checkpoint, of at least 1 MiB; 0 never does. Then the
/// next round of the store begins, as by a `roll` to as many entries. The lines that make the store as it then is are
/// written into the file that doesn't count, a part of 256 KiB after each read, and behind them those that are added to
/// the log meanwhile. With the last part they take the place of the log's lines, as one. What is under way at the end of
/// the input is given up, and so it is where a write fails or memory is refused.
///
/// Where it ends well, all lines of the input are answered, and what is then in the log gives back the very store that
/// they have made. Whatever it answers, a crash leaves a log that gives back what was kept of a first part of the input,
/// and who was answered is there.
///
/// The errors are those of [`serve_log`](crate::serve_log), and `Unknown` also where a file failed by which lines take
/// the place of others. A step takes the time for 256 KiB of lines. The first one lists the records, which are shared, and
/// copies those of active snapshots and their layers; the last one syncs what was written. Takes memory for this, and for
/// the lines that are added meanwhile.
pub fn serve_and_shorten<R: Read, W: Write, D: Disk>(
    alloc: Global,
    pair: Pair<D>,
    rebases: bool,
    times: u64,
    input: &mut R,
    output: &mut W,
) -> Result<Pair<D>, UnservedFiles<D>>
    ensures done { IfOk result (λ pair_new. IfSome (R.remaining input.old) (λ bytes. HasServedFiles rebases bytes pair (W.contents output.old) pair_new (W.contents output.new))) }
    // A log whose marks don't agree is served only after a new one.
    ensures differs { IfErr result (λ why. IfFilesDiffer why (λ pair_new sums. AreRefused pair pair_new sums)) }
    // Whatever the call answers, a crash leaves what gives back what was kept, and who was answered is there.
    ensures crash { AreHonestBehind result → (c d : List ℕ) → D.Disk.may_leave (first_behind result) c → D.Disk.may_leave (second_behind result) d
        → IfSome (R.remaining input.old) (λ bytes. LeavesFiles rebases bytes (lines_in pair) (pair_text c d) (W.contents output.old) (W.contents output.new)) }
{
    let table = match NewTable::new(alloc) {
        Ok(table) => table,
        Err(refused) => {
            return Err(UnservedFiles::Replay(pair, ReplayError::Stopped(refused.into())));
        }
    };
    run::<Brand, R, W, D>(alloc, table, pair, rebases, times, input, output)
}
