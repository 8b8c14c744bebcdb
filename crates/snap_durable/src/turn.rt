//! A read of a server over a log in two files.
ghost use Rattle.std.specs.Prelude.{◌≡◌, ◌++◌, ◌∷◌, [], ℕ, List, drop, IfErr, IfOk, IsTrue};
ghost use Rattle.snap_log.specs.Log.{IsHonest, text_in};
ghost use Rattle.snap_log.specs.Staged.{IsHonestStage, text_before};
ghost use Rattle.snap_pair.specs.Texts.{pair_text};
ghost use Rattle.snap_session.specs.Kept.{KeptValue, has_store, kept_so, mark_of, served_kept, would_change};
ghost use Rattle.snap_durable.specs.Files.{AreApart, AreEndsHonest, AreFilesHonest, FilesStand, IsBesideHonest, IsBlank, IsNoted, IsWritten, WentLast, WentOn, first_end, second_end};
ghost use Rattle.snap_durable.specs.Parts.{AreTold, Part};
ghost use Rattle.snap_durable.specs.Served.{IsBegun};
ghost use Rattle.snap_durable.specs.Turns.{LeavesTurns};

use crate::files::{Beside, Coming, EndedFiles, Files, ended_files};
use crate::serve::{finish, take_read};
use memchr::memchr;
use snap_ledger::StoreName;
use snap_log::{Batch, Lines, Log};
use snap_session::KeptServer;
use sqlite_disk::Disk;
use std::alloc::{AllocError, Global};
use std::io::Write;

// Adds whole lines of a log, and answers whether it did.
fn add_text(lines: &mut Lines, text: &[u8]) -> Result<bool, AllocError>
    ensures added { IfOk result (λ is. IsTrue is → lines.new ≡ lines.old ++ text.now) }
{
    let mut from = 0;
    'lines: while let Some(n) = memchr(b'\n', &text[from..]) {
        let end = from + n;
        if !lines.push(&text[from..end])? {
            return Ok(false);
        }
        from = end + 1;
    }
    Ok(from == text.len())
}

// Adds the lines that a log has from a place on, and answers whether it did.
fn add_from<D: Disk>(
    alloc: Global,
    lines: &mut Lines,
    log: &mut Log<D>,
    from: usize,
) -> Result<bool, AllocError>
    ensures added { IfOk result (λ is. IsTrue is → IsHonest log.new → lines.new ≡ lines.old ++ drop from (text_in log.old)) }
    ensures text { text_in log.new ≡ text_in log.old }
    ensures clean { IsHonest log.new → IsHonest log.old }
{
    let len = log.len();
    if len <= from {
        return Ok(len == from);
    }
    let mut text = vec![in alloc; 0u8; len - from]?;
    match log.read_at(from, text.as_mut_slice()) {
        Ok(()) => add_text(lines, text.as_slice()),
        Err(_) => Ok(false),
    }
}

// Notes the lines that were added to the log from a place on, where others are written to take its place. Where they
// can't be noted, those are given up.
fn note<D: Disk>(
    alloc: Global,
    mut counting: Log<D>,
    mut coming: Coming<D>,
    from: usize,
    is_second: bool,
) -> Files<D>
    ensures text { text_in result.counting ≡ text_in counting }
    ensures second { result.is_second ≡ is_second }
    ensures clean { AreFilesHonest result → IsHonest counting × IsHonestStage coming.stage }
    ensures counts { IsHonest result.counting → IsHonest counting }
    ensures blank { (IsHonestStage coming.stage → text_before coming.stage ≡ []) → IsBlank is_second result.beside }
    ensures written { AreFilesHonest result → IsNoted coming (drop from (text_in counting)) result.beside }
{
    let is_noted = match add_from(alloc, &mut coming.behind, &mut counting, from) {
        Ok(is_noted) => is_noted,
        Err(_) => false,
    };
    if !is_noted {
        return Files::idle(counting, coming.stage.give_up(), is_second);
    }
    Files {
        counting,
        beside: Beside::Coming(coming),
        is_second,
    }
}

// The files behind lines that were added to the log from a place on.
fn noted<D: Disk>(
    alloc: Global,
    counting: Log<D>,
    beside: Beside<D>,
    from: usize,
    is_second: bool,
) -> Files<D>
    ensures text { text_in result.counting ≡ text_in counting }
    ensures second { result.is_second ≡ is_second }
    ensures clean { AreFilesHonest result → IsHonest counting × IsBesideHonest beside }
    ensures counts { IsHonest result.counting → IsHonest counting }
    ensures blank { IsBlank is_second beside → IsBlank is_second result.beside }
    ensures written { AreFilesHonest result → (u w : KeptValue) (parts : List Part) (said : List ℕ) → IsWritten u beside
        → AreTold served_kept would_change mark_of kept_so has_store u parts said (drop from (text_in counting)) w → IsWritten w result.beside }
{
    match beside {
        Beside::Idle(_) => Files {
            counting,
            beside,
            is_second,
        },
        Beside::Coming(coming) => note(alloc, counting, coming, from, is_second),
    }
}

// Takes the bytes of a read.
pub(crate) fn turn<N: StoreName, W: Write, D: Disk>(
    alloc: Global,
    server: &mut KeptServer<N>,
    batch: &mut Batch,
    bytes: &[u8],
    files: Files<D>,
    output: &mut W,
) -> Result<Files<D>, EndedFiles<D>>
    requires begun { IsBegun batch.old }
    requires apart { AreApart files }
    ensures went { IfOk result (λ files_new. WentOn server.old batch.old (W.contents output.old) bytes.now server.new batch.new (W.contents output.new)) }
    ensures apart { IfOk result AreApart }
    ensures stand { IfOk result (λ files_new. AreFilesHonest files_new → AreFilesHonest files × (FilesStand server.old files → FilesStand server.new files_new)) }
    ensures crash { IfErr result (λ ended. AreEndsHonest ended → AreFilesHonest files × (FilesStand server.old files → (c d : List ℕ) → D.Disk.may_leave (first_end ended) c → D.Disk.may_leave (second_end ended) d
        → LeavesTurns server.old batch.old bytes.now (pair_text c d) (W.contents output.old) (W.contents output.new))) }
{
    let Files {
        counting,
        beside,
        is_second,
    } = files;
    let from = counting.len();
    match take_read(alloc, server, batch, bytes, counting, output) {
        Ok(counting) => Ok(noted(alloc, counting, beside, from, is_second)),
        Err(ended) => Err(ended_files(ended, beside, is_second)),
    }
}

// Serves the line that has begun, at the end of the input. What is written beside the log is given up.
pub(crate) fn last_turn<N: StoreName, W: Write, D: Disk>(
    alloc: Global,
    server: &mut KeptServer<N>,
    batch: &mut Batch,
    files: Files<D>,
    output: &mut W,
) -> Result<Files<D>, EndedFiles<D>>
    requires begun { IsBegun batch.old }
    requires apart { AreApart files }
    ensures went { IfOk result (λ files_new. WentLast server.old batch.old (W.contents output.old) server.new (W.contents output.new)) }
    ensures apart { IfOk result AreApart }
    ensures stand { IfOk result (λ files_new. AreFilesHonest files_new → AreFilesHonest files × (FilesStand server.old files → FilesStand server.new files_new)) }
    ensures crash { IfErr result (λ ended. AreEndsHonest ended → AreFilesHonest files × (FilesStand server.old files → (c d : List ℕ) → D.Disk.may_leave (first_end ended) c → D.Disk.may_leave (second_end ended) d
        → LeavesTurns server.old batch.old (10 ∷ []) (pair_text c d) (W.contents output.old) (W.contents output.new))) }
{
    let Files {
        counting,
        beside,
        is_second,
    } = files;
    match finish(alloc, server, batch, counting, output) {
        Ok(counting) => Ok(Files {
            counting,
            beside: Beside::Idle(beside.give_up()),
            is_second,
        }),
        Err(ended) => Err(ended_files(ended, beside, is_second)),
    }
}
