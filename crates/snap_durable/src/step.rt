//! A log that is served is made short, in steps between reads.
ghost use Rattle.std.specs.Prelude.{◌≡◌, ◌⊎◌, ◌<◌, ◌++◌, [], ℕ, List, false, true, not, length, IfErr, IfOk, OnOk};
ghost use Rattle.snap_log.specs.Log.{IsHonest, text_in};
ghost use Rattle.snap_log.specs.Staged.{IsHonestStage, lines_staged, text_before};
ghost use Rattle.snap_pair.specs.Replacing.{ArePartsHonest};
ghost use Rattle.snap_pair.specs.Texts.{pair_text};
ghost use Rattle.snap_checkpoint.specs.Lines.{none_left};
ghost use Rattle.snap_marks.specs.Marks.{chained_lines};
ghost use Rattle.snap_marks.specs.Sums.{no_sum};
ghost use Rattle.snap_session.specs.Kept.{KeptValue};
ghost use Rattle.snap_durable.specs.Checkpoints.{mark_text};
ghost use Rattle.snap_durable.specs.Files.{AreApart, AreEndsHonest, AreFilesHonest, CanCome, CanRoll, FilesStand, IsComing, IsIdle, IsWritten, LeavesStep, first_end, second_end};
ghost use Rattle.snap_durable.specs.Turns.{GivesBack, IsStepped};

use crate::files::{Beside, Coming, EndedFiles, Files, ended_files};
use crate::roll::{Roll, Rolled, begin_round, roll_of};
use crate::saved::{Unwritten, fill, mark_line};
use snap_checkpoint::StoreLines;
use snap_ledger::StoreName;
use snap_log::{Appending, Lines, Log};
use snap_marks::Sums;
use snap_pair::{Failed, ReplaceFailed, ReplacingParts};
use snap_session::KeptServer;
use sqlite_disk::Disk;
use std::alloc::Global;

// Writes the mark before the lines of a saved store.
fn write_first<D: Disk>(alloc: Global, stage: &mut Appending<D>) -> Result<(), Unwritten>
    ensures written { OnOk result (IsHonestStage stage.new → lines_staged stage.new ≡ lines_staged stage.old ++ mark_text []) }
    ensures text { IsHonestStage stage.new → text_before stage.new ≡ text_before stage.old }
    ensures clean { IsHonestStage stage.new → IsHonestStage stage.old }
{
    let mark = mark_line(alloc, &Sums::new())?;
    stage.push(mark.as_slice())?;
    Ok(())
}

// Begins to write the lines of a saved store.
fn coming<D: Disk>(
    alloc: Global,
    parts: ReplacingParts<D>,
    lines: StoreLines,
    mark: Lines,
) -> Files<D>
    requires none { IsHonestStage parts.coming → text_before parts.coming ≡ [] }
    requires some { IsHonest parts.counting → parts.is_second ≡ false → 0 < length (text_in parts.counting) }
    ensures text { text_in result.counting ≡ text_in parts.counting }
    ensures apart { AreApart result }
    ensures written { AreFilesHonest result → (v : KeptValue) → lines_staged parts.coming ≡ [] → CanCome v lines mark → IsWritten v result.beside }
    ensures clean { AreFilesHonest result → ArePartsHonest parts }
{
    let ReplacingParts {
        counting,
        coming: mut stage,
        is_second,
    } = parts;
    if write_first(alloc, &mut stage).is_err() {
        return Files::idle(counting, stage.give_up(), !is_second);
    }
    Files {
        counting,
        beside: Beside::Coming(Coming {
            stage,
            lines,
            sums: Sums::new(),
            mark,
            behind: Lines::new(alloc),
        }),
        is_second: !is_second,
    }
}

// Lets lines be written into the file that doesn't count.
fn replace<D: Disk>(
    alloc: Global,
    files: Files<D>,
    lines: StoreLines,
    mark: Lines,
) -> Result<Files<D>, EndedFiles<D>>
    requires { AreApart files }
    ensures text { IfOk result (λ files_new. AreFilesHonest files_new → text_in files_new.counting ≡ text_in files.counting) }
    ensures apart { IfOk result AreApart }
    ensures written { IfOk result (λ files_new. AreFilesHonest files_new → (v : KeptValue) → CanCome v lines mark → IsWritten v files_new.beside) }
    ensures clean { IfOk result (λ files_new. AreFilesHonest files_new → AreFilesHonest files) }
    ensures crash { IfErr result (λ ended. AreEndsHonest ended → AreFilesHonest files × ((c d : List ℕ) → D.Disk.may_leave (first_end ended) c → D.Disk.may_leave (second_end ended) d → pair_text c d ≡ text_in files.counting)) }
{
    match files.into_pair().replace() {
        Ok(replacing) => Ok(coming(alloc, replacing.split(), lines, mark)),
        Err(
            ReplaceFailed {
                first,
                second,
                error,
            },
        ) => Err(EndedFiles::Unknown(first, second, error)),
    }
}

// Begins the next round, and then to write the lines that make the store as it now is.
fn begin<N: StoreName, D: Disk>(
    alloc: Global,
    server: &mut KeptServer<N>,
    files: Files<D>,
    roll_to: Roll,
) -> Result<Files<D>, EndedFiles<D>>
    requires apart { AreApart files }
    requires idle { IsIdle files.beside }
    requires can { CanRoll server.old roll_to.line roll_to.saved }
    ensures stepped { IfOk result (λ _. IsStepped server.old server.new) }
    ensures apart { IfOk result AreApart }
    ensures stand { IfOk result (λ files_new. AreFilesHonest files_new → AreFilesHonest files × (FilesStand server.old files → FilesStand server.new files_new)) }
    ensures crash { IfErr result (λ ended. AreEndsHonest ended → AreFilesHonest files × (FilesStand server.old files → (c d : List ℕ) → D.Disk.may_leave (first_end ended) c → D.Disk.may_leave (second_end ended) d → LeavesStep server.old (pair_text c d))) }
{
    let Files {
        counting,
        beside,
        is_second,
    } = files;
    let Roll { line, saved } = roll_to;
    let Rolled { log, mark } = match begin_round(alloc, server, &line, counting) {
        Ok(rolled) => rolled,
        Err(ended) => return Err(ended_files(ended, beside, is_second)),
    };
    let files = Files {
        counting: log,
        beside,
        is_second,
    };
    match mark {
        Some(mark) => replace(alloc, files, saved, mark),
        None => Ok(files),
    }
}

// Writes a part of the saved store's lines.
fn write_part<D: Disk>(alloc: Global, coming: &mut Coming<D>) -> Result<(), Unwritten>
    ensures coming { OnOk result ((v : KeptValue) → IsComing v coming.old → IsComing v coming.new) }
    ensures text { IsHonestStage coming.new.stage → text_before coming.new.stage ≡ text_before coming.old.stage }
    ensures clean { IsHonestStage coming.new.stage → IsHonestStage coming.old.stage }
{
    let mut text = Lines::new(alloc);
    fill(alloc, &mut coming.lines, &mut text, &mut coming.sums)?;
    coming.stage.push(text.as_slice())?;
    Ok(())
}

// Writes what comes behind them.
fn write_last<D: Disk>(alloc: Global, coming: &mut Coming<D>) -> Result<(), Unwritten>
    ensures written { OnOk result ((text : List ℕ) → coming.old.sums.lines ≡ chained_lines no_sum text → IsHonestStage coming.new.stage
        → lines_staged coming.new.stage ≡ lines_staged coming.old.stage ++ (mark_text text ++ (coming.old.mark ++ coming.old.behind))) }
    ensures some { OnOk result (IsHonestStage coming.new.stage → 0 < length (lines_staged coming.new.stage)) }
    ensures text { IsHonestStage coming.new.stage → text_before coming.new.stage ≡ text_before coming.old.stage }
    ensures clean { IsHonestStage coming.new.stage → IsHonestStage coming.old.stage }
{
    let mark = mark_line(alloc, &coming.sums)?;
    coming.stage.push(mark.as_slice())?;
    coming.stage.push(coming.mark.as_slice())?;
    coming.stage.push(coming.behind.as_slice())?;
    Ok(())
}

// Lets what is written count, where it is all.
fn count<D: Disk>(parts: ReplacingParts<D>) -> Result<Files<D>, EndedFiles<D>>
    requires none { IsHonestStage parts.coming → text_before parts.coming ≡ [] }
    requires some { IsHonest parts.counting → parts.is_second ≡ false → 0 < length (text_in parts.counting) }
    requires more { IsHonestStage parts.coming → 0 < length (lines_staged parts.coming) }
    ensures text { IfOk result (λ files. AreFilesHonest files → (text_in files.counting ≡ text_in parts.counting) ⊎ (text_in files.counting ≡ lines_staged parts.coming)) }
    ensures apart { IfOk result AreApart }
    ensures idle { IfOk result (λ files. IsIdle files.beside) }
    ensures clean { IfOk result (λ files. AreFilesHonest files → ArePartsHonest parts) }
    ensures crash { IfErr result (λ ended. AreEndsHonest ended → ArePartsHonest parts × ((c d : List ℕ) → D.Disk.may_leave (first_end ended) c → D.Disk.may_leave (second_end ended) d
        → (pair_text c d ≡ text_in parts.counting) ⊎ (pair_text c d ≡ lines_staged parts.coming))) }
{
    match parts.join().finish() {
        Ok(pair) => Ok(Files::of(pair)),
        Err(Failed::NotKept(pair, _)) => Ok(Files::of(pair)),
        Err(Failed::Unknown(first, second, error)) => Err(EndedFiles::Unknown(
            first, second, error,
        )),
    }
}

// Writes what comes behind the saved store's lines, and lets all count.
fn end<D: Disk>(
    alloc: Global,
    counting: Log<D>,
    mut coming: Coming<D>,
    is_second: bool,
) -> Result<Files<D>, EndedFiles<D>>
    requires all { none_left coming.lines ≡ true }
    requires none { IsHonestStage coming.stage → text_before coming.stage ≡ [] }
    requires some { IsHonest counting → is_second ≡ true → 0 < length (text_in counting) }
    ensures apart { IfOk result AreApart }
    ensures stand { IfOk result (λ files. AreFilesHonest files → IsHonest counting × IsHonestStage coming.stage × ((v : KeptValue) → GivesBack (text_in counting) v → IsComing v coming → FilesStand v files)) }
    ensures crash { IfErr result (λ ended. AreEndsHonest ended → IsHonest counting × IsHonestStage coming.stage × ((v : KeptValue) → GivesBack (text_in counting) v → IsComing v coming
        → (c d : List ℕ) → D.Disk.may_leave (first_end ended) c → D.Disk.may_leave (second_end ended) d → GivesBack (pair_text c d) v)) }
{
    if write_last(alloc, &mut coming).is_err() {
        return Ok(Files::idle(counting, coming.stage.give_up(), is_second));
    }
    count(ReplacingParts {
        counting,
        coming: coming.stage,
        is_second: !is_second,
    })
}

// Goes on to write.
fn write_on<D: Disk>(
    alloc: Global,
    counting: Log<D>,
    mut coming: Coming<D>,
    is_second: bool,
) -> Result<Files<D>, EndedFiles<D>>
    requires none { IsHonestStage coming.stage → text_before coming.stage ≡ [] }
    requires some { IsHonest counting → is_second ≡ true → 0 < length (text_in counting) }
    ensures apart { IfOk result AreApart }
    ensures stand { IfOk result (λ files. AreFilesHonest files → IsHonest counting × IsHonestStage coming.stage × ((v : KeptValue) → GivesBack (text_in counting) v → IsComing v coming → FilesStand v files)) }
    ensures crash { IfErr result (λ ended. AreEndsHonest ended → IsHonest counting × IsHonestStage coming.stage × ((v : KeptValue) → GivesBack (text_in counting) v → IsComing v coming
        → (c d : List ℕ) → D.Disk.may_leave (first_end ended) c → D.Disk.may_leave (second_end ended) d → GivesBack (pair_text c d) v)) }
{
    if coming.lines.is_empty() {
        return end(alloc, counting, coming, is_second);
    }
    if write_part(alloc, &mut coming).is_err() {
        return Ok(Files::idle(counting, coming.stage.give_up(), is_second));
    }
    Ok(Files {
        counting,
        beside: Beside::Coming(coming),
        is_second,
    })
}

// The next step: where nothing is written beside the log and it `has_grown`, the next round begins.
pub(crate) fn step<N: StoreName, D: Disk>(
    alloc: Global,
    server: &mut KeptServer<N>,
    files: Files<D>,
    has_grown: bool,
) -> Result<Files<D>, EndedFiles<D>>
    requires { AreApart files }
    ensures stepped { IfOk result (λ _. IsStepped server.old server.new) }
    ensures apart { IfOk result AreApart }
    ensures stand { IfOk result (λ files_new. AreFilesHonest files_new → AreFilesHonest files × (FilesStand server.old files → FilesStand server.new files_new)) }
    ensures crash { IfErr result (λ ended. AreEndsHonest ended → AreFilesHonest files × (FilesStand server.old files → (c d : List ℕ) → D.Disk.may_leave (first_end ended) c → D.Disk.may_leave (second_end ended) d → LeavesStep server.old (pair_text c d))) }
{
    let Files {
        counting,
        beside,
        is_second,
    } = files;
    let other = match beside {
        Beside::Idle(other) => other,
        Beside::Coming(coming) => return write_on(alloc, counting, coming, is_second),
    };
    let files = Files::idle(counting, other, is_second);
    if !has_grown {
        return Ok(files);
    }
    match roll_of(alloc, server) {
        Ok(Some(roll)) => begin(alloc, server, files, roll),
        Ok(None) | Err(_) => Ok(files),
    }
}
