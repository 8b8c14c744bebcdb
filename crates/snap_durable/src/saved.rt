// The text of a saved store, written behind the lines of a log that are to make room for it.
ghost use Rattle.std.specs.Prelude.{◌≡◌, ◌<◌, ◌++◌, ◌∷◌, [], false, true, length, ℕ, List, IfErr, IfOk, OnOk, Ok, Some, string_bytes};
ghost use Rattle.std.specs.List.{AllByRecursion};
ghost use Rattle.serde_json.specs.Read.{read};
ghost use Rattle.serde_json.specs.Written.{compact_text};
ghost use Rattle.snap_checkpoint.specs.Lines.{none_left};
ghost use Rattle.snap_marks.specs.Marks.{chained_lines};
ghost use Rattle.snap_marks.specs.Sums.{no_sum};
ghost use Rattle.snap_pieces.specs.Read.{line_said};
ghost use Rattle.snap_pieces.specs.Written.{line_data};
ghost use Rattle.snap_durable.specs.Checkpoints.{IsTold, has_long, is_long, mark_text, saved_line, saved_text};
ghost use Rattle.snap_durable.specs.Moved.{IsUnfilled};
ghost use Rattle.snap_durable.specs.declared.saved.Unwritten.TheVariants.{TooLong};

use snap_checkpoint::StoreLines;
use snap_json::Writer;
use snap_log::Lines;
use snap_marks::Sums;
use snap_path::NoMemory;
use snap_pieces::{Line, write_line};
use snap_script::MAX_LINE_BYTES;
use std::alloc::{AllocError, Global};
use std::io;

// How many bytes a part of the text has at least, but for the last one.
const PART: usize = 262_144;

// Why the text of a checkpoint wasn't written.
#[derive(Drop)]
pub(crate) enum Unwritten {
    // Memory was refused.
    OutOfMemory(NoMemory),
    // A line has more than 16 MiB.
    TooLong,
    // A write failed.
    Io(io::Error),
}

impl From<NoMemory> for Unwritten {
    ghost use Rattle.std.specs.Prelude.{◌≡◌};
    ghost use Rattle.snap_durable.specs.declared.saved.Unwritten.TheVariants.{OutOfMemory};

    ghost from_gives = { λ want e. e ≡ OutOfMemory want };

    fn from(want: NoMemory) -> Unwritten {
        Unwritten::OutOfMemory(want)
    }
}

impl From<AllocError> for Unwritten {
    ghost use Rattle.snap_path.specs.Memory.{no_memory};
    ghost use Rattle.std.specs.Prelude.{◌≡◌};
    ghost use Rattle.snap_durable.specs.declared.saved.Unwritten.TheVariants.{OutOfMemory};

    ghost from_gives = { λ _ e. e ≡ OutOfMemory no_memory };

    fn from(refused: AllocError) -> Unwritten {
        Unwritten::OutOfMemory(refused.into())
    }
}

impl From<io::Error> for Unwritten {
    ghost use Rattle.std.specs.Prelude.{◌≡◌};
    ghost use Rattle.snap_durable.specs.declared.saved.Unwritten.TheVariants.{Io};

    ghost from_gives = { λ error e. e ≡ Io error };

    fn from(error: io::Error) -> Unwritten {
        Unwritten::Io(error)
    }
}

// The text of a line, without its line feed.
fn line_text(alloc: Global, line: &Line) -> Result<String, AllocError>
    ensures text { IfOk result (λ text. string_bytes text ≡ compact_text (line_data line.now)) }
    ensures reads { OnOk result (read (compact_text (line_data line.now)) ≡ Some (line_data line.now)) }
    ensures back { OnOk result (line_said (line_data line.now) ≡ Ok line.now) }
{
    let mut out = Writer::new(alloc)?;
    write_line(alloc, &mut out, line)?;
    Ok(out.finish())
}

// Adds a line, also to the sum of lines.
fn add_line(alloc: Global, line: &Line, text: &mut Lines, sums: &mut Sums) -> Result<(), Unwritten>
    ensures text { OnOk result (text.new ≡ text.old ++ saved_line line.now) }
    ensures sum { OnOk result ((more : List ℕ) → chained_lines sums.new.lines more ≡ chained_lines sums.old.lines (saved_line line.now ++ more)) }
    ensures told { OnOk result (IsTold line.now) }
    ensures why { IfErr result IsUnfilled }
    ensures long { IfErr result (λ why. why ≡ TooLong → is_long line.now ≡ true) }
{
    let told = line_text(alloc, line)?;
    let bytes = told.as_bytes();
    if bytes.len() > MAX_LINE_BYTES {
        return Err(Unwritten::TooLong);
    }
    if !text.push(bytes)? {
        unreachable!()
    }
    sums.add(bytes, &[]);
    Ok(())
}

// Adds the lines that come next, up to one by which the part has enough bytes, also to the sum of lines.
pub(crate) fn fill(
    alloc: Global,
    lines: &mut StoreLines,
    text: &mut Lines,
    sums: &mut Sums,
) -> Result<(), Unwritten>
    ensures text { OnOk result (text.new ++ saved_text lines.new ≡ text.old ++ saved_text lines.old) }
    ensures sum { OnOk result (chained_lines sums.new.lines (saved_text lines.new) ≡ chained_lines sums.old.lines (saved_text lines.old)) }
    ensures told { OnOk result (AllByRecursion IsTold lines.new → AllByRecursion IsTold lines.old) }
    ensures fewer { OnOk result (none_left lines.old ≡ false → length lines.new < length lines.old) }
    ensures left { OnOk result (has_long lines.new ≡ true → has_long lines.old ≡ true) }
    ensures why { IfErr result IsUnfilled }
    ensures long { IfErr result (λ why. why ≡ TooLong → has_long lines.old ≡ true) }
{
    'lines: while let Some(line) = lines.next_line()? {
        add_line(alloc, &line, text, sums)?;
        if text.as_slice().len() >= PART {
            return Ok(());
        }
    }
    Ok(())
}

// The mark behind lines of this sum, none of which had an answer, as a line of a log.
pub(crate) fn mark_line(alloc: Global, sums: &Sums) -> Result<Lines, NoMemory>
    ensures text { (text : List ℕ) → sums.now.lines ≡ chained_lines no_sum text → IfOk result (λ lines. lines ≡ mark_text text) }
    ensures some { IfOk result (λ lines. 0 < length lines) }
{
    let mut all = Sums::new();
    all.lines = sums.lines;
    let mark = all.mark_behind(alloc, &[])?;
    let mut lines = Lines::new(alloc);
    if lines.push(mark.as_slice())? {
        return Ok(lines);
    }
    unreachable!()
}
