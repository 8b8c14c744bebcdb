// The lines that change something among those of a part.
ghost use Rattle.std.specs.Prelude.{◌≡◌, ◌<◌, ◌++◌, ◌∷◌, [], true, false, length, take, ℕ, List, IfOk, IsTrue};
ghost use Rattle.snap_durable.specs.Parts.{IsNoLine, lines_added, lines_to_keep, is_odd, line_limit, line_read};
ghost use Rattle.snap_lines.specs.Lines.{lines_of};

use crate::chunk::LIMIT;
use snap_lines::KeepLine;
use snap_log::Lines;
use snap_path::NoMemory;
use std::alloc::Global;

// The bytes that are kept of a line, which stands here without its line feed.
fn line_read(line: &[u8]) -> &[u8]
    ensures { result.now ≡ take line_limit line.now }
{
    if line.len() > LIMIT {
        &line[..LIMIT]
    } else {
        line
    }
}

// What is read of the first line of some bytes, and the lines behind it.
pub(crate) fn first_line(bytes: &[u8]) -> (&[u8], &[u8])
    requires { 0 < length bytes.now }
    ensures lines { (head : List ℕ) × ((lines_of bytes.now ≡ head ∷ lines_of result.1.now) × (line_read head ≡ result.0.now)) }
    ensures fewer { length result.1.now < length bytes.now }
{
    let mut at = 0;
    'bytes: while at < bytes.len() {
        if bytes[at] == b'\n' {
            let (line, more) = bytes.split_at(at);
            return (line_read(line), &more[1..]);
        }
        at += 1;
    }
    (line_read(bytes), &[])
}

// Adds the lines that change something, and answers whether all of them are there: each has to begin with an open brace.
fn add_changes<T: KeepLine>(
    alloc: Global,
    taker: &mut T,
    whole: &[u8],
    changes: &mut Lines,
) -> Result<bool, NoMemory>
    ensures added { IfOk result (λ are_there. IsTrue are_there → changes.new ≡ changes.old ++ lines_to_keep (T.changes taker.old) (lines_of whole.now)) }
    ensures odd { IfOk result (λ are_there. are_there ≡ false → is_odd (T.changes taker.old) (lines_of whole.now) ≡ true) }
    ensures same { taker.new ≡ taker.old }
{
    let mut are_there = true;
    let mut rest = whole;
    'lines: while !rest.is_empty() {
        let (line, more) = first_line(rest);
        if taker.is_change(alloc, line)? {
            are_there = changes.push(line)? && are_there;
        }
        rest = more;
    }
    Ok(are_there)
}

// Adds the lines that change something, and the mark behind them, if there are any, and answers whether all of them are
// there.
pub(crate) fn add_lines<T: KeepLine>(
    alloc: Global,
    taker: &mut T,
    whole: &[u8],
    added: &mut Lines,
) -> Result<bool, NoMemory>
    requires none { added.old ≡ [] }
    ensures added { IfOk result (λ are_there. IsTrue are_there → added.new ≡ lines_added (T.changes taker.old) (T.mark taker.old) whole.now) }
    ensures odd { IfOk result (λ are_there. are_there ≡ false → IsNoLine (T.changes taker.old) (T.mark taker.old) whole.now) }
    ensures same { taker.new ≡ taker.old }
{
    let are_there = add_changes(alloc, taker, whole, added)?;
    if !are_there || added.as_slice().is_empty() {
        return Ok(are_there);
    }
    let mark = taker.mark_behind(alloc, added.as_slice())?;
    Ok(added.push(mark.as_slice())?)
}
