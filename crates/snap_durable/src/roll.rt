//! The next round of a store, with which a checkpoint of its log begins.
ghost use Rattle.std.specs.Prelude.{◌≡◌, ◌≤◌, ◌++◌, ◌∷◌, [], ℕ, List, length, IfErr, IfOk, IfSome, IsTrue};
ghost use Rattle.snap_log.specs.Log.{IsHonest, text_in};
ghost use Rattle.snap_log.specs.Texts.{log_text};
ghost use Rattle.snap_marks.specs.Sums.{continued_mark};
ghost use Rattle.snap_pieces.specs.declared.line.Line.{Line};
ghost use Rattle.snap_durable.specs.Ended.{disk_ended};
ghost use Rattle.snap_durable.specs.Files.{CanRoll, GoesOnFrom, HasRolled, LeavesSame, LeavesStep};
ghost use Rattle.snap_durable.specs.Parts.{line_limit};
ghost use Rattle.snap_durable.specs.Turns.{GivesBack};

use crate::batch::{Kept, serve_batch};
use crate::chunk::LIMIT;
use crate::ended::Ended;
use snap_checkpoint::StoreLines;
use snap_json::{Token, Writer};
use snap_ledger::StoreName;
use snap_log::{AppendFailed, Lines, Log};
use snap_path::NoMemory;
use snap_session::{KeptServer, Saving};
use sqlite_disk::Disk;
use std::alloc::{AllocError, Global};
use std::io;

// A line by which the next round begins, and the lines that make the store as it then is.
#[derive(Drop)]
pub(crate) struct Roll {
    pub(crate) line: Lines,
    pub(crate) saved: StoreLines,
}

// The text of a `roll` to as many entries.
fn roll_text(alloc: Global, most: u64) -> Result<String, AllocError> {
    let mut out = Writer::new(alloc)?;
    out.token(Token::BeginObject)?;
    out.token(Token::Key("do"))?;
    out.token(Token::String("roll"))?;
    out.token(Token::Key("journal"))?;
    out.number(most)?;
    out.token(Token::EndObject)?;
    Ok(out.finish())
}

// The lines of the store, and that by which its next round begins, where it can.
pub(crate) fn roll_of<N: StoreName>(
    alloc: Global,
    server: &mut KeptServer<N>,
) -> Result<Option<Roll>, NoMemory>
    ensures can { IfOk result (λ roll. IfSome roll (λ r. CanRoll server.old r.line r.saved)) }
    ensures same { server.new ≡ server.old }
{
    let Some(world) = server.world() else {
        return Ok(None);
    };
    let text = roll_text(alloc, world.most_entries())?;
    let bytes = text.as_bytes();
    let mut line = Lines::new(alloc);
    if bytes.len() > LIMIT || !line.push(bytes)? || !server.rolls(alloc, bytes)? {
        return Ok(None);
    }
    match server.save(alloc)? {
        Saving::Lines(saved) => Ok(Some(Roll { line, saved })),
        Saving::NoStore | Saving::Refused(_) => Ok(None),
    }
}

// A log whose store's next round has begun, or not, and the mark from which sums go on, if it was added.
#[derive(Drop)]
pub(crate) struct Rolled<D: Disk> {
    pub(crate) log: Log<D>,
    pub(crate) mark: Option<Lines>,
}

// The mark from which sums go on, with its text, as a line of a log.
fn mark_to_go_on<N: StoreName>(alloc: Global, server: &KeptServer<N>) -> Option<(Vec<u8>, Lines)>
    ensures text { IfSome result (λ both. both.0.items ≡ continued_mark server.now.sums) }
    ensures line { IfSome result (λ both. both.1 ≡ both.0.items ++ 10 ∷ []) }
    ensures short { IfSome result (λ both. length both.0.items ≤ line_limit) }
{
    let Ok(text) = server.continued(alloc) else {
        return None;
    };
    if text.len() > LIMIT {
        return None;
    }
    let mut line = Lines::new(alloc);
    match line.push(text.as_slice()) {
        Ok(true) => Some((text, line)),
        Ok(false) | Err(_) => None,
    }
}

// Adds it.
fn add_mark<N: StoreName, D: Disk>(
    alloc: Global,
    server: &mut KeptServer<N>,
    log: Log<D>,
) -> Result<Rolled<D>, Ended<D>>
    ensures server { server.new.server ≡ server.old.server }
    ensures mark { IfOk result (λ rolled. IfSome rolled.mark (λ line. (mark : List ℕ) × GoesOnFrom server.new mark line)) }
    ensures back { IfOk result (λ rolled. IsHonest rolled.log → IsHonest log × (GivesBack (text_in log) server.old → GivesBack (text_in rolled.log) server.new)) }
    ensures longer { IfOk result (λ rolled. IsHonest rolled.log → (more : List ℕ) × (text_in rolled.log ≡ text_in log ++ more)) }
    ensures crash { IfErr result (λ ended. IsTrue (D.Disk.is_clean (disk_ended ended)) → GivesBack (text_in log) server.old → (c : List ℕ) → D.Disk.may_leave (disk_ended ended) c → LeavesSame server.old (log_text c)) }
    ensures grows { IfErr result (λ ended. IsTrue (D.Disk.is_clean (disk_ended ended)) → (c : List ℕ) → D.Disk.may_leave (disk_ended ended) c → (more : List ℕ) × (log_text c ≡ text_in log ++ more)) }
    ensures clean { IfErr result (λ ended. IsTrue (D.Disk.is_clean (disk_ended ended)) → IsHonest log) }
{
    let Some((text, mark)) = mark_to_go_on(alloc, server) else {
        return Ok(Rolled { log, mark: None });
    };
    match log.append(mark.as_slice()) {
        Ok(log) => {
            server.go_on(text.as_slice());
            Ok(Rolled {
                log,
                mark: Some(mark),
            })
        }
        Err(AppendFailed::NotKept(log, _)) => Ok(Rolled { log, mark: None }),
        Err(AppendFailed::Unknown(disk, error)) => Err(Ended::Unknown(disk, error)),
    }
}

// Begins the next round by the line, which isn't counted among those of the input, and lets sums go on from a mark.
pub(crate) fn begin_round<N: StoreName, D: Disk>(
    alloc: Global,
    server: &mut KeptServer<N>,
    line: &Lines,
    log: Log<D>,
) -> Result<Rolled<D>, Ended<D>>
    ensures rolled { IfOk result (λ rolled. (saved : List Line) → CanRoll server.old line.now saved → HasRolled server.old server.new rolled.mark) }
    ensures back { IfOk result (λ rolled. (saved : List Line) → CanRoll server.old line.now saved → IsHonest rolled.log → IsHonest log × (GivesBack (text_in log) server.old → GivesBack (text_in rolled.log) server.new)) }
    ensures longer { IfOk result (λ rolled. IsHonest rolled.log → (more : List ℕ) × (text_in rolled.log ≡ text_in log ++ more)) }
    ensures crash { IfErr result (λ ended. IsTrue (D.Disk.is_clean (disk_ended ended)) → (saved : List Line) → CanRoll server.old line.now saved → GivesBack (text_in log) server.old
        → (c : List ℕ) → D.Disk.may_leave (disk_ended ended) c → LeavesStep server.old (log_text c)) }
    ensures grows { IfErr result (λ ended. IsTrue (D.Disk.is_clean (disk_ended ended)) → (c : List ℕ) → D.Disk.may_leave (disk_ended ended) c → (more : List ℕ) × (log_text c ≡ text_in log ++ more)) }
    ensures clean { IfErr result (λ ended. IsTrue (D.Disk.is_clean (disk_ended ended)) → IsHonest log) }
{
    let lines = server.lines();
    let Kept { log, is_kept } = match serve_batch(
        alloc,
        server,
        line.as_slice(),
        log,
        &mut io::sink(),
    ) {
        Ok(kept) => kept,
        Err(ended) => return Err(ended),
    };
    server.count_from(lines);
    if !is_kept {
        return Ok(Rolled { log, mark: None });
    }
    add_mark(alloc, server, log)
}
