// Whether a log or a saved store is whole, and what it has.
ghost use Rattle.std.specs.Prelude.{◌≡◌, ℕ, List, Ok, IfErr, IfOk, IfSome};
ghost use Rattle.snap_log.specs.Log.{disk_of, text_in, IsHonest};
ghost use Rattle.snap_session.specs.Kept.{idle_kept};
ghost use Rattle.snap_session.specs.Script.{unbegun};
ghost use Rattle.snap_durable.specs.Checked.{IsFirstFault, IsLogChecked, IsSavedChecked, begins_saved, checked_of, is_saved_command, is_saved_line, restores, saved_options};

use crate::changes::first_line;
use crate::chunk::READS;
use crate::holding::{Contents, FromNamespace, contents_of};
use crate::restart::{ReplayError, replay};
use snap_ledger::{NewTable, StoreName};
use snap_lines::{Stop, read_lines};
use snap_log::Log;
use snap_marks::{Sums, is_mark};
use snap_path::NoMemory;
use snap_script::{Command, FieldRule, Line, ReadError, Scratch, read_line};
use snap_session::{KeptServer, Resuming, RunOptions, Runner};
use sqlite_disk::Disk;
use std::alloc::{AllocError, Global};
use std::io::{self, Read};
use std::marker::Brand;

/// What was found in a log, with `H` told of each namespace.
#[derive(Drop)]
pub struct Checked<H> {
    /// Whether each mark agrees with the lines before it and with their answers, and the last line is one, if there is
    /// any.
    pub is_whole: bool,
    /// What the marks tell.
    pub sums: Sums,
    /// What the store has, where the lines have opened one.
    pub contents: Option<Contents<H>>,
}

// How the lines of a saved store are carried out: up to the first that is refused.
pub(crate) const SAVED: RunOptions = RunOptions {
    fields: FieldRule::Any,
    stops_at_refusal: true,
};

// What is told of a server.
fn checked_of<N: StoreName, H: FromNamespace + Drop>(
    alloc: Global,
    server: &KeptServer<N>,
) -> Result<Checked<H>, AllocError>
    ensures { IfOk result (λ checked. checked ≡ checked_of H.of_namespace server.now) }
{
    Ok(Checked {
        is_whole: server.is_whole(),
        sums: *server.sums(),
        contents: contents_of(alloc, server.world())?,
    })
}

// Checks a log by a server that has carried out no line.
fn check_by<N: StoreName, H: FromNamespace + Drop, D: Disk>(
    alloc: Global,
    resuming: &mut Resuming<N>,
    log: &mut Log<D>,
) -> Result<Checked<H>, ReplayError>
    requires { resuming.old ≡ idle_kept }
    ensures done { IfOk result (λ checked. IsHonest log.new → IsLogChecked H.of_namespace (text_in log.old) checked) }
    ensures text { text_in log.new ≡ text_in log.old }
    ensures crash { (c : List ℕ) → D.Disk.may_leave (disk_of log.new) c → D.Disk.may_leave (disk_of log.old) c }
    ensures clean { IsHonest log.new → IsHonest log.old }
{
    replay(alloc, resuming, log)?;
    match checked_of(alloc, resuming.server()) {
        Ok(checked) => Ok(checked),
        Err(refused) => Err(ReplayError::Stopped(refused.into())),
    }
}

fn run<N: StoreName, H: FromNamespace + Drop, D: Disk>(
    alloc: Global,
    table: NewTable,
    log: &mut Log<D>,
) -> Result<Checked<H>, ReplayError>
    requires { table ≡ N.table }
    ensures done { IfOk result (λ checked. IsHonest log.new → IsLogChecked H.of_namespace (text_in log.old) checked) }
    ensures text { text_in log.new ≡ text_in log.old }
    ensures crash { (c : List ℕ) → D.Disk.may_leave (disk_of log.new) c → D.Disk.may_leave (disk_of log.old) c }
    ensures clean { IsHonest log.new → IsHonest log.old }
{
    let mut resuming: Resuming<N> = Resuming::new(KeptServer::new(alloc, table));
    check_by(alloc, &mut resuming, log)
}

/// Carries out the lines of a log from no store on, and tells whether its marks agree and what the store has.
///
/// At `Ok` this is said of what the log's text makes of a server of scripts. `Io` where a call of the disk failed;
/// `Stopped` where memory was refused. The log has its text as before. The cost and the memory are those of
/// [`replay`], and the memory of a copy of the namespaces' names and of the leases, or of all that a
/// [`Space`](crate::Space) has.
pub fn check_log<H: FromNamespace + Drop, D: Disk>(
    alloc: Global,
    log: &mut Log<D>,
) -> Result<Checked<H>, ReplayError>
    ensures done { IfOk result (λ checked. IsHonest log.new → IsLogChecked H.of_namespace (text_in log.old) checked) }
    ensures text { text_in log.new ≡ text_in log.old }
    // Whatever the call answers, a crash leaves what could be left before.
    ensures crash { (c : List ℕ) → D.Disk.may_leave (disk_of log.new) c → D.Disk.may_leave (disk_of log.old) c }
    ensures clean { IsHonest log.new → IsHonest log.old }
{
    let table = match NewTable::new(alloc) {
        Ok(table) => table,
        Err(refused) => return Err(ReplayError::Stopped(refused.into())),
    };
    run::<Brand, H, D>(alloc, table, log)
}

// Checks the lines of a saved store by a run that has taken no line.
fn saved_by<N: StoreName, H: FromNamespace + Drop, R: Read>(
    alloc: Global,
    runner: &mut Runner<N>,
    input: &mut R,
) -> Result<Option<Contents<H>>, Stop>
    requires { runner.old ≡ unbegun saved_options }
    ensures done { IfOk result (λ contents. IfSome (R.remaining input.old) (λ bytes. IsSavedChecked H.of_namespace bytes contents)) }
    ensures stopped { IfErr result (λ stop. IfSome (R.remaining input.old) (λ bytes. IsFirstFault bytes stop)) }
{
    read_lines(alloc, runner, input, &mut io::sink(), None, READS)?;
    Ok(contents_of(alloc, runner.world())?)
}

fn run_saved<N: StoreName, H: FromNamespace + Drop, R: Read>(
    alloc: Global,
    table: NewTable,
    input: &mut R,
) -> Result<Option<Contents<H>>, Stop>
    requires { table ≡ N.table }
    ensures done { IfOk result (λ contents. IfSome (R.remaining input.old) (λ bytes. IsSavedChecked H.of_namespace bytes contents)) }
    ensures stopped { IfErr result (λ stop. IfSome (R.remaining input.old) (λ bytes. IsFirstFault bytes stop)) }
{
    let mut runner: Runner<N> = Runner::new(alloc, table, SAVED);
    saved_by(alloc, &mut runner, input)
}

/// Carries out the lines of a saved store, and tells what the store has: none, where the last line is missing.
///
/// `Line` at the first line that is no command or is refused; `InputFailed` where a read failed; `OutOfMemory` where
/// memory was refused. The cost and the memory are those of the lines.
pub fn check_saved<H: FromNamespace + Drop, R: Read>(
    alloc: Global,
    input: &mut R,
) -> Result<Option<Contents<H>>, Stop>
    ensures done { IfOk result (λ contents. IfSome (R.remaining input.old) (λ bytes. IsSavedChecked H.of_namespace bytes contents)) }
    ensures stopped { IfErr result (λ stop. IfSome (R.remaining input.old) (λ bytes. IsFirstFault bytes stop)) }
{
    let table = NewTable::new(alloc)?;
    run_saved::<Brand, H, R>(alloc, table, input)
}

// Whether a command is that of a line of a saved store.
fn is_restore(command: &Command<'_>) -> bool
    ensures { result ≡ is_saved_command command.now }
{
    match command {
        Command::Restore(_) => true,
        _ => false,
    }
}

// Whether what was read of a line is a line of a saved store.
fn is_saved_line(line: &Line<'_>) -> bool
    ensures { result ≡ is_saved_line (Ok line.now) }
{
    match line {
        Line::Command { command, .. } => is_restore(command),
        Line::Empty => false,
    }
}

// Whether a line is one of a saved store.
fn restores(alloc: Global, line: &[u8]) -> Result<bool, NoMemory>
    ensures { IfOk result (λ is. is ≡ restores line.now) }
{
    let mut scratch = Scratch::new(alloc);
    match read_line(alloc, line, FieldRule::Any, false, &mut scratch) {
        Ok(line) => Ok(is_saved_line(&line)),
        Err(ReadError::Fault(_)) => Ok(false),
        Err(ReadError::OutOfMemory(shortage)) => Err(shortage),
    }
}

/// Whether a text begins as a saved store does: with one of its lines, and no mark behind it, as a log has one.
///
/// `NoMemory` where memory to read the line was refused. The cost grows with the first two lines.
pub fn begins_saved(alloc: Global, text: &[u8]) -> Result<bool, NoMemory>
    ensures { IfOk result (λ is. is ≡ begins_saved text.now) }
{
    if text.is_empty() {
        return Ok(false);
    }
    let (line, more) = first_line(text);
    if more.is_empty() {
        return restores(alloc, line);
    }
    let (second, _) = first_line(more);
    Ok(restores(alloc, line)? && !is_mark(second))
}
