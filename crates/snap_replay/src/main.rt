//! The program `snap_replay`: `snap_replay run` replays a script of a store of snapshots, `snap_replay serve` answers
//! each line of a client, and `snap_replay writers` runs jobs on a store, from standard input to standard output.
//! `save` moves a store in a file, `check` tells whether a log or a saved store is whole, and what it has, `diff` in what
//! the stores of two such files differ, and `checkpoint` makes a log short.
//!
//! What is read and written is `replay`'s and `serve`'s, of the crate `snap_session`, and `write_jobs`'s, of `snap_jobs`;
//! here are the words of the command line, the standard streams and the status.
#![tactic(auto)]

mod check;
mod checkpoint;
mod diff;
mod logged;
mod save;

ghost use Rattle.clap.specs.Words.{app_of, found_of, kind_of, one_of, rows_of, subcommand_rows_of};
ghost use Rattle.clap.specs.declared.error.kind.ErrorKind.TheVariants.{OutOfMemory};
ghost use Rattle.snap_replay.specs.Done.{HasDone, HasActed, IsRefusalStatus};
ghost use Rattle.snap_replay.specs.Exit.{exit_of, status_of_end};
ghost use Rattle.snap_replay.specs.Logged.{diff_exit_of, log_exit_of};
ghost use Rattle.snap_replay.specs.Program.{IsDeclared, IsOption, beside_another, check_shape, checkpoint_shape, diff_shape, flag, command_found, are_words_taken, kept_shape, number_to, program, run_shape, save_shape, serve_shape, valued, wanted_number, wanted_place, writers_shape};
ghost use Rattle.snap_replay.specs.Replayed.{HasReplayed, HasRunJobs, HasServed};
ghost use Rattle.snap_replay.specs.Tasks.{IsTask};
ghost use Rattle.snap_replay.specs.Words.{IsAsked, IsNumberOf, IsTimesOf, field_rule_of, is_given, run_options_of, writers_of};
ghost use Rattle.snap_replay.specs.declared.Task.TheVariants.{Writers};
ghost use Rattle.std.specs.Prelude.{◌≡◌, ◌≤◌, IfErr, IfOk, IfSome, Option, codes, map, option_map, string_bytes, true, ℕ};

use crate::check::check_file;
use crate::checkpoint::checkpoint_file;
use crate::diff::diff_files;
use crate::logged::{LogStop, serve_file};
use crate::save::save_file;
use clap::error::ErrorKind as WordsErrorKind;
use clap::{Arg, ArgAction, ArgMatches, Command, Error, value_parser};
use snap_jobs::{JobOptions, JobsStop, MAX_WORKERS, write_jobs};
use snap_lines::Stop;
use snap_script::FieldRule;
use snap_session::{RunOptions, replay, serve};
use std::alloc::Global;
use std::io::{BufWriter, ErrorKind, Read, Write};
use std::process::ExitCode;
use std::sync::Wait;
use std::thread::Threads;
use std::{env, fmt, io};

// The version of the program.
const VERSION: &str = "0.2.0";

// The status of two stores that differ.
const DIFFERENT: u8 = 1;

// The status of bad words.
const BAD_WORDS: u8 = 2;

// Why the program ended before its work was done.
#[derive(Debug, PartialEq, Eq, Drop)]
enum Ended {
    // Lines or jobs stopped.
    Stopped(JobsStop),
    // A library was refused memory, and keeps the allocator's error to itself: `io`, or `clap` of the words.
    WantOfMemory,
}

impl Ended {
    // The status of the program.
    fn status(&self) -> u8
        ensures { result ≡ status_of_end self.now }
    {
        match self {
            Ended::Stopped(stop) => stop.status(),
            Ended::WantOfMemory => 4,
        }
    }
}

impl fmt::Display for Ended {
    fn fmt<W: fmt::Write>(&self, f: &mut fmt::Formatter<W>) -> fmt::Result {
        match self {
            Ended::Stopped(stop) => write!(f, "{stop}"),
            Ended::WantOfMemory => f.write_str("want of memory"),
        }
    }
}

// Replays the script of an input.
fn replay_from<R: Read, W: Write>(
    alloc: Global,
    input: &mut R,
    output: &mut W,
    options: RunOptions,
) -> Result<(), Ended>
    ensures { IfSome (R.remaining input.old) (λ bytes. HasReplayed options bytes (R.remaining input.new) result (W.contents output.old) (W.contents output.new)) }
{
    match replay(alloc, input, output, options) {
        Ok(()) => Ok(()),
        Err(stop) => Err(Ended::Stopped(JobsStop::Lines(stop))),
    }
}

// Answers the lines of an input.
fn serve_from<R: Read, W: Write>(alloc: Global, input: &mut R, output: &mut W) -> Result<(), Ended>
    ensures { IfSome (R.remaining input.old) (λ bytes. HasServed bytes (R.remaining input.new) result (W.contents output.old) (W.contents output.new)) }
{
    match serve(alloc, input, output) {
        Ok(()) => Ok(()),
        Err(stop) => Err(Ended::Stopped(JobsStop::Lines(stop))),
    }
}

// Runs the jobs of an input.
fn jobs_from<T: Threads + Wait + Sync, R: Read, W: Write>(
    rt: &T,
    alloc: Global,
    input: &mut R,
    output: &mut W,
    options: JobOptions,
) -> Result<(), Ended>
    requires { (1 ≤ options.workers) × (options.workers ≤ 16) }
    ensures { IfSome (R.remaining input.old) (λ bytes. HasRunJobs options bytes (R.remaining input.new) result (W.contents output.old) (W.contents output.new)) }
{
    match write_jobs(rt, alloc, input, output, options) {
        Ok(()) => Ok(()),
        Err(stop) => Err(Ended::Stopped(stop)),
    }
}

// The status of a run that ended so; the words for it go to standard error.
fn status<T: Eprint>(rt: &T, ended: Result<(), Ended>) -> u8
    ensures { result ≡ exit_of ended }
{
    match ended {
        Ok(()) => 0,
        Err(stop) => {
            let _ = rt.eprintln(&stop);
            stop.status()
        }
    }
}

// The same of a server over a log.
fn log_status<T: Eprint>(rt: &T, served: Result<(), LogStop>) -> u8
    ensures { result ≡ log_exit_of served }
{
    match served {
        Ok(()) => 0,
        Err(why) => {
            let _ = rt.eprintln(&why);
            why.status()
        }
    }
}

// The same of a comparison of two stores, by whether they differ.
fn diff_status<T: Eprint>(rt: &T, compared: Result<bool, LogStop>) -> u8
    ensures { result ≡ diff_exit_of compared }
{
    match compared {
        Ok(true) => DIFFERENT,
        Ok(false) => 0,
        Err(why) => log_status(rt, Err(why)),
    }
}

// The words of the command line.
fn words_of(rt: &HostRuntime) -> Result<Vec<String>, u8> {
    let args = match env::args(rt) {
        Ok(args) => args,
        Err(e) if e.kind() == ErrorKind::OutOfMemory => {
            return Err(status(rt, Err(Ended::WantOfMemory)));
        }
        Err(_) => {
            let _ = rt.eprintln("error: an argument is no text");
            return Err(BAD_WORDS);
        }
    };
    match args.collect::<Vec<String>>(rt.alloc()) {
        Ok(words) => Ok(words),
        Err(refused) => Err(status(rt, Err(Ended::Stopped(refused.into())))),
    }
}

// What is wanted of a store: with another root, where one is named, and of one namespace alone, where one is.
#[derive(Clone, Copy, Debug, PartialEq, Eq)]
struct Wanted<'a> {
    root: Option<&'a str>,
    namespace: Option<&'a str>,
}

// What the command line asks for.
#[derive(Clone, Copy, Debug, PartialEq, Eq)]
enum Task<'a> {
    // Replay the script on standard input.
    Run {
        options: RunOptions,
    },
    // Answer each line on standard input, and keep those that change the store in a file, if one is named. Where its marks
    // differ, it is served only if it rebases. It is made short where it has grown so many times; 0 never does.
    Serve {
        log: Option<&'a str>,
        rebases: bool,
        times: u32,
    },
    // Run the jobs on standard input by 1 to 16 workers.
    Writers {
        options: JobOptions,
    },
    // Write the lines of what is wanted of the store in a file.
    Save {
        file: &'a str,
        wanted: Wanted<'a>,
    },
    // Check the log or the saved store in a file, and tell of it by JSON or by lines for people.
    Check {
        file: &'a str,
        json: bool,
    },
    // Let the lines of a log's store take the place of the log's own.
    Checkpoint {
        file: &'a str,
    },
    // Tell in what the stores of two files differ, by JSON or by lines for people.
    Diff {
        a: &'a str,
        b: &'a str,
        json: bool,
    },
}

// The option that says how many workers there are.
const WORKERS: &str = "workers";

// The option of `writers` by which the end of each job is told.
const ENDS: &str = "ends";

// The option of `run` and of `writers` by which unknown fields are faults.
const STRICT: &str = "strict";

// The option of `serve` that names the file of its log.
const LOG: &str = "log";

// The option of `serve` by which a log's marks are compared anew.
const REBASE: &str = "rebase";

// The option of `serve` that says how far a log grows before it is made short; the number where it isn't given, and the most.
const TIMES: &str = "checkpoint";

const DEFAULT_TIMES: u32 = 4;

const MAX_TIMES: u32 = 1_000_000;

// The option of `run` by which it ends at the first refusal.
const STOP: &str = "stop";

// The file that `save`, `check` or `checkpoint` is of.
const FILE: &str = "file";

// The option of `save` that names the root.
const ROOT: &str = "root";

// The option of `save` that names the one namespace that it writes.
const NAMESPACE: &str = "ns";

// The files that `diff` is of.
const A: &str = "a";

const B: &str = "b";

// The option of `check` and of `diff` by which JSON is written.
const JSON: &str = "json";

// What goes in and out of `run`. The last line works as it stands.
const RUN_HELP: &str =
    r#"In: a JSON object a line. The first opens a store, as below; docs/SCRIPT.md has them all.
Out: a JSON object for each; {"error":NAME,"from":WHERE} where it is refused.
Status: 0 done, 2 bad words or a bad line, 3 a read or a write failed, 4 want of memory, 5 refused (--stop).
Example:
  printf '%s\n' '{"do":"open","root":"/r","namespaces":[["a",9,9]]}' '{"do":"report"}' | snap_replay run"#;

// The same for `serve`.
const SERVE_HELP: &str =
    r#"In: a JSON object a line, as run --strict reads them; `id`, a text or a number, may stand in each.
Out: a line for each, in order, before the next is read: its answer, {"fault":WORDS,"line":N} where it is
no command, {"empty":true} where it is empty; with an id {"answer":ANSWER,"id":ID}.
With --log, {"error":"NotKept","from":"log"} for a line that would change the store and can't be kept.
Status: 0 at the end of the input, 2 bad words, 3 a read or a write failed, 4 want of memory; with --log also
6 where another process has the log, 7 where it is none or can't be read, 8 where a sync failed, 9 where its
lines aren't those that were written or have other answers now; with --rebase these are taken as they are.
Example:
  printf '%s\n' '{"do":"open","root":"/r","namespaces":[["a",9,9]]}' '{"do":"report","id":7}' | snap_replay serve"#;

// The same for `writers`.
const WRITERS_HELP: &str =
    r#"In: a JSON object a line. The first opens a store, each other one is a job: a snapshot's whole life.
By --strict lines are read as by run --strict, and a fault in an operation names its number, from 1.
Out: one line: how many jobs were committed, discarded and refused, and what is charged then; before it,
with --ends, a line for each job.
Status: as of run; 4 also after the answer where jobs were refused for want of memory or of a thread; 5 where
the store could not be closed.
Example:
  printf '%s\n' '{"do":"open","root":"/r","namespaces":[["a",9,9]]}' '{"ns":"a","key":"k","parent":"","ops":[],"end":"discard"}' | snap_replay writers --workers 2"#;

// The same for `save`.
const SAVE_HELP: &str =
    r#"Carries out the lines of a log, as serve --log keeps it, or of a saved store, and writes those of its store, which
make it anew in place of `open`. It makes a store of them first, and compares what each namespace has there.
Nothing of FILE is changed; of a log FILE-wal, which stays empty, is made where it is missing.
Out: a JSON object a line, as save answers them. Without the last one they make no store.
Status: 0 done, 2 bad words, a root that none can have or a line that is no command, 3 a read or a write failed,
4 want of memory, 5 the store has no such namespace, or there is none, or it can't be rolled, or a line of FILE is
refused; 6, 7 and 9 as of check.
Example:
  snap_replay save store.log --ns alice --root /new | snap_replay serve --log new.log"#;

// The same for `check`.
const CHECK_HELP: &str =
    r#"Carries out the lines of a log, as serve --log keeps it, or of a saved store, of which each is a line that save
has answered. Nothing of FILE is changed; of a log FILE-wal, which stays empty, is made where it is missing.
Out: that it is whole, and what each namespace is charged, its limit, and how many snapshots and leases it
has; with --json an object. Standard error has why it isn't whole.
Status: 0 whole, 2 bad words or a line that is no command, 3 a read or a write failed, 4 want of memory, 5 a line
of a saved store is refused or the last one is missing, 6 where another process has the log, 7 where it is none,
is damaged or can't be read, 9 where its lines aren't those that were written or have other answers now.
Example:
  snap_replay check store.log"#;

// The same for `checkpoint`.
const CHECKPOINT_HELP: &str =
    r#"Carries out a log, as serve --log keeps it, and lets the lines of its store take the place of all others, as one:
whatever happens, FILE or FILE-wal beside it has these or those. Its next round begins, as by `roll`.
Status: 0 done, 2 bad words or a line that is no command, 3 a read failed, 4 want of memory, 5 the log has no
store or it can't be rolled, 6 where another process has the log, 7 where it is none, is damaged, can't be read or a
write failed, 8 where a sync failed, 9 where its lines aren't those that were written or have other answers now.
Example:
  snap_replay checkpoint store.log"#;

// The same for `diff`.
const DIFF_HELP: &str =
    r#"Carries out the lines of two files as check does, one file after the other, and compares what their stores have.
Out: a line for each namespace, snapshot or lease that one store alone has, or that differs in some fields:
charged, limit; kind, labels, parent, usage; names, until; with --json an object. What is in layers isn't compared.
Status: 0 where they differ in nothing, 1 where they differ, else that of check for the file that standard error
names.
Example:
  snap_replay diff store.log saved.jsonl"#;

// An option that is given or not.
fn flag<'a>(alloc: Global, name: &'a str, help: &'a str) -> Arg<'a>
    ensures { IsOption (flag name.entry.now) result }
{
    Arg::new(alloc, name)
        .long(name)
        .help(help)
        .action(ArgAction::SetTrue)
}

// An option with a value, of which help says this.
fn valued<'a>(alloc: Global, name: &'a str, value: &'a str, help: &'a str) -> Arg<'a>
    ensures { IsOption (valued name.entry.now) result }
{
    Arg::new(alloc, name)
        .long(name)
        .value_name(value)
        .help(help)
        .action(ArgAction::Set)
}

// The command `run`.
fn run_command<'a>(alloc: Global) -> Result<Command<'a>, Error>
    ensures declared { IfOk result (IsDeclared run_shape) }
    ensures refused { IfErr result (λ e. kind_of e ≡ OutOfMemory) }
{
    let strict = flag(
        alloc,
        STRICT,
        "A field that a command doesn't have is a fault",
    );
    let stop = flag(alloc, STOP, "Ends at the first refusal, with status 5");
    let run = Command::new(alloc, "run")
        .about("Replays a script: reads a command a line, writes an answer a line")
        .after_help(RUN_HELP)
        .arg(strict)?
        .arg(stop)?;
    Ok(run)
}

// The option that says how many workers there are.
fn workers_option<'a>(alloc: Global) -> Arg<'a>
    ensures { IsOption (wanted_number (codes "workers")) result }
{
    valued(
        alloc,
        WORKERS,
        "N",
        "How many threads run the jobs, 1 to 16",
    )
    .required(true)
    .value_parser(value_parser!(u32).range(1..=MAX_WORKERS as i64))
}

// The command `writers`.
fn writers_command<'a>(alloc: Global) -> Result<Command<'a>, Error>
    ensures declared { IfOk result (IsDeclared writers_shape) }
    ensures refused { IfErr result (λ e. kind_of e ≡ OutOfMemory) }
{
    let ends = flag(alloc, ENDS, "Writes a line for each job: how it ended");
    let strict = flag(
        alloc,
        STRICT,
        "A field that a job or an operation doesn't have is a fault",
    );
    let writers = Command::new(alloc, "writers")
        .about("Runs jobs on threads: reads a store and jobs, writes one line at the end")
        .after_help(WRITERS_HELP)
        .arg(workers_option(alloc))?
        .arg(ends)?
        .arg(strict)?;
    Ok(writers)
}

// The option by which a log's marks are compared anew, which needs a log.
fn rebase_option<'a>(alloc: Global) -> Result<Arg<'a>, Error>
    ensures declared { IfOk result (IsOption (beside_another (flag (codes "rebase")))) }
    ensures refused { IfErr result (λ e. kind_of e ≡ OutOfMemory) }
{
    let rebase = flag(
        alloc,
        REBASE,
        "Takes the log's lines as they are, with the answers that they have now",
    );
    Ok(rebase.requires_arg(LOG)?)
}

// The option that says how far a log grows before it is made short, which needs a log.
fn times_option<'a>(alloc: Global) -> Result<Arg<'a>, Error>
    ensures declared { IfOk result (IsOption (beside_another (number_to (codes "checkpoint") 1000000))) }
    ensures refused { IfErr result (λ e. kind_of e ≡ OutOfMemory) }
{
    let times = valued(
        alloc,
        TIMES,
        "N",
        "Makes the log short where it has grown to N times what it had, of at least 1 MiB (4); 0 never does",
    )
    .value_parser(value_parser!(u32).range(0..=MAX_TIMES as i64));
    Ok(times.requires_arg(LOG)?)
}

// The command `serve`, but for one option.
fn kept_command<'a>(alloc: Global) -> Result<Command<'a>, Error>
    ensures declared { IfOk result (IsDeclared kept_shape) }
    ensures refused { IfErr result (λ e. kind_of e ≡ OutOfMemory) }
{
    let log = valued(
        alloc,
        LOG,
        "FILE",
        "Keeps each line that changes the store in this file before it is answered, and begins with those there",
    );
    let kept = Command::new(alloc, "serve")
        .about(
            "Serves a client: reads a command a line, answers every line and goes on after faults",
        )
        .after_help(SERVE_HELP)
        .arg(log)?
        .arg(rebase_option(alloc)?)?;
    Ok(kept)
}

// The command `serve`.
fn serve_command<'a>(alloc: Global) -> Result<Command<'a>, Error>
    ensures declared { IfOk result (IsDeclared serve_shape) }
    ensures refused { IfErr result (λ e. kind_of e ≡ OutOfMemory) }
{
    let serve = kept_command(alloc)?.arg(times_option(alloc)?)?;
    Ok(serve)
}

// A word that has to be there, of which help says this.
fn wanted_place<'a>(alloc: Global, name: &'a str, value: &'a str, help: &'a str) -> Arg<'a>
    ensures { IsOption (wanted_place name.entry.now) result }
{
    Arg::new(alloc, name)
        .value_name(value)
        .help(help)
        .required(true)
        .action(ArgAction::Set)
}

// The file that has to be named.
fn file_argument<'a>(alloc: Global) -> Arg<'a>
    ensures { IsOption (wanted_place (codes "file")) result }
{
    wanted_place(alloc, FILE, "FILE", "A log or a saved store")
}

// The command `save`.
fn save_command<'a>(alloc: Global) -> Result<Command<'a>, Error>
    ensures declared { IfOk result (IsDeclared save_shape) }
    ensures refused { IfErr result (λ e. kind_of e ≡ OutOfMemory) }
{
    let root = valued(alloc, ROOT, "ROOT", "The store's root in place of its own");
    let namespace = valued(
        alloc,
        NAMESPACE,
        "NS",
        "Writes this namespace alone, with its snapshots and leases",
    );
    let save = Command::new(alloc, "save")
        .about("Moves a store or a namespace: writes the lines that make it anew")
        .after_help(SAVE_HELP)
        .arg(file_argument(alloc))?
        .arg(root)?
        .arg(namespace)?;
    Ok(save)
}

// The command `check`.
fn check_command<'a>(alloc: Global) -> Result<Command<'a>, Error>
    ensures declared { IfOk result (IsDeclared check_shape) }
    ensures refused { IfErr result (λ e. kind_of e ≡ OutOfMemory) }
{
    let json = flag(alloc, JSON, "Writes an object of JSON");
    let check = Command::new(alloc, "check")
        .about("Tells whether a log or a saved store is whole, and what it has")
        .after_help(CHECK_HELP)
        .arg(file_argument(alloc))?
        .arg(json)?;
    Ok(check)
}

// The command `checkpoint`.
fn checkpoint_command<'a>(alloc: Global) -> Result<Command<'a>, Error>
    ensures declared { IfOk result (IsDeclared checkpoint_shape) }
    ensures refused { IfErr result (λ e. kind_of e ≡ OutOfMemory) }
{
    let checkpoint = Command::new(alloc, "checkpoint")
        .about("Makes a log short: lets the lines of its store take the place of all others")
        .after_help(CHECKPOINT_HELP)
        .arg(file_argument(alloc))?;
    Ok(checkpoint)
}

// The two files that have to be named.
fn a_argument<'a>(alloc: Global) -> Arg<'a>
    ensures { IsOption (wanted_place (codes "a")) result }
{
    wanted_place(alloc, A, "A", "A log or a saved store")
}

fn b_argument<'a>(alloc: Global) -> Arg<'a>
    ensures { IsOption (wanted_place (codes "b")) result }
{
    wanted_place(alloc, B, "B", "Another one")
}

// The command `diff`.
fn diff_command<'a>(alloc: Global) -> Result<Command<'a>, Error>
    ensures declared { IfOk result (IsDeclared diff_shape) }
    ensures refused { IfErr result (λ e. kind_of e ≡ OutOfMemory) }
{
    let json = flag(alloc, JSON, "Writes an object of JSON");
    let diff = Command::new(alloc, "diff")
        .about("Tells in what the stores of two logs or saved stores differ")
        .after_help(DIFF_HELP)
        .arg(a_argument(alloc))?
        .arg(b_argument(alloc))?
        .arg(json)?;
    Ok(diff)
}

// The program's commands.
fn command<'a>(alloc: Global) -> Result<Command<'a>, Error>
    ensures declared { IfOk result (λ c. app_of c ≡ program) }
    ensures refused { IfErr result (λ e. kind_of e ≡ OutOfMemory) }
{
    let program = Command::new(alloc, "snap_replay")
        .about("A container snapshotter with an exact usage ledger")
        .version(VERSION)
        .subcommand_required(true)
        .subcommand(run_command(alloc)?)?
        .subcommand(serve_command(alloc)?)?
        .subcommand(writers_command(alloc)?)?
        .subcommand(save_command(alloc)?)?
        .subcommand(check_command(alloc)?)?
        .subcommand(checkpoint_command(alloc)?)?
        .subcommand(diff_command(alloc)?)?;
    Ok(program)
}

// What clap finds in the words, the program's name first, or its refusal of them. A call for help or for the version is
// a refusal too. Takes memory.
fn matches_of<'a>(alloc: Global, words: &'a [String]) -> Result<ArgMatches<'a>, Error>
    ensures found { IfOk result (λ matches. subcommand_rows_of matches ≡ command_found (map string_bytes words.now)) }
    ensures refused { IfErr result (λ e. are_words_taken (map string_bytes words.now) ≡ true → kind_of e ≡ OutOfMemory) }
{
    Ok(command(alloc)?.try_get_matches_from(words)?)
}

// Whether the option is given.
fn is_given(name: &str, words: &ArgMatches<'_>) -> bool
    ensures { result ≡ is_given name.now (rows_of (found_of words.now)) }
{
    words.get_one::<bool>(name).unwrap_or(false)
}

// Which fields the words let a line have.
fn field_rule(words: &ArgMatches<'_>) -> FieldRule
    ensures { result ≡ field_rule_of (rows_of (found_of words.now)) }
{
    if is_given(STRICT, words) {
        FieldRule::Known
    } else {
        FieldRule::Any
    }
}

// How the words want a script to be run.
fn run_options(words: &ArgMatches<'_>) -> RunOptions
    ensures { result ≡ run_options_of (rows_of (found_of words.now)) }
{
    RunOptions {
        fields: field_rule(words),
        stops_at_refusal: is_given(STOP, words),
    }
}

// The jobs' options, where the words have a number of workers.
fn job_options(words: &ArgMatches<'_>) -> Option<JobOptions>
    ensures { (number : Option ℕ) × (IsNumberOf (one_of (codes "workers") (rows_of (found_of words.now))) number × (option_map Writers result ≡ writers_of number (rows_of (found_of words.now)))) }
{
    let workers = words.get_one::<u32>(WORKERS)?;
    if workers < 1 || workers > MAX_WORKERS {
        return None;
    }
    Some(JobOptions {
        workers,
        ends: is_given(ENDS, words),
        fields: field_rule(words),
    })
}

// How far a log grows before it is made short.
fn times(words: &ArgMatches<'_>) -> u32
    ensures { IsTimesOf (rows_of (found_of words.now)) result }
{
    words.get_one::<u32>(TIMES).unwrap_or(DEFAULT_TIMES)
}

// The task, where the words have one; those that clap has let through do.
fn chosen<'a>(matches: &'a ArgMatches<'_>) -> Option<Task<'a>>
    ensures asked { IsAsked (subcommand_rows_of matches.now) result }
    ensures task { IfSome result IsTask }
{
    let (name, own) = matches.subcommand()?;
    match name {
        "run" => Some(Task::Run {
            options: run_options(own),
        }),
        "serve" => Some(Task::Serve {
            log: own.get_str(LOG),
            rebases: is_given(REBASE, own),
            times: times(own),
        }),
        "writers" => {
            let options = job_options(own)?;
            Some(Task::Writers { options })
        }
        "save" => {
            let file = own.get_str(FILE)?;
            let wanted = Wanted {
                root: own.get_str(ROOT),
                namespace: own.get_str(NAMESPACE),
            };
            Some(Task::Save { file, wanted })
        }
        "check" => {
            let file = own.get_str(FILE)?;
            Some(Task::Check {
                file,
                json: is_given(JSON, own),
            })
        }
        "checkpoint" => {
            let file = own.get_str(FILE)?;
            Some(Task::Checkpoint { file })
        }
        "diff" => {
            let a = own.get_str(A)?;
            let b = own.get_str(B)?;
            Some(Task::Diff {
                a,
                b,
                json: is_given(JSON, own),
            })
        }
        _ => None,
    }
}

// Does what is asked for, over these streams.
#[tactic(auto, using(crate::proofs::Acting::run_done, crate::proofs::Acting::serve_done, crate::proofs::Acting::jobs_done))]
fn done<T: Threads + Wait + Sync + Eprint + AllocGlobal, R: Read, W: Write>(
    rt: &T,
    files: &HostRuntime,
    input: &mut R,
    output: &mut W,
    task: Option<Task<'_>>,
) -> u8
    requires { IfSome task IsTask }
    ensures { IfSome (R.remaining input.old) (λ bytes. HasDone task.entry bytes (R.remaining input.new) result (W.contents output.old) (W.contents output.new)) }
{
    let alloc = rt.alloc();
    match task {
        Some(Task::Run { options }) => status(rt, replay_from(alloc, input, output, options)),
        Some(Task::Serve { log: None, .. }) => status(rt, serve_from(alloc, input, output)),
        Some(
            Task::Serve {
                log: Some(path),
                rebases,
                times,
            },
        ) => log_status(
            rt,
            serve_file(files, path, rebases, times as u64, input, output),
        ),
        Some(Task::Writers { options }) => {
            status(rt, jobs_from(rt, alloc, input, output, options))
        }
        Some(Task::Save { file, wanted }) => log_status(rt, save_file(files, file, wanted, output)),
        Some(Task::Check { file, json }) => log_status(rt, check_file(files, file, json, output)),
        Some(Task::Checkpoint { file }) => log_status(rt, checkpoint_file(files, file)),
        Some(Task::Diff { a, b, json }) => {
            diff_status(rt, diff_files(files, a, b, json, output))
        }
        None => {
            let _ = rt.eprintln("error: no command");
            BAD_WORDS
        }
    }
}

// The status of words that clap refuses; its text goes to standard error, or to standard output where they call for it.
fn refused<T: Print + Eprint>(rt: &T, error: &Error) -> u8
    ensures { IsRefusalStatus (kind_of error.now) result }
{
    match error.kind() {
        WordsErrorKind::OutOfMemory => status(rt, Err(Ended::WantOfMemory)),
        WordsErrorKind::DisplayHelp | WordsErrorKind::DisplayVersion => match rt.print(error) {
            Ok(()) => 0,
            Err(_) => status(rt, Err(Ended::Stopped(JobsStop::Lines(Stop::OutputFailed)))),
        },
        WordsErrorKind::InvalidValue
        | WordsErrorKind::UnknownArgument
        | WordsErrorKind::InvalidSubcommand
        | WordsErrorKind::NoEquals
        | WordsErrorKind::ValueValidation
        | WordsErrorKind::TooManyValues
        | WordsErrorKind::TooFewValues
        | WordsErrorKind::WrongNumberOfValues
        | WordsErrorKind::ArgumentConflict
        | WordsErrorKind::MissingRequiredArgument
        | WordsErrorKind::MissingSubcommand
        | WordsErrorKind::DisplayHelpOnMissingArgumentOrSubcommand
        | WordsErrorKind::Io
        | WordsErrorKind::Format => {
            let _ = rt.eprint(error);
            BAD_WORDS
        }
    }
}

// Does what the words ask for, over these streams.
#[tactic(auto, using(crate::proofs::Acting::acted, crate::proofs::Acting::words_refused))]
fn run<T: Threads + Wait + Sync + Print + Eprint + AllocGlobal, R: Read, W: Write>(
    rt: &T,
    files: &HostRuntime,
    words: &[String],
    input: &mut R,
    output: &mut W,
) -> u8
    ensures { IfSome (R.remaining input.old) (λ bytes. HasActed (map string_bytes words.now) bytes (R.remaining input.new) result (W.contents output.old) (W.contents output.new)) }
{
    match matches_of(rt.alloc(), words) {
        Ok(matches) => done(rt, files, input, output, chosen(&matches)),
        Err(error) => refused(rt, &error),
    }
}

fn main(rt: HostRuntime) -> ExitCode {
    let words = match words_of(&rt) {
        Ok(words) => words,
        Err(status) => return ExitCode::from(status),
    };
    let mut input = rt.reader();
    let Ok(mut output) = BufWriter::new(rt.alloc(), io::writer(&rt)) else {
        return ExitCode::from(status(&rt, Err(Ended::WantOfMemory)));
    };
    ExitCode::from(run(&rt, &rt, words.as_slice(), &mut input, &mut output))
}
