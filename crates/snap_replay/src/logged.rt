// `serve` over a log in a file.
ghost use Rattle.std.specs.Prelude.{◌≡◌, IfSome, OnOk};
ghost use Rattle.snap_replay.specs.Logged.{HasServedOver, HasServedOverPair, HasServedShort, log_status_of};

use snap_call::Refusal;
use snap_durable::{
    Ended, ReplayError, ServedPair, Unserved, UnservedFiles, serve_and_shorten, serve_log,
    serve_pair,
};
use snap_lines::Stop;
use snap_log::{Log, OpenError};
use snap_marks::{Difference, Differs, Sums};
use snap_pair::Pair;
use snap_world::RestoreFault;
use sqlite_disk::{Disk, Files};
use sqlite_std_file::{FileFrom, OpenError as FileError, Wary, open};
use std::alloc::Global;
use std::io::{Read, Write};
use std::{fmt, io};

// Why a server over a log ended before the end of its input.
#[derive(Drop)]
pub(crate) enum LogStop {
    // Its lines' run stopped.
    Lines(Stop),
    // A library was refused memory, and keeps the allocator's error to itself.
    WantOfMemory,
    // Another process has the log.
    Busy,
    // A call of the file failed.
    Io(io::Error),
    // The file is no log, or a damaged one.
    Refused(OpenError),
    // A sync failed, so that it is unknown whether the log has the lines of the last read.
    Unknown(io::Error),
    // A mark of the log doesn't agree with its lines or with their answers, or the last line is no mark.
    Differs(Sums),
    // The last line of a saved store is missing.
    NoEnd,
    // The log's lines open no store.
    NoStore,
    // Its store can't be rolled to as many entries.
    NoRoll(Refusal),
    // A line of its store would have more than 16 MiB.
    TooLong,
    // Its store has no namespace of this name.
    NoNamespace,
    // No store can have this root.
    BadRoot,
    // No store can be made of what moves.
    Unfit(RestoreFault),
    // Such a store has not the same.
    Changed,
}

impl LogStop {
    // The status of a program that ends with it.
    pub(crate) fn status(&self) -> u8
        ensures { result ≡ log_status_of self.now }
    {
        match self {
            LogStop::Lines(stop) => stop.status(),
            LogStop::WantOfMemory => 4,
            LogStop::BadRoot => 2,
            LogStop::NoEnd | LogStop::NoStore | LogStop::NoRoll(_) | LogStop::TooLong => 5,
            LogStop::NoNamespace | LogStop::Unfit(_) | LogStop::Changed => 5,
            LogStop::Busy => 6,
            LogStop::Io(_) | LogStop::Refused(_) => 7,
            LogStop::Unknown(_) => 8,
            LogStop::Differs(_) => 9,
        }
    }
}

// What the marks of a log tell: the first that differs, or that none stands behind its last lines.
fn write_difference<W: fmt::Write>(f: &mut fmt::Formatter<W>, sums: &Sums) -> fmt::Result {
    let from = sums.agreed.saturating_add(1);
    match sums.differs {
        Some(
            Difference {
                line,
                what: Differs::Lines,
            },
        ) => write!(
            f,
            "lines {from} to {line} of the log aren't those that were written"
        ),
        Some(
            Difference {
                line,
                what: Differs::Answers,
            },
        ) => write!(
            f,
            "the lines of the log up to the mark before line {line} have other answers now than when they were written"
        ),
        None => write!(f, "no mark stands behind the log's lines from {from} on"),
    }
}

impl fmt::Display for LogStop {
    fn fmt<W: fmt::Write>(&self, f: &mut fmt::Formatter<W>) -> fmt::Result {
        match self {
            LogStop::Lines(stop) => write!(f, "{stop}"),
            LogStop::WantOfMemory => f.write_str("want of memory"),
            LogStop::Busy => f.write_str("another process has the log"),
            LogStop::Io(error) => write!(f, "the log failed: {error}"),
            LogStop::Refused(why) => write!(f, "{why}"),
            LogStop::Unknown(error) => write!(
                f,
                "a sync of the log failed, start again to know what it has: {error}"
            ),
            LogStop::Differs(sums) => {
                write_difference(f, sums)?;
                f.write_str("; --rebase takes them as they are")
            }
            LogStop::NoEnd => f.write_str("the last line of the saved store is missing"),
            LogStop::NoStore => f.write_str("the log has no store"),
            LogStop::NoRoll(why) => write!(f, "no next round begins: {why}"),
            LogStop::TooLong => f.write_str("a line of the store would have more than 16 MiB"),
            LogStop::NoNamespace => f.write_str("the store has no namespace of this name"),
            LogStop::BadRoot => f.write_str("no store can have this root"),
            LogStop::Unfit(fault) => write!(f, "no store can be made of it: {fault}"),
            LogStop::Changed => f.write_str("the store made of it has not the same"),
        }
    }
}

// A call of the file failed, or memory was refused on its way.
pub(crate) fn file_stop(error: io::Error) -> LogStop {
    if error.kind() == io::ErrorKind::OutOfMemory {
        LogStop::WantOfMemory
    } else {
        LogStop::Io(error)
    }
}

// Why not all lines were answered.
fn unserved<D: Disk + Drop>(why: Unserved<D>) -> LogStop {
    match why {
        Unserved::Replay(_, error) => match error {
            ReplayError::Io(error) => file_stop(error),
            ReplayError::Stopped(stop) => LogStop::Lines(stop),
        },
        Unserved::Differs(_, sums) => LogStop::Differs(sums),
        Unserved::NotRebased(_, error) => file_stop(error),
        Unserved::Ended(ended) => match ended {
            Ended::Stopped(_, stop) => LogStop::Lines(stop),
            Ended::Unknown(_, error) => LogStop::Unknown(error),
        },
    }
}

// Serves the lines of an input over a log.
fn lines_over<D: Disk + Drop, R: Read, W: Write>(
    alloc: Global,
    log: Log<D>,
    rebases: bool,
    input: &mut R,
    output: &mut W,
) -> Result<(), LogStop>
    ensures { OnOk result (IfSome (R.remaining input.old) (λ bytes. HasServedOver rebases bytes log (W.contents output.old) (W.contents output.new))) }
{
    match serve_log(alloc, log, rebases, input, output) {
        Ok(_) => Ok(()),
        Err(why) => Err(unserved(why)),
    }
}

// Serves them over a log in two files.
fn lines_over_pair<D: Disk + Drop, R: Read, W: Write>(
    alloc: Global,
    pair: Pair<D>,
    rebases: bool,
    input: &mut R,
    output: &mut W,
) -> Result<(), LogStop>
    ensures { OnOk result (IfSome (R.remaining input.old) (λ bytes. HasServedOverPair rebases bytes pair (W.contents output.old) (W.contents output.new))) }
{
    let ServedPair { served, .. } = serve_pair(alloc, pair, rebases, input, output);
    match served {
        Ok(_) => Ok(()),
        Err(why) => Err(unserved(why)),
    }
}

// Serves them over a log in two files, which is made short where it has grown to so many times what it had.
fn lines_over_files<D: Disk + Drop, R: Read, W: Write>(
    alloc: Global,
    pair: Pair<D>,
    rebases: bool,
    times: u64,
    input: &mut R,
    output: &mut W,
) -> Result<(), LogStop>
    ensures { OnOk result (IfSome (R.remaining input.old) (λ bytes. HasServedShort rebases bytes pair (W.contents output.old) (W.contents output.new))) }
{
    match serve_and_shorten(alloc, pair, rebases, times, input, output) {
        Ok(_) => Ok(()),
        Err(UnservedFiles::Replay(_, error)) => match error {
            ReplayError::Io(error) => Err(file_stop(error)),
            ReplayError::Stopped(stop) => Err(LogStop::Lines(stop)),
        },
        Err(UnservedFiles::Differs(_, sums)) => Err(LogStop::Differs(sums)),
        Err(UnservedFiles::NotRebased(_, error)) => Err(file_stop(error)),
        Err(UnservedFiles::Stopped(_, stop)) => Err(LogStop::Lines(stop)),
        Err(UnservedFiles::Unknown(_, _, error)) => Err(LogStop::Unknown(error)),
    }
}

// Why the files were not opened.
fn files_stop(error: FileError) -> LogStop {
    match error {
        FileError::Busy => LogStop::Busy,
        FileError::OutOfMemory => LogStop::WantOfMemory,
        FileError::HotJournal => LogStop::Refused(OpenError::NotALog),
        FileError::Io(error) => file_stop(error),
    }
}

// Why a file was not opened as a log.
fn unopened(why: OpenError) -> LogStop {
    match why {
        OpenError::Io(error) => file_stop(error),
        OpenError::NotALog | OpenError::Damaged { .. } => LogStop::Refused(why),
    }
}

// The log in a file and in the one beside it, which are made where there are none.
pub(crate) fn open_pair(rt: &HostRuntime, path: &str) -> Result<Pair<FileFrom<Wary>>, LogStop> {
    let Files { log, db } = match open(rt, path, Wary) {
        Ok(files) => files,
        Err(error) => return Err(files_stop(error)),
    };
    match Pair::open(db, log) {
        Ok(pair) => Ok(pair),
        Err(failed) => Err(unopened(failed.why)),
    }
}

// A log in a file, or also in the one beside it.
#[derive(Drop)]
enum Opened {
    // The other file has no byte, and so no line.
    Alone(Log<FileFrom<Wary>>),
    Pair(Pair<FileFrom<Wary>>),
}

// The log in a file, which is made where there is none, also in the one beside it where that has a byte.
fn open_either(rt: &HostRuntime, path: &str) -> Result<Opened, LogStop> {
    let Files { mut log, db } = match open(rt, path, Wary) {
        Ok(files) => files,
        Err(error) => return Err(files_stop(error)),
    };
    match log.len() {
        Ok(0) => match Log::open(db) {
            Ok(log) => Ok(Opened::Alone(log)),
            Err(failed) => Err(unopened(failed.why)),
        },
        Ok(_) => match Pair::open(db, log) {
            Ok(pair) => Ok(Opened::Pair(pair)),
            Err(failed) => Err(unopened(failed.why)),
        },
        Err(error) => Err(file_stop(error)),
    }
}

// The log that counts.
pub(crate) fn open_log(rt: &HostRuntime, path: &str) -> Result<Log<FileFrom<Wary>>, LogStop> {
    match open_either(rt, path)? {
        Opened::Alone(log) => Ok(log),
        Opened::Pair(pair) => Ok(pair.split().counting),
    }
}

// Serves the lines of an input over the log in a file and in the one beside it. Where its marks differ, it does so only
// if it rebases. Where the log is never made short, the other file is one of both only where that has a byte.
pub(crate) fn serve_file<R: Read, W: Write>(
    rt: &HostRuntime,
    path: &str,
    rebases: bool,
    times: u64,
    input: &mut R,
    output: &mut W,
) -> Result<(), LogStop> {
    if times > 0 {
        let pair = open_pair(rt, path)?;
        return lines_over_files(rt.alloc(), pair, rebases, times, input, output);
    }
    match open_either(rt, path)? {
        Opened::Alone(log) => lines_over(rt.alloc(), log, rebases, input, output),
        Opened::Pair(pair) => lines_over_pair(rt.alloc(), pair, rebases, input, output),
    }
}
