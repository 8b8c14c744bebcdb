// `check` of a log or of the lines of a saved store, in a file.
ghost use Rattle.std.specs.Prelude.{◌≡◌};

use crate::logged::{LogStop, file_stop, open_log};
use snap_durable::{
    Contents, FileKind, FromNamespace, Holding, ReplayError, Told, begins_saved, check_log,
    check_saved,
};
use snap_lines::{Stop, write_bytes};
use snap_record::Text;
use std::alloc::Global;
use std::io::{Read, Write};
use std::{fmt, fs};

// The most bytes by which a file is taken for a log or for a saved store.
const HEAD: usize = 65_536;

// What was found in a file: what the store has, and why the file isn't whole.
pub(crate) struct Found<H> {
    pub(crate) contents: Option<Contents<H>>,
    pub(crate) stop: Option<LogStop>,
}

// The first bytes of a file.
fn read_head<R: Read>(alloc: Global, file: &mut R) -> Result<Vec<u8>, LogStop> {
    let mut head = match vec![in alloc; 0u8; HEAD] {
        Ok(head) => head,
        Err(_) => return Err(LogStop::WantOfMemory),
    };
    let mut filled = 0;
    'reads: for _ in 0..HEAD {
        match file.read(&mut head[filled..]) {
            Ok(0) => break 'reads,
            Ok(n) => filled += n,
            Err(error) => return Err(file_stop(error)),
        }
    }
    head.truncate(filled);
    Ok(head)
}

// A log, unless it has at most one byte: then there is no line, and the file isn't opened to be one.
fn check_log_in<H: FromNamespace + Drop>(
    rt: &HostRuntime,
    path: &str,
    head: &[u8],
) -> Result<Found<H>, LogStop> {
    if head.len() <= 1 {
        return Ok(Found {
            contents: None,
            stop: None,
        });
    }
    let mut log = match open_log(rt, path) {
        Ok(log) => log,
        Err(LogStop::Refused(why)) => return Ok(Found {
            contents: None,
            stop: Some(LogStop::Refused(why)),
        }),
        Err(stop) => return Err(stop),
    };
    match check_log(rt.alloc(), &mut log) {
        Ok(checked) => {
            let stop = if checked.is_whole {
                None
            } else {
                Some(LogStop::Differs(checked.sums))
            };
            Ok(Found {
                contents: checked.contents,
                stop,
            })
        }
        Err(ReplayError::Io(error)) => Err(file_stop(error)),
        Err(ReplayError::Stopped(stop)) => Err(LogStop::Lines(stop)),
    }
}

// The lines of a saved store.
fn check_saved_in<H: FromNamespace + Drop, R: Read>(
    alloc: Global,
    file: &mut R,
) -> Result<Found<H>, LogStop> {
    match check_saved(alloc, file) {
        Ok(Some(contents)) => Ok(Found {
            contents: Some(contents),
            stop: None,
        }),
        Ok(None) => Ok(Found {
            contents: None,
            stop: Some(LogStop::NoEnd),
        }),
        Err(Stop::Line(fault)) => Ok(Found {
            contents: None,
            stop: Some(LogStop::Lines(Stop::Line(fault))),
        }),
        Err(stop) => Err(LogStop::Lines(stop)),
    }
}

// The file that is there.
pub(crate) fn open_file(rt: &HostRuntime, path: &str) -> Result<fs::File, LogStop> {
    match fs::open(rt, path) {
        Ok(file) => Ok(file),
        Err(error) => Err(file_stop(error)),
    }
}

// The kind of a file, and its first bytes.
pub(crate) fn kind_in(rt: &HostRuntime, path: &str) -> Result<(FileKind, Vec<u8>), LogStop> {
    let alloc = rt.alloc();
    let mut file = open_file(rt, path)?;
    let head = read_head(alloc, &mut file)?;
    // A lock that another handle of this process has goes with it.
    drop(file);
    match begins_saved(alloc, head.as_slice()) {
        Ok(true) => Ok((FileKind::Saved, head)),
        Ok(false) => Ok((FileKind::Log, head)),
        Err(_) => Err(LogStop::WantOfMemory),
    }
}

// The kind of a file, and what was found in it.
pub(crate) fn check_in<H: FromNamespace + Drop>(
    rt: &HostRuntime,
    path: &str,
) -> Result<(FileKind, Found<H>), LogStop> {
    let (kind, head) = kind_in(rt, path)?;
    let found = match kind {
        FileKind::Saved => {
            let mut file = open_file(rt, path)?;
            check_saved_in(rt.alloc(), &mut file)?
        }
        FileKind::Log => check_log_in(rt, path, head.as_slice())?,
    };
    Ok((kind, found))
}

// The words for why a file isn't whole.
fn words_of(alloc: Global, stop: &Option<LogStop>) -> Result<Option<Text>, LogStop> {
    let Some(stop) = stop else {
        return Ok(None);
    };
    let Ok(words) = format!(in alloc; "{stop}") else {
        return Err(LogStop::WantOfMemory);
    };
    match Text::copy_of(alloc, words.as_str()) {
        Ok(text) => Ok(Some(text)),
        Err(_) => Err(LogStop::WantOfMemory),
    }
}

// Has what was written reach the stream.
pub(crate) fn flush<W: Write>(output: &mut W) -> Result<(), LogStop> {
    match output.flush() {
        Ok(()) => Ok(()),
        Err(_) => Err(LogStop::Lines(Stop::OutputFailed)),
    }
}

// Writes these bytes, which nothing follows.
pub(crate) fn write_out<W: Write>(bytes: &[u8], output: &mut W) -> Result<(), LogStop> {
    if let Err(stop) = write_bytes(output, bytes) {
        return Err(LogStop::Lines(stop));
    }
    flush(output)
}

// Writes what was found: a line of JSON, or lines for people.
fn write_found<W: Write>(
    alloc: Global,
    kind: FileKind,
    why: Option<Text>,
    contents: Option<Contents<Holding>>,
    json: bool,
    output: &mut W,
) -> Result<(), LogStop> {
    let told = Told {
        kind,
        why,
        contents,
    };
    let text = if json {
        told.line(alloc)
    } else {
        format!(in alloc; "{told}")
    };
    let Ok(text) = text else {
        return Err(LogStop::WantOfMemory);
    };
    write_out(text.as_bytes(), output)
}

// Checks the log or the saved store in a file, and writes what it has. The error is why it isn't whole, or why that
// isn't known.
pub(crate) fn check_file<W: Write>(
    rt: &HostRuntime,
    path: &str,
    json: bool,
    output: &mut W,
) -> Result<(), LogStop> {
    let alloc = rt.alloc();
    let (kind, found) = check_in(rt, path)?;
    let Found { contents, stop } = found;
    let why = words_of(alloc, &stop)?;
    write_found(alloc, kind, why, contents, json, output)?;
    match stop {
        Some(stop) => Err(stop),
        None => Ok(()),
    }
}
