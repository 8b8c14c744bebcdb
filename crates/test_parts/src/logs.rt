// Logs of lines: which files are one, what is in a file, and a disk that stops at each of its calls.
ghost use Rattle.std.specs.Prelude.{IsTrue};
ghost use Rattle.sqlite_disk.specs.Memory.{memory_is_usable};

use crate::setup::{equal, holds};
use snap_log::{AppendFailed, Lines, Log, OpenError, OpenFailed};
use sqlite_disk::{Crash, Disk, Files, Fuse, Memory};
use sqlite_std_file::{OpenError as FileError, Wary, open};
use std::fs;
use std::process::Abort;
use std::test::Fail;

const FIRST: &str = r#"{"a":1}"#;

const SECOND: &str = r#"{"b":2}"#;

// These lines, each of which is one.
fn lines<R: Abort + AllocGlobal>(rt: &R, texts: &[&str]) -> Lines {
    let mut lines = Lines::new(rt.alloc());
    for text in texts {
        let is_added = lines.push(text.as_bytes()).expect(rt, "memory for a line");
        holds(rt, is_added);
    }
    lines
}

// A file in memory that has these bytes.
fn file<R: Abort + AllocGlobal>(rt: &R, bytes: &[u8]) -> Memory
    ensures { IsTrue (memory_is_usable result) }
{
    let mut file = Memory::new(rt.alloc());
    file.write_at(0, bytes).expect(rt, "memory for a file");
    file.sync().expect(rt, "memory for a file");
    holds(rt, file.may_be_used());
    file
}

// Adds lines, and tells whether they were acknowledged.
fn add<D: Disk + Drop>(log: Log<D>, lines: &Lines) -> (D, bool) {
    match log.append(lines.as_slice()) {
        Ok(log) => (log.into_disk(), true),
        Err(AppendFailed::NotKept(log, _)) => (log.into_disk(), false),
        Err(AppendFailed::Unknown(disk, _)) => (disk, false),
    }
}

#[test]
fn a_line_and_its_feed(rt: HostRuntime) {
    let mut lines = Lines::new(rt.alloc());
    for odd in [b"".as_slice(), b" {}", b"[]", b"{}\n{}"] {
        let is_added = lines.push(odd).expect(&rt, "memory for a line");
        holds(&rt, !is_added);
    }
    let is_added = lines.push(b"{}").expect(&rt, "memory for a line");
    holds(&rt, is_added);
    equal(&rt, lines.as_slice(), b"{}\n".as_slice());
}

#[test]
fn the_length_of_a_log(rt: HostRuntime) {
    let mut lines = Lines::new(rt.alloc());
    let is_added = lines.push(b"{}").expect(&rt, "memory for a line");
    prove!(is_added);
    let Ok(log) = Log::open(Memory::new(rt.alloc())) else {
        panic!(&rt; "a new file");
    };
    let len = log.len();
    prove!(len == 0);
    let Ok(log) = log.append(lines.as_slice()) else {
        panic!(&rt; "a line");
    };
    let len = log.len();
    prove!(len == 3);
}

#[test]
fn the_bytes_of_a_log(rt: HostRuntime) {
    let Ok(log) = Log::open(Memory::new(rt.alloc())) else {
        panic!(&rt; "a new file");
    };
    let Ok(log) = log.append(lines(&rt, &[FIRST]).as_slice()) else {
        panic!(&rt; "the first line");
    };
    let Ok(log) = log.append(lines(&rt, &[SECOND, FIRST]).as_slice()) else {
        panic!(&rt; "two lines");
    };
    equal(&rt, log.len(), 24);
    let file = log.into_disk();
    equal(
        &rt,
        file.bytes(),
        b"{\"a\":1}\n{\"b\":2}\n{\"a\":1}\n ".as_slice(),
    );
}

#[test]
fn files_that_are_logs(rt: HostRuntime) {
    let logs = [
        (b"".as_slice(), 0),
        (b"{", 0),
        (b"x", 0),
        (b"\0", 0),
        (b"\0{}\n\0", 0),
        (b"{}\n ", 3),
        (b"{}\n {}\n", 3),
        (b"{}\n{\"a\":\"\0\"}\n ", 13),
    ];
    for (bytes, len) in logs {
        let Ok(log) = Log::open(file(&rt, bytes)) else {
            panic!(&rt; "a log");
        };
        equal(&rt, log.len(), len);
    }
}

#[test]
fn files_that_are_none(rt: HostRuntime) {
    // The byte behind the lines, or none where there is no line.
    let others = [
        (b"hello\n".as_slice(), 0),
        (b"{}", 0),
        (b"\n\0", 0),
        (b"{}\n", 3),
        (b"{}\n{", 3),
        (b"{}\n\0", 3),
        (b" {}\n", 0),
        (b"{}\nx}\n ", 3),
        (b"{}\n{}\n\n ", 6),
    ];
    for (bytes, at) in others {
        let Err(OpenFailed { disk, why }) = Log::open(file(&rt, bytes)) else {
            panic!(&rt; "no log");
        };
        equal(&rt, disk.bytes(), bytes);
        match why {
            OpenError::NotALog => equal(&rt, 0, at),
            OpenError::Damaged { at: found } => equal(&rt, found, at),
            OpenError::Io(_) => panic!(&rt; "no call failed"),
        }
    }
}

// What was acknowledged of a line, and then two as one, on a disk that stops after `calls` calls.
fn until<R: Abort + AllocGlobal>(rt: &R, calls: u64) -> (Fuse<Memory>, usize) {
    let disk = Fuse::new(Memory::new(rt.alloc()), calls);
    let log = match Log::open(disk) {
        Ok(log) => log,
        Err(failed) => return (failed.disk, 0),
    };
    let (disk, is_first) = add(log, &lines(rt, &[FIRST]));
    if !is_first {
        return (disk, 0);
    }
    if !disk.may_be_used() {
        return (disk, 8);
    }
    let log = match Log::open(disk) {
        Ok(log) => log,
        Err(failed) => return (failed.disk, 8),
    };
    let (disk, is_second) = add(log, &lines(rt, &[SECOND, FIRST]));
    (disk, if is_second { 24 } else { 8 })
}

#[test]
fn a_disk_that_stops_at_each_call(rt: HostRuntime) {
    let mut last = 0;
    for calls in 0..32 {
        let (mut disk, kept) = until(&rt, calls);
        disk.crash();
        let Ok(log) = Log::open(disk) else {
            panic!(&rt; "a log after a crash");
        };
        let len = log.len();
        // All of the lines that were under way, or none.
        holds(
            &rt,
            len == kept || (kept == 0 && len == 8) || (kept == 8 && len == 24),
        );
        holds(&rt, last <= kept);
        last = kept;
    }
    equal(&rt, last, 24);
}

const FOLDER: &str = "snap_log_test";

const PATH: &str = "snap_log_test/store.log";

#[test]
fn a_real_file(rt: HostRuntime) -> Result<(), Fail> {
    let _ = fs::remove_dir_all(&rt, FOLDER);
    fs::create_dir(&rt, FOLDER)?;
    let Ok(Files { log: beside, db }) = open(&rt, PATH, Wary) else {
        panic!(&rt; "a file");
    };
    let Ok(log) = Log::open(db) else {
        panic!(&rt; "a new file");
    };
    let Ok(log) = log.append(lines(&rt, &[FIRST]).as_slice()) else {
        panic!(&rt; "the first line");
    };
    assert!(&rt; matches!(open(&rt, PATH, Wary), Err(FileError::Busy)));
    drop((log, beside));
    equal(
        &rt,
        fs::read(&rt, PATH)?.as_slice(),
        b"{\"a\":1}\n ".as_slice(),
    );
    let Ok(Files { log: beside, db }) = open(&rt, PATH, Wary) else {
        panic!(&rt; "a file");
    };
    let Ok(mut log) = Log::open(db) else {
        panic!(&rt; "the file");
    };
    let mut read = [0u8; 4];
    log.read_at(3, &mut read)?;
    equal(&rt, read, *b"\":1}");
    let Ok(log) = log.append(lines(&rt, &[SECOND]).as_slice()) else {
        panic!(&rt; "the second line");
    };
    drop((log, beside));
    equal(
        &rt,
        fs::read(&rt, PATH)?.as_slice(),
        b"{\"a\":1}\n{\"b\":2}\n ".as_slice(),
    );
    fs::remove_dir_all(&rt, FOLDER)?;
    Ok(())
}
