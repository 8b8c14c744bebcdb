// Streams that fail or have no end, and what a program that ends early is told.
use crate::setup::equal;
use snap_jobs::{JobOptions, JobsStop, write_jobs_within};
use snap_script::{Field, FieldRule};
use snap_session::{RunOptions, Stop, replay, replay_within};
use std::alloc::AllocError;
use std::io;
use std::io::BufWriter;

const PLAIN: RunOptions = RunOptions {
    fields: FieldRule::Any,
    stops_at_refusal: false,
};

const JOBS: JobOptions = JobOptions {
    workers: 4,
    ends: true,
    fields: FieldRule::Any,
};

const THREE: &[u8] = br#"{"do":"open","root":"/r","namespaces":[]}
{"do":"report"}
{"do":"session"}
"#;

const ANSWERS: &[u8] = br#"{"ok":true}
{"entries":1,"open":0,"records":0,"totals":{}}
{"session":1}
"#;

/// Gives the bytes at each of `reads` reads, and then fails.
#[derive(Drop)]
struct Repeated {
    bytes: &'static [u8],
    reads: usize,
}

impl io::Read for Repeated {
    fn read(&mut self, buf: &mut [u8]) -> io::Result<usize> {
        if self.reads == 0 {
            return Err(io::Error::from(io::ErrorKind::TimedOut));
        }
        self.reads -= 1;
        let count = self.bytes.len().min(buf.len());
        buf[..count].copy_from_slice(&self.bytes[..count]);
        Ok(count)
    }
}

/// Takes at most five bytes at every second write, and is interrupted at the others. It fails after `most` writes.
#[derive(Drop)]
struct Slow {
    writes: usize,
    most: usize,
    bytes: Vec<u8>,
}

impl io::Write for Slow {
    fn write(&mut self, buf: &[u8]) -> io::Result<usize> {
        self.writes = self.writes.saturating_add(1);
        if self.writes > self.most {
            return Err(io::Error::from(io::ErrorKind::StorageFull));
        }
        if self.writes % 2 == 1 {
            return Err(io::Error::from(io::ErrorKind::Interrupted));
        }
        let count = buf.len().min(5);
        self.bytes.write(&buf[..count])
    }

    fn flush(&mut self) -> io::Result<()> {
        Ok(())
    }
}

#[test]
fn streams_that_fail(rt: HostRuntime) {
    let alloc = rt.alloc();
    let mut three = Repeated {
        bytes: THREE,
        reads: 1,
    };
    let mut output = BufWriter::new(alloc, Vec::new(alloc)).expect(&rt, "a buffer");
    let ended = replay(alloc, &mut three, &mut output, PLAIN);
    let found = (ended, output.get_ref().as_slice());
    let wanted = (Err(Stop::InputFailed), ANSWERS);
    equal(&rt, "answers are out before a read fails", found, wanted);

    let all = (Ok(()), ANSWERS);
    let five = (Err(Stop::OutputFailed), b"{\"ok\"".as_slice());
    for (shown, most, wanted, past) in [
        ("short writes", 100, all, 0),
        ("a write that fails is the last", 2, five, 1),
    ] {
        let mut three = THREE;
        let mut slow = Slow {
            writes: 0,
            most,
            bytes: Vec::new(alloc),
        };
        let ended = replay(alloc, &mut three, &mut slow, PLAIN);
        let found = (ended, slow.bytes.as_slice());
        let past_most = slow.writes.saturating_sub(most);
        equal(&rt, shown, (found, past_most), (wanted, past));
    }
}

// The statuses of want of memory, also of jobs', and of a store that isn't closed, and a field's name, follow from the
// contracts.
#[test]
fn streams_without_end(rt: HostRuntime) {
    let memory = Stop::from(AllocError).status();
    let open = JobsStop::NotClosed.status();
    let lacking = JobsStop::WantOfMemory { jobs: 1, all: 2 }.status();
    prove!(memory == 4 && open == 5 && lacking == 4);
    let name = Field::Namespace.name();
    prove!(name == "ns");

    let alloc = rt.alloc();
    let mut spaces = Repeated {
        bytes: b" ",
        reads: usize::MAX,
    };
    let mut output = Vec::new(alloc);
    let ended = replay_within(alloc, &mut spaces, &mut output, PLAIN, 100);
    let wanted = (Err(Stop::InputFailed), 0);
    equal(&rt, "a script", (ended, output.len()), wanted);

    let ended = write_jobs_within(&rt, alloc, &mut spaces, &mut output, JOBS, 100);
    let wanted = (Err(JobsStop::Lines(Stop::InputFailed)), 0);
    equal(&rt, "a script of jobs", (ended, output.len()), wanted);

    let mut three = THREE;
    let ended = replay_within(alloc, &mut three, &mut output, PLAIN, 1);
    let wanted = (Err(Stop::InputFailed), ANSWERS);
    equal(&rt, "a read too many", (ended, output.as_slice()), wanted);
}
