// Jobs on threads: how each ends, and where a gate stops them.
ghost use Rattle.std.specs.Prelude.{◌≡◌};

use crate::gates::Steps;
use crate::setup::{equal, new_store, path, text, usage};
use crate::stores::{closed, discard_all, new_session, not_closed, opened, prepare_all};
use snap_book::Refusal;
use snap_merge::FsError;
use snap_record::Sequence;
use snap_store::{NewStore, RoundName};
use snap_upper::Op;
use snap_usage::Usage;
use snap_writers::{End, Ended, Gate, Job, RunError, RunFault, run_jobs};
use std::alloc::Global;
use std::marker::Brand;
use std::process::Abort;
use std::sync::Wait;
use std::sync::atomic::AtomicBool;
use std::thread::Threads;
use std::time::Clock;

// A job in the namespace a on the parent, with at most one operation. It commits under the name, or is discarded
// where there is none.
fn job<R: Abort>(
    rt: &R,
    alloc: Global,
    key: &str,
    parent: &str,
    op: Option<Op>,
    name: Option<&str>,
) -> Job {
    let mut ops = Sequence::new(alloc);
    if let Some(op) = op {
        ops.push(op).expect(rt, "memory for an operation");
    }
    let end = match name {
        Some(name) => End::Commit {
            name: text(rt, alloc, name),
            lease: None,
            labels: None,
        },
        None => End::Discard,
    };
    Job {
        namespace: text(rt, alloc, "a"),
        key: text(rt, alloc, key),
        parent: text(rt, alloc, parent),
        ops,
        end,
        extra: Usage::ZERO,
    }
}

// 16 jobs that make the directory /d, and take 2/2, each with a key and a name one letter longer than the one
// before. Every second one is discarded.
fn making<R: Abort>(rt: &R, alloc: Global) -> Vec<Job> {
    let mut all = Vec::new(alloc);
    let mut key = String::new(alloc);
    let mut name = String::new(alloc);
    for place in 0..16 {
        key.push_str("k").expect(rt, "memory for a key");
        name.push_str("c").expect(rt, "memory for a name");
        let name = if place % 2 == 0 {
            Some(name.as_str())
        } else {
            None
        };
        let path = path(rt, alloc, "/d");
        let op = Op::Mkdir { path, mode: 493 };
        let job = job(rt, alloc, key.as_str(), "", Some(op), name);
        all.push(job).expect(rt, "memory for a job");
    }
    all
}

// One that has no parent, one whose operation fails, and two that commit under one name.
fn failing<R: Abort>(rt: &R, alloc: Global) -> [Job; 4] {
    let path = path(rt, alloc, "/x");
    [
        job(rt, alloc, "k1", "no", None, None),
        job(rt, alloc, "k2", "", Some(Op::Rmdir { path }), None),
        job(rt, alloc, "k3", "", None, Some("c")),
        job(rt, alloc, "k4", "", None, Some("c")),
    ]
}

const FAILED: [Ended; 4] = [
    Ended::NotPrepared(Refusal::NotFound),
    Ended::Failed {
        op: 1,
        error: RunError::File(FsError::NotFound),
    },
    Ended::Committed {
        id: 0,
        usage: Usage {
            blocks: 1,
            inodes: 1,
        },
    },
    Ended::NotCommitted(Refusal::AlreadyExists),
];

const COMMITTED: Ended = Ended::Committed {
    id: 0,
    usage: Usage {
        blocks: 2,
        inodes: 2,
    },
};

macro_rules! eight_times {
    ($a:expr, $b:expr) => {
        [
            $a, $b, $a, $b, $a, $b, $a, $b, $a, $b, $a, $b, $a, $b, $a, $b,
        ]
    };
}

const IN_TURN: [Ended; 16] = eight_times!(COMMITTED, Ended::Discarded);

const OF_THE_FIRST: [Ended; 16] = eight_times!(COMMITTED, Ended::NotRun);

const NOT_RUN: [Ended; 16] = [Ended::NotRun; 16];

// The ends with 0 in place of each id, since ids follow the order in which the workers get on.
fn without_ids<R: Abort>(rt: &R, alloc: Global, ends: &[Ended]) -> Vec<Ended> {
    let mut all = Vec::new(alloc);
    for end in ends {
        let end = match *end {
            Ended::Committed { id: _, usage } => Ended::Committed { id: 0, usage },
            other => other,
        };
        all.push(end).expect(rt, "memory for an end");
    }
    all
}

// Runs the jobs by this many workers through the gate, and compares the first worker that it stopped, the end of each
// job without its id, and what the namespace a is charged.
fn end_so<N: RoundName + Send + Sync, R: Threads + Wait + Abort + Sync, G: Gate>(
    rt: &R,
    alloc: Global,
    new: NewStore,
    run: (&str, &[Job], u32, &G),
    wanted: (Option<u32>, &[Ended], Option<Usage>),
)
    requires { new ≡ (N.table, N.rounds) }
{
    let (shown, jobs, workers, gate) = run;
    let store = opened::<N, R>(rt, alloc, new, 1000);
    let (stopped, report) = match run_jobs(rt, alloc, store, jobs, workers, gate) {
        Ok(report) => (None, report),
        Err(RunFault::GateClosed { worker, report }) => (Some(worker), report),
        _ => panic!(rt; "no report"),
    };
    let ends = without_ids(rt, alloc, report.ends.as_slice());
    let found = (stopped, ends.as_slice(), report.closed.totals("a"));
    equal(rt, shown, found, wanted);
}

// Without a slot no job is prepared. The store and the sessions of the four workers come back, since it is not
// closed while 64 snapshots are open.
fn without_slots<N: RoundName + Send + Sync, R: Threads + Wait + Abort + Clock + Sync>(
    rt: &R,
    alloc: Global,
    new: NewStore,
    jobs: &[Job],
)
    requires { new ≡ (N.table, N.rounds) }
{
    let store = opened::<N, R>(rt, alloc, new, 1000);
    let mut session = new_session(rt, &store);
    let held = prepare_all(rt, alloc, &store, &mut session, "s", 64);
    let back = match run_jobs(rt, alloc, store, jobs, 4, &Steps::<R>::All) {
        Err(RunFault::NotClosed { ends: _, back }) => back,
        _ => panic!(rt; "the store is closed"),
    };
    let (store, mut sessions) = not_closed(rt, alloc, Err(back), "snapshots are open", "s", 64);
    equal(rt, "the workers' sessions", sessions.len(), 4);
    discard_all(rt, &store, &mut session, held);
    sessions.push(session).expect(rt, "memory for a session");
    closed(rt, "no slot", store, sessions, Usage::ZERO, 149);
}

#[test]
fn jobs_and_gates(rt: HostRuntime) {
    let alloc = rt.alloc();
    let (making, failing) = (making(&rt, alloc), failing(&rt, alloc));
    let meeting = Steps::Meeting {
        clock: &rt,
        asked: AtomicBool::new(false),
        passed: AtomicBool::new(false),
    };
    let rows = [
        (
            (
                "two of 8 workers wait for each other",
                making.as_slice(),
                8,
                &meeting,
            ),
            (None, IN_TURN.as_slice(), Some(usage(16, 16))),
        ),
        (
            ("no step passes", making.as_slice(), 8, &Steps::None),
            (Some(1), NOT_RUN.as_slice(), Some(Usage::ZERO)),
        ),
        (
            (
                "worker 2 is stopped at its operation",
                making.as_slice(),
                2,
                &Steps::Others { worker: 2, step: 2 },
            ),
            (Some(2), OF_THE_FIRST.as_slice(), Some(usage(16, 16))),
        ),
        (
            ("each refusal is told", failing.as_slice(), 1, &Steps::All),
            (None, FAILED.as_slice(), Some(usage(1, 1))),
        ),
    ];
    for (run, wanted) in rows {
        let new = new_store(&rt, alloc);
        end_so::<Brand, HostRuntime, Steps<HostRuntime>>(&rt, alloc, new, run, wanted);
    }
    without_slots::<Brand, HostRuntime>(&rt, alloc, new_store(&rt, alloc), making.as_slice());
}
