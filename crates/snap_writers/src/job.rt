// Jobs, their ends, and what is told of them.
ghost use Rattle.std.specs.Prelude.{ℕ, Bool};
ghost use Rattle.snap_writers.specs.Jobs.{HasStoppedWorker, IsWorked};

use crate::running::RunError;
use snap_book::Refusal;
use snap_path::NoMemory;
use snap_record::{Labels, Sequence, Text};
use snap_store::{Closed, NotClosed, RoundName, Session, Store};
use snap_upper::Op;
use snap_usage::Usage;
use std::thread::Promise;

/// What becomes of a job's snapshot once all its operations are done.
#[derive(Debug, Drop)]
pub enum End {
    /// It is committed under the name, with the labels in place of its own where they are given, and named in the
    /// lease where one is given.
    Commit {
        name: Text,
        lease: Option<Text>,
        labels: Option<Labels>,
    },
    /// It is discarded.
    Discard,
}

/// A snapshot that is prepared, written and ended by one worker.
#[derive(Debug, Drop)]
pub struct Job {
    /// The name of its namespace.
    pub namespace: Text,
    /// The key under which it is active.
    pub key: Text,
    /// The name of its parent; empty for none.
    pub parent: Text,
    /// The operations, in order.
    pub ops: Sequence<Op>,
    pub end: End,
    /// What each charge wants beyond its need, in blocks of 4096 bytes and inodes.
    pub extra: Usage,
}

/// How a job ended.
#[derive(Clone, Copy, Debug, PartialEq, Eq)]
pub enum Ended {
    /// It was committed under this id, and its layer takes `usage`, in blocks of 4096 bytes and inodes.
    Committed { id: u32, usage: Usage },
    /// Its end was to discard, and it was discarded.
    Discarded,
    /// It was not prepared; or its worker had no session.
    NotPrepared(Refusal),
    /// Its worker had no thread.
    NoThread,
    /// The operation at this place, counted from 1, was not done. It was discarded.
    Failed { op: u64, error: RunError },
    /// It was not committed. It was discarded.
    NotCommitted(Refusal),
    /// The gate stopped its worker before its end. Where it was prepared by then, it was discarded.
    NotRun,
}

/// How jobs ended, in their order.
pub type Ends = Sequence<Ended>;

/// Lets a worker take its next step, or stops it.
pub trait Gate: Sync {
    // What the gate may answer to the worker at the step.
    ghost answers: { Self → ℕ → ℕ → Bool → Type 0 };

    /// Whether the worker, counted from 1, may take the step, counted from 1 over all its jobs. The greatest
    /// number stands for all later steps too. A gate may wait.
    fn pass(&self, worker: u32, step: u32) -> bool
        ensures { answers self.now worker step result };
}

/// What a worker gives back.
#[derive(Drop)]
pub struct Worked {
    /// Its session of the store, where it got one.
    pub session: Option<Session>,
    /// One end for each of its jobs.
    pub ends: Ends,
    /// Whether the gate stopped it.
    pub refused: bool,
}

// What a worker's thread promises of that.
#[derive(Drop)]
pub(crate) struct Works<'a, G: Gate> {
    pub(crate) gate: &'a G,
    pub(crate) jobs: &'a [Job],
    pub(crate) worker: u32,
    pub(crate) workers: u32,
    pub(crate) layer_inodes: u64,
}

impl<'a, G: Gate> Promise<Worked> for Works<'a, G> {
    ghost kept_by = { λ p w. IsWorked (HasStoppedWorker (G.answers p.gate.now) p.worker) p.layer_inodes p.jobs.now p.worker p.workers w };
}

/// What came of all jobs.
#[derive(Drop)]
pub struct Report<N: RoundName> {
    /// One end for each job, in their order.
    pub ends: Ends,
    pub closed: Closed<N>,
}

/// Why there is no report, or not of all jobs.
#[derive(Drop)]
pub enum RunFault<N: RoundName> {
    /// The number of workers is not 1 to 16. Nothing was run, and the store is as it was.
    BadWorkers(Store<N>),
    /// Memory was refused before a thread was started. The store is as it was.
    OutOfMemory(Store<N>, NoMemory),
    /// The gate stopped a worker, this one and perhaps later ones. The store is closed.
    GateClosed { worker: u32, report: Report<N> },
    /// All workers have ended, and the store could not be closed: it comes back with their sessions, beside one
    /// end for each job, in their order.
    NotClosed { ends: Ends, back: NotClosed<N> },
}
