// All jobs, by workers on threads of their own.
ghost use Rattle.std.specs.Prelude.{◌≡◌, ◌≤◌, [], length, IfOk, IfErr, OnOk, vec_capacity};
ghost use Rattle.snap_writers.specs.Jobs.{HasStoppedWorker, IsReport};
ghost use Rattle.snap_writers.specs.Starting.{AreAssigned, IsCount, IsFault};

use crate::assignment::{Assignment, assignments};
use crate::job::{Ended, Gate, Job, Report, RunFault};
use crate::order::{first_refused, in_order, sessions_of};
use crate::threads::all_worked;
use snap_store::{RoundName, Session, Store};
use std::alloc::{AllocError, Global};
use std::sync::Wait;
use std::thread::Threads;

// The memory of a run, all taken before a thread is started: what the workers start with, and room for their
// sessions and for the ends of all jobs.
struct Room {
    assignments: Vec<Assignment>,
    sessions: Vec<Session>,
    ends: Vec<Ended>,
}

impl Room {
    fn of(alloc: Global, jobs: &[Job], workers: u32) -> Result<Room, AllocError>
        ensures assigned { IfOk result (λ room. AreAssigned jobs.now workers room.assignments.items) }
        ensures sessions { IfOk result (λ room. (room.sessions.items ≡ []) × (workers ≤ vec_capacity room.sessions)) }
        ensures ends { IfOk result (λ room. (room.ends.items ≡ []) × (length jobs.now ≤ vec_capacity room.ends)) }
    {
        Ok(Room {
            assignments: assignments(alloc, jobs, workers)?,
            sessions: Vec::with_capacity(alloc, workers as usize)?,
            ends: Vec::with_capacity(alloc, jobs.len())?,
        })
    }
}

/// The greatest number of workers.
pub const MAX_WORKERS: u32 = 16;

/// Runs the jobs by `workers` workers, each on a thread of its own and with a session of its own, and closes the store
/// once all have ended. Each worker goes through its jobs as [`run_worker`](crate::run_worker) does; one that gets no
/// thread ends each of its jobs [`Ended::NoThread`].
///
/// The first of these that holds: `BadWorkers` where there are not 1 to 16 of them; `OutOfMemory` where memory
/// is refused before a thread is started; `NotClosed` where the store can't be closed, as where a session is
/// kept that was opened before, or a snapshot of one is open, with the ends of all jobs; `GateClosed` where the
/// gate stopped a worker, with the first of them. The first two give the store back as it was.
///
/// It waits for the workers, which wait for the store's lock and for the gate. The cost is that of the jobs'
/// calls and operations, a pass over all jobs for each worker, and [`Store::close`].
pub fn run_jobs<N: RoundName + Send + Sync, R: Threads + Wait + Sync, G: Gate>(
    rt: &R,
    alloc: Global,
    store: Store<N>,
    jobs: &[Job],
    workers: u32,
    gate: &G,
) -> Result<Report<N>, RunFault<N>>
    // Ok: all that is owed for all jobs, in one record, where the gate has stopped no worker.
    ensures report { IfOk result (λ report. IsReport (λ worker. ⊥) store jobs.now workers report.ends report.closed) }
    ensures workers { OnOk result (IsCount workers) }
    // Err: why, and what is given back.
    ensures fault { IfErr result (λ fault. IsFault (HasStoppedWorker (G.answers gate.now)) store jobs.now workers fault) }
{
    if workers == 0 || workers > MAX_WORKERS {
        return Err(RunFault::BadWorkers(store));
    }
    let room = match Room::of(alloc, jobs, workers) {
        Ok(room) => room,
        Err(refused) => return Err(RunFault::OutOfMemory(store, refused.into())),
    };
    let Room {
        assignments,
        sessions,
        ends,
    } = room;
    let all = match all_worked(rt, alloc, &store, jobs, workers, gate, assignments) {
        Ok(all) => all,
        Err(refused) => return Err(RunFault::OutOfMemory(store, refused.into())),
    };
    let ends = in_order(jobs, workers, all.as_slice(), ends);
    let stopped = first_refused(all.as_slice());
    match store.close(sessions_of(all, sessions)) {
        Ok(closed) => {
            let report = Report { ends, closed };
            match stopped {
                None => Ok(report),
                Some(worker) => Err(RunFault::GateClosed { worker, report }),
            }
        }
        Err(back) => Err(RunFault::NotClosed { ends, back }),
    }
}
