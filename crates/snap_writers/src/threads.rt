// The workers, each on a thread of its own.
ghost use Rattle.std.specs.Prelude.{◌≡◌, ◌≤◌, ℕ, [], IfOk, vec_len, vec_capacity};
ghost use Rattle.snap_writers.specs.declared.job.Ended.TheVariants.{NoThread};
ghost use Rattle.snap_writers.specs.Jobs.{AreWorked, HasStoppedWorker, IsWorked, jobs_of, unprepared};
ghost use Rattle.snap_writers.specs.Going.{none_run};
ghost use Rattle.snap_writers.specs.Starting.{AreAssigned, AreStarted};

use crate::assignment::Assignment;
use crate::job::{Ends, Gate, Job, Worked, Works};
use crate::worker::run_worker;
use snap_store::{RoundName, Store};
use std::alloc::{AllocError, Global};
use std::sync::Wait;
use std::thread;
use std::thread::{PromisedHandle, Threads};

// A worker on its thread, or what one gives back that got none.
#[derive(Drop)]
enum Started<'a, G: Gate> {
    There(PromisedHandle<Worked, Works<'a, G>>),
    Threadless(Worked),
}

// What a worker gives back that got no thread.
fn without_thread(jobs: &[Job], worker: u32, workers: u32, ends: Ends) -> Worked
    requires { ends ≡ unprepared NoThread (jobs_of jobs.now worker workers) }
    ensures { (inodes : ℕ) → IsWorked ⊥ inodes jobs.now worker workers result }
{
    Worked {
        session: None,
        ends,
        refused: false,
    }
}

// What the workers gave back, in order, once all have ended.
fn joined<R: Threads, G: Gate>(
    rt: &R,
    gate: &G,
    jobs: &[Job],
    workers: u32,
    layer_inodes: u64,
    started: Vec<Started<G>>,
    all: Vec<Worked>,
) -> Vec<Worked>
    requires started { AreStarted gate.now (HasStoppedWorker (G.answers gate.now)) layer_inodes jobs.now workers started.items }
    requires all { (all.items ≡ []) × (workers ≤ vec_capacity all) }
    ensures { AreWorked (HasStoppedWorker (G.answers gate.now)) layer_inodes jobs.now workers result.items }
{
    let mut all = all;
    for one in started {
        all.push_reserved(match one {
            Started::There(handle) => handle.join(rt),
            Started::Threadless(worked) => worked,
        });
    }
    all
}

// Runs each worker on a thread of its own, and gives what they gave back, in order. Memory is refused before a
// thread is started.
pub(crate) fn all_worked<N: RoundName + Send + Sync, R: Threads + Wait + Sync, G: Gate>(
    rt: &R,
    alloc: Global,
    store: &Store<N>,
    jobs: &[Job],
    workers: u32,
    gate: &G,
    assignments: Vec<Assignment>,
) -> Result<Vec<Worked>, AllocError>
    requires { AreAssigned jobs.now workers assignments.items }
    ensures { IfOk result (λ all. AreWorked (HasStoppedWorker (G.answers gate.now)) store.now.opening.layer_inodes jobs.now workers all.items) }
{
    let layer_inodes = store.layer_inodes();
    let mut all = Vec::with_capacity(alloc, assignments.len())?;
    let mut started = Vec::with_capacity(alloc, assignments.len())?;
    Ok(thread::scope(
        thread::scope_env(),
        rt,
        |scope| -> Vec<Worked>
            requires assigned { AreAssigned jobs.now workers assignments.items }
            requires all { (all.items ≡ []) × (vec_len assignments ≤ vec_capacity all) }
            requires started { (started.items ≡ []) × (vec_len assignments ≤ vec_capacity started) }
            requires layers { layer_inodes ≡ store.now.opening.layer_inodes }
            ensures { AreWorked (HasStoppedWorker (G.answers gate.entry.now)) layer_inodes jobs.entry.now workers result.items }
        {
            for assignment in assignments {
                let Assignment {
                    worker,
                    ends,
                    threadless,
                } = assignment;
                let promise = Works {
                    gate,
                    jobs,
                    worker,
                    workers,
                    layer_inodes,
                };
                let one = match scope.spawn_with(
                    promise,
                    move || -> Worked
                        requires worker { (1 ≤ worker) × (worker ≤ workers) }
                        requires ends { ends ≡ none_run (jobs_of jobs.now worker workers) }
                        ensures { IsWorked (HasStoppedWorker (G.answers gate.entry.now) worker) store.entry.now.opening.layer_inodes jobs.entry.now worker workers result }
                    { run_worker(rt, alloc, store, jobs, worker, workers, gate, ends) },
                ) {
                    Ok(handle) => {
                        drop(threadless);
                        Started::There(handle)
                    }
                    Err(_) => {
                        Started::Threadless(without_thread(jobs, worker, workers, threadless))
                    }
                };
                started.push_reserved(one);
            }
            joined(rt, gate, jobs, workers, layer_inodes, started, all)
        },
    ))
}
