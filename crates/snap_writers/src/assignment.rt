// What workers start with, made before any thread is started.
ghost use Rattle.std.specs.Prelude.{◌≡◌, ◌≤◌, IfOk, map};
ghost use Rattle.snap_writers.specs.Jobs.{jobs_of};
ghost use Rattle.snap_writers.specs.Starting.{AreAssigned, IsAssigned};

use crate::job::{Ended, Ends, Job};
use snap_record::Sequence;
use std::alloc::{AllocError, Global};

// A worker's number, its jobs' ends where no job was run, and the same where it got no thread.
#[derive(Drop)]
pub(crate) struct Assignment {
    pub(crate) worker: u32,
    pub(crate) ends: Ends,
    pub(crate) threadless: Ends,
}

// This end for each of the worker's jobs.
fn ends_of(
    alloc: Global,
    jobs: &[Job],
    worker: u32,
    workers: u32,
    end: Ended,
) -> Result<Ends, AllocError>
    requires { (1 ≤ worker) × (worker ≤ workers) }
    ensures { IfOk result (λ ends. ends ≡ map (λ _. end) (jobs_of jobs.now worker workers)) }
{
    let mut ends = Sequence::new(alloc);
    let mut skip = worker - 1;
    for _ in jobs {
        if skip > 0 {
            skip -= 1;
            continue;
        }
        skip = workers - 1;
        ends.push(end)?;
    }
    Ok(ends)
}

impl Assignment {
    fn of(alloc: Global, jobs: &[Job], worker: u32, workers: u32) -> Result<Assignment, AllocError>
        requires { (1 ≤ worker) × (worker ≤ workers) }
        ensures { IfOk result (λ a. IsAssigned jobs.now worker workers a) }
    {
        Ok(Assignment {
            worker,
            ends: ends_of(alloc, jobs, worker, workers, Ended::NotRun)?,
            threadless: ends_of(alloc, jobs, worker, workers, Ended::NoThread)?,
        })
    }
}

// What each of `workers` workers starts with.
pub(crate) fn assignments(
    alloc: Global,
    jobs: &[Job],
    workers: u32,
) -> Result<Vec<Assignment>, AllocError>
    ensures { IfOk result (λ all. AreAssigned jobs.now workers all.items) }
{
    let mut all = Vec::new(alloc);
    for place in 0..workers {
        all.push(Assignment::of(alloc, jobs, place + 1, workers)?)?;
    }
    Ok(all)
}
