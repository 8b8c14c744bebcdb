//! Jobs on active snapshots of a store, by workers on threads of their own, each accounted for; and single
//! operations with the charges that they need.
#![tactic(auto)]

mod assignment;
mod job;
mod order;
mod running;
mod threads;
mod worker;
mod workers;

pub use job::{End, Ended, Ends, Gate, Job, Report, RunFault, Worked};
pub use running::{RunError, run};
pub use worker::run_worker;
pub use workers::{MAX_WORKERS, run_jobs};
