//! Jobs on a store: lines are read, a store and then jobs on it and questions, the jobs are run by workers on threads
//! of their own, and one line tells how they ended, after a line for each job where that is asked for, and one for the
//! answer to each question.
//!
//! What a line says is `read_after_line` in `specs/Lines.antt`, what the jobs came to `answer_of` in
//! `specs/Answer.antt`, how each ended `end_data` in `specs/Ends.antt`, and what questions are answered `answers_text`
//! in `specs/Asked.antt`.
#![tactic(auto)]

mod answer;
mod asked;
mod ends;
mod job;
mod reading;
mod run;
mod stop;

pub use reading::{JobLines, MAX_JOBS};
pub use run::{JobOptions, write_jobs, write_jobs_within};
pub use snap_writers::MAX_WORKERS;
pub use stop::JobsStop;
