ghost use Rattle.std.specs.Prelude.{◌≡◌};
ghost use Rattle.snap_path.specs.Memory.{no_memory};
ghost use Rattle.snap_jobs.specs.Words.{jobs_status_of};

use snap_lines::Stop;
use std::alloc::AllocError;
use std::fmt;

/// Why jobs were not run and answered, or that some lacked memory.
#[derive(Debug, PartialEq, Eq, Drop)]
pub enum JobsStop {
    /// A line is no job, a read or a write failed, or memory was refused.
    Lines(Stop),
    /// The jobs were run, and the store could not be closed.
    NotClosed,
    /// The jobs were run and answered, and `jobs` of `all` were refused because memory was, or a thread.
    WantOfMemory { jobs: u64, all: u64 },
}

impl JobsStop {
    /// The status of a program that ends with it: that of the stop, 5 where the store was not closed, or 4.
    pub fn status(&self) -> u8
        ensures { result ≡ jobs_status_of self.now }
    {
        match self {
            JobsStop::Lines(stop) => stop.status(),
            JobsStop::NotClosed => 5,
            JobsStop::WantOfMemory { .. } => 4,
        }
    }
}

impl From<Stop> for JobsStop {
    ghost use Rattle.std.specs.Prelude.{◌≡◌};
    ghost use Rattle.snap_jobs.specs.declared.stop.JobsStop.TheVariants.{Lines};

    ghost from_gives = { λ stop e. e ≡ Lines stop };

    fn from(stop: Stop) -> JobsStop {
        JobsStop::Lines(stop)
    }
}

impl From<AllocError> for JobsStop {
    ghost use Rattle.std.specs.Prelude.{◌≡◌};
    ghost use Rattle.snap_lines.specs.declared.stop.Stop.TheVariants.{OutOfMemory};
    ghost use Rattle.snap_jobs.specs.declared.stop.JobsStop.TheVariants.{Lines};

    ghost from_gives = { λ _ e. e ≡ Lines (OutOfMemory no_memory) };

    fn from(refused: AllocError) -> JobsStop {
        JobsStop::Lines(refused.into())
    }
}

/// The words for it; a width or a precision has no effect.
impl fmt::Display for JobsStop {
    ghost use Rattle.std.specs.Prelude.{Some};
    ghost use Rattle.snap_jobs.specs.Words.{jobs_stop_words};

    ghost output = { λ s. Some (jobs_stop_words s) };

    fn fmt<W: fmt::Write>(&self, f: &mut fmt::Formatter<W>) -> fmt::Result {
        match self {
            JobsStop::Lines(stop) => write!(f, "{}", stop),
            JobsStop::NotClosed => f.write_str("not closed"),
            JobsStop::WantOfMemory { jobs, all } => {
                let (jobs, all) = (*jobs, *all);
                write!(f, "want of memory: {jobs} of {all} jobs")
            }
        }
    }
}
