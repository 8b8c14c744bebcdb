// The lines of a script of jobs, and what was read of them.
ghost use Rattle.std.specs.Prelude.{◌≡◌, None, Some};
ghost use Rattle.snap_json.specs.View.{view};
ghost use Rattle.snap_script.specs.Gives.{Gives};
ghost use Rattle.snap_jobs.specs.Lines.{opened_as, read_with, there, unread};

use crate::asked::Asked;
use crate::job::{JobLine, job_line_of};
use snap_call::{Config, Refusal};
use snap_json::Scratch;
use snap_lines::TakeLine;
use snap_path::NoMemory;
use snap_record::{Sequence, Text};
use snap_script::{Fault, FieldRule, ReadError, is_empty, names_of, read_object, read_open};
use snap_store::{NewStore, RoundName, Store};
use snap_writers::Job;
use std::alloc::Global;
use std::marker::Model;

/// The most jobs of a script, and the most questions.
pub const MAX_JOBS: usize = 65_536;

// The store that the first line has opened, the names of its namespaces, the jobs, and the questions.
#[derive(Drop)]
pub(crate) struct Read<N: RoundName> {
    pub(crate) store: Store<N>,
    pub(crate) names: Sequence<Text>,
    pub(crate) jobs: Vec<Job>,
    pub(crate) questions: Vec<Asked>,
}

impl<N: RoundName> Model for Read<N> {
    ghost use Rattle.snap_jobs.specs.Lines.{ReadValue};

    ghost Value = { ReadValue };

    ghost view = { λ s. record { round = s.store; names = s.names; jobs = s.jobs.items; questions = s.questions.items } };
}

/// What was read of a script of jobs. Contracts see which fields its lines may have, and nothing else, or, once the first
/// line has opened a store, its round, the names of its namespaces and the jobs.
///
/// The tables name the store, and go to it when it is opened. Where memory is refused then, the name is spent, and
/// the refusal is kept for a later line that opens a store. A malformed configuration leaves the name.
#[derive(Drop)]
pub struct JobLines<N: RoundName> {
    fields: FieldRule,
    tables: Option<NewStore>,
    refused: Option<NoMemory>,
    read: Option<Read<N>>,
}

impl<N: RoundName> Model for JobLines<N> {
    ghost use Rattle.std.specs.Prelude.{◌≡◌, ◌||◌, true, is_some, IfSome};
    ghost use Rattle.snap_jobs.specs.Lines.{LinesValue};

    ghost Value = { LinesValue };

    ghost view = { λ s. record { fields = s.fields; read = s.read } };

    // The tables are there until a store is opened with them or memory is refused.
    ghost invariant = { λ s. IfSome s.tables (λ n. n ≡ (N.table, N.rounds)) × ((is_some s.tables || (is_some s.refused || is_some s.read)) ≡ true) };
}

impl<N: RoundName> JobLines<N> {
    /// Before the first line, where the lines and the operations of jobs may have these fields. Takes no memory.
    pub fn new(new: NewStore, fields: FieldRule) -> JobLines<N>
        requires { new ≡ (N.table, N.rounds) }
        ensures { result ≡ unread fields }
    {
        JobLines {
            fields,
            tables: Some(new),
            refused: None,
            read: None,
        }
    }

    // Opens a store of the configuration.
    fn open(&mut self, alloc: Global, config: Config) -> Result<(), ReadError>
        requires { self.old.read ≡ None }
        ensures read { Gives (λ _. self.new.read) result (there (opened_as config)) }
        ensures fields { self.new.fields ≡ self.old.fields }
    {
        if let Some(field) = config.bad_field() {
            return Err(ReadError::Fault(Fault::BadOpen(Some(field))));
        }
        let names = names_of(alloc, config.namespaces.as_slice())?;
        if let Some(no_memory) = self.refused {
            return Err(no_memory.into());
        }
        let Some(new) = self.tables.take() else {
            unreachable!()
        };
        match Store::open(alloc, new, config) {
            Ok(store) => {
                self.read = Some(Read {
                    store,
                    names,
                    jobs: Vec::new(alloc),
                    questions: Vec::new(alloc),
                });
                Ok(())
            }
            Err(Refusal::OutOfMemory(no_memory)) => {
                self.refused = Some(no_memory);
                Err(no_memory.into())
            }
            Err(_) => unreachable!(),
        }
    }

    // Reads the first line that isn't empty.
    #[tactic(auto, unfolding(crate::specs::Lines::read_with))]
    fn read_first(&mut self, alloc: Global, line: &[u8]) -> Result<(), ReadError>
        requires { self.old.read ≡ None }
        ensures read { Gives (λ _. self.new.read) result (there (read_with self.old.fields None line.now)) }
        ensures fields { self.new.fields ≡ self.old.fields }
    {
        let mut scratch = Scratch::new(alloc);
        let line = read_object(alloc, line, &mut scratch)?;
        let config = read_open(alloc, self.fields, &line)?;
        self.open(alloc, config)
    }

    // The store and the jobs, where a line has opened one.
    pub(crate) fn into_read(self) -> Option<Read<N>>
        ensures { result ≡ self.read }
    {
        self.read
    }
}

impl<N: RoundName> Read<N> {
    // Takes the line of a job or of a question.
    #[tactic(auto, unfolding(crate::specs::Lines::read_with))]
    fn take_next(&mut self, alloc: Global, rule: FieldRule, line: &[u8]) -> Result<(), ReadError>
        ensures { Gives (λ _. self.new) result (read_with rule (Some self.old) line.now) }
    {
        if self.jobs.len() >= MAX_JOBS || self.questions.len() >= MAX_JOBS {
            return Err(ReadError::Fault(Fault::TooLong));
        }
        let mut scratch = Scratch::new(alloc);
        let line = read_object(alloc, line, &mut scratch)?;
        match job_line_of(alloc, rule, &line)? {
            JobLine::Job(job) => self.jobs.push(job)?,
            JobLine::Asked(asked) => self.questions.push(asked)?,
        }
        Ok(())
    }
}

/// Takes the lines of a script of jobs. None has an answer: the jobs are run, and the questions asked, once all lines
/// are read.
///
/// The first line that isn't empty has the faults of `open`, and last `BadOpen` where the configuration is
/// malformed. Each later line has `TooLong` where 65,536 jobs were read, or as many questions; then `NotJson`,
/// `NotAnObject`. A line whose `do` is `stat`, `usage`, `mounts` or `walk`, and whose `quiet` is true, is a question,
/// and has the faults of that command in a script. Every other one is a job, and has `UnknownField` where not any field may stand, and `BadField` with the first of its fields, or `Operation` with the
/// first of its operations that has a fault. Where any field may stand, each fault is brief. `OutOfMemory` where memory
/// was refused.
///
/// The memory and the cost grow with the line, and a `fill` takes as many bytes as it asks for.
impl<N: RoundName> TakeLine for JobLines<N> {
    ghost use Rattle.snap_jobs.specs.Lines.{jobs_effect};

    ghost effect = { jobs_effect };

    #[tactic(auto, unfolding(crate::specs::Lines::jobs_effect, crate::specs::Lines::read_after_line))]
    fn take_line(&mut self, alloc: Global, line: &[u8]) -> Result<Option<String>, ReadError> {
        if is_empty(line) {
            return Ok(None);
        }
        let read = match &mut self.read {
            None => self.read_first(alloc, line),
            Some(read) => read.take_next(alloc, self.fields, line),
        };
        match read {
            Ok(()) => Ok(None),
            Err(error) => Err(error.told(self.fields)),
        }
    }
}
