// A job or a question, read from the object of its line.
ghost use Rattle.snap_json.specs.View.{view};
ghost use Rattle.snap_script.specs.Gives.{Gives};
ghost use Rattle.snap_jobs.specs.Jobs.{end_of, job_of};
ghost use Rattle.snap_jobs.specs.Lines.{job_line_of};

use crate::asked::{Asked, asked_of, is_question};
use snap_json::Value;
use snap_script::fields::{lent_text, optional_labels, optional_text, text, usage_or};
use snap_script::{Fault, Field, FieldRule, Found, ReadError, known_job, named, operations};
use snap_usage::Usage;
use snap_writers::{End, Job};
use std::alloc::Global;

#[tactic(auto, unfolding(crate::specs::Jobs::end_of))]
fn end_of(alloc: Global, line: &Value<'_>) -> Result<End, ReadError>
    ensures { Gives (λ end. end) result (end_of (view line.now)) }
{
    match lent_text(Field::End, line)? {
        "commit" => Ok(End::Commit {
            name: text(alloc, Field::Name, line)?,
            lease: optional_text(alloc, Field::Lease, line)?,
            labels: optional_labels(alloc, line)?,
        }),
        "discard" => Ok(End::Discard),
        _ => Err(ReadError::Fault(Fault::BadField(Field::End, Some(Found::Text)))),
    }
}

// The job of a line. Where any field may stand, a field `do` counts for nothing.
#[tactic(auto, unfolding(crate::specs::Jobs::job_of))]
fn job_of(alloc: Global, rule: FieldRule, line: &Value<'_>) -> Result<Job, ReadError>
    ensures { Gives (λ job. job) result (job_of rule (view line.now)) }
{
    known_job(alloc, rule, line)?;
    let (namespace, key) = named(alloc, line)?;
    Ok(Job {
        namespace,
        key,
        parent: text(alloc, Field::Parent, line)?,
        ops: operations(alloc, rule, line)?,
        end: end_of(alloc, line)?,
        extra: usage_or(Usage::ZERO, Field::Extra, line)?,
    })
}

// What a line after the first one is.
#[derive(Drop)]
pub(crate) enum JobLine {
    Job(Job),
    Asked(Asked),
}

#[tactic(auto, unfolding(crate::specs::Lines::job_line_of))]
pub(crate) fn job_line_of(
    alloc: Global,
    rule: FieldRule,
    line: &Value<'_>,
) -> Result<JobLine, ReadError>
    ensures { Gives (λ line. line) result (job_line_of rule (view line.now)) }
{
    if is_question(line) {
        Ok(JobLine::Asked(asked_of(alloc, rule, line)?))
    } else {
        Ok(JobLine::Job(job_of(alloc, rule, line)?))
    }
}
