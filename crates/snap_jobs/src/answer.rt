// How many jobs ended in each way, what the namespaces are charged, and the text of a run.
ghost use Rattle.std.specs.Prelude.{◌≡◌, ◌++◌, IfOk, string_bytes};
ghost use Rattle.std.specs.List.{count_by};
ghost use Rattle.snap_script.specs.Answers.{answer_line};
ghost use Rattle.snap_jobs.specs.Asked.{answers_text};
ghost use Rattle.snap_jobs.specs.Answer.{is_job_committed, is_discarded, is_refused, book_total_of, book_totals_of, answer_of, ends_text};

use crate::asked::{Asked, answers_text};
use crate::ends::end_lines;
use crate::run::JobOptions;
use snap_record::{Sequence, Text};
use snap_script::Answer;
use snap_store::{Closed, RoundName};
use snap_usage::Usage;
use snap_writers::{Ended, Job, Report};
use std::alloc::{AllocError, Global};

fn is_committed(end: Ended) -> bool
    ensures { result ≡ is_job_committed end }
{
    match end {
        Ended::Committed { .. } => true,
        _ => false,
    }
}

fn is_discarded(end: Ended) -> bool
    ensures { result ≡ is_discarded end }
{
    match end {
        Ended::Discarded => true,
        _ => false,
    }
}

fn is_refused(end: Ended) -> bool
    ensures { result ≡ is_refused end }
{
    !is_committed(end) && !is_discarded(end)
}

fn committed(ends: &[Ended]) -> usize
    ensures { result ≡ count_by is_job_committed ends.now }
{
    ends.iter().filter(|end| is_committed(**end)).count()
}

fn discarded(ends: &[Ended]) -> usize
    ensures { result ≡ count_by is_discarded ends.now }
{
    ends.iter().filter(|end| is_discarded(**end)).count()
}

fn refused(ends: &[Ended]) -> usize
    ensures { result ≡ count_by is_refused ends.now }
{
    ends.iter().filter(|end| is_refused(**end)).count()
}

// What the namespace of this name is charged.
fn total_of<N: RoundName>(closed: &Closed<N>, name: &str) -> Usage
    ensures { result ≡ book_total_of closed.now name.now }
{
    match closed.totals(name) {
        Some(total) => total,
        None => Usage::ZERO,
    }
}

fn totals_of<N: RoundName>(
    alloc: Global,
    closed: &Closed<N>,
    names: &[Text],
) -> Result<Sequence<(Text, Usage)>, AllocError>
    ensures { IfOk result (λ totals. totals ≡ book_totals_of closed.now names.now) }
{
    let mut totals = Sequence::new(alloc);
    for name in names {
        let total = total_of(closed, name.as_str());
        totals.push((name.clone()?, total))?;
    }
    Ok(totals)
}

// What a run of jobs came to, with the totals of the namespaces of these names.
fn answer_of<N: RoundName>(
    alloc: Global,
    report: &Report<N>,
    names: &[Text],
) -> Result<Answer, AllocError>
    ensures { IfOk result (λ answer. answer ≡ answer_of report.now.ends report.now.closed names.now) }
{
    let ends = report.ends.as_slice();
    Ok(Answer::Jobs {
        committed: committed(ends) as u64,
        discarded: discarded(ends) as u64,
        refused: refused(ends) as u64,
        totals: totals_of(alloc, &report.closed, names)?,
    })
}

// The lines of the jobs' ends, where they are told.
fn ends_text(
    alloc: Global,
    options: JobOptions,
    jobs: &[Job],
    ends: &[Ended],
) -> Result<String, AllocError>
    ensures { IfOk result (λ text. string_bytes text ≡ ends_text options jobs.now ends.now) }
{
    if options.ends {
        end_lines(alloc, options.fields, jobs, ends)
    } else {
        Ok(String::new(alloc))
    }
}

// The text of a run of jobs: their ends, where they are told, the answers to the questions, and last the line of the
// answer.
pub(crate) fn text_of<N: RoundName>(
    alloc: Global,
    options: JobOptions,
    jobs: &[Job],
    report: &Report<N>,
    names: &[Text],
    questions: &[Asked],
) -> Result<String, AllocError>
    ensures { IfOk result (λ text. string_bytes text ≡ ends_text options jobs.now report.now.ends
        ++ (answers_text options.fields report.now.closed.state questions.now ++ answer_line (answer_of report.now.ends report.now.closed names.now))) }
{
    let mut text = ends_text(alloc, options, jobs, report.ends.as_slice())?;
    let answers = answers_text(alloc, options.fields, &report.closed, questions)?;
    text.push_str(answers.as_str())?;
    let line = answer_of(alloc, report, names)?.line(alloc)?;
    text.push_str(line.as_str())?;
    Ok(text)
}
