// How each job ended, a line for each, and how many jobs were refused memory.
ghost use Rattle.std.specs.Prelude.{◌≡◌, IfOk, None, OnOk, codes, option_map, string_bytes};
ghost use Rattle.std.specs.List.{count_by};
ghost use Rattle.serde_json.specs.Data.{string};
ghost use Rattle.snap_json.specs.Tokens.{with_value};
ghost use Rattle.snap_values.specs.Values.{number_data, usage_data};
ghost use Rattle.snap_script.specs.Faults.{field_name};
ghost use Rattle.snap_values.specs.Written.{member_tokens, with_maybe};
ghost use Rattle.snap_writers.specs.declared.job.Ended.TheVariants.{Committed, Discarded};
ghost use Rattle.snap_jobs.specs.Ends.{about_commit, about_end, about_failure, end_data, end_line, end_lines, end_told, failure, is_failed_memory, is_file_memory, is_refused_memory, is_undecided, operation_data, refused_call_data, uncalled_data, wants_memory};

use snap_call::Refusal;
use snap_json::{Token, Writer};
use snap_merge::FsError;
use snap_script::{Field, FieldRule, Refused, Subjects};
use snap_upper::Op;
use snap_usage::Usage;
use snap_writers::{End, Ended, Job, RunError};
use std::alloc::{AllocError, Global};

// A member of the object that is open: a number.
fn number_member(out: &mut Writer, key: &str, n: u64) -> Result<(), AllocError>
    ensures { OnOk result (out.new ≡ member_tokens key.now (number_data n) out.old) }
{
    out.token(Token::Key(key))?;
    out.number(n)
}

// The same, a text.
fn text_member(out: &mut Writer, key: &str, value: &str) -> Result<(), AllocError>
    ensures { OnOk result (out.new ≡ member_tokens key.now (string value.now) out.old) }
{
    out.token(Token::Key(key))?;
    out.token(Token::String(value))
}

// The same, blocks, then inodes.
fn usage_member(out: &mut Writer, key: &str, amount: Usage) -> Result<(), AllocError>
    ensures { OnOk result (out.new ≡ member_tokens key.now (usage_data amount) out.old) }
{
    out.token(Token::Key(key))?;
    out.token(Token::BeginArray)?;
    out.number(amount.blocks)?;
    out.number(amount.inodes)?;
    out.token(Token::EndArray)
}

fn committed(out: &mut Writer, job: u64, id: u32, amount: Usage) -> Result<(), AllocError>
    ensures { OnOk result (out.new ≡ with_value (end_data job None (Committed id amount)) out.old) }
{
    out.token(Token::BeginObject)?;
    out.token(Token::Key("committed"))?;
    out.token(Token::BeginObject)?;
    number_member(out, "id", u64::from(id))?;
    usage_member(out, "usage", amount)?;
    out.token(Token::EndObject)?;
    number_member(out, "job", job)?;
    out.token(Token::EndObject)
}

fn discarded(out: &mut Writer, job: u64) -> Result<(), AllocError>
    ensures { OnOk result (out.new ≡ with_value (end_data job None Discarded) out.old) }
{
    out.token(Token::BeginObject)?;
    out.token(Token::Key("discarded"))?;
    out.token(Token::Bool(true))?;
    number_member(out, "job", job)?;
    out.token(Token::EndObject)
}

// The same, the field that a refusal is about, where that is told.
fn of_member(out: &mut Writer, of: Option<Field>) -> Result<(), AllocError>
    ensures { OnOk result (out.new ≡ with_maybe (codes "of") (option_map (λ field. string (field_name field)) of) out.old) }
{
    match of {
        Some(field) => text_member(out, "of", field.name()),
        None => Ok(()),
    }
}

// A call for the job was refused.
#[tactic(auto, using(snap_values::proofs::Maps::with_members_maybe))]
fn refused_call(
    out: &mut Writer,
    job: u64,
    call: &str,
    of: Option<Field>,
    name: &str,
) -> Result<(), AllocError>
    ensures { OnOk result (out.new ≡ with_value (refused_call_data job call.now of name.now) out.old) }
{
    out.token(Token::BeginObject)?;
    text_member(out, "call", call)?;
    number_member(out, "job", job)?;
    of_member(out, of)?;
    text_member(out, "refused", name)?;
    out.token(Token::EndObject)
}

// An operation of the job was not done.
#[tactic(auto, using(snap_values::proofs::Maps::with_members_maybe))]
fn refused_operation(
    out: &mut Writer,
    job: u64,
    of: Option<Field>,
    op: u64,
    name: &str,
) -> Result<(), AllocError>
    ensures { OnOk result (out.new ≡ with_value (operation_data job of op name.now) out.old) }
{
    out.token(Token::BeginObject)?;
    number_member(out, "job", job)?;
    of_member(out, of)?;
    number_member(out, "op", op)?;
    text_member(out, "refused", name)?;
    out.token(Token::EndObject)
}

// Nothing was called for the job.
fn uncalled(out: &mut Writer, job: u64, name: &str) -> Result<(), AllocError>
    ensures { OnOk result (out.new ≡ with_value (uncalled_data job name.now) out.old) }
{
    out.token(Token::BeginObject)?;
    number_member(out, "job", job)?;
    text_member(out, "refused", name)?;
    out.token(Token::EndObject)
}

// Why an operation was not done.
fn failure(error: RunError) -> Refused
    ensures { result ≡ failure error }
{
    match error {
        RunError::File(error) => Refused::File(error),
        RunError::Book(why) => Refused::Book(why),
    }
}

// Whether the walk to one of two paths may have failed.
fn is_undecided(error: RunError) -> bool
    ensures { result ≡ is_undecided error }
{
    matches!(
        error,
        RunError::File(FsError::NotFound) | RunError::File(FsError::NotDir)
    )
}

// The field of an operation that its failure is about, as far as it is decided without the layers.
fn about_failure(op: &Op, error: RunError) -> Option<Field>
    ensures { result ≡ about_failure op.now error }
{
    match op {
        Op::Link { .. } | Op::Rename { .. } if is_undecided(error) => None,
        Op::Link { .. }
        | Op::Rename { .. }
        | Op::Mkdir { .. }
        | Op::Create { .. }
        | Op::Put { .. }
        | Op::Write { .. }
        | Op::Truncate { .. }
        | Op::SetMode { .. }
        | Op::Symlink { .. }
        | Op::Unlink { .. }
        | Op::Rmdir { .. }
        | Op::Opaque { .. }
        | Op::Whiteout { .. } => Subjects::of_operation(op).about(failure(error)),
    }
}

// The field of a job's end that the refusal of its commit is about.
fn about_commit(end: &End, why: Refusal) -> Option<Field>
    ensures { result ≡ about_commit end.now why }
{
    match end {
        End::Commit {
            name,
            lease,
            labels: _,
        } => { Subjects::of_commit(name.as_str(), lease).about(Refused::Book(why)) }
        End::Discard => None,
    }
}

// The field of a job, or of its operation, that its refusal is about.
fn about_end(job: &Job, end: Ended) -> Option<Field>
    ensures { result ≡ about_end job.now end }
{
    match end {
        Ended::NotPrepared(why) => {
            Subjects::of_new(job.key.as_str(), job.parent.as_str()).about(Refused::Book(why))
        }
        Ended::Failed { op, error } => {
            let op = job.ops.as_slice().get((op as usize).saturating_sub(1))?;
            about_failure(op, error)
        }
        Ended::NotCommitted(why) => about_commit(&job.end, why),
        Ended::Committed { .. } | Ended::Discarded | Ended::NoThread | Ended::NotRun => None,
    }
}

// The same of the job of a number, from 1; not told where any field may stand in a line.
fn end_told(rule: FieldRule, jobs: &[Job], number: u64, end: Ended) -> Option<Field>
    ensures { result ≡ end_told rule jobs.now number end }
{
    match rule {
        FieldRule::Any => None,
        FieldRule::Known | FieldRule::KnownAndId => {
            let job = jobs.get((number as usize).saturating_sub(1))?;
            about_end(job, end)
        }
    }
}

fn write_end(out: &mut Writer, job: u64, of: Option<Field>, end: Ended) -> Result<(), AllocError>
    ensures { OnOk result (out.new ≡ with_value (end_data job of end) out.old) }
{
    match end {
        Ended::Committed { id, usage } => committed(out, job, id, usage),
        Ended::Discarded => discarded(out, job),
        Ended::NotPrepared(why) => refused_call(out, job, "prepare", of, Refused::Book(why).name()),
        Ended::NoThread => uncalled(out, job, "NoThread"),
        Ended::Failed { op, error } => refused_operation(out, job, of, op, failure(error).name()),
        Ended::NotCommitted(why) => refused_call(out, job, "commit", of, Refused::Book(why).name()),
        Ended::NotRun => uncalled(out, job, "NotRun"),
    }
}

// The line of a job, by its number.
#[tactic(auto, unfolding(crate::specs::Ends::end_line))]
fn end_line(alloc: Global, job: u64, of: Option<Field>, end: Ended) -> Result<String, AllocError>
    ensures { IfOk result (λ line. string_bytes line ≡ end_line job of end) }
{
    let mut out = Writer::new(alloc)?;
    write_end(&mut out, job, of, end)?;
    let mut line = out.finish();
    line.push('\n')?;
    Ok(line)
}

// The lines of all jobs.
pub(crate) fn end_lines(
    alloc: Global,
    rule: FieldRule,
    jobs: &[Job],
    ends: &[Ended],
) -> Result<String, AllocError>
    ensures { IfOk result (λ text. string_bytes text ≡ end_lines (end_told rule jobs.now) 1 ends.now) }
{
    let mut text = String::new(alloc);
    for (place, end) in ends.iter().enumerate() {
        let number = place as u64 + 1;
        let of = end_told(rule, jobs, number, *end);
        let line = end_line(alloc, number, of, *end)?;
        text.push_str(line.as_str())?;
    }
    Ok(text)
}

fn is_refused_memory(why: Refusal) -> bool
    ensures { result ≡ is_refused_memory why }
{
    matches!(why, Refusal::OutOfMemory(_))
}

fn is_file_memory(error: FsError) -> bool
    ensures { result ≡ is_file_memory error }
{
    matches!(error, FsError::OutOfMemory(_))
}

fn is_failed_memory(error: RunError) -> bool
    ensures { result ≡ is_failed_memory error }
{
    match error {
        RunError::File(error) => is_file_memory(error),
        RunError::Book(why) => is_refused_memory(why),
    }
}

fn wants_memory(end: Ended) -> bool
    ensures { result ≡ wants_memory end }
{
    match end {
        Ended::NotPrepared(why) | Ended::NotCommitted(why) => is_refused_memory(why),
        Ended::NoThread => true,
        Ended::Failed { op: _, error } => is_failed_memory(error),
        Ended::Committed { .. } | Ended::Discarded | Ended::NotRun => false,
    }
}

// How many jobs were refused memory, or got no thread.
pub(crate) fn lacking(ends: &[Ended]) -> usize
    ensures { result ≡ count_by wants_memory ends.now }
{
    ends.iter().filter(|end| wants_memory(**end)).count()
}
