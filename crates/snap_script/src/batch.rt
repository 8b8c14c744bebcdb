// A batch of file operations: its line, and its answer.
ghost use Rattle.std.specs.Prelude.{◌≡◌, OnOk, None, Some};
ghost use Rattle.snap_json.specs.Tokens.{with_value};
ghost use Rattle.snap_json.specs.View.{view};
ghost use Rattle.snap_script.specs.Answers.{answer_data};
ghost use Rattle.snap_script.specs.Commands.{batch_of};
ghost use Rattle.snap_script.specs.Gives.{Gives};
ghost use Rattle.snap_script.specs.declared.answer.Answer.TheVariants as answers;

use crate::answer::RefusedOperation;
use crate::command::Command;
use crate::fault::{Field, ReadError};
use crate::fields::{is_true, required_usage};
use crate::operation::operations;
use crate::parse::lent_named;
use crate::unknown::FieldRule;
use snap_json::{Token, Value, Writer};
use snap_usage::Usage;
use snap_values::{maybe, member};
use std::alloc::{AllocError, Global};

/// The batch of a line, by the fields that its operations may have.
#[tactic(auto, unfolding(crate::specs::Commands::batch_of))]
pub(crate) fn batch<'a>(
    alloc: Global,
    rule: FieldRule,
    line: &Value<'a>,
) -> Result<Command<'a>, ReadError>
    ensures { Gives (λ c. c) result (batch_of rule (view line.now)) }
{
    let (namespace, key) = lent_named(line)?;
    Ok(Command::Batch {
        namespace,
        key,
        need: required_usage(Field::Need, line)?,
        ops: operations(alloc, rule, line)?,
        whole: is_true(Field::Whole, line)?,
    })
}

/// A batch of which all operations were done.
fn all_done(
    alloc: Global,
    out: &mut Writer,
    done: u64,
    count: Usage,
    share: Usage,
) -> Result<(), AllocError>
    ensures { OnOk result (out.new ≡ with_value (answer_data (answers.Batch done count share None)) out.old) }
{
    out.token(Token::BeginObject)?;
    member(alloc, out, "count", &count)?;
    member(alloc, out, "done", &done)?;
    member(alloc, out, "share", &share)?;
    out.token(Token::EndObject)
}

/// A batch of which an operation was refused.
#[tactic(auto, using(snap_values::proofs::Maps::with_members_maybe))]
fn refused(
    alloc: Global,
    out: &mut Writer,
    done: u64,
    count: Usage,
    share: Usage,
    refused: RefusedOperation,
) -> Result<(), AllocError>
    ensures { OnOk result (out.new ≡ with_value (answer_data (answers.Batch done count share (Some refused))) out.old) }
{
    let RefusedOperation { number, why, of } = refused;
    out.token(Token::BeginObject)?;
    member(alloc, out, "count", &count)?;
    member(alloc, out, "done", &done)?;
    member(alloc, out, "error", &why.name())?;
    maybe(alloc, out, "free", &why.free())?;
    member(alloc, out, "from", &why.from())?;
    maybe(alloc, out, "of", &of)?;
    member(alloc, out, "op", &number)?;
    member(alloc, out, "share", &share)?;
    out.token(Token::EndObject)
}

/// How far a batch came.
pub(crate) fn batch_done(
    alloc: Global,
    out: &mut Writer,
    done: u64,
    count: Usage,
    share: Usage,
    stopped: Option<RefusedOperation>,
) -> Result<(), AllocError>
    ensures { OnOk result (out.new ≡ with_value (answer_data (answers.Batch done count share stopped)) out.old) }
{
    match stopped {
        None => all_done(alloc, out, done, count, share),
        Some(operation) => refused(alloc, out, done, count, share, operation),
    }
}
