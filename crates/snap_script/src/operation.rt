// File operations, read from the values of lines and of jobs.
ghost use Rattle.snap_json.specs.View.{view, items_view};
ghost use Rattle.snap_script.specs.Operations.{path_in, path, operation_at, file_operation, file_verb, operation_by, operation, numbered, operations_in, operations};
ghost use Rattle.snap_script.specs.Gives.{Gives};

use crate::fault::{Fault, Field, Found, ReadError};
use crate::fields::{
    content, digest, lent_text, misfit, missing, mode_or, number_or, required_mode,
    required_number, target,
};
use crate::line::no_such_command;
use crate::unknown::{FieldRule, known_operation};
use crate::verb::{FileVerb, PathVerb, Verb, near_file_command, verb_of};
use snap_json::Value;
use snap_path::limits::DEFAULT_MODE;
use snap_path::{Path, PathError};
use snap_record::Sequence;
use snap_upper::Op;
use std::alloc::Global;

/// The mode of a new file, where the line has none.
const FILE_MODE: u32 = 0o644;

/// The path of a field's text, which must be there, and none where the text is no path.
#[tactic(auto, unfolding(crate::specs::Operations::path_in))]
pub(crate) fn path_in(
    alloc: Global,
    field: Field,
    line: &Value<'_>,
) -> Result<Option<Path>, ReadError>
    ensures { Gives (λ path. path) result (path_in field (view line.now)) }
{
    let text = lent_text(field, line)?;
    match Path::parse(alloc, text) {
        Ok(path) => Ok(Some(path)),
        Err(PathError::BadPath) => Ok(None),
        Err(PathError::OutOfMemory(no_memory)) => Err(no_memory.into()),
    }
}

/// A path that must be there.
#[tactic(auto, unfolding(crate::specs::Operations::path))]
fn path(alloc: Global, field: Field, line: &Value<'_>) -> Result<Path, ReadError>
    ensures { Gives (λ path. path) result (path field (view line.now)) }
{
    let path = path_in(alloc, field, line)?;
    Ok(path.ok_or(Fault::BadField(field, Some(Found::Text)))?)
}

/// The operation of a verb at a path, with the line's other fields.
#[tactic(auto, unfolding(crate::specs::Operations::operation_at))]
fn operation_at(
    alloc: Global,
    verb: PathVerb,
    path: Path,
    line: &Value<'_>,
) -> Result<Op, ReadError>
    ensures { Gives (λ op. op) result (operation_at verb path (view line.now)) }
{
    Ok(match verb {
        PathVerb::Mkdir => Op::Mkdir {
            path,
            mode: mode_or(DEFAULT_MODE, line)?,
        },
        PathVerb::Create => Op::Create {
            path,
            mode: mode_or(FILE_MODE, line)?,
        },
        PathVerb::Put => {
            let mode = mode_or(FILE_MODE, line)?;
            let size = required_number(Field::Size, line)?;
            let digest = digest(alloc, line)?;
            Op::Put {
                path,
                mode,
                size,
                digest,
            }
        }
        PathVerb::Write => Op::Write {
            path,
            offset: number_or(0, Field::Offset, line)?,
            bytes: content(alloc, line)?,
        },
        PathVerb::Truncate => Op::Truncate {
            path,
            size: required_number(Field::Size, line)?,
        },
        PathVerb::SetMode => Op::SetMode {
            path,
            mode: required_mode(line)?,
        },
        PathVerb::Symlink => Op::Symlink {
            path,
            target: target(alloc, line)?,
        },
        PathVerb::Unlink => Op::Unlink { path },
        PathVerb::Rmdir => Op::Rmdir { path },
        PathVerb::Opaque => Op::Opaque { path },
        PathVerb::Whiteout => Op::Whiteout { path },
    })
}

/// The operation of a file command, or the first field of a path whose text is no path. The line's other fields
/// are tested then too.
#[tactic(auto, unfolding(crate::specs::Operations::file_operation))]
pub(crate) fn file_operation(
    alloc: Global,
    verb: FileVerb,
    line: &Value<'_>,
) -> Result<Result<Op, Field>, ReadError>
    ensures { Gives (λ op. op) result (file_operation verb (view line.now)) }
{
    match verb {
        FileVerb::At(verb) => match path_in(alloc, Field::Path, line)? {
            Some(path) => Ok(Ok(operation_at(alloc, verb, path, line)?)),
            None => {
                operation_at(alloc, verb, Path::root(alloc), line)?;
                Ok(Err(Field::Path))
            }
        },
        FileVerb::Link => {
            let from = path_in(alloc, Field::From, line)?;
            let to = path_in(alloc, Field::To, line)?;
            match (from, to) {
                (Some(from), Some(to)) => Ok(Ok(Op::Link { from, to })),
                (None, _) => Ok(Err(Field::From)),
                (Some(_), None) => Ok(Err(Field::To)),
            }
        }
        FileVerb::Rename => {
            let from = path_in(alloc, Field::From, line)?;
            let to = path_in(alloc, Field::To, line)?;
            match (from, to) {
                (Some(from), Some(to)) => Ok(Ok(Op::Rename { from, to })),
                (None, _) => Ok(Err(Field::From)),
                (Some(_), None) => Ok(Err(Field::To)),
            }
        }
    }
}

/// The file command that has the word. Memory is taken only where there is none.
#[tactic(auto, unfolding(crate::specs::Operations::file_verb))]
fn file_verb(alloc: Global, word: &str) -> Result<FileVerb, ReadError>
    ensures { Gives (λ verb. verb) result (file_verb word.now) }
{
    match verb_of(word) {
        Some(Verb::File(verb)) => Ok(verb),
        _ => Err(ReadError::Fault(no_such_command(alloc, near_file_command(word))?)),
    }
}

/// The operation of a job by its file command.
#[tactic(auto, unfolding(crate::specs::Operations::operation_by))]
fn operation_by(alloc: Global, verb: FileVerb, value: &Value<'_>) -> Result<Op, ReadError>
    ensures { Gives (λ op. op) result (operation_by verb (view value.now)) }
{
    match verb {
        FileVerb::At(verb) => {
            let path = path(alloc, Field::Path, value)?;
            operation_at(alloc, verb, path, value)
        }
        FileVerb::Link => Ok(Op::Link {
            from: path(alloc, Field::From, value)?,
            to: path(alloc, Field::To, value)?,
        }),
        FileVerb::Rename => Ok(Op::Rename {
            from: path(alloc, Field::From, value)?,
            to: path(alloc, Field::To, value)?,
        }),
    }
}

/// The operation of a job that a value is.
#[tactic(auto, unfolding(crate::specs::Operations::operation))]
fn operation(alloc: Global, rule: FieldRule, value: &Value<'_>) -> Result<Op, ReadError>
    ensures { Gives (λ op. op) result (operation rule (view value.now)) }
{
    if !value.is_object() {
        return Err(ReadError::Fault(Fault::NotAnObject));
    }
    let word = lent_text(Field::Do, value)?;
    let verb = file_verb(alloc, word)?;
    known_operation(alloc, rule, verb, value)?;
    operation_by(alloc, verb, value)
}

/// The same of the operation that has this number, which a fault tells.
fn numbered_operation(
    alloc: Global,
    rule: FieldRule,
    number: u64,
    value: &Value<'_>,
) -> Result<Op, ReadError>
    ensures { Gives (λ op. op) result (numbered number (operation rule (view value.now))) }
{
    match operation(alloc, rule, value) {
        Ok(op) => Ok(op),
        Err(ReadError::Fault(fault)) => Err(ReadError::Fault(fault.of_operation(number))),
        Err(ReadError::OutOfMemory(shortage)) => Err(ReadError::OutOfMemory(shortage)),
    }
}

/// The operations that values are, each in turn, counted from 1.
fn operations_in(
    alloc: Global,
    rule: FieldRule,
    values: &[Value<'_>],
) -> Result<Sequence<Op>, ReadError>
    ensures { Gives (λ ops. ops) result (operations_in rule 1 (items_view values.now)) }
{
    let mut ops = Sequence::new(alloc);
    for (place, value) in values.iter().enumerate() {
        ops.push(numbered_operation(alloc, rule, place as u64 + 1, value)?)?;
    }
    Ok(ops)
}

/// The operations of a job (`ops`): an array of objects, each with its word in `do` and the fields of that file
/// command, but for its snapshot and its extra amount.
///
/// `BadField` of `ops` where the field is absent, or no array. Then, operation by operation, `Operation` with its
/// number, counted from 1, and its fault: `NotAnObject`; `BadField` of `do` where that is no text; `NoSuchCommand`
/// where it is no file command's word; `UnknownField`, except where any field may stand; and `BadField` with the first
/// of its fields that is absent without a default, of a wrong kind, or a path's text that is no path. `OutOfMemory`
/// where memory was refused. The memory and the cost grow with the line, and a `fill` takes as many bytes as it asks
/// for.
#[tactic(auto, unfolding(crate::specs::Operations::operations))]
pub fn operations(
    alloc: Global,
    rule: FieldRule,
    line: &Value<'_>,
) -> Result<Sequence<Op>, ReadError>
    ensures { Gives (λ ops. ops) result (operations rule (view line.now)) }
{
    let found = line.get(Field::Ops.name()).ok_or(missing(Field::Ops))?;
    let Some(values) = found.as_array() else {
        return Err(ReadError::Fault(misfit(Field::Ops, found)));
    };
    operations_in(alloc, rule, values)
}
