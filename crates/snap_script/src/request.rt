// A line that a client may give an id.
ghost use Rattle.std.specs.Prelude.{◌≡◌, IfOk, None};
ghost use Rattle.snap_json.specs.View.{view};
ghost use Rattle.snap_script.specs.Lines.{command_in, line_of};
ghost use Rattle.snap_script.specs.Requests.{id_in_request, id_of};
ghost use Rattle.snap_script.specs.declared.unknown.FieldRule.TheVariants.{KnownAndId};

use crate::fault::{Fault, ReadError};
use crate::line::{Line, MAX_LINE_BYTES, command_in, is_empty, read_object};
use crate::unknown::FieldRule;
use snap_json::{Scratch, Value};
use snap_path::NoMemory;
use snap_record::Text;
use std::alloc::{AllocError, Global};

/// What a client calls a line.
#[derive(Drop)]
pub enum Id {
    Text(Text),
    Number(u64),
}

/// What was read of a line.
#[derive(Drop)]
pub struct Request<'line> {
    /// The id of a line that is an object: its member `id`, where that is a text or a number.
    pub id: Option<Id>,
    /// The line, or why it is none.
    pub line: Result<Line<'line>, Fault>,
}

impl<'line> Request<'line> {
    // A line that is no object.
    fn without_id(line: Result<Line<'line>, Fault>) -> Request<'line>
        ensures { (result.id ≡ None) × (result.line ≡ line.entry) }
    {
        Request { id: None, line }
    }
}

fn id_in(alloc: Global, line: &Value<'_>) -> Result<Option<Id>, AllocError>
    ensures { IfOk result (λ id. id ≡ id_in_request (view line.now)) }
{
    let Some(value) = line.get("id") else {
        return Ok(None);
    };
    if let Some(text) = value.as_str() {
        return Ok(Some(Id::Text(Text::copy_of(alloc, text)?)));
    }
    match value.as_u64() {
        Some(number) => Ok(Some(Id::Number(number))),
        None => Ok(None),
    }
}

/// The request of the object that a line is.
fn request_in<'a>(alloc: Global, opened: bool, line: &Value<'a>) -> Result<Request<'a>, NoMemory>
    ensures { IfOk result (λ request. (request.id ≡ id_in_request (view line.now)) × (request.line ≡ command_in KnownAndId opened (view line.now))) }
{
    let id = id_in(alloc, line)?;
    match command_in(alloc, FieldRule::KnownAndId, opened, line) {
        Ok(line) => Ok(Request { id, line: Ok(line) }),
        Err(ReadError::Fault(fault)) => Ok(Request {
            id,
            line: Err(fault),
        }),
        Err(ReadError::OutOfMemory(no_memory)) => Err(no_memory),
    }
}

/// Reads a line, which stands here without its line feed, with its id. Its fields are those of its command, `do`, `s` and
/// `id`. `opened` says whether a store was opened. A line of more than 16,777,216 bytes and one that is no object have no
/// id. The line and the scratch lend the command's texts.
///
/// `NoMemory` where memory for the line's value or for the command was refused. The memory and the cost are those of
/// [`read_line`](crate::read_line).
#[tactic(auto, unfolding(crate::specs::Lines::line_of, crate::specs::Lines::command_line, crate::specs::Requests::id_of))]
pub fn read_request<'a>(
    alloc: Global,
    bytes: &'a [u8],
    opened: bool,
    scratch: &'a mut Scratch,
) -> Result<Request<'a>, NoMemory>
    ensures id { IfOk result (λ request. request.id ≡ id_of bytes.now) }
    ensures line { IfOk result (λ request. request.line ≡ line_of KnownAndId opened bytes.now) }
{
    if bytes.len() > MAX_LINE_BYTES {
        return Ok(Request::without_id(Err(Fault::TooLong)));
    }
    if is_empty(bytes) {
        return Ok(Request::without_id(Ok(Line::Empty)));
    }
    match read_object(alloc, bytes, scratch) {
        Ok(line) => Ok(request_in(alloc, opened, &line)?),
        Err(ReadError::Fault(fault)) => Ok(Request::without_id(Err(fault))),
        Err(ReadError::OutOfMemory(no_memory)) => Err(no_memory),
    }
}
