ghost use Rattle.std.specs.Prelude.{◌≡◌, IfOk, option_map};
ghost use Rattle.snap_json.specs.View.{view};
ghost use Rattle.snap_script.specs.Lines.{is_empty, object_in, allowed, command_in, opens, session_known, opening_of, line_of};
ghost use Rattle.snap_script.specs.Words.{verb_of};
ghost use Rattle.snap_script.specs.Gives.{Gives};
ghost use Rattle.snap_script.specs.declared.fault.Fault.TheVariants.{NoSuchCommand};

use crate::command::Command;
use crate::fault::{Fault, Field, ReadError};
use crate::fields::{lent_text, number_or};
use crate::parse::{command_of, config_of};
use crate::unknown::{FieldRule, known_fields};
use crate::verb::{Verb, near_command, verb_of};
use snap_call::Config;
use snap_json::{Scratch, Unreadable, Value};
use snap_record::Text;
use std::alloc::{AllocError, Global};

/// The most bytes of a line, without its line feed.
pub const MAX_LINE_BYTES: usize = 16_777_216;

/// What a line of a script is.
#[derive(Drop)]
pub enum Line<'line> {
    /// Nothing but spaces, tabs and carriage returns.
    Empty,
    /// A command, and the number of the session that makes its calls.
    Command {
        session: u64,
        command: Command<'line>,
    },
}

/// Whether a line, without its line feed, has nothing but spaces, tabs and carriage returns.
pub fn is_empty(bytes: &[u8]) -> bool
    ensures { result ≡ is_empty bytes.now }
{
    for byte in bytes {
        let is_space = *byte == b' ' || *byte == b'\t' || *byte == b'\r';
        if !is_space {
            return false;
        }
    }
    true
}

/// The object that a line is, without its line feed, whatever its length. The line lends its texts, and those with
/// escapes the scratch.
///
/// `NotJson`, then `NotAnObject`; `OutOfMemory` where memory for the scratch or the object was refused. The cost
/// grows with the line, and so does the memory, where the line is an object; else it is that of the scratch.
#[tactic(auto, using(crate::proofs::LineValues::not_utf8, crate::proofs::LineValues::not_json, crate::proofs::LineValues::is_object, crate::proofs::LineValues::no_object))]
pub fn read_object<'a>(
    alloc: Global,
    bytes: &'a [u8],
    scratch: &'a mut Scratch,
) -> Result<Value<'a>, ReadError>
    ensures { Gives view result (object_in bytes.now) }
{
    let Ok(text) = str::from_utf8(bytes) else {
        return Err(ReadError::Fault(Fault::NotJson));
    };
    match Value::read_object(alloc, text, scratch) {
        Ok(Some(object)) => Ok(object),
        Ok(None) => Err(ReadError::Fault(Fault::NotAnObject)),
        Err(Unreadable::NotJson) => Err(ReadError::Fault(Fault::NotJson)),
        Err(Unreadable::OutOfMemory(no_memory)) => Err(no_memory.into()),
    }
}

/// The fault of a word that no command has, with the one that is near.
pub(crate) fn no_such_command(alloc: Global, near: Option<&str>) -> Result<Fault, AllocError>
    ensures { IfOk result (λ fault. fault ≡ NoSuchCommand (option_map (λ word. word.now) near.entry)) }
{
    match near {
        Some(near) => Ok(Fault::NoSuchCommand(Some(Text::copy_of(alloc, near)?))),
        None => Ok(Fault::NoSuchCommand(None)),
    }
}

/// The verb of a word, where a command of it may stand here. Memory is taken only where no command has the word.
#[tactic(auto, unfolding(crate::specs::Lines::allowed))]
fn allowed(alloc: Global, opened: bool, word: &str) -> Result<Verb, ReadError>
    ensures { Gives (λ verb. verb) result (allowed opened word.now) }
{
    match (opened, verb_of(word)) {
        (false, Some(verb @ (Verb::Open | Verb::Restore))) => Ok(verb),
        (false, _) => Err(ReadError::Fault(Fault::FirstLineMustBeOpen)),
        (true, Some(Verb::Open | Verb::Restore)) => Err(ReadError::Fault(Fault::OpenTwice)),
        (true, Some(verb)) => Ok(verb),
        (true, None) => Err(ReadError::Fault(no_such_command(alloc, near_command(word))?)),
    }
}

/// That the word is that of `open`.
fn is_open(word: &str) -> Result<(), Fault>
    ensures { result ≡ opens (verb_of word.now) }
{
    match verb_of(word) {
        Some(Verb::Open) => Ok(()),
        _ => Err(Fault::FirstLineMustBeOpen),
    }
}

/// The command of the object that a line is. `rule` says which fields it may have, and `opened` whether a store was
/// opened. It is never `Empty`.
///
/// `BadField` of `do`, `FirstLineMustBeOpen` or `OpenTwice`, `NoSuchCommand`, `UnknownField`, `BadField` of `s`, and then
/// those of the command's fields in their order; each tells what [`Fault`] has, whatever the rule. `OutOfMemory` where
/// memory for it was refused. The memory and the cost grow with the line.
#[tactic(auto, unfolding(crate::specs::Lines::command_in))]
pub fn command_in<'a>(
    alloc: Global,
    rule: FieldRule,
    opened: bool,
    line: &Value<'a>,
) -> Result<Line<'a>, ReadError>
    ensures { Gives (λ line. line) result (command_in rule opened (view line.now)) }
{
    let word = lent_text(Field::Do, line)?;
    let verb = allowed(alloc, opened, word)?;
    known_fields(alloc, rule, verb, line)?;
    let session = number_or(0, Field::Session, line)?;
    let command = command_of(alloc, rule, verb, line)?;
    Ok(Line::Command { session, command })
}

/// Tests the `s` of a line that opens a store where no session is named, but not where any field may stand.
#[tactic(auto, unfolding(crate::specs::Lines::session_known))]
fn session_known(rule: FieldRule, line: &Value<'_>) -> Result<(), Fault>
    ensures { result ≡ session_known rule (view line.now) }
{
    match rule {
        FieldRule::Any => Ok(()),
        FieldRule::Known | FieldRule::KnownAndId => {
            number_or(0, Field::Session, line)?;
            Ok(())
        }
    }
}

/// The store that a first line opens, where no session is named: where any field may stand, `s` isn't looked at.
/// `rule` says which fields it may have.
///
/// `BadField` of `do`, then `FirstLineMustBeOpen`. Where not any field may stand, `UnknownField`, then `BadField` of `s`
/// that is no number. Then the fields of `open` in their order. The configuration need not be well-formed.
/// `OutOfMemory` where memory for it was refused. The memory and the cost grow with the line.
#[tactic(auto, unfolding(crate::specs::Lines::opening_of))]
pub fn read_open(alloc: Global, rule: FieldRule, line: &Value<'_>) -> Result<Config, ReadError>
    ensures { Gives (λ config. config) result (opening_of rule (view line.now)) }
{
    let word = lent_text(Field::Do, line)?;
    is_open(word)?;
    known_fields(alloc, rule, Verb::Open, line)?;
    session_known(rule, line)?;
    config_of(alloc, line)
}

/// Reads a line, which stands here without its line feed. `rule` says which fields it may have, and `opened` whether a
/// store was opened.
///
/// Where any field may stand, a fault is [brief](Fault::brief).
///
/// The line lends the command's texts, and those with escapes the scratch. `OutOfMemory` where memory for the line's
/// value or for the command was refused. The memory and the cost grow with the line, and a `fill` takes as many bytes as
/// it asks for. The scratch keeps what it took for the next line.
#[tactic(auto, unfolding(crate::specs::Lines::command_line, crate::specs::Lines::line_of))]
pub fn read_line<'a>(
    alloc: Global,
    bytes: &'a [u8],
    rule: FieldRule,
    opened: bool,
    scratch: &'a mut Scratch,
) -> Result<Line<'a>, ReadError>
    ensures { Gives (λ line. line) result (line_of rule opened bytes.now) }
{
    if bytes.len() > MAX_LINE_BYTES {
        return Err(ReadError::Fault(Fault::TooLong));
    }
    if is_empty(bytes) {
        return Ok(Line::Empty);
    }
    let line = read_object(alloc, bytes, scratch)?;
    match command_in(alloc, rule, opened, &line) {
        Ok(line) => Ok(line),
        Err(error) => Err(error.told(rule)),
    }
}
