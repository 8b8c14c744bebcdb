//! Lines of a saved store, and why one isn't taken.
ghost use Rattle.std.specs.Prelude.{◌≡◌, IfOk, OnOk, Some};
ghost use Rattle.snap_json.specs.Tokens.{with_value};
ghost use Rattle.snap_json.specs.View.{view};
ghost use Rattle.snap_pieces.specs.Read.{line_said};
ghost use Rattle.snap_script.specs.Answers.{answer_data, restore_data, saved_lines};
ghost use Rattle.snap_script.specs.Restoring.{layer_words, part_words, restore_words};
ghost use Rattle.snap_script.specs.declared.answer.Answer.TheVariants as answers;

use crate::values::config_field_name;
use snap_call::{ConfigField, Refusal};
use snap_json::{Token, Value, Writer};
use snap_path::NoMemory;
use snap_pieces::{Line as SavedLine, LineError, LineField, read_line, write_line};
use snap_saved::{Fault, Part};
use snap_values::{maybe, member, refusal_name};
use std::alloc::{AllocError, Global};
use std::fmt;

/// Why a line of a saved store isn't taken, or why the store of such lines isn't opened. Places are counted from 0.
#[derive(Clone, Copy, Debug, PartialEq, Eq)]
pub enum RestoreRefusal {
    /// The field is missing or isn't of its kind; it is the first such one.
    BadField(LineField),
    /// The line doesn't come after those before it, or the command is `open`.
    Misplaced,
    /// The last line counts more or fewer lines than have come.
    Incomplete,
    /// With these bytes a file has more than 1,048,576.
    TooBig,
    /// The snapshot has a label of this key already.
    LabelTwice,
    /// The snapshot has 64 labels already.
    TooManyLabels,
    /// The layer of the snapshot at this place has a part that no layer has there.
    Layer(usize, Part, Fault),
    /// A part of the configuration is malformed.
    Config(ConfigField),
    /// The number of the last entry is above 2^62.
    Entries,
    /// The snapshot at this place is refused.
    Snapshot(usize, Refusal),
    /// The lease at this place is refused.
    Lease(usize, Refusal),
    /// The id of the next snapshot is one that was given.
    NextId,
    /// A round of as many entries can't begin there.
    Journal(Refusal),
}

/// The name of what is wrong with a part of a layer.
fn layer_fault_name(fault: Fault) -> &'static str
    ensures { result.now ≡ layer_words fault }
{
    match fault {
        Fault::BadMode => "BadMode",
        Fault::BadMost => "BadMost",
        Fault::NotInOrder => "NotInOrder",
        Fault::NoParent => "NoParent",
        Fault::Occupied => "Occupied",
        Fault::NoNames => "NoNames",
        Fault::BadNumber => "BadNumber",
        Fault::BadBody => "BadBody",
        Fault::Full => "Full",
    }
}

/// A part of a layer, by its list and its place in it.
#[derive(Clone, Copy)]
struct LayerPart(Part);

impl fmt::Display for LayerPart {
    ghost output = { λ p. Some (part_words p.0) };

    fn fmt<W: fmt::Write>(&self, f: &mut fmt::Formatter<W>) -> fmt::Result {
        match self.0 {
            Part::Root => f.write_str("root"),
            Part::Dir(place) => write!(f, "dir {place}"),
            Part::Whiteout(place) => write!(f, "whiteout {place}"),
            Part::File(place) => write!(f, "file {place}"),
            Part::Name { file, name } => write!(f, "file {file}, name {name}"),
            Part::Next => f.write_str("next"),
            Part::Most => f.write_str("most"),
        }
    }
}

/// Its words, as `snapshot 3: NotFound`; a width or a precision has no effect.
impl fmt::Display for RestoreRefusal {
    ghost output = { λ why. Some (restore_words why) };

    fn fmt<W: fmt::Write>(&self, f: &mut fmt::Formatter<W>) -> fmt::Result {
        match *self {
            RestoreRefusal::BadField(field) => {
                let name = field.name();
                write!(f, "bad field {name}")
            }
            RestoreRefusal::Misplaced => f.write_str("not in its place"),
            RestoreRefusal::Incomplete => f.write_str("a line is missing"),
            RestoreRefusal::TooBig => f.write_str("more than 1048576 bytes"),
            RestoreRefusal::LabelTwice => f.write_str("the label is there already"),
            RestoreRefusal::TooManyLabels => f.write_str("more than 64 labels"),
            RestoreRefusal::Layer(place, part, fault) => {
                let part = LayerPart(part);
                let name = layer_fault_name(fault);
                write!(f, "snapshot {place}, {part}: {name}")
            }
            RestoreRefusal::Config(field) => {
                let name = config_field_name(field);
                write!(f, "malformed {name}")
            }
            RestoreRefusal::Entries => f.write_str("entries above 2^62"),
            RestoreRefusal::Snapshot(place, why) => {
                let name = refusal_name(why);
                write!(f, "snapshot {place}: {name}")
            }
            RestoreRefusal::Lease(place, why) => {
                let name = refusal_name(why);
                write!(f, "lease {place}: {name}")
            }
            RestoreRefusal::NextId => f.write_str("next_id was given"),
            RestoreRefusal::Journal(why) => {
                let name = refusal_name(why);
                write!(f, "journal: {name}")
            }
        }
    }
}

/// The line of a saved store that an object is, or the first of its fields that is missing or isn't of its kind.
pub(crate) fn restored(
    alloc: Global,
    line: &Value<'_>,
) -> Result<Result<SavedLine, LineField>, NoMemory>
    ensures { IfOk result (λ read. read ≡ line_said (view line.now)) }
{
    match read_line(alloc, line) {
        Ok(read) => Ok(Ok(read)),
        Err(LineError::BadField(field)) => Ok(Err(field)),
        Err(LineError::OutOfMemory(no_memory)) => Err(no_memory),
    }
}

/// The answer to a line of a saved store that isn't taken.
pub(crate) fn not_restored(
    alloc: Global,
    out: &mut Writer,
    why: RestoreRefusal,
) -> Result<(), AllocError>
    ensures { OnOk result (out.new ≡ with_value (restore_data why) out.old) }
{
    let words = format!(in alloc; "{why}")?;
    out.token(Token::BeginObject)?;
    member(alloc, out, "error", &"BadRestore")?;
    member(alloc, out, "from", &"restore")?;
    member(alloc, out, "why", &words.as_str())?;
    out.token(Token::EndObject)
}

/// The lines as an array.
fn lines(alloc: Global, out: &mut Writer, found: &[SavedLine]) -> Result<(), AllocError>
    ensures { OnOk result (out.new ≡ with_value (saved_lines found.now) out.old) }
{
    out.token(Token::BeginArray)?;
    for line in found {
        write_line(alloc, out, line)?;
    }
    out.token(Token::EndArray)
}

/// Lines of a saved store, and how many there are so far, where more follow.
#[tactic(auto, using(snap_values::proofs::Maps::with_members_maybe))]
pub(crate) fn saved(
    alloc: Global,
    out: &mut Writer,
    found: &[SavedLine],
    next: Option<u64>,
) -> Result<(), AllocError>
    ensures { OnOk result (out.new ≡ with_value (answer_data (answers.Saved found.now next)) out.old) }
{
    out.token(Token::BeginObject)?;
    out.token(Token::Key("lines"))?;
    lines(alloc, out, found)?;
    maybe(alloc, out, "next", &next)?;
    out.token(Token::EndObject)
}
