ghost use Rattle.std.specs.Prelude.{◌≡◌, Some};
ghost use Rattle.snap_path.specs.Memory.{no_memory};
ghost use Rattle.snap_script.specs.Faults.{bad_field_words, brief, error_told, fault_words, field_name, found_words, of_operation, operation_brief, operation_words, unknown_field_words, wanted};
ghost use Rattle.snap_script.specs.declared.fault.ReadError.TheVariants as errors;

use crate::refused::Refused;
use crate::unknown::FieldRule;
use crate::values::config_field_name;
use snap_call::ConfigField;
use snap_path::NoMemory;
use snap_record::Text;
use std::alloc::{AllocError, AllocFailed};
use std::fmt;

/// The fields of a line.
#[derive(Clone, Copy, Debug, PartialEq, Eq)]
pub enum Field {
    /// `do`, the word of a command, or of an operation of a job.
    Do,
    /// `s`, the number of the session.
    Session,
    /// `id`, what a client calls a line.
    Id,
    Root,
    Namespaces,
    Journal,
    /// How many snapshots may be open at one time.
    Slots,
    LayerInodes,
    /// The most committed ancestors of a snapshot.
    Ancestors,
    /// `ns`, a namespace's name.
    Namespace,
    Key,
    Parent,
    Labels,
    /// The paths of the labels that an update changes.
    Paths,
    /// The key after which a walk begins, or the number of the entry after which those of a journal begin.
    After,
    /// `max`, the most snapshots that a walk gives, entries of a journal, or bytes of a part of a file.
    Most,
    Kind,
    Need,
    Want,
    Name,
    Lease,
    /// The last moment of a lease.
    Until,
    /// `now`, a moment.
    Moment,
    /// Whether a sweep is only tried.
    Try,
    /// Whether a usage is that of a snapshot with its ancestors.
    Chain,
    /// Whether a call that changes nothing is asked without an entry.
    Quiet,
    /// Whether a journal tells the lines that make the calls.
    Full,
    /// Whether a lookup may be of a committed snapshot.
    Peek,
    /// Whether of a batch all is done or none.
    Whole,
    Blocks,
    Inodes,
    Path,
    Mode,
    Offset,
    Size,
    Digest,
    Target,
    From,
    To,
    Text,
    Fill,
    Extra,
    /// The operations of a job.
    Ops,
    /// The end of a job.
    End,
}

/// What stands where a field has to be.
#[derive(Clone, Copy, Debug, PartialEq, Eq)]
pub enum Found {
    /// The line has no such field.
    Nothing,
    Null,
    /// `true` or `false`.
    Truth,
    Number,
    Text,
    Array,
    Object,
}

/// Why a line is no command, or why its command ends the run. Of several faults, the line has the first in the order
/// below; of several unknown fields, the first in byte order; of several bad ones, the first in the order of the
/// command's definition.
#[derive(Debug, PartialEq, Eq, Drop)]
pub enum Fault {
    /// More than 16,777,216 bytes without the line feed; a reader of a whole input may have more limits.
    TooLong,
    /// No UTF-8, or no JSON as `serde_json` reads it.
    NotJson,
    NotAnObject,
    /// No store was opened, and the command is neither `open` nor a line of a saved store.
    FirstLineMustBeOpen,
    /// A store was opened, and the command is `open` or a line of a saved store.
    OpenTwice,
    /// No command has the line's word; and the first word of a command that is one edit away from it, where there is
    /// one and it is told.
    NoSuchCommand(Option<Text>),
    /// The line has a field of this name, and its command has none, where unknown fields are faults; and the first field
    /// of the command whose name is one edit away.
    UnknownField(Text, Option<Field>),
    /// The field is missing and has no default, or its value is of a wrong kind; and what stands there, where that is
    /// told. `BadField(Do, _)` comes before `FirstLineMustBeOpen`.
    BadField(Field, Option<Found>),
    /// The operation of a job that has this number, counted from 1, has the fault.
    Operation(u64, OperationFault),
    /// The configuration that opens the store of a script of jobs is malformed; and its first such part, where that is
    /// told.
    BadOpen(Option<ConfigField>),
    /// The command was refused, where a run ends at that.
    Refused(Refused),
}

/// Why a value is no operation of a job. Of several faults, the operation has the first in the order below, as a
/// line has.
#[derive(Debug, PartialEq, Eq, Drop)]
pub enum OperationFault {
    NotAnObject,
    /// No file command has the operation's word; and the first word of a file command that is one edit away from it.
    NoSuchCommand(Option<Text>),
    /// The operation has a field of this name, and its file command has none, or one that a job has in its place; and
    /// the first field of the operation whose name is one edit away.
    UnknownField(Text, Option<Field>),
    /// The field is missing and has no default, or its value is of a wrong kind, or the text of a path is none; and
    /// what stands there. `BadField(Do, _)` comes before `NoSuchCommand`.
    BadField(Field, Option<Found>),
}

/// Why no line was read.
#[derive(Drop)]
pub enum ReadError {
    Fault(Fault),
    OutOfMemory(NoMemory),
}

impl Field {
    /// The field's name, as it stands in a line.
    pub fn name(self) -> &'static str
        ensures { result.now ≡ field_name self }
    {
        match self {
            Field::Do => "do",
            Field::Session => "s",
            Field::Id => "id",
            Field::Root => "root",
            Field::Namespaces => "namespaces",
            Field::Journal => "journal",
            Field::Slots => "slots",
            Field::LayerInodes => "layer_inodes",
            Field::Ancestors => "ancestors",
            Field::Namespace => "ns",
            Field::Key => "key",
            Field::Parent => "parent",
            Field::Labels => "labels",
            Field::Paths => "paths",
            Field::After => "after",
            Field::Most => "max",
            Field::Kind => "kind",
            Field::Need => "need",
            Field::Want => "want",
            Field::Name => "name",
            Field::Lease => "lease",
            Field::Until => "until",
            Field::Moment => "now",
            Field::Try => "try",
            Field::Chain => "chain",
            Field::Quiet => "quiet",
            Field::Full => "full",
            Field::Peek => "peek",
            Field::Whole => "whole",
            Field::Blocks => "blocks",
            Field::Inodes => "inodes",
            Field::Path => "path",
            Field::Mode => "mode",
            Field::Offset => "offset",
            Field::Size => "size",
            Field::Digest => "digest",
            Field::Target => "target",
            Field::From => "from",
            Field::To => "to",
            Field::Text => "text",
            Field::Fill => "fill",
            Field::Extra => "extra",
            Field::Ops => "ops",
            Field::End => "end",
        }
    }

    /// What the field has to be: the kind of its value, and the words for it.
    fn wanted(self) -> (Found, &'static str)
        ensures { (result.0 ≡ (wanted self).0) × (result.1.now ≡ (wanted self).1) }
    {
        match self {
            Field::Session
            | Field::Journal
            | Field::Slots
            | Field::LayerInodes
            | Field::Ancestors
            | Field::Most
            | Field::Until
            | Field::Moment
            | Field::Blocks
            | Field::Inodes
            | Field::Mode
            | Field::Offset
            | Field::Size => (Found::Number, "a number"),
            Field::Try | Field::Chain | Field::Quiet | Field::Full | Field::Peek | Field::Whole => (
                Found::Truth,
                "true or false",
            ),
            Field::Do => (
                Found::Text,
                "the word of a command, in a job that of a file command,",
            ),
            Field::After => (
                Found::Text,
                "a text in a walk, a tree or a diff, a number of digits alone below 2^64 in a journal or a save",
            ),
            Field::Kind => (Found::Text, "View, Active or Committed"),
            Field::Path | Field::From | Field::To => (Found::Text, "a path"),
            Field::End => (Found::Text, "commit or discard"),
            Field::Id
            | Field::Root
            | Field::Namespace
            | Field::Key
            | Field::Parent
            | Field::Name
            | Field::Lease
            | Field::Digest
            | Field::Target
            | Field::Text => (Found::Text, "a text"),
            Field::Namespaces => (Found::Array, "an array of [name, blocks, inodes]"),
            Field::Paths => (Found::Array, "an array of texts"),
            Field::Need | Field::Want | Field::Extra => (Found::Array, "[blocks, inodes]"),
            Field::Fill => (Found::Array, "[byte, number up to 1048576]"),
            Field::Ops => (Found::Array, "an array of objects"),
            Field::Labels => (
                Found::Object,
                "an object of texts, in a walk also of nulls,",
            ),
        }
    }
}

impl Found {
    /// The words for what is there, where a value of this kind is wanted.
    fn words(self, wanted: Found) -> &'static str
        ensures { result.now ≡ found_words self wanted }
    {
        match (self, wanted) {
            (Found::Nothing, _) => "nothing",
            (Found::Null, _) => "null",
            (Found::Truth, _) => "a truth value",
            (Found::Number, Found::Number) => "one that is not of digits alone below 2^64",
            (Found::Number, _) => "a number",
            (Found::Text, Found::Text) => "another text",
            (Found::Text, _) => "a text",
            (Found::Array, Found::Array) => "another array",
            (Found::Array, _) => "an array",
            (Found::Object, Found::Object) => "another object",
            (Found::Object, _) => "an object",
        }
    }
}

impl OperationFault {
    /// The fault of the job's line, without the operation's place and what is wanted, there or near: an operation
    /// that is no object is a bad field `ops`, and a word of no file command a bad field `do`.
    fn brief(self) -> Fault
        ensures { result ≡ operation_brief self }
    {
        match self {
            OperationFault::NotAnObject => Fault::BadField(Field::Ops, None),
            OperationFault::NoSuchCommand(_) => Fault::BadField(Field::Do, None),
            OperationFault::UnknownField(name, _) => Fault::UnknownField(name, None),
            OperationFault::BadField(field, _) => Fault::BadField(field, None),
        }
    }
}

impl Fault {
    /// The fault without what is wanted and what is there, and without what is near; that of an operation without its
    /// place, and that of a configuration without its part. Takes no memory.
    pub fn brief(self) -> Fault
        ensures { result ≡ brief self }
    {
        match self {
            Fault::NoSuchCommand(_) => Fault::NoSuchCommand(None),
            Fault::UnknownField(name, _) => Fault::UnknownField(name, None),
            Fault::BadField(field, _) => Fault::BadField(field, None),
            Fault::Operation(_, fault) => fault.brief(),
            Fault::BadOpen(_) => Fault::BadOpen(None),
            Fault::TooLong
            | Fault::NotJson
            | Fault::NotAnObject
            | Fault::FirstLineMustBeOpen
            | Fault::OpenTwice
            | Fault::Refused(_) => self,
        }
    }

    /// The fault of the operation of a job that has this number, where a value is no operation for it.
    pub(crate) fn of_operation(self, number: u64) -> Fault
        ensures { result ≡ of_operation number self }
    {
        match self {
            Fault::NotAnObject => Fault::Operation(number, OperationFault::NotAnObject),
            Fault::NoSuchCommand(near) => {
                Fault::Operation(number, OperationFault::NoSuchCommand(near))
            }
            Fault::UnknownField(name, near) => {
                Fault::Operation(number, OperationFault::UnknownField(name, near))
            }
            Fault::BadField(field, found) => {
                Fault::Operation(number, OperationFault::BadField(field, found))
            }
            Fault::TooLong
            | Fault::NotJson
            | Fault::FirstLineMustBeOpen
            | Fault::OpenTwice
            | Fault::Operation(_, _)
            | Fault::BadOpen(_)
            | Fault::Refused(_) => self,
        }
    }
}

impl ReadError {
    /// The error with its fault as the rule tells it: where any field may stand in a line, that is
    /// [brief](Fault::brief). Takes no memory.
    pub fn told(self, rule: FieldRule) -> ReadError
        ensures { result ≡ error_told rule self }
    {
        match rule {
            FieldRule::Any => match self {
                ReadError::Fault(fault) => ReadError::Fault(fault.brief()),
                ReadError::OutOfMemory(shortage) => ReadError::OutOfMemory(shortage),
            },
            FieldRule::Known | FieldRule::KnownAndId => self,
        }
    }
}

/// The words for a field that isn't known, and for the one that is near.
#[derive(Drop)]
struct UnknownField<'a>(&'a Text, Option<Field>);

impl fmt::Display for UnknownField<'_> {
    ghost output = { λ f. Some (unknown_field_words f.0.now f.1) };

    fn fmt<W: fmt::Write>(&self, f: &mut fmt::Formatter<W>) -> fmt::Result {
        let name = self.0;
        match self.1 {
            None => write!(f, "unknown field {name}"),
            Some(near) => {
                let near = near.name();
                write!(f, "unknown field {name}: {near}?")
            }
        }
    }
}

/// The words for a bad field, and for what is wanted and what is there.
#[derive(Drop)]
struct BadField(Field, Option<Found>);

impl fmt::Display for BadField {
    ghost output = { λ f. Some (bad_field_words f.0 f.1) };

    fn fmt<W: fmt::Write>(&self, f: &mut fmt::Formatter<W>) -> fmt::Result {
        let name = self.0.name();
        match self.1 {
            None => write!(f, "bad field {name}"),
            Some(found) => {
                let (kind, wanted) = self.0.wanted();
                let there = found.words(kind);
                write!(f, "bad field {name}: {wanted} is wanted, {there} is there")
            }
        }
    }
}

/// The fault's words, without the operation's place; a width or a precision has no effect.
impl fmt::Display for OperationFault {
    ghost output = { λ f. Some (operation_words f) };

    fn fmt<W: fmt::Write>(&self, f: &mut fmt::Formatter<W>) -> fmt::Result {
        match self {
            OperationFault::NotAnObject => f.write_str("not an object"),
            OperationFault::NoSuchCommand(None) => f.write_str(
                "bad field do: the word of a file command is wanted, another text is there",
            ),
            OperationFault::NoSuchCommand(Some(near)) => write!(f, "bad field do: {near}?"),
            OperationFault::UnknownField(name, near) => UnknownField(name, *near).fmt(f),
            OperationFault::BadField(field, found) => BadField(*field, *found).fmt(f),
        }
    }
}

/// The fault's words; a width or a precision has no effect.
impl fmt::Display for Fault {
    ghost output = { λ f. Some (fault_words f) };

    fn fmt<W: fmt::Write>(&self, f: &mut fmt::Formatter<W>) -> fmt::Result {
        match self {
            Fault::TooLong => f.write_str("too long"),
            Fault::NotJson => f.write_str("not JSON"),
            Fault::NotAnObject => f.write_str("not an object"),
            Fault::FirstLineMustBeOpen => f.write_str("first line must be open"),
            Fault::OpenTwice => f.write_str("open twice"),
            Fault::NoSuchCommand(None) => f.write_str("no such command"),
            Fault::NoSuchCommand(Some(near)) => write!(f, "no such command: {near}?"),
            Fault::UnknownField(name, near) => UnknownField(name, *near).fmt(f),
            Fault::BadField(field, found) => BadField(*field, *found).fmt(f),
            Fault::Operation(number, fault) => write!(f, "operation {number}: {fault}"),
            Fault::BadOpen(None) => f.write_str("bad field open"),
            Fault::BadOpen(Some(field)) => {
                let malformed = config_field_name(*field);
                write!(f, "bad field open: malformed {malformed}")
            }
            Fault::Refused(Refused::BadRestore(why)) => write!(f, "BadRestore: {why}"),
            Fault::Refused(why) => f.write_str(why.name()),
        }
    }
}

impl From<Fault> for ReadError {
    ghost from_gives = { λ fault e. e ≡ errors.Fault fault };

    fn from(fault: Fault) -> ReadError {
        ReadError::Fault(fault)
    }
}

impl From<NoMemory> for ReadError {
    ghost from_gives = { λ _ e. e ≡ errors.OutOfMemory no_memory };

    fn from(no_memory: NoMemory) -> ReadError {
        ReadError::OutOfMemory(no_memory)
    }
}

impl From<AllocError> for ReadError {
    ghost from_gives = { λ _ e. e ≡ errors.OutOfMemory no_memory };

    fn from(refused: AllocError) -> ReadError {
        ReadError::OutOfMemory(refused.into())
    }
}

impl<T: Drop> From<AllocFailed<T>> for ReadError {
    ghost from_gives = { λ _ e. e ≡ errors.OutOfMemory no_memory };

    fn from(failed: AllocFailed<T>) -> ReadError {
        ReadError::OutOfMemory(failed.into())
    }
}
