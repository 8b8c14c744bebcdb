//! The lines of a script: commands read from JSON, answers written as JSON.
//!
//! A line is JSON as `serde_json` reads it. What it says is one definition, `line_of` in
//! `specs/Lines.antt`, with the commands in `specs/Commands.antt`, their words in `specs/Words.antt`, file
//! operations in `specs/Operations.antt`, the kinds of their fields in `specs/Fields.antt`, and which fields a line may
//! have, where unknown ones are faults, in `specs/Known.antt`. The line of an
//! answer is `answer_line` in `specs/Answers.antt`. Where a client may give a line an id, this is `id_of` in
//! `specs/Requests.antt`, and the line of a response `response_line` in `specs/Responses.antt`.
#![tactic(auto)]

mod about;
mod answer;
mod batch;
mod command;
mod fault;
pub mod fields;
mod lent;
mod line;
mod near;
mod operation;
mod parse;
mod refused;
mod request;
mod response;
mod restore;
mod unknown;
mod values;
mod verb;

pub use about::Subjects;
pub use answer::{Answer, JournalEntry, QuotaInfo, RefusedOperation, Shown, TreeNode};
pub use command::{Command, Lookup, Page, names_of};
pub use fault::{Fault, Field, Found, OperationFault, ReadError};
pub use lent::LentText;
pub use line::{Line, MAX_LINE_BYTES, command_in, is_empty, read_line, read_object, read_open};
pub use operation::operations;
pub use parse::named;
pub use refused::Refused;
pub use request::{Id, Request, read_request};
pub use response::Response;
pub use restore::RestoreRefusal;
pub use snap_json::Scratch;
pub use unknown::{FieldRule, known_job};
