//! The JSON text of a value, written without the value, and a value that lends its texts, read from one.
//!
//! A `Writer` is handed tokens. Where they are those of a value of `serde_json`, which is the definition
//! `with_value` in `specs/Tokens.antt`, its text is the one that `serde_json` writes for the value.
//!
//! A `Value` is the one that `serde_json` reads of a text, by the definition `view` in `specs/View.antt`.
#![tactic(auto)]

mod number;
mod read;
mod shallow;
mod unreadable;
mod value;
mod writer;

pub use json::{Scratch, Token};
pub use serde_json::Number;
pub use unreadable::Unreadable;
pub use value::{Member, Value, by_name};
pub use writer::Writer;
