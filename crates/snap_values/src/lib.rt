//! What answers and lines of a script have, written as JSON: a store's values, and the line that makes a call.
//!
//! What is written as a value is a [`ToJson`], whose `value` is its JSON by `specs/Values.antt`. The line that makes a call
//! which an entry of a journal has is `call_line` in `specs/Calls.antt`.
#![tactic(auto)]

mod calls;
mod to_json;
mod values;

pub use calls::call_line;
pub use to_json::{ToJson, by_name, maybe, member, only, pair};
pub use values::refusal_name;
