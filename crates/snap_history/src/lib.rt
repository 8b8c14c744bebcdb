//! What the entries of a round made of a namespace's charge.
//!
//! The answer is one definition, `history_since` in `specs/History.antt`, over the states that the entries lead
//! to. It is found without these states: an entry's call and reply tell what it changed.
#![tactic(auto)]

mod change;
mod charges;
mod info;
mod kind;
mod open;
mod shares;
mod target;

pub use charges::{entries_after, history};
pub use info::EntryInfo;
pub use kind::{CallKind, call_kind};
pub use open::OpenShares;
pub use shares::Shares;
pub use target::namespace_in;
