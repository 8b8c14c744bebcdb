//! The calls of a store of snapshots as plain data, its state, and what one call makes of it.
//!
//! The calls are those of containerd's `snapshots.Snapshotter`. What a call answers and leaves is
//! one definition, `step` in `specs/Step.antt`: it is what the book, the world and the store are
//! proved to do. The state and all that it is made of are in `specs/State.antt`.
#![tactic(auto)]

mod call;
mod chain;
mod config;
mod cut;
mod entry;
mod entry_room;
mod forms;
mod held_record;
pub mod limits;
mod namespaces;
mod open_slots;
mod question;
mod record_edit;
mod records;
mod refusal;
mod removed;
mod reply;
mod same;
mod save;
mod saved;
mod saved_lease;
mod shared_entry;
mod spaces;
mod state;
mod sweep;

pub use call::{Call, Given};
pub use chain::{Chain, is_committed};
pub use config::{Config, ConfigField, Namespace};
pub use entry::Entry;
pub use entry_room::EntryRoom;
pub use forms::{is_key, is_limit, is_namespace, is_page, is_parent, is_start};
pub use held_record::{HeldRecord, unlabelled};
pub use namespaces::Namespaces;
pub use question::Question;
pub use records::{Records, slot_of};
pub use refusal::Refusal;
pub use removed::Removed;
pub use reply::Reply;
pub use save::{RecordById, saved_of};
pub use saved::{Saved, SavedContent};
pub use saved_lease::SavedLease;
pub use shared_entry::SharedEntry;
pub use state::State;
pub use sweep::Sweep;
