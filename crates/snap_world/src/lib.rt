//! A store of snapshots and the hands of its writers, in one thread.
//!
//! A list of steps is a run of a machine: what each step answers and leaves is one definition, `move`
//! in `specs/Move.antt`.
#![tactic(auto)]

mod applied;
mod fault;
mod hands;
mod layer;
mod peek;
mod quota;
mod restore;
mod restoring;
mod round;
mod save;
mod step;
mod world;

pub use applied::{Changed, Unapplied};
pub use fault::RestoreFault;
pub use quota::Quota;
pub use restoring::{Restoring, SavedHand};
pub use round::ReopenFault;
pub use save::{HeldSnapshot, HeldWorld, SavedSnapshot, SavedWorld};
pub use snap_call::{
    Call, Config, ConfigField, Entry, Given, Namespace, Refusal, Reply, Saved, SavedContent,
    SavedLease, SharedEntry,
};
pub use snap_merge::FsError;
pub use snap_path::NoMemory;
pub use snap_record::{Info, Kind, Labels, Record};
pub use snap_upper::Op;
pub use step::{Answer, Step};
pub use world::World;
