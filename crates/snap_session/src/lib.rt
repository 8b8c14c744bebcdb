//! The run of a script: its lines are read from an input, each command acts on a store, and the line
//! of each answer is written to an output.
//!
//! What is written is one definition, `script` in `specs/Script.antt`: the transcript of `snap_lines`, where
//! each line does what its command does. That is `command_done` in `specs/Commands.antt`, over the steps of a world.
//! What a server writes, which answers each line, is `service` in `specs/Service.antt`. What a line does where the store's
//! changes are kept is `served_kept` in `specs/Kept.antt`, and what one of a log does `resumed_kept` in `specs/Resumed.antt`.
#![tactic(auto)]

mod about;
mod batch;
mod calls;
mod carried;
mod diff;
mod file_commands;
mod journal;
mod kept;
mod leases;
mod lookups;
mod opened;
mod pages;
mod quota;
mod restore;
mod resuming;
mod room;
mod round;
mod run;
mod saving;
mod script;
mod server;
mod step;
mod stepper;
mod tree;

pub use kept::KeptServer;
pub use resuming::Resuming;
pub use run::{RunOptions, Runner, replay, replay_within};
pub use saving::Saving;
pub use script::Script;
pub use server::{Server, serve};
pub use snap_lines::{LineFault, Stop};
pub use snap_world::NoMemory;
pub use stepper::Stepper;
pub use tree::tree_pages;
