//! The book of a store behind its lock, the sessions that call it from threads of their own, and the
//! close, which tells what was charged in the end.
//!
//! A [`Store`] is opened, and each thread opens a [`Session`] of its own. A session's tape has each
//! entry that its calls left in the journal. At the end the threads hand their sessions back, and
//! [`Store::close`] compares the tapes with the journal: so what the calls answered is what was done, and each
//! namespace is charged exactly the blocks and inodes counted over its committed layers. [`Store::reopen`]
//! begins the next round over the same snapshots.
#![tactic(auto)]

mod cause;
mod charger;
mod close;
mod note;
mod plain;
mod store;

pub use cause::{Cause, OpenKey, close_cause};
pub use charger::StoreCharger;
pub use close::{Closed, NotClosed, NotOpened};
pub use plain::Swept;
pub use snap_path::NoMemory;
pub use snap_round::{NewStore, Round, RoundName};
pub use snap_tape::{Mismatch, Session, first_mismatch};
pub use store::Store;
