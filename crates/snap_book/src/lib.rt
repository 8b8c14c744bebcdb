//! The book of a store, and the values that its writers hold.
//!
//! A layer of an image is unpacked: [`Book::prepare`] makes an active snapshot over its parent, charged
//! 1/1 for its root, and hands it to its writer as an [`Active`]. The writer fills it by
//! [`Active::apply`], which asks nobody. Where the share doesn't cover the layer afterwards, `apply`
//! answers `NeedsCharge` and changes nothing; [`Book::charge`] makes room, within the limit of the
//! namespace. [`Active::seal`] ends the writing, and [`Book::commit`] keeps the layer under a name:
//! from then on it never changes, and its namespace is charged exactly its blocks and inodes.
//!
//! A container runs on it: its own active snapshot, over the committed layer, takes what the container
//! writes. [`Book::discard`] drops it at the end, and gives back all that was charged for it.
//!
//! What a committed layer shows is read through a view: [`Book::view`] makes one, without a slot and
//! without a charge, and answers it as a [`Viewed`].
//!
//! Each call leaves an entry in the journal, with its reply. An `Active`, and a [`Sealed`], can't be
//! lost: it ends by a commit or a discard. Both tasks are written out in `life.rt` of the crate
//! `test_stores`, and proved there to meet what each call asks.
#![tactic(auto)]

mod active;
mod book;
mod charge;
mod charger;
mod commit;
mod files;
mod journal;
mod operation;
mod plain;
mod prepare;
mod questions;
mod round;
mod saved;
mod view;
mod viewed;

pub use active::{Active, Held, Released, Sealed};
pub use book::Book;
pub use charge::{needed_by, wanted};
pub use charger::{ApplyFault, Charger};
pub use operation::OpFault;
pub use snap_call::{
    Call, Config, Entry, Given, Namespace, Question, Refusal, Removed, Reply, SharedEntry,
};
pub use viewed::Viewed;
