//! Leases: lists of names that keep committed snapshots from being removed.
//!
//! A lease belongs to one namespace. It names committed snapshots of that namespace, and a snapshot that a lease names is not
//! removed. A lease may have a last moment: it is live at that moment and before, and has ended after it. A moment is a number
//! that the caller hands in and that is only compared; no clock is read. An ended lease goes on guarding what it names until
//! `drop_ended` takes it away. In containerd a lease protects its resources from garbage collection (`leases.Manager`),
//! and its label `containerd.io/gc.expire` has the last moment.
//!
//! `sweep_set` is the mark of a mark and sweep over parents.
#![tactic(auto)]

mod entry;
mod error;
mod list;
mod live;
mod numbers;
mod sweep;
mod told;

pub use error::{LeaseError, LeaseNameError};
pub use list::Leases;
pub use live::LiveNames;
pub use sweep::sweep_set;
pub use told::{LeaseCopy, LeaseInfo};
