//! The two halves of a slot's charge: what the store has charged for it, and what its writer may fill.
//!
//! A [`Charge`] is the store's half and a [`Share`] the writer's. Both are seats of one `atomic_table`,
//! whose rule ties them: a slot has one charge, and one share exactly while it is issued, and both hold
//! the same usage under the same id. So a share that meets the charge of its slot equals it, whatever
//! others did between, and no call tests it. The type parameter `N` names the table of the store.
#![tactic(auto)]

mod halves;
mod rule;

pub use halves::{Charge, NewTable, Share, StoreName};
