//! What is fixed while a round goes on, in two halves: one lies under a store's lock, and one beside it.
//!
//! No clause can name what is behind a lock. So the book under it keeps a [`Half`], which has the round's opening
//! and the most entries of its journal, and the store keeps the other half in its [`Tie`]. Both are seats of one
//! `atomic_table`, whose rule ties them: there is one half of each kind, and both have the same round. So
//! whoever takes the book out of its lock and joins the halves knows that it is of the round that the store was
//! opened or reopened with, whatever others did between. When it runs, a half takes no bytes, and none of it
//! is looked at under the lock.
#![tactic(auto)]

mod name;
mod rest;
mod rule;
mod tie;

pub use name::{KnownRound, NewStore, RoundName};
pub use rule::{Round, RoundView};
pub use tie::{Half, Tie};
