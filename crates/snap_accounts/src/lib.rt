//! The state of a store with what is kept beside it: what each namespace is charged, the store's half
//! of each slot's charge, and how many slots are open.
//!
//! Contracts see an [`Accounts`] as the state alone, of which `Good` is true. That the rest agrees with
//! it is `AreAccounts` in `specs/Accounts.antt`, the type's invariant; so no call adds up the records.
//! Each call changes the state as its case of `step` in `snap_call` says. The share that it takes shows
//! that its slot is open under the share's id, so no call tests this. The journal is not kept here.
#![tactic(auto)]

mod accounts;
mod change;
mod charge;
mod commit;
mod info;
mod lease;
mod prepare;
mod saved;
mod saved_lease;
mod slots;
mod spaces;
mod sweep;

pub use accounts::Accounts;
pub use change::Change;
pub use prepare::Vacancy;
