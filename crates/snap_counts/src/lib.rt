//! How often each text was counted: an index that answers how many items of a list have a text.
//!
//! `Counts` counts texts, `NamespaceCounts` texts by namespace. Neither knows what was counted: whoever holds a list counts the
//! text of an item that comes to it, and takes it back when the item goes.
#![tactic(auto)]

mod counts;
mod namespaces;

pub use counts::Counts;
pub use namespaces::NamespaceCounts;
