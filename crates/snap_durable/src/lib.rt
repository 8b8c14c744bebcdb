//! Lines of an input, each of which is on the disk before its answer is written, where it changes something.
#![tactic(auto)]

mod batch;
mod changes;
mod check;
mod chunk;
mod compare;
mod differ;
mod differs;
mod ended;
mod files;
mod holding;
mod logged;
mod moved;
mod pair;
mod picture;
mod restart;
mod roll;
mod saved;
mod serve;
mod shorten;
mod shortened;
mod step;
mod told;
mod turn;

pub use check::{Checked, begins_saved, check_log, check_saved};
pub use compare::{Differences, Field, SpaceDifference, store_differences};
pub use differ::{Compare, Difference, Found, differences};
pub use ended::Ended;
pub use holding::{Contents, FromNamespace, Holding};
pub use logged::{Unserved, serve_log};
pub use moved::{Move, Unmoved, move_log, move_saved};
pub use pair::{ServedPair, serve_pair};
pub use picture::{Snapshot, Space};
pub use restart::{ReplayError, replay};
pub use serve::serve_lines;
pub use shorten::{NoCheckpoint, Uncheckpointed, checkpoint};
pub use shortened::{UnservedFiles, serve_and_shorten};
pub use told::{FileKind, Told};
