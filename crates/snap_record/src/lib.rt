//! Records of snapshots: texts and lists, kinds, labels, infos, filters and the records themselves.
#![tactic(auto)]

mod error;
mod filter;
mod info;
mod kind;
mod labels;
mod record;
mod sequence;
mod text;
mod update;

pub use error::LabelsError;
pub use filter::{Filter, LabelFilter, matches};
pub use info::Info;
pub use kind::Kind;
pub use labels::{Labels, MAX_LABEL_BYTES, MAX_LABELS, is_label};
pub use record::{Content, Record};
pub use sequence::Sequence;
pub use text::Text;
pub use update::{cut_update, is_well_formed, named_key, replaces_all, updated_labels};
