ghost use Rattle.std.specs.Prelude.{◌≡◌};

use crate::kind::Kind;
use crate::labels::Labels;
use crate::text::Text;
use std::alloc::AllocError;

/// What can be asked of a snapshot, as containerd's `snapshots.Info` has it, with the snapshot's
/// id.
///
/// `clone` copies the texts and the labels: its cost and its memory grow with their bytes.
#[derive(Debug, PartialEq, Eq)]
pub struct Info {
    /// What the snapshot is.
    pub kind: Kind,
    /// The key of an active snapshot or a view, the name of a committed snapshot.
    pub name: Text,
    /// The name of the parent, empty where there is none.
    pub parent: Text,
    /// The snapshot's labels, in their order.
    pub labels: Labels,
    /// The number of the journal entry that made the snapshot.
    pub created: u64,
    /// The number of the journal entry that last changed it.
    pub updated: u64,
    /// The number that its directories are named by.
    pub id: u32,
}

// By hand: a derived one is proved anew, part by part, wherever a value is let go.
impl Drop for Info {
    fn drop(self) {
        let Info {
            kind: _,
            name: _,
            parent: _,
            labels: _,
            created: _,
            updated: _,
            id: _,
        } = self;
    }
}

impl Clone for Info {
    ghost is_clone = { λ a b. b ≡ a };

    fn clone(&self) -> Result<Info, AllocError> {
        Ok(Info {
            kind: self.kind,
            name: self.name.clone()?,
            parent: self.parent.clone()?,
            labels: self.labels.clone()?,
            created: self.created,
            updated: self.updated,
            id: self.id,
        })
    }
}
