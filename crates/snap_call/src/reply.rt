ghost use Rattle.std.specs.Prelude.{◌≡◌};

use crate::refusal::Refusal;
use snap_mount::Mount;
use snap_record::{Info, Sequence, Text};
use snap_usage::Usage;
use std::alloc::AllocError;

/// What a call answers.
#[derive(Debug, Drop, PartialEq, Eq)]
pub enum Reply {
    Opened,
    /// The active snapshot's id and slot, and the ids of its ancestors, nearest first.
    Prepared {
        id: u32,
        slot: u64,
        chain: Sequence<u32>,
    },
    /// The view's id, and the ids of its ancestors, nearest first.
    Viewed {
        id: u32,
        chain: Sequence<u32>,
    },
    /// The charged amount afterwards.
    Charged {
        now: Usage,
    },
    Trimmed,
    /// The snapshot's id and its stored usage.
    Committed {
        id: u32,
        usage: Usage,
    },
    /// What the snapshot was charged.
    Discarded(Usage),
    /// What the snapshot was charged.
    Removed(Usage),
    Info(Info),
    Usage(Usage),
    Mounts(Sequence<Mount>),
    /// The infos of a walk, in the order of their keys.
    Page(Sequence<Info>),
    /// A namespace came, went or has another limit; or a lease came, went, gained a name or lost one.
    Done,
    /// The keys of the snapshots that a sweep took away, in the order of their bytes, the number of
    /// leases that went, and what the snapshots were charged.
    Swept {
        removed: Sequence<Text>,
        leases: u64,
        freed: Usage,
    },
    Refused(Refusal),
}

/// A copy of each id, each text and each label.
impl Clone for Reply {
    ghost is_clone = { λ a b. b ≡ a };

    fn clone(&self) -> Result<Reply, AllocError> {
        Ok(match self {
            Reply::Opened => Reply::Opened,
            Reply::Prepared { id, slot, chain } => Reply::Prepared {
                id: *id,
                slot: *slot,
                chain: chain.clone()?,
            },
            Reply::Viewed { id, chain } => Reply::Viewed {
                id: *id,
                chain: chain.clone()?,
            },
            Reply::Charged { now } => Reply::Charged { now: *now },
            Reply::Trimmed => Reply::Trimmed,
            Reply::Committed { id, usage } => Reply::Committed {
                id: *id,
                usage: *usage,
            },
            Reply::Discarded(usage) => Reply::Discarded(*usage),
            Reply::Removed(usage) => Reply::Removed(*usage),
            Reply::Info(info) => Reply::Info(info.clone()?),
            Reply::Usage(usage) => Reply::Usage(*usage),
            Reply::Mounts(mounts) => Reply::Mounts(mounts.clone()?),
            Reply::Page(infos) => Reply::Page(infos.clone()?),
            Reply::Done => Reply::Done,
            Reply::Swept {
                removed,
                leases,
                freed,
            } => Reply::Swept {
                removed: removed.clone()?,
                leases: *leases,
                freed: *freed,
            },
            Reply::Refused(refusal) => Reply::Refused(*refusal),
        })
    }
}
