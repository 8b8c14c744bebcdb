// What an entry makes of a namespace's charge, by its call and its reply.
ghost use Rattle.std.specs.Prelude.{◌≡◌};
ghost use Rattle.snap_history.specs.Changes.{changed_to, named_change, slot_change, turned};

use snap_call::{Given, Reply};
use snap_usage::Usage;

/// The part of a namespace's charge that an entry finds, and what it leaves in its place.
#[derive(Clone, Copy, Debug, PartialEq, Eq)]
pub(crate) struct Change {
    pub(crate) found: Usage,
    pub(crate) left: Usage,
}

// What a new snapshot is charged.
pub(crate) const ONE: Usage = Usage {
    blocks: 1,
    inodes: 1,
};

impl Change {
    pub(crate) const NONE: Change = Change {
        found: Usage::ZERO,
        left: Usage::ZERO,
    };
}

// Of a call that names a namespace, which is the one or isn't.
pub(crate) fn named_change(own: bool, reply: &Reply) -> Change
    ensures { result ≡ named_change own reply.now }
{
    let change = match reply {
        Reply::Prepared { .. } => Change {
            found: Usage::ZERO,
            left: ONE,
        },
        Reply::Removed(usage) => Change {
            found: *usage,
            left: Usage::ZERO,
        },
        Reply::Swept { freed, .. } => Change {
            found: *freed,
            left: Usage::ZERO,
        },
        _ => return Change::NONE,
    };
    if own { change } else { Change::NONE }
}

// The share of an open snapshot becomes another amount.
fn changed_to(left: Usage, share: Option<Usage>) -> Change
    ensures { result ≡ changed_to left share }
{
    match share {
        Some(found) => Change { found, left },
        None => Change::NONE,
    }
}

// Of a call on an open snapshot with this share, if it is one of the namespace.
pub(crate) fn slot_change(reply: &Reply, given: &Given, share: Option<Usage>) -> Change
    ensures { result ≡ slot_change reply.now given.now share }
{
    match reply {
        Reply::Charged { now } => changed_to(*now, share),
        Reply::Trimmed => match given {
            Given::Count(now) => changed_to(*now, share),
            _ => Change::NONE,
        },
        Reply::Committed { usage, .. } => changed_to(*usage, share),
        Reply::Discarded(_) => changed_to(Usage::ZERO, share),
        _ => Change::NONE,
    }
}

// An amount once a part of it has become another.
#[tactic(auto, unfolding(crate::specs::Changes::turned))]
pub(crate) fn turned(whole: Usage, part: Usage, to: Usage) -> Usage
    ensures { result ≡ turned whole part to }
{
    Usage {
        blocks: whole
            .blocks
            .saturating_sub(part.blocks)
            .saturating_add(to.blocks),
        inodes: whole
            .inodes
            .saturating_sub(part.inodes)
            .saturating_add(to.inodes),
    }
}
