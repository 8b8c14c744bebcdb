ghost use Rattle.std.specs.Prelude.{◌≡◌, IfOk};
ghost use Rattle.snap_record.specs.Records.{info_of, kind_of, usage_of};

use crate::info::Info;
use crate::kind::Kind;
use crate::labels::Labels;
use crate::sequence::Sequence;
use crate::text::Text;
use snap_layer::Shared;
use snap_usage::Usage;
use std::alloc::AllocError;

/// What a snapshot holds, by its kind.
#[derive(Debug, Drop)]
pub enum Content {
    /// A view has no layer of its own, but the layers that it shows, nearest first.
    View { layers: Sequence<Shared> },
    /// An active snapshot has one of the slots of its store, counted from 0, and what its namespace is charged for it.
    Active { slot: u64, charged: Usage },
    /// A committed snapshot has its layer, and the usage that was counted when it was committed.
    Committed { layer: Shared, usage: Usage },
}

/// A snapshot of a store: containerd's `snapshots.Info` with what the snapshot holds.
#[derive(Debug, Drop)]
pub struct Record {
    /// The place of its namespace among the store's namespaces, from 0.
    pub namespace: usize,
    /// The key of an active snapshot or a view, the name of a committed snapshot.
    pub key: Text,
    /// The name of the parent, empty where there is none.
    pub parent: Text,
    /// The number that its directories are named by.
    pub id: u32,
    /// The labels that it was made with, and as updates left them.
    pub labels: Labels,
    /// The number of the journal entry that made the snapshot.
    pub created: u64,
    /// The number of the journal entry that last changed it.
    pub updated: u64,
    /// What it holds, by its kind.
    pub content: Content,
}

impl Content {
    /// The kind of snapshot that holds it. Takes no memory.
    pub fn kind(&self) -> Kind
        ensures { result ≡ kind_of self.now }
    {
        match self {
            Content::View { .. } => Kind::View,
            Content::Active { .. } => Kind::Active,
            Content::Committed { .. } => Kind::Committed,
        }
    }

    /// What the snapshot's namespace is charged for it: the stored usage of a committed snapshot,
    /// the charged usage of an active one, and 0/0 for a view. Takes no memory.
    pub fn usage(&self) -> Usage
        ensures { result ≡ usage_of self.now }
    {
        match self {
            Content::View { .. } => Usage::ZERO,
            Content::Active { charged, .. } => *charged,
            Content::Committed { usage, .. } => *usage,
        }
    }
}

impl Record {
    /// What can be asked of the snapshot. Fails only where memory is wanting. Its cost and its memory
    /// grow with the bytes of the texts and the labels.
    pub fn info(&self) -> Result<Info, AllocError>
        ensures { IfOk result (λ info. info ≡ info_of self.now) }
    {
        Ok(Info {
            kind: self.content.kind(),
            name: self.key.clone()?,
            parent: self.parent.clone()?,
            labels: self.labels.clone()?,
            created: self.created,
            updated: self.updated,
            id: self.id,
        })
    }
}
