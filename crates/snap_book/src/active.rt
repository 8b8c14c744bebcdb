// Open snapshots in their writers' hands. They have to be spent.
ghost use Rattle.std.specs.Prelude.{◌≡◌, ◌<◌, IfOk, IfErr, OnOk, OnErr};
ghost use Rattle.snap_usage.specs.Counted.{Covers, count_of};
ghost use Rattle.snap_ledger.specs.States.{CoversOne, minus};
ghost use Rattle.snap_call.specs.Records.{max_slots};
ghost use Rattle.snap_book.specs.Held.{share_of};

use snap_call::EntryRoom;
use snap_layer::{Layer, Shared};
use snap_ledger::{Share, StoreName};
use snap_path::NoMemory;
use snap_record::{Sequence, Text};
use snap_usage::{Usage, count, difference};
use std::alloc::Global;
use std::marker::Model;

/// An active snapshot in its writer's hands: its layer, which is the upper directory of its mount, the
/// layers of its committed ancestors, nearest first, which are the lower ones, and its share, which
/// covers the layer's count.
///
/// It has no `Drop`. A commit or a discard on the book takes it back. No call of it waits for another
/// writer.
pub struct Active<N: StoreName> {
    pub(crate) alloc: Global,
    pub(crate) namespace: usize,
    pub(crate) key: Text,
    pub(crate) lowers: Sequence<Shared>,
    pub(crate) layer: Layer,
    pub(crate) share: Share<N>,
    pub(crate) discard_room: EntryRoom,
}

impl<N: StoreName> Model for Active<N> {
    ghost use Rattle.std.specs.Prelude.{◌<◌};
    ghost use Rattle.snap_usage.specs.Counted.{Covers, count_of};
    ghost use Rattle.snap_call.specs.Records.{max_slots};
    ghost use Rattle.snap_book.specs.Active.{ActiveValue};

    ghost Value = { ActiveValue };

    ghost view = { λ a. record { namespace = a.namespace; key = a.key; lowers = a.lowers; layer = a.layer; share = a.share } };

    ghost invariant = { λ a. (a.share.slot < max_slots) × Covers a.share.usage (count_of a.layer) };
}

// What a sealed snapshot has but for its share.
#[derive(Drop)]
pub(crate) struct SealedParts {
    pub(crate) namespace: usize,
    pub(crate) key: Text,
    pub(crate) lowers: Sequence<Shared>,
    pub(crate) layer: Shared,
    pub(crate) discard_room: EntryRoom,
}

/// An active snapshot whose layer does not change any more. It has no `Drop`, as [`Active`].
pub struct Sealed<N: StoreName> {
    pub(crate) share: Share<N>,
    pub(crate) parts: SealedParts,
}

impl<N: StoreName> Model for Sealed<N> {
    ghost use Rattle.std.specs.Prelude.{◌<◌};
    ghost use Rattle.snap_usage.specs.Counted.{Covers, count_of};
    ghost use Rattle.snap_call.specs.Records.{max_slots};
    ghost use Rattle.snap_book.specs.Active.{ActiveValue};

    ghost Value = { ActiveValue };

    ghost view = { λ a. record { namespace = a.parts.namespace; key = a.parts.key; lowers = a.parts.lowers; layer = a.parts.layer; share = a.share } };

    ghost invariant = { λ a. (a.share.slot < max_slots) × Covers a.share.usage (count_of a.parts.layer) };
}

/// What is left of an open snapshot whose layer is let go: its share, and the room for the entry of its discard. It
/// has no `Drop`: [`Book::take_back`](crate::Book::take_back) takes it. Contracts see its share.
pub struct Released<N: StoreName> {
    pub(crate) share: Share<N>,
    pub(crate) discard_room: EntryRoom,
}

impl<N: StoreName> Model for Released<N> {
    ghost use Rattle.std.specs.Prelude.{◌<◌};
    ghost use Rattle.snap_ledger.specs.States.{ShareState};
    ghost use Rattle.snap_call.specs.Records.{max_slots};

    ghost Value = { ShareState };

    ghost view = { λ r. r.share };

    ghost invariant = { λ r. r.share.slot < max_slots };
}

/// A snapshot that is given back, sealed or not.
pub enum Held<N: StoreName> {
    Active(Active<N>),
    Sealed(Sealed<N>),
}

impl<N: StoreName> Active<N> {
    /// The place of its namespace among those of the store, from 0.
    pub fn namespace(&self) -> usize
        ensures { result ≡ self.now.namespace }
    {
        self.namespace
    }

    /// Its key.
    pub fn key(&self) -> &str
        ensures { result.now ≡ self.now.key }
    {
        self.key.as_str()
    }

    /// Its slot, from 0: one of those of the store.
    pub fn slot(&self) -> u64
        ensures slot { result ≡ self.now.share.slot }
        ensures low { result < max_slots }
    {
        self.share.slot()
    }

    /// The id of its snapshot.
    pub fn id(&self) -> u32
        ensures { result ≡ self.now.share.id }
    {
        self.share.id()
    }

    /// What its slot is charged, which the layer may fill.
    pub fn share(&self) -> Usage
        ensures share { result ≡ self.now.share.usage }
        ensures covers { Covers result (count_of self.now.layer) }
    {
        self.share.held()
    }

    /// Its layer, lent. Takes no memory. The cost is constant.
    pub fn layer(&self) -> &Layer
        ensures { result.now ≡ self.now.layer }
    {
        &self.layer
    }

    /// What its layer takes: at least 1/1, for the root. Takes no memory. The cost is constant.
    #[tactic(auto, using(crate::proofs::Rooted::count_covers_one))]
    pub fn count(&self) -> Usage
        ensures count { result ≡ count_of self.now.layer }
        ensures one { CoversOne result }
    {
        count(&self.layer)
    }

    /// The share less the count: what the layer may grow by before it needs a charge. Its cost is that
    /// of [`Active::count`].
    pub fn spare(&self) -> Usage
        ensures { result ≡ minus self.now.share.usage (count_of self.now.layer) }
    {
        difference(self.share(), self.count())
    }

    /// Puts the layer in place of its own, which is dropped, where the share covers the layer's count. Where it
    /// doesn't, the layer comes back, and the snapshot is as it was. The share stays.
    ///
    /// Takes no memory. The cost is that of dropping a layer.
    pub fn put_layer(&mut self, layer: Layer) -> Result<(), Layer>
        ensures ok { OnOk result (self.new ≡ record self.old { layer = layer }) }
        ensures covers { OnOk result (Covers self.old.share.usage (count_of layer)) }
        ensures back { IfErr result (λ back. back ≡ layer) }
        ensures same { OnErr result (self.new ≡ self.old) }
        ensures lacks { OnErr result (¬ Covers self.old.share.usage (count_of layer)) }
    {
        if !self.share().covers(count(&layer)) {
            return Err(layer);
        }
        self.layer = layer;
        Ok(())
    }

    /// The same snapshot, whose layer does not change any more. Where memory is refused it comes back
    /// unchanged. The cost is constant.
    pub fn seal(self) -> Result<Sealed<N>, (NoMemory, Active<N>)>
        ensures ok { IfOk result (λ s. s ≡ self) }
        ensures err { IfErr result (λ back. back.1 ≡ self) }
    {
        let Active {
            alloc,
            namespace,
            key,
            lowers,
            layer,
            share,
            discard_room,
        } = self;
        match Shared::new(layer) {
            Ok(layer) => {
                let parts = SealedParts {
                    namespace,
                    key,
                    lowers,
                    layer,
                    discard_room,
                };
                Ok(Sealed { share, parts })
            }
            Err((no_memory, layer)) => {
                let active = Active {
                    alloc,
                    namespace,
                    key,
                    lowers,
                    layer,
                    share,
                    discard_room,
                };
                Err((no_memory, active))
            }
        }
    }
}

impl<N: StoreName> Sealed<N> {
    /// The place of its namespace among those of the store, from 0.
    pub fn namespace(&self) -> usize
        ensures { result ≡ self.now.namespace }
    {
        self.parts.namespace
    }

    /// The id of its snapshot.
    pub fn id(&self) -> u32
        ensures { result ≡ self.now.share.id }
    {
        self.share.id()
    }

    /// What its slot is charged. It covers the layer's count.
    pub fn share(&self) -> Usage
        ensures share { result ≡ self.now.share.usage }
        ensures covers { Covers result (count_of self.now.layer) }
    {
        self.share.held()
    }

    /// What its layer takes: the usage that a commit stores (containerd's `Snapshotter.Usage`). Takes
    /// no memory. The cost is constant.
    pub fn usage(&self) -> Usage
        ensures { result ≡ count_of self.now.layer }
    {
        count(self.parts.layer.layer())
    }

    /// Its layer.
    pub fn layer(&self) -> &Layer
        ensures { result.now ≡ self.now.layer }
    {
        self.parts.layer.layer()
    }
}

impl<N: StoreName> Held<N> {
    /// Lets its layer, its key and its lower layers go, without the book. Takes no memory. Its cost grows with the
    /// inodes of the layer, and of each lower one of which this was the last holder.
    pub fn release(self) -> Released<N>
        ensures { result ≡ share_of self }
    {
        match self {
            Held::Active(
                Active {
                    alloc: _,
                    namespace: _,
                    key: _,
                    lowers: _,
                    layer: _,
                    share,
                    discard_room,
                },
            ) => Released {
                share,
                discard_room,
            },
            Held::Sealed(Sealed { share, parts }) => {
                let SealedParts {
                    namespace: _,
                    key: _,
                    lowers: _,
                    layer: _,
                    discard_room,
                } = parts;
                Released {
                    share,
                    discard_room,
                }
            }
        }
    }
}
