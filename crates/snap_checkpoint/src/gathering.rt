//! A store that is gathered a piece at a time.
ghost use Rattle.std.specs.Prelude.{◌≡◌, ◌⊎◌, IfErr, IfOk, OnErr, OnOk, Ok, Err};
ghost use Rattle.snap_path.specs.Memory.{no_memory};
ghost use Rattle.snap_checkpoint.specs.Gathered.{begun_store, closed, after_fault, store_of, with_part, with_store_piece};
ghost use Rattle.snap_checkpoint.specs.declared.fault.StoreFault.TheVariants.{OutOfMemory};
ghost use Rattle.snap_checkpoint.specs.declared.open.OpenPart.TheVariants.{Nothing};

use crate::fault::StoreFault;
use crate::open::{OpenPart, OpenSnapshot};
use snap_call::{Config, Namespace, SavedLease};
use snap_pieces::{StoreHead, StorePiece};
use snap_record::Sequence;
use snap_world::{SavedSnapshot, SavedWorld};
use std::alloc::Global;
use std::marker::Model;
use std::mem;

/// A saved store, as far as its pieces have come. Contracts see it as a `StoreGatheringValue`.
pub struct StoreGathering {
    alloc: Global,
    head: StoreHead,
    namespaces: Vec<Namespace>,
    snapshots: Vec<SavedSnapshot>,
    leases: Vec<SavedLease>,
    part: OpenPart,
}

// By hand: a derived one is proved anew, part by part, wherever a value is let go.
impl Drop for StoreGathering {
    fn drop(self) {
        let StoreGathering {
            alloc: _,
            head: _,
            namespaces: _,
            snapshots: _,
            leases: _,
            part: _,
        } = self;
    }
}

impl Model for StoreGathering {
    ghost use Rattle.snap_checkpoint.specs.Gathered.{StoreGatheringValue};

    ghost Value = { StoreGatheringValue };

    ghost view = { λ g. record { head = g.head; namespaces = g.namespaces.items; snapshots = g.snapshots.items; leases = g.leases.items; part = g.part } };
}

impl StoreGathering {
    /// A store before its first piece. Takes no memory.
    pub fn begin(alloc: Global, head: StoreHead) -> StoreGathering
        ensures { result ≡ begun_store head }
    {
        StoreGathering {
            alloc,
            head,
            namespaces: Vec::new(alloc),
            snapshots: Vec::new(alloc),
            leases: Vec::new(alloc),
            part: OpenPart::Nothing,
        }
    }

    // No piece of its last part comes any more. After a fault this part is gone.
    fn close(&mut self) -> Result<(), StoreFault>
        ensures ok { OnOk result (closed self.old ≡ Ok self.new) }
        ensures refused { IfErr result (λ fault. (closed self.old ≡ Err fault) ⊎ (fault ≡ OutOfMemory no_memory)) }
        ensures left { OnErr result (self.new ≡ record self.old { part = Nothing }) }
    {
        match mem::replace(&mut self.part, OpenPart::Nothing) {
            OpenPart::Nothing => {}
            OpenPart::Snapshot(open) => {
                let snapshot = open.close(self.snapshots.len())?;
                self.snapshots.push(snapshot)?;
            }
            OpenPart::Lease(lease) => self.leases.push(lease)?,
        }
        Ok(())
    }

    // A part begins, and no piece of the one before comes any more.
    fn begin_part(&mut self, part: OpenPart) -> Result<(), StoreFault>
        ensures ok { OnOk result (with_part self.old part ≡ Ok self.new) }
        ensures refused { IfErr result (λ fault. (with_part self.old part ≡ Err fault) ⊎ (fault ≡ OutOfMemory no_memory)) }
        ensures left { OnErr result (self.new ≡ record self.old { part = Nothing }) }
    {
        self.close()?;
        self.part = part;
        Ok(())
    }

    /// Puts a piece, which comes after those that were put.
    ///
    /// `Misplaced` for a label, a piece of a layer or a name where the last part is none that has one, and for a piece of
    /// a layer that isn't in its place there; `TooBig` where a file has more than 1,048,576 bytes; `LabelTwice` and
    /// `TooManyLabels`; `Layer` where a part begins and the layer of the snapshot before it has a part that no layer has
    /// there; `OutOfMemory` where memory is refused. After a fault all is as it was, but where a part begins, the one
    /// before it is gone. Takes memory for the piece; where a part begins, also for the layer of the one before it. Cost:
    /// a copy of the piece's bytes; for a label, the snapshot's labels; where a part begins, that layer.
    pub fn put(&mut self, piece: StorePiece) -> Result<(), StoreFault>
        ensures ok { OnOk result (with_store_piece self.old piece ≡ Ok self.new) }
        ensures refused { IfErr result (λ fault. (with_store_piece self.old piece ≡ Err fault) ⊎ (fault ≡ OutOfMemory no_memory)) }
        ensures left { OnErr result (self.new ≡ after_fault self.old piece) }
    {
        match piece {
            StorePiece::Namespace(namespace) => self.namespaces.push(namespace)?,
            StorePiece::Label { key, value } => self.part.add_label(key, value)?,
            StorePiece::Layer(piece) => self.part.put_piece(piece)?,
            StorePiece::Leased(name) => self.part.add_name(name)?,
            StorePiece::Snapshot(head) => {
                let open = OpenSnapshot::begin(self.alloc, head);
                self.begin_part(OpenPart::Snapshot(open))?;
            }
            StorePiece::Lease {
                namespace,
                name,
                until,
            } => {
                let names = Sequence::new(self.alloc);
                let lease = SavedLease {
                    namespace,
                    name,
                    until,
                    names,
                };
                self.begin_part(OpenPart::Lease(lease))?;
            }
        }
        Ok(())
    }

    /// The saved store of its pieces, once all have come. [`World::restore`](snap_world::World::restore) tests it.
    ///
    /// `Layer` where the layer of the last snapshot has a part that no layer has there; `OutOfMemory` where memory is
    /// refused. After a fault nothing is left. Takes memory for the last part alone. The cost grows with its layer.
    pub fn finish(mut self) -> Result<SavedWorld, StoreFault>
        ensures ok { IfOk result (λ saved. store_of self ≡ Ok saved) }
        ensures refused { IfErr result (λ fault. (store_of self ≡ Err fault) ⊎ (fault ≡ OutOfMemory no_memory)) }
    {
        self.close()?;
        let StoreGathering {
            alloc: _,
            head,
            namespaces,
            snapshots,
            leases,
            part: _,
        } = self;
        let StoreHead {
            root,
            slots,
            journal,
            first_id,
            layer_inodes,
            ancestors,
            entries,
            next_id,
        } = head;
        let config = Config {
            root,
            namespaces: Sequence::from(namespaces),
            slots,
            journal,
            first_id,
            layer_inodes,
            ancestors,
        };
        Ok(SavedWorld {
            config,
            entries,
            next_id,
            snapshots,
            leases,
        })
    }
}
