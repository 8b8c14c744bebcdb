//! The pieces of a saved store, one after another.
ghost use Rattle.std.specs.Prelude.{◌≡◌, ◌++◌, [], ◌∷◌, IfOk, MatchOption, OnErr, Ok};
ghost use Rattle.std.specs.List.{AllByRecursion};
ghost use Rattle.snap_world.specs.Saved.{IsWholeSnapshot};
ghost use Rattle.snap_checkpoint.specs.Gathered.{store_of_pieces};
ghost use Rattle.snap_checkpoint.specs.Pieces.{head_with, store_head, store_pieces};

use crate::split::{split_lease, split_namespaces, split_snapshot};
use snap_call::{Config, Namespace, SavedLease, saved_of};
use snap_pieces::{StoreHead, StorePiece};
use snap_record::Sequence;
use snap_world::{HeldSnapshot, HeldWorld, SavedSnapshot, SavedWorld};
use std::alloc::{AllocError, Global};
use std::collections::VecDeque;
use std::marker::Model;

/// The parts of a saved store whose pieces haven't begun. Contracts see the list of their pieces.
#[derive(Drop)]
struct Parts {
    alloc: Global,
    snapshots: VecDeque<SavedSnapshot>,
    // Those that are held, of a store with these namespaces.
    namespaces: Sequence<Namespace>,
    held: VecDeque<HeldSnapshot>,
    leases: VecDeque<SavedLease>,
}

impl Model for Parts {
    ghost use Rattle.std.specs.Prelude.{List, ◌++◌, map};
    ghost use Rattle.snap_world.specs.Held.{held_snapshot};
    ghost use Rattle.snap_checkpoint.specs.Pieces.{parts_pieces};
    ghost use Rattle.snap_pieces.specs.declared.piece.StorePiece.{StorePiece as PieceValue};

    ghost Value = { List PieceValue };

    ghost view = { λ p. parts_pieces (p.snapshots.items ++ map (held_snapshot p.namespaces) p.held.items) p.leases.items };
}

/// The pieces of a saved store that are left, in their order. Contracts see the list of them.
pub struct StorePieces {
    begun: VecDeque<StorePiece>,
    parts: Parts,
}

// By hand: a derived one is proved anew, part by part, wherever a value is let go.
impl Drop for StorePieces {
    fn drop(self) {
        let StorePieces { begun: _, parts: _ } = self;
    }
}

impl Model for StorePieces {
    ghost use Rattle.std.specs.Prelude.{List, ◌++◌};
    ghost use Rattle.snap_pieces.specs.declared.piece.StorePiece.{StorePiece as PieceValue};

    ghost Value = { List PieceValue };

    ghost view = { λ p. p.begun.items ++ p.parts };
}

impl Parts {
    // The pieces of the first part, which goes; none where no part is left.
    fn begin(&mut self) -> Result<Vec<StorePiece>, AllocError>
        ensures ok { IfOk result (λ pieces. self.old ≡ pieces.items ++ self.new) }
        ensures end { IfOk result (λ pieces. pieces.items ≡ [] → self.old ≡ []) }
        ensures err { OnErr result (self.new ≡ self.old) }
    {
        if let Some(snapshot) = self.snapshots.front() {
            let pieces = split_snapshot(self.alloc, &snapshot.saved, &snapshot.hand)?;
            drop(self.snapshots.pop_front());
            return Ok(pieces);
        }
        if let Some(snapshot) = self.held.front() {
            let saved = saved_of(
                self.alloc,
                self.namespaces.as_slice(),
                snapshot.held.record(),
            )?;
            let pieces = split_snapshot(self.alloc, &saved, &snapshot.hand)?;
            drop(self.held.pop_front());
            return Ok(pieces);
        }
        if let Some(lease) = self.leases.front() {
            let pieces = split_lease(self.alloc, lease)?;
            drop(self.leases.pop_front());
            return Ok(pieces);
        }
        Ok(Vec::new(self.alloc))
    }
}

// What a store has besides its pieces.
fn head_of(config: Config, entries: u64, next_id: u64) -> StoreHead
    ensures { result ≡ head_with config entries next_id }
{
    let Config {
        root,
        namespaces: _,
        slots,
        journal,
        first_id,
        layer_inodes,
        ancestors,
    } = config;
    StoreHead {
        root,
        slots,
        journal,
        first_id,
        layer_inodes,
        ancestors,
        entries,
        next_id,
    }
}

impl StorePieces {
    /// What the saved store has besides its pieces, and these. [`StoreGathering`](crate::StoreGathering) makes the saved
    /// store of them again.
    ///
    /// It fails only where memory is refused, and then nothing is left of the saved store. Takes memory for the pieces of the places for namespaces, with copies of
    /// their names. The cost grows with the number of these places.
    pub fn begin(alloc: Global, saved: SavedWorld) -> Result<(StoreHead, StorePieces), AllocError>
        ensures head { IfOk result (λ p. p.0 ≡ store_head saved) }
        ensures pieces { IfOk result (λ p. p.1 ≡ store_pieces saved) }
        // The pieces, put one after another, make the saved store again.
        ensures back { AllByRecursion IsWholeSnapshot saved.snapshots → IfOk result (λ p. store_of_pieces p.0 p.1 ≡ Ok saved) }
    {
        let SavedWorld {
            config,
            entries,
            next_id,
            snapshots,
            leases,
        } = saved;
        let begun = split_namespaces(alloc, config.namespaces.as_slice())?;
        let head = head_of(config, entries, next_id);
        let parts = Parts {
            alloc,
            snapshots: snapshots.into(),
            namespaces: Sequence::new(alloc),
            held: VecDeque::new(alloc),
            leases: leases.into(),
        };
        let pieces = StorePieces {
            begun: begun.into(),
            parts,
        };
        Ok((head, pieces))
    }

    // What the saved store of one that is held has besides its pieces, and these.
    fn of_held(alloc: Global, held: HeldWorld) -> Result<(StoreHead, StorePieces), AllocError>
        ensures head { IfOk result (λ p. p.0 ≡ store_head held) }
        ensures pieces { IfOk result (λ p. p.1 ≡ store_pieces held) }
    {
        let HeldWorld {
            config,
            entries,
            next_id,
            snapshots,
            leases,
        } = held;
        let begun = split_namespaces(alloc, config.namespaces.as_slice())?;
        let namespaces = config.namespaces.clone()?;
        let head = head_of(config, entries, next_id);
        let parts = Parts {
            alloc,
            snapshots: VecDeque::new(alloc),
            namespaces,
            held: snapshots.into(),
            leases: leases.into(),
        };
        let pieces = StorePieces {
            begun: begun.into(),
            parts,
        };
        Ok((head, pieces))
    }

    /// The same of a store that is held. A snapshot's texts are copied once its pieces begin.
    ///
    /// Memory and cost are those of [`StorePieces::begin`].
    #[tactic(auto, using(crate::proofs::StoreBack::own_back))]
    pub fn hold(alloc: Global, held: HeldWorld) -> Result<(StoreHead, StorePieces), AllocError>
        ensures head { IfOk result (λ p. p.0 ≡ store_head held) }
        ensures pieces { IfOk result (λ p. p.1 ≡ store_pieces held) }
        // The pieces, put one after another, make the saved store.
        ensures back { AllByRecursion IsWholeSnapshot held.snapshots → IfOk result (λ p. store_of_pieces p.0 p.1 ≡ Ok held) }
    {
        let (head, pieces) = StorePieces::of_held(alloc, held)?;
        Ok((head, pieces))
    }

    /// The next piece, or none where all have come.
    ///
    /// It fails only where memory is refused, and the pieces are then as they were. Where the piece is the first of its
    /// part, takes memory for all pieces of this part, with copies of its texts and of the bytes of its layer's files, and
    /// its cost grows with them; else it takes none, and the cost is constant.
    pub fn next_piece(&mut self) -> Result<Option<StorePiece>, AllocError>
        ensures next { IfOk result (λ piece. MatchOption piece ((self.old ≡ []) × (self.new ≡ [])) (λ first. self.old ≡ first ∷ self.new)) }
        ensures err { OnErr result (self.new ≡ self.old) }
    {
        if self.begun.is_empty() {
            self.begun = self.parts.begin()?.into();
        }
        Ok(self.begun.pop_front())
    }
}
