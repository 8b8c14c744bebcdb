//! The lines of a saved store, one after another, and the saved store that lines make.
ghost use Rattle.std.specs.Prelude.{◌≡◌, ◌⊎◌, [], ◌∷◌, None, is_some, IfErr, IfOk, MatchOption, OnErr, Ok, Err};
ghost use Rattle.std.specs.List.{AllByRecursion};
ghost use Rattle.snap_path.specs.Memory.{no_memory};
ghost use Rattle.snap_world.specs.Saved.{IsWholeSnapshot};
ghost use Rattle.snap_checkpoint.specs.Lines.{all_put, none_left, line_put, lines_put, store_lines};
ghost use Rattle.snap_checkpoint.specs.declared.fault.StoreFault.TheVariants.{OutOfMemory};

use crate::fault::StoreFault;
use crate::gathering::StoreGathering;
use crate::pieces::StorePieces;
use snap_pieces::{Line, StoreHead};
use snap_world::{HeldWorld, SavedWorld};
use std::alloc::{AllocError, Global};
use std::marker::Model;

/// The lines of a saved store that are left, in their order. Contracts see the list of them.
pub struct StoreLines {
    // How many have come.
    lines: u64,
    head: Option<StoreHead>,
    pieces: Option<StorePieces>,
}

// By hand: a derived one is proved anew, part by part, wherever a value is let go.
impl Drop for StoreLines {
    fn drop(self) {
        let StoreLines {
            lines: _,
            head: _,
            pieces: _,
        } = self;
    }
}

impl Model for StoreLines {
    ghost use Rattle.std.specs.Prelude.{List};
    ghost use Rattle.snap_checkpoint.specs.Lines.{lines_left};
    ghost use Rattle.snap_pieces.specs.declared.line.Line.{Line as LineValue};

    ghost Value = { List LineValue };

    ghost view = { λ l. lines_left l.lines l.head l.pieces };
}

impl StoreLines {
    /// The lines of the saved store: its head, its pieces, and the end.
    ///
    /// It fails only where memory is refused, and then nothing is left of the saved store. Memory and cost are those of
    /// [`StorePieces::begin`].
    pub fn begin(alloc: Global, saved: SavedWorld) -> Result<StoreLines, AllocError>
        ensures lines { IfOk result (λ lines. lines ≡ store_lines saved) }
        // The lines, put one after another, make the saved store again.
        ensures back { AllByRecursion IsWholeSnapshot saved.snapshots → IfOk result (λ lines. lines_put None lines ≡ Ok saved) }
    {
        let (head, pieces) = StorePieces::begin(alloc, saved)?;
        Ok(StoreLines {
            lines: 0,
            head: Some(head),
            pieces: Some(pieces),
        })
    }

    /// The same of a store that is held.
    ///
    /// It fails only where memory is refused, and then nothing is held. Memory and cost are those of
    /// [`StorePieces::hold`].
    pub fn hold(alloc: Global, held: HeldWorld) -> Result<StoreLines, AllocError>
        ensures lines { IfOk result (λ lines. lines ≡ store_lines held) }
        // The lines, put one after another, make the saved store.
        ensures back { AllByRecursion IsWholeSnapshot held.snapshots → IfOk result (λ lines. lines_put None lines ≡ Ok held) }
    {
        let (head, pieces) = StorePieces::hold(alloc, held)?;
        Ok(StoreLines {
            lines: 0,
            head: Some(head),
            pieces: Some(pieces),
        })
    }

    /// Whether all lines have come. Takes no memory. The cost is constant.
    pub fn is_empty(&self) -> bool
        ensures { result ≡ none_left self.now }
    {
        self.pieces.is_none()
    }

    /// The next line, or none where all have come.
    ///
    /// It fails only where memory is refused, and the lines are then as they were. Memory and cost are those of
    /// [`StorePieces::next_piece`].
    pub fn next_line(&mut self) -> Result<Option<Line>, AllocError>
        ensures next { IfOk result (λ line. MatchOption line ((self.old ≡ []) × (self.new ≡ [])) (λ first. self.old ≡ first ∷ self.new)) }
        ensures err { OnErr result (self.new ≡ self.old) }
    {
        let Some(pieces) = &mut self.pieces else {
            return Ok(None);
        };
        let lines = self.lines.saturating_add(1);
        if let Some(head) = self.head.take() {
            self.lines = lines;
            return Ok(Some(Line::Head(head)));
        }
        if let Some(piece) = pieces.next_piece()? {
            self.lines = lines;
            return Ok(Some(Line::Piece(piece)));
        }
        self.pieces = None;
        Ok(Some(Line::End { lines }))
    }
}

// How many lines have come of a store, and what is gathered of it.
struct Gathered {
    lines: u64,
    store: StoreGathering,
}

// By hand: a derived one is proved anew, part by part, wherever a value is let go.
impl Drop for Gathered {
    fn drop(self) {
        let Gathered { lines: _, store: _ } = self;
    }
}

impl Model for Gathered {
    ghost use Rattle.snap_checkpoint.specs.Lines.{LineGatheringValue};

    ghost Value = { LineGatheringValue };

    ghost view = { λ g. record { lines = g.lines; store = g.store } };
}

impl Gathered {
    // The saved store, where these are all lines.
    fn end(self, lines: u64) -> Result<SavedWorld, StoreFault>
        ensures ok { IfOk result (λ saved. all_put lines self ≡ Ok saved) }
        ensures refused { IfErr result (λ fault. (all_put lines self ≡ Err fault) ⊎ (fault ≡ OutOfMemory no_memory)) }
    {
        let Gathered { lines: come, store } = self;
        if lines == come.saturating_add(1) {
            store.finish()
        } else {
            Err(StoreFault::Incomplete)
        }
    }
}

/// A saved store, as far as its lines have come. Contracts see how many have, and what is gathered of them, or nothing
/// where no head was put.
pub struct LineGathering {
    alloc: Global,
    gathered: Option<Gathered>,
}

// By hand: a derived one is proved anew, part by part, wherever a value is let go.
impl Drop for LineGathering {
    fn drop(self) {
        let LineGathering {
            alloc: _,
            gathered: _,
        } = self;
    }
}

impl Model for LineGathering {
    ghost use Rattle.std.specs.Prelude.{Option};
    ghost use Rattle.snap_checkpoint.specs.Lines.{LineGatheringValue};

    ghost Value = { Option LineGatheringValue };

    ghost view = { λ g. g.gathered };
}

impl LineGathering {
    /// Before the first line. Takes no memory.
    pub fn new(alloc: Global) -> LineGathering
        ensures { result ≡ None }
    {
        LineGathering {
            alloc,
            gathered: None,
        }
    }

    /// Whether a head was put, and neither the end nor a line that was refused came since. Takes no memory.
    pub fn has_begun(&self) -> bool
        ensures { result ≡ is_some self.now }
    {
        self.gathered.is_some()
    }

    /// Puts a line. A head begins a store anew, and the end gives the saved store, which
    /// [`World::restore`](snap_world::World::restore) tests.
    ///
    /// `Misplaced` for a piece or the end without a head before it; `Incomplete` for an end that counts other than as many
    /// lines; of a piece the faults of [`StoreGathering::put`], of the end those of [`StoreGathering::finish`]. After a
    /// fault nothing is gathered. Memory and cost are those of these calls.
    pub fn put(&mut self, line: Line) -> Result<Option<SavedWorld>, StoreFault>
        ensures ok { IfOk result (λ saved. line_put self.old line ≡ Ok (self.new, saved)) }
        ensures refused { IfErr result (λ fault. (line_put self.old line ≡ Err fault) ⊎ (fault ≡ OutOfMemory no_memory)) }
        ensures left { OnErr result (self.new ≡ None) }
    {
        let begun = self.gathered.take();
        match line {
            Line::Head(head) => {
                let store = StoreGathering::begin(self.alloc, head);
                self.gathered = Some(Gathered { lines: 1, store });
                Ok(None)
            }
            Line::Piece(piece) => {
                let Some(mut gathered) = begun else {
                    return Err(StoreFault::Misplaced);
                };
                gathered.store.put(piece)?;
                gathered.lines = gathered.lines.saturating_add(1);
                self.gathered = Some(gathered);
                Ok(None)
            }
            Line::End { lines } => {
                let Some(gathered) = begun else {
                    return Err(StoreFault::Misplaced);
                };
                Ok(Some(gathered.end(lines)?))
            }
        }
    }
}
