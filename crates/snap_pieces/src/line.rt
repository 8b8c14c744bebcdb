use crate::piece::{StoreHead, StorePiece};

/// A line of a saved store: its head comes first, and its end last.
#[derive(Debug, Drop)]
pub enum Line {
    /// What the store has besides its pieces.
    Head(StoreHead),
    /// A piece.
    Piece(StorePiece),
    /// All pieces have come, and how many lines there are, the head and this one among them.
    End { lines: u64 },
}
