ghost use Rattle.std.specs.Prelude.{◌≡◌, ℕ, List, Bool, IfOk};

use crate::take::TakeLine;
use snap_path::NoMemory;
use std::alloc::{AllocError, Global};

/// What takes lines some of which change something that is kept: those are kept first, and then carried out.
pub trait KeepLine: TakeLine {
    // Whether a line, without its line feed, would change what is kept of a value.
    ghost changes: { Self → List ℕ → Bool };

    // A value as it is where lines that change something are carried out, or where each of them is refused, since it
    // can't be kept.
    ghost keeping: { Bool → Self → Self };

    // Whether the lines that change something are the same ones for each value that lines lead to from here.
    ghost settled: { Self → Bool };

    // The mark that is kept behind whole lines, without its line feed.
    ghost mark: { Self → List ℕ → List ℕ };

    /// Whether a line, which stands here without its line feed, would change what is kept.
    ///
    /// `NoMemory` where memory to read the line was refused.
    fn is_change(&mut self, alloc: Global, line: &[u8]) -> Result<bool, NoMemory>
        ensures is { IfOk result (λ is. is ≡ changes self.old line.now) }
        ensures same { self.new ≡ self.old };

    /// From now on lines that change something are carried out, or each of them is refused. Takes no memory.
    fn set_keeping(&mut self, keeps: bool)
        ensures { self.new ≡ keeping keeps self.old };

    /// Whether the lines that change something stay the same ones from here on, so that they can be told before those
    /// ahead of them are carried out. Takes no memory.
    fn is_settled(&self) -> bool
        ensures { result ≡ settled self.now };

    /// The mark that is kept behind whole lines which change something, before they are carried out. It changes nothing
    /// itself, and tells whether they are still the lines that were kept.
    ///
    /// `AllocError` where memory for its bytes was refused. The cost grows with the bytes of the lines.
    fn mark_behind(&self, alloc: Global, lines: &[u8]) -> Result<Vec<u8>, AllocError>
        ensures { IfOk result (λ line. line.items ≡ mark self.now lines.now) };
}
