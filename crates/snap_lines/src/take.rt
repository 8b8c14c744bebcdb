ghost use Rattle.std.specs.Prelude.{◌≡◌, Err};
ghost use Rattle.snap_script.specs.Gives.{Gives};
ghost use Rattle.snap_script.specs.declared.fault.ReadError.TheVariants.{OutOfMemory};
ghost use Rattle.snap_path.specs.declared.memory.NoMemory.{NoMemory};
ghost use Rattle.snap_lines.specs.Effects.{Effects, effect_with};

use snap_script::ReadError;
use std::alloc::Global;

/// What takes the lines of an input, one after another.
pub trait TakeLine {
    // What a line, without its line feed, makes of a value: the value after it and the text that is
    // written for it, or its fault.
    ghost effect: { Effects Self };

    // What is known of a value to which memory was refused. The code that hands lines to any taker knows it of a
    // call that has answered `OutOfMemory` alone.
    ghost wanting: { Self → Type 0 } = { λ _. Unit {0} };

    /// Takes the next line, which stands here without its line feed, and answers the text that is written
    /// for it, with its own line feeds, or none.
    ///
    /// `Fault` where the line has a fault; `OutOfMemory` where memory was refused. Nothing is said of the
    /// value after an error, and `read_lines` hands it no more lines then.
    fn take_line(&mut self, alloc: Global, line: &[u8]) -> Result<Option<String>, ReadError>
        ensures gives { Gives (effect_with self.new) result (effect self.old line.now) }
        ensures memory { (want : NoMemory) → result ≡ Err (OutOfMemory want) → wanting self.new };
}
