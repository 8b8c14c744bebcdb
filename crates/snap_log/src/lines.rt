ghost use Rattle.std.specs.Prelude.{◌≡◌, ◌++◌, ◌∷◌, [], IfOk, OnOk, OnErr, ℕ, List, if◌then◌else◌};
ghost use Rattle.snap_log.specs.Texts.{AreLines, is_line};

use std::alloc::{AllocError, Global};
use std::marker::Model;

/// Whole lines, each of which begins with an open brace. Contracts see their bytes.
#[derive(Drop)]
pub struct Lines {
    bytes: Vec<u8>,
}

impl Model for Lines {
    ghost use Rattle.std.specs.Prelude.{ℕ, List};
    ghost use Rattle.snap_log.specs.Texts.{AreLines};

    ghost Value = { List ℕ };

    ghost view = { λ s. s.bytes.items };

    ghost invariant = { λ s. AreLines s.bytes.items };
}

impl Lines {
    /// No line. Takes no memory.
    pub fn new(alloc: Global) -> Lines
        ensures { result ≡ [] }
    {
        Lines {
            bytes: Vec::new(alloc),
        }
    }

    /// Adds a line, which stands here without its line feed, and its line feed, and answers whether it did: it is one if
    /// it begins with an open brace and has no line feed.
    ///
    /// `AllocError` where memory for its bytes was refused; nothing is added then.
    pub fn push(&mut self, line: &[u8]) -> Result<bool, AllocError>
        ensures is { IfOk result (λ is. is ≡ is_line line.now) }
        ensures added { IfOk result (λ is. self.new ≡ (if is then self.old ++ (line.now ++ 10 ∷ []) else self.old)) }
        ensures refused { OnErr result (self.new ≡ self.old) }
    {
        if !is_line(line) {
            return Ok(false);
        }
        let len = self.bytes.len();
        match add_line(&mut self.bytes, line) {
            Ok(()) => Ok(true),
            Err(refused) => {
                self.bytes.truncate(len);
                Err(refused)
            }
        }
    }

    /// Their bytes.
    pub fn as_slice(&self) -> &[u8]
        ensures same { result.now ≡ self.now }
        ensures lines { AreLines result.now }
    {
        &self.bytes
    }

    /// Drops them, and keeps their memory.
    pub fn clear(&mut self)
        ensures { self.new ≡ [] }
    {
        self.bytes.clear();
    }
}

// Whether the bytes are a line without its line feed.
fn is_line(line: &[u8]) -> bool
    ensures { result ≡ is_line line.now }
{
    line.first() == Some(&b'{') && !line.contains(&b'\n')
}

// Adds a line with its line feed.
fn add_line(bytes: &mut Vec<u8>, line: &[u8]) -> Result<(), AllocError>
    ensures added { OnOk result (bytes.new.items ≡ bytes.old.items ++ (line.now ++ 10 ∷ [])) }
    ensures refused { OnErr result ((more : List ℕ) × (bytes.new.items ≡ bytes.old.items ++ more)) }
{
    bytes.extend_from_slice(line)?;
    bytes.push(b'\n')?;
    Ok(())
}
