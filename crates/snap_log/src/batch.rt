// The whole lines of an input that comes in pieces.
ghost use Rattle.std.specs.Prelude.{◌≡◌, ◌∷◌, [], ℕ, List, None, OnOk, not};
ghost use Rattle.memchr.specs.Find.{IsFirstByte, is_byte};
ghost use Rattle.snap_log.specs.Batches.{batched, begins_blank, emptied, is_blank, is_nothing, none_yet};

use memchr::memchr;
use std::alloc::{AllocError, Global};
use std::marker::Model;

/// The whole lines of an input that comes in pieces. A line in pieces is held back. Blanks before a line are let go, and
/// of a line that is too long all bytes behind the most.
#[derive(Drop)]
pub struct Batch {
    limit: usize,
    whole: Vec<u8>,
    held: Vec<u8>,
}

impl Model for Batch {
    ghost use Rattle.snap_log.specs.Batches.{Batched};

    ghost Value = { Batched };

    ghost view = { λ s. record { limit = s.limit; whole = s.whole.items; held = s.held.items } };

    ghost invariant = { λ s. Unit {0} };
}

impl Batch {
    /// No byte has come. Of each line at most `limit` bytes are kept. Takes no memory.
    pub fn new(alloc: Global, limit: usize) -> Batch
        ensures { result ≡ none_yet limit }
    {
        Batch {
            limit,
            whole: Vec::new(alloc),
            held: Vec::new(alloc),
        }
    }

    // Takes a line feed.
    fn end_line(&mut self) -> Result<(), AllocError>
        ensures { OnOk result (self.new ≡ batched self.old (10 ∷ [])) }
    {
        self.whole.extend_from_slice(self.held.as_slice())?;
        self.whole.push(b'\n')?;
        self.held.clear();
        Ok(())
    }

    // Takes one byte more.
    fn take_byte(&mut self, b: u8) -> Result<(), AllocError>
        ensures { OnOk result (self.new ≡ batched self.old (b ∷ [])) }
    {
        if b == b'\n' {
            return self.end_line();
        }
        let is_before = self.held.is_empty() && is_blank(b);
        if is_before || self.held.len() >= self.limit {
            return Ok(());
        }
        self.held.push(b)?;
        Ok(())
    }

    // Takes the bytes one by one.
    fn take_bytes(&mut self, bytes: &[u8]) -> Result<(), AllocError>
        ensures { OnOk result (self.new ≡ batched self.old bytes.now) }
    {
        for b in bytes {
            self.take_byte(*b)?;
        }
        Ok(())
    }

    // Whether these bytes come before a line and begin with a blank.
    fn begins_blank(&self, bytes: &[u8]) -> bool
        ensures { result ≡ begins_blank self.now bytes.now }
    {
        match bytes.first() {
            Some(b) => self.held.is_empty() && is_blank(*b),
            None => false,
        }
    }

    // Takes bytes without a line feed.
    fn take_open(&mut self, bytes: &[u8]) -> Result<(), AllocError>
        requires { IsFirstByte (is_byte 10) bytes.now None }
        ensures { OnOk result (self.new ≡ batched self.old bytes.now) }
    {
        let left = self.limit.saturating_sub(self.held.len());
        if bytes.len() > left {
            return self.take_bytes(bytes);
        }
        if self.begins_blank(bytes) {
            return self.take_bytes(bytes);
        }
        self.held.extend_from_slice(bytes)?;
        Ok(())
    }

    /// Takes the bytes that come next.
    ///
    /// `AllocError` where memory was refused. Nothing is said of the lines then. The memory grows with the bytes of the
    /// whole lines, and with one line.
    pub fn take(&mut self, bytes: &[u8]) -> Result<(), AllocError>
        ensures { OnOk result (self.new ≡ batched self.old bytes.now) }
    {
        let mut from = 0;
        'lines: while let Some(n) = memchr(b'\n', &bytes[from..]) {
            let end = from + n;
            self.take_open(&bytes[from..end])?;
            self.end_line()?;
            from = end + 1;
        }
        self.take_open(&bytes[from..])?;
        Ok(())
    }

    /// The whole lines, each with its line feed.
    pub fn whole(&self) -> &[u8]
        ensures { result.now ≡ self.now.whole }
    {
        &self.whole
    }

    /// Whether a line in pieces is held back.
    pub fn has_held(&self) -> bool
        ensures { result ≡ not (is_nothing self.now.held) }
    {
        !self.held.is_empty()
    }

    /// Drops the whole lines, and keeps their memory.
    pub fn clear(&mut self)
        ensures { self.new ≡ emptied self.old }
    {
        self.whole.clear();
    }
}

// A space, a tab or a carriage return.
fn is_blank(b: u8) -> bool
    ensures { result ≡ is_blank b }
{
    b == b' ' || b == b'\t' || b == b'\r'
}
