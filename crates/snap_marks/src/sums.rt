// The sums of a log, as its lines are carried out.
ghost use Rattle.std.specs.Prelude.{◌≡◌, ◌++◌, IfOk, OnErr, OnOk, bytes_eq};
ghost use Rattle.snap_marks.specs.Marks.{stem, tail, tail_rebased};
ghost use Rattle.snap_marks.specs.Sums.{agreed, continued, continued_mark, differing, going_on, marks_agree, mark_behind, mark_compared, next_read, no_sums, passed, rebased, rebased_mark, summed, what_differs};

use crate::mark::{chained, chained_line, chained_lines, first_part, stem};
use std::alloc::{AllocError, Global};

/// What isn't as a mark has it.
#[derive(Clone, Copy, Debug, PartialEq, Eq)]
pub enum Differs {
    /// The lines before it.
    Lines,
    /// The answers that these had up to the mark before.
    Answers,
}

/// The first mark that isn't as the lines before it and their answers want it.
#[derive(Clone, Copy, Debug, PartialEq, Eq)]
pub struct Difference {
    /// Its number among the log's lines, from 1.
    pub line: u64,
    /// What differs.
    pub what: Differs,
}

/// The sums of a log's lines and of their answers, and what was found by its marks.
#[derive(Clone, Copy)]
pub struct Sums {
    /// The sum of the lines that were added.
    pub lines: [u8; 32],
    /// The sum of the answers that these had.
    pub answers: [u8; 32],
    /// The sum of answers at the last mark.
    pub told: [u8; 32],
    /// How many lines were read.
    pub read: u64,
    /// The number of the last line that is a mark which agrees, up to the first that doesn't, or 0.
    pub agreed: u64,
    /// The first mark that doesn't agree.
    pub differs: Option<Difference>,
    /// Whether the last line was a mark, or there was none.
    pub ends: bool,
}

// The number of the line after this number of lines.
fn next_read(read: u64) -> u64
    ensures { result ≡ next_read read }
{
    read.saturating_add(1)
}

impl Sums {
    /// Of no line. Takes no memory.
    pub fn new() -> Sums
        ensures { result ≡ no_sums }
    {
        Sums {
            lines: [0; 32],
            answers: [0; 32],
            told: [0; 32],
            read: 0,
            agreed: 0,
            differs: None,
            ends: true,
        }
    }

    /// Adds a line, which stands here without its line feed, and its answer. Takes no memory; the cost grows with both.
    pub fn add(&mut self, line: &[u8], answer: &[u8])
        ensures { self.new ≡ summed self.old line.now answer.now }
    {
        self.lines = chained_line(&self.lines, line);
        self.answers = chained(&self.answers, answer);
        self.read = next_read(self.read);
        self.ends = false;
    }

    /// Passes over a line that isn't added.
    pub fn pass(&mut self)
        ensures { self.new ≡ passed self.old }
    {
        self.read = next_read(self.read);
        self.ends = false;
    }

    // What isn't as this mark has it.
    fn what_differs(&self, alloc: Global, mark: &[u8]) -> Result<Differs, AllocError>
        ensures { IfOk result (λ what. what ≡ what_differs self.now mark.now) }
    {
        let first = first_part(alloc, &self.lines)?;
        if mark.starts_with(first.as_slice()) {
            Ok(Differs::Answers)
        } else {
            Ok(Differs::Lines)
        }
    }

    /// The mark by which those before it are not compared any more.
    ///
    /// `AllocError` where memory for its bytes was refused.
    pub fn rebased(&self, alloc: Global) -> Result<Vec<u8>, AllocError>
        ensures { IfOk result (λ mark. mark.items ≡ rebased_mark self.now) }
    {
        let mut text = stem(alloc, &self.lines, &self.answers)?;
        text.extend_from_slice(b"\",\"rebased\":true}")?;
        Ok(text)
    }

    /// The mark behind further lines, each with its line feed, and before their answers.
    ///
    /// `AllocError` where memory for its bytes was refused. The cost grows with the bytes of the lines.
    pub fn mark_behind(&self, alloc: Global, lines: &[u8]) -> Result<Vec<u8>, AllocError>
        ensures { IfOk result (λ mark. mark.items ≡ mark_behind self.now lines.now) }
    {
        let sum = chained_lines(&self.lines, lines);
        let mut text = stem(alloc, &sum, &self.answers)?;
        text.extend_from_slice(b"\"}")?;
        Ok(text)
    }

    // The same sums behind a mark where this differs.
    fn differ(&mut self, what: Differs)
        ensures { self.new ≡ differing self.old what }
    {
        self.read = next_read(self.read);
        self.told = self.answers;
        self.ends = true;
        if self.differs.is_none() {
            self.differs = Some(Difference {
                line: self.read,
                what,
            });
        }
    }

    /// Compares a mark, which stands here without its line feed, with the sums.
    ///
    /// `AllocError` where memory for a mark's bytes was refused; the sums are as they were then.
    #[tactic(auto, unfolding(crate::specs::Sums::mark_compared))]
    pub fn compare(&mut self, alloc: Global, mark: &[u8]) -> Result<(), AllocError>
        ensures marked { OnOk result (self.new ≡ mark_compared self.old mark.now) }
        ensures refused { OnErr result (self.new ≡ self.old) }
    {
        let rebased = self.rebased(alloc)?;
        if mark == rebased.as_slice() {
            self.read = next_read(self.read);
            self.told = self.answers;
            self.ends = true;
            self.agreed = self.read;
            self.differs = None;
            return Ok(());
        }
        let mut text = stem(alloc, &self.lines, &self.told)?;
        text.extend_from_slice(b"\"}")?;
        if mark == text.as_slice() {
            self.read = next_read(self.read);
            self.told = self.answers;
            self.ends = true;
            if self.differs.is_none() {
                self.agreed = self.read;
            }
            return Ok(());
        }
        let what = self.what_differs(alloc, mark)?;
        self.differ(what);
        Ok(())
    }

    /// The mark from which on sums go on, by its bytes alone.
    ///
    /// `AllocError` where memory for its bytes was refused.
    pub fn continued(&self, alloc: Global) -> Result<Vec<u8>, AllocError>
        ensures { IfOk result (λ mark. mark.items ≡ continued_mark self.now) }
    {
        let mut text = Vec::new(alloc);
        text.extend_from_slice(b"{\"do\":\"report\",\"lines\":\"\",\"continued\":\"")?;
        let lines = hex::encode(alloc, self.lines.as_slice())?;
        text.extend_from_slice(lines.as_bytes())?;
        let answers = hex::encode(alloc, self.answers.as_slice())?;
        text.extend_from_slice(answers.as_bytes())?;
        text.extend_from_slice(b"\"}")?;
        Ok(text)
    }

    /// Goes on from such a mark, which stands here without its line feed. Takes no memory.
    pub fn go_on(&mut self, mark: &[u8])
        ensures { self.new ≡ going_on self.old mark.now }
    {
        let none = [0; 32];
        self.read = next_read(self.read);
        self.lines = chained_line(&none, mark);
        self.answers = none;
        self.told = none;
        self.ends = true;
        self.agreed = self.read;
    }

    /// The same where all marks agree and the last line is one; else this mark doesn't. Takes no memory.
    #[tactic(auto, unfolding(crate::specs::Sums::continued))]
    pub fn continue_from(&mut self, mark: &[u8])
        ensures { self.new ≡ continued self.old mark.now }
    {
        if self.is_whole() {
            self.go_on(mark);
        } else {
            self.differ(Differs::Lines);
        }
    }

    /// Whether each mark agrees, and the last line is one, if there is any.
    pub fn is_whole(&self) -> bool
        ensures { result ≡ marks_agree self.now }
    {
        self.differs.is_none() && self.ends
    }
}
