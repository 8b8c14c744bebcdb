//! Two files of which one counts.
ghost use Rattle.std.specs.Prelude.{◌≡◌, ◌⊎◌, ◌+◌, ◌<◌, ◌≤◌, ◌^◌, ℕ, false, true, List, [], ◌++◌, length, take, drop, IfOk, IfErr, OnOk, IsTrue};
ghost use Rattle.sqlite_disk.specs.Disk.{MoreFaults};
ghost use Rattle.snap_log.specs.Log.{IsHonest, text_in};
ghost use Rattle.snap_log.specs.Opening.{FailsFor, IsRefusedFile, RefusesFile};
ghost use Rattle.snap_log.specs.Texts.{log_text, AreLines};
ghost use Rattle.snap_pair.specs.Texts.{pair_text};

use crate::error::{Failed, PairUnopened, ReplaceFailed, Which};
use crate::halves::{Halves, apart};
use crate::replacing::Replacing;
use snap_log::{AppendFailed, ClearFailed, Log, OpenFailed};
use sqlite_disk::Disk;
use std::io;

/// A log in two files. The second one counts where it has a line, else the first one.
///
/// What its clauses say of lines holds as long as no answer of the disks was a lie (`ArePairHonest`).
#[derive(Drop)]
pub struct Pair<D: Disk> {
    first: Log<D>,
    second: Log<D>,
}

impl<D: Disk> Pair<D> {
    ghost use Rattle.snap_pair.specs.Pair.{ArePairHonest, AreHonestAfter, IfPairNotKept, OneFailed, PairKeeps, file_of, first_after, first_of, first_opened, joined, lines_in, second_after, second_of, second_opened};
    ghost use Rattle.snap_pair.specs.Replacing.{AreHonestReplaced, AreReplacingHonest, LeavesCounting, first_replaced, lines_coming, lines_counting, second_replaced};

    /// Opens two files as one log.
    ///
    /// The errors of [`Log::open`] with the file that they are about; both files are then as they were, but for a first
    /// closed gate. Cost and memory are those of these calls.
    pub fn open(first: D, second: D) -> Result<Pair<D>, PairUnopened<D>>
        requires first { IsTrue (D.Disk.is_usable first) }
        requires second { IsTrue (D.Disk.is_usable second) }
        ensures text { IfOk result (λ pair. ArePairHonest pair → PairKeeps pair (pair_text (D.Disk.seen first) (D.Disk.seen second))) }
        // Of the file of which it is told.
        ensures refused { IfErr result (λ e. IsTrue (D.Disk.is_clean (file_of e.which e.first e.second)) → RefusesFile e.why (D.Disk.seen (file_of e.which first second))) }
        ensures unchanged { IfErr result (λ e. IsRefusedFile e.why → D.Disk.seen (file_of e.which e.first e.second) ≡ D.Disk.seen (file_of e.which first second)) }
        ensures faults { IfErr result (λ e. IsTrue (D.Disk.is_clean (file_of e.which e.first e.second))
            → FailsFor e.why (MoreFaults (D.Disk.faults (file_of e.which first second)) (D.Disk.faults (file_of e.which e.first e.second)))) }
        // Whatever the call answers, a crash leaves each file's text, or a file that could be left before.
        ensures first_crash { IsTrue (D.Disk.is_clean (first_opened result)) → (c : List ℕ) → D.Disk.may_leave (first_opened result) c
            → D.Disk.may_leave first c ⊎ (log_text c ≡ log_text (D.Disk.seen first)) }
        ensures second_crash { IsTrue (D.Disk.is_clean (second_opened result)) → (d : List ℕ) → D.Disk.may_leave (second_opened result) d
            → D.Disk.may_leave second d ⊎ (log_text d ≡ log_text (D.Disk.seen second)) }
        // Each file stays the one that it was.
        ensures first { IsTrue (D.Disk.is_clean (first_opened result)) → IsTrue (D.Disk.is_clean first) }
        ensures second { IsTrue (D.Disk.is_clean (second_opened result)) → IsTrue (D.Disk.is_clean second) }
    {
        let first = match Log::open(first) {
            Ok(first) => first,
            Err(OpenFailed { disk, why }) => return Err(PairUnopened {
                first: disk,
                second,
                which: Which::First,
                why,
            }),
        };
        match Log::open(second) {
            Ok(second) => Ok(Pair { first, second }),
            Err(OpenFailed { disk, why }) => Err(PairUnopened {
                first: first.into_disk(),
                second: disk,
                which: Which::Second,
                why,
            }),
        }
    }

    /// How many bytes the lines have that count. Takes no memory.
    pub fn len(&self) -> usize
        ensures { ArePairHonest self.now → result ≡ length (lines_in self.now) }
    {
        if self.second.is_empty() {
            self.first.len()
        } else {
            self.second.len()
        }
    }

    /// Whether no line counts. Takes no memory.
    pub fn is_empty(&self) -> bool
        ensures none { ArePairHonest self.now → IsTrue result → lines_in self.now ≡ [] }
        ensures some { ArePairHonest self.now → result ≡ false → 0 < length (lines_in self.now) }
    {
        self.first.is_empty() && self.second.is_empty()
    }

    /// Reads bytes of the lines that count from a place on, as many as the buffer has. As [`Log::read_at`].
    pub fn read_at(&mut self, at: usize, buf: &mut [u8]) -> io::Result<()>
        requires some { 0 < length buf.old }
        ensures read { OnOk result (ArePairHonest self.new → at + length buf.old ≤ length (lines_in self.old) → buf.new ≡ take (length buf.old) (drop at (lines_in self.old))) }
        ensures faults { IfErr result (λ _. ArePairHonest self.new → at + length buf.old ≤ length (lines_in self.old)
            → OneFailed D.Disk.faults (first_of self.old) (second_of self.old) (first_of self.new) (second_of self.new)) }
        ensures lines { lines_in self.new ≡ lines_in self.old }
        ensures first_crash { (c : List ℕ) → D.Disk.may_leave (first_of self.new) c → D.Disk.may_leave (first_of self.old) c }
        ensures second_crash { (d : List ℕ) → D.Disk.may_leave (second_of self.new) d → D.Disk.may_leave (second_of self.old) d }
        ensures clean { ArePairHonest self.new → ArePairHonest self.old }
    {
        if self.second.is_empty() {
            self.first.read_at(at, buf)
        } else {
            self.second.read_at(at, buf)
        }
    }

    /// Adds whole lines behind those that count, as one: a crash at any moment leaves all of them or none.
    ///
    /// As [`Log::append`] of the file that counts.
    pub fn append(self, lines: &[u8]) -> Result<Pair<D>, Failed<Pair<D>, D>>
        requires lines { AreLines lines.now }
        ensures added { IfOk result (λ pair. ArePairHonest pair → PairKeeps pair (lines_in self ++ lines.now)) }
        ensures not_kept { IfPairNotKept result (λ pair. ArePairHonest pair → PairKeeps pair (lines_in self)) }
        // Whatever the call answers, a crash leaves all of the lines or none.
        ensures crash { AreHonestAfter result → (c d : List ℕ) → D.Disk.may_leave (first_after first_of result) c → D.Disk.may_leave (second_after second_of result) d
            → (pair_text c d ≡ lines_in self) ⊎ (pair_text c d ≡ lines_in self ++ lines.now) }
        // It doesn't give up by itself.
        ensures faults { IfErr result (λ _. AreHonestAfter result → OneFailed D.Disk.faults (first_of self) (second_of self) (first_after first_of result) (second_after second_of result)
            ⊎ (2 ^ 64 ≤ length (lines_in self) + length lines.now + 1)) }
        ensures clean { AreHonestAfter result → ArePairHonest self }
        // Each file stays the one that it was.
        ensures first { IsTrue (D.Disk.is_clean (first_after first_of result)) → IsTrue (D.Disk.is_clean (first_of self)) }
        ensures second { IsTrue (D.Disk.is_clean (second_after second_of result)) → IsTrue (D.Disk.is_clean (second_of self)) }
    {
        let Pair { first, second } = self;
        if second.is_empty() {
            return match first.append(lines) {
                Ok(first) => Ok(Pair { first, second }),
                Err(AppendFailed::NotKept(first, error)) => {
                    Err(Failed::NotKept(Pair { first, second }, error))
                }
                Err(AppendFailed::Unknown(first, error)) => {
                    Err(Failed::Unknown(first, second.into_disk(), error))
                }
            };
        }
        match second.append(lines) {
            Ok(second) => Ok(Pair { first, second }),
            Err(AppendFailed::NotKept(second, error)) => {
                Err(Failed::NotKept(Pair { first, second }, error))
            }
            Err(AppendFailed::Unknown(second, error)) => {
                Err(Failed::Unknown(first.into_disk(), second, error))
            }
        }
    }

    /// The log that counts, and the other one. Takes no memory, and calls no disk.
    pub fn split(self) -> Halves<D>
        ensures same { joined result ≡ self }
        ensures counting { ArePairHonest self → text_in result.counting ≡ lines_in self }
        // The second file counts where it has a line.
        ensures none { ArePairHonest self → result.is_second ≡ false → text_in result.other ≡ [] }
        ensures some { ArePairHonest self → result.is_second ≡ true → 0 < length (text_in result.counting) }
        ensures blank { IsHonest result.other → result.is_second ≡ false → text_in result.other ≡ [] }
        ensures filled { IsHonest result.counting → result.is_second ≡ true → 0 < length (text_in result.counting) }
    {
        let Pair { first, second } = self;
        apart(first, second)
    }

    // Of these two.
    pub(crate) fn of(first: Log<D>, second: Log<D>) -> Pair<D>
        ensures { result ≡ record { first = first; second = second } }
    {
        Pair { first, second }
    }

    /// Begins to write lines that are to take the place of all others.
    ///
    /// `ReplaceFailed` where the file that doesn't count couldn't be cleared, by [`Log::clear`]: those that count are there.
    /// Takes no memory.
    pub fn replace(self) -> Result<Replacing<D>, ReplaceFailed<D>>
        ensures begun { IfOk result (λ replacing. AreReplacingHonest replacing → (lines_counting replacing ≡ lines_in self) × (lines_coming replacing ≡ []) × LeavesCounting replacing) }
        // Whatever the call answers, a crash leaves the lines that count.
        ensures crash { AreHonestReplaced result → (c d : List ℕ) → D.Disk.may_leave (first_replaced result) c → D.Disk.may_leave (second_replaced result) d
            → pair_text c d ≡ lines_in self }
        // It doesn't give up by itself.
        ensures faults { IfErr result (λ failed. MoreFaults (D.Disk.faults (first_of self)) (D.Disk.faults failed.first)) }
        ensures clean { AreHonestReplaced result → ArePairHonest self }
        // Each file stays the one that it was.
        ensures first { IsTrue (D.Disk.is_clean (first_replaced result)) → IsTrue (D.Disk.is_clean (first_of self)) }
        ensures second { IsTrue (D.Disk.is_clean (second_replaced result)) → IsTrue (D.Disk.is_clean (second_of self)) }
    {
        let Pair { first, second } = self;
        if second.is_empty() {
            return Ok(Replacing::begin(first, second, true));
        }
        match first.clear() {
            Ok(first) => Ok(Replacing::begin(second, first, false)),
            Err(ClearFailed { disk, error }) => Err(ReplaceFailed {
                first: disk,
                second: second.into_disk(),
                error,
            }),
        }
    }
}
