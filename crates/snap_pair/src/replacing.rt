//! Lines that are to take the place of all others.
ghost use Rattle.std.specs.Prelude.{◌≡◌, ◌⊎◌, ◌+◌, ◌<◌, ◌≤◌, ◌^◌, ℕ, false, List, [], ◌++◌, length, if◌then◌else◌, IfOk, IfErr, OnErr, OnOk, IsTrue};
ghost use Rattle.snap_log.specs.Log.{IsHonest, disk_of, text_in};
ghost use Rattle.snap_log.specs.Staged.{IsHonestStage, lines_staged, text_before};
ghost use Rattle.snap_log.specs.Texts.{AreLines};
ghost use Rattle.snap_pair.specs.Texts.{pair_text};

use crate::error::Failed;
use crate::finish::{finish_first, finish_second};
use crate::pair::Pair;
use snap_log::{AppendFailed, Appending, Log};
use sqlite_disk::Disk;
use std::io;

/// The log that counts, and the lines that are written to take its place, apart.
#[derive(Drop)]
pub struct ReplacingParts<D: Disk> {
    /// The log that counts.
    pub counting: Log<D>,
    /// What is written into the other file.
    pub coming: Appending<D>,
    /// Whether that is the second one.
    pub is_second: bool,
}

impl<D: Disk> ReplacingParts<D> {
    ghost use Rattle.snap_pair.specs.Replacing.{AreReplacingHonest, ArePartsHonest, first_apart, first_in, lines_coming, lines_counting, second_apart, second_in};

    /// Both together. The other file has no line, and the second one some where it counts. Takes no memory, and calls no
    /// disk.
    pub fn join(self) -> Replacing<D>
        requires none { IsHonestStage self.coming → text_before self.coming ≡ [] }
        requires some { IsHonest self.counting → self.is_second ≡ false → 0 < length (text_in self.counting) }
        ensures counting { lines_counting result ≡ text_in self.counting }
        ensures coming { lines_coming result ≡ lines_staged self.coming }
        ensures honest { AreReplacingHonest result → ArePartsHonest self }
        ensures first { first_in result ≡ first_apart self }
        ensures second { second_in result ≡ second_apart self }
    {
        let ReplacingParts {
            counting,
            coming,
            is_second,
        } = self;
        Replacing {
            counting,
            coming,
            is_second,
        }
    }
}

/// Two files of which one counts, and lines that are written into the other one.
///
/// What its clauses say of lines holds as long as no answer of the disks was a lie (`AreReplacingHonest`).
#[derive(Drop)]
pub struct Replacing<D: Disk> {
    // The file that counts.
    counting: Log<D>,
    // The other one.
    coming: Appending<D>,
    // Whether that is the second one.
    is_second: bool,
    ghost none: { IsHonestStage coming → text_before coming ≡ [] },
    ghost some: { IsHonest counting → is_second ≡ false → 0 < length (text_in counting) },
}

impl<D: Disk> Replacing<D> {
    ghost use Rattle.snap_pair.specs.Pair.{ArePairHonest, AreHonestAfter, IfPairNotKept, OneFailed, PairKeeps, first_after, first_of, second_after, second_of};
    ghost use Rattle.snap_pair.specs.Replacing.{AreHonestAdding, ArePartsHonest, AreReplacingHonest, LeavesCounting, first_apart, first_in, lines_coming, lines_counting, second_apart, second_in};

    // Lines are to take the place of those that count, which the other file gets.
    pub(crate) fn begin(counting: Log<D>, other: Log<D>, is_second: bool) -> Replacing<D>
        requires none { IsHonest other → text_in other ≡ [] }
        requires some { IsHonest counting → is_second ≡ false → 0 < length (text_in counting) }
        ensures counting { lines_counting result ≡ text_in counting }
        ensures none { lines_coming result ≡ [] }
        ensures honest { AreReplacingHonest result → IsHonest counting × IsHonest other }
        ensures crash { AreReplacingHonest result → LeavesCounting result }
        ensures first { first_in result ≡ (if is_second then disk_of counting else disk_of other) }
        ensures second { second_in result ≡ (if is_second then disk_of other else disk_of counting) }
    {
        Replacing {
            counting,
            coming: other.begin_append(),
            is_second,
        }
    }

    /// The log that counts, and what is written into the other file. Takes no memory, and calls no disk.
    pub fn split(self) -> ReplacingParts<D>
        ensures counting { text_in result.counting ≡ lines_counting self }
        ensures coming { lines_staged result.coming ≡ lines_coming self }
        ensures honest { ArePartsHonest result → AreReplacingHonest self }
        ensures first { first_apart result ≡ first_in self }
        ensures second { second_apart result ≡ second_in self }
        // The other file has no line, and the second one some where it counts.
        ensures none { IsHonestStage result.coming → text_before result.coming ≡ [] }
        ensures some { IsHonest result.counting → result.is_second ≡ false → 0 < length (text_in result.counting) }
    {
        let Replacing {
            counting,
            coming,
            is_second,
        } = self;
        ReplacingParts {
            counting,
            coming,
            is_second,
        }
    }

    /// Writes whole lines behind those that are to take the place of the others.
    ///
    /// As [`Appending::push`]: an error where a write failed, and those lines are then as they were.
    pub fn push(&mut self, lines: &[u8]) -> io::Result<()>
        requires lines { AreLines lines.now }
        ensures pushed { OnOk result (AreReplacingHonest self.new → lines_coming self.new ≡ lines_coming self.old ++ lines.now) }
        ensures left { OnErr result (AreReplacingHonest self.new → lines_coming self.new ≡ lines_coming self.old) }
        ensures counting { lines_counting self.new ≡ lines_counting self.old }
        ensures crash { AreReplacingHonest self.new → LeavesCounting self.new }
        ensures faults { IfErr result (λ _. AreReplacingHonest self.new → OneFailed D.Disk.faults (first_in self.old) (second_in self.old) (first_in self.new) (second_in self.new)
            ⊎ (2 ^ 64 ≤ length (lines_coming self.old) + length lines.now + 1)) }
        ensures clean { AreReplacingHonest self.new → AreReplacingHonest self.old }
        // Each file stays the one that it was.
        ensures first { IsTrue (D.Disk.is_clean (first_in self.new)) → IsTrue (D.Disk.is_clean (first_in self.old)) }
        ensures second { IsTrue (D.Disk.is_clean (second_in self.new)) → IsTrue (D.Disk.is_clean (second_in self.old)) }
    {
        self.coming.push(lines)
    }

    /// Adds whole lines behind those that count, as one, as [`Pair::append`]. They aren't among those that come.
    pub fn append(self, lines: &[u8]) -> Result<Replacing<D>, Failed<Replacing<D>, D>>
        requires lines { AreLines lines.now }
        ensures added { IfOk result (λ replacing. AreReplacingHonest replacing → (lines_counting replacing ≡ lines_counting self ++ lines.now)
            × (lines_coming replacing ≡ lines_coming self) × LeavesCounting replacing) }
        ensures not_kept { IfPairNotKept result (λ replacing. AreReplacingHonest replacing → (lines_counting replacing ≡ lines_counting self)
            × (lines_coming replacing ≡ lines_coming self) × LeavesCounting replacing) }
        // Whatever the call answers, a crash leaves all of the lines or none.
        ensures crash { AreHonestAdding result → (c d : List ℕ) → D.Disk.may_leave (first_after first_in result) c → D.Disk.may_leave (second_after second_in result) d
            → (pair_text c d ≡ lines_counting self) ⊎ (pair_text c d ≡ lines_counting self ++ lines.now) }
        // It doesn't give up by itself.
        ensures faults { IfErr result (λ _. AreHonestAdding result → OneFailed D.Disk.faults (first_in self) (second_in self) (first_after first_in result) (second_after second_in result)
            ⊎ (2 ^ 64 ≤ length (lines_counting self) + length lines.now + 1)) }
        ensures clean { AreHonestAdding result → AreReplacingHonest self }
        // Each file stays the one that it was.
        ensures first { IsTrue (D.Disk.is_clean (first_after first_in result)) → IsTrue (D.Disk.is_clean (first_in self)) }
        ensures second { IsTrue (D.Disk.is_clean (second_after second_in result)) → IsTrue (D.Disk.is_clean (second_in self)) }
    {
        let Replacing {
            counting,
            coming,
            is_second,
        } = self;
        match counting.append(lines) {
            Ok(counting) => Ok(Replacing {
                counting,
                coming,
                is_second,
            }),
            Err(AppendFailed::NotKept(counting, error)) => Err(Failed::NotKept(
                Replacing {
                    counting,
                    coming,
                    is_second,
                },
                error,
            )),
            Err(AppendFailed::Unknown(disk, error)) => {
                let other = coming.give_up().into_disk();
                if is_second {
                    Err(Failed::Unknown(disk, other, error))
                } else {
                    Err(Failed::Unknown(other, disk, error))
                }
            }
        }
    }

    /// Lets the lines that were written take the place of all others, as one: a crash at any moment leaves these or those.
    ///
    /// At `Ok` they are on the disk, and each later crash leaves them alone. `NotKept` where the write of the closed gate
    /// behind them failed: those that counted count. `Unknown` where a sync failed, or the write of a byte by which lines
    /// count. Three syncs, four writes, or two and two; no memory.
    pub fn finish(self) -> Result<Pair<D>, Failed<Pair<D>, D>>
        requires some { AreReplacingHonest self → 0 < length (lines_coming self) }
        ensures replaced { IfOk result (λ pair. ArePairHonest pair → PairKeeps pair (lines_coming self)) }
        ensures not_kept { IfPairNotKept result (λ pair. ArePairHonest pair → PairKeeps pair (lines_counting self)) }
        // Whatever the call answers, a crash leaves these lines or those.
        ensures crash { AreHonestAfter result → (c d : List ℕ) → D.Disk.may_leave (first_after first_of result) c → D.Disk.may_leave (second_after second_of result) d
            → (pair_text c d ≡ lines_counting self) ⊎ (pair_text c d ≡ lines_coming self) }
        // It doesn't give up by itself.
        ensures faults { IfErr result (λ _. OneFailed D.Disk.faults (first_in self) (second_in self) (first_after first_of result) (second_after second_of result)) }
        ensures clean { AreHonestAfter result → AreReplacingHonest self }
        // Each file stays the one that it was.
        ensures first { IsTrue (D.Disk.is_clean (first_after first_of result)) → IsTrue (D.Disk.is_clean (first_in self)) }
        ensures second { IsTrue (D.Disk.is_clean (second_after second_of result)) → IsTrue (D.Disk.is_clean (second_in self)) }
    {
        let Replacing {
            counting,
            coming,
            is_second,
        } = self;
        if is_second {
            finish_second(counting, coming)
        } else {
            finish_first(coming, counting)
        }
    }

    /// The log without these lines. Takes no memory, and calls no disk.
    pub fn give_up(self) -> Pair<D>
        ensures kept { ArePairHonest result → PairKeeps result (lines_counting self) }
        ensures clean { ArePairHonest result → AreReplacingHonest self }
        ensures first { first_of result ≡ first_in self }
        ensures second { second_of result ≡ second_in self }
    {
        let Replacing {
            counting,
            coming,
            is_second,
        } = self;
        if is_second {
            Pair::of(counting, coming.give_up())
        } else {
            Pair::of(coming.give_up(), counting)
        }
    }
}
