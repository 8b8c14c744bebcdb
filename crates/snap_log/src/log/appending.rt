//! Lines that are added in parts, and count together.
ghost use Rattle.std.specs.Prelude.{◌≡◌, ◌⊎◌, ◌+◌, ◌<◌, ◌≤◌, ◌^◌, ℕ, List, [], ◌++◌, length, slice_index, OnOk, OnErr, IfOk, IfErr, IsTrue};
ghost use Rattle.sqlite_disk.specs.Disk.{MoreFaults};
ghost use Rattle.snap_log.specs.Texts.{gate_at, log_text, AreLines, IsLog};
ghost use Rattle.snap_log.specs.Kept.{IsDurable, IsBeforeOrAfter};
ghost use Rattle.snap_log.specs.Parts.{staged_text};

use crate::error::AppendFailed;
use crate::log::Log;
use crate::stage::{StageError, finish, too_large, write_next};
use sqlite_disk::Disk;
use std::io;

/// A log, and lines that are written behind it in parts. They don't count before all are there, so a crash leaves the log
/// without them.
///
/// What its clauses say of texts holds as long as no answer of the disk was a lie (`IsHonestStage`).
#[derive(Drop)]
pub struct Appending<D: Disk> {
    disk: D,
    end: usize,
    staged: usize,
    ghost usable: { IsTrue (D.Disk.is_usable disk) },
    ghost fits: { end + staged < 2 ^ 64 },
    ghost ends: { IsTrue (D.Disk.is_clean disk) → end ≡ length (log_text (D.Disk.seen disk)) },
    ghost kept: { IsTrue (D.Disk.is_clean disk) → IsDurable (log_text (D.Disk.seen disk)) (D.Disk.seen disk) (D.Disk.may_leave disk) },
    ghost there: { IsTrue (D.Disk.is_clean disk) → end + staged ≤ length (D.Disk.seen disk) },
    ghost lines: { IsTrue (D.Disk.is_clean disk) → AreLines (staged_text (D.Disk.seen disk) end staged) },
}

impl<D: Disk> Log<D> {
    ghost use Rattle.snap_log.specs.Log.{disk_of, text_in, IsHonest};
    ghost use Rattle.snap_log.specs.Staged.{disk_behind, lines_staged};

    /// Begins to add lines in parts. Takes no memory, and calls no disk.
    pub fn begin_append(self) -> Appending<D>
        ensures disk { disk_behind result ≡ disk_of self }
        ensures none { lines_staged result ≡ [] }
    {
        let Log { disk, end } = self;
        Appending {
            disk,
            end,
            staged: 0,
        }
    }
}

impl<D: Disk> Appending<D> {
    ghost use Rattle.snap_log.specs.Log.{disk_of, text_in, IsHonest, Keeps, disk_after, IfNotKept};
    ghost use Rattle.snap_log.specs.Staged.{IsHonestStage, disk_behind, lines_staged, text_before};

    /// Writes whole lines behind those that were written.
    ///
    /// An error where a write failed, as on a full disk, or where the file's end would pass 2^64 bytes: those lines are
    /// then as they were, and these can be written again. One write, no memory.
    pub fn push(&mut self, lines: &[u8]) -> io::Result<()>
        requires lines { AreLines lines.now }
        ensures pushed { OnOk result (IsHonestStage self.new → lines_staged self.new ≡ lines_staged self.old ++ lines.now) }
        ensures left { OnErr result (IsHonestStage self.new → lines_staged self.new ≡ lines_staged self.old) }
        ensures text { IsHonestStage self.new → text_before self.new ≡ text_before self.old }
        // A crash leaves the log without them.
        ensures crash { IsHonestStage self.new → (c : List ℕ) → D.Disk.may_leave (disk_behind self.new) c → log_text c ≡ text_before self.old }
        ensures faults { IfErr result (λ _. IsHonestStage self.new → MoreFaults (D.Disk.faults (disk_behind self.old)) (D.Disk.faults (disk_behind self.new))
            ⊎ (2 ^ 64 ≤ length (text_before self.old) + length (lines_staged self.old) + length lines.now + 1)) }
        ensures calm { OnOk result (D.Disk.faults (disk_behind self.new) ≡ D.Disk.faults (disk_behind self.old)) }
        ensures clean { IsHonestStage self.new → IsHonestStage self.old }
    {
        if lines.is_empty() {
            return Ok(());
        }
        if lines.len() >= usize::MAX - (self.end + self.staged) {
            return Err(too_large());
        }
        write_next(&mut self.disk, self.end, self.staged, lines)?;
        self.staged += lines.len();
        Ok(())
    }

    /// Lets the lines count, as one: a crash at any moment leaves all of them or none.
    ///
    /// At `Ok` they are on the disk, and each later crash leaves a log that has them. `NotKept` where the write of the
    /// closed gate behind them failed: the log is as it was. `Unknown` where a sync failed, or the write of the one byte
    /// by which they count. Two syncs, two writes, no memory; nothing where no line was written.
    pub fn finish(self) -> Result<Log<D>, AppendFailed<D>>
        ensures added { IfOk result (λ log. IsHonest log → Keeps log (text_before self ++ lines_staged self)) }
        ensures not_kept { IfNotKept result (λ log. IsHonest log → Keeps log (text_before self)) }
        // Whatever the call answers, a crash leaves all of the lines or none,
        ensures crash { IsTrue (D.Disk.is_clean (disk_after result)) → (c : List ℕ) → D.Disk.may_leave (disk_after result) c → IsBeforeOrAfter (text_before self) (lines_staged self) c }
        // and a log, unless it leaves a byte in place of the gate that nobody wrote.
        ensures opens { IsTrue (D.Disk.is_clean (disk_after result)) → (c : List ℕ) → D.Disk.may_leave (disk_after result) c
            → (slice_index c (length (text_before self)) ≡ gate_at (length (text_before self))) ⊎ (slice_index c (length (text_before self)) ≡ 123) → IsLog c }
        // It doesn't give up by itself.
        ensures faults { IfErr result (λ _. MoreFaults (D.Disk.faults (disk_behind self)) (D.Disk.faults (disk_after result))) }
        ensures clean { IsTrue (D.Disk.is_clean (disk_after result)) → IsHonestStage self }
    {
        let Appending {
            mut disk,
            end,
            staged,
        } = self;
        match finish(&mut disk, end, staged) {
            Ok(()) => Ok(Log {
                disk,
                end: end + staged,
            }),
            Err(StageError::Write(error)) => Err(AppendFailed::NotKept(Log { disk, end }, error)),
            Err(StageError::Sync(error)) => Err(AppendFailed::Unknown(disk, error)),
        }
    }

    /// The log without the lines. Takes no memory, and calls no disk.
    pub fn give_up(self) -> Log<D>
        ensures disk { disk_of result ≡ disk_behind self }
        ensures text { text_in result ≡ text_before self }
    {
        let Appending {
            disk,
            end,
            staged: _,
        } = self;
        Log { disk, end }
    }
}
