ghost use Rattle.std.specs.Prelude.{◌≡◌, false, ◌≢◌, ◌⊎◌, ◌+◌, ◌<◌, ◌≤◌, ◌^◌, ℕ, List, [], ◌++◌, length, take, drop, slice_index, OnOk, OnErr, IfOk, IfErr, IsTrue};
ghost use Rattle.sqlite_disk.specs.Disk.{MoreFaults};
ghost use Rattle.snap_log.specs.Texts.{log_text, gate_at, AreLines, IsLog};
ghost use Rattle.snap_log.specs.Kept.{IsDurable, IsBeforeOrAfter};
ghost use Rattle.snap_log.specs.Opening.{RefusesFile, FailsFor, IsRefusedFile};

mod appending;

use crate::error::{AppendFailed, ClearFailed, OpenFailed};
use crate::settle::settle;
use crate::stage::close_gate;
pub use appending::Appending;
use sqlite_disk::Disk;
use std::io;

/// A log of lines in one file.
///
/// What its clauses say of texts holds as long as no answer of the disk was a lie (`IsHonest`).
#[derive(Drop)]
pub struct Log<D: Disk> {
    disk: D,
    end: usize,
    ghost usable: { IsTrue (D.Disk.is_usable disk) },
    ghost ends: { IsTrue (D.Disk.is_clean disk) → end ≡ length (log_text (D.Disk.seen disk)) },
    ghost kept: { IsTrue (D.Disk.is_clean disk) → IsDurable (log_text (D.Disk.seen disk)) (D.Disk.seen disk) (D.Disk.may_leave disk) },
}

impl<D: Disk> Log<D> {
    ghost use Rattle.snap_log.specs.Log.{disk_of, text_in, IsHonest, Keeps, disk_opened, disk_after, disk_cleared, IfNotKept};

    /// Opens a file as a log: its text is that of its whole lines, as a crash may have left them.
    ///
    /// `NotALog` or `Damaged` where it is none (`IsLog`): the file is then as it was. `Io` where a call of the disk
    /// failed; the file's text is then as it was. Syncs the file and reads it once, by 16 KiB; a file of no byte or one
    /// gets its first closed gate, and is synced again. Takes no memory but what the disk takes.
    pub fn open(mut disk: D) -> Result<Log<D>, OpenFailed<D>>
        requires usable { IsTrue (D.Disk.is_usable disk) }
        ensures text { IfOk result (λ log. IsHonest log → Keeps log (log_text (D.Disk.seen disk))) }
        ensures refused { IfErr result (λ e. IsTrue (D.Disk.is_clean e.disk) → RefusesFile e.why (D.Disk.seen disk)) }
        ensures unchanged { IfErr result (λ e. IsRefusedFile e.why → D.Disk.seen e.disk ≡ D.Disk.seen disk) }
        ensures faults { IfErr result (λ e. IsTrue (D.Disk.is_clean e.disk) → FailsFor e.why (MoreFaults (D.Disk.faults disk) (D.Disk.faults e.disk))) }
        // Whatever the call answers, a crash leaves the file's text, or a file that could be left before.
        ensures crash { IsTrue (D.Disk.is_clean (disk_opened result)) → (c : List ℕ) → D.Disk.may_leave (disk_opened result) c
            → D.Disk.may_leave disk c ⊎ (log_text c ≡ log_text (D.Disk.seen disk)) }
        ensures clean { IsTrue (D.Disk.is_clean (disk_opened result)) → IsTrue (D.Disk.is_clean disk) }
    {
        match settle(&mut disk) {
            Ok(end) => Ok(Log { disk, end }),
            Err(why) => Err(OpenFailed { disk, why }),
        }
    }

    /// How many bytes the text has.
    pub fn len(&self) -> usize
        ensures { IsHonest self.now → result ≡ length (text_in self.now) }
    {
        self.end
    }

    /// Whether there is no line.
    pub fn is_empty(&self) -> bool
        ensures none { IsHonest self.now → IsTrue result → length (text_in self.now) ≡ 0 }
        ensures some { IsHonest self.now → result ≡ false → 0 < length (text_in self.now) }
    {
        self.end == 0
    }

    /// The file.
    pub fn into_disk(self) -> D
        ensures { result ≡ disk_of self }
    {
        let Log { disk, end: _ } = self;
        disk
    }

    /// Reads bytes of the text from a place on, as many as the buffer has.
    ///
    /// An error where a call of the disk failed, or they end behind the text. Takes no memory; the cost is that of the
    /// read.
    pub fn read_at(&mut self, at: usize, buf: &mut [u8]) -> io::Result<()>
        requires some { 0 < length buf.old }
        ensures read { OnOk result (IsHonest self.new → at + length buf.old ≤ length (text_in self.old) → buf.new ≡ take (length buf.old) (drop at (text_in self.old))) }
        ensures faults { IfErr result (λ _. IsHonest self.new → at + length buf.old ≤ length (text_in self.old) → MoreFaults (D.Disk.faults (disk_of self.old)) (D.Disk.faults (disk_of self.new))) }
        ensures text { text_in self.new ≡ text_in self.old }
        ensures crash { (c : List ℕ) → D.Disk.may_leave (disk_of self.new) c → D.Disk.may_leave (disk_of self.old) c }
        ensures clean { IsHonest self.new → IsHonest self.old }
    {
        self.disk.read_at(at, buf)
    }

    /// Adds whole lines at the end, as one: a crash at any moment leaves all of them or none.
    ///
    /// At `Ok` they are on the disk, and each later crash leaves a log that has them. `NotKept` where a write failed: the
    /// log is as it was, and the lines can be added again; also where the file's end would pass 2^64 bytes. `Unknown`
    /// where a sync failed, or the write of the one byte by which the lines count. Two syncs, three writes, no memory.
    pub fn append(self, lines: &[u8]) -> Result<Log<D>, AppendFailed<D>>
        requires lines { AreLines lines.now }
        ensures added { IfOk result (λ log. IsHonest log → Keeps log (text_in self ++ lines.now)) }
        ensures not_kept { IfNotKept result (λ log. IsHonest log → Keeps log (text_in self)) }
        // Whatever the call answers, a crash leaves all of the lines or none,
        ensures crash { IsTrue (D.Disk.is_clean (disk_after result)) → (c : List ℕ) → D.Disk.may_leave (disk_after result) c → IsBeforeOrAfter (text_in self) lines.now c }
        // and a log, unless it leaves a byte in place of the gate that nobody wrote.
        ensures opens { IsTrue (D.Disk.is_clean (disk_after result)) → (c : List ℕ) → D.Disk.may_leave (disk_after result) c
            → (slice_index c (length (text_in self)) ≡ gate_at (length (text_in self))) ⊎ (slice_index c (length (text_in self)) ≡ 123) → IsLog c }
        // It doesn't give up by itself.
        ensures faults { IfErr result (λ _. IsTrue (D.Disk.is_clean (disk_after result))
            → MoreFaults (D.Disk.faults (disk_of self)) (D.Disk.faults (disk_after result)) ⊎ (2 ^ 64 ≤ length (text_in self) + length lines.now + 1)) }
        ensures clean { IsTrue (D.Disk.is_clean (disk_after result)) → IsHonest self }
    {
        let mut appending = self.begin_append();
        match appending.push(lines) {
            Ok(()) => appending.finish(),
            Err(error) => Err(AppendFailed::NotKept(appending.give_up(), error)),
        }
    }

    /// Takes all lines away, as one: a crash at any moment leaves all of them or none. Their bytes stay in the file, and
    /// further lines are written over them.
    ///
    /// At `Ok` none is left, and each later crash leaves a log without a line. `ClearFailed` where the write of the one byte
    /// failed by which they count, or its sync. One sync, one write, no memory; nothing where there is no line.
    pub fn clear(self) -> Result<Log<D>, ClearFailed<D>>
        ensures cleared { IfOk result (λ log. IsHonest log → Keeps log []) }
        // Whatever the call answers, a crash leaves all of the lines or none.
        ensures crash { IsTrue (D.Disk.is_clean (disk_cleared result)) → (c : List ℕ) → D.Disk.may_leave (disk_cleared result) c → (log_text c ≡ text_in self) ⊎ (log_text c ≡ []) }
        // It doesn't give up by itself.
        ensures faults { IfErr result (λ _. MoreFaults (D.Disk.faults (disk_of self)) (D.Disk.faults (disk_cleared result))) }
        ensures clean { IsTrue (D.Disk.is_clean (disk_cleared result)) → IsHonest self }
    {
        if self.end == 0 {
            return Ok(self);
        }
        let Log { mut disk, end: _ } = self;
        match close_gate(&mut disk) {
            Ok(()) => Ok(Log { disk, end: 0 }),
            Err(error) => Err(ClearFailed { disk, error }),
        }
    }
}
