// The steps of an append, and of taking all lines away.
ghost use Rattle.std.specs.Prelude.{◌≡◌, ◌⊎◌, ◌+◌, ◌<◌, ◌≤◌, ◌^◌, ℕ, List, [], ◌∷◌, ◌++◌, length, slice_index, OnOk, IfErr, IsTrue};
ghost use Rattle.sqlite_disk.specs.Disk.{CountsFault, MoreFaults};
ghost use Rattle.snap_log.specs.Texts.{gate_at, log_text, AreLines, IsLog};
ghost use Rattle.snap_log.specs.Kept.{IsDurable, IsStaged, IsBeforeOrAfter};
ghost use Rattle.snap_log.specs.Parts.{staged_text};
ghost use Rattle.snap_log.specs.Stages.{IsUsableUnless, IsWrite};

use sqlite_disk::Disk;
use std::io;

// Why lines were not staged.
#[derive(Clone, Copy, Debug)]
pub(crate) enum StageError {
    // A write failed.
    Write(io::Error),
    // A sync failed, or the write of the gate.
    Sync(io::Error),
}

// Opens the gate before lines that are staged, and syncs it.
pub(crate) fn open_gate<D: Disk>(disk: &mut D, end: usize) -> io::Result<()>
    requires usable { IsTrue (D.Disk.is_usable disk.old) }
    ensures kept { (text rest : List ℕ) → end ≡ length text → AreLines (123 ∷ rest) → IsStaged text rest (D.Disk.seen disk.old) (D.Disk.may_leave disk.old)
        → OnOk result (IsDurable (text ++ 123 ∷ rest) (D.Disk.seen disk.new) (D.Disk.may_leave disk.new)) }
    ensures crash { (text rest : List ℕ) → end ≡ length text → AreLines (123 ∷ rest) → IsStaged text rest (D.Disk.seen disk.old) (D.Disk.may_leave disk.old)
        → (c : List ℕ) → D.Disk.may_leave disk.new c → IsBeforeOrAfter text (123 ∷ rest) c }
    ensures opens { (text rest : List ℕ) → end ≡ length text → AreLines (123 ∷ rest) → IsStaged text rest (D.Disk.seen disk.old) (D.Disk.may_leave disk.old)
        → (c : List ℕ) → D.Disk.may_leave disk.new c → (slice_index c end ≡ gate_at end) ⊎ (slice_index c end ≡ 123) → IsLog c }
    ensures faults { CountsFault result (D.Disk.faults disk.old) (D.Disk.faults disk.new) }
    ensures usable { OnOk result (IsTrue (D.Disk.is_usable disk.new)) }
    ensures clean { D.Disk.is_clean disk.new ≡ D.Disk.is_clean disk.old }
{
    disk.write_at(end, b"{")?;
    disk.sync()
}

// Closes the gate before the first line, and syncs it.
pub(crate) fn close_gate<D: Disk>(disk: &mut D) -> io::Result<()>
    requires usable { IsTrue (D.Disk.is_usable disk.old) }
    ensures kept { OnOk result (IsDurable [] (D.Disk.seen disk.new) (D.Disk.may_leave disk.new)) }
    ensures crash { (text : List ℕ) → 0 < length text → IsDurable text (D.Disk.seen disk.old) (D.Disk.may_leave disk.old)
        → (c : List ℕ) → D.Disk.may_leave disk.new c → (log_text c ≡ text) ⊎ (log_text c ≡ []) }
    ensures short { length (D.Disk.seen disk.old) ≤ 1 → length (D.Disk.seen disk.new) ≤ 1 }
    ensures short_crash { ((c : List ℕ) → D.Disk.may_leave disk.old c → length c ≤ 1) → (c : List ℕ) → D.Disk.may_leave disk.new c → length c ≤ 1 }
    ensures faults { CountsFault result (D.Disk.faults disk.old) (D.Disk.faults disk.new) }
    ensures usable { OnOk result (IsTrue (D.Disk.is_usable disk.new)) }
    ensures clean { D.Disk.is_clean disk.new ≡ D.Disk.is_clean disk.old }
{
    disk.write_at(0, b"\0")?;
    disk.sync()
}

// Writes lines behind others that are staged behind the closed gate: of the first one the brace isn't written.
pub(crate) fn write_next<D: Disk>(
    disk: &mut D,
    end: usize,
    staged: usize,
    lines: &[u8],
) -> io::Result<()>
    requires usable { IsTrue (D.Disk.is_usable disk.old) }
    requires some { 0 < length lines.now }
    requires lines { AreLines lines.now }
    requires fits { end + staged + length lines.now < 2 ^ 64 }
    ensures kept { (text : List ℕ) → end ≡ length text → IsDurable text (D.Disk.seen disk.old) (D.Disk.may_leave disk.old)
        → IsDurable text (D.Disk.seen disk.new) (D.Disk.may_leave disk.new) }
    ensures before { end + 1 ≤ length (D.Disk.seen disk.old) → end + staged ≤ length (D.Disk.seen disk.old)
        → (staged_text (D.Disk.seen disk.new) end staged ≡ staged_text (D.Disk.seen disk.old) end staged) × (end + staged ≤ length (D.Disk.seen disk.new)) }
    ensures staged { end + 1 ≤ length (D.Disk.seen disk.old) → end + staged ≤ length (D.Disk.seen disk.old)
        → OnOk result ((staged_text (D.Disk.seen disk.new) end (staged + length lines.now) ≡ staged_text (D.Disk.seen disk.old) end staged ++ lines.now)
        × (end + (staged + length lines.now) ≤ length (D.Disk.seen disk.new))) }
    ensures faults { CountsFault result (D.Disk.faults disk.old) (D.Disk.faults disk.new) }
    ensures usable { IsTrue (D.Disk.is_usable disk.new) }
    ensures clean { D.Disk.is_clean disk.new ≡ D.Disk.is_clean disk.old }
{
    if staged == 0 {
        disk.write_at(end + 1, &lines[1..])
    } else {
        disk.write_at(end + staged, lines)
    }
}

// Writes the closed gate behind lines that are staged, and syncs them.
fn shut_behind<D: Disk>(disk: &mut D, end: usize, staged: usize) -> Result<(), StageError>
    requires usable { IsTrue (D.Disk.is_usable disk.old) }
    requires some { 0 < staged }
    requires fits { end + staged < 2 ^ 64 }
    ensures kept { (text : List ℕ) → end ≡ length text → IsDurable text (D.Disk.seen disk.old) (D.Disk.may_leave disk.old)
        → IsDurable text (D.Disk.seen disk.new) (D.Disk.may_leave disk.new) }
    ensures staged { (text rest : List ℕ) → end ≡ length text → IsDurable text (D.Disk.seen disk.old) (D.Disk.may_leave disk.old)
        → end + staged ≤ length (D.Disk.seen disk.old) → staged_text (D.Disk.seen disk.old) end staged ≡ 123 ∷ rest
        → OnOk result (IsStaged text rest (D.Disk.seen disk.new) (D.Disk.may_leave disk.new)) }
    ensures faults { CountsFault result (D.Disk.faults disk.old) (D.Disk.faults disk.new) }
    ensures usable { IsUsableUnless result (D.Disk.is_usable disk.new) }
    ensures clean { D.Disk.is_clean disk.new ≡ D.Disk.is_clean disk.old }
{
    match disk.write_at(end + staged, b" ") {
        Ok(()) => {}
        Err(error) => return Err(StageError::Write(error)),
    }
    match disk.sync() {
        Ok(()) => Ok(()),
        Err(error) => Err(StageError::Sync(error)),
    }
}

// Lets lines count that are staged behind a text of this number of bytes.
pub(crate) fn finish<D: Disk>(disk: &mut D, end: usize, staged: usize) -> Result<(), StageError>
    requires usable { IsTrue (D.Disk.is_usable disk.old) }
    requires fits { end + staged < 2 ^ 64 }
    ensures added { (text lines : List ℕ) → end ≡ length text → IsDurable text (D.Disk.seen disk.old) (D.Disk.may_leave disk.old)
        → end + staged ≤ length (D.Disk.seen disk.old) → AreLines lines → lines ≡ staged_text (D.Disk.seen disk.old) end staged
        → OnOk result (IsDurable (text ++ lines) (D.Disk.seen disk.new) (D.Disk.may_leave disk.new)) }
    ensures not_kept { (text : List ℕ) → end ≡ length text → IsDurable text (D.Disk.seen disk.old) (D.Disk.may_leave disk.old)
        → IfErr result (λ why. IsWrite why → IsDurable text (D.Disk.seen disk.new) (D.Disk.may_leave disk.new)) }
    ensures crash { (text lines : List ℕ) → end ≡ length text → IsDurable text (D.Disk.seen disk.old) (D.Disk.may_leave disk.old)
        → end + staged ≤ length (D.Disk.seen disk.old) → AreLines lines → lines ≡ staged_text (D.Disk.seen disk.old) end staged
        → (c : List ℕ) → D.Disk.may_leave disk.new c → IsBeforeOrAfter text lines c }
    ensures opens { (text lines : List ℕ) → end ≡ length text → IsDurable text (D.Disk.seen disk.old) (D.Disk.may_leave disk.old)
        → end + staged ≤ length (D.Disk.seen disk.old) → AreLines lines → lines ≡ staged_text (D.Disk.seen disk.old) end staged
        → (c : List ℕ) → D.Disk.may_leave disk.new c → (slice_index c end ≡ gate_at end) ⊎ (slice_index c end ≡ 123) → IsLog c }
    ensures faults { IfErr result (λ _. MoreFaults (D.Disk.faults disk.old) (D.Disk.faults disk.new)) }
    ensures usable { IsUsableUnless result (D.Disk.is_usable disk.new) }
    ensures clean { D.Disk.is_clean disk.new ≡ D.Disk.is_clean disk.old }
{
    if staged == 0 {
        return Ok(());
    }
    shut_behind(disk, end, staged)?;
    match open_gate(disk, end) {
        Ok(()) => Ok(()),
        Err(error) => Err(StageError::Sync(error)),
    }
}

pub(crate) fn too_large() -> io::Error {
    io::ErrorKind::FileTooLarge.into()
}
