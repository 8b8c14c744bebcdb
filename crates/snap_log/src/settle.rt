// A file's text, and its closed gate.
ghost use Rattle.std.specs.Prelude.{◌≡◌, ◌⊎◌, ◌+◌, ◌<◌, ◌≤◌, ◌^◌, ℕ, List, [], length, take, OnOk, IfOk, IfErr, IsTrue};
ghost use Rattle.sqlite_disk.specs.Disk.{Only, MoreFaults, CountsFault};
ghost use Rattle.snap_log.specs.Texts.{log_text, HasGate};
ghost use Rattle.snap_log.specs.Kept.{IsDurable};
ghost use Rattle.snap_log.specs.Scans.{at_start, scanned};
ghost use Rattle.snap_log.specs.Opening.{RefusesFile, FailsFor, IsRefusedFile};

use crate::error::OpenError;
use crate::scan::Scan;
use crate::stage::close_gate;
use sqlite_disk::Disk;
use std::io;

// The number of bytes that are read at once.
const CHUNK: usize = 16384;

// Reads the bytes that come next, as many as the buffer has.
fn scan_next<D: Disk>(disk: &mut D, buf: &mut [u8], scan: &mut Scan) -> io::Result<()>
    requires usable { IsTrue (D.Disk.is_usable disk.old) }
    requires some { 0 < length buf.old }
    requires fits { scan.old.at + length buf.old < 2 ^ 64 }
    ensures scan { OnOk result (IsTrue (D.Disk.is_clean disk.new) → scan.old ≡ scanned at_start (take scan.old.at (D.Disk.seen disk.old))
        → scan.new ≡ scanned at_start (take scan.new.at (D.Disk.seen disk.old))) }
    ensures at { OnOk result (scan.new.at ≡ scan.old.at + length buf.old) }
    ensures same { IfErr result (λ _. scan.new ≡ scan.old) }
    ensures faults { IfErr result (λ _. IsTrue (D.Disk.is_clean disk.new) → scan.old.at + length buf.old ≤ length (D.Disk.seen disk.old) → MoreFaults (D.Disk.faults disk.old) (D.Disk.faults disk.new)) }
    ensures calm { OnOk result (D.Disk.faults disk.new ≡ D.Disk.faults disk.old) }
    ensures clean { IsTrue (D.Disk.is_clean disk.new) → IsTrue (D.Disk.is_clean disk.old) }
    ensures seen { D.Disk.seen disk.new ≡ D.Disk.seen disk.old }
    ensures usable { IsTrue (D.Disk.is_usable disk.new) }
    ensures crash { (c : List ℕ) → D.Disk.may_leave disk.new c → D.Disk.may_leave disk.old c }
{
    disk.read_at(scan.at, buf)?;
    scan.feed(buf);
    Ok(())
}

// How many bytes the file's text has, of a file of `len` bytes.
fn text_len<D: Disk>(disk: &mut D, len: usize) -> io::Result<usize>
    requires usable { IsTrue (D.Disk.is_usable disk.old) }
    ensures end { IfOk result (λ end. IsTrue (D.Disk.is_clean disk.new) → len ≡ length (D.Disk.seen disk.old) → end ≡ length (log_text (D.Disk.seen disk.old))) }
    ensures faults { IfErr result (λ _. IsTrue (D.Disk.is_clean disk.new) → len ≡ length (D.Disk.seen disk.old) → MoreFaults (D.Disk.faults disk.old) (D.Disk.faults disk.new)) }
    ensures calm { OnOk result (D.Disk.faults disk.new ≡ D.Disk.faults disk.old) }
    ensures clean { IsTrue (D.Disk.is_clean disk.new) → IsTrue (D.Disk.is_clean disk.old) }
    ensures seen { D.Disk.seen disk.new ≡ D.Disk.seen disk.old }
    ensures usable { IsTrue (D.Disk.is_usable disk.new) }
    ensures crash { (c : List ℕ) → D.Disk.may_leave disk.new c → D.Disk.may_leave disk.old c }
{
    let mut chunk = [0u8; CHUNK];
    let mut scan = Scan::new();
    'chunks: while scan.at < len {
        let n = (len - scan.at).min(CHUNK);
        scan_next(disk, &mut chunk[..n], &mut scan)?;
    }
    Ok(scan.end)
}

// Whether a closed gate stands at this byte of a file of `len` bytes.
fn has_gate<D: Disk>(disk: &mut D, len: usize, at: usize) -> io::Result<bool>
    requires usable { IsTrue (D.Disk.is_usable disk.old) }
    ensures is { IfOk result (λ is. IsTrue (D.Disk.is_clean disk.new) → len ≡ length (D.Disk.seen disk.old)
        → (IsTrue is → HasGate (D.Disk.seen disk.old) at) × (HasGate (D.Disk.seen disk.old) at → IsTrue is)) }
    ensures faults { IfErr result (λ _. IsTrue (D.Disk.is_clean disk.new) → len ≡ length (D.Disk.seen disk.old) → MoreFaults (D.Disk.faults disk.old) (D.Disk.faults disk.new)) }
    ensures calm { OnOk result (D.Disk.faults disk.new ≡ D.Disk.faults disk.old) }
    ensures clean { IsTrue (D.Disk.is_clean disk.new) → IsTrue (D.Disk.is_clean disk.old) }
    ensures seen { D.Disk.seen disk.new ≡ D.Disk.seen disk.old }
    ensures usable { IsTrue (D.Disk.is_usable disk.new) }
    ensures crash { (c : List ℕ) → D.Disk.may_leave disk.new c → D.Disk.may_leave disk.old c }
{
    if at >= len {
        return Ok(false);
    }
    let mut gate = [0u8];
    disk.read_at(at, &mut gate)?;
    Ok(gate[0] == if at == 0 { b'\0' } else { b' ' })
}

// How many bytes the text of a file of this size has, if it is a log; a new one gets its first closed gate.
fn settle_read<D: Disk>(disk: &mut D, len: usize) -> Result<usize, OpenError>
    requires usable { IsTrue (D.Disk.is_usable disk.old) }
    requires synced { Only (D.Disk.seen disk.old) (D.Disk.may_leave disk.old) }
    ensures end { IfOk result (λ end. IsTrue (D.Disk.is_clean disk.new) → len ≡ length (D.Disk.seen disk.old) → end ≡ length (log_text (D.Disk.seen disk.old))) }
    ensures kept { IsTrue (D.Disk.is_clean disk.new) → len ≡ length (D.Disk.seen disk.old)
        → OnOk result (IsDurable (log_text (D.Disk.seen disk.old)) (D.Disk.seen disk.new) (D.Disk.may_leave disk.new)) }
    ensures refused { IfErr result (λ why. IsTrue (D.Disk.is_clean disk.new) → len ≡ length (D.Disk.seen disk.old) → RefusesFile why (D.Disk.seen disk.old)) }
    ensures unchanged { IfErr result (λ why. IsRefusedFile why → D.Disk.seen disk.new ≡ D.Disk.seen disk.old) }
    ensures crash { IsTrue (D.Disk.is_clean disk.new) → len ≡ length (D.Disk.seen disk.old) → (c : List ℕ) → D.Disk.may_leave disk.new c
        → (c ≡ D.Disk.seen disk.old) ⊎ ((length c ≤ 1) × (length (D.Disk.seen disk.old) ≤ 1)) }
    ensures faults { IfErr result (λ why. IsTrue (D.Disk.is_clean disk.new) → len ≡ length (D.Disk.seen disk.old) → FailsFor why (MoreFaults (D.Disk.faults disk.old) (D.Disk.faults disk.new))) }
    ensures clean { IsTrue (D.Disk.is_clean disk.new) → IsTrue (D.Disk.is_clean disk.old) }
    ensures usable { OnOk result (IsTrue (D.Disk.is_usable disk.new)) }
{
    let end = text_len(disk, len)?;
    if has_gate(disk, len, end)? {
        return Ok(end);
    }
    if len <= 1 {
        close_gate(disk)?;
        return Ok(0);
    }
    if end == 0 {
        Err(OpenError::NotALog)
    } else {
        Err(OpenError::Damaged { at: end })
    }
}

// How many bytes a file's text has, if it is a log; a new one gets its first closed gate.
pub(crate) fn settle<D: Disk>(disk: &mut D) -> Result<usize, OpenError>
    requires usable { IsTrue (D.Disk.is_usable disk.old) }
    ensures end { IfOk result (λ end. IsTrue (D.Disk.is_clean disk.new) → end ≡ length (log_text (D.Disk.seen disk.old))) }
    ensures kept { IsTrue (D.Disk.is_clean disk.new) → OnOk result (IsDurable (log_text (D.Disk.seen disk.old)) (D.Disk.seen disk.new) (D.Disk.may_leave disk.new)) }
    ensures refused { IfErr result (λ why. IsTrue (D.Disk.is_clean disk.new) → RefusesFile why (D.Disk.seen disk.old)) }
    ensures unchanged { IfErr result (λ why. IsRefusedFile why → D.Disk.seen disk.new ≡ D.Disk.seen disk.old) }
    ensures crash { IsTrue (D.Disk.is_clean disk.new) → (c : List ℕ) → D.Disk.may_leave disk.new c
        → D.Disk.may_leave disk.old c ⊎ (c ≡ D.Disk.seen disk.old) ⊎ ((length c ≤ 1) × (length (D.Disk.seen disk.old) ≤ 1)) }
    ensures faults { IfErr result (λ why. IsTrue (D.Disk.is_clean disk.new) → FailsFor why (MoreFaults (D.Disk.faults disk.old) (D.Disk.faults disk.new))) }
    ensures clean { IsTrue (D.Disk.is_clean disk.new) → IsTrue (D.Disk.is_clean disk.old) }
    ensures usable { OnOk result (IsTrue (D.Disk.is_usable disk.new)) }
{
    disk.sync()?;
    let len = disk.len()?;
    settle_read(disk, len)
}
