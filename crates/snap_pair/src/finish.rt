// Lines that were written take the place of all others.
ghost use Rattle.std.specs.Prelude.{◌≡◌, ◌⊎◌, ◌<◌, ℕ, List, [], length, IfErr, IfOk, IsTrue};
ghost use Rattle.snap_log.specs.Log.{IsHonest, disk_of, text_in};
ghost use Rattle.snap_log.specs.Staged.{IsHonestStage, disk_behind, lines_staged, text_before};
ghost use Rattle.snap_pair.specs.Pair.{AreHonestAfter, ArePairHonest, IfPairNotKept, OneFailed, PairKeeps, first_after, first_of, second_after, second_of};
ghost use Rattle.snap_pair.specs.Texts.{pair_text};

use crate::error::Failed;
use crate::pair::Pair;
use snap_log::{AppendFailed, Appending, ClearFailed, Log};
use sqlite_disk::Disk;

// Lets lines count that stand in the second file, in place of those in the first one.
pub(crate) fn finish_second<D: Disk>(
    first: Log<D>,
    coming: Appending<D>,
) -> Result<Pair<D>, Failed<Pair<D>, D>>
    requires none { IsHonestStage coming → text_before coming ≡ [] }
    requires some { IsHonest first → IsHonestStage coming → 0 < length (lines_staged coming) }
    ensures replaced { IfOk result (λ pair. ArePairHonest pair → PairKeeps pair (lines_staged coming)) }
    ensures not_kept { IfPairNotKept result (λ pair. ArePairHonest pair → PairKeeps pair (text_in first)) }
    ensures crash { AreHonestAfter result → (c d : List ℕ) → D.Disk.may_leave (first_after first_of result) c → D.Disk.may_leave (second_after second_of result) d
        → (pair_text c d ≡ text_in first) ⊎ (pair_text c d ≡ lines_staged coming) }
    ensures faults { IfErr result (λ _. OneFailed D.Disk.faults (disk_of first) (disk_behind coming) (first_after first_of result) (second_after second_of result)) }
    ensures clean { AreHonestAfter result → IsHonest first × IsHonestStage coming }
    // Each file stays the one that it was.
    ensures first { IsTrue (D.Disk.is_clean (first_after first_of result)) → IsHonest first }
    ensures second { IsTrue (D.Disk.is_clean (second_after second_of result)) → IsHonestStage coming }
{
    match coming.finish() {
        Ok(second) => Ok(Pair::of(first, second)),
        Err(AppendFailed::NotKept(second, error)) => {
            Err(Failed::NotKept(Pair::of(first, second), error))
        }
        Err(AppendFailed::Unknown(second, error)) => {
            Err(Failed::Unknown(first.into_disk(), second, error))
        }
    }
}

// Lets lines count that stand in the first file, in place of those in the second one.
pub(crate) fn finish_first<D: Disk>(
    coming: Appending<D>,
    second: Log<D>,
) -> Result<Pair<D>, Failed<Pair<D>, D>>
    requires none { IsHonestStage coming → text_before coming ≡ [] }
    requires counting { IsHonest second → 0 < length (text_in second) }
    ensures replaced { IfOk result (λ pair. ArePairHonest pair → PairKeeps pair (lines_staged coming)) }
    ensures not_kept { IfPairNotKept result (λ pair. ArePairHonest pair → PairKeeps pair (text_in second)) }
    ensures crash { AreHonestAfter result → (c d : List ℕ) → D.Disk.may_leave (first_after first_of result) c → D.Disk.may_leave (second_after second_of result) d
        → (pair_text c d ≡ text_in second) ⊎ (pair_text c d ≡ lines_staged coming) }
    ensures faults { IfErr result (λ _. OneFailed D.Disk.faults (disk_behind coming) (disk_of second) (first_after first_of result) (second_after second_of result)) }
    ensures clean { AreHonestAfter result → IsHonest second × IsHonestStage coming }
    // Each file stays the one that it was.
    ensures first { IsTrue (D.Disk.is_clean (first_after first_of result)) → IsHonestStage coming }
    ensures second { IsTrue (D.Disk.is_clean (second_after second_of result)) → IsHonest second }
{
    let first = match coming.finish() {
        Ok(first) => first,
        Err(AppendFailed::NotKept(first, error)) => {
            return Err(Failed::NotKept(Pair::of(first, second), error));
        }
        Err(AppendFailed::Unknown(first, error)) => {
            return Err(Failed::Unknown(first, second.into_disk(), error));
        }
    };
    match second.clear() {
        Ok(second) => Ok(Pair::of(first, second)),
        Err(ClearFailed { disk, error }) => Err(Failed::Unknown(first.into_disk(), disk, error)),
    }
}
