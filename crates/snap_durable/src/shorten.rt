//! The lines of a log's store take the place of its own.
ghost use Rattle.std.specs.Prelude.{◌≡◌, ◌⊎◌, ◌<◌, ◌++◌, [], false, true, length, ℕ, List, IfErr, IfOk, OnErr, OnOk, IsTrue};
ghost use Rattle.std.specs.List.{AllByRecursion};
ghost use Rattle.snap_log.specs.Log.{text_in};
ghost use Rattle.snap_marks.specs.Marks.{chained_lines};
ghost use Rattle.snap_marks.specs.Sums.{marks_agree, no_sum};
ghost use Rattle.snap_pair.specs.Pair.{ArePairHonest, PairKeeps, first_of, lines_in, second_of};
ghost use Rattle.snap_pair.specs.Replacing.{AreReplacingHonest, LeavesCounting, first_in, lines_coming, lines_counting, second_in};
ghost use Rattle.snap_pair.specs.Texts.{pair_text};
ghost use Rattle.snap_session.specs.Kept.{idle_kept};
ghost use Rattle.snap_session.specs.Saving.{SavesRolled, saving_of};
ghost use Rattle.snap_session.specs.declared.saving.Saving.TheVariants as savings;
ghost use Rattle.snap_durable.specs.Checkpoints.{AreHonestLeft, IfStands, IfUnmade, IsCheckpoint, IsTold, IsUnmade, IsUnsaved, IsUnwritten, checkpoint_text, first_left, has_long, saved_text, second_left};
ghost use Rattle.snap_durable.specs.declared.saved.Unwritten.TheVariants.{TooLong};
ghost use Rattle.snap_durable.specs.Served.{IsReplayed};

use crate::restart::{ReplayError, replay};
use crate::saved::{Unwritten, fill, mark_line};
use snap_call::Refusal;
use snap_checkpoint::StoreLines;
use snap_ledger::{NewTable, StoreName};
use snap_lines::{Stop, TakeLine};
use snap_log::Lines;
use snap_marks::Sums;
use snap_pair::{Failed, Halves, Pair, ReplaceFailed, Replacing};
use snap_path::NoMemory;
use snap_session::{KeptServer, Resuming, Saving};
use sqlite_disk::Disk;
use std::alloc::Global;
use std::io;
use std::marker::Brand;

/// Why no checkpoint was made of a log.
#[derive(Drop)]
pub enum NoCheckpoint {
    /// Its lines were not carried out.
    Replay(ReplayError),
    /// A mark doesn't agree with the lines before it or with their answers, or the last line is no mark.
    Differs(Sums),
    /// Its lines open no store.
    NoStore,
    /// A roll of the store to as many entries is refused, and so would be the next start.
    Refused(Refusal),
    /// A line of its store would have more than 16 MiB.
    TooLong,
    /// Memory was refused.
    OutOfMemory(NoMemory),
}

/// A log of which no checkpoint was made, and why.
#[derive(Drop)]
pub enum Uncheckpointed<D: Disk> {
    /// Its lines are as they were.
    Unmade(Pair<D>, NoCheckpoint),
    /// A call of a file failed. The lines are as they were, or, where that is unknown, as they were or those of the
    /// checkpoint.
    Failed(Failed<Pair<D>, D>),
}

// Writes the lines, in parts, and gives their sum.
fn write_lines<D: Disk>(
    alloc: Global,
    replacing: &mut Replacing<D>,
    mut lines: StoreLines,
) -> Result<Sums, Unwritten>
    ensures coming { OnOk result (AreReplacingHonest replacing.new → lines_coming replacing.new ≡ lines_coming replacing.old ++ saved_text lines) }
    ensures sum { IfOk result (λ sums. sums.lines ≡ chained_lines no_sum (saved_text lines)) }
    ensures told { OnOk result (AllByRecursion IsTold lines) }
    ensures long { IfErr result (λ why. why ≡ TooLong → has_long lines ≡ true) }
    ensures counting { lines_counting replacing.new ≡ lines_counting replacing.old }
    ensures crash { (AreReplacingHonest replacing.old → LeavesCounting replacing.old) → AreReplacingHonest replacing.new → LeavesCounting replacing.new }
    ensures clean { AreReplacingHonest replacing.new → AreReplacingHonest replacing.old }
    ensures first { IsTrue (D.Disk.is_clean (first_in replacing.new)) → IsTrue (D.Disk.is_clean (first_in replacing.old)) }
    ensures second { IsTrue (D.Disk.is_clean (second_in replacing.new)) → IsTrue (D.Disk.is_clean (second_in replacing.old)) }
{
    let mut sums = Sums::new();
    let mut text = Lines::new(alloc);
    'parts: while !lines.is_empty() {
        text.clear();
        fill(alloc, &mut lines, &mut text, &mut sums)?;
        replacing.push(text.as_slice())?;
    }
    Ok(sums)
}

// Writes the text of the checkpoint.
fn write_text<D: Disk>(
    alloc: Global,
    replacing: &mut Replacing<D>,
    lines: StoreLines,
) -> Result<(), Unwritten>
    ensures coming { OnOk result (AreReplacingHonest replacing.new → lines_coming replacing.new ≡ lines_coming replacing.old ++ checkpoint_text lines) }
    ensures told { OnOk result (AllByRecursion IsTold lines) }
    ensures long { IfErr result (λ why. why ≡ TooLong → has_long lines ≡ true) }
    ensures counting { lines_counting replacing.new ≡ lines_counting replacing.old }
    ensures crash { (AreReplacingHonest replacing.old → LeavesCounting replacing.old) → AreReplacingHonest replacing.new → LeavesCounting replacing.new }
    ensures clean { AreReplacingHonest replacing.new → AreReplacingHonest replacing.old }
    ensures first { IsTrue (D.Disk.is_clean (first_in replacing.new)) → IsTrue (D.Disk.is_clean (first_in replacing.old)) }
    ensures second { IsTrue (D.Disk.is_clean (second_in replacing.new)) → IsTrue (D.Disk.is_clean (second_in replacing.old)) }
{
    let first = mark_line(alloc, &Sums::new())?;
    replacing.push(first.as_slice())?;
    let sums = write_lines(alloc, replacing, lines)?;
    let mark = mark_line(alloc, &sums)?;
    replacing.push(mark.as_slice())?;
    Ok(())
}

// Lets the text of the checkpoint take the place of the lines that count.
fn replace<D: Disk>(
    alloc: Global,
    pair: Pair<D>,
    lines: StoreLines,
) -> Result<Pair<D>, Uncheckpointed<D>>
    ensures replaced { IfOk result (λ pair_new. ArePairHonest pair_new → AllByRecursion IsTold lines × PairKeeps pair_new (checkpoint_text lines)) }
    ensures why { IfUnmade result (λ pair_new why. IsUnwritten lines why) }
    ensures stands { IfStands result (λ pair_new. ArePairHonest pair_new → PairKeeps pair_new (lines_in pair)) }
    ensures crash { AreHonestLeft result → (c d : List ℕ) → D.Disk.may_leave (first_left result) c → D.Disk.may_leave (second_left result) d
        → (pair_text c d ≡ lines_in pair) ⊎ (AllByRecursion IsTold lines × (pair_text c d ≡ checkpoint_text lines)) }
    ensures clean { AreHonestLeft result → ArePairHonest pair }
    ensures first { IsTrue (D.Disk.is_clean (first_left result)) → IsTrue (D.Disk.is_clean (first_of pair)) }
    ensures second { IsTrue (D.Disk.is_clean (second_left result)) → IsTrue (D.Disk.is_clean (second_of pair)) }
{
    let mut replacing = match pair.replace() {
        Ok(replacing) => replacing,
        Err(
            ReplaceFailed {
                first,
                second,
                error,
            },
        ) => {
            return Err(Uncheckpointed::Failed(Failed::Unknown(first, second, error)));
        }
    };
    match write_text(alloc, &mut replacing, lines) {
        Ok(()) => match replacing.finish() {
            Ok(pair) => Ok(pair),
            Err(failed) => Err(Uncheckpointed::Failed(failed)),
        },
        Err(Unwritten::OutOfMemory(want)) => Err(Uncheckpointed::Unmade(
            replacing.give_up(),
            NoCheckpoint::OutOfMemory(want),
        )),
        Err(Unwritten::TooLong) => Err(Uncheckpointed::Unmade(
            replacing.give_up(),
            NoCheckpoint::TooLong,
        )),
        Err(Unwritten::Io(error)) => Err(Uncheckpointed::Failed(Failed::NotKept(
            replacing.give_up(),
            error,
        ))),
    }
}

// The pair, whose lines were carried out, or why they weren't.
#[derive(Drop)]
pub(crate) struct Replayed<D: Disk> {
    pub(crate) pair: Pair<D>,
    pub(crate) done: Result<(), ReplayError>,
}

// Carries out the lines that count.
pub(crate) fn replay_pair<T: TakeLine, D: Disk>(
    alloc: Global,
    taker: &mut T,
    pair: Pair<D>,
) -> Replayed<D>
    ensures done { OnOk result.done (ArePairHonest result.pair → IsReplayed T.effect taker.old (lines_in pair) taker.new) }
    ensures lines { ArePairHonest result.pair → PairKeeps result.pair (lines_in pair) }
    ensures clean { ArePairHonest result.pair → ArePairHonest pair }
    ensures first { IsTrue (D.Disk.is_clean (first_of result.pair)) → IsTrue (D.Disk.is_clean (first_of pair)) }
    ensures second { IsTrue (D.Disk.is_clean (second_of result.pair)) → IsTrue (D.Disk.is_clean (second_of pair)) }
{
    let Halves {
        mut counting,
        other,
        is_second,
    } = pair.split();
    let done = replay(alloc, taker, &mut counting);
    let halves = Halves {
        counting,
        other,
        is_second,
    };
    Replayed {
        pair: halves.join(),
        done,
    }
}

// What is saved of the store that a log's lines make, whose marks agree.
fn saved_lines<N: StoreName>(
    alloc: Global,
    server: &KeptServer<N>,
) -> Result<StoreLines, NoCheckpoint>
    ensures agrees { OnOk result (marks_agree server.now.sums ≡ true) }
    ensures saved { IfOk result (λ lines. saving_of server.now.server.stepped.script.store ≡ savings.Lines lines) }
    ensures rolled { IfOk result (λ lines. SavesRolled server.now.server.stepped.script.store (savings.Lines lines)) }
    ensures why { IfErr result (λ why. IsUnsaved server.now why) }
{
    if !server.is_whole() {
        return Err(NoCheckpoint::Differs(*server.sums()));
    }
    match server.save(alloc) {
        Ok(Saving::Lines(lines)) => Ok(lines),
        Ok(Saving::NoStore) => Err(NoCheckpoint::NoStore),
        Ok(Saving::Refused(why)) => Err(NoCheckpoint::Refused(why)),
        Err(want) => Err(NoCheckpoint::OutOfMemory(want)),
    }
}

// The same by a server that has carried out no line.
fn checkpoint_by<N: StoreName, D: Disk>(
    alloc: Global,
    resuming: &mut Resuming<N>,
    pair: Pair<D>,
) -> Result<Pair<D>, Uncheckpointed<D>>
    requires { resuming.old ≡ idle_kept }
    ensures made { IfOk result (λ pair_new. ArePairHonest pair_new → (text : List ℕ) × IsCheckpoint (lines_in pair) text × PairKeeps pair_new text) }
    ensures why { IfUnmade result (λ pair_new why. ArePairHonest pair_new → IsUnmade (lines_in pair) why) }
    ensures stands { IfStands result (λ pair_new. ArePairHonest pair_new → PairKeeps pair_new (lines_in pair)) }
    ensures crash { AreHonestLeft result → (c d : List ℕ) → D.Disk.may_leave (first_left result) c → D.Disk.may_leave (second_left result) d
        → (pair_text c d ≡ lines_in pair) ⊎ IsCheckpoint (lines_in pair) (pair_text c d) }
    ensures first { IsTrue (D.Disk.is_clean (first_left result)) → IsTrue (D.Disk.is_clean (first_of pair)) }
    ensures second { IsTrue (D.Disk.is_clean (second_left result)) → IsTrue (D.Disk.is_clean (second_of pair)) }
{
    let Replayed { pair, done } = replay_pair(alloc, resuming, pair);
    if let Err(error) = done {
        return Err(Uncheckpointed::Unmade(pair, NoCheckpoint::Replay(error)));
    }
    match saved_lines(alloc, resuming.server()) {
        Ok(lines) => replace(alloc, pair, lines),
        Err(why) => Err(Uncheckpointed::Unmade(pair, why)),
    }
}

fn run<N: StoreName, D: Disk>(
    alloc: Global,
    table: NewTable,
    pair: Pair<D>,
) -> Result<Pair<D>, Uncheckpointed<D>>
    requires { table ≡ N.table }
    ensures made { IfOk result (λ pair_new. ArePairHonest pair_new → (text : List ℕ) × IsCheckpoint (lines_in pair) text × PairKeeps pair_new text) }
    ensures why { IfUnmade result (λ pair_new why. ArePairHonest pair_new → IsUnmade (lines_in pair) why) }
    ensures stands { IfStands result (λ pair_new. ArePairHonest pair_new → PairKeeps pair_new (lines_in pair)) }
    ensures crash { AreHonestLeft result → (c d : List ℕ) → D.Disk.may_leave (first_left result) c → D.Disk.may_leave (second_left result) d
        → (pair_text c d ≡ lines_in pair) ⊎ IsCheckpoint (lines_in pair) (pair_text c d) }
    ensures first { IsTrue (D.Disk.is_clean (first_left result)) → IsTrue (D.Disk.is_clean (first_of pair)) }
    ensures second { IsTrue (D.Disk.is_clean (second_left result)) → IsTrue (D.Disk.is_clean (second_of pair)) }
{
    let mut resuming: Resuming<N> = Resuming::new(KeptServer::new(alloc, table));
    checkpoint_by(alloc, &mut resuming, pair)
}

/// Carries out a log in two files, and lets the lines of its store take the place of all others, as one, with a mark
/// before them, by which the text is a checkpoint's, and one behind them: a crash at any moment leaves these or those.
/// They make the store that a `roll` to as many entries leaves.
///
/// `Unmade` where no line of them counts: the log's lines were not carried out, as where it could not be read or memory
/// was refused; its marks don't agree; it has no store; its store can't be rolled to as many entries; a line of it
/// would have more than 16 MiB; or memory was refused. The log's lines are then as they were. `Failed` with `NotKept`
/// where a write failed, as on a full disk: they are as they were too. `Failed` with `Unknown` where a sync failed, or
/// the write of a byte by which lines count. The cost is that of the log's commands and of the store's lines, which are
/// written in parts of 256 KiB; takes memory for the store, a copy of it, and such a part.
pub fn checkpoint<D: Disk>(alloc: Global, pair: Pair<D>) -> Result<Pair<D>, Uncheckpointed<D>>
    ensures made { IfOk result (λ pair_new. ArePairHonest pair_new → (text : List ℕ) × IsCheckpoint (lines_in pair) text × PairKeeps pair_new text) }
    ensures why { IfUnmade result (λ pair_new why. ArePairHonest pair_new → IsUnmade (lines_in pair) why) }
    ensures stands { IfStands result (λ pair_new. ArePairHonest pair_new → PairKeeps pair_new (lines_in pair)) }
    // Whatever the call answers, a crash leaves the log's lines, or those of its store alone.
    ensures crash { AreHonestLeft result → (c d : List ℕ) → D.Disk.may_leave (first_left result) c → D.Disk.may_leave (second_left result) d
        → (pair_text c d ≡ lines_in pair) ⊎ IsCheckpoint (lines_in pair) (pair_text c d) }
    // Each file stays the one that it was.
    ensures first { IsTrue (D.Disk.is_clean (first_left result)) → IsTrue (D.Disk.is_clean (first_of pair)) }
    ensures second { IsTrue (D.Disk.is_clean (second_left result)) → IsTrue (D.Disk.is_clean (second_of pair)) }
{
    match NewTable::new(alloc) {
        Ok(table) => run::<Brand, D>(alloc, table, pair),
        Err(refused) => Err(Uncheckpointed::Unmade(
            pair,
            NoCheckpoint::OutOfMemory(refused.into()),
        )),
    }
}
