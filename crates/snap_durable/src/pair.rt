//! A server of scripts over a log in two files.
ghost use Rattle.std.specs.Prelude.{◌≡◌, ℕ, List, IfErr, IfOk, IfSome, IsTrue};
ghost use Rattle.snap_log.specs.Log.{text_in};
ghost use Rattle.snap_pair.specs.Pair.{ArePairHonest, first_of, joined, lines_in, second_of};
ghost use Rattle.snap_durable.specs.Logged.{HasServedLog, IfDiffers, IsRefused, LeavesLog};
ghost use Rattle.snap_durable.specs.Pairs.{AreHonestServed, HasServedPair, IsPairRefused, counting_file, first_served, second_served};

use crate::logged::{Unserved, serve_log};
use snap_log::Log;
use snap_pair::{Halves, Pair};
use sqlite_disk::Disk;
use std::alloc::Global;
use std::io::{Read, Write};

/// Two files over which lines were served: the log that counts, or why not all lines were answered, and the other file.
#[derive(Drop)]
pub struct ServedPair<D: Disk> {
    /// What was done over the log that counts.
    pub served: Result<Log<D>, Unserved<D>>,
    /// The other file, which is as it was.
    pub other: Log<D>,
    /// Whether the second file is the one that counts.
    pub is_second: bool,
}

/// Serves the lines of an input over the log that counts, as [`serve_log`]. The other file is as it was.
pub fn serve_pair<R: Read, W: Write, D: Disk>(
    alloc: Global,
    pair: Pair<D>,
    rebases: bool,
    input: &mut R,
    output: &mut W,
) -> ServedPair<D>
    ensures done { IfOk result.served (λ log_new. IfSome (R.remaining input.old) (λ bytes. HasServedPair rebases bytes pair (W.contents output.old) log_new (W.contents output.new))) }
    // A log whose marks don't agree is served only after a new one.
    ensures differs { IfErr result.served (λ why. IfDiffers why (λ log_new sums. IsPairRefused pair log_new sums)) }
    // Whatever the call answers, a crash leaves what was kept, and who was answered is there.
    ensures crash { AreHonestServed result → (c d : List ℕ) → D.Disk.may_leave (first_served result) c → D.Disk.may_leave (second_served result) d
        → IfSome (R.remaining input.old) (λ bytes. LeavesLog rebases bytes (lines_in pair) (counting_file c d) (W.contents output.old) (W.contents output.new)) }
{
    let Halves {
        counting,
        other,
        is_second,
    } = pair.split();
    ServedPair {
        served: serve_log(alloc, counting, rebases, input, output),
        other,
        is_second,
    }
}
