//! The files of a log that is served, and the lines that are written to take the place of its own.
ghost use Rattle.std.specs.Prelude.{◌≡◌, Bool, [], false, if◌then◌else◌};
ghost use Rattle.snap_log.specs.Log.{IsHonest, disk_of, text_in};
ghost use Rattle.snap_pair.specs.Pair.{ArePairHonest, first_of, lines_in, second_of};
ghost use Rattle.snap_durable.specs.Ended.{disk_ended};
ghost use Rattle.snap_durable.specs.Files.{AreApart, AreFilesHonest, IsBlank, IsIdle, beside_disk, first_end, first_file, second_end, second_file};
ghost use Rattle.snap_durable.specs.declared.files.Beside.TheVariants as besides;

use crate::ended::Ended;
use snap_checkpoint::StoreLines;
use snap_lines::Stop;
use snap_log::{Appending, Lines, Log};
use snap_marks::Sums;
use snap_pair::{Halves, Pair};
use sqlite_disk::Disk;
use std::io;

// The lines of a saved store, which are written into the file that doesn't count, and what comes behind them.
#[derive(Drop)]
pub(crate) struct Coming<D: Disk> {
    // What is written.
    pub(crate) stage: Appending<D>,
    // The lines that aren't yet.
    pub(crate) lines: StoreLines,
    // The sum of those that are.
    pub(crate) sums: Sums,
    // The mark behind them, from which sums go on.
    pub(crate) mark: Lines,
    // The lines that were added to the log since.
    pub(crate) behind: Lines,
}

// The file that doesn't count.
#[derive(Drop)]
pub(crate) enum Beside<D: Disk> {
    // Nothing is written into it.
    Idle(Log<D>),
    // A saved store is.
    Coming(Coming<D>),
}

// Both files.
#[derive(Drop)]
pub(crate) struct Files<D: Disk> {
    // The log that counts.
    pub(crate) counting: Log<D>,
    // The other file.
    pub(crate) beside: Beside<D>,
    // Whether the log that counts is the second one.
    pub(crate) is_second: bool,
}

// Both files, where lines were not all answered.
#[derive(Drop)]
pub(crate) enum EndedFiles<D: Disk> {
    // Their run stopped.
    Stopped(Files<D>, Stop),
    // A sync of a file failed, or the write of a byte by which lines count.
    Unknown(D, D, io::Error),
}

impl<D: Disk> Beside<D> {
    // The file, without lines that don't count.
    pub(crate) fn give_up(self) -> Log<D>
        ensures disk { disk_of result ≡ beside_disk self }
        ensures blank { (second : Bool) → IsBlank second self → IsHonest result → second ≡ false → text_in result ≡ [] }
    {
        match self {
            Beside::Idle(log) => log,
            Beside::Coming(coming) => coming.stage.give_up(),
        }
    }
}

impl<D: Disk> Files<D> {
    // Nothing is written into the other one.
    pub(crate) fn idle(counting: Log<D>, other: Log<D>, is_second: bool) -> Files<D>
        ensures counting { result.counting ≡ counting }
        ensures beside { result.beside ≡ besides.Idle other }
        ensures second { result.is_second ≡ is_second }
    {
        Files {
            counting,
            beside: Beside::Idle(other),
            is_second,
        }
    }

    // Whether nothing is written into the other one.
    pub(crate) fn is_idle(&self) -> bool {
        match &self.beside {
            Beside::Idle(_) => true,
            Beside::Coming(_) => false,
        }
    }

    // The files of a pair.
    pub(crate) fn of(pair: Pair<D>) -> Files<D>
        ensures first { first_file result ≡ first_of pair }
        ensures second { second_file result ≡ second_of pair }
        ensures text { AreFilesHonest result → text_in result.counting ≡ lines_in pair }
        ensures apart { AreApart result }
        ensures idle { IsIdle result.beside }
        ensures clean { AreFilesHonest result → ArePairHonest pair }
    {
        let Halves {
            counting,
            other,
            is_second,
        } = pair.split();
        Files::idle(counting, other, is_second)
    }

    // The pair of the files. What was written beside the log doesn't count.
    pub(crate) fn into_pair(self) -> Pair<D>
        ensures first { first_of result ≡ first_file self }
        ensures second { second_of result ≡ second_file self }
        ensures clean { ArePairHonest result → AreFilesHonest self }
        ensures lines { ArePairHonest result → AreApart self → lines_in result ≡ text_in self.counting }
    {
        let Files {
            counting,
            beside,
            is_second,
        } = self;
        let halves = Halves {
            counting,
            other: beside.give_up(),
            is_second,
        };
        halves.join()
    }
}

// Both files, where the lines of the one that counts were not all answered.
pub(crate) fn ended_files<D: Disk>(
    ended: Ended<D>,
    beside: Beside<D>,
    is_second: bool,
) -> EndedFiles<D>
    ensures first { first_end result ≡ (if is_second then beside_disk beside else disk_ended ended) }
    ensures second { second_end result ≡ (if is_second then disk_ended ended else beside_disk beside) }
{
    match ended {
        Ended::Stopped(counting, stop) => EndedFiles::Stopped(
            Files {
                counting,
                beside,
                is_second,
            },
            stop,
        ),
        Ended::Unknown(disk, error) => unknown(disk, beside, is_second, error),
    }
}

// Two files of which one failed: that which counts.
fn unknown<D: Disk>(disk: D, beside: Beside<D>, is_second: bool, error: io::Error) -> EndedFiles<D>
    ensures first { first_end result ≡ (if is_second then beside_disk beside else disk) }
    ensures second { second_end result ≡ (if is_second then disk else beside_disk beside) }
{
    let other = beside.give_up().into_disk();
    if is_second {
        EndedFiles::Unknown(other, disk, error)
    } else {
        EndedFiles::Unknown(disk, other, error)
    }
}
