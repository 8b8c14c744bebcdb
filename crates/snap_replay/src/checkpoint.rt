// `checkpoint` of a log in a file.
use crate::check::open_file;
use crate::logged::{LogStop, file_stop, open_pair};
use snap_durable::{NoCheckpoint, ReplayError, Uncheckpointed, checkpoint};
use snap_pair::{Failed, Pair};
use sqlite_disk::Disk;
use std::alloc::Global;

// Why none was made.
fn stop_of(why: NoCheckpoint) -> LogStop {
    match why {
        NoCheckpoint::Replay(error) => match error {
            ReplayError::Io(error) => file_stop(error),
            ReplayError::Stopped(stop) => LogStop::Lines(stop),
        },
        NoCheckpoint::Differs(sums) => LogStop::Differs(sums),
        NoCheckpoint::NoStore => LogStop::NoStore,
        NoCheckpoint::Refused(why) => LogStop::NoRoll(why),
        NoCheckpoint::TooLong => LogStop::TooLong,
        NoCheckpoint::OutOfMemory(_) => LogStop::WantOfMemory,
    }
}

// The log after a checkpoint.
fn made<D: Disk + Drop>(alloc: Global, pair: Pair<D>) -> Result<Pair<D>, LogStop> {
    match checkpoint(alloc, pair) {
        Ok(pair) => Ok(pair),
        Err(Uncheckpointed::Unmade(_, why)) => Err(stop_of(why)),
        Err(Uncheckpointed::Failed(failed)) => match failed {
            Failed::NotKept(_, error) => Err(file_stop(error)),
            Failed::Unknown(_, _, error) => Err(LogStop::Unknown(error)),
        },
    }
}

// Lets the lines of a log's store take the place of its own. Where they then stand in the file beside it, they are made
// once more in the file itself, which then has them alone. A file that isn't there isn't made.
pub(crate) fn checkpoint_file(rt: &HostRuntime, path: &str) -> Result<(), LogStop> {
    drop(open_file(rt, path)?);
    let halves = made(rt.alloc(), open_pair(rt, path)?)?.split();
    if halves.is_second {
        made(rt.alloc(), halves.join())?;
    }
    Ok(())
}
