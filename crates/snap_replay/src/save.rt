// `save` of a log or of the lines of a saved store, in a file.
use crate::Wanted;
use crate::check::{flush, kind_in, open_file};
use crate::logged::{LogStop, file_stop, open_log};
use snap_call::ConfigField;
use snap_durable::{FileKind, Move, Unmoved, move_log, move_saved};
use snap_record::Text;
use snap_world::RestoreFault;
use std::alloc::Global;
use std::io::Write;

// A copy of a word, where it is given.
fn copy_of(alloc: Global, word: Option<&str>) -> Result<Option<Text>, LogStop> {
    let Some(word) = word else {
        return Ok(None);
    };
    match Text::copy_of(alloc, word) {
        Ok(text) => Ok(Some(text)),
        Err(_) => Err(LogStop::WantOfMemory),
    }
}

// Why what moves makes no store.
fn unfit(fault: RestoreFault) -> LogStop {
    match fault {
        RestoreFault::Config(ConfigField::Root) => LogStop::BadRoot,
        RestoreFault::Journal(why) => LogStop::NoRoll(why),
        _ => LogStop::Unfit(fault),
    }
}

// Why not all lines were written of a file of this kind.
fn stop_of(kind: FileKind, why: Unmoved) -> LogStop {
    match why {
        Unmoved::Io(error) => file_stop(error),
        Unmoved::Stopped(stop) => LogStop::Lines(stop),
        Unmoved::Differs(sums) => LogStop::Differs(sums),
        Unmoved::NoStore => match kind {
            FileKind::Log => LogStop::NoStore,
            FileKind::Saved => LogStop::NoEnd,
        },
        Unmoved::NoNamespace => LogStop::NoNamespace,
        Unmoved::Unfit(fault) => unfit(fault),
        Unmoved::Changed => LogStop::Changed,
        Unmoved::TooLong => LogStop::TooLong,
    }
}

// Writes the lines of what moves of the store in a file. A log of at most one byte has no line, and isn't opened to be
// one.
pub(crate) fn save_file<W: Write>(
    rt: &HostRuntime,
    path: &str,
    wanted: Wanted<'_>,
    output: &mut W,
) -> Result<(), LogStop> {
    let alloc = rt.alloc();
    let wanted = Move {
        root: copy_of(alloc, wanted.root)?,
        namespace: copy_of(alloc, wanted.namespace)?,
    };
    let (kind, head) = kind_in(rt, path)?;
    let moved = match kind {
        FileKind::Saved => {
            let mut file = open_file(rt, path)?;
            move_saved(alloc, &mut file, &wanted, output)
        }
        FileKind::Log => {
            if head.len() <= 1 {
                return Err(LogStop::NoStore);
            }
            let mut log = open_log(rt, path)?;
            move_log(alloc, &mut log, &wanted, output)
        }
    };
    match moved {
        Ok(()) => flush(output),
        Err(why) => Err(stop_of(kind, why)),
    }
}
