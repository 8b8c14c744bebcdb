use crate::log::Log;
use sqlite_disk::Disk;
use std::io;
use thiserror::Error;

/// Why a file was not opened as a log.
#[derive(Clone, Copy, Debug, Error)]
pub enum OpenError {
    /// A call of the disk failed.
    #[error("{0}")]
    Io(io::Error),
    /// The file has more than one byte, and begins neither with a whole line nor with a closed gate.
    #[error("the file is no log")]
    NotALog,
    /// Behind the file's lines, at this byte, stands no closed gate: it was cut, or changed there.
    #[error("the log is damaged at byte {at}")]
    Damaged { at: usize },
}

impl From<io::Error> for OpenError {
    ghost use Rattle.std.specs.Prelude.{◌≡◌};
    ghost use Rattle.snap_log.specs.declared.error.OpenError.TheVariants.{Io};

    ghost from_gives = { λ e r. r ≡ Io e };

    fn from(error: io::Error) -> OpenError {
        OpenError::Io(error)
    }
}

/// A file that was not opened, and why.
#[derive(Drop)]
pub struct OpenFailed<D> {
    pub disk: D,
    pub why: OpenError,
}

/// A file whose lines were not taken away, and why. A write or a sync failed, and what is on the disk is unknown: the log
/// has its lines, or none. Open the file again, in another process where its cache may lie.
#[derive(Drop)]
pub struct ClearFailed<D> {
    pub disk: D,
    pub error: io::Error,
}

/// Why lines were not added.
#[derive(Drop)]
pub enum AppendFailed<D: Disk> {
    /// A write failed, as on a full disk. The log is as it was, and the lines can be added again.
    NotKept(Log<D>, io::Error),
    /// A sync failed, or the write of the one byte by which the lines count. What is on the disk is unknown: the log has
    /// its lines, with the new ones or without. Open the file again, in another process where its cache may lie.
    Unknown(D, io::Error),
}
