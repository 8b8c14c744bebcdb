use snap_lines::Stop;
use snap_log::Log;
use sqlite_disk::Disk;
use std::io;

/// Why lines were not all answered.
#[derive(Drop)]
pub enum Ended<D: Disk> {
    /// Their run stopped. The log has what it could keep of the lines, also of those that have no answer.
    Stopped(Log<D>, Stop),
    /// A sync of the log failed. It has its lines, with those of the last read or without, and none of these was carried
    /// out.
    Unknown(D, io::Error),
}
