//! Why a call on two files failed.
use snap_log::OpenError;
use std::io;

/// One of the two files.
#[derive(Clone, Copy, Debug, PartialEq, Eq)]
pub enum Which {
    First,
    Second,
}

/// Files that were not opened, the one of which it is told, and why.
#[derive(Drop)]
pub struct PairUnopened<D> {
    pub first: D,
    pub second: D,
    pub which: Which,
    pub why: OpenError,
}

/// Two files in which no line can take the place of others, and why. The one that doesn't count couldn't be cleared, and
/// what is on the disk is unknown: the lines that count are there. Open the files again, in another process where their
/// cache may lie.
#[derive(Drop)]
pub struct ReplaceFailed<D> {
    pub first: D,
    pub second: D,
    pub error: io::Error,
}

/// Why a call failed that changes the lines.
#[derive(Drop)]
pub enum Failed<T, D> {
    /// A write failed, as on a full disk. The lines that count are as they were, and the new ones can be written again.
    NotKept(T, io::Error),
    /// A sync failed, or the write of a byte by which lines count. What is on the disk is unknown: the lines are as they
    /// were, or as the call makes them. Open the files again, in another process where their cache may lie.
    Unknown(D, D, io::Error),
}
