ghost use Rattle.std.specs.Prelude.{◌≡◌, IfOk};
ghost use Rattle.snap_upper.specs.declared.op.Op.TheVariants as op;

use snap_layer::Bytes;
use snap_path::Path;
use std::alloc::AllocError;

/// An operation on one file or directory of a stack of layers. It changes the upper layer alone.
///
/// Modes are permission bits, at most octal 7777, and are taken as given: there is no umask, and a
/// parent's set-group-ID bit isn't inherited. No mode refuses an operation.
#[derive(Debug, Drop)]
pub enum Op {
    /// Makes a directory (mkdir(2)). It is opaque exactly where it takes the place of a whiteout, so
    /// that what the whiteout hid stays hidden (overlayfs.rst, "whiteouts and opaque directories").
    Mkdir {
        path: Path,
        mode: u32,
    },
    /// Makes an empty regular file, where nothing is seen (open(2) with `O_CREAT` and `O_EXCL`). It
    /// gets the upper layer's next file number.
    Create {
        path: Path,
        mode: u32,
    },
    /// Makes a regular file of this number of bytes, at most 2^40, where nothing is seen. They aren't kept: the
    /// digest says which they are, a text of at most 1024 bytes, or nothing does (OCI image specification,
    /// "Descriptors"). It gets the upper layer's next file number.
    Put {
        path: Path,
        mode: u32,
        size: u64,
        digest: Option<Bytes>,
    },
    /// Puts the bytes into a regular file at the offset, which is in bytes (pwrite(2)). A gap between
    /// the file's end and the offset is filled with zero bytes. No bytes change neither the file's
    /// bytes nor its size. Of a file whose bytes aren't kept, its size reaches as far as they do, and its
    /// digest goes.
    Write {
        path: Path,
        offset: u64,
        bytes: Bytes,
    },
    /// Cuts a regular file to this number of bytes, or fills it with zero bytes up to it (truncate(2)). A file
    /// whose bytes aren't kept loses its digest where its size changes.
    Truncate {
        path: Path,
        size: u64,
    },
    /// Sets the mode of a directory, or of a regular file for all its names in the upper layer
    /// (chmod(2)).
    SetMode {
        path: Path,
        mode: u32,
    },
    /// Makes a symlink, where nothing is seen (symlink(2)). The target is kept as it is given, and need
    /// not be seen. It gets the upper layer's next file number.
    Symlink {
        path: Path,
        target: Bytes,
    },
    /// Gives a file or a symlink one more name, where nothing is seen (link(2)). A lower one is copied up
    /// first: its other names in lower layers stay names of the lower one (overlayfs.rst, "Non-standard
    /// behavior").
    Link {
        from: Path,
        to: Path,
    },
    /// Takes a name of a file or a symlink (unlink(2)). A file goes with its last name in the upper
    /// layer. Where a lower layer shows something there, a whiteout is put (overlayfs.rst, "whiteouts
    /// and opaque directories").
    Unlink {
        path: Path,
    },
    /// Takes a directory in which nothing is seen, with the whiteouts in it (rmdir(2)). A whiteout is
    /// put as in `Unlink`.
    Rmdir {
        path: Path,
    },
    /// Gives what is seen at `from` the path `to` (rename(2)). A file, a symlink or an empty directory
    /// there goes. A directory moves with all that is in it, and only where it has no directory of a lower
    /// layer below it (overlayfs.rst, "renaming directories"). A whiteout is put at `from` as in `Unlink`.
    /// Where both are one path, or names of one file in the upper layer, nothing is done.
    Rename {
        from: Path,
        to: Path,
    },
    /// Hides what the lower layers have in a directory. What the upper layer has in it stays, whiteouts too
    /// (overlayfs.rst, "whiteouts and opaque directories").
    Opaque {
        path: Path,
    },
    /// Takes all that is seen at a path: a file, a symlink, or a directory with all that is in it, in one step. A
    /// whiteout is put as in `Unlink` (OCI image specification, "Whiteouts").
    Whiteout {
        path: Path,
    },
}

impl Clone for Op {
    ghost is_clone = { λ a b. b ≡ a };

    fn clone(&self) -> Result<Op, AllocError> {
        Ok(match self {
            Op::Mkdir { path, mode } => Op::Mkdir {
                path: path.clone()?,
                mode: *mode,
            },
            Op::Create { path, mode } => Op::Create {
                path: path.clone()?,
                mode: *mode,
            },
            Op::Put {
                path,
                mode,
                size,
                digest,
            } => Op::Put {
                path: path.clone()?,
                mode: *mode,
                size: *size,
                digest: digest.clone()?,
            },
            Op::Write {
                path,
                offset,
                bytes,
            } => Op::Write {
                path: path.clone()?,
                offset: *offset,
                bytes: bytes.clone()?,
            },
            Op::Truncate { path, size } => Op::Truncate {
                path: path.clone()?,
                size: *size,
            },
            Op::SetMode { path, mode } => Op::SetMode {
                path: path.clone()?,
                mode: *mode,
            },
            Op::Symlink { path, target } => Op::Symlink {
                path: path.clone()?,
                target: target.clone()?,
            },
            Op::Link { from, to } => Op::Link {
                from: from.clone()?,
                to: to.clone()?,
            },
            Op::Unlink { path } => Op::Unlink {
                path: path.clone()?,
            },
            Op::Rmdir { path } => Op::Rmdir {
                path: path.clone()?,
            },
            Op::Rename { from, to } => Op::Rename {
                from: from.clone()?,
                to: to.clone()?,
            },
            Op::Opaque { path } => Op::Opaque {
                path: path.clone()?,
            },
            Op::Whiteout { path } => Op::Whiteout {
                path: path.clone()?,
            },
        })
    }
}
