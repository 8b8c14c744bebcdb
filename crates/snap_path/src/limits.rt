//! The limits of names, paths, files and layers, and the unit of their count, each with its source.

/// The most bytes of a name: `NAME_MAX` of limits.h.
pub const MAX_NAME_BYTES: usize = 255;

/// The most bytes of a path's text: `PATH_MAX` of limits.h without its closing NUL.
pub const MAX_PATH_BYTES: usize = 4095;

/// The most bytes of a symlink's target: `PATH_MAX` of limits.h without its closing NUL (symlink(2)).
pub const MAX_TARGET_BYTES: usize = 4095;

/// The most symlinks that are followed on the way to one file (path_resolution(7)).
pub const MAX_LINKS: u32 = 40;

/// The greatest mode: permission bits, set-ID bits and the sticky bit (chmod(2)).
pub const MAX_MODE: u32 = 0o7777;

/// The mode of a directory where none is given: octal 777 less the usual umask, 022 (umask(2)).
pub const DEFAULT_MODE: u32 = 0o755;

/// The most bytes of a regular file whose bytes are kept: a limit of this project.
pub const MAX_FILE_BYTES: u64 = 1_048_576;

/// The most bytes of a regular file whose size alone is kept, 2^40: a limit of this project.
pub const MAX_SIZED_BYTES: u64 = 1_099_511_627_776;

/// The most bytes of the digest of such a file: a limit of this project.
pub const MAX_DIGEST_BYTES: usize = 1024;

/// The most inodes of a layer where nothing else is asked: a choice of this project.
pub const DEFAULT_LAYER_INODES: usize = 65_536;

/// The most inodes that may be asked for a layer, 2^24: a limit of this project.
pub const MAX_LAYER_INODES: usize = 16_777_216;

/// The bytes of a block, in which files are counted: a choice of this project.
pub const BLOCK_BYTES: u64 = 4096;
