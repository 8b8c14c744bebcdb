//! The limits of a store, each with its unit. Those without a source are limits of this project.

/// The most bytes of a key of a snapshot, and of the name of a committed snapshot, of a parent or of
/// a lease.
pub const MAX_KEY_BYTES: usize = 1024;

/// The most bytes of a namespace's name.
pub const MAX_NAMESPACE_BYTES: usize = 255;

/// The most namespaces of a store.
pub const MAX_NAMESPACES: usize = 4096;

/// The most blocks and the most inodes of a namespace's limit: 2^40.
pub const MAX_LIMIT: u64 = 1_099_511_627_776;

/// How many snapshots may be open at one time in a store whose opening doesn't say: the slots 0 to 63.
pub const DEFAULT_SLOTS: u64 = 64;

/// The most slots of a store: how many snapshots may be open at one time, all namespaces together.
pub const MAX_SLOTS: u64 = 4096;

/// The most committed ancestors of a snapshot in a store whose opening doesn't say.
pub const DEFAULT_ANCESTORS: u64 = 64;

/// The most committed ancestors that a store can allow a snapshot: as many lower layers as Linux's
/// overlayfs takes (`OVL_MAX_STACK` of the kernel's fs/overlayfs/params.h).
pub const MAX_ANCESTORS: u64 = 500;

/// The most infos that one walk answers.
pub const MAX_PAGE: u64 = 64;

/// The most entries of a journal.
pub const MAX_JOURNAL: u64 = 1_048_576;

/// The most sessions that a store opens: their numbers are 0 to 65,535.
pub const MAX_SESSIONS: u64 = 65_536;

/// The greatest id of a snapshot.
pub const MAX_ID: u64 = 4_294_967_295;

/// The greatest number of an entry: 2^62.
pub const MAX_ENTRY: u64 = 4_611_686_018_427_387_904;
