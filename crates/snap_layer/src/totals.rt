ghost use Rattle.std.specs.Prelude.{◌≡◌, ◌+◌, ◌-◌, ◌≤◌, ◌^◌, IfOk, OnErr};

use snap_path::NoMemory;
use std::alloc::AllocError;

/// What a layer takes, and the number of its paths.
#[derive(Clone, Copy)]
pub(crate) struct Totals {
    /// Its inodes.
    pub(crate) inodes: usize,
    /// Its blocks of 4096 bytes.
    pub(crate) blocks: u64,
    /// Its paths.
    pub(crate) paths: usize,
}

/// The number of paths with `more` more: one or none. It fails only at the last address.
pub(crate) fn more_paths(paths: usize, more: usize) -> Result<usize, AllocError>
    requires { more ≤ 1 }
    ensures ok { IfOk result (λ n. n ≡ paths + more) }
    ensures last { OnErr result (paths ≡ 2 ^ 64 - 1) }
{
    match paths.checked_add(more) {
        Some(sum) => Ok(sum),
        None => Err(NoMemory::of_last_address(paths).into()),
    }
}

/// The number of paths with one more `many` times. It fails only at the last address.
pub(crate) fn paths_with(paths: usize, many: usize) -> Result<usize, AllocError>
    ensures { IfOk result (λ n. n ≡ paths + many) }
{
    let mut paths = paths;
    for _ in 0..many {
        paths = more_paths(paths, 1)?;
    }
    Ok(paths)
}
