// How an input is read.
ghost use Rattle.std.specs.Prelude.{◌<◌, length, IfOk};

use snap_script::MAX_LINE_BYTES;
use std::alloc::{AllocError, Global};

// The most reads, more than there will be.
pub(crate) const READS: u64 = u64::MAX;

// The most bytes that are kept of a line: one more than a line may have, by which a longer one is known.
pub(crate) const LIMIT: usize = MAX_LINE_BYTES + 1;

// The most bytes that a read takes.
const CHUNK: usize = 65_536;

// Room for a read.
pub(crate) fn chunk(alloc: Global) -> Result<Vec<u8>, AllocError>
    ensures { IfOk result (λ v. 0 < length v.items) }
{
    vec![in alloc; 0u8; CHUNK]
}
