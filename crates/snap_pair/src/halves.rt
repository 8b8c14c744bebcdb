// The two logs of a pair, of which one counts.
ghost use Rattle.std.specs.Prelude.{◌≡◌, ◌<◌, [], false, length, true};
ghost use Rattle.snap_log.specs.Log.{IsHonest, text_in};
ghost use Rattle.snap_pair.specs.Pair.{ArePairHonest, joined, lines_in};

use crate::pair::Pair;
use snap_log::Log;
use sqlite_disk::Disk;

/// The two logs of a pair, the one that counts apart.
#[derive(Drop)]
pub struct Halves<D: Disk> {
    /// The log that counts.
    pub counting: Log<D>,
    /// The other one.
    pub other: Log<D>,
    /// Whether the second file is the one that counts.
    pub is_second: bool,
}

impl<D: Disk> Halves<D> {
    /// The pair of them. Takes no memory, and calls no disk.
    pub fn join(self) -> Pair<D>
        ensures { result ≡ joined self }
    {
        let Halves {
            counting,
            other,
            is_second,
        } = self;
        if is_second {
            Pair::of(other, counting)
        } else {
            Pair::of(counting, other)
        }
    }
}

// Those of a pair.
pub(crate) fn apart<D: Disk>(first: Log<D>, second: Log<D>) -> Halves<D>
    ensures same { joined result ≡ record { first = first; second = second } }
    ensures counting { ArePairHonest (joined result) → text_in result.counting ≡ lines_in (joined result) }
    ensures none { ArePairHonest (joined result) → result.is_second ≡ false → text_in result.other ≡ [] }
    ensures some { ArePairHonest (joined result) → result.is_second ≡ true → 0 < length (text_in result.counting) }
    ensures blank { IsHonest result.other → result.is_second ≡ false → text_in result.other ≡ [] }
    ensures filled { IsHonest result.counting → result.is_second ≡ true → 0 < length (text_in result.counting) }
{
    if second.is_empty() {
        Halves {
            counting: first,
            other: second,
            is_second: false,
        }
    } else {
        Halves {
            counting: second,
            other: first,
            is_second: true,
        }
    }
}
