ghost use Rattle.std.specs.Prelude.{◌≡◌, ◌↔◌, ◌+◌, ◌-◌, ◌<◌, ◌^◌, Some, IsTrue};
ghost use Rattle.std.specs.Fmt.{padded};
ghost use Rattle.std.specs.Option.{option_map_or};
ghost use Rattle.snap_layer.specs.Layers.{IsLayer};
ghost use Rattle.snap_layer.specs.Tree.{body};
ghost use Rattle.snap_layer.specs.Counts as layer_counts;
ghost use Rattle.snap_layer.specs.Counts.{block_count, body_blocks, inode_count};
ghost use Rattle.snap_usage.specs.Counted.{Covers, count_of, usage_text};

use arrayvec::ArrayString;
use snap_layer::Layer;
use snap_path::limits::BLOCK_BYTES;
use std::fmt;
use std::fmt::Write;

/// The most bytes of a usage's text: two numbers of 20 digits and a slash.
const MAX_TEXT_BYTES: usize = 41;

/// A number of blocks of 4096 bytes, and of inodes: the two quantities of containerd's
/// `snapshots.Usage`, with its size in blocks.
#[derive(Clone, Copy, Debug, Default, PartialEq, Eq, Hash)]
pub struct Usage {
    /// Blocks of 4096 bytes.
    pub blocks: u64,
    /// Inodes.
    pub inodes: u64,
}

impl Usage {
    /// No blocks and no inodes.
    pub const ZERO: Usage = Usage {
        blocks: 0,
        inodes: 0,
    };

    /// Whether each of the two quantities is at least that of the other usage.
    pub fn covers(&self, other: Usage) -> bool
        ensures { IsTrue result ↔ Covers self.now other }
    {
        other.blocks <= self.blocks && other.inodes <= self.inodes
    }

    /// Both usages together, quantity by quantity.
    pub fn plus(self, other: Usage) -> Usage
        requires blocks { self.blocks + other.blocks < 2 ^ 64 }
        requires inodes { self.inodes + other.inodes < 2 ^ 64 }
        ensures { result ≡ record { blocks = self.blocks + other.blocks; inodes = self.inodes + other.inodes } }
    {
        Usage {
            blocks: self.blocks + other.blocks,
            inodes: self.inodes + other.inodes,
        }
    }
}

/// What is left of the usage without the part that it covers, quantity by quantity.
/// [`Usage::covers`] is the test of the condition.
pub fn difference(usage: Usage, part: Usage) -> Usage
    requires { Covers usage part }
    ensures { result ≡ record { blocks = usage.blocks - part.blocks; inodes = usage.inodes - part.inodes } }
{
    Usage {
        blocks: usage.blocks - part.blocks,
        inodes: usage.inodes - part.inodes,
    }
}

/// The blocks of 4096 bytes of a file of `size` bytes, the last one counted whole; none for an empty file.
pub fn blocks_of(size: u64) -> u64
    ensures { result ≡ layer_counts.blocks_of size }
{
    size.div_ceil(BLOCK_BYTES)
}

/// What the layer takes, without the layers below it (containerd's `Snapshotter.Usage`). A file
/// counts once for all its names, as du(1) counts it.
///
/// The layer keeps both numbers. Takes no memory. The cost is constant.
pub fn count(layer: &Layer) -> Usage
    ensures count { result ≡ count_of layer.now }
    // The distinct file numbers of the paths are the numbers of the layer's bodies.
    ensures bodies { result ≡ record { blocks = block_count layer.now; inodes = inode_count layer.now } }
    ensures layer { IsLayer layer.now }
{
    Usage {
        blocks: layer.blocks(),
        inodes: layer.inodes() as u64,
    }
}

/// The same as [`count`], from scratch: it goes over the paths, and then asks for the bodies one by
/// one, and uses no number that the layer keeps.
///
/// The cost is that of one pass over the paths, and of `Layer::next_body` for each body. Takes no
/// memory.
pub fn recount(layer: &Layer) -> Usage
    ensures { result ≡ count_of layer.now }
{
    let (directories, whiteouts) = layer.tally();
    let mut usage = Usage {
        blocks: directories as u64,
        inodes: (directories + whiteouts) as u64,
    };
    let mut after = 0;
    while let Some(number) = layer.next_body(after) {
        usage.inodes += 1;
        usage.blocks += blocks_at(layer, number);
        after = number;
    }
    usage
}

/// The blocks of the body that the number has, if it has one.
fn blocks_at(layer: &Layer, number: u32) -> u64
    ensures { result ≡ option_map_or body_blocks (body layer.now number) 0 }
{
    match layer.body(number) {
        Some(body) => body.blocks(),
        None => 0,
    }
}

/// The blocks, a slash and the inodes, as `4/3`, padded as a `str` is.
impl fmt::Display for Usage {
    ghost output = { λ usage. Some (usage_text usage) };

    ghost styled_output = { λ usage style. Some (padded style (usage_text usage)) };

    fn fmt<W: fmt::Write>(&self, f: &mut fmt::Formatter<W>) -> fmt::Result {
        let (blocks, inodes) = (self.blocks, self.inodes);
        let mut text = ArrayString::<MAX_TEXT_BYTES>::new();
        write!(text, "{blocks}/{inodes}")?;
        f.pad(text.as_str())
    }
}
