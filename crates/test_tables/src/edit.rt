// An edit, what it answers, and how one is chosen.
ghost use Rattle.std.specs.Prelude.{◌<◌};

use super::paths::Paths;
use super::plain::Plain;
use rand_core::utils::NextWord;
use rand_pcg::Pcg32;
use snap_path::Path;
use std::fmt;

/// The eleven edits of a layer.
#[derive(Clone, Copy)]
pub(crate) enum Kind {
    AddDir,
    AddFile,
    AddSymlink,
    AddName,
    AddLinked,
    AddWhiteout,
    TakeName,
    MoveTree,
    SetBytes,
    SetOpaque,
    SetMode,
}

/// All kinds, in their order.
pub(crate) const KINDS: [Kind; 11] = [
    Kind::AddDir,
    Kind::AddFile,
    Kind::AddSymlink,
    Kind::AddName,
    Kind::AddLinked,
    Kind::AddWhiteout,
    Kind::TakeName,
    Kind::MoveTree,
    Kind::SetBytes,
    Kind::SetOpaque,
    Kind::SetMode,
];

impl fmt::Display for Kind {
    fn fmt<W: fmt::Write>(&self, f: &mut fmt::Formatter<W>) -> fmt::Result {
        f.pad(match self {
            Kind::AddDir => "add_dir",
            Kind::AddFile => "add_file",
            Kind::AddSymlink => "add_symlink",
            Kind::AddName => "add_name",
            Kind::AddLinked => "add_linked",
            Kind::AddWhiteout => "add_whiteout",
            Kind::TakeName => "take_name",
            Kind::MoveTree => "move_tree",
            Kind::SetBytes => "set_bytes",
            Kind::SetOpaque => "set_opaque",
            Kind::SetMode => "set_mode",
        })
    }
}

/// An edit: its kind, and what edits take. Each kind takes some of it.
#[derive(Clone, Copy)]
pub(crate) struct Edit<'a> {
    pub(crate) kind: Kind,
    pub(crate) path: &'a Path,
    /// Where a tree moves to, or a new file has its other name.
    pub(crate) to: &'a Path,
    pub(crate) number: u32,
    pub(crate) mode: u32,
    /// Whether a directory is opaque, or a move leaves a whiteout.
    pub(crate) mark: bool,
    /// A file's bytes, or a symlink's target.
    pub(crate) bytes: &'a [u8],
}

/// What an edit answers that finds room.
#[derive(Clone, Copy, PartialEq)]
pub(crate) enum Answer {
    /// Its condition doesn't hold, so it wasn't made.
    Refused,
    Made,
    /// A file or symlink with the number was made.
    Numbered(u32),
}

/// How often each kind is chosen: as often as it stands here.
const CHOICES: [Kind; 22] = [
    Kind::AddDir,
    Kind::AddDir,
    Kind::AddDir,
    Kind::AddDir,
    Kind::AddFile,
    Kind::AddFile,
    Kind::AddFile,
    Kind::AddSymlink,
    Kind::AddSymlink,
    Kind::AddName,
    Kind::AddName,
    Kind::AddLinked,
    Kind::AddLinked,
    Kind::AddWhiteout,
    Kind::AddWhiteout,
    Kind::TakeName,
    Kind::TakeName,
    Kind::MoveTree,
    Kind::MoveTree,
    Kind::SetBytes,
    Kind::SetOpaque,
    Kind::SetMode,
];

/// How many bytes a file or a target has. A target of none or of more than 4095 is refused.
const SIZES: [usize; 8] = [0, 1, 3, 40, 100, 4095, 4096, 4097];

/// A number below `limit`.
pub(crate) fn below(random: &mut Pcg32, limit: u32) -> u32
    requires { 0 < limit }
    ensures { result < limit }
{
    random.next_word() % limit
}

/// An edit of the layer, at some of the paths. Its bytes are some of the given ones. Its number is that of a file or
/// symlink at some path, else the least one, else 0.
pub(crate) fn choose<'a>(
    random: &mut Pcg32,
    paths: &'a Paths,
    bytes: &'a [u8],
    plain: &Plain,
) -> Edit<'a> {
    let kind = CHOICES[below(random, 22) as usize];
    let path = paths.choose(random, plain);
    let to = paths.choose(random, plain);
    let named = plain.number_at(paths.choose(random, plain));
    let size = SIZES[below(random, 8) as usize];
    let start = below(random, 1000) as usize;
    Edit {
        kind,
        path,
        to,
        number: named.or(plain.next_body(0)).unwrap_or(0),
        mode: below(random, 4096),
        mark: below(random, 2) == 0,
        bytes: bytes.get(start..start + size).unwrap_or(bytes),
    }
}
