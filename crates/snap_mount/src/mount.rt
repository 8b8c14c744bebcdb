// A mount, and its line for mount(8).
ghost use Rattle.std.specs.Prelude.{◌≡◌, ◌++◌, Some, codes, flat_map};
ghost use Rattle.std.specs.Fmt.{padded, WritesStyledOnOk};
ghost use Rattle.snap_mount.specs.Lines.{joined_options, mount_line};
ghost use Rattle.snap_mount.specs.Mounts.{mount_kind_word};

use snap_record::{Sequence, Text};
use std::alloc::AllocError;
use std::fmt;

/// The kinds of mounts that a snapshot can have, which are the file system types of mount(8).
#[derive(Clone, Copy, Debug, PartialEq, Eq)]
pub enum MountKind {
    /// A directory shown at another place.
    Bind,
    /// Layers shown as one directory, as Linux `Documentation/filesystems/overlayfs.rst` has it.
    Overlay,
}

impl MountKind {
    /// The kind's word: `bind` or `overlay`. Takes no memory.
    pub fn as_str(&self) -> &'static str
        ensures { result.now ≡ mount_kind_word self.now }
    {
        match self {
            MountKind::Bind => "bind",
            MountKind::Overlay => "overlay",
        }
    }
}

/// One mount, as containerd's `mount.Mount` describes it.
#[derive(Debug, PartialEq, Eq)]
pub struct Mount {
    /// The file system type.
    pub kind: MountKind,
    /// The directory that is bound, or the word `overlay`.
    pub source: Text,
    /// The options of mount(8), in order.
    pub options: Sequence<Text>,
}

// By hand: a derived one is proved anew, part by part, wherever a value is let go.
impl Drop for Mount {
    fn drop(self) {
        let Mount {
            kind: _,
            source: _,
            options: _,
        } = self;
    }
}

/// A copy of the texts. Its cost and its memory grow with their bytes.
impl Clone for Mount {
    ghost is_clone = { λ a b. b ≡ a };

    fn clone(&self) -> Result<Mount, AllocError> {
        Ok(Mount {
            kind: self.kind,
            source: self.source.clone()?,
            options: self.options.clone()?,
        })
    }
}

/// The kind's word, padded as a `str` is.
impl fmt::Display for MountKind {
    ghost output = { λ kind. Some (mount_kind_word kind) };

    ghost styled_output = { λ kind style. Some (padded style (mount_kind_word kind)) };

    fn fmt<W: fmt::Write>(&self, f: &mut fmt::Formatter<W>) -> fmt::Result {
        f.pad(self.as_str())
    }
}

/// The arguments of mount(8) but the mount point: `-t <kind> -o <options> <source>`, with the
/// options joined by `,`. A width, a fill and a precision change nothing.
///
/// For people who look at a mount: nothing is quoted for a shell.
impl fmt::Display for Mount {
    ghost output = { λ mount. Some (mount_line mount) };

    ghost styled_output = { λ mount style. Some (mount_line mount) };

    fn fmt<W: fmt::Write>(&self, f: &mut fmt::Formatter<W>) -> fmt::Result {
        f.write_str("-t ")?;
        f.write_str(self.kind.as_str())?;
        f.write_str(" -o ")?;
        write_options(f, self.options.as_slice())?;
        f.write_str(" ")?;
        f.write_str(self.source.as_str())
    }
}

fn write_options<W: fmt::Write>(f: &mut fmt::Formatter<W>, options: &[Text]) -> fmt::Result
    ensures { WritesStyledOnOk W.write_str_gives f.old result (joined_options options.now) f.new }
{
    match options {
        [] => Ok(()),
        [first, rest @ ..] => {
            f.write_str(first.as_str())?;
            write_further(f, rest)
        }
    }
}

fn write_further<W: fmt::Write>(f: &mut fmt::Formatter<W>, options: &[Text]) -> fmt::Result
    ensures { WritesStyledOnOk W.write_str_gives f.old result (flat_map (λ option. codes "," ++ option) options.now) f.new }
{
    for option in options {
        f.write_str(",")?;
        f.write_str(option.as_str())?;
    }
    Ok(())
}
