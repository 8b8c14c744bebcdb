ghost use Rattle.std.specs.Prelude.{◌≡◌, ◌≢◌, ◌∷◌, [], ◌<◌, true, IfOk};
ghost use Rattle.std.specs.List.{list_any};
ghost use Rattle.snap_record.specs.declared.kind.Kind.TheVariants.{Committed};
ghost use Rattle.snap_mount.specs.Mounts.{is_mark, is_root_text, layer_dir, workdir, upperdir, lowerdir, bind_mount, overlay_mount, mounts_of};

use crate::mount::{Mount, MountKind};
use snap_record::{Kind, Sequence, Text};
use std::alloc::{AllocError, Global};

/// The most bytes of the directory that all snapshots lie in: a limit of this project.
pub const MAX_ROOT_BYTES: usize = 1024;

/// Whether a text can be the directory that all snapshots lie in: it begins with `/`, has at most
/// 1024 bytes and none of `:`, `,`, `\` and NUL, which have a meaning of their own in mount
/// options. Takes no memory. Its cost grows with the length of the text.
pub fn is_root_text(text: &str) -> bool
    ensures { result ≡ is_root_text text.now }
{
    let bytes = text.as_bytes();
    match bytes {
        [] => false,
        [first, ..] => *first == b'/' && bytes.len() <= MAX_ROOT_BYTES && !has_mark(bytes),
    }
}

fn has_mark(bytes: &[u8]) -> bool
    ensures { result ≡ list_any is_mark bytes.now }
{
    bytes.iter().any(|byte| is_mark(*byte))
}

fn is_mark(byte: u8) -> bool
    ensures { result ≡ is_mark byte }
{
    byte == b':' || byte == b',' || byte == b'\\' || byte == 0
}

/// The mounts that show a snapshot, for containerd's `Mounts`: `id` is its own, `parent_ids` are
/// those of its committed ancestors, nearest first.
///
/// A snapshot of one layer, its own or its one ancestor's, is bound, read-only for a view; any
/// other is an overlay, of which an active snapshot has the upper and the work directory. The layer
/// directory of an id is `<root>/snapshots/<id>/fs`, its work directory
/// `<root>/snapshots/<id>/work`.
///
/// The conditions are that the root passes `is_root_text` and that the snapshot isn't a committed
/// one. Fails only where memory is wanting. Its cost and its memory grow with the bytes of the texts.
pub fn mounts_of(
    alloc: Global,
    root: &str,
    kind: Kind,
    id: u32,
    parent_ids: &[u32],
) -> Result<Sequence<Mount>, AllocError>
    requires root { is_root_text root.now ≡ true }
    requires mounted { kind ≢ Committed }
    ensures { IfOk result (λ mounts. mounts ≡ mounts_of root.now kind id parent_ids.now) }
{
    let mount = match (kind, parent_ids) {
        (Kind::Committed, _) => unreachable!(),
        (Kind::Active, []) => bind(alloc, root, id, "rw")?,
        (Kind::View, []) => bind(alloc, root, id, "ro")?,
        (Kind::View, [parent]) => bind(alloc, root, *parent, "ro")?,
        (Kind::Active, [first, rest @ ..]) => writable(alloc, root, id, *first, rest)?,
        (Kind::View, [first, rest @ ..]) => read_only(alloc, root, *first, rest)?,
    };
    let mut mounts = Sequence::new(alloc);
    mounts.push(mount)?;
    Ok(mounts)
}

fn bind(alloc: Global, root: &str, id: u32, access: &str) -> Result<Mount, AllocError>
    ensures { IfOk result (λ mount. mount ≡ bind_mount (layer_dir root.now id) access.now) }
{
    let mut options = Sequence::new(alloc);
    options.push(Text::copy_of(alloc, access)?)?;
    options.push(Text::copy_of(alloc, "rbind")?)?;
    Ok(Mount {
        kind: MountKind::Bind,
        source: Text::from(format!(in alloc; "{root}/snapshots/{id}/fs")?),
        options,
    })
}

fn overlay(alloc: Global, options: Sequence<Text>) -> Result<Mount, AllocError>
    ensures { IfOk result (λ mount. mount ≡ overlay_mount options) }
{
    Ok(Mount {
        kind: MountKind::Overlay,
        source: Text::copy_of(alloc, "overlay")?,
        options,
    })
}

fn writable(
    alloc: Global,
    root: &str,
    id: u32,
    first: u32,
    rest: &[u32],
) -> Result<Mount, AllocError>
    ensures { IfOk result (λ mount. mount ≡ overlay_mount
        (workdir root.now id ∷ upperdir root.now id ∷ lowerdir root.now (first ∷ rest.now) ∷ [])) }
{
    let mut options = Sequence::new(alloc);
    options.push(workdir(alloc, root, id)?)?;
    options.push(upperdir(alloc, root, id)?)?;
    options.push(lowerdir(alloc, root, first, rest)?)?;
    overlay(alloc, options)
}

fn read_only(alloc: Global, root: &str, first: u32, rest: &[u32]) -> Result<Mount, AllocError>
    ensures { IfOk result (λ mount. mount ≡ overlay_mount (lowerdir root.now (first ∷ rest.now) ∷ [])) }
{
    let mut options = Sequence::new(alloc);
    options.push(lowerdir(alloc, root, first, rest)?)?;
    overlay(alloc, options)
}

fn workdir(alloc: Global, root: &str, id: u32) -> Result<Text, AllocError>
    ensures { IfOk result (λ text. text ≡ workdir root.now id) }
{
    Ok(Text::from(format!(in alloc; "workdir={root}/snapshots/{id}/work")?))
}

fn upperdir(alloc: Global, root: &str, id: u32) -> Result<Text, AllocError>
    ensures { IfOk result (λ text. text ≡ upperdir root.now id) }
{
    Ok(Text::from(format!(in alloc; "upperdir={root}/snapshots/{id}/fs")?))
}

fn lowerdir(alloc: Global, root: &str, first: u32, rest: &[u32]) -> Result<Text, AllocError>
    ensures { IfOk result (λ text. text ≡ lowerdir root.now (first ∷ rest.now)) }
{
    let mut text = format!(in alloc; "lowerdir={root}/snapshots/{first}/fs")?;
    for id in rest {
        let dir = format!(in alloc; ":{root}/snapshots/{id}/fs")?;
        text.push_str(dir.as_str())?;
    }
    Ok(Text::from(text))
}
