// A view in its reader's hands: what it shows. Nothing of it is charged.
ghost use Rattle.std.specs.Prelude.{◌≡◌, ◌⊎◌, [], IfOk, IfErr, IfSome, Ok, Err};
ghost use Rattle.std.specs.Option.{option_map};
ghost use Rattle.snap_path.specs.Memory.{no_memory};
ghost use Rattle.snap_merge.specs.Objects.{object, seen};
ghost use Rattle.snap_merge.specs.Walk.{Answers};
ghost use Rattle.snap_merge.specs.Reading.{reading};
ghost use Rattle.snap_merge.specs.Listing.{listing, IsListing};
ghost use Rattle.snap_merge.specs.Resolving.{plain_error, resolution};
ghost use Rattle.snap_merge.specs.Rules.{ResolvingRules};
ghost use Rattle.snap_merge.specs.declared.error.FsError.TheVariants.{OutOfMemory};
ghost use Rattle.snap_book.specs.Viewed.{HasView, IsViewOf};

use snap_accounts::Change;
use snap_layer::{Content as FileContent, Shared};
use snap_merge::{FsError, Seen, Stack};
use snap_path::{Name, Path};
use snap_record::{Content, Sequence};
use std::alloc::{AllocError, Global};
use std::marker::Model;

/// A view in its reader's hands: the id of its snapshot, and the lower layers of its mount, which
/// it shows, nearest first.
///
/// It shares the layers, which never change: it shows the same for as long as it is kept, also once
/// the snapshot, or one of its ancestors, is removed. A view has no slot and no charge, so it may be
/// dropped; its snapshot stays in the book until it is removed. No call of it waits for a writer.
#[derive(Drop)]
pub struct Viewed {
    alloc: Global,
    id: u32,
    lowers: Sequence<Shared>,
}

impl Model for Viewed {
    ghost use Rattle.snap_book.specs.Viewed.{ViewedValue};

    ghost Value = { ViewedValue };

    ghost view = { λ v. record { id = v.id; lowers = v.lowers } };
}

// One more holder of each layer.
fn again(alloc: Global, layers: &[Shared]) -> Result<Sequence<Shared>, AllocError>
    ensures { IfOk result (λ same. same ≡ layers.now) }
{
    let mut same = Sequence::new(alloc);
    for layer in layers {
        same.push(layer.again()?)?;
    }
    Ok(same)
}

impl Viewed {
    // The view that a change adds.
    pub(crate) fn added_by(alloc: Global, change: &Change) -> Result<Viewed, AllocError>
        requires { HasView change.now }
        ensures { IfOk result (λ v. IsViewOf change.now v) }
    {
        let Change::View(snapshot) = change else {
            unreachable!()
        };
        let Content::View { layers } = &snapshot.content else {
            unreachable!()
        };
        Ok(Viewed {
            alloc,
            id: snapshot.id,
            lowers: again(alloc, layers.as_slice())?,
        })
    }

    /// The id of its snapshot.
    pub fn id(&self) -> u32
        ensures { result ≡ self.now.id }
    {
        self.id
    }

    /// Its layers, nearest first: the merged directory of its mount, which is read-only (overlayfs.rst,
    /// "Multiple lower layers").
    ///
    /// Takes no memory. The cost is constant.
    pub fn stack(&self) -> Stack<'_>
        ensures { result ≡ self.now.lowers }
    {
        Stack::of(self.lowers.as_slice())
    }

    /// What is seen at the path, or nothing. No symlink is followed. Bytes and targets are lent by the
    /// layer that has them.
    ///
    /// Takes no memory. The cost is that of [`Stack::look`].
    pub fn look(&self, path: &Path) -> Option<Seen<'_>>
        ensures { option_map object result ≡ seen self.now.lowers path.now }
    {
        self.stack().look(path)
    }

    /// The names in the directory at the path: those at which something is seen, each once and in byte
    /// order.
    ///
    /// Errors, in this order: `NotFound` or `NotDir` at the first directory above the path where
    /// nothing, or something else, is seen; then `NotFound` where nothing is seen at the path, `NotDir`
    /// where no directory is; `OutOfMemory` where memory for the names, or for a path that is looked at,
    /// is refused. The cost is that of [`Stack::list`].
    pub fn list(&self, path: &Path) -> Result<Vec<Name>, FsError>
        ensures ok { IfOk result (λ v. listing self.now.lowers path.now ≡ Ok v.items) }
        ensures err { IfErr result (λ e. (e ≡ OutOfMemory no_memory) ⊎ (listing self.now.lowers path.now ≡ Err e)) }
        // Want of memory never stands for another error.
        ensures first { IfErr (listing self.now.lowers path.now) (λ e. result ≡ Err e) }
        // A list has exactly the names at which something is seen, in order.
        ensures names { IfOk result (λ v. IsListing self.now.lowers path.now v.items) }
    {
        self.stack().list(self.alloc, path)
    }

    /// The content of the file at the path, lent by the layer that has it.
    ///
    /// Errors, in this order: `NotFound` or `NotDir` at the first directory above the path where
    /// nothing, or something else, is seen; then `NotFound` where nothing is seen at the path, `IsDir`
    /// at a directory, and `Invalid` at a symlink, which isn't followed. Takes no memory. The cost is
    /// that of [`Stack::read`].
    pub fn read(&self, path: &Path) -> Result<&FileContent, FsError>
        ensures ok { IfOk result (λ content. reading self.now.lowers path.now ≡ Ok content.now) }
        ensures err { IfErr result (λ e. reading self.now.lowers path.now ≡ Err e) }
    {
        self.stack().read(path)
    }

    /// Where the path leads when the symlinks on it are followed, the last one too, and at most 40: a
    /// path at which no symlink is seen (path_resolution(7)).
    ///
    /// The errors are those of [`Stack::resolve`], word by word: `NotDir`, `BadPath`, `NotFound`,
    /// `TooManyLinks`; `OutOfMemory` where memory for names, words or paths is refused, but not for an
    /// error before the first symlink. So is the cost.
    pub fn resolve(&self, path: &Path) -> Result<Path, FsError>
        ensures answer { Answers (resolution self.now.lowers path.now) result }
        // Want of memory never stands for an error before the first symlink.
        ensures first { IfSome (plain_error self.now.lowers [] path.now) (λ e. result ≡ Err e) }
        // A path without symlinks leads to itself, and each path to what is no symlink.
        ensures rules { ResolvingRules self.now.lowers path.now }
    {
        self.stack().resolve(self.alloc, path)
    }
}
