// The files of an open snapshot: what it shows, and the operations on its layer.
ghost use Rattle.std.specs.Prelude.{◌≡◌, ◌⊎◌, [], ◌∷◌, IfOk, IfErr, IfSome, Ok, Err, ◌↔◌, OnOk, OnErr, IsErrOf, false};
ghost use Rattle.std.specs.Option.{option_map};
ghost use Rattle.snap_path.specs.Memory.{no_memory};
ghost use Rattle.snap_merge.specs.Objects.{object, seen};
ghost use Rattle.snap_merge.specs.Walk.{Answers};
ghost use Rattle.snap_merge.specs.Reading.{reading};
ghost use Rattle.snap_merge.specs.Listing.{listing, IsListing};
ghost use Rattle.snap_merge.specs.Resolving.{plain_error, resolution};
ghost use Rattle.snap_merge.specs.Rules.{ResolvingRules};
ghost use Rattle.snap_merge.specs.declared.error.FsError.TheVariants.{OutOfMemory, NeedsCharge};
ghost use Rattle.snap_usage.specs.Counted.{Covers};
ghost use Rattle.snap_usage.specs.declared.usage.Usage as usages;
ghost use Rattle.snap_upper.specs.After.{after, planned, lists_names};
ghost use Rattle.snap_upper.specs.Memory.{TakesNoMemory};
ghost use Rattle.snap_book.specs.Files.{worked};

use crate::active::{Active, Sealed};
use snap_layer::Content;
use snap_ledger::StoreName;
use snap_merge::{FsError, Seen, Stack};
use snap_path::{Name, Path};
use snap_upper::{Op, Planned};

impl<N: StoreName> Active<N> {
    /// Its layer over those of its ancestors, nearest first: the merged directory of its mount
    /// (overlayfs.rst, "Upper and Lower"). It shows each operation that was done.
    ///
    /// Takes no memory. The cost is constant.
    pub fn stack(&self) -> Stack<'_>
        ensures { result ≡ self.now.layer ∷ self.now.lowers }
    {
        Stack::over(&self.layer, self.lowers.as_slice())
    }

    /// What is seen at the path, or nothing. No symlink is followed. Bytes and targets are lent by the
    /// layer that has them.
    ///
    /// Takes no memory. The cost is that of [`Stack::look`].
    pub fn look(&self, path: &Path) -> Option<Seen<'_>>
        ensures { option_map object result ≡ seen (self.now.layer ∷ self.now.lowers) path.now }
    {
        self.stack().look(path)
    }

    /// The names in the directory at the path: those at which something is seen, each once and in byte
    /// order.
    ///
    /// Errors, in this order: `NotFound` or `NotDir` at the first directory above the path where
    /// nothing, or something else, is seen; then `NotFound` where nothing is seen at the path, `NotDir`
    /// where no directory is; `OutOfMemory` where memory for the names, or for a path that is looked at,
    /// is refused. The cost is that of [`Stack::list`].
    pub fn list(&self, path: &Path) -> Result<Vec<Name>, FsError>
        ensures ok { IfOk result (λ v. listing (self.now.layer ∷ self.now.lowers) path.now ≡ Ok v.items) }
        ensures err { IfErr result (λ e. (e ≡ OutOfMemory no_memory) ⊎ (listing (self.now.layer ∷ self.now.lowers) path.now ≡ Err e)) }
        // Want of memory never stands for another error.
        ensures first { IfErr (listing (self.now.layer ∷ self.now.lowers) path.now) (λ e. result ≡ Err e) }
        // A list has exactly the names at which something is seen, in order.
        ensures names { IfOk result (λ v. IsListing (self.now.layer ∷ self.now.lowers) path.now v.items) }
    {
        self.stack().list(self.alloc, path)
    }

    /// The content of the file at the path, lent by the layer that has it.
    ///
    /// Errors, in this order: `NotFound` or `NotDir` at the first directory above the path where
    /// nothing, or something else, is seen; then `NotFound` where nothing is seen at the path, `IsDir`
    /// at a directory, and `Invalid` at a symlink, which isn't followed. Takes no memory. The cost is
    /// that of [`Stack::read`].
    pub fn read(&self, path: &Path) -> Result<&Content, FsError>
        ensures ok { IfOk result (λ content. reading (self.now.layer ∷ self.now.lowers) path.now ≡ Ok content.now) }
        ensures err { IfErr result (λ e. reading (self.now.layer ∷ self.now.lowers) path.now ≡ Err e) }
    {
        self.stack().read(path)
    }

    /// Where the path leads when the symlinks on it are followed, the last one too, and at most 40: a
    /// path at which no symlink is seen (path_resolution(7)).
    ///
    /// The errors are those of [`Stack::resolve`], word by word: `NotDir`, `BadPath`, `NotFound`,
    /// `TooManyLinks`; `OutOfMemory` where memory for names, words or paths is refused, but not for an
    /// error before the first symlink. So is the cost.
    pub fn resolve(&self, path: &Path) -> Result<Path, FsError>
        ensures answer { Answers (resolution (self.now.layer ∷ self.now.lowers) path.now) result }
        // Want of memory never stands for an error before the first symlink.
        ensures first { IfSome (plain_error (self.now.layer ∷ self.now.lowers) [] path.now) (λ e. result ≡ Err e) }
        // A path without symlinks leads to itself, and each path to what is no symlink.
        ensures rules { ResolvingRules (self.now.layer ∷ self.now.lowers) path.now }
    {
        self.stack().resolve(self.alloc, path)
    }
}

impl<N: StoreName> Sealed<N> {
    /// Its layer over those of its ancestors, nearest first. Takes no memory. The cost is constant.
    pub fn stack(&self) -> Stack<'_>
        ensures { result ≡ self.now.layer ∷ self.now.lowers }
    {
        Stack::over(self.parts.layer.layer(), self.parts.lowers.as_slice())
    }
}

impl<N: StoreName> Active<N> {
    /// What its layer would take after the operation: the count of the next layer, which the share
    /// need not cover.
    ///
    /// The errors are those of [`Active::apply`] up to `LayerFull`, in the same order. It changes
    /// nothing. It takes no memory but for the names of a directory that is removed or renamed over,
    /// where no test before that fails: such a plan can answer `OutOfMemory`; and for the walk through a directory
    /// that a whiteout takes or that moves to a longer path. The cost is that of `snap_upper::plan`.
    pub fn plan(&self, op: &Op) -> Result<Planned, FsError>
        ensures answer { Answers (planned (after op.now self.now.layer self.now.lowers)) result }
        ensures sure { lists_names op.now (self.now.layer ∷ self.now.lowers) ≡ false → result ≡ planned (after op.now self.now.layer self.now.lowers) }
    {
        snap_upper::plan(&self.layer, self.lowers.as_slice(), op)
    }

    /// Does the operation on its layer, where the share covers what the layer takes afterwards.
    ///
    /// Errors, in this order, of the first that applies:
    /// - those of the operation, in the order of `snap_upper::apply`, `LayerFull` last;
    /// - `NeedsCharge`, with the count of the whole next layer: the share doesn't cover it in both
    ///   quantities. A charge of that much makes room for the operation;
    /// - `OutOfMemory`: a growth was refused. What works on the layer's own things wants none, as `snap_upper::apply`
    ///   says: a write within a file, a cut, a mode, an opaque mark, an unlink.
    ///
    /// After any of them the snapshot is as it was. The share stays, also where the layer shrinks.
    /// The cost is that of [`snap_upper::apply_within`].
    ///
    /// That a layer is charged before it is filled is our choice. A disk quota refuses a write in the
    /// same way (write(2), `EDQUOT`).
    pub fn apply(&mut self, op: &Op) -> Result<(), FsError>
        // Ok: the layer is the next one, and all else stays.
        ensures ok { OnOk result (worked op.now self.old.share.usage self.old.layer self.old.lowers ≡ Ok self.new.layer) }
        ensures same { OnOk result (self.new ≡ record self.old { layer = self.new.layer }) }
        // Err: memory was refused, or the error is the operation's under the share; all stays.
        ensures error { IfErr result (λ e. (e ≡ OutOfMemory no_memory) ⊎ (worked op.now self.old.share.usage self.old.layer self.old.lowers ≡ Err e)) }
        ensures unchanged { OnErr result (self.new ≡ self.old) }
        // Where no names are listed, want of memory never stands for another error.
        ensures first { lists_names op.now (self.old.layer ∷ self.old.lowers) ≡ false → IfErr (worked op.now self.old.share.usage self.old.layer self.old.lowers) (λ e. result ≡ Err e) }
        // What works on the layer's own things is never refused memory.
        ensures sure { TakesNoMemory op.now self.old.layer → IfErr result (λ e. worked op.now self.old.share.usage self.old.layer self.old.lowers ≡ Err e) }
        // `need` is asked for exactly where it is the next layer's count and the share doesn't cover it.
        ensures needs { lists_names op.now (self.old.layer ∷ self.old.lowers) ≡ false → (need : usages.Usage) → IsErrOf result (NeedsCharge need) ↔ ((planned (after op.now self.old.layer self.old.lowers) ≡ Ok (record { after = need })) × ¬ Covers self.old.share.usage need) }
    {
        let share = self.share.held();
        snap_upper::apply_within(&mut self.layer, self.lowers.as_slice(), op, share)
    }
}
