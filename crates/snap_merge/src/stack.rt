ghost use Rattle.std.specs.Prelude.{◌≡◌, ◌⊎◌, [], ◌∷◌, ◌++◌, is_some, false, MatchOption, List, ℕ, nat_lt, length, IsSome, OnOk, IfOk, IfErr, IfSome, Ok, Err, Some, None};
ghost use Rattle.std.specs.Option.{option_map};
ghost use Rattle.snap_path.specs.Memory.{no_memory};
ghost use Rattle.snap_merge.specs.Objects.{object, seen, is_shown_dir, AreLayers};
ghost use Rattle.snap_merge.specs.Shares.{has};
ghost use Rattle.snap_merge.specs.Walk.{walk_error, Answers};
ghost use Rattle.snap_merge.specs.Reach.{Reached};
ghost use Rattle.snap_merge.specs.Reading.{reading};
ghost use Rattle.snap_merge.specs.Listing.{names, listing, IsListing};
ghost use Rattle.snap_merge.specs.Resolving.{is_too_long, plain_error, resolution};
ghost use Rattle.snap_merge.specs.Rules.{ResolvingRules};
ghost use Rattle.snap_path.specs.Text.{IsPath};

use super::error::FsError;
use super::look::{Reach, Seen, Step, is_dir, reach_below, show_are_layers, step_through};
use super::names::{put_layer, put_layers, put_some};
use super::resolve::{check_plain, resolve};
use snap_layer::{Content, Layer, Shared};
use snap_path::{Name, Path, PathError};
use std::alloc::{AllocError, Global};
use std::collections::BTreeSet;
use std::marker::Model;

/// The layers of a file system, the top one first: an upper layer over lower ones, or lower ones
/// alone. At most 65 are meant, an upper layer and 64 lower ones.
///
/// Contracts see the list of the layers. Nothing is merged beforehand: each call looks through the
/// layers, and what a layer gets later is seen by the next stack over it.
#[derive(Drop)]
pub struct Stack<'a> {
    pub(crate) top: Option<&'a Layer>,
    pub(crate) lowers: &'a [Shared],
}

impl<'a> Model for Stack<'a> {
    ghost use Rattle.std.specs.Prelude.{List, ◌++◌};
    ghost use Rattle.std.specs.Option.{option_copied, option_to_list};
    ghost use Rattle.snap_layer.specs.Tree.{Tree};

    ghost Value = { List Tree };

    ghost view = { λ s. option_to_list (option_copied s.top) ++ s.lowers.now };
}

impl<'a> Stack<'a> {
    /// The top layer over the lower ones, which stand nearest first (overlayfs.rst, "Multiple lower
    /// layers"). Takes no memory. The cost is constant.
    pub fn over(top: &'a Layer, lowers: &'a [Shared]) -> Stack<'a>
        ensures { result ≡ top.now ∷ lowers.now }
    {
        Stack {
            top: Some(top),
            lowers,
        }
    }

    /// The lower layers alone, the nearest first. Takes no memory. The cost is constant.
    pub fn of(lowers: &'a [Shared]) -> Stack<'a>
        ensures { result ≡ lowers.now }
    {
        Stack { top: None, lowers }
    }

    /// What is seen at the path, or nothing. No symlink is followed. Contents and targets are lent by the
    /// layer that has them.
    ///
    /// Takes no memory. Cost: for each layer down to the one that decides, and each name of the path that it has,
    /// the logarithm of a directory's entries.
    pub fn look(&self, path: &Path) -> Option<Seen<'a>>
        ensures { option_map object result ≡ seen self.now path.now }
    {
        self.look_at(path.names())
    }

    /// What is seen at the path of the names.
    fn look_at(&self, names: &[Name]) -> Option<Seen<'a>>
        ensures { option_map object result ≡ seen self.now names.now }
    {
        self.show_are_layers();
        let reach = self.reach(names);
        if reach.dirs < names.len() {
            None
        } else {
            reach.seen
        }
    }

    /// How far the names lead.
    pub(crate) fn reach(&self, names: &[Name]) -> Reach<'a>
        ensures { Reached self.now names.now result.dirs (option_map object result.seen) }
    {
        let Some(top) = self.top else {
            return reach_below(self.lowers, names, 0);
        };
        match step_through(top, names, 0) {
            Step::Ends(reach) => reach,
            Step::GoesOn(dirs) => reach_below(self.lowers, names, dirs),
        }
    }

    /// Shows a proof that each of the layers is one by `IsLayer`.
    pub(crate) fn show_are_layers(&self)
        ensures { AreLayers self.now }
    {
        if let Some(top) = self.top {
            top.root_dir();
        }
        show_are_layers(self.lowers);
    }

    /// Walks to the path: each directory above it, from the root on, has to be seen. No symlink is
    /// followed.
    ///
    /// `NotFound` at the first of them where nothing is seen, `NotDir` where something else than a
    /// directory is seen there. What is at the path itself doesn't count. Takes no memory. Cost: that
    /// of a look.
    #[tactic(auto, using(crate::proofs::Above::walk_to_seen))]
    pub fn walk(&self, path: &Path) -> Result<(), FsError>
        ensures ok { OnOk result (walk_error self.now path.now ≡ None) }
        ensures err { IfErr result (λ e. walk_error self.now path.now ≡ Some e) }
        // What is seen lies in directories that are seen.
        ensures reached { IsSome (seen self.now path.now) → walk_error self.now path.now ≡ None }
        // Each layer is one by `IsLayer`, and this call says so to a caller.
        ensures layers { AreLayers self.now }
    {
        let _ = self.walk_to(path)?;
        Ok(())
    }

    /// Walks to the path as [`walk`](Stack::walk) does, and answers what is seen there, or nothing. Contents and
    /// targets are lent by the layer that has them.
    ///
    /// Errors and cost are those of `walk`. Takes no memory.
    pub fn walk_to(&self, path: &Path) -> Result<Option<Seen<'a>>, FsError>
        ensures ok { IfOk result (λ o. (walk_error self.now path.now ≡ None) × (option_map object o ≡ seen self.now path.now)) }
        ensures err { IfErr result (λ e. walk_error self.now path.now ≡ Some e) }
        // Each layer is one by `IsLayer`, and this call says so to a caller.
        ensures layers { AreLayers self.now }
    {
        self.show_are_layers();
        let names = path.names();
        let reach = self.reach(names);
        if names.len() <= reach.dirs {
            return Ok(reach.seen);
        }
        match reach.seen {
            Some(_) => Err(FsError::NotDir),
            None => Err(FsError::NotFound),
        }
    }

    /// The content of the file at the path, lent by the layer that has it.
    ///
    /// The errors of the walk come first; then `NotFound` where nothing is seen, `IsDir` at a
    /// directory, and `Invalid` at a symlink, which isn't followed. Takes no memory. Cost: that of a look.
    pub fn read(&self, path: &Path) -> Result<&'a Content, FsError>
        ensures ok { IfOk result (λ content. reading self.now path.now ≡ Ok content.now) }
        ensures err { IfErr result (λ e. reading self.now path.now ≡ Err e) }
    {
        match self.walk_to(path)? {
            Some(Seen::File { content, .. }) => Ok(content),
            Some(Seen::Dir { .. }) => Err(FsError::IsDir),
            Some(Seen::Symlink { .. }) => Err(FsError::Invalid),
            None => Err(FsError::NotFound),
        }
    }

    /// The names in the directory at the path: those at which something is seen, each once and in byte
    /// order.
    ///
    /// The errors of the walk come first; then `NotFound` where nothing is seen, `NotDir` where
    /// something else than a directory is. `OutOfMemory` where memory for the names is refused. Cost: that of a
    /// look, and for each name that a layer has in the directory the logarithm of the number of names, however many
    /// layers there are.
    pub fn list(&self, alloc: Global, path: &Path) -> Result<Vec<Name>, FsError>
        ensures ok { IfOk result (λ v. listing self.now path.now ≡ Ok v.items) }
        ensures err { IfErr result (λ e. (e ≡ FsError.OutOfMemory no_memory) ⊎ (listing self.now path.now ≡ Err e)) }
        // Want of memory never stands for another error.
        ensures first { IfErr (listing self.now path.now) (λ e. result ≡ Err e) }
        // A list has exactly the names at which something is seen, in order.
        ensures names { IfOk result (λ v. IsListing self.now path.now v.items) }
    {
        match self.walk_to(path)? {
            Some(Seen::Dir { .. }) => self.names(alloc, path),
            Some(Seen::File { .. }) => Err(FsError::NotDir),
            Some(Seen::Symlink { .. }) => Err(FsError::NotDir),
            None => Err(FsError::NotFound),
        }
    }

    /// The names in the directory at which something is seen.
    pub(crate) fn names(&self, alloc: Global, path: &Path) -> Result<Vec<Name>, FsError>
        ensures ok { IfOk result (λ v. v.items ≡ names self.now path.now) }
        ensures err { IfErr result (λ e. e ≡ FsError.OutOfMemory no_memory) }
    {
        let shown = self.shown_names(alloc, path)?;
        let mut names = Vec::with_capacity(alloc, shown.len())?;
        for name in shown {
            names.push(name)?;
        }
        Ok(names)
    }

    /// The same as a set: each layer that shares in the directory is gone through once, the top one first, and
    /// the first that has a name decides.
    fn shown_names(&self, alloc: Global, path: &Path) -> Result<BTreeSet<Name>, AllocError>
        ensures { IfOk result (λ shown. (n : List ℕ) → has n shown.keys ≡ is_some (seen self.now (path.now ++ n ∷ []))) }
    {
        let mut shown = BTreeSet::new(alloc);
        let mut gone = BTreeSet::new(alloc);
        if let Some(top) = self.top {
            if !put_layer(&mut shown, &mut gone, top, path)? {
                return Ok(shown);
            }
        }
        put_layers(&mut shown, &mut gone, self.lowers, path)?;
        Ok(shown)
    }

    /// Whether something is seen in the directory at the path under some name: `false` where the directory is empty,
    /// and where none is seen.
    ///
    /// It fails only where memory is refused. Cost: the entries of the layers that share in the directory, down to
    /// the first that shows one.
    pub fn has_names(&self, alloc: Global, path: &Path) -> Result<bool, AllocError>
        ensures { IfOk result (λ b. b ≡ nat_lt 0 (length (names self.now path.now))) }
    {
        let mut shown = BTreeSet::new(alloc);
        let mut gone = BTreeSet::new(alloc);
        if let Some(top) = self.top {
            let goes_on = put_layer(&mut shown, &mut gone, top, path)?;
            if !goes_on {
                return Ok(!shown.is_empty());
            }
            if !shown.is_empty() {
                return Ok(true);
            }
        }
        put_some(&mut shown, &mut gone, self.lowers, path)?;
        Ok(!shown.is_empty())
    }

    /// Where the path leads when the symlinks on it are followed, the last one too: a path at which no
    /// symlink is seen. At most 40 are followed. A target that begins with `/` leads from the root,
    /// another one from the directory that the symlink is in. In targets an empty word and `.` stand
    /// for the directory itself, and `..` for the one above, which for the root is the root
    /// (path_resolution(7)).
    ///
    /// Word by word, and in this order: `NotDir` where the way goes on from something else than a
    /// directory; `BadPath` where the word has more than 255 bytes, or the path with it more than 4095;
    /// `NotFound` where nothing is seen, as under a word that is no UTF-8; `TooManyLinks` at the 41st symlink. `OutOfMemory` where memory
    /// for names, words or paths is refused, but not for an error before the first symlink. Cost: that of two looks
    /// at the path, and its bytes; for each word from the first on that leads to no directory, that of two looks and
    /// the bytes of the path so far. Behind a symlink, where more than 16 words are left, the names that come next cost
    /// one look and their bytes together, as far as they lead through directories.
    pub fn resolve(&self, alloc: Global, path: &Path) -> Result<Path, FsError>
        ensures answer { Answers (resolution self.now path.now) result }
        // Want of memory never stands for an error before the first symlink.
        ensures first { IfSome (plain_error self.now [] path.now) (λ e. result ≡ Err e) }
        // A path without symlinks leads to itself, and each path to what is no symlink.
        ensures rules { ResolvingRules self.now path.now }
    {
        self.show_are_layers();
        check_plain(self, path)?;
        resolve(self, alloc, path)
    }

    /// Whether a directory is seen at the path.
    pub(crate) fn is_dir(&self, path: &Path) -> bool
        ensures { result ≡ is_shown_dir (seen self.now path.now) }
    {
        is_dir(self.look(path))
    }

    /// The path of the directory's entry of this name, where something may be seen: no layer has a name that is no
    /// UTF-8.
    pub(crate) fn entry(
        &self,
        alloc: Global,
        directory: &Path,
        word: &[u8],
    ) -> Result<Option<Path>, FsError>
        requires { is_too_long directory.now word.now ≡ false }
        ensures ok { IfOk result (λ o. MatchOption o (seen self.now (directory.now ++ word.now ∷ []) ≡ None) (λ p. p ≡ directory.now ++ word.now ∷ [])) }
        ensures err { IfErr result (λ e. e ≡ FsError.OutOfMemory no_memory) }
    {
        self.show_are_layers();
        match str::from_utf8(word) {
            Ok(text) => self.entry_named(alloc, directory, text),
            Err(_) => Ok(None),
        }
    }

    /// The same of a word that is a text: each name can be one, and what is no name is not seen.
    #[tactic(auto, using(crate::proofs::Named::no_name_seen))]
    fn entry_named(
        &self,
        alloc: Global,
        directory: &Path,
        name: &str,
    ) -> Result<Option<Path>, FsError>
        requires layers { AreLayers self.now }
        requires short { is_too_long directory.now name.now ≡ false }
        ensures ok { IfOk result (λ o. MatchOption o (seen self.now (directory.now ++ name.now ∷ []) ≡ None) (λ p. p ≡ directory.now ++ name.now ∷ [])) }
        ensures err { IfErr result (λ e. e ≡ FsError.OutOfMemory no_memory) }
    {
        match Name::parse(alloc, name) {
            Ok(name) => Ok(Some(directory.join(&name)?)),
            Err(PathError::BadPath) => Ok(None),
            Err(PathError::OutOfMemory(no_memory)) => Err(FsError::OutOfMemory(no_memory)),
        }
    }
}
