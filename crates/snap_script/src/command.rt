ghost use Rattle.std.specs.Prelude.{◌≡◌, IfOk, map};
ghost use Rattle.snap_script.specs.Changes.{changes_store, opens_store};

use crate::fault::Field;
use crate::lent::LentText;
use snap_call::{Call, Config, Namespace, Question};
use snap_path::Path;
use snap_pieces::{Line as SavedLine, LineField};
use snap_record::{Labels, Sequence, Text};
use snap_upper::Op;
use snap_usage::Usage;
use std::alloc::{AllocError, Global};

/// A page of a list that is asked for: of its items in byte order of their names the first `most` that come after a text,
/// or after none where it is empty.
#[derive(Drop)]
pub struct Page<'line> {
    /// What the page begins after.
    pub after: LentText<'line>,
    /// How many items it has at most.
    pub most: u64,
}

/// A command of a script. Texts that only look something up are lent by its line; those that go into an entry of the
/// journal or into a record are the command's own.
#[derive(Drop)]
pub enum Command<'line> {
    /// Opens a store, and its session 0.
    Open {
        config: Config,
    },
    /// Opens a session.
    Session,
    /// Begins the next round, and opens its session 0. The journal has at most `journal` entries.
    Reopen {
        journal: u64,
    },
    /// The same, and snapshots may be open.
    Roll {
        journal: u64,
    },
    /// A call that the line has all of: `Prepare`, `View`, `Remove`, `Stat`, `Update`, `Usage`, `Mounts`
    /// or `Walk`, as containerd's `Snapshotter` has them, `SetLimit`, `NamespaceCreate`, `NamespaceRemove`,
    /// `Sweep`, or one on a lease, as its `leases.Manager` has them.
    Call(Call),
    /// `Stat`, `Usage`, `Mounts` or `Walk`, asked without an entry.
    Ask(Question),
    /// Charges an active snapshot for the wanted amount, or for the needed one.
    Charge {
        namespace: LentText<'line>,
        key: LentText<'line>,
        need: Usage,
        want: Usage,
    },
    /// Lowers the charge of an active snapshot to the count of its layer.
    Trim {
        namespace: LentText<'line>,
        key: LentText<'line>,
    },
    /// Commits an active snapshot under a name, with the labels in place of its own where they are given
    /// (containerd's `Commit`).
    Commit {
        namespace: LentText<'line>,
        key: LentText<'line>,
        name: Text,
        lease: Option<Text>,
        labels: Option<Labels>,
    },
    /// Drops an active snapshot.
    Discard {
        namespace: LentText<'line>,
        key: LentText<'line>,
    },
    /// Changes a file or a directory of an active snapshot. Where its charge doesn't cover what is
    /// needed, that is charged and, if the limit covers it, the extra amount too. In place of the operation stands the
    /// first field of a path whose text is no path.
    File {
        namespace: LentText<'line>,
        key: LentText<'line>,
        operation: Result<Op, Field>,
        extra: Usage,
    },
    /// Charges an active snapshot for what is needed, and then carries out file operations on it, in order, up to the
    /// first that is refused. Where it is whole and one is refused, the layer is as it was.
    Batch {
        namespace: LentText<'line>,
        key: LentText<'line>,
        need: Usage,
        ops: Sequence<Op>,
        whole: bool,
    },
    /// Asks what an active snapshot or a view shows at a path, and where it may be peeked at, what a committed one
    /// would. There is no path where its text is none.
    Lookup {
        namespace: LentText<'line>,
        key: LentText<'line>,
        lookup: Lookup,
        path: Option<Path>,
        peek: bool,
    },
    /// Asks what a sweep of a namespace would take away at a moment. Nothing goes.
    TrySweep {
        namespace: LentText<'line>,
        moment: u64,
    },
    /// Asks what a snapshot and its committed ancestors are charged together.
    ChainUsage {
        namespace: LentText<'line>,
        key: LentText<'line>,
    },
    /// Asks what each namespace may take and what it takes, or one of them.
    Quota {
        namespace: Option<LentText<'line>>,
    },
    /// Asks for the leases of a namespace, or for the one of a name.
    Leases {
        namespace: LentText<'line>,
        lease: Option<LentText<'line>>,
    },
    /// Asks for the snapshots of a namespace, as a forest by parent: for all of them, or for a page.
    Tree {
        namespace: LentText<'line>,
        page: Option<Page<'line>>,
    },
    /// Asks for what the snapshot's layer changes of what its ancestors show: of the changes after a path, or of all
    /// where its text is empty, at most `most`.
    Diff {
        namespace: LentText<'line>,
        key: LentText<'line>,
        after: LentText<'line>,
        most: u64,
    },
    /// Asks for the round's entries, all or those of a namespace, after the entry of a number, at most `most`, and in
    /// full also for the lines that make their calls.
    Journal {
        namespace: Option<LentText<'line>>,
        after: u64,
        most: u64,
        full: bool,
    },
    /// Asks for the store's totals.
    Report,
    /// A line of a saved store, or the first of its fields that is missing or isn't of its kind.
    Restore(Result<SavedLine, LineField>),
    /// Asks for the lines of the saved store: for the first of them, where it saves the store, or for those after a
    /// number of lines of the one that was saved last, at most `most`.
    Save {
        after: u64,
        most: u64,
    },
}

/// What is asked of a path.
#[derive(Clone, Copy)]
pub enum Lookup {
    /// What is seen there.
    Look,
    /// The names in the directory.
    List,
    /// The first bytes of the regular file.
    Read,
    /// The bytes of the regular file from an offset on, at most `most`.
    Part { offset: u64, most: u64 },
    /// The path that it leads to, once the symlinks in it are followed.
    Resolve,
    /// What is taken at and below it.
    Usage,
}

// Whether a store is opened with the configuration.
fn opens_store(config: &Config) -> bool
    ensures { result ≡ opens_store config.now }
{
    config.bad_field().is_none() && 1 <= config.journal
}

impl Command<'_> {
    /// Whether the command may change a store, or opens one. Any other leaves the store as it is, whatever store it is,
    /// and makes no entry. An `Open` opens none where a part of its configuration is malformed, or its journal has no
    /// room for an entry.
    ///
    /// Takes no memory. Of an `Open` the cost is that of [`bad_field`](Config::bad_field).
    pub fn changes(&self) -> bool
        ensures { result ≡ changes_store self.now }
    {
        match self {
            Command::Open { config } => opens_store(config),
            Command::Session
            | Command::Reopen { .. }
            | Command::Roll { .. }
            | Command::Call(_)
            | Command::Charge { .. }
            | Command::Trim { .. }
            | Command::Commit { .. }
            | Command::Discard { .. }
            | Command::File { .. }
            | Command::Batch { .. }
            | Command::Restore(_) => true,
            Command::Ask(_)
            | Command::Lookup { .. }
            | Command::TrySweep { .. }
            | Command::ChainUsage { .. }
            | Command::Quota { .. }
            | Command::Leases { .. }
            | Command::Tree { .. }
            | Command::Diff { .. }
            | Command::Journal { .. }
            | Command::Report
            | Command::Save { .. } => false,
        }
    }
}

/// The names of the namespaces, in their order. The memory and the cost grow with them.
pub fn names_of(alloc: Global, namespaces: &[Namespace]) -> Result<Sequence<Text>, AllocError>
    ensures { IfOk result (λ names. names ≡ map (λ n. n.name) namespaces.now) }
{
    let mut names = Sequence::new(alloc);
    for namespace in namespaces {
        names.push(namespace.name.clone()?)?;
    }
    Ok(names)
}
