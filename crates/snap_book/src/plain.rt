// The plain calls: those that take no snapshot out of its writer's hands and put none into them.
ghost use Rattle.std.specs.Prelude.{◌≡◌, ◌≤◌, ◌<◌, ◌+◌, ◌^◌, ◌↔◌, length, IfOk, OnErr, IfErr, IsErrOf};
ghost use Rattle.snap_call.specs.Journal.{call_entry};
ghost use Rattle.snap_call.specs.Records.{open_count};
ghost use Rattle.snap_call.specs.Step.{step};
ghost use Rattle.snap_call.specs.declared.call.Given.TheVariants.{Nothing};
ghost use Rattle.snap_call.specs.declared.refusal.Refusal.TheVariants.{JournalFull};
ghost use Rattle.snap_call.specs.declared.reply.Reply.TheVariants as replies;
ghost use Rattle.snap_accounts.specs.Changes.{CanChange, changed_state};
ghost use Rattle.snap_accounts.specs.Entries.{IsPlain, IsInEntry, IsUnrecorded};
ghost use Rattle.snap_book.specs.Book.{AnsweredBy, Recorded};

use crate::book::Book;
use crate::journal::shared;
use snap_accounts::{Accounts, Change};
use snap_call::{Call, Given, Refusal, Removed, Reply, SharedEntry};
use snap_ledger::StoreName;
use std::alloc::{AllocError, Global};

// The entry of a plain call for its two holders, its reply, and what it changes.
#[derive(Drop)]
pub(crate) struct Plan {
    pub(crate) entry: SharedEntry,
    pub(crate) copy: SharedEntry,
    pub(crate) reply: Reply,
    pub(crate) change: Change,
}

// The plan of a plain call.
pub(crate) fn planned<N: StoreName>(
    alloc: Global,
    accounts: &Accounts<N>,
    session: u64,
    call: Call,
) -> Result<Plan, AllocError>
    requires plain { IsPlain call }
    requires entries { accounts.now.entries < 2 ^ 63 }
    ensures entry { IfOk result (λ p. p.entry ≡ call_entry session call Nothing p.reply) }
    ensures copy { IfOk result (λ p. p.copy ≡ p.entry) }
    ensures changed { IfOk result (λ p. step accounts.now call Nothing ≡ (changed_state accounts.now p.change, p.reply)) }
    ensures recorded { IfOk result (λ p. IsInEntry p.reply) }
    ensures possible { IfOk result (λ p. CanChange accounts.now p.change) }
{
    let (reply, change) = accounts.plan(alloc, &call)?;
    let recorded = reply.clone()?;
    let (entry, copy) = shared(alloc, session, call, Given::Nothing, recorded)?;
    Ok(Plan {
        entry,
        copy,
        reply,
        change,
    })
}

impl<N: StoreName> Book<N> {
    // Makes the change of a plain call and records the call. The answer is its reply with what was taken away, or
    // why there is no entry.
    fn record_plain(&mut self, session: u64, call: Call) -> Result<(Reply, Removed), Refusal>
        requires plain { IsPlain call }
        ensures recorded { IfOk result (λ p. Recorded self.old self.new session call Nothing p.0) }
        ensures reply { IfOk result (λ p. IsInEntry p.0) }
        ensures unchanged { OnErr result (self.new ≡ self.old) }
        ensures err { IfErr result IsUnrecorded }
        ensures full { IsErrOf result JournalFull ↔ (self.old.limit ≤ length self.old.journal + open_count self.old.state.records) }
    {
        self.journal.admit(self.accounts.open_slots(), 1)?;
        let plan = planned(self.alloc, &self.accounts, session, call)?;
        let Plan {
            entry,
            copy,
            reply,
            change,
        } = plan;
        let removed = self.accounts.carry_out(self.alloc, change)?;
        self.journal.push(entry, copy);
        Ok((reply, removed))
    }

    /// Does a call that takes no snapshot out of its writer's hands and puts none into them: `View`,
    /// `Remove`, `Update`, `Stat`, `Usage`, `Mounts` or `Walk`, as containerd's `snapshots.Snapshotter`
    /// has them, `LeaseCreate`, `LeaseAdd`, `LeaseDrop` or `LeaseRelease`, as its `leases.Manager` has them,
    /// `NamespaceCreate`, `NamespaceRemove`, `SetLimit` or `Sweep`.
    ///
    /// A view is a new snapshot without a slot and without a charge; its reply has its id and those of
    /// its ancestors. `Remove` takes a view or a committed snapshot away and answers what its namespace
    /// is no longer charged, in blocks of 4096 bytes and inodes, 0/0 for a view. `Update` changes labels
    /// by field paths and answers the info after it; `Stat` answers the info of a snapshot, `Usage` what
    /// it is charged, `Mounts` the mounts that show it, `Walk` the infos of the snapshots of a namespace
    /// that come after a key and match a filter, at most 64 of them. `NamespaceCreate` makes a
    /// namespace, `NamespaceRemove` takes one away that has no snapshot and no lease, and `SetLimit` gives one another
    /// limit. A lease keeps the committed snapshots that it names from being removed, until it is released
    /// or a sweep takes it; `LeaseAdd` of a name that is there already changes nothing, and `LeaseDrop` takes
    /// one name out of a lease. `Sweep` takes the namespace's leases away that have ended at the moment, and
    /// those of its committed snapshots that neither an active snapshot, a view nor a live lease reaches; it
    /// answers their names in byte order, the number of leases that went, and what the namespace is no longer
    /// charged.
    ///
    /// `JournalFull` where each further entry is kept for an open snapshot's end, and then
    /// `OutOfMemory` where memory for the reply, the change or the entry is refused; these two are not
    /// recorded, and the book is as it was. The other refusals are recorded, and change nothing else; they
    /// come in this order. `View`: `BadArgument`, `NoNamespace`, `NotFound`, `AlreadyExists`,
    /// `NotCommitted`, `TooDeep` as for [`Book::prepare`], then `NumbersSpent` after the id
    /// 4,294,967,295. `Remove`: `BadArgument`, `NoNamespace`, `NotFound`; `HasChildren` where a snapshot
    /// of the namespace is on it; `InUse` for an active one, which [`Book::discard`] ends; `Leased` where
    /// a lease of the namespace names it. `Update`: `BadArgument` for a key, labels or paths that are malformed, or
    /// where more than 64 labels would replace all; `NoNamespace`; `NotFound`; `BadArgument` where more
    /// than 64 labels would be left. `Stat`, `Usage` and `Mounts`: `BadArgument`, `NoNamespace`,
    /// `NotFound`, and `NotActive` for the mounts of a committed snapshot. `Walk`: `BadArgument` for a
    /// page of none or of more than 64 infos, or a start of more than 1024 bytes, then `NoNamespace`.
    /// `NamespaceCreate`: `BadArgument` for a malformed name or above 2^40 of a quantity, `NamespaceExists`,
    /// `TooManyNamespaces` where there are 4096. `NamespaceRemove`: `NoNamespace`, `NotEmpty`.
    /// `SetLimit`: `BadArgument` above 2^40 of a quantity, `NoNamespace`, `BelowCharge` where the limit
    /// does not cover what the namespace is charged. The calls on a lease: `BadArgument` for a lease or a
    /// name that is malformed, `NoNamespace`; then `LeaseCreate` `LeaseExists`, `LeaseAdd` `NotFound`,
    /// `NotCommitted` and `NoLease`, `LeaseDrop` `NoLease` and, where the lease doesn't have the name,
    /// `NotFound`, `LeaseRelease` `NoLease`. `Sweep`: `NoNamespace` alone.
    ///
    /// Its cost grows with the logarithm of the number of records, and with the texts and labels of those
    /// that are found; that of mounts and of a view with that logarithm times the ancestors, that of a walk
    /// with the records that it passes over, that of a removal with the logarithm of the number of names that the
    /// namespace's leases have too, that of making a namespace with the places of the namespaces, that of a call on a
    /// lease with the logarithm of the number of leases, for a release also, for each name of the lease, with the
    /// logarithm of the number of names that the namespace's leases have, for a drop once with that logarithm and with
    /// the number of the lease's names; that of a sweep with the leases and their names, for each ended lease with the
    /// logarithm of the number of leases, and with the records times the logarithm of their number.
    pub fn do_call(&mut self, session: u64, call: Call) -> Reply
        requires { IsPlain call }
        ensures answered { AnsweredBy self.old self.new session call Nothing result }
        ensures full { (result ≡ replies.Refused JournalFull) ↔ (self.old.limit ≤ length self.old.journal + open_count self.old.state.records) }
    {
        self.do_call_apart(session, call).0
    }

    /// Does a call as [`Book::do_call`] does. Beside the reply it hands out what the call took away, for the caller to
    /// let go: a store does so once it has given its lock back.
    pub fn do_call_apart(&mut self, session: u64, call: Call) -> (Reply, Removed)
        requires { IsPlain call }
        ensures answered { AnsweredBy self.old self.new session call Nothing result.0 }
        ensures full { (result.0 ≡ replies.Refused JournalFull) ↔ (self.old.limit ≤ length self.old.journal + open_count self.old.state.records) }
    {
        match self.record_plain(session, call) {
            Ok(answered) => answered,
            Err(why) => (Reply::Refused(why), Removed::none(self.alloc)),
        }
    }
}
