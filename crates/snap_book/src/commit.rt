// A commit of an open snapshot.
ghost use Rattle.std.specs.Prelude.{ℕ, List, Option, true, ◌≡◌, ◌<◌, ◌≤◌, ◌+◌, ◌^◌, ◌↔◌, length, IfOk, OnOk, OnErr, IfErr};
ghost use Rattle.snap_layer.specs.Tree.{Tree};
ghost use Rattle.snap_usage.specs.Counted.{count_of};
ghost use Rattle.snap_ledger.specs.States.{Meets};
ghost use Rattle.snap_call.specs.Records.{charge_at, active_at, open_count};
ghost use Rattle.snap_call.specs.Step.{commit_as, refused};
ghost use Rattle.snap_call.specs.declared.reply.Reply.TheVariants.{Committed};
ghost use Rattle.snap_call.specs.Journal.{call_entry};
ghost use Rattle.snap_call.specs.declared.call.Call.TheVariants as calls;
ghost use Rattle.snap_call.specs.declared.call.Given.TheVariants.{Layer as LayerGiven};
ghost use Rattle.snap_call.specs.declared.refusal.Refusal.TheVariants.{JournalFull};
ghost use Rattle.snap_accounts.specs.Commits.{CanCommit};
ghost use Rattle.snap_accounts.specs.Entries.{IsRecorded};
ghost use Rattle.snap_record.specs.Labels.{Bytes, Label};
ghost use Rattle.snap_book.specs.Book.{IsCommit, IsRefusedWith, Recorded, RefusedBy, commit_reply};

use crate::active::Sealed;
use crate::book::Book;
use crate::journal::shared;
use snap_accounts::Accounts;
use snap_call::{Call, Given, Refusal, Reply, SharedEntry};
use snap_ledger::StoreName;
use snap_record::{Labels, Text};
use snap_usage::Usage;
use std::alloc::{AllocError, Global};

// Why the snapshot of the slot can't be committed by the call, if it can't.
fn check<N: StoreName>(accounts: &Accounts<N>, slot: u64, call: &Call) -> Result<(), Refusal>
    requires open { (charge_at slot accounts.now.records).issued ≡ true }
    requires commit { (id : ℕ) × IsCommit slot id call.now }
    ensures ok { OnOk result ((at id : ℕ) (name : Bytes) (lease : Option Bytes) (labels : Option (List Label)) → call.now ≡ calls.Commit at id name lease labels → CanCommit accounts.now slot name lease labels) }
    ensures recorded { IfErr result IsRecorded }
    ensures refused { IfErr result (λ why. (at id : ℕ) (name : Bytes) (lease : Option Bytes) (labels : Option (List Label)) → call.now ≡ calls.Commit at id name lease labels → (layer : Tree) → commit_as accounts.now slot name lease labels layer (active_at slot accounts.now.records) ≡ refused accounts.now why) }
{
    let Call::Commit {
        name,
        lease,
        labels,
        ..
    } = call
    else {
        unreachable!()
    };
    accounts.check_commit(slot, name.as_str(), lease, labels)
}

impl<N: StoreName> Sealed<N> {
    // The entry of its commit by the call, for the two holders.
    fn entry(
        &self,
        alloc: Global,
        session: u64,
        call: Call,
        checked: Result<(), Refusal>,
    ) -> Result<(SharedEntry, SharedEntry), AllocError>
        ensures first { IfOk result (λ p. p.0 ≡ call_entry session call (LayerGiven self.now.layer) (commit_reply checked self.now.share.id (count_of self.now.layer))) }
        ensures second { IfOk result (λ p. p.1 ≡ p.0) }
    {
        let reply = match checked {
            Ok(()) => Reply::Committed {
                id: self.share.id(),
                usage: self.usage(),
            },
            Err(why) => Reply::Refused(why),
        };
        shared(
            alloc,
            session,
            call,
            Given::Layer(self.parts.layer.again()?),
            reply,
        )
    }
}

impl<N: StoreName> Book<N> {
    /// Commits the snapshot under the name, with the parent and the id that it has, and with the labels, or
    /// where none are given with its own (containerd's `Snapshotter.Commit`, and its `WithLabels`). Its
    /// namespace is charged for the count of its layer, which is the answer, and no longer for its spare. The
    /// lease, where one is given, gets the name, whether it is live or has ended.
    ///
    /// `JournalFull` and `OutOfMemory` as for [`Book::prepare`], but one entry is enough; these two
    /// are not recorded. Then, in this order: `BadArgument` for a malformed name, lease or labels; `AlreadyExists`
    /// where the namespace has the name, the snapshot's own key among them; `NoLease` where the namespace has no such
    /// lease. Each refusal gives the snapshot back as it was. The name, the lease and the labels go into the entry,
    /// and are dropped where none is made. The cost grows with the texts and the labels, and with the logarithms of the
    /// number of leases and of the number of records.
    pub fn commit(
        &mut self,
        session: u64,
        name: Text,
        lease: Option<Text>,
        labels: Option<Labels>,
        sealed: Sealed<N>,
    ) -> Result<Usage, (Refusal, Sealed<N>)>
        ensures met { Meets (charge_at sealed.share.slot self.old.state.records) sealed.share }
        ensures granted { IfOk result (λ usage. Recorded self.old self.new session (calls.Commit sealed.share.slot sealed.share.id name lease labels) (LayerGiven sealed.layer) (Committed sealed.share.id usage)) }
        ensures count { IfOk result (λ usage. usage ≡ count_of sealed.layer) }
        ensures refused { IfErr result (λ back. RefusedBy self.old self.new session (calls.Commit sealed.share.slot sealed.share.id name lease labels) (LayerGiven sealed.layer) back.0) }
        ensures same { IfErr result (λ back. back.1 ≡ sealed) }
        ensures full { IsRefusedWith result JournalFull ↔ (self.old.limit ≤ length self.old.journal + open_count self.old.state.records) }
    {
        let call = Call::Commit {
            slot: sealed.share.slot(),
            id: sealed.share.id(),
            name,
            lease,
            labels,
        };
        self.commit_as(session, call, sealed)
    }

    /// The same by the call that says it, which goes into the entry as it is.
    pub fn commit_as(
        &mut self,
        session: u64,
        call: Call,
        sealed: Sealed<N>,
    ) -> Result<Usage, (Refusal, Sealed<N>)>
        requires { IsCommit sealed.share.slot sealed.share.id call }
        ensures met { Meets (charge_at sealed.share.slot self.old.state.records) sealed.share }
        ensures granted { IfOk result (λ usage. Recorded self.old self.new session call (LayerGiven sealed.layer) (Committed sealed.share.id usage)) }
        ensures count { IfOk result (λ usage. usage ≡ count_of sealed.layer) }
        ensures refused { IfErr result (λ back. RefusedBy self.old self.new session call (LayerGiven sealed.layer) back.0) }
        ensures same { IfErr result (λ back. back.1 ≡ sealed) }
        ensures full { IsRefusedWith result JournalFull ↔ (self.old.limit ≤ length self.old.journal + open_count self.old.state.records) }
    {
        let mut sealed = sealed;
        self.accounts.meet(&mut sealed.share);
        if let Err(why) = self.journal.admit(self.accounts.open_slots(), 1) {
            return Err((why, sealed));
        }
        let checked = check(&self.accounts, sealed.share.slot(), &call);
        let (entry, copy) = match sealed.entry(self.alloc, session, call, checked) {
            Ok(pair) => pair,
            Err(no_memory) => return Err((no_memory.into(), sealed)),
        };
        if let Err(why) = checked {
            self.accounts.count_entry();
            self.journal.push(entry, copy);
            return Err((why, sealed));
        }
        let Call::Commit {
            name,
            lease,
            labels,
            ..
        } = &entry.entry().call
        else {
            unreachable!()
        };
        let Sealed { share, parts } = sealed;
        match self
            .accounts
            .commit(share, name, lease, labels, &parts.layer)
        {
            Ok(usage) => {
                self.journal.push(entry, copy);
                Ok(usage)
            }
            Err((no_memory, share)) => {
                Err((Refusal::OutOfMemory(no_memory), Sealed { share, parts }))
            }
        }
    }
}
