// A new view.
ghost use Rattle.std.specs.Prelude.{◌≡◌, ◌≤◌, ◌+◌, ◌↔◌, length, IfOk, IfErr, IsErrOf, IsSomeAnd};
ghost use Rattle.snap_call.specs.Records.{open_count};
ghost use Rattle.snap_call.specs.State.{place_of, ancestors, ids_of, shown_layers};
ghost use Rattle.snap_call.specs.declared.call.Call.TheVariants as calls;
ghost use Rattle.snap_call.specs.declared.call.Given.TheVariants.{Nothing};
ghost use Rattle.snap_call.specs.declared.refusal.Refusal.TheVariants.{JournalFull};
ghost use Rattle.snap_call.specs.declared.reply.Reply.TheVariants as replies;
ghost use Rattle.snap_book.specs.Book.{Recorded, RefusedBy};
ghost use Rattle.snap_book.specs.Viewed.{ComesWith, IsViewOf};

use crate::book::Book;
use crate::plain::{Plan, planned};
use crate::viewed::Viewed;
use snap_accounts::Change;
use snap_call::{Call, Refusal, Reply};
use snap_ledger::StoreName;
use snap_record::{Labels, Text};
use std::alloc::{AllocError, Global};

// The call, with copies of its texts and labels.
fn view_call(
    alloc: Global,
    namespace: &str,
    key: &str,
    parent: &str,
    labels: &Labels,
) -> Result<Call, AllocError>
    ensures { IfOk result (λ c. c ≡ calls.View namespace.now key.now parent.now labels.now) }
{
    Ok(Call::View {
        namespace: Text::copy_of(alloc, namespace)?,
        key: Text::copy_of(alloc, key)?,
        parent: Text::copy_of(alloc, parent)?,
        labels: labels.clone()?,
    })
}

// What the caller of a call View gets for its reply, and for what it changes.
fn answer_to(
    alloc: Global,
    reply: &Reply,
    change: &Change,
) -> Result<Result<Viewed, Refusal>, AllocError>
    requires { ComesWith reply.now change.now }
    ensures granted { IfOk result (λ answer. IfOk answer (IsViewOf change.now)) }
    ensures refused { IfOk result (λ answer. IfErr answer (λ why. reply.now ≡ replies.Refused why)) }
{
    match reply {
        Reply::Refused(why) => Ok(Err(*why)),
        _ => Ok(Ok(Viewed::added_by(alloc, change)?)),
    }
}

impl<N: StoreName> Book<N> {
    /// Makes a view, which is a snapshot that nothing is written to, without a slot and without a charge
    /// (containerd's `Snapshotter.View`). The parent is the empty text, or the name of a committed
    /// snapshot of the same namespace. The view shows the layers of the parent and the parent's
    /// ancestors, nearest first; without a parent it shows one empty layer, whose root has the permission
    /// bits 755 in octal (our choice). The snapshot has these labels. It stands until it is removed,
    /// whether the answer is kept or dropped. This is the call `View` of [`Book::do_call`], and what is
    /// recorded is the same.
    ///
    /// `JournalFull` where each entry that is left is kept for the end of an open snapshot, and then
    /// `OutOfMemory` where memory for the entry is refused. Then, in this order: `BadArgument` for a
    /// key, a parent or labels that are malformed, or for more than 64 labels; `NoNamespace`;
    /// `NotFound` where the namespace has no snapshot of the parent's name; `AlreadyExists` where it has
    /// one of the key; `NotCommitted` where the parent is not committed; `TooDeep` where the snapshot
    /// would have more committed ancestors than the store allows; `NumbersSpent` after the id 4,294,967,295. At last
    /// `OutOfMemory` where memory for the snapshot, for the answer or for the entry is refused.
    /// `JournalFull` and `OutOfMemory` leave the book as it was, the others all but the journal.
    ///
    /// Takes memory for the texts and the labels in the entry and in the snapshot, for the ancestors' ids in
    /// the entry, and for the list of the layers in the snapshot and in the answer.
    /// The ancestors' layers are shared and not copied. Its cost grows with the logarithm of the
    /// number of records, once for each ancestor and once for the view itself, and with the texts and the
    /// labels.
    pub fn view(
        &mut self,
        session: u64,
        namespace: &str,
        key: &str,
        parent: &str,
        labels: &Labels,
    ) -> Result<Viewed, Refusal>
        // Its namespace has a place in the store.
        ensures granted { IfOk result (λ v. IsSomeAnd (place_of namespace.now self.old.state.namespaces) (λ place. Recorded self.old self.new session (calls.View namespace.now key.now parent.now labels.now) Nothing (replies.Viewed v.id (ids_of (ancestors place parent.now self.old.state.records))))) }
        ensures lowers { IfOk result (λ v. IsSomeAnd (place_of namespace.now self.old.state.namespaces) (λ place. v.lowers ≡ shown_layers place parent.now self.old.state.records)) }
        ensures refused { IfErr result (λ why. RefusedBy self.old self.new session (calls.View namespace.now key.now parent.now labels.now) Nothing why) }
        ensures full { IsErrOf result JournalFull ↔ (self.old.limit ≤ length self.old.journal + open_count self.old.state.records) }
    {
        self.journal.admit(self.accounts.open_slots(), 1)?;
        let call = view_call(self.alloc, namespace, key, parent, labels)?;
        let plan = planned(self.alloc, &self.accounts, session, call)?;
        let answer = answer_to(self.alloc, &plan.reply, &plan.change)?;
        let Plan {
            entry,
            copy,
            reply: _,
            change,
        } = plan;
        self.accounts.carry_out(self.alloc, change)?;
        self.journal.push(entry, copy);
        answer
    }
}
