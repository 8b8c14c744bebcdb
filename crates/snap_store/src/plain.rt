// The calls that take no snapshot out of its writer's hands and put none into them.
ghost use Rattle.std.specs.Prelude.{◌≡◌, ◌≤◌, ◌+◌, IfOk, OnOk, IfErr};
ghost use Rattle.snap_call.specs.declared.call.Call.TheVariants as calls;
ghost use Rattle.snap_call.specs.declared.call.Given.TheVariants.{Nothing};
ghost use Rattle.snap_call.specs.declared.reply.Reply.TheVariants as replies;
ghost use Rattle.snap_accounts.specs.Entries.{IsPlain};
ghost use Rattle.snap_store.specs.Replies.{IsReplyTo};
ghost use Rattle.snap_store.specs.Values.{IsAnswer};
ghost use Rattle.snap_tape.specs.Tapes.{AnsweredOn, RefusedOn, Taped};

use crate::note::{is_noted, note_entry};
use crate::store::{Locked, Store};
use snap_book::{Call, Question, Refusal, Removed, Reply};
use snap_mount::Mount;
use snap_record::{Filter, Info, Labels, Sequence, Text};
use snap_round::RoundName;
use snap_tape::Session;
use snap_usage::Usage;
use std::alloc::{AllocError, Global};
use std::sync::Wait;

/// What a sweep took away: the keys of the committed snapshots, in the order of their bytes, the number of
/// leases, and what the snapshots were charged, in blocks of 4096 bytes and inodes.
#[derive(Debug, Drop)]
pub struct Swept {
    pub removed: Sequence<Text>,
    pub leases: u64,
    pub freed: Usage,
}

// The answer of a call that has no other reply beside a refusal.
macro_rules! answer {
    ($reply:expr, $own:pat => $answer:expr) => {
        match $reply {
            $own => Ok($answer),
            Reply::Refused(why) => Err(why),
            _ => unreachable!(),
        }
    };
}

fn copies(alloc: Global, a: &str, b: &str) -> Result<(Text, Text), AllocError>
    ensures { IfOk result (λ both. both ≡ (a.now, b.now)) }
{
    Ok((Text::copy_of(alloc, a)?, Text::copy_of(alloc, b)?))
}

// The call, with copies of its texts and labels.
fn update_call(
    alloc: Global,
    namespace: &str,
    key: &str,
    labels: &Labels,
    paths: &Sequence<Text>,
) -> Result<Call, AllocError>
    ensures { IfOk result (λ c. c ≡ calls.Update namespace.now key.now labels.now paths.now) }
{
    let (namespace, key) = copies(alloc, namespace, key)?;
    Ok(Call::Update {
        namespace,
        key,
        labels: labels.clone()?,
        paths: paths.clone()?,
    })
}

fn walk_call(
    alloc: Global,
    namespace: &str,
    after: &str,
    most: u64,
    asked: &Filter,
) -> Result<Call, AllocError>
    ensures { IfOk result (λ c. c ≡ calls.Walk namespace.now after.now most asked.now) }
{
    let (namespace, after) = copies(alloc, namespace, after)?;
    Ok(Call::Walk {
        namespace,
        after,
        most,
        asked: asked.clone()?,
    })
}

fn lease_add_call(
    alloc: Global,
    namespace: &str,
    lease: &str,
    name: &str,
) -> Result<Call, AllocError>
    ensures { IfOk result (λ c. c ≡ calls.LeaseAdd namespace.now lease.now name.now) }
{
    let (namespace, lease) = copies(alloc, namespace, lease)?;
    Ok(Call::LeaseAdd {
        namespace,
        lease,
        name: Text::copy_of(alloc, name)?,
    })
}

impl<N: RoundName> Store<N> {
    // Does a plain call in the session under the lock. Beside the reply comes what the call took away.
    fn ask_apart<R: Wait>(&self, rt: &R, session: &mut Session, call: Call) -> (Reply, Removed)
        requires { IsPlain call }
        ensures answered { AnsweredOn session.old session.new call Nothing result.0 }
        ensures room { session.old.spare ≤ session.new.spare + 1 }
        ensures reply { IsReplyTo call result.0 }
    {
        if let Err(refused) = session.reserve(1) {
            return (Reply::Refused(refused.into()), Removed::none(self.alloc));
        }
        let mut locked = self.locked(rt);
        let Locked { book, tapes, .. } = &mut *locked;
        let (reply, removed) = book.do_call_apart(session.number(), call);
        note_entry(book, tapes, session, is_noted(&reply));
        (reply, removed)
    }

    // Does a plain call in the session. What it took away goes once the lock is given back.
    fn ask<R: Wait>(&self, rt: &R, session: &mut Session, call: Call) -> Reply
        requires { IsPlain call }
        ensures answered { AnsweredOn session.old session.new call Nothing result }
        ensures room { session.old.spare ≤ session.new.spare + 1 }
        ensures reply { IsReplyTo call result }
    {
        let (reply, _removed) = self.ask_apart(rt, session, call);
        reply
    }

    /// Takes a snapshot away, a view or a committed one that is no parent and that no lease names (containerd's
    /// `Snapshotter.Remove`). The answer is what its namespace is charged no longer, in blocks of 4096 bytes
    /// and inodes; 0/0 for a view.
    ///
    /// Refusals, after `JournalFull` and `OutOfMemory`: `BadArgument`, `NoNamespace`, `NotFound`, `HasChildren`,
    /// `InUse` for an active snapshot, which [`Store::discard`] ends, `Leased`.
    pub fn remove<R: Wait>(
        &self,
        rt: &R,
        session: &mut Session,
        namespace: &str,
        key: &str,
    ) -> Result<Usage, Refusal>
        ensures granted { IfOk result (λ freed. Taped session.old session.new (calls.Remove namespace.now key.now) Nothing (replies.Removed freed)) }
        ensures refused { IfErr result (λ why. RefusedOn session.old session.new (calls.Remove namespace.now key.now) Nothing why) }
        ensures room { session.old.spare ≤ session.new.spare + 1 }
    {
        let (namespace, key) = copies(self.alloc, namespace, key)?;
        let call = Call::Remove { namespace, key };
        answer!(self.ask(rt, session, call), Reply::Removed(freed) => freed)
    }

    /// The info of a snapshot (containerd's `Snapshotter.Stat`).
    ///
    /// Refusals, after `JournalFull` and `OutOfMemory`: `BadArgument`, `NoNamespace`, `NotFound`.
    pub fn stat<R: Wait>(
        &self,
        rt: &R,
        session: &mut Session,
        namespace: &str,
        key: &str,
    ) -> Result<Info, Refusal>
        ensures granted { IfOk result (λ info. Taped session.old session.new (calls.Stat namespace.now key.now) Nothing (replies.Info info)) }
        ensures refused { IfErr result (λ why. RefusedOn session.old session.new (calls.Stat namespace.now key.now) Nothing why) }
        ensures room { session.old.spare ≤ session.new.spare + 1 }
    {
        let (namespace, key) = copies(self.alloc, namespace, key)?;
        let call = Call::Stat { namespace, key };
        answer!(self.ask(rt, session, call), Reply::Info(info) => info)
    }

    /// Changes a snapshot's labels by field paths, or all of them where no path is given (containerd's
    /// `Snapshotter.Update`). The answer is its info afterwards.
    ///
    /// Refusals, after `JournalFull` and `OutOfMemory`: `BadArgument` for a malformed key, labels or paths, or for more
    /// than 64 labels that would replace all; `NoNamespace`; `NotFound`; `BadArgument` where more than 64 labels would
    /// be left.
    pub fn update<R: Wait>(
        &self,
        rt: &R,
        session: &mut Session,
        namespace: &str,
        key: &str,
        labels: &Labels,
        paths: &Sequence<Text>,
    ) -> Result<Info, Refusal>
        ensures granted { IfOk result (λ info. Taped session.old session.new (calls.Update namespace.now key.now labels.now paths.now) Nothing (replies.Info info)) }
        ensures refused { IfErr result (λ why. RefusedOn session.old session.new (calls.Update namespace.now key.now labels.now paths.now) Nothing why) }
        ensures room { session.old.spare ≤ session.new.spare + 1 }
    {
        let call = update_call(self.alloc, namespace, key, labels, paths)?;
        answer!(self.ask(rt, session, call), Reply::Info(info) => info)
    }

    /// What a snapshot is charged, in blocks of 4096 bytes and inodes: the count over the layer of a committed
    /// one, the charge of an active one, 0/0 for a view (containerd's `Snapshotter.Usage`).
    ///
    /// Refusals, after `JournalFull` and `OutOfMemory`: `BadArgument`, `NoNamespace`, `NotFound`.
    pub fn usage<R: Wait>(
        &self,
        rt: &R,
        session: &mut Session,
        namespace: &str,
        key: &str,
    ) -> Result<Usage, Refusal>
        ensures granted { IfOk result (λ usage. Taped session.old session.new (calls.Usage namespace.now key.now) Nothing (replies.Usage usage)) }
        ensures refused { IfErr result (λ why. RefusedOn session.old session.new (calls.Usage namespace.now key.now) Nothing why) }
        ensures room { session.old.spare ≤ session.new.spare + 1 }
    {
        let (namespace, key) = copies(self.alloc, namespace, key)?;
        let call = Call::Usage { namespace, key };
        answer!(self.ask(rt, session, call), Reply::Usage(usage) => usage)
    }

    /// The mounts that show an active snapshot or a view (containerd's `Snapshotter.Mounts`).
    ///
    /// Refusals, after `JournalFull` and `OutOfMemory`: `BadArgument`, `NoNamespace`, `NotFound`, `NotActive` for
    /// a committed snapshot.
    pub fn mounts<R: Wait>(
        &self,
        rt: &R,
        session: &mut Session,
        namespace: &str,
        key: &str,
    ) -> Result<Sequence<Mount>, Refusal>
        ensures granted { IfOk result (λ mounts. Taped session.old session.new (calls.Mounts namespace.now key.now) Nothing (replies.Mounts mounts)) }
        ensures refused { IfErr result (λ why. RefusedOn session.old session.new (calls.Mounts namespace.now key.now) Nothing why) }
        ensures room { session.old.spare ≤ session.new.spare + 1 }
    {
        let (namespace, key) = copies(self.alloc, namespace, key)?;
        let call = Call::Mounts { namespace, key };
        answer!(self.ask(rt, session, call), Reply::Mounts(mounts) => mounts)
    }

    /// The infos of the snapshots of a namespace whose keys come after a text and that have every part of a
    /// filter, at most `most`, in the order of their keys (containerd's `Snapshotter.Walk`, page by page).
    ///
    /// Refusals, after `JournalFull` and `OutOfMemory`: `BadArgument` for a page of none or of more than 64
    /// infos, or a start of more than 1024 bytes; `NoNamespace`.
    pub fn walk<R: Wait>(
        &self,
        rt: &R,
        session: &mut Session,
        namespace: &str,
        after: &str,
        most: u64,
        asked: &Filter,
    ) -> Result<Sequence<Info>, Refusal>
        ensures granted { IfOk result (λ infos. Taped session.old session.new (calls.Walk namespace.now after.now most asked.now) Nothing (replies.Page infos)) }
        ensures refused { IfErr result (λ why. RefusedOn session.old session.new (calls.Walk namespace.now after.now most asked.now) Nothing why) }
        ensures room { session.old.spare ≤ session.new.spare + 1 }
    {
        let call = walk_call(self.alloc, namespace, after, most, asked)?;
        answer!(self.ask(rt, session, call), Reply::Page(infos) => infos)
    }

    /// What the call that asks the same would reply: the infos, the charge, the mounts or the refusal, as
    /// [`Book::answer`](snap_book::Book::answer) answers it.
    ///
    /// It takes no session and leaves no entry, so it is never `JournalFull`, and a close has nothing to compare it
    /// with. Takes memory for the answer, under the lock; where that is refused there is no answer.
    pub fn answer<R: Wait>(&self, rt: &R, question: &Question) -> Result<Reply, AllocError>
        ensures { IfOk result (λ reply. IsAnswer question.now reply) }
    {
        let locked = self.locked(rt);
        locked.book.answer(question)
    }

    /// Makes a lease that names nothing yet, with a last moment or none (containerd's `leases.Manager.Create`).
    ///
    /// Refusals, after `JournalFull` and `OutOfMemory`: `BadArgument`, `NoNamespace`, `LeaseExists`.
    pub fn lease_create<R: Wait>(
        &self,
        rt: &R,
        session: &mut Session,
        namespace: &str,
        lease: &str,
        until: Option<u64>,
    ) -> Result<(), Refusal>
        ensures granted { OnOk result (Taped session.old session.new (calls.LeaseCreate namespace.now lease.now until) Nothing replies.Done) }
        ensures refused { IfErr result (λ why. RefusedOn session.old session.new (calls.LeaseCreate namespace.now lease.now until) Nothing why) }
        ensures room { session.old.spare ≤ session.new.spare + 1 }
    {
        let (namespace, lease) = copies(self.alloc, namespace, lease)?;
        let call = Call::LeaseCreate {
            namespace,
            lease,
            until,
        };
        answer!(self.ask(rt, session, call), Reply::Done => ())
    }

    /// Names a committed snapshot in a lease, live or ended; a name that is there already changes nothing
    /// (containerd's `leases.Manager.AddResource`).
    ///
    /// Refusals, after `JournalFull` and `OutOfMemory`: `BadArgument`, `NoNamespace`, `NotFound`,
    /// `NotCommitted`, `NoLease`.
    pub fn lease_add<R: Wait>(
        &self,
        rt: &R,
        session: &mut Session,
        namespace: &str,
        lease: &str,
        name: &str,
    ) -> Result<(), Refusal>
        ensures granted { OnOk result (Taped session.old session.new (calls.LeaseAdd namespace.now lease.now name.now) Nothing replies.Done) }
        ensures refused { IfErr result (λ why. RefusedOn session.old session.new (calls.LeaseAdd namespace.now lease.now name.now) Nothing why) }
        ensures room { session.old.spare ≤ session.new.spare + 1 }
    {
        let call = lease_add_call(self.alloc, namespace, lease, name)?;
        answer!(self.ask(rt, session, call), Reply::Done => ())
    }

    /// Takes one name out of a lease, live or ended, and no snapshot (containerd's
    /// `leases.Manager.DeleteResource`). The lease's other names keep their order.
    ///
    /// Refusals, after `JournalFull` and `OutOfMemory`: `BadArgument`, `NoNamespace`, `NoLease`, `NotFound`
    /// where the lease doesn't have the name.
    pub fn lease_drop<R: Wait>(
        &self,
        rt: &R,
        session: &mut Session,
        namespace: &str,
        lease: &str,
        name: &str,
    ) -> Result<(), Refusal>
        ensures granted { OnOk result (Taped session.old session.new (calls.LeaseDrop namespace.now lease.now name.now) Nothing replies.Done) }
        ensures refused { IfErr result (λ why. RefusedOn session.old session.new (calls.LeaseDrop namespace.now lease.now name.now) Nothing why) }
        ensures room { session.old.spare ≤ session.new.spare + 1 }
    {
        let (namespace, lease) = copies(self.alloc, namespace, lease)?;
        let name = Text::copy_of(self.alloc, name)?;
        let call = Call::LeaseDrop {
            namespace,
            lease,
            name,
        };
        answer!(self.ask(rt, session, call), Reply::Done => ())
    }

    /// Takes a lease away with its names, and no snapshot (containerd's `leases.Manager.Delete`).
    ///
    /// Refusals, after `JournalFull` and `OutOfMemory`: `BadArgument`, `NoNamespace`, `NoLease`.
    pub fn lease_release<R: Wait>(
        &self,
        rt: &R,
        session: &mut Session,
        namespace: &str,
        lease: &str,
    ) -> Result<(), Refusal>
        ensures granted { OnOk result (Taped session.old session.new (calls.LeaseRelease namespace.now lease.now) Nothing replies.Done) }
        ensures refused { IfErr result (λ why. RefusedOn session.old session.new (calls.LeaseRelease namespace.now lease.now) Nothing why) }
        ensures room { session.old.spare ≤ session.new.spare + 1 }
    {
        let (namespace, lease) = copies(self.alloc, namespace, lease)?;
        let call = Call::LeaseRelease { namespace, lease };
        answer!(self.ask(rt, session, call), Reply::Done => ())
    }

    /// Makes a namespace, with a limit in blocks of 4096 bytes and inodes.
    ///
    /// Refusals, after `JournalFull` and `OutOfMemory`: `BadArgument` for a name that is malformed or above 2^40 of a
    /// quantity, `NamespaceExists`, `TooManyNamespaces` where there are 4096.
    pub fn namespace_create<R: Wait>(
        &self,
        rt: &R,
        session: &mut Session,
        namespace: &str,
        limit: Usage,
    ) -> Result<(), Refusal>
        ensures granted { OnOk result (Taped session.old session.new (calls.NamespaceCreate namespace.now limit) Nothing replies.Done) }
        ensures refused { IfErr result (λ why. RefusedOn session.old session.new (calls.NamespaceCreate namespace.now limit) Nothing why) }
        ensures room { session.old.spare ≤ session.new.spare + 1 }
    {
        let call = Call::NamespaceCreate {
            namespace: Text::copy_of(self.alloc, namespace)?,
            limit,
        };
        answer!(self.ask(rt, session, call), Reply::Done => ())
    }

    /// Takes a namespace away that has no snapshot and no lease. Its place is free for another.
    ///
    /// Refusals, after `JournalFull` and `OutOfMemory`: `NoNamespace`, `NotEmpty`.
    pub fn namespace_remove<R: Wait>(
        &self,
        rt: &R,
        session: &mut Session,
        namespace: &str,
    ) -> Result<(), Refusal>
        ensures granted { OnOk result (Taped session.old session.new (calls.NamespaceRemove namespace.now) Nothing replies.Done) }
        ensures refused { IfErr result (λ why. RefusedOn session.old session.new (calls.NamespaceRemove namespace.now) Nothing why) }
        ensures room { session.old.spare ≤ session.new.spare + 1 }
    {
        let namespace = Text::copy_of(self.alloc, namespace)?;
        answer!(self.ask(rt, session, Call::NamespaceRemove { namespace }), Reply::Done => ())
    }

    /// Gives a namespace another limit, in blocks of 4096 bytes and inodes.
    ///
    /// Refusals, after `JournalFull` and `OutOfMemory`: `BadArgument` above 2^40 of a quantity, `NoNamespace`,
    /// `BelowCharge` where it doesn't cover what the namespace is charged.
    pub fn set_limit<R: Wait>(
        &self,
        rt: &R,
        session: &mut Session,
        namespace: &str,
        limit: Usage,
    ) -> Result<(), Refusal>
        ensures granted { OnOk result (Taped session.old session.new (calls.SetLimit namespace.now limit) Nothing replies.Done) }
        ensures refused { IfErr result (λ why. RefusedOn session.old session.new (calls.SetLimit namespace.now limit) Nothing why) }
        ensures room { session.old.spare ≤ session.new.spare + 1 }
    {
        let call = Call::SetLimit {
            namespace: Text::copy_of(self.alloc, namespace)?,
            limit,
        };
        answer!(self.ask(rt, session, call), Reply::Done => ())
    }

    /// Takes away the leases of a namespace that have ended at a moment, and those of its committed snapshots
    /// that neither an active snapshot, a view nor a live lease reaches.
    ///
    /// Refusals, after `JournalFull` and `OutOfMemory`: `NoNamespace`.
    pub fn sweep<R: Wait>(
        &self,
        rt: &R,
        session: &mut Session,
        namespace: &str,
        moment: u64,
    ) -> Result<Swept, Refusal>
        ensures granted { IfOk result (λ swept. Taped session.old session.new (calls.Sweep namespace.now moment) Nothing (replies.Swept swept.removed swept.leases swept.freed)) }
        ensures refused { IfErr result (λ why. RefusedOn session.old session.new (calls.Sweep namespace.now moment) Nothing why) }
        ensures room { session.old.spare ≤ session.new.spare + 1 }
    {
        let call = Call::Sweep {
            namespace: Text::copy_of(self.alloc, namespace)?,
            moment,
        };
        answer!(
            self.ask(rt, session, call),
            Reply::Swept {
                removed,
                leases,
                freed,
            } => Swept {
                removed,
                leases,
                freed,
            }
        )
    }
}
