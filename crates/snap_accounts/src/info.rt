// What is asked of a snapshot.
ghost use Rattle.std.specs.Prelude.{◌≡◌, ◌≢◌, IfOk, IfErr, false};
ghost use Rattle.snap_record.specs.Records.{info_of, usage_of};
ghost use Rattle.snap_record.specs.declared.record.Record.{Record};
ghost use Rattle.snap_record.specs.declared.kind.Kind.TheVariants.{Committed};
ghost use Rattle.snap_mount.specs.Mounts.{mounts_of};
ghost use Rattle.snap_call.specs.Questions.{reply_to};
ghost use Rattle.snap_call.specs.State.{ancestors, ids_of, is_too_deep, most_ancestors};
ghost use Rattle.snap_call.specs.Step.{ask, counted, mounts, refused};
ghost use Rattle.snap_call.specs.Steps.{walk_infos};
ghost use Rattle.snap_call.specs.declared.reply.Reply.{Reply};
ghost use Rattle.snap_call.specs.declared.reply.Reply.TheVariants as replies;
ghost use Rattle.snap_accounts.specs.Entries.{IsInEntry, IsRecorded};

use crate::accounts::Accounts;
use snap_call::{Question, Refusal, Reply, is_key, is_page, is_start};
use snap_ledger::StoreName;
use snap_mount::{Mount, mounts_of};
use snap_record::{Content, Filter, Kind, Record, Sequence};
use std::alloc::{AllocError, Global};

impl<N: StoreName> Accounts<N> {
    // The snapshot of the namespace that has this key.
    fn find(&self, namespace: &str, key: &str) -> Result<&Record, Refusal>
        ensures found { IfOk result (λ r. (f : Record → Reply) → ask self.now f namespace.now key.now ≡ (counted self.now, f r.now)) }
        ensures deep { IfOk result (λ r. is_too_deep most_ancestors r.now.namespace r.now.parent self.now.records ≡ false) }
        ensures recorded { IfErr result IsRecorded }
        ensures refused { IfErr result (λ why. (f : Record → Reply) → ask self.now f namespace.now key.now ≡ refused self.now why) }
    {
        if !is_key(key) {
            return Err(Refusal::BadArgument);
        }
        let state = self.state();
        let Some(place) = state.place_of(namespace) else {
            return Err(Refusal::NoNamespace);
        };
        match state.records.record_at(place, key) {
            Some(record) => Ok(record),
            None => Err(Refusal::NotFound),
        }
    }

    // The reply with its info.
    pub(crate) fn stat(&self, namespace: &str, key: &str) -> Result<Reply, AllocError>
        ensures reply { IfOk result (λ r. ask self.now (λ x. replies.Info (info_of x)) namespace.now key.now ≡ (counted self.now, r)) }
        ensures recorded { IfOk result IsInEntry }
    {
        match self.find(namespace, key) {
            Ok(record) => Ok(Reply::Info(record.info()?)),
            Err(why) => Ok(Reply::Refused(why)),
        }
    }

    // The reply with what it is charged.
    pub(crate) fn usage(&self, namespace: &str, key: &str) -> Reply
        ensures reply { ask self.now (λ x. replies.Usage (usage_of x.content)) namespace.now key.now ≡ (counted self.now, result) }
        ensures recorded { IsInEntry result }
    {
        match self.find(namespace, key) {
            Ok(record) => Reply::Usage(record.content.usage()),
            Err(why) => Reply::Refused(why),
        }
    }

    // The mounts that show a snapshot of this kind.
    fn mounts_as(
        &self,
        alloc: Global,
        kind: Kind,
        snapshot: &Record,
    ) -> Result<Sequence<Mount>, AllocError>
        requires mounted { kind ≢ Committed }
        requires deep { is_too_deep most_ancestors snapshot.now.namespace snapshot.now.parent self.now.records ≡ false }
        ensures { IfOk result (λ m. m ≡ mounts_of self.now.root kind snapshot.now.id (ids_of (ancestors snapshot.now.namespace snapshot.now.parent self.now.records))) }
    {
        let state = self.state();
        let parent = snapshot.parent.as_str();
        let parents = state.records.chain_ids(alloc, snapshot.namespace, parent)?;
        let root = state.root.as_str();
        mounts_of(alloc, root, kind, snapshot.id, parents.as_slice())
    }

    // The reply with the mounts that show a snapshot, or why it has none.
    fn mounts_or_why(&self, alloc: Global, snapshot: &Record) -> Result<Reply, AllocError>
        requires { is_too_deep most_ancestors snapshot.now.namespace snapshot.now.parent self.now.records ≡ false }
        ensures reply { IfOk result (λ r. r ≡ mounts self.now snapshot.now) }
        ensures recorded { IfOk result IsInEntry }
    {
        match &snapshot.content {
            Content::View { .. } => {
                let mounts = self.mounts_as(alloc, Kind::View, snapshot)?;
                Ok(Reply::Mounts(mounts))
            }
            Content::Active { .. } => {
                let mounts = self.mounts_as(alloc, Kind::Active, snapshot)?;
                Ok(Reply::Mounts(mounts))
            }
            Content::Committed { .. } => Ok(Reply::Refused(Refusal::NotActive)),
        }
    }

    // The reply with the mounts that show it.
    pub(crate) fn mounts(
        &self,
        alloc: Global,
        namespace: &str,
        key: &str,
    ) -> Result<Reply, AllocError>
        ensures reply { IfOk result (λ r. ask self.now (mounts self.now) namespace.now key.now ≡ (counted self.now, r)) }
        ensures recorded { IfOk result IsInEntry }
    {
        match self.find(namespace, key) {
            Ok(record) => self.mounts_or_why(alloc, record),
            Err(why) => Ok(Reply::Refused(why)),
        }
    }

    // The reply with a page of infos.
    pub(crate) fn walk(
        &self,
        alloc: Global,
        namespace: &str,
        after: &str,
        most: u64,
        asked: &Filter,
    ) -> Result<Reply, AllocError>
        ensures reply { IfOk result (λ r. walk_infos self.now namespace.now after.now most asked.now ≡ (counted self.now, r)) }
        ensures recorded { IfOk result IsInEntry }
    {
        if !(is_start(after) && is_page(most)) {
            return Ok(Reply::Refused(Refusal::BadArgument));
        }
        let state = self.state();
        let Some(place) = state.place_of(namespace) else {
            return Ok(Reply::Refused(Refusal::NoNamespace));
        };
        let infos = state.page(alloc, place, after, most as usize, asked)?;
        Ok(Reply::Page(infos))
    }

    /// What the call that asks the same would reply; the state stays as it is.
    ///
    /// The refusals are those of the call, in its order. Takes memory for the reply, with mounts and infos also for the
    /// ids of the ancestors and the keys that are passed over. The cost is that of [`plan`](Accounts::plan) for the
    /// call.
    pub fn answer(&self, alloc: Global, question: &Question) -> Result<Reply, AllocError>
        ensures { IfOk result (λ reply. reply ≡ reply_to self.now question.now) }
    {
        match question {
            Question::Stat { namespace, key } => self.stat(namespace.as_str(), key.as_str()),
            Question::Usage { namespace, key } => Ok(self.usage(namespace.as_str(), key.as_str())),
            Question::Mounts { namespace, key } => {
                self.mounts(alloc, namespace.as_str(), key.as_str())
            }
            Question::Walk {
                namespace,
                after,
                most,
                asked,
            } => self.walk(alloc, namespace.as_str(), after.as_str(), *most, asked),
        }
    }
}
