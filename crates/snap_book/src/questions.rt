// What is asked of a book without an entry: a snapshot with its ancestors, a sweep that takes nothing, and the calls
// that change nothing.
ghost use Rattle.std.specs.Prelude.{◌≡◌, ◌≤◌, ◌*◌, ◌^◌, [], IfOk, IsSome, Some, unwrap_or};
ghost use Rattle.snap_call.specs.Questions.{reply_to};
ghost use Rattle.snap_call.specs.Records.{committed_at};
ghost use Rattle.snap_call.specs.State.{chain_from};
ghost use Rattle.snap_call.specs.Step.{sweep};
ghost use Rattle.snap_book.specs.Questions.{chain_usage, usage_of_all};
ghost use Rattle.snap_book.specs.Small.{AreSmall};

use crate::book::Book;
use snap_call::limits::MAX_ANCESTORS;
use snap_call::{Question, Records, Refusal, Reply, Sweep};
use snap_ledger::StoreName;
use snap_usage::Usage;
use std::alloc::AllocError;

// What the ancestors of a snapshot on the parent are charged, where there are at most `most`.
fn usage_above(records: &Records, most: u64, place: usize, parent: &str) -> Usage
    requires few { most ≤ 500 }
    requires all { IsSome (chain_from most records.now place parent.now) }
    requires small { AreSmall records.now place }
    ensures usage { result ≡ usage_of_all (unwrap_or (chain_from most records.now place parent.now) []) }
    ensures blocks { result.blocks ≤ most * 2 ^ 40 }
    ensures inodes { result.inodes ≤ most * 2 ^ 40 }
{
    if parent.is_empty() || most == 0 {
        return Usage::ZERO;
    }
    let Some(ancestor) = records.committed_at(place, parent) else {
        return Usage::ZERO;
    };
    let above = usage_above(records, most - 1, place, ancestor.parent.as_str());
    ancestor.content.usage().plus(above)
}

impl<N: StoreName> Book<N> {
    /// What the snapshot of this key is charged together with its committed ancestors, each once, in blocks
    /// of 4096 bytes and inodes: what an image takes of a namespace, whoever else stands on the same
    /// ancestors. `NoNamespace` where the store has no such namespace, then `NotFound`. It leaves no entry.
    /// Takes no memory. The cost grows with the logarithm of the number of records, once for each ancestor.
    pub fn chain_usage(&self, namespace: &str, key: &str) -> Result<Usage, Refusal>
        ensures { result ≡ chain_usage self.now.state namespace.now key.now }
    {
        let records = self.records();
        let found = self.record(namespace, key)?;
        let above = usage_above(
            records,
            MAX_ANCESTORS,
            found.namespace,
            found.parent.as_str(),
        );
        Ok(found.content.usage().plus(above))
    }

    /// The reply of a sweep of the namespace at the moment: what it would take away. Nothing goes, and no
    /// entry is left. It is refused with `NoNamespace` where the store has no such namespace. Takes memory for the
    /// answer, and as [`State::plan_sweep`](snap_call::State::plan_sweep) does, whose cost it has; where memory is
    /// refused there is no answer.
    pub fn plan_sweep(&self, namespace: &str, moment: u64) -> Result<Reply, AllocError>
        ensures { IfOk result (λ reply. reply ≡ (sweep self.now.state namespace.now moment).1) }
    {
        let state = self.accounts.state();
        let Some(place) = state.place_of(namespace) else {
            return Ok(Reply::Refused(Refusal::NoNamespace));
        };
        let Sweep { removed, freed } = state.plan_sweep(self.alloc, place, namespace, moment)?;
        let leases = state.leases.ended(namespace, moment);
        Ok(Reply::Swept {
            removed,
            leases,
            freed,
        })
    }

    /// What the call that asks the same would reply: the infos, the charge, the mounts or the refusal. It leaves no
    /// entry, and neither a session nor room in the journal is asked for. Takes memory for the answer, and as
    /// [`Accounts::answer`](snap_accounts::Accounts::answer) does, whose cost it has; where memory is refused there is
    /// no answer.
    pub fn answer(&self, question: &Question) -> Result<Reply, AllocError>
        ensures { IfOk result (λ reply. reply ≡ reply_to self.now.state question.now) }
    {
        self.accounts.answer(self.alloc, question)
    }
}
