// A new active snapshot.
ghost use Rattle.std.specs.Prelude.{◌≡◌, ◌<◌, ◌≤◌, ◌+◌, ◌^◌, ◌↔◌, length, IfOk, OnOk, OnErr, IfErr, IsErrOf, Some, false, true};
ghost use Rattle.snap_path.specs.Limits.{most_number};
ghost use Rattle.snap_layer.specs.Layers.{IsMeta};
ghost use Rattle.snap_call.specs.Forms.{is_layer_limit};
ghost use Rattle.snap_call.specs.Records.{open_count};
ghost use Rattle.snap_call.specs.State.{place_of, ancestors, ids_of, is_too_deep, layers_of};
ghost use Rattle.snap_call.specs.Step.{one, prepared};
ghost use Rattle.snap_call.specs.declared.call.Call.TheVariants as calls;
ghost use Rattle.snap_call.specs.declared.call.Given.TheVariants.{Nothing};
ghost use Rattle.snap_call.specs.declared.reply.Reply.TheVariants.{Prepared};
ghost use Rattle.snap_call.specs.declared.refusal.Refusal.TheVariants.{JournalFull};
ghost use Rattle.snap_accounts.specs.Vacant.{IsVacant};
ghost use Rattle.snap_book.specs.Active.{fresh, root_meta};
ghost use Rattle.snap_book.specs.Book.{Recorded, RefusedBy, prepare_reply};

use crate::active::Active;
use crate::book::Book;
use crate::journal::shared;
use snap_accounts::{Accounts, Vacancy};
use snap_call::{Call, Chain, EntryRoom, Given, Refusal, Reply};
use snap_layer::{Layer, Meta, Node, Shared};
use snap_ledger::StoreName;
use snap_path::Path;
use snap_path::limits::DEFAULT_MODE;
use snap_record::{Labels, Sequence, Text};
use std::alloc::{AllocError, Global};

// What the root of a new layer over these has besides its kind.
fn root_meta(alloc: Global, lowers: &[Shared]) -> Meta
    ensures meta { result ≡ root_meta lowers.now }
    ensures whole { IsMeta result }
{
    let usual = Meta { mode: DEFAULT_MODE };
    let Some(nearest) = lowers.first() else {
        return usual;
    };
    let layer = nearest.layer();
    match layer.at(&Path::root(alloc)) {
        Some(Node::Dir { meta, .. }) => meta,
        Some(Node::File { .. } | Node::Symlink { .. } | Node::Whiteout) | None => usual,
    }
}

// The call, with copies of its texts and labels.
fn prepare_call(
    alloc: Global,
    namespace: &str,
    key: &str,
    parent: &str,
    labels: &Labels,
) -> Result<Call, AllocError>
    ensures { IfOk result (λ c. c ≡ calls.Prepare namespace.now key.now parent.now labels.now) }
{
    Ok(Call::Prepare {
        namespace: Text::copy_of(alloc, namespace)?,
        key: Text::copy_of(alloc, key)?,
        parent: Text::copy_of(alloc, parent)?,
        labels: labels.clone()?,
    })
}

// The reply to the call, which was tested, and the layers of the new snapshot's ancestors.
fn reply_to<N: StoreName>(
    alloc: Global,
    accounts: &Accounts<N>,
    parent: &str,
    found: Result<Vacancy, Refusal>,
) -> Result<(Reply, Sequence<Shared>), AllocError>
    requires { IfOk found (λ v. (is_too_deep accounts.now.ancestors v.place parent.now accounts.now.records ≡ false) × (accounts.now.next_id ≤ most_number)) }
    ensures reply { IfOk result (λ p. p.0 ≡ prepare_reply found accounts.now parent.now) }
    ensures lowers { IfOk result (λ p. IfOk found (λ v. p.1 ≡ layers_of (ancestors v.place parent.now accounts.now.records))) }
{
    let vacancy = match found {
        Ok(vacancy) => vacancy,
        Err(why) => return Ok((Reply::Refused(why), Sequence::new(alloc))),
    };
    let state = accounts.state();
    let Chain { ids, layers } = state.records.chain(alloc, vacancy.place, parent)?;
    let reply = Reply::Prepared {
        id: state.next_id as u32,
        slot: vacancy.slot,
        chain: ids,
    };
    Ok((reply, layers))
}

impl<N: StoreName> Active<N> {
    // Adds the snapshot to the accounts, over these layers. Where memory is refused they are as they were.
    fn add(
        accounts: &mut Accounts<N>,
        alloc: Global,
        vacancy: Vacancy,
        key: &str,
        parent: &str,
        labels: &Labels,
        lowers: Sequence<Shared>,
        layer_inodes: u64,
    ) -> Result<Active<N>, AllocError>
        requires entries { accounts.old.entries < 2 ^ 63 }
        requires inodes { is_layer_limit layer_inodes ≡ true }
        requires vacant { IsVacant accounts.old vacancy key.now parent.now labels.now }
        ensures added { OnOk result (accounts.new ≡ (prepared accounts.old vacancy.place key.now parent.now labels.now vacancy.slot).0) }
        ensures active { IfOk result (λ a. a ≡ record { namespace = vacancy.place; key = key.now; lowers = lowers; layer = fresh layer_inodes lowers; share = record { slot = vacancy.slot; id = accounts.old.next_id; usage = one } }) }
        ensures open { OnOk result (open_count accounts.new.records ≡ open_count accounts.old.records + 1) }
        ensures unchanged { OnErr result (accounts.new ≡ accounts.old) }
    {
        let own_key = Text::copy_of(alloc, key)?;
        let meta = root_meta(alloc, lowers.as_slice());
        let layer = Layer::within(alloc, meta, layer_inodes as usize)?;
        let discard_room = EntryRoom::new(alloc)?;
        let share = accounts.add(alloc, vacancy, key, parent, labels)?;
        Ok(Active {
            alloc,
            namespace: vacancy.place,
            key: own_key,
            lowers,
            layer,
            share,
            discard_room,
        })
    }
}

impl<N: StoreName> Book<N> {
    /// Makes an active snapshot in the lowest free slot, and charges its namespace 1/1 for the layer's
    /// root (containerd's `Snapshotter.Prepare`). The parent is the empty text, or the name of a
    /// committed snapshot of the same namespace. The new layer's root has the permission bits of the
    /// parent's root, or 755 in octal without a parent (our choice). The snapshot has these labels.
    ///
    /// `JournalFull` where an entry for the call and one for the snapshot's end are not left, and then
    /// `OutOfMemory` where memory for the entry is refused. Then, in this order: `BadArgument` for a
    /// key, a parent or labels that are malformed, or for more than 64 labels; `NoNamespace`;
    /// `NotFound` where the namespace has no snapshot of the parent's name; `AlreadyExists` where it has
    /// one of the key; `NotCommitted` where the parent is not committed; `TooDeep` where the snapshot
    /// would have more committed ancestors than the store allows; `TooManyActives` where all slots of the store are open;
    /// `OverLimit` with what is free; `NumbersSpent` after the id 4,294,967,295. At last `OutOfMemory`
    /// where memory for the snapshot is refused. `JournalFull` and `OutOfMemory` leave the book as it
    /// was, the others all but the journal. Its cost grows with the logarithm of the number of
    /// records, once for each ancestor and once for the snapshot itself, with the texts and the
    /// labels, and with the number of slots, of which 64 open ones are one step.
    pub fn prepare(
        &mut self,
        session: u64,
        namespace: &str,
        key: &str,
        parent: &str,
        labels: &Labels,
    ) -> Result<Active<N>, Refusal>
        ensures granted { IfOk result (λ a. Recorded self.old self.new session (calls.Prepare namespace.now key.now parent.now labels.now) Nothing (Prepared a.share.id a.share.slot (ids_of (ancestors a.namespace parent.now self.old.state.records)))) }
        // Its namespace has the place that the store has it at.
        ensures namespace { IfOk result (λ a. place_of namespace.now self.old.state.namespaces ≡ Some a.namespace) }
        ensures key { IfOk result (λ a. a.key ≡ key.now) }
        ensures lowers { IfOk result (λ a. a.lowers ≡ layers_of (ancestors a.namespace parent.now self.old.state.records)) }
        ensures layer { IfOk result (λ a. a.layer ≡ fresh self.old.state.layer_inodes a.lowers) }
        ensures usage { IfOk result (λ a. a.share.usage ≡ one) }
        ensures refused { IfErr result (λ why. RefusedBy self.old self.new session (calls.Prepare namespace.now key.now parent.now labels.now) Nothing why) }
        ensures full { IsErrOf result JournalFull ↔ (self.old.limit < length self.old.journal + open_count self.old.state.records + 2) }
    {
        let layer_inodes = self.layer_inodes();
        match self.prepare_within(session, namespace, key, parent, labels, layer_inodes) {
            Ok((active, _)) => Ok(active),
            Err(why) => Err(why),
        }
    }

    /// Makes an active snapshot as [`Book::prepare`] does, with a layer of at most `layer_inodes` inodes, and gives the
    /// call's reply beside it.
    pub fn prepare_within(
        &mut self,
        session: u64,
        namespace: &str,
        key: &str,
        parent: &str,
        labels: &Labels,
        layer_inodes: u64,
    ) -> Result<(Active<N>, Reply), Refusal>
        requires { is_layer_limit layer_inodes ≡ true }
        ensures granted { IfOk result (λ p. Recorded self.old self.new session (calls.Prepare namespace.now key.now parent.now labels.now) Nothing (Prepared p.0.share.id p.0.share.slot (ids_of (ancestors p.0.namespace parent.now self.old.state.records)))) }
        // The reply is that of the entry.
        ensures reply { IfOk result (λ p. p.1 ≡ Prepared p.0.share.id p.0.share.slot (ids_of (ancestors p.0.namespace parent.now self.old.state.records))) }
        ensures namespace { IfOk result (λ p. place_of namespace.now self.old.state.namespaces ≡ Some p.0.namespace) }
        ensures key { IfOk result (λ p. p.0.key ≡ key.now) }
        ensures lowers { IfOk result (λ p. p.0.lowers ≡ layers_of (ancestors p.0.namespace parent.now self.old.state.records)) }
        ensures layer { IfOk result (λ p. p.0.layer ≡ fresh layer_inodes p.0.lowers) }
        ensures usage { IfOk result (λ p. p.0.share.usage ≡ one) }
        ensures refused { IfErr result (λ why. RefusedBy self.old self.new session (calls.Prepare namespace.now key.now parent.now labels.now) Nothing why) }
        ensures full { IsErrOf result JournalFull ↔ (self.old.limit < length self.old.journal + open_count self.old.state.records + 2) }
    {
        self.journal.admit(self.accounts.open_slots(), 2)?;
        let call = prepare_call(self.alloc, namespace, key, parent, labels)?;
        let found = self.accounts.vacancy(namespace, key, parent, labels);
        let (reply, lowers) = reply_to(self.alloc, &self.accounts, parent, found)?;
        let (entry, copy) = shared(self.alloc, session, call, Given::Nothing, reply)?;
        let vacancy = match found {
            Ok(vacancy) => vacancy,
            Err(why) => {
                self.accounts.count_entry();
                self.journal.push(entry, copy);
                return Err(why);
            }
        };
        let answer = entry.entry().reply.clone()?;
        let active = Active::add(
            &mut self.accounts,
            self.alloc,
            vacancy,
            key,
            parent,
            labels,
            lowers,
            layer_inodes,
        )?;
        self.journal.push(entry, copy);
        Ok((active, answer))
    }
}
