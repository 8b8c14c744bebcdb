// What a plain call answers, and what it changes.
ghost use Rattle.std.specs.Prelude.{◌≡◌, ◌<◌, ◌^◌, ◌+◌, IfOk, IfErr, IsOk, OnOk, OnErr, Some, true};
ghost use Rattle.snap_layer.specs.Edits.{root_only};
ghost use Rattle.std.specs.Option.{option_map_or};
ghost use Rattle.snap_usage.specs.Counted.{no_usage};
ghost use Rattle.snap_record.specs.Labels.{are_labels};
ghost use Rattle.snap_record.specs.Records.{info_of, usage_of};
ghost use Rattle.snap_call.specs.Records.{is_active, open_count, record_at, unlabelled, with_labels};
ghost use Rattle.snap_record.specs.declared.record.Record.{Record};
ghost use Rattle.snap_call.specs.State.{or_empty};
ghost use Rattle.snap_call.specs.Step.{added, refused, relabelled_at, removed_at, step, update_record, prepare_view, viewed};
ghost use Rattle.snap_call.specs.Steps.{remove, update};
ghost use Rattle.snap_call.specs.declared.call.Given.TheVariants.{Nothing};
ghost use Rattle.snap_call.specs.declared.reply.Reply.TheVariants as replies;
ghost use Rattle.snap_call.specs.declared.state.State.{State};
ghost use Rattle.snap_accounts.specs.Changes.{CanChange, IsNewView, IsUnused, changed_state, wants_none};
ghost use Rattle.snap_accounts.specs.Entries.{IsAsk, IsPlain, IsInEntry, IsRecorded};
ghost use Rattle.snap_accounts.specs.Vacant.{IsSite};

use crate::accounts::Accounts;
use snap_call::limits::MAX_ID;
use snap_call::{Call, Chain, HeldRecord, Namespace, Refusal, Removed, Reply, is_key, unlabelled};
use snap_layer::{Layer, Meta, Shared};
use snap_ledger::StoreName;
use snap_path::limits::DEFAULT_MODE;
use snap_record::{
    Content, Info, Labels, LabelsError, Record, Sequence, Text, is_well_formed, updated_labels,
};
use snap_usage::{Usage, difference};
use std::alloc::{AllocError, Global};

/// What a plain call changes beside the journal.
#[derive(Drop)]
pub enum Change {
    Nothing,
    /// One more view.
    View(Record),
    /// The snapshot that has this key in the namespace at this place goes.
    Removal {
        place: usize,
        key: Text,
    },
    /// Other labels of the snapshot that has this key in the namespace at this place, and a copy of it without labels.
    Labels {
        place: usize,
        key: Text,
        labels: Labels,
        copy: Box<Record>,
    },
    /// One more namespace.
    Space(Namespace),
    /// The namespace at this place goes, which has no snapshot and no lease.
    SpaceEnd {
        place: usize,
    },
    /// The namespace at this place, with another limit.
    Limit {
        place: usize,
        namespace: Namespace,
    },
    /// One more lease, which names nothing.
    Lease {
        namespace: Text,
        lease: Text,
        until: Option<u64>,
    },
    /// One more name in a lease.
    LeaseName {
        namespace: Text,
        lease: Text,
        name: Text,
    },
    /// One name fewer in a lease.
    LeaseNameEnd {
        namespace: Text,
        lease: Text,
        name: Text,
    },
    /// A lease goes, with its names.
    LeaseEnd {
        namespace: Text,
        lease: Text,
    },
    /// A sweep, at a moment, of the namespace at this place: the snapshots of these keys go, which are charged `freed`,
    /// and so do the namespace's leases that have ended.
    Sweep {
        place: usize,
        namespace: Text,
        moment: u64,
        keys: Sequence<Text>,
        freed: Usage,
    },
}

// The most records that the change takes away.
fn removals(change: &Change) -> usize
    ensures { (s : State) → wants_none s change.now ≡ true → result ≡ 0 }
{
    match change {
        Change::Removal { .. } => 1,
        Change::Sweep { keys, .. } => keys.len(),
        Change::Nothing
        | Change::View(_)
        | Change::Labels { .. }
        | Change::Space(_)
        | Change::SpaceEnd { .. }
        | Change::Limit { .. }
        | Change::Lease { .. }
        | Change::LeaseName { .. }
        | Change::LeaseNameEnd { .. }
        | Change::LeaseEnd { .. } => 0,
    }
}

// An empty layer.
fn empty_layer(alloc: Global) -> Result<Shared, AllocError>
    ensures { IfOk result (λ layer. layer ≡ root_only (record { mode = 493 }) 1) }
{
    let meta = Meta { mode: DEFAULT_MODE };
    match Shared::new(Layer::empty(alloc, meta)?) {
        Ok(layer) => Ok(layer),
        Err((no_memory, _)) => Err(no_memory.into()),
    }
}

// The layers that a view shows whose ancestors have these.
pub(crate) fn or_empty(
    alloc: Global,
    mut layers: Sequence<Shared>,
) -> Result<Sequence<Shared>, AllocError>
    ensures { IfOk result (λ shown. shown ≡ or_empty layers) }
{
    if layers.is_empty() {
        layers.push(empty_layer(alloc)?)?;
    }
    Ok(layers)
}

// Whether the snapshot is an active one.
fn is_active(snapshot: &Record) -> bool
    ensures { result ≡ is_active snapshot.now.content }
{
    match &snapshot.content {
        Content::View { .. } => false,
        Content::Active { .. } => true,
        Content::Committed { .. } => false,
    }
}

// What the snapshot that was taken away was charged; 0/0 where there was none.
fn freed_by(taken: &Option<HeldRecord>) -> Usage
    ensures { result ≡ option_map_or (λ r. usage_of r.content) taken.now no_usage }
{
    match taken {
        Some(held) => held.record().content.usage(),
        None => Usage::ZERO,
    }
}

// The info of the snapshot once it has these labels, by the entry of this number.
fn info_with(snapshot: &Record, labels: &Labels, number: u64) -> Result<Info, AllocError>
    ensures { IfOk result (λ info. info ≡ info_of (with_labels labels.now number snapshot.now)) }
{
    Ok(Info {
        kind: snapshot.content.kind(),
        name: snapshot.key.clone()?,
        parent: snapshot.parent.clone()?,
        labels: labels.clone()?,
        created: snapshot.created,
        updated: number,
        id: snapshot.id,
    })
}

impl<N: StoreName> Accounts<N> {
    // The place of a new view, or the first refusal.
    fn view_place(
        &self,
        namespace: &str,
        key: &str,
        parent: &str,
        labels: &Labels,
    ) -> Result<usize, Refusal>
        ensures ok { IfOk result (λ place. prepare_view self.now namespace.now key.now parent.now labels.now ≡ viewed self.now place key.now parent.now labels.now) }
        ensures site { IfOk result (λ place. IsSite self.now place key.now parent.now labels.now) }
        ensures recorded { IfErr result IsRecorded }
        ensures refused { IfErr result (λ why. prepare_view self.now namespace.now key.now parent.now labels.now ≡ refused self.now why) }
    {
        let place = self.place_for(namespace, key, parent, labels)?;
        if self.state.next_id > MAX_ID {
            return Err(Refusal::NumbersSpent);
        }
        Ok(place)
    }

    // The view that goes there, and the reply with its id and the ids of its ancestors.
    fn view_at(
        &self,
        alloc: Global,
        place: usize,
        key: &str,
        parent: &str,
        labels: &Labels,
    ) -> Result<(Reply, Change), AllocError>
        requires site { IsSite self.now place key.now parent.now labels.now }
        requires entries { self.now.entries < 2 ^ 63 }
        ensures reply { IfOk result (λ p. viewed self.now place key.now parent.now labels.now ≡ (changed_state self.now p.1, p.0)) }
        ensures recorded { IfOk result (λ p. IsInEntry p.0) }
        ensures possible { IfOk result (λ p. CanChange self.now p.1) }
    {
        let Chain { ids, layers } = self.state.records.chain(alloc, place, parent)?;
        let shown = or_empty(alloc, layers)?;
        let content = Content::View { layers: shown };
        let snapshot = self.new_record(alloc, place, key, parent, labels, content)?;
        let reply = Reply::Viewed {
            id: snapshot.id,
            chain: ids,
        };
        Ok((reply, Change::View(snapshot)))
    }

    // A view, or why there is none.
    fn plan_view(
        &self,
        alloc: Global,
        namespace: &Text,
        key: &Text,
        parent: &Text,
        labels: &Labels,
    ) -> Result<(Reply, Change), AllocError>
        requires entries { self.now.entries < 2 ^ 63 }
        ensures reply { IfOk result (λ p. prepare_view self.now namespace.now key.now parent.now labels.now ≡ (changed_state self.now p.1, p.0)) }
        ensures recorded { IfOk result (λ p. IsInEntry p.0) }
        ensures possible { IfOk result (λ p. CanChange self.now p.1) }
    {
        let (namespace, key, parent) = (namespace.as_str(), key.as_str(), parent.as_str());
        match self.view_place(namespace, key, parent, labels) {
            Ok(place) => self.view_at(alloc, place, key, parent, labels),
            Err(why) => Ok((Reply::Refused(why), Change::Nothing)),
        }
    }

    // The place of a snapshot that can go, and what it is charged, or why it stays.
    fn removal(&self, namespace: &str, key: &str) -> Result<(usize, Usage), Refusal>
        ensures ok { IfOk result (λ p. remove self.now namespace.now key.now ≡ (removed_at self.now p.0 key.now, replies.Removed p.1)) }
        ensures unused { IfOk result (λ p. IsUnused self.now p.0 key.now) }
        ensures recorded { IfErr result IsRecorded }
        ensures refused { IfErr result (λ why. remove self.now namespace.now key.now ≡ refused self.now why) }
    {
        if !is_key(key) {
            return Err(Refusal::BadArgument);
        }
        let state = self.state();
        let Some(place) = state.place_of(namespace) else {
            return Err(Refusal::NoNamespace);
        };
        let Some(snapshot) = state.records.record_at(place, key) else {
            return Err(Refusal::NotFound);
        };
        if state.records.has_children(place, key) {
            return Err(Refusal::HasChildren);
        }
        if is_active(snapshot) {
            return Err(Refusal::InUse);
        }
        if state.leases.holds(namespace, key) {
            return Err(Refusal::Leased);
        }
        Ok((place, snapshot.content.usage()))
    }

    // One snapshot fewer, and the reply with what it was charged, or why it stays.
    fn plan_removal(&self, namespace: &str, key: &Text) -> Result<(Reply, Change), AllocError>
        ensures reply { IfOk result (λ p. remove self.now namespace.now key.now ≡ (changed_state self.now p.1, p.0)) }
        ensures recorded { IfOk result (λ p. IsInEntry p.0) }
        ensures possible { IfOk result (λ p. CanChange self.now p.1) }
    {
        match self.removal(namespace, key.as_str()) {
            Ok((place, freed)) => {
                let key = key.clone()?;
                Ok((Reply::Removed(freed), Change::Removal { place, key }))
            }
            Err(why) => Ok((Reply::Refused(why), Change::Nothing)),
        }
    }

    // The labels of the snapshot after an update, and the reply with its info, or why there are none.
    fn update_at(
        &self,
        alloc: Global,
        place: usize,
        key: &Text,
        snapshot: &Record,
        given: &Labels,
        paths: &[Text],
    ) -> Result<(Reply, Change), AllocError>
        requires own { are_labels snapshot.now.labels ≡ true }
        requires found { record_at place key.now self.now.records ≡ Some snapshot.now }
        requires entries { self.now.entries < 2 ^ 63 }
        ensures reply { IfOk result (λ p. update_record self.now key.now given.now paths.now place snapshot.now ≡ (changed_state self.now p.1, p.0)) }
        ensures recorded { IfOk result (λ p. IsInEntry p.0) }
        ensures possible { IfOk result (λ p. CanChange self.now p.1) }
    {
        let labels = match updated_labels(&snapshot.labels, given, paths) {
            Ok(labels) => labels,
            Err(LabelsError::BadLabels) => {
                return Ok((Reply::Refused(Refusal::BadArgument), Change::Nothing));
            }
            Err(LabelsError::OutOfMemory(no_memory)) => return Err(no_memory.into()),
        };
        let info = info_with(snapshot, &labels, self.state.entries + 1)?;
        let key = key.clone()?;
        let copy = unlabelled(alloc, snapshot)?;
        let change = Change::Labels {
            place,
            key,
            labels,
            copy,
        };
        Ok((Reply::Info(info), change))
    }

    // Other labels of a snapshot, or why there are none.
    fn plan_update(
        &self,
        alloc: Global,
        namespace: &str,
        key: &Text,
        given: &Labels,
        paths: &[Text],
    ) -> Result<(Reply, Change), AllocError>
        requires entries { self.now.entries < 2 ^ 63 }
        ensures reply { IfOk result (λ p. update self.now namespace.now key.now given.now paths.now ≡ (changed_state self.now p.1, p.0)) }
        ensures recorded { IfOk result (λ p. IsInEntry p.0) }
        ensures possible { IfOk result (λ p. CanChange self.now p.1) }
    {
        if !(is_key(key.as_str()) && is_well_formed(given, paths)) {
            return Ok((Reply::Refused(Refusal::BadArgument), Change::Nothing));
        }
        let Some(place) = self.state.place_of(namespace) else {
            return Ok((Reply::Refused(Refusal::NoNamespace), Change::Nothing));
        };
        match self.state.records.record_at(place, key.as_str()) {
            Some(snapshot) => self.update_at(alloc, place, key, snapshot, given, paths),
            None => Ok((Reply::Refused(Refusal::NotFound), Change::Nothing)),
        }
    }

    // The reply to a call that changes nothing.
    fn plan_ask(&self, alloc: Global, call: &Call) -> Result<(Reply, Change), AllocError>
        requires ask { IsAsk call.now }
        ensures reply { IfOk result (λ p. step self.now call.now Nothing ≡ (changed_state self.now p.1, p.0)) }
        ensures recorded { IfOk result (λ p. IsInEntry p.0) }
        ensures possible { IfOk result (λ p. CanChange self.now p.1) }
    {
        let reply = match call {
            Call::Stat { namespace, key } => self.stat(namespace.as_str(), key.as_str())?,
            Call::Usage { namespace, key } => self.usage(namespace.as_str(), key.as_str()),
            Call::Mounts { namespace, key } => {
                self.mounts(alloc, namespace.as_str(), key.as_str())?
            }
            Call::Walk {
                namespace,
                after,
                most,
                asked,
            } => self.walk(alloc, namespace.as_str(), after.as_str(), *most, asked)?,
            Call::Session
            | Call::Prepare { .. }
            | Call::Charge { .. }
            | Call::Trim { .. }
            | Call::Commit { .. }
            | Call::Discard { .. }
            | Call::View { .. }
            | Call::Remove { .. }
            | Call::Update { .. }
            | Call::NamespaceCreate { .. }
            | Call::NamespaceRemove { .. }
            | Call::SetLimit { .. }
            | Call::LeaseCreate { .. }
            | Call::LeaseAdd { .. }
            | Call::LeaseDrop { .. }
            | Call::LeaseRelease { .. }
            | Call::Sweep { .. } => unreachable!(),
        };
        Ok((reply, Change::Nothing))
    }

    /// The reply to a plain call, and what the call changes, which [`Accounts::carry_out`] does.
    ///
    /// `Stat` has the info of a snapshot, `Usage` what it is charged, in blocks of 4096 bytes and
    /// inodes, `Mounts` the mounts that show it, `View` the id of the new view and those of its
    /// ancestors, `Remove` what the snapshot was charged, `Update` the info with the labels after it,
    /// `Walk` a page of infos, `Sweep` what goes; a namespace, a limit and a lease are just set. The refusals are those
    /// of [`snap_call`]'s `step`, in its order. Takes memory for the reply and the change. The cost grows with the
    /// logarithm of the number of records and with the texts and labels of those that are found; that of mounts and of
    /// a view with that logarithm times the ancestors, that of a walk with the records that it passes over, that of a
    /// removal with the logarithm of the number of names in leases too, that of a call on a lease with the logarithm of
    /// the number of leases, that of making a namespace with the places of the namespaces, each with the logarithm of
    /// the number of these, and that of a sweep is that of [`plan_sweep`](snap_call::State::plan_sweep).
    pub fn plan(&self, alloc: Global, call: &Call) -> Result<(Reply, Change), AllocError>
        requires plain { IsPlain call.now }
        requires entries { self.now.entries < 2 ^ 63 }
        ensures reply { IfOk result (λ p. step self.now call.now Nothing ≡ (changed_state self.now p.1, p.0)) }
        ensures recorded { IfOk result (λ p. IsInEntry p.0) }
        ensures possible { IfOk result (λ p. CanChange self.now p.1) }
    {
        match call {
            Call::View {
                namespace,
                key,
                parent,
                labels,
            } => self.plan_view(alloc, namespace, key, parent, labels),
            Call::Remove { namespace, key } => self.plan_removal(namespace.as_str(), key),
            Call::Update {
                namespace,
                key,
                labels,
                paths,
            } => self.plan_update(alloc, namespace.as_str(), key, labels, paths.as_slice()),
            Call::NamespaceCreate { namespace, limit } => self.plan_namespace(namespace, *limit),
            Call::NamespaceRemove { namespace } => self.plan_namespace_end(namespace.as_str()),
            Call::SetLimit { namespace, limit } => self.plan_limit(namespace, *limit),
            Call::LeaseCreate {
                namespace,
                lease,
                until,
            } => self.plan_lease(namespace, lease, *until),
            Call::LeaseAdd {
                namespace,
                lease,
                name,
            } => self.plan_lease_name(namespace, lease, name),
            Call::LeaseDrop {
                namespace,
                lease,
                name,
            } => self.plan_lease_name_end(namespace, lease, name),
            Call::LeaseRelease { namespace, lease } => self.plan_lease_end(namespace, lease),
            Call::Sweep { namespace, moment } => self.plan_sweep(alloc, namespace, *moment),
            Call::Stat { .. } | Call::Usage { .. } | Call::Mounts { .. } | Call::Walk { .. } => {
                self.plan_ask(alloc, call)
            }
            Call::Session
            | Call::Prepare { .. }
            | Call::Charge { .. }
            | Call::Trim { .. }
            | Call::Commit { .. }
            | Call::Discard { .. } => unreachable!(),
        }
    }

    // The record of a view is one more.
    fn add_view(&mut self, snapshot: Record) -> Result<(), AllocError>
        requires possible { IsNewView self.old snapshot }
        requires entries { self.old.entries < 2 ^ 63 }
        ensures done { OnOk result (self.new ≡ added self.old snapshot) }
        ensures open { OnOk result (open_count self.new.records ≡ open_count self.old.records) }
        ensures err { OnErr result (self.new ≡ self.old) }
    {
        let held = self.state.records.hold(snapshot)?;
        if let Err((no_memory, _)) = self.state.records.insert(held) {
            return Err(no_memory.into());
        }
        self.state.next_id += 1;
        self.state.entries += 1;
        Ok(())
    }

    // The snapshot of the key goes to `removed`, and its namespace is no longer charged for it.
    fn remove(&mut self, place: usize, key: &str, removed: &mut Removed)
        requires possible { IsUnused self.old place key.now }
        requires entries { self.old.entries < 2 ^ 63 }
        ensures done { self.new ≡ removed_at self.old place key.now }
        ensures open { open_count self.new.records ≡ open_count self.old.records }
    {
        let total = self.total(place);
        let taken = self.state.records.take_key(place, key);
        let rest = difference(total, freed_by(&taken));
        removed.keep(taken);
        self.totals.set(place, rest);
        self.state.entries += 1;
    }

    // The snapshot of the key gets these labels.
    fn relabel(&mut self, place: usize, key: &str, labels: Labels, copy: Box<Record>)
        requires copied { (r : Record) → record_at place key.now self.old.records ≡ Some r → copy.value ≡ unlabelled r }
        requires formed { are_labels labels ≡ true }
        requires entries { self.old.entries < 2 ^ 63 }
        ensures done { self.new ≡ relabelled_at self.old place key.now labels }
        ensures open { open_count self.new.records ≡ open_count self.old.records }
    {
        let number = self.state.entries + 1;
        self.state.records.relabel(place, key, labels, number, copy);
        self.state.entries = number;
    }

    /// Makes the change, and counts an entry. The answer has the records that it took away, which the caller lets go.
    ///
    /// Takes memory for the place of a view, for a lease, for a name that is new to its lease, and for a list of the
    /// records that it takes away, and else none; where that is refused, nothing changes. The cost grows with the logarithm
    /// of the number of records; that of a call on a lease with the logarithms of the number of leases and of the
    /// number of names that the namespace's leases have, for a release once for each name of the lease, and for the drop
    /// of a name also with the number of the lease's names; that of a sweep with the leases and their names, for each
    /// ended lease with the logarithm of the number of leases, and with the records times the logarithm of their number.
    pub fn carry_out(&mut self, alloc: Global, change: Change) -> Result<Removed, AllocError>
        requires possible { CanChange self.old change }
        requires entries { self.old.entries < 2 ^ 63 }
        ensures done { OnOk result (self.new ≡ changed_state self.old change) }
        ensures open { OnOk result (open_count self.new.records ≡ open_count self.old.records) }

        // Which changes are never refused memory.
        ensures sure { wants_none self.old change ≡ true → IsOk result }
        ensures err { OnErr result (self.new ≡ self.old) }
    {
        let mut removed = Removed::with_room(alloc, removals(&change))?;
        match change {
            Change::Nothing => self.count_entry(),
            Change::View(snapshot) => self.add_view(snapshot)?,
            Change::Removal { place, key } => self.remove(place, key.as_str(), &mut removed),
            Change::Labels {
                place,
                key,
                labels,
                copy,
            } => self.relabel(place, key.as_str(), labels, copy),
            Change::Space(namespace) => self.add_namespace(namespace)?,
            Change::SpaceEnd { place } => self.end_namespace(place),
            Change::Limit { place, namespace } => self.limit(place, namespace),
            Change::Lease {
                namespace,
                lease,
                until,
            } => self.add_lease(namespace.as_str(), lease.as_str(), until)?,
            Change::LeaseName {
                namespace,
                lease,
                name,
            } => self.add_lease_name(namespace.as_str(), lease.as_str(), name.as_str())?,
            Change::LeaseNameEnd {
                namespace,
                lease,
                name,
            } => self.end_lease_name(namespace.as_str(), lease.as_str(), name.as_str()),
            Change::LeaseEnd { namespace, lease } => {
                self.end_lease(namespace.as_str(), lease.as_str());
            }
            Change::Sweep {
                place,
                namespace,
                moment,
                keys,
                freed,
            } => self.sweep(
                place,
                namespace.as_str(),
                moment,
                keys.as_slice(),
                freed,
                &mut removed,
            ),
        }
        Ok(removed)
    }
}
