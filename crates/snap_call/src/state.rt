ghost use Rattle.std.specs.Prelude.{◌≡◌, ◌<◌, ◌+◌, ◌^◌, ◌||◌, count_by, length, true, false, None, Some, IsSome, OnOk, OnErr, IfOk};
ghost use Rattle.snap_call.specs.Forms.{is_config, is_namespace, is_saved_config};
ghost use Rattle.snap_call.specs.Good.{Good};
ghost use Rattle.snap_call.specs.Promised.{Promised};
ghost use Rattle.snap_call.specs.Records.{active_at, committed_as, has_key, has_records, info_page, with_record, without_slot};
ghost use Rattle.snap_call.specs.Saved.{CanPutBack, with_saved};
ghost use Rattle.snap_call.specs.State.{opening, place_of, name_at, limit_at, is_taken, is_taken_at, with_limit, with_namespace, without_namespace};
ghost use Rattle.snap_call.specs.Step.{IsAllowed, step, has_named, leases_after};
ghost use Rattle.snap_call.specs.declared.call.Call.{Call};
ghost use Rattle.snap_call.specs.declared.call.Given.{Given};
ghost use Rattle.snap_call.specs.declared.state.State.{State};
ghost use Rattle.snap_lease.specs.Leases.{has_leases};
ghost use Rattle.snap_record.specs.declared.record.Record.{Record};

use crate::config::{Config, Namespace};
use crate::namespaces::Namespaces;
use crate::records::Records;
use snap_layer::Shared;
use snap_lease::{LeaseError, Leases};
use snap_record::{Content, Filter, Info, Labels, Record, Sequence, Text};
use snap_usage::{Usage, count};
use std::alloc::{AllocError, Global};

/// The state of a store.
#[derive(Drop)]
pub struct State {
    /// The directory that the snapshots' directories lie in.
    pub root: Text,
    pub namespaces: Namespaces,
    /// How many snapshots may be open at one time. No call changes it.
    pub slots: u64,
    pub records: Records,
    pub leases: Leases,
    /// The id of the next snapshot.
    pub next_id: u64,
    /// How many sessions were opened.
    pub sessions: u64,
    /// How many entries were ever recorded.
    pub entries: u64,
    /// The most inodes of each layer that is made. No call changes it.
    pub layer_inodes: u64,
    /// The most committed ancestors of each snapshot. No call changes it.
    pub ancestors: u64,
}

// The record of an active snapshot as it is once it is committed under the name with the layer, by the
// entry of this number: with the labels, or where none are given with its own.
fn committed_as(
    active: &Record,
    name: &Text,
    labels: &Option<Labels>,
    layer: &Shared,
    number: u64,
) -> Result<Record, AllocError>
    ensures { IfOk result (λ r. r ≡ committed_as name.now labels.now layer.now number active.now) }
{
    let usage = count(layer.layer());
    let labels = match labels {
        Some(labels) => labels,
        None => &active.labels,
    };
    Ok(Record {
        namespace: active.namespace,
        key: name.clone()?,
        parent: active.parent.clone()?,
        id: active.id,
        labels: labels.clone()?,
        created: number,
        updated: number,
        content: Content::Committed {
            layer: layer.again()?,
            usage,
        },
    })
}

impl State {
    /// The state of a store that is opened: the parts of the configuration, and no records, leases,
    /// sessions and entries. Takes memory for a look-up of the namespaces; fails only where it is refused.
    pub fn opening(alloc: Global, config: Config) -> Result<State, AllocError>
        ensures opening { IfOk result (λ s. s ≡ opening config) }
        // What is true of it where a store, a saved or a new one, can be opened with the configuration, and
        // what each allowed call keeps.
        ensures good { is_saved_config config ≡ true → Good (opening config) }
        ensures new { is_config config ≡ true → Good (opening config) }
        ensures keeps { (s : State) (call : Call) (given : Given) → Good s → IsAllowed s call given → Good (step s call given).0 }
        ensures promised { (s : State) → Good s → Promised s }
    {
        Ok(State {
            root: config.root,
            namespaces: Namespaces::of(alloc, config.namespaces)?,
            slots: config.slots,
            records: Records::new(alloc),
            leases: Leases::new(alloc),
            next_id: config.first_id as u64,
            sessions: 0,
            entries: 0,
            layer_inodes: config.layer_inodes,
            ancestors: config.ancestors,
        })
    }

    /// The place of the namespace of this name, if the store has it. Takes no memory. The cost grows with
    /// the logarithm of the number of namespaces.
    pub fn place_of(&self, name: &str) -> Option<usize>
        ensures { result ≡ place_of name.now self.now.namespaces }
    {
        self.namespaces.place_of(name)
    }

    /// How many namespaces there are. Takes no memory. It goes over their places.
    pub fn namespace_count(&self) -> usize
        ensures { result ≡ count_by is_taken self.now.namespaces }
    {
        self.namespaces.count()
    }

    /// Whether the namespace at the place, which has this name, has a snapshot or a lease. Takes no memory.
    /// The cost grows with the logarithm of the number of namespaces that have leases.
    pub fn has_content(&self, place: usize, name: &str) -> bool
        ensures { result ≡ (has_records place self.now.records || has_leases self.now.leases name.now) }
    {
        self.records.has_any(place) || self.leases.has_any(name)
    }

    /// Puts a namespace at the first free place. Takes memory for its place and a copy of its name; where
    /// that is refused, nothing changes. It goes over the places.
    pub fn add_namespace(&mut self, namespace: Namespace) -> Result<(), AllocError>
        requires formed { is_namespace namespace ≡ true }
        requires new { place_of namespace.name self.old.namespaces ≡ None }
        ensures ok { OnOk result (self.new ≡ record self.old { namespaces = with_namespace namespace self.old.namespaces }) }
        ensures err { OnErr result (self.new ≡ self.old) }
    {
        self.namespaces.add(namespace)
    }

    /// Takes the namespace at the place away, which is free then. Takes no memory. The cost grows with the
    /// logarithm of the number of namespaces.
    pub fn remove_namespace(&mut self, place: usize)
        requires good { Good self.old }
        requires taken { is_taken_at place self.old.namespaces ≡ true }
        ensures { self.new ≡ record self.old { namespaces = without_namespace place self.old.namespaces } }
    {
        self.namespaces.remove(place);
    }

    /// Puts the namespace, which has another limit, in its place. Takes no memory. The cost is constant.
    pub fn set_limit(&mut self, place: usize, namespace: Namespace)
        requires inside { place < length self.old.namespaces }
        requires same { namespace.name ≡ name_at place self.old.namespaces }
        ensures { self.new ≡ record self.old { namespaces = with_limit place namespace.limit self.old.namespaces } }
    {
        self.namespaces.set_limit(place, namespace);
    }

    /// Whether the namespace at the place has the lease, where one is given. Takes no memory. The cost
    /// grows with the logarithm of the number of leases.
    pub fn has_named(&self, place: usize, lease: &Option<Text>) -> bool
        ensures { result ≡ has_named self.now place lease.now }
    {
        match lease {
            Some(lease) => self.leases.has(self.name_at(place), lease.as_str()),
            None => true,
        }
    }

    /// Names the snapshot in the lease of the namespace at the place, where one is given. Takes memory
    /// for a name that is new; where that is refused, nothing changes. The cost grows with the number of
    /// leases, and with the logarithm of the number of names that the namespace's leases have.
    fn name_in(&mut self, place: usize, name: &str, lease: &Option<Text>) -> Result<(), AllocError>
        requires place { place < length self.old.namespaces }
        requires named { has_named self.old place lease.now ≡ true }
        ensures ok { OnOk result (self.new ≡ record self.old { leases = leases_after self.old place name.now lease.now }) }
        ensures err { OnErr result (self.new ≡ self.old) }
    {
        let Some(lease) = lease else {
            return Ok(());
        };
        let Some(namespace) = self.namespaces.get(place) else {
            unreachable!()
        };
        match self
            .leases
            .add(namespace.name.as_str(), lease.as_str(), name)
        {
            Ok(()) => Ok(()),
            Err(LeaseError::OutOfMemory(no_memory)) => Err(no_memory.into()),
            Err(LeaseError::NoLease | LeaseError::LeaseExists) => unreachable!(),
        }
    }

    /// Makes the active snapshot of a slot a committed one of this name and layer, as the next journal entry
    /// leaves it, with the labels in place of its own, where they are given, and names it in the lease of its
    /// namespace, where one is given. The slot is free then. The entries are not counted.
    ///
    /// Takes memory for a record, with copies of the name, the parent and the labels, for its place, and for a
    /// name that is new to the lease; where that is refused, nothing changes. The cost grows with the logarithms
    /// of the number of records and of the number of leases, and with these texts.
    pub fn commit(
        &mut self,
        slot: u64,
        name: &Text,
        lease: &Option<Text>,
        labels: &Option<Labels>,
        layer: &Shared,
    ) -> Result<(), AllocError>
        requires good { Good self.old }
        requires open { IsSome (active_at slot self.old.records) }
        requires few { length self.old.records + 1 < 2 ^ 64 }
        requires entries { self.old.entries < 2 ^ 63 }
        requires new { (r : Record) → active_at slot self.old.records ≡ Some r → has_key r.namespace name.now self.old.records ≡ false }
        requires named { (r : Record) → active_at slot self.old.records ≡ Some r → has_named self.old r.namespace lease.now ≡ true }
        ensures ok { OnOk result ((r : Record) → active_at slot self.old.records ≡ Some r → self.new ≡ record self.old { records = with_record (committed_as name.now labels.now layer.now (self.old.entries + 1) r) (without_slot slot self.old.records); leases = leases_after self.old r.namespace name.now lease.now }) }
        ensures err { OnErr result (self.new ≡ self.old) }
    {
        let Some(active) = self.records.active_at(slot) else {
            unreachable!()
        };
        let place = active.namespace;
        let committed = committed_as(active, name, labels, layer, self.entries + 1)?;
        let held = self.records.hold(committed)?;
        if let Err((no_memory, _)) = self.records.insert(held) {
            return Err(no_memory.into());
        }
        if let Err(refused) = self.name_in(place, name.as_str(), lease) {
            let _ = self.records.take_key(place, name.as_str());
            return Err(refused);
        }
        let _ = self.records.take_slot(slot);
        Ok(())
    }

    /// Puts the record of a saved snapshot in its place. The next snapshot has the id after its own, and no entry
    /// is counted. Takes memory for its place; where that is refused, nothing changes. The cost grows with the
    /// logarithm of the number of records.
    pub fn put_saved(&mut self, added: Record) -> Result<(), AllocError>
        requires good { Good self.old }
        requires possible { CanPutBack self.old added }
        ensures ok { OnOk result (self.new ≡ with_saved self.old added) }
        ensures good { OnOk result (Good self.new) }
        ensures err { OnErr result (self.new ≡ self.old) }
    {
        let next = added.id as u64 + 1;
        let held = self.records.hold(added)?;
        if let Err((no_memory, _)) = self.records.insert(held) {
            return Err(no_memory.into());
        }
        self.next_id = next;
        Ok(())
    }

    /// The infos of the snapshots of the namespace at the place whose keys come after the text and that have
    /// every part of the filter: the first `most` of them, in the order of their keys. Takes memory for the infos, and
    /// without a name in the filter for copies of the text.
    ///
    /// Where the filter names the key it is one look-up. Else the cost grows with the snapshots of the
    /// namespace that are passed over, also where the filter names the parent, and with the texts and labels
    /// of the infos.
    pub fn page(
        &self,
        alloc: Global,
        place: usize,
        after: &str,
        most: usize,
        asked: &Filter,
    ) -> Result<Sequence<Info>, AllocError>
        requires { Good self.now }
        ensures { IfOk result (λ infos. infos ≡ info_page place after.now most asked.now self.now.records) }
    {
        match &asked.name {
            Some(key) => self
                .records
                .page_at(alloc, place, key.as_str(), after, most, asked),
            None => self.records.page(alloc, place, after, most, asked),
        }
    }

    /// The name of the namespace at the place; no text past the last one. Takes no memory.
    pub fn name_at(&self, place: usize) -> &str
        ensures { result.now ≡ name_at place self.now.namespaces }
    {
        match self.namespaces.get(place) {
            Some(namespace) => namespace.name.as_str(),
            None => "",
        }
    }

    /// The limit of the namespace at the place; 0/0 past the last one. Takes no memory.
    pub fn limit_at(&self, place: usize) -> Usage
        ensures { result ≡ limit_at place self.now.namespaces }
    {
        match self.namespaces.get(place) {
            Some(namespace) => namespace.limit,
            None => Usage::ZERO,
        }
    }
}
