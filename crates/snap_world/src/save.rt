// What is saved of a world.
ghost use Rattle.std.specs.Prelude.{◌≡◌, map, string_bytes, IfOk, IfSome, Ok};
ghost use Rattle.std.specs.List.{AllByRecursion};
ghost use Rattle.snap_book.specs.Round.{roll_answer};
ghost use Rattle.snap_layer.specs.Layers.{IsLayer};
ghost use Rattle.snap_call.specs.Saved.{by_id, saved_content};
ghost use Rattle.snap_world.specs.Held.{held_of, held_snapshot};
ghost use Rattle.snap_world.specs.Restored.{restored, saved_config, saved_lease, saved_world};
ghost use Rattle.snap_world.specs.Round.{reopened};
ghost use Rattle.snap_world.specs.Saved.{IsSoundSnapshot, IsWholeSnapshot, copied_hand, saved_layer, saved_hand, saved_snapshot};
ghost use Rattle.snap_world.specs.World.{Fits};

use crate::restoring::SavedHand;
use crate::world::World;
use snap_call::{Config, Namespace, RecordById, Refusal, Saved, SavedLease, State, saved_of};
use snap_lease::LeaseCopy;
use snap_ledger::StoreName;
use snap_record::{Content, Sequence, Text};
use std::alloc::{AllocError, Global};
use std::marker::Model;

/// A snapshot as it is saved.
#[derive(Debug, Drop)]
pub struct SavedSnapshot {
    /// What is saved of its record.
    pub saved: Saved,
    /// Its hand, where it is active.
    pub hand: Option<SavedHand>,
}

/// A store as it is saved, in plain parts. [`World::restore`] makes a world of such parts again.
#[derive(Drop)]
pub struct SavedWorld {
    /// What its store is opened with: the first id is 1, and some of its namespaces may be places that are free.
    pub config: Config,
    /// The number of its last entry.
    pub entries: u64,
    /// The id of its next snapshot.
    pub next_id: u64,
    /// Its snapshots, in the order of their ids.
    pub snapshots: Vec<SavedSnapshot>,
    /// Its leases, in the order in which they were created.
    pub leases: Vec<SavedLease>,
}

impl Model for SavedWorld {
    ghost use Rattle.snap_world.specs.Restored.{SavedWorldValue};

    ghost Value = { SavedWorldValue };

    ghost view = { λ s. record { config = s.config; entries = s.entries; next_id = s.next_id; snapshots = s.snapshots.items; leases = s.leases.items } };
}

/// A snapshot as it is held for a save.
#[derive(Drop)]
pub struct HeldSnapshot {
    /// Its record as it was.
    pub held: RecordById,
    /// Its hand, where it is active.
    pub hand: Option<SavedHand>,
}

/// A store as it is held for a save: what is saved of it as it was. Contracts see the saved world.
#[derive(Drop)]
pub struct HeldWorld {
    /// As that of a saved one.
    pub config: Config,
    /// The number of its last entry.
    pub entries: u64,
    /// The id of its next snapshot.
    pub next_id: u64,
    /// Its snapshots, in the order of their ids.
    pub snapshots: Vec<HeldSnapshot>,
    /// Its leases, in the order in which they were created.
    pub leases: Vec<SavedLease>,
}

impl Model for HeldWorld {
    ghost use Rattle.std.specs.Prelude.{map};
    ghost use Rattle.snap_world.specs.Held.{held_snapshot};
    ghost use Rattle.snap_world.specs.Restored.{SavedWorldValue};

    ghost Value = { SavedWorldValue };

    ghost view = { λ h. record { config = h.config; entries = h.entries; next_id = h.next_id; snapshots = map (held_snapshot h.config.namespaces) h.snapshots.items; leases = h.leases.items } };
}

// What is saved of snapshots of a store with these namespaces.
fn saved_snapshots(
    alloc: Global,
    namespaces: &[Namespace],
    held: Vec<HeldSnapshot>,
) -> Result<Vec<SavedSnapshot>, AllocError>
    ensures { IfOk result (λ list. list.items ≡ map (held_snapshot namespaces.now) held.items) }
{
    let mut snapshots = Vec::with_capacity(alloc, held.len())?;
    for snapshot in held {
        let saved = saved_of(alloc, namespaces, snapshot.held.record())?;
        let hand = snapshot.hand;
        snapshots.push(SavedSnapshot { saved, hand })?;
    }
    Ok(snapshots)
}

impl HeldWorld {
    // What is saved of it, with copies of its records.
    fn into_saved(self, alloc: Global) -> Result<SavedWorld, AllocError>
        ensures { IfOk result (λ saved. saved ≡ self) }
    {
        let HeldWorld {
            config,
            entries,
            next_id,
            snapshots,
            leases,
        } = self;
        let snapshots = saved_snapshots(alloc, config.namespaces.as_slice(), snapshots)?;
        Ok(SavedWorld {
            config,
            entries,
            next_id,
            snapshots,
            leases,
        })
    }
}

// Copies of the namespaces.
fn namespaces_of(alloc: Global, list: &[Namespace]) -> Result<Sequence<Namespace>, AllocError>
    ensures { IfOk result (λ copies. copies ≡ list.now) }
{
    let mut copies = Vec::with_capacity(alloc, list.len())?;
    for namespace in list {
        copies.push(namespace.clone()?)?;
    }
    Ok(Sequence::from(copies))
}

// What a store of the state is opened with, for a round of at most `journal` entries.
fn saved_config(alloc: Global, state: &State, journal: u64) -> Result<Config, AllocError>
    ensures { IfOk result (λ config. config ≡ saved_config state.now journal) }
{
    Ok(Config {
        root: state.root.clone()?,
        namespaces: namespaces_of(alloc, state.namespaces.as_slice())?,
        slots: state.slots,
        journal,
        first_id: 1,
        layer_inodes: state.layer_inodes,
        ancestors: state.ancestors,
    })
}

fn texts_of(alloc: Global, names: Vec<String>) -> Result<Sequence<Text>, AllocError>
    ensures { IfOk result (λ texts. texts ≡ map string_bytes names.items) }
{
    let mut texts = Vec::with_capacity(alloc, names.len())?;
    for name in names {
        texts.push(Text::from(name))?;
    }
    Ok(Sequence::from(texts))
}

fn saved_lease(alloc: Global, lease: LeaseCopy) -> Result<SavedLease, AllocError>
    ensures { IfOk result (λ saved. saved ≡ saved_lease lease) }
{
    let LeaseCopy {
        namespace,
        name,
        until,
        names,
    } = lease;
    Ok(SavedLease {
        namespace: Text::from(namespace),
        name: Text::from(name),
        until,
        names: texts_of(alloc, names)?,
    })
}

fn saved_leases(alloc: Global, leases: Vec<LeaseCopy>) -> Result<Vec<SavedLease>, AllocError>
    ensures { IfOk result (λ saved. saved.items ≡ map saved_lease leases.items) }
{
    let mut saved = Vec::with_capacity(alloc, leases.len())?;
    for lease in leases {
        saved.push(saved_lease(alloc, lease)?)?;
    }
    Ok(saved)
}

impl<N: StoreName> World<N> {
    // The hand of the slot, if there is one.
    fn copied_hand(&self, slot: u64) -> Result<Option<SavedHand>, AllocError>
        ensures hand { IfOk result (λ hand. hand ≡ copied_hand slot self.now.hands) }
        ensures layer { IfOk result (λ hand. IfSome hand (λ h. IsLayer h.layer)) }
    {
        let Some(hand) = self.hands.get(slot) else {
            return Ok(None);
        };
        let layer = hand.layer().copy()?;
        Ok(Some(SavedHand {
            layer,
            sealed: hand.is_sealed(),
        }))
    }

    // The hand of a snapshot, where it is active.
    fn held_hand(&self, content: &Content) -> Result<Option<SavedHand>, AllocError>
        ensures hand { IfOk result (λ hand. hand ≡ saved_hand (saved_content content.now) self.now.hands) }
        ensures layer { IfOk result (λ hand. IfSome (saved_layer (saved_content content.now) hand) IsLayer) }
    {
        match content {
            Content::View { layers: _ } => Ok(None),
            Content::Active { slot, charged: _ } => self.copied_hand(*slot),
            Content::Committed { layer, usage: _ } => {
                // It is a layer.
                let _ = layer.layer();
                Ok(None)
            }
        }
    }

    // With its record.
    fn held_snapshot(&self, held: RecordById) -> Result<HeldSnapshot, AllocError>
        ensures snapshot { IfOk result (λ snapshot. snapshot ≡ held_of self.now.hands held) }
        ensures sound { IfOk result (λ snapshot. IsSoundSnapshot (held_snapshot self.now.state.namespaces snapshot)) }
    {
        let hand = self.held_hand(&held.record().content)?;
        // Their keys are distinct.
        let _ = held.record().labels.len();
        Ok(HeldSnapshot { held, hand })
    }

    // The snapshots, in the order of their ids: each comes after its parent.
    fn held_snapshots(&self, alloc: Global) -> Result<Vec<HeldSnapshot>, AllocError>
        ensures snapshots { IfOk result (λ list. list.items ≡ map (held_of self.now.hands) (by_id self.now.state.next_id self.now.state.records)) }
        ensures sound { IfOk result (λ list. AllByRecursion (λ s. IsSoundSnapshot (held_snapshot self.now.state.namespaces s)) list.items) }
    {
        let records = self.book.state().by_id(alloc)?;
        let mut snapshots = Vec::with_capacity(alloc, records.len())?;
        for record in records {
            snapshots.push(self.held_snapshot(record)?)?;
        }
        Ok(snapshots)
    }

    /// How many entries the round may have. Takes no memory. The cost is constant.
    pub fn most_entries(&self) -> u64
        ensures { result ≡ self.now.limit }
    {
        self.book.most_entries()
    }

    /// Whether a saved world can be restored: the refusal of a [`World::roll`] to as many entries as the round may have.
    /// Takes no memory. The cost is constant.
    pub fn test_save(&self) -> Result<(), Refusal>
        ensures { result ≡ roll_answer self.now.state self.now.limit }
    {
        self.book.test_roll(self.most_entries())
    }

    /// What is saved of it, held as it is now, whatever calls come: [`World::save`] with its records shared. Those of active
    /// snapshots are copied, and their layers. Its entries and its sessions aren't saved.
    ///
    /// Takes memory for the lists, for these copies, and for copies of the leases; fails only where it is refused. The cost
    /// grows with the number of records times its logarithm, with these copies, and with the leases and their names.
    pub fn hold(&self, alloc: Global) -> Result<HeldWorld, AllocError>
        ensures saved { IfOk result (λ held. held ≡ saved_world self.now) }
        ensures whole { IfOk result (λ held. AllByRecursion IsWholeSnapshot held.snapshots) }
        // To save and to restore is a roll to as many entries, where that isn't refused: all stays but the entries of the
        // round and its sessions.
        ensures back { IfOk result (λ held. roll_answer self.now.state self.now.limit ≡ Ok tt → restored held ≡ Ok (reopened self.now self.now.limit)) }
    {
        let state = self.book.state();
        Ok(HeldWorld {
            config: saved_config(alloc, state, self.most_entries())?,
            entries: state.entries,
            next_id: state.next_id,
            snapshots: self.held_snapshots(alloc)?,
            leases: saved_leases(alloc, state.leases.copies()?)?,
        })
    }

    /// What is saved of it. The layers of committed snapshots are shared, and those of open ones copied. Its entries
    /// and its sessions aren't saved.
    ///
    /// Memory and cost are those of [`World::hold`], and for copies of all records' texts and labels.
    pub fn save(&self, alloc: Global) -> Result<SavedWorld, AllocError>
        ensures saved { IfOk result (λ saved. saved ≡ saved_world self.now) }
        ensures whole { IfOk result (λ saved. AllByRecursion IsWholeSnapshot saved.snapshots) }
        ensures back { IfOk result (λ saved. roll_answer self.now.state self.now.limit ≡ Ok tt → restored saved ≡ Ok (reopened self.now self.now.limit)) }
    {
        self.hold(alloc)?.into_saved(alloc)
    }
}
