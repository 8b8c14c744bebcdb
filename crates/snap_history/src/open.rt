// What the open snapshots of all namespaces are charged, in one state.
ghost use Rattle.std.specs.Prelude.{◌≡◌, ◌≤◌, IfOk, length, map, option_copied};
ghost use Rattle.std.specs.Option.{option_map};
ghost use Rattle.std.specs.Vec.{vec_capacity};
ghost use Rattle.snap_history.specs.Open.{open_share, open_shares, share_for};

use crate::shares::Shares;
use snap_call::Records;
use snap_record::Record;
use snap_usage::Usage;
use std::alloc::{AllocError, Global};
use std::marker::Model;

/// What an open snapshot is charged, and the place of its namespace among those of the store, from 0.
#[derive(Clone, Copy)]
pub(crate) struct OpenShare {
    pub(crate) namespace: usize,
    pub(crate) charged: Usage,
}

/// What the open snapshots of a state are charged, in a place for each slot of the store. A journal keeps those of
/// the state that its round began at: entries tell what a charge becomes, and not what it was before.
///
/// Contracts see the list of the places.
#[derive(Drop)]
pub struct OpenShares {
    list: Vec<Option<OpenShare>>,
}

impl Model for OpenShares {
    ghost use Rattle.std.specs.Prelude.{◌≤◌, List, Option, length};
    ghost use Rattle.std.specs.Vec.{vec_capacity};
    ghost use Rattle.snap_history.specs.declared.open.OpenShare.{OpenShare};

    ghost Value = { List (Option OpenShare) };

    ghost view = { λ s. s.list.items };

    ghost invariant = { λ s. length s.list.items ≤ vec_capacity s.list };
}

fn open_share(found: Option<&Record>) -> Option<OpenShare>
    ensures { result ≡ option_map open_share (option_copied found.entry) }
{
    match found {
        Some(record) => Some(OpenShare {
            namespace: record.namespace,
            charged: record.content.usage(),
        }),
        None => None,
    }
}

// The shares of the open ones among the records take the place of what is in the list. It takes no memory.
fn fill(list: &mut Vec<Option<OpenShare>>, slots: u64, records: &Records)
    requires { slots ≤ vec_capacity list.old }
    ensures items { list.new.items ≡ open_shares slots records.now }
    ensures room { vec_capacity list.new ≡ vec_capacity list.old }
{
    list.clear();
    for slot in 0..slots {
        list.push_reserved(open_share(records.active_at(slot)));
    }
}

// What is left of it for the namespace at a place.
fn share_for(place: usize, share: &Option<OpenShare>) -> Option<Usage>
    ensures { result ≡ share_for place share.now }
{
    match share {
        Some(share) if share.namespace == place => Some(share.charged),
        _ => None,
    }
}

// What is left of each.
fn those_of(
    alloc: Global,
    place: usize,
    shares: &[Option<OpenShare>],
) -> Result<Vec<Option<Usage>>, AllocError>
    ensures { IfOk result (λ list. list.items ≡ map (share_for place) shares.now) }
{
    let mut list = Vec::with_capacity(alloc, shares.len())?;
    for share in shares {
        list.push(share_for(place, share))?;
    }
    Ok(list)
}

impl OpenShares {
    /// Those of the open ones among the records, in a store with `slots` slots. Takes memory for a place for each. The
    /// cost grows with the number of slots and the logarithm of the number of records.
    pub fn of(alloc: Global, slots: u64, records: &Records) -> Result<OpenShares, AllocError>
        ensures { IfOk result (λ shares. shares ≡ open_shares slots records.now) }
    {
        let mut list = Vec::with_capacity(alloc, slots as usize)?;
        fill(&mut list, slots, records);
        Ok(OpenShares { list })
    }

    /// Those of other records take their place, of as many slots. Takes no memory. The cost grows with the number of
    /// slots and the logarithm of the number of records.
    pub fn set(&mut self, records: &Records)
        ensures { self.new ≡ open_shares (length self.old) records.now }
    {
        let slots = self.list.len() as u64;
        fill(&mut self.list, slots, records);
    }

    /// Those of the namespace at a place. Takes memory for a place for each
    /// slot.
    pub fn of_namespace(&self, alloc: Global, place: usize) -> Result<Shares, AllocError>
        ensures { IfOk result (λ shares. shares ≡ map (share_for place) self.now) }
    {
        let list = those_of(alloc, place, &self.list)?;
        Ok(Shares { list })
    }
}
