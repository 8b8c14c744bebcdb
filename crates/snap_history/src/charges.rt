ghost use Rattle.std.specs.Prelude.{◌≡◌, ◌-◌, ◌+◌, ◌≤◌, ◌<◌, ◌^◌, IfOk, IfSome, length};
ghost use Rattle.snap_call.specs.Good.{Good};
ghost use Rattle.snap_call.specs.Journal.{Replays};
ghost use Rattle.snap_call.specs.declared.state.State.{State};
ghost use Rattle.snap_history.specs.Changes.{changes_of, charge_before, entry_infos_of};
ghost use Rattle.snap_history.specs.History.{entries_from, history, history_page, history_since, last_made, makes_by, namespace_charge};
ghost use Rattle.snap_history.specs.Open.{namespace_shares};

use crate::change::{Change, turned};
use crate::info::{EntryInfo, entry_info};
use crate::shares::Shares;
use snap_call::{Call, Entry, Reply, SharedEntry};
use snap_record::Sequence;
use snap_usage::Usage;
use std::alloc::{AllocError, Global};

// The changes of the entries, from the shares before them.
fn changes(
    alloc: Global,
    entries: &[SharedEntry],
    name: &str,
    held: &Shares,
) -> Result<Vec<Change>, AllocError>
    ensures { IfOk result (λ changes. changes.items ≡ changes_of name.now held.now entries.now) }
{
    let mut shares = held.again(alloc)?;
    let mut changes = Vec::new(alloc);
    for entry in entries {
        let entry = entry.entry();
        changes.push(shares.change_of(name, entry))?;
        shares.follow(name, entry);
    }
    Ok(changes)
}

// The charge before these changes, from the one after them.
fn charge_before(now: Usage, changes: &[Change]) -> Usage
    ensures { result ≡ charge_before now changes.now }
{
    let mut charge = now;
    let mut left = changes.len();
    while left > 0 {
        left -= 1;
        let change = changes[left];
        charge = turned(charge, change.left, change.found);
    }
    charge
}

// The entries of the namespace that have a number greater than `after`, at most `most`, from the shares and the charge
// before all entries; the first entry has the number after `before`.
fn infos(
    alloc: Global,
    entries: &[SharedEntry],
    before: u64,
    name: &str,
    held: &Shares,
    opening: Usage,
    after: u64,
    most: usize,
) -> Result<Sequence<EntryInfo>, AllocError>
    requires { before + length entries.now < 2 ^ 64 }
    ensures { IfOk result (λ infos. infos ≡ history_page after most (entry_infos_of name.now before held.now opening entries.now)) }
{
    let mut shares = held.again(alloc)?;
    let mut infos = Sequence::new(alloc);
    let mut charge = opening;
    let mut number = before;
    for entry in entries {
        let entry = entry.entry();
        number += 1;
        let change = shares.change_of(name, entry);
        charge = turned(charge, change.found, change.left);
        if shares.is_own(name, &entry.call) && after < number && infos.len() < most {
            infos.push(entry_info(number, entry, Some(charge))?)?;
        }
        shares.follow(name, entry);
    }
    Ok(infos)
}

// Those of the namespace of this name, from the shares before them.
fn told(
    alloc: Global,
    entries: &[SharedEntry],
    last: u64,
    name: &str,
    held: &Shares,
    now: Usage,
    after: u64,
    most: usize,
) -> Result<Sequence<EntryInfo>, AllocError>
    requires { length entries.now ≤ last }
    ensures { IfOk result (λ infos. (s t : State) → Good s → held.now ≡ namespace_shares name.now s → Replays s entries.now t
        → t.entries ≡ last → namespace_charge name.now t ≡ now → infos ≡ history_page after most (history name.now s entries.now)) }
{
    let before = last - entries.len() as u64;
    let changes = changes(alloc, entries, name, held)?;
    let opening = charge_before(now, &changes);
    infos(alloc, entries, before, name, held, opening, after, most)
}

// Whether the entry makes the namespace of this name.
fn makes(name: &str, entry: &Entry) -> bool
    ensures { result ≡ makes_by name.now entry.now.call entry.now.reply }
{
    match &entry.call {
        Call::NamespaceCreate { namespace, .. } => {
            matches!(&entry.reply, Reply::Done) && namespace.as_str() == name
        }
        Call::Session
        | Call::Prepare { .. }
        | Call::Charge { .. }
        | Call::Trim { .. }
        | Call::Commit { .. }
        | Call::Discard { .. }
        | Call::Stat { .. }
        | Call::Usage { .. }
        | Call::Mounts { .. }
        | Call::View { .. }
        | Call::Remove { .. }
        | Call::Update { .. }
        | Call::Walk { .. }
        | Call::NamespaceRemove { .. }
        | Call::SetLimit { .. }
        | Call::LeaseCreate { .. }
        | Call::LeaseAdd { .. }
        | Call::LeaseDrop { .. }
        | Call::LeaseRelease { .. }
        | Call::Sweep { .. } => false,
    }
}

// The place of the last entry that makes it.
fn last_made(entries: &[SharedEntry], name: &str) -> Option<usize>
    ensures found { result ≡ last_made name.now entries.now }
    ensures inside { IfSome result (λ first. first < length entries.now) }
{
    let mut left = entries.len();
    while left > 0 {
        left -= 1;
        if makes(name, entries[left].entry()) {
            return Some(left);
        }
    }
    None
}

/// The entries of a round that are a namespace's and have a greater number than `after`, in order, at most `most`, each
/// with what the namespace is charged after it: since the last that made the namespace, where one of them did. `last`
/// is the number of the last entry, `now` what the namespace is charged after it, and `held` what its open snapshots
/// were charged before the entries, a place for each slot.
///
/// The cost grows with the entries, and the memory too: a change for each, and what is answered.
pub fn history(
    alloc: Global,
    entries: &[SharedEntry],
    last: u64,
    name: &str,
    held: &Shares,
    now: Usage,
    after: u64,
    most: usize,
) -> Result<Sequence<EntryInfo>, AllocError>
    requires { length entries.now ≤ last }
    // The entries lead from the state that the round began at, with these shares unless one of them made the namespace,
    // to one with this number and this charge.
    ensures { IfOk result (λ infos. (s t : State) → Good s → length held.now ≡ s.slots → (last_made name.now entries.now ≡ None → held.now ≡ namespace_shares name.now s) → Replays s entries.now t
        → t.entries ≡ last → namespace_charge name.now t ≡ now → infos ≡ history_page after most (history_since name.now s entries.now)) }
{
    let Some(first) = last_made(entries, name) else {
        return told(alloc, entries, last, name, held, now, after, most);
    };
    let none = Shares::none(alloc, held.slots())?;
    told(
        alloc,
        &entries[first..],
        last,
        name,
        &none,
        now,
        after,
        most,
    )
}

// The entries that have a number greater than `after`, at most `most`; the first entry has the number after `before`.
fn page_of(
    alloc: Global,
    entries: &[SharedEntry],
    before: u64,
    after: u64,
    most: usize,
) -> Result<Sequence<EntryInfo>, AllocError>
    requires { before + length entries.now < 2 ^ 64 }
    ensures { IfOk result (λ infos. infos ≡ history_page after most (entries_from before entries.now)) }
{
    let mut infos = Sequence::new(alloc);
    let mut number = before;
    for entry in entries {
        number += 1;
        if after < number && infos.len() < most {
            infos.push(entry_info(number, entry.entry(), None)?)?;
        }
    }
    Ok(infos)
}

/// The entries of a round that have a greater number than `after`, in order, at most `most`, whichever namespace they
/// are of, without a charge. `last` is the number of the last entry.
///
/// The cost grows with the entries, and the memory with what is answered.
pub fn entries_after(
    alloc: Global,
    entries: &[SharedEntry],
    last: u64,
    after: u64,
    most: usize,
) -> Result<Sequence<EntryInfo>, AllocError>
    requires { length entries.now ≤ last }
    ensures { IfOk result (λ infos. infos ≡ history_page after most (entries_from (last - length entries.now) entries.now)) }
{
    page_of(alloc, entries, last - entries.len() as u64, after, most)
}
