// The round's entries, all or those of a namespace.
ghost use Rattle.std.specs.Prelude.{◌≡◌, IfOk, map, option_copied};
ghost use Rattle.snap_session.specs.Journal.{entry_numbered, held_name, is_first, journal_all, journal_entry, journal_in, journal_of, line_at, entry_line, name_among, name_by, name_of, namespace_at, namespace_of};

use crate::carried::{Carried, SnapshotName, carried_name};
use snap_call::{Call, Entry, Refusal, Reply, SharedEntry, is_page};
use snap_history::{EntryInfo, entries_after, history, namespace_in};
use snap_ledger::StoreName;
use snap_record::{Sequence, Text};
use snap_script::{Answer, JournalEntry, LentText};
use snap_values::call_line;
use snap_world::{NoMemory, World};
use std::alloc::{AllocError, Global};

// The name of the snapshot of this id, where the call has prepared it.
fn name_by(id: u32, call: &Call, reply: &Reply) -> Result<Option<SnapshotName>, AllocError>
    ensures { IfOk result (λ name. name ≡ name_by id call.now reply.now) }
{
    let Call::Prepare { namespace, key, .. } = call else {
        return Ok(None);
    };
    match reply {
        Reply::Prepared { id: made, .. } if *made == id => Ok(Some(SnapshotName {
            namespace: namespace.clone()?,
            key: key.clone()?,
        })),
        _ => Ok(None),
    }
}

// The name that it has where one of the entries has prepared it.
fn name_among(id: u32, entries: &[SharedEntry]) -> Result<Option<SnapshotName>, AllocError>
    ensures { IfOk result (λ name. name ≡ name_among id entries.now) }
{
    for entry in entries {
        let entry = entry.entry();
        if let Some(name) = name_by(id, &entry.call, &entry.reply)? {
            return Ok(Some(name));
        }
    }
    Ok(None)
}

// The name of the active snapshot of this id.
fn name_of(
    id: u32,
    entries: &[SharedEntry],
    carried: &[Carried],
) -> Result<Option<SnapshotName>, AllocError>
    ensures { IfOk result (λ name. name ≡ name_of carried.now entries.now id) }
{
    if let Some(name) = name_among(id, entries)? {
        return Ok(Some(name));
    }
    match carried_name(id, carried) {
        Some(name) => Ok(Some(name.again()?)),
        None => Ok(None),
    }
}

// The name of the snapshot of this id that the call is on, where it names no namespace.
fn held_name(
    call: &Call,
    id: Option<u32>,
    entries: &[SharedEntry],
    carried: &[Carried],
) -> Result<Option<SnapshotName>, AllocError>
    ensures { IfOk result (λ name. name ≡ held_name carried.now entries.now id call.now) }
{
    if namespace_in(call).is_some() {
        return Ok(None);
    }
    match id {
        Some(id) => name_of(id, entries, carried),
        None => Ok(None),
    }
}

// The entry of this number, where it is one of the round.
fn entry_of<N: StoreName>(world: &World<N>, number: u64) -> Option<&Entry>
    ensures { option_copied result ≡ entry_numbered world.now number }
{
    let round = world.journal();
    let before = world.last_entry().saturating_sub(round.len() as u64);
    let place = number.saturating_sub(before).saturating_sub(1);
    match round.get(place as usize) {
        Some(entry) => Some(entry.entry()),
        None => None,
    }
}

// The name of the namespace that a call names, or else of that of the active snapshot that it is on.
fn namespace_of(call: &Call, held: &Option<SnapshotName>) -> Result<Option<Text>, AllocError>
    ensures { IfOk result (λ name. name ≡ namespace_of held.now call.now) }
{
    if let Some(namespace) = namespace_in(call) {
        return Ok(Some(namespace.clone()?));
    }
    match held {
        Some(held) => Ok(Some(held.namespace.clone()?)),
        None => Ok(None),
    }
}

// The entry is that of session 0, which is opened as the round begins.
fn is_first(entry: &Entry) -> bool
    ensures { result ≡ is_first entry.now }
{
    match &entry.call {
        Call::Session => entry.session == 0,
        _ => false,
    }
}

// The line of the entry, whose call may be on an active snapshot.
fn line_of(
    alloc: Global,
    entry: &Entry,
    held: &Option<SnapshotName>,
) -> Result<Option<Text>, AllocError>
    ensures { IfOk result (λ line. line ≡ entry_line held.now entry.now) }
{
    if is_first(entry) {
        return Ok(None);
    }
    let (namespace, key) = match held {
        Some(held) => (held.namespace.clone()?, Some(held.key.clone()?)),
        None => (Text::new(alloc), None),
    };
    let line = call_line(alloc, &namespace, entry.session, &key, &entry.call)?;
    Ok(Some(line))
}

// The same once more.
fn again(info: &EntryInfo) -> Result<EntryInfo, AllocError>
    ensures { IfOk result (λ same. same ≡ info.now) }
{
    Ok(EntryInfo {
        number: info.number,
        session: info.session,
        call: info.call,
        key: info.key.clone()?,
        id: info.id,
        refused: info.refused,
        charge: info.charge,
    })
}

// The name of the namespace of the entry that is told.
fn namespace_at<N: StoreName>(
    world: &World<N>,
    carried: &[Carried],
    info: &EntryInfo,
) -> Result<Option<Text>, AllocError>
    ensures { IfOk result (λ name. name ≡ namespace_at world.now carried.now info.now) }
{
    let Some(entry) = entry_of(world, info.number) else {
        return Ok(None);
    };
    let held = held_name(&entry.call, info.id, world.journal(), carried)?;
    namespace_of(&entry.call, &held)
}

// Its line.
fn line_at<N: StoreName>(
    alloc: Global,
    world: &World<N>,
    carried: &[Carried],
    info: &EntryInfo,
) -> Result<Option<Text>, AllocError>
    ensures { IfOk result (λ line. line ≡ line_at world.now carried.now info.now) }
{
    let Some(entry) = entry_of(world, info.number) else {
        return Ok(None);
    };
    let held = held_name(&entry.call, info.id, world.journal(), carried)?;
    line_of(alloc, entry, &held)
}

// An entry that is told: where all are, with its namespace, and in full with its line.
fn journal_entry<N: StoreName>(
    alloc: Global,
    world: &World<N>,
    carried: &[Carried],
    all: bool,
    full: bool,
    info: &EntryInfo,
) -> Result<JournalEntry, AllocError>
    ensures { IfOk result (λ told. told ≡ journal_entry world.now carried.now all full info.now) }
{
    let entry = again(info)?;
    let namespace = if all {
        namespace_at(world, carried, info)?
    } else {
        None
    };
    let line = if full {
        line_at(alloc, world, carried, info)?
    } else {
        None
    };
    Ok(JournalEntry {
        entry,
        namespace,
        line,
    })
}

fn journal_entries<N: StoreName>(
    alloc: Global,
    world: &World<N>,
    carried: &[Carried],
    all: bool,
    full: bool,
    infos: &[EntryInfo],
) -> Result<Sequence<JournalEntry>, AllocError>
    ensures { IfOk result (λ told. told ≡ map (journal_entry world.now carried.now all full) infos.now) }
{
    let mut told = Sequence::new(alloc);
    for info in infos {
        told.push(journal_entry(alloc, world, carried, all, full, info)?)?;
    }
    Ok(told)
}

// Those of a namespace after the entry of a number, at most `most`.
fn journal_in<N: StoreName>(
    alloc: Global,
    world: &World<N>,
    carried: &[Carried],
    name: &str,
    after: u64,
    most: u64,
    full: bool,
) -> Result<Answer, NoMemory>
    ensures { IfOk result (λ answer. answer ≡ journal_in world.now carried.now after most full name.now) }
{
    let Some(charge) = world.totals(name) else {
        return Ok(Answer::refused(Refusal::NoNamespace));
    };
    let entries = world.journal();
    let last = world.last_entry();
    let held = world.opening_shares(name)?;
    let infos = history(
        alloc,
        entries,
        last,
        name,
        &held,
        charge,
        after,
        most as usize,
    )?;
    let told = journal_entries(alloc, world, carried, false, full, infos.as_slice())?;
    Ok(Answer::Journal(told))
}

// Those of the round.
fn journal_all<N: StoreName>(
    alloc: Global,
    world: &World<N>,
    carried: &[Carried],
    after: u64,
    most: u64,
    full: bool,
) -> Result<Answer, NoMemory>
    ensures { IfOk result (λ answer. answer ≡ journal_all world.now carried.now after most full) }
{
    let last = world.last_entry();
    let infos = entries_after(alloc, world.journal(), last, after, most as usize)?;
    let told = journal_entries(alloc, world, carried, true, full, infos.as_slice())?;
    Ok(Answer::Journal(told))
}

// Those after the entry of a number, at most `most`, of all or of a namespace.
pub(crate) fn journal<N: StoreName>(
    alloc: Global,
    world: &World<N>,
    carried: &[Carried],
    namespace: Option<LentText<'_>>,
    after: u64,
    most: u64,
    full: bool,
) -> Result<Answer, NoMemory>
    ensures { IfOk result (λ answer. answer ≡ journal_of world.now carried.now namespace.entry after most full) }
{
    if !is_page(most) {
        return Ok(Answer::refused(Refusal::BadArgument));
    }
    match namespace {
        Some(name) => journal_in(alloc, world, carried, name.as_str(), after, most, full),
        None => journal_all(alloc, world, carried, after, most, full),
    }
}
