ghost use Rattle.std.specs.Prelude.{◌≡◌, IfOk, option_copied};
ghost use Rattle.std.specs.Option.{option_or};
ghost use Rattle.snap_history.specs.Entries.{entry_info, id_in, key_in, new_id, refusal_in};

use crate::kind::{CallKind, call_kind};
use snap_call::{Call, Entry, Refusal, Reply};
use snap_record::Text;
use snap_usage::Usage;
use std::alloc::AllocError;

/// What is told of an entry of the journal.
#[derive(Debug, Drop)]
pub struct EntryInfo {
    /// The entries of a store are numbered from 1, through all its rounds.
    pub number: u64,
    /// The session of the round that made the call.
    pub session: u64,
    pub call: CallKind,
    /// The key or the name of the snapshot that the call is on: of a commit the new name. None where the
    /// call names it by its id, or is on none.
    pub key: Option<Text>,
    /// The snapshot's id, where the call or its reply has it.
    pub id: Option<u32>,
    /// Why the call was refused, if it was.
    pub refused: Option<Refusal>,
    /// What the namespace is charged after the entry, where the entries of one namespace are told.
    pub charge: Option<Usage>,
}

fn key_in(call: &Call) -> Option<&Text>
    ensures { option_copied result ≡ key_in call.now }
{
    match call {
        Call::Prepare { key, .. } => Some(key),
        Call::Commit { name, .. } => Some(name),
        Call::Stat { key, .. } => Some(key),
        Call::Usage { key, .. } => Some(key),
        Call::Mounts { key, .. } => Some(key),
        Call::View { key, .. } => Some(key),
        Call::Remove { key, .. } => Some(key),
        Call::Update { key, .. } => Some(key),
        Call::LeaseAdd { name, .. } => Some(name),
        Call::LeaseDrop { name, .. } => Some(name),
        _ => None,
    }
}

fn id_in(call: &Call) -> Option<u32>
    ensures { result ≡ id_in call.now }
{
    match call {
        Call::Charge { id, .. } => Some(*id),
        Call::Trim { id, .. } => Some(*id),
        Call::Commit { id, .. } => Some(*id),
        Call::Discard { id, .. } => Some(*id),
        _ => None,
    }
}

// The id of the snapshot that the call made.
fn new_id(reply: &Reply) -> Option<u32>
    ensures { result ≡ new_id reply.now }
{
    match reply {
        Reply::Prepared { id, .. } => Some(*id),
        Reply::Viewed { id, .. } => Some(*id),
        _ => None,
    }
}

fn id_of(entry: &Entry) -> Option<u32>
    ensures { result ≡ option_or (id_in entry.now.call) (new_id entry.now.reply) }
{
    match id_in(&entry.call) {
        Some(id) => Some(id),
        None => new_id(&entry.reply),
    }
}

fn refusal_in(reply: &Reply) -> Option<Refusal>
    ensures { result ≡ refusal_in reply.now }
{
    match reply {
        Reply::Refused(why) => Some(*why),
        _ => None,
    }
}

fn own_key(call: &Call) -> Result<Option<Text>, AllocError>
    ensures { IfOk result (λ key. key ≡ key_in call.now) }
{
    match key_in(call) {
        Some(key) => Ok(Some(key.clone()?)),
        None => Ok(None),
    }
}

pub(crate) fn entry_info(
    number: u64,
    entry: &Entry,
    charge: Option<Usage>,
) -> Result<EntryInfo, AllocError>
    ensures { IfOk result (λ info. info ≡ entry_info number entry.now charge) }
{
    Ok(EntryInfo {
        number,
        session: entry.session,
        call: call_kind(&entry.call),
        key: own_key(&entry.call)?,
        id: id_of(entry),
        refused: refusal_in(&entry.reply),
        charge,
    })
}
