// The JSON of what answers have.
ghost use Rattle.std.specs.Prelude.{◌≡◌, OnOk, Some};
ghost use Rattle.serde_json.specs.Data.{string};
ghost use Rattle.snap_call.specs.declared.reply.Reply.TheVariants as replies;
ghost use Rattle.snap_json.specs.Tokens.{with_value};
ghost use Rattle.snap_script.specs.Answers.{answer_data, bad_config_data, entry_data, refusal_data, reply_data, shown_data};
ghost use Rattle.snap_script.specs.Refusals.{config_field_name, error_name};
ghost use Rattle.snap_script.specs.Faults.{field_name};
ghost use Rattle.snap_script.specs.declared.answer.Answer.TheVariants as answers;
ghost use Rattle.snap_script.specs.declared.answer.Shown.TheVariants as shown;

use crate::answer::{JournalEntry, QuotaInfo, Shown};
use crate::fault::Field;
use crate::refused::Refused;
use snap_call::{ConfigField, Refusal, Reply};
use snap_json::{Token, Writer};
use snap_layer::Bytes;
use snap_merge::FsError;
use snap_record::{Sequence, Text};
use snap_usage::Usage;
use snap_values::{ToJson, by_name, maybe, member, only, pair, refusal_name};
use std::alloc::{AllocError, Global};

/// The field's name.
impl ToJson for Field {
    ghost value = { λ field. string (field_name field) };

    fn write(&self, _alloc: Global, out: &mut Writer) -> Result<(), AllocError> {
        out.token(Token::String(self.name()))
    }
}

impl ToJson for JournalEntry {
    ghost value = { entry_data };

    #[tactic(auto, using(snap_values::proofs::Maps::with_members_maybe))]
    fn write(&self, alloc: Global, out: &mut Writer) -> Result<(), AllocError> {
        let entry = &self.entry;
        out.token(Token::BeginObject)?;
        member(alloc, out, "call", &entry.call.as_str())?;
        maybe(alloc, out, "charge", &entry.charge)?;
        maybe(alloc, out, "id", &entry.id)?;
        maybe(alloc, out, "key", &entry.key)?;
        maybe(alloc, out, "line", &self.line)?;
        maybe(alloc, out, "ns", &self.namespace)?;
        member(alloc, out, "number", &entry.number)?;
        maybe(alloc, out, "refused", &entry.refused)?;
        member(alloc, out, "session", &entry.session)?;
        out.token(Token::EndObject)
    }
}

/// A file whose size alone is kept.
fn sized(
    alloc: Global,
    out: &mut Writer,
    mode: u32,
    size: u64,
    digest: &Option<Bytes>,
) -> Result<(), AllocError>
    ensures { OnOk result (out.new ≡ with_value (shown_data (Some (shown.Sized mode size digest.now))) out.old) }
{
    out.token(Token::BeginObject)?;
    member(alloc, out, "digest", digest)?;
    member(alloc, out, "file", &mode)?;
    member(alloc, out, "size", &size)?;
    out.token(Token::EndObject)
}

/// What is seen, or null.
fn shown(alloc: Global, out: &mut Writer, found: &Option<Shown>) -> Result<(), AllocError>
    ensures { OnOk result (out.new ≡ with_value (shown_data found.now) out.old) }
{
    match found {
        None => out.token(Token::Null),
        Some(Shown::Dir { mode }) => only(alloc, out, "dir", mode),
        Some(Shown::File { mode, size }) => pair(alloc, out, "file", mode, "size", size),
        Some(Shown::Sized { mode, size, digest }) => sized(alloc, out, *mode, *size, digest),
        Some(Shown::Symlink { target }) => only(alloc, out, "symlink", target),
    }
}

/// The name of a file operation's error in answers.
pub(crate) fn error_name(error: FsError) -> &'static str
    ensures { result.now ≡ error_name error }
{
    match error {
        FsError::BadPath => "BadPath",
        FsError::NotFound => "NotFound",
        FsError::NotDir => "NotDir",
        FsError::IsDir => "IsDir",
        FsError::Exists => "Exists",
        FsError::NotEmpty => "NotEmpty",
        FsError::CrossDevice => "CrossDevice",
        FsError::Invalid => "Invalid",
        FsError::NotPermitted => "NotPermitted",
        FsError::TooBig => "TooBig",
        FsError::LayerFull => "LayerFull",
        FsError::NeedsCharge(_) => "NeedsCharge",
        FsError::TooManyLinks => "TooManyLinks",
        FsError::OutOfMemory(_) => "OutOfMemory",
    }
}

/// A refusal, with what is free where it is over the limit, and with the field that it is about where that is told.
#[tactic(auto, using(snap_values::proofs::Maps::with_members_maybe))]
pub(crate) fn refusal(
    alloc: Global,
    out: &mut Writer,
    why: Refused,
    of: Option<Field>,
) -> Result<(), AllocError>
    ensures { OnOk result (out.new ≡ with_value (refusal_data why of) out.old) }
{
    out.token(Token::BeginObject)?;
    member(alloc, out, "error", &why.name())?;
    maybe(alloc, out, "free", &why.free())?;
    member(alloc, out, "from", &why.from())?;
    maybe(alloc, out, "of", &of)?;
    out.token(Token::EndObject)
}

/// The field of `open` that gives a part of a configuration; no line gives the first id.
pub(crate) fn config_field_name(field: ConfigField) -> &'static str
    ensures { result.now ≡ config_field_name field }
{
    match field {
        ConfigField::Root => "root",
        ConfigField::Namespaces => "namespaces",
        ConfigField::Slots => "slots",
        ConfigField::Journal => "journal",
        ConfigField::FirstId => "first_id",
        ConfigField::LayerInodes => "layer_inodes",
        ConfigField::Ancestors => "ancestors",
    }
}

/// The refusal of a store, with the field that is malformed.
pub(crate) fn bad_config(
    alloc: Global,
    out: &mut Writer,
    field: ConfigField,
) -> Result<(), AllocError>
    ensures { OnOk result (out.new ≡ with_value (bad_config_data field) out.old) }
{
    out.token(Token::BeginObject)?;
    member(alloc, out, "error", &refusal_name(Refusal::BadArgument))?;
    member(alloc, out, "field", &config_field_name(field))?;
    member(alloc, out, "from", &"book")?;
    out.token(Token::EndObject)
}

pub(crate) fn seen(alloc: Global, out: &mut Writer, found: &Option<Shown>) -> Result<(), AllocError>
    ensures { OnOk result (out.new ≡ with_value (answer_data (answers.Seen found.now)) out.old) }
{
    out.token(Token::BeginObject)?;
    out.token(Token::Key("seen"))?;
    shown(alloc, out, found)?;
    out.token(Token::EndObject)
}

pub(crate) fn report(
    alloc: Global,
    out: &mut Writer,
    entries: u64,
    actives: u64,
    records: u64,
    found: &[(Text, Usage)],
) -> Result<(), AllocError>
    ensures { OnOk result (out.new ≡ with_value (answer_data (answers.Report entries actives records found.now)) out.old) }
{
    out.token(Token::BeginObject)?;
    member(alloc, out, "entries", &entries)?;
    member(alloc, out, "open", &actives)?;
    member(alloc, out, "records", &records)?;
    out.token(Token::Key("totals"))?;
    by_name(alloc, out, found)?;
    out.token(Token::EndObject)
}

pub(crate) fn jobs(
    alloc: Global,
    out: &mut Writer,
    committed: u64,
    discarded: u64,
    refused: u64,
    found: &[(Text, Usage)],
) -> Result<(), AllocError>
    ensures { OnOk result (out.new ≡ with_value (answer_data (answers.Jobs committed discarded refused found.now)) out.old) }
{
    out.token(Token::BeginObject)?;
    member(alloc, out, "committed", &committed)?;
    member(alloc, out, "discarded", &discarded)?;
    member(alloc, out, "refused", &refused)?;
    out.token(Token::Key("totals"))?;
    by_name(alloc, out, found)?;
    out.token(Token::EndObject)
}

pub(crate) fn quotas(
    alloc: Global,
    out: &mut Writer,
    found: &[(Text, QuotaInfo)],
) -> Result<(), AllocError>
    ensures { OnOk result (out.new ≡ with_value (answer_data (answers.Quota found.now)) out.old) }
{
    out.token(Token::BeginObject)?;
    out.token(Token::Key("quota"))?;
    by_name(alloc, out, found)?;
    out.token(Token::EndObject)
}

fn prepared(
    alloc: Global,
    out: &mut Writer,
    id: u32,
    slot: u64,
    chain: &Sequence<u32>,
) -> Result<(), AllocError>
    ensures { OnOk result (out.new ≡ with_value (reply_data (replies.Prepared id slot chain.now)) out.old) }
{
    out.token(Token::BeginObject)?;
    member(alloc, out, "chain", chain)?;
    member(alloc, out, "id", &id)?;
    member(alloc, out, "slot", &slot)?;
    out.token(Token::EndObject)
}

fn swept(
    alloc: Global,
    out: &mut Writer,
    removed: &Sequence<Text>,
    leases: u64,
    freed: Usage,
) -> Result<(), AllocError>
    ensures { OnOk result (out.new ≡ with_value (reply_data (replies.Swept removed.now leases freed)) out.old) }
{
    out.token(Token::BeginObject)?;
    member(alloc, out, "freed", &freed)?;
    member(alloc, out, "leases", &leases)?;
    member(alloc, out, "removed", removed)?;
    out.token(Token::EndObject)
}

/// What the store replies to a call.
pub(crate) fn reply(alloc: Global, out: &mut Writer, told: &Reply) -> Result<(), AllocError>
    ensures { OnOk result (out.new ≡ with_value (reply_data told.now) out.old) }
{
    match told {
        Reply::Opened | Reply::Trimmed | Reply::Done => only(alloc, out, "ok", &true),
        Reply::Prepared { id, slot, chain } => prepared(alloc, out, *id, *slot, chain),
        Reply::Viewed { id, chain } => pair(alloc, out, "chain", chain, "id", id),
        Reply::Charged { now } => only(alloc, out, "share", now),
        Reply::Committed { id, usage } => pair(alloc, out, "id", id, "usage", usage),
        Reply::Discarded(amount) | Reply::Removed(amount) => only(alloc, out, "freed", amount),
        Reply::Info(info) => only(alloc, out, "info", info),
        Reply::Usage(amount) => only(alloc, out, "usage", amount),
        Reply::Mounts(own) => only(alloc, out, "mounts", own),
        Reply::Page(own) => only(alloc, out, "infos", own),
        Reply::Swept {
            removed,
            leases,
            freed,
        } => swept(alloc, out, removed, *leases, *freed),
        Reply::Refused(why) => refusal(alloc, out, Refused::Book(*why), None),
    }
}
