// The commands of lines, read from their values.
ghost use Rattle.std.specs.Prelude.{◌≡◌};
ghost use Rattle.snap_json.specs.View.{view};
ghost use Rattle.snap_history.specs.declared.kind.CallKind.TheVariants as kinds;
ghost use Rattle.snap_script.specs.Commands.{named, config_of, filter_of, asked_as, asked_by, call_of, read_asked, lookup_of, page_asked, page_in, diff_of, command_of};
ghost use Rattle.snap_script.specs.Gives.{Gives};

use crate::batch::batch;
use crate::command::{Command, Lookup, Page};
use crate::fault::{Fault, Field, ReadError};
use crate::fields::{
    is_true, label_filters, labels, labels_of_update, lent_optional_text, lent_text, namespaces,
    number_or, optional_kind, optional_labels, optional_number, optional_text, paths,
    required_labels, required_number, required_usage, text, text_or_empty, usage_or,
};
use crate::lent::LentText;
use crate::operation::{file_operation, path_in};
use crate::restore::restored;
use crate::unknown::FieldRule;
use crate::verb::{LookupVerb, Verb};
use snap_call::limits::{DEFAULT_ANCESTORS, DEFAULT_SLOTS, MAX_JOURNAL};
use snap_call::{Call, Config, Question};
use snap_history::CallKind;
use snap_json::Value;
use snap_path::limits::{DEFAULT_LAYER_INODES, MAX_FILE_BYTES};
use snap_record::{Filter, Text};
use snap_usage::Usage;
use std::alloc::Global;

/// The id of a store's first snapshot.
const FIRST_ID: u32 = 1;

/// How many snapshots a walk and a page of a tree give at most, entries a journal, and changes a diff, where the line
/// doesn't say.
const PAGE: u64 = 64;

/// How many lines a `save` gives at most, whatever the line says.
const SAVED_PAGE: u64 = 1024;

/// The namespace (`ns`) and the key of the snapshot that a line names, both texts. Neither has to be well-formed. The
/// cost grows with the texts.
#[tactic(auto, unfolding(crate::specs::Commands::named))]
pub fn named(alloc: Global, line: &Value<'_>) -> Result<(Text, Text), ReadError>
    ensures { Gives (λ snapshot. snapshot) result (named (view line.now)) }
{
    let namespace = text(alloc, Field::Namespace, line)?;
    let key = text(alloc, Field::Key, line)?;
    Ok((namespace, key))
}

/// The same, lent by the line.
#[tactic(auto, unfolding(crate::specs::Commands::named))]
pub(crate) fn lent_named<'a>(line: &Value<'a>) -> Result<(LentText<'a>, LentText<'a>), Fault>
    ensures { result ≡ named (view line.now) }
{
    let namespace = lent_text(Field::Namespace, line)?;
    let key = lent_text(Field::Key, line)?;
    Ok((LentText::new(namespace), LentText::new(key)))
}

/// The configuration of the store that an `open` names.
#[tactic(auto, unfolding(crate::specs::Commands::config_of))]
pub(crate) fn config_of(alloc: Global, line: &Value<'_>) -> Result<Config, ReadError>
    ensures { Gives (λ config. config) result (config_of (view line.now)) }
{
    let root = text(alloc, Field::Root, line)?;
    let namespaces = namespaces(alloc, line)?;
    let journal = number_or(MAX_JOURNAL, Field::Journal, line)?;
    let slots = number_or(DEFAULT_SLOTS, Field::Slots, line)?;
    let layer_inodes = number_or(DEFAULT_LAYER_INODES as u64, Field::LayerInodes, line)?;
    let ancestors = number_or(DEFAULT_ANCESTORS, Field::Ancestors, line)?;
    Ok(Config {
        root,
        namespaces,
        slots,
        journal,
        first_id: FIRST_ID,
        layer_inodes,
        ancestors,
    })
}

#[tactic(auto, unfolding(crate::specs::Commands::call_of))]
fn prepare<'a>(alloc: Global, line: &Value<'a>) -> Result<Command<'a>, ReadError>
    ensures { Gives (λ c. c) result (call_of kinds.Prepare (view line.now)) }
{
    let (namespace, key) = named(alloc, line)?;
    Ok(Command::Call(Call::Prepare {
        namespace,
        key,
        parent: text(alloc, Field::Parent, line)?,
        labels: labels(alloc, line)?,
    }))
}

#[tactic(auto, unfolding(crate::specs::Commands::call_of))]
fn view<'a>(alloc: Global, line: &Value<'a>) -> Result<Command<'a>, ReadError>
    ensures { Gives (λ c. c) result (call_of kinds.View (view line.now)) }
{
    let (namespace, key) = named(alloc, line)?;
    let parent = text(alloc, Field::Parent, line)?;
    let labels = labels(alloc, line)?;
    Ok(Command::Call(Call::View {
        namespace,
        key,
        parent,
        labels,
    }))
}

#[tactic(auto, unfolding(crate::specs::Commands::call_of))]
fn charge<'a>(alloc: Global, line: &Value<'a>) -> Result<Command<'a>, ReadError>
    ensures { Gives (λ c. c) result (call_of kinds.Charge (view line.now)) }
{
    let (namespace, key) = lent_named(line)?;
    let need = required_usage(Field::Need, line)?;
    let want = usage_or(need, Field::Want, line)?;
    Ok(Command::Charge {
        namespace,
        key,
        need,
        want,
    })
}

#[tactic(auto, unfolding(crate::specs::Commands::call_of))]
fn update<'a>(alloc: Global, line: &Value<'a>) -> Result<Command<'a>, ReadError>
    ensures { Gives (λ c. c) result (call_of kinds.Update (view line.now)) }
{
    let (namespace, key) = named(alloc, line)?;
    let found = required_labels(alloc, line)?;
    let paths = paths(alloc, line)?;
    let labels = labels_of_update(alloc, line, paths.as_slice(), found)?;
    Ok(Command::Call(Call::Update {
        namespace,
        key,
        labels,
        paths,
    }))
}

/// The filter of a walk.
#[tactic(auto, unfolding(crate::specs::Commands::filter_of))]
fn filter(alloc: Global, line: &Value<'_>) -> Result<Filter, ReadError>
    ensures { Gives (λ filter. filter) result (filter_of (view line.now)) }
{
    Ok(Filter {
        name: optional_text(alloc, Field::Name, line)?,
        parent: optional_text(alloc, Field::Parent, line)?,
        kind: optional_kind(line)?,
        labels: label_filters(alloc, line)?,
    })
}

/// The command that asks the question, without an entry where it is quiet.
fn asked_as<'line>(quiet: bool, question: Question) -> Command<'line>
    ensures { result ≡ asked_as quiet question }
{
    if quiet {
        Command::Ask(question)
    } else {
        Command::Call(question.into_call())
    }
}

/// The same, as the line says.
#[tactic(auto, unfolding(crate::specs::Commands::asked_by))]
fn asked_by<'a>(line: &Value<'a>, question: Question) -> Result<Command<'a>, ReadError>
    ensures { Gives (λ c. c) result (asked_by (view line.now) question) }
{
    Ok(asked_as(is_true(Field::Quiet, line)?, question))
}

#[tactic(auto, unfolding(crate::specs::Commands::call_of))]
fn stat<'a>(alloc: Global, line: &Value<'a>) -> Result<Command<'a>, ReadError>
    ensures { Gives (λ c. c) result (call_of kinds.Stat (view line.now)) }
{
    let (namespace, key) = named(alloc, line)?;
    asked_by(line, Question::Stat { namespace, key })
}

#[tactic(auto, unfolding(crate::specs::Commands::call_of))]
fn mounts<'a>(alloc: Global, line: &Value<'a>) -> Result<Command<'a>, ReadError>
    ensures { Gives (λ c. c) result (call_of kinds.Mounts (view line.now)) }
{
    let (namespace, key) = named(alloc, line)?;
    asked_by(line, Question::Mounts { namespace, key })
}

#[tactic(auto, unfolding(crate::specs::Commands::call_of))]
fn walk<'a>(alloc: Global, line: &Value<'a>) -> Result<Command<'a>, ReadError>
    ensures { Gives (λ c. c) result (call_of kinds.Walk (view line.now)) }
{
    let question = Question::Walk {
        namespace: text(alloc, Field::Namespace, line)?,
        after: Text::copy_of(alloc, text_or_empty(Field::After, line)?)?,
        most: number_or(PAGE, Field::Most, line)?,
        asked: filter(alloc, line)?,
    };
    asked_by(line, question)
}

#[tactic(auto, unfolding(crate::specs::Commands::call_of))]
fn set_limit<'a>(alloc: Global, line: &Value<'a>) -> Result<Command<'a>, ReadError>
    ensures { Gives (λ c. c) result (call_of kinds.Limit (view line.now)) }
{
    let namespace = text(alloc, Field::Namespace, line)?;
    let blocks = required_number(Field::Blocks, line)?;
    let inodes = required_number(Field::Inodes, line)?;
    let limit = Usage { blocks, inodes };
    Ok(Command::Call(Call::SetLimit { namespace, limit }))
}

#[tactic(auto, unfolding(crate::specs::Commands::call_of))]
fn namespace_create<'a>(alloc: Global, line: &Value<'a>) -> Result<Command<'a>, ReadError>
    ensures { Gives (λ c. c) result (call_of kinds.NamespaceCreate (view line.now)) }
{
    Ok(Command::Call(Call::NamespaceCreate {
        namespace: text(alloc, Field::Namespace, line)?,
        limit: Usage {
            blocks: required_number(Field::Blocks, line)?,
            inodes: required_number(Field::Inodes, line)?,
        },
    }))
}

#[tactic(auto, unfolding(crate::specs::Commands::call_of))]
fn namespace_remove<'a>(alloc: Global, line: &Value<'a>) -> Result<Command<'a>, ReadError>
    ensures { Gives (λ c. c) result (call_of kinds.NamespaceRemove (view line.now)) }
{
    let namespace = text(alloc, Field::Namespace, line)?;
    Ok(Command::Call(Call::NamespaceRemove { namespace }))
}

#[tactic(auto, unfolding(crate::specs::Commands::call_of))]
fn lease_create<'a>(alloc: Global, line: &Value<'a>) -> Result<Command<'a>, ReadError>
    ensures { Gives (λ c. c) result (call_of kinds.LeaseCreate (view line.now)) }
{
    Ok(Command::Call(Call::LeaseCreate {
        namespace: text(alloc, Field::Namespace, line)?,
        lease: text(alloc, Field::Lease, line)?,
        until: optional_number(Field::Until, line)?,
    }))
}

#[tactic(auto, unfolding(crate::specs::Commands::call_of))]
fn lease_add<'a>(alloc: Global, line: &Value<'a>) -> Result<Command<'a>, ReadError>
    ensures { Gives (λ c. c) result (call_of kinds.LeaseAdd (view line.now)) }
{
    Ok(Command::Call(Call::LeaseAdd {
        namespace: text(alloc, Field::Namespace, line)?,
        lease: text(alloc, Field::Lease, line)?,
        name: text(alloc, Field::Name, line)?,
    }))
}

#[tactic(auto, unfolding(crate::specs::Commands::call_of))]
fn lease_drop<'a>(alloc: Global, line: &Value<'a>) -> Result<Command<'a>, ReadError>
    ensures { Gives (λ c. c) result (call_of kinds.LeaseDrop (view line.now)) }
{
    Ok(Command::Call(Call::LeaseDrop {
        namespace: text(alloc, Field::Namespace, line)?,
        lease: text(alloc, Field::Lease, line)?,
        name: text(alloc, Field::Name, line)?,
    }))
}

#[tactic(auto, unfolding(crate::specs::Commands::call_of))]
fn sweep<'a>(alloc: Global, line: &Value<'a>) -> Result<Command<'a>, ReadError>
    ensures { Gives (λ c. c) result (call_of kinds.Sweep (view line.now)) }
{
    let name = lent_text(Field::Namespace, line)?;
    let moment = required_number(Field::Moment, line)?;
    if is_true(Field::Try, line)? {
        let namespace = LentText::new(name);
        Ok(Command::TrySweep { namespace, moment })
    } else {
        let namespace = Text::copy_of(alloc, name)?;
        Ok(Command::Call(Call::Sweep { namespace, moment }))
    }
}

#[tactic(auto, unfolding(crate::specs::Commands::call_of))]
fn usage<'a>(alloc: Global, line: &Value<'a>) -> Result<Command<'a>, ReadError>
    ensures { Gives (λ c. c) result (call_of kinds.Usage (view line.now)) }
{
    let (namespace, key) = lent_named(line)?;
    let chain = is_true(Field::Chain, line)?;
    let quiet = is_true(Field::Quiet, line)?;
    if chain {
        Ok(Command::ChainUsage { namespace, key })
    } else {
        let namespace = Text::copy_of(alloc, namespace.as_str())?;
        let key = Text::copy_of(alloc, key.as_str())?;
        Ok(asked_as(quiet, Question::Usage { namespace, key }))
    }
}

#[tactic(auto, unfolding(crate::specs::Commands::call_of))]
fn commit<'a>(alloc: Global, line: &Value<'a>) -> Result<Command<'a>, ReadError>
    ensures { Gives (λ c. c) result (call_of kinds.Commit (view line.now)) }
{
    let (namespace, key) = lent_named(line)?;
    Ok(Command::Commit {
        namespace,
        key,
        name: text(alloc, Field::Name, line)?,
        lease: optional_text(alloc, Field::Lease, line)?,
        labels: optional_labels(alloc, line)?,
    })
}

/// The question for a snapshot's changes.
#[tactic(auto, unfolding(crate::specs::Commands::diff_of))]
fn diff<'a>(alloc: Global, line: &Value<'a>) -> Result<Command<'a>, ReadError>
    ensures { Gives (λ c. c) result (diff_of (view line.now)) }
{
    let (namespace, key) = lent_named(line)?;
    Ok(Command::Diff {
        namespace,
        key,
        after: LentText::new(text_or_empty(Field::After, line)?),
        most: number_or(PAGE, Field::Most, line)?,
    })
}

/// The command of a line that is a call, by its kind.
#[tactic(auto, unfolding(crate::specs::Commands::call_of))]
fn call_of<'a>(alloc: Global, kind: CallKind, line: &Value<'a>) -> Result<Command<'a>, ReadError>
    ensures { Gives (λ c. c) result (call_of kind (view line.now)) }
{
    match kind {
        CallKind::Session => Ok(Command::Session),
        CallKind::Prepare => prepare(alloc, line),
        CallKind::View => view(alloc, line),
        CallKind::Charge => charge(alloc, line),
        CallKind::Trim => {
            let (namespace, key) = lent_named(line)?;
            Ok(Command::Trim { namespace, key })
        }
        CallKind::Commit => commit(alloc, line),
        CallKind::Discard => {
            let (namespace, key) = lent_named(line)?;
            Ok(Command::Discard { namespace, key })
        }
        CallKind::Remove => {
            let (namespace, key) = named(alloc, line)?;
            Ok(Command::Call(Call::Remove { namespace, key }))
        }
        CallKind::Stat => stat(alloc, line),
        CallKind::Update => update(alloc, line),
        CallKind::Usage => usage(alloc, line),
        CallKind::Mounts => mounts(alloc, line),
        CallKind::Walk => walk(alloc, line),
        CallKind::Limit => set_limit(alloc, line),
        CallKind::NamespaceCreate => namespace_create(alloc, line),
        CallKind::NamespaceRemove => namespace_remove(alloc, line),
        CallKind::LeaseCreate => lease_create(alloc, line),
        CallKind::LeaseAdd => lease_add(alloc, line),
        CallKind::LeaseDrop => lease_drop(alloc, line),
        CallKind::LeaseRelease => Ok(Command::Call(Call::LeaseRelease {
            namespace: text(alloc, Field::Namespace, line)?,
            lease: text(alloc, Field::Lease, line)?,
        })),
        CallKind::Sweep => sweep(alloc, line),
    }
}

/// What a read asks for: the first bytes, or a part from the offset on, at most `most` bytes.
fn read_asked(offset: Option<u64>, most: Option<u64>) -> Lookup
    ensures { result ≡ read_asked offset most }
{
    match (offset, most) {
        (None, None) => Lookup::Read,
        (Some(offset), None) => Lookup::Part {
            offset,
            most: MAX_FILE_BYTES,
        },
        (None, Some(most)) => Lookup::Part { offset: 0, most },
        (Some(offset), Some(most)) => Lookup::Part { offset, most },
    }
}

/// The page of a list that is asked for by what it begins after and by its number of items, if one of them is there.
fn page_asked<'a>(after: Option<LentText<'a>>, most: Option<u64>) -> Option<Page<'a>>
    ensures { result ≡ page_asked after.entry most }
{
    match (after, most) {
        (None, None) => None,
        (Some(after), None) => Some(Page { after, most: PAGE }),
        (None, Some(most)) => Some(Page {
            after: LentText::new(""),
            most,
        }),
        (Some(after), Some(most)) => Some(Page { after, most }),
    }
}

/// The page that a line asks for.
#[tactic(auto, unfolding(crate::specs::Commands::page_in))]
fn page_in<'a>(line: &Value<'a>) -> Result<Option<Page<'a>>, Fault>
    ensures { result ≡ page_in (view line.now) }
{
    let after = lent_optional_text(Field::After, line)?;
    let most = optional_number(Field::Most, line)?;
    Ok(page_asked(after, most))
}

/// What a line asks of a path.
#[tactic(auto, unfolding(crate::specs::Commands::lookup_of))]
fn lookup_of(verb: LookupVerb, line: &Value<'_>) -> Result<Lookup, Fault>
    ensures { result ≡ lookup_of verb (view line.now) }
{
    match verb {
        LookupVerb::Look => Ok(Lookup::Look),
        LookupVerb::List => Ok(Lookup::List),
        LookupVerb::Read => {
            let offset = optional_number(Field::Offset, line)?;
            let most = optional_number(Field::Most, line)?;
            Ok(read_asked(offset, most))
        }
        LookupVerb::Resolve => Ok(Lookup::Resolve),
        LookupVerb::Usage => Ok(Lookup::Usage),
    }
}

/// The command of a line by its verb, and by the fields that its operations may have.
#[tactic(auto, unfolding(crate::specs::Commands::command_of))]
pub(crate) fn command_of<'a>(
    alloc: Global,
    rule: FieldRule,
    verb: Verb,
    line: &Value<'a>,
) -> Result<Command<'a>, ReadError>
    ensures { Gives (λ c. c) result (command_of rule verb (view line.now)) }
{
    match verb {
        Verb::Open => Ok(Command::Open {
            config: config_of(alloc, line)?,
        }),
        Verb::Reopen => Ok(Command::Reopen {
            journal: number_or(MAX_JOURNAL, Field::Journal, line)?,
        }),
        Verb::Roll => Ok(Command::Roll {
            journal: number_or(MAX_JOURNAL, Field::Journal, line)?,
        }),
        Verb::Call(kind) => call_of(alloc, kind, line),
        Verb::File(verb) => {
            let (namespace, key) = lent_named(line)?;
            Ok(Command::File {
                namespace,
                key,
                operation: file_operation(alloc, verb, line)?,
                extra: usage_or(Usage::ZERO, Field::Extra, line)?,
            })
        }
        Verb::Batch => batch(alloc, rule, line),
        Verb::Lookup(verb) => {
            let (namespace, key) = lent_named(line)?;
            let path = path_in(alloc, Field::Path, line)?;
            Ok(Command::Lookup {
                namespace,
                key,
                lookup: lookup_of(verb, line)?,
                path,
                peek: is_true(Field::Peek, line)?,
            })
        }
        Verb::Quota => Ok(Command::Quota {
            namespace: lent_optional_text(Field::Namespace, line)?,
        }),
        Verb::Leases => Ok(Command::Leases {
            namespace: LentText::new(lent_text(Field::Namespace, line)?),
            lease: lent_optional_text(Field::Lease, line)?,
        }),
        Verb::Tree => Ok(Command::Tree {
            namespace: LentText::new(lent_text(Field::Namespace, line)?),
            page: page_in(line)?,
        }),
        Verb::Diff => diff(alloc, line),
        Verb::Journal => Ok(Command::Journal {
            namespace: lent_optional_text(Field::Namespace, line)?,
            after: number_or(0, Field::After, line)?,
            most: number_or(PAGE, Field::Most, line)?,
            full: is_true(Field::Full, line)?,
        }),
        Verb::Report => Ok(Command::Report),
        Verb::Restore => Ok(Command::Restore(restored(alloc, line)?)),
        Verb::Save => Ok(Command::Save {
            after: number_or(0, Field::After, line)?,
            most: number_or(SAVED_PAGE, Field::Most, line)?,
        }),
    }
}
