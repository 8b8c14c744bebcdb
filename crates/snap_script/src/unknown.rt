// The fields that a line may have, and the members of its object that are none of them.
ghost use Rattle.std.specs.Prelude.{◌≡◌, IfOk, option_and_then, option_map};
ghost use Rattle.std.specs.List.{list_all};
ghost use Rattle.serde_json.specs.Find.{as_object};
ghost use Rattle.snap_json.specs.View.{view, members_of};
ghost use Rattle.snap_history.specs.declared.kind.CallKind.TheVariants as kinds;
ghost use Rattle.snap_script.specs.Known.{common_fields, fields_of, is_field_among, is_known, is_restore, job_fields, known_fields, known_job, known_operation, known_within, near_field, operation_fields, unknown_among};
ghost use Rattle.snap_script.specs.Gives.{Gives};
ghost use Rattle.snap_script.specs.declared.verb.Verb.TheVariants as verbs;
ghost use Rattle.snap_script.specs.declared.verb.FileVerb.TheVariants as file_verbs;

use crate::fault::{Fault, Field, ReadError};
use crate::near::is_near;
use crate::verb::{FileVerb, LookupVerb, PathVerb, Verb};
use snap_history::CallKind;
use snap_json::{Member, Value, by_name};
use snap_record::Text;
use std::alloc::{AllocError, Global};
use std::collections::BTreeMap;

/// Which fields a line may have.
#[derive(Clone, Copy, Debug, PartialEq, Eq)]
pub enum FieldRule {
    /// Any: those that its command, or a job, doesn't have aren't looked at. A fault is [brief](Fault::brief).
    Any,
    /// `do`, `s` and those of its command; in a job, which has no command, its own.
    Known,
    /// The same, and `id`.
    KnownAndId,
}

/// The fields of a line beside those of its command, where not any may stand there.
fn common_fields(rule: FieldRule) -> &'static [Field]
    ensures { result.now ≡ common_fields rule }
{
    match rule {
        FieldRule::Any => &[],
        FieldRule::Known => &[Field::Do, Field::Session],
        FieldRule::KnownAndId => &[Field::Do, Field::Session, Field::Id],
    }
}

/// The fields of a call.
fn call_fields(kind: CallKind) -> &'static [Field]
    ensures { result.now ≡ fields_of (verbs.Call kind) }
{
    match kind {
        CallKind::Session => &[],
        CallKind::Prepare | CallKind::View => {
            &[Field::Namespace, Field::Key, Field::Parent, Field::Labels]
        }
        CallKind::Charge => &[Field::Namespace, Field::Key, Field::Need, Field::Want],
        CallKind::Commit => &[
            Field::Namespace,
            Field::Key,
            Field::Name,
            Field::Lease,
            Field::Labels,
        ],
        CallKind::Update => &[Field::Namespace, Field::Key, Field::Labels, Field::Paths],
        CallKind::Trim | CallKind::Discard | CallKind::Remove => &[Field::Namespace, Field::Key],
        CallKind::Stat | CallKind::Mounts => &[Field::Namespace, Field::Key, Field::Quiet],
        CallKind::Usage => &[Field::Namespace, Field::Key, Field::Chain, Field::Quiet],
        CallKind::Walk => &[
            Field::Namespace,
            Field::After,
            Field::Most,
            Field::Name,
            Field::Parent,
            Field::Kind,
            Field::Labels,
            Field::Quiet,
        ],
        CallKind::Limit | CallKind::NamespaceCreate => {
            &[Field::Namespace, Field::Blocks, Field::Inodes]
        }
        CallKind::NamespaceRemove => &[Field::Namespace],
        CallKind::LeaseCreate => &[Field::Namespace, Field::Lease, Field::Until],
        CallKind::LeaseAdd | CallKind::LeaseDrop => &[Field::Namespace, Field::Lease, Field::Name],
        CallKind::LeaseRelease => &[Field::Namespace, Field::Lease],
        CallKind::Sweep => &[Field::Namespace, Field::Moment, Field::Try],
    }
}

/// The fields of a file command at one path. The first three are those that a job has for all its operations.
fn path_fields(verb: PathVerb) -> &'static [Field]
    ensures { result.now ≡ fields_of (verbs.File (file_verbs.At verb)) }
{
    match verb {
        PathVerb::Mkdir | PathVerb::Create | PathVerb::SetMode => &[
            Field::Namespace,
            Field::Key,
            Field::Extra,
            Field::Path,
            Field::Mode,
        ],
        PathVerb::Put => &[
            Field::Namespace,
            Field::Key,
            Field::Extra,
            Field::Path,
            Field::Mode,
            Field::Size,
            Field::Digest,
        ],
        PathVerb::Write => &[
            Field::Namespace,
            Field::Key,
            Field::Extra,
            Field::Path,
            Field::Offset,
            Field::Text,
            Field::Fill,
        ],
        PathVerb::Truncate => &[
            Field::Namespace,
            Field::Key,
            Field::Extra,
            Field::Path,
            Field::Size,
        ],
        PathVerb::Symlink => &[
            Field::Namespace,
            Field::Key,
            Field::Extra,
            Field::Path,
            Field::Target,
        ],
        PathVerb::Unlink | PathVerb::Rmdir | PathVerb::Opaque | PathVerb::Whiteout => {
            &[Field::Namespace, Field::Key, Field::Extra, Field::Path]
        }
    }
}

/// The fields of a command.
fn fields_of(verb: Verb) -> &'static [Field]
    ensures { result.now ≡ fields_of verb }
{
    match verb {
        Verb::Open => &[
            Field::Root,
            Field::Namespaces,
            Field::Journal,
            Field::Slots,
            Field::LayerInodes,
            Field::Ancestors,
        ],
        Verb::Reopen | Verb::Roll => &[Field::Journal],
        Verb::Call(kind) => call_fields(kind),
        Verb::File(FileVerb::At(verb)) => path_fields(verb),
        Verb::File(FileVerb::Link | FileVerb::Rename) => &[
            Field::Namespace,
            Field::Key,
            Field::Extra,
            Field::From,
            Field::To,
        ],
        Verb::Batch => &[
            Field::Namespace,
            Field::Key,
            Field::Need,
            Field::Ops,
            Field::Whole,
        ],
        Verb::Lookup(
            LookupVerb::Look | LookupVerb::List | LookupVerb::Resolve | LookupVerb::Usage,
        ) => { &[Field::Namespace, Field::Key, Field::Path, Field::Peek] }
        Verb::Lookup(LookupVerb::Read) => &[
            Field::Namespace,
            Field::Key,
            Field::Path,
            Field::Peek,
            Field::Offset,
            Field::Most,
        ],
        Verb::Quota => &[Field::Namespace],
        Verb::Tree => &[Field::Namespace, Field::After, Field::Most],
        Verb::Leases => &[Field::Namespace, Field::Lease],
        Verb::Diff => &[Field::Namespace, Field::Key, Field::After, Field::Most],
        Verb::Journal => &[Field::Namespace, Field::After, Field::Most, Field::Full],
        Verb::Save => &[Field::After, Field::Most],
        Verb::Report | Verb::Restore => &[],
    }
}

/// Whether one of the fields has the name.
fn is_among(mut fields: &[Field], name: &str) -> bool
    ensures { result ≡ is_field_among fields.entry.now name.now }
{
    while let [field, rest @ ..] = fields {
        if name == field.name() {
            return true;
        }
        fields = rest;
    }
    false
}

fn is_known(common: &[Field], own: &[Field], name: &str) -> bool
    ensures { result ≡ is_known common.now own.now name.now }
{
    is_among(common, name) || is_among(own, name)
}

/// Whether the name of each member is known.
fn are_known(common: &[Field], own: &[Field], members: &[Member<'_>]) -> bool
    ensures { result ≡ list_all (λ m. is_known common.now own.now m.0.now) members.now }
{
    for member in members {
        if !is_known(common, own, member.0) {
            return false;
        }
    }
    true
}

/// The first name that isn't known, in byte order.
fn first_unknown<'a>(
    common: &[Field],
    own: &[Field],
    members: &BTreeMap<&'a str, &Value<'a>>,
) -> Option<&'a str>
    ensures { option_map (λ name. name.now) result ≡ unknown_among common.now own.now (members_of members.now.entries) }
{
    for (name, _) in members.iter() {
        if !is_known(common, own, name) {
            return Some(*name);
        }
    }
    None
}

/// The name of a member that isn't known, the first in byte order. Memory is taken only where there is one.
fn unknown_in(
    alloc: Global,
    common: &[Field],
    own: &[Field],
    line: &Value<'_>,
) -> Result<Option<Text>, AllocError>
    ensures { IfOk result (λ name. name ≡ option_and_then (unknown_among common.now own.now) (as_object (view line.now))) }
{
    let Some(members) = line.as_object() else {
        return Ok(None);
    };
    if are_known(common, own, members) {
        return Ok(None);
    }
    match first_unknown(common, own, &by_name(alloc, members)?) {
        Some(name) => Ok(Some(Text::copy_of(alloc, name)?)),
        None => Ok(None),
    }
}

/// The first of the fields whose name is near.
fn near_field(mut fields: &[Field], name: &str) -> Option<Field>
    ensures { result ≡ near_field fields.entry.now name.now }
{
    while let [field, rest @ ..] = fields {
        if is_near(field.name().as_bytes(), name.as_bytes()) {
            return Some(*field);
        }
        fields = rest;
    }
    None
}

/// That an object has no field but the common ones and its own. The cost grows with the members, and memory is taken
/// only where there is another one.
fn known_within(
    alloc: Global,
    common: &[Field],
    own: &[Field],
    object: &Value<'_>,
) -> Result<(), ReadError>
    ensures { Gives (λ done. done) result (known_within common.now own.now (view object.now)) }
{
    match unknown_in(alloc, common, own, object)? {
        Some(name) => {
            let near = near_field(own, name.as_str());
            Err(ReadError::Fault(Fault::UnknownField(name, near)))
        }
        None => Ok(()),
    }
}

/// Whether the command is a line of a saved store.
fn is_restore(verb: Verb) -> bool
    ensures { result ≡ is_restore verb }
{
    match verb {
        Verb::Restore => true,
        Verb::Open
        | Verb::Reopen
        | Verb::Roll
        | Verb::Call(_)
        | Verb::File(_)
        | Verb::Batch
        | Verb::Lookup(_)
        | Verb::Quota
        | Verb::Leases
        | Verb::Tree
        | Verb::Diff
        | Verb::Journal
        | Verb::Report
        | Verb::Save => false,
    }
}

/// That the line of a command has no field but those that it may have. A line of a saved store may have any.
#[tactic(auto, unfolding(crate::specs::Known::known_fields))]
pub(crate) fn known_fields(
    alloc: Global,
    rule: FieldRule,
    verb: Verb,
    line: &Value<'_>,
) -> Result<(), ReadError>
    ensures { Gives (λ done. done) result (known_fields rule verb (view line.now)) }
{
    if is_restore(verb) {
        return Ok(());
    }
    match rule {
        FieldRule::Any => Ok(()),
        FieldRule::Known | FieldRule::KnownAndId => {
            known_within(alloc, common_fields(rule), fields_of(verb), line)
        }
    }
}

/// The fields of an operation of a job beside its word.
fn operation_fields(verb: FileVerb) -> &'static [Field]
    ensures { result.now ≡ operation_fields verb }
{
    match fields_of(Verb::File(verb)) {
        [_, _, _, own @ ..] => own,
        _ => &[],
    }
}

/// That an operation of a job has no field but those that it may have.
#[tactic(auto, unfolding(crate::specs::Known::known_operation))]
pub(crate) fn known_operation(
    alloc: Global,
    rule: FieldRule,
    verb: FileVerb,
    value: &Value<'_>,
) -> Result<(), ReadError>
    ensures { Gives (λ done. done) result (known_operation rule verb (view value.now)) }
{
    match rule {
        FieldRule::Any => Ok(()),
        FieldRule::Known | FieldRule::KnownAndId => {
            known_within(alloc, &[Field::Do], operation_fields(verb), value)
        }
    }
}

/// The fields of a job's line.
fn job_fields() -> &'static [Field]
    ensures { result.now ≡ job_fields }
{
    &[
        Field::Namespace,
        Field::Key,
        Field::Parent,
        Field::Ops,
        Field::End,
        Field::Name,
        Field::Lease,
        Field::Labels,
        Field::Extra,
    ]
}

/// That the line of a job has no field but those that it may have.
///
/// `UnknownField` with the first other one in byte order, except where any field may stand; `OutOfMemory` where memory
/// for its name was refused. The cost grows with the line's members, and memory is taken only where there is another
/// field.
#[tactic(auto, unfolding(crate::specs::Known::known_job))]
pub fn known_job(alloc: Global, rule: FieldRule, line: &Value<'_>) -> Result<(), ReadError>
    ensures { Gives (λ done. done) result (known_job rule (view line.now)) }
{
    match rule {
        FieldRule::Any => Ok(()),
        FieldRule::Known => known_within(alloc, &[], job_fields(), line),
        FieldRule::KnownAndId => known_within(alloc, &[Field::Id], job_fields(), line),
    }
}
