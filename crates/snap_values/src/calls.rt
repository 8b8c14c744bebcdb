//! The line of a script that makes a call.
ghost use Rattle.std.specs.Prelude.{◌≡◌, [], None, IfOk, OnOk, codes};
ghost use Rattle.serde_json.specs.Data.{member, object, string};
ghost use Rattle.snap_call.specs.declared.call.Call.TheVariants as calls;
ghost use Rattle.snap_json.specs.Tokens.{with_members, with_value};
ghost use Rattle.snap_record.specs.Kinds.{kind_word};
ghost use Rattle.snap_values.specs.Calls.{call_line, wanted_data, wanted_members};
ghost use Rattle.snap_values.specs.WrittenCalls.{ends, held_line, limited_line, new_line, ordered_data, word_data};

use crate::to_json::{ToJson, maybe, member};
use snap_call::Call;
use snap_history::CallKind;
use snap_json::{Token, Writer};
use snap_record::{Filter, Kind, LabelFilter, Labels, Sequence, Text};
use snap_usage::Usage;
use std::alloc::{AllocError, Global};

/// The kind's word.
impl ToJson for Kind {
    ghost value = { λ kind. string (kind_word kind) };

    fn write(&self, _alloc: Global, out: &mut Writer) -> Result<(), AllocError> {
        out.token(Token::String(self.as_str()))
    }
}

/// The value that a label has to have, or null where any will do.
impl ToJson for Option<Text> {
    ghost value = { wanted_data };

    fn write(&self, alloc: Global, out: &mut Writer) -> Result<(), AllocError> {
        match self {
            Some(value) => value.write(alloc, out),
            None => out.token(Token::Null),
        }
    }
}

/// The labels that are asked for, in their order.
fn wanted_labels(alloc: Global, out: &mut Writer, labels: &[LabelFilter]) -> Result<(), AllocError>
    ensures { OnOk result (out.new ≡ with_value (object (wanted_members labels.now)) out.old) }
{
    out.token(Token::BeginObject)?;
    for label in labels {
        member(alloc, out, label.key.as_str(), &label.value)?;
    }
    out.token(Token::EndObject)
}

/// The namespace and the session, with which most lines end.
fn end(alloc: Global, out: &mut Writer, namespace: &Text, session: u64) -> Result<(), AllocError>
    ensures { OnOk result (out.new ≡ with_members (ends namespace.now session) out.old) }
{
    member(alloc, out, "ns", namespace)?;
    member(alloc, out, "s", &session)?;
    out.token(Token::EndObject)
}

/// A call on a snapshot by its key, which may not be known.
#[tactic(auto, using(crate::proofs::Maps::with_members_maybe))]
fn held(
    alloc: Global,
    out: &mut Writer,
    call: CallKind,
    namespace: &Text,
    session: u64,
    key: &Option<Text>,
) -> Result<(), AllocError>
    ensures { OnOk result (out.new ≡ with_value (held_line call namespace.now session key.now) out.old) }
{
    out.token(Token::BeginObject)?;
    member(alloc, out, "do", &call.as_str())?;
    maybe(alloc, out, "key", key)?;
    end(alloc, out, namespace, session)
}

/// A call on a snapshot by its key, or on a lease by its name, which is the member of this name.
fn named(
    alloc: Global,
    out: &mut Writer,
    call: CallKind,
    namespace: &Text,
    session: u64,
    field: &str,
    name: &Text,
) -> Result<(), AllocError>
    ensures { OnOk result (out.new ≡ with_value (object (member (codes "do") (word_data call) (member field.now (string name.now) (ends namespace.now session)))) out.old) }
{
    out.token(Token::BeginObject)?;
    member(alloc, out, "do", &call.as_str())?;
    member(alloc, out, field, name)?;
    end(alloc, out, namespace, session)
}

/// A call that makes a snapshot.
fn made(
    alloc: Global,
    out: &mut Writer,
    call: CallKind,
    namespace: &Text,
    session: u64,
    key: &Text,
    parent: &Text,
    labels: &Labels,
) -> Result<(), AllocError>
    ensures { OnOk result (out.new ≡ with_value (new_line call namespace.now session key.now parent.now labels.now) out.old) }
{
    out.token(Token::BeginObject)?;
    member(alloc, out, "do", &call.as_str())?;
    member(alloc, out, "key", key)?;
    member(alloc, out, "labels", labels)?;
    member(alloc, out, "ns", namespace)?;
    member(alloc, out, "parent", parent)?;
    member(alloc, out, "s", &session)?;
    out.token(Token::EndObject)
}

fn session_call(alloc: Global, out: &mut Writer, session: u64) -> Result<(), AllocError>
    ensures { OnOk result (out.new ≡ with_value (ordered_data [] session None calls.Session) out.old) }
{
    out.token(Token::BeginObject)?;
    member(alloc, out, "do", &CallKind::Session.as_str())?;
    member(alloc, out, "s", &session)?;
    out.token(Token::EndObject)
}

#[tactic(auto, using(crate::proofs::Maps::with_members_maybe))]
fn charge(
    alloc: Global,
    out: &mut Writer,
    namespace: &Text,
    session: u64,
    key: &Option<Text>,
    need: Usage,
    want: Usage,
) -> Result<(), AllocError>
    ensures { OnOk result (out.new ≡ with_value (ordered_data namespace.now session key.now (calls.Charge 0 0 need want)) out.old) }
{
    out.token(Token::BeginObject)?;
    member(alloc, out, "do", &CallKind::Charge.as_str())?;
    maybe(alloc, out, "key", key)?;
    member(alloc, out, "need", &need)?;
    member(alloc, out, "ns", namespace)?;
    member(alloc, out, "s", &session)?;
    member(alloc, out, "want", &want)?;
    out.token(Token::EndObject)
}

#[tactic(auto, using(crate::proofs::Maps::with_members_maybe))]
fn commit(
    alloc: Global,
    out: &mut Writer,
    namespace: &Text,
    session: u64,
    key: &Option<Text>,
    name: &Text,
    lease: &Option<Text>,
    labels: &Option<Labels>,
) -> Result<(), AllocError>
    ensures { OnOk result (out.new ≡ with_value (ordered_data namespace.now session key.now (calls.Commit 0 0 name.now lease.now labels.now)) out.old) }
{
    out.token(Token::BeginObject)?;
    member(alloc, out, "do", &CallKind::Commit.as_str())?;
    maybe(alloc, out, "key", key)?;
    maybe(alloc, out, "labels", labels)?;
    maybe(alloc, out, "lease", lease)?;
    member(alloc, out, "name", name)?;
    end(alloc, out, namespace, session)
}

fn update(
    alloc: Global,
    out: &mut Writer,
    namespace: &Text,
    session: u64,
    key: &Text,
    labels: &Labels,
    paths: &Sequence<Text>,
) -> Result<(), AllocError>
    ensures { OnOk result (out.new ≡ with_value (ordered_data [] session None (calls.Update namespace.now key.now labels.now paths.now)) out.old) }
{
    out.token(Token::BeginObject)?;
    member(alloc, out, "do", &CallKind::Update.as_str())?;
    member(alloc, out, "key", key)?;
    member(alloc, out, "labels", labels)?;
    member(alloc, out, "ns", namespace)?;
    member(alloc, out, "paths", paths)?;
    member(alloc, out, "s", &session)?;
    out.token(Token::EndObject)
}

#[tactic(auto, using(crate::proofs::Maps::with_members_maybe))]
fn walk(
    alloc: Global,
    out: &mut Writer,
    namespace: &Text,
    session: u64,
    after: &Text,
    most: u64,
    asked: &Filter,
) -> Result<(), AllocError>
    ensures { OnOk result (out.new ≡ with_value (ordered_data [] session None (calls.Walk namespace.now after.now most asked.now)) out.old) }
{
    out.token(Token::BeginObject)?;
    member(alloc, out, "after", after)?;
    member(alloc, out, "do", &CallKind::Walk.as_str())?;
    maybe(alloc, out, "kind", &asked.kind)?;
    out.token(Token::Key("labels"))?;
    wanted_labels(alloc, out, asked.labels.as_slice())?;
    member(alloc, out, "max", &most)?;
    maybe(alloc, out, "name", &asked.name)?;
    member(alloc, out, "ns", namespace)?;
    maybe(alloc, out, "parent", &asked.parent)?;
    member(alloc, out, "s", &session)?;
    out.token(Token::EndObject)
}

// A call that gives a namespace its limit.
fn limited(
    alloc: Global,
    out: &mut Writer,
    call: CallKind,
    namespace: &Text,
    session: u64,
    limit: Usage,
) -> Result<(), AllocError>
    ensures { OnOk result (out.new ≡ with_value (limited_line call namespace.now session limit) out.old) }
{
    out.token(Token::BeginObject)?;
    member(alloc, out, "blocks", &limit.blocks)?;
    member(alloc, out, "do", &call.as_str())?;
    member(alloc, out, "inodes", &limit.inodes)?;
    end(alloc, out, namespace, session)
}

#[tactic(auto, using(crate::proofs::Maps::with_members_maybe))]
fn lease_create(
    alloc: Global,
    out: &mut Writer,
    namespace: &Text,
    session: u64,
    lease: &Text,
    until: &Option<u64>,
) -> Result<(), AllocError>
    ensures { OnOk result (out.new ≡ with_value (ordered_data [] session None (calls.LeaseCreate namespace.now lease.now until.now)) out.old) }
{
    out.token(Token::BeginObject)?;
    member(alloc, out, "do", &CallKind::LeaseCreate.as_str())?;
    member(alloc, out, "lease", lease)?;
    member(alloc, out, "ns", namespace)?;
    member(alloc, out, "s", &session)?;
    maybe(alloc, out, "until", until)?;
    out.token(Token::EndObject)
}

/// A call on a lease and a name that it has, or is to have.
fn leased(
    alloc: Global,
    out: &mut Writer,
    call: CallKind,
    namespace: &Text,
    session: u64,
    lease: &Text,
    name: &Text,
) -> Result<(), AllocError>
    ensures { OnOk result (out.new ≡ with_value (object (member (codes "do") (word_data call) (member (codes "lease") (string lease.now) (member (codes "name") (string name.now) (ends namespace.now session))))) out.old) }
{
    out.token(Token::BeginObject)?;
    member(alloc, out, "do", &call.as_str())?;
    member(alloc, out, "lease", lease)?;
    member(alloc, out, "name", name)?;
    end(alloc, out, namespace, session)
}

fn sweep(
    alloc: Global,
    out: &mut Writer,
    namespace: &Text,
    session: u64,
    moment: u64,
) -> Result<(), AllocError>
    ensures { OnOk result (out.new ≡ with_value (ordered_data [] session None (calls.Sweep namespace.now moment)) out.old) }
{
    out.token(Token::BeginObject)?;
    member(alloc, out, "do", &CallKind::Sweep.as_str())?;
    member(alloc, out, "now", &moment)?;
    end(alloc, out, namespace, session)
}

/// The members of the call's line.
fn write_call(
    alloc: Global,
    out: &mut Writer,
    own: &Text,
    n: u64,
    key: &Option<Text>,
    call: &Call,
) -> Result<(), AllocError>
    ensures { OnOk result (out.new ≡ with_value (ordered_data own.now n key.now call.now) out.old) }
{
    match call {
        Call::Session => session_call(alloc, out, n),
        Call::Prepare {
            namespace,
            key,
            parent,
            labels,
        } => made(
            alloc,
            out,
            CallKind::Prepare,
            namespace,
            n,
            key,
            parent,
            labels,
        ),
        Call::View {
            namespace,
            key,
            parent,
            labels,
        } => made(
            alloc,
            out,
            CallKind::View,
            namespace,
            n,
            key,
            parent,
            labels,
        ),
        Call::Charge { need, want, .. } => charge(alloc, out, own, n, key, *need, *want),
        Call::Trim { .. } => held(alloc, out, CallKind::Trim, own, n, key),
        Call::Commit {
            name,
            lease,
            labels,
            ..
        } => commit(alloc, out, own, n, key, name, lease, labels),
        Call::Discard { .. } => held(alloc, out, CallKind::Discard, own, n, key),
        Call::Remove { namespace, key } => named(
            alloc,
            out,
            CallKind::Remove,
            namespace,
            n,
            "key",
            key,
        ),
        Call::Stat { namespace, key } => named(
            alloc,
            out,
            CallKind::Stat,
            namespace,
            n,
            "key",
            key,
        ),
        Call::Usage { namespace, key } => named(
            alloc,
            out,
            CallKind::Usage,
            namespace,
            n,
            "key",
            key,
        ),
        Call::Mounts { namespace, key } => named(
            alloc,
            out,
            CallKind::Mounts,
            namespace,
            n,
            "key",
            key,
        ),
        Call::Update {
            namespace,
            key,
            labels,
            paths,
        } => update(alloc, out, namespace, n, key, labels, paths),
        Call::Walk {
            namespace,
            after,
            most,
            asked,
        } => walk(alloc, out, namespace, n, after, *most, asked),
        Call::SetLimit { namespace, limit } => {
            limited(alloc, out, CallKind::Limit, namespace, n, *limit)
        }
        Call::NamespaceCreate { namespace, limit } => {
            limited(alloc, out, CallKind::NamespaceCreate, namespace, n, *limit)
        }
        Call::NamespaceRemove { namespace } => held(
            alloc,
            out,
            CallKind::NamespaceRemove,
            namespace,
            n,
            &None,
        ),
        Call::LeaseCreate {
            namespace,
            lease,
            until,
        } => lease_create(alloc, out, namespace, n, lease, until),
        Call::LeaseAdd {
            namespace,
            lease,
            name,
        } => leased(alloc, out, CallKind::LeaseAdd, namespace, n, lease, name),
        Call::LeaseDrop {
            namespace,
            lease,
            name,
        } => leased(alloc, out, CallKind::LeaseDrop, namespace, n, lease, name),
        Call::LeaseRelease { namespace, lease } => named(
            alloc,
            out,
            CallKind::LeaseRelease,
            namespace,
            n,
            "lease",
            lease,
        ),
        Call::Sweep { namespace, moment } => sweep(alloc, out, namespace, n, *moment),
    }
}

/// The line of a script that makes the call in a session: compact JSON, the keys of each object in byte order but for
/// the labels that a walk asks for, without a line feed. A call on an active snapshot, which names it by its slot, has
/// this namespace, and this key where there is one; any other call has its own. The cost and the memory grow with the
/// line.
#[tactic(auto, using(crate::proofs::Ordered::line_ordered))]
pub fn call_line(
    alloc: Global,
    namespace: &Text,
    session: u64,
    key: &Option<Text>,
    call: &Call,
) -> Result<Text, AllocError>
    ensures { IfOk result (λ line. line ≡ call_line namespace.now session key.now call.now) }
{
    let mut out = Writer::new(alloc)?;
    write_call(alloc, &mut out, namespace, session, key, call)?;
    Ok(Text::from(out.finish()))
}
