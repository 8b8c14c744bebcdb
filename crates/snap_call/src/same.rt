//! Equality of plain data, as it is in contracts.
ghost use Rattle.std.specs.Prelude.{◌≡◌, IsTrue, ◌↔◌};
ghost use Rattle.snap_call.specs.declared.call.Call.TheVariants as calls;

use crate::call::{Call, Given};
use crate::reply::Reply;
use snap_mount::Mount;
use snap_record::{Filter, Info, LabelFilter, Labels, Sequence, Text};
use snap_usage::Usage;

pub(crate) fn is_same_labels(a: &Labels, b: &Labels) -> bool
    ensures { IsTrue result ↔ (a.now ≡ b.now) }
{
    *a == *b
}

fn is_same_given_labels(a: &Option<Labels>, b: &Option<Labels>) -> bool
    ensures { IsTrue result ↔ (a.now ≡ b.now) }
{
    match (a, b) {
        (None, None) => true,
        (Some(a), Some(b)) => is_same_labels(a, b),
        _ => false,
    }
}

pub(crate) fn is_same_info(a: &Info, b: &Info) -> bool
    ensures { IsTrue result ↔ (a.now ≡ b.now) }
{
    a.kind == b.kind
        && a.name == b.name
        && a.parent == b.parent
        && is_same_labels(&a.labels, &b.labels)
        && a.created == b.created
        && a.updated == b.updated
        && a.id == b.id
}

pub(crate) fn is_same_mounts(a: &Sequence<Mount>, b: &Sequence<Mount>) -> bool
    ensures { IsTrue result ↔ (a.now ≡ b.now) }
{
    *a == *b
}

pub(crate) fn is_same_infos(a: &Sequence<Info>, b: &Sequence<Info>) -> bool
    ensures { IsTrue result ↔ (a.now ≡ b.now) }
{
    *a == *b
}

fn is_same_label_filters(a: &Sequence<LabelFilter>, b: &Sequence<LabelFilter>) -> bool
    ensures { IsTrue result ↔ (a.now ≡ b.now) }
{
    *a == *b
}

pub(crate) fn is_same_filter(a: &Filter, b: &Filter) -> bool
    ensures { IsTrue result ↔ (a.now ≡ b.now) }
{
    a.name == b.name
        && a.parent == b.parent
        && a.kind == b.kind
        && is_same_label_filters(&a.labels, &b.labels)
}

pub(crate) fn is_same_texts(a: &Sequence<Text>, b: &Sequence<Text>) -> bool
    ensures { IsTrue result ↔ (a.now ≡ b.now) }
{
    *a == *b
}

pub(crate) fn is_same_given(a: &Given, b: &Given) -> bool
    ensures { IsTrue result ↔ (a.now ≡ b.now) }
{
    match (a, b) {
        (Given::Nothing, Given::Nothing) => true,
        (Given::Count(a), Given::Count(b)) => *a == *b,
        (Given::Layer(a), Given::Layer(b)) => *a == *b,
        _ => false,
    }
}

pub(crate) fn is_same_call(a: &Call, b: &Call) -> bool
    ensures { IsTrue result ↔ (a.now ≡ b.now) }
{
    match a {
        Call::Session => matches!(b, Call::Session),
        Call::Prepare {
            namespace,
            key,
            parent,
            labels,
        } => is_prepare(b, namespace, key, parent, labels),
        Call::Charge {
            slot,
            id,
            need,
            want,
        } => is_charge(b, *slot, *id, *need, *want),
        Call::Trim { slot, id } => is_trim(b, *slot, *id),
        Call::Commit {
            slot,
            id,
            name,
            lease,
            labels,
        } => is_commit(b, *slot, *id, name, lease, labels),
        Call::Discard { slot, id } => is_discard(b, *slot, *id),
        Call::Stat { namespace, key } => is_stat(b, namespace, key),
        Call::Usage { namespace, key } => is_usage(b, namespace, key),
        Call::Mounts { namespace, key } => is_mounts(b, namespace, key),
        Call::View {
            namespace,
            key,
            parent,
            labels,
        } => is_view(b, namespace, key, parent, labels),
        Call::Remove { namespace, key } => is_remove(b, namespace, key),
        Call::Update {
            namespace,
            key,
            labels,
            paths,
        } => is_update(b, namespace, key, labels, paths),
        Call::Walk {
            namespace,
            after,
            most,
            asked,
        } => is_walk(b, namespace, after, *most, asked),
        Call::NamespaceCreate { namespace, limit } => is_namespace_create(b, namespace, *limit),
        Call::NamespaceRemove { namespace } => is_namespace_remove(b, namespace),
        Call::SetLimit { namespace, limit } => is_set_limit(b, namespace, *limit),
        Call::LeaseCreate {
            namespace,
            lease,
            until,
        } => is_lease_create(b, namespace, lease, *until),
        Call::LeaseAdd {
            namespace,
            lease,
            name,
        } => is_lease_add(b, namespace, lease, name),
        Call::LeaseDrop {
            namespace,
            lease,
            name,
        } => is_lease_drop(b, namespace, lease, name),
        Call::LeaseRelease { namespace, lease } => is_lease_release(b, namespace, lease),
        Call::Sweep { namespace, moment } => is_sweep(b, namespace, *moment),
    }
}

fn is_prepare(call: &Call, namespace: &Text, key: &Text, parent: &Text, labels: &Labels) -> bool
    ensures { IsTrue result ↔ (calls.Prepare namespace.now key.now parent.now labels.now ≡ call.now) }
{
    match call {
        Call::Prepare {
            namespace: n,
            key: k,
            parent: p,
            labels: l,
        } => *namespace == *n && *key == *k && *parent == *p && is_same_labels(labels, l),
        _ => false,
    }
}

fn is_charge(call: &Call, slot: u64, id: u32, need: Usage, want: Usage) -> bool
    ensures { IsTrue result ↔ (calls.Charge slot id need want ≡ call.now) }
{
    match call {
        Call::Charge {
            slot: s,
            id: i,
            need: n,
            want: w,
        } => slot == *s && id == *i && need == *n && want == *w,
        _ => false,
    }
}

fn is_trim(call: &Call, slot: u64, id: u32) -> bool
    ensures { IsTrue result ↔ (calls.Trim slot id ≡ call.now) }
{
    match call {
        Call::Trim { slot: s, id: i } => slot == *s && id == *i,
        _ => false,
    }
}

fn is_commit(
    call: &Call,
    slot: u64,
    id: u32,
    name: &Text,
    lease: &Option<Text>,
    labels: &Option<Labels>,
) -> bool
    ensures { IsTrue result ↔ (calls.Commit slot id name.now lease.now labels.now ≡ call.now) }
{
    match call {
        Call::Commit {
            slot: s,
            id: i,
            name: n,
            lease: l,
            labels: t,
        } => {
            slot == *s && id == *i && *name == *n && *lease == *l && is_same_given_labels(labels, t)
        }
        _ => false,
    }
}

fn is_discard(call: &Call, slot: u64, id: u32) -> bool
    ensures { IsTrue result ↔ (calls.Discard slot id ≡ call.now) }
{
    match call {
        Call::Discard { slot: s, id: i } => slot == *s && id == *i,
        _ => false,
    }
}

fn is_stat(call: &Call, namespace: &Text, key: &Text) -> bool
    ensures { IsTrue result ↔ (calls.Stat namespace.now key.now ≡ call.now) }
{
    match call {
        Call::Stat {
            namespace: n,
            key: k,
        } => *namespace == *n && *key == *k,
        _ => false,
    }
}

fn is_usage(call: &Call, namespace: &Text, key: &Text) -> bool
    ensures { IsTrue result ↔ (calls.Usage namespace.now key.now ≡ call.now) }
{
    match call {
        Call::Usage {
            namespace: n,
            key: k,
        } => *namespace == *n && *key == *k,
        _ => false,
    }
}

fn is_mounts(call: &Call, namespace: &Text, key: &Text) -> bool
    ensures { IsTrue result ↔ (calls.Mounts namespace.now key.now ≡ call.now) }
{
    match call {
        Call::Mounts {
            namespace: n,
            key: k,
        } => *namespace == *n && *key == *k,
        _ => false,
    }
}

fn is_remove(call: &Call, namespace: &Text, key: &Text) -> bool
    ensures { IsTrue result ↔ (calls.Remove namespace.now key.now ≡ call.now) }
{
    match call {
        Call::Remove {
            namespace: n,
            key: k,
        } => *namespace == *n && *key == *k,
        _ => false,
    }
}

fn is_view(call: &Call, namespace: &Text, key: &Text, parent: &Text, labels: &Labels) -> bool
    ensures { IsTrue result ↔ (calls.View namespace.now key.now parent.now labels.now ≡ call.now) }
{
    match call {
        Call::View {
            namespace: n,
            key: k,
            parent: p,
            labels: l,
        } => *namespace == *n && *key == *k && *parent == *p && is_same_labels(labels, l),
        _ => false,
    }
}

fn is_update(
    call: &Call,
    namespace: &Text,
    key: &Text,
    labels: &Labels,
    paths: &Sequence<Text>,
) -> bool
    ensures { IsTrue result ↔ (calls.Update namespace.now key.now labels.now paths.now ≡ call.now) }
{
    match call {
        Call::Update {
            namespace: n,
            key: k,
            labels: l,
            paths: p,
        } => *namespace == *n && *key == *k && is_same_labels(labels, l) && is_same_texts(paths, p),
        _ => false,
    }
}

fn is_walk(call: &Call, namespace: &Text, after: &Text, most: u64, asked: &Filter) -> bool
    ensures { IsTrue result ↔ (calls.Walk namespace.now after.now most asked.now ≡ call.now) }
{
    match call {
        Call::Walk {
            namespace: n,
            after: a,
            most: m,
            asked: f,
        } => *namespace == *n && *after == *a && most == *m && is_same_filter(asked, f),
        _ => false,
    }
}

fn is_namespace_create(call: &Call, namespace: &Text, limit: Usage) -> bool
    ensures { IsTrue result ↔ (calls.NamespaceCreate namespace.now limit ≡ call.now) }
{
    match call {
        Call::NamespaceCreate {
            namespace: n,
            limit: l,
        } => *namespace == *n && limit == *l,
        _ => false,
    }
}

fn is_namespace_remove(call: &Call, namespace: &Text) -> bool
    ensures { IsTrue result ↔ (calls.NamespaceRemove namespace.now ≡ call.now) }
{
    match call {
        Call::NamespaceRemove { namespace: n } => *namespace == *n,
        _ => false,
    }
}

fn is_set_limit(call: &Call, namespace: &Text, limit: Usage) -> bool
    ensures { IsTrue result ↔ (calls.SetLimit namespace.now limit ≡ call.now) }
{
    match call {
        Call::SetLimit {
            namespace: n,
            limit: l,
        } => *namespace == *n && limit == *l,
        _ => false,
    }
}

fn is_lease_create(call: &Call, namespace: &Text, lease: &Text, until: Option<u64>) -> bool
    ensures { IsTrue result ↔ (calls.LeaseCreate namespace.now lease.now until ≡ call.now) }
{
    match call {
        Call::LeaseCreate {
            namespace: n,
            lease: l,
            until: u,
        } => *namespace == *n && *lease == *l && until == *u,
        _ => false,
    }
}

fn is_lease_add(call: &Call, namespace: &Text, lease: &Text, name: &Text) -> bool
    ensures { IsTrue result ↔ (calls.LeaseAdd namespace.now lease.now name.now ≡ call.now) }
{
    match call {
        Call::LeaseAdd {
            namespace: n,
            lease: l,
            name: k,
        } => *namespace == *n && *lease == *l && *name == *k,
        _ => false,
    }
}

fn is_lease_drop(call: &Call, namespace: &Text, lease: &Text, name: &Text) -> bool
    ensures { IsTrue result ↔ (calls.LeaseDrop namespace.now lease.now name.now ≡ call.now) }
{
    match call {
        Call::LeaseDrop {
            namespace: n,
            lease: l,
            name: k,
        } => *namespace == *n && *lease == *l && *name == *k,
        _ => false,
    }
}

fn is_lease_release(call: &Call, namespace: &Text, lease: &Text) -> bool
    ensures { IsTrue result ↔ (calls.LeaseRelease namespace.now lease.now ≡ call.now) }
{
    match call {
        Call::LeaseRelease {
            namespace: n,
            lease: l,
        } => *namespace == *n && *lease == *l,
        _ => false,
    }
}

fn is_sweep(call: &Call, namespace: &Text, moment: u64) -> bool
    ensures { IsTrue result ↔ (calls.Sweep namespace.now moment ≡ call.now) }
{
    match call {
        Call::Sweep {
            namespace: n,
            moment: m,
        } => *namespace == *n && moment == *m,
        _ => false,
    }
}

pub(crate) fn is_same_reply(a: &Reply, b: &Reply) -> bool
    ensures { IsTrue result ↔ (a.now ≡ b.now) }
{
    match (a, b) {
        (Reply::Opened, Reply::Opened) => true,
        (
            Reply::Prepared { id, slot, chain },
            Reply::Prepared {
                id: i,
                slot: s,
                chain: c,
            },
        ) => *id == *i && *slot == *s && *chain == *c,
        (Reply::Viewed { id, chain }, Reply::Viewed { id: i, chain: c }) => {
            *id == *i && *chain == *c
        }
        (Reply::Charged { now: a }, Reply::Charged { now: b }) => *a == *b,
        (Reply::Trimmed, Reply::Trimmed) => true,
        (Reply::Committed { id, usage }, Reply::Committed { id: i, usage: u }) => {
            *id == *i && *usage == *u
        }
        (Reply::Discarded(a), Reply::Discarded(b)) => *a == *b,
        (Reply::Removed(a), Reply::Removed(b)) => *a == *b,
        (Reply::Info(a), Reply::Info(b)) => is_same_info(a, b),
        (Reply::Usage(a), Reply::Usage(b)) => *a == *b,
        (Reply::Mounts(a), Reply::Mounts(b)) => is_same_mounts(a, b),
        (Reply::Page(a), Reply::Page(b)) => is_same_infos(a, b),
        (Reply::Done, Reply::Done) => true,
        (
            Reply::Swept {
                removed,
                leases,
                freed,
            },
            Reply::Swept {
                removed: r,
                leases: l,
                freed: f,
            },
        ) => is_same_texts(removed, r) && *leases == *l && *freed == *f,
        (Reply::Refused(a), Reply::Refused(b)) => *a == *b,
        _ => false,
    }
}
