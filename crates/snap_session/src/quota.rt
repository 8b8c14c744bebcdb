// What namespaces may take and what they take.
ghost use Rattle.std.specs.Prelude.{◌≡◌, IfOk, filter_map};
ghost use Rattle.snap_session.specs.Quota.{named_quota, one_quota, quota_answer, quota_of_place, quota_info};

use snap_call::{Namespace, Refusal};
use snap_ledger::StoreName;
use snap_record::{Sequence, Text};
use snap_script::{Answer, LentText, QuotaInfo};
use snap_world::{NoMemory, Quota, World};
use std::alloc::{AllocError, Global};

fn quota_info(quota: Quota) -> QuotaInfo
    ensures { result ≡ quota_info quota }
{
    QuotaInfo {
        limit: quota.limit,
        charged: quota.charged,
        committed: quota.committed,
        active: quota.active,
        spare: quota.spare,
        free: quota.free,
    }
}

fn named_quota<N: StoreName>(
    alloc: Global,
    world: &World<N>,
    name: &str,
) -> Result<Option<(Text, QuotaInfo)>, AllocError>
    ensures { IfOk result (λ found. found ≡ named_quota world.now name.now) }
{
    match world.quota(name) {
        Some(quota) => Ok(Some((Text::copy_of(alloc, name)?, quota_info(quota)))),
        None => Ok(None),
    }
}

// The same, where a namespace stands there.
fn quota_of_place<N: StoreName>(
    alloc: Global,
    world: &World<N>,
    namespace: &Namespace,
) -> Result<Option<(Text, QuotaInfo)>, AllocError>
    ensures { IfOk result (λ found. found ≡ quota_of_place world.now namespace.now) }
{
    if !namespace.is_taken() {
        return Ok(None);
    }
    named_quota(alloc, world, namespace.name.as_str())
}

fn quotas<N: StoreName>(
    alloc: Global,
    world: &World<N>,
) -> Result<Sequence<(Text, QuotaInfo)>, AllocError>
    ensures { IfOk result (λ found. found ≡ filter_map (quota_of_place world.now) world.now.state.namespaces) }
{
    let mut found = Sequence::new(alloc);
    for namespace in world.state().namespaces.as_slice() {
        if let Some(quota) = quota_of_place(alloc, world, namespace)? {
            found.push(quota)?;
        }
    }
    Ok(found)
}

// The one quota, where there is such a namespace.
fn one_quota(alloc: Global, quota: Option<(Text, QuotaInfo)>) -> Result<Answer, AllocError>
    ensures { IfOk result (λ answer. answer ≡ one_quota quota) }
{
    let Some(quota) = quota else {
        return Ok(Answer::refused(Refusal::NoNamespace));
    };
    let mut found = Sequence::new(alloc);
    found.push(quota)?;
    Ok(Answer::Quota(found))
}

pub(crate) fn quota<N: StoreName>(
    alloc: Global,
    world: &World<N>,
    namespace: Option<LentText<'_>>,
) -> Result<Answer, NoMemory>
    ensures { IfOk result (λ answer. answer ≡ quota_answer world.now namespace.entry) }
{
    match namespace {
        None => Ok(Answer::Quota(quotas(alloc, world)?)),
        Some(name) => Ok(one_quota(alloc, named_quota(alloc, world, name.as_str())?)?),
    }
}
