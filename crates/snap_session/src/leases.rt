// The leases of a namespace.
ghost use Rattle.std.specs.Prelude.{◌≡◌, IfOk};
ghost use Rattle.snap_session.specs.Leases.{leases, one_lease};

use snap_call::Refusal;
use snap_lease::LeaseInfo;
use snap_ledger::StoreName;
use snap_record::Sequence;
use snap_script::{Answer, LentText};
use snap_world::{NoMemory, World};
use std::alloc::{AllocError, Global};

// The one lease, if there is one.
fn one_lease(alloc: Global, info: Option<LeaseInfo>) -> Result<Answer, AllocError>
    ensures { IfOk result (λ answer. answer ≡ one_lease info) }
{
    let Some(info) = info else {
        return Ok(Answer::refused(Refusal::NoLease));
    };
    let mut found = Sequence::new(alloc);
    found.push(info)?;
    Ok(Answer::Leases(found))
}

pub(crate) fn leases<N: StoreName>(
    alloc: Global,
    world: &World<N>,
    namespace: &str,
    lease: Option<LentText<'_>>,
) -> Result<Answer, NoMemory>
    ensures { IfOk result (λ answer. answer ≡ leases world.now.state namespace.now lease.entry) }
{
    if world.state().place_of(namespace).is_none() {
        return Ok(Answer::refused(Refusal::NoNamespace));
    }
    match lease {
        None => Ok(Answer::Leases(world.leases().infos(namespace)?.into())),
        Some(lease) => Ok(one_lease(alloc, world.leases().info(namespace, lease.as_str())?)?),
    }
}
