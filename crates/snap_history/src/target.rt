// What a call is on.
ghost use Rattle.std.specs.Prelude.{◌≡◌, option_copied};
ghost use Rattle.snap_history.specs.History.{namespace_in, slot_in};

use snap_call::Call;
use snap_record::Text;

/// The namespace that the call names, if it names one. Takes no memory.
pub fn namespace_in(call: &Call) -> Option<&Text>
    ensures { option_copied result ≡ namespace_in call.now }
{
    match call {
        Call::Session => None,
        Call::Charge { .. } => None,
        Call::Trim { .. } => None,
        Call::Commit { .. } => None,
        Call::Discard { .. } => None,
        Call::Prepare { namespace, .. } => Some(namespace),
        Call::Stat { namespace, .. } => Some(namespace),
        Call::Usage { namespace, .. } => Some(namespace),
        Call::Mounts { namespace, .. } => Some(namespace),
        Call::View { namespace, .. } => Some(namespace),
        Call::Remove { namespace, .. } => Some(namespace),
        Call::Update { namespace, .. } => Some(namespace),
        Call::Walk { namespace, .. } => Some(namespace),
        Call::NamespaceCreate { namespace, .. } => Some(namespace),
        Call::NamespaceRemove { namespace } => Some(namespace),
        Call::SetLimit { namespace, .. } => Some(namespace),
        Call::LeaseCreate { namespace, .. } => Some(namespace),
        Call::LeaseAdd { namespace, .. } => Some(namespace),
        Call::LeaseDrop { namespace, .. } => Some(namespace),
        Call::LeaseRelease { namespace, .. } => Some(namespace),
        Call::Sweep { namespace, .. } => Some(namespace),
    }
}

// The slot of the open snapshot that the call is on.
pub(crate) fn slot_in(call: &Call) -> Option<u64>
    ensures { result ≡ slot_in call.now }
{
    match call {
        Call::Charge { slot, .. } => Some(*slot),
        Call::Trim { slot, .. } => Some(*slot),
        Call::Commit { slot, .. } => Some(*slot),
        Call::Discard { slot, .. } => Some(*slot),
        _ => None,
    }
}
