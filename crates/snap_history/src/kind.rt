ghost use Rattle.std.specs.Prelude.{◌≡◌};
ghost use Rattle.snap_history.specs.Entries.{call_kind, call_word};

use snap_call::Call;

/// What a call is, by the word that scripts have for it.
#[derive(Clone, Copy, Debug, PartialEq, Eq)]
pub enum CallKind {
    Session,
    Prepare,
    View,
    Charge,
    Trim,
    Commit,
    Discard,
    Remove,
    Stat,
    Update,
    Usage,
    Mounts,
    Walk,
    NamespaceCreate,
    NamespaceRemove,
    Limit,
    LeaseCreate,
    LeaseAdd,
    LeaseDrop,
    LeaseRelease,
    Sweep,
}

/// What the call is. Takes no memory.
pub fn call_kind(call: &Call) -> CallKind
    ensures { result ≡ call_kind call.now }
{
    match call {
        Call::Session => CallKind::Session,
        Call::Prepare { .. } => CallKind::Prepare,
        Call::View { .. } => CallKind::View,
        Call::Charge { .. } => CallKind::Charge,
        Call::Trim { .. } => CallKind::Trim,
        Call::Commit { .. } => CallKind::Commit,
        Call::Discard { .. } => CallKind::Discard,
        Call::Remove { .. } => CallKind::Remove,
        Call::Stat { .. } => CallKind::Stat,
        Call::Update { .. } => CallKind::Update,
        Call::Usage { .. } => CallKind::Usage,
        Call::Mounts { .. } => CallKind::Mounts,
        Call::Walk { .. } => CallKind::Walk,
        Call::NamespaceCreate { .. } => CallKind::NamespaceCreate,
        Call::NamespaceRemove { .. } => CallKind::NamespaceRemove,
        Call::SetLimit { .. } => CallKind::Limit,
        Call::LeaseCreate { .. } => CallKind::LeaseCreate,
        Call::LeaseAdd { .. } => CallKind::LeaseAdd,
        Call::LeaseDrop { .. } => CallKind::LeaseDrop,
        Call::LeaseRelease { .. } => CallKind::LeaseRelease,
        Call::Sweep { .. } => CallKind::Sweep,
    }
}

impl CallKind {
    /// The word, as `lease_create`. Takes no memory.
    pub fn as_str(&self) -> &'static str
        ensures { result.now ≡ call_word self.now }
    {
        match self {
            CallKind::Session => "session",
            CallKind::Prepare => "prepare",
            CallKind::View => "view",
            CallKind::Charge => "charge",
            CallKind::Trim => "trim",
            CallKind::Commit => "commit",
            CallKind::Discard => "discard",
            CallKind::Remove => "remove",
            CallKind::Stat => "stat",
            CallKind::Update => "update",
            CallKind::Usage => "usage",
            CallKind::Mounts => "mounts",
            CallKind::Walk => "walk",
            CallKind::NamespaceCreate => "namespace_create",
            CallKind::NamespaceRemove => "namespace_remove",
            CallKind::Limit => "limit",
            CallKind::LeaseCreate => "lease_create",
            CallKind::LeaseAdd => "lease_add",
            CallKind::LeaseDrop => "lease_drop",
            CallKind::LeaseRelease => "lease_release",
            CallKind::Sweep => "sweep",
        }
    }
}
