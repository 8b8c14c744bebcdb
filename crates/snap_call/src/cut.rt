// What the journal keeps of a call.
ghost use Rattle.std.specs.Prelude.{◌≡◌, ◌&&◌, OnOk, option_map, if◌then◌else◌};
ghost use Rattle.snap_record.specs.Cut.{cut, kept_labels};
ghost use Rattle.snap_record.specs.Filters.{no_filter};
ghost use Rattle.snap_call.specs.Forms.{is_page, is_start};
ghost use Rattle.snap_call.specs.Good.{HasShortNames};
ghost use Rattle.snap_call.specs.Kept.{has_namespace, has_snapshot, kept, kept_change, kept_new};
ghost use Rattle.snap_call.specs.Step.{step};
ghost use Rattle.snap_call.specs.declared.call.Given.{Given};

use crate::call::Call;
use crate::forms::{is_page, is_start};
use crate::limits::{MAX_KEY_BYTES, MAX_NAMESPACE_BYTES};
use crate::state::State;
use snap_record::{Filter, Labels, Sequence, Text, cut_update, is_well_formed};
use std::alloc::AllocError;

fn cut_pair(namespace: &mut Text, key: &mut Text) -> Result<(), AllocError>
    ensures namespace { OnOk result (namespace.new ≡ cut 255 namespace.old) }
    ensures key { OnOk result (key.new ≡ cut 1024 key.old) }
{
    namespace.cut(MAX_NAMESPACE_BYTES)?;
    key.cut(MAX_KEY_BYTES)
}

fn has_namespace(state: &State, namespace: &Text) -> bool
    ensures { result ≡ has_namespace state.now namespace.now }
{
    state.place_of(namespace.as_str()).is_some()
}

fn has_snapshot(state: &State, namespace: &Text, key: &Text) -> bool
    ensures { result ≡ has_snapshot state.now namespace.now key.now }
{
    match state.place_of(namespace.as_str()) {
        Some(place) => state.records.has_key(place, key.as_str()),
        None => false,
    }
}

// Of what a new snapshot gets.
fn cut_base(
    state: &State,
    namespace: &Text,
    parent: &mut Text,
    labels: &mut Labels,
) -> Result<(), AllocError>
    ensures parent { OnOk result (parent.new ≡ cut 1024 parent.old) }
    ensures labels { OnOk result (labels.new ≡ kept_new (has_namespace state.now namespace.now) labels.old) }
{
    parent.cut(MAX_KEY_BYTES)?;
    if has_namespace(state, namespace) || !labels.are_valid() {
        return labels.cut();
    }
    labels.clear();
    Ok(())
}

fn cut_lease(lease: &mut Option<Text>) -> Result<(), AllocError>
    ensures { OnOk result (lease.new ≡ option_map (cut 1024) lease.old) }
{
    match lease {
        Some(lease) => lease.cut(MAX_KEY_BYTES),
        None => Ok(()),
    }
}

fn cut_given(labels: &mut Option<Labels>) -> Result<(), AllocError>
    ensures { OnOk result (labels.new ≡ option_map kept_labels labels.old) }
{
    match labels {
        Some(labels) => labels.cut(),
        None => Ok(()),
    }
}

// Of the labels and the paths of an update.
fn cut_change(
    state: &State,
    namespace: &Text,
    key: &Text,
    labels: &mut Labels,
    paths: &mut Sequence<Text>,
) -> Result<(), AllocError>
    ensures { OnOk result ((labels.new, paths.new)
        ≡ kept_change (has_snapshot state.now namespace.now key.now) labels.old paths.old) }
{
    if has_snapshot(state, namespace, key) || !is_well_formed(labels, paths.as_slice()) {
        return cut_update(labels, paths);
    }
    labels.clear();
    paths.clear();
    Ok(())
}

// Of the filter of a walk.
fn cut_asked(state: &State, namespace: &Text, after: &Text, most: u64, asked: &mut Filter)
    ensures { asked.new ≡ (if is_start after.now && is_page most && has_namespace state.now namespace.now then asked.old else no_filter) }
{
    let walks = is_start(after.as_str()) && is_page(most) && has_namespace(state, namespace);
    if !walks {
        asked.clear();
    }
}

impl Call {
    /// Cuts the call's texts to what the journal keeps of them, by the state that the call is made on.
    ///
    /// A text beyond its limit keeps as many bytes as that, one more, and the rest of that one's character: a
    /// namespace's name 255, a key, a parent, a name, a lease, and what a walk begins after 1024. Of labels of which
    /// one is malformed the first such alone is left, with at most 4096 bytes of key and of value, counted alike; of an
    /// update's labels and paths what [`cut_update`] leaves. What is well-formed and isn't looked at goes: the labels
    /// of a new snapshot, and the filter of a walk, in a namespace that the state doesn't have; the labels and paths of
    /// an update of a snapshot that it doesn't have. Nor is the filter of a malformed walk kept.
    ///
    /// So the call is answered as before and leaves the same, by this state, whose namespaces have names of at most 255
    /// bytes, as those of each store have. The paths of an update of a snapshot that is there, and the filter of a walk
    /// in a namespace that is there, stay as they are. Takes memory only for what is cut; fails only where memory is
    /// refused, and then some texts may be cut. The cost grows with the numbers of labels and paths, with the
    /// logarithms of the numbers of namespaces and records, and with what is cut.
    #[tactic(auto, using(crate::proofs::Cutting::step_kept))]
    pub fn cut(&mut self, state: &State) -> Result<(), AllocError>
        ensures kept { OnOk result (self.new ≡ kept state.now self.old) }
        ensures alike { OnOk result (HasShortNames state.now → (given : Given) → step state.now self.new given ≡ step state.now self.old given) }
    {
        self.cut_texts(state)
    }

    fn cut_texts(&mut self, state: &State) -> Result<(), AllocError>
        ensures { OnOk result (self.new ≡ kept state.now self.old) }
    {
        match self {
            Call::Session | Call::Charge { .. } | Call::Trim { .. } | Call::Discard { .. } => Ok(
                (),
            ),
            Call::Prepare {
                namespace,
                key,
                parent,
                labels,
            } => {
                cut_base(state, namespace, parent, labels)?;
                cut_pair(namespace, key)
            }
            Call::View {
                namespace,
                key,
                parent,
                labels,
            } => {
                cut_base(state, namespace, parent, labels)?;
                cut_pair(namespace, key)
            }
            Call::Commit {
                name,
                lease,
                labels,
                ..
            } => {
                name.cut(MAX_KEY_BYTES)?;
                cut_lease(lease)?;
                cut_given(labels)
            }
            Call::Stat { namespace, key } => cut_pair(namespace, key),
            Call::Usage { namespace, key } => cut_pair(namespace, key),
            Call::Mounts { namespace, key } => cut_pair(namespace, key),
            Call::Remove { namespace, key } => cut_pair(namespace, key),
            Call::Update {
                namespace,
                key,
                labels,
                paths,
            } => {
                cut_change(state, namespace, key, labels, paths)?;
                cut_pair(namespace, key)
            }
            Call::Walk {
                namespace,
                after,
                most,
                asked,
            } => {
                cut_asked(state, namespace, after, *most, asked);
                cut_pair(namespace, after)
            }
            Call::NamespaceCreate { namespace, .. } => namespace.cut(MAX_NAMESPACE_BYTES),
            Call::NamespaceRemove { namespace } => namespace.cut(MAX_NAMESPACE_BYTES),
            Call::SetLimit { namespace, .. } => namespace.cut(MAX_NAMESPACE_BYTES),
            Call::LeaseCreate {
                namespace,
                lease,
                ..
            } => cut_pair(namespace, lease),
            Call::LeaseAdd {
                namespace,
                lease,
                name,
            } => {
                cut_pair(namespace, lease)?;
                name.cut(MAX_KEY_BYTES)
            }
            Call::LeaseDrop {
                namespace,
                lease,
                name,
            } => {
                cut_pair(namespace, lease)?;
                name.cut(MAX_KEY_BYTES)
            }
            Call::LeaseRelease { namespace, lease } => cut_pair(namespace, lease),
            Call::Sweep { namespace, .. } => namespace.cut(MAX_NAMESPACE_BYTES),
        }
    }
}
