// What a refusal is about.
ghost use Rattle.std.specs.Prelude.{◌≡◌};
ghost use Rattle.std.specs.List.{list_all};
ghost use Rattle.snap_record.specs.Labels.{is_label};
ghost use Rattle.snap_record.specs.Updates.{is_update_path};
ghost use Rattle.snap_call.specs.Questions.{asking};
ghost use Rattle.snap_script.specs.About.{beyond, call_subjects, command_answer, lease_name_subjects, malformed_namespace, malformed_update, malformed_walk, subjects};
ghost use Rattle.snap_session.specs.About.{about_operation, failed_walk, failed_way, failed_way_in, is_told};

use snap_call::limits::{MAX_LIMIT, MAX_NAMESPACE_BYTES};
use snap_call::{Call, Question, is_key, is_start};
use snap_ledger::StoreName;
use snap_merge::Stack;
use snap_path::Path;
use snap_record::{Labels, Text, is_label, named_key, replaces_all};
use snap_script::{Answer, Command, Field, Refused, Subjects};
use snap_upper::Op;
use snap_usage::Usage;
use snap_world::World;

// The first quantity of a limit that is beyond its bound.
fn beyond(limit: Usage) -> Field
    ensures { result ≡ beyond limit }
{
    if limit.blocks > MAX_LIMIT {
        Field::Blocks
    } else {
        Field::Inodes
    }
}

// Whether each label is well-formed.
fn have_form(labels: &Labels) -> bool
    ensures { result ≡ list_all is_label labels.now }
{
    labels
        .as_slice()
        .iter()
        .all(|(key, value)| is_label(key.as_str(), value.as_str()))
}

// Whether an update can have the path.
fn is_update_path(path: &Text) -> bool
    ensures { result ≡ is_update_path path.now }
{
    path.as_str() == "labels" || named_key(path.as_str()).is_some()
}

// Whether it can have each of them.
fn are_update_paths(paths: &[Text]) -> bool
    ensures { result ≡ list_all is_update_path paths.now }
{
    paths.iter().all(|path| is_update_path(path))
}

// What is malformed of an update.
fn malformed_update(key: &str, labels: &Labels, paths: &[Text]) -> Field
    ensures { result ≡ malformed_update key.now labels.now paths.now }
{
    if !is_key(key) {
        return Field::Key;
    }
    if !have_form(labels) {
        return Field::Labels;
    }
    if are_update_paths(paths) && replaces_all(paths) {
        return Field::Labels;
    }
    Field::Paths
}

// What is malformed of a namespace that is to be made.
fn malformed_namespace(name: &str, limit: Usage) -> Field
    ensures { result ≡ malformed_namespace name.now limit }
{
    if is_key(name) && name.len() <= MAX_NAMESPACE_BYTES {
        beyond(limit)
    } else {
        Field::Namespace
    }
}

// What is malformed of a walk, and of a page of a tree.
fn malformed_walk(after: &str) -> Field
    ensures { result ≡ malformed_walk after.now }
{
    if is_start(after) {
        Field::Most
    } else {
        Field::After
    }
}

// What the refusals of a call on a name in a lease are about.
fn lease_name_subjects(lease: &str) -> Subjects
    ensures { result ≡ lease_name_subjects lease.now }
{
    Subjects {
        malformed: if is_key(lease) {
            Field::Name
        } else {
            Field::Lease
        },
        missing: Field::Name,
        ..Subjects::OF_KEY
    }
}

// What the refusals of a call are about.
fn call_subjects(call: &Call) -> Subjects
    ensures { result ≡ call_subjects call.now }
{
    let malformed = match call {
        Call::Prepare { key, parent, .. } | Call::View { key, parent, .. } => {
            return Subjects::of_new(key.as_str(), parent.as_str());
        }
        Call::Commit { name, lease, .. } => return Subjects::of_commit(name.as_str(), lease),
        Call::LeaseAdd { lease, .. } | Call::LeaseDrop { lease, .. } => {
            return lease_name_subjects(lease.as_str());
        }
        Call::Update {
            key,
            labels,
            paths,
            ..
        } => malformed_update(key.as_str(), labels, paths.as_slice()),
        Call::Walk { after, .. } => malformed_walk(after.as_str()),
        Call::SetLimit { limit, .. } => beyond(*limit),
        Call::NamespaceCreate { namespace, limit } => {
            malformed_namespace(namespace.as_str(), *limit)
        }
        Call::LeaseCreate { .. } | Call::LeaseRelease { .. } => Field::Lease,
        Call::Session
        | Call::Charge { .. }
        | Call::Trim { .. }
        | Call::Discard { .. }
        | Call::Stat { .. }
        | Call::Usage { .. }
        | Call::Mounts { .. }
        | Call::Remove { .. }
        | Call::NamespaceRemove { .. }
        | Call::Sweep { .. } => Field::Key,
    };
    Subjects {
        malformed,
        ..Subjects::OF_KEY
    }
}

// The same of a call that is asked without an entry.
fn question_subjects(question: &Question) -> Subjects
    ensures { result ≡ call_subjects (asking question.now) }
{
    let malformed = match question {
        Question::Walk { after, .. } => malformed_walk(after.as_str()),
        Question::Stat { .. } | Question::Usage { .. } | Question::Mounts { .. } => Field::Key,
    };
    Subjects {
        malformed,
        ..Subjects::OF_KEY
    }
}

// What the refusals of a command are about.
pub(crate) fn subjects(command: &Command<'_>) -> Subjects
    ensures { result ≡ subjects command.now }
{
    let mut own = Subjects::OF_KEY;
    match command {
        Command::Call(call) => return call_subjects(call),
        Command::Ask(question) => return question_subjects(question),
        Command::Commit { name, lease, .. } => return Subjects::of_commit(name.as_str(), lease),
        Command::Charge { .. } | Command::Batch { .. } => own.amount = Some(Field::Need),
        Command::File {
            operation: Err(field),
            ..
        } => own.path = *field,
        Command::Tree {
            page: Some(page),
            ..
        } => own.malformed = malformed_walk(page.after.as_str()),
        Command::Diff { .. } => {
            own.malformed = Field::Most;
            own.path = Field::After;
        }
        Command::Journal { .. } => own.malformed = Field::Most,
        Command::Reopen { .. } | Command::Roll { .. } => own.malformed = Field::Journal,
        Command::Open { .. }
        | Command::Session
        | Command::Trim { .. }
        | Command::Discard { .. }
        | Command::File { .. }
        | Command::Lookup { .. }
        | Command::TrySweep { .. }
        | Command::ChainUsage { .. }
        | Command::Quota { .. }
        | Command::Leases { .. }
        | Command::Tree { .. }
        | Command::Report
        | Command::Restore(_)
        | Command::Save { .. } => {}
    }
    own
}

// Whether the answer says already what its refusal is about.
fn is_told(answer: &Answer) -> bool
    ensures { result ≡ is_told answer.now }
{
    matches!(answer, Answer::Refused { .. } | Answer::Batch { .. })
}

// The answer of a command with what its refusal is about, where that of an operation isn't told already.
#[tactic(auto, using(crate::proofs::Told::told_as))]
pub(crate) fn command_answer(own: Subjects, answer: Answer) -> Answer
    ensures { result ≡ command_answer own answer }
{
    if is_told(&answer) {
        return answer;
    }
    match answer.refusal() {
        Some(why) => Answer::Refused {
            why,
            of: own.about(why),
        },
        None => answer,
    }
}

// The first of two paths to which the walk fails, if one does.
fn failed_walk(stack: &Stack<'_>, from: &Path, to: &Path) -> Option<Field>
    ensures { result ≡ failed_walk stack.now from.now to.now }
{
    if stack.walk(from).is_err() {
        return Some(Field::From);
    }
    if stack.walk(to).is_err() {
        return Some(Field::To);
    }
    None
}

// The same of an operation; one with a single path has none.
fn failed_way(stack: &Stack<'_>, op: &Op) -> Option<Field>
    ensures { result ≡ failed_way stack.now op.now }
{
    match op {
        Op::Link { from, to } | Op::Rename { from, to } => failed_walk(stack, from, to),
        Op::Mkdir { .. }
        | Op::Create { .. }
        | Op::Put { .. }
        | Op::Write { .. }
        | Op::Truncate { .. }
        | Op::SetMode { .. }
        | Op::Symlink { .. }
        | Op::Unlink { .. }
        | Op::Rmdir { .. }
        | Op::Opaque { .. }
        | Op::Whiteout { .. } => None,
    }
}

// The same over the layers of a snapshot, if it shows some.
fn failed_way_in<N: StoreName>(
    world: &World<N>,
    namespace: &str,
    key: &str,
    op: &Op,
) -> Option<Field>
    ensures { result ≡ failed_way_in world.now namespace.now key.now op.now }
{
    match world.stack(namespace, key) {
        Ok(stack) => failed_way(&stack, op),
        Err(_) => None,
    }
}

// The field of an operation that its refusal is about.
pub(crate) fn about_operation<N: StoreName>(
    world: &World<N>,
    namespace: &str,
    key: &str,
    op: &Op,
    why: Refused,
) -> Option<Field>
    ensures { result ≡ about_operation world.now namespace.now key.now op.now why }
{
    let own = Subjects::of_operation(op).about(why);
    match why {
        Refused::File(_) => match failed_way_in(world, namespace, key, op) {
            Some(field) => Some(field),
            None => own,
        },
        Refused::Book(_)
        | Refused::NoSession
        | Refused::NoHand
        | Refused::StillOut
        | Refused::BadRestore(_) => own,
    }
}
