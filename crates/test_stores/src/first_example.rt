// The first worked example, in a round of one session: what a commit answers, and what the namespace is charged at the
// close, whatever the bodies are.
ghost use Rattle.std.specs.Prelude.{◌≡◌, ◌≤◌, ◌+◌, ◌∷◌, ℕ, List, [], IfSome, IsTrue, Ok, Some};
ghost use Rattle.snap_layer.specs.Edits.{root_only};
ghost use Rattle.snap_layer.specs.Tree.{Tree as TreeValue};
ghost use Rattle.snap_usage.specs.Counted.{count_of};
ghost use Rattle.snap_call.specs.Journal.{call_entry};
ghost use Rattle.snap_call.specs.declared.call.Call.TheVariants as calls;
ghost use Rattle.snap_call.specs.declared.call.Given.TheVariants.{Nothing};
ghost use Rattle.snap_call.specs.declared.reply.Reply.TheVariants as replies;
ghost use Rattle.snap_writers.specs.Run.{HasRun};
ghost use Rattle.test_stores.specs.FirstExample.{create as the_create, mkdir as the_mkdir, write as the_write, first_config, first_layer, first_tape, used, with_charges, IsAt};

use snap_book::{Active, Config, Held};
use snap_record::Labels;
use snap_store::{NewStore, RoundName, Session, Store};
use snap_upper::Op;
use snap_usage::Usage;
use snap_writers::run;
use std::alloc::Global;
use std::sync::Wait;

// The figures, as numbers.
fn is_four_three(usage: Usage)
    requires { usage ≡ used 4 3 }
{
    prove!(usage.blocks == 4 && usage.inodes == 3);
}

// An operation with no extra charge, and whether it was done.
fn is_run<N: RoundName, R: Wait>(
    rt: &R,
    store: &Store<N>,
    session: &mut Session,
    active: &mut Active<N>,
    op: &Op,
) -> bool
    ensures run { IsTrue result → HasRun session.old session.new active.old active.new op.now (used 0 0) (Ok tt) }
    ensures room { session.old.spare ≤ session.new.spare + 1 }
{
    match run(store, rt, session, active, op, Usage::ZERO) {
        Ok(()) => true,
        Err(_) => false,
    }
}

// All three on a new snapshot: its layer and its share afterwards, and the three charges on the tape.
fn are_run<N: RoundName, R: Wait>(
    rt: &R,
    store: &Store<N>,
    session: &mut Session,
    active: &mut Active<N>,
    mkdir: &Op,
    create: &Op,
    write: &Op,
) -> bool
    requires ops { (mkdir.now ≡ the_mkdir) × (create.now ≡ the_create) × (write.now ≡ the_write) }
    requires at { IsAt active.old.share.slot active.old.share.id (root_only (record { mode = 493 }) 1) (used 1 1) active.old }
    ensures at { IsTrue result → IsAt active.old.share.slot active.old.share.id first_layer (used 4 3) active.new }
    ensures number { IsTrue result → session.new.number ≡ session.old.number }
    ensures tape { IsTrue result → session.new.tape ≡ with_charges session.old.number active.old.share.slot active.old.share.id session.old.tape }
    ensures room { session.old.spare ≤ session.new.spare + 3 }
{
    if !is_run(rt, store, session, active, mkdir) {
        return false;
    }
    if !is_run(rt, store, session, active, create) {
        return false;
    }
    is_run(rt, store, session, active, write)
}

// Prepares, does all three, and commits: the commit answers 4/3, and the tape is the example's.
fn is_committed<N: RoundName, R: Wait>(
    rt: &R,
    store: &Store<N>,
    session: &mut Session,
    labels: &Labels,
    mkdir: &Op,
    create: &Op,
    write: &Op,
) -> bool
    requires inodes { store.now.opening.layer_inodes ≡ 65536 }
    requires labels { labels.now ≡ [] }
    requires ops { (mkdir.now ≡ the_mkdir) × (create.now ≡ the_create) × (write.now ≡ the_write) }
    requires opened { session.old.tape ≡ call_entry session.old.number calls.Session Nothing replies.Opened ∷ [] }
    ensures tape { IsTrue result → (slot id : ℕ) × (chain : List ℕ) × (layer : TreeValue) × (count_of layer ≡ used 4 3) × (session.new.tape ≡ first_tape session.new.number slot id chain layer) }
{
    if session.reserve(8).is_err() {
        return false;
    }
    let Ok(mut active) = store.prepare(rt, session, "a", "k", "", labels) else {
        return false;
    };
    if !are_run(rt, store, session, &mut active, mkdir, create, write) {
        store.discard(rt, session, Held::Active(active));
        return false;
    }
    let sealed = match active.seal() {
        Ok(sealed) => sealed,
        Err((_, active)) => {
            store.discard(rt, session, Held::Active(active));
            return false;
        }
    };
    match store.commit(rt, session, "base", &None, &None, sealed) {
        Ok(usage) => {
            is_four_three(usage);
            true
        }
        Err((_, sealed)) => {
            store.discard(rt, session, Held::Sealed(sealed));
            false
        }
    }
}

/// A round of one session, which makes the example's snapshot: where its store is closed, the namespace a is charged
/// 4/3.
pub fn first_example<N: RoundName, R: Wait>(
    rt: &R,
    alloc: Global,
    new: NewStore,
    config: Config,
    labels: &Labels,
    mkdir: &Op,
    create: &Op,
    write: &Op,
) -> Option<Option<Usage>>
    requires names { new ≡ (N.table, N.rounds) }
    requires config { config ≡ first_config }
    requires labels { labels.now ≡ [] }
    requires ops { (mkdir.now ≡ the_mkdir) × (create.now ≡ the_create) × (write.now ≡ the_write) }
    ensures { IfSome result (λ total. total ≡ Some (used 4 3)) }
{
    let Ok(store) = Store::<N>::open(alloc, new, config) else {
        return None;
    };
    let Ok(mut session) = store.session(rt) else {
        return None;
    };
    if !is_committed(rt, &store, &mut session, labels, mkdir, create, write) {
        return None;
    }
    let mut sessions = Vec::new(alloc);
    let Ok(()) = sessions.push(session) else {
        return None;
    };
    match store.close(sessions) {
        Ok(closed) => Some(closed.totals("a")),
        Err(_) => None,
    }
}
