// What the tests ask of a store. Where memory is missing, or an answer that a test only builds on, the test ends.
ghost use Rattle.std.specs.Prelude.{◌≡◌};

use crate::setup::{config, equal, says, usage};
use snap_book::{Active, Held, Refusal};
use snap_record::Labels;
use snap_store::{Cause, Closed, NewStore, NotClosed, RoundName, Session, Store};
use snap_usage::Usage;
use std::alloc::Global;
use std::process::Abort;
use std::sync::Wait;

/// A store whose namespace a has 100/100, without sessions, in a round of `journal` entries.
pub fn opened<N: RoundName, R: Abort>(
    rt: &R,
    alloc: Global,
    new: NewStore,
    journal: u64,
) -> Store<N>
    requires { new ≡ (N.table, N.rounds) }
{
    let config = config(rt, alloc, usage(100, 100), journal);
    Store::open(alloc, new, config).expect(rt, "a store")
}

/// A session of the store.
pub fn new_session<N: RoundName, R: Wait + Abort>(rt: &R, store: &Store<N>) -> Session {
    store.session(rt).expect(rt, "a session")
}

/// These sessions, in this order.
pub fn listed<const N: usize, R: Abort>(
    rt: &R,
    alloc: Global,
    sessions: [Session; N],
) -> Vec<Session> {
    Vec::from_array(alloc, sessions).expect(rt, "memory for sessions")
}

/// Prepares `keys` keys, each one letter longer than the one before, and keeps what is granted. The others are refused
/// for want of a slot.
pub fn prepare_all<N: RoundName, R: Wait + Abort>(
    rt: &R,
    alloc: Global,
    store: &Store<N>,
    session: &mut Session,
    letter: &str,
    keys: u64,
) -> Vec<Active<N>> {
    let mut held = Vec::new(alloc);
    let mut key = String::new(alloc);
    for _ in 0..keys {
        key.push_str(letter).expect(rt, "memory for a key");
        held.reserve(1).expect(rt, "memory for a snapshot");
        match store.prepare(rt, session, "a", key.as_str(), "", &Labels::new(alloc)) {
            Ok(active) => held.push_reserved(active),
            Err(why) => equal(rt, "no slot is free", why, Refusal::TooManyActives),
        }
    }
    held
}

/// Gives all of them back.
pub fn discard_all<N: RoundName, R: Wait + Abort>(
    rt: &R,
    store: &Store<N>,
    session: &mut Session,
    held: Vec<Active<N>>,
) {
    let mut held = held;
    while let Some(active) = held.pop() {
        session.reserve(1).expect(rt, "memory for an entry");
        store.discard(rt, session, Held::Active(active));
    }
    held.destroy_empty();
}

/// Commits the snapshot under the name. The answer is what its layer takes.
pub fn commit<N: RoundName, R: Wait + Abort>(
    rt: &R,
    store: &Store<N>,
    session: &mut Session,
    name: &str,
    active: Active<N>,
) -> Usage {
    let sealed = match active.seal() {
        Ok(sealed) => sealed,
        Err(_) => panic!(rt; "no memory for a sealed snapshot"),
    };
    match store.commit(rt, session, name, &None, &None, sealed) {
        Ok(usage) => usage,
        Err(_) => panic!(rt; "the snapshot is not committed"),
    }
}

/// The answer of a close that is refused with these words, while `open` snapshots of the namespace a are open, whose
/// keys are those of `prepare_all` with this letter. The store and the sessions come back.
pub fn not_closed<N: RoundName, R: Abort>(
    rt: &R,
    alloc: Global,
    answer: Result<Closed<N>, NotClosed<N>>,
    words: &str,
    letter: &str,
    open: usize,
) -> (Store<N>, Vec<Session>) {
    let NotClosed {
        store,
        sessions,
        cause,
    } = match answer {
        Ok(_) => panic!(rt; "the store is closed"),
        Err(back) => back,
    };
    says(rt, alloc, &cause, words);
    let keys = match &cause {
        Cause::StillOut(keys) => keys.as_slice(),
        _ => &[],
    };
    equal(rt, words, keys.len(), open);
    let mut key = String::new(alloc);
    for open in keys {
        key.push_str(letter).expect(rt, "memory for a key");
        let found = (open.namespace.as_str(), open.key.as_str());
        equal(rt, "what is open", found, ("a", key.as_str()));
    }
    (store, sessions)
}

/// The store, closed with all sessions of the round. The namespace a is charged `charged`, and the round had `entries`
/// entries.
pub fn closed<N: RoundName, R: Abort>(
    rt: &R,
    round: &str,
    store: Store<N>,
    sessions: Vec<Session>,
    charged: Usage,
    entries: usize,
) -> Closed<N> {
    match store.close(sessions) {
        Ok(closed) => {
            let found = (closed.totals("a"), closed.journal().len());
            equal(rt, round, found, (Some(charged), entries));
            closed
        }
        Err(_) => panic!(rt; "the store is not closed"),
    }
}

/// The next round, of `journal` entries.
pub fn reopened<N: RoundName, R: Abort>(rt: &R, closed: Closed<N>, journal: u64) -> Store<N> {
    match Store::reopen(closed, journal) {
        Ok(store) => store,
        Err(_) => panic!(rt; "no next round"),
    }
}
