// Rounds of a store that threads call at once, each by a session of its own.
use crate::setup::{equal, usage};
use crate::stores::{closed, commit, discard_all, listed, new_session, prepare_all};
use snap_book::Refusal;
use snap_record::{Kind, Labels};
use snap_store::{Closed, RoundName, Session, Store};
use std::alloc::Global;
use std::process::Abort;
use std::sync::{Barrier, Wait};
use std::thread;
use std::thread::Threads;

// Asks for k while the other thread has it open.
fn ask_between<N: RoundName, R: Wait + Abort>(
    rt: &R,
    alloc: Global,
    store: &Store<N>,
    turn: &Barrier,
    mut session: Session,
) -> Session {
    turn.wait(rt);
    match store.prepare(rt, &mut session, "a", "k", "", &Labels::new(alloc)) {
        Ok(_) => panic!(rt; "two snapshots with one key"),
        Err(why) => equal(rt, "k is open", why, Refusal::AlreadyExists),
    }
    let info = store.stat(rt, &mut session, "a", "k").expect(rt, "k");
    equal(rt, "the other's snapshot", info.kind, Kind::Active);
    turn.wait(rt);
    session
}

// One session prepares k, and commits it once the other has asked for it, on a thread of its own.
fn meet<N: RoundName + Send + Sync, R: Threads + Wait + Abort + Sync>(
    rt: &R,
    alloc: Global,
    store: &Store<N>,
    turn: &Barrier,
) -> (Session, Session) {
    let mut first = new_session(rt, store);
    let second = new_session(rt, store);
    thread::scope(thread::scope_env(), rt, |scope| {
        let Ok(other) = scope.spawn(move || ask_between(rt, alloc, store, turn, second)) else {
            panic!(rt; "no thread");
        };
        let active = store.prepare(rt, &mut first, "a", "k", "", &Labels::new(alloc));
        let active = active.expect(rt, "a snapshot");
        turn.wait(rt);
        turn.wait(rt);
        let layer = commit(rt, store, &mut first, "c", active);
        equal(rt, "the layer", layer, usage(1, 1));
        (first, other.join(rt))
    })
}

/// Two sessions on two threads, which meet at each turn.
pub fn two_sessions<N: RoundName + Send + Sync, R: Threads + Wait + Abort + Sync>(
    rt: &R,
    alloc: Global,
    store: Store<N>,
) -> Closed<N> {
    let (first, second) = meet(rt, alloc, &store, &Barrier::new(2));
    let sessions = listed(rt, alloc, [first, second]);
    closed(rt, "two threads", store, sessions, usage(2, 2), 6)
}

// Prepares five keys and keeps what it gets until all threads have prepared theirs. The answer is the
// session, and how many were granted.
fn hold<N: RoundName, R: Wait + Abort>(
    rt: &R,
    alloc: Global,
    store: &Store<N>,
    all: &Barrier,
    letter: &str,
    mut session: Session,
) -> (Session, usize) {
    let held = prepare_all(rt, alloc, store, &mut session, letter, 5);
    let granted = held.len();
    all.wait(rt);
    discard_all(rt, store, &mut session, held);
    (session, granted)
}

const LETTERS: [&str; 16] = [
    "a", "b", "d", "e", "f", "g", "h", "i", "j", "k", "l", "m", "n", "o", "p", "q",
];

fn hold_on_threads<N: RoundName + Send + Sync, R: Threads + Wait + Abort + Sync>(
    rt: &R,
    alloc: Global,
    store: &Store<N>,
) -> Vec<(Session, usize)> {
    let all = Barrier::new(16);
    let all = &all;
    thread::scope(thread::scope_env(), rt, |scope| {
        let mut handles = Vec::new(alloc);
        for letter in LETTERS {
            let session = new_session(rt, store);
            let Ok(handle) = scope.spawn(move || hold(rt, alloc, store, all, letter, session))
            else {
                panic!(rt; "no thread");
            };
            handles.push(handle).expect(rt, "memory for a thread");
        }
        let mut ends = Vec::new(alloc);
        for handle in handles {
            ends.push(handle.join(rt)).expect(rt, "memory for an end");
        }
        ends
    })
}

/// 16 threads ask for 80 snapshots, and share the 64 slots.
pub fn sixteen_sessions<N: RoundName + Send + Sync, R: Threads + Wait + Abort + Sync>(
    rt: &R,
    alloc: Global,
    store: Store<N>,
) {
    let mut sessions = Vec::new(alloc);
    let mut granted = 0usize;
    for (session, some) in hold_on_threads(rt, alloc, &store) {
        granted = some.saturating_add(granted);
        sessions.push(session).expect(rt, "memory for a session");
    }
    equal(rt, "slots of 16 threads", granted, 64);
    closed(rt, "16 threads", store, sessions, usage(2, 2), 160);
}
