// Closes that are refused, and what the store is afterwards. Each public function is a round of a store, or what it
// asks of another.
ghost use Rattle.std.specs.Prelude.{◌≡◌};

use crate::setup::{equal, usage};
use crate::stores::{closed, commit, listed, new_session, not_closed, opened};
use snap_book::Refusal;
use snap_record::Labels;
use snap_store::{Closed, NewStore, RoundName, Session, Store};
use std::alloc::Global;
use std::process::Abort;
use std::sync::Wait;

/// A round that can't end while a snapshot is open, and then not with one session of two: the store and the session
/// come back, and can be used. It leaves the snapshot base, and the lease L.
pub fn close_too_early<N: RoundName, R: Wait + Abort>(
    rt: &R,
    alloc: Global,
    store: Store<N>,
) -> Closed<N> {
    let mut first = new_session(rt, &store);
    let second = new_session(rt, &store);
    let active = store.prepare(rt, &mut first, "a", "k", "", &Labels::new(alloc));
    let active = active.expect(rt, "a new snapshot");
    let answer = store.close(listed(rt, alloc, [first]));
    let (store, mut sessions) = not_closed(rt, alloc, answer, "snapshots are open", "k", 1);
    let first = sessions.first_mut().expect(rt, "the session");
    equal(
        rt,
        "its layer",
        commit(rt, &store, first, "base", active),
        usage(1, 1),
    );
    let made = store.lease_create(rt, first, "a", "L", None);
    equal(rt, "a new lease", made, Ok(()));
    let answer = store.close(sessions);
    let (store, mut sessions) = not_closed(rt, alloc, answer, "sessions are missing", "k", 0);
    let third = new_session(rt, &store);
    equal(
        rt,
        "sessions are counted",
        (second.number(), third.number()),
        (1, 2),
    );
    sessions.push(third).expect(rt, "memory for a session");
    sessions.push(second).expect(rt, "memory for a session");
    let closed = closed(rt, "a close with all", store, sessions, usage(1, 1), 6);
    equal(rt, "no such namespace", closed.totals("z"), None);
    closed
}

/// The sessions 0 and 1 of a store of their own, of which the first makes the lease L.
pub fn strangers<N: RoundName, R: Wait + Abort>(
    rt: &R,
    alloc: Global,
    new: NewStore,
) -> (Session, Session)
    requires { new ≡ (N.table, N.rounds) }
{
    let store = opened::<N, R>(rt, alloc, new, 100);
    let mut first = new_session(rt, &store);
    let second = new_session(rt, &store);
    let made = store.lease_create(rt, &mut first, "a", "L", None);
    equal(rt, "a stranger's lease", made, Ok(()));
    (first, second)
}

/// A close with another store's sessions, where there is the lease L already: one has no number here, and the other
/// was answered otherwise. The next round has what the one before has left.
pub fn close_with_strangers<N: RoundName, R: Wait + Abort>(
    rt: &R,
    alloc: Global,
    store: Store<N>,
    strangers: (Session, Session),
) -> Closed<N> {
    let mut own = new_session(rt, &store);
    let made = store.lease_create(rt, &mut own, "a", "L", None);
    equal(
        rt,
        "the lease of the round before",
        made,
        Err(Refusal::LeaseExists),
    );
    let (first, second) = strangers;
    let answer = store.close(listed(rt, alloc, [second]));
    let (store, _) = not_closed(rt, alloc, answer, "sessions are missing", "k", 0);
    let answer = store.close(listed(rt, alloc, [first]));
    let words = "the tape of session 0 differs at place 1";
    let (store, _) = not_closed(rt, alloc, answer, words, "k", 0);
    let sessions = listed(rt, alloc, [own]);
    closed(rt, "a close with its own", store, sessions, usage(1, 1), 2)
}
