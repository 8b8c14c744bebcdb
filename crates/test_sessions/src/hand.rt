// An open snapshot as a script holds it.
ghost use Rattle.std.specs.Prelude.{◌<◌};

use snap_book::{Held, Refusal, Reply, Sealed};
use snap_path::NoMemory;
use snap_record::{Labels, Text};
use snap_store::{RoundName, Session, Store};
use snap_usage::Usage;
use std::sync::Wait;

// The snapshot, with its namespace and its key. One that is dropped is discarded by a session that calls nothing
// else, in memory that was taken before, since the snapshot has to be spent where a run ends for want of memory.
pub(crate) struct Hand<'a, N: RoundName, R: Wait> {
    pub(crate) rt: &'a R,
    pub(crate) store: &'a Store<N>,
    pub(crate) namespace: Text,
    pub(crate) key: Text,
    pub(crate) id: u32,
    pub(crate) room: Session,
    pub(crate) held: Held<N>,
    ghost has_room: { 0 < room.spare },
}

impl<'a, N: RoundName, R: Wait> Drop for Hand<'a, N, R> {
    fn drop(self) {
        let Hand {
            rt,
            store,
            namespace: _,
            key: _,
            id: _,
            mut room,
            held,
        } = self;
        let _ = store.discard(rt, &mut room, held);
    }
}

// The snapshot, sealed. Where memory is refused it comes back as it was.
fn seal<N: RoundName>(held: Held<N>) -> Result<Sealed<N>, (NoMemory, Held<N>)> {
    match held {
        Held::Active(active) => match active.seal() {
            Ok(sealed) => Ok(sealed),
            Err((no_memory, active)) => Err((no_memory, Held::Active(active))),
        },
        Held::Sealed(sealed) => Ok(sealed),
    }
}

impl<'a, N: RoundName, R: Wait> Hand<'a, N, R> {
    // Seals what is held, and commits it. Where that is refused the hand comes back.
    pub(crate) fn commit(
        self,
        session: &mut Session,
        name: &str,
        lease: &Option<Text>,
        labels: &Option<Labels>,
    ) -> Result<Reply, (Refusal, Hand<'a, N, R>)> {
        let Hand {
            rt,
            store,
            namespace,
            key,
            id,
            room,
            held,
        } = self;
        let (why, held) = match seal(held) {
            Ok(sealed) => match store.commit(rt, session, name, lease, labels, sealed) {
                Ok(usage) => return Ok(Reply::Committed { id, usage }),
                Err((why, sealed)) => (why, Held::Sealed(sealed)),
            },
            Err((no_memory, held)) => (Refusal::OutOfMemory(no_memory), held),
        };
        let hand = Hand {
            rt,
            store,
            namespace,
            key,
            id,
            room,
            held,
        };
        Err((why, hand))
    }

    // Discards what is held.
    pub(crate) fn discard(self, session: &mut Session) -> Usage
        requires { 0 < session.old.spare }
    {
        let Hand {
            rt,
            store,
            namespace: _,
            key: _,
            id: _,
            room: _,
            held,
        } = self;
        store.discard(rt, session, held)
    }
}
