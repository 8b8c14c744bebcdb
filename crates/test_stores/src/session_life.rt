// The life of a session. docs/STORE.md shows the two functions to the letter.
ghost use Rattle.std.specs.Prelude.{◌≡◌};

use crate::setup::{config, equal, new_store, path, usage};
use snap_book::{Config, Held};
use snap_record::Labels;
use snap_store::{Cause, NewStore, RoundName, Session, Store};
use snap_upper::Op;
use snap_usage::Usage;
use snap_writers::run;
use std::alloc::Global;
use std::marker::Brand;
use std::sync::Wait;
use std::test::Fail;

/// Unpacks a layer without a parent, which has one file, and commits it. The answer is what it takes.
fn unpack<N: RoundName, R: Wait>(
    rt: &R,
    store: &Store<N>,
    session: &mut Session,
    labels: &Labels,
    file: &Op,
) -> Result<Usage, Fail> {
    // Room on the tape for each call below, so that a discard always has it.
    session.reserve(4)?;
    let mut active = store.prepare(rt, session, "a", "unpacking", "", labels)?;
    if let Err(error) = run(store, rt, session, &mut active, file, Usage::ZERO) {
        store.discard(rt, session, Held::Active(active));
        return Err(error.into());
    }
    match active.seal() {
        Ok(sealed) => match store.commit(rt, session, "layer", &None, &None, sealed) {
            Ok(usage) => Ok(usage),
            Err((why, sealed)) => {
                store.discard(rt, session, Held::Sealed(sealed));
                Err(why.into())
            }
        },
        Err((no_memory, active)) => {
            store.discard(rt, session, Held::Active(active));
            Err(Cause::OutOfMemory(no_memory).into())
        }
    }
}

/// A round of one session: the store is opened, used and closed. The answers are what the layer takes, and
/// what its namespace is charged once the store is closed.
fn round<N: RoundName, R: Wait>(
    rt: &R,
    alloc: Global,
    new: NewStore,
    config: Config,
    file: &Op,
) -> Result<(Usage, Option<Usage>), Fail>
    requires { new ≡ (N.table, N.rounds) }
{
    let store = Store::<N>::open(alloc, new, config)?;
    let mut session = store.session(rt)?;
    let usage = unpack(rt, &store, &mut session, &Labels::new(alloc), file)?;
    let mut sessions = Vec::new(alloc);
    sessions.push(session)?;
    match store.close(sessions) {
        Ok(closed) => Ok((usage, closed.totals("a"))),
        Err(back) => Err(back.cause.into()),
    }
}

#[test]
fn a_round_of_one_session(rt: HostRuntime) -> Result<(), Fail> {
    let alloc = rt.alloc();
    let new = new_store(&rt, alloc);
    let file = Op::Create {
        path: path(&rt, alloc, "/hello"),
        mode: 420,
    };
    let config = config(&rt, alloc, usage(100, 100), 100);
    let found = round::<Brand, HostRuntime>(&rt, alloc, new, config, &file)?;
    let wanted = (usage(1, 2), Some(usage(1, 2)));
    equal(&rt, "the layer, and what is charged", found, wanted);
    Ok(())
}
