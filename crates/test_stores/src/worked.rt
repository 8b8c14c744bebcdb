// A list of steps, which no program makes.
ghost use Rattle.std.specs.Prelude.{◌≡◌};

use crate::setup::{config, equal, new_table, path, text, usage};
use snap_call::{Call, Reply};
use snap_ledger::{NewTable, StoreName};
use snap_merge::FsError;
use snap_record::{Labels, Sequence, Text};
use snap_upper::Op;
use snap_world::{Answer, Step, World};
use std::alloc::Global;
use std::marker::Brand;
use std::process::Abort;

// A session prepares a snapshot, in which a directory needs a charge, and discards it. There is no session 2.
fn run_steps<N: StoreName, R: Abort>(rt: &R, alloc: Global, table: NewTable)
    requires { table ≡ N.table }
{
    let config = config(rt, alloc, usage(10, 3), 100);
    let mut world = World::<N>::open(alloc, table, config).expect(rt, "a world");
    let prepare = Call::Prepare {
        namespace: text(rt, alloc, "a"),
        key: text(rt, alloc, "k"),
        parent: Text::new(alloc),
        labels: Labels::new(alloc),
    };
    let mkdir = Op::Mkdir {
        path: path(rt, alloc, "/d"),
        mode: 493,
    };
    let (slot, id, chain) = (0, 1, Sequence::new(alloc));
    let steps = [
        Step::Locked(0, Call::Session),
        Step::Locked(0, prepare),
        Step::Hand(0, mkdir),
        Step::Locked(0, Call::Discard { slot, id }),
        Step::Locked(2, Call::Session),
    ];
    let steps = Vec::from_array(alloc, steps).expect(rt, "memory for steps");
    let found = world.run(steps).expect(rt, "memory for answers");
    let wanted = [
        Answer::Reply(Reply::Opened),
        Answer::Reply(Reply::Prepared { id, slot, chain }),
        Answer::File(Err(FsError::NeedsCharge(usage(2, 2)))),
        Answer::Reply(Reply::Discarded(usage(1, 1))),
        Answer::NoSession,
    ];
    equal(rt, "the answers", found.as_slice(), wanted.as_slice());
}

#[test]
fn steps_of_a_world(rt: HostRuntime) {
    let alloc = rt.alloc();
    run_steps::<Brand, HostRuntime>(&rt, alloc, new_table(&rt, alloc));
}
