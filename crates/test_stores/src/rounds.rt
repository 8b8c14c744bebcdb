// The rounds of a store, one after another.
ghost use Rattle.std.specs.Prelude.{◌≡◌};

use crate::closes::{close_too_early, close_with_strangers, strangers};
use crate::setup::new_store;
use crate::stores::{opened, reopened};
use crate::threads::{sixteen_sessions, two_sessions};
use snap_store::{NewStore, RoundName, Session};
use std::alloc::Global;
use std::marker::Brand;
use std::process::Abort;
use std::sync::Wait;
use std::thread::Threads;

fn four_rounds<N: RoundName + Send + Sync, R: Threads + Wait + Abort + Sync>(
    rt: &R,
    alloc: Global,
    new: NewStore,
    strangers: (Session, Session),
)
    requires { new ≡ (N.table, N.rounds) }
{
    let store = opened::<N, R>(rt, alloc, new, 100);
    let closed = close_too_early(rt, alloc, store);
    let closed = close_with_strangers(rt, alloc, reopened(rt, closed, 100), strangers);
    let closed = two_sessions(rt, alloc, reopened(rt, closed, 100));
    sixteen_sessions(rt, alloc, reopened(rt, closed, 1000));
}

#[test]
fn rounds_of_stores(rt: HostRuntime) {
    let alloc = rt.alloc();
    let strangers = strangers::<Brand, HostRuntime>(&rt, alloc, new_store(&rt, alloc));
    four_rounds::<Brand, HostRuntime>(&rt, alloc, new_store(&rt, alloc), strangers);
}
