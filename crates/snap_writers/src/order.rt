// The ends of all jobs in their order, and the workers' sessions.
ghost use Rattle.std.specs.Prelude.{◌≡◌, ◌≤◌, ◌+◌, ◌-◌, [], false, true, length, All, IfSome, IfNone, Some, slice_get, option_map, vec_len, vec_capacity};
ghost use Rattle.snap_writers.specs.Jobs.{AreInOrder, Each, jobs_of, sessions_of};

use crate::job::{Ended, Ends, Job, Worked};
use snap_store::Session;

// The ends of all jobs, in the order of the jobs. The list has room.
pub(crate) fn in_order(jobs: &[Job], workers: u32, all: &[Worked], ends: Vec<Ended>) -> Ends
    requires workers { 1 ≤ workers }
    requires worked { (length all.now ≡ workers) × Each (λ k w. length w.ends ≡ length (jobs_of jobs.now (k + 1) workers)) 0 all.now }
    requires room { (ends.items ≡ []) × (length jobs.now ≤ vec_capacity ends) }
    ensures { AreInOrder jobs.now workers all.now result }
{
    let mut ends = ends;
    let mut turn = 0;
    let mut round = 0;
    for _ in jobs {
        ends.push_reserved(all[turn].ends.as_slice()[round]);
        turn += 1;
        if turn == all.len() {
            turn = 0;
            round += 1;
        }
    }
    ends.into()
}

// The first worker that the gate stopped, counted from 1.
pub(crate) fn first_refused(all: &[Worked]) -> Option<u32>
    requires { length all.now ≤ 16 }
    ensures none { IfNone result (All (λ w. w.refused ≡ false) all.now) }
    ensures some { IfSome result (λ worker. (1 ≤ worker) × (worker ≤ length all.now) × (option_map (λ w. w.refused) (slice_get all.now (worker - 1)) ≡ Some true)) }
{
    let place = all.iter().position(|worked| worked.refused)?;
    Some(place as u32 + 1)
}

// The sessions of the workers that got one, in order. The list has room.
pub(crate) fn sessions_of(all: Vec<Worked>, sessions: Vec<Session>) -> Vec<Session>
    requires { (sessions.items ≡ []) × (vec_len all ≤ vec_capacity sessions) }
    ensures { result.items ≡ sessions_of all.items }
{
    let mut sessions = sessions;
    for worked in all {
        let Worked {
            session,
            ends: _,
            refused: _,
        } = worked;
        match session {
            Some(session) => sessions.push_reserved(session),
            None => {}
        }
    }
    sessions
}
