// A worker on its way through its jobs.
ghost use Rattle.std.specs.Prelude.{◌≡◌, ◌<◌, ◌≤◌, ◌++◌, ℕ, List, [], ◌∷◌, false, true, OnOk, IfOk, IfErr, Ok, None, Some};
ghost use Rattle.snap_usage.specs.Counted.{count_of};
ghost use Rattle.snap_upper.specs.After.{after};
ghost use Rattle.snap_call.specs.Journal.{call_entry};
ghost use Rattle.snap_call.specs.declared.call.Call.TheVariants as calls;
ghost use Rattle.snap_call.specs.declared.call.Given.TheVariants.{Layer, Nothing};
ghost use Rattle.snap_call.specs.declared.entry.Entry.{Entry as EntryValue};
ghost use Rattle.snap_call.specs.declared.reply.Reply.TheVariants as replies;
ghost use Rattle.snap_book.specs.Active.{fresh};
ghost use Rattle.snap_book.specs.Held.{share_of};
ghost use Rattle.snap_writers.specs.declared.job.Ended.TheVariants as ended;
ghost use Rattle.snap_writers.specs.Jobs.{HasStoppedWorker, IsWorked, all_after, discard_entry, jobs_of, prepare_call, prepared_entry, refused_entry, unprepared};
ghost use Rattle.snap_writers.specs.Run.{IsSameSnapshot};
ghost use Rattle.snap_writers.specs.Going.{HasEnded, HasOperated, HasRunJob, HasTried, IsFresh, IsStopOf, Went, none_run};

use crate::job::{End, Ended, Ends, Gate, Job, Worked};
use crate::running::{RunError, run};
use snap_book::{Active, Held, Refusal};
use snap_record::{Labels, Text};
use snap_store::{RoundName, Session, Store};
use snap_upper::Op;
use snap_usage::Usage;
use std::alloc::Global;
use std::sync::Wait;

// What stays as it is while a worker goes on.
#[derive(Drop)]
pub(crate) struct Fixed<'a, N: RoundName, R: Wait, G: Gate> {
    pub(crate) rt: &'a R,
    pub(crate) alloc: Global,
    pub(crate) store: &'a Store<N>,
    pub(crate) gate: &'a G,
    pub(crate) number: u32,
}

// A worker with its session. It has asked the gate for `steps` steps, and may make the last of them where the gate let
// it pass and it is not made yet.
#[derive(Drop)]
pub(crate) struct Worker<'a, N: RoundName, R: Wait, G: Gate> {
    pub(crate) fixed: Fixed<'a, N, R, G>,
    pub(crate) steps: u32,
    pub(crate) may_step: bool,
    pub(crate) session: Session,
}

// Why the operations of a job are not all done: the gate, or the operation at a place, counted from 1.
enum Stop {
    Gate,
    Failed { op: u64, error: RunError },
}

impl<'a, N: RoundName, R: Wait, G: Gate> Worker<'a, N, R, G> {
    // Asks the gate for the next step.
    fn passes(&mut self) -> bool
        ensures same { self.new.session ≡ self.old.session }
        ensures may { self.new.may_step ≡ result }
        ensures fixed { self.new.fixed ≡ self.old.fixed }
        ensures stopped { result ≡ false → HasStoppedWorker (G.answers self.old.fixed.gate.now) self.old.fixed.number }
    {
        self.steps = self.steps.saturating_add(1);
        self.may_step = self.fixed.gate.pass(self.fixed.number, self.steps);
        self.may_step
    }

    // Prepares the job's snapshot, with room on the tape for its discard.
    fn prepare(&mut self, job: &Job) -> Result<Active<N>, Refusal>
        requires may { self.old.may_step ≡ true }
        ensures fresh { IfOk result (λ a. IsFresh self.old.fixed.store.now.opening.layer_inodes self.old.session self.new.session job.now a) }
        ensures refused { IfErr result (λ why. Went self.old.session self.new.session (refused_entry self.old.session.number (prepare_call job.now) Nothing why)) }
        ensures fixed { self.new.fixed ≡ self.old.fixed }
        ensures room { OnOk result (0 < self.new.session.spare) }
    {
        self.may_step = false;
        self.session.reserve(2)?;
        self.fixed.store.prepare(
            self.fixed.rt,
            &mut self.session,
            job.namespace.as_str(),
            job.key.as_str(),
            job.parent.as_str(),
            &Labels::new(self.fixed.alloc),
        )
    }

    // Does an operation of the job.
    fn operate(&mut self, active: &mut Active<N>, op: &Op, job: &Job) -> Result<(), RunError>
        requires room { 0 < self.old.session.spare }
        requires may { self.old.may_step ≡ true }
        ensures done { OnOk result (after op.now active.old.layer active.old.lowers ≡ Ok active.new.layer) }
        ensures tried { HasTried job.now self.old.session self.new.session active.old op.now result }
        ensures same { IsSameSnapshot active.old active.new }
        ensures room { 0 < self.new.session.spare }
        ensures fixed { self.new.fixed ≡ self.old.fixed }
    {
        self.may_step = false;
        if let Err(refused) = self.session.reserve(2) {
            return Err(RunError::Book(refused.into()));
        }
        run(
            self.fixed.store,
            self.fixed.rt,
            &mut self.session,
            active,
            op,
            job.extra,
        )
    }

    // Does the job's operations, in order.
    fn operate_all(&mut self, active: &mut Active<N>, job: &Job) -> Result<(), Stop>
        requires { 0 < self.old.session.spare }
        ensures done { OnOk result (all_after job.now.ops active.old.layer active.old.lowers ≡ Ok active.new.layer) }
        ensures all { OnOk result (HasOperated job.now active.old self.old.session self.new.session []) }
        ensures stopped { IfErr result (λ stop. (entry : List EntryValue) × HasOperated job.now active.old self.old.session self.new.session entry
            × IsStopOf (HasStoppedWorker (G.answers self.old.fixed.gate.now) self.old.fixed.number) self.old.session.number job.now active.old stop entry) }
        ensures same { IsSameSnapshot active.old active.new }
        ensures room { 0 < self.new.session.spare }
        ensures fixed { self.new.fixed ≡ self.old.fixed }
    {
        let mut place = 0;
        for op in job.ops.as_slice() {
            place += 1;
            if !self.passes() {
                return Err(Stop::Gate);
            }
            match self.operate(active, op, job) {
                Ok(()) => {}
                Err(error) => return Err(Stop::Failed { op: place, error }),
            }
        }
        Ok(())
    }

    // Ends the snapshot without a commit.
    fn discard(&mut self, held: Held<N>)
        requires { 0 < self.old.session.spare }
        ensures went { Went self.old.session self.new.session (discard_entry self.old.session.number (share_of held).slot (share_of held).id (share_of held).usage ∷ []) }
        ensures fixed { self.new.fixed ≡ self.old.fixed }
    {
        self.fixed
            .store
            .discard(self.fixed.rt, &mut self.session, held);
    }

    // Commits the snapshot as the job says, or discards it and tells why.
    fn commit(
        &mut self,
        active: Active<N>,
        name: &Text,
        lease: &Option<Text>,
        labels: &Option<Labels>,
    ) -> Result<Usage, Refusal>
        requires room { 0 < self.old.session.spare }
        ensures granted { IfOk result (λ usage. Went self.old.session self.new.session
            (call_entry self.old.session.number (calls.Commit active.share.slot active.share.id name.now lease.now labels.now) (Layer active.layer) (replies.Committed active.share.id usage) ∷ [])) }
        ensures count { IfOk result (λ usage. usage ≡ count_of active.layer) }
        ensures refused { IfErr result (λ why. Went self.old.session self.new.session
            (refused_entry self.old.session.number (calls.Commit active.share.slot active.share.id name.now lease.now labels.now) (Layer active.layer) why
            ++ discard_entry self.old.session.number active.share.slot active.share.id active.share.usage ∷ [])) }
        ensures fixed { self.new.fixed ≡ self.old.fixed }
    {
        let sealed = match active.seal() {
            Ok(sealed) => sealed,
            Err((no_memory, active)) => {
                self.discard(Held::Active(active));
                return Err(Refusal::OutOfMemory(no_memory));
            }
        };
        if let Err(refused) = self.session.reserve(2) {
            self.discard(Held::Sealed(sealed));
            return Err(refused.into());
        }
        match self.fixed.store.commit(
            self.fixed.rt,
            &mut self.session,
            name.as_str(),
            lease,
            labels,
            sealed,
        ) {
            Ok(usage) => Ok(usage),
            Err((why, sealed)) => {
                self.discard(Held::Sealed(sealed));
                Err(why)
            }
        }
    }

    // Gives the snapshot the job's end.
    fn end(&mut self, active: Active<N>, job: &Job) -> Ended
        requires room { 0 < self.old.session.spare }
        requires may { self.old.may_step ≡ true }
        ensures ended { HasEnded job.now self.old.session self.new.session active result }
        ensures fixed { self.new.fixed ≡ self.old.fixed }
    {
        self.may_step = false;
        match &job.end {
            End::Commit {
                name,
                lease,
                labels,
            } => {
                let id = active.id();
                match self.commit(active, name, lease, labels) {
                    Ok(usage) => Ended::Committed { id, usage },
                    Err(why) => Ended::NotCommitted(why),
                }
            }
            End::Discard => {
                self.discard(Held::Active(active));
                Ended::Discarded
            }
        }
    }

    // Does the operations on the job's snapshot and gives it its end; nothing where the gate stops it.
    fn work(&mut self, active: Active<N>, job: &Job) -> Option<Ended>
        requires room { 0 < self.old.session.spare }
        requires base { job.now.parent ≡ [] → active.lowers ≡ [] }
        requires fresh { active.layer ≡ fresh self.old.fixed.store.now.opening.layer_inodes active.lowers }
        ensures run { (chain : List ℕ) → HasRunJob (HasStoppedWorker (G.answers self.old.fixed.gate.now) self.old.fixed.number) self.old.fixed.store.now.opening.layer_inodes
            self.old.session self.new.session job.now (prepared_entry self.old.session.number job.now active.share.slot active.share.id chain ∷ []) result }
        ensures fixed { self.new.fixed ≡ self.old.fixed }
    {
        let mut active = active;
        match self.operate_all(&mut active, job) {
            Ok(()) => {
                if self.passes() {
                    return Some(self.end(active, job));
                }
                self.discard(Held::Active(active));
                None
            }
            Err(stop) => {
                self.discard(Held::Active(active));
                match stop {
                    Stop::Gate => None,
                    Stop::Failed { op, error } => Some(Ended::Failed { op, error }),
                }
            }
        }
    }

    // Goes through a job, and tells how it ended; nothing where the gate stops it.
    pub(crate) fn run_job(&mut self, job: &Job) -> Option<Ended>
        ensures run { HasRunJob (HasStoppedWorker (G.answers self.old.fixed.gate.now) self.old.fixed.number) self.old.fixed.store.now.opening.layer_inodes
            self.old.session self.new.session job.now [] result }
        ensures fixed { self.new.fixed ≡ self.old.fixed }
    {
        if !self.passes() {
            return None;
        }
        match self.prepare(job) {
            Ok(active) => self.work(active, job),
            Err(why) => Some(Ended::NotPrepared(why)),
        }
    }

    // Goes through the jobs that are the worker's own.
    fn run_all(self, jobs: &[Job], workers: u32, ends: Ends) -> Worked
        requires worker { (1 ≤ self.fixed.number) × (self.fixed.number ≤ workers) }
        requires ends { ends ≡ none_run (jobs_of jobs.now self.fixed.number workers) }
        requires session { self.session.tape ≡ call_entry self.session.number calls.Session Nothing replies.Opened ∷ [] }
        ensures { IsWorked (HasStoppedWorker (G.answers self.entry.fixed.gate.now) self.entry.fixed.number) self.entry.fixed.store.now.opening.layer_inodes jobs.now self.entry.fixed.number workers result }
    {
        let mut this = self;
        let mut ends = ends;
        let mut place = 0;
        let mut skip = this.fixed.number - 1;
        for job in jobs {
            if skip > 0 {
                skip -= 1;
                continue;
            }
            skip = workers - 1;
            match this.run_job(job) {
                Some(end) => ends.set(place, end),
                None => return this.give_back(ends, true),
            }
            place += 1;
        }
        this.give_back(ends, false)
    }

    fn give_back(self, ends: Ends, refused: bool) -> Worked
        ensures session { result.session ≡ Some self.entry.session }
        ensures ends { result.ends ≡ ends }
        ensures refused { result.refused ≡ refused }
    {
        Worked {
            session: Some(self.session),
            ends,
            refused,
        }
    }
}

// All jobs of a worker without a session ended so.
fn unstarted(ends: Ends, why: Refusal) -> Ends
    ensures { result ≡ unprepared (ended.NotPrepared why) ends }
{
    let mut ends = ends;
    for place in 0..ends.len() {
        ends.set(place, Ended::NotPrepared(why));
    }
    ends
}

/// Opens a session for the worker and goes through the jobs that are its own: of `workers` workers, counted from 1, it
/// takes those whose places, from 0, leave the remainder `worker - 1` on division by their number.
///
/// Before each prepare, each operation and each end of a job it asks the gate. Where that stops it, it discards
/// what it holds, and that job and its later ones are [`Ended::NotRun`]. It discards what it can't commit. Where
/// it gets no session, each of its jobs is [`Ended::NotPrepared`] with that refusal. `ends` has
/// [`Ended::NotRun`] for each of its jobs.
///
/// It waits for the store's lock in each call, and for the gate. The cost is that of its calls and operations,
/// and a pass over all jobs.
pub fn run_worker<N: RoundName, R: Wait, G: Gate>(
    rt: &R,
    alloc: Global,
    store: &Store<N>,
    jobs: &[Job],
    worker: u32,
    workers: u32,
    gate: &G,
    ends: Ends,
) -> Worked
    requires worker { (1 ≤ worker) × (worker ≤ workers) }
    requires ends { ends ≡ none_run (jobs_of jobs.now worker workers) }
    ensures { IsWorked (HasStoppedWorker (G.answers gate.now) worker) store.now.opening.layer_inodes jobs.now worker workers result }
{
    match store.session(rt) {
        Ok(session) => {
            let fixed = Fixed {
                rt,
                alloc,
                store,
                gate,
                number: worker,
            };
            let work = Worker {
                fixed,
                steps: 0,
                may_step: false,
                session,
            };
            work.run_all(jobs, workers, ends)
        }
        Err(why) => Worked {
            session: None,
            ends: unstarted(ends, why),
            refused: false,
        },
    }
}
