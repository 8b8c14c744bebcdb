// The next round of a store.
ghost use Rattle.std.specs.Prelude.{◌≡◌, IfOk};
ghost use Rattle.snap_session.specs.Carried.{carried_of};
ghost use Rattle.snap_call.specs.declared.call.Call.TheVariants as calls;
ghost use Rattle.snap_world.specs.declared.step.Answer.TheVariants as step_answers;
ghost use Rattle.snap_world.specs.declared.step.Step.TheVariants.{Locked};
ghost use Rattle.snap_world.specs.Move.{move};
ghost use Rattle.snap_session.specs.Commands.{round_opened, is_started, reopen, roll};

use crate::carried::{Carried, carried_of};
use crate::step::{call, told};
use snap_call::{Call, Reply};
use snap_ledger::StoreName;
use snap_record::Sequence;
use snap_script::Answer;
use snap_world::{Answer as StepAnswer, NoMemory, ReopenFault, World};
use std::alloc::Global;

fn is_start(reply: &Reply) -> bool
    ensures { result ≡ is_started (step_answers.Reply reply.now) }
{
    match reply {
        Reply::Opened => true,
        _ => false,
    }
}

pub(crate) fn is_started(answer: &StepAnswer) -> bool
    ensures { result ≡ is_started answer.now }
{
    match answer {
        StepAnswer::Reply(reply) => is_start(reply),
        _ => false,
    }
}

// Session 0 of a round that was begun.
pub(crate) fn open_round<N: StoreName>(world: &mut World<N>) -> Result<Answer, NoMemory>
    ensures done { IfOk result (λ answer. round_opened (move world.old (Locked 0 calls.Session)) ≡ (world.new, answer)) }
    ensures opening { world.new.opening ≡ world.old.opening }
{
    let answer = call(world, 0, Call::Session)?;
    if is_started(&answer) {
        return Ok(Answer::Reply(Reply::Done));
    }
    Ok(told(0, 0, world, answer))
}

// The next round, and its session 0, for whose entry memory is taken first, and for the active snapshots' names.
pub(crate) fn reopen<N: StoreName>(
    alloc: Global,
    world: &mut World<N>,
    carried: &mut Sequence<Carried>,
    journal: u64,
) -> Result<Answer, NoMemory>
    requires { carried.old ≡ carried_of world.old.opening }
    ensures done { IfOk result (λ answer. reopen world.old journal ≡ (world.new, answer)) }
    ensures carried { carried.new ≡ carried_of world.new.opening }
{
    world.reserve_session()?;
    let active = carried_of(alloc, world.state())?;
    match world.reopen(journal) {
        Ok(()) => {
            *carried = active;
            open_round(world)
        }
        Err(ReopenFault::StillOut) => Ok(Answer::StillOut),
        Err(ReopenFault::Book(why)) => Ok(Answer::refused(why)),
    }
}

// The same, and active snapshots stay.
pub(crate) fn roll<N: StoreName>(
    alloc: Global,
    world: &mut World<N>,
    carried: &mut Sequence<Carried>,
    journal: u64,
) -> Result<Answer, NoMemory>
    requires { carried.old ≡ carried_of world.old.opening }
    ensures done { IfOk result (λ answer. roll world.old journal ≡ (world.new, answer)) }
    ensures carried { carried.new ≡ carried_of world.new.opening }
{
    world.reserve_session()?;
    let active = carried_of(alloc, world.state())?;
    match world.roll(journal) {
        Ok(()) => {
            *carried = active;
            open_round(world)
        }
        Err(why) => Ok(Answer::refused(why)),
    }
}
