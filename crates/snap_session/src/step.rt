// One step of the world, and what a script says of it.
ghost use Rattle.std.specs.Prelude.{◌≡◌, IfOk, false};
ghost use Rattle.snap_world.specs.declared.step.Step.TheVariants.{Locked};
ghost use Rattle.snap_world.specs.Move.{move};
ghost use Rattle.snap_world.specs.Quota.{layer_count_at};
ghost use Rattle.snap_session.specs.Opened.{share_at};
ghost use Rattle.snap_session.specs.Wanting.{is_want};
ghost use Rattle.snap_session.specs.Commands.{answer_of_step, stepped};

use snap_call::{Call, Refusal, Reply};
use snap_ledger::StoreName;
use snap_merge::FsError;
use snap_script::Answer;
use snap_usage::Usage;
use snap_world::{Answer as StepAnswer, NoMemory, World};

// What the snapshot in the slot is charged.
pub(crate) fn share_at<N: StoreName>(world: &World<N>, slot: u64) -> Usage
    ensures { result ≡ share_at slot world.now }
{
    match world.share(slot) {
        Some(share) => share,
        None => Usage::ZERO,
    }
}

// What the layer of the snapshot in the slot takes.
pub(crate) fn count_at<N: StoreName>(world: &World<N>, slot: u64) -> Usage
    ensures { result ≡ layer_count_at slot world.now.hands }
{
    match world.count(slot) {
        Some(count) => count,
        None => Usage::ZERO,
    }
}

// The answer of a step that had the memory that it wanted.
fn unless_want(answer: StepAnswer) -> Result<StepAnswer, NoMemory>
    ensures { IfOk result (λ same. (same ≡ answer) × (is_want answer ≡ false)) }
{
    match answer {
        StepAnswer::Reply(Reply::Refused(Refusal::OutOfMemory(no_memory))) => Err(no_memory),
        StepAnswer::File(Err(FsError::OutOfMemory(no_memory))) => Err(no_memory),
        answer => Ok(answer),
    }
}

// A call on the store.
pub(crate) fn call<N: StoreName>(
    world: &mut World<N>,
    session: u64,
    call: Call,
) -> Result<StepAnswer, NoMemory>
    ensures done { IfOk result (λ answer. move world.old (Locked session call) ≡ (world.new, answer)) }
    ensures opening { world.new.opening ≡ world.old.opening }
{
    unless_want(world.call(session, call))
}

// What a script says of the answer of a step on the slot.
pub(crate) fn told<N: StoreName>(
    session: u64,
    slot: u64,
    world: &World<N>,
    answer: StepAnswer,
) -> Answer
    ensures { result ≡ answer_of_step session slot world.now answer }
{
    match answer {
        StepAnswer::Reply(Reply::Opened) => Answer::Session(session),
        StepAnswer::Reply(Reply::Trimmed) => Answer::Share(share_at(world, slot)),
        StepAnswer::Reply(reply) => Answer::Reply(reply),
        StepAnswer::File(Ok(())) => Answer::Changed {
            count: count_at(world, slot),
            share: share_at(world, slot),
        },
        StepAnswer::File(Err(error)) => Answer::Failed(error),
        StepAnswer::NoSession => Answer::NoSession,
        StepAnswer::NoHand => Answer::NoHand,
    }
}

// A call on the store, with its texts cut, and what a script says of it.
pub(crate) fn called<N: StoreName>(
    world: &mut World<N>,
    session: u64,
    slot: u64,
    mut asked: Call,
) -> Result<Answer, NoMemory>
    ensures done { IfOk result (λ answer. stepped session slot (Locked session asked) world.old ≡ (world.new, answer)) }
    ensures opening { world.new.opening ≡ world.old.opening }
{
    asked.cut(world.state())?;
    let answer = call(world, session, asked)?;
    Ok(told(session, slot, world, answer))
}
