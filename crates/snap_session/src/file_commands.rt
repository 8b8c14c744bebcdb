// File commands, with the charge that they need.
ghost use Rattle.std.specs.Prelude.{◌≡◌, false, Err, IfOk};
ghost use Rattle.snap_world.specs.Applied.{is_charged, last_answer};
ghost use Rattle.snap_world.specs.declared.step.Step.TheVariants.{Hand};
ghost use Rattle.snap_world.specs.Move.{move};
ghost use Rattle.snap_session.specs.Commands.{on_key, tried, performed};
ghost use Rattle.snap_session.specs.Wanting.{is_want, unapplied_answer};

use crate::about::about_operation;
use snap_call::{Refusal, Reply};
use snap_ledger::StoreName;
use snap_merge::FsError;
use snap_script::{Answer, Field};
use snap_upper::Op;
use snap_usage::Usage;
use snap_world::{Answer as StepAnswer, Changed, NoMemory, Unapplied, World};

pub(crate) fn is_charged(answer: &StepAnswer) -> bool
    ensures { result ≡ is_charged answer.now }
{
    match answer {
        StepAnswer::Reply(Reply::Charged { now: _ }) => true,
        _ => false,
    }
}

// What a script says of an operation that was not done.
fn unapplied(why: Unapplied) -> Result<Answer, NoMemory>
    ensures { IfOk result (λ answer. (is_want (last_answer (Err why)) ≡ false) × (answer ≡ unapplied_answer why)) }
{
    match why {
        Unapplied::File(FsError::OutOfMemory(no_memory)) => Err(no_memory),
        Unapplied::Charge(Refusal::OutOfMemory(no_memory)) => Err(no_memory),
        Unapplied::File(error) => Ok(Answer::Failed(error)),
        Unapplied::Charge(why) => Ok(Answer::Reply(Reply::Refused(why))),
        Unapplied::NoSession => Ok(Answer::NoSession),
        Unapplied::NoHand => Ok(Answer::NoHand),
    }
}

// The operation, with the charge that it needs.
pub(crate) fn tried<N: StoreName>(
    world: &mut World<N>,
    n: u64,
    slot: u64,
    id: u32,
    op: &Op,
    extra: Usage,
) -> Result<Answer, NoMemory>
    ensures done { IfOk result (λ answer. tried n slot id (Hand slot op.now) extra (move world.old (Hand slot op.now)) ≡ (world.new, answer)) }
    ensures opening { world.new.opening ≡ world.old.opening }
{
    match world.apply(n, slot, id, op, extra) {
        Ok(Changed { count, share }) => Ok(Answer::Changed { count, share }),
        Err(why) => unapplied(why),
    }
}

#[tactic(auto, unfolding(crate::specs::Commands::performed))]
pub(crate) fn file<N: StoreName>(
    world: &mut World<N>,
    n: u64,
    namespace: &str,
    key: &str,
    operation: Result<Op, Field>,
    extra: Usage,
) -> Result<Answer, NoMemory>
    ensures done { IfOk result (λ answer. on_key world.old namespace.now key.now (λ slot id. performed n namespace.now key.now slot id operation extra world.old) ≡ (world.new, answer)) }
    ensures opening { world.new.opening ≡ world.old.opening }
{
    match world.hand(namespace, key) {
        Ok((slot, id)) => match operation {
            Ok(op) => {
                let answer = tried(world, n, slot, id, &op, extra)?;
                let Some(why) = answer.refusal() else {
                    return Ok(answer);
                };
                let of = about_operation(world, namespace, key, &op, why);
                Ok(Answer::Refused { why, of })
            }
            Err(_) => Ok(Answer::Failed(FsError::BadPath)),
        },
        Err(why) => Ok(Answer::refused(why)),
    }
}
