// The commands that are calls of the store, and those of its calls that are asked without an entry.
ghost use Rattle.std.specs.Prelude.{◌≡◌, IfOk};
ghost use Rattle.snap_call.specs.declared.call.Call.TheVariants as calls;
ghost use Rattle.snap_world.specs.declared.step.Step.TheVariants.{Locked};
ghost use Rattle.snap_call.specs.Questions.{reply_to};
ghost use Rattle.snap_call.specs.Step.{sweep};
ghost use Rattle.snap_book.specs.Questions.{chain_usage};
ghost use Rattle.snap_call.specs.declared.reply.Reply.TheVariants as replies;
ghost use Rattle.snap_script.specs.declared.answer.Answer.TheVariants as answers;
ghost use Rattle.snap_session.specs.Commands.{stepped, on_key};
ghost use Rattle.snap_session.specs.Found.{found_or_else, refusal_answer};

use crate::step::called;
use snap_call::{Call, Question, Reply};
use snap_ledger::StoreName;
use snap_record::{Labels, Text};
use snap_script::Answer;
use snap_usage::Usage;
use snap_world::{NoMemory, World};

pub(crate) fn session<N: StoreName>(world: &mut World<N>) -> Result<Answer, NoMemory>
    ensures done { IfOk result (λ answer. stepped world.old.state.sessions 0 (Locked world.old.state.sessions calls.Session) world.old ≡ (world.new, answer)) }
    ensures opening { world.new.opening ≡ world.old.opening }
{
    let number = world.sessions();
    called(world, number, 0, Call::Session)
}

pub(crate) fn charge<N: StoreName>(
    world: &mut World<N>,
    n: u64,
    namespace: &str,
    key: &str,
    need: Usage,
    want: Usage,
) -> Result<Answer, NoMemory>
    ensures done { IfOk result (λ answer. on_key world.old namespace.now key.now (λ slot id. stepped n slot (Locked n (calls.Charge slot id need want)) world.old) ≡ (world.new, answer)) }
    ensures opening { world.new.opening ≡ world.old.opening }
{
    match world.hand(namespace, key) {
        Ok((slot, id)) => called(
            world,
            n,
            slot,
            Call::Charge {
                slot,
                id,
                need,
                want,
            },
        ),
        Err(why) => Ok(Answer::refused(why)),
    }
}

pub(crate) fn trim<N: StoreName>(
    world: &mut World<N>,
    n: u64,
    namespace: &str,
    key: &str,
) -> Result<Answer, NoMemory>
    ensures done { IfOk result (λ answer. on_key world.old namespace.now key.now (λ slot id. stepped n slot (Locked n (calls.Trim slot id)) world.old) ≡ (world.new, answer)) }
    ensures opening { world.new.opening ≡ world.old.opening }
{
    match world.hand(namespace, key) {
        Ok((slot, id)) => called(world, n, slot, Call::Trim { slot, id }),
        Err(why) => Ok(Answer::refused(why)),
    }
}

pub(crate) fn commit<N: StoreName>(
    world: &mut World<N>,
    n: u64,
    namespace: &str,
    key: &str,
    name: Text,
    lease: Option<Text>,
    labels: Option<Labels>,
) -> Result<Answer, NoMemory>
    ensures done { IfOk result (λ answer. on_key world.old namespace.now key.now (λ slot id. stepped n slot (Locked n (calls.Commit slot id name lease labels)) world.old) ≡ (world.new, answer)) }
    ensures opening { world.new.opening ≡ world.old.opening }
{
    match world.hand(namespace, key) {
        Ok((slot, id)) => called(
            world,
            n,
            slot,
            Call::Commit {
                slot,
                id,
                name,
                lease,
                labels,
            },
        ),
        Err(why) => Ok(Answer::refused(why)),
    }
}

pub(crate) fn discard<N: StoreName>(
    world: &mut World<N>,
    n: u64,
    namespace: &str,
    key: &str,
) -> Result<Answer, NoMemory>
    ensures done { IfOk result (λ answer. on_key world.old namespace.now key.now (λ slot id. stepped n slot (Locked n (calls.Discard slot id)) world.old) ≡ (world.new, answer)) }
    ensures opening { world.new.opening ≡ world.old.opening }
{
    match world.hand(namespace, key) {
        Ok((slot, id)) => called(world, n, slot, Call::Discard { slot, id }),
        Err(why) => Ok(Answer::refused(why)),
    }
}

// What the call that asks the same would reply. No step is made.
pub(crate) fn ask<N: StoreName>(world: &World<N>, question: Question) -> Result<Answer, NoMemory>
    ensures { IfOk result (λ answer. answer ≡ answers.Reply (reply_to world.now.state question)) }
{
    Ok(Answer::Reply(world.answer(&question)?))
}

// What a sweep of the namespace would answer. Nothing goes.
pub(crate) fn try_sweep<N: StoreName>(
    world: &World<N>,
    namespace: &str,
    moment: u64,
) -> Result<Answer, NoMemory>
    ensures { IfOk result (λ answer. answer ≡ answers.Reply (sweep world.now.state namespace.now moment).1) }
{
    Ok(Answer::Reply(world.plan_sweep(namespace, moment)?))
}

// What the snapshot is charged with its ancestors, or why there is none.
pub(crate) fn chain_usage<N: StoreName>(world: &World<N>, namespace: &str, key: &str) -> Answer
    ensures { result ≡ found_or_else (λ usage. answers.Reply (replies.Usage usage)) refusal_answer (chain_usage world.now.state namespace.now key.now) }
{
    match world.chain_usage(namespace, key) {
        Ok(usage) => Answer::Reply(Reply::Usage(usage)),
        Err(why) => Answer::refused(why),
    }
}
