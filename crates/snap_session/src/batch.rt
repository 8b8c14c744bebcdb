// A charge, and then file operations, in order, up to the first that is refused.
ghost use Rattle.std.specs.Prelude.{◌≡◌, IfOk, Some};
ghost use Rattle.snap_world.specs.Layers.{MayHave, open_layer_at, with_layer};
ghost use Rattle.snap_world.specs.World.{hand_at};
ghost use Rattle.snap_session.specs.Commands.{all_operated, all_or_none, batch, batch_answer, batch_as, on_key, stopped_in};

use crate::about::about_operation;
use crate::file_commands::{is_charged, tried};
use crate::step::{call, count_at, share_at, told};
use snap_call::Call;
use snap_layer::Layer;
use snap_ledger::StoreName;
use snap_record::Sequence;
use snap_script::{Answer, RefusedOperation};
use snap_upper::Op;
use snap_usage::Usage;
use snap_world::{NoMemory, World};

// How far the batch came, after `done` of its operations.
fn came_to<N: StoreName>(
    world: &World<N>,
    slot: u64,
    done: u64,
    refused: Option<RefusedOperation>,
) -> Answer
    ensures { result ≡ batch_answer slot done refused world.now }
{
    Answer::Batch {
        done,
        count: count_at(world, slot),
        share: share_at(world, slot),
        refused,
    }
}

// The operations, each with the charge that it needs.
fn operate_all<N: StoreName>(
    world: &mut World<N>,
    n: u64,
    namespace: &str,
    key: &str,
    slot: u64,
    id: u32,
    ops: &[Op],
) -> Result<Answer, NoMemory>
    ensures done { IfOk result (λ answer. all_operated n namespace.now key.now slot id 0 ops.now world.old ≡ (world.new, answer)) }
    ensures opening { world.new.opening ≡ world.old.opening }
{
    for (place, op) in ops.iter().enumerate() {
        let done = place as u64;
        let answer = tried(world, n, slot, id, op, Usage::ZERO)?;
        if let Some(why) = answer.refusal() {
            let number = done + 1;
            let of = about_operation(world, namespace, key, op, why);
            let refused = Some(RefusedOperation { number, why, of });
            return Ok(came_to(world, slot, done, refused));
        }
    }
    Ok(came_to(world, slot, ops.len() as u64, None))
}

// The charge, and where it is granted, the operations.
fn charge_and_operate<N: StoreName>(
    world: &mut World<N>,
    n: u64,
    namespace: &str,
    key: &str,
    slot: u64,
    id: u32,
    need: Usage,
    ops: &[Op],
) -> Result<Answer, NoMemory>
    ensures done { IfOk result (λ answer. batch n namespace.now key.now slot id need ops.now world.old ≡ (world.new, answer)) }
    ensures opening { world.new.opening ≡ world.old.opening }
{
    let charge = Call::Charge {
        slot,
        id,
        need,
        want: need,
    };
    let answer = call(world, n, charge)?;
    if !is_charged(&answer) {
        return Ok(told(n, slot, world, answer));
    }
    operate_all(world, n, namespace, key, slot, id, ops)
}

// The operation that was refused.
fn stopped(answer: &Answer) -> Option<RefusedOperation>
    ensures { result ≡ stopped_in answer.now }
{
    match answer {
        Answer::Batch {
            done: _,
            count: _,
            share: _,
            refused,
        } => *refused,
        _ => None,
    }
}

// The layer stands in the slot's hand again.
fn put_back<N: StoreName>(world: &mut World<N>, slot: u64, layer: Layer)
    requires { MayHave layer (hand_at slot world.old.hands) }
    ensures { world.new ≡ with_layer slot layer world.old }
{
    let Ok(()) = world.put_layer(slot, layer) else {
        unreachable!()
    };
}

// What a batch came to: where one of its operations was refused, none is done.
fn unless_stopped<N: StoreName>(
    world: &mut World<N>,
    slot: u64,
    before: Layer,
    answer: Answer,
) -> Answer
    requires { MayHave before (hand_at slot world.old.hands) }
    ensures done { all_or_none slot (Some before) (world.old, answer) ≡ (world.new, result) }
    ensures opening { world.new.opening ≡ world.old.opening }
{
    let Some(refused) = stopped(&answer) else {
        return answer;
    };
    put_back(world, slot, before);
    came_to(world, slot, 0, Some(refused))
}

// All of the batch or none of it, also where memory is refused. First the layer is copied: its inodes, names and bytes.
fn whole_batch<N: StoreName>(
    world: &mut World<N>,
    n: u64,
    namespace: &str,
    key: &str,
    slot: u64,
    id: u32,
    need: Usage,
    ops: &[Op],
) -> Result<Answer, NoMemory>
    ensures done { IfOk result (λ answer. all_or_none slot (open_layer_at slot world.old.hands) (batch n namespace.now key.now slot id need ops.now world.old) ≡ (world.new, answer)) }
    ensures opening { world.new.opening ≡ world.old.opening }
{
    let copied = world.copy_layer(slot)?;
    let Some(layer) = copied else {
        return charge_and_operate(world, n, namespace, key, slot, id, need, ops);
    };
    match charge_and_operate(world, n, namespace, key, slot, id, need, ops) {
        Ok(answer) => Ok(unless_stopped(world, slot, layer, answer)),
        Err(no_memory) => {
            let _back = world.put_layer(slot, layer);
            Err(no_memory)
        }
    }
}

// The batch, or one of which all is done or none.
fn batch_as<N: StoreName>(
    world: &mut World<N>,
    whole: bool,
    n: u64,
    namespace: &str,
    key: &str,
    slot: u64,
    id: u32,
    need: Usage,
    ops: &[Op],
) -> Result<Answer, NoMemory>
    ensures done { IfOk result (λ answer. batch_as whole n namespace.now key.now slot id need ops.now world.old ≡ (world.new, answer)) }
    ensures opening { world.new.opening ≡ world.old.opening }
{
    if whole {
        whole_batch(world, n, namespace, key, slot, id, need, ops)
    } else {
        charge_and_operate(world, n, namespace, key, slot, id, need, ops)
    }
}

// The batch on the snapshot of a key, or why there is none.
pub(crate) fn batch<N: StoreName>(
    world: &mut World<N>,
    n: u64,
    namespace: &str,
    key: &str,
    need: Usage,
    ops: Sequence<Op>,
    whole: bool,
) -> Result<Answer, NoMemory>
    ensures done { IfOk result (λ answer. on_key world.old namespace.now key.now (λ slot id. batch_as whole n namespace.now key.now slot id need ops world.old) ≡ (world.new, answer)) }
    ensures opening { world.new.opening ≡ world.old.opening }
{
    match world.hand(namespace, key) {
        Ok((slot, id)) => {
            batch_as(
                world,
                whole,
                n,
                namespace,
                key,
                slot,
                id,
                need,
                ops.as_slice(),
            )
        }
        Err(why) => Ok(Answer::refused(why)),
    }
}
