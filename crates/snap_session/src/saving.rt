//! What is saved of a server's store.
ghost use Rattle.std.specs.Prelude.{◌≡◌, Some, IfOk};
ghost use Rattle.snap_book.specs.Round.{roll_answer};
ghost use Rattle.snap_session.specs.Saving.{SavesRolled, saved_by};

use snap_call::Refusal;
use snap_checkpoint::StoreLines;
use snap_ledger::StoreName;
use snap_world::{NoMemory, World};
use std::alloc::Global;

/// What is saved of a server's store.
#[derive(Drop)]
pub enum Saving {
    /// No store stands.
    NoStore,
    /// A roll to as many entries is refused, and so would be the restoration.
    Refused(Refusal),
    /// The lines of the store. They make the store that a roll to as many entries leaves.
    Lines(StoreLines),
}

// What is saved of a world.
pub(crate) fn saved_by<N: StoreName>(alloc: Global, world: &World<N>) -> Result<Saving, NoMemory>
    ensures saved { IfOk result (λ saving. saving ≡ saved_by world.now (roll_answer world.now.state world.now.limit)) }
    ensures rolled { IfOk result (λ saving. SavesRolled (Some (record { world = world.now })) saving) }
{
    if let Err(why) = world.test_save() {
        return Ok(Saving::Refused(why));
    }
    let held = world.hold(alloc)?;
    Ok(Saving::Lines(StoreLines::hold(alloc, held)?))
}
