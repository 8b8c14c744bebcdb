// A store that the lines of a saved one make.
ghost use Rattle.std.specs.Prelude.{◌≡◌, ◌⊎◌, IfErr, IfOk, Ok, Err};
ghost use Rattle.snap_path.specs.Memory.{no_memory};
ghost use Rattle.snap_world.specs.Restored.{restored};
ghost use Rattle.snap_world.specs.declared.fault.RestoreFault.TheVariants as faults;
ghost use Rattle.snap_session.specs.Restoring.{begun_again, store_told, world_told};

use crate::carried::carried_of;
use crate::opened::Opened;
use crate::round::open_round;
use snap_checkpoint::StoreFault;
use snap_ledger::{NewTable, StoreName};
use snap_script::{Answer, RestoreRefusal};
use snap_world::{NoMemory, RestoreFault, SavedWorld, World};
use std::alloc::Global;

// Why a line isn't taken, or that memory was refused.
pub(crate) fn store_told(fault: StoreFault) -> Result<RestoreRefusal, NoMemory>
    ensures { result ≡ store_told fault }
{
    match fault {
        StoreFault::Misplaced => Ok(RestoreRefusal::Misplaced),
        StoreFault::Incomplete => Ok(RestoreRefusal::Incomplete),
        StoreFault::TooBig => Ok(RestoreRefusal::TooBig),
        StoreFault::LabelTwice => Ok(RestoreRefusal::LabelTwice),
        StoreFault::TooManyLabels => Ok(RestoreRefusal::TooManyLabels),
        StoreFault::Layer(place, part, fault) => Ok(RestoreRefusal::Layer(place, part, fault)),
        StoreFault::OutOfMemory(no_memory) => Err(no_memory),
    }
}

// Why a saved store isn't opened, or that memory was refused.
pub(crate) fn world_told(fault: RestoreFault) -> Result<RestoreRefusal, NoMemory>
    ensures { result ≡ world_told fault }
{
    match fault {
        RestoreFault::Config(field) => Ok(RestoreRefusal::Config(field)),
        RestoreFault::Entries => Ok(RestoreRefusal::Entries),
        RestoreFault::Snapshot(place, why) => Ok(RestoreRefusal::Snapshot(place, why)),
        RestoreFault::Lease(place, why) => Ok(RestoreRefusal::Lease(place, why)),
        RestoreFault::NextId => Ok(RestoreRefusal::NextId),
        RestoreFault::Journal(why) => Ok(RestoreRefusal::Journal(why)),
        RestoreFault::OutOfMemory(no_memory) => Err(no_memory),
    }
}

// The store of the saved one, and its session 0, as after a roll.
pub(crate) fn begun_again<N: StoreName>(
    alloc: Global,
    table: NewTable,
    saved: SavedWorld,
) -> Result<(Opened<N>, Answer), RestoreFault>
    requires { table ≡ N.table }
    ensures ok { IfOk result (λ begun. begun_again saved ≡ Ok begun) }
    ensures refused { IfErr result (λ fault. (begun_again saved ≡ Err fault) ⊎ (fault ≡ faults.OutOfMemory no_memory)) }
{
    let mut world = World::restore(alloc, table, saved)?;
    let carried = carried_of(alloc, world.state())?;
    match open_round(&mut world) {
        Ok(answer) => Ok((Opened::with_carried(world, carried), answer)),
        Err(no_memory) => Err(RestoreFault::OutOfMemory(no_memory)),
    }
}
