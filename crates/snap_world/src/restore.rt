// A world that is restored as a whole.
ghost use Rattle.std.specs.Prelude.{◌≡◌, ◌⊎◌, IfOk, IfErr, IsErrOf, OnOk, Ok, Err};
ghost use Rattle.snap_path.specs.Memory.{no_memory};
ghost use Rattle.snap_call.specs.SavedLeases.{with_leases};
ghost use Rattle.snap_world.specs.declared.fault.RestoreFault.{RestoreFault};
ghost use Rattle.snap_world.specs.declared.fault.RestoreFault.TheVariants as faults;
ghost use Rattle.snap_world.specs.Restored.{put_leases_from, put_snapshots_from, restored};
ghost use Rattle.snap_world.specs.Saved.{open_answer};
ghost use Rattle.snap_world.specs.World.{Fits};

use crate::fault::{RestoreFault, fault_of};
use crate::restoring::Restoring;
use crate::save::{SavedSnapshot, SavedWorld};
use crate::world::World;
use snap_call::SavedLease;
use snap_ledger::{NewTable, StoreName};
use std::alloc::Global;

impl<N: StoreName> Restoring<N> {
    // Puts the snapshots back, one after another.
    fn put_snapshots(&mut self, snapshots: Vec<SavedSnapshot>) -> Result<(), RestoreFault>
        ensures ok { OnOk result (put_snapshots_from 0 self.old snapshots.items ≡ Ok self.new) }
        ensures refused { IfErr result (λ fault. (put_snapshots_from 0 self.old snapshots.items ≡ Err fault) ⊎ (fault ≡ faults.OutOfMemory no_memory)) }
    {
        let mut place = 0;
        for snapshot in snapshots {
            let SavedSnapshot { saved, hand } = snapshot;
            if let Err(why) = self.put(saved, hand) {
                return Err(fault_of(RestoreFault::Snapshot(place, why), why));
            }
            place += 1;
        }
        Ok(())
    }

    // Puts the leases back, one after another.
    fn put_leases(&mut self, leases: &[SavedLease]) -> Result<(), RestoreFault>
        ensures ok { OnOk result (put_leases_from 0 self.old.state leases.now ≡ Ok self.new.state) }
        ensures refused { IfErr result (λ fault. (put_leases_from 0 self.old.state leases.now ≡ Err fault) ⊎ (fault ≡ faults.OutOfMemory no_memory)) }
        ensures rest { self.new ≡ record { state = with_leases self.old.state self.new.state.leases; hands = self.old.hands } }
    {
        for (place, lease) in leases.iter().enumerate() {
            if let Err(why) = self.put_lease(lease) {
                return Err(fault_of(RestoreFault::Lease(place, why), why));
            }
        }
        Ok(())
    }
}

impl<N: StoreName> World<N> {
    /// The world that was saved. Its round begins there: its journal is empty, and sessions are counted from 0. What
    /// [`World::save`] has given makes the world that a [`World::roll`] to as many entries would leave; where that roll is
    /// refused, so is this, with `Journal`. Of any other parts it makes a world that keeps all that a world keeps
    /// (`Fits`), or it names the first part that it can't take.
    ///
    /// The faults: those of [`Restoring::open`]; `Snapshot` with the place and the refusal of [`Restoring::put`], then
    /// `Lease` with those of [`Restoring::put_lease`], for the first that is refused; those of [`Restoring::finish`];
    /// `OutOfMemory`, without a place, where memory is refused. After a fault nothing is left. Memory and cost are those
    /// of these calls.
    pub fn restore(
        alloc: Global,
        table: NewTable,
        saved: SavedWorld,
    ) -> Result<World<N>, RestoreFault>
        requires { table ≡ N.table }
        ensures restored { IfOk result (λ w. restored saved ≡ Ok w) }
        ensures first { (fault : RestoreFault) → open_answer saved.config saved.entries ≡ Err fault → IsErrOf result fault }
        ensures refused { IfErr result (λ fault. (restored saved ≡ Err fault) ⊎ (fault ≡ faults.OutOfMemory no_memory)) }
        ensures fits { IfOk result Fits }
    {
        let SavedWorld {
            config,
            entries,
            next_id,
            snapshots,
            leases,
        } = saved;
        let journal = config.journal;
        let mut restoring = Restoring::open(alloc, table, config, entries)?;
        restoring.put_snapshots(snapshots)?;
        restoring.put_leases(&leases)?;
        restoring.finish(next_id, journal)
    }
}
