// The two halves of a slot's charge, which hold the same.
ghost use Rattle.std.specs.Prelude.{◌≡◌};
ghost use Rattle.snap_usage.specs.Counted.{no_usage};

use crate::setup::usage;
use snap_ledger::{Charge, NewTable, StoreName};
use std::alloc::Global;
use std::marker::Brand;
use std::process::Abort;

/// From 1/1 to 4/3, then down to 2/2, and back to nothing.
fn both_halves_move_alike<N: StoreName>(charge: &mut Charge<N>)
    requires { charge.old.usage ≡ no_usage }
    ensures { charge.new.usage ≡ no_usage }
{
    let mut share = charge.issue(7, usage(1, 1));
    let id = share.id();
    prove!(id == 7);
    charge.set(&mut share, usage(4, 3));
    let (held, charged) = (share.held(), charge.held());
    prove!(held.blocks == 4 && held.inodes == 3);
    prove!(charged.blocks == 4 && charged.inodes == 3);
    charge.set(&mut share, usage(2, 2));
    let met = charge.meet(&mut share);
    prove!(met.blocks == 2 && met.inodes == 2);
    let back = charge.spend(share);
    prove!(back.blocks == 2 && back.inodes == 2);
}

fn each_slot_is_issued_twice<N: StoreName, R: Abort>(rt: &R, alloc: Global, table: NewTable)
    requires { table ≡ N.table }
{
    let mut row = Charge::<N>::row(alloc, table, 64).expect(rt, "memory for charges");
    let slots = row.len();
    prove!(slots == 64);
    for charge in &mut row {
        assert_eq!(rt; charge.held(), usage(0, 0));
        both_halves_move_alike(charge);
        both_halves_move_alike(charge);
    }
}

#[test]
fn sixty_four_charges_in_a_row(rt: HostRuntime) {
    let table = NewTable::new(rt.alloc()).expect(&rt, "memory for a table");
    each_slot_is_issued_twice::<Brand, HostRuntime>(&rt, rt.alloc(), table);
}
