// Limits, leases and sweeps. Witnesses: they are proved, and not run. Each call is on a book of its own.
ghost use Rattle.std.specs.Prelude.{◌≡◌, [], ◌∷◌, Some, true, codes};
ghost use Rattle.snap_lease.specs.Leases.{has_lease};
ghost use Rattle.snap_call.specs.Records.{charge_of};
ghost use Rattle.snap_call.specs.State.{place_of};

use crate::setup::text;
use snap_book::Book;
use snap_call::{Call, Reply};
use snap_ledger::StoreName;
use snap_usage::Usage;
use std::alloc::Global;
use std::process::Abort;

// A limit that covers the charge in one quantity alone is refused; and so is a lease that is there already.
fn refused<N: StoreName, R: Abort>(
    rt: &R,
    alloc: Global,
    charged: &mut Book<N>,
    leased: &mut Book<N>,
)
    requires place { place_of (codes "a") charged.old.state.namespaces ≡ Some 0 }
    requires charge { charge_of 0 charged.old.state.records ≡ record { blocks = 4; inodes = 3 } }
    requires other { place_of (codes "a") leased.old.state.namespaces ≡ Some 0 }
    requires there { has_lease leased.old.state.leases (codes "a") (codes "L") ≡ true }
{
    let below = Call::SetLimit {
        namespace: text(rt, alloc, "a"),
        limit: Usage {
            blocks: 4,
            inodes: 2,
        },
    };
    let granted = matches!(charged.do_call(0, below), Reply::Done);
    prove!(!granted);
    let again = Call::LeaseCreate {
        namespace: text(rt, alloc, "a"),
        lease: text(rt, alloc, "L"),
        until: Some(10),
    };
    let made = matches!(leased.do_call(0, again), Reply::Done);
    prove!(!made);
}

// A lease is live at its last moment, and has ended after it.
fn swept<N: StoreName, R: Abort>(rt: &R, alloc: Global, live: &mut Book<N>, ended: &mut Book<N>)
    requires place { place_of (codes "a") live.old.state.namespaces ≡ Some 0 }
    requires lease { live.old.state.leases ≡ record { namespace = codes "a"; name = codes "L"; until = Some 10; names = [] } ∷ [] }
    requires other { ended.old.state ≡ live.old.state }
{
    let last = Call::Sweep {
        namespace: text(rt, alloc, "a"),
        moment: 10,
    };
    if let Reply::Swept { leases, .. } = live.do_call(0, last) {
        prove!(leases == 0);
    }
    let after = Call::Sweep {
        namespace: text(rt, alloc, "a"),
        moment: 11,
    };
    if let Reply::Swept { leases, .. } = ended.do_call(0, after) {
        prove!(leases == 1);
    }
}
