// Leases: what they name and how long they live, and a sweep set.
ghost use Rattle.std.specs.Prelude.{IsTrue};
ghost use Rattle.snap_lease.specs.Reach.{HasParentsWithin};

use crate::setup::equal;
use snap_lease::{LeaseError, LeaseNameError, Leases, sweep_set};

#[test]
fn leases_that_are_there_or_not(rt: HostRuntime) {
    let mut leases = Leases::new(rt.alloc());
    let added = leases.add("a", "M", "base");
    prove!(matches!(&added, Err(LeaseError::NoLease)));
    let released = leases.release("a", "M");
    prove!(matches!(&released, Err(LeaseError::NoLease)));
    leases
        .create("a", "L", None)
        .expect(&rt, "memory for a lease");
    let again = leases.create("a", "L", Some(3));
    prove!(matches!(&again, Err(LeaseError::LeaseExists)));
}

#[test]
fn a_name_in_a_lease(rt: HostRuntime) {
    let mut leases = Leases::new(rt.alloc());
    leases
        .create("a", "L", None)
        .expect(&rt, "memory for a lease");
    leases
        .add("a", "L", "base")
        .expect(&rt, "memory for a name");
    leases
        .add("a", "L", "base")
        .expect(&rt, "the name is there");
    let names = leases.of("a", "L").expect(&rt, "memory for names").len();
    equal(&rt, names, 1);
    let held = leases.holds("a", "base");
    prove!(held);
    let count = leases.count("a", "base");
    prove!(count == 1);
    let elsewhere = leases.count("z", "base");
    prove!(elsewhere == 0);
    leases.release("a", "L").expect(&rt, "the lease is there");
    let held = leases.holds("a", "base");
    prove!(!held);
}

#[test]
fn a_name_that_is_dropped(rt: HostRuntime) {
    let mut leases = Leases::new(rt.alloc());
    leases
        .create("a", "L", None)
        .expect(&rt, "memory for a lease");
    let lacking = leases.drop_name("a", "L", "base");
    prove!(matches!(&lacking, Err(LeaseNameError::NoName)));
    let missing = leases.drop_name("a", "M", "base");
    prove!(matches!(&missing, Err(LeaseNameError::NoLease)));
    leases
        .add("a", "L", "base")
        .expect(&rt, "memory for a name");
    let dropped = leases.drop_name("a", "L", "base");
    prove!(dropped.is_ok());
    let held = leases.holds("a", "base");
    prove!(!held);
}

#[test]
fn what_is_told_of_a_lease(rt: HostRuntime) {
    let mut leases = Leases::new(rt.alloc());
    leases
        .create("a", "L", Some(7))
        .expect(&rt, "memory for a lease");
    leases
        .add("a", "L", "base")
        .expect(&rt, "memory for a name");
    let told = leases.infos("a").expect(&rt, "memory for a list").len();
    prove!(told == 1);
    let others = leases.infos("z").expect(&rt, "memory for a list").len();
    prove!(others == 0);
    let info = leases.info("a", "L").expect(&rt, "memory for texts");
    let Some(info) = info else { unreachable!() };
    let until = info.until();
    prove!(until == Some(7));
    let names = info.names().len();
    prove!(names == 1);
}

#[test]
fn the_last_moment(rt: HostRuntime) {
    let mut leases = Leases::new(rt.alloc());
    leases
        .create("a", "L", Some(10))
        .expect(&rt, "memory for a lease");
    leases.add("a", "L", "c").expect(&rt, "memory for a name");
    let at_last = leases.live("a", "c", 10);
    prove!(at_last);
    let later = leases.live("a", "c", 11);
    prove!(!later);
    let ended = leases.ended("a", 11);
    prove!(ended == 1);
    leases.drop_ended("a", 10);
    let kept = leases.count("a", "c");
    prove!(kept == 1);
    leases.drop_ended("a", 11);
    let left = leases.count("a", "c");
    prove!(left == 0);
}

/// Whether each parent is a place of the list.
fn has_parents_within(parents: &[Option<usize>]) -> bool
    ensures { IsTrue result → HasParentsWithin parents.now }
{
    for parent in parents {
        if let Some(place) = *parent
            && place >= parents.len()
        {
            return false;
        }
    }
    true
}

// Place 0 is the parent of 1, which a lease may name, and of 2, a view.
#[test]
fn a_view_keeps_its_parent(rt: HostRuntime) {
    let parents = [None, Some(0), Some(0)];
    assert!(rt; has_parents_within(&parents));
    for (roots, wanted) in [
        ([false, true, true], [false, false, false]),
        ([false, false, true], [false, true, false]),
        ([false, false, false], [true, true, true]),
    ] {
        let swept = sweep_set(rt.alloc(), &parents, &roots).expect(&rt, "memory for a set");
        equal(&rt, swept.as_slice(), wanted.as_slice());
    }
}
