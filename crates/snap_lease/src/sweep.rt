//! Which places no root reaches along parents.
ghost use Rattle.std.specs.Prelude.{◌≡◌, ◌<◌, length, IfOk};
ghost use Rattle.snap_lease.specs.Marks.{IsClosed, TakesOutWalk};
ghost use Rattle.snap_lease.specs.Reach.{HasParentsWithin, IsSweepSet};

use std::alloc::{AllocError, Global};

// Takes the root and what it reaches out of the set. It goes up the parents as far as a place that is out already, since what
// such a place reaches is out too.
fn take_out_walk(parents: &[Option<usize>], swept: &mut [bool], root: usize)
    requires lengths { length swept.old ≡ length parents.now }
    requires within { HasParentsWithin parents.now }
    requires root_within { root < length parents.now }
    requires closed { IsClosed parents.now swept.old }
    ensures { TakesOutWalk parents.now swept.old swept.new root }
{
    let mut next = Some(root);
    while let Some(place) = next {
        if !swept[place] {
            break;
        }
        swept[place] = false;
        next = parents[place];
    }
}

/// The set of places that no root reaches: true at those places, and false at the roots and at what lies above them.
///
/// A place is an index into both lists. `parents` gives the parent of each place, `roots` which places are roots. In a sweep the
/// places are records, each root is a record that is in use, and what is true may be removed.
///
/// Takes memory for the list that it returns, and its one error is want of that memory. Its cost grows with the number of
/// places: each is taken out of the set once at most.
pub fn sweep_set(
    alloc: Global,
    parents: &[Option<usize>],
    roots: &[bool],
) -> Result<Vec<bool>, AllocError>
    requires lengths { length roots.now ≡ length parents.now }
    requires within { HasParentsWithin parents.now }
    ensures { IfOk result (λ swept. IsSweepSet parents.now roots.now swept.items) }
{
    let mut swept = vec![in alloc; true; parents.len()]?;
    for (place, is_root) in roots.iter().enumerate() {
        if *is_root {
            take_out_walk(parents, swept.as_mut_slice(), place);
        }
    }
    Ok(swept)
}
