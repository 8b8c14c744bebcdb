// In what two lists of named values differ.
ghost use Rattle.std.specs.Prelude.{◌≡◌, ℕ, List, Option, IfOk, filter_map, option_copied};
ghost use Rattle.std.specs.BTreeMap.{get_by};
ghost use Rattle.std.specs.Cmp.Lexicographic.{slice_cmp};
ghost use Rattle.std.specs.Ordering.{nat_cmp};
ghost use Rattle.snap_durable.specs.Differences.{differences, first_difference, value_named};

use snap_record::{Sequence, Text};
use std::alloc::{AllocError, Global};
use std::collections::BTreeMap;

/// What is compared with another value of its name.
pub trait Compare {
    type Difference;

    ghost difference: { Self → Self → Option Self.Difference };

    /// In what the second one differs, if it does. It fails only where memory is refused.
    fn difference(
        &self,
        alloc: Global,
        other: &Self,
    ) -> Result<Option<Self::Difference>, AllocError>
        ensures { IfOk result (λ found. found ≡ difference self.now other.now) };
}

/// Which of two lists have a value of a name.
#[derive(Drop)]
pub enum Found<D> {
    /// The first alone.
    OnlyA,
    /// The second alone.
    OnlyB,
    /// Both, and the two values differ in this.
    Both(D),
}

/// In what two lists differ at a name.
#[derive(Drop)]
pub struct Difference<D> {
    pub name: Text,
    pub found: Found<D>,
}

// The values by their names, of equal names the last.
fn by_name<'a, T>(
    alloc: Global,
    entries: &'a [(Text, T)],
) -> Result<BTreeMap<&'a str, &'a T>, AllocError>
    ensures { IfOk result (λ map. (q : List ℕ) → option_copied (get_by (λ k. slice_cmp nat_cmp q k.now) map) ≡ value_named q entries.now) }
{
    let mut map = BTreeMap::new(alloc);
    for (name, value) in entries {
        map.insert(name.as_str(), value)?;
    }
    Ok(map)
}

// Of a value of the first list, by the second's of its name.
fn first_difference<T: Compare>(
    alloc: Global,
    name: &Text,
    value: &T,
    other: Option<&T>,
) -> Result<Option<Difference<T::Difference>>, AllocError>
where
    T::Difference: Drop,
    ensures { IfOk result (λ found. found ≡ first_difference T.difference (name.now, value.now) (option_copied other.entry)) }
{
    let found = match other {
        None => Found::OnlyA,
        Some(other) => match value.difference(alloc, other)? {
            Some(difference) => Found::Both(difference),
            None => return Ok(None),
        },
    };
    Ok(Some(Difference {
        name: name.clone()?,
        found,
    }))
}

// At the names of the first list.
fn first_differences<T: Compare>(
    alloc: Global,
    a: &[(Text, T)],
    b: &[(Text, T)],
) -> Result<Sequence<Difference<T::Difference>>, AllocError>
where
    T::Difference: Drop,
    ensures { IfOk result (λ found. found ≡ filter_map (λ e. first_difference T.difference e (value_named e.0 b.now)) a.now) }
{
    let others = by_name(alloc, b)?;
    let mut found = Sequence::new(alloc);
    for (name, value) in a {
        let other = others.get(name.as_str()).copied();
        if let Some(difference) = first_difference(alloc, name, value, other)? {
            found.push(difference)?;
        }
    }
    Ok(found)
}

/// In what two lists of named values differ: at the names of the first list in their order, and then at those that the
/// second alone has.
///
/// It fails only where memory is refused, which it takes for a map of each list's names and for the differences. The cost
/// is that of comparing the values of each name, and grows for each with the logarithm of the number of names.
pub fn differences<T: Compare>(
    alloc: Global,
    a: &[(Text, T)],
    b: &[(Text, T)],
) -> Result<Sequence<Difference<T::Difference>>, AllocError>
where
    T::Difference: Drop,
    ensures { IfOk result (λ found. found ≡ differences T.difference a.now b.now) }
{
    let others = by_name(alloc, a)?;
    let mut found = first_differences(alloc, a, b)?;
    for (name, _) in b {
        if others.get(name.as_str()).is_none() {
            found.push(Difference {
                name: name.clone()?,
                found: Found::OnlyB,
            })?;
        }
    }
    Ok(found)
}
