ghost use Rattle.std.specs.Prelude.{◌≡◌, ◌<◌, [], ◌∷◌, ◌++◌, List, length, slice_set, OnOk, OnErr, IfErr, IsTrue, ◌↔◌};

use std::alloc::{AllocError, AllocFailed, Global};
use std::marker::Model;

/// A list that grows at its end. It keeps its allocator.
///
/// Contracts see its items, and nothing of the memory that it holds.
#[derive(Debug)]
pub struct Sequence<T> {
    items: Vec<T>,
}

// By hand: a derived one is proved anew, part by part, wherever a value is let go.
impl<T: Drop> Drop for Sequence<T> {
    fn drop(self) {
        let Sequence { items: _ } = self;
    }
}

impl<T> Model for Sequence<T> {
    ghost Value = { List T };

    ghost view = { λ s. s.items.items };
}

impl<T> Sequence<T> {
    /// An empty list. Takes no memory.
    pub fn new(alloc: Global) -> Sequence<T>
        ensures { result ≡ [] }
    {
        Sequence {
            items: Vec::new(alloc),
        }
    }

    /// Puts an item last. Where memory is wanting, the list is as it was and the error gives the
    /// item back. Costs the same for any number of items, on average.
    pub fn push(&mut self, item: T) -> Result<(), AllocFailed<T>>
        ensures ok { OnOk result (self.new ≡ self.old ++ item ∷ []) }
        ensures err { OnErr result (self.new ≡ self.old) }
        ensures value_returned { IfErr result (λ e. e.value ≡ item) }
    {
        self.items.push(item)
    }

    /// The items, in their order, without a copy. Takes no memory. The cost is constant.
    pub fn as_slice(&self) -> &[T]
        ensures { result.now ≡ self.now }
    {
        self.items.as_slice()
    }

    /// Puts the item in the place of the one that stands there. Takes no memory. The cost is constant.
    pub fn set(&mut self, place: usize, item: T)
    where
        T: Drop,
        requires { place < length self.old }
        ensures { self.new ≡ slice_set self.old place item }
    {
        self.items[place] = item;
    }

    /// How many items there are. Takes no memory. The cost is constant.
    pub fn len(&self) -> usize
        ensures { result ≡ length self.now }
    {
        self.items.len()
    }

    /// Whether there are no items. Takes no memory. The cost is constant.
    pub fn is_empty(&self) -> bool
        ensures { IsTrue result ↔ (self.now ≡ []) }
    {
        self.items.is_empty()
    }

    /// Leaves no item. Takes no memory, and gives that of the items back. The cost grows with their number.
    pub fn clear(&mut self)
    where
        T: Drop,
        ensures { self.new ≡ [] }
    {
        *self = Sequence::new(self.allocator());
    }

    pub(crate) fn allocator(&self) -> Global {
        *self.items.allocator()
    }
}

/// The items as they are. Takes no memory.
impl<T> From<Vec<T>> for Sequence<T> {
    ghost from_gives = { λ v s. s ≡ v.items };

    fn from(items: Vec<T>) -> Sequence<T> {
        Sequence { items }
    }
}

/// A copy of each item. Its cost and its memory are those of the items' copies.
impl<T: Clone + Drop> Clone for Sequence<T> {
    ghost use Rattle.std.specs.List.{AllZip};

    ghost is_clone = { λ a b. AllZip T.is_clone a b };

    fn clone(&self) -> Result<Sequence<T>, AllocError> {
        Ok(Sequence {
            items: self.items.clone()?,
        })
    }
}

impl<T: PartialEq> PartialEq for Sequence<T> {
    ghost use Rattle.std.specs.Cmp.Lexicographic.{pointwise, lists_per};

    ghost eq = { pointwise T.eq };

    ghost laws = { lists_per T.laws };

    fn eq(&self, other: &Sequence<T>) -> bool {
        self.items == other.items
    }
}

impl<T: Eq> Eq for Sequence<T> {
    ghost use Rattle.std.specs.Cmp.Lexicographic.{lists_equiv};

    ghost laws = { lists_equiv T.Eq.laws };
}
