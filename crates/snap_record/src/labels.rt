ghost use Rattle.std.specs.Prelude.{◌≡◌, ◌<◌, ◌^◌, ◌↔◌, [], ℕ, List, length, position, option_copied, find, not, bytes_eq, IsTrue, IsSome, IsOk, OnOk, OnErr, IfOk};
ghost use Rattle.std.specs.List.{list_all};
ghost use Rattle.snap_record.specs.Labels.{value_of, with_label, without_label, is_label, are_labels, HasDistinctKeys};
ghost use Rattle.snap_record.specs.Cut.{cut_label, kept_labels};

use crate::text::Text;
use std::alloc::{AllocError, Global};
use std::marker::Model;

/// At most this number of labels belong to a snapshot.
pub const MAX_LABELS: usize = 64;

/// The key and the value of a label have at most this number of bytes together.
pub const MAX_LABEL_BYTES: usize = 4096;

/// Labels: values of distinct keys, in the order in which the keys were first inserted. It keeps
/// its allocator. They are a plain list, since there are few: without labels it takes no memory.
///
/// Contracts see the list of pairs. Labels are equal where these lists are.
#[derive(Debug)]
pub struct Labels {
    list: Vec<(Text, Text)>,
}

// By hand: a derived one is proved anew, part by part, wherever a value is let go.
impl Drop for Labels {
    fn drop(self) {
        let Labels { list: _ } = self;
    }
}

impl Model for Labels {
    ghost use Rattle.std.specs.Prelude.{List, ℕ};
    ghost use Rattle.snap_record.specs.Labels.{HasDistinctKeys};

    ghost Value = { List (List ℕ × List ℕ) };

    ghost view = { λ l. l.list.items };

    ghost invariant = { λ l. HasDistinctKeys l.list.items };
}

impl Labels {
    /// No labels. Takes no memory.
    pub fn new(alloc: Global) -> Labels
        ensures { result ≡ [] }
    {
        Labels {
            list: Vec::new(alloc),
        }
    }

    /// The place of a key, if it is there.
    fn place(&self, key: &Text) -> Option<usize>
        ensures { result ≡ position (λ label. bytes_eq key.now label.0) self.now }
    {
        self.list.iter().position(|(own, _)| key == own)
    }

    /// Gives the key this value: a key that is there keeps its place, a new one goes last.
    ///
    /// Where memory is wanting, the labels are as they were. Takes memory for a new key alone. Its cost
    /// grows with the number of labels.
    pub fn insert(&mut self, key: Text, value: Text) -> Result<(), AllocError>
        ensures ok { OnOk result (self.new ≡ with_label self.old key value) }

        // Want of memory comes only for a key that is new.
        ensures sure { IsSome (value_of self.old key) → IsOk result }
        ensures err { OnErr result (self.new ≡ self.old) }
        ensures distinct { HasDistinctKeys self.new }
    {
        match self.place(&key) {
            Some(place) => self.list[place] = (key, value),
            None => self.list.push((key, value))?,
        }
        Ok(())
    }

    /// Takes the label of a key away, if there is one. The others keep their order: the removal
    /// closes up. Takes no memory. Its cost grows with the number of labels.
    pub fn remove(&mut self, key: &Text)
        ensures removed { self.new ≡ without_label self.old key.now }
        ensures distinct { HasDistinctKeys self.new }
    {
        if let Some(place) = self.place(key) {
            drop(self.list.remove(place));
        }
    }

    /// The value of a key, or nothing where it has none. Takes no memory. Its cost grows with the number
    /// of labels.
    pub fn get(&self, key: &Text) -> Option<&Text>
        ensures { option_copied result ≡ value_of self.now key.now }
    {
        match self.place(key) {
            Some(place) => Some(&self.list[place].1),
            None => None,
        }
    }

    /// How many labels there are. Takes no memory. The cost is constant.
    pub fn len(&self) -> usize
        ensures len { result ≡ length self.now }
        ensures small { result < 2 ^ 63 }
        ensures distinct { HasDistinctKeys self.now }
    {
        self.list.len()
    }

    /// Whether there are no labels. Takes no memory. The cost is constant.
    pub fn is_empty(&self) -> bool
        ensures { IsTrue result ↔ (self.now ≡ []) }
    {
        self.list.is_empty()
    }

    /// The labels, in their order. Takes no memory. The cost is constant.
    pub fn as_slice(&self) -> &[(Text, Text)]
        ensures labels { result.now ≡ self.now }
        ensures distinct { HasDistinctKeys self.now }
    {
        self.list.as_slice()
    }

    /// Whether these can be a snapshot's labels: at most 64, each with a key of at least 1 byte,
    /// and at most 4096 bytes of key and value together. Takes no memory. Its cost grows with the
    /// number of labels.
    pub fn are_valid(&self) -> bool
        ensures { result ≡ are_labels self.now }
    {
        self.have_form() && self.len() <= MAX_LABELS
    }

    /// Whether each label has a key of at least 1 byte and at most 4096 bytes of key and value
    /// together.
    pub(crate) fn have_form(&self) -> bool
        ensures { result ≡ list_all is_label self.now }
    {
        self.list
            .iter()
            .all(|(key, value)| is_label(key.as_str(), value.as_str()))
    }

    /// Where a label hasn't its form, leaves the first such alone, with its key and its value cut as by
    /// [`cut`](Text::cut) to the limit, so that it hasn't its form either. Takes memory only for this label; fails only
    /// where it is wanting, and then the labels are as they were. The cost grows with the number of labels.
    pub fn cut(&mut self) -> Result<(), AllocError>
        ensures ok { OnOk result (self.new ≡ kept_labels self.old) }
        ensures err { OnErr result (self.new ≡ self.old) }
        ensures distinct { HasDistinctKeys self.new }
    {
        let alloc = self.allocator();
        if let Some((key, value)) = first_malformed(self.list.as_slice()) {
            let key = key.cut_copy(MAX_LABEL_BYTES)?;
            let value = value.cut_copy(MAX_LABEL_BYTES)?;
            let mut labels = Labels::new(alloc);
            labels.insert(key, value)?;
            *self = labels;
        }
        Ok(())
    }

    /// A copy with room for `more` more labels.
    pub(crate) fn copy_with_room(&self, more: usize) -> Result<Labels, AllocError>
        ensures copied { IfOk result (λ copy. copy ≡ self.now) }
        ensures distinct { IfOk result HasDistinctKeys }
    {
        let mut list = self.list.clone()?;
        list.reserve(more)?;
        Ok(Labels { list })
    }

    pub(crate) fn allocator(&self) -> Global {
        *self.list.allocator()
    }

    /// Leaves no label. Takes no memory, and gives that of the labels back. The cost grows with their number.
    pub fn clear(&mut self)
        ensures { self.new ≡ [] }
    {
        *self = Labels::new(self.allocator());
    }
}

/// The first label that has no label's form.
fn first_malformed(labels: &[(Text, Text)]) -> Option<&(Text, Text)>
    ensures { option_copied result ≡ find (λ l. not (is_label l)) labels.now }
{
    labels
        .iter()
        .find(|(key, value)| !is_label(key.as_str(), value.as_str()))
}

/// Whether these can be a snapshot's label: a key of at least 1 byte, and at most 4096 bytes together. Takes no memory.
/// The cost is constant.
#[tactic(auto, using(std::proofs::lemmas::Bool::Decides::nat_tests))]
pub fn is_label(key: &str, value: &str) -> bool
    ensures { result ≡ is_label (key.now, value.now) }
{
    let key = key.len();
    key > 0 && key <= MAX_LABEL_BYTES && value.len() <= MAX_LABEL_BYTES - key
}

/// A copy of each key and each value, in their order. Its cost and its memory grow with their bytes.
impl Clone for Labels {
    ghost is_clone = { λ a b. b ≡ a };

    fn clone(&self) -> Result<Labels, AllocError> {
        Ok(Labels {
            list: self.list.clone()?,
        })
    }
}

impl PartialEq for Labels {
    ghost use Rattle.std.specs.Prelude.{nat_eq, ◌&&◌};
    ghost use Rattle.std.specs.Cmp.Lexicographic.{pointwise, lists_per, nat_list_eq_equiv};
    ghost use Rattle.std.specs.Cmp.{and_per, on_per, partial_equiv_from_equiv};

    ghost eq = { pointwise (λ p q. pointwise nat_eq p.0 q.0 && pointwise nat_eq p.1 q.1) };

    ghost laws = { lists_per (and_per (on_per (λ p. p.0) (partial_equiv_from_equiv nat_list_eq_equiv)) (on_per (λ p. p.1) (partial_equiv_from_equiv nat_list_eq_equiv))) };

    fn eq(&self, other: &Labels) -> bool {
        self.list == other.list
    }
}

impl Eq for Labels {
    ghost use Rattle.std.specs.Cmp.Lexicographic.{lists_equiv, nat_list_eq_equiv};
    ghost use Rattle.std.specs.Cmp.{and_equiv, on_equiv};

    ghost laws = { lists_equiv (and_equiv (on_equiv (λ p. p.0) nat_list_eq_equiv) (on_equiv (λ p. p.1) nat_list_eq_equiv)) };
}
