//! Counts of texts in each namespace.
ghost use Rattle.std.specs.Prelude.{◌≡◌, ◌↔◌, ◌<◌, ◌+◌, ◌-◌, ◌^◌, ℕ, List, IsTrue, IsOk, OnOk, OnErr, if◌then◌else◌, bytes_eq, ◌&&◌};
ghost use Rattle.snap_counts.specs.Counts.{count_within};

use crate::counts::Counts;
use std::alloc::{AllocError, Global};
use std::collections::BTreeMap;
use std::marker::Model;

/// How often each text was counted in each namespace. What was never counted has the count 0.
///
/// It keeps a copy of the name of each namespace in which a text is counted, and of each such text. Contracts see the list of
/// these namespaces with their counts, and read it by `count_within`.
#[derive(Drop)]
pub struct NamespaceCounts {
    alloc: Global,
    map: BTreeMap<String, Counts>,
}

impl Model for NamespaceCounts {
    ghost use Rattle.std.specs.Prelude.{List, ℕ, IfSome};
    ghost use Rattle.std.specs.BTreeMap.{get_by_text};
    ghost use Rattle.snap_counts.specs.Counts.{by_bytes, HasCounted};

    ghost Value = { List (List ℕ × List (List ℕ × ℕ)) };

    ghost view = { λ a. by_bytes a.map.entries };

    // A namespace stands in the map only while a text of it is counted.
    ghost invariant = { λ a. (space : List ℕ) → IfSome (get_by_text a.map space) HasCounted };
}

impl NamespaceCounts {
    /// Every count is 0. Takes no memory.
    pub fn new(alloc: Global) -> NamespaceCounts
        ensures { (space q : List ℕ) → count_within space q result ≡ 0 }
    {
        NamespaceCounts {
            alloc,
            map: BTreeMap::new(alloc),
        }
    }

    /// How often the text is counted in the namespace.
    ///
    /// Takes no memory. Its cost grows with the logarithms of the number of namespaces and of the number of the namespace's
    /// texts, and with the lengths of the name and the text.
    pub fn count(&self, namespace: &str, text: &str) -> u64
        ensures { result ≡ count_within namespace.now text.now self.now }
    {
        match self.map.get(namespace) {
            Some(counts) => counts.count(text),
            None => 0,
        }
    }

    /// Whether the text is counted in the namespace at all. Takes no memory, and costs what `count` does.
    pub fn has(&self, namespace: &str, text: &str) -> bool
        ensures { IsTrue result ↔ (0 < count_within namespace.now text.now self.now) }
    {
        self.count(namespace, text) > 0
    }

    /// Counts the text once more in the namespace.
    ///
    /// The condition is a count below 2^64 - 1. `AllocError` where memory is refused, which it takes for the first count of a
    /// text in a namespace alone. After it every count is as it was. It costs what `count` does.
    pub fn add(&mut self, namespace: &str, text: &str) -> Result<(), AllocError>
        requires { count_within namespace.now text.now self.old + 1 < 2 ^ 64 }
        // The text counts once more in the namespace, and every other count stays.
        ensures ok { OnOk result ((space q : List ℕ) → count_within space q self.new ≡ count_within space q self.old + (if bytes_eq space namespace.now && bytes_eq q text.now then 1 else 0)) }

        // What is counted takes no memory. After an error nothing changed.
        ensures there { 0 < count_within namespace.now text.now self.old → IsOk result }
        ensures err { OnErr result ((space q : List ℕ) → count_within space q self.new ≡ count_within space q self.old) }
    {
        if let Some(counts) = self.map.get_mut(namespace) {
            return counts.add(text);
        }
        let key = String::from_str(self.alloc, namespace)?;
        let mut counts = Counts::new(self.alloc);
        counts.add(text)?;
        self.map.insert(key, counts)?;
        Ok(())
    }

    /// Takes one count of the text in the namespace back. What isn't counted changes nothing.
    ///
    /// Takes no memory. The text goes with its last count, and the namespace with its last text. It costs what `count` does.
    pub fn take(&mut self, namespace: &str, text: &str)
        ensures { (space q : List ℕ) → count_within space q self.new ≡ count_within space q self.old - (if bytes_eq space namespace.now && bytes_eq q text.now then 1 else 0) }
    {
        let Some(counts) = self.map.get_mut(namespace) else {
            return;
        };
        counts.take(text);
        if counts.is_empty() {
            drop(self.map.remove(namespace));
        }
    }
}
