//! Counts of texts.
ghost use Rattle.std.specs.Prelude.{◌≡◌, ◌↔◌, ◌<◌, ◌+◌, ◌-◌, ◌^◌, ℕ, List, IsTrue, IsOk, OnOk, OnErr, if◌then◌else◌, bytes_eq};
ghost use Rattle.snap_counts.specs.Counts.{count_in};

use std::alloc::{AllocError, Global};
use std::collections::BTreeMap;
use std::marker::Model;

/// How often each text was counted. A text that was never counted has the count 0.
///
/// It keeps a copy of each text that is counted, once, and nothing of a text whose count is 0. Contracts see the list of these
/// texts with their counts, by their bytes, and read it by `count_in`.
#[derive(Drop)]
pub struct Counts {
    alloc: Global,
    map: BTreeMap<String, u64>,
}

impl Model for Counts {
    ghost use Rattle.std.specs.Prelude.{List, ℕ, ◌≡◌, ◌≢◌};
    ghost use Rattle.std.specs.BTreeMap.{get_by_text};
    ghost use Rattle.snap_counts.specs.Counts.{by_bytes};
    ghost use Rattle.std.specs.Prelude.{Some};

    ghost Value = { List (List ℕ × ℕ) };

    ghost view = { λ a. by_bytes a.map.entries };

    ghost invariant = { λ a. (q : List ℕ) → get_by_text a.map q ≢ Some 0 };
}

impl Counts {
    /// Every count is 0. Takes no memory.
    pub fn new(alloc: Global) -> Counts
        ensures { (q : List ℕ) → count_in q result ≡ 0 }
    {
        Counts {
            alloc,
            map: BTreeMap::new(alloc),
        }
    }

    /// How often the text is counted.
    ///
    /// Takes no memory. Its cost grows with the logarithm of the number of texts, and with the length of the text.
    pub fn count(&self, text: &str) -> u64
        ensures { result ≡ count_in text.now self.now }
    {
        self.map.get(text).copied().unwrap_or(0)
    }

    /// Whether the text is counted at all. Takes no memory, and costs what `count` does.
    pub fn has(&self, text: &str) -> bool
        ensures { IsTrue result ↔ (0 < count_in text.now self.now) }
    {
        self.count(text) > 0
    }

    /// Whether no text is counted. Takes no memory. The cost is constant.
    pub fn is_empty(&self) -> bool
        ensures { IsTrue result ↔ ((q : List ℕ) → count_in q self.now ≡ 0) }
    {
        self.map.is_empty()
    }

    /// Counts the text once more.
    ///
    /// The condition is a count below 2^64 - 1. `AllocError` where memory is refused, which it takes for the first count of a
    /// text alone. After it every count is as it was. It costs what `count` does.
    pub fn add(&mut self, text: &str) -> Result<(), AllocError>
        requires { count_in text.now self.old + 1 < 2 ^ 64 }
        // The text counts once more, and every other text as it did.
        ensures ok { OnOk result ((q : List ℕ) → count_in q self.new ≡ count_in q self.old + (if bytes_eq q text.now then 1 else 0)) }

        // A text that is counted takes no memory. After an error nothing changed.
        ensures there { 0 < count_in text.now self.old → IsOk result }
        ensures err { OnErr result ((q : List ℕ) → count_in q self.new ≡ count_in q self.old) }
    {
        if let Some(number) = self.map.get_mut(text) {
            *number += 1;
            return Ok(());
        }
        let key = String::from_str(self.alloc, text)?;
        self.map.insert(key, 1)?;
        Ok(())
    }

    /// Takes one count of the text back. A text that isn't counted changes nothing.
    ///
    /// Takes no memory. The text goes with its last count. It costs what `count` does.
    pub fn take(&mut self, text: &str)
        ensures { (q : List ℕ) → count_in q self.new ≡ count_in q self.old - (if bytes_eq q text.now then 1 else 0) }
    {
        let Some(number) = self.map.get_mut(text) else {
            return;
        };
        if *number > 1 {
            *number -= 1;
        } else {
            self.map.remove(text);
        }
    }
}
