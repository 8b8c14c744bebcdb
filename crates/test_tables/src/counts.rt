// How many edits of each kind were made.
use super::edit::{Answer, KINDS, Kind};
use snap_layer::LayerError;
use std::io;

/// How many edits of a kind were made, had no condition that holds, or found the layer full.
#[derive(Clone, Copy)]
struct Count {
    made: u32,
    refused: u32,
    full: u32,
}

/// The counts of all kinds, and of all edits.
#[derive(Clone, Copy)]
pub(crate) struct Counts {
    of_kinds: [Count; 11],
    pub(crate) all: u32,
}

impl Counts {
    pub(crate) fn new() -> Counts {
        let none = Count {
            made: 0,
            refused: 0,
            full: 0,
        };
        Counts {
            of_kinds: [none; 11],
            all: 0,
        }
    }

    pub(crate) fn add(&mut self, kind: Kind, made: Result<Answer, LayerError>) {
        self.all = self.all.saturating_add(1);
        if let Some(count) = self.of_kinds.get_mut(kind as usize) {
            match made {
                Ok(Answer::Refused) => count.refused = count.refused.saturating_add(1),
                Ok(_) => count.made = count.made.saturating_add(1),
                Err(_) => count.full = count.full.saturating_add(1),
            }
        }
    }

    /// Prints a line for each kind, and how many there are.
    pub(crate) fn print(&self, rt: &impl Print) -> io::Result<()> {
        for (kind, count) in KINDS.iter().zip(self.of_kinds.iter()) {
            let made = count.made;
            let refused = count.refused;
            let full = count.full;
            println!(rt; "{kind:<12} {made:>5} made {refused:>5} refused {full:>5} full")?;
        }
        let all = self.all;
        println!(rt; "{all} edits, the same")
    }
}
