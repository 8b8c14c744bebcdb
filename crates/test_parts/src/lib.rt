//! Tests of the crates below the book, from paths to histories; no part of the product.
//!
//! A fact in a `prove!` is a witness: it follows from the contracts alone, whatever the bodies are.
#![tactic(auto)]

#[cfg(test)]
mod charges;
#[cfg(test)]
mod history;
#[cfg(test)]
mod layers;
#[cfg(test)]
mod leases;
#[cfg(test)]
mod logs;
#[cfg(test)]
mod merging;
#[cfg(test)]
mod mounts;
#[cfg(test)]
mod paths;
#[cfg(test)]
mod records;
#[cfg(test)]
mod saved;
#[cfg(test)]
mod setup;
#[cfg(test)]
mod stacks;
#[cfg(test)]
mod texts;
#[cfg(test)]
mod uppers;
#[cfg(test)]
mod usage;
