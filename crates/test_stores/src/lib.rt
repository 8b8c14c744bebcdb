//! Tests of stores, of the calls of a book, and of what reads scripts and jobs; no part of the product.
//!
//! A function whose facts are `prove!` alone is a witness: they follow from the contracts, whatever the
//! bodies are.
#![tactic(auto)]

#[cfg(test)]
mod closes;
#[cfg(test)]
mod first_calls;
#[cfg(test)]
mod first_example;
#[cfg(test)]
mod gates;
#[cfg(test)]
mod jobs;
#[cfg(test)]
mod leases;
#[cfg(test)]
mod life;
#[cfg(test)]
mod namespaces;
#[cfg(test)]
mod next_round;
#[cfg(test)]
mod plain_values;
#[cfg(test)]
mod rounds;
#[cfg(test)]
mod saved;
#[cfg(test)]
mod sent;
#[cfg(test)]
mod session_life;
#[cfg(test)]
mod setup;
#[cfg(test)]
mod spared;
#[cfg(test)]
mod store_calls;
#[cfg(test)]
mod stores;
#[cfg(test)]
mod streams;
#[cfg(test)]
mod subjects;
#[cfg(test)]
mod threads;
#[cfg(test)]
mod words;
#[cfg(test)]
mod worked;
