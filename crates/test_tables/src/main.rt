//! Tests: a layer against a plain one, and lists of operations on layers; no part of the product.
//!
//! `snap_layer` keeps a layer as a table of inodes. `Plain` keeps it as an ordered map from paths to nodes
//! and one from numbers to bodies. Without a word the program tries 100,000 edits on both, which a generator of
//! random numbers chooses, and makes each whose condition holds for both. It compares what each answers and what
//! is read afterwards at the paths that it names, and now and then all that can be read. It prints how many edits
//! of each kind were made, had no condition that holds, or found the layer full. The status is 1 at the first
//! difference, which is printed with the edit's number, or for want of memory.
//!
//! With the word `lists` it carries out lists of lookups and operations, so that they can be measured. It reads a
//! word and a path a line. `look PATH` and the names of operations put something on a list, `looks N` carries the
//! list of lookups out N times, and `apply` the list of operations once, on each upper layer; `fill` does so as if
//! there were no lower layers. `commit` makes the upper layer the nearest lower one, and `uppers N` makes N empty
//! ones in place of those that are there. The lists stay until `clear`. `looks`, `apply` and `fill` are answered,
//! by counts. So what a lookup or an operation takes is what the program takes between two answers, and the
//! making of paths is not in it. The status is 1 for want of memory or where a stream fails, and 2 for a line that
//! is none.
//!
//! For any other word the status is 2.
#![tactic(auto)]

mod counts;
mod edit;
mod lists;
mod on_layer;
mod on_plain;
mod pair;
mod paths;
mod plain;
mod rounds;

use crate::lists::carry_out;
use crate::rounds::compare;
use std::process::ExitCode;
use std::{env, io};

/// A line or a word that is none.
const BAD_INPUT: u8 = 2;

/// Does what the word asks for. The answer is the status.
fn run(rt: &HostRuntime) -> io::Result<u8> {
    let mut words = env::args(rt)?;
    let _ = words.next();
    match words.next() {
        None => Ok(if compare(rt)? { 0 } else { 1 }),
        Some(word) if word.as_str() == "lists" => Ok(if carry_out(rt)? { 0 } else { BAD_INPUT }),
        Some(_) => Ok(BAD_INPUT),
    }
}

fn main(rt: HostRuntime) -> ExitCode {
    ExitCode::from(run(&rt).unwrap_or(1))
}
