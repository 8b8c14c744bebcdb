//! Tests: scripts on a store, and line by line with memory refused; no part of the product.
//!
//! Without a word the program reads a script from standard input and carries it out on a `Store`, where the
//! product's program carries it out on a `World`. Its answers are the same, so the scripts and outputs of
//! `examples/` show the store's own surface: calls by sessions with their tapes, open snapshots that are held as
//! values, operations through `run`, and the close. `report` is not answered, nor are `quota`, `leases`, `tree`,
//! `journal`, a sweep that is tried and the usage of a chain, since a store lends no records; nor is a command on a snapshot that
//! the script doesn't hold, since it would be no call. At the end of the input what is still held is discarded, the
//! store is closed with all sessions, and the report of the closed store is written. Where memory is refused to a line
//! of an open store, the line is carried out once more: so a run in which one allocation is refused there writes what
//! a run with ample memory writes.
//!
//! With the word `steps` it carries the script out as the product's program does, on a `World`, line by line. Where
//! memory is refused to a line of an open store it writes `refused`, and carries the line out again. After each
//! answer and after each `refused` it writes what stands then: the tree of each namespace, and the report. So what a
//! refusal leaves can be compared with what stood before, and the answers with those of a run that was refused
//! nothing.
//!
//! The status is 1 where the store is not closed, 2 for a line that is no command or another word, 3 where a read
//! or a write failed, and 4 for want of memory where nothing is carried out again: while the input is read and a
//! store is opened.
#![tactic(auto)]

ghost use Rattle.std.specs.Prelude.{◌≡◌};

mod calls;
mod hand;
mod holding;
mod lines;
mod lookups;
mod play;
mod refused;
mod round;
mod script;
mod steps;
mod stop;

use crate::script::carry_out;
use crate::steps::carry_out_by_steps;
use crate::stop::Stop;
use snap_store::{NewStore, RoundName};
use std::alloc::Global;
use std::io::{BufWriter, Write};
use std::marker::Brand;
use std::process::ExitCode;
use std::rt::Env;
use std::str::Lines;
use std::sync::Wait;
use std::{env, io};

fn run<N: RoundName, R: Wait, W: Write>(
    alloc: Global,
    rt: &R,
    new: NewStore,
    by_steps: bool,
    lines: &mut Lines<'_>,
    output: &mut W,
) -> Result<(), Stop>
    requires { new ≡ (N.table, N.rounds) }
{
    if by_steps {
        let (charges, _tie) = new.into_parts::<N>();
        carry_out_by_steps::<N, W>(alloc, charges, lines, output)
    } else {
        carry_out::<N, R, W>(alloc, rt, new, lines, output)
    }
}

// Carries out the script. The store's name is made here.
fn replay<R: Wait, W: Write>(
    rt: &R,
    alloc: Global,
    by_steps: bool,
    text: &str,
    output: &mut W,
) -> Result<(), Stop> {
    let new = NewStore::new(alloc)?;
    run::<Brand, R, W>(alloc, rt, new, by_steps, &mut text.lines(), output)
}

// With the word `steps` by steps.
fn replayed<R: Wait + Env + Input + Print + AllocGlobal>(rt: &R) -> Result<(), Stop> {
    let alloc = rt.alloc();
    let mut words = env::args(rt)?;
    let _ = words.next();
    let by_steps = match words.next() {
        None => false,
        Some(word) if word.as_str() == "steps" => true,
        Some(_) => return Err(Stop::Word),
    };
    let text = io::read_to_string(alloc, rt.reader())?;
    let Ok(mut output) = BufWriter::new(alloc, io::writer(rt)) else {
        return Err(Stop::NoMemory);
    };
    let ended = replay(rt, alloc, by_steps, text.as_str(), &mut output);
    match output.flush() {
        Ok(()) => ended,
        Err(_) => Err(Stop::OutputFailed),
    }
}

fn main(rt: HostRuntime) -> ExitCode {
    match replayed(&rt) {
        Ok(()) => ExitCode::from(0),
        Err(stop) => {
            let (status, words) = stop.told();
            let _ = rt.eprintln(words);
            ExitCode::from(status)
        }
    }
}
