// The rounds of edits on a layer and on a plain one.
use super::counts::Counts;
use super::edit::choose;
use super::pair::Pair;
use super::paths::Paths;
use rand_pcg::Pcg32;
use std::alloc::{AllocError, Global};
use std::io;

/// How many edits are made on the layers of a round.
const LENGTHS: [u32; 8] = [50, 150, 300, 500, 1000, 2000, 3500, 5000];

/// How many rounds there are.
const ROUNDS: u32 = 8;

/// After how many edits of a layer everything is compared.
const PAUSE: u32 = 100;

/// Makes and compares all edits. The answer is whether there is no difference.
pub(crate) fn compare(rt: &(impl Print + AllocGlobal)) -> io::Result<bool> {
    let alloc = rt.alloc();
    let bytes = some_bytes(alloc)?;
    let short = Paths::new(alloc, 1)?;
    let long = Paths::new(alloc, 255)?;
    let mut random = Pcg32::new(42, 54);
    let mut counts = Counts::new();
    for round in 0..ROUNDS {
        let paths = if round % 4 == 3 { &long } else { &short };
        for edits in LENGTHS {
            if !compare_layers(rt, &mut random, paths, &bytes, edits, &mut counts)? {
                return Ok(false);
            }
        }
    }
    counts.print(rt)?;
    Ok(true)
}

/// Makes `edits` edits on a new layer and a plain one. The answer is whether there is no difference.
fn compare_layers(
    rt: &(impl Print + AllocGlobal),
    random: &mut Pcg32,
    paths: &Paths,
    bytes: &[u8],
    edits: u32,
    counts: &mut Counts,
) -> io::Result<bool> {
    let mut pair = Pair::new(rt.alloc(), random)?;
    for place in 0..edits {
        let edit = choose(random, paths, bytes, &pair.plain);
        let number = place + 1;
        let pauses = number % PAUSE == 0 || number == edits;
        match pair.edit(&edit, pauses.then_some(paths)) {
            Ok(made) => counts.add(edit.kind, made),
            Err(fault) => {
                let before = counts.all;
                let (kind, path, to) = (edit.kind, edit.path, edit.to);
                let (number, mark) = (edit.number, edit.mark);
                println!(rt;
                    "after {before} edits, {kind} at {path} (to {to}, number {number}, mark {mark}): {fault:?}"
                )?;
                return Ok(false);
            }
        }
    }
    Ok(true)
}

/// Bytes other than NUL.
fn some_bytes(alloc: Global) -> Result<Vec<u8>, AllocError> {
    let mut bytes = Vec::new(alloc);
    for _ in 0..40 {
        for byte in 0..251u8 {
            bytes.push(byte + 1)?;
        }
    }
    Ok(bytes)
}
