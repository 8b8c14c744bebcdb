// `diff` of the stores of two files.
use crate::check::{Found, check_in, write_out};
use crate::logged::LogStop;
use snap_durable::{Contents, Differences, Space, store_differences};
use std::alloc::Global;
use std::io::Write;

// What the store of a file has, where the file is whole. Where it isn't, its name begins the line on standard error.
fn store_in(rt: &HostRuntime, path: &str) -> Result<Option<Contents<Space>>, LogStop> {
    let stop = match check_in(rt, path) {
        Ok((_, Found { contents, stop })) => match stop {
            None => return Ok(contents),
            Some(stop) => stop,
        },
        Err(stop) => stop,
    };
    let _ = rt.eprint(path);
    let _ = rt.eprint(": ");
    Err(stop)
}

// Writes the differences: a line of JSON, or lines for people.
fn write_differences<W: Write>(
    alloc: Global,
    differences: &Differences,
    json: bool,
    output: &mut W,
) -> Result<(), LogStop> {
    let text = if json {
        differences.line(alloc)
    } else {
        format!(in alloc; "{differences}")
    };
    let Ok(text) = text else {
        return Err(LogStop::WantOfMemory);
    };
    write_out(text.as_bytes(), output)
}

// Compares the stores of two files, writes in what they differ, and tells whether they do.
pub(crate) fn diff_files<W: Write>(
    rt: &HostRuntime,
    a: &str,
    b: &str,
    json: bool,
    output: &mut W,
) -> Result<bool, LogStop> {
    let alloc = rt.alloc();
    let first = store_in(rt, a)?;
    let second = store_in(rt, b)?;
    let Ok(found) = store_differences(alloc, &first, &second) else {
        return Err(LogStop::WantOfMemory);
    };
    write_differences(alloc, &found, json, output)?;
    Ok(!found.namespaces.is_empty())
}
