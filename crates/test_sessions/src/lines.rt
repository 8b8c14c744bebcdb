// The lines that are written.
use crate::stop::Stop;
use snap_script::Answer;
use std::alloc::Global;
use std::io::Write;

pub(crate) fn write_line<W: Write>(output: &mut W, line: &str) -> Result<(), Stop> {
    match output.write_all(line.as_bytes()) {
        Ok(()) => Ok(()),
        Err(_) => Err(Stop::OutputFailed),
    }
}

// The command was carried out, so where memory for the line is refused it is made again.
pub(crate) fn write_answer<W: Write>(
    alloc: Global,
    output: &mut W,
    answer: &Answer,
) -> Result<(), Stop> {
    let line = match answer.line(alloc) {
        Ok(line) => line,
        Err(_) => answer.line(alloc)?,
    };
    write_line(output, line.as_str())
}
