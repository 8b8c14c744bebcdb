// A script on a world, line by line, with what stands after each line.
ghost use Rattle.std.specs.Prelude.{◌≡◌};

use crate::lines::{write_answer, write_line};
use crate::stop::Stop;
use snap_ledger::{NewTable, StoreName};
use snap_record::Text;
use snap_script::{Answer, Command, FieldRule, LentText, Line, Scratch, read_line};
use snap_session::Script;
use std::alloc::Global;
use std::io::Write;
use std::str::Lines;

// The tree of the namespace, or the report, where none is named. It changes nothing, and is asked for again where
// memory was refused.
fn ask<N: StoreName>(script: &mut Script<N>, name: Option<&Text>) -> Result<Answer, Stop> {
    for _ in 0..2 {
        let command = match name {
            None => Command::Report,
            Some(name) => Command::Tree {
                namespace: LentText::new(name.as_str()),
                page: None,
            },
        };
        if let Ok(answer) = script.act(0, command) {
            return Ok(answer);
        }
    }
    Err(Stop::NoMemory)
}

// A line `stands`, and the answers. Nothing of a script that has opened no store.
fn write_state<N: StoreName, W: Write>(
    alloc: Global,
    script: &mut Script<N>,
    output: &mut W,
) -> Result<(), Stop> {
    let answer = ask(script, None)?;
    let Answer::Report { totals, .. } = &answer else {
        return Ok(());
    };
    write_line(output, "stands\n")?;
    for (name, _) in totals.as_slice() {
        let tree = ask(script, Some(name))?;
        write_answer(alloc, output, &tree)?;
    }
    write_answer(alloc, output, &answer)
}

// What the line is answered; nothing for an empty one.
fn attempt<N: StoreName>(
    alloc: Global,
    script: &mut Script<N>,
    line: &[u8],
) -> Result<Option<Answer>, Stop> {
    match read_line(
        alloc,
        line,
        FieldRule::Any,
        script.is_open(),
        &mut Scratch::new(alloc),
    )? {
        Line::Empty => Ok(None),
        Line::Command { session, command } => match script.act(session, command) {
            Ok(answer) => Ok(Some(answer)),
            Err(_) => Err(Stop::NoMemory),
        },
    }
}

// Carries a line out, by a second try where memory was refused to the first one of an open store, and writes its
// answer and what stands then.
fn step<N: StoreName, W: Write>(
    alloc: Global,
    script: &mut Script<N>,
    line: &[u8],
    output: &mut W,
) -> Result<(), Stop> {
    let answer = match attempt(alloc, script, line) {
        Err(Stop::NoMemory) if script.is_open() => {
            write_line(output, "refused\n")?;
            write_state(alloc, script, output)?;
            attempt(alloc, script, line)?
        }
        answer => answer?,
    };
    let Some(answer) = answer else {
        return Ok(());
    };
    write_answer(alloc, output, &answer)?;
    write_state(alloc, script, output)
}

pub(crate) fn carry_out_by_steps<N: StoreName, W: Write>(
    alloc: Global,
    table: NewTable,
    lines: &mut Lines<'_>,
    output: &mut W,
) -> Result<(), Stop>
    requires { table ≡ N.table }
{
    let mut script: Script<N> = Script::new(alloc, table);
    for _ in 0..u64::MAX {
        let Some(line) = lines.next() else {
            return Ok(());
        };
        step(alloc, &mut script, line.as_bytes(), output)?;
    }
    Ok(())
}
