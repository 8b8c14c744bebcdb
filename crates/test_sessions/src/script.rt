// A script on a store, which is opened, goes through its rounds, and is closed.
ghost use Rattle.std.specs.Prelude.{◌≡◌};

use crate::lines::write_answer;
use crate::round::{Round, View};
use crate::stop::Stop;
use snap_book::{Config, Refusal};
use snap_record::{Sequence, Text};
use snap_script::{Answer, Command, FieldRule, Line, Scratch, names_of, read_line};
use snap_store::{Cause, Closed, NewStore, NotClosed, RoundName, Session, Store};
use snap_usage::Usage;
use std::alloc::{AllocError, Global};
use std::io::Write;
use std::str::Lines;
use std::sync::Wait;

// The first configuration with which a store opens. Those before are refused.
fn first_config<W: Write>(
    alloc: Global,
    lines: &mut Lines<'_>,
    output: &mut W,
) -> Result<Option<Config>, Stop> {
    for _ in 0..u64::MAX {
        let Some(line) = lines.next() else {
            return Ok(None);
        };
        let config = match read_line(
            alloc,
            line.as_bytes(),
            FieldRule::Any,
            false,
            &mut Scratch::new(alloc),
        )? {
            Line::Empty => continue,
            Line::Command {
                session: _,
                command: Command::Open { config },
            } => config,
            Line::Command { .. } => return Err(Stop::Line),
        };
        let why = if !config.is_valid() {
            Refusal::BadArgument
        } else if config.journal == 0 {
            Refusal::JournalFull
        } else {
            return Ok(Some(config));
        };
        write_answer(alloc, output, &Answer::refused(why))?;
    }
    Ok(None)
}

// Where memory is refused the store and the sessions come back, and it is closed again.
fn close<N: RoundName>(store: Store<N>, sessions: Vec<Session>) -> Result<Closed<N>, Stop> {
    match store.close(sessions) {
        Ok(closed) => Ok(closed),
        Err(
            NotClosed {
                store,
                sessions,
                cause: Cause::OutOfMemory(_),
            },
        ) => match store.close(sessions) {
            Ok(closed) => Ok(closed),
            Err(_) => Err(Stop::NotClosed),
        },
        Err(_) => Err(Stop::NotClosed),
    }
}

// A round, up to its close. The answer is the closed store, the views that the script holds, and the entries of the
// next round, if the script asks for one.
fn one_round<N: RoundName, R: Wait, W: Write>(
    alloc: Global,
    rt: &R,
    store: Store<N>,
    views: Vec<View>,
    lines: &mut Lines<'_>,
    output: &mut W,
) -> Result<(Closed<N>, Vec<View>, Option<u64>), Stop> {
    let mut round = Round {
        alloc,
        rt,
        store: &store,
        views,
        sessions: Vec::new(alloc),
        hands: Vec::new(alloc),
        next: None,
    };
    round.play(lines, output)?;
    let (sessions, views, next) = round.end()?;
    let closed = close(store, sessions)?;
    Ok((closed, views, next))
}

// The report of a closed store: of each namespace, what it is charged.
fn report<N: RoundName>(
    alloc: Global,
    closed: &Closed<N>,
    names: &[Text],
) -> Result<Answer, AllocError> {
    let mut totals = Sequence::new(alloc);
    for name in names {
        let total = closed.totals(name.as_str()).unwrap_or(Usage::ZERO);
        totals.push((name.clone()?, total))?;
    }
    Ok(Answer::Report {
        entries: closed.journal().len() as u64,
        actives: 0,
        records: closed.records().len() as u64,
        totals,
    })
}

// All rounds, and the report at the end.
fn rounds<N: RoundName, R: Wait, W: Write>(
    alloc: Global,
    rt: &R,
    mut store: Store<N>,
    names: &[Text],
    lines: &mut Lines<'_>,
    output: &mut W,
) -> Result<(), Stop> {
    let mut views = Vec::new(alloc);
    for _ in 0..u64::MAX {
        let (closed, left, next) = one_round(alloc, rt, store, views, lines, output)?;
        let Some(journal) = next else {
            let answer = match report(alloc, &closed, names) {
                Ok(answer) => answer,
                Err(_) => report(alloc, &closed, names)?,
            };
            return write_answer(alloc, output, &answer);
        };
        let Ok(reopened) = Store::reopen(closed, journal) else {
            return Err(Stop::NotClosed);
        };
        store = reopened;
        views = left;
    }
    Err(Stop::NotClosed)
}

pub(crate) fn carry_out<N: RoundName, R: Wait, W: Write>(
    alloc: Global,
    rt: &R,
    new: NewStore,
    lines: &mut Lines<'_>,
    output: &mut W,
) -> Result<(), Stop>
    requires { new ≡ (N.table, N.rounds) }
{
    let Some(config) = first_config(alloc, lines, output)? else {
        return Ok(());
    };
    let names = names_of(alloc, config.namespaces.as_slice())?;
    let Ok(store) = Store::<N>::open(alloc, new, config) else {
        return Err(Stop::NoMemory);
    };
    rounds(alloc, rt, store, names.as_slice(), lines, output)
}
