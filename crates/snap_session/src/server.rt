ghost use Rattle.std.specs.Prelude.{◌≡◌, None, IfOk, OnOk, IfErr, IfSome};
ghost use Rattle.snap_lines.specs.Transcripts.{Tells};
ghost use Rattle.snap_session.specs.Service.{HasStoppedServing, idle, responded, served, service};

use crate::stepper::Stepper;
use snap_ledger::{NewTable, StoreName};
use snap_lines::{Stop, TakeLine, read_lines};
use snap_script::{Fault, Line, ReadError, Response, Scratch, read_request};
use snap_world::NoMemory;
use std::alloc::Global;
use std::io::{Read, Write};
use std::marker::{Brand, Model};

// The most reads, more than there will be.
const READS: u64 = u64::MAX;

/// Answers the lines of a script, each of them. Contracts see the script, and how many lines were answered.
#[derive(Drop)]
pub struct Server<N: StoreName> {
    stepper: Stepper<N>,
    lines: u64,
    scratch: Scratch,
}

impl<N: StoreName> Model for Server<N> {
    ghost use Rattle.snap_session.specs.Service.{ServerValue};

    ghost Value = { ServerValue };

    ghost view = { λ s. record { stepped = s.stepper; lines = s.lines } };
}

// Carries out what was read of the line of this number.
pub(crate) fn respond<N: StoreName>(
    stepper: &mut Stepper<N>,
    number: u64,
    line: Result<Line<'_>, Fault>,
) -> Result<Response, NoMemory>
    ensures { IfOk result (λ response. responded stepper.old number line.entry ≡ (stepper.new, response)) }
{
    let line = match line {
        Ok(line) => line,
        Err(fault) => return Ok(Response::Fault {
            fault,
            line: number,
        }),
    };
    match stepper.step(line)? {
        Some(answer) => Ok(Response::Answer(answer)),
        None => Ok(Response::Empty),
    }
}

impl<N: StoreName> Server<N> {
    /// A server that has answered no line, and whose script has opened no store. Takes no memory.
    pub fn new(alloc: Global, table: NewTable) -> Server<N>
        requires { table ≡ N.table }
        ensures { result ≡ idle }
    {
        Server {
            stepper: Stepper::new(alloc, table),
            lines: 0,
            scratch: Scratch::new(alloc),
        }
    }
}

/// A line is read with its id and carried out. The text is the line of its response.
impl<N: StoreName> TakeLine for Server<N> {
    ghost effect = { served };

    #[tactic(auto, unfolding(crate::specs::Service::served))]
    fn take_line(&mut self, alloc: Global, line: &[u8]) -> Result<Option<String>, ReadError> {
        let opened = self.stepper.is_open();
        let request = match read_request(alloc, line, opened, &mut self.scratch) {
            Ok(request) => request,
            Err(shortage) => return Err(ReadError::OutOfMemory(shortage)),
        };
        self.lines = self.lines.saturating_add(1);
        let response = respond(&mut self.stepper, self.lines, request.line)?;
        Ok(Some(response.line(alloc, &request.id)?))
    }
}

fn run<N: StoreName, R: Read, W: Write>(
    alloc: Global,
    table: NewTable,
    input: &mut R,
    output: &mut W,
) -> Result<(), Stop>
    requires { table ≡ N.table }
    ensures done { OnOk result (IfSome (R.remaining input.old)
        (λ bytes. Tells (service bytes) None (W.contents output.old) (W.contents output.new))) }
    ensures stopped { IfErr result (λ stop. IfSome (R.remaining input.old) (λ bytes.
        HasStoppedServing bytes (R.remaining input.new) stop (W.contents output.old) (W.contents output.new))) }
{
    let mut server: Server<N> = Server::new(alloc, table);
    read_lines(alloc, &mut server, input, output, None, READS)
}

/// Serves a client: reads lines from the input, a command each, and writes one line to the output for each of them, in
/// their order. A line that is no command is answered with its fault and its number, and an empty one with
/// `{"empty":true}`; neither changes anything. A field that is neither one of its command's nor `do`, `s` or `id` is a
/// fault. A line that has an id gets it back.
///
/// Where it ends well, and the input and the output tell their bytes, what was written is the text of `service` for all
/// that the input had. Where it stops, what was written is the text for whole lines from the first on: at a read that
/// failed, for all that were read; where a write failed, a first part of a text may follow. No line ends it.
///
/// `InputFailed` where a read failed, or the end of the input didn't come within 18,446,744,073,709,551,615 reads;
/// `OutputFailed` where a write failed; `OutOfMemory` where memory was refused. What was written stays written, and is
/// flushed before each read and at the end.
///
/// The store's name is made here, so a call has a store of its own. Neither the bytes of all lines nor their number have
/// a limit, and the memory doesn't grow with them: it is that for a read, for one line and its answer, and for the store.
/// A line that is too long takes no more than 16,777,217 bytes. The cost is that of the commands, and grows with the
/// bytes.
pub fn serve<R: Read, W: Write>(alloc: Global, input: &mut R, output: &mut W) -> Result<(), Stop>
    ensures done { OnOk result (IfSome (R.remaining input.old)
        (λ bytes. Tells (service bytes) None (W.contents output.old) (W.contents output.new))) }
    ensures stopped { IfErr result (λ stop. IfSome (R.remaining input.old) (λ bytes.
        HasStoppedServing bytes (R.remaining input.new) stop (W.contents output.old) (W.contents output.new))) }
{
    let table = NewTable::new(alloc)?;
    run::<Brand, R, W>(alloc, table, input, output)
}
