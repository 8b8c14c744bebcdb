ghost use Rattle.std.specs.Prelude.{◌≡◌, None, OnOk, IfErr, IfSome, option_copied, option_map, string_bytes};
ghost use Rattle.snap_lines.specs.Transcripts.{Tells};
ghost use Rattle.snap_script.specs.Gives.{Gives};
ghost use Rattle.snap_session.specs.Script.{HasStopped, effect_of, script, text_told, unbegun};

use crate::stepper::Stepper;
use snap_ledger::{NewTable, StoreName};
use snap_lines::{MAX_BYTES, Stop, TakeLine, read_lines};
use snap_script::{Answer, Fault, FieldRule, ReadError, Scratch, read_line};
use snap_world::World;
use std::alloc::Global;
use std::io::{Read, Write};
use std::marker::{Brand, Model};

// The most reads.
const READS: u32 = 4_294_967_295;

/// How a script is run.
#[derive(Clone, Copy, Debug, PartialEq, Eq)]
pub struct RunOptions {
    /// Which fields a line may have.
    pub fields: FieldRule,
    /// Whether the run ends at the first command that is refused.
    pub stops_at_refusal: bool,
}

/// Runs the lines of a script. Contracts see the script and how it is run.
#[derive(Drop)]
pub struct Runner<N: StoreName> {
    stepper: Stepper<N>,
    options: RunOptions,
    scratch: Scratch,
}

impl<N: StoreName> Model for Runner<N> {
    ghost use Rattle.snap_session.specs.Script.{RunnerValue};

    ghost Value = { RunnerValue };

    ghost view = { λ s. record { stepped = s.stepper; options = s.options } };
}

impl<N: StoreName> Runner<N> {
    /// A run that has taken no line, and whose script has opened no store. Takes no memory.
    pub fn new(alloc: Global, table: NewTable, options: RunOptions) -> Runner<N>
        requires { table ≡ N.table }
        ensures { result ≡ unbegun options }
    {
        Runner {
            stepper: Stepper::new(alloc, table),
            options,
            scratch: Scratch::new(alloc),
        }
    }

    /// The world of the store, where one stands. Takes no memory. The cost is constant.
    pub fn world(&self) -> Option<&World<N>>
        ensures { option_copied result ≡ option_map (λ opened. opened.world) self.now.stepped.script.store }
    {
        self.stepper.world()
    }
}

// The text of an answer that doesn't end the run.
fn text_told(alloc: Global, options: RunOptions, answer: Answer) -> Result<String, ReadError>
    ensures { Gives string_bytes result (text_told options answer) }
{
    if options.stops_at_refusal {
        if let Some(why) = answer.refusal() {
            return Err(ReadError::Fault(Fault::Refused(why)));
        }
    }
    Ok(answer.told(options.fields).line(alloc)?)
}

/// A line is read and its command carried out; the text is the line of the answer, and none for an empty line.
impl<N: StoreName> TakeLine for Runner<N> {
    ghost effect = { effect_of };

    #[tactic(auto, unfolding(crate::specs::Script::effect_of))]
    fn take_line(&mut self, alloc: Global, line: &[u8]) -> Result<Option<String>, ReadError> {
        let opened = self.stepper.is_open();
        let line = read_line(alloc, line, self.options.fields, opened, &mut self.scratch)?;
        match self.stepper.step(line)? {
            Some(answer) => Ok(Some(text_told(alloc, self.options, answer)?)),
            None => Ok(None),
        }
    }
}

fn run<N: StoreName, R: Read, W: Write>(
    alloc: Global,
    table: NewTable,
    input: &mut R,
    output: &mut W,
    options: RunOptions,
    reads: u32,
) -> Result<(), Stop>
    requires { table ≡ N.table }
    ensures done { OnOk result (IfSome (R.remaining input.old)
        (λ bytes. Tells (script options bytes) None (W.contents output.old) (W.contents output.new))) }
    ensures stopped { IfErr result (λ stop. IfSome (R.remaining input.old) (λ bytes.
        HasStopped options bytes (R.remaining input.new) stop (W.contents output.old) (W.contents output.new))) }
{
    let mut runner: Runner<N> = Runner::new(alloc, table, options);
    let most = Some(MAX_BYTES);
    read_lines(alloc, &mut runner, input, output, most, u64::from(reads))
}

/// Runs a script: reads lines from the input, a command each, and writes the line of each answer to the
/// output. An empty line has no answer.
///
/// Where it ends well, and the input and the output tell their bytes, what was written is the text of
/// `script` for all that the input had, and no line has a fault. Where it stops, what was written is the text
/// for whole lines from the first on: at a line, which is the first with a fault, for those before it; at a
/// read that failed, for all that were read; where a write failed, a first part of a text may follow.
///
/// `Line` where a line is no command, has more than 16,777,216 bytes without its line feed, or takes
/// the bytes of all lines past 1,073,741,824; also where it has an unknown field, if the options make that a fault,
/// and where its command was refused, if they end the run there. `InputFailed` where a read failed, or the end of the
/// input didn't come within `reads` reads; `OutputFailed` where a write failed; `OutOfMemory` where memory was refused.
/// What was written stays written, and is flushed before each read and at the end.
///
/// The store's name is made here, so a call has a store of its own. Takes memory for a read, for one
/// line and its answer, and for the store. The cost is that of the commands, and grows with the bytes.
pub fn replay_within<R: Read, W: Write>(
    alloc: Global,
    input: &mut R,
    output: &mut W,
    options: RunOptions,
    reads: u32,
) -> Result<(), Stop>
    ensures done { OnOk result (IfSome (R.remaining input.old)
        (λ bytes. Tells (script options bytes) None (W.contents output.old) (W.contents output.new))) }
    ensures stopped { IfErr result (λ stop. IfSome (R.remaining input.old) (λ bytes.
        HasStopped options bytes (R.remaining input.new) stop (W.contents output.old) (W.contents output.new))) }
{
    let table = NewTable::new(alloc)?;
    run::<Brand, R, W>(alloc, table, input, output, options, reads)
}

/// [`replay_within`] with at most 4,294,967,295 reads.
pub fn replay<R: Read, W: Write>(
    alloc: Global,
    input: &mut R,
    output: &mut W,
    options: RunOptions,
) -> Result<(), Stop>
    ensures done { OnOk result (IfSome (R.remaining input.old)
        (λ bytes. Tells (script options bytes) None (W.contents output.old) (W.contents output.new))) }
    ensures stopped { IfErr result (λ stop. IfSome (R.remaining input.old) (λ bytes.
        HasStopped options bytes (R.remaining input.new) stop (W.contents output.old) (W.contents output.new))) }
{
    replay_within(alloc, input, output, options, READS)
}
