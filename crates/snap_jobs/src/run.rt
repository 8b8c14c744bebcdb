ghost use Rattle.std.specs.Prelude.{◌≡◌, ◌≤◌, ◌<◌, length, None, OnOk, IfOk, IfErr, IfSome, true, string_bytes};
ghost use Rattle.std.specs.Io.KnownBytes.{Appends};
ghost use Rattle.snap_lines.specs.Runs.{Breaks};
ghost use Rattle.snap_writers.specs.Jobs.{IsReport};
ghost use Rattle.snap_jobs.specs.Answer.{HasBroken, HasNoReport, JobsHaveStopped, HasWritten, IsTextOf, unclosed_stop};
ghost use Rattle.snap_jobs.specs.Lines.{jobs_transcript};
ghost use Rattle.snap_jobs.specs.declared.stop.JobsStop.TheVariants.{WantOfMemory};

use crate::answer::text_of;
use crate::ends::lacking;
use crate::reading::{JobLines, Read};
use crate::stop::JobsStop;
use snap_lines::{MAX_BYTES, Stop, read_lines, write_bytes};
use snap_script::FieldRule;
use snap_store::{Cause, NewStore, NotClosed, RoundName, Store};
use snap_writers::{Gate, Job, Report, RunFault, run_jobs};
use std::alloc::Global;
use std::io::{Read as Input, Write};
use std::marker::Brand;
use std::sync::Wait;
use std::thread::Threads;

// The most reads.
const READS: u32 = 4_294_967_295;

/// How a script of jobs is run.
#[derive(Clone, Copy, Debug, PartialEq, Eq)]
pub struct JobOptions {
    /// How many workers run the jobs, 1 to 16.
    pub workers: u32,
    /// Whether the end of each job is told.
    pub ends: bool,
    /// Which fields a line and the operations of a job may have.
    pub fields: FieldRule,
}

// Lets every worker take each of its steps.
struct OpenGate;

impl Gate for OpenGate {
    ghost answers = { λ _ _ _ passes. passes ≡ true };

    fn pass(&self, _worker: u32, _step: u32) -> bool {
        true
    }
}

// Why the store that comes back was not closed.
fn stop_of<N: RoundName>(back: &NotClosed<N>) -> JobsStop
    ensures { result ≡ unclosed_stop back.now.cause }
{
    match back.cause {
        Cause::OutOfMemory(no_memory) => { JobsStop::Lines(Stop::OutOfMemory(no_memory)) }
        Cause::StillOut(_) | Cause::SessionsMissing | Cause::TapeMismatch(_) => {
            JobsStop::NotClosed
        }
    }
}

// Runs the jobs, through a gate that stops no worker.
fn report_of<N: RoundName + Send + Sync, T: Threads + Wait + Sync>(
    rt: &T,
    alloc: Global,
    store: Store<N>,
    jobs: &[Job],
    workers: u32,
) -> Result<Report<N>, JobsStop>
    requires { (1 ≤ workers) × (workers ≤ 16) }
    ensures report { IfOk result (λ report. IsReport (λ worker. ⊥) store jobs.now workers report.ends report.closed) }
    ensures stop { IfErr result (λ stop. HasNoReport workers store jobs.now stop) }
{
    match run_jobs(rt, alloc, store, jobs, workers, &OpenGate) {
        Ok(report) => Ok(report),
        Err(RunFault::GateClosed { .. }) => unreachable!(),
        Err(RunFault::BadWorkers(_)) => unreachable!(),
        Err(RunFault::OutOfMemory(_, no_memory)) => {
            Err(JobsStop::Lines(Stop::OutOfMemory(no_memory)))
        }
        Err(RunFault::NotClosed { ends: _, back }) => Err(stop_of(&back)),
    }
}

// What a run of jobs came to: its text, and how many of all jobs lacked memory.
#[derive(Drop)]
struct Told {
    text: String,
    lacking: u64,
    all: u64,
}

impl Told {
    // How the run ends, once its text is written.
    fn ended(&self) -> Result<(), JobsStop>
        ensures ok { OnOk result (self.now.lacking ≡ 0) }
        ensures err { IfErr result (λ stop. (0 < self.now.lacking) × (stop ≡ WantOfMemory self.now.lacking self.now.all)) }
    {
        if self.lacking > 0 {
            return Err(JobsStop::WantOfMemory {
                jobs: self.lacking,
                all: self.all,
            });
        }
        Ok(())
    }
}

// Runs the jobs, and gives what they came to, with their ends where these are told, and the answers to the questions.
fn told_of<N: RoundName + Send + Sync, T: Threads + Wait + Sync>(
    rt: &T,
    alloc: Global,
    read: Read<N>,
    options: JobOptions,
) -> Result<Told, JobsStop>
    requires { (1 ≤ options.workers) × (options.workers ≤ 16) }
    ensures text { IfOk result (λ told. IsTextOf options read told.lacking (string_bytes told.text)) }
    ensures all { IfOk result (λ told. told.all ≡ length read.jobs) }
    ensures stop { IfErr result (λ stop. HasNoReport options.workers read.round read.jobs stop) }
{
    let Read {
        store,
        names,
        jobs,
        questions,
    } = read;
    let report = report_of(rt, alloc, store, jobs.as_slice(), options.workers)?;
    let text = text_of(
        alloc,
        options,
        jobs.as_slice(),
        &report,
        names.as_slice(),
        questions.as_slice(),
    )?;
    Ok(Told {
        text,
        lacking: lacking(report.ends.as_slice()) as u64,
        all: jobs.len() as u64,
    })
}

// Writes the text, or a first part of it where a write fails.
fn write_text<W: Write>(output: &mut W, text: &str) -> Result<(), Stop>
    ensures written { OnOk result (Appends (W.contents output.old) (W.contents output.new) text.now) }
    ensures part { IfErr result (λ stop. Breaks text.now stop (W.contents output.old) (W.contents output.new)) }
{
    write_bytes(output, text.as_bytes())?;
    match output.flush() {
        Ok(()) => Ok(()),
        Err(_) => Err(Stop::OutputFailed),
    }
}

// Runs the jobs that were read, and writes their text; nothing where no line has opened a store.
fn run_read<N: RoundName + Send + Sync, T: Threads + Wait + Sync, W: Write>(
    rt: &T,
    alloc: Global,
    read: Option<Read<N>>,
    output: &mut W,
    options: JobOptions,
) -> Result<(), JobsStop>
    requires { (1 ≤ options.workers) × (options.workers ≤ 16) }
    ensures written { OnOk result (HasWritten options read 0 (W.contents output.old) (W.contents output.new)) }
    ensures stopped { IfErr result (λ stop. HasBroken options read stop (W.contents output.old) (W.contents output.new)) }
{
    let Some(read) = read else {
        return Ok(());
    };
    match told_of(rt, alloc, read, options) {
        Ok(told) => match write_text(output, told.text.as_str()) {
            Ok(()) => told.ended(),
            Err(stop) => Err(JobsStop::Lines(stop)),
        },
        Err(stop) => Err(stop),
    }
}

fn run<N: RoundName + Send + Sync, T: Threads + Wait + Sync, R: Input, W: Write>(
    rt: &T,
    alloc: Global,
    new: NewStore,
    input: &mut R,
    output: &mut W,
    options: JobOptions,
    reads: u32,
) -> Result<(), JobsStop>
    requires names { new ≡ (N.table, N.rounds) }
    requires workers { (1 ≤ options.workers) × (options.workers ≤ 16) }
    ensures done { OnOk result (IfSome (R.remaining input.old) (λ bytes. (jobs_transcript options.fields bytes).fault ≡ None)) }
    ensures written { OnOk result (IfSome (R.remaining input.old) (λ bytes. HasWritten options (jobs_transcript options.fields bytes).value.read 0
        (W.contents output.old) (W.contents output.new))) }
    ensures stopped { IfErr result (λ stop. IfSome (R.remaining input.old) (λ bytes. JobsHaveStopped options bytes (R.remaining input.new) stop
        (W.contents output.old) (W.contents output.new))) }
{
    let mut lines: JobLines<N> = JobLines::new(new, options.fields);
    match read_lines(
        alloc,
        &mut lines,
        input,
        output,
        Some(MAX_BYTES),
        u64::from(reads),
    ) {
        Ok(()) => run_read(rt, alloc, lines.into_read(), output, options),
        Err(stop) => Err(JobsStop::Lines(stop)),
    }
}

/// Reads a store and jobs from the input, a JSON object a line, runs the jobs by as many workers as the options say,
/// each on a thread of its own, closes the store, and writes one line: how many jobs were committed, how many were
/// discarded as they asked, how many ended otherwise, and what each namespace is charged. With `ends` a line for
/// each job comes before it, in the order of the jobs, which tells how the job ended. Nothing is written before
/// all jobs have ended, and nothing at all where the input has no line but empty ones. Questions are asked of the
/// closed store, and the lines of their answers come between the ends and the last line, in order.
///
/// Where it ends well, and the input and the output tell their bytes, no line has a fault, no job lacked memory,
/// and what was written is the text of a report of the jobs that were read, with the names of their store. Where it
/// ends at a line, that is the first with a fault. Where it ends since jobs lacked memory, the text was written. Else
/// nothing was written, but for a first part of the text where a write failed.
///
/// `Lines` with the stop of [`read_lines`], and with `OutOfMemory` where memory was refused before a worker was
/// started, at the close, or for the text, and with `OutputFailed` where the text was not written. `NotClosed`
/// where the store was not closed, which no script leads to. `WantOfMemory` where the text was written, and jobs were
/// refused because memory was, or a thread.
///
/// The store's name is made here, so a call has a store of its own. It waits for the workers. Takes memory
/// for a read, for one line, for all jobs, for the store, and for the text. The cost is that of the lines and of
/// [`run_jobs`](snap_writers::run_jobs).
pub fn write_jobs_within<T: Threads + Wait + Sync, R: Input, W: Write>(
    rt: &T,
    alloc: Global,
    input: &mut R,
    output: &mut W,
    options: JobOptions,
    reads: u32,
) -> Result<(), JobsStop>
    requires { (1 ≤ options.workers) × (options.workers ≤ 16) }
    ensures done { OnOk result (IfSome (R.remaining input.old) (λ bytes. (jobs_transcript options.fields bytes).fault ≡ None)) }
    ensures written { OnOk result (IfSome (R.remaining input.old) (λ bytes. HasWritten options (jobs_transcript options.fields bytes).value.read 0
        (W.contents output.old) (W.contents output.new))) }
    ensures stopped { IfErr result (λ stop. IfSome (R.remaining input.old) (λ bytes. JobsHaveStopped options bytes (R.remaining input.new) stop
        (W.contents output.old) (W.contents output.new))) }
{
    let new = NewStore::new(alloc)?;
    run::<Brand, T, R, W>(rt, alloc, new, input, output, options, reads)
}

/// [`write_jobs_within`] with at most 4,294,967,295 reads.
pub fn write_jobs<T: Threads + Wait + Sync, R: Input, W: Write>(
    rt: &T,
    alloc: Global,
    input: &mut R,
    output: &mut W,
    options: JobOptions,
) -> Result<(), JobsStop>
    requires { (1 ≤ options.workers) × (options.workers ≤ 16) }
    ensures done { OnOk result (IfSome (R.remaining input.old) (λ bytes. (jobs_transcript options.fields bytes).fault ≡ None)) }
    ensures written { OnOk result (IfSome (R.remaining input.old) (λ bytes. HasWritten options (jobs_transcript options.fields bytes).value.read 0
        (W.contents output.old) (W.contents output.new))) }
    ensures stopped { IfErr result (λ stop. IfSome (R.remaining input.old) (λ bytes. JobsHaveStopped options bytes (R.remaining input.new) stop
        (W.contents output.old) (W.contents output.new))) }
{
    write_jobs_within(rt, alloc, input, output, options, READS)
}
