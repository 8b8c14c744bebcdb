ghost use Rattle.std.specs.Prelude.{◌≡◌, ◌||◌, if◌then◌else◌, not, IfOk, IsTrue, Ok, OnOk, option_copied, option_map};
ghost use Rattle.snap_marks.specs.Marks.{is_mark_line};
ghost use Rattle.snap_marks.specs.Sums.{continued_mark, marks_agree, mark_compared, passed, rebased_mark, summed};
ghost use Rattle.snap_script.specs.Requests.{id_of};
ghost use Rattle.snap_script.specs.declared.command.Command.TheVariants.{Roll};
ghost use Rattle.snap_script.specs.declared.line.Line.TheVariants.{Command as LineCommand, Empty};
ghost use Rattle.snap_script.specs.declared.response.Response.TheVariants.{NotKept};
ghost use Rattle.snap_script.specs.declared.unknown.FieldRule.TheVariants.{KnownAndId};
ghost use Rattle.snap_script.specs.Lines.{line_of};
ghost use Rattle.snap_session.specs.Saving.{SavesRolled, saving_of};
ghost use Rattle.snap_session.specs.Service.{responded};
ghost use Rattle.snap_session.specs.Kept.{counted_anew, counted_from, gone_on, has_store, idle_kept, is_changing, kept_so, mark_of, served_kept, would_change, IsWholeRoll};

use crate::saving::{Saving, saved_by};
use crate::server::respond;
use crate::stepper::Stepper;
use snap_ledger::{NewTable, StoreName};
use snap_lines::{KeepLine, TakeLine};
use snap_marks::{Sums, is_mark};
use snap_script::{Command, Fault, Line, ReadError, Request, Response, Scratch, read_request};
use snap_world::{NoMemory, World};
use std::alloc::{AllocError, Global};
use std::marker::Model;

/// A [`Server`](crate::Server) for which lines that change its store are kept, as in a log, before they are carried out.
/// Contracts see the server, whether such lines are carried out, and the sums of those that were, and of their answers.
pub struct KeptServer<N: StoreName> {
    stepper: Stepper<N>,
    lines: u64,
    keeps: bool,
    sums: Sums,
    scratch: Scratch,
}

// By hand: a derived one is proved anew, part by part, wherever a value is let go.
impl<N: StoreName> Drop for KeptServer<N> {
    fn drop(self) {
        let KeptServer {
            stepper: _,
            lines: _,
            keeps: _,
            sums: _,
            scratch: _,
        } = self;
    }
}

impl<N: StoreName> Model for KeptServer<N> {
    ghost use Rattle.snap_session.specs.Kept.{KeptValue};

    ghost Value = { KeptValue };

    ghost view = { λ s. record { server = record { stepped = s.stepper; lines = s.lines }; keeps = s.keeps; sums = s.sums } };
}

// Whether what was read of a line may change a store, or opens one.
fn is_changing(line: &Result<Line<'_>, Fault>) -> bool
    ensures { result ≡ is_changing line.now }
{
    match line {
        Ok(Line::Command { command, .. }) => command.changes(),
        Ok(Line::Empty) | Err(_) => false,
    }
}

// Whether what was read of a line is carried out.
fn is_carried_out(keeps: bool, line: &Result<Line<'_>, Fault>) -> bool
    ensures { result ≡ (keeps || not (is_changing line.now)) }
{
    keeps || !is_changing(line)
}

// Whether what was read of a line is a roll of session 0 to as many entries.
fn is_roll(line: &Result<Line<'_>, Fault>, most: u64) -> bool
    ensures { IsTrue result → line.now ≡ Ok (LineCommand 0 (Roll most)) }
{
    match line {
        Ok(
            Line::Command {
                session: 0,
                command: Command::Roll { journal },
            },
        ) => *journal == most,
        Ok(Line::Command { .. } | Line::Empty) | Err(_) => false,
    }
}

// Reads a line with its id. A mark is passed over.
fn read_kept<'a>(
    alloc: Global,
    opened: bool,
    line: &'a [u8],
    scratch: &'a mut Scratch,
) -> Result<Request<'a>, NoMemory>
    ensures id { IfOk result (λ request. request.id ≡ id_of line.now) }
    ensures line { IfOk result (λ request. request.line ≡ (if is_mark_line line.now then Ok Empty else line_of KnownAndId opened line.now)) }
{
    let mut request = read_request(alloc, line, opened, scratch)?;
    if is_mark(line) {
        request.line = Ok(Line::Empty);
    }
    Ok(request)
}

// Whether what is read of a line is a roll of session 0 to as many entries.
fn reads_roll(
    alloc: Global,
    opened: bool,
    line: &[u8],
    most: u64,
    scratch: &mut Scratch,
) -> Result<bool, NoMemory>
    ensures { IfOk result (λ is. IsTrue is → (if is_mark_line line.now then Ok Empty else line_of KnownAndId opened line.now) ≡ Ok (LineCommand 0 (Roll most))) }
{
    let request = read_kept(alloc, opened, line, scratch)?;
    Ok(is_roll(&request.line, most))
}

// Carries out what was read of the line of this number, or passes over it.
fn respond_kept<N: StoreName>(
    stepper: &mut Stepper<N>,
    keeps: bool,
    number: u64,
    line: Result<Line<'_>, Fault>,
) -> Result<Response, NoMemory>
    ensures { IfOk result (λ response. (if keeps || not (is_changing line.entry) then responded stepper.old number line.entry else (stepper.old, NotKept)) ≡ (stepper.new, response)) }
{
    if is_carried_out(keeps, &line) {
        return respond(stepper, number, line);
    }
    Ok(Response::NotKept)
}

impl<N: StoreName> KeptServer<N> {
    /// A server that has answered no line, whose script has opened no store, and whose changes are carried out. Takes no
    /// memory.
    pub fn new(alloc: Global, table: NewTable) -> KeptServer<N>
        requires { table ≡ N.table }
        ensures { result ≡ idle_kept }
    {
        KeptServer {
            stepper: Stepper::new(alloc, table),
            lines: 0,
            keeps: true,
            sums: Sums::new(),
            scratch: Scratch::new(alloc),
        }
    }

    /// Numbers lines from 1 again. So after a log's lines, the number in a fault is that of a line of the input. Takes no
    /// memory.
    pub fn begin_input(&mut self)
        ensures { self.new ≡ counted_anew self.old }
    {
        self.lines = 0;
    }

    /// How many lines were answered since then. Takes no memory.
    pub fn lines(&self) -> u64
        ensures { result ≡ self.now.server.lines }
    {
        self.lines
    }

    /// Numbers lines on from this many. So a line of its own isn't counted among those of the input. Takes no memory.
    pub fn count_from(&mut self, lines: u64)
        ensures { self.new ≡ counted_from lines self.old }
    {
        self.lines = lines;
    }

    /// Whether each mark among the lines agreed with those before it and with their answers, and the last line was one,
    /// if there was any.
    pub fn is_whole(&self) -> bool
        ensures { result ≡ marks_agree self.now.sums }
    {
        self.sums.is_whole()
    }

    /// The sums of the lines that were kept and carried out, and of their answers, and what was found by the marks.
    pub fn sums(&self) -> &Sums
        ensures { result.now ≡ self.now.sums }
    {
        &self.sums
    }

    /// The world of the store, where one stands. Takes no memory. The cost is constant.
    pub fn world(&self) -> Option<&World<N>>
        ensures { option_copied result ≡ option_map (λ opened. opened.world) self.now.server.stepped.script.store }
    {
        self.stepper.world()
    }

    /// The mark from which on marks are compared anew, without its line feed.
    ///
    /// `AllocError` where memory for its bytes was refused.
    pub fn rebased(&self, alloc: Global) -> Result<Vec<u8>, AllocError>
        ensures { IfOk result (λ line. line.items ≡ rebased_mark self.now.sums) }
    {
        self.sums.rebased(alloc)
    }

    /// What is saved of the store.
    ///
    /// `NoStore` where none stands; `Refused` where a roll to as many entries would be, by `NumbersSpent` or `JournalFull`.
    /// It fails only where memory is refused. Takes memory for a copy of all records, labels and layers; the cost grows
    /// with them.
    pub fn save(&self, alloc: Global) -> Result<Saving, NoMemory>
        ensures saved { IfOk result (λ saving. saving ≡ saving_of self.now.server.stepped.script.store) }
        // The lines make the store that a roll to as many entries leaves.
        ensures rolled { IfOk result (λ saving. SavesRolled self.now.server.stepped.script.store saving) }
    {
        match self.world() {
            Some(world) => saved_by(alloc, world),
            None => Ok(Saving::NoStore),
        }
    }

    /// Whether a line, which stands here without its line feed, is a `roll` of session 0 to as many entries as the round
    /// may have, where a store stands, and nothing is kept of another. Takes memory for the line's texts.
    pub fn rolls(&mut self, alloc: Global, line: &[u8]) -> Result<bool, NoMemory>
        ensures rolls { IfOk result (λ is. IsTrue is → IsWholeRoll self.old line.now) }
        ensures same { self.new ≡ self.old }
    {
        let Some(world) = self.stepper.only_world() else {
            return Ok(false);
        };
        let most = world.most_entries();
        let opened = self.stepper.is_open();
        reads_roll(alloc, opened, line, most, &mut self.scratch)
    }

    /// The mark from which on sums go on, without its line feed.
    ///
    /// `AllocError` where memory for its bytes was refused.
    pub fn continued(&self, alloc: Global) -> Result<Vec<u8>, AllocError>
        ensures { IfOk result (λ line. line.items ≡ continued_mark self.now.sums) }
    {
        self.sums.continued(alloc)
    }

    /// Lets sums go on from such a mark, which stands here without its line feed. Takes no memory.
    pub fn go_on(&mut self, mark: &[u8])
        ensures { self.new ≡ gone_on mark.now self.old }
    {
        self.sums.go_on(mark);
    }

    // The same with these sums.
    pub(crate) fn set_sums(&mut self, sums: Sums)
        ensures { self.new ≡ record { server = self.old.server; keeps = self.old.keeps; sums = sums } }
    {
        self.sums = sums;
    }
}

// The sums behind a line that has this text. A line that `adds` to them was kept and carried out.
fn add_line(
    alloc: Global,
    sums: &mut Sums,
    adds: bool,
    line: &[u8],
    text: &[u8],
) -> Result<(), NoMemory>
    ensures { OnOk result (sums.new ≡ (if is_mark_line line.now then mark_compared sums.old line.now else if adds then summed sums.old line.now text.now else passed sums.old)) }
{
    if is_mark(line) {
        sums.compare(alloc, line)?;
    } else if adds {
        sums.add(line, text);
    } else {
        sums.pass();
    }
    Ok(())
}

/// A line is read once, with its id. Where a line that would change the store isn't carried out, it is counted, and
/// answered `NotKept`. The text is the line of the response. A mark is compared with the sums, and passed over.
impl<N: StoreName> TakeLine for KeptServer<N> {
    ghost effect = { served_kept };

    #[tactic(auto, unfolding(crate::specs::Kept::served_kept))]
    fn take_line(&mut self, alloc: Global, line: &[u8]) -> Result<Option<String>, ReadError> {
        let opened = self.stepper.is_open();
        let request = match read_kept(alloc, opened, line, &mut self.scratch) {
            Ok(request) => request,
            Err(shortage) => return Err(ReadError::OutOfMemory(shortage)),
        };
        let adds = self.keeps && is_changing(&request.line);
        self.lines = self.lines.saturating_add(1);
        let response = respond_kept(&mut self.stepper, self.keeps, self.lines, request.line)?;
        let text = response.line(alloc, &request.id)?;
        add_line(alloc, &mut self.sums, adds, line, text.as_bytes())?;
        Ok(Some(text))
    }
}

impl<N: StoreName> KeepLine for KeptServer<N> {
    ghost changes = { would_change };

    ghost keeping = { kept_so };

    ghost settled = { has_store };

    ghost mark = { mark_of };

    fn is_change(&mut self, alloc: Global, line: &[u8]) -> Result<bool, NoMemory> {
        let opened = self.stepper.is_open();
        let request = read_kept(alloc, opened, line, &mut self.scratch)?;
        Ok(is_changing(&request.line))
    }

    fn set_keeping(&mut self, keeps: bool) {
        self.keeps = keeps;
    }

    fn is_settled(&self) -> bool {
        self.stepper.is_open()
    }

    fn mark_behind(&self, alloc: Global, lines: &[u8]) -> Result<Vec<u8>, AllocError> {
        self.sums.mark_behind(alloc, lines)
    }
}
