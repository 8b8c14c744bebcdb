// The lines of a saved store, in pages.
ghost use Rattle.std.specs.Prelude.{◌≡◌, IfOk};
ghost use Rattle.snap_book.specs.Round.{roll_answer};
ghost use Rattle.snap_checkpoint.specs.Lines.{none_left};
ghost use Rattle.snap_session.specs.Pages.{first_page, no_pages, page_answer, page_told, refused_page, taken, taken_within};

use crate::room::{PAGE_ROOM, room_after};
use snap_call::Refusal;
use snap_checkpoint::StoreLines;
use snap_ledger::StoreName;
use snap_pieces::Line as SavedLine;
use snap_record::Sequence;
use snap_script::{Answer, Field, Refused};
use snap_world::{NoMemory, World};
use std::alloc::{AllocError, Global};
use std::marker::Model;

// The most lines of a page.
const MOST_LINES: u64 = 1024;

// How many lines have come, of all stores that were saved, and those that are left of the last one.
pub(crate) struct Pages {
    at: u64,
    lines: Option<StoreLines>,
}

impl Drop for Pages {
    fn drop(self) {
        let Pages { at: _, lines: _ } = self;
    }
}

impl Model for Pages {
    ghost use Rattle.std.specs.Prelude.{[], unwrap_or};
    ghost use Rattle.snap_session.specs.Pages.{PagesValue};

    ghost Value = { PagesValue };

    ghost view = { λ p. record { at = p.at; lines = unwrap_or p.lines [] } };
}

// The page was asked for as it can't be.
fn refused_page(field: Field) -> Answer
    ensures { result ≡ refused_page field }
{
    Answer::Refused {
        why: Refused::Book(Refusal::BadArgument),
        of: Some(field),
    }
}

// The next of these lines, at most `most`, up to the one with which no room is left; and how many lines have come then.
fn take_within(
    alloc: Global,
    at: &mut u64,
    lines: &mut StoreLines,
    most: u64,
) -> Result<Sequence<SavedLine>, AllocError>
    ensures { IfOk result (λ page. taken_within 1048576 most at.old lines.old ≡ (page, record { at = at.new; lines = lines.new })) }
{
    let mut page = Sequence::new(alloc);
    let mut room = PAGE_ROOM;
    for _ in 0..most {
        let Some(line) = lines.next_line()? else {
            return Ok(page);
        };
        *at = at.saturating_add(1);
        room = room_after(room, &line);
        page.push(line)?;
        if room == 0 {
            return Ok(page);
        }
    }
    Ok(page)
}

impl Pages {
    // Before the first page. Takes no memory.
    pub(crate) fn new() -> Pages
        ensures { result ≡ no_pages }
    {
        Pages { at: 0, lines: None }
    }

    // Whether no line is left.
    fn is_empty(&self) -> bool
        ensures { result ≡ none_left self.now.lines }
    {
        match &self.lines {
            Some(lines) => lines.is_empty(),
            None => true,
        }
    }

    // The next lines, at most `most`, up to the one with which no room is left.
    fn take_lines(&mut self, alloc: Global, most: u64) -> Result<Sequence<SavedLine>, AllocError>
        ensures { IfOk result (λ page. taken most self.old ≡ (page, self.new)) }
    {
        match &mut self.lines {
            Some(lines) => take_within(alloc, &mut self.at, lines, most),
            None => Ok(Sequence::new(alloc)),
        }
    }

    // The next page, and how many lines have come, where more follow.
    fn next_page(&mut self, alloc: Global, most: u64) -> Result<Answer, AllocError>
        ensures { IfOk result (λ answer. page_answer (taken most self.old) ≡ (self.new, answer)) }
    {
        let lines = self.take_lines(alloc, most)?;
        let next = if self.is_empty() { None } else { Some(self.at) };
        Ok(Answer::Saved { lines, next })
    }

    // The first page of the world as it is now.
    fn first_page<N: StoreName>(
        &mut self,
        alloc: Global,
        world: &World<N>,
        most: u64,
    ) -> Result<Answer, NoMemory>
        ensures { IfOk result (λ answer. first_page most world.now self.old (roll_answer world.now.state world.now.limit) ≡ (self.new, answer)) }
    {
        if let Err(why) = world.test_save() {
            return Ok(Answer::refused(why));
        }
        self.lines = Some(StoreLines::hold(alloc, world.hold(alloc)?)?);
        Ok(self.next_page(alloc, most)?)
    }

    // A page of lines of the world.
    pub(crate) fn take<N: StoreName>(
        &mut self,
        alloc: Global,
        world: &World<N>,
        after: u64,
        most: u64,
    ) -> Result<Answer, NoMemory>
        ensures { IfOk result (λ answer. page_told world.now self.old after most ≡ (self.new, answer)) }
    {
        if most == 0 || MOST_LINES < most {
            return Ok(refused_page(Field::Most));
        }
        if after == 0 {
            return self.first_page(alloc, world, most);
        }
        if self.at != after || self.is_empty() {
            return Ok(refused_page(Field::After));
        }
        Ok(self.next_page(alloc, most)?)
    }
}
