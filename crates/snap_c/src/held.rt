// What stands behind a handle, and what is done with it.
ghost use Rattle.std.specs.Prelude.{◌≡◌, IfSome};
ghost use Rattle.snap_c.specs.Held.{Worked, unserved};

use crate::loose::Loose;
use snap_ledger::{NewTable, StoreName};
use snap_lines::TakeLine;
use snap_session::Server;
use std::alloc::Global;
use std::marker::Model;
use std::mem;

// What is to be done with what is held.
#[derive(Drop)]
pub(crate) enum Work<'a> {
    // Carry out the next line, which stands here without its line feed.
    Line(Global, &'a [u8]),
    // Keep this answer for the one that is kept.
    Swap(String),
}

// What came of it.
#[derive(Drop)]
pub(crate) enum Told {
    Text(String),
    // What is held is good for nothing any more.
    OutOfMemory,
}

// A server, and the answer that is kept. It is public for its proof that it may go to another thread.
#[derive(Drop)]
pub struct Held<N: StoreName> {
    server: Server<N>,
    answer: String,
}

impl<N: StoreName> Model for Held<N> {
    ghost use Rattle.std.specs.Prelude.{string_bytes};
    ghost use Rattle.snap_c.specs.Held.{HeldValue};

    ghost Value = { HeldValue };

    ghost view = { λ h. record { server = h.server; answer = string_bytes h.answer } };
}

impl<N: StoreName> Held<N> {
    // In a block of its own, or none where memory was refused.
    pub(crate) fn boxed(alloc: Global, table: NewTable) -> Option<Loose<Held<N>, Global>>
        requires { table ≡ N.table }
        ensures { IfSome result (λ held. held.value ≡ unserved) }
    {
        let held = Held {
            server: Server::new(alloc, table),
            answer: String::new(alloc),
        };
        match Box::new(alloc, held) {
            Ok(held) => Some(Loose::of(held)),
            Err(_) => None,
        }
    }

    pub(crate) fn work(&mut self, work: Work<'_>) -> Told
        ensures { Worked self.old work.entry self.new result }
    {
        match work {
            Work::Line(alloc, line) => match self.server.take_line(alloc, line) {
                Ok(Some(text)) => Told::Text(text),
                Ok(None) => Told::Text(String::new(alloc)),
                Err(_) => Told::OutOfMemory,
            },
            Work::Swap(answer) => Told::Text(mem::replace(&mut self.answer, answer)),
        }
    }
}

pub(crate) fn let_go<N: StoreName>(held: Loose<Held<N>, Global>) {
    let _held = held.into_box();
}
