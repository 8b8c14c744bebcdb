//! A server that carries out the lines of a log.
ghost use Rattle.std.specs.Prelude.{◌≡◌};
ghost use Rattle.snap_session.specs.Resumed.{resumed_kept};

use crate::kept::KeptServer;
use snap_ledger::StoreName;
use snap_lines::TakeLine;
use snap_marks::is_continued;
use snap_script::ReadError;
use std::alloc::Global;
use std::marker::Model;

/// A [`KeptServer`] that carries out the lines of a log. Here alone sums go on from a mark that says so: where a client
/// sends one, it is a mark that doesn't agree. Contracts see the server.
#[derive(Drop)]
pub struct Resuming<N: StoreName> {
    server: KeptServer<N>,
}

impl<N: StoreName> Model for Resuming<N> {
    ghost use Rattle.snap_session.specs.Kept.{KeptValue};

    ghost Value = { KeptValue };

    ghost view = { λ s. s.server };
}

impl<N: StoreName> Resuming<N> {
    /// By this server. Takes no memory.
    pub fn new(server: KeptServer<N>) -> Resuming<N>
        ensures { result ≡ server }
    {
        Resuming { server }
    }

    /// The server, lent. Takes no memory.
    pub fn server(&self) -> &KeptServer<N>
        ensures { result.now ≡ self.now }
    {
        &self.server
    }

    /// The server. Takes no memory.
    pub fn into_server(self) -> KeptServer<N>
        ensures { result ≡ self }
    {
        let Resuming { server } = self;
        server
    }
}

/// A line is carried out by the server. From a mark by which sums go on they do.
impl<N: StoreName> TakeLine for Resuming<N> {
    ghost effect = { resumed_kept };

    #[tactic(auto, unfolding(crate::specs::Resumed::resumed_kept))]
    fn take_line(&mut self, alloc: Global, line: &[u8]) -> Result<Option<String>, ReadError> {
        let mut sums = *self.server.sums();
        let text = self.server.take_line(alloc, line)?;
        if is_continued(line) {
            sums.continue_from(line);
            self.server.set_sums(sums);
        }
        Ok(text)
    }
}
