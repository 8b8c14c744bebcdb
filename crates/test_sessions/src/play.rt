// The commands of a round.
use crate::lines::write_answer;
use crate::refused::Refused;
use crate::round::Round;
use crate::stop::Stop;
use snap_book::Refusal;
use snap_call::limits::MAX_JOURNAL;
use snap_script::{Answer, Command, FieldRule, Line, Scratch, read_line};
use snap_store::RoundName;
use std::io::Write;
use std::str::Lines;
use std::sync::Wait;

impl<'a, N: RoundName, R: Wait> Round<'a, N, R> {
    // What a command on a snapshot or a session is answered.
    fn do_command(&mut self, n: u64, command: &Command<'_>) -> Result<Answer, Refused> {
        match command {
            Command::Session => Ok(Answer::Session(self.open_session()?)),
            Command::Call(call) => Ok(Answer::Reply(self.reply(n, call)?)),
            Command::Ask(question) => Ok(Answer::Reply(self.store.answer(self.rt, question)?)),
            Command::Charge {
                namespace,
                key,
                need,
                want,
            } => {
                let amounts = Some((*need, *want));
                self.charge(n, namespace.as_str(), key.as_str(), amounts)
            }
            Command::Trim { namespace, key } => {
                self.charge(n, namespace.as_str(), key.as_str(), None)
            }
            Command::Commit {
                namespace,
                key,
                name,
                lease,
                labels,
            } => self.commit(
                n,
                namespace.as_str(),
                key.as_str(),
                name.as_str(),
                lease,
                labels,
            ),
            Command::Discard { namespace, key } => {
                self.discard(n, namespace.as_str(), key.as_str())
            }
            Command::File {
                namespace,
                key,
                operation,
                extra,
            } => self.file(n, namespace.as_str(), key.as_str(), operation, *extra),
            Command::Lookup {
                namespace,
                key,
                lookup,
                path,
                peek: _,
            } => self.lookup(namespace.as_str(), key.as_str(), *lookup, path),
            // `answer` takes the others, and no line of an open store opens one.
            _ => Err(Refused::Book(Refusal::BadArgument)),
        }
    }

    // What a command is answered: nothing where the round ends for the next one, nor where it asks for what a store
    // doesn't lend, nor on a snapshot that the script doesn't hold. No round ends as long as a snapshot is open.
    fn answer(&mut self, n: u64, command: &Command<'_>) -> Result<Option<Answer>, Stop> {
        let refused = match command {
            Command::Reopen { journal } => {
                if !self.hands.is_empty() {
                    Refused::StillOut
                } else if *journal > MAX_JOURNAL {
                    Refused::Book(Refusal::BadArgument)
                } else {
                    self.next = Some(*journal);
                    return Ok(None);
                }
            }
            Command::Lookup { peek: true, .. }
            | Command::Batch { .. }
            | Command::TrySweep { .. }
            | Command::ChainUsage { .. }
            | Command::Quota { .. }
            | Command::Leases { .. }
            | Command::Tree { .. }
            | Command::Diff { .. }
            | Command::Journal { .. }
            | Command::Report
            | Command::Save { .. } => return Ok(None),
            command => match self.do_command(n, command) {
                Ok(answer) => return Ok(Some(answer)),
                Err(refused) => refused,
            },
        };
        refused.answer()
    }

    // What a line is answered.
    fn attempt(&mut self, line: &str) -> Result<Option<Answer>, Stop> {
        match read_line(
            self.alloc,
            line.as_bytes(),
            FieldRule::Any,
            true,
            &mut Scratch::new(self.alloc),
        )? {
            Line::Empty => Ok(None),
            Line::Command { session, command } => self.answer(session, &command),
        }
    }

    // Opens session 0, and carries out the commands of the round, up to the end of the script or of the round. A line
    // to which memory was refused is carried out once more.
    pub(crate) fn play<W: Write>(
        &mut self,
        lines: &mut Lines<'_>,
        output: &mut W,
    ) -> Result<(), Stop> {
        let mut answer = self.first_session()?;
        for _ in 0..u64::MAX {
            if let Some(answer) = &answer {
                write_answer(self.alloc, output, answer)?;
            }
            if self.next.is_some() {
                return Ok(());
            }
            let Some(line) = lines.next() else {
                return Ok(());
            };
            answer = match self.attempt(line) {
                Err(Stop::NoMemory) => self.attempt(line)?,
                answer => answer?,
            };
        }
        Ok(())
    }
}
