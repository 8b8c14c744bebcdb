ghost use Rattle.std.specs.Prelude.{◌≡◌, IfOk, string_bytes};
ghost use Rattle.snap_script.specs.Responses.{id_data, response_data, response_line};

use crate::answer::Answer;
use crate::fault::Fault;
use crate::request::Id;
use snap_json::Writer;
use snap_values::{ToJson, only, pair};
use std::alloc::{AllocError, Global};

/// What a line is answered where each has an answer.
#[derive(Drop)]
pub enum Response {
    /// The answer of a command.
    Answer(Answer),
    /// The line, by its number from 1, is no command: `{"fault":"not JSON","line":3}`.
    Fault { fault: Fault, line: u64 },
    /// The line is empty: `{"empty":true}`.
    Empty,
    /// The line would have changed the store, and the log could not keep it: `{"error":"NotKept","from":"log"}`.
    /// Nothing was changed, and the line may be sent again.
    NotKept,
}

/// The id as the client wrote it.
impl ToJson for Id {
    ghost value = { id_data };

    fn write(&self, alloc: Global, out: &mut Writer) -> Result<(), AllocError> {
        match self {
            Id::Text(text) => text.write(alloc, out),
            Id::Number(number) => number.write(alloc, out),
        }
    }
}

impl ToJson for Response {
    ghost value = { response_data };

    fn write(&self, alloc: Global, out: &mut Writer) -> Result<(), AllocError> {
        match self {
            Response::Answer(answer) => answer.write(alloc, out),
            Response::Fault { fault, line } => {
                let words = format!(in alloc; "{fault}")?;
                pair(alloc, out, "fault", &words.as_str(), "line", line)
            }
            Response::Empty => only(alloc, out, "empty", &true),
            Response::NotKept => pair(alloc, out, "error", &"NotKept", "from", &"log"),
        }
    }
}

impl Response {
    /// The line of the response to a line that has this id, or none: compact JSON, the keys of each object in byte
    /// order, texts escaped as `serde_json` escapes them, and a line feed. With an id the response stands within an
    /// object that has it: `{"answer":{"ok":true},"id":7}`. Its cost and its memory grow with the line.
    #[tactic(auto, unfolding(crate::specs::Responses::response_line))]
    pub fn line(&self, alloc: Global, id: &Option<Id>) -> Result<String, AllocError>
        ensures { IfOk result (λ s. string_bytes s ≡ response_line id.now self.now) }
    {
        let mut out = Writer::new(alloc)?;
        match id {
            None => self.write(alloc, &mut out)?,
            Some(id) => pair(alloc, &mut out, "answer", self, "id", id)?,
        }
        let mut line = out.finish();
        line.push('\n')?;
        Ok(line)
    }
}
