ghost use Rattle.std.specs.Prelude.{◌≡◌};
ghost use Rattle.snap_script.specs.Refusals.{free_at_refusal, refusal_in_answer, refused_from, refused_name};

use crate::answer::Answer;
use crate::restore::RestoreRefusal;
use crate::values::error_name;
use snap_call::{Refusal, Reply};
use snap_merge::FsError;
use snap_usage::Usage;
use snap_values::refusal_name;

/// Why a command was refused.
#[derive(Clone, Copy, Debug, PartialEq, Eq)]
pub enum Refused {
    /// The store refuses the call.
    Book(Refusal),
    /// The file operation or the lookup has this error.
    File(FsError),
    /// The session isn't open.
    NoSession,
    /// The snapshot is sealed.
    NoHand,
    /// A snapshot is active, so no new round begins.
    StillOut,
    /// A line of a saved store isn't taken, or the store of such lines isn't opened.
    BadRestore(RestoreRefusal),
}

impl Refused {
    /// The name of the refusal, as its answer has it. Takes no memory.
    pub fn name(self) -> &'static str
        ensures { result.now ≡ refused_name self }
    {
        match self {
            Refused::Book(why) => refusal_name(why),
            Refused::File(error) => error_name(error),
            Refused::NoSession => "NoSession",
            Refused::NoHand => "NoHand",
            Refused::StillOut => "StillOut",
            Refused::BadRestore(_) => "BadRestore",
        }
    }

    /// What the namespace has free, where the call was over its limit.
    pub(crate) fn free(self) -> Option<Usage>
        ensures { result ≡ free_at_refusal self }
    {
        match self {
            Refused::Book(
                Refusal::OverLimit {
                    free_blocks: blocks,
                    free_inodes: inodes,
                },
            ) => Some(Usage { blocks, inodes }),
            Refused::Book(_)
            | Refused::File(_)
            | Refused::NoSession
            | Refused::NoHand
            | Refused::StillOut
            | Refused::BadRestore(_) => None,
        }
    }

    /// Where the refusal is from, as its answer has it.
    pub(crate) fn from(self) -> &'static str
        ensures { result.now ≡ refused_from self }
    {
        match self {
            Refused::Book(_) => "book",
            Refused::File(_) => "file",
            Refused::NoSession | Refused::NoHand | Refused::StillOut => "world",
            Refused::BadRestore(_) => "restore",
        }
    }
}

impl Answer {
    /// Why the command was refused, where the answer says so. Takes no memory.
    pub fn refusal(&self) -> Option<Refused>
        ensures { result ≡ refusal_in_answer self.now }
    {
        match self {
            Answer::Reply(Reply::Refused(why)) => Some(Refused::Book(*why)),
            Answer::BadConfig(_) => Some(Refused::Book(Refusal::BadArgument)),
            Answer::Failed(error) => Some(Refused::File(*error)),
            Answer::NoSession => Some(Refused::NoSession),
            Answer::NoHand => Some(Refused::NoHand),
            Answer::StillOut => Some(Refused::StillOut),
            Answer::BadRestore(why) => Some(Refused::BadRestore(*why)),
            Answer::Refused { why, of: _ } => Some(*why),
            Answer::Batch {
                refused: Some(operation),
                ..
            } => Some(operation.why),
            Answer::Reply(_)
            | Answer::Session(_)
            | Answer::Share(_)
            | Answer::Changed { .. }
            | Answer::Batch { refused: None, .. }
            | Answer::Seen(_)
            | Answer::Names(_)
            | Answer::Head { .. }
            | Answer::Part { .. }
            | Answer::Known { .. }
            | Answer::Path(_)
            | Answer::Taken(_)
            | Answer::Quota(_)
            | Answer::Leases(_)
            | Answer::Tree(_)
            | Answer::Diff(_)
            | Answer::Journal(_)
            | Answer::Report { .. }
            | Answer::Jobs { .. }
            | Answer::Saved { .. } => None,
        }
    }
}
