ghost use Rattle.std.specs.Prelude.{◌≡◌};
ghost use Rattle.snap_call.specs.Questions.{asking};

use crate::call::Call;
use snap_record::{Filter, Text};

/// A call that changes nothing, asked without an entry in the journal.
#[derive(Drop)]
pub enum Question {
    /// Asks for a snapshot's info (containerd's `Stat`).
    Stat {
        namespace: Text,
        key: Text,
    },
    /// Asks what a snapshot is charged (containerd's `Usage`).
    Usage {
        namespace: Text,
        key: Text,
    },
    /// Asks for the mounts that show a snapshot (containerd's `Mounts`).
    Mounts {
        namespace: Text,
        key: Text,
    },
    /// Asks for the infos of the snapshots of a namespace whose keys come after a text and that have every part of a
    /// filter, at most `most` (containerd's `Walk`).
    Walk {
        namespace: Text,
        after: Text,
        most: u64,
        asked: Filter,
    },
}

impl Question {
    /// The call that asks the same and leaves an entry. Takes no memory. The cost is constant.
    pub fn into_call(self) -> Call
        ensures { result ≡ asking self }
    {
        match self {
            Question::Stat { namespace, key } => Call::Stat { namespace, key },
            Question::Usage { namespace, key } => Call::Usage { namespace, key },
            Question::Mounts { namespace, key } => Call::Mounts { namespace, key },
            Question::Walk {
                namespace,
                after,
                most,
                asked,
            } => Call::Walk {
                namespace,
                after,
                most,
                asked,
            },
        }
    }
}
