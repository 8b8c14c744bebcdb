// What a refusal is about.
ghost use Rattle.std.specs.Prelude.{◌≡◌};
ghost use Rattle.snap_script.specs.About.{about, about_file, commit_subjects, new_subjects, operation_subjects};

use crate::fault::Field;
use crate::refused::Refused;
use snap_call::{Refusal, is_key, is_parent};
use snap_merge::FsError;
use snap_path::limits::{MAX_MODE, MAX_SIZED_BYTES};
use snap_record::Text;
use snap_upper::Op;

/// What the refusals of a command, or of an operation, are about: the field that is the cause of each.
#[derive(Clone, Copy)]
pub struct Subjects {
    /// Of `BadArgument`: the first malformed field.
    pub malformed: Field,
    /// Of `NotFound` and `NotCommitted`.
    pub missing: Field,
    /// Of `AlreadyExists`.
    pub taken: Field,
    /// Of `OverLimit`, where an amount is given.
    pub amount: Option<Field>,
    /// Of a file's `NotFound`, `CrossDevice` and `NotPermitted`.
    pub source: Field,
    /// Of `Invalid`.
    pub invalid: Field,
    /// Of `TooBig`.
    pub big: Field,
    /// Of the other errors of a file.
    pub path: Field,
}

impl Subjects {
    /// Those of a command on the snapshot of a key, or on a path of it.
    pub const OF_KEY: Subjects = Subjects {
        malformed: Field::Key,
        missing: Field::Key,
        taken: Field::Key,
        amount: None,
        source: Field::Path,
        invalid: Field::Path,
        big: Field::Path,
        path: Field::Path,
    };

    /// Those of a new snapshot on a parent. Takes no memory. The cost grows with both texts, up to their limits.
    pub fn of_new(key: &str, parent: &str) -> Subjects
        ensures { result ≡ new_subjects key.now parent.now }
    {
        let malformed = if !is_key(key) {
            Field::Key
        } else if !is_parent(parent) {
            Field::Parent
        } else {
            Field::Labels
        };
        Subjects {
            malformed,
            missing: Field::Parent,
            ..Subjects::OF_KEY
        }
    }

    /// Those of a commit. Takes no memory. The cost grows with both texts, up to their limits.
    pub fn of_commit(name: &str, lease: &Option<Text>) -> Subjects
        ensures { result ≡ commit_subjects name.now lease.now }
    {
        let malformed = match lease {
            _ if !is_key(name) => Field::Name,
            Some(lease) if !is_key(lease.as_str()) => Field::Lease,
            Some(_) | None => Field::Labels,
        };
        Subjects {
            malformed,
            taken: Field::Name,
            ..Subjects::OF_KEY
        }
    }

    /// Those of an operation, where the walks to its paths succeed: one that fails is about its own path. Takes no memory.
    pub fn of_operation(op: &Op) -> Subjects
        ensures { result ≡ operation_subjects op.now }
    {
        let mut own = Subjects::OF_KEY;
        match op {
            Op::Mkdir { .. } | Op::Create { .. } => own.invalid = Field::Mode,
            Op::Put { size, .. } => {
                own.invalid = Field::Mode;
                own.big = if *size > MAX_SIZED_BYTES {
                    Field::Size
                } else {
                    Field::Digest
                };
            }
            Op::Write { offset, .. } => {
                own.big = if *offset == 0 {
                    Field::Text
                } else {
                    Field::Offset
                };
            }
            Op::Truncate { .. } => own.big = Field::Size,
            Op::SetMode { mode, .. } => {
                own.invalid = if *mode > MAX_MODE {
                    Field::Mode
                } else {
                    Field::Path
                };
            }
            Op::Symlink { .. } => {
                own.invalid = Field::Target;
                own.big = Field::Target;
            }
            Op::Link { .. } => {
                own.source = Field::From;
                own.path = Field::To;
            }
            Op::Rename { from, .. } => {
                own.source = Field::From;
                own.invalid = if from.names().is_empty() {
                    Field::From
                } else {
                    Field::To
                };
                own.path = Field::To;
            }
            Op::Unlink { .. } | Op::Rmdir { .. } | Op::Opaque { .. } | Op::Whiteout { .. } => {}
        }
        own
    }

    // The field that an error of a file is about.
    fn about_file(self, error: FsError) -> Option<Field>
        ensures { result ≡ about_file self error }
    {
        match error {
            FsError::NotFound | FsError::CrossDevice | FsError::NotPermitted => Some(self.source),
            FsError::Invalid => Some(self.invalid),
            FsError::TooBig => Some(self.big),
            FsError::BadPath
            | FsError::NotDir
            | FsError::IsDir
            | FsError::Exists
            | FsError::NotEmpty
            | FsError::TooManyLinks => Some(self.path),
            FsError::LayerFull | FsError::NeedsCharge(_) | FsError::OutOfMemory(_) => None,
        }
    }

    /// The field that a refusal is about; none where no field alone is its cause. Takes no memory.
    pub fn about(self, why: Refused) -> Option<Field>
        ensures { result ≡ about self why }
    {
        let why = match why {
            Refused::Book(why) => why,
            Refused::File(error) => return self.about_file(error),
            Refused::NoHand => return Some(Field::Key),
            Refused::NoSession | Refused::StillOut | Refused::BadRestore(_) => return None,
        };
        match why {
            Refusal::BadArgument => Some(self.malformed),
            Refusal::NotFound | Refusal::NotCommitted => Some(self.missing),
            Refusal::AlreadyExists => Some(self.taken),
            Refusal::OverLimit { .. } => self.amount,
            Refusal::NoNamespace | Refusal::NamespaceExists | Refusal::NotEmpty => {
                Some(Field::Namespace)
            }
            Refusal::NotActive | Refusal::HasChildren | Refusal::InUse | Refusal::Leased => {
                Some(Field::Key)
            }
            Refusal::NoLease | Refusal::LeaseExists => Some(Field::Lease),
            Refusal::TooDeep => Some(Field::Parent),
            Refusal::TooManyNamespaces
            | Refusal::TooManyActives
            | Refusal::BelowCharge
            | Refusal::NumbersSpent
            | Refusal::JournalFull
            | Refusal::OutOfMemory(_) => None,
        }
    }
}
