ghost use Rattle.std.specs.Prelude.{◌≡◌, IfOk, string_bytes};
ghost use Rattle.snap_call.specs.declared.reply.Reply.TheVariants as replies;
ghost use Rattle.snap_script.specs.Answers.{answer_data, answer_line, answer_told, node_data, quota_data};
ghost use Rattle.snap_script.specs.declared.answer.Answer.TheVariants as answers;

use crate::batch::batch_done;
use crate::fault::Field;
use crate::refused::Refused;
use crate::restore::{RestoreRefusal, not_restored, saved};
use crate::unknown::FieldRule;
use crate::values::{bad_config, jobs, quotas, refusal, reply, report, seen};
use snap_call::{ConfigField, Refusal, Reply};
use snap_diff::Change;
use snap_history::EntryInfo;
use snap_json::{Token, Writer};
use snap_layer::Bytes;
use snap_lease::LeaseInfo;
use snap_merge::FsError;
use snap_path::{Name, Path};
use snap_pieces::Line as SavedLine;
use snap_record::{Kind, Sequence, Text};
use snap_usage::Usage;
use snap_values::{ToJson, member, only, pair};
use std::alloc::{AllocError, Global};

/// What a snapshot shows at a path.
#[derive(Drop)]
pub enum Shown {
    /// A directory.
    Dir {
        mode: u32,
    },
    /// A regular file, and how many bytes it has.
    File {
        mode: u32,
        size: u64,
    },
    /// A regular file whose size alone is kept, with its digest, if there is one.
    Sized {
        mode: u32,
        size: u64,
        digest: Option<Bytes>,
    },
    /// A symlink. Its target is null in the answer where it isn't UTF-8, which no script makes.
    Symlink {
        target: Bytes,
    },
}

/// A snapshot as one of the forest of its namespace.
#[derive(Drop)]
pub struct TreeNode {
    pub key: Text,
    pub kind: Kind,
    pub id: u32,
    /// What the namespace is charged for it alone.
    pub usage: Usage,
    /// The key of its parent; empty where it has none.
    pub parent: Text,
    /// How many snapshots of the namespace stand on it.
    pub children: u64,
}

impl ToJson for TreeNode {
    ghost value = { node_data };

    fn write(&self, alloc: Global, out: &mut Writer) -> Result<(), AllocError> {
        out.token(Token::BeginObject)?;
        member(alloc, out, "children", &self.children)?;
        member(alloc, out, "id", &self.id)?;
        member(alloc, out, "key", &self.key)?;
        member(alloc, out, "kind", &self.kind.as_str())?;
        member(alloc, out, "parent", &self.parent)?;
        member(alloc, out, "usage", &self.usage)?;
        out.token(Token::EndObject)
    }
}

/// What a namespace may take and what it takes, in blocks of 4096 bytes and inodes.
#[derive(Clone, Copy)]
pub struct QuotaInfo {
    pub limit: Usage,
    /// What is charged: what the committed snapshots are charged, and the active ones.
    pub charged: Usage,
    /// What the committed snapshots are charged.
    pub committed: Usage,
    /// What the active snapshots are charged.
    pub active: Usage,
    /// What of that their layers don't take.
    pub spare: Usage,
    /// What the limit leaves.
    pub free: Usage,
}

impl ToJson for QuotaInfo {
    ghost value = { quota_data };

    fn write(&self, alloc: Global, out: &mut Writer) -> Result<(), AllocError> {
        out.token(Token::BeginObject)?;
        member(alloc, out, "charged", &self.charged)?;
        member(alloc, out, "committed", &self.committed)?;
        member(alloc, out, "free", &self.free)?;
        member(alloc, out, "limit", &self.limit)?;
        member(alloc, out, "open", &self.active)?;
        member(alloc, out, "spare", &self.spare)?;
        out.token(Token::EndObject)
    }
}

/// An entry of a round.
#[derive(Drop)]
pub struct JournalEntry {
    pub entry: EntryInfo,
    /// The name of the namespace that its call names, or else of that of the snapshot that it is on, where the entries
    /// of all namespaces are told.
    pub namespace: Option<Text>,
    /// The line of a script that makes its call, where that is asked for.
    pub line: Option<Text>,
}

/// Why an operation of a batch was refused.
#[derive(Clone, Copy)]
pub struct RefusedOperation {
    /// The operation's number in its batch, from 1.
    pub number: u64,
    pub why: Refused,
    /// The field of the operation that the refusal is about, where that is told.
    pub of: Option<Field>,
}

/// What a line of a script is answered, and the lines of a script of jobs together.
pub enum Answer {
    /// What the store replies to a call, each reply with members of its own:
    ///
    /// - `Prepared` and `Viewed`: the snapshot's id, for the first its slot, and its ancestors' ids, nearest
    ///   first: `{"chain":[],"id":1,"slot":0}`, `{"chain":[1],"id":2}`
    /// - `Charged`: what the snapshot is charged afterwards: `{"share":[2,2]}`
    /// - `Committed`: the snapshot's id and usage: `{"id":1,"usage":[4,3]}`
    /// - `Discarded` and `Removed`: what the snapshot was charged: `{"freed":[1,1]}`
    /// - `Info`: a snapshot's info: `{"info":{..}}`
    /// - `Usage`: what a snapshot is charged: `{"usage":[4,3]}`
    /// - `Mounts`: the mounts that show a snapshot:
    ///   `{"mounts":[{"options":["rw","rbind"],"source":"/r/snapshots/1/fs","type":"bind"}]}`
    /// - `Page`: the infos of the snapshots that a walk gives: `{"infos":[{..},{..}]}`
    /// - `Swept`: what the snapshots were charged that a sweep took away, how many leases went, and the keys of
    ///   these snapshots in byte order: `{"freed":[2,2],"leases":1,"removed":["c"]}`
    /// - `Refused`: `{"error":"NotFound","from":"book"}`, over the limit with what is free,
    ///   `{"error":"OverLimit","free":[5,0],"from":"book"}`
    /// - any other: `{"ok":true}`. `Done` also stands for a store that was opened and a round that was begun.
    Reply(Reply),
    /// The number of the session that was opened: `{"session":1}`.
    Session(u64),
    /// What the snapshot is charged after a trim: `{"share":[2,2]}`.
    Share(Usage),
    /// The layer's count and the snapshot's charge after a file command:
    /// `{"count":[2,2],"share":[2,2]}`.
    Changed {
        count: Usage,
        share: Usage,
    },
    /// How many operations of a batch were done, with the layer's count and the snapshot's charge after them:
    /// `{"count":[4,3],"done":2,"share":[9,9]}`; and where one was refused, why and which:
    /// `{"count":[4,3],"done":2,"error":"NotFound","from":"file","op":3,"share":[9,9]}`, over the limit with what is
    /// free, `{"count":[4,3],"done":2,"error":"OverLimit","free":[5,0],"from":"book","op":3,"share":[4,3]}`, and with the
    /// field that it is about, where that is told:
    /// `{"count":[4,3],"done":2,"error":"NotFound","from":"file","of":"path","op":3,"share":[9,9]}`.
    Batch {
        done: u64,
        count: Usage,
        share: Usage,
        refused: Option<RefusedOperation>,
    },
    /// What is seen at a path: `{"seen":null}`, `{"seen":{"dir":493}}`, `{"seen":{"file":420,"size":5000}}`,
    /// `{"seen":{"digest":"sha256:ab","file":493,"size":5000000}}`, with null where nobody knows the digest, and
    /// `{"seen":{"symlink":"d"}}`.
    Seen(Option<Shown>),
    /// The names in a directory, in byte order: `{"names":["x"]}`.
    Names(Sequence<Name>),
    /// A file's first bytes, in lower hexadecimal, and how many it has: `{"head":"6869","size":2}`.
    Head {
        head: Bytes,
        size: u64,
    },
    /// A part of a file's bytes, in lower hexadecimal, and how many the file has: `{"bytes":"69","size":2}`.
    Part {
        bytes: Bytes,
        size: u64,
    },
    /// The size of a file whose bytes aren't kept, and its digest or null: `{"digest":"sha256:ab","size":5000000}`.
    Known {
        size: u64,
        digest: Option<Bytes>,
    },
    /// The path that another leads to: `{"path":"/d/x"}`.
    Path(Path),
    /// What is taken at and below a path: `{"blocks":4,"inodes":3}`.
    Taken(Usage),
    /// What namespaces may take and what they take:
    /// `{"quota":{"a":{"charged":[5,4],"committed":[4,3],"free":[95,96],"limit":[100,100],"open":[1,1],"spare":[0,0]}}}`.
    Quota(Sequence<(Text, QuotaInfo)>),
    /// The leases of a namespace, in the order in which they were created, or one of them, without `until` where it
    /// has no last moment: `{"leases":[{"lease":"l","names":["c","d"],"until":7}]}`.
    Leases(Sequence<LeaseInfo>),
    /// The snapshots of a namespace, in byte order of their keys:
    /// `{"tree":[{"children":0,"id":1,"key":"k","kind":"Active","parent":"","usage":[1,1]}]}`.
    Tree(Sequence<TreeNode>),
    /// What a snapshot's layer changes, in order of the paths:
    /// `{"changes":[{"change":"added","path":"/x"}]}`.
    Diff(Sequence<Change>),
    /// The round's entries of a namespace, each with what the namespace is charged after it:
    /// `{"journal":[{"call":"prepare","charge":[1,1],"id":1,"key":"k","number":2,"session":0}]}`, or all, each with
    /// its namespace in place of the charge, `"ns":"a"`, if it has one. Where it was refused it has the refusal's name,
    /// `"refused":"NotFound"`, and where all is asked for the line that makes its call,
    /// `"line":"{\"do\":\"prepare\",\"key\":\"k\",\"labels\":{},\"ns\":\"a\",\"parent\":\"\",\"s\":0}"`.
    Journal(Sequence<JournalEntry>),
    /// The journal's entries, the open snapshots, the records, and the total of each namespace:
    /// `{"entries":8,"open":0,"records":1,"totals":{"a":[4,3]}}`.
    Report {
        entries: u64,
        actives: u64,
        records: u64,
        totals: Sequence<(Text, Usage)>,
    },
    /// How many jobs were committed, how many were discarded as they asked, how many ended otherwise, and the
    /// total of each namespace: `{"committed":16,"discarded":16,"refused":0,"totals":{"a":[32,32]}}`.
    Jobs {
        committed: u64,
        discarded: u64,
        refused: u64,
        totals: Sequence<(Text, Usage)>,
    },
    /// Lines of a saved store, and how many of its lines have come, where more follow:
    /// `{"lines":[{"do":"restore","piece":"end"}],"next":1024}`.
    Saved {
        lines: Sequence<SavedLine>,
        next: Option<u64>,
    },
    /// A line of a saved store isn't taken, or the store of such lines isn't opened:
    /// `{"error":"BadRestore","from":"restore","why":"snapshot 3: NotFound"}`.
    BadRestore(RestoreRefusal),
    /// A store was refused for a malformed field of its `open`, the first such in the order of [`ConfigField`]:
    /// `{"error":"BadArgument","field":"slots","from":"book"}`.
    BadConfig(ConfigField),
    /// A file operation failed: `{"error":"Exists","from":"file"}`.
    Failed(FsError),
    /// No such session was opened: `{"error":"NoSession","from":"world"}`.
    NoSession,
    /// Nobody holds such a snapshot, or it is sealed: `{"error":"NoHand","from":"world"}`.
    NoHand,
    /// A snapshot is open, so no round can be begun: `{"error":"StillOut","from":"world"}`.
    StillOut,
    /// A command was refused, as one of those above says, with the field that the refusal is about, where that is told:
    /// `{"error":"NotFound","from":"book","of":"parent"}`.
    Refused {
        why: Refused,
        of: Option<Field>,
    },
}

// By hand: a derived one is proved anew, part by part, wherever a value is let go.
impl Drop for Answer {
    fn drop(self) {
        match self {
            Answer::Reply(_) => {}
            Answer::Session(_) => {}
            Answer::Share(_) => {}
            Answer::Changed { count: _, share: _ } => {}
            Answer::Batch {
                done: _,
                count: _,
                share: _,
                refused: _,
            } => {}
            Answer::Seen(_) => {}
            Answer::Names(_) => {}
            Answer::Head { head: _, size: _ } => {}
            Answer::Part { bytes: _, size: _ } => {}
            Answer::Known { size: _, digest: _ } => {}
            Answer::Path(_) => {}
            Answer::Taken(_) => {}
            Answer::Quota(_) => {}
            Answer::Leases(_) => {}
            Answer::Tree(_) => {}
            Answer::Diff(_) => {}
            Answer::Journal(_) => {}
            Answer::Report {
                entries: _,
                actives: _,
                records: _,
                totals: _,
            } => {}
            Answer::Jobs {
                committed: _,
                discarded: _,
                refused: _,
                totals: _,
            } => {}
            Answer::Saved { lines: _, next: _ } => {}
            Answer::BadRestore(_) => {}
            Answer::BadConfig(_) => {}
            Answer::Failed(_) => {}
            Answer::NoSession => {}
            Answer::NoHand => {}
            Answer::StillOut => {}
            Answer::Refused { why: _, of: _ } => {}
        }
    }
}

impl Answer {
    /// A call was refused: the reply that says why.
    pub fn refused(why: Refusal) -> Answer
        ensures { result ≡ answers.Reply (replies.Refused why) }
    {
        Answer::Reply(Reply::Refused(why))
    }

    /// The answer as the rule tells it: where any field may stand in a line, a refusal doesn't name the field that it
    /// is about. Takes no memory.
    pub fn told(self, rule: FieldRule) -> Answer
        ensures { result ≡ answer_told rule self }
    {
        match rule {
            FieldRule::Any => match &self {
                Answer::BadConfig(_) => Answer::refused(Refusal::BadArgument),
                Answer::Refused { why, of: _ } => Answer::Refused {
                    why: *why,
                    of: None,
                },
                Answer::Batch {
                    done,
                    count,
                    share,
                    refused: Some(RefusedOperation { number, why, of: _ }),
                } => Answer::Batch {
                    done: *done,
                    count: *count,
                    share: *share,
                    refused: Some(RefusedOperation {
                        number: *number,
                        why: *why,
                        of: None,
                    }),
                },
                _ => self,
            },
            FieldRule::Known | FieldRule::KnownAndId => self,
        }
    }

    /// The line of the answer: compact JSON, the keys of each object in byte order, texts escaped as
    /// `serde_json` escapes them, and a line feed. Its cost and its memory grow with the line.
    #[tactic(auto, unfolding(crate::specs::Answers::answer_line))]
    pub fn line(&self, alloc: Global) -> Result<String, AllocError>
        ensures { IfOk result (λ s. string_bytes s ≡ answer_line self.now) }
    {
        let mut out = Writer::new(alloc)?;
        self.write(alloc, &mut out)?;
        let mut line = out.finish();
        line.push('\n')?;
        Ok(line)
    }
}

impl ToJson for Answer {
    ghost value = { answer_data };

    fn write(&self, alloc: Global, out: &mut Writer) -> Result<(), AllocError> {
        match self {
            Answer::Reply(own) => reply(alloc, out, own),
            Answer::Session(number) => only(alloc, out, "session", number),
            Answer::Share(amount) => only(alloc, out, "share", amount),
            Answer::Changed { count, share } => pair(alloc, out, "count", count, "share", share),
            Answer::Batch {
                done,
                count,
                share,
                refused,
            } => batch_done(alloc, out, *done, *count, *share, *refused),
            Answer::Seen(shown) => seen(alloc, out, shown),
            Answer::Names(own) => only(alloc, out, "names", own),
            Answer::Head { head, size } => {
                let head = hex::encode(alloc, head.as_slice())?;
                pair(alloc, out, "head", &head.as_str(), "size", size)
            }
            Answer::Part { bytes, size } => {
                let bytes = hex::encode(alloc, bytes.as_slice())?;
                pair(alloc, out, "bytes", &bytes.as_str(), "size", size)
            }
            Answer::Known { size, digest } => { pair(alloc, out, "digest", digest, "size", size) }
            Answer::Path(own) => only(alloc, out, "path", &own.as_str()),
            Answer::Taken(Usage { blocks, inodes }) => {
                pair(alloc, out, "blocks", blocks, "inodes", inodes)
            }
            Answer::Quota(found) => quotas(alloc, out, found.as_slice()),
            Answer::Leases(leases) => only(alloc, out, "leases", leases),
            Answer::Tree(nodes) => only(alloc, out, "tree", nodes),
            Answer::Diff(changes) => only(alloc, out, "changes", changes),
            Answer::Journal(entries) => only(alloc, out, "journal", entries),
            Answer::Report {
                entries,
                actives,
                records,
                totals,
            } => report(alloc, out, *entries, *actives, *records, totals.as_slice()),
            Answer::Jobs {
                committed,
                discarded,
                refused,
                totals,
            } => jobs(
                alloc,
                out,
                *committed,
                *discarded,
                *refused,
                totals.as_slice(),
            ),
            Answer::Saved { lines, next } => saved(alloc, out, lines.as_slice(), *next),
            Answer::BadConfig(field) => bad_config(alloc, out, *field),
            Answer::BadRestore(why) => not_restored(alloc, out, *why),
            Answer::Failed(own) => refusal(alloc, out, Refused::File(*own), None),
            Answer::NoSession => refusal(alloc, out, Refused::NoSession, None),
            Answer::NoHand => refusal(alloc, out, Refused::NoHand, None),
            Answer::StillOut => refusal(alloc, out, Refused::StillOut, None),
            Answer::Refused { why, of } => refusal(alloc, out, *why, *of),
        }
    }
}
