ghost use Rattle.std.specs.Prelude.{◌≡◌, find, map, option_map};
ghost use Rattle.snap_script.specs.Near.{is_near};
ghost use Rattle.snap_script.specs.Words.{near_command, near_file_command, near_file_word, verb_of};

use crate::near::is_near;
use snap_history::CallKind;

/// The commands by their words.
#[derive(Clone, Copy)]
pub(crate) enum Verb {
    Open,
    Reopen,
    Roll,
    /// The word is that of the call in a journal.
    Call(CallKind),
    File(FileVerb),
    Batch,
    Lookup(LookupVerb),
    Quota,
    Leases,
    Tree,
    Diff,
    Journal,
    Report,
    Restore,
    Save,
}

/// The file commands by their words.
#[derive(Clone, Copy)]
pub(crate) enum FileVerb {
    /// At one path.
    At(PathVerb),
    Link,
    Rename,
}

/// The file commands at one path by their words.
#[derive(Clone, Copy)]
pub(crate) enum PathVerb {
    Mkdir,
    Create,
    Put,
    Write,
    Truncate,
    SetMode,
    Symlink,
    Unlink,
    Rmdir,
    Opaque,
    Whiteout,
}

/// The lookups by their words.
#[derive(Clone, Copy)]
pub(crate) enum LookupVerb {
    Look,
    List,
    Read,
    Resolve,
    Usage,
}

/// The commands by their words: those of the calls, as a journal has them, then the others.
const WORDS: [(&str, Verb); 51] = [
    ("session", Verb::Call(CallKind::Session)),
    ("prepare", Verb::Call(CallKind::Prepare)),
    ("view", Verb::Call(CallKind::View)),
    ("charge", Verb::Call(CallKind::Charge)),
    ("trim", Verb::Call(CallKind::Trim)),
    ("commit", Verb::Call(CallKind::Commit)),
    ("discard", Verb::Call(CallKind::Discard)),
    ("remove", Verb::Call(CallKind::Remove)),
    ("stat", Verb::Call(CallKind::Stat)),
    ("update", Verb::Call(CallKind::Update)),
    ("usage", Verb::Call(CallKind::Usage)),
    ("mounts", Verb::Call(CallKind::Mounts)),
    ("walk", Verb::Call(CallKind::Walk)),
    ("limit", Verb::Call(CallKind::Limit)),
    ("namespace_create", Verb::Call(CallKind::NamespaceCreate)),
    ("namespace_remove", Verb::Call(CallKind::NamespaceRemove)),
    ("lease_create", Verb::Call(CallKind::LeaseCreate)),
    ("lease_add", Verb::Call(CallKind::LeaseAdd)),
    ("lease_drop", Verb::Call(CallKind::LeaseDrop)),
    ("lease_release", Verb::Call(CallKind::LeaseRelease)),
    ("sweep", Verb::Call(CallKind::Sweep)),
    ("open", Verb::Open),
    ("reopen", Verb::Reopen),
    ("roll", Verb::Roll),
    ("mkdir", Verb::File(FileVerb::At(PathVerb::Mkdir))),
    ("create", Verb::File(FileVerb::At(PathVerb::Create))),
    ("put", Verb::File(FileVerb::At(PathVerb::Put))),
    ("write", Verb::File(FileVerb::At(PathVerb::Write))),
    ("truncate", Verb::File(FileVerb::At(PathVerb::Truncate))),
    ("setmode", Verb::File(FileVerb::At(PathVerb::SetMode))),
    ("symlink", Verb::File(FileVerb::At(PathVerb::Symlink))),
    ("unlink", Verb::File(FileVerb::At(PathVerb::Unlink))),
    ("rmdir", Verb::File(FileVerb::At(PathVerb::Rmdir))),
    ("opaque", Verb::File(FileVerb::At(PathVerb::Opaque))),
    ("whiteout", Verb::File(FileVerb::At(PathVerb::Whiteout))),
    ("link", Verb::File(FileVerb::Link)),
    ("rename", Verb::File(FileVerb::Rename)),
    ("batch", Verb::Batch),
    ("look", Verb::Lookup(LookupVerb::Look)),
    ("list", Verb::Lookup(LookupVerb::List)),
    ("read", Verb::Lookup(LookupVerb::Read)),
    ("resolve", Verb::Lookup(LookupVerb::Resolve)),
    ("du", Verb::Lookup(LookupVerb::Usage)),
    ("quota", Verb::Quota),
    ("leases", Verb::Leases),
    ("tree", Verb::Tree),
    ("diff", Verb::Diff),
    ("journal", Verb::Journal),
    ("report", Verb::Report),
    ("restore", Verb::Restore),
    ("save", Verb::Save),
];

/// The verb of a word.
pub(crate) fn verb_of(word: &str) -> Option<Verb>
    ensures { result ≡ verb_of word.now }
{
    let mut table: &[(&str, Verb)] = &WORDS;
    while let [entry, rest @ ..] = table {
        if word == entry.0 {
            return Some(entry.1);
        }
        table = rest;
    }
    None
}

/// The first word of a table that is near.
fn near_entry(mut table: &[(&'static str, Verb)], word: &str) -> Option<&'static str>
    ensures { option_map (λ known. known.now) result ≡ find (λ known. is_near known word.now) (map (λ p. p.0.now) table.entry.now) }
{
    while let [entry, rest @ ..] = table {
        if is_near(entry.0.as_bytes(), word.as_bytes()) {
            return Some(entry.0);
        }
        table = rest;
    }
    None
}

/// The first word of a command that is near this one.
pub(crate) fn near_command(word: &str) -> Option<&'static str>
    ensures { option_map (λ known. known.now) result ≡ near_command word.now }
{
    near_entry(&WORDS, word)
}

/// The first word of a file command in a table that is near.
fn near_file_entry(mut table: &[(&'static str, Verb)], word: &str) -> Option<&'static str>
    ensures { option_map (λ known. known.now) result ≡ near_file_word (map (λ p. (p.0.now, p.1)) table.entry.now) word.now }
{
    while let [entry, rest @ ..] = table {
        if matches!(entry.1, Verb::File(_)) && is_near(entry.0.as_bytes(), word.as_bytes()) {
            return Some(entry.0);
        }
        table = rest;
    }
    None
}

/// The first word of a file command that is near this one.
#[tactic(auto, unfolding(crate::specs::Words::near_file_command))]
pub(crate) fn near_file_command(word: &str) -> Option<&'static str>
    ensures { option_map (λ known. known.now) result ≡ near_file_command word.now }
{
    near_file_entry(&WORDS, word)
}
