// What is told of a log or of a saved store.
ghost use Rattle.std.specs.Prelude.{◌≡◌, IfOk, OnOk, string_bytes};
ghost use Rattle.snap_json.specs.Tokens.{with_value};
ghost use Rattle.snap_durable.specs.Told.{found_data, file_kind_word, told_data, told_line};

use crate::holding::{Contents, Holding};
use snap_json::{Token, Writer};
use snap_record::Text;
use snap_values::{ToJson, by_name, maybe, member};
use std::alloc::{AllocError, Global};
use std::fmt;

/// What a file was taken for.
#[derive(Clone, Copy, Debug, PartialEq, Eq)]
pub enum FileKind {
    /// A log.
    Log,
    /// The lines of a saved store.
    Saved,
}

/// What is told of a file.
#[derive(Drop)]
pub struct Told {
    pub kind: FileKind,
    /// Why it isn't whole.
    pub why: Option<Text>,
    /// What the store has, where the file has made one.
    pub contents: Option<Contents<Holding>>,
}

impl FileKind {
    // The word for it.
    fn as_str(&self) -> &'static str
        ensures { result.now ≡ file_kind_word self.now }
    {
        match self {
            FileKind::Log => "log",
            FileKind::Saved => "saved",
        }
    }
}

// Of a file whose lines have made a store.
#[tactic(auto, using(snap_values::proofs::Maps::with_members_maybe))]
fn found(
    alloc: Global,
    out: &mut Writer,
    kind: FileKind,
    why: &Option<Text>,
    contents: &Contents<Holding>,
) -> Result<(), AllocError>
    ensures { OnOk result (out.new ≡ with_value (found_data kind why.now contents.now) out.old) }
{
    out.token(Token::BeginObject)?;
    member(alloc, out, "entries", &contents.entries)?;
    member(alloc, out, "kind", &kind.as_str())?;
    out.token(Token::Key("namespaces"))?;
    by_name(alloc, out, contents.namespaces.as_slice())?;
    member(alloc, out, "whole", &why.is_none())?;
    maybe(alloc, out, "why", why)?;
    out.token(Token::EndObject)
}

/// An object: `kind`, `whole`, which is true where there is no `why`, and `entries` and `namespaces` where there is a
/// store.
impl ToJson for Told {
    ghost value = { told_data };

    #[tactic(auto, using(snap_values::proofs::Maps::with_members_maybe))]
    fn write(&self, alloc: Global, out: &mut Writer) -> Result<(), AllocError> {
        if let Some(contents) = &self.contents {
            return found(alloc, out, self.kind, &self.why, contents);
        }
        out.token(Token::BeginObject)?;
        member(alloc, out, "kind", &self.kind.as_str())?;
        member(alloc, out, "whole", &self.why.is_none())?;
        maybe(alloc, out, "why", &self.why)?;
        out.token(Token::EndObject)
    }
}

impl Told {
    /// A line of compact JSON. Its cost and its memory grow with it.
    #[tactic(auto, unfolding(crate::specs::Told::told_line))]
    pub fn line(&self, alloc: Global) -> Result<String, AllocError>
        ensures { IfOk result (λ text. string_bytes text ≡ told_line self.now) }
    {
        let mut out = Writer::new(alloc)?;
        self.write(alloc, &mut out)?;
        let mut line = out.finish();
        line.push('\n')?;
        Ok(line)
    }
}

// What a store has of a namespace, on a line.
fn write_holding<W: fmt::Write>(
    f: &mut fmt::Formatter<W>,
    name: &Text,
    holding: &Holding,
) -> fmt::Result {
    let Holding {
        charged,
        limit,
        committed,
        active,
        views,
        leases,
    } = holding;
    writeln!(
        f,
        "{:?}: charged {charged} of {limit}; {committed} committed, {active} active, {views} views, {leases} leases",
        name.as_str()
    )
}

// That the file is whole.
fn write_whole<W: fmt::Write>(
    f: &mut fmt::Formatter<W>,
    kind: FileKind,
    contents: &Option<Contents<Holding>>,
) -> fmt::Result {
    match (kind, contents) {
        (FileKind::Log, Some(contents)) => writeln!(
            f,
            "the log is whole: {} entries of its last round",
            contents.entries
        ),
        (FileKind::Log, None) => f.write_str("the log is whole, without a store\n"),
        (FileKind::Saved, _) => f.write_str("the saved store is whole\n"),
    }
}

/// Lines for people: that the file is whole, if it is, and then one for each namespace.
impl fmt::Display for Told {
    fn fmt<W: fmt::Write>(&self, f: &mut fmt::Formatter<W>) -> fmt::Result {
        if self.why.is_none() {
            write_whole(f, self.kind, &self.contents)?;
        }
        let Some(contents) = &self.contents else {
            return Ok(());
        };
        for (name, holding) in contents.namespaces.as_slice() {
            write_holding(f, name, holding)?;
        }
        Ok(())
    }
}
