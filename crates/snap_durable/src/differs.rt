// What is told of the differences of two stores.
ghost use Rattle.std.specs.Prelude.{◌≡◌, IfOk, string_bytes};
ghost use Rattle.serde_json.specs.Data.{string};
ghost use Rattle.snap_durable.specs.Differs.{difference_data, differences_line, space_data};
ghost use Rattle.snap_durable.specs.Fields.{field_word};

use crate::compare::{Differences, Field, SpaceDifference};
use crate::differ::{Difference, Found};
use snap_json::{Token, Writer};
use snap_record::{Sequence, Text};
use snap_values::{ToJson, member, only, pair};
use std::alloc::{AllocError, Global};
use std::fmt;

/// The field's word.
impl ToJson for Field {
    ghost value = { λ field. string (field_word field) };

    fn write(&self, _alloc: Global, out: &mut Writer) -> Result<(), AllocError> {
        out.token(Token::String(self.as_str()))
    }
}

/// The name, and `only`, A or B, or in what both differ.
impl<D: ToJson> ToJson for Difference<D> {
    ghost value = { difference_data D.value };

    fn write(&self, alloc: Global, out: &mut Writer) -> Result<(), AllocError> {
        match &self.found {
            Found::OnlyA => pair(alloc, out, "name", &self.name, "only", &"A"),
            Found::OnlyB => pair(alloc, out, "name", &self.name, "only", &"B"),
            Found::Both(difference) => pair(alloc, out, "differs", difference, "name", &self.name),
        }
    }
}

impl ToJson for SpaceDifference {
    ghost value = { space_data };

    fn write(&self, alloc: Global, out: &mut Writer) -> Result<(), AllocError> {
        out.token(Token::BeginObject)?;
        member(alloc, out, "fields", &self.fields)?;
        member(alloc, out, "leases", &self.leases)?;
        member(alloc, out, "snapshots", &self.snapshots)?;
        out.token(Token::EndObject)
    }
}

impl Differences {
    /// A line of compact JSON. Its cost and its memory grow with it.
    #[tactic(auto, unfolding(crate::specs::Differs::differences_line))]
    pub fn line(&self, alloc: Global) -> Result<String, AllocError>
        ensures { IfOk result (λ text. string_bytes text ≡ differences_line self.now) }
    {
        let mut out = Writer::new(alloc)?;
        only(alloc, &mut out, "namespaces", &self.namespaces)?;
        let mut line = out.finish();
        line.push('\n')?;
        Ok(line)
    }
}

// The fields' words.
fn write_fields<W: fmt::Write>(f: &mut fmt::Formatter<W>, fields: &[Field]) -> fmt::Result {
    for (place, field) in fields.iter().enumerate() {
        if place > 0 {
            f.write_str(", ")?;
        }
        f.write_str(field.as_str())?;
    }
    f.write_str("\n")
}

// A line for each snapshot or lease, as `what` says, in which a namespace differs.
fn write_each<W: fmt::Write>(
    f: &mut fmt::Formatter<W>,
    space: &Text,
    what: &str,
    differences: &[Difference<Sequence<Field>>],
) -> fmt::Result {
    for difference in differences {
        write!(
            f,
            "{:?} {what} {:?}: ",
            space.as_str(),
            difference.name.as_str()
        )?;
        match &difference.found {
            Found::OnlyA => f.write_str("only in A\n")?,
            Found::OnlyB => f.write_str("only in B\n")?,
            Found::Both(fields) => write_fields(f, fields.as_slice())?,
        }
    }
    Ok(())
}

// The lines for a namespace that both have.
fn write_space<W: fmt::Write>(
    f: &mut fmt::Formatter<W>,
    name: &Text,
    difference: &SpaceDifference,
) -> fmt::Result {
    if !difference.fields.is_empty() {
        write!(f, "{:?}: ", name.as_str())?;
        write_fields(f, difference.fields.as_slice())?;
    }
    write_each(f, name, "snapshot", difference.snapshots.as_slice())?;
    write_each(f, name, "lease", difference.leases.as_slice())
}

/// Lines for people: one for each namespace, snapshot or lease that differs.
impl fmt::Display for Differences {
    fn fmt<W: fmt::Write>(&self, f: &mut fmt::Formatter<W>) -> fmt::Result {
        for difference in self.namespaces.as_slice() {
            match &difference.found {
                Found::OnlyA => writeln!(f, "{:?}: only in A", difference.name.as_str())?,
                Found::OnlyB => writeln!(f, "{:?}: only in B", difference.name.as_str())?,
                Found::Both(space) => write_space(f, &difference.name, space)?,
            }
        }
        Ok(())
    }
}
