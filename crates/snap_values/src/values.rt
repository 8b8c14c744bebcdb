//! The values that a store's answers have.
ghost use Rattle.std.specs.Prelude.{◌≡◌, OnOk};
ghost use Rattle.serde_json.specs.Data.{string};
ghost use Rattle.snap_values.specs.Values.{change_data, info_data, lease_data, mount_data, refusal_name};

use crate::to_json::{ToJson, maybe, member, pair};
use snap_call::Refusal;
use snap_diff::Change;
use snap_json::{Token, Writer};
use snap_lease::LeaseInfo;
use snap_mount::Mount;
use snap_record::Info;
use std::alloc::{AllocError, Global};

impl ToJson for Info {
    ghost value = { info_data };

    fn write(&self, alloc: Global, out: &mut Writer) -> Result<(), AllocError> {
        out.token(Token::BeginObject)?;
        member(alloc, out, "created", &self.created)?;
        member(alloc, out, "id", &self.id)?;
        member(alloc, out, "kind", &self.kind.as_str())?;
        member(alloc, out, "labels", &self.labels)?;
        member(alloc, out, "name", &self.name)?;
        member(alloc, out, "parent", &self.parent)?;
        member(alloc, out, "updated", &self.updated)?;
        out.token(Token::EndObject)
    }
}

impl ToJson for Mount {
    ghost value = { mount_data };

    fn write(&self, alloc: Global, out: &mut Writer) -> Result<(), AllocError> {
        out.token(Token::BeginObject)?;
        member(alloc, out, "options", &self.options)?;
        member(alloc, out, "source", &self.source)?;
        member(alloc, out, "type", &self.kind.as_str())?;
        out.token(Token::EndObject)
    }
}

impl ToJson for LeaseInfo {
    ghost value = { lease_data };

    #[tactic(auto, using(crate::proofs::Maps::with_members_maybe))]
    fn write(&self, alloc: Global, out: &mut Writer) -> Result<(), AllocError> {
        out.token(Token::BeginObject)?;
        member(alloc, out, "lease", &self.name())?;
        member(alloc, out, "names", &self.names())?;
        maybe(alloc, out, "until", &self.until())?;
        out.token(Token::EndObject)
    }
}

/// What a snapshot's layer changes at a path.
impl ToJson for Change {
    ghost value = { change_data };

    fn write(&self, alloc: Global, out: &mut Writer) -> Result<(), AllocError> {
        let path = self.path.as_str();
        pair(alloc, out, "change", &self.kind.as_str(), "path", &path)
    }
}

/// The refusal's name alone.
impl ToJson for Refusal {
    ghost value = { λ why. string (refusal_name why) };

    fn write(&self, _alloc: Global, out: &mut Writer) -> Result<(), AllocError> {
        out.token(Token::String(refusal_name(*self)))
    }
}

/// The name of a refusal in answers. Takes no memory. The cost is constant.
pub fn refusal_name(refusal: Refusal) -> &'static str
    ensures { result.now ≡ refusal_name refusal }
{
    match refusal {
        Refusal::BadArgument => "BadArgument",
        Refusal::NoNamespace => "NoNamespace",
        Refusal::NamespaceExists => "NamespaceExists",
        Refusal::TooManyNamespaces => "TooManyNamespaces",
        Refusal::NotEmpty => "NotEmpty",
        Refusal::NotFound => "NotFound",
        Refusal::AlreadyExists => "AlreadyExists",
        Refusal::NotCommitted => "NotCommitted",
        Refusal::NotActive => "NotActive",
        Refusal::HasChildren => "HasChildren",
        Refusal::InUse => "InUse",
        Refusal::Leased => "Leased",
        Refusal::NoLease => "NoLease",
        Refusal::LeaseExists => "LeaseExists",
        Refusal::TooDeep => "TooDeep",
        Refusal::TooManyActives => "TooManyActives",
        Refusal::OverLimit { .. } => "OverLimit",
        Refusal::BelowCharge => "BelowCharge",
        Refusal::NumbersSpent => "NumbersSpent",
        Refusal::JournalFull => "JournalFull",
        Refusal::OutOfMemory(_) => "OutOfMemory",
    }
}
