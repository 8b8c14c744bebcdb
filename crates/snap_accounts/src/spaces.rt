// Namespaces that come and go.
ghost use Rattle.std.specs.Prelude.{◌≡◌, ◌<◌, ◌^◌, ◌++◌, ◌∷◌, [], IfOk, IfErr, OnOk, OnErr};
ghost use Rattle.snap_call.specs.Records.{open_count};
ghost use Rattle.snap_call.specs.State.{with_namespace, without_namespace};
ghost use Rattle.snap_call.specs.Step.{refused, spacing};
ghost use Rattle.snap_call.specs.Steps.{namespace_create, namespace_remove};
ghost use Rattle.snap_call.specs.declared.reply.Reply.TheVariants.{Done};
ghost use Rattle.snap_accounts.specs.Changes.{CanChange, IsEmptySpace, IsNewSpace, changed_state};
ghost use Rattle.snap_accounts.specs.Entries.{IsInEntry, IsRecorded};

use crate::accounts::Accounts;
use crate::change::Change;
use snap_call::limits::MAX_NAMESPACES;
use snap_call::{Namespace, Refusal, Reply, is_namespace};
use snap_ledger::StoreName;
use snap_record::Text;
use snap_usage::Usage;
use std::alloc::AllocError;

impl<N: StoreName> Accounts<N> {
    // Whether the namespace can be made, or why it can't.
    fn check_namespace(&self, made: &Namespace) -> Result<(), Refusal>
        ensures ok { OnOk result (namespace_create self.now made.now.name made.now.limit ≡ (spacing self.now (with_namespace made.now self.now.namespaces), Done)) }
        ensures new { OnOk result (IsNewSpace self.now made.now) }
        ensures recorded { IfErr result IsRecorded }
        ensures refused { IfErr result (λ why. namespace_create self.now made.now.name made.now.limit ≡ refused self.now why) }
    {
        if !is_namespace(made) {
            return Err(Refusal::BadArgument);
        }
        if self.state.place_of(made.name.as_str()).is_some() {
            return Err(Refusal::NamespaceExists);
        }
        if self.state.namespace_count() >= MAX_NAMESPACES {
            return Err(Refusal::TooManyNamespaces);
        }
        Ok(())
    }

    // One more namespace, or why there is none.
    pub(crate) fn plan_namespace(
        &self,
        namespace: &Text,
        limit: Usage,
    ) -> Result<(Reply, Change), AllocError>
        ensures reply { IfOk result (λ p. namespace_create self.now namespace.now limit ≡ (changed_state self.now p.1, p.0)) }
        ensures recorded { IfOk result (λ p. IsInEntry p.0) }
        ensures possible { IfOk result (λ p. CanChange self.now p.1) }
    {
        let name = namespace.clone()?;
        let made = Namespace { name, limit };
        match self.check_namespace(&made) {
            Ok(()) => Ok((Reply::Done, Change::Space(made))),
            Err(why) => Ok((Reply::Refused(why), Change::Nothing)),
        }
    }

    // The place of a namespace that can go, or why it stays.
    fn check_namespace_end(&self, namespace: &str) -> Result<usize, Refusal>
        ensures ok { IfOk result (λ place. namespace_remove self.now namespace.now ≡ (spacing self.now (without_namespace place self.now.namespaces), Done)) }
        ensures empty { IfOk result (λ place. IsEmptySpace self.now place) }
        ensures recorded { IfErr result IsRecorded }
        ensures refused { IfErr result (λ why. namespace_remove self.now namespace.now ≡ refused self.now why) }
    {
        let Some(place) = self.state.place_of(namespace) else {
            return Err(Refusal::NoNamespace);
        };
        if self.state.has_content(place, namespace) {
            return Err(Refusal::NotEmpty);
        }
        Ok(place)
    }

    // One namespace fewer, or why it stays.
    pub(crate) fn plan_namespace_end(&self, namespace: &str) -> Result<(Reply, Change), AllocError>
        ensures reply { IfOk result (λ p. namespace_remove self.now namespace.now ≡ (changed_state self.now p.1, p.0)) }
        ensures recorded { IfOk result (λ p. IsInEntry p.0) }
        ensures possible { IfOk result (λ p. CanChange self.now p.1) }
    {
        match self.check_namespace_end(namespace) {
            Ok(place) => Ok((Reply::Done, Change::SpaceEnd { place })),
            Err(why) => Ok((Reply::Refused(why), Change::Nothing)),
        }
    }

    // There is one more namespace. A total is there before it, and is taken back where none is needed.
    pub(crate) fn add_namespace(&mut self, made: Namespace) -> Result<(), AllocError>
        requires new { IsNewSpace self.old made }
        requires entries { self.old.entries < 2 ^ 63 }
        ensures done { OnOk result (self.new ≡ spacing self.old (with_namespace made self.old.namespaces)) }
        ensures open { OnOk result (open_count self.new.records ≡ open_count self.old.records) }
        ensures err { OnErr result (self.new ≡ self.old) }
    {
        self.totals.push_none()?;
        let added = self.state.add_namespace(made);
        self.totals.cut(self.state.namespaces.as_slice().len());
        added?;
        self.state.entries += 1;
        Ok(())
    }

    // There is one namespace fewer.
    pub(crate) fn end_namespace(&mut self, place: usize)
        requires empty { IsEmptySpace self.old place }
        requires entries { self.old.entries < 2 ^ 63 }
        ensures done { self.new ≡ spacing self.old (without_namespace place self.old.namespaces) }
        ensures open { open_count self.new.records ≡ open_count self.old.records }
    {
        self.state.remove_namespace(place);
        self.state.entries += 1;
    }
}
