// The store that a script has opened.
ghost use Rattle.std.specs.Prelude.{◌≡◌, [], Some, IfOk};
ghost use Rattle.snap_session.specs.Carried.{carried_of};
ghost use Rattle.snap_session.specs.Opened.{named_total, total_of, totals_of};
ghost use Rattle.snap_session.specs.Commands.{with_world, on_store, report, told_on_store};

use crate::about::{command_answer, subjects};
use crate::batch::batch;
use crate::calls::{ask, chain_usage, charge, commit, discard, session, trim, try_sweep};
use crate::carried::Carried;
use crate::diff::diff;
use crate::file_commands::file;
use crate::journal::journal;
use crate::leases::leases;
use crate::lookups::lookup;
use crate::quota::quota;
use crate::round::{reopen, roll};
use crate::step::called;
use crate::tree::tree;
use snap_call::{Namespace, Refusal};
use snap_ledger::StoreName;
use snap_record::{Sequence, Text};
use snap_script::{Answer, Command};
use snap_usage::Usage;
use snap_world::{NoMemory, World};
use std::alloc::{AllocError, Global};
use std::marker::Model;

// A world, and the snapshots that were active when the round began.
#[derive(Drop)]
pub(crate) struct Opened<N: StoreName> {
    world: World<N>,
    carried: Sequence<Carried>,
}

impl<N: StoreName> Model for Opened<N> {
    ghost use Rattle.std.specs.Prelude.{◌≡◌};
    ghost use Rattle.snap_session.specs.Carried.{carried_of};
    ghost use Rattle.snap_session.specs.Opened.{OpenedValue};

    ghost Value = { OpenedValue };

    ghost view = { λ s. record { world = s.world } };

    ghost invariant = { λ s. s.carried ≡ carried_of s.world.opening };
}

// What the namespace of this name is charged.
fn total_of<N: StoreName>(world: &World<N>, name: &str) -> Usage
    ensures { result ≡ total_of world.now name.now }
{
    match world.totals(name) {
        Some(total) => total,
        None => Usage::ZERO,
    }
}

// Its name with its total, where a namespace stands there.
fn named_total<N: StoreName>(
    world: &World<N>,
    namespace: &Namespace,
) -> Result<Option<(Text, Usage)>, AllocError>
    ensures { IfOk result (λ found. found ≡ named_total world.now namespace.now) }
{
    if !namespace.is_taken() {
        return Ok(None);
    }
    let total = total_of(world, namespace.name.as_str());
    Ok(Some((namespace.name.clone()?, total)))
}

fn totals_of<N: StoreName>(
    alloc: Global,
    world: &World<N>,
) -> Result<Sequence<(Text, Usage)>, AllocError>
    ensures { IfOk result (λ totals. totals ≡ totals_of world.now) }
{
    let mut totals = Sequence::new(alloc);
    for namespace in world.state().namespaces.as_slice() {
        if let Some(total) = named_total(world, namespace)? {
            totals.push(total)?;
        }
    }
    Ok(totals)
}

fn report<N: StoreName>(alloc: Global, world: &World<N>) -> Result<Answer, NoMemory>
    ensures { IfOk result (λ answer. answer ≡ report (record { world = world.now })) }
{
    Ok(Answer::Report {
        entries: world.journal().len() as u64,
        actives: world.open_slots(),
        records: world.records().len() as u64,
        totals: totals_of(alloc, world)?,
    })
}

// A command by a session of this number.
fn on_store<N: StoreName>(
    alloc: Global,
    world: &mut World<N>,
    carried: &mut Sequence<Carried>,
    n: u64,
    command: Command<'_>,
) -> Result<Answer, NoMemory>
    requires { carried.old ≡ carried_of world.old.opening }
    ensures done { IfOk result (λ answer. on_store (record { world = world.old }) n command.entry ≡ (world.new, answer)) }
    ensures carried { carried.new ≡ carried_of world.new.opening }
{
    match command {
        Command::Open { config: _ } | Command::Restore(_) | Command::Save { after: _, most: _ } =>
            Ok(Answer::refused(Refusal::BadArgument)),
        Command::Session => session(world),
        Command::Reopen { journal } => reopen(alloc, world, carried, journal),
        Command::Roll { journal } => roll(alloc, world, carried, journal),
        Command::Call(call) => called(world, n, 0, call),
        Command::Ask(question) => ask(world, question),
        Command::Charge {
            namespace,
            key,
            need,
            want,
        } => charge(world, n, namespace.as_str(), key.as_str(), need, want),
        Command::Trim { namespace, key } => trim(world, n, namespace.as_str(), key.as_str()),
        Command::Commit {
            namespace,
            key,
            name,
            lease,
            labels,
        } => commit(
            world,
            n,
            namespace.as_str(),
            key.as_str(),
            name,
            lease,
            labels,
        ),
        Command::Discard { namespace, key } => discard(world, n, namespace.as_str(), key.as_str()),
        Command::File {
            namespace,
            key,
            operation,
            extra,
        } => file(world, n, namespace.as_str(), key.as_str(), operation, extra),
        Command::Batch {
            namespace,
            key,
            need,
            ops,
            whole,
        } => batch(world, n, namespace.as_str(), key.as_str(), need, ops, whole),
        Command::Lookup {
            namespace,
            key,
            lookup: asked,
            path,
            peek,
        } => lookup(
            alloc,
            world,
            namespace.as_str(),
            key.as_str(),
            asked,
            path,
            peek,
        ),
        Command::TrySweep { namespace, moment } => try_sweep(world, namespace.as_str(), moment),
        Command::ChainUsage { namespace, key } => Ok(chain_usage(
            world,
            namespace.as_str(),
            key.as_str(),
        )),
        Command::Quota { namespace } => quota(alloc, world, namespace),
        Command::Leases { namespace, lease } => leases(alloc, world, namespace.as_str(), lease),
        Command::Tree { namespace, page } => tree(alloc, world, namespace.as_str(), &page),
        Command::Diff {
            namespace,
            key,
            after,
            most,
        } => diff(
            alloc,
            world,
            namespace.as_str(),
            key.as_str(),
            after.as_str(),
            most,
        ),
        Command::Journal {
            namespace,
            after,
            most,
            full,
        } => journal(
            alloc,
            world,
            carried.as_slice(),
            namespace,
            after,
            most,
            full,
        ),
        Command::Report => report(alloc, world),
    }
}

impl<N: StoreName> Opened<N> {
    // The world in its first round: no snapshot was active when it began.
    pub(crate) fn new(alloc: Global, world: World<N>) -> Opened<N>
        requires { world.opening.records ≡ [] }
        ensures { result ≡ record { world = world } }
    {
        Opened {
            world,
            carried: Sequence::new(alloc),
        }
    }

    // The world of a saved store, with the snapshots that were active when it was saved.
    pub(crate) fn with_carried(world: World<N>, carried: Sequence<Carried>) -> Opened<N>
        requires { carried ≡ carried_of world.opening }
        ensures { result ≡ record { world = world } }
    {
        Opened { world, carried }
    }

    // The world.
    pub(crate) fn world(&self) -> &World<N>
        ensures { result.now ≡ self.now.world }
    {
        &self.world
    }

    // A command by a session of this number.
    pub(crate) fn act(
        &mut self,
        alloc: Global,
        n: u64,
        command: Command<'_>,
    ) -> Result<Answer, NoMemory>
        ensures { IfOk result (λ answer. with_world self.old (told_on_store self.old n command.entry) ≡ (Some self.new, answer)) }
    {
        let own = subjects(&command);
        let answer = on_store(alloc, &mut self.world, &mut self.carried, n, command)?;
        Ok(command_answer(own, answer))
    }
}
