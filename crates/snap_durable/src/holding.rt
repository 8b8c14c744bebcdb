// What a store has of each namespace.
ghost use Rattle.std.specs.Prelude.{◌≡◌, ℕ, IfOk, count_by, filter_map, map, option_copied, option_map};
ghost use Rattle.snap_usage.specs.declared.usage.Usage.{Usage};
ghost use Rattle.snap_record.specs.Filters.{is_same_kind};
ghost use Rattle.snap_record.specs.Labels.{Bytes};
ghost use Rattle.snap_record.specs.Records.{kind_of};
ghost use Rattle.snap_world.specs.World.{WorldValue};
ghost use Rattle.snap_durable.specs.Holdings.{contents_of, holding_at, holding_data, holding_of_place, kind_count, named_holding};

use snap_call::Namespace;
use snap_json::{Token, Writer};
use snap_ledger::StoreName;
use snap_record::{Kind, Record, Sequence, Text};
use snap_usage::Usage;
use snap_values::{ToJson, member};
use snap_world::World;
use std::alloc::{AllocError, Global};

/// What a store has of a namespace, in blocks of 4096 bytes and inodes, and in numbers.
#[derive(Clone, Copy, Debug, PartialEq, Eq)]
pub struct Holding {
    /// What it is charged.
    pub charged: Usage,
    /// The most that it may be charged.
    pub limit: Usage,
    /// How many of its snapshots are committed.
    pub committed: u64,
    /// How many are active.
    pub active: u64,
    /// How many are views.
    pub views: u64,
    /// How many leases it has, live or ended.
    pub leases: u64,
}

/// What a store has, with `H` told of each namespace.
#[derive(Drop)]
pub struct Contents<H> {
    /// The entries of its round.
    pub entries: u64,
    /// Its namespaces with their names, in the order of their places.
    pub namespaces: Sequence<(Text, H)>,
}

/// What is told of a namespace of a store: in numbers a [`Holding`], or each snapshot and each lease in a
/// [`Space`](crate::Space).
pub trait FromNamespace {
    ghost of_namespace: { WorldValue → Bytes → ℕ → Usage → Self };

    /// What the store has of the namespace of this name, which stands at the place and is charged this.
    ///
    /// It fails only where memory is refused, which it takes for a list of the namespace's snapshots and copies of its
    /// leases, for a [`Space`](crate::Space) of the snapshots' texts too. The cost grows with these, and with the number
    /// of leases of all namespaces.
    fn from_namespace<N: StoreName>(
        alloc: Global,
        world: &World<N>,
        name: &Text,
        place: usize,
        charged: Usage,
    ) -> Result<Self, AllocError>
        ensures { IfOk result (λ told. told ≡ of_namespace world.now name.now place charged) };
}

// How many of the records are of this kind.
fn count_lent(records: &[&Record], kind: Kind) -> usize
    ensures { result ≡ count_by (λ r. is_same_kind (kind_of r.now.content) kind) records.now }
{
    records
        .iter()
        .filter(|record| record.content.kind() == kind)
        .count()
}

// The same of the records behind the references.
fn kind_count(records: &[&Record], kind: Kind) -> u64
    ensures { result ≡ kind_count kind (map (λ r. r.now) records.now) }
{
    count_lent(records, kind) as u64
}

impl FromNamespace for Holding {
    ghost of_namespace = { holding_at };

    fn from_namespace<N: StoreName>(
        alloc: Global,
        world: &World<N>,
        name: &Text,
        place: usize,
        charged: Usage,
    ) -> Result<Holding, AllocError> {
        let records = world.records().list_of(alloc, place)?;
        let leases = world.leases().infos(name.as_str())?;
        Ok(Holding {
            charged,
            limit: world.state().limit_at(place),
            committed: kind_count(records.as_slice(), Kind::Committed),
            active: kind_count(records.as_slice(), Kind::Active),
            views: kind_count(records.as_slice(), Kind::View),
            leases: leases.len() as u64,
        })
    }
}

// What the store has of the namespace of this name, with its name, if there is such a one.
fn named_holding<N: StoreName, H: FromNamespace + Drop>(
    alloc: Global,
    world: &World<N>,
    name: &Text,
) -> Result<Option<(Text, H)>, AllocError>
    ensures { IfOk result (λ found. found ≡ named_holding H.of_namespace world.now name.now) }
{
    let Some(place) = world.state().place_of(name.as_str()) else {
        return Ok(None);
    };
    let Some(charged) = world.totals(name.as_str()) else {
        return Ok(None);
    };
    let holding = H::from_namespace(alloc, world, name, place, charged)?;
    Ok(Some((name.clone()?, holding)))
}

// The same, where a namespace stands there.
fn holding_of_place<N: StoreName, H: FromNamespace + Drop>(
    alloc: Global,
    world: &World<N>,
    namespace: &Namespace,
) -> Result<Option<(Text, H)>, AllocError>
    ensures { IfOk result (λ found. found ≡ holding_of_place H.of_namespace world.now namespace.now) }
{
    if !namespace.is_taken() {
        return Ok(None);
    }
    named_holding(alloc, world, &namespace.name)
}

// What the store has of its namespaces, in the order of their places.
pub(crate) fn holdings<N: StoreName, H: FromNamespace + Drop>(
    alloc: Global,
    world: &World<N>,
) -> Result<Sequence<(Text, H)>, AllocError>
    ensures { IfOk result (λ found. found ≡ filter_map (holding_of_place H.of_namespace world.now) world.now.state.namespaces) }
{
    let mut found = Sequence::new(alloc);
    for namespace in world.state().namespaces.as_slice() {
        if let Some(holding) = holding_of_place(alloc, world, namespace)? {
            found.push(holding)?;
        }
    }
    Ok(found)
}

// What the store has, where one stands.
pub(crate) fn contents_of<N: StoreName, H: FromNamespace + Drop>(
    alloc: Global,
    world: Option<&World<N>>,
) -> Result<Option<Contents<H>>, AllocError>
    ensures { IfOk result (λ contents. contents ≡ option_map (contents_of H.of_namespace) (option_copied world.entry)) }
{
    let Some(world) = world else {
        return Ok(None);
    };
    Ok(Some(Contents {
        entries: world.journal().len() as u64,
        namespaces: holdings(alloc, world)?,
    }))
}

impl ToJson for Holding {
    ghost value = { holding_data };

    fn write(&self, alloc: Global, out: &mut Writer) -> Result<(), AllocError> {
        out.token(Token::BeginObject)?;
        member(alloc, out, "active", &self.active)?;
        member(alloc, out, "charged", &self.charged)?;
        member(alloc, out, "committed", &self.committed)?;
        member(alloc, out, "leases", &self.leases)?;
        member(alloc, out, "limit", &self.limit)?;
        member(alloc, out, "views", &self.views)?;
        out.token(Token::EndObject)
    }
}
