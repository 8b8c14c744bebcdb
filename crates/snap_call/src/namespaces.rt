// The namespaces of a store.
ghost use Rattle.std.specs.BTreeMap.{get_by_text};
ghost use Rattle.std.specs.Option.{option_or};
ghost use Rattle.std.specs.Prelude.{◌≡◌, ◌<◌, ◌++◌, ◌∷◌, [], None, Some, true, not, length, count_by, position, slice_get, option_copied, string_bytes, if◌then◌else◌, IfOk, OnOk, OnErr};
ghost use Rattle.snap_call.specs.Forms.{have_distinct_names};
ghost use Rattle.snap_call.specs.Namespaces.{has_name, is_taken, is_taken_at, name_at, place_of, with_limit, with_namespace, without_namespace};
ghost use Rattle.snap_record.specs.Labels.{Bytes};

use crate::config::Namespace;
use snap_record::{Sequence, Text};
use snap_usage::Usage;
use std::alloc::{AllocError, Global};
use std::collections::BTreeMap;
use std::marker::Model;

/// The namespaces of a store, each at its place. Contracts see the list, in which a free place has no name.
///
/// Beside it stands the place of each by its name: the cost of a look-up grows with the logarithm of their number.
#[derive(Drop)]
pub struct Namespaces {
    alloc: Global,
    list: Sequence<Namespace>,
    places: BTreeMap<String, usize>,
}

impl Model for Namespaces {
    ghost use Rattle.std.specs.Prelude.{List};
    ghost use Rattle.snap_call.specs.Namespaces.{ArePlaces};
    ghost use Rattle.snap_call.specs.declared.config.Namespace.{Namespace};

    ghost Value = { List Namespace };

    ghost view = { λ s. s.list };

    ghost invariant = { λ s. ArePlaces s.places s.list };
}

// Gives the name of the namespace the place, where it is one and has none yet.
fn put_place(
    alloc: Global,
    places: &mut BTreeMap<String, usize>,
    namespace: &Namespace,
    place: usize,
) -> Result<(), AllocError>
    ensures { OnOk result ((q : Bytes) → get_by_text places.new q ≡ option_or (get_by_text places.old q) (if has_name q namespace.now then Some place else None)) }
{
    let name = namespace.name.as_str();
    if !namespace.is_taken() || places.get(name).is_some() {
        return Ok(());
    }
    let name = String::from_str(alloc, name)?;
    places.insert(name, place)?;
    Ok(())
}

impl Namespaces {
    /// The namespaces of a list, each at its place there. Takes memory for copies of the names and their places.
    pub(crate) fn of(alloc: Global, list: Sequence<Namespace>) -> Result<Namespaces, AllocError>
        ensures { IfOk result (λ namespaces. namespaces ≡ list) }
    {
        let mut places = BTreeMap::new(alloc);
        for (place, namespace) in list.as_slice().iter().enumerate() {
            put_place(alloc, &mut places, namespace, place)?;
        }
        Ok(Namespaces {
            alloc,
            list,
            places,
        })
    }

    /// What stands at the place. Takes no memory. The cost is constant.
    pub(crate) fn get(&self, place: usize) -> Option<&Namespace>
        ensures { option_copied result ≡ slice_get self.now place }
    {
        self.list.as_slice().get(place)
    }

    /// The place of the namespace of this name, if there is one. Takes no memory. The cost grows with the
    /// logarithm of the number of namespaces.
    pub(crate) fn place_of(&self, name: &str) -> Option<usize>
        ensures { result ≡ place_of name.now self.now }
    {
        self.places.get(name).copied()
    }

    /// The namespaces, with the free places among them. Takes no memory. The cost is constant.
    pub fn as_slice(&self) -> &[Namespace]
        ensures { result.now ≡ self.now }
    {
        self.list.as_slice()
    }

    /// How many namespaces there are. Takes no memory. It goes over their places.
    pub(crate) fn count(&self) -> usize
        ensures { result ≡ count_by is_taken self.now }
    {
        self.list
            .as_slice()
            .iter()
            .filter(|namespace| namespace.is_taken())
            .count()
    }

    // The first free place among them.
    fn first_free(&self) -> Option<usize>
        ensures { result ≡ position (λ n. not (is_taken n)) self.now }
    {
        self.list
            .as_slice()
            .iter()
            .position(|namespace| !namespace.is_taken())
    }

    // Puts a namespace behind all others.
    fn push(&mut self, name: String, namespace: Namespace) -> Result<(), AllocError>
        requires named { string_bytes name ≡ namespace.name }
        requires taken { is_taken namespace ≡ true }
        requires new { place_of namespace.name self.old ≡ None }
        ensures ok { OnOk result (self.new ≡ self.old ++ namespace ∷ []) }
        ensures err { OnErr result (self.new ≡ self.old) }
    {
        self.places.insert(name, self.list.len())?;
        let Err(refused) = self.list.push(namespace) else {
            return Ok(());
        };
        self.places.remove(refused.value.name.as_str());
        Err(refused.into())
    }

    /// Puts a namespace at the first free place. Takes memory for a copy of its name and its place there, and
    /// where none is free for a place; where that is refused, nothing changes. It goes over the places.
    pub(crate) fn add(&mut self, namespace: Namespace) -> Result<(), AllocError>
        requires taken { is_taken namespace ≡ true }
        requires new { place_of namespace.name self.old ≡ None }
        ensures ok { OnOk result (self.new ≡ with_namespace namespace self.old) }
        ensures err { OnErr result (self.new ≡ self.old) }
    {
        let name = String::from_str(self.alloc, namespace.name.as_str())?;
        let Some(place) = self.first_free() else {
            return self.push(name, namespace);
        };
        self.places.insert(name, place)?;
        self.list.set(place, namespace);
        Ok(())
    }

    /// Takes the namespace at the place away, which is free then. Takes no memory. The cost grows with the
    /// logarithm of the number of namespaces.
    pub(crate) fn remove(&mut self, place: usize)
        requires distinct { have_distinct_names self.old ≡ true }
        requires taken { is_taken_at place self.old ≡ true }
        ensures { self.new ≡ without_namespace place self.old }
    {
        let Some(namespace) = self.list.as_slice().get(place) else {
            unreachable!()
        };
        self.places.remove(namespace.name.as_str());
        let name = Text::new(self.alloc);
        let limit = Usage::ZERO;
        self.list.set(place, Namespace { name, limit });
    }

    /// Puts the namespace, which has another limit, in its place. Takes no memory. The cost is constant.
    pub(crate) fn set_limit(&mut self, place: usize, namespace: Namespace)
        requires inside { place < length self.old }
        requires same { namespace.name ≡ name_at place self.old }
        ensures { self.new ≡ with_limit place namespace.limit self.old }
    {
        self.list.set(place, namespace);
    }
}
