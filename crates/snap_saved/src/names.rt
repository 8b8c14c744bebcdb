// The names of each file number.
ghost use Rattle.std.specs.Prelude.{◌≡◌, ◌++◌, ◌∷◌, [], ℕ, cond, filter_map, IfOk, OnOk, OnErr};
ghost use Rattle.std.specs.BTreeMap.{is_at};
ghost use Rattle.std.specs.Ordering.{nat_cmp};
ghost use Rattle.snap_layer.specs.Tree.{number_at};
ghost use Rattle.snap_saved.specs.Walked.{saved_name_at, listed_names};

use snap_layer::Layer;
use snap_path::Path;
use std::alloc::{AllocError, Global};
use std::collections::BTreeMap;
use std::marker::Model;

/// The names of a file number, in order.
#[derive(Drop)]
pub(crate) struct NameList {
    pub(crate) paths: Vec<Path>,
}

impl Model for NameList {
    ghost use Rattle.std.specs.Prelude.{List};
    ghost use Rattle.snap_path.specs.Text.{Names};

    ghost Value = { List Names };

    ghost view = { λ n. n.paths.items };
}

impl NameList {
    /// None. Takes no memory.
    fn new(alloc: Global) -> NameList
        ensures { result ≡ [] }
    {
        NameList {
            paths: Vec::new(alloc),
        }
    }

    /// Puts a name last.
    fn push(&mut self, path: Path) -> Result<(), AllocError>
        ensures ok { OnOk result (self.new ≡ self.old ++ path ∷ []) }
        ensures err { OnErr result (self.new ≡ self.old) }
    {
        self.paths.push(path)?;
        Ok(())
    }
}

/// The file number at the path.
fn number_at(layer: &Layer, path: &Path) -> Option<u32>
    ensures { result ≡ number_at layer.now path.now }
{
    match layer.at(path) {
        Some(node) => node.number(),
        None => None,
    }
}

/// The names of each number among the paths, in their order.
pub(crate) fn names_by_number(
    alloc: Global,
    layer: &Layer,
    paths: &[Path],
) -> Result<BTreeMap<u32, NameList>, AllocError>
    ensures { IfOk result (λ m. (k : ℕ) → listed_names m.entries k ≡ filter_map (saved_name_at layer.now k) paths.now) }
{
    let mut names = BTreeMap::new(alloc);
    for path in paths {
        if let Some(number) = number_at(layer, path) {
            add_name(alloc, &mut names, number, path.clone()?)?;
        }
    }
    Ok(names)
}

/// Puts a name of the number after its others.
fn add_name(
    alloc: Global,
    names: &mut BTreeMap<u32, NameList>,
    number: u32,
    path: Path,
) -> Result<(), AllocError>
    ensures { OnOk result ((k : ℕ) → listed_names names.new.entries k ≡ cond (is_at (nat_cmp number) k) (listed_names names.old.entries number ++ path ∷ []) (listed_names names.old.entries k)) }
{
    if let Some(list) = names.get_mut(&number) {
        return list.push(path);
    }
    let mut list = NameList::new(alloc);
    list.push(path)?;
    names.insert(number, list)?;
    Ok(())
}

/// Takes the names of the number.
pub(crate) fn take_names(
    alloc: Global,
    names: &mut BTreeMap<u32, NameList>,
    number: u32,
) -> NameList
    ensures taken { result ≡ listed_names names.old.entries number }
    ensures others { (k : ℕ) → (k ≡ number → ⊥) → listed_names names.new.entries k ≡ listed_names names.old.entries k }
{
    match names.remove(&number) {
        Some(list) => list,
        None => NameList::new(alloc),
    }
}
