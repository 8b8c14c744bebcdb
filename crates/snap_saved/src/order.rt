//! Whether paths rise.
ghost use Rattle.std.specs.Prelude.{◌≡◌, map, MatchOption};
ghost use Rattle.std.specs.List.Sorted.{IsStrictlySortedBy};
ghost use Rattle.snap_layer.specs.Tree.{path_cmp};
ghost use Rattle.snap_saved.specs.Saved.{dir_path};
ghost use Rattle.snap_saved.specs.Restored.{unsorted};

use super::dir::SavedDir;
use snap_path::Path;

/// The place of the first path that doesn't come after the one before it, if there is one.
pub(crate) fn unsorted(paths: &[Path]) -> Option<usize>
    ensures sorted { MatchOption result (IsStrictlySortedBy path_cmp paths.now) (λ _. IsStrictlySortedBy path_cmp paths.now → ⊥) }
    ensures first { result ≡ unsorted paths.now }
{
    for place in 1..paths.len() {
        if paths[place].cmp(&paths[place - 1]).is_le() {
            return Some(place);
        }
    }
    None
}

/// The same of the directories' paths.
pub(crate) fn unsorted_dirs(dirs: &[SavedDir]) -> Option<usize>
    ensures sorted { MatchOption result (IsStrictlySortedBy path_cmp (map dir_path dirs.now)) (λ _. IsStrictlySortedBy path_cmp (map dir_path dirs.now) → ⊥) }
    ensures first { result ≡ unsorted (map dir_path dirs.now) }
{
    for place in 1..dirs.len() {
        if dirs[place].path.cmp(&dirs[place - 1].path).is_le() {
            return Some(place);
        }
    }
    None
}
