ghost use Rattle.std.specs.Prelude.{◌≡◌, ◌&&◌, ◌||◌, not, count_by, find, is_some, is_none, nat_le, length, option_copied, IfOk, OnOk, OnErr, IsErrOf, Some, false, List, ℕ, [], ◌∷◌, ◌↔◌};
ghost use Rattle.std.specs.List.{cons_option, list_all, list_any};
ghost use Rattle.std.specs.Option.{option_map_or};
ghost use Rattle.snap_record.specs.Cut.{cut_path, kept_by_paths, kept_update};
ghost use Rattle.snap_record.specs.Labels.{value_of, is_key_among, HasDistinctKeys};
ghost use Rattle.snap_record.specs.Updates.{named_key, is_whole, is_update_path, replaces_all, named_keys, names_key, with_named, updated, have_forms, is_granted, is_well_formed};

use crate::error::LabelsError;
use crate::labels::{Labels, MAX_LABEL_BYTES, MAX_LABELS};
use crate::sequence::Sequence;
use crate::text::Text;
use std::alloc::{AllocError, Global};

/// A path of more bytes names no label: `labels.` has 7, and a label's key at most 4096.
const MAX_PATH_BYTES: usize = 7 + MAX_LABEL_BYTES;

/// Whether an update can be asked for, whatever labels it is made of: each given label and each
/// path has its form, and where the given labels replace all, there are at most 64 of them. Takes
/// no memory.
pub fn is_well_formed(given: &Labels, paths: &[Text]) -> bool
    ensures { result ≡ is_well_formed given.now paths.now }
{
    have_forms(given, paths) && (!replaces_all(paths) || given.len() <= MAX_LABELS)
}

fn is_granted(labels: &Labels, given: &Labels, paths: &[Text]) -> bool
    ensures { result ≡ is_granted labels.now given.now paths.now }
{
    have_forms(given, paths) && is_short(labels, given, paths)
}

fn have_forms(given: &Labels, paths: &[Text]) -> bool
    ensures { result ≡ have_forms given.now paths.now }
{
    given.have_form() && are_paths(paths)
}

fn are_paths(paths: &[Text]) -> bool
    ensures { result ≡ list_all is_update_path paths.now }
{
    paths.iter().all(|path| is_update_path(path))
}

fn is_update_path(path: &Text) -> bool
    ensures { result ≡ is_update_path path.now }
{
    is_whole(path) || named_key(path.as_str()).is_some()
}

fn is_whole(path: &Text) -> bool
    ensures { result ≡ is_whole path.now }
{
    path.as_str() == "labels"
}

/// Whether the labels that an update gives replace all: it has no path, or the path `labels` among them. Takes no memory.
/// The cost grows with the number of paths.
pub fn replaces_all(paths: &[Text]) -> bool
    ensures { result ≡ replaces_all paths.now }
{
    paths.is_empty() || has_whole(paths)
}

fn has_whole(paths: &[Text]) -> bool
    ensures { result ≡ list_any is_whole paths.now }
{
    paths.iter().any(|path| is_whole(path))
}

/// The key x that a path `labels.x` names, which has at least one byte; none of any other path. Takes no memory. The cost
/// is constant.
pub fn named_key(path: &str) -> Option<&str>
    ensures { option_copied result ≡ named_key path.now }
{
    match path.strip_prefix("labels.") {
        Some(key) if !key.is_empty() => Some(key),
        _ => None,
    }
}

// Whether a path names the key.
fn is_named(paths: &[Text], key: &Text) -> bool
    ensures { result ≡ is_key_among key.now (named_keys paths.now) }
{
    any_names(paths, key)
}

fn any_names(paths: &[Text], key: &Text) -> bool
    ensures { result ≡ list_any (names_key key.now) paths.now }
{
    paths.iter().any(|path| names_key(path, key))
}

fn names_key(path: &Text, key: &Text) -> bool
    ensures { result ≡ names_key key.now path.now }
{
    match named_key(path.as_str()) {
        Some(name) => key.as_str() == name,
        None => false,
    }
}

// The count of the result, which is tested before any memory is taken.
fn is_short(labels: &Labels, given: &Labels, paths: &[Text]) -> bool
    ensures { result ≡ nat_le (length (updated labels.now given.now paths.now)) 64 }
{
    if replaces_all(paths) {
        return given.len() <= MAX_LABELS;
    }
    let kept = kept_len(labels, given, paths);
    let added = added_len(labels, given, paths);
    kept <= MAX_LABELS && added <= MAX_LABELS - kept
}

fn kept_len(labels: &Labels, given: &Labels, paths: &[Text]) -> usize
    ensures { result ≡ count_by (λ l. not (is_key_among l.0 (named_keys paths.now))
        || is_some (value_of given.now l.0)) labels.now }
{
    labels
        .as_slice()
        .iter()
        .filter(|(key, _)| !is_named(paths, key) || given.get(key).is_some())
        .count()
}

fn added_len(labels: &Labels, given: &Labels, paths: &[Text]) -> usize
    ensures count { result ≡ count_by (λ l. is_key_among l.0 (named_keys paths.now)
        && is_none (value_of labels.now l.0)) given.now }
    ensures distinct { HasDistinctKeys given.now }
{
    given
        .as_slice()
        .iter()
        .filter(|(key, _)| is_named(paths, key) && labels.get(key).is_none())
        .count()
}

/// The labels that containerd's `Update` makes of these with its field paths; these stay as they are.
///
/// With no path, or with the path `labels` among them, the given labels replace all. Otherwise each
/// path `labels.x` gives the label x its given value, or removes it where none is given: a key that
/// is there keeps its place, a new one goes last, and a removal closes up. A given value may be empty, and then
/// stays; containerd leaves labels with an empty value out.
///
/// `BadLabels`: a path of another form, an x of no bytes, or a given label without a label's form,
/// whether a path takes it or not; or a result of more than 64 labels. `OutOfMemory`: memory was
/// wanting, for a copy of the labels or of a path's key. Its cost grows with the paths times all labels, and with
/// the bytes of the copies.
pub fn updated_labels(
    labels: &Labels,
    given: &Labels,
    paths: &[Text],
) -> Result<Labels, LabelsError>
    ensures ok { IfOk result (λ next. next ≡ updated labels.now given.now paths.now) }
    ensures bad { IsErrOf result LabelsError.BadLabels
        ↔ (is_granted labels.now given.now paths.now ≡ false) }
{
    if !is_granted(labels, given, paths) {
        return Err(LabelsError::BadLabels);
    }
    if replaces_all(paths) {
        Ok(given.clone()?)
    } else {
        Ok(with_named(labels, given, paths)?)
    }
}

fn with_named(labels: &Labels, given: &Labels, paths: &[Text]) -> Result<Labels, AllocError>
    ensures { IfOk result (λ next. next ≡ with_named labels.now given.now (named_keys paths.now)) }
{
    let mut next = labels.copy_with_room(paths.len().min(MAX_LABELS))?;
    for path in paths {
        apply_path(&mut next, given, path)?;
    }
    Ok(next)
}

// Changes the label that the path names, as the first of the paths that are left.
fn apply_path(next: &mut Labels, given: &Labels, path: &Text) -> Result<(), AllocError>
    requires { HasDistinctKeys next.old }
    ensures distinct { OnOk result (HasDistinctKeys next.new) }
    ensures first { OnOk result ((keys : List (List ℕ)) →
        with_named next.old given.now (cons_option (named_key path.now) keys)
        ≡ with_named next.new given.now keys) }
{
    match named_key(path.as_str()) {
        Some(key) => {
            let key = Text::copy_of(next.allocator(), key)?;
            apply_key(next, given, key)
        }
        None => Ok(()),
    }
}

fn apply_key(next: &mut Labels, given: &Labels, key: Text) -> Result<(), AllocError>
    requires { HasDistinctKeys next.old }
    ensures distinct { OnOk result (HasDistinctKeys next.new) }
    ensures first { OnOk result ((keys : List (List ℕ)) →
        with_named next.old given.now (key ∷ keys) ≡ with_named next.new given.now keys) }
{
    match given.get(&key) {
        Some(value) => next.insert(key, value.clone()?),
        None => {
            next.remove(&key);
            Ok(())
        }
    }
}

/// Cuts the labels and the paths of an update to what decides whether it has its form.
///
/// Where a label is malformed, the first such alone is left, cut as by [`Labels::cut`], and no path; else, where a path
/// is malformed, the first such alone, cut as by [`cut`](Text::cut) above 4103 bytes, and no label. Where the labels
/// replace all, they and the path `labels` are left, if it is there; else both stay as they are. So [`is_well_formed`]
/// answers as before. Takes memory only for the label or the path that is left alone; fails only where it is wanting,
/// and then either may be cut. The cost grows with the number of labels and paths.
pub fn cut_update(labels: &mut Labels, paths: &mut Sequence<Text>) -> Result<(), AllocError>
    ensures { OnOk result ((labels.new, paths.new) ≡ kept_update labels.old paths.old) }
{
    if labels.have_form() {
        return cut_by_paths(labels, paths);
    }
    paths.clear();
    labels.cut()
}

fn cut_by_paths(labels: &mut Labels, paths: &mut Sequence<Text>) -> Result<(), AllocError>
    ensures { OnOk result ((labels.new, paths.new) ≡ kept_by_paths labels.old paths.old) }
{
    let alloc = paths.allocator();
    if let Some(path) = first_malformed(paths.as_slice()) {
        *paths = path_alone(alloc, Some(path))?;
        labels.clear();
    } else if replaces_all(paths.as_slice()) {
        *paths = path_alone(alloc, first_whole(paths.as_slice()))?;
    }
    Ok(())
}

fn first_malformed(paths: &[Text]) -> Option<&Text>
    ensures { option_copied result ≡ find (λ path. not (is_update_path path)) paths.now }
{
    paths.iter().find(|path| !is_update_path(path))
}

fn first_whole(paths: &[Text]) -> Option<&Text>
    ensures { option_copied result ≡ find is_whole paths.now }
{
    paths.iter().find(|path| is_whole(path))
}

/// The path alone, cut, or none.
fn path_alone(alloc: Global, path: Option<&Text>) -> Result<Sequence<Text>, AllocError>
    ensures { IfOk result (λ paths. paths ≡ option_map_or cut_path (option_copied path.entry) []) }
{
    let mut paths = Sequence::new(alloc);
    if let Some(path) = path {
        paths.push(path.cut_copy(MAX_PATH_BYTES)?)?;
    }
    Ok(paths)
}
