// Where a path leads when its symlinks are followed.
ghost use Rattle.std.specs.Prelude.{◌≡◌, ◌≤◌, ◌<◌, ◌∷◌, ◌++◌, [], ℕ, List, map, MatchOption, IfOk, IfErr, OnOk, true, false, length, take, Some, None, if◌then◌else◌};
ghost use Rattle.std.specs.Option.{option_map};
ghost use Rattle.std.specs.Result.{result_err};
ghost use Rattle.std.specs.Borrow.{Bor};
ghost use Rattle.snap_path.specs.Limits.{most_path_bytes};
ghost use Rattle.snap_path.specs.Text.{IsPath, Names, text_below};
ghost use Rattle.snap_path.specs.Memory.{no_memory};
ghost use Rattle.snap_layer.specs.Tree.{Tree};
ghost use Rattle.snap_merge.specs.Objects.{object, seen, is_shown_dir};
ghost use Rattle.snap_merge.specs.Walk.{Answers};
ghost use Rattle.snap_merge.specs.Resolving.{Answer, is_here, is_above, is_too_long, start_of, words_of, entered, way, met, plain_error, resolution};
ghost use Rattle.snap_merge.specs.Arrivals.{Leads, Ends, TakesAlong};

use super::error::FsError;
use super::look::Seen;
use super::stack::Stack;
use smallvec::SmallVec;
use snap_path::limits::{MAX_LINKS, MAX_NAME_BYTES, MAX_PATH_BYTES};
use snap_path::{Name, Path, PathError};
use std::alloc::{AllocError, Global};
use std::marker::Model;

/// A way of at most this number of words takes no memory for them.
const INLINE_WORDS: usize = 16;

/// How far a way was gone.
#[derive(Drop)]
pub(crate) enum Arrival<'a> {
    /// To this path, where no symlink is.
    Place(Path),
    /// To a symlink in the directory, with this target.
    Link { directory: Path, target: &'a [u8] },
}

/// Meets the path's names one after another, as far as no symlink is seen, and answers the first error. It
/// takes no memory.
pub(crate) fn check_plain(stack: &Stack<'_>, path: &Path) -> Result<(), FsError>
    ensures plain { result_err result ≡ plain_error stack.now [] path.now }
    ensures path { IsPath path.now }
{
    let names = path.names();
    if names.is_empty() {
        return Ok(());
    }
    let reach = stack.reach(names);
    if reach.dirs == 0 {
        return Err(FsError::NotDir);
    }
    if reach.dirs < names.len() {
        return met(reach.seen, false);
    }
    met(reach.seen, true)
}

/// The error where this is seen and is no directory, or is the last on the path.
fn met(seen: Option<Seen<'_>>, is_last: bool) -> Result<(), FsError>
    ensures { result_err result ≡ met (option_map object seen.entry) (if is_last then None else Some FsError.NotDir) }
{
    match seen {
        None => Err(FsError::NotFound),
        Some(Seen::Symlink { .. }) => Ok(()),
        Some(Seen::File { .. } | Seen::Dir { .. }) => {
            if is_last {
                Ok(())
            } else {
                Err(FsError::NotDir)
            }
        }
    }
}

/// Where the path leads from the root. As far as its names lead through directories one look says so, and from there
/// on the way goes word by word.
pub(crate) fn resolve(stack: &Stack<'_>, alloc: Global, path: &Path) -> Result<Path, FsError>
    ensures { Answers (resolution stack.now path.now) result }
{
    let names = path.names();
    let dirs = names.len().min(stack.reach(names).dirs.saturating_sub(1));
    let mut words = Words::of(alloc, &names[dirs..])?;
    let mut place = path.front(dirs)?;
    let mut links = MAX_LINKS;
    loop {
        match advance(stack, alloc, place, &mut words)? {
            Arrival::Place(place) => return Ok(place),
            Arrival::Link { directory, target } => {
                if links == 0 {
                    return Err(FsError::TooManyLinks);
                }
                links -= 1;
                words.put_target(alloc, target)?;
                place = leap(stack, alloc, start_of(alloc, directory, target), &mut words)?;
            }
        }
    }
}

/// Goes on from the place by the names that come next, as far as they lead through directories: where the way has
/// many words one look says so.
fn leap(
    stack: &Stack<'_>,
    alloc: Global,
    place: Path,
    words: &mut Words<'_>,
) -> Result<Path, FsError>
    ensures ok { IfOk result (λ p. (follow : Names → Names → Answer) → way follow stack.now p words.new ≡ way follow stack.now place words.old) }
    ensures err { IfErr result (λ e. e ≡ FsError.OutOfMemory no_memory) }
{
    if words.len() <= INLINE_WORDS {
        return Ok(place);
    }
    let text = words.text_from(alloc, &place)?;
    let path = match Path::parse(alloc, &text) {
        Ok(path) => path,
        Err(PathError::BadPath) => return Ok(place),
        Err(PathError::OutOfMemory(no_memory)) => return Err(FsError::OutOfMemory(no_memory)),
    };
    if !path.begins(&place) {
        return Ok(place);
    }
    let reach = stack.reach(path.names());
    let names = follow_names(words, &path, place.names().len(), reach.dirs);
    Ok(path.front(names)?)
}

/// Takes the words that go on from the path's first names by those that come next, as long as the path leads through
/// directories, and those that stand for a directory itself. Gives to how many of the names they lead.
fn follow_names(words: &mut Words<'_>, path: &Path, from: usize, dirs: usize) -> usize
    requires { from ≤ length path.now }
    ensures few { result ≤ length path.now }
    ensures way { (s : List Tree) → ((j : ℕ) → j < dirs → is_shown_dir (seen s (take j path.now)) ≡ true) → (follow : Names → Names → Answer) → way follow s (take result path.now) words.new ≡ way follow s (take from path.now) words.old }
{
    let names = path.names();
    let most = names.len().min(dirs.saturating_sub(1));
    let mut at = from;
    while at < most {
        match words.take_along(&names[at]) {
            Some(is_name) => at += usize::from(is_name),
            None => return at,
        }
    }
    at
}

/// Where a symlink in the directory leads from.
fn start_of(alloc: Global, directory: Path, target: &[u8]) -> Path
    ensures { result ≡ start_of directory target.now }
{
    match target.first() {
        Some(b'/') => Path::root(alloc),
        _ => directory,
    }
}

/// Goes on from the place, word by word, to the last one or to a symlink.
fn advance<'a>(
    stack: &Stack<'a>,
    alloc: Global,
    place: Path,
    words: &mut Words<'_>,
) -> Result<Arrival<'a>, FsError>
    ensures leads { (follow : Names → Names → Answer) → Leads follow stack.now words.new (way follow stack.now place words.old) result }
    ensures ends { Ends words.new result }
{
    let mut place = place;
    while let Some(word) = words.take() {
        match step(stack, alloc, place, word)? {
            Arrival::Place(next) => place = next,
            Arrival::Link { directory, target } => return Ok(Arrival::Link { directory, target }),
        }
    }
    Ok(Arrival::Place(place))
}

/// Goes on from the place by one word.
fn step<'a>(
    stack: &Stack<'a>,
    alloc: Global,
    place: Path,
    word: &[u8],
) -> Result<Arrival<'a>, FsError>
    ensures { (follow : Names → Names → Answer) (ws : Names) → Leads follow stack.now ws (way follow stack.now place (word.now ∷ ws)) result }
{
    if !stack.is_dir(&place) {
        return Err(FsError::NotDir);
    }
    if is_here(word) {
        return Ok(Arrival::Place(place));
    }
    if is_above(word) {
        return Ok(Arrival::Place(place.parent()?.unwrap_or(Path::root(alloc))));
    }
    if is_too_long(&place, word) {
        return Err(FsError::BadPath);
    }
    enter(stack, alloc, place, word)
}

/// Whether the word stands for the directory itself.
fn is_here(word: &[u8]) -> bool
    ensures { result ≡ is_here word.now }
{
    word.is_empty() || word == b".".as_slice()
}

/// Whether the word stands for the directory above.
fn is_above(word: &[u8]) -> bool
    ensures { result ≡ is_above word.now }
{
    word == b"..".as_slice()
}

/// Whether the word is too long for a name, or the path with it too long for a path.
fn is_too_long(place: &Path, word: &[u8]) -> bool
    ensures { result ≡ is_too_long place.now word.now }
{
    word.len() > MAX_NAME_BYTES || text_len(place) + 1 + word.len() > MAX_PATH_BYTES
}

/// The length of the path's text without the `/` that stands for the root.
fn text_len(place: &Path) -> usize
    ensures length { result ≡ length (text_below place.now) }
    ensures short { result ≤ most_path_bytes }
{
    if place.names().is_empty() {
        0
    } else {
        place.as_str().len()
    }
}

/// Goes on from the directory to its entry of this name.
fn enter<'a>(
    stack: &Stack<'a>,
    alloc: Global,
    directory: Path,
    word: &[u8],
) -> Result<Arrival<'a>, FsError>
    requires { is_too_long directory word.now ≡ false }
    ensures { (follow : Names → Names → Answer) (ws : Names) → Leads follow stack.now ws (entered (λ target. follow (start_of directory target) (words_of target ++ ws)) (way follow stack.now (directory ++ word.now ∷ []) ws) (seen stack.now (directory ++ word.now ∷ []))) result }
{
    let Some(path) = stack.entry(alloc, &directory, word)? else {
        return Err(FsError::NotFound);
    };
    match stack.look(&path) {
        Some(Seen::Symlink { target }) => Ok(Arrival::Link { directory, target }),
        Some(Seen::Dir { .. }) => Ok(Arrival::Place(path)),
        Some(Seen::File { .. }) => Ok(Arrival::Place(path)),
        None => Err(FsError::NotFound),
    }
}

/// The words of a path that are still to be resolved, the next one first. Contracts see their list.
#[derive(Drop)]
pub(crate) struct Words<'w> {
    parts: SmallVec<&'w [u8], INLINE_WORDS>,
    next: usize,
}

impl<'w> Model for Words<'w> {
    ghost use Rattle.std.specs.Prelude.{List, ℕ, ◌≤◌, drop, map, length};
    ghost use Rattle.std.specs.Borrow.{Bor};

    ghost Value = { List (List ℕ) };

    ghost view = { λ w. map (λ (part : Bor (List ℕ)). part.now) (drop w.next w.parts.items) };

    ghost invariant = { λ w. w.next ≤ length w.parts.items };
}

impl<'w> Words<'w> {
    /// The names.
    pub(crate) fn of(alloc: Global, names: &'w [Name]) -> Result<Words<'w>, AllocError>
        ensures { IfOk result (λ words. words ≡ names.now) }
    {
        let mut parts = SmallVec::new(alloc);
        for name in names {
            parts.push(name.as_str().as_bytes())?;
        }
        Ok(Words { parts, next: 0 })
    }

    /// Takes the next word.
    pub(crate) fn take(&mut self) -> Option<&'w [u8]>
        ensures { MatchOption result ((self.old ≡ []) × (self.new ≡ [])) (λ word. self.old ≡ word.now ∷ self.new) }
    {
        let word = *self.parts.as_slice().get(self.next)?;
        self.next += 1;
        Some(word)
    }

    /// How many there are.
    pub(crate) fn len(&self) -> usize {
        self.parts.len() - self.next
    }

    /// The place's text with the words at the front that are names or stand for the directory itself.
    pub(crate) fn text_from(&self, alloc: Global, place: &Path) -> Result<String, AllocError> {
        let mut text = String::new(alloc);
        if !place.names().is_empty() {
            text.push_str(place.as_str())?;
        }
        for word in &self.parts.as_slice()[self.next..] {
            put_word(&mut text, *word)?;
            if is_above(*word) {
                return Ok(text);
            }
        }
        Ok(text)
    }

    /// Takes the next word where it is the name, and says so, or where it stands for the directory itself.
    pub(crate) fn take_along(&mut self, name: &Name) -> Option<bool>
        ensures { MatchOption result (self.new ≡ self.old) (λ is_name. TakesAlong name.now is_name self.old self.new) }
    {
        let word = *self.parts.as_slice().get(self.next)?;
        if is_here(word) {
            self.next += 1;
            return Some(false);
        }
        if word == name.as_str().as_bytes() {
            self.next += 1;
            return Some(true);
        }
        None
    }

    /// Puts the words of a symlink's target before the others.
    pub(crate) fn put_target(&mut self, alloc: Global, target: &'w [u8]) -> Result<(), AllocError>
        ensures { OnOk result (self.new ≡ words_of target.now ++ self.old) }
    {
        let mut parts = SmallVec::from_vec(split_words(alloc, target)?);
        parts.extend_from_slice(&self.parts.as_slice()[self.next..])?;
        *self = Words { parts, next: 0 };
        Ok(())
    }
}

/// Puts the word last after a `/`, where it is a name's text.
fn put_word(text: &mut String, word: &[u8]) -> Result<(), AllocError> {
    if is_here(word) | is_above(word) {
        return Ok(());
    }
    if let Ok(word) = str::from_utf8(word) {
        text.push('/')?;
        text.push_str(word)?;
    }
    Ok(())
}

/// The words of a symlink's target.
fn split_words<'w>(alloc: Global, target: &'w [u8]) -> Result<Vec<&'w [u8]>, AllocError>
    ensures { IfOk result (λ parts. map (λ (part : Bor (List ℕ)). part.now) parts.items ≡ words_of target.now) }
{
    target.split(|byte| *byte == b'/').collect(alloc)
}
