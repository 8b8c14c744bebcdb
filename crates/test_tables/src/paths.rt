// The paths of the edits.
use super::edit::below;
use super::plain::Plain;
use rand_pcg::Pcg32;
use snap_layer::Node;
use snap_path::{Name, Path};
use std::alloc::{AllocError, Global};

/// The letters of the names.
const LETTERS: [char; 4] = ['a', 'b', 'c', 'd'];

/// How many paths have at most four of the names, and how many at most five.
const UP_TO_FOUR: usize = 341;

const UP_TO_FIVE: u32 = 1365;

/// All paths of at most five of four names. The four below the path at place `n` are at `4n + 1` and on.
#[derive(Drop)]
pub(crate) struct Paths {
    root: Path,
    pub(crate) list: Vec<Path>,
}

impl Paths {
    /// Each name is its letter, `length` times.
    pub(crate) fn new(alloc: Global, length: usize) -> Result<Paths, AllocError> {
        let mut list = Vec::new(alloc);
        list.push(Path::root(alloc))?;
        for place in 0..UP_TO_FOUR {
            for letter in LETTERS {
                if let Some(directory) = list.get(place) {
                    let path = path_below(alloc, directory, letter, length)?;
                    list.push(path)?;
                }
            }
        }
        Ok(Paths {
            root: Path::root(alloc),
            list,
        })
    }

    /// Some path: most often one whose parent is a directory of the layer.
    pub(crate) fn choose(&self, random: &mut Pcg32, plain: &Plain) -> &Path {
        if below(random, 8) == 0 {
            let place = below(random, UP_TO_FIVE) as usize;
            return self.list.get(place).unwrap_or(&self.root);
        }
        let (mut place, mut path) = (0usize, &self.root);
        for _ in 0..5 {
            let stands = plain.entries.get(path);
            if below(random, 5) == 0 || !matches!(stands, Some(Node::Dir { .. })) {
                break;
            }
            let next = below(random, 4) as usize;
            place = place.saturating_mul(4).saturating_add(1 + next);
            path = self.list.get(place).unwrap_or(&self.root);
        }
        path
    }
}

/// The path of a name in the directory: the letter, `length` times.
fn path_below(
    alloc: Global,
    directory: &Path,
    letter: char,
    length: usize,
) -> Result<Path, AllocError> {
    let mut text = String::new(alloc);
    for _ in 0..length {
        text.push(letter)?;
    }
    // Such a name and such a path are valid, so it is memory that is refused.
    let Ok(name) = Name::parse(alloc, text.as_str()) else {
        return Err(AllocError);
    };
    match directory.join(&name) {
        Ok(path) => Ok(path),
        Err(_) => Err(AllocError),
    }
}
