// A layer as two ordered maps: what is read of it.
use snap_layer::{Body, Meta, Node};
use snap_path::limits::MAX_PATH_BYTES;
use snap_path::{Name, Path};
use std::alloc::{AllocError, Global};
use std::collections::BTreeMap;

/// A layer as an ordered map from paths to nodes and one from numbers to bodies, for comparison with
/// `snap_layer::Layer`. It answers what the layer does. Each answer counts from scratch, and passes over all paths.
#[derive(Drop)]
pub(crate) struct Plain {
    pub(crate) alloc: Global,
    pub(crate) entries: BTreeMap<Path, Node>,
    pub(crate) bodies: BTreeMap<u32, Body>,
    pub(crate) next: u32,
    /// The most inodes that it may have.
    pub(crate) most: usize,
}

/// What stands at a path, and what may be done there: a call of the layer each.
#[derive(Clone, Copy, PartialEq)]
pub(crate) struct Standing {
    pub(crate) at: Option<Node>,
    pub(crate) has_parent: bool,
    pub(crate) has_room: bool,
    pub(crate) has_place: bool,
    pub(crate) is_takeable: bool,
    pub(crate) inodes_without: Option<usize>,
}

impl Plain {
    /// The layer of an empty root directory, with the number of its first file and the most inodes that it may
    /// have.
    pub(crate) fn empty_from(
        alloc: Global,
        meta: Meta,
        first: u32,
        most: usize,
    ) -> Result<Plain, AllocError> {
        let mut entries = BTreeMap::new(alloc);
        let root = Node::Dir {
            meta,
            opaque: false,
        };
        entries.insert(Path::root(alloc), root)?;
        Ok(Plain {
            alloc,
            entries,
            bodies: BTreeMap::new(alloc),
            next: first,
            most,
        })
    }

    /// A copy of the layer.
    pub(crate) fn copy(&self) -> Result<Plain, AllocError> {
        Ok(Plain {
            alloc: self.alloc,
            entries: self.entries.clone()?,
            bodies: self.bodies.clone()?,
            next: self.next,
            most: self.most,
        })
    }

    /// Whether the entries, the bodies, the next numbers and the most inodes are the same.
    pub(crate) fn is_same(&self, other: &Plain) -> bool {
        self.entries == other.entries
            && self.bodies == other.bodies
            && (self.next, self.most) == (other.next, other.most)
    }

    /// What stands at the path of a path's first `names` names.
    pub(crate) fn at_front(&self, path: &Path, names: usize) -> Option<Node> {
        let front = path.names().get(..names)?;
        for (other, node) in &self.entries {
            if other.names() == front {
                return Some(*node);
            }
        }
        None
    }

    /// Whether these are the names in a directory, in their order.
    pub(crate) fn has_children(&self, path: &Path, children: &[Name]) -> bool {
        let mut children = children.iter();
        for (other, _) in &self.entries {
            if let Some(name) = name_below(path, other) {
                if children.next() != Some(name) {
                    return false;
                }
            }
        }
        children.next().is_none()
    }

    /// The file number at the path.
    pub(crate) fn number_at(&self, path: &Path) -> Option<u32> {
        self.entries.get(path)?.number()
    }

    /// How many names the file number has.
    pub(crate) fn link_count(&self, number: u32) -> usize {
        let mut links = 0usize;
        for (_, node) in &self.entries {
            links = links.saturating_add(usize::from(node.has_number(number)));
        }
        links
    }

    /// The least number above `after` that a file or symlink has.
    pub(crate) fn next_body(&self, after: u32) -> Option<u32> {
        for (number, _) in &self.bodies {
            if *number > after {
                return Some(*number);
            }
        }
        None
    }

    /// The directories and the whiteouts; these, and the files and symlinks; the blocks of the directories and the
    /// files; and the number of the next file or symlink.
    pub(crate) fn sums(&self) -> ((usize, usize), usize, u64, u32) {
        let (mut dirs, mut whiteouts, mut blocks) = (0usize, 0usize, 0u64);
        for (_, node) in &self.entries {
            dirs = dirs.saturating_add(usize::from(node.is_dir()));
            whiteouts = whiteouts.saturating_add(usize::from(node.is_whiteout()));
            blocks = blocks.saturating_add(u64::from(node.is_dir()));
        }
        for (_, body) in &self.bodies {
            blocks = blocks.saturating_add(body.blocks());
        }
        let unnumbered = dirs.saturating_add(whiteouts);
        let inodes = unnumbered.saturating_add(self.bodies.len());
        ((dirs, whiteouts), inodes, blocks, self.next)
    }

    pub(crate) fn standing(&self, path: &Path) -> Standing {
        let at = self.entries.get(path).copied();
        let names = path.names().len();
        let parent = if names > 0 {
            self.at_front(path, names - 1)
        } else {
            None
        };
        let has_parent = matches!(parent, Some(Node::Dir { .. }));
        let mut has_whiteouts_alone = true;
        for (other, node) in &self.entries {
            if !node.is_whiteout() && name_below(path, other).is_some() {
                has_whiteouts_alone = false;
            }
        }
        let has_place = has_parent && has_whiteouts_alone;
        let inodes_without = if has_place {
            Some(self.inodes_without(path))
        } else {
            None
        };
        Standing {
            at,
            has_parent,
            has_room: has_parent && matches!(at, None | Some(Node::Whiteout)),
            has_place,
            is_takeable: names > 0 && at.is_some() && has_whiteouts_alone,
            inodes_without,
        }
    }

    /// The inodes that are left where what stands at the path and the whiteouts below it are taken. A file or symlink
    /// goes where it has no other name.
    pub(crate) fn inodes_without(&self, path: &Path) -> usize {
        let mut left = self.bodies.len();
        for (other, node) in &self.entries {
            if !other.begins(path) && node.number().is_none() {
                left = left.saturating_add(1);
            }
        }
        match self.number_at(path) {
            Some(number) if self.link_count(number) == 1 => left.saturating_sub(1),
            _ => left,
        }
    }

    /// Whether a new file may be added at `from` with one more name at `to`; whether what stands at `from` may move to
    /// `to`; and whether it and all below it would have paths of at most 4095 bytes there, or one path is the root.
    pub(crate) fn between(&self, from: &Path, to: &Path) -> (bool, bool, bool) {
        let (source, target) = (self.standing(from), self.standing(to));
        let (front, length) = (from.as_str().len(), to.as_str().len());
        let mut is_short = true;
        for (path, _) in &self.entries {
            if path.begins(from) && path.as_str().len() + length > MAX_PATH_BYTES + front {
                is_short = false;
            }
        }
        let is_apart = !to.begins(from) && !from.begins(to);
        let has_root = from.names().is_empty() || to.names().is_empty();
        (
            source.at.is_none() && source.has_parent && target.has_room && from != to,
            source.at.is_some() && target.has_place && is_apart && is_short,
            has_root || is_short,
        )
    }
}

/// The name, where the path lies in the directory.
fn name_below<'a>(directory: &Path, path: &'a Path) -> Option<&'a Name> {
    let (name, above) = path.names().split_last()?;
    if above == directory.names() {
        Some(name)
    } else {
        None
    }
}
