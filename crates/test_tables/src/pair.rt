// A layer and the plain layer, and whether they are the same.
use super::edit::{Answer, Edit, below};
use super::on_layer::{between, edit_layer, standing};
use super::paths::Paths;
use super::plain::Plain;
use rand_pcg::Pcg32;
use snap_layer::{Layer, LayerError, Meta};
use snap_path::Path;
use snap_path::limits::DEFAULT_LAYER_INODES;
use std::alloc::{AllocError, Global};

/// Why the comparison ends.
#[derive(Clone, Copy, Debug)]
pub(crate) enum Fault {
    /// This is one for the layer and another for the plain one.
    Differs(&'static str),
    NoMemory,
}

impl From<AllocError> for Fault {
    ghost from_gives = { λ _ _. Unit {0} };

    fn from(_error: AllocError) -> Fault {
        Fault::NoMemory
    }
}

/// A layer and the plain one, on which the same edits were made.
#[derive(Drop)]
pub(crate) struct Pair {
    layer: Layer,
    pub(crate) plain: Plain,
    first: u32,
}

fn check(is_same: bool, what: &'static str) -> Result<(), Fault> {
    if is_same {
        Ok(())
    } else {
        Err(Fault::Differs(what))
    }
}

impl Pair {
    /// Empty layers. Those of every fourth pair have few numbers for files left, and others may have few inodes.
    pub(crate) fn new(alloc: Global, random: &mut Pcg32) -> Result<Pair, AllocError> {
        let mode = below(random, 4096);
        let meta = Meta { mode };
        let few = below(random, 100);
        let (first, most) = match below(random, 4) {
            0 => (u32::MAX - few, DEFAULT_LAYER_INODES),
            1 => (1, 1 + few as usize),
            _ => (1 + few, DEFAULT_LAYER_INODES),
        };
        let layer = if most == DEFAULT_LAYER_INODES {
            Layer::empty_from(alloc, meta, first)?
        } else {
            Layer::within(alloc, meta, most)?
        };
        Ok(Pair {
            layer,
            plain: Plain::empty_from(alloc, meta, first, most)?,
            first,
        })
    }

    /// Makes the edit on both, and compares what it answers and where it was made; at a pause everything, and copies
    /// before and after the edit is made on them once more.
    pub(crate) fn edit(
        &mut self,
        edit: &Edit,
        pause: Option<&Paths>,
    ) -> Result<Result<Answer, LayerError>, Fault> {
        let made = edit_layer(&mut self.layer, edit);
        check(made == self.plain.edit(edit), "the answer")?;
        if let Err(LayerError::OutOfMemory(_)) = made {
            return Err(Fault::NoMemory);
        }
        let (tally, inodes) = (self.layer.tally(), self.layer.inodes());
        let sums = (tally, inodes, self.layer.blocks(), self.layer.next_number());
        check(sums == self.plain.sums(), "a sum")?;
        self.compare_at(edit.path)?;
        self.compare_at(edit.to)?;
        let between = between(&self.layer, edit.path, edit.to);
        check(
            between == self.plain.between(edit.path, edit.to),
            "two paths",
        )?;
        self.compare_body(edit.number)?;
        if let Some(paths) = pause {
            self.compare_all(paths)?;
            self.compare_copies(edit)?;
        }
        Ok(made)
    }

    /// Compares what stands at the path and at those above it, and what may be done there.
    fn compare_at(&self, path: &Path) -> Result<(), Fault> {
        check(
            standing(&self.layer, path) == self.plain.standing(path),
            "a path",
        )?;
        for names in 0..path.names().len() {
            let at = self.layer.at_front(path, names);
            check(at == self.plain.at_front(path, names), "a path's front")?;
        }
        Ok(())
    }

    /// Compares the file or symlink with the number, how many names it has, and the number after it.
    fn compare_body(&self, number: u32) -> Result<(), Fault> {
        let (layer, plain) = (&self.layer, &self.plain);
        check(layer.body(number) == plain.bodies.get(&number), "a body")?;
        check(
            layer.link_count(number) == plain.link_count(number),
            "the names of a body",
        )?;
        check(
            layer.next_body(number) == plain.next_body(number),
            "the next body",
        )
    }

    fn compare_all(&self, paths: &Paths) -> Result<(), Fault> {
        for path in &paths.list {
            let at = self.layer.at(path);
            check(at == self.plain.entries.get(path).copied(), "a node")?;
        }
        for (path, _) in &self.plain.entries {
            self.compare_at(path)?;
            let children = self.layer.children(path)?;
            check(
                self.plain.has_children(path, &children),
                "the names in a directory",
            )?;
        }
        self.compare_body(0)?;
        for number in self.first..self.plain.next {
            self.compare_body(number)?;
        }
        Ok(())
    }

    fn compare_copies(&self, edit: &Edit) -> Result<(), Fault> {
        let mut layer = self.layer.copy()?;
        let mut plain = self.plain.copy()?;
        check(layer == self.layer && plain.is_same(&self.plain), "a copy")?;
        check(
            edit_layer(&mut layer, edit) == plain.edit(edit),
            "the answer of a copy",
        )?;
        let is_same = layer == self.layer;
        check(
            is_same == plain.is_same(&self.plain),
            "a copy after an edit",
        )
    }
}
