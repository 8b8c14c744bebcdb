// The edits of the layer of two ordered maps.
use super::edit::{Answer, Edit, Kind};
use super::on_layer::{is_short, is_target};
use super::plain::Plain;
use snap_layer::{Body, Bytes, Content, LayerError, Meta, Node};
use snap_path::Path;
use snap_path::limits::MAX_MODE;
use std::alloc::{AllocError, Global};
use std::collections::BTreeMap;

impl Plain {
    /// Whether the edit's condition holds.
    fn admits(&self, edit: &Edit) -> bool {
        let standing = self.standing(edit.path);
        let has_mode = edit.mode <= MAX_MODE;
        match edit.kind {
            Kind::AddDir => has_mode && standing.has_room,
            Kind::AddFile => has_mode && is_short(edit.bytes) && standing.has_place,
            Kind::AddSymlink => is_target(edit.bytes) && standing.has_place,
            Kind::AddName => {
                let is_named = self.number_at(edit.path) == Some(edit.number);
                self.bodies.get(&edit.number).is_some() && !is_named && standing.has_place
            }
            Kind::AddLinked => {
                has_mode && is_short(edit.bytes) && self.between(edit.path, edit.to).0
            }
            Kind::AddWhiteout => standing.has_place,
            Kind::TakeName => standing.is_takeable,
            Kind::MoveTree => self.between(edit.path, edit.to).1,
            Kind::SetBytes => {
                let body = self.bodies.get(&edit.number);
                is_short(edit.bytes) && matches!(body, Some(Body::File { .. }))
            }
            Kind::SetOpaque => matches!(standing.at, Some(Node::Dir { .. })),
            Kind::SetMode => {
                has_mode
                    && matches!(
                        standing.at,
                        Some(Node::Dir { .. }) | Some(Node::File { .. })
                    )
            }
        }
    }

    /// Makes the edit where its condition holds.
    pub(crate) fn edit(&mut self, edit: &Edit) -> Result<Answer, LayerError> {
        if !self.admits(edit) {
            return Ok(Answer::Refused);
        }
        let path = edit.path;
        match edit.kind {
            Kind::AddDir => {
                self.check_inodes(path, true)?;
                let (meta, opaque) = (Meta { mode: edit.mode }, edit.mark);
                self.replace(path, Node::Dir { meta, opaque })?;
            }
            Kind::AddWhiteout => {
                self.check_inodes(path, true)?;
                self.replace(path, Node::Whiteout)?;
            }
            Kind::AddFile | Kind::AddSymlink => {
                return Ok(Answer::Numbered(self.insert(path, edit)?));
            }
            Kind::AddLinked => {
                let number = self.insert(edit.to, edit)?;
                self.replace(path, Node::File { number })?;
            }
            Kind::AddName => self.add_name(path, edit.number)?,
            Kind::TakeName => self.take_name(path),
            Kind::MoveTree => self.move_tree(path, edit.to, edit.mark)?,
            Kind::SetBytes => self.set_body(edit.number, edit)?,
            Kind::SetOpaque | Kind::SetMode => self.set_node(edit)?,
        }
        Ok(Answer::Made)
    }

    /// Adds one more name of a file or symlink in place of what stands at the path.
    fn add_name(&mut self, path: &Path, number: u32) -> Result<(), AllocError> {
        let node = match self.bodies.get(&number) {
            Some(Body::Symlink { .. }) => Node::Symlink { number },
            _ => Node::File { number },
        };
        self.replace(path, node)
    }

    /// Takes what stands at the path and below it. A file or symlink at the path goes with its last name.
    fn take_name(&mut self, path: &Path) {
        let number = self.number_at(path);
        self.entries.retain(|other, _| !other.begins(path));
        if let Some(number) = number {
            if self.link_count(number) == 0 {
                self.bodies.remove(&number);
            }
        }
    }

    /// Moves what stands at `from`, and all below it, to `to`, in place of what stands there.
    fn move_tree(&mut self, from: &Path, to: &Path, leaves: bool) -> Result<(), LayerError> {
        self.check_inodes(to, leaves)?;
        self.take_name(to);
        let mut entries = BTreeMap::new(self.alloc);
        for (path, node) in &self.entries {
            entries.insert(relocated(self.alloc, path, from, to)?, *node)?;
        }
        if leaves {
            entries.insert(from.clone()?, Node::Whiteout)?;
        }
        self.entries = entries;
        Ok(())
    }

    /// Gives a directory its mark, or a directory or file its mode.
    fn set_node(&mut self, edit: &Edit) -> Result<(), AllocError> {
        if let Some(number) = self.number_at(edit.path) {
            return self.set_body(number, edit);
        }
        let Some(Node::Dir { meta, opaque }) = self.entries.get(edit.path).copied() else {
            return Ok(());
        };
        let node = match edit.kind {
            Kind::SetOpaque => Node::Dir {
                meta,
                opaque: edit.mark,
            },
            _ => Node::Dir {
                meta: Meta {
                    mode: edit.mode,
                    ..meta
                },
                opaque,
            },
        };
        self.entries.insert(edit.path.clone()?, node)?;
        Ok(())
    }

    /// Gives a file its mode, or other bytes. The number is a file's, by the condition.
    fn set_body(&mut self, number: u32, edit: &Edit) -> Result<(), AllocError> {
        let Some(Body::File { meta, content }) = self.bodies.remove(&number) else {
            return Ok(());
        };
        let body = match edit.kind {
            Kind::SetBytes => Body::File {
                meta,
                content: Content::Bytes(Bytes::copy_of(self.alloc, edit.bytes)?),
            },
            _ => Body::File {
                meta: Meta {
                    mode: edit.mode,
                    ..meta
                },
                content,
            },
        };
        self.bodies.insert(number, body)?;
        Ok(())
    }

    /// `LayerFull` where what stands at the path is taken, an inode is added, and the layer may not have that many.
    fn check_inodes(&self, path: &Path, adds: bool) -> Result<(), LayerError> {
        if self.inodes_without(path).saturating_add(usize::from(adds)) > self.most {
            return Err(LayerError::LayerFull);
        }
        Ok(())
    }

    /// Puts the edit's new file or symlink, which has the next number, in place of what stands at the path.
    fn insert(&mut self, path: &Path, edit: &Edit) -> Result<u32, LayerError> {
        let number = self.next;
        if number == u32::MAX {
            return Err(LayerError::LayerFull);
        }
        self.check_inodes(path, true)?;
        let bytes = Bytes::copy_of(self.alloc, edit.bytes)?;
        let meta = Meta { mode: edit.mode };
        let (node, body) = match edit.kind {
            Kind::AddSymlink => (Node::Symlink { number }, Body::Symlink { target: bytes }),
            _ => {
                let content = Content::Bytes(bytes);
                (Node::File { number }, Body::File { meta, content })
            }
        };
        self.bodies.insert(number, body)?;
        self.replace(path, node)?;
        self.next = number + 1;
        Ok(number)
    }

    /// Puts the node in place of what stands at the path and below it.
    fn replace(&mut self, path: &Path, node: Node) -> Result<(), AllocError> {
        self.take_name(path);
        self.entries.insert(path.clone()?, node)?;
        Ok(())
    }
}

/// The path with `to` in place of its front `from`, where it begins with that.
fn relocated(alloc: Global, path: &Path, from: &Path, to: &Path) -> Result<Path, AllocError> {
    if !path.begins(from) {
        return path.clone();
    }
    let below = path.as_str().strip_prefix(from.as_str()).unwrap_or("");
    let text = format!(in alloc; "{to}{below}")?;
    // The condition rules out a path that is too long, so it is memory that is refused.
    match Path::parse(alloc, text.as_str()) {
        Ok(moved) => Ok(moved),
        Err(_) => Err(AllocError),
    }
}
