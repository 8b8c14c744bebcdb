use super::node::{Body, Meta};
use snap_path::Name;
use std::alloc::AllocError;
use std::collections::BTreeMap;

/// What a directory has at a name.
#[derive(Clone, Copy)]
pub enum Target {
    Whiteout,
    Inode(usize),
}

pub enum Inode {
    Dir {
        meta: Meta,
        opaque: bool,
        entries: BTreeMap<Name, Target>,
    },
    Leaf {
        number: u32,
        links: usize,
        body: Body,
    },
}

// By hand: a derived one is proved anew, part by part, wherever a value is let go.
impl Drop for Inode {
    fn drop(self) {
        match self {
            Inode::Dir {
                meta: _,
                opaque: _,
                entries: _,
            } => {}
            Inode::Leaf {
                number: _,
                links: _,
                body: _,
            } => {}
        }
    }
}

impl Clone for Inode {
    ghost use Rattle.snap_layer.specs.Walk.{Alike};

    ghost is_clone = { Alike };

    fn clone(&self) -> Result<Inode, AllocError> {
        match self {
            Inode::Dir {
                meta,
                opaque,
                entries,
            } => Ok(Inode::Dir {
                meta: *meta,
                opaque: *opaque,
                entries: entries.clone()?,
            }),
            Inode::Leaf {
                number,
                links,
                body,
            } => Ok(Inode::Leaf {
                number: *number,
                links: *links,
                body: body.clone()?,
            }),
        }
    }
}
