// What a layer has at a path, from which a walk goes on name by name.
ghost use Rattle.std.specs.Prelude.{◌≡◌, ◌&&◌, ◌++◌, ◌∷◌, [], not, is_some, option_and_then};
ghost use Rattle.std.specs.Bound.{bound_map};
ghost use Rattle.std.specs.Option.{option_copied, option_map};
ghost use Rattle.snap_path.specs.Text.{Names};
ghost use Rattle.snap_layer.specs.Tree.{Tree, node_hides};
ghost use Rattle.snap_layer.specs.Layers.{IsLayer};
ghost use Rattle.snap_layer.specs.Directory.{entry, IsFirstName};
ghost use Rattle.snap_merge.specs.Objects.{object};
ghost use Rattle.snap_diff.specs.Places.{directory_names, shown_over, IsOwnPlace};

use snap_layer::{Dir, Layer, Node};
use snap_merge::{Seen, node_hides, shown_at};
use snap_path::Name;
use std::ops::Bound;

/// What a layer has at a path: the node, the directory that it is, and whether the layer hides there what the layers
/// below have.
#[derive(Drop)]
pub(crate) struct Own<'a> {
    node: Option<Node>,
    dir: Option<Dir<'a>>,
    hidden: bool,
}

impl<'a> Own<'a> {
    /// At the root.
    pub(crate) fn root(layer: &'a Layer) -> Own<'a>
        ensures { IsOwnPlace layer.now [] result.node result.dir result.hidden }
    {
        let dir = layer.root_dir();
        Own {
            node: Some(dir.node()),
            dir: Some(dir),
            hidden: false,
        }
    }

    /// At the name in the directory: the logarithm of its entries.
    pub(crate) fn entry(&self, name: &Name) -> Own<'a>
        ensures { (t : Tree) (p : Names) → IsLayer t → IsOwnPlace t p self.now.node self.now.dir self.now.hidden → IsOwnPlace t (p ++ name.now ∷ []) result.node result.dir result.hidden }
    {
        let hidden = self.hidden | node_hides(self.node);
        match self.find(name) {
            Some((node, dir)) => Own {
                node: Some(node),
                dir,
                hidden,
            },
            None => Own {
                node: None,
                dir: None,
                hidden,
            },
        }
    }

    /// What the directory has at the name.
    fn find(&self, name: &Name) -> Option<(Node, Option<Dir<'a>>)>
        ensures { result ≡ option_and_then (λ d. entry d name.now) self.now.dir }
    {
        match &self.dir {
            Some(dir) => dir.entry(name),
            None => None,
        }
    }

    /// The first of the directory's names from the bound on: the logarithm of its entries.
    pub(crate) fn first_name(&self, from: Bound<&Name>) -> Option<&'a Name>
        ensures { IsFirstName (bound_map (λ n. n.now) from.entry) (directory_names self.now.dir) (option_copied result) }
    {
        match &self.dir {
            Some(dir) => dir.first_name(from),
            None => None,
        }
    }

    /// What is seen at the path, over what the layers below show there.
    pub(crate) fn seen_over(&self, layer: &'a Layer, old: Option<Seen<'a>>) -> Option<Seen<'a>>
        ensures { option_map object result ≡ shown_over layer.now self.now.node self.now.hidden (option_map object old.entry) }
    {
        match self.node {
            Some(node) => shown_at(layer, node),
            None if self.hidden => None,
            None => old,
        }
    }

    /// Whether the layer has nothing at the path, and nothing that hides it.
    pub(crate) fn is_untouched(&self) -> bool
        ensures { result ≡ (not (is_some self.now.node) && not self.now.hidden) }
    {
        self.node.is_none() && !self.hidden
    }

    /// Whether the layer hides nothing of a directory at the path.
    pub(crate) fn is_merged(&self) -> bool
        ensures { result ≡ (not (node_hides self.now.node) && not self.now.hidden) }
    {
        !node_hides(self.node) && !self.hidden
    }
}
