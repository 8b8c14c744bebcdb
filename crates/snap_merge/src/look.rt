// What is seen at a path: what one layer says of it, and the lower layers one after another.
ghost use Rattle.std.specs.Prelude.{◌≡◌, ◌≤◌, ◌+◌, List, length, MatchOption};
ghost use Rattle.std.specs.Option.{option_map};
ghost use Rattle.snap_layer.specs.Layers.{IsLayer};
ghost use Rattle.snap_layer.specs.Tree.{Tree, body, hides, node_hides};
ghost use Rattle.snap_merge.specs.Objects.{object, shown, shown_body, is_shown_dir, AreLayers};
ghost use Rattle.snap_merge.specs.Reach.{Begun, Reached, Steps, Traced};
ghost use Rattle.snap_merge.specs.Shares.{Shares};
ghost use Rattle.snap_merge.specs.Row.{dir_at, hides_inside};
ghost use Rattle.snap_merge.specs.Rules.{LayerRules};

use snap_layer::{Body, Content, Dir, Layer, Meta, Node, Shared};
use snap_path::{Name, Path};

/// What is seen at a path. Contents and targets are lent by the layer that has them.
#[derive(Clone, Copy, Debug)]
pub enum Seen<'a> {
    /// A directory. Where several layers have it, the meta is the topmost one's.
    Dir { meta: Meta },
    /// A regular file.
    File { meta: Meta, content: &'a Content },
    /// A symlink.
    Symlink { target: &'a [u8] },
}

/// How far a path leads in a stack of layers.
#[derive(Clone, Copy)]
pub(crate) struct Reach<'a> {
    /// How many of the path's prefixes show directories, from the root on.
    pub(crate) dirs: usize,
    /// What is seen at the next prefix, or at the path itself where all of them show directories.
    pub(crate) seen: Option<Seen<'a>>,
}

/// What one layer adds to how far a path leads in the layers above it.
#[derive(Clone, Copy)]
pub(crate) enum Step<'a> {
    /// It leads no further, whatever the layers below have.
    Ends(Reach<'a>),
    /// It leads through this number of directories, and the layers below say where to from there.
    GoesOn(usize),
}

/// What one layer has of a directory.
#[derive(Drop)]
pub(crate) struct Share<'a> {
    /// The directory, where the layer has one at the path.
    pub(crate) dir: Option<Dir<'a>>,
    /// Whether the layer hides what the layers below have in the directory.
    pub(crate) hides: bool,
}

/// How far a path leads in one layer.
#[derive(Drop)]
struct Trace<'a> {
    /// How many of the path's prefixes are directories, from the root on.
    dirs: usize,
    /// What stands at the next prefix, or at the path itself where all of them are directories.
    node: Option<Node>,
    /// Whether an opaque directory stands above that.
    hidden: bool,
    /// The directory at the path, where all of them are directories.
    dir: Option<Dir<'a>>,
}

/// How far the names lead in the lower layers, after the directories that the layers above have. A layer is
/// left at the first name that it doesn't have, and the layers below it are not asked where it hides them.
pub(crate) fn reach_below<'a>(lowers: &'a [Shared], names: &[Name], dirs: usize) -> Reach<'a>
    requires { dirs ≤ length names.now }
    ensures { (s : List Tree) → Begun s names.now dirs lowers.now → Reached s names.now result.dirs (option_map object result.seen) }
{
    let mut dirs = dirs;
    for shared in lowers {
        match step_through(shared.layer(), names, dirs) {
            Step::Ends(reach) => return reach,
            Step::GoesOn(further) => dirs = further,
        }
    }
    Reach { dirs, seen: None }
}

/// What the layer adds, after the directories that the layers above it have.
pub(crate) fn step_through<'a>(layer: &'a Layer, names: &[Name], dirs: usize) -> Step<'a>
    requires { dirs ≤ length names.now }
    ensures { Steps layer.now names.now dirs result }
{
    let trace = trace_in(layer, names);
    if trace.dirs < dirs {
        if trace.hidden || node_hides(trace.node) {
            return Step::Ends(Reach { dirs, seen: None });
        }
        return Step::GoesOn(dirs);
    }
    match trace.node {
        Some(node) => Step::Ends(Reach {
            dirs: trace.dirs,
            seen: shown_at(layer, node),
        }),
        None if trace.hidden => Step::Ends(Reach {
            dirs: trace.dirs,
            seen: None,
        }),
        None => Step::GoesOn(trace.dirs),
    }
}

/// How far the names lead in the layer: one look-up in one directory for each name.
fn trace_in<'a>(layer: &'a Layer, names: &[Name]) -> Trace<'a>
    ensures traced { Traced layer.now names.now result.dirs result.node result.hidden }
    ensures dir { MatchOption result.dir (result.dirs ≤ length names.now) (λ d. (d ≡ record { layer = layer.now; path = names.now }) × (result.dirs ≡ length names.now + 1)) }
    ensures layer { IsLayer layer.now }
{
    let mut dir = layer.root_dir();
    let mut node = dir.node();
    let mut hidden = false;
    for (dirs, name) in names.iter().enumerate() {
        hidden |= node_hides(Some(node));
        match dir.entry(name) {
            Some((entry, Some(next))) => {
                node = entry;
                dir = next;
            }
            Some((entry, None)) => {
                return Trace {
                    dirs: dirs + 1,
                    node: Some(entry),
                    hidden,
                    dir: None,
                };
            }
            None => {
                return Trace {
                    dirs: dirs + 1,
                    node: None,
                    hidden,
                    dir: None,
                };
            }
        }
    }
    Trace {
        dirs: names.len() + 1,
        node: Some(node),
        hidden,
        dir: Some(dir),
    }
}

/// What the layer has of the directory at the path of the names: one walk of the layer.
pub(crate) fn share_in<'a>(layer: &'a Layer, names: &[Name]) -> Share<'a>
    ensures shares { Shares layer.now names.now result.dir result.hides }
    ensures dir { result.dir ≡ dir_at layer.now names.now }
    ensures hides { result.hides ≡ hides_inside layer.now names.now }
    ensures layer { IsLayer layer.now }
{
    let trace = trace_in(layer, names);
    let hides = trace.hidden | node_hides(trace.node);
    Share {
        dir: trace.dir,
        hides,
    }
}

/// Shows a proof that each of the layers is one by `IsLayer`. Nothing is left of it in a program: its loop does
/// nothing.
pub fn show_are_layers(lowers: &[Shared])
    ensures { AreLayers lowers.now }
{
    for shared in lowers {
        shared.layer();
    }
}

/// Whether a directory is seen.
pub fn is_dir(seen: Option<Seen<'_>>) -> bool
    ensures { result ≡ is_shown_dir (option_map object seen.entry) }
{
    matches!(seen, Some(Seen::Dir { .. }))
}

/// Whether the layer hides what the layers below have at the path: above the path, in this layer, a
/// whiteout, a file, a symlink or an opaque directory stands (overlayfs.rst, "whiteouts and opaque
/// directories"). What stands at the path itself doesn't count.
///
/// Takes no memory. Cost: for each name of the path the logarithm of a directory's entries.
pub fn hides(layer: &Layer, path: &Path) -> bool
    ensures value { result ≡ hides layer.now path.now }
    // The rules of overlayfs.rst, for what the layer does at the path.
    ensures rules { LayerRules layer.now path.now }
{
    hides_names(layer, path.names())
}

/// The same of the path of the names.
fn hides_names(layer: &Layer, names: &[Name]) -> bool
    ensures { result ≡ hides layer.now names.now }
{
    let trace = trace_in(layer, names);
    if trace.hidden {
        return true;
    }
    if names.len() <= trace.dirs {
        return false;
    }
    node_hides(trace.node)
}

/// Whether what a layer has at a path hides what the layers below have under it: a whiteout, a file, a symlink or an
/// opaque directory (overlayfs.rst, "whiteouts and opaque directories"). Takes no memory. The cost is constant.
pub fn node_hides(node: Option<Node>) -> bool
    ensures { result ≡ node_hides node }
{
    match node {
        None => false,
        Some(Node::Dir { opaque, .. }) => opaque,
        Some(Node::File { .. }) => true,
        Some(Node::Symlink { .. }) => true,
        Some(Node::Whiteout) => true,
    }
}

/// What a node of the layer shows, by itself: a file or a symlink what is in it, a directory its meta, and a whiteout
/// nothing. Takes no memory. The cost grows with the logarithm of the number of the layer's inodes.
pub fn shown_at<'a>(layer: &'a Layer, node: Node) -> Option<Seen<'a>>
    ensures { option_map object result ≡ shown layer.now node }
{
    match node {
        Node::Dir { meta, .. } => Some(Seen::Dir { meta }),
        Node::File { number } => shown_body(layer, number),
        Node::Symlink { number } => shown_body(layer, number),
        Node::Whiteout => None,
    }
}

/// What the body with the number shows.
fn shown_body<'a>(layer: &'a Layer, number: u32) -> Option<Seen<'a>>
    ensures { option_map object result ≡ shown_body (body layer.now number) }
{
    match layer.body(number)? {
        Body::File { meta, content } => Some(Seen::File {
            meta: *meta,
            content,
        }),
        Body::Symlink { target } => Some(Seen::Symlink {
            target: target.as_slice(),
        }),
    }
}
