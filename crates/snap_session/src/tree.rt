// The snapshots of a namespace as a forest by parent.
ghost use Rattle.std.specs.Prelude.{◌≡◌, ◌≤◌, ℕ, [], length, IfOk};
ghost use Rattle.snap_call.specs.Good.{Good};
ghost use Rattle.snap_call.specs.declared.state.State.{State};
ghost use Rattle.snap_session.specs.Tree.{forest, forest_pages, forest_part, is_tree_asked, tree_node_of, tree, tree_node, walked_page};

use snap_call::{Records, Refusal, is_page, is_start};
use snap_ledger::StoreName;
use snap_record::{Filter, Info, Record, Sequence};
use snap_script::{Answer, Page, TreeNode};
use snap_world::{NoMemory, World};
use std::alloc::{AllocError, Global};

#[tactic(auto, unfolding(crate::specs::Tree::tree_node))]
fn tree_node(records: &Records, snapshot: &Record) -> Result<TreeNode, AllocError>
    ensures { IfOk result (λ node. node ≡ tree_node records.now snapshot.now) }
{
    Ok(TreeNode {
        key: snapshot.key.clone()?,
        kind: snapshot.content.kind(),
        id: snapshot.id,
        usage: snapshot.content.usage(),
        parent: snapshot.parent.clone()?,
        children: records.child_count(snapshot.namespace, snapshot.key.as_str()),
    })
}

fn forest(alloc: Global, records: &Records, place: usize) -> Result<Sequence<TreeNode>, AllocError>
    ensures { IfOk result (λ nodes. nodes ≡ forest place records.now) }
{
    let list = records.list_of(alloc, place)?;
    let mut nodes = Sequence::new(alloc);
    for record in &list {
        nodes.push(tree_node(records, record)?)?;
    }
    Ok(nodes)
}

// The snapshot of an info.
fn tree_node_of(
    records: &Records,
    place: usize,
    info: &Info,
) -> Result<Option<TreeNode>, AllocError>
    ensures { IfOk result (λ node. node ≡ tree_node_of place records.now info.now) }
{
    match records.record_at(place, info.name.as_str()) {
        Some(record) => Ok(Some(tree_node(records, record)?)),
        None => Ok(None),
    }
}

// The snapshots that a walk of this page has. It begins by a search for the text that the page begins after, and finds
// each snapshot once more by its key.
fn walked_page(
    alloc: Global,
    records: &Records,
    place: usize,
    page: &Page<'_>,
) -> Result<Sequence<TreeNode>, AllocError>
    ensures { IfOk result (λ nodes. nodes ≡ walked_page place page.now.after page.now.most records.now) }
{
    let all = Filter {
        name: None,
        parent: None,
        kind: None,
        labels: Sequence::new(alloc),
    };
    let after = page.after.as_str();
    let infos = records.page(alloc, place, after, page.most as usize, &all)?;
    let mut nodes = Sequence::new(alloc);
    for info in infos.as_slice() {
        if let Some(node) = tree_node_of(records, place, info)? {
            nodes.push(node)?;
        }
    }
    Ok(nodes)
}

// All snapshots, or the page that is asked for.
fn forest_part<N: StoreName>(
    alloc: Global,
    world: &World<N>,
    place: usize,
    page: &Option<Page<'_>>,
) -> Result<Sequence<TreeNode>, AllocError>
    ensures { IfOk result (λ nodes. nodes ≡ forest_part page.now (forest place world.now.state.records)) }
{
    let records = world.records();
    match page {
        Some(page) => walked_page(alloc, records, place, page),
        None => forest(alloc, records, place),
    }
}

// Whether a page can be asked for so.
fn is_tree_asked(page: &Option<Page<'_>>) -> bool
    ensures { result ≡ is_tree_asked page.now }
{
    match page {
        Some(page) => is_start(page.after.as_str()) && is_page(page.most),
        None => true,
    }
}

pub(crate) fn tree<N: StoreName>(
    alloc: Global,
    world: &World<N>,
    namespace: &str,
    page: &Option<Page<'_>>,
) -> Result<Answer, NoMemory>
    ensures { IfOk result (λ answer. answer ≡ tree world.now.state namespace.now page.now) }
{
    if !is_tree_asked(page) {
        return Ok(Answer::refused(Refusal::BadArgument));
    }
    let Some(place) = world.state().place_of(namespace) else {
        return Ok(Answer::refused(Refusal::NoNamespace));
    };
    Ok(Answer::Tree(forest_part(alloc, world, place, page)?))
}

/// Does nothing: its clause is a law. The pages of a tree, the first after the empty text and each other one after the last
/// key of the one before, are together the whole tree, each snapshot once and in its place, whatever is the most that a page
/// has.
#[tactic(auto, using(crate::proofs::TreeLaws::all_pages))]
pub fn tree_pages()
    ensures { (s : State) (place most n : ℕ) → Good s → 1 ≤ most → length (forest place s.records) ≤ n → forest_pages n [] most (forest place s.records) ≡ forest place s.records }
{}
