// What the layer of a snapshot changes.
ghost use Rattle.std.specs.Prelude.{◌≡◌, IfOk, Some, None};
ghost use Rattle.snap_session.specs.Diff.{after_of, diff, page_of};

use snap_call::{Refusal, is_page};
use snap_diff::changes;
use snap_layer::{Layer, Shared};
use snap_ledger::StoreName;
use snap_merge::FsError;
use snap_path::{Path, PathError};
use snap_record::Sequence;
use snap_script::Answer;
use snap_world::{NoMemory, World};
use std::alloc::Global;

// The path that a page begins after: none where the text is empty, an error where it is no path.
fn after_of(alloc: Global, text: &str) -> Result<Result<Option<Path>, FsError>, NoMemory>
    ensures { IfOk result (λ after. after ≡ after_of text.now) }
{
    if text.is_empty() {
        return Ok(Ok(None));
    }
    match Path::parse(alloc, text) {
        Ok(path) => Ok(Ok(Some(path))),
        Err(PathError::BadPath) => Ok(Err(FsError::BadPath)),
        Err(PathError::OutOfMemory(no_memory)) => Err(no_memory),
    }
}

// A page of what the layer changes of what the lower ones show.
fn page_of(
    alloc: Global,
    layer: &Layer,
    lowers: &[Shared],
    after: &str,
    most: u64,
) -> Result<Answer, NoMemory>
    ensures { IfOk result (λ answer. answer ≡ page_of most (Some (layer.now, lowers.now)) (after_of after.now)) }
{
    match after_of(alloc, after)? {
        Ok(after) => {
            let found = changes(alloc, layer, lowers, after.as_ref(), most as usize)?;
            Ok(Answer::Diff(Sequence::from(found)))
        }
        Err(error) => Ok(Answer::Failed(error)),
    }
}

// The page of a view, which changes nothing.
fn empty_page(alloc: Global, after: &str, most: u64) -> Result<Answer, NoMemory>
    ensures { IfOk result (λ answer. answer ≡ page_of most None (after_of after.now)) }
{
    match after_of(alloc, after)? {
        Ok(_) => Ok(Answer::Diff(Sequence::new(alloc))),
        Err(error) => Ok(Answer::Failed(error)),
    }
}

// The page of a snapshot's changes after a path, at most `most`.
pub(crate) fn diff<N: StoreName>(
    alloc: Global,
    world: &World<N>,
    namespace: &str,
    key: &str,
    after: &str,
    most: u64,
) -> Result<Answer, NoMemory>
    ensures { IfOk result (λ answer. answer ≡ diff world.now namespace.now key.now after.now most) }
{
    if !is_page(most) {
        return Ok(Answer::refused(Refusal::BadArgument));
    }
    if let Some((layer, lowers)) = world.own(namespace, key)? {
        return page_of(alloc, layer, lowers.as_slice(), after, most);
    }
    match world.stack(namespace, key) {
        Ok(_) => empty_page(alloc, after, most),
        Err(why) => Ok(Answer::refused(why)),
    }
}
