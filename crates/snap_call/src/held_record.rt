// A record in memory of its own.
ghost use Rattle.std.specs.Prelude.{◌≡◌, IfOk};
ghost use Rattle.snap_call.specs.Records.{unlabelled};
ghost use Rattle.snap_call.specs.Spaces.{IsEditOf, edited_record};

use crate::record_edit::RecordEdit;
use crate::records::slot_of;
use snap_layer::Shared;
use snap_path::NoMemory;
use snap_record::{Content, Labels, Record, Sequence};
use std::alloc::{AllocError, Global};
use std::marker::Model;
use std::sync::Arc;

// Who has it.
#[derive(Debug, Drop)]
enum Holding {
    // It has one holder.
    Own(Box<Record>),
    // It may have several, and does not change. It isn't active.
    Shared(Arc<Record>),
}

/// A record in memory of its own, which no map moves. One that isn't active may have several holders. Contracts see the
/// record.
#[derive(Debug)]
pub struct HeldRecord {
    holding: Holding,
}

// By hand: a derived one is proved anew, part by part, wherever a value is let go.
impl Drop for HeldRecord {
    fn drop(self) {
        let HeldRecord { holding: _ } = self;
    }
}

impl Model for HeldRecord {
    ghost use Rattle.snap_record.specs.declared.record.Record.{Record};
    ghost use Rattle.snap_call.specs.Held.{IsHolding, record_held};

    ghost Value = { Record };

    ghost view = { λ h. record_held h.holding };

    ghost invariant = { λ h. IsHolding h.holding };
}

impl HeldRecord {
    /// Takes memory for the record without its texts.
    pub(crate) fn new(alloc: Global, value: Record) -> Result<HeldRecord, NoMemory>
        ensures { IfOk result (λ h. h ≡ value) }
    {
        let holding = if slot_of(&value.content).is_some() {
            Holding::Own(Box::new(alloc, value)?)
        } else {
            Holding::Shared(Arc::new(alloc, value)?)
        };
        Ok(HeldRecord { holding })
    }

    /// The record. Takes no memory.
    pub fn record(&self) -> &Record
        ensures { result.now ≡ self.now }
    {
        match &self.holding {
            Holding::Own(boxed) => boxed,
            Holding::Shared(shared) => shared,
        }
    }

    /// The record once more: with one more holder, or where it is active with a copy.
    ///
    /// Takes memory only for a copy with its texts and labels; fails only where that is refused. The cost grows with
    /// these.
    pub(crate) fn again(&self, alloc: Global) -> Result<HeldRecord, AllocError>
        ensures { IfOk result (λ h. h ≡ self.now) }
    {
        let holding = match &self.holding {
            Holding::Own(boxed) => {
                let copy = copy_with(alloc, boxed, boxed.labels.clone()?)?;
                Holding::Own(Box::new(alloc, copy)?)
            }
            Holding::Shared(shared) => Holding::Shared(shared.clone()?),
        };
        Ok(HeldRecord { holding })
    }

    pub(crate) fn edit(&mut self, edit: RecordEdit)
        requires { IsEditOf edit self.old }
        ensures { self.new ≡ edited_record edit self.old }
    {
        match edit {
            RecordEdit::Content(content) => {
                if let Holding::Own(boxed) = &mut self.holding {
                    boxed.content = content;
                }
            }
            RecordEdit::Labels {
                labels,
                number,
                mut copy,
            } => {
                if let Holding::Own(boxed) = &mut self.holding {
                    boxed.labels = labels;
                    boxed.updated = number;
                    return;
                }
                copy.labels = labels;
                copy.updated = number;
                self.holding = Holding::Own(copy);
            }
        }
    }
}

// The same layers.
fn layers_again(alloc: Global, layers: &[Shared]) -> Result<Sequence<Shared>, AllocError>
    ensures { IfOk result (λ same. same ≡ layers.now) }
{
    let mut same = Vec::with_capacity(alloc, layers.len())?;
    for layer in layers {
        same.push(layer.again()?)?;
    }
    Ok(Sequence::from(same))
}

// The same content.
fn content_again(alloc: Global, content: &Content) -> Result<Content, AllocError>
    ensures { IfOk result (λ same. same ≡ content.now) }
{
    match content {
        Content::View { layers } => Ok(Content::View {
            layers: layers_again(alloc, layers.as_slice())?,
        }),
        Content::Active { slot, charged } => Ok(Content::Active {
            slot: *slot,
            charged: *charged,
        }),
        Content::Committed { layer, usage } => Ok(Content::Committed {
            layer: layer.again()?,
            usage: *usage,
        }),
    }
}

// A copy of a record with these labels.
fn copy_with(alloc: Global, record: &Record, labels: Labels) -> Result<Record, AllocError>
    ensures { IfOk result (λ copy. copy ≡ record «record».now { labels = labels }) }
{
    Ok(Record {
        namespace: record.namespace,
        key: record.key.clone()?,
        parent: record.parent.clone()?,
        id: record.id,
        labels,
        created: record.created,
        updated: record.updated,
        content: content_again(alloc, &record.content)?,
    })
}

/// A copy of a record without its labels, for [`Records::relabel`](crate::Records::relabel). Its layers are shared.
///
/// Takes memory for it with its texts; fails only where it is refused. The cost grows with these, and with the number of
/// layers that a view shows.
pub fn unlabelled(alloc: Global, record: &Record) -> Result<Box<Record>, AllocError>
    ensures { IfOk result (λ copy. copy.value ≡ unlabelled «record».now) }
{
    let copy = copy_with(alloc, record, Labels::new(alloc))?;
    Ok(Box::new(alloc, copy)?)
}
