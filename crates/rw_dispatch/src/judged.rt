//! Judges the puts of a dispatch by the put rules, and keeps those that are written.
ghost use Rattle.std.specs.Prelude.{◌≡◌, ℕ, [], IfOk, IfErr};
ghost use Rattle.rw_model.specs.Put.{end_of_put};
ghost use Rattle.rw_run.specs.Log.{Cells, Event};
ghost use Rattle.rw_run.specs.Dispatch.{asked_for, denied_by, is_written, judged, or_fault, view_of};
ghost use Rattle.rw_dispatch.specs.Putting.{ArePassed, ArePuts, IsPassed, conflict, puts_made};
ghost use Rattle.rw_dispatch.specs.Writes.{AreWrites};
ghost use Rattle.rw_model.specs.Turn.{IsTurn};

use crate::write_list::WriteList;
use crate::written::asked_by;
use rw_base::{ObjectNo, SlotNo, StepNo};
use rw_method::{PutList, View};
use rw_model::{Basin, Content, PutEnd, put_end};
use rw_run::Write;

/// A put that is denied.
#[derive(Drop)]
pub(crate) struct Clash {
    /// The slot.
    pub(crate) slot: SlotNo,
    /// The value that is there.
    pub(crate) held: i128,
    /// The value that the object solved.
    pub(crate) solved: i128,
}

// Whether what is asked for is written, by what its cell holds, unless it is denied.
fn judge_one(held: Option<Content>, asked: &Write) -> Result<bool, Clash>
    ensures passed { IfOk result (IsPassed held asked.now) }
    ensures clash { IfErr result (λ clash. (object : ℕ) (rest : Event)
        → or_fault (denied_by (end_of_put held asked.now.content) asked.now) object asked.now rest
        ≡ conflict object asked.now.cell.step.0 clash.slot clash.held clash.solved) }
{
    match put_end(held, asked.content) {
        PutEnd::Written => Ok(true),
        PutEnd::Kept => Ok(false),
        PutEnd::Denied(held) => Err(Clash {
            slot: asked.cell.slot,
            held: i128::from(held.value.get()),
            solved: i128::from(asked.content.value.get()),
        }),
    }
}

/// Adds what those of the puts write that are written, by what the object sees: that is what the cells hold before the first of
/// them. The first put that is denied is the error.
#[inline(always)]
pub(crate) fn judge(
    view: &View,
    basin: &Basin,
    object: ObjectNo,
    step: StepNo,
    asked: &PutList,
    writes: &mut WriteList,
) -> Result<(), Clash>
    requires turn { IsTurn basin.now object.0 step.0 }
    requires puts { ArePuts basin.now object.0 asked.now }
    requires none { writes.old ≡ [] }
    ensures passed { IfOk result (λ _. (cells : Cells)
        → view.entry.now ≡ view_of basin.now cells object.0 step.0
        → ArePassed basin.now cells object.0 step.0 asked.now writes.new) }
    ensures clash { IfErr result (λ clash. (cells : Cells) (rest : Event)
        → view.entry.now ≡ view_of basin.now cells object.0 step.0
        → judged cells object.0 (asked_for basin.now object.0 step.0 asked.now) rest
        ≡ conflict object.0 step.0 clash.slot clash.held clash.solved) }
    ensures can { AreWrites basin.now writes.new }
{
    // Its slots are found once for all puts.
    let row = basin.row(object);
    for put in asked.as_slice() {
        let write = asked_by(row, object, step, put);
        if judge_one(view.known(put.place), &write)? {
            writes.push(write);
        }
    }
    Ok(())
}

// Whether a put is written.
fn is_written(held: Option<Content>, asked: Content) -> bool
    ensures { result ≡ is_written (end_of_put held asked) }
{
    match put_end(held, asked) {
        PutEnd::Written => true,
        PutEnd::Kept => false,
        PutEnd::Denied(_) => false,
    }
}

/// Returns those of the puts that are written, by what the object sees, where none is denied.
pub(crate) fn puts_made(
    view: &View,
    basin: &Basin,
    object: ObjectNo,
    step: StepNo,
    asked: &PutList,
) -> PutList
    requires turn { IsTurn basin.now object.0 step.0 }
    requires puts { ArePuts basin.now object.0 asked.now }
    ensures { (cells : Cells)
        → view.entry.now ≡ view_of basin.now cells object.0 step.0
        → result ≡ puts_made basin.now cells object.0 step.0 asked.now }
{
    let row = basin.row(object);
    let mut made = PutList::none();
    for put in asked.as_slice() {
        let write = asked_by(row, object, step, put);
        if is_written(view.known(put.place), write.content) {
            made.push(*put);
        }
    }
    made
}
