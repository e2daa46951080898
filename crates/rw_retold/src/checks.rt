//! Checks whether what a line of a trace names exists: of the lines of a run it always does.
ghost use Rattle.std.specs.Prelude.{◌≡◌, ◌≤◌, ◌↔◌, false, true, IsTrue};
ghost use Rattle.rw_calendar.specs.declared.limits.TheConstants.{STEPS_MAX};
ghost use Rattle.rpl_code.specs.declared.block.BlockHead.TheVariants.{Rule as RuleHead};
ghost use Rattle.rpl_verify.specs.Fits.{count_alike};
ghost use Rattle.rw_dispatch.specs.Writes.{CanWrite};
ghost use Rattle.rw_model.specs.Draft.{IsObject, IsSlot};
ghost use Rattle.rw_model.specs.Links.{IsBetween};
ghost use Rattle.rw_model.specs.Turn.{IsStep, is_data};
ghost use Rattle.rw_series.specs.Series.{IsCell};

use rpl_verify::Verified;
use rw_base::{Cell, ObjectNo, Qty, RuleNo, StepNo};
use rw_model::Basin;
use rw_run::Write;

/// Whether it is a timestep of the run.
pub(crate) fn is_step(basin: &Basin, step: StepNo) -> bool
    ensures is { (result ≡ true) ↔ IsStep basin.now step.0 }
    ensures few { result ≡ true → step.0 ≤ STEPS_MAX }
{
    1 <= step.0 && step.0 <= basin.control().stamps.count()
}

fn is_object(basin: &Basin, object: ObjectNo) -> bool
    ensures { (result ≡ true) ↔ IsObject basin.now.objects object.0 }
{
    1 <= object.0 && object.0 <= basin.object_count()
}

/// Whether an object is there and has a method.
pub(crate) fn has_method(basin: &Basin, object: ObjectNo) -> bool
    ensures known { result ≡ true → IsObject basin.now.objects object.0 }
    ensures solves { result ≡ true → is_data basin.now object.0 ≡ false }
    ensures data { result ≡ false → is_data basin.now object.0 ≡ true }
{
    if is_object(basin, object) {
        basin.kind_code(object) != 0
    } else {
        false
    }
}

/// Whether the policy has a rule.
pub(crate) fn is_rule(policy: &Verified, rule: RuleNo) -> bool
    ensures first { result ≡ true → 1 ≤ rule.0 }
    ensures last { result ≡ true → rule.0 ≤ count_alike RuleHead policy.now.blocks }
    ensures there { 1 ≤ rule.0 → rule.0 ≤ count_alike RuleHead policy.now.blocks → result ≡ true }
{
    1 <= rule.0 && rule.0 <= policy.rule_count()
}

fn is_cell(basin: &Basin, cell: Cell) -> bool
    ensures { (result ≡ true) ↔ IsCell basin.now cell }
{
    1 <= cell.slot.0 && cell.slot.0 <= basin.slot_count() && is_step(basin, cell.step)
}

fn is_between(bounds: (i64, i64), value: Qty) -> bool
    ensures { (result ≡ true) ↔ IsBetween bounds value }
{
    bounds.0 <= value.get() && value.get() <= bounds.1
}

/// Whether it may be written.
pub(crate) fn can_write(basin: &Basin, write: &Write) -> bool
    ensures { (result ≡ true) ↔ CanWrite basin.now write.now }
{
    if is_cell(basin, write.cell) {
        is_between(basin.bounds(write.cell.slot), write.content.value)
    } else {
        false
    }
}
