//! Applies a batch of edits to inputs.
ghost use Rattle.std.specs.Prelude.{◌≡◌, IfOk, OnOk};
ghost use Rattle.std.specs.List.{All};
ghost use Rattle.rw_inputs.specs.Edits.{IsBatch, IsEdit, after_batch};
ghost use Rattle.rw_inputs.specs.Inputs.{IsInputsOf, value_at};

use crate::batch::Batch;
use crate::edit::Edit;
use crate::inputs::Inputs;
use rw_base::NoMemory;
use rw_model::Basin;
use std::alloc::Global;

// Sets what the edits say, one after another.
fn set_each(inputs: &mut Inputs, basin: &Basin, edits: &[Edit]) -> Result<(), NoMemory>
    requires made { IsInputsOf basin.now inputs.old }
    requires edits { All (IsEdit basin.now) edits.now }
    ensures made { IsInputsOf basin.now inputs.new }
    ensures values { OnOk result (value_at inputs.new
        ≡ after_batch edits.now (value_at inputs.old)) }
{
    for edit in edits {
        inputs.set(basin, edit)?;
    }
    Ok(())
}

/// Returns the inputs after a batch of edits: where one of its edits names a cell, the value that it says or none, and elsewhere
/// what was given. A removal of what is not given changes nothing. The inputs themselves stay. The one error is want of memory.
/// `docs/FORMATS.md` has edits under "Edits".
pub fn apply(
    alloc: Global,
    basin: &Basin,
    inputs: &Inputs,
    batch: &Batch,
) -> Result<Inputs, NoMemory>
    requires inputs { IsInputsOf basin.now inputs.now }
    requires batch { IsBatch basin.now batch.now }
    ensures values { IfOk result (λ edited. value_at edited
        ≡ after_batch batch.now (value_at inputs.now)) }
    ensures made { IfOk result (IsInputsOf basin.now) }
{
    let mut edited = inputs.copy(alloc)?;
    set_each(&mut edited, basin, batch.edits())?;
    Ok(edited)
}
