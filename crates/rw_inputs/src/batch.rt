//! Holds the edits of a batch, and decides whether one of them names a cell that another edit names.
ghost use Rattle.std.specs.Prelude.{◌≡◌, [], ◌∷◌, ◌++◌, OnOk};
ghost use Rattle.std.specs.List.{list_any};
ghost use Rattle.rw_inputs.specs.EditRows.{meets};
ghost use Rattle.rw_inputs.specs.Edits.{edit_of};

use crate::edit::Edit;
use rw_base::{NoMemory, Qty};
use std::alloc::Global;
use std::marker::Model;

/// The edits of a batch, seen as their list, in the order of their rows.
#[derive(Drop)]
pub struct Batch {
    edits: Vec<Edit>,
}

impl Model for Batch {
    ghost use Rattle.rw_inputs.specs.Edits as specs;

    ghost Value = { specs.Batch };

    ghost view = { λ b. b.edits.items };
}

fn edit_of(slot: u16, first: u16, last: u16, value: Option<Qty>) -> Edit
    ensures { result ≡ edit_of slot first last value }
{
    Edit {
        slot,
        first,
        last,
        value,
    }
}

// Whether both name one cell.
fn meets(edit: &Edit, other: &Edit) -> bool
    ensures { result ≡ meets edit.now other.now }
{
    edit.slot == other.slot && (edit.first <= other.last && other.first <= edit.last)
}

// Whether the edit names a cell that one of them names.
fn meets_one(edit: &Edit, edits: &[Edit]) -> bool
    ensures { result ≡ list_any (meets edit.now) edits.now }
{
    for other in edits {
        if meets(edit, other) {
            return true;
        }
    }
    false
}

impl Batch {
    /// Returns the batch of no edits.
    pub(crate) fn none(alloc: Global) -> Batch
        ensures { result ≡ [] }
    {
        Batch {
            edits: Vec::new(alloc),
        }
    }

    /// Returns the edits, one after another.
    pub fn edits(&self) -> &[Edit]
        ensures { result.now ≡ self.now }
    {
        self.edits.as_slice()
    }

    /// Returns whether the edit names a cell that one of the batch names.
    pub(crate) fn has_named(&self, edit: &Edit) -> bool
        ensures { result ≡ list_any (meets edit.now) self.now }
    {
        meets_one(edit, self.edits.as_slice())
    }

    /// Appends an edit.
    pub(crate) fn push(&mut self, edit: &Edit) -> Result<(), NoMemory>
        ensures { OnOk result (self.new ≡ self.old ++ edit.now ∷ []) }
    {
        self.edits
            .push(edit_of(edit.slot, edit.first, edit.last, edit.value))?;
        Ok(())
    }
}
