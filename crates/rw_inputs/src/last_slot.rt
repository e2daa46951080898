//! Remembers the slot that the last row named, which the next row often names again.
ghost use Rattle.std.specs.Prelude.{◌≡◌, ◌≢◌, IfOk, Ok, OnOk, true};
ghost use Rattle.rw_model.specs.Draft.{Draft, IsSlot};
ghost use Rattle.rw_inputs.specs.LastSlot.{IsLastSlot};
ghost use Rattle.rw_inputs.specs.Row.{read_slot};

use crate::row::read_slot;
use crate::wrong::Wrong;
use rw_base::NoMemory;
use rw_model::Basin;
use std::alloc::Global;

/// A text and the slot that it names, which is 0 where none is kept.
#[derive(Drop)]
pub(crate) struct LastSlot {
    pub(crate) text: Vec<u8>,
    pub(crate) slot: u16,
}

// Puts a text in the place of another.
fn keep_text(kept: &mut Vec<u8>, text: &[u8]) -> Result<(), NoMemory>
    ensures { OnOk result (kept.new.items ≡ text.now) }
{
    kept.clear();
    kept.extend_from_slice(text)?;
    Ok(())
}

// Keeps the slot that a text names, where there is memory for it.
fn keep(last: &mut LastSlot, basin: &Basin, text: &[u8], slot: u16)
    requires named { read_slot basin.now text.now ≡ Ok slot }
    requires known { IsSlot basin.now.objects slot }
    ensures { IsLastSlot basin.now last.new }
{
    last.slot = 0;
    match keep_text(&mut last.text, text) {
        Ok(()) => last.slot = slot,
        Err(NoMemory) => last.slot = 0,
    }
}

impl LastSlot {
    /// Returns the state in which none is kept.
    pub(crate) fn none(alloc: Global) -> LastSlot
        ensures { (basin : Draft) → IsLastSlot basin result }
    {
        LastSlot {
            text: Vec::new(alloc),
            slot: 0,
        }
    }

    // Whether it is the one that a text names.
    fn is_of(&self, text: &[u8]) -> bool
        ensures { result ≡ true → (self.now.slot ≢ 0) × (self.now.text.items ≡ text.now) }
    {
        if self.slot == 0 {
            false
        } else {
            self.text.as_slice() == text
        }
    }

    /// Returns what `read_slot` returns, and sooner where the last row named the slot too.
    pub(crate) fn read(&mut self, basin: &Basin, text: &[u8]) -> Result<u16, Wrong>
        requires last { IsLastSlot basin.now self.old }
        ensures last { IsLastSlot basin.now self.new }
        ensures read { result ≡ read_slot basin.now text.now }
        ensures known { IfOk result (IsSlot basin.now.objects) }
    {
        if self.is_of(text) {
            return Ok(self.slot);
        }
        match read_slot(basin, text) {
            Ok(slot) => {
                keep(self, basin, text, slot);
                Ok(slot)
            }
            Err(wrong) => Err(wrong),
        }
    }
}
