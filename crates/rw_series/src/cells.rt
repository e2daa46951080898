//! Reads and writes cells in the list that keeps those of all columns and timesteps.
ghost use Rattle.std.specs.Prelude.{◌≡◌, ◌==◌, ◌*◌, ◌≤◌, ◌&&◌, ℕ, IsTrue, if◌then◌else◌, vec_len, length, map};
ghost use Rattle.rw_series.specs.Kept.{content_of};
ghost use Rattle.rw_series.specs.Cells.{is_kept, position_of, kept_at};

use crate::kept::{Kept, content_of, kept_of};
use rw_model::Content;

// Whether there is such a slot and such a timestep.
fn is_kept(slots: u16, steps: u16, slot: u16, step: u16) -> bool
    ensures { result ≡ is_kept slots steps slot step }
{
    (1 <= slot && slot <= slots) && (1 <= step && step <= steps)
}

// The place of a cell, counted from 0.
fn position_of(slots: u16, slot: u16, step: u16) -> usize
    requires slot { 1 ≤ slot }
    requires step { 1 ≤ step }
    ensures { result ≡ position_of slots slot step }
{
    usize::from(step - 1) * usize::from(slots) + usize::from(slot - 1)
}

/// Returns what is kept of a slot at a timestep, which is nothing where there is no such cell.
pub(crate) fn kept_at(
    cells: &[Kept],
    slots: u16,
    steps: u16,
    slot: u16,
    step: u16,
) -> Option<Content>
    requires { length cells.now ≡ slots * steps }
    ensures { result ≡ kept_at slots steps (map content_of cells.now) slot step }
{
    if is_kept(slots, steps, slot, step) {
        content_of(&cells[position_of(slots, slot, step)])
    } else {
        None
    }
}

/// Makes one cell hold the content.
pub(crate) fn keep_at(
    cells: &mut Vec<Kept>,
    slots: u16,
    steps: u16,
    slot: u16,
    step: u16,
    content: Option<Content>,
)
    requires whole { vec_len cells.old ≡ slots * steps }
    requires kept { IsTrue (is_kept slots steps slot step) }
    ensures cells { (s t : ℕ) → kept_at slots steps (map content_of cells.new.items) s t
        ≡ (if s == slot && t == step then content
        else kept_at slots steps (map content_of cells.old.items) s t) }
    ensures whole { vec_len cells.new ≡ vec_len cells.old }
{
    cells[position_of(slots, slot, step)] = kept_of(content);
}
