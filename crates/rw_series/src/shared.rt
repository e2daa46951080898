//! Decides whether two cells share their value.
ghost use Rattle.std.specs.Prelude.{◌≡◌};
ghost use Rattle.rw_model.specs.Draft.{IsSlot};
ghost use Rattle.rw_model.specs.Kept.{numbers_of};
ghost use Rattle.rw_model.specs.Links.{is_among};
ghost use Rattle.rw_series.specs.Series.{is_shared};

use rw_base::{Cell, SlotNo};
use rw_model::Basin;

// Whether a slot is in a group.
fn is_in(group: &[SlotNo], slot: SlotNo) -> bool
    ensures { result ≡ is_among slot.0 (numbers_of group.now) }
{
    for other in group {
        if slot.0 == other.0 {
            return true;
        }
    }
    false
}

/// Returns whether a cell shares its value with this one: it is at the same timestep, and of the same slot or of one that a link
/// joins to it.
pub fn is_shared(basin: &Basin, c: Cell, other: Cell) -> bool
    requires { IsSlot basin.now.objects c.slot.0 }
    ensures { result ≡ is_shared basin.now c other }
{
    is_in(basin.group(c.slot), other.slot) && other.step.0 == c.step.0
}
