//! Marks the rules that what an event writes reaches.
ghost use Rattle.std.specs.Prelude.{◌≡◌};
ghost use Rattle.rw_dispatch.specs.Writes.{AreWrites};
ghost use Rattle.rw_writes.specs.Writes.{MarksAll};

use rw_agenda::Agenda;
use rw_model::Basin;
use rw_run::Write;

/// Marks the rules that looked at a cell which shares its value with one that is written.
#[inline(always)]
pub fn mark(basin: &Basin, agenda: &mut Agenda, writes: &[Write])
    requires can { AreWrites basin.now writes.now }
    ensures order { agenda.new.order ≡ agenda.old.order }
    ensures rules { agenda.new.rules ≡ agenda.old.rules }
    ensures marked { MarksAll basin.now writes.now agenda.old agenda.new }
{
    if agenda.is_idle() {
        return;
    }
    for write in writes {
        agenda.changed(basin, write.cell);
    }
}
