//! Converts between the place of a rule and its turn in the agenda's order.
ghost use Rattle.std.specs.Prelude.{◌≡◌, ◌≤◌, ◌<◌, Some};
ghost use Rattle.std.specs.List.{slice_get};
ghost use Rattle.rw_run.specs.Next.{agenda_of};
ghost use Rattle.rw_agenda.specs.Marks.{agenda_turn};

use rw_model::AgendaOrder;

/// Returns the number of the rule whose turn it is, of `rules` rules in the order of an agenda. Turns count from 0.
pub(crate) fn rule_in_turn(order: AgendaOrder, rules: u16, turn: u16) -> u16
    requires { turn < rules }
    ensures turn { slice_get (agenda_of order rules) turn ≡ Some result }
    ensures first { 1 ≤ result }
    ensures last { result ≤ rules }
{
    match order {
        AgendaOrder::HighFirst => turn + 1,
        AgendaOrder::LowFirst => rules - turn,
    }
}

/// Returns the turn of the rule in a place, of `rules` rules in the order of an agenda. Both count from 0.
pub(crate) fn turn_of(order: AgendaOrder, rules: u16, place: u16) -> u16
    requires { place < rules }
    ensures turn { result ≡ agenda_turn order rules place }
    ensures last { result < rules }
{
    match order {
        AgendaOrder::HighFirst => place,
        AgendaOrder::LowFirst => rules - 1 - place,
    }
}
