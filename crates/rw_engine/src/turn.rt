//! Counts the turns of dispatches over all timesteps.
ghost use Rattle.std.specs.Prelude.{◌≡◌, ◌≤◌, ◌+◌};
ghost use Rattle.rw_engine.specs.Picked.{next_turn_number};

/// The turn after a dispatch, which stays at the greatest number.
pub(crate) fn next_turn(turn: u64) -> u64
    ensures is { result ≡ next_turn_number turn }
    ensures rises { turn ≤ result }
    ensures few { result ≤ turn + 1 }
{
    turn.saturating_add(1)
}
