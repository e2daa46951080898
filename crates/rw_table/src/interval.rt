//! Interpolates between two neighbouring rows of a table in whole numbers, rounded down.
ghost use Rattle.std.specs.Prelude.{◌≡◌, ℕ, pos, ◌+◌, ◌-◌, ◌*◌, ◌/◌, ◌<◌, ◌≤◌, ◌-ℤ◌, ◌≤ℤ◌, ◌<ℤ◌};
ghost use Rattle.rw_table.specs.Table.{IsWithinBounds, IsAbove};
ghost use Rattle.rw_table.specs.Line.{between, IsLastOnLine};

// Of a rise over a run, the share of it after `along` of the run, rounded down. What fits 64 bits is divided there: that is
// quicker.
fn share(along: u64, rise: u64, run: u64) -> u64
    requires { along < run }
    ensures share { result ≡ along * rise / run }
    ensures below { 0 < rise → result < rise }
{
    match along.checked_mul(rise) {
        Some(product) => product / run,
        None => (u128::from(along) * u128::from(rise) / u128::from(run)) as u64,
    }
}

// How far along the run the share of the rise is still at most `held`, which is less than the rise.
fn reach(held: u64, rise: u64, run: u64) -> u64
    requires less { held < rise }
    requires some { 0 < run }
    ensures at_most { result * rise / run ≤ held }
    ensures greatest { (along : ℕ) → result < along → held < along * rise / run }
    ensures below { result < run }
{
    match (held + 1).checked_mul(run) {
        Some(product) => (product - 1) / rise,
        None => (((u128::from(held) + 1) * u128::from(run) - 1) / u128::from(rise)) as u64,
    }
}

fn distance(from: i64, to: i64) -> u64
    requires { from ≤ℤ to }
    ensures { to -ℤ from ≡ pos result }
{
    to.abs_diff(from)
}

/// Returns the volume in m3 on the line from one row to the next, at an elevation of e mm between them, rounded down.
pub(crate) fn volume_between(low: (i64, i64), high: (i64, i64), e: i64) -> i64
    requires low { IsWithinBounds low }
    requires high { IsWithinBounds high }
    requires above { IsAbove high low }
    requires from_low { low.0 ≤ℤ e }
    requires to_high { e <ℤ high.0 }
    ensures { result ≡ between low high e }
{
    let along = distance(low.0, e);
    let rise = distance(low.1, high.1);
    let run = distance(low.0, high.0);
    let gained = share(along, rise, run);
    low.1 + gained as i64
}

/// Returns the last elevation in mm on the line from one row to the next whose volume is at most s m3.
pub(crate) fn elevation_between(low: (i64, i64), high: (i64, i64), s: i64) -> i64
    requires low { IsWithinBounds low }
    requires high { IsWithinBounds high }
    requires above { IsAbove high low }
    requires from_low { low.1 ≤ℤ s }
    requires to_high { s <ℤ high.1 }
    ensures { IsLastOnLine low high s result }
{
    let held = distance(low.1, s);
    let rise = distance(low.1, high.1);
    let run = distance(low.0, high.0);
    let climbed = reach(held, rise, run);
    low.0 + climbed as i64
}
