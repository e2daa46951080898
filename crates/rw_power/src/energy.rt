//! Computes the energy of a release, and the minimum release that gives an energy.
ghost use Rattle.std.specs.Prelude.{◌≡◌, ◌≤◌, pos, option_map, option_and_then, unwrap_or, ◌+ℤ◌, ◌-ℤ◌, ◌*ℤ◌, ◌≤ℤ◌, ◌<ℤ◌, ℤ, Some};
ghost use Rattle.std.specs.Int.{int_max, int_min};
ghost use Rattle.rw_base.specs.Quotient.{floor_div};
ghost use Rattle.rw_table.specs.Curve.{elev_of};
ghost use Rattle.rw_method.specs.Power.{head_from, energy_of, least_release, quotient_release, release_quotient, up_to};
ghost use Rattle.rw_method.specs.Term.{IsWithin};
ghost use Rattle.rw_power.specs.Bounds.{IsFall, IsPoweredFall};

use rw_base::Qty;
use rw_method::power_law::least_release_by_a_quotient;
use rw_method::released;
use rw_table::Rating;

// How far one elevation is above another.
fn above(elevation: i64, other: i64) -> i64
    requires elevation { IsFall elevation }
    requires other { pos 0 ≤ℤ other }
    ensures fall { result ≡ elevation -ℤ other }
    ensures bound { result ≤ℤ pos 10000000 }
{
    elevation - other
}

// How far water falls from an elevation.
fn head_from(elevation: i64, tailwater: i64) -> i64
    requires elevation { IsFall elevation }
    requires tailwater { pos 0 ≤ℤ tailwater }
    ensures fall { result ≡ head_from elevation tailwater }
    ensures bound { IsFall result }
{
    above(elevation, tailwater).max(0)
}

fn elevation_of(rating: &Rating, storage: i64) -> Option<i64>
    ensures elevation { result ≡ elev_of rating.now storage }
    ensures bound { (elevation : ℤ) → result ≡ Some elevation → IsFall elevation }
{
    rating.elev(storage)
}

/// Returns the head: how far water falls from the pool elevation of the timestep before, in mm, and 0 where that is not known.
pub(crate) fn head_of(rating: &Rating, tailwater: i64, past: Option<Qty>) -> i64
    requires { pos 0 ≤ℤ tailwater }
    ensures fall { result ≡ unwrap_or (option_map (λ elevation. head_from elevation tailwater)
        (option_and_then (elev_of rating.now) past)) (pos 0) }
    ensures bound { IsFall result }
{
    let Some(storage) = past else {
        return 0;
    };
    match elevation_of(rating, storage.get()) {
        Some(elevation) => head_from(elevation, tailwater),
        None => 0,
    }
}

// A fall at a power.
fn powered(head: i64, power: u16) -> i128
    requires { IsFall head }
    ensures product { result ≡ head *ℤ pos power }
    ensures bound { IsPoweredFall result }
{
    i128::from(head) * i128::from(power)
}

fn product(release: i64, powered: i128) -> i128
    requires { IsPoweredFall powered }
    ensures { result ≡ release *ℤ powered }
{
    i128::from(release) * powered
}

// The energy of a release in kWh.
fn energy_of(power: u16, head: i64, release: i64) -> i128
    requires { IsFall head }
    ensures { result ≡ energy_of power head release }
{
    product(release, powered(head, power)).div_euclid(1_000_000_000)
}

/// Returns the energy in kWh of what is released of an outflow.
pub(crate) fn energy_released(power: u16, head: i64, max_release: i64, outflow: i64) -> i128
    requires { IsFall head }
    ensures { result ≡ energy_of power head (int_min outflow max_release) }
{
    energy_of(power, head, released(outflow, max_release))
}

// Just less than so much energy, by what a release of 10^9 m3 gives.
fn just_less(energy: i64) -> i128
    ensures amount { result ≡ energy *ℤ pos 1000000000 -ℤ pos 1 }
    ensures bound { IsWithin 100000 result }
{
    i128::from(energy) * 1_000_000_000 - 1
}

fn quotient(amount: i128, divisor: i128) -> i128
    requires amount { IsWithin 100000 amount }
    requires divisor { pos 0 <ℤ divisor }
    ensures count { result ≡ floor_div amount divisor }
    ensures bound { IsWithin 100000 result }
{
    amount.div_euclid(divisor)
}

// How many releases there are below the least one, of an energy above 0 and a fall above 0.
fn whole_releases(power: u16, head: i64, energy: i64) -> i128
    requires head { IsFall head }
    requires fall { pos 0 <ℤ head }
    requires power { 1 ≤ power }
    ensures count { result ≡ floor_div (energy *ℤ pos 1000000000 -ℤ pos 1) (head *ℤ pos power) }
    ensures bound { IsWithin 100000 result }
{
    quotient(just_less(energy), powered(head, power))
}

// The least release.
fn release_quotient(power: u16, head: i64, energy: i64) -> i128
    requires head { IsFall head }
    requires fall { pos 0 <ℤ head }
    requires power { 1 ≤ power }
    ensures { result ≡ release_quotient power head energy }
{
    let count = whole_releases(power, head, energy);
    count + 1
}

// It, where it isn't above the greatest one.
fn up_to(max_release: i64, release: i128) -> Option<i64>
    requires { pos 0 ≤ℤ release }
    ensures { result ≡ up_to max_release release }
{
    if release <= i128::from(max_release) {
        Some(release as i64)
    } else {
        None
    }
}

// The least release by a quotient.
fn quotient_release(power: u16, head: i64, max_release: i64, energy: i64) -> Option<i64>
    requires head { IsFall head }
    requires power { 1 ≤ power }
    ensures { result ≡ quotient_release power head max_release energy }
{
    if energy <= 0 {
        return Some(0);
    }
    if head == 0 {
        return None;
    }
    up_to(max_release, release_quotient(power, head, energy))
}

/// Returns the minimum release, up to the maximum one, that gives this much energy, where there is one.
pub(crate) fn least_release(power: u16, head: i64, max_release: i64, energy: i64) -> Option<i64>
    requires head { IsFall head }
    requires power { 1 ≤ power }
    requires most { pos 0 ≤ℤ max_release }
    ensures { result ≡ option_map pos (least_release power head max_release energy) }
{
    least_release_by_a_quotient();
    quotient_release(power, head, max_release, energy)
}
