//! Puts all that a power reservoir solves and derives once its balance is solved.
ghost use Rattle.std.specs.Prelude.{◌≡◌, ◌<◌, ◌+◌, ◌≤◌, ◌∷◌, ℤ, [], length, OnOk, IfOk, Some};
ghost use Rattle.std.specs.Int.{int_min};
ghost use Rattle.rw_method.specs.declared.places.TheConstants.{ENERGY, OUTFLOW};
ghost use Rattle.rw_method.specs.Power.{energy_of, plant};
ghost use Rattle.rw_method.specs.Puts.{put, flow_puts, energy_puts, held_after_puts};
ghost use Rattle.rw_method.specs.Solve.{AllFit, answer_of_puts};
ghost use Rattle.rw_method.specs.Asking.{Asks, can_get};
ghost use Rattle.rw_power.specs.Answering.{asked_puts, front_puts};
ghost use Rattle.rw_power.specs.Bounds.{IsFall};

use crate::energy::energy_released;
use crate::flows::ask_flows;
use rw_method::places::{ENERGY, OUTFLOW, POOL_ELEVATION, POWER_RELEASE, POWER_SPILL, STORAGE};
use rw_method::{
    Balanced, Given, PutList, Solved, Term, View, ask, ask_level, ask_released, held_after,
};
use rw_table::Rating;

// Puts the energy of what is released of an outflow.
fn ask_energy(
    view: &View,
    rating: &Rating,
    puts: &mut PutList,
    max_release: i64,
    power: u16,
    head: i64,
    outflow: Given,
) -> Result<(), Solved>
    requires few { length puts.old < 8 }
    requires fall { IsFall head }
    ensures asks { Asks (can_get (Some rating.now) view.entry.now)
        (put ENERGY (energy_of power head (int_min outflow.value max_release)) outflow.number ∷ [])
        puts.old puts.new result }
    ensures room { OnOk result (length puts.new ≤ length puts.old + 1) }
{
    let energy = energy_released(power, head, max_release, outflow.value);
    ask(view, Some(rating), puts, ENERGY, energy, outflow.number)
}

// Puts the energy, and the release and the spill of an outflow.
fn ask_parts(
    view: &View,
    rating: &Rating,
    puts: &mut PutList,
    max_release: i64,
    power: u16,
    head: i64,
    outflow: Given,
) -> Result<(), Solved>
    requires few { length puts.old < 6 }
    requires fall { IsFall head }
    ensures asks { (tailwater : ℤ) → Asks (can_get (Some rating.now) view.entry.now)
        (energy_puts (plant rating.now max_release tailwater power) head outflow)
        puts.old puts.new result }
{
    match ask_energy(view, rating, puts, max_release, power, head, outflow) {
        Ok(()) => {
            let places = (POWER_RELEASE, POWER_SPILL);
            ask_released(view, Some(rating), puts, places, max_release, outflow)
        }
        Err(answer) => Err(answer),
    }
}

// Puts the flows, and what is known of the contents by them. Then the outflow is what is answered.
fn ask_front(
    view: &View,
    rating: &Rating,
    puts: &mut PutList,
    asked: Option<Given>,
    terms: &[Term],
    balanced: Balanced,
) -> Result<Given, Solved>
    requires { puts.old ≡ [] }
    ensures asks { Asks (can_get (Some rating.now) view.entry.now)
        (front_puts rating.now view.entry.now asked terms.now balanced)
        puts.old puts.new result }
    ensures outflow { IfOk result (λ outflow.
        outflow ≡ held_after_puts view.entry.now (flow_puts asked terms.now balanced) OUTFLOW) }
    ensures room { OnOk result (length puts.new ≤ 3) }
{
    if let Err(answer) = ask_flows(view, Some(rating), puts, asked, terms, balanced) {
        return Err(answer);
    }
    let outflow = held_after(view, puts.as_slice(), OUTFLOW);
    let (storage, elevation) = (view.given(STORAGE), view.given(POOL_ELEVATION));
    match ask_level(view, Some(rating), puts, storage, elevation, balanced) {
        Ok(()) => Ok(outflow),
        Err(answer) => Err(answer),
    }
}

/// Returns the answer once the balance is solved: all that is put, or the first put that its slot cannot get.
pub(crate) fn put_all(
    view: &View,
    rating: &Rating,
    max_release: i64,
    power: u16,
    head: i64,
    asked: Option<Given>,
    terms: &[Term],
    balanced: Balanced,
) -> Solved
    requires { IsFall head }
    ensures { (tailwater : ℤ)
        → result ≡ answer_of_puts (can_get (Some rating.now) view.entry.now)
        (asked_puts (plant rating.now max_release tailwater power) view.entry.now
        head asked terms.now balanced) }
{
    let mut puts = PutList::none();
    let outflow = match ask_front(view, rating, &mut puts, asked, terms, balanced) {
        Ok(outflow) => outflow,
        Err(answer) => return answer,
    };
    match ask_parts(view, rating, &mut puts, max_release, power, head, outflow) {
        Ok(()) => Solved::Puts(puts),
        Err(answer) => answer,
    }
}
