//! Finds the outflow that an energy request asks for, where the request counts.
ghost use Rattle.std.specs.Prelude.{◌≡◌, ◌≤◌, ◌≤ℤ◌, pos, IfOk, IfErr, None, Some};
ghost use Rattle.rw_method.specs.Power.{plant, head_of, request_of, requested, asked_of};
ghost use Rattle.rw_method.specs.Solve.{fault_of_request, fault_of_power};
ghost use Rattle.rw_power.specs.Bounds.{HasRelease, IsFall};

use crate::energy::least_release;
use rw_method::places::{ENERGY_REQUEST, OUTFLOW};
use rw_method::{Given, Solved, View, fault_of_past};
use rw_model::Content;
use rw_table::Rating;

// The request for energy, where it counts.
fn request_of(view: &View) -> Option<Content>
    ensures { result ≡ request_of view.entry.now }
{
    if view.past.is_none() {
        return None;
    }
    let request = view.known(ENERGY_REQUEST)?;
    match view.given(OUTFLOW) {
        Some(outflow) if outflow.number <= request.number => None,
        _ => Some(request),
    }
}

// The outflow that a request gives, where a release gives as much energy; otherwise that is the answer.
fn requested(
    view: &View,
    rating: &Rating,
    max_release: i64,
    tailwater: i64,
    power: u16,
    head: i64,
    request: Content,
) -> Result<Given, Solved>
    requires most { pos 0 ≤ℤ max_release }
    requires power { 1 ≤ power }
    requires fall { head ≡ head_of (plant rating.now max_release tailwater power) view.now }
    requires bound { IsFall head }
    ensures ok { IfOk result
        (HasRelease (plant rating.now max_release tailwater power) view.entry.now request) }
    ensures err { IfErr result (λ answer.
        fault_of_request (plant rating.now max_release tailwater power) view.entry.now
        (Some request) ≡ Some answer) }
{
    let wanted = request.value.get();
    let number = request.number;
    match least_release(power, head, max_release, wanted) {
        Some(value) => Ok(Given { value, number }),
        None => Err(Solved::OutOfRange {
            place: ENERGY_REQUEST,
            value: i128::from(wanted),
        }),
    }
}

/// Returns the outflow that is asked for, where a request counts. The error is the answer otherwise: the storage before has no
/// elevation, or no release gives what is requested.
pub(crate) fn asked(
    view: &View,
    rating: &Rating,
    max_release: i64,
    tailwater: i64,
    power: u16,
    head: i64,
) -> Result<Option<Given>, Solved>
    requires most { pos 0 ≤ℤ max_release }
    requires power { 1 ≤ power }
    requires fall { head ≡ head_of (plant rating.now max_release tailwater power) view.now }
    requires bound { IsFall head }
    ensures ok { IfOk result
        (λ asked. asked ≡ asked_of (plant rating.now max_release tailwater power) view.entry.now) }
    ensures fine { IfOk result
        (λ asked.
        fault_of_power (plant rating.now max_release tailwater power) view.entry.now ≡ None) }
    ensures err { IfErr result
        (λ answer.
        fault_of_power (plant rating.now max_release tailwater power)
        view.entry.now ≡ Some answer) }
{
    if let Some(fault) = fault_of_past(true, Some(rating), view.past) {
        return Err(fault);
    }
    match request_of(view) {
        Some(request) => match requested(
            view,
            rating,
            max_release,
            tailwater,
            power,
            head,
            request,
        ) {
            Ok(asked) => Ok(Some(asked)),
            Err(fault) => Err(fault),
        },
        None => Ok(None),
    }
}
