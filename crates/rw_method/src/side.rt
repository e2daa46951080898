//! Adds up the side flows of an object: local inflow, diversion and return flow.
ghost use Rattle.std.specs.Prelude.{◌≡◌, ◌≤◌, ◌+ℤ◌, ◌-ℤ◌};
ghost use Rattle.std.specs.Option.{ForSome};
ghost use Rattle.rw_method.specs.Term.{IsWithin};
ghost use Rattle.rw_method.specs.Balance.{value_if_chosen, side_flows};

use crate::View;

// The value in a place, and 0 where that slot isn't chosen.
fn chosen(choice: bool, view: &View, place: u8) -> Option<i64>
    ensures { result ≡ value_if_chosen choice view.entry.now place }
{
    if choice {
        view.known_value(place)
    } else {
        Some(0)
    }
}

fn net_side_flow(inflow: i128, diversion: i64) -> i128
    requires { IsWithin 2 inflow }
    ensures flow { result ≡ inflow -ℤ diversion }
    ensures bound { IsWithin 3 result }
{
    inflow - i128::from(diversion)
}

fn side_inflow(local_inflow: i64, return_flow: i64) -> i128
    ensures flow { result ≡ local_inflow +ℤ return_flow }
    ensures bound { IsWithin 2 result }
{
    i128::from(local_inflow) + i128::from(return_flow)
}

/// Returns the local inflow and the return flow less the diversion, in m3/step. `None` where one of them is chosen and unknown.
/// They are in places one after the other: local inflow, diversion, return flow.
pub fn side_flows(
    view: &View,
    place: u8,
    local_inflow: bool,
    diversion: bool,
    return_flow: bool,
) -> Option<i128>
    requires { place ≤ 9 }
    ensures flow { result ≡ side_flows view.entry.now place local_inflow diversion return_flow }
    ensures bound { ForSome result (IsWithin 3) }
{
    let Some(local_inflow) = chosen(local_inflow, view, place) else {
        return None;
    };
    let Some(diversion) = chosen(diversion, view, place + 1) else {
        return None;
    };
    let Some(return_flow) = chosen(return_flow, view, place + 2) else {
        return None;
    };
    let inflow = side_inflow(local_inflow, return_flow);
    Some(net_side_flow(inflow, diversion))
}
