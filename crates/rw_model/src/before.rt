//! Returns the values of slots at timesteps before the run, as the parameters of their objects give them.
ghost use Rattle.std.specs.Prelude.{◌≡◌, option_map};
ghost use Rattle.std.specs.Option.{ForSome};
ghost use Rattle.rw_base.specs.Quantity.{IsQuantity};
ghost use Rattle.rw_table.specs.Curve.{elev_of};
ghost use Rattle.rw_model.specs.Kind.{IsAmount, IsKind};
ghost use Rattle.rw_model.specs.Before.{past_content, past_inflow, past_storage, initial_of_kind};

use crate::Kind;
use rw_table::Rating;
use rw_table::law::elevation_is_greatest;

// The inflow of a timestep before the run, where the last of the history is that of step 0.
fn past_inflow(history: &[i64], step: i64) -> Option<i64>
    ensures { result ≡ past_inflow history.now step }
{
    if step > 0 {
        return None;
    }
    let back = step.unsigned_abs() as usize;
    if back < history.len() {
        Some(history[history.len() - 1 - back])
    } else {
        None
    }
}

fn elevation_of(rating: &Rating, storage: i64) -> Option<i64>
    ensures elevation { result ≡ elev_of rating.now storage }
    ensures quantity { ForSome result IsQuantity }
{
    elevation_is_greatest();
    rating.elev(storage)
}

// The storage before the first timestep, or its elevation.
fn past_storage(initial_storage: i64, table: Option<&Rating>, place: u8) -> Option<i64>
    requires { IsAmount initial_storage }
    ensures value { result
        ≡ past_storage initial_storage (option_map (λ rating. rating.now) table.entry) place }
    ensures quantity { ForSome result IsQuantity }
{
    match (place, table) {
        (2, _) => Some(initial_storage),
        (3, Some(rating)) => elevation_of(rating, initial_storage),
        _ => None,
    }
}

// The content before the first timestep.
fn past_content(initial_content: i64, place: u8) -> Option<i64>
    requires { IsAmount initial_content }
    ensures value { result ≡ past_content initial_content place }
    ensures quantity { ForSome result IsQuantity }
{
    if place == 2 {
        Some(initial_content)
    } else {
        None
    }
}

/// Returns the value of a kind's slot in a place at a timestep before the run.
pub(crate) fn before_in(kind: &Kind, place: u8, step: i64) -> Option<i64>
    requires { IsKind kind.now }
    ensures value { result ≡ initial_of_kind kind.now place step }
    ensures quantity { ForSome result IsQuantity }
{
    match kind {
        Kind::Reach { history, .. } if place == 0 => past_inflow(history.as_slice(), step),
        Kind::Reservoir {
            initial_storage,
            table,
            ..
        } if step == 0 => past_storage(*initial_storage, table.as_ref(), place),
        Kind::PowerReservoir {
            initial_storage,
            table,
            ..
        } if step == 0 => past_storage(*initial_storage, Some(table), place),
        Kind::RoutedReach {
            initial_content,
            ..
        } if step == 0 => past_content(*initial_content, place),
        _ => None,
    }
}
