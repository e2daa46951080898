//! Finds the slot whose earlier value an object looks at, and how many timesteps ago.
ghost use Rattle.std.specs.Prelude.{◌≡◌};
ghost use Rattle.rw_method.specs.Past.{past_in};

use crate::places::{CONTENT, INFLOW, STORAGE};
use rw_model::Kind;

/// Returns the place of the slot whose earlier value an object of a kind looks at, and how many timesteps ago, 1 or more: the
/// storage of a reservoir and the content of a routed reach a timestep ago, and the inflow of a reach as many timesteps ago as
/// its lag. `None` where it looks at none.
pub fn past_in(kind: &Kind) -> Option<(u8, u16)>
    ensures { result ≡ past_in kind.now }
{
    match kind {
        Kind::Reach { lag, .. } => {
            if *lag == 0 {
                None
            } else {
                Some((INFLOW, u16::from(*lag)))
            }
        }
        Kind::Reservoir { .. } | Kind::PowerReservoir { .. } => Some((STORAGE, 1)),
        Kind::RoutedReach { .. } => Some((CONTENT, 1)),
        _ => None,
    }
}
