//! Reads the words for the length of a timestep, the order of rules and the supply of a water user.
ghost use Rattle.std.specs.Prelude.{◌≡◌, IfSome};
ghost use Rattle.rw_calendar.specs.StepLength.{IsStepLength};
ghost use Rattle.rw_model_toml.specs.Word.{step_length_in, agenda_in, supply_in};

use rw_calendar::StepLength;
use rw_model::{AgendaOrder, Supply};

/// Returns the step length that the word stands for.
pub(crate) fn step_length_in(word: &str) -> Option<StepLength>
    ensures length { result ≡ step_length_in word.now }
    ensures known { IfSome result IsStepLength }
{
    match word {
        "1h" => Some(StepLength::Hours(1)),
        "6h" => Some(StepLength::Hours(6)),
        "12h" => Some(StepLength::Hours(12)),
        "24h" => Some(StepLength::Hours(24)),
        "1month" => Some(StepLength::Month),
        _ => None,
    }
}

/// Returns the order of the agenda that the word stands for.
pub(crate) fn agenda_in(word: &str) -> Option<AgendaOrder>
    ensures { result ≡ agenda_in word.now }
{
    match word {
        "123" => Some(AgendaOrder::HighFirst),
        "321" => Some(AgendaOrder::LowFirst),
        _ => None,
    }
}

/// Returns the supply that the word stands for.
pub(crate) fn supply_in(word: &str) -> Option<Supply>
    ensures { result ≡ supply_in word.now }
{
    match word {
        "request" => Some(Supply::Request),
        "rule" => Some(Supply::Rule),
        _ => None,
    }
}
