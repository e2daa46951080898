//! Lists why the timesteps of a run cannot be stamped.
use rw_base::NoMemory;

/// The reasons why a run has no stamps.
#[derive(Clone, Copy, Debug, PartialEq, Eq)]
pub enum CalFault {
    /// The year is not 1 to 9999, the date does not exist, or the hour is not 0 to 23.
    BadStart,
    /// The steps are months, and the start is not hour 0 of the first of one.
    NotFirstOfMonth,
    /// The last step ends past year 9999.
    BeyondYears,
    /// There was no memory for the stamps.
    NoMemory,
}

impl From<NoMemory> for CalFault {
    ghost use Rattle.std.specs.Prelude.{◌≡◌};
    ghost use Rattle.rw_calendar.specs.declared.fault.CalFault.TheVariants.{NoMemory as Exhausted};

    ghost from_gives = { λ _ fault. fault ≡ Exhausted };

    fn from(_: NoMemory) -> Self {
        CalFault::NoMemory
    }
}
