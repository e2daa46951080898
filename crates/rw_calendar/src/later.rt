//! Computes the date and time that is hours, months or timesteps after the start of a run.
ghost use Rattle.rw_calendar.specs.declared.limits.TheConstants.{STEPS_MAX};
ghost use Rattle.std.specs.Prelude.{◌≡◌, ◌↔◌, ◌<◌, ◌≤◌, IsTrue, MatchOption};
ghost use Rattle.rw_calendar.specs.Clock.{moment_at, IsOnTheHour, ShowsMoment};
ghost use Rattle.rw_calendar.specs.Moment.{IsDated, hours_later, months_later};
ghost use Rattle.rw_calendar.specs.Start.{IsStart, moment_of};
ghost use Rattle.rw_calendar.specs.StepLength.{moment_after, IsStepLength, CanBegin};
ghost use Rattle.rw_calendar.specs.Stamps.{IsMomentAfter};

use crate::{Moment, Start, StepLength};
use jiff::civil::DateTime;
use jiff::{SignedDuration, ToSpan};

/// Returns the date and time that a start names. `None` exactly where there is none.
pub(crate) fn first_moment(start: Start) -> Option<DateTime>
    ensures { MatchOption result (¬ IsStart start)
        (λ dt. IsStart start × ShowsMoment dt (moment_of start)) }
{
    if start.year < 1 {
        return None;
    }
    DateTime::new(start.year, start.month, start.day, start.hour, 0, 0, 0).ok()
}

// The date and time so many hours later. `None` exactly where that is past year 9999.
fn after_hours(start: DateTime, hours: u32) -> Option<DateTime>
    requires { IsOnTheHour start }
    ensures { MatchOption result (9999 < (hours_later (moment_at start) hours).year)
        (λ dt. ShowsMoment dt (hours_later (moment_at start) hours)) }
{
    start
        .checked_add(SignedDuration::from_hours(i64::from(hours)))
        .ok()
}

// The beginning of the month so many months later. `None` exactly where that is past year 9999.
fn after_months(start: DateTime, months: u16) -> Option<DateTime>
    requires sharp { IsOnTheHour start }
    requires first { start.date.day ≡ 1 }
    requires midnight { start.time.hour ≡ 0 }
    requires few { months ≤ STEPS_MAX }
    ensures { MatchOption result (9999 < (months_later (moment_at start) months).year)
        (λ dt. ShowsMoment dt (months_later (moment_at start) months)) }
{
    start.checked_add(i64::from(months).months()).ok()
}

// The date and time so many step lengths later. `None` exactly where that is past year 9999.
fn after_steps(start: DateTime, length: StepLength, steps: u16) -> Option<DateTime>
    requires sharp { IsOnTheHour start }
    requires length { IsStepLength length }
    requires begin { CanBegin length (moment_at start) }
    requires few { steps ≤ STEPS_MAX }
    ensures { MatchOption result (9999 < (moment_after (moment_at start) length steps).year)
        (λ dt. ShowsMoment dt (moment_after (moment_at start) length steps)) }
{
    match length {
        StepLength::Hours(hours) => after_hours(start, u32::from(steps) * u32::from(hours)),
        StepLength::Month => after_months(start, steps),
    }
}

/// Returns the moment that a date and time shows.
pub(crate) fn moment_shown(at: DateTime) -> Moment
    requires { IsOnTheHour at }
    ensures moment { result ≡ moment_at at }
    ensures dated { IsDated result }
{
    Moment {
        year: at.year().unsigned_abs(),
        month: at.month().unsigned_abs(),
        day: at.day().unsigned_abs(),
        hour: at.hour().unsigned_abs(),
    }
}

/// Returns the moment that is `steps` step lengths later. `None` exactly where that is past year 9999.
pub(crate) fn after(start: DateTime, length: StepLength, steps: u16) -> Option<Moment>
    requires sharp { IsOnTheHour start }
    requires length { IsStepLength length }
    requires begin { CanBegin length (moment_at start) }
    requires few { steps ≤ STEPS_MAX }
    ensures { MatchOption result (9999 < (moment_after (moment_at start) length steps).year)
        (λ later. IsMomentAfter (moment_at start) length steps later) }
{
    let Some(later) = after_steps(start, length, steps) else {
        return None;
    };
    Some(moment_shown(later))
}

/// Returns whether steps of that length can begin at that date and time.
pub(crate) fn can_begin(length: StepLength, at: DateTime) -> bool
    ensures { IsTrue result ↔ CanBegin length (moment_at at) }
{
    match length {
        StepLength::Hours(_) => true,
        StepLength::Month => at.day() == 1 && at.hour() == 0,
    }
}
