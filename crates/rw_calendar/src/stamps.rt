//! Computes the stamps of a run's timesteps, and the year, the month and the day on which each begins.
ghost use Rattle.rw_calendar.specs.declared.limits.TheConstants.{STEPS_MAX};
ghost use Rattle.std.specs.Prelude.{◌≡◌, ◌+◌, ◌≤◌, pos, unsigned_abs, IfOk, IsErrOf, string_bytes};
ghost use Rattle.std.specs.Int.{IsInRange};
ghost use Rattle.rw_base.specs.Answers.{Answers};
ghost use Rattle.rw_calendar.specs.declared.fault.CalFault.TheVariants as CalFault;
ghost use Rattle.rw_calendar.specs.Clock.{moment_at, IsOnTheHour};
ghost use Rattle.rw_calendar.specs.StepLength.{IsStepLength, CanBegin, moment_after};
ghost use Rattle.rw_calendar.specs.Stamps.{AreTimesteps, Timesteps, CanBeStamped, IsMomentAfter, HasMoments, calendar_refusal_of, stamps_of, begin_of, end_of_step, stamp_text};

use crate::later::{after, can_begin, first_moment, moment_shown};
use crate::{CalFault, Moment, Start, StepLength};
use jiff::civil::DateTime;
use rw_base::NoMemory;
use std::alloc::Global;
use std::marker::Model;

/// The stamps of a run's timesteps, which count from 1.
#[derive(Debug, Drop)]
pub struct Stamps {
    start: Moment,
    step_length: StepLength,
    count: u16,
    moments: Vec<Moment>,
}

impl Model for Stamps {
    ghost use Rattle.std.specs.Prelude.{◌≤◌, ◌+◌};
    ghost use Rattle.rw_calendar.specs.declared.limits.TheConstants.{STEPS_MAX};
    ghost use Rattle.rw_calendar.specs.Stamps.{AreTimesteps, Timesteps, HasMoments};

    ghost Value = { Timesteps };

    ghost view = { λ s.
        record { start = s.start; step_length = s.step_length; count = s.count } };

    ghost invariant = { λ s. (1 ≤ s.count) × (s.count ≤ STEPS_MAX)
        × HasMoments s.start s.step_length (s.count + 1) s.moments.items };
}

// The moments 0, 1, .. steps step lengths after the start.
fn moments(
    alloc: Global,
    start: DateTime,
    length: StepLength,
    steps: u16,
) -> Result<Vec<Moment>, NoMemory>
    requires sharp { IsOnTheHour start }
    requires length { IsStepLength length }
    requires begin { CanBegin length (moment_at start) }
    requires few { steps ≤ STEPS_MAX }
    requires within { (moment_after (moment_at start) length steps).year ≤ 9999 }
    ensures { IfOk result
        (λ moments. HasMoments (moment_at start) length (steps + 1) moments.items) }
{
    let mut moments = Vec::new(alloc);
    for k in 0..=steps {
        let Some(moment) = after(start, length, k) else {
            unreachable!()
        };
        moments.push(moment)?;
    }
    Ok(moments)
}

impl Stamps {
    /// Returns the stamps of 1 to 4096 steps of one length, of 1, 6, 12 or 24 hours or a month, from a start on. The first fault
    /// that there is, in this order, is returned: `BadStart`, `NotFirstOfMonth`, `BeyondYears`, and `NoMemory` only where there
    /// is none of these. `docs/DEFINITIONS.md` has stamps under "Numbers".
    pub fn of(
        alloc: Global,
        start: Start,
        length: StepLength,
        steps: u16,
    ) -> Result<Stamps, CalFault>
        requires steps { IsInRange 1 STEPS_MAX steps }
        requires length { IsStepLength length }
        ensures answers { Answers CalFault.NoMemory calendar_refusal_of (λ stamps. stamps) result
            (stamps_of start length steps) }
        ensures no_memory { IsErrOf result CalFault.NoMemory → CanBeStamped start length steps }
    {
        let Some(first) = first_moment(start) else {
            return Err(CalFault::BadStart);
        };
        if !can_begin(length, first) {
            return Err(CalFault::NotFirstOfMonth);
        }
        if after(first, length, steps).is_none() {
            return Err(CalFault::BeyondYears);
        }
        let moments = moments(alloc, first, length, steps)?;
        Ok(Stamps {
            start: moment_shown(first),
            step_length: length,
            count: steps,
            moments,
        })
    }

    /// Returns the number of steps, from 1 to 4096.
    pub fn count(&self) -> u16
        ensures value { result ≡ self.now.count }
        ensures bounds { IsInRange 1 STEPS_MAX result }
        ensures timesteps { AreTimesteps self.now }
    {
        self.count
    }

    // The moment so many step lengths after the start.
    fn moment(&self, k: u16) -> Moment
        requires { k ≤ self.now.count }
        ensures { IsMomentAfter self.now.start self.now.step_length k result }
    {
        self.moments[usize::from(k)]
    }

    /// Returns the year in which step t, from 1 to `count`, begins: 1 to 9999.
    pub fn year(&self, t: u16) -> i16
        requires first { 1 ≤ t }
        requires last { t ≤ self.now.count }
        ensures value { result ≡ pos (begin_of self.now t).year }
        ensures bounds { IsInRange 1 9999 (unsigned_abs result) }
    {
        self.moment(t - 1).year as i16
    }

    /// Returns the month in which step t, from 1 to `count`, begins: 1 to 12.
    pub fn month(&self, t: u16) -> u8
        requires first { 1 ≤ t }
        requires last { t ≤ self.now.count }
        ensures value { result ≡ (begin_of self.now t).month }
        ensures bounds { IsInRange 1 12 result }
    {
        self.moment(t - 1).month
    }

    /// Returns the day of the month on which step t, from 1 to `count`, begins: 1 to 31.
    pub fn day(&self, t: u16) -> u8
        requires first { 1 ≤ t }
        requires last { t ≤ self.now.count }
        ensures value { result ≡ (begin_of self.now t).day }
        ensures bounds { IsInRange 1 31 result }
    {
        self.moment(t - 1).day
    }

    /// Returns the stamp of step t, from 1 to `count`: the moment at which it ends, as `YYYY-MM-DDTHH:00`. The one error is want
    /// of memory.
    pub fn text(&self, alloc: Global, t: u16) -> Result<String, NoMemory>
        requires first { 1 ≤ t }
        requires last { t ≤ self.now.count }
        ensures { IfOk result (λ text. string_bytes text ≡ stamp_text (end_of_step self.now t)) }
    {
        let Moment {
            year,
            month,
            day,
            hour,
        } = self.moment(t);
        Ok(format!(in alloc; "{year:04}-{month:02}-{day:02}T{hour:02}:00")?)
    }
}
