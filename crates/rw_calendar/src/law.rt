//! Proves what the definitions of moments mean. Each law is a function that does nothing, and its contract is the law.
ghost use Rattle.std.specs.Prelude.{◌≡◌, ◌≤◌, ◌↔◌, ℕ, ◌+◌, ◌*◌, pos, ◌+ℤ◌, None, Some, Result, OnOk, IfOk, IsErrOf};
ghost use Rattle.jiff.specs.Types.{DateTime};
ghost use Rattle.jiff.specs.Words.{civil_nanos, epoch_day, add_months};
ghost use Rattle.rw_calendar.specs.declared.fault.CalFault.{CalFault};
ghost use Rattle.rw_calendar.specs.declared.fault.CalFault.TheVariants.{BadStart, NotFirstOfMonth, BeyondYears};
ghost use Rattle.rw_calendar.specs.declared.step_length.StepLength.TheVariants.{Hours, Month};
ghost use Rattle.rw_calendar.specs.Clock.{moment_at, IsOnTheHour, ShowsMoment};
ghost use Rattle.rw_calendar.specs.declared.moment.Moment.{Moment};
ghost use Rattle.rw_calendar.specs.declared.limits.TheConstants.{STEPS_MAX};
ghost use Rattle.rw_calendar.specs.Moment.{IsMoment, moment_on, next_month, next_day, next_hour, hours_later, months_later};
ghost use Rattle.rw_calendar.specs.Start.{IsStart, moment_of};
ghost use Rattle.rw_calendar.specs.StepLength.{CanBegin, moment_after};
ghost use Rattle.rw_calendar.specs.Stamps.{AnswersStamps, AreTimesteps, CanBeStamped, EndsBeyondYears, bad_start, not_first_of_month, beyond_years, stamps_refusal, Timesteps, begin_of, end_of_step, timesteps_of};
ghost use Rattle.rw_calendar.specs.declared.start.Start.{Start};
ghost use Rattle.rw_calendar.specs.declared.step_length.StepLength.{StepLength};

/// The moment a number of hours later is the one that the clock shows then: as many times 3,600 seconds later.
pub fn hours_go_by_the_clock()
    ensures { (from to : DateTime) (k : ℕ)
        → IsOnTheHour from → ShowsMoment to (hours_later (moment_at from) k)
        → civil_nanos to ≡ civil_nanos from +ℤ pos (k * 3_600_000_000_000) }
{}

/// The month a number of months later begins on the day that the calendar gives for as many months later.
pub fn months_go_by_the_calendar()
    ensures { (from to : DateTime) (k : ℕ)
        → IsOnTheHour from → from.date.day ≡ 1 → from.time.hour ≡ 0
        → ShowsMoment to (months_later (moment_at from) k)
        → epoch_day to.date ≡ add_months from.date (pos k) }
{}

/// From a moment that there is, each later one is a moment that there is.
pub fn later_moments_exist()
    ensures hours { (m : Moment) (k : ℕ) → IsMoment m → IsMoment (hours_later m k) }
    ensures months { (m : Moment) (k : ℕ)
        → IsMoment m → m.day ≡ 1 → m.hour ≡ 0 → IsMoment (months_later m k) }
{}

/// Timesteps that can be stamped are those of a run.
#[tactic(auto, using(crate::proofs::TimestepFacts::are_stamped))]
pub fn stamped_timesteps()
    ensures { (start : Start) (length : StepLength) (steps : ℕ) → 1 ≤ steps → steps ≤ 4096
        → CanBeStamped start length steps → AreTimesteps (timesteps_of start length steps) }
{}

/// The calendar's refusals hold exactly where their words say, and steps are stamped exactly where none holds.
pub fn refused_timesteps()
    ensures stamped { (start : Start) (length : StepLength) (steps : ℕ)
        → (stamps_refusal start length steps ≡ None) ↔ CanBeStamped start length steps }
    ensures bad_start { (start : Start) (length : StepLength) (steps : ℕ)
        → (stamps_refusal start length steps ≡ Some bad_start) ↔ (¬ IsStart start) }
    ensures not_first { (start : Start) (length : StepLength) (steps : ℕ)
        → (stamps_refusal start length steps ≡ Some not_first_of_month)
        ↔ (IsStart start × ¬ CanBegin length (moment_of start)) }
    ensures beyond { (start : Start) (length : StepLength) (steps : ℕ)
        → (stamps_refusal start length steps ≡ Some beyond_years)
        ↔ (IsStart start × CanBegin length (moment_of start)
        × EndsBeyondYears (timesteps_of start length steps)) }
{}

/// The clauses of `Stamps::of` mean this: it returns these timesteps where it returns any, and only where they can be stamped,
/// and each fault of the steps exactly where its words say.
pub fn answered_timesteps()
    ensures ok { (start : Start) (length : StepLength) (steps : ℕ)
        (result : Result Timesteps CalFault) → AnswersStamps start length steps result
        → IfOk result (λ stamps. stamps ≡ timesteps_of start length steps) }
    ensures stamped { (start : Start) (length : StepLength) (steps : ℕ)
        (result : Result Timesteps CalFault) → AnswersStamps start length steps result
        → OnOk result (CanBeStamped start length steps) }
    ensures bad_start { (start : Start) (length : StepLength) (steps : ℕ)
        (result : Result Timesteps CalFault) → AnswersStamps start length steps result
        → IsErrOf result BadStart ↔ (¬ IsStart start) }
    ensures not_first { (start : Start) (length : StepLength) (steps : ℕ)
        (result : Result Timesteps CalFault) → AnswersStamps start length steps result
        → IsErrOf result NotFirstOfMonth ↔ (IsStart start × ¬ CanBegin length (moment_of start)) }
    ensures beyond { (start : Start) (length : StepLength) (steps : ℕ)
        (result : Result Timesteps CalFault) → AnswersStamps start length steps result
        → IsErrOf result BeyondYears ↔ (IsStart start × CanBegin length (moment_of start)
        × EndsBeyondYears (timesteps_of start length steps)) }
{}

/// A step begins where the step before it ends.
pub fn steps_meet()
    ensures { (run : Timesteps) (t : ℕ) → begin_of run (t + 1) ≡ end_of_step run t }
{}

/// The calendar at its corners: leap years, the ends of months and years, and the hours of a day.
#[tactic(auto, unfolding(crate::specs::Moment::hours_later, crate::specs::Moment::months_later))]
pub fn corners()
    ensures leap { next_day (moment_on 2020 2 28 0) ≡ moment_on 2020 2 29 0 }
    ensures after_leap_day { next_day (moment_on 2020 2 29 0) ≡ moment_on 2020 3 1 0 }
    ensures common { next_day (moment_on 2021 2 28 0) ≡ moment_on 2021 3 1 0 }
    ensures century { next_day (moment_on 1900 2 28 0) ≡ moment_on 1900 3 1 0 }
    ensures fourth_century { next_day (moment_on 2000 2 28 0) ≡ moment_on 2000 2 29 0 }
    ensures year_end { next_hour (moment_on 2020 12 31 23) ≡ moment_on 2021 1 1 0 }
    ensures six_hours { moment_after (moment_on 2020 1 31 18) (Hours 6) 1 ≡ moment_on 2020 2 1 0 }
    ensures twelve_months { moment_after (moment_on 2020 1 1 0) Month 12 ≡ moment_on 2021 1 1 0 }
    ensures past_the_years { moment_after (moment_on 9999 12 31 0) (Hours 24) 1
        ≡ moment_on 10000 1 1 0 }
{}

/// How many timesteps a run that is read has at most.
pub fn limits_of_runs()
    ensures steps { STEPS_MAX ≡ 4096 }
{}
