//! Tests which runs have no stamps, and what the others' stamps are.
ghost use Rattle.std.specs.Prelude.{IsTrue};
ghost use Rattle.rw_calendar.specs.StepLength.{IsStepLength};

use crate::shared::none_is_wrong;
use rw_calendar::{CalFault, Stamps, Start, StepLength};
use std::alloc::Global;

const HOURLY: StepLength = StepLength::Hours(1);

const SIX_HOURS: StepLength = StepLength::Hours(6);

const DAILY: StepLength = StepLength::Hours(24);

const MONTHLY: StepLength = StepLength::Month;

// A year, a month, a day and an hour.
fn on(start: (i16, i8, i8, i8)) -> Start {
    Start {
        year: start.0,
        month: start.1,
        day: start.2,
        hour: start.3,
    }
}

fn is_step_length(length: StepLength) -> bool
    ensures { IsTrue result → IsStepLength length }
{
    matches!(
        length,
        StepLength::Month | StepLength::Hours(1 | 6 | 12 | 24)
    )
}

// A start, a step length, and the fault of one such step from there.
const REFUSED: &[((i16, i8, i8, i8), StepLength, CalFault)] = &[
    ((2021, 2, 29, 0), DAILY, CalFault::BadStart),
    ((0, 1, 1, 0), HOURLY, CalFault::BadStart),
    ((10_000, 1, 1, 0), HOURLY, CalFault::BadStart),
    ((2020, 13, 1, 0), MONTHLY, CalFault::BadStart),
    ((2020, 1, 0, 5), MONTHLY, CalFault::BadStart),
    ((2020, 1, 1, 24), HOURLY, CalFault::BadStart),
    ((2020, 1, 2, 0), MONTHLY, CalFault::NotFirstOfMonth),
    ((2020, 1, 1, 1), MONTHLY, CalFault::NotFirstOfMonth),
    ((9999, 12, 31, 0), DAILY, CalFault::BeyondYears),
    ((9999, 12, 1, 0), MONTHLY, CalFault::BeyondYears),
];

fn is_refused(alloc: Global, start: Start, length: StepLength, fault: CalFault) -> bool {
    is_step_length(length) && Stamps::of(alloc, start, length, 1).err() == Some(fault)
}

fn first_wrong_refusal(
    alloc: Global,
    rows: &[((i16, i8, i8, i8), StepLength, CalFault)],
) -> Option<usize> {
    for k in 0..rows.len() {
        let (start, length, fault) = rows[k];
        if !is_refused(alloc, on(start), length, fault) {
            return Some(k);
        }
    }
    None
}

#[test]
fn refusals(rt: HostRuntime) {
    none_is_wrong(&rt, first_wrong_refusal(rt.alloc(), REFUSED));
}

// Steps from a start, and of the last of them the day on which it begins and the stamp.
#[derive(Clone, Copy)]
struct End<'a> {
    start: (i16, i8, i8, i8),
    length: StepLength,
    steps: u16,
    day: (i16, u8, u8),
    text: &'a str,
}

fn is_last(alloc: Global, stamps: &Stamps, end: End<'_>) -> bool {
    let steps = stamps.count();
    match stamps.text(alloc, steps) {
        Ok(text) => {
            steps == end.steps
                && (stamps.year(steps), stamps.month(steps), stamps.day(steps)) == end.day
                && text.as_str() == end.text
        }
        Err(_) => false,
    }
}

fn is_end(alloc: Global, end: End<'_>) -> bool {
    if !is_step_length(end.length) || end.steps < 1 || 4096 < end.steps {
        return false;
    }
    match Stamps::of(alloc, on(end.start), end.length, end.steps) {
        Ok(stamps) => is_last(alloc, &stamps, end),
        Err(_) => false,
    }
}

fn first_wrong_end(alloc: Global, ends: &[End<'_>]) -> Option<usize> {
    for k in 0..ends.len() {
        if !is_end(alloc, ends[k]) {
            return Some(k);
        }
    }
    None
}

const LAST_DAYS: &[End<'static>] = &[
    End {
        start: (2020, 1, 31, 18),
        length: SIX_HOURS,
        steps: 1,
        day: (2020, 1, 31),
        text: "2020-02-01T00:00",
    },
    End {
        start: (9999, 12, 30, 0),
        length: DAILY,
        steps: 1,
        day: (9999, 12, 30),
        text: "9999-12-31T00:00",
    },
    End {
        start: (1, 1, 1, 0),
        length: HOURLY,
        steps: 1,
        day: (1, 1, 1),
        text: "0001-01-01T01:00",
    },
];

#[test]
fn days_end_with_a_month_or_a_year(rt: HostRuntime) {
    none_is_wrong(&rt, first_wrong_end(rt.alloc(), LAST_DAYS));
}

const FEBRUARIES: &[End<'static>] = &[
    End {
        start: (2020, 2, 28, 0),
        length: DAILY,
        steps: 1,
        day: (2020, 2, 28),
        text: "2020-02-29T00:00",
    },
    End {
        start: (2020, 2, 28, 0),
        length: DAILY,
        steps: 2,
        day: (2020, 2, 29),
        text: "2020-03-01T00:00",
    },
    End {
        start: (1900, 2, 28, 0),
        length: DAILY,
        steps: 1,
        day: (1900, 2, 28),
        text: "1900-03-01T00:00",
    },
];

#[test]
fn february_has_its_leap_day(rt: HostRuntime) {
    none_is_wrong(&rt, first_wrong_end(rt.alloc(), FEBRUARIES));
}

const MONTHS: &[End<'static>] = &[
    End {
        start: (2020, 1, 1, 0),
        length: MONTHLY,
        steps: 1,
        day: (2020, 1, 1),
        text: "2020-02-01T00:00",
    },
    End {
        start: (2020, 1, 1, 0),
        length: MONTHLY,
        steps: 13,
        day: (2021, 1, 1),
        text: "2021-02-01T00:00",
    },
    End {
        start: (2020, 1, 1, 0),
        length: MONTHLY,
        steps: 4096,
        day: (2361, 4, 1),
        text: "2361-05-01T00:00",
    },
];

#[test]
fn months_pass_over_years(rt: HostRuntime) {
    none_is_wrong(&rt, first_wrong_end(rt.alloc(), MONTHS));
}
