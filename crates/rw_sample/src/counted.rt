//! Counts the dispatches or the firings of a run by its trace.
ghost use Rattle.std.specs.Prelude.{◌≡◌, ◌≤◌, ◌+◌};
ghost use Rattle.rw_run.specs.Trace.{lines_in};
ghost use Rattle.rw_sample.specs.Line.{lines_counted, is_dispatch, is_firing, one_if_told, tells};

use rw_report::line_at;
use rw_run::{Trace, TraceEvent};

/// The events that are counted.
#[derive(Clone, Copy)]
pub(crate) enum Counted {
    Dispatches,
    Firings,
}

fn is_dispatch(line: &TraceEvent) -> bool
    ensures { result ≡ is_dispatch line.now }
{
    match line {
        TraceEvent::Idle(_) => true,
        TraceEvent::Solve(_) => true,
        _ => false,
    }
}

fn is_firing(line: &TraceEvent) -> bool
    ensures { result ≡ is_firing line.now }
{
    match line {
        TraceEvent::Fire { .. } => true,
        _ => false,
    }
}

// Whether the line tells one of them.
fn tells(counted: Counted, line: &TraceEvent) -> bool
    ensures { result ≡ tells counted line.now }
{
    match counted {
        Counted::Dispatches => is_dispatch(line),
        Counted::Firings => is_firing(line),
    }
}

// The count behind a line.
fn count_behind(count: u64, counted: Counted, line: &TraceEvent) -> u64
    requires { count ≤ 18_446_744_073_709_551_614 }
    ensures { result ≡ count + one_if_told counted line.now }
{
    if tells(counted, line) {
        count + 1
    } else {
        count
    }
}

/// Counts these events in the trace.
pub(crate) fn count_in(counted: Counted, trace: &Trace) -> u64
    ensures { result ≡ lines_counted counted (lines_in trace.now) }
{
    let mut count = 0u64;
    for place in 0..trace.len() {
        count = count_behind(count, counted, &line_at(trace, place));
    }
    count
}
