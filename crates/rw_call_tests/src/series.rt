//! Tests values that are put into a series, restored, and copied.
ghost use Rattle.rw_series.specs.Series.{IsSeriesOf};

use crate::shared::{TWO_GAGES, basin, cell, content};
use rw_base::{Cell, ObjectNo, RuleNo};
use rw_model::{Basin, Content, PutEnd, Writer};
use rw_series::Series;
use std::alloc::Global;
use std::process::Abort;

// Whether the put is denied, for a value that stands.
fn is_denied(end: PutEnd, value: Content) -> bool {
    match end {
        PutEnd::Denied(held) => held == value,
        _ => false,
    }
}

fn is_held(series: &Series, cell: Cell, value: Content) -> bool {
    match series.get(cell) {
        Some(held) => held == value,
        None => false,
    }
}

fn check(rt: &impl Abort, alloc: Global, basin: &Basin, series: &mut Series)
    requires { IsSeriesOf basin.now series.old }
{
    let leaves = cell(rt, basin, "Up", "GageOutflow", 2);
    let comes = cell(rt, basin, "Low", "GageInflow", 2);
    let ruled = content(rt, 5, 2, Writer::Rule(RuleNo(2)));
    let solved = content(rt, 6, 3, Writer::Object(ObjectNo(2)));
    assert!(rt; series.put(basin, leaves, ruled) == PutEnd::Written);
    let copy = series.copy(alloc).expect(rt, "memory");
    assert!(rt; is_denied(series.put(basin, comes, solved), ruled));
    assert!(rt; is_held(series, comes, ruled));
    series.restore(basin, leaves, None);
    assert!(rt; series.get(comes).is_none() && is_held(&copy, comes, ruled));
}

#[test]
fn linked_slots_hold_one_value(rt: HostRuntime) {
    let alloc = rt.alloc();
    let basin = basin(&rt, alloc, TWO_GAGES);
    let mut series = Series::sized(alloc, basin).expect(&rt, "memory");
    check(&rt, alloc, basin, &mut series);
}
