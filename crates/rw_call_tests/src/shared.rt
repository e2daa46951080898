//! Holds what the tests share: basins from the texts of their models, the cells of their slots, and what cells hold.
ghost use Rattle.std.specs.Prelude.{◌≡◌};
ghost use Rattle.rw_series.specs.Series.{IsCell, IsSeriesOf};

use rw_base::{Cell, Qty, StepNo};
use rw_model::{Basin, Content, Writer};
use rw_model_toml::read_model;
use rw_series::Series;
use std::alloc::Global;
use std::process::Abort;

/// Two gages over three days, of which the lower one gets what leaves the upper one.
pub(crate) const TWO_GAGES: &str = r#"
format = 1
[run]
start = "2020-02-01T00:00"
step = "24h"
steps = 3
[[object]]
name = "Up"
kind = "gage"
[[object]]
name = "Low"
kind = "gage"
[[link]]
slots = ["Up.GageOutflow", "Low.GageInflow"]
"#;

/// Fails unless no row of a table is wrong; `first` is the place of the first wrong one, counted from 0.
pub(crate) fn none_is_wrong(rt: &impl Abort, first: Option<usize>) {
    assert_eq!(rt; first, None);
}

/// Returns a value that is never freed. A function that frees a basin takes long to prove, for each way out of it.
pub(crate) fn lasting<'a, T: Drop + 'a>(rt: &impl Abort, alloc: Global, value: T) -> &'a T
    ensures { result.now ≡ value }
{
    match Box::new(alloc, value) {
        Ok(kept) => Box::leak(kept),
        Err(_) => panic!(rt; "memory"),
    }
}

/// Returns the basin of a model.
pub(crate) fn basin<'a>(rt: &impl Abort, alloc: Global, model: &str) -> &'a Basin {
    match read_model(alloc, model.as_bytes()) {
        Ok(basin) => lasting(rt, alloc, basin),
        Err(_) => panic!(rt; "no model"),
    }
}

/// Returns the cell of an object's slot.
pub(crate) fn cell(rt: &impl Abort, basin: &Basin, object: &str, slot: &str, step: u16) -> Cell
    ensures { IsCell basin.now result }
{
    assert!(rt; 1 <= step && step <= basin.control().stamps.count());
    Cell {
        slot: basin.find_slot(object, slot).expect(rt, "a slot"),
        step: StepNo(step),
    }
}

/// Returns a value with its number and its writer.
pub(crate) fn content(rt: &impl Abort, value: i64, number: u16, writer: Writer) -> Content {
    Content {
        value: Qty::of(value).expect(rt, "a quantity"),
        number,
        writer,
    }
}

/// Returns a value of the inputs.
pub(crate) fn given(rt: &impl Abort, value: i64) -> Content {
    content(rt, value, 0, Writer::Input)
}

/// What an object's slot holds at a timestep.
pub(crate) type Held<'a> = (&'a str, &'a str, u16, i64);

/// Returns a series that holds these values of inputs, and no others.
pub(crate) fn series_of(rt: &impl Abort, alloc: Global, basin: &Basin, rows: &[Held<'_>]) -> Series
    ensures { IsSeriesOf basin.now result }
{
    let mut series = Series::sized(alloc, basin).expect(rt, "memory");
    for k in 0..rows.len() {
        let (object, slot, step, value) = rows[k];
        let at = cell(rt, basin, object, slot, step);
        series.restore(basin, at, Some(given(rt, value)));
    }
    series
}

/// Returns whether the bytes are those of the text.
pub(crate) fn has_bytes(bytes: &[u8], text: &str) -> bool {
    bytes == text.as_bytes()
}
