//! Reads the inflows of a reach before the run.
ghost use Rattle.toml.specs.View.{items_view, table_view};
ghost use Rattle.rw_base.specs.Quantity.{quantity_max};
ghost use Rattle.rw_model_toml.specs.Fault.{Gives};
ghost use Rattle.rw_model_toml.specs.ListOf.{list_read};
ghost use Rattle.rw_model_toml.specs.Kinds.{inflow_of, history_items_of, history_of};

use crate::ModelFault;
use crate::key::{optional_items, required_items};
use crate::path::{element_path, key_path};
use crate::value::number;
use rw_base::QUANTITY_MAX;
use rw_model::BuildFault;
use std::alloc::Global;
use toml::{Table, Value};

// The items of the array of past inflows.
fn history_items<'a>(
    alloc: Global,
    at: &str,
    lag: u16,
    table: &'a Table,
) -> Result<&'a [Value], ModelFault>
    ensures { Gives (λ items. items_view items.now) result
        (history_items_of at.now lag (table_view table.now)) }
{
    if lag == 0 {
        optional_items(alloc, at, "history", table)
    } else {
        required_items(alloc, at, "history", table)
    }
}

fn read_inflows(alloc: Global, path: &str, items: &[Value]) -> Result<Vec<i64>, ModelFault>
    ensures { Gives (λ inflows. inflows.items) result
        (list_read inflow_of path.now 1 (items_view items.now)) }
{
    let mut inflows = Vec::new(alloc);
    for place in 0..items.len() {
        let at = element_path(alloc, path, place + 1)?;
        let inflow = number(at, &items[place], -QUANTITY_MAX, QUANTITY_MAX)?;
        inflows.push(inflow)?;
    }
    Ok(inflows)
}

/// Returns the past inflows, one for each timestep of the lag.
pub(crate) fn read_history(
    alloc: Global,
    at: &str,
    lag: u16,
    table: &Table,
) -> Result<Vec<i64>, ModelFault>
    ensures { Gives (λ inflows. inflows.items) result
        (history_of at.now lag (table_view table.now)) }
{
    let items = history_items(alloc, at, lag, table)?;
    let path = key_path(alloc, at, "history")?;
    let inflows = read_inflows(alloc, path.as_str(), items)?;
    if inflows.len() != usize::from(lag) {
        return Err(ModelFault::Build(path, BuildFault::BadParameter));
    }
    Ok(inflows)
}
