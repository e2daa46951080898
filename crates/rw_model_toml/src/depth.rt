//! Decides whether a table is nested no deeper than a given depth.
ghost use Rattle.std.specs.Prelude.{◌≡◌, nat_le};
ghost use Rattle.toml.specs.Data.{depth, items_depth, members_depth};
ghost use Rattle.toml.specs.View.{view, items_view, table_view};

use toml::{Table, Value};

// Whether arrays and tables nest no deeper than this in a value.
#[cycle(depth)]
fn value_nests_within(value: &Value, deepest: u8) -> bool
    ensures { result ≡ nat_le (depth (view value.now)) deepest }
{
    match value {
        Value::Array(items) => deepest > 0 && items_nest_within(items.as_slice(), deepest - 1),
        Value::Table(table) => deepest > 0 && table_nests_within(table, deepest - 1),
        _ => true,
    }
}

#[cycle(depth)]
fn items_nest_within(items: &[Value], deepest: u8) -> bool
    ensures { result ≡ nat_le (items_depth (items_view items.now)) deepest }
{
    'items: for item in items {
        if !value_nests_within(item, deepest) {
            return false;
        }
    }
    true
}

/// Returns whether arrays and tables are nested no deeper than this in the table.
#[cycle(depth)]
pub(crate) fn table_nests_within(table: &Table, deepest: u8) -> bool
    ensures { result ≡ nat_le (members_depth (table_view table.now)) deepest }
{
    'members: for (_key, member) in table.iter() {
        if !value_nests_within(member, deepest) {
            return false;
        }
    }
    true
}
