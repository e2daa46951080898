//! Writes a model's file as the same table in format 2.
ghost use Rattle.std.specs.Prelude.{◌≡◌, Ok, IfErr, IfOk, OnOk, Some};
ghost use Rattle.toml.specs.View.{table_view};
ghost use Rattle.rw_base.specs.Answers.{IsWhy};
ghost use Rattle.rw_model.specs.Draft.{Draft};
ghost use Rattle.rw_model_toml.specs.declared.fault.ModelFault.TheVariants as ModelFault;
ghost use Rattle.rw_model_toml.specs.Fault.{IsModelWhy, model_refusal_of};
ghost use Rattle.rw_model_toml.specs.Migrated.{IsMigrated, with_format_2};
ghost use Rattle.rw_model_toml.specs.Model.{basin_of, model_of, toml_of};

use crate::ModelFault;
use crate::depth::table_nests_within;
use crate::model::{read_basin, read_table};
use std::alloc::Global;
use toml::{Table, Value};

// How deep the reader of TOML follows what it printed itself.
const DEEPEST: u8 = 80;

// Makes the format 2, where there is one.
fn set_format(table: &mut Table)
    ensures { table_view table.new ≡ with_format_2 (table_view table.old) }
{
    match table.get_mut("format") {
        Some(format) => *format = Value::Integer(2),
        None => (),
    }
}

// A text that is read as the table. A table of a model is never so deep that there is none.
fn print(alloc: Global, table: &Table) -> Result<Vec<u8>, ModelFault>
    ensures read { IfOk result (λ text. toml_of text.items ≡ Some (table_view table.now)) }
    ensures memory { IfErr result (λ fault. fault ≡ ModelFault.NoMemory) }
{
    if !table_nests_within(table, DEEPEST) {
        return Err(ModelFault::NoMemory);
    }
    match toml::table_to_string(alloc, table) {
        Ok(text) => Ok(text.into_bytes()),
        Err(_) => Err(ModelFault::NoMemory),
    }
}

// Refuses the table if it makes no basin.
fn judge(alloc: Global, table: &Table) -> Result<(), ModelFault>
    ensures accepted { OnOk result
        ((basin : Draft) × (basin_of (table_view table.now) ≡ Ok basin)) }
    ensures refused { IfErr result (IsModelWhy (basin_of (table_view table.now))) }
{
    match read_basin(alloc, table) {
        Ok(_) => Ok(()),
        Err(fault) => Err(fault),
    }
}

/// Returns the bytes of a model's file as one of format 2: they are read to the same table but for its `format`.
///
/// A file is refused where `read_model` refuses it, for the same reason. `NoMemory` says nothing of the file.
pub fn migrate(alloc: Global, text: &[u8]) -> Result<Vec<u8>, ModelFault>
    ensures text { IfOk result (λ new. IsMigrated text.now new.items) }
    ensures accepted { OnOk result ((basin : Draft) × (model_of text.now ≡ Ok basin)) }
    ensures refused { IfErr result
        (IsWhy ModelFault.NoMemory model_refusal_of (model_of text.now)) }
{
    let mut table = read_table(alloc, text)?;
    judge(alloc, &table)?;
    set_format(&mut table);
    print(alloc, &table)
}
