//! Reads a model's file as a whole, in the order in which the format judges its parts.
ghost use Rattle.std.specs.Prelude.{◌≡◌, codes, IfOk};
ghost use Rattle.rw_base.specs.Answers.{Answers};
ghost use Rattle.rw_model_toml.specs.declared.fault.ModelFault.TheVariants as ModelFault;
ghost use Rattle.rw_model.specs.Basin.{IsBasin};
ghost use Rattle.rw_model.specs.Build.{finished};
ghost use Rattle.rw_model_toml.specs.Refusal.{refused_as, bad_build};
ghost use Rattle.toml.specs.View.{table_view};
ghost use Rattle.rw_model.specs.Draft.{IsControl};
ghost use Rattle.rw_model_toml.specs.Fault.{Gives, model_refusal_of};
ghost use Rattle.rw_model_toml.specs.Model.{control_in, empty_draft, filled, draft_of, toml_of, table_or, basin_of, model_of};

use crate::ModelFault;
use crate::bound_table::read_bounds;
use crate::key::{required_count, required_table};
use crate::link_table::read_links;
use crate::listed::only_listed;
use crate::object_table::read_objects;
use crate::run::read_run;
use crate::run_control::{ahead_in, stamp_run};
use crate::told::told;
use rw_model::{Basin, BasinBuilder, RunControl};
use std::alloc::Global;
use toml::Table;

// The keys of the file.
const KEYS: [&str; 5] = ["format", "run", "object", "link", "bound"];

#[tactic(auto, unfolding(crate::specs::Model::control_in))]
fn read_control(alloc: Global, table: &Table) -> Result<RunControl, ModelFault>
    ensures read { Gives (λ control. control) result (control_in (table_view table.now)) }
    ensures in_range { IfOk result IsControl }
{
    let format = required_count(alloc, "", "format", table, 1, 2)?;
    let run_table = required_table(alloc, "", "run", table)?;
    let run = read_run(alloc, run_table)?;
    stamp_run(alloc, ahead_in(format), run)
}

fn begin(alloc: Global, control: RunControl) -> BasinBuilder
    requires { IsControl control }
    ensures { result ≡ empty_draft control }
{
    match BasinBuilder::begin(alloc, control) {
        Ok(builder) => builder,
        Err(_) => unreachable!(),
    }
}

#[tactic(auto, unfolding(crate::specs::Model::filled))]
fn fill(alloc: Global, builder: &mut BasinBuilder, table: &Table) -> Result<(), ModelFault>
    ensures { Gives (λ _. builder.new) result (filled (table_view table.now) builder.old) }
{
    read_objects(alloc, builder, table)?;
    read_links(alloc, builder, table)?;
    read_bounds(alloc, builder, table)
}

#[tactic(auto, unfolding(crate::specs::Model::draft_of))]
fn read_draft(alloc: Global, table: &Table) -> Result<BasinBuilder, ModelFault>
    ensures { Gives (λ builder. builder) result (draft_of (table_view table.now)) }
{
    let control = read_control(alloc, table)?;
    let mut builder = begin(alloc, control);
    fill(alloc, &mut builder, table)?;
    only_listed(alloc, &KEYS, "", table)?;
    Ok(builder)
}

// The basin that the builder makes.
fn finish(alloc: Global, builder: BasinBuilder) -> Result<Basin, ModelFault>
    ensures read { Gives (λ basin. basin) result
        (refused_as (bad_build (codes "basin")) (finished builder)) }
    ensures valid { IfOk result IsBasin }
{
    match builder.finish() {
        Ok(basin) => Ok(basin),
        Err(fault) => Err(told(alloc, "basin", fault)),
    }
}

/// Returns the table that the bytes are.
pub(crate) fn read_table(alloc: Global, text: &[u8]) -> Result<Table, ModelFault>
    ensures { Gives (λ table. table_view table) result (table_or (toml_of text.now)) }
{
    match toml::table_from_slice(alloc, text) {
        Ok(table) => Ok(table),
        Err(error) => {
            if error.is_memory() {
                return Err(ModelFault::NoMemory);
            }
            Err(ModelFault::NotToml)
        }
    }
}

#[tactic(auto, unfolding(crate::specs::Model::basin_of))]
pub(crate) fn read_basin(alloc: Global, table: &Table) -> Result<Basin, ModelFault>
    ensures read { Gives (λ basin. basin) result (basin_of (table_view table.now)) }
    ensures valid { IfOk result IsBasin }
{
    let builder = read_draft(alloc, table)?;
    finish(alloc, builder)
}

/// Returns the basin that the bytes of a model's file say, whose values are whole numbers of m3, mm, m3/step and kWh.
///
/// A refusal is the first thing that is wrong, in the order in which the format judges, with the path of its key. Its inner fault
/// is never a want of memory. `NoMemory` says nothing of the file. `docs/FORMATS.md` has the keys and their ranges under "Model".
pub fn read_model(alloc: Global, text: &[u8]) -> Result<Basin, ModelFault>
    ensures answers { Answers ModelFault.NoMemory model_refusal_of (λ basin. basin) result
        (model_of text.now) }
    ensures valid { IfOk result IsBasin }
{
    let table = read_table(alloc, text)?;
    read_basin(alloc, &table)
}
