//! Reads the table `run` of a model's file.
ghost use Rattle.std.specs.Prelude.{IfOk};
ghost use Rattle.rw_calendar.specs.StepLength.{IsStepLength};
ghost use Rattle.toml.specs.View.{table_view};
ghost use Rattle.rw_model_toml.specs.Fault.{Gives};
ghost use Rattle.rw_model_toml.specs.Run.{IsRunInRange, start_read, step_length_of, agenda_read, run_of};

use crate::ModelFault;
use crate::key::{optional_count, optional_text, required_count, required_text};
use crate::listed::only_listed;
use crate::path::key_path;
use crate::start_text::start_in;
use crate::word::{agenda_in, step_length_in};
use rw_calendar::{STEPS_MAX, Start, StepLength};
use rw_model::{AgendaOrder, BuildFault};
use std::alloc::Global;
use toml::Table;

/// The content of the table `run`.
#[derive(Clone, Copy, Drop)]
pub(crate) struct Run {
    /// The start of the run, which may be no moment.
    pub(crate) start: Start,
    /// The length of each timestep.
    pub(crate) step_length: StepLength,
    /// The number of timesteps.
    pub(crate) steps: u16,
    /// The order in which rules are taken.
    pub(crate) agenda: AgendaOrder,
    /// The maximum number of times that one object may be solved at one timestep.
    pub(crate) object_limit: u8,
    /// The maximum number of times that one rule may be run at one timestep.
    pub(crate) rule_limit: u8,
}

// The keys of the table.
const KEYS: [&str; 6] = [
    "start",
    "step",
    "steps",
    "agenda",
    "object_limit",
    "rule_limit",
];

fn read_start(alloc: Global, table: &Table) -> Result<Start, ModelFault>
    ensures { Gives (λ start. start) result (start_read (table_view table.now)) }
{
    let text = required_text(alloc, "run", "start", table)?;
    match start_in(text) {
        Some(start) => Ok(start),
        None => Err(ModelFault::Build(key_path(alloc, "run", "start")?, BuildFault::BadParameter)),
    }
}

fn read_step_length(alloc: Global, table: &Table) -> Result<StepLength, ModelFault>
    ensures read { Gives (λ length. length) result (step_length_of (table_view table.now)) }
    ensures known { IfOk result IsStepLength }
{
    let word = required_text(alloc, "run", "step", table)?;
    match step_length_in(word) {
        Some(length) => Ok(length),
        None => Err(ModelFault::Build(key_path(alloc, "run", "step")?, BuildFault::BadParameter)),
    }
}

fn read_agenda(alloc: Global, table: &Table) -> Result<AgendaOrder, ModelFault>
    ensures { Gives (λ agenda. agenda) result (agenda_read (table_view table.now)) }
{
    let word = optional_text(alloc, "run", "agenda", table, "321")?;
    match agenda_in(word) {
        Some(agenda) => Ok(agenda),
        None => Err(ModelFault::Build(key_path(alloc, "run", "agenda")?, BuildFault::BadParameter)),
    }
}

/// Returns what the table says.
#[tactic(auto, unfolding(crate::specs::Run::run_of))]
pub(crate) fn read_run(alloc: Global, table: &Table) -> Result<Run, ModelFault>
    ensures read { Gives (λ run. run) result (run_of (table_view table.now)) }
    ensures in_range { IfOk result IsRunInRange }
{
    let start = read_start(alloc, table)?;
    let step_length = read_step_length(alloc, table)?;
    let steps = required_count(alloc, "run", "steps", table, 1, STEPS_MAX)?;
    let agenda = read_agenda(alloc, table)?;
    let object_limit = optional_count(alloc, "run", "object_limit", table, 50, 16, 100)?;
    let rule_limit = optional_count(alloc, "run", "rule_limit", table, 20, 1, 100)?;
    only_listed(alloc, &KEYS, "run", table)?;
    Ok(Run {
        start,
        step_length,
        steps,
        agenda,
        object_limit: object_limit as u8,
        rule_limit: rule_limit as u8,
    })
}
