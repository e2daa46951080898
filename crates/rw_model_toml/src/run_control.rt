//! Turns what the table `run` says into the control of a run, with its stamps.
ghost use Rattle.std.specs.Prelude.{◌≡◌, ◌⊎◌, IfOk};
ghost use Rattle.rw_model.specs.Draft.{IsControl};
ghost use Rattle.rw_model_toml.specs.Fault.{Gives};
ghost use Rattle.rw_model_toml.specs.Run.{IsRunInRange};
ghost use Rattle.rw_model_toml.specs.Control.{ahead_in, control_of};

use crate::ModelFault;
use crate::run::Run;
use rw_calendar::{CalFault, Stamps};
use rw_model::RunControl;
use std::alloc::Global;

/// Returns how many timesteps ahead rules may put in a model of this format.
pub(crate) fn ahead_in(format: u16) -> u8
    ensures value { result ≡ ahead_in format }
    ensures in_range { (result ≡ 0) ⊎ (result ≡ 30) }
{
    if format == 1 { 0 } else { 30 }
}

/// Returns how the run goes, with its stamps, where rules may put `ahead` timesteps ahead.
pub(crate) fn stamp_run(alloc: Global, ahead: u8, run: Run) -> Result<RunControl, ModelFault>
    requires run { IsRunInRange run }
    requires ahead { (ahead ≡ 0) ⊎ (ahead ≡ 30) }
    ensures read { Gives (λ control. control) result (control_of ahead run) }
    ensures in_range { IfOk result IsControl }
{
    let fault = match Stamps::of(alloc, run.start, run.step_length, run.steps) {
        Ok(stamps) => {
            return Ok(RunControl {
                stamps,
                agenda: run.agenda,
                object_limit: run.object_limit,
                rule_limit: run.rule_limit,
                ahead,
            });
        }
        Err(fault) => fault,
    };
    match fault {
        CalFault::NoMemory => Err(ModelFault::NoMemory),
        _ => Err(ModelFault::Calendar(fault)),
    }
}
