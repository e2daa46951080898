//! Reads which side flows a reach or a reservoir has.
ghost use Rattle.toml.specs.View.{table_view};
ghost use Rattle.rw_model_toml.specs.Fault.{Gives};
ghost use Rattle.rw_model_toml.specs.Kinds.{options_of};

use crate::ModelFault;
use crate::key::choice;
use std::alloc::Global;
use toml::Table;

/// The side flows that a reach or a reservoir has.
#[derive(Clone, Copy, Drop)]
pub(crate) struct Options {
    /// A local inflow.
    pub(crate) local_inflow: bool,
    /// A diversion.
    pub(crate) diversion: bool,
    /// A return flow.
    pub(crate) return_flow: bool,
}

/// Returns which of them the table says.
pub(crate) fn read_options(alloc: Global, at: &str, table: &Table) -> Result<Options, ModelFault>
    ensures { Gives (λ options. options) result (options_of at.now (table_view table.now)) }
{
    let local_inflow = choice(alloc, at, "local_inflow", table)?;
    let diversion = choice(alloc, at, "diversion", table)?;
    let return_flow = choice(alloc, at, "return_flow", table)?;
    Ok(Options {
        local_inflow,
        diversion,
        return_flow,
    })
}
