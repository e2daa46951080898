//! Lists how a timestep can end.
use rw_run::RunFault;

/// Says how a timestep ended.
#[derive(Clone, Copy, Debug, PartialEq, Eq)]
pub enum StepEnd {
    /// It was closed.
    Closed,
    /// The run ended in it.
    Fault(RunFault),
}
