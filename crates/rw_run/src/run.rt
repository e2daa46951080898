//! Holds a run: how it ended, its last closed timestep, its cells and its trace.
use crate::{RunFault, Trace};
use rw_series::Series;

/// The ways in which a run can end.
#[derive(Clone, Copy, Debug, PartialEq, Eq)]
pub enum RunEnd {
    /// The last timestep was closed.
    Settled,
    /// The run stopped with this fault.
    Fault(RunFault),
}

/// A run: how it ended, and what it left.
#[derive(Drop)]
pub struct Run {
    /// How it ended.
    pub end: RunEnd,
    /// The last timestep that was closed, and 0 where none was.
    pub closed: u16,
    /// What the cells hold at its end.
    pub series: Series,
    /// What happened, line by line.
    pub trace: Trace,
}
