//! Holds a run on its way, of which timesteps are taken over or run.
use crate::orders::Orders;
use rw_base::StepNo;
use rw_engine::{Engine, KeptStep};

/// A run on its way: its engine, the timesteps that it ran, what is to be kept of each one behind which it has come, where that
/// changes, whether a fault has ended it, and in which orders the cells of timesteps rose.
#[derive(Drop)]
pub(crate) struct Pass {
    pub(crate) engine: Engine,
    pub(crate) reran: Vec<StepNo>,
    pub(crate) changes: Vec<Option<Option<KeptStep>>>,
    pub(crate) over: bool,
    pub(crate) orders: Orders,
}
