//! Holds how a run of a basin goes: its timesteps, the order of its rules, and its limits.
use rw_calendar::Stamps;

/// The order in which rules are taken.
#[derive(Clone, Copy, Debug, PartialEq, Eq)]
pub enum AgendaOrder {
    /// The rule of highest priority first: 1, 2, 3.
    HighFirst,
    /// The rule of lowest priority first: 3, 2, 1.
    LowFirst,
}

/// How a run goes.
#[derive(Debug, Drop)]
pub struct RunControl {
    /// The timesteps of the run.
    pub stamps: Stamps,
    /// The order in which rules are taken.
    pub agenda: AgendaOrder,
    /// The maximum number of times that one object may be solved at one timestep, 16 to 100.
    pub object_limit: u8,
    /// The maximum number of times that one rule may be run at one timestep, 1 to 100.
    pub rule_limit: u8,
    /// The maximum number of timesteps ahead at which a rule may put, 0 or 30.
    pub ahead: u8,
}
