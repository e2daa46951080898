//! Names objects, slots, timesteps, rules and cells by number, each by a type of its own.

/// The number of an object of the basin, counted from 1.
#[derive(Clone, Copy, Debug, PartialEq, Eq, PartialOrd, Ord, Drop)]
pub struct ObjectNo(pub u16);

/// The number of a slot of the basin, counted from 1.
#[derive(Clone, Copy, Debug, PartialEq, Eq, PartialOrd, Ord, Drop)]
pub struct SlotNo(pub u16);

/// The number of a timestep of the run, counted from 1.
#[derive(Clone, Copy, Debug, PartialEq, Eq, PartialOrd, Ord, Drop)]
pub struct StepNo(pub u16);

/// The number of a rule of the policy, counted from 1.
#[derive(Clone, Copy, Debug, PartialEq, Eq, PartialOrd, Ord, Drop)]
pub struct RuleNo(pub u16);

/// A cell, the place of one value: a slot at a timestep.
#[derive(Clone, Copy, Debug, PartialEq, Eq, Drop)]
pub struct Cell {
    /// The slot.
    pub slot: SlotNo,
    /// The timestep.
    pub step: StepNo,
}
