//! Lists the places of the slots that a balance speaks of, kind by kind (`docs/DEFINITIONS.md`, "Slots").

/// The Inflow of a gage, a bifurcation, a reach, a reservoir, a canal or a routed reach.
pub const INFLOW: u8 = 0;
/// The Outflow of a gage, a reach, a reservoir, a canal or a routed reach.
pub const OUTFLOW: u8 = 1;

/// The first inflow of a confluence.
pub const INFLOW_1: u8 = 0;
/// The second inflow of a confluence.
pub const INFLOW_2: u8 = 1;
/// The outflow of a confluence.
pub const JOINED_OUTFLOW: u8 = 2;

/// The first outflow of a bifurcation.
pub const OUTFLOW_1: u8 = 1;
/// The second outflow of a bifurcation.
pub const OUTFLOW_2: u8 = 2;

/// A reach's LocalInflow, with its Diversion and ReturnFlow in the next two places.
pub const REACH_SIDE: u8 = 2;
/// A reservoir's LocalInflow, with its Diversion and ReturnFlow in the next two places.
pub const RESERVOIR_SIDE: u8 = 4;

/// The Storage of a reservoir, and of a power reservoir.
pub const STORAGE: u8 = 2;
/// The PoolElevation of a reservoir, and of a power reservoir.
pub const POOL_ELEVATION: u8 = 3;
/// A reservoir's EvaporationRate.
pub const EVAPORATION_RATE: u8 = 7;
/// A reservoir's Evaporation.
pub const EVAPORATION: u8 = 8;
/// A reservoir's Release.
pub const RELEASE: u8 = 9;
/// A reservoir's Spill.
pub const SPILL: u8 = 10;

/// A power reservoir's EnergyRequest.
pub const ENERGY_REQUEST: u8 = 4;
/// A power reservoir's Energy.
pub const ENERGY: u8 = 5;
/// A power reservoir's Release.
pub const POWER_RELEASE: u8 = 6;
/// A power reservoir's Spill.
pub const POWER_SPILL: u8 = 7;

/// A water user's DiversionRequest.
pub const DIVERSION_REQUEST: u8 = 0;
/// A water user's Diversion.
pub const DIVERSION: u8 = 1;
/// A water user's Depletion.
pub const DEPLETION: u8 = 2;
/// A water user's ReturnFlow.
pub const RETURN_FLOW: u8 = 3;

/// A canal's Seepage.
pub const SEEPAGE: u8 = 2;

/// A routed reach's Content.
pub const CONTENT: u8 = 2;
