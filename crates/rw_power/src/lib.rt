//! Solves power reservoirs as the definition of a dispatch says: an energy request that counts gives the outflow, by the minimum
//! release that makes as much energy; the balance is solved for inflow, outflow or contents; and energy, release and spill are
//! derived. No call takes memory.
#![tactic(auto)]

mod energy;
mod flows;
mod power_reservoir;
mod puts;
mod request;

pub use power_reservoir::PowerReservoirMethod;
