//! Solves reservoirs as the definition of a dispatch says: the balance is solved for inflow, outflow or contents, what the
//! reservoir holds is put as storage and as elevation, and evaporation, release and spill are derived. No call takes memory.
#![tactic(auto)]

mod balance;
mod evaporation;
mod puts;
mod release;
mod reservoir;

pub use reservoir::ReservoirMethod;
