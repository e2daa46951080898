//! Defines the run of the simplest basin, one plain reservoir whose inflow and outflow are given, in words of its own: its
//! storages, the timestep at which one leaves its range, and the text of its table (`specs/Table.antt`). The law says that this
//! text is the one that is written of its run as of any other.
#![tactic(auto)]

pub mod law;
