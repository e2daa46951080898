//! Solves the objects that water is diverted to: water users and canals. Each method returns what the definition of a dispatch
//! says of its kind. No call takes memory.
#![tactic(auto)]

mod canal;
mod water_user;

pub use canal::CanalMethod;
pub use water_user::WaterUserMethod;
