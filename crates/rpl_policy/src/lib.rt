//! Defines the policy of a run that code is. A run's definition asks a policy what each rule does at a timestep; those of code do
//! what the machine of the definitions does. The laws say that accepted code keeps what a run's definition asks of a policy, so
//! that it has a run, and that each firing in a run is one of verified code, within its budget.
#![tactic(auto)]

pub mod law;
