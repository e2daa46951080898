//! Tests calls below the top one, lowest first: quantities, rating tables, stamps, files, a basin that is built, a series, puts,
//! the queue of objects that wait, a run in which a rule picks who is dispatched, the record of a timestep, sections, and a
//! session in which memory may be wanting. There is nothing here but tests: what they compare with was worked out by hand.
#![tactic(auto)]

#[cfg(test)]
mod arithmetic;
#[cfg(test)]
mod asked_again;
#[cfg(test)]
mod building;
#[cfg(test)]
mod files;
#[cfg(test)]
mod methods;
#[cfg(test)]
mod puts;
#[cfg(test)]
mod queue;
#[cfg(test)]
mod ratings;
#[cfg(test)]
mod records;
#[cfg(test)]
mod runs;
#[cfg(test)]
mod sections;
#[cfg(test)]
mod series;
#[cfg(test)]
mod shared;
#[cfg(test)]
mod stamps;
