//! Tests calls on rules and their code: names in scope, texts of code that are read, rules that are fired, the functions that
//! they call by name, the agenda of a policy, and what of a firing is written. There is nothing here but tests: what they compare
//! with was worked out by hand.
#![tactic(auto)]

#[cfg(test)]
mod agendas;
#[cfg(test)]
mod codes;
#[cfg(test)]
mod firings;
#[cfg(test)]
mod names;
#[cfg(test)]
mod tables;
#[cfg(test)]
mod written;
