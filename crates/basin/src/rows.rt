//! Tests the top call on worked examples, over files and sinks in memory, and the methods of objects, by a catalogue of them all.
//! There is nothing here but tests: what they compare with was worked out by hand, or by programs that know nothing of this one.

mod basins;
mod counting;
mod dispatch;
mod each_failure;
mod is_view;
mod kept;
mod kinds;
mod many;
mod methods;
mod objects;
mod pools;
mod powers;
mod reservoirs;
mod rules;
mod runs;
mod statuses;
mod streams;
mod sure;
mod users;
