//! Solves the objects that hold water back on its way: routed reaches. The method returns what the definition of a dispatch says
//! of its kind. No call takes memory.
#![tactic(auto)]

mod routed_reach;

pub use routed_reach::RoutedReachMethod;
