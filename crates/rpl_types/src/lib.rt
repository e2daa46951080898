//! Judges rulesets. `check` returns the type that each expression of a ruleset has with a basin, or the first thing that is
//! wrong: `specs/Forms.antt` and `specs/Functions.antt` say which type each form has by those of its parts, `specs/Nodes.antt`
//! goes over a declaration's nodes, and `specs/Judged.antt` over all declarations. `Typed` holds the types and the budgets. The
//! code goes over a body once, and finds the types of its nodes as `specs/Visited.antt` says, which is proved to be what
//! `specs/Nodes.antt` says. The laws have worked rulesets, and say that what is accepted is typed (`specs/HasType.antt`).
#![tactic(auto)]

mod bodies;
mod calls;
mod checking;
mod declarations;
mod fault;
mod fits;
mod forms;
mod functions;
mod heads;
mod known;
pub mod law;
mod names;
mod progress;
mod statements;
mod stop;
mod type_kind;
mod typed;
mod visit;

pub use checking::check;
pub use fault::TypeFault;
pub use rpl_budget::TreeCost;
pub use type_kind::TypeKind;
pub use typed::Typed;
