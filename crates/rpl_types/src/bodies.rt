//! Finds the types of the nodes of a declaration's body.
ghost use Rattle.std.specs.Prelude.{[]};
ghost use Rattle.rw_base.specs.Answers.{Answers};
ghost use Rattle.rpl_tree.specs.Seen.{acts_in, tree_of};
ghost use Rattle.rpl_types.specs.Bodies.{own_and_nodes};
ghost use Rattle.rpl_types.specs.Gives.{callable_in};
ghost use Rattle.rpl_types.specs.Nodes.{types_of, types_of_acts};
ghost use Rattle.rpl_types.specs.Stopped.{stop_refusal};
ghost use Rattle.rpl_types.specs.declared.stop.Stop.TheVariants as Stop;

use crate::known::Known;
use crate::progress::Progress;
use crate::statements::statements;
use crate::stop::Stop;
use crate::visit::visit;
use rpl_scope::Scope;
use rpl_tree::{Expr, RplType, Statement};

/// Returns the type of a function's body, and those of its nodes.
#[tactic(auto, using(crate::proofs::VisitingActs::body_given))]
pub(crate) fn body_types<'a>(
    known: &Known<'_, 'a>,
    scope: Scope<'a, RplType>,
    body: &'a Expr,
) -> Result<(RplType, Vec<Option<RplType>>), Stop>
    ensures { Answers Stop.NoMemory stop_refusal (λ pair. (pair.0, pair.1.items)) result
        (own_and_nodes
        (types_of known.now.basin.now (callable_in known.now) scope.entry 1 (tree_of body.now))) }
{
    let types = Vec::new(known.alloc);
    let mut progress = Progress { scope, types };
    match visit(known, &mut progress, body) {
        Ok(own) => Ok((own, progress.types)),
        Err(stop) => Err(stop),
    }
}

/// Returns the types of a rule's nodes.
#[tactic(auto, using(crate::proofs::VisitingActs::acts_given))]
pub(crate) fn acts_types<'a>(
    known: &Known<'_, 'a>,
    body: &'a [Statement],
) -> Result<Vec<Option<RplType>>, Stop>
    ensures { Answers Stop.NoMemory stop_refusal (λ types. types.items) result
        (types_of_acts known.now.basin.now (callable_in known.now) [] 1 (acts_in body.now)) }
{
    let scope = Scope::new(known.alloc);
    let types = Vec::new(known.alloc);
    let mut progress = Progress { scope, types };
    match statements(known, &mut progress, body) {
        Ok(()) => Ok(progress.types),
        Err(stop) => Err(stop),
    }
}
