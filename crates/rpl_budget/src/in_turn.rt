//! Computes the budgets of declarations one at a time, for a caller that goes through them itself.
ghost use Rattle.std.specs.Prelude.{◌≡◌, IfOk, OnOk};
ghost use Rattle.rpl_tree.specs.Seen.{declared_of};
ghost use Rattle.rpl_budget.specs.Pass.{and_priced, declared_budget, predefined_priced};
ghost use Rattle.rpl_budget.specs.Seen.{budget_seen};

use crate::TreeCost;
use crate::functions::Functions;
use crate::ruleset::{declared, predefined};
use rpl_tree::Declaration;
use rw_base::NoMemory;
use std::alloc::Global;
use std::marker::Model;

/// The budgets of declarations in turn, seen as the functions that the next one can call: a caller that goes through a
/// declaration for something else, too, goes through it while it is at hand.
#[derive(Drop)]
pub struct InTurn<'a> {
    known: Functions<'a>,
}

impl<'a> Model for InTurn<'a> {
    ghost use Rattle.std.specs.Prelude.{List};
    ghost use Rattle.rpl_budget.specs.Pass.{Priced};

    ghost Value = { List Priced };

    ghost view = { λ turn. turn.known };
}

impl<'a> InTurn<'a> {
    /// Returns the state before the first declaration. `NoMemory` says nothing.
    pub fn begin(alloc: Global) -> Result<InTurn<'a>, NoMemory>
        ensures { IfOk result (λ turn. turn ≡ predefined_priced) }
    {
        let known = predefined(alloc)?;
        Ok(InTurn { known })
    }

    /// Returns the budgets of the next declaration, as `budgets` gives them. `NoMemory` says nothing of it.
    pub fn next(
        &mut self,
        alloc: Global,
        declaration: &'a Declaration,
    ) -> Result<TreeCost, NoMemory>
        ensures cost { IfOk result (λ cost. budget_seen cost
            ≡ declared_budget self.old (declared_of declaration.now)) }
        ensures known { OnOk result (self.new
            ≡ and_priced self.old (declared_of declaration.now)) }
    {
        declared(alloc, &mut self.known, declaration)
    }
}
