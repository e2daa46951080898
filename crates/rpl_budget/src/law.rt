//! Proves what the budgets of all declarations are, and computes them in rules that were worked out by hand.
ghost use Rattle.std.specs.Prelude.{◌≡◌, ◌<◌, ◌+◌, ℕ, List, [], ◌∷◌, Some, length, pos, slice_get};
ghost use Rattle.rpl_tree.specs.Tree.{Declared};
ghost use Rattle.rpl_tree.specs.Budget.{budget, budget_of};
ghost use Rattle.rpl_tree.specs.Worked.{both_call, cap_and_base, count_call, sum_ahead, whole, with_functions};
ghost use Rattle.rpl_budget.specs.Budgets.{budgets_of};

/// There is one for each declaration, in order.
pub fn one_each()
    ensures length { (rules : List Declared) → length (budgets_of rules) ≡ length rules }
    ensures number { (rules : List Declared) (k : ℕ) → k < length rules
        → slice_get (budgets_of rules) k ≡ Some (budget_of rules (k + 1)) }
{}

/// A storage that is capped beside a release; a sum over timesteps, which calls a function; lists that are widened.
pub fn worked_budgets()
    ensures cap_and_base { budgets_of cap_and_base ≡ budget 6 1 1 2 ∷ budget 2 0 1 1 ∷ [] }
    ensures sum_ahead { budgets_of sum_ahead ≡ budget 5 1 0 4 ∷ budget 34 2 1 13 ∷ [] }
    ensures argument { slice_get (budgets_of (with_functions (count_call (whole (pos 1))))) 2
        ≡ Some (budget 22 0 1 14) }
    ensures result { slice_get (budgets_of (with_functions both_call)) 2 ≡ Some (budget 12 0 1 4) }
    ensures none { budgets_of [] ≡ [] }
{}
