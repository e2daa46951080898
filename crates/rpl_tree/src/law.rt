//! Proves what the definitions of this crate mean, in rules that were worked out by hand.
ghost use Rattle.std.specs.Prelude.{◌≡◌, ◌≢◌, ◌↔◌, IsTrue, ℕ, List, Option, [], ◌∷◌, false, None, Some, codes, neg_ℤ, pos, true, ℤ, ◌+ℤ◌};
ghost use Rattle.rw_base.specs.Quantity.{IsQuantity, quantity_max};
ghost use Rattle.rw_base.specs.declared.number.Cell.{Cell};
ghost use Rattle.rw_model.specs.Draft.{Draft};
ghost use Rattle.rw_firing.specs.Fire.{Fire};
ghost use Rattle.rw_firing.specs.declared.fire.FireEnd.TheVariants.{Done, OutOfRange, Unknown, ZeroDivisor};
ghost use Rattle.rpl_tree.specs.declared.words.ConvertWord.TheVariants.{ElevationToStorage, StorageToElevation};
ghost use Rattle.rpl_tree.specs.declared.words.OneWord.TheVariants.{Day, Known, Length, Minus, Month, Not, Year};
ghost use Rattle.rpl_tree.specs.declared.words.TwoWord.TheVariants.{And, Append, Divide, Equal, Greater, GreaterEqual, Item, Less, LessEqual, Minus as Less_by, Or, Plus, Times, Unequal};
ghost use Rattle.rpl_tree.specs.Frame.{AgreeAt};
ghost use Rattle.rpl_tree.specs.Operators.{is_quantity};
ghost use Rattle.rpl_tree.specs.Value.{truth_kind};
ghost use Rattle.rpl_tree.specs.Tree.{Declared, Tree, brackets, bind, branch, call, choice, convert, each, list, mapped, name, no_acts, now, one, slot, truth, two, at, with_name};
ghost use Rattle.rpl_tree.specs.World.{World, cell_of, put_ahead, put_to};
ghost use Rattle.rpl_tree.specs.Mean.{Env, Function, kind_in, mean, value_of};
ghost use Rattle.rpl_tree.specs.Count.{declared_locals, nodes_of};
ghost use Rattle.rpl_tree.specs.Budget.{budget, budget_of};
ghost use Rattle.rpl_tree.specs.Worked.{acts_do, ahead, all_cells, basin_over_days, both_call, call_with_numbers, called_by, canal, cap_and_base, count_call, dam, done_by, ended_early, fire, first_of_l, flow_object, hundredth, n_name, n_to_x, negative_outflow, numbers_object, of_unit, one_more, one_else_two, one_to_x, only_slot, loop_over, pair, part_of_n, pool_by, raise_and_reset, rules_do, seepage_set, storage_after, storage_before, sum, sum_ahead, sum_of_slots, sum_too_early, three_numbers, trees_from, turns_of_one_name, twice_each, unknown_cells, whole, with_functions, x_ahead_by, x_by, x_ends, x_is, x_put, x_rule, x_wants_y, y_now, y_put};

/// A firing depends on nothing but the cells at which it looks: where other cells hold something else, the rule does the same. A
/// firing that is not done asks for nothing.
pub fn firings()
    ensures framed { (rules : List Declared) (basin : Draft) (number step : ℕ)
        (values other : Cell → Option ℤ) (fire : Fire)
        → mean rules basin number step values ≡ Some fire → AgreeAt values other fire.looked
        → mean rules basin number step other ≡ Some fire }
    ensures silent { (rules : List Declared) (basin : Draft) (number step : ℕ)
        (values : Cell → Option ℤ) (fire : Fire) → mean rules basin number step values ≡ Some fire
        → fire.end ≢ Done → fire.puts ≡ [] }
{}

/// `<>`, `>` and `>=` are NOT of the opposite test. AND and OR are the IFs that they stand for, where their right side is a
/// truth. A pair of brackets means what is inside it.
pub fn stands_for()
    ensures unequal { (world : World) (functions : List Function) (env : Env) (l r : Tree)
        → value_of world functions env (two Unequal l r)
        ≡ value_of world functions env (one Not (two Equal l r)) }
    ensures greater { (world : World) (functions : List Function) (env : Env) (l r : Tree)
        → value_of world functions env (two Greater l r)
        ≡ value_of world functions env (one Not (two LessEqual l r)) }
    ensures greater_equal { (world : World) (functions : List Function) (env : Env) (l r : Tree)
        → value_of world functions env (two GreaterEqual l r)
        ≡ value_of world functions env (one Not (two Less l r)) }
    ensures and { (world : World) (functions : List Function) (env : Env) (l r : Tree)
        → kind_in world functions env r ≡ truth_kind → value_of world functions env (two And l r)
        ≡ value_of world functions env (choice l r (truth false)) }
    ensures or { (world : World) (functions : List Function) (env : Env) (l r : Tree)
        → kind_in world functions env r ≡ truth_kind → value_of world functions env (two Or l r)
        ≡ value_of world functions env (choice l (truth true) r) }
    ensures brackets { (world : World) (functions : List Function) (env : Env) (t : Tree)
        → value_of world functions env (brackets t) ≡ value_of world functions env t }
{}

/// The test of a result is whether it is a quantity.
pub fn quantities()
    ensures { (z : ℤ) → IsTrue (is_quantity z) ↔ IsQuantity z }
{}

/// `Dam.Storage[t] := Min(Dam.Storage[t], 1020 "m3");` looks at the storage and puts at most 1020; it counts 6.
/// `Dam.Outflow[t] := 50 "m3/step";` looks at nothing and counts 2.
pub fn cap_and_base_rules()
    ensures cap { mean cap_and_base (basin_over_days 1 (dam ∷ [])) 1 1 (only_slot 3 (pos 1050))
        ≡ done_by (cell_of 3 1 ∷ []) 3 (pos 1020) 6 }
    ensures base { mean cap_and_base (basin_over_days 1 (dam ∷ [])) 2 1 unknown_cells
        ≡ done_by [] 2 (pos 50) 2 }
    ensures cap_budget { budget_of cap_and_base 1 ≡ budget 6 1 1 2 }
    ensures base_budget { budget_of cap_and_base 2 ≡ budget 2 0 1 1 }
{}

/// `D.X[t] := Max(D.X[t], 10);` ends at its look where X is unknown, and then asks for nothing.
pub fn raise_and_reset_rules()
    ensures unknown { rules_do raise_and_reset unknown_cells
        ≡ ended_early Unknown (cell_of 1 1 ∷ []) 3 }
    ensures raised { rules_do raise_and_reset (all_cells (pos 0))
        ≡ done_by (cell_of 1 1 ∷ []) 1 (pos 10) 6 }
    ensures reset { mean raise_and_reset (basin_over_days 2 (numbers_object ∷ [])) 2 1 unknown_cells
        ≡ x_is (pos 0) 2 }
{}

/// `D.X[t] := 100 / D.Y[t];` ends at its division where Y is 0, and rounds down elsewhere.
pub fn hundredth_rule()
    ensures third { rules_do hundredth (only_slot 2 (pos 3))
        ≡ done_by (cell_of 2 1 ∷ []) 1 (pos 33) 6 }
    ensures below { rules_do hundredth (only_slot 2 (neg_ℤ (pos 3)))
        ≡ done_by (cell_of 2 1 ∷ []) 1 (neg_ℤ (pos 34)) 6 }
    ensures unknown { rules_do hundredth unknown_cells ≡ x_wants_y 4 }
    ensures zero { rules_do hundredth (only_slot 2 (pos 0))
        ≡ ended_early ZeroDivisor (cell_of 2 1 ∷ []) 5 }
{}

/// A loop over two steps that calls a function for each, which looks that many steps ahead. After the last timestep nothing is
/// known, and nothing is looked at. A rule cannot call a function that is declared after it.
pub fn sum_ahead_rule()
    ensures sum { mean sum_ahead (basin_over_days 3 (dam ∷ flow_object ∷ [])) 1 1
        (only_slot 1 (pos 100))
        ≡ done_by (cell_of 1 1 ∷ cell_of 1 2 ∷ []) 4 (pos 200) 34 }
    ensures last { mean sum_ahead (basin_over_days 3 (dam ∷ flow_object ∷ [])) 1 3
        (only_slot 1 (pos 100))
        ≡ ended_early Unknown (cell_of 1 3 ∷ []) 29 }
    ensures early { mean sum_too_early (basin_over_days 3 (dam ∷ flow_object ∷ [])) 1
        1 unknown_cells
        ≡ None }
    ensures ahead_budget { budget_of sum_ahead 1 ≡ budget 5 1 0 4 }
    ensures sum_budget { budget_of sum_ahead 2 ≡ budget 34 2 1 13 }
    ensures nodes { nodes_of sum ≡ 10 }
    ensures locals { declared_locals sum ≡ 2 }
{}

/// Where a firing ends inside an IF, the branch counts, and in the second branch the place after it; AND and OR are IFs.
pub fn ends_in_a_choice()
    ensures first { x_by (choice (truth true) y_now (whole (pos 1))) ≡ x_wants_y 5 }
    ensures second { x_by (choice (truth false) (whole (pos 1)) y_now) ≡ x_wants_y 6 }
    ensures and { x_by (one_else_two (two And (truth true) (two Equal y_now (whole (pos 1)))))
        ≡ x_wants_y 5 }
    ensures or { x_by (one_else_two (two Or (truth false) (two Equal y_now (whole (pos 1)))))
        ≡ x_wants_y 6 }
{}

/// A branch that is not taken is not looked into, and neither is the right side of an AND or OR that the left side decides.
pub fn only_one_branch()
    ensures first { x_by (choice (truth true) (whole (pos 7)) y_now) ≡ x_is (pos 7) 6 }
    ensures second { x_by (choice (truth false) y_now (whole (pos 7))) ≡ x_is (pos 7) 6 }
    ensures and { x_by (one_else_two (two And (truth false) (two Equal y_now (whole (pos 1)))))
        ≡ x_is (pos 2) 10 }
    ensures or { x_by (one_else_two (two Or (truth true) (two Equal y_now (whole (pos 1)))))
        ≡ x_is (pos 1) 10 }
{}

/// In a FOR each turn before the one that ends counts whole, and so in a MAP. LET counts the words of its variable before
/// its body.
pub fn ends_in_a_body()
    ensures for_first { x_by (loop_over (pair (pos 0) (pos 1)) part_of_n) ≡ x_ends ZeroDivisor 11 }
    ensures for_second { x_by (loop_over (pair (pos 1) (pos 0)) part_of_n) ≡ x_ends ZeroDivisor 16 }
    ensures map_first { x_by (one Length (mapped (codes "n") (pair (pos 0) (pos 1)) part_of_n))
        ≡ x_ends ZeroDivisor 9 }
    ensures map_second { x_by (one Length (mapped (codes "n") (pair (pos 1) (pos 0)) part_of_n))
        ≡ x_ends ZeroDivisor 13 }
    ensures variable { x_by (bind (codes "l") (pair (pos 7) (pos 8)) y_now) ≡ x_wants_y 11 }
{}

/// Numbers: units, exact results that are no quantity, and the predefined functions.
pub fn numbers()
    ensures unit { x_by (of_unit (pos 2) (codes "dam3")) ≡ x_is (pos 2000) 2 }
    ensures no_unit { x_by (of_unit (pos 2) (codes "ounce")) ≡ None }
    ensures sum { x_by (two Plus (whole (pos 3)) (whole (pos 4))) ≡ x_is (pos 7) 4 }
    ensures product { x_by (two Times (whole (pos 3)) (one Minus (whole (pos 4))))
        ≡ x_is (neg_ℤ (pos 12)) 5 }
    ensures beyond { x_by (two Plus (whole quantity_max) (whole (pos 1)))
        ≡ x_ends (OutOfRange (quantity_max +ℤ pos 1)) 3 }
    ensures product_beyond { x_by (two Times (whole quantity_max) (whole (pos 2)))
        ≡ x_ends (OutOfRange (quantity_max +ℤ quantity_max)) 3 }
    ensures clamp { x_by (call_with_numbers (codes "Clamp") (pos 9 ∷ pos 2 ∷ pos 7 ∷ []))
        ≡ x_is (pos 7) 5 }
    ensures sign { x_by (call_with_numbers (codes "Sign") (pos 9 ∷ [])) ≡ x_is (pos 1) 3 }
    ensures too_few { x_by (call_with_numbers (codes "Min") (pos 9 ∷ [])) ≡ None }
{}

/// Tests. The opposite of a test is NOT of it, and counts one more.
pub fn tests()
    ensures not { x_by (one_else_two (one Not (truth false))) ≡ x_is (pos 1) 7 }
    ensures equal { x_by (one_else_two (two Equal (whole (pos 2)) (whole (pos 2))))
        ≡ x_is (pos 1) 8 }
    ensures unequal { x_by (one_else_two (two Unequal (whole (pos 2)) (whole (pos 2))))
        ≡ x_is (pos 2) 9 }
    ensures less { x_by (one_else_two (two Less (whole (pos 2)) (whole (pos 2)))) ≡ x_is (pos 2) 8 }
    ensures less_equal { x_by (one_else_two (two LessEqual (whole (pos 2)) (whole (pos 2))))
        ≡ x_is (pos 1) 8 }
    ensures greater { x_by (one_else_two (two Greater (whole (pos 2)) (whole (pos 2))))
        ≡ x_is (pos 2) 9 }
    ensures greater_equal { x_by (one_else_two (two GreaterEqual (whole (pos 2)) (whole (pos 2))))
        ≡ x_is (pos 1) 9 }
{}

/// Dates, and values before the run. A look outside the timesteps of the run looks at no cell: before it a slot has the
/// value that its basin was given, after it none.
#[tactic(auto, unfolding(rw_calendar::specs::Moment::hours_later))]
pub fn dates()
    ensures between { x_by (two Less_by now now) ≡ x_is (pos 0) 4 }
    ensures later { x_by (one_else_two (two Less now (two Plus now (whole (pos 1)))))
        ≡ x_is (pos 1) 10 }
    ensures between_later { x_by (two Less_by (two Plus now (whole (pos 1))) now)
        ≡ x_is (pos 1) 6 }
    ensures far { x_by (one_else_two (two Equal now (two Plus now (whole quantity_max))))
        ≡ x_ends (OutOfRange (quantity_max +ℤ pos 1)) 4 }
    ensures before { pool_by 1 storage_before ≡ x_is (pos 250) 6 }
    ensures within { pool_by 2 storage_before ≡ ended_early Unknown (cell_of 5 1 ∷ []) 5 }
    ensures behind { pool_by 40 storage_after ≡ x_ends Unknown 5 }
    ensures known_before { pool_by 1 (one_else_two (one Known storage_before)) ≡ x_is (pos 1) 10 }
    ensures unknown_behind { pool_by 40 (one_else_two (one Known storage_after)) ≡ x_is (pos 2) 10 }
    ensures unknown_within { x_by (one_else_two (one Known y_now))
        ≡ done_by (cell_of 2 1 ∷ []) 1 (pos 2) 8 }
    ensures month { pool_by 2 (one Month now) ≡ x_is (pos 1) 3 }
    ensures day { pool_by 2 (one Day now) ≡ x_is (pos 2) 3 }
    ensures year { pool_by 2 (one Year now) ≡ x_is (pos 2020) 3 }
    ensures no_month { pool_by 33 (one Month (two Plus now (whole (pos 8)))) ≡ x_ends Unknown 4 }
{}

/// Values that are read from a table, and values that are not there.
pub fn tables()
    ensures elevation { pool_by 1 (convert StorageToElevation (codes "Pool") (whole (pos 250)))
        ≡ x_is (pos 501) 3 }
    ensures storage { pool_by 1 (convert ElevationToStorage (codes "Pool") (whole (pos 2000)))
        ≡ x_is (pos 1500) 3 }
    ensures above { pool_by 1 (convert ElevationToStorage (codes "Pool") (whole (pos 3001)))
        ≡ x_ends (OutOfRange (pos 3001)) 2 }
    ensures no_table { pool_by 1 (convert ElevationToStorage (codes "D") (whole (pos 1))) ≡ None }
{}

/// Lists. Places count from 1, and a list with less room than its place asks for is given that room, which counts.
pub fn lists()
    ensures item { x_by (two Item (pair (pos 7) (pos 8)) (whole (pos 2))) ≡ x_is (pos 8) 8 }
    ensures no_item { x_by (two Item (pair (pos 7) (pos 8)) (whole (pos 0)))
        ≡ x_ends (OutOfRange (pos 0)) 7 }
    ensures behind { x_by (two Item (pair (pos 7) (pos 8)) (whole (pos 3)))
        ≡ x_ends (OutOfRange (pos 3)) 7 }
    ensures negative { x_by (two Item (pair (pos 7) (pos 8)) (one Minus (whole (pos 1))))
        ≡ x_ends (OutOfRange (neg_ℤ (pos 1))) 8 }
    ensures append { x_by (one Length three_numbers) ≡ x_is (pos 3) 12 }
    ensures map { x_by (two Item (twice_each (pair (pos 3) (pos 4))) (whole (pos 2)))
        ≡ x_is (pos 8) 17 }
    ensures slots { rules_do (x_rule sum_of_slots) (all_cells (pos 4))
        ≡ done_by (cell_of 1 1 ∷ cell_of 2 1 ∷ []) 1 (pos 8) 24 }
    ensures wider { x_by (one Length (choice (truth true) (pair (pos 7) (pos 8)) three_numbers))
        ≡ x_is (pos 2) 15 }
    ensures few_slots { x_by (one Length (choice (truth true)
        (list (trees_from (slot (codes "D") (codes "X") ∷ [])))
        (list (trees_from (slot (codes "D") (codes "X") ∷ slot (codes "D") (codes "Y") ∷ [])))))
        ≡ x_is (pos 1) 12 }
{}

/// Names: the innermost of a name is meant, and of the two of one FOR the accumulator.
pub fn names()
    ensures variable { x_by (bind (codes "l") (pair (pos 7) (pos 8)) first_of_l)
        ≡ x_is (pos 7) 14 }
    ensures innermost { x_by (bind (codes "n") (whole (pos 1)) (bind (codes "n") one_more n_name))
        ≡ x_is (pos 2) 8 }
    ensures accumulator { x_by (turns_of_one_name (pair (pos 5) (pos 6)))
        ≡ x_is (pos 2) 20 }
    ensures missing { x_by n_name ≡ None }
    ensures wrong_kind { x_by (two Plus (truth true) (whole (pos 1))) ≡ None }
{}

/// Calls of functions with lists: an argument and a result are given the room that they ask, each as soon as it is there.
pub fn calls()
    ensures argument { called_by (count_call (whole (pos 1))) ≡ x_is (pos 2) 22 }
    ensures ends { called_by (count_call (two Divide (whole (pos 1)) (whole (pos 0))))
        ≡ x_ends ZeroDivisor 12 }
    ensures result { called_by both_call ≡ x_is (pos 2) 12 }
    ensures argument_budget { budget_of (with_functions (count_call (whole (pos 1)))) 3
        ≡ budget 22 0 1 14 }
    ensures result_budget { budget_of (with_functions both_call) 3 ≡ budget 12 0 1 4 }
{}

/// Puts ahead: as many timesteps as the basin allows, past the last one too, where the run leaves them out.
pub fn puts_ahead()
    ensures thirty { x_ahead_by 30 (pos 30) ≡ fire Done [] (put_ahead 1 30 (pos 7) ∷ []) 2 }
    ensures tomorrow { x_ahead_by 30 (pos 1) ≡ fire Done [] (put_ahead 1 1 (pos 7) ∷ []) 2 }
    ensures too_far { x_ahead_by 30 (pos 31) ≡ None }
    ensures never { x_ahead_by 0 (pos 1) ≡ None }
    ensures behind { x_ahead_by 30 (neg_ℤ (pos 1)) ≡ None }
{}

/// Statements: puts are asked for in the order in which they are executed, all or, where the firing ends before, none. A value
/// that the slot cannot have ends it.
pub fn statements()
    ensures both { acts_do (x_put (whole (pos 1)) ∷ y_put (whole (pos 2)) ∷ [])
        ≡ fire Done [] (put_to 1 (pos 1) ∷ put_to 2 (pos 2) ∷ []) 4 }
    ensures none { acts_do (x_put (whole (pos 1)) ∷ y_put y_now ∷ []) ≡ x_wants_y 5 }
    ensures choice { acts_do (branch (truth true) one_to_x no_acts ∷ []) ≡ x_is (pos 1) 6 }
    ensures absent { acts_do (branch (truth false) one_to_x no_acts ∷ []) ≡ fire Done [] [] 4 }
    ensures variable { acts_do (with_name (codes "n") (whole (pos 7)) n_to_x ∷ [])
        ≡ x_is (pos 7) 4 }
    ensures bounds { mean negative_outflow (basin_over_days 1 (dam ∷ [])) 1 1 unknown_cells
        ≡ ended_early (OutOfRange (neg_ℤ (pos 1))) [] 3 }
    ensures greatest { acts_do (x_put (whole quantity_max) ∷ []) ≡ x_is quantity_max 2 }
    ensures least { acts_do (x_put (one Minus (whole quantity_max)) ∷ [])
        ≡ x_is (neg_ℤ quantity_max) 3 }
    ensures derived { mean seepage_set (basin_over_days 1 (canal ∷ [])) 1 1 unknown_cells ≡ None }
{}
