//! Proves on worked rules that their code does what the rule means.
ghost use Rattle.std.specs.Prelude.{[], ◌∷◌, codes, false, neg_ℤ, pos, true};
ghost use Rattle.rw_base.specs.Quantity.{quantity_max};
ghost use Rattle.rpl_tree.specs.declared.words.ConvertWord.TheVariants.{ElevationToStorage, StorageToElevation};
ghost use Rattle.rpl_tree.specs.declared.words.OneWord.TheVariants.{Day, Known, Length, Minus, Month, Not, Year};
ghost use Rattle.rpl_tree.specs.declared.words.TwoWord.TheVariants.{And, Divide, Equal, Greater, GreaterEqual, Item, Less, LessEqual, Minus as Less_by, Or, Plus, Times, Unequal};
ghost use Rattle.rpl_tree.specs.Tree.{bind, branch, choice, convert, mapped, no_acts, now, one, truth, two, with_name};
ghost use Rattle.rpl_tree.specs.Worked.{all_cells, basin_over_days, both_call, call_with_numbers, cap_and_base, count_call, dam, first_of_l, flow_object, hundredth, n_name, n_to_x, negative_outflow, numbers_object, of_unit, one_more, one_else_two, one_to_x, only_slot, loop_over, pair, part_of_n, putting_ahead, raise_and_reset, storage_after, storage_before, sum_ahead, sum_of_slots, three_numbers, turns_of_one_name, twice_each, unknown_cells, whole, x_ahead_rule, x_put, x_rule, y_now, y_put};
ghost use Rattle.rpl_compile.specs.Fires.{ActsAlike, CallAlike, FiresAlike, PoolAlike, RulesAlike, TreeAlike};

/// Whole rulesets: rules that look, rules that call functions, and ends by an unknown value and by a division by 0.
pub fn rulesets()
    ensures cap { FiresAlike cap_and_base (basin_over_days 1 (dam ∷ [])) 1 1
        (only_slot 3 (pos 1050)) }
    ensures base { FiresAlike cap_and_base (basin_over_days 1 (dam ∷ [])) 2 1 unknown_cells }
    ensures unknown { RulesAlike raise_and_reset unknown_cells }
    ensures raised { RulesAlike raise_and_reset (all_cells (pos 0)) }
    ensures reset { FiresAlike
        raise_and_reset (basin_over_days 2 (numbers_object ∷ [])) 2 1 unknown_cells }
    ensures third { RulesAlike hundredth (only_slot 2 (pos 3)) }
    ensures below { RulesAlike hundredth (only_slot 2 (neg_ℤ (pos 3))) }
    ensures zero { RulesAlike hundredth (only_slot 2 (pos 0)) }
    ensures sum { FiresAlike sum_ahead (basin_over_days 3 (dam ∷ flow_object ∷ [])) 1 1
        (only_slot 1 (pos 100)) }
    ensures ahead { FiresAlike (x_ahead_rule (pos 30) (whole (pos 7)))
        (putting_ahead 30 (basin_over_days 2 (numbers_object ∷ []))) 1 1 unknown_cells }
    ensures last { FiresAlike sum_ahead (basin_over_days 3 (dam ∷ flow_object ∷ [])) 1 3
        (only_slot 1 (pos 100)) }
{}

/// A firing that ends inside an IF, AND or OR, and branches that are not taken.
pub fn choices()
    ensures first_ends { TreeAlike (choice (truth true) y_now (whole (pos 1))) }
    ensures second_ends { TreeAlike (choice (truth false) (whole (pos 1)) y_now) }
    ensures and_ends { TreeAlike
        (one_else_two (two And (truth true) (two Equal y_now (whole (pos 1))))) }
    ensures or_ends { TreeAlike
        (one_else_two (two Or (truth false) (two Equal y_now (whole (pos 1))))) }
    ensures first { TreeAlike (choice (truth true) (whole (pos 7)) y_now) }
    ensures second { TreeAlike (choice (truth false) y_now (whole (pos 7))) }
    ensures and { TreeAlike
        (one_else_two (two And (truth false) (two Equal y_now (whole (pos 1))))) }
    ensures or { TreeAlike (one_else_two (two Or (truth true) (two Equal y_now (whole (pos 1))))) }
{}

/// Bodies of FOR, MAP and LET, and where a firing ends in one.
pub fn bodies()
    ensures for_first { TreeAlike (loop_over (pair (pos 0) (pos 1)) part_of_n) }
    ensures for_second { TreeAlike (loop_over (pair (pos 1) (pos 0)) part_of_n) }
    ensures map_first { TreeAlike
        (one Length (mapped (codes "n") (pair (pos 0) (pos 1)) part_of_n)) }
    ensures map_second { TreeAlike
        (one Length (mapped (codes "n") (pair (pos 1) (pos 0)) part_of_n)) }
    ensures ends { TreeAlike (bind (codes "l") (pair (pos 7) (pos 8)) y_now) }
    ensures variable { TreeAlike (bind (codes "l") (pair (pos 7) (pos 8)) first_of_l) }
    ensures innermost { TreeAlike
        (bind (codes "n") (whole (pos 1)) (bind (codes "n") one_more n_name)) }
    ensures accumulator { TreeAlike (turns_of_one_name (pair (pos 5) (pos 6))) }
{}

/// Numbers, and results that are no quantity.
pub fn numbers()
    ensures unit { TreeAlike (of_unit (pos 2) (codes "dam3")) }
    ensures sum { TreeAlike (two Plus (whole (pos 3)) (whole (pos 4))) }
    ensures product { TreeAlike (two Times (whole (pos 3)) (one Minus (whole (pos 4)))) }
    ensures beyond { TreeAlike (two Plus (whole quantity_max) (whole (pos 1))) }
    ensures clamp { TreeAlike (call_with_numbers (codes "Clamp") (pos 9 ∷ pos 2 ∷ pos 7 ∷ [])) }
    ensures sign { TreeAlike (call_with_numbers (codes "Sign") (pos 9 ∷ [])) }
{}

/// Tests, and NOT of them.
pub fn tests()
    ensures not { TreeAlike (one_else_two (one Not (truth false))) }
    ensures equal { TreeAlike (one_else_two (two Equal (whole (pos 2)) (whole (pos 2)))) }
    ensures unequal { TreeAlike (one_else_two (two Unequal (whole (pos 2)) (whole (pos 2)))) }
    ensures less { TreeAlike (one_else_two (two Less (whole (pos 2)) (whole (pos 2)))) }
    ensures less_equal { TreeAlike (one_else_two (two LessEqual (whole (pos 2)) (whole (pos 2)))) }
    ensures greater { TreeAlike (one_else_two (two Greater (whole (pos 2)) (whole (pos 2)))) }
    ensures greater_equal { TreeAlike
        (one_else_two (two GreaterEqual (whole (pos 2)) (whole (pos 2)))) }
{}

/// Dates, looks before the run and after it, and tables.
#[tactic(auto, unfolding(rw_calendar::specs::Moment::hours_later))]
pub fn dates()
    ensures between { TreeAlike (two Less_by now now) }
    ensures later { TreeAlike (one_else_two (two Less now (two Plus now (whole (pos 1))))) }
    ensures before { PoolAlike 1 storage_before }
    ensures within { PoolAlike 2 storage_before }
    ensures behind { PoolAlike 40 storage_after }
    ensures known_before { PoolAlike 1 (one_else_two (one Known storage_before)) }
    ensures unknown_behind { PoolAlike 40 (one_else_two (one Known storage_after)) }
    ensures unknown_within { TreeAlike (one_else_two (one Known y_now)) }
    ensures month { PoolAlike 2 (one Month now) }
    ensures day { PoolAlike 2 (one Day now) }
    ensures year { PoolAlike 2 (one Year now) }
    ensures no_month { PoolAlike 33 (one Month (two Plus now (whole (pos 8)))) }
    ensures elevation { PoolAlike 1 (convert StorageToElevation (codes "Pool") (whole (pos 250))) }
    ensures storage { PoolAlike 1 (convert ElevationToStorage (codes "Pool") (whole (pos 2000))) }
    ensures above { PoolAlike 1 (convert ElevationToStorage (codes "Pool") (whole (pos 3001))) }
{}

/// Lists, and the room that a branch, an argument or a result is given.
pub fn lists()
    ensures item { TreeAlike (two Item (pair (pos 7) (pos 8)) (whole (pos 2))) }
    ensures no_item { TreeAlike (two Item (pair (pos 7) (pos 8)) (whole (pos 0))) }
    ensures behind { TreeAlike (two Item (pair (pos 7) (pos 8)) (whole (pos 3))) }
    ensures append { TreeAlike (one Length three_numbers) }
    ensures map { TreeAlike (two Item (twice_each (pair (pos 3) (pos 4))) (whole (pos 2))) }
    ensures slots { RulesAlike (x_rule sum_of_slots) (all_cells (pos 4)) }
    ensures wider { TreeAlike
        (one Length (choice (truth true) (pair (pos 7) (pos 8)) three_numbers)) }
    ensures argument { CallAlike (count_call (whole (pos 1))) }
    ensures ends { CallAlike (count_call (two Divide (whole (pos 1)) (whole (pos 0)))) }
    ensures result { CallAlike both_call }
{}

/// Statements, and a put that the slot cannot have.
pub fn statements()
    ensures both { ActsAlike (x_put (whole (pos 1)) ∷ y_put (whole (pos 2)) ∷ []) }
    ensures none { ActsAlike (x_put (whole (pos 1)) ∷ y_put y_now ∷ []) }
    ensures choice { ActsAlike (branch (truth true) one_to_x no_acts ∷ []) }
    ensures absent { ActsAlike (branch (truth false) one_to_x no_acts ∷ []) }
    ensures variable { ActsAlike (with_name (codes "n") (whole (pos 7)) n_to_x ∷ []) }
    ensures bounds { FiresAlike negative_outflow (basin_over_days 1 (dam ∷ [])) 1 1 unknown_cells }
{}
