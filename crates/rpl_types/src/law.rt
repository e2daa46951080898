//! Proves what the definitions of this crate mean, on rulesets that were worked out by hand.
ghost use Rattle.std.specs.Prelude.{◌≡◌, List, [], ◌∷◌, ◌++◌, None, Ok, Some, codes, neg_ℤ, pos, true};
ghost use Rattle.rw_base.specs.Quantity.{quantity_max};
ghost use Rattle.rw_base.specs.Unit.{plain_number, timestep, volume};
ghost use Rattle.rw_model.specs.Draft.{Draft};
ghost use Rattle.rw_model.specs.Slot.{flow_unit};
ghost use Rattle.rpl_tree.specs.declared.words.ConvertWord.TheVariants.{ElevationToStorage, StorageToElevation};
ghost use Rattle.rpl_tree.specs.declared.words.OneWord.TheVariants.{Known, Length, Minus, Month, Not};
ghost use Rattle.rpl_tree.specs.declared.words.TwoWord.TheVariants.{Append, Divide, Equal, Item, Less, Minus as Less_by, Or, Plus, Times};
ghost use Rattle.rpl_tree.specs.Tree.{Declared, at, bind, brackets, branch, call, choice, convert, each, function, list, mapped, name, no_acts, no_trees, now, numeric, numeric_list, one, slot, truth, two, with_name, assign};
ghost use Rattle.rpl_tree.specs.Worked.{acts_from, at_now, call_with_numbers, cap_and_base, l_name, n_name, n_to_x, of_unit, one_else_two, one_to_x, loop_over, pair, puts_at, rule_of, s_name, sum_ahead, sum_too_early, three_numbers, trees_from, turns_of_one_name, whole, x_put, x_rule};
ghost use Rattle.rpl_tree.specs.declared.rpl_type.RplType.TheVariants.{Boolean, Datetime, Numeric, NumericList, Slot};
ghost use Rattle.rpl_types.specs.declared.type_kind.TypeKind.TheVariants.{DuplicateName, ListTooLong, LiteralRange, NoTable, NotEarlier, NotSettable, TargetStep, TooCostly, UnknownName, UnknownSlot, UnknownUnit, WrongCount, WrongType, WrongUnit};
ghost use Rattle.rpl_types.specs.Forms.{plain};
ghost use Rattle.rpl_types.specs.HasType.{IsTyped};
ghost use Rattle.rpl_types.specs.Nodes.{Types};
ghost use Rattle.rpl_tree.specs.Budget.{budget, limits};
ghost use Rattle.rpl_types.specs.Judged.{cost_refusal, rules_judged, judged_types, type_at};
ghost use Rattle.rpl_types.specs.Worked.{a_count, a_flow, a_length, a_step, a_volume, accepted, added_to_storage, cubed, dam_flow_basin, function_of_list, inflow_now, inflow_slot, judged_acts, judged_ahead, judged_put, judged_with, judged_x, list_function, look_types, metre, nested_loops, declared_number_function, number_param, plain_numbers, one_timestep, pool_storage, refused, twice, twice_call, worked_basin, x_slot_tree};

/// What is accepted is typed: each expression has a type by those of its parts, each value fits the slot that it is set to, each
/// condition is a truth, the value of a function fits what its head says, and each cost is within its limit.
#[tactic(auto, using(crate::proofs::Accepted::accepted))]
pub fn accepted()
    ensures { (basin : Draft) (rules : List Declared) (all : List Types)
        → rules_judged basin rules ≡ Ok all → IsTyped basin rules }
{}

/// A flow cannot be added to a storage; the volume that flows in during a timestep can.
pub fn storage_and_inflow()
    ensures flow { added_to_storage inflow_now ≡ refused WrongUnit 1 2 }
    ensures volume { added_to_storage (two Times inflow_now (of_unit (pos 1) (codes "step")))
        ≡ accepted
        (None ∷ a_volume ∷ look_types volume ++ (a_volume ∷ look_types flow_unit) ++ a_step ∷ []) }
{}

/// A release of 1 without a unit is none, a level is no slot of a dam, and nothing is called Twice.
pub fn first_mistakes()
    ensures unit { judged_put (codes "Dam") (codes "Outflow") (whole (pos 1))
        ≡ refused WrongUnit 1 1 }
    ensures slot { judged_put (codes "Dam") (codes "Level") (whole (pos 1))
        ≡ refused UnknownSlot 1 1 }
    ensures name { judged_put (codes "Dam") (codes "Outflow") twice_call ≡ refused UnknownName 1 2 }
    ensures none { rules_judged worked_basin [] ≡ Ok [] }
{}

/// A storage that is capped next to a release, and a sum over the timesteps to come, which calls a function. The function cannot
/// be declared after the rule.
pub fn accepted_rules()
    ensures cap_and_base { rules_judged worked_basin cap_and_base
        ≡ Ok ((None ∷ a_volume ∷ look_types volume ++ a_volume ∷ []) ∷ (None ∷ a_flow ∷ []) ∷ []) }
    ensures ahead { type_at (judged_types dam_flow_basin sum_ahead) 1 1 ≡ a_flow }
    ensures pair { type_at (judged_types dam_flow_basin sum_ahead) 2 3
        ≡ Some (NumericList 2 timestep) }
    ensures argument { type_at (judged_types dam_flow_basin sum_ahead) 2 10 ≡ a_step }
    ensures statement { type_at (judged_types dam_flow_basin sum_ahead) 2 1 ≡ None }
    ensures too_early { rules_judged dam_flow_basin sum_too_early ≡ refused NotEarlier 1 9 }
{}

/// Names and slots that are not there.
pub fn unknown_names()
    ensures name { judged_x n_name ≡ refused UnknownName 1 2 }
    ensures function { judged_x twice_call ≡ refused UnknownName 1 2 }
    ensures object { judged_x (convert StorageToElevation (codes "Lake") pool_storage)
        ≡ refused UnknownName 1 2 }
    ensures behind { judged_acts
        (with_name (codes "n") (whole (pos 1)) one_to_x ∷ x_put n_name ∷ [])
        ≡ refused UnknownName 1 6 }
    ensures own { judged_x (bind (codes "n") n_name (whole (pos 1))) ≡ refused UnknownName 1 3 }
    ensures slot { judged_x (at_now (codes "Dam") (codes "Level")) ≡ refused UnknownSlot 1 3 }
    ensures no_object { judged_x (at_now (codes "Lake") (codes "Storage"))
        ≡ refused UnknownSlot 1 3 }
    ensures unit { judged_x (of_unit (pos 1) (codes "m3/s")) ≡ refused UnknownUnit 1 2 }
    ensures table { judged_x
        (convert ElevationToStorage (codes "Dam") (of_unit (pos 5) (codes "m")))
        ≡ refused NoTable 1 2 }
    ensures range { judged_x (of_unit (pos 200000000000) (codes "Mm3")) ≡ refused LiteralRange 1 2 }
{}

/// Slots that cannot be set, or not at another timestep. The value is judged first, and then the target: the slot, whether it can
/// be set, the timestep, and at last the value's type.
pub fn targets()
    ensures derived { judged_put (codes "Canal") (codes "Seepage")
        (of_unit (pos 1) (codes "m3/step"))
        ≡ refused NotSettable 1 1 }
    ensures later { judged_acts (assign (codes "D") (codes "X") (pos 1) (whole (pos 1)) ∷ [])
        ≡ refused TargetStep 1 1 }
    ensures thirty { judged_ahead 30 (pos 30) ≡ accepted (None ∷ a_count ∷ []) }
    ensures too_far { judged_ahead 30 (pos 31) ≡ refused TargetStep 1 1 }
    ensures value_first { judged_put (codes "Dam") (codes "Level") n_name
        ≡ refused UnknownName 1 2 }
    ensures slot_first { judged_acts (assign (codes "Dam") (codes "Level") (pos 1) now ∷ [])
        ≡ refused UnknownSlot 1 1 }
    ensures derived_first { judged_acts (assign (codes "Canal") (codes "Seepage") (pos 1) now ∷ [])
        ≡ refused NotSettable 1 1 }
    ensures later_first { judged_acts (assign (codes "D") (codes "X") (pos 1) now ∷ [])
        ≡ refused TargetStep 1 1 }
    ensures kind { judged_x now ≡ refused WrongType 1 1 }
    ensures dimension { judged_x (of_unit (pos 1) (codes "m")) ≡ refused WrongUnit 1 1 }
{}

/// Types and units of operators. A pair of brackets is a node, and a look inside one is none that KNOWN takes.
pub fn operators()
    ensures kinds { judged_x (two Plus (truth true) (whole (pos 1))) ≡ refused WrongType 1 2 }
    ensures mixed { judged_x (two Less now (whole (pos 1))) ≡ refused WrongType 1 2 }
    ensures date { judged_x (at (slot (codes "D") (codes "X")) (two Plus now (whole (pos 1))))
        ≡ refused WrongUnit 1 4 }
    ensures dates { judged_x (two Divide (two Less_by now now) (of_unit (pos 1) (codes "step")))
        ≡ accepted (None ∷ a_count ∷ a_step ∷ Some Datetime ∷ Some Datetime ∷ a_step ∷ []) }
    ensures exponent { judged_x (two Times (two Times cubed cubed) metre) ≡ refused WrongUnit 1 2 }
    ensures known { judged_x
        (choice (one Known (at_now (codes "D") (codes "Y"))) (whole (pos 1)) (whole (pos 2)))
        ≡ accepted
        (None ∷ a_count ∷ Some Boolean ∷ look_types plain_number ++ a_count ∷ a_count ∷ []) }
    ensures bracketed { judged_x (one Known (brackets (at_now (codes "D") (codes "Y"))))
        ≡ refused WrongType 1 2 }
    ensures month { judged_x (one Month (whole (pos 1))) ≡ refused WrongType 1 2 }
    ensures converted { judged_x
        (two Divide (convert StorageToElevation (codes "Pool") pool_storage) metre)
        ≡ accepted (None ∷ a_count ∷ a_length ∷ look_types volume ++ a_length ∷ []) }
{}

/// Parts are judged before the whole, so a branch before the condition, and from left to right.
pub fn parts_first()
    ensures branch { judged_x (choice (whole (pos 1)) n_name (whole (pos 2)))
        ≡ refused UnknownName 1 4 }
    ensures condition { judged_x
        (choice (whole (pos 1)) (whole (pos 1)) (of_unit (pos 2) (codes "m")))
        ≡ refused WrongType 1 2 }
    ensures branches { judged_x (choice (truth true) (whole (pos 1)) (of_unit (pos 2) (codes "m")))
        ≡ refused WrongUnit 1 2 }
    ensures statement { judged_acts (branch (whole (pos 1)) n_to_x no_acts ∷ [])
        ≡ refused UnknownName 1 4 }
    ensures test { judged_acts (branch (whole (pos 1)) one_to_x one_to_x ∷ [])
        ≡ refused WrongType 1 1 }
    ensures body { judged_x (bind (codes "n") (whole (pos 1)) s_name) ≡ refused UnknownName 1 4 }
    ensures left { judged_x (two Or n_name (of_unit (pos 1) (codes "ounce")))
        ≡ refused UnknownName 1 3 }
{}

/// Lists. Of several refusals at one node that which stands first is given, whichever part it comes from.
pub fn lists()
    ensures slots { judged_x
        (two Item
        (list (trees_from (slot (codes "D") (codes "X") ∷ whole (pos 1) ∷ []))) (whole (pos 1)))
        ≡ refused WrongType 1 3 }
    ensures units { judged_x (one Length (list (trees_from (whole (pos 1) ∷ metre ∷ []))))
        ≡ refused WrongUnit 1 3 }
    ensures kind_first { judged_x
        (one Length (list (trees_from (whole (pos 1) ∷ metre ∷ now ∷ []))))
        ≡ refused WrongType 1 3 }
    ensures dates { judged_x (one Length (list (trees_from (now ∷ now ∷ []))))
        ≡ refused WrongType 1 3 }
    ensures append { judged_x (two Item three_numbers (whole (pos 3)))
        ≡ accepted
        (None ∷ a_count ∷ plain_numbers 3 ∷ plain_numbers 2 ∷ a_count ∷ a_count ∷ a_count
        ∷ a_count ∷ []) }
    ensures too_long { rules_judged (worked_basin)
        (list_function (codes "F") (pos 4096) []
        (one Length (two Append l_name (whole (pos 1)))) ∷ [])
        ≡ refused ListTooLong 1 2 }
    ensures no_loop { judged_x (loop_over (whole (pos 1)) (name (codes "z")))
        ≡ refused WrongType 1 2 }
    ensures loop_first { judged_x (mapped (codes "n") (whole (pos 1)) (name (codes "z")))
        ≡ refused WrongType 1 2 }
    ensures turn { judged_x (loop_over (pair (pos 1) (pos 2)) (two Equal n_name s_name))
        ≡ refused WrongType 1 2 }
    ensures accumulator { judged_x
        (each (codes "n") (pair (pos 1) (pos 2)) (codes "n") metre n_name)
        ≡ refused WrongUnit 1 1 }
{}

/// Further refusals of the forms, of kinds and of units, and the length that a list in a head may have.
pub fn further_forms()
    ensures index { judged_x (two Item (pair (pos 1) (pos 2)) one_timestep)
        ≡ refused WrongUnit 1 2 }
    ensures other_unit { judged_x (one Length (two Append (pair (pos 1) (pos 2)) metre))
        ≡ refused WrongUnit 1 3 }
    ensures table_unit { judged_x
        (two Divide (convert StorageToElevation (codes "Pool") metre) metre)
        ≡ refused WrongUnit 1 3 }
    ensures slots { judged_x (one Length (list (trees_from (x_slot_tree ∷ inflow_slot ∷ []))))
        ≡ refused WrongUnit 1 3 }
    ensures either_slot { judged_x (at (choice (truth true) x_slot_tree inflow_slot) now)
        ≡ refused WrongUnit 1 3 }
    ensures either_list { judged_x (one Length
        (choice (truth true) (pair (pos 1) (pos 2)) (list (trees_from (metre ∷ [])))))
        ≡ refused WrongUnit 1 3 }
    ensures date_less { judged_x (one Month (two Less_by now metre)) ≡ refused WrongUnit 1 3 }
    ensures low { judged_x (two Divide (two Divide (two Divide (whole (pos 1)) cubed) cubed) metre)
        ≡ refused WrongUnit 1 2 }
    ensures truths { judged_x (one_else_two (two Equal (truth true) (truth true)))
        ≡ refused WrongType 1 3 }
    ensures two_dates { judged_x (one Month (two Plus now now)) ≡ refused WrongType 1 3 }
    ensures date_last { judged_x (one Month (two Plus one_timestep now)) ≡ refused WrongType 1 3 }
    ensures no_date { judged_x (at x_slot_tree (whole (pos 1))) ≡ refused WrongType 1 2 }
    ensures no_slot { judged_x (at (whole (pos 1)) now) ≡ refused WrongType 1 2 }
    ensures items { judged_x (one Length (mapped (codes "n") (pair (pos 1) (pos 2)) (truth true)))
        ≡ refused WrongType 1 3 }
    ensures table_first { judged_x (convert ElevationToStorage (codes "Dam") now)
        ≡ refused NoTable 1 2 }
    ensures arguments { judged_x
        (call (codes "Clamp") (trees_from (whole (pos 1) ∷ metre ∷ now ∷ [])))
        ≡ refused WrongType 1 2 }
    ensures none { rules_judged worked_basin (function_of_list 0 ∷ []) ≡ refused ListTooLong 1 0 }
    ensures most { rules_judged worked_basin (function_of_list 4096 ∷ [])
        ≡ accepted (a_count ∷ []) }
    ensures more { rules_judged worked_basin (function_of_list 4097 ∷ [])
        ≡ refused ListTooLong 1 0 }
{}

/// Functions and their calls. A function cannot call itself, nor one that is declared after it.
pub fn functions()
    ensures call { judged_with (twice ∷ []) twice_call
        ≡ Ok ((a_count ∷ a_count ∷ a_count ∷ []) ∷ (None ∷ a_count ∷ a_count ∷ []) ∷ []) }
    ensures itself { rules_judged worked_basin
        (declared_number_function (codes "F") (number_param (codes "n") ∷ [])
        (call_with_numbers (codes "F") (pos 1 ∷ [])) ∷ [])
        ≡ refused NotEarlier 1 1 }
    ensures after { rules_judged worked_basin (x_rule twice_call ++ twice ∷ [])
        ≡ refused NotEarlier 1 2 }
    ensures count { judged_with (twice ∷ []) (call_with_numbers (codes "Twice") [])
        ≡ refused WrongCount 2 2 }
    ensures count_first { judged_x (call (codes "Max") (trees_from (now ∷ [])))
        ≡ refused WrongCount 1 2 }
    ensures unit { judged_with (twice ∷ []) (call (codes "Twice") (trees_from (metre ∷ [])))
        ≡ refused WrongUnit 2 2 }
    ensures long { judged_with (list_function (codes "F") (pos 1) [] (whole (pos 1)) ∷ [])
        (call (codes "F") (trees_from (pair (pos 1) (pos 2) ∷ [])))
        ≡ refused ListTooLong 2 2 }
    ensures sign { judged_x (call (codes "Sign") (trees_from (metre ∷ [])))
        ≡ accepted (None ∷ a_count ∷ a_length ∷ []) }
    ensures least { judged_x (call (codes "Min") (trees_from (metre ∷ whole (pos 1) ∷ [])))
        ≡ refused WrongUnit 1 2 }
{}

/// Each of the four budgets may be at its limit, and none above it.
pub fn costs()
    ensures limits { cost_refusal limits ≡ None }
    ensures count { cost_refusal (budget 1000001 0 0 0) ≡ Some TooCostly }
    ensures looks { cost_refusal (budget 0 20001 0 0) ≡ Some TooCostly }
    ensures puts { cost_refusal (budget 0 0 2001 0) ≡ Some TooCostly }
    ensures words { cost_refusal (budget 0 0 0 1000001) ≡ Some TooCostly }
{}

/// Refusals of a declaration as a whole: first of its head, and after its nodes of its result and its cost.
pub fn wholes()
    ensures predefined { rules_judged worked_basin
        (declared_number_function (codes "Min") [] n_name ∷ [])
        ≡ refused DuplicateName 1 0 }
    ensures twice { judged_with (twice ∷ twice ∷ []) n_name ≡ refused DuplicateName 2 0 }
    ensures parameters { rules_judged worked_basin
        (declared_number_function (codes "F")
        (number_param (codes "n") ∷ number_param (codes "n") ∷ []) n_name ∷ [])
        ≡ refused DuplicateName 1 0 }
    ensures unit { rules_judged worked_basin
        (list_function (codes "F") (pos 0) (codes "ounce") n_name ∷ []) ≡ refused UnknownUnit 1 0 }
    ensures room { rules_judged worked_basin (list_function (codes "F") (pos 5000) [] n_name ∷ [])
        ≡ refused ListTooLong 1 0 }
    ensures unit_first { rules_judged worked_basin
        (function (codes "F") (record { name = codes "l"; of_type = numeric_list (pos 0) [] } ∷ [])
        (numeric (codes "ounce")) n_name ∷ [])
        ≡ refused UnknownUnit 1 0 }
    ensures result { rules_judged worked_basin (declared_number_function (codes "F") [] metre ∷ [])
        ≡ refused WrongUnit 1 0 }
    ensures cost { rules_judged worked_basin
        (list_function (codes "Big") (pos 1100) [] nested_loops ∷ [])
        ≡ refused TooCostly 1 0 }
    ensures variable { judged_x (bind (codes "Min") (whole (pos 1)) (name (codes "Min")))
        ≡ accepted (None ∷ a_count ∷ a_count ∷ a_count ∷ []) }
{}
