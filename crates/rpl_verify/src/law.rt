//! Proves that accepted code is safe and what budgets mean, and what the definitions of this crate give on codes that were worked
//! out by hand.
ghost use Rattle.std.specs.Prelude.{All, ◌↔◌, IsTrue, false, List, ℕ, ◌≡◌, [], ◌∷◌, Err, None, Ok, Some, codes, neg_ℤ, pos, replicate, true, ◌+ℤ◌};
ghost use Rattle.rw_base.specs.Quantity.{quantity_max};
ghost use Rattle.rpl_code.specs.declared.kind.ValueKind.TheVariants as K;
ghost use Rattle.rpl_code.specs.declared.instruction.Instruction.{Instruction};
ghost use Rattle.rpl_code.specs.declared.instruction.Instruction.TheVariants as I;
ghost use Rattle.rpl_code.specs.declared.block.Block.{Block};
ghost use Rattle.rpl_code.specs.Worked.{plain_rule, seven_kept, two_puts};
ghost use Rattle.rw_model.specs.Draft.{Draft};
ghost use Rattle.rw_firing.specs.declared.fire.FireEnd.TheVariants.{Done, OutOfRange, Unknown, ZeroDivisor};
ghost use Rattle.rpl_tree.specs.Budget.{Budget, budget};
ghost use Rattle.rpl_tree.specs.World.{cell_of, put_to};
ghost use Rattle.rpl_tree.specs.Worked.{all_cells, done_by, ended_early, fire, only_slot, unknown_cells, x_ends, x_is};
ghost use Rattle.rpl_verify.specs.declared.resolved.Resolved.TheVariants as R;
ghost use Rattle.rpl_verify.specs.declared.verify_kind.VerifyKind.TheVariants.{BackwardJump, JumpOutside, LaterCall, MissingOperand, NoSuchName, NotSettable, PutInFunction, TargetStep, TooCostly, TooDeep, TooMany, TooManyPuts, TooManyReads, WrongOperand, WrongShape};
ghost use Rattle.rpl_verify.specs.Budget.{AreAccepted, IsOverLimit, IsWithinLimits, at_a_time, most, ruling, summed};
ghost use Rattle.rpl_verify.specs.Machine.{fire_of_code};
ghost use Rattle.rpl_verify.specs.Resolved.{resolved_at, resolved_code};
ghost use Rattle.rpl_verify.specs.Safety.{AreSafe};
ghost use Rattle.rpl_verify.specs.Verified.{Accepted, verified};
ghost use Rattle.rpl_verify.specs.Fits.{AreFit, Before, Refusal, before, befores, first_code_refusal, refusal};
ghost use Rattle.rpl_verify.specs.Names.{Scope};
ghost use Rattle.rpl_verify.specs.Places.{spots};
ghost use Rattle.rpl_verify.specs.Ways.{AreAcceptable, IsMost, sum_on, words_on};
ghost use Rattle.rpl_verify.specs.Worked.{IsWayIn, along, along_rule, put_or_not, cap_and_base_code, code_does, dam_and_flow, doubled_items, earlier_code, endless, hundredth_code, long_locals, many_puts, misfit_ahead, misfit_at, misfit_in, function_with, misfit_of, nested, number, number_function, numbers_basin, looks_of_firing, one_dam, one_or_sum, one_or_two, over_a_list, pair_then, put_before_look, put_outflow, put_spill, puts_of_firing, raise_and_reset_code, rule_with, ruled, second_slot, seen_before, skipped, code_of_slot_sum, spilling_dam, sum_ahead_code, sum_or_two, three_counted, tower, words_of_firing, x_by_truth, x_of, x_of_pool, x_slot, y_slot, put_x, resolved_of};

/// Codes that fit. What a jump leaves out is judged as well, with the operands that the target after the jump declares.
pub fn codes_that_fit()
    ensures none { AreFit one_dam [] }
    ensures empty { AreFit one_dam (plain_rule []) }
    ensures two_puts { AreFit one_dam two_puts }
    ensures seven_kept { AreFit one_dam seven_kept }
    ensures sum_ahead { AreFit dam_and_flow sum_ahead_code }
    ensures one_or_two { AreFit one_dam one_or_two }
    ensures doubled_items { AreFit one_dam doubled_items }
    ensures skipped { AreFit one_dam skipped }
    ensures arguments { AreFit numbers_basin earlier_code }
    ensures second_slot { AreFit numbers_basin second_slot }
    ensures sum_of_slots { AreFit numbers_basin code_of_slot_sum }
{}

/// Names that are not there, or that cannot be used in that way. Of two misfits at a place the one with the smaller number
/// counts.
pub fn misfits_of_names()
    ensures too_many { misfit_in (replicate 201 (rule_with [] []))
        ≡ Some (refusal TooMany 201 0) }
    ensures slot { misfit_of [] (I.Slot (codes "Dam") (codes "Level") ∷ [])
        ≡ misfit_at NoSuchName 0 }
    ensures function { misfit_of [] (I.Call (codes "Twice") ∷ []) ≡ misfit_at NoSuchName 0 }
    ensures table { misfit_of [] (number 1 ∷ I.ToElevation (codes "Dam") ∷ [])
        ≡ misfit_at NoSuchName 1 }
    ensures derived { first_code_refusal spilling_dam
        (rule_with [] (number 1 ∷ put_spill 0 ∷ []) ∷ [])
        ≡ misfit_at NotSettable 1 }
    ensures in_function { misfit_in (number_function (number 1 ∷ put_outflow 0 ∷ []) ∷ [])
        ≡ misfit_at PutInFunction 1 }
    ensures ahead { misfit_of [] (number 1 ∷ put_outflow 1 ∷ []) ≡ misfit_at TargetStep 1 }
    ensures thirty { misfit_ahead 30 (number 1 ∷ put_outflow 30 ∷ []) ≡ None }
    ensures too_far { misfit_ahead 30 (number 1 ∷ put_outflow 31 ∷ []) ≡ misfit_at TargetStep 1 }
    ensures derived_first { first_code_refusal spilling_dam
        (number_function (put_spill 1 ∷ []) ∷ [])
        ≡ misfit_at NotSettable 0 }
    ensures function_first { misfit_in (number_function (put_outflow 1 ∷ []) ∷ [])
        ≡ misfit_at PutInFunction 0 }
    ensures ahead_first { misfit_of [] (put_outflow 1 ∷ []) ≡ misfit_at TargetStep 0 }
{}

/// Calls of blocks. A block calls functions before it, and no rule.
pub fn misfits_of_calls()
    ensures later { misfit_in (rule_with [] (I.Invoke 2 ∷ [])
        ∷ number_function (number 1 ∷ []) ∷ [])
        ≡ misfit_at LaterCall 0 }
    ensures itself { misfit_in (number_function (I.Invoke 1 ∷ []) ∷ []) ≡ misfit_at LaterCall 0 }
    ensures no_block { misfit_of [] (I.Invoke 0 ∷ []) ≡ misfit_at NoSuchName 0 }
    ensures arguments { misfit_in (function_with (K.D ∷ K.N ∷ []) K.D [] (I.Load 0 ∷ [])
        ∷ rule_with [] (number 3 ∷ I.Now ∷ I.Invoke 1 ∷ []) ∷ [])
        ≡ Some (refusal WrongOperand 2 2) }
    ensures rule { misfit_in (rule_with [] [] ∷ rule_with [] (I.Invoke 1 ∷ []) ∷ [])
        ≡ Some (refusal NoSuchName 2 0) }
{}

/// Jumps. They are judged before the operands, but for those that they carry.
pub fn misfits_of_jumps()
    ensures backward { misfit_of [] (I.Target [] ∷ I.Jump 0 ∷ I.Target [] ∷ [])
        ≡ misfit_at BackwardJump 1 }
    ensures no_target { misfit_of [] (I.Jump 2 ∷ I.Target [] ∷ number 1 ∷ [])
        ≡ misfit_at JumpOutside 0 }
    ensures beyond { misfit_of [] (I.Bool true ∷ I.Branch 9 ∷ []) ≡ misfit_at JumpOutside 1 }
    ensures operands_later { misfit_of [] (I.Branch 0 ∷ []) ≡ misfit_at BackwardJump 0 }
    ensures carried { misfit_of []
        (I.Bool true ∷ I.Branch 4 ∷ number 1 ∷ I.Jump 4 ∷ I.Target [] ∷ [])
        ≡ misfit_at WrongShape 3 }
    ensures fallen { misfit_of [] (number 1 ∷ I.Target [] ∷ []) ≡ misfit_at WrongShape 1 }
    ensures bottom_first { misfit_of [] (number 1 ∷ I.Bool true ∷ I.Target (K.N ∷ K.B ∷ []) ∷ [])
        ≡ misfit_at WrongShape 3 }
    ensures top_first { misfit_of [] (number 1 ∷ I.Bool true ∷ I.Target (K.B ∷ K.N ∷ []) ∷ [])
        ≡ misfit_at WrongShape 2 }
    ensures nothing_behind { misfit_of [] (I.Jump 2 ∷ number 1 ∷ I.Target [] ∷ [])
        ≡ misfit_at WrongShape 0 }
{}

/// Loops, and jumps out of them, into them and over their ends. What ends another loop than the innermost ends none.
pub fn misfits_of_loops()
    ensures jump_out { over_a_list K.N
        (I.Foreach 0 ∷ I.Jump 7 ∷ I.Target [] ∷ I.Next ∷ I.Target [] ∷ [])
        ≡ misfit_at JumpOutside 4 }
    ensures jump_in { misfit_of (K.N ∷ [])
        (I.Jump 6 ∷ I.Target [] ∷ pair_then (I.Foreach 0 ∷ I.Target [] ∷ I.Next ∷ []))
        ≡ misfit_at JumpOutside 0 }
    ensures jump_over { misfit_of [] (I.Jump 3 ∷ I.Target [] ∷ I.Next ∷ I.Target [] ∷ [])
        ≡ misfit_at WrongShape 2 }
    ensures other_end { over_a_list K.N (I.Foreach 0 ∷ number 1 ∷ I.Yield ∷ [])
        ≡ misfit_at WrongShape 5 }
    ensures other_next { over_a_list K.N (I.Map 0 ∷ I.Next ∷ []) ≡ misfit_at WrongShape 4 }
    ensures no_end { over_a_list K.N (I.Foreach 0 ∷ []) ≡ misfit_at WrongShape 4 }
    ensures left { over_a_list K.N (I.Foreach 0 ∷ number 1 ∷ I.Next ∷ [])
        ≡ misfit_at WrongShape 5 }
    ensures element { over_a_list K.B (I.Foreach 0 ∷ I.Next ∷ []) ≡ misfit_at WrongShape 3 }
    ensures no_list { misfit_of [] (number 1 ∷ I.Map 0 ∷ []) ≡ misfit_at WrongOperand 1 }
    ensures no_operand { misfit_of [] (I.Foreach 0 ∷ []) ≡ misfit_at MissingOperand 0 }
{}

/// Operands. They are counted before their kinds are looked at, and a local that is not there comes last.
pub fn misfits_of_operands()
    ensures missing { misfit_of [] (I.Add ∷ []) ≡ misfit_at MissingOperand 0 }
    ensures counted { misfit_of [] (I.Bool true ∷ I.Add ∷ []) ≡ misfit_at MissingOperand 1 }
    ensures wrong { misfit_of [] (I.Bool true ∷ number 1 ∷ I.Add ∷ [])
        ≡ misfit_at WrongOperand 2 }
    ensures stored { misfit_of (K.N ∷ []) (I.Bool true ∷ I.Store 0 ∷ [])
        ≡ misfit_at WrongOperand 1 }
    ensures no_local { misfit_of [] (number 1 ∷ I.Store 0 ∷ []) ≡ misfit_at WrongShape 1 }
    ensures nothing_stored { misfit_of [] (I.Store 0 ∷ []) ≡ misfit_at MissingOperand 0 }
    ensures nothing_loaded { misfit_of [] (I.Load 0 ∷ []) ≡ misfit_at WrongShape 0 }
    ensures mixed { misfit_of [] (number 1 ∷ I.Bool true ∷ I.List 2 ∷ [])
        ≡ misfit_at WrongOperand 2 }
    ensures no_room { misfit_of (K.NList 4096 ∷ []) (I.Load 0 ∷ number 1 ∷ I.Append ∷ [])
        ≡ misfit_at WrongOperand 2 }
    ensures too_long { misfit_of [] (pair_then (I.Widen 1 ∷ [])) ≡ misfit_at WrongOperand 3 }
    ensures left { misfit_of [] (number 1 ∷ []) ≡ misfit_at WrongShape 1 }
    ensures no_result { misfit_in (number_function [] ∷ []) ≡ misfit_at WrongShape 0 }
{}

/// The budgets of accepted codes, block by block: what a firing counts, looks and puts at most, and the words that it keeps. Of
/// two branches the dearer counts, a loop's body for each element that its list has room for, and what nothing reaches does not
/// count.
pub fn budgets()
    ensures empty { ruled (plain_rule []) ≡ Ok (budget 0 0 0 0 ∷ []) }
    ensures seven_kept { ruled seven_kept ≡ Ok (budget 4 0 1 2 ∷ []) }
    ensures two_puts { ruled two_puts ≡ Ok (budget 12 0 2 7 ∷ []) }
    ensures cap_and_base { ruled cap_and_base_code ≡ Ok (budget 6 1 1 2 ∷ budget 2 0 1 1 ∷ []) }
    ensures sum_ahead { AreAccepted dam_and_flow sum_ahead_code
        (budget 5 1 0 4 ∷ budget 34 2 1 13 ∷ []) }
    ensures one_or_two { ruled one_or_two ≡ Ok (budget 6 0 1 1 ∷ []) }
    ensures sum_or_two { ruled sum_or_two ≡ Ok (budget 8 0 1 2 ∷ []) }
    ensures one_or_sum { ruled one_or_sum ≡ Ok (budget 8 0 1 2 ∷ []) }
    ensures nested { ruled nested ≡ Ok (budget 24 0 0 12 ∷ []) }
    ensures doubled_items { ruled doubled_items ≡ Ok (budget 21 0 1 11 ∷ []) }
    ensures three_counted { ruled three_counted ≡ Ok (budget 12 0 1 4 ∷ []) }
    ensures skipped { ruled skipped ≡ Ok (budget 2 0 0 0 ∷ []) }
    ensures arguments { AreAccepted numbers_basin earlier_code
        (budget 3 0 0 4 ∷ budget 11 0 1 7 ∷ []) }
    ensures sum_of_slots { AreAccepted numbers_basin code_of_slot_sum (budget 51 5 1 13 ∷ []) }
    ensures long_locals { ruled (long_locals 244) ≡ Ok (budget 0 0 0 999668 ∷ []) }
{}

/// Codes that fit, and whose budgets are above a limit: at the end of the first such block.
pub fn budgets_above_limits()
    ensures count { ruled (tower (number 1 ∷ [])) ≡ Err (refusal TooCostly 19 3) }
    ensures looks { ruled (tower (I.Slot (codes "Dam") (codes "Inflow") ∷ I.Now ∷ I.Read ∷ []))
        ≡ Err (refusal TooManyReads 16 3) }
    ensures puts { ruled (many_puts 2001) ≡ Err (refusal TooManyPuts 1 4002) }
    ensures words { ruled (long_locals 245) ≡ Err (refusal TooDeep 1 0) }
{}

/// Firings of these codes: each looks, puts, counts and ends as the rule does that it is the code of.
pub fn firings_of_rules()
    ensures cap { fire_of_code cap_and_base_code one_dam 1 1 (only_slot 3 (pos 1050))
        ≡ done_by (cell_of 3 1 ∷ []) 3 (pos 1020) 6 }
    ensures base { fire_of_code cap_and_base_code one_dam 2 1 unknown_cells
        ≡ done_by [] 2 (pos 50) 2 }
    ensures no_rule { fire_of_code cap_and_base_code one_dam 3 1 unknown_cells ≡ None }
    ensures unknown { code_does raise_and_reset_code unknown_cells
        ≡ ended_early Unknown (cell_of 1 1 ∷ []) 3 }
    ensures raised { code_does raise_and_reset_code (all_cells (pos 0))
        ≡ done_by (cell_of 1 1 ∷ []) 1 (pos 10) 6 }
    ensures third { code_does hundredth_code (only_slot 2 (pos 3))
        ≡ done_by (cell_of 2 1 ∷ []) 1 (pos 33) 6 }
    ensures zero { code_does hundredth_code (only_slot 2 (pos 0))
        ≡ ended_early ZeroDivisor (cell_of 2 1 ∷ []) 5 }
    ensures sum { fire_of_code sum_ahead_code dam_and_flow 1 1 (only_slot 1 (pos 100))
        ≡ done_by (cell_of 1 1 ∷ cell_of 1 2 ∷ []) 4 (pos 200) 34 }
    ensures last { fire_of_code sum_ahead_code dam_and_flow 1 3 (only_slot 1 (pos 100))
        ≡ ended_early Unknown (cell_of 1 3 ∷ []) 29 }
{}

/// Firings of codes that are of no rule.
pub fn firings_of_codes()
    ensures seven_kept { fire_of_code seven_kept one_dam 1 1 unknown_cells
        ≡ done_by [] 2 (pos 50) 4 }
    ensures two_puts { fire_of_code two_puts one_dam 1 1 unknown_cells
        ≡ fire Done [] (put_to 2 (pos 4) ∷ put_to 2 (pos 5) ∷ []) 12 }
    ensures nothing { fire_of_code (long_locals 244) one_dam 1 1 unknown_cells ≡ fire Done [] [] 0 }
    ensures skipped { fire_of_code skipped one_dam 1 1 unknown_cells ≡ fire Done [] [] 2 }
    ensures branch { fire_of_code one_or_two one_dam 1 1 unknown_cells ≡ done_by [] 2 (pos 2) 6 }
    ensures nested { fire_of_code nested one_dam 1 1 unknown_cells ≡ fire Done [] [] 24 }
    ensures doubled_items { fire_of_code doubled_items one_dam 1 1 unknown_cells
        ≡ done_by [] 2 (pos 10) 21 }
    ensures three_counted { fire_of_code three_counted one_dam 1 1 unknown_cells
        ≡ done_by [] 2 (pos 3) 12 }
{}

/// A code that is refused, and whose firing would never end: in as many steps as a firing may have, it gives nothing.
pub fn endless_code()
    ensures refused { first_code_refusal one_dam endless ≡ Some (refusal BackwardJump 1 1) }
    ensures nothing { fire_of_code endless one_dam 1 1 unknown_cells ≡ None }
{}

/// Operations on numbers, timesteps and truth values.
pub fn operations()
    ensures sub { x_of [] (number 3 ∷ number 5 ∷ I.Sub ∷ []) ≡ x_is (neg_ℤ (pos 2)) 4 }
    ensures mul { x_of [] (number 3 ∷ number 5 ∷ I.Mul ∷ []) ≡ x_is (pos 15) 4 }
    ensures neg { x_of [] (number 3 ∷ I.Neg ∷ []) ≡ x_is (neg_ℤ (pos 3)) 3 }
    ensures beyond { x_of [] (I.Num quantity_max ∷ number 1 ∷ I.Add ∷ [])
        ≡ x_ends (OutOfRange (quantity_max +ℤ pos 1)) 3 }
    ensures shift { x_of [] (I.Now ∷ number 3 ∷ I.Shift ∷ I.Now ∷ I.Between ∷ []) ≡ x_is (pos 3) 6 }
    ensures back { x_of [] (I.Now ∷ number 3 ∷ I.Back ∷ I.Now ∷ I.Between ∷ [])
        ≡ x_is (neg_ℤ (pos 3)) 6 }
    ensures eq { x_by_truth (number 2 ∷ number 2 ∷ I.Eq ∷ []) ≡ x_is (pos 1) 8 }
    ensures lt { x_by_truth (number 2 ∷ number 2 ∷ I.Lt ∷ []) ≡ x_is (pos 2) 8 }
    ensures le { x_by_truth (number 2 ∷ number 2 ∷ I.Le ∷ []) ≡ x_is (pos 1) 8 }
    ensures deq { x_by_truth (I.Now ∷ I.Now ∷ I.Deq ∷ []) ≡ x_is (pos 1) 8 }
    ensures dlt { x_by_truth (I.Now ∷ I.Now ∷ I.Dlt ∷ []) ≡ x_is (pos 2) 8 }
    ensures dle { x_by_truth (I.Now ∷ I.Now ∷ I.Dle ∷ []) ≡ x_is (pos 1) 8 }
    ensures not { x_by_truth (I.Bool true ∷ I.Not ∷ []) ≡ x_is (pos 2) 7 }
    ensures known { x_by_truth (y_slot ∷ I.Now ∷ I.Known ∷ [])
        ≡ done_by (cell_of 2 1 ∷ []) 1 (pos 2) 8 }
    ensures elevation { x_of_pool (number 250 ∷ I.ToElevation (codes "Pool") ∷ [])
        ≡ x_is (pos 501) 3 }
    ensures storage { x_of_pool (number 2000 ∷ I.ToStorage (codes "Pool") ∷ [])
        ≡ x_is (pos 1500) 3 }
    ensures arguments { code_does earlier_code unknown_cells ≡ x_is (pos 3) 11 }
{}

/// The month, the day and the year of the moment at which a timestep begins.
#[tactic(auto, unfolding(rw_calendar::specs::Moment::hours_later))]
pub fn dates()
    ensures month { x_of_pool (I.Now ∷ I.Month ∷ []) ≡ x_is (pos 1) 3 }
    ensures day { x_of_pool (I.Now ∷ I.Day ∷ []) ≡ x_is (pos 1) 3 }
    ensures year { x_of_pool (I.Now ∷ I.Year ∷ []) ≡ x_is (pos 2020) 3 }
    ensures no_month { x_of_pool (I.Now ∷ number 1 ∷ I.Back ∷ I.Month ∷ []) ≡ x_ends Unknown 4 }
{}

/// Operations on lists, and what locals begin as. A loop over an empty list is left out, and a mapping leaves an empty list.
pub fn lists()
    ensures slots { code_does second_slot (all_cells (pos 4))
        ≡ done_by (cell_of 2 1 ∷ []) 1 (pos 4) 10 }
    ensures sum_of_slots { code_does code_of_slot_sum (all_cells (pos 4))
        ≡ done_by (cell_of 1 1 ∷ cell_of 2 1 ∷ []) 1 (pos 8) 30 }
    ensures no_item { x_of [] (pair_then (number 3 ∷ I.Item ∷ [])) ≡ x_ends (OutOfRange (pos 3)) 7 }
    ensures as_wide { x_of [] (pair_then (I.Widen 2 ∷ I.Length ∷ [])) ≡ x_is (pos 2) 10 }
    ensures no_turn { x_of (K.NList 3 ∷ K.N ∷ []) (I.Load 0 ∷ I.Foreach 1 ∷ I.Next ∷ number 7 ∷ [])
        ≡ x_is (pos 7) 7 }
    ensures empty { x_of (K.NList 3 ∷ K.N ∷ [])
        (I.Load 0 ∷ I.Map 1 ∷ I.Load 1 ∷ I.Yield ∷ I.Length ∷ [])
        ≡ x_is (pos 0) 7 }
    ensures first_number { x_of (K.N ∷ []) (I.Load 0 ∷ []) ≡ x_is (pos 0) 2 }
    ensures first_truth { x_of (K.B ∷ K.N ∷ [])
        (I.Load 0 ∷ I.Branch 2 ∷ I.Target [] ∷ I.Load 1 ∷ [])
        ≡ x_is (pos 0) 5 }
    ensures first_step { x_of (K.D ∷ []) (I.Now ∷ I.Load 0 ∷ I.Between ∷ []) ≡ x_is (pos 1) 4 }
    ensures first_slot { x_of (K.S ∷ []) (I.Load 0 ∷ I.Now ∷ I.Read ∷ [])
        ≡ ended_early Unknown (cell_of 1 1 ∷ []) 3 }
{}

/// Codes with their instructions resolved. A local is named by its first word, a slot is the word that is its number less 1, and
/// of a block that does not fit there is nothing.
pub fn resolved_codes()
    ensures seven_kept { resolved_code one_dam seven_kept
        ≡ (R.Push (pos 7) ∷ R.Store 0 1 ∷ R.Push (pos 50) ∷ R.Put 2 0 ∷ R.End ∷ []) ∷ [] }
    ensures sum_ahead { resolved_code dam_and_flow sum_ahead_code
        ≡ (R.Push (pos 0) ∷ R.Now ∷ R.Load 0 1 ∷ R.Sum ∷ R.Read ∷ R.End ∷ [])
        ∷ (R.Push (pos 0) ∷ R.Push (pos 1) ∷ R.List 2 ∷ R.Push (pos 0) ∷ R.Store 1 1
        ∷ R.Foreach 0 2 12 ∷ R.Load 1 1 ∷ R.Load 0 1 ∷ R.Invoke 1 1 0 ∷ R.Sum ∷ R.Store 1 1 ∷ R.Next
        ∷ R.Load 1 1 ∷ R.Put 4 0 ∷ R.End ∷ []) ∷ [] }
    ensures doubled_items { resolved_code one_dam doubled_items
        ≡ (R.Push (pos 4) ∷ R.Push (pos 5) ∷ R.List 2 ∷ R.Map 0 2 8 ∷ R.Load 0 1
        ∷ R.Load 0 1 ∷ R.Sum
        ∷ R.Yield ∷ R.Widen 1 3 ∷ R.Push (pos 2) ∷ R.Item 3 ∷ R.Put 2 0 ∷ R.End ∷ []) ∷ [] }
    ensures sum_of_slots { resolved_code numbers_basin code_of_slot_sum
        ≡ (R.Push (pos 0) ∷ R.List 1 ∷ R.Push (pos 1) ∷ R.Append 1 ∷ R.Widen 3 5 ∷ R.Foreach 0 5 13
        ∷ R.Load 1 1 ∷ R.Load 0 1 ∷ R.Now ∷ R.Read ∷ R.Sum ∷ R.Store 1 1 ∷ R.Next ∷ R.Load 1 1
        ∷ R.Put 1 0 ∷ R.End ∷ []) ∷ [] }
    ensures nested { resolved_code one_dam nested
        ≡ (R.Push (pos 4) ∷ R.Push (pos 5) ∷ R.List 2 ∷ R.Foreach 0 2 10 ∷ R.Push (pos 4)
        ∷ R.Push (pos 5) ∷ R.List 2 ∷ R.Foreach 1 2 9 ∷ R.Next ∷ R.Next ∷ R.End ∷ []) ∷ [] }
    ensures endless { resolved_code one_dam endless ≡ [] ∷ [] }
{}

/// Locals and parameters of several words, names of functions and objects, and places of which there is nothing.
pub fn resolved_instructions()
    ensures locals { resolved_of (K.NList 3 ∷ K.N ∷ []) (I.Load 0 ∷ I.Foreach 1 ∷ I.Next ∷ [])
        ≡ R.Load 0 4 ∷ R.Foreach 4 3 3 ∷ R.Next ∷ R.End ∷ [] }
    ensures call { resolved_of [] (number 1 ∷ number 2 ∷ I.Call (codes "Max") ∷ put_x ∷ [])
        ≡ R.Push (pos 1) ∷ R.Push (pos 2) ∷ R.Call 2 2 ∷ R.Put 1 0 ∷ R.End ∷ [] }
    ensures object { resolved_of [] (number 250 ∷ I.ToStorage (codes "Pool") ∷ put_x ∷ [])
        ≡ R.Push (pos 250) ∷ R.ToStorage 2 ∷ R.Put 1 0 ∷ R.End ∷ [] }
    ensures invoke { resolved_code one_dam
        (function_with (K.NList 3 ∷ []) K.N (K.N ∷ K.N ∷ []) (I.Load 0 ∷ I.Length ∷ [])
        ∷ rule_with (K.NList 3 ∷ []) (I.Load 0 ∷ I.Invoke 1 ∷ put_outflow 0 ∷ []) ∷ [])
        ≡ (R.Load 0 4 ∷ R.Length 3 ∷ R.End ∷ [])
        ∷ (R.Load 0 4 ∷ R.Invoke 1 4 2 ∷ R.Put 2 0 ∷ R.End ∷ []) ∷ [] }
    ensures no_place { resolved_at ((R.Now ∷ R.End ∷ []) ∷ []) 1 2 ≡ R.End }
    ensures no_block { resolved_at ((R.Now ∷ R.End ∷ []) ∷ []) 0 0 ≡ R.End }
{}

/// Codes that are stuck: they would take operands that are not there or are of another kind, jump where nothing is declared of
/// the kind, end another loop than the innermost, or leave something behind.
pub fn stuck_codes()
    ensures missing { x_of [] (I.Add ∷ []) ≡ None }
    ensures wrong { x_of [] (I.Now ∷ number 3 ∷ I.Add ∷ I.Now ∷ I.Between ∷ []) ≡ None }
    ensures stored { x_of (K.N ∷ []) (I.Bool true ∷ I.Store 0 ∷ number 1 ∷ []) ≡ None }
    ensures no_target { x_of [] (I.Jump 1 ∷ number 1 ∷ []) ≡ None }
    ensures carried { x_of [] (I.Jump 1 ∷ I.Target (K.N ∷ []) ∷ []) ≡ None }
    ensures declared { x_of [] (number 1 ∷ I.Target [] ∷ []) ≡ None }
    ensures no_loop { x_of [] (number 1 ∷ I.Next ∷ []) ≡ None }
    ensures other_loop { x_of (K.N ∷ [])
        (pair_then (I.Foreach 0 ∷ number 1 ∷ I.Yield ∷ number 1 ∷ [])) ≡ None }
    ensures element { x_of (K.B ∷ []) (pair_then (I.Foreach 0 ∷ I.Next ∷ number 1 ∷ [])) ≡ None }
    ensures left { x_of [] (number 1 ∷ number 2 ∷ []) ≡ None }
    ensures beyond { x_of [] (number 1 ∷ I.Invoke 2 ∷ []) ≡ None }
{}

/// Code that is accepted fits, and each of its blocks keeps within the limits.
pub fn accepted_code()
    ensures fits { (basin : Draft) (blocks : List Block) (budgets : List Budget)
        → AreAccepted basin blocks budgets → AreFit basin blocks }
    ensures within { (basin : Draft) (blocks : List Block) (budgets : List Budget)
        → AreAccepted basin blocks budgets → All IsWithinLimits budgets }
{}

/// Ways through blocks and what they cost: through a loop's body, by either side of a branch, by a branch in a loop's body, over
/// a call, and past what nothing reaches. The budget is that of the dearest, in each of its parts.
pub fn ways()
    ensures in_turns { IsWayIn two_puts 1 (0 ∷ 1 ∷ 2 ∷ 3 ∷ 4 ∷ 5 ∷ 6 ∷ 7 ∷ []) }
    ensures turns { along_rule two_puts (0 ∷ 1 ∷ 2 ∷ 3 ∷ 4 ∷ 5 ∷ 6 ∷ 7 ∷ [])
        ≡ Some (Ok (budget 12 0 2 7)) }
    ensures in_sum { IsWayIn sum_or_two 1 (0 ∷ 1 ∷ 2 ∷ 3 ∷ 4 ∷ 5 ∷ 8 ∷ 9 ∷ 10 ∷ []) }
    ensures sum { along_rule sum_or_two (0 ∷ 1 ∷ 2 ∷ 3 ∷ 4 ∷ 5 ∷ 8 ∷ 9 ∷ 10 ∷ [])
        ≡ Some (Ok (budget 8 0 1 2)) }
    ensures in_two { IsWayIn sum_or_two 1 (0 ∷ 1 ∷ 6 ∷ 7 ∷ 8 ∷ 9 ∷ 10 ∷ []) }
    ensures two { along_rule sum_or_two (0 ∷ 1 ∷ 6 ∷ 7 ∷ 8 ∷ 9 ∷ 10 ∷ [])
        ≡ Some (Ok (budget 6 0 1 1)) }
    ensures in_put { IsWayIn put_or_not 1
        (0 ∷ 1 ∷ 2 ∷ 3 ∷ 4 ∷ 5 ∷ 6 ∷ 7 ∷ 8 ∷ 9 ∷ 10 ∷ []) }
    ensures put { along_rule put_or_not (0 ∷ 1 ∷ 2 ∷ 3 ∷ 4 ∷ 5 ∷ 6 ∷ 7 ∷ 8 ∷ 9 ∷ 10 ∷ [])
        ≡ Some (Ok (budget 18 0 2 7)) }
    ensures in_not { IsWayIn put_or_not 1 (0 ∷ 1 ∷ 2 ∷ 3 ∷ 4 ∷ 5 ∷ 8 ∷ 9 ∷ 10 ∷ []) }
    ensures not_put { along_rule put_or_not (0 ∷ 1 ∷ 2 ∷ 3 ∷ 4 ∷ 5 ∷ 8 ∷ 9 ∷ 10 ∷ [])
        ≡ Some (Ok (budget 14 0 0 7)) }
    ensures put_or_not { ruled put_or_not ≡ Ok (budget 18 0 2 7 ∷ []) }
    ensures in_call { IsWayIn sum_ahead_code 2
        (0 ∷ 1 ∷ 2 ∷ 3 ∷ 4 ∷ 5 ∷ 6 ∷ 7 ∷ 8 ∷ 9 ∷ 10 ∷ 11 ∷ 12 ∷ 13 ∷ 14 ∷ []) }
    ensures call { along dam_and_flow sum_ahead_code (budget 5 1 0 4 ∷ []) 2
        (0 ∷ 1 ∷ 2 ∷ 3 ∷ 4 ∷ 5 ∷ 6 ∷ 7 ∷ 8 ∷ 9 ∷ 10 ∷ 11 ∷ 12 ∷ 13 ∷ 14 ∷ [])
        ≡ Some (Ok (budget 34 2 1 13)) }
    ensures past_it { IsWayIn skipped 1 (0 ∷ 3 ∷ 4 ∷ []) }
    ensures skipped { along_rule skipped (0 ∷ 3 ∷ 4 ∷ []) ≡ Some (Ok (budget 2 0 0 0)) }
    ensures nested { along_rule nested (0 ∷ 1 ∷ 2 ∷ 3 ∷ 4 ∷ 5 ∷ 6 ∷ 7 ∷ 8 ∷ 9 ∷ 10 ∷ [])
        ≡ Some (Ok (budget 24 0 0 12)) }
    ensures mapped { along_rule doubled_items
        (0 ∷ 1 ∷ 2 ∷ 3 ∷ 4 ∷ 5 ∷ 6 ∷ 7 ∷ 8 ∷ 9 ∷ 10 ∷ 11 ∷ 12 ∷ [])
        ≡ Some (Ok (budget 21 0 1 11)) }
    ensures not_a_way { IsWayIn two_puts 1 (0 ∷ 1 ∷ 2 ∷ 3 ∷ 7 ∷ []) → IsTrue false }
{}

/// The meaning of budgets. Of a block that fits, the numbers that budgets are made of are the most that its ways cost. So code is
/// accepted exactly where it fits and the budgets that its ways have keep within the limits.
pub fn budgets_of_ways()
    ensures sums { (scope : Scope) (budgets : List Budget) (price : Before → Instruction → ℕ)
        (lines : List Instruction) (bs : List Before)
        → scope.spots ≡ spots lines → befores scope 0 (before [] []) lines ≡ Ok bs
        → IsMost lines (sum_on bs lines price) (most (summed scope budgets price) bs lines) }
    ensures words { (scope : Scope) (budgets : List Budget) (lines : List Instruction)
        (bs : List Before)
        → scope.spots ≡ spots lines → befores scope 0 (before [] []) lines ≡ Ok bs
        → IsMost lines (words_on bs lines scope budgets) (most (at_a_time scope budgets) bs lines) }
    ensures accepted { (basin : Draft) (blocks : List Block) (budgets : List Budget)
        → AreAccepted basin blocks budgets ↔ AreAcceptable basin blocks budgets }
{}

/// Code that is refused has a first misfit, which the refusal names, unless it is for a budget above a limit; and code that fits
/// is refused for nothing else.
pub fn refused_code()
    ensures misfit { (basin : Draft) (blocks : List Block) (why : Refusal)
        → ruling basin blocks ≡ Err why → (IsOverLimit why.misfit → ⊥)
        → first_code_refusal basin blocks ≡ Some why }
    ensures over { (basin : Draft) (blocks : List Block) (why : Refusal)
        → ruling basin blocks ≡ Err why → AreFit basin blocks → IsOverLimit why.misfit }
{}

/// Verified code never goes wrong. However the cells are and at whatever timestep, each rule of accepted code is never stuck and
/// ends. What it counts, how often it looks, inside the run and outside, the puts that it executes and the words of each
/// state that it passes are at most those of its budget.
pub fn verified_code_is_safe()
    ensures { (basin : Draft) (blocks : List Block) (budgets : List Budget)
        → AreAccepted basin blocks budgets → AreSafe basin blocks budgets }
{}

/// The code that `verify` returns is the code that it was given. That is accepted, and so it is safe; its instructions are
/// resolved. For all accepted code it returns that.
pub fn answered_code_is_safe()
    ensures unchanged { (basin : Draft) (blocks : List Block) (a : Accepted)
        → verified basin blocks ≡ Ok a → a.blocks ≡ blocks }
    ensures accepted { (basin : Draft) (blocks : List Block) (a : Accepted)
        → verified basin blocks ≡ Ok a → AreAccepted basin a.blocks a.budgets }
    ensures safe { (basin : Draft) (blocks : List Block) (a : Accepted)
        → verified basin blocks ≡ Ok a → AreSafe basin a.blocks a.budgets }
    ensures resolved { (basin : Draft) (blocks : List Block) (a : Accepted)
        → verified basin blocks ≡ Ok a → a.resolved ≡ resolved_code basin a.blocks }
    ensures all { (basin : Draft) (blocks : List Block) (budgets : List Budget)
        → AreAccepted basin blocks budgets → verified basin blocks ≡ Ok (record {
          blocks = blocks;
          budgets = budgets;
          resolved = resolved_code basin blocks;
        }) }
{}

/// What firings pass: each look counts, also one outside the run, which looks at no cell; a put counts that is executed before
/// a firing ends at a look; and the words are those of the state that keeps most.
pub fn passed_by_firings()
    ensures look { looks_of_firing seen_before ≡ 2 }
    ensures no_cell { code_does seen_before unknown_cells
        ≡ ended_early Unknown (cell_of 2 1 ∷ []) 10 }
    ensures put { puts_of_firing put_before_look ≡ 1 }
    ensures no_put { code_does put_before_look unknown_cells
        ≡ ended_early Unknown (cell_of 2 1 ∷ []) 5 }
    ensures words { words_of_firing earlier_code ≡ 5 }
    ensures loop_words { words_of_firing code_of_slot_sum ≡ 13 }
{}
