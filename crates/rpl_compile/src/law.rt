//! Proves what the definition gives for rules whose code was worked out by hand.
ghost use Rattle.std.specs.Prelude.{◌≡◌, [], ◌∷◌, codes, false, pos, true};
ghost use Rattle.rpl_code.specs.declared.kind.ValueKind.TheVariants as K;
ghost use Rattle.rpl_code.specs.declared.instruction.Instruction.TheVariants as I;
ghost use Rattle.rpl_tree.specs.declared.words.OneWord.TheVariants.{Known, Length, Minus};
ghost use Rattle.rpl_tree.specs.declared.words.TwoWord.TheVariants.{And, Less, Minus as Less_by, Or, Plus, Unequal};
ghost use Rattle.rpl_tree.specs.Tree.{bind, branch, choice, no_acts, now, one, truth, two, with_name};
ghost use Rattle.rpl_tree.specs.Worked.{both_call, cap_and_base, count_call, hundredth, l_name, n_name, n_to_x, of_unit, one_else_two, one_to_x, loop_over, pair, raise_and_reset, s_name, sum_ahead, three_numbers, twice_each, whole, x_put, x_rule, y_now};
ghost use Rattle.rpl_verify.specs.Worked.{cap_and_base_code, hundredth_code, raise_and_reset_code, rule_with, sum_ahead_code};
ghost use Rattle.rpl_compile.specs.Translate.{translate};
ghost use Rattle.rpl_compile.specs.Worked.{behind_functions, lines_beside_functions, lines_of_acts, lines_of_tree, number_instruction, put_dx, putting};

/// Whole rulesets: each declaration is a block, with the kinds of its locals.
pub fn rulesets()
    ensures cap_and_base { translate cap_and_base ≡ cap_and_base_code }
    ensures sum_ahead { translate sum_ahead ≡ sum_ahead_code }
    ensures hundredth { translate hundredth ≡ hundredth_code }
    ensures raise_and_reset { translate raise_and_reset ≡ raise_and_reset_code }
    ensures local { translate (x_rule (bind (codes "l") (pair (pos 7) (pos 8)) (one Length l_name)))
        ≡ rule_with (K.NList 2 ∷ [])
        (putting (number_instruction 7 ∷ number_instruction 8 ∷ I.List 2 ∷ I.Store 0
        ∷ I.Load 0 ∷ I.Length ∷ [])) ∷ [] }
    ensures none { translate [] ≡ [] }
{}

/// Numbers are of base units. Operands come before their operator, the left one first. Of dates there are operators of their own.
pub fn operators()
    ensures unit { lines_of_tree (of_unit (pos 2) (codes "dam3"))
        ≡ putting (number_instruction 2000 ∷ []) }
    ensures sum { lines_of_tree (two Plus (whole (pos 1)) (one Minus (whole (pos 2))))
        ≡ putting (number_instruction 1 ∷ number_instruction 2 ∷ I.Neg ∷ I.Add ∷ []) }
    ensures between { lines_of_tree (two Less_by (two Plus now (whole (pos 1))) now)
        ≡ putting (I.Now ∷ number_instruction 1 ∷ I.Shift ∷ I.Now ∷ I.Between ∷ []) }
    ensures look { lines_of_tree y_now
        ≡ putting (I.Slot (codes "D") (codes "Y") ∷ I.Now ∷ I.Read ∷ []) }
{}

/// A branch goes to the second part of its IF, behind the jump over it. What is jumped to declares the operands that are
/// there, those of the forms around included.
pub fn choices()
    ensures choice { lines_of_tree (one_else_two (truth false))
        ≡ putting
        (I.Bool false ∷ I.Branch 4 ∷ number_instruction 1 ∷ I.Jump 6 ∷ I.Target []
        ∷ number_instruction 2
        ∷ I.Target (K.N ∷ []) ∷ []) }
    ensures below { lines_of_tree (two Plus (whole (pos 5)) (one_else_two (truth false)))
        ≡ putting
        (number_instruction 5 ∷ I.Bool false ∷ I.Branch 5 ∷ number_instruction 1 ∷ I.Jump 7
        ∷ I.Target (K.N ∷ []) ∷ number_instruction 2 ∷ I.Target (K.N ∷ K.N ∷ []) ∷ I.Add ∷ []) }
    ensures dates { lines_of_tree (one_else_two (two Less now now))
        ≡ putting
        (I.Now ∷ I.Now ∷ I.Dlt ∷ I.Branch 6 ∷ number_instruction 1 ∷ I.Jump 8 ∷ I.Target []
        ∷ number_instruction 2 ∷ I.Target (K.N ∷ []) ∷ []) }
    ensures unequal { lines_of_tree (one_else_two (two Unequal (whole (pos 1)) (whole (pos 2))))
        ≡ putting
        (number_instruction 1 ∷ number_instruction 2 ∷ I.Eq ∷ I.Not ∷ I.Branch 7
        ∷ number_instruction 1 ∷ I.Jump 9
        ∷ I.Target [] ∷ number_instruction 2 ∷ I.Target (K.N ∷ []) ∷ []) }
    ensures known { lines_of_tree (one_else_two (one Known y_now))
        ≡ putting
        (I.Slot (codes "D") (codes "Y") ∷ I.Now ∷ I.Known ∷ I.Branch 6 ∷ number_instruction 1
        ∷ I.Jump 8 ∷ I.Target [] ∷ number_instruction 2 ∷ I.Target (K.N ∷ []) ∷ []) }
    ensures and { lines_of_tree (one_else_two (two And (truth true) (truth false)))
        ≡ lines_of_tree (one_else_two (choice (truth true) (truth false) (truth false))) }
    ensures or { lines_of_tree (one_else_two (two Or (truth true) (truth false)))
        ≡ lines_of_tree (one_else_two (choice (truth true) (truth true) (truth false))) }
{}

/// A name is a local. A FOR has two, that of the element first.
pub fn names()
    ensures variable { lines_of_tree (bind (codes "n") (whole (pos 7)) (two Plus n_name n_name))
        ≡ putting (number_instruction 7 ∷ I.Store 0 ∷ I.Load 0 ∷ I.Load 0 ∷ I.Add ∷ []) }
    ensures for_loop { lines_of_tree (loop_over (pair (pos 4) (pos 5)) (two Plus s_name n_name))
        ≡ putting
        (number_instruction 4 ∷ number_instruction 5 ∷ I.List 2 ∷ number_instruction 0
        ∷ I.Store 1 ∷ I.Foreach 0
        ∷ I.Load 1 ∷ I.Load 0 ∷ I.Add ∷ I.Store 1 ∷ I.Next ∷ I.Load 1 ∷ []) }
    ensures map { lines_of_tree (one Length (twice_each (pair (pos 3) (pos 4))))
        ≡ putting
        (number_instruction 3 ∷ number_instruction 4 ∷ I.List 2 ∷ I.Map 0 ∷ I.Load 0
        ∷ number_instruction 2 ∷ I.Mul
        ∷ I.Yield ∷ I.Length ∷ []) }
{}

/// A list with less room than its place asks for is widened there: in a branch, as an argument, as a result.
pub fn room()
    ensures branch { lines_of_tree
        (one Length (choice (truth true) (pair (pos 7) (pos 8)) three_numbers))
        ≡ putting
        (I.Bool true ∷ I.Branch 7 ∷ number_instruction 7 ∷ number_instruction 8
        ∷ I.List 2 ∷ I.Widen 3
        ∷ I.Jump 13 ∷ I.Target [] ∷ number_instruction 7 ∷ number_instruction 8 ∷ I.List 2
        ∷ number_instruction 9 ∷ I.Append
        ∷ I.Target (K.NList 3 ∷ []) ∷ I.Length ∷ []) }
    ensures argument { lines_beside_functions (count_call (whole (pos 1)))
        ≡ behind_functions
        (putting
        (number_instruction 7 ∷ number_instruction 8 ∷ I.List 2 ∷ I.Widen 3 ∷ number_instruction 1
        ∷ I.Invoke 1 ∷ [])) }
    ensures result { lines_beside_functions both_call
        ≡ behind_functions (putting (I.Invoke 2 ∷ I.Length ∷ [])) }
{}

/// Statements: a WITH is a local, and an IF without a second part jumps over nothing.
pub fn statements()
    ensures with_name { lines_of_acts (with_name (codes "n") (whole (pos 7)) n_to_x ∷ [])
        ≡ putting (number_instruction 7 ∷ I.Store 0 ∷ I.Load 0 ∷ []) }
    ensures choice { lines_of_acts (branch (truth false) one_to_x no_acts ∷ [])
        ≡ I.Bool false ∷ I.Branch 5 ∷ number_instruction 1 ∷ put_dx ∷ I.Jump 6
        ∷ I.Target [] ∷ I.Target []
        ∷ [] }
    ensures both { lines_of_acts (x_put (whole (pos 1)) ∷ x_put (whole (pos 2)) ∷ [])
        ≡ number_instruction 1 ∷ put_dx ∷ number_instruction 2 ∷ put_dx ∷ [] }
{}
