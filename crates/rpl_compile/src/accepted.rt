//! Proves that the code of an accepted ruleset is spelt by a text, and accepted, with the budgets of the ruleset.
ghost use Rattle.std.specs.Prelude.{◌≡◌, ◌≤◌, List, Ok};
ghost use Rattle.rw_base.specs.declared.limits.TheConstants.{RULES_MAX};
ghost use Rattle.rw_model.specs.Draft.{Draft};
ghost use Rattle.rpl_tree.specs.Tree.{Declared};
ghost use Rattle.rw_model.specs.Basin.{IsBasin};
ghost use Rattle.rpl_code.specs.Bounds.{IsCode};
ghost use Rattle.rpl_tree.specs.Bounds.{AreLimited, function_count, rule_count};
ghost use Rattle.rpl_types.specs.HasType.{IsTyped};
ghost use Rattle.rpl_verify.specs.Budget.{ruling};
ghost use Rattle.rpl_verify.specs.Fits.{AreFit};
ghost use Rattle.rpl_verify.specs.Verified.{verified};
ghost use Rattle.rpl_compile.specs.Budgets.{accepted_code, code_budgets_of};
ghost use Rattle.rpl_compile.specs.Kinded.{AreKinded};
ghost use Rattle.rpl_compile.specs.Translate.{translate};

/// A ruleset that is accepted is of the kinds that its code asks for.
#[tactic(auto, using(crate::proofs::TypedKinds::typed_is_kinded))]
pub fn typed_is_kinded()
    ensures { (basin : Draft) (rules : List Declared)
        → IsTyped basin rules → AreKinded basin rules }
{}

/// The code of an accepted ruleset, with no more in it than a parsed one has, is one that a text spells: what `write_code` writes
/// of it is read as that code again.
pub fn compiled_code_can_be_spelt()
    ensures { (basin : Draft) (rules : List Declared) → IsBasin basin → IsTyped basin rules
        → AreLimited rules → IsCode (translate rules) }
{}

/// Code fits the basin where the ruleset is of these kinds and has no more declarations than a parsed one has.
#[tactic(auto, using(crate::proofs::CompiledFits::compiled_code_fits))]
pub fn compiled_code_fits()
    ensures { (basin : Draft) (rules : List Declared) → AreKinded basin rules
        → rule_count rules ≤ RULES_MAX → function_count rules ≤ RULES_MAX
        → AreFit basin (translate rules) }
{}

/// The budget of each block is that of its declaration.
#[tactic(auto, using(crate::proofs::CompiledBudgets::compiled_budgets))]
pub fn compiled_budgets()
    ensures { (basin : Draft) (rules : List Declared) → IsTyped basin rules
        → rule_count rules ≤ RULES_MAX → function_count rules ≤ RULES_MAX
        → ruling basin (translate rules) ≡ Ok (code_budgets_of rules) }
{}

/// The code of an accepted ruleset is accepted.
#[tactic(auto, using(crate::proofs::CompiledBudgets::compiled_code_is_accepted))]
pub fn compiled_code_is_accepted()
    ensures { (basin : Draft) (rules : List Declared) → IsTyped basin rules
        → rule_count rules ≤ RULES_MAX → function_count rules ≤ RULES_MAX
        → verified basin (translate rules) ≡ Ok (accepted_code basin rules) }
{}
