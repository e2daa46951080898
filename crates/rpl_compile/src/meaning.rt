//! Proves that the code of a rule does what the rule means.
ghost use Rattle.std.specs.Prelude.{◌≡◌, ◌≤◌, ℕ, ℤ, IsSome, List, Ok, Option};
ghost use Rattle.rw_base.specs.declared.limits.TheConstants.{RULES_MAX};
ghost use Rattle.rw_base.specs.declared.number.Cell.{Cell};
ghost use Rattle.rw_model.specs.Draft.{Draft};
ghost use Rattle.rpl_tree.specs.Mean.{mean};
ghost use Rattle.rpl_tree.specs.Tree.{Declared};
ghost use Rattle.rpl_tree.specs.Bounds.{function_count, rule_count};
ghost use Rattle.rpl_types.specs.HasType.{IsTyped};
ghost use Rattle.rpl_verify.specs.Verified.{Accepted, verified};
ghost use Rattle.rpl_compile.specs.Fires.{EndsAlike, FiresAlike, HasRule};
ghost use Rattle.rpl_compile.specs.Kinded.{AreKinded};
ghost use Rattle.rpl_compile.specs.Translate.{translate};

use crate::accepted::{compiled_code_is_accepted, typed_is_kinded};

/// Of a ruleset whose parts are of the kinds that they have to be, each rule means a firing, at whatever timestep and
/// however the cells are. With enough steps its code does just that: it ends alike, has looked at the same cells, asks for
/// the same, and counts as much.
pub fn code_means_its_rule()
    ensures fires { (basin : Draft) (declared : List Declared) → AreKinded basin declared
        → (number step : ℕ) (values : Cell → Option ℤ) → HasRule declared number
        → IsSome (mean declared basin number step values) }
    ensures alike { (basin : Draft) (declared : List Declared) → AreKinded basin declared
        → (number step : ℕ) (values : Cell → Option ℤ) → HasRule declared number
        → EndsAlike declared basin number step values }
{}

/// Where the code is accepted, too, it does so in as many steps as a firing has.
pub fn accepted_code_means_its_rule()
    ensures { (basin : Draft) (declared : List Declared) → AreKinded basin declared
        → (number step : ℕ) (values : Cell → Option ℤ) → HasRule declared number
        → (all : Accepted) → verified basin (translate declared) ≡ Ok all
        → FiresAlike declared basin number step values }
{}

/// The code of each rule of an accepted ruleset does what the rule means.
pub fn rules_fire_alike()
    ensures { (basin : Draft) (declared : List Declared) → IsTyped basin declared
        → rule_count declared ≤ RULES_MAX → function_count declared ≤ RULES_MAX
        → (number step : ℕ) (values : Cell → Option ℤ) → HasRule declared number
        → FiresAlike declared basin number step values }
{
    typed_is_kinded();
    compiled_code_is_accepted();
    accepted_code_means_its_rule();
}
