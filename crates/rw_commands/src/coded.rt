//! Makes the verified code that runs as the policy of a file does.
ghost use Rattle.std.specs.Prelude.{◌≡◌, IfOk, IsOk, List, Ok};
ghost use Rattle.rw_model.specs.Draft.{Draft};
ghost use Rattle.rpl_compile.specs.Translate.{translate};
ghost use Rattle.rpl_tree.specs.Bounds.{AreLimited};
ghost use Rattle.rpl_tree.specs.Seen.{rules_of};
ghost use Rattle.rpl_tree.specs.Tree.{Declared};
ghost use Rattle.rpl_types.specs.Judged.{rules_judged};
ghost use Rattle.rpl_verify.specs.Verified.{Accepted, verified};
ghost use Rattle.rw_commands.specs.Policy.{Ruleset, Code};
ghost use Rattle.rw_commands.specs.Ready.{IsFit};
ghost use Rattle.rw_commands.specs.RunText.{IsCodeOf};
ghost use Rattle.rw_commands.specs.Seen.{policy_of};

use crate::policy::Policy;
use rpl_compile::accepted::compiled_budgets;
use rpl_compile::compile_away;
use rpl_policy::law::firings_are_verified;
use rpl_rulesets::law::{firings_of_rules_are_verified, rules_keep_promises, rulesets_have_runs};
use rpl_types::Typed;
use rpl_types::law::accepted;
use rpl_verify::Verified;
use rpl_verify::law::answered_code_is_safe;
use rw_asked::law::same_asks;
use rw_base::NoMemory;
use rw_model::Basin;
use rw_run::law::choices;
use std::alloc::Global;

// Code of a file runs as itself.
fn code_runs()
    ensures { (basin : Draft) (code : Accepted) → verified basin code.blocks ≡ Ok code
        → IsCodeOf basin (Code code.blocks code.budgets) code }
{
    answered_code_is_safe();
    firings_are_verified();
}

// The code of a ruleset that is accepted for the basin runs as the ruleset does.
fn rules_run()
    ensures { (basin : Draft) (rules : List Declared) (code : Accepted)
        → IsOk (rules_judged basin rules) → AreLimited rules → code.blocks ≡ translate rules
        → IsCodeOf basin (Ruleset rules) code }
{
    accepted();
    compiled_budgets();
    rulesets_have_runs();
    rules_keep_promises();
    same_asks();
    choices();
    firings_of_rules_are_verified();
}

// The code of a ruleset that is accepted for the basin, and that goes as its code is made.
fn code_of_ruleset(alloc: Global, typed: Typed, basin: &Basin) -> Result<Verified, NoMemory>
    requires { IsOk (rules_judged basin.now (rules_of typed.rules)) }
    ensures fits { IfOk result (λ code. verified basin.now code.blocks ≡ Ok code) }
    ensures runs { IfOk result (IsCodeOf basin.now (Ruleset (rules_of typed.rules))) }
{
    rules_run();
    let _rules = typed.rules();
    let code = compile_away(alloc, typed, basin)?;
    Ok(code)
}

/// The code by which a policy that is accepted for the basin runs. It is made once, whatever runs there are.
pub(crate) fn code_of(alloc: Global, policy: Policy, basin: &Basin) -> Result<Verified, NoMemory>
    requires { IsFit basin.now policy }
    ensures fits { IfOk result (λ code. verified basin.now code.blocks ≡ Ok code) }
    ensures runs { IfOk result (IsCodeOf basin.now (policy_of policy)) }
{
    code_runs();
    match policy {
        Policy::Ruleset(typed) => code_of_ruleset(alloc, typed, basin),
        Policy::Code(code) => Ok(code),
    }
}
