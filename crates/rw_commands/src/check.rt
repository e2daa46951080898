//! Writes the budgets of a policy: the text of `check`.
ghost use Rattle.std.specs.Prelude.{◌≡◌, ◌++◌, ◌<◌, ◌≤◌, Some, OnOk, IfOk, string_bytes};
ghost use Rattle.rpl_budget.specs.Seen.{budget_seen};
ghost use Rattle.rw_commands.specs.Budgets.{budget_line, check_text, counts_line};
ghost use Rattle.rw_commands.specs.Seen.{policy_of};

use crate::policy::Policy;
use rpl_types::TreeCost;
use rw_base::NoMemory;
use std::alloc::Global;
use std::fmt::Write;

fn push_counts(text: &mut String, rules: u16, functions: u16) -> Result<(), NoMemory>
    ensures { OnOk result
        (string_bytes text.new ≡ string_bytes text.old ++ counts_line rules functions) }
{
    writeln!(text, "ok {rules} rules {functions} functions")?;
    Ok(())
}

fn push_budget(text: &mut String, rule: u16, cost: TreeCost) -> Result<(), NoMemory>
    ensures { OnOk result
        (string_bytes text.new ≡ string_bytes text.old ++ budget_line rule (budget_seen cost)) }
{
    let (count, reads) = (cost.instructions, cost.reads);
    let (puts, words) = (cost.puts, cost.words);
    writeln!(
        text,
        "rule {rule} instructions {count} reads {reads} puts {puts} words {words}"
    )?;
    Ok(())
}

/// The text of the budgets of a policy: the counts of rules and functions, and a line for each rule.
pub(crate) fn budgets(alloc: Global, policy: &Policy) -> Result<String, NoMemory>
    ensures { IfOk result (λ text. string_bytes text ≡ check_text (policy_of policy.now)) }
{
    let mut text = String::new(alloc);
    push_counts(&mut text, policy.rule_count(), policy.function_count())?;
    for done in 0..policy.rule_count() {
        let rule = done + 1;
        push_budget(&mut text, rule, policy.cost(rule))?;
    }
    Ok(text)
}
