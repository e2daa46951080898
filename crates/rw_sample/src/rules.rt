//! Writes the ruleset of the sample.
ghost use Rattle.std.specs.Prelude.{◌≡◌, ◌++◌, IfOk, OnOk, string_bytes};
ghost use Rattle.rw_report.specs.Section.{for_each};
ghost use Rattle.rw_sample.specs.Texts.{rule_words, sample_rules};

use rw_base::NoMemory;
use std::alloc::Global;
use std::fmt::Write;

fn push_rule(text: &mut String, number: u16) -> Result<(), NoMemory>
    ensures { OnOk result (string_bytes text.new ≡ string_bytes text.old ++ rule_words number) }
{
    write!(
        text,
        "RULE \"D{number}\":\n  D{number}.Outflow[t] := Min(D{number}.Inflow[t], 500 \"m3/step\");\nENDRULE\n"
    )?;
    Ok(())
}

fn push_rules(text: &mut String) -> Result<(), NoMemory>
    ensures { OnOk result (string_bytes text.new
        ≡ string_bytes text.old ++ for_each rule_words 20) }
{
    for before in 0..20u16 {
        push_rule(text, before + 1)?;
    }
    Ok(())
}

/// Returns the text of the ruleset: a rule for each reservoir, by which it releases what flows in, at most 500 m3/step. The one
/// error is want of memory.
#[tactic(auto, unfolding(crate::specs::Texts::sample_rules))]
pub fn sample_rules(alloc: Global) -> Result<Vec<u8>, NoMemory>
    ensures text { IfOk result (λ text. text.items ≡ sample_rules) }
{
    let mut text = String::new(alloc);
    push_rules(&mut text)?;
    Ok(text.into_bytes())
}
