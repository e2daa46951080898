//! Finds how often each rule of a policy looks at most.
ghost use Rattle.std.specs.Prelude.{◌≡◌, ◌≤◌, Ok, IfOk};
ghost use Rattle.rpl_code.specs.declared.block.BlockHead.TheVariants.{Rule as RuleHead};
ghost use Rattle.rpl_verify.specs.Fits.{count_alike};
ghost use Rattle.rpl_verify.specs.Verified.{verified};
ghost use Rattle.rw_rules.specs.Firing.{AreReads, most_looks};

use rpl_verify::Verified;
use rpl_verify::law::{accepted_code, answered_code_is_safe};
use rw_base::{NoMemory, RuleNo};
use rw_model::Basin;
use std::alloc::Global;

// How often a rule looks at most.
fn reads_of(policy: &Verified, basin: &Basin, rule: RuleNo) -> u32
    requires fits { verified basin.now policy.now.blocks ≡ Ok policy.now }
    requires exists { rule.0 ≤ count_alike RuleHead policy.now.blocks }
    requires counted { 1 ≤ rule.0 }
    ensures { result ≡ most_looks policy.now rule.0 }
{
    accepted_code();
    answered_code_is_safe();
    let _objects = basin.object_count();
    policy.budget(policy.rule_block(rule)).reads as u32
}

/// Returns how often each rule of verified code looks at most, of rule 1 first: each at most 20,000 times. The only error is want
/// of memory.
pub fn reads(alloc: Global, policy: &Verified, basin: &Basin) -> Result<Vec<u32>, NoMemory>
    requires { verified basin.now policy.now.blocks ≡ Ok policy.now }
    ensures { IfOk result (λ reads. AreReads policy.now reads.items) }
{
    let mut reads = Vec::new(alloc);
    for before in 0..policy.rule_count() {
        reads.push(reads_of(policy, basin, RuleNo(before + 1)))?;
    }
    Ok(reads)
}
