//! Declares what a run asks of whatever fires its rules.
ghost use Rattle.std.specs.Prelude.{◌≡◌, ◌≤◌, Bool, IfOk, List, Ok, Some, true};
ghost use Rattle.rw_firing.specs.Fire.{Fire};
ghost use Rattle.rw_firing.specs.declared.look.Look.{Look};
ghost use Rattle.rpl_code.specs.declared.block.BlockHead.TheVariants.{Rule as RuleHead};
ghost use Rattle.rpl_verify.specs.Fits.{count_alike};
ghost use Rattle.rpl_verify.specs.Machine.{fire_of_code};
ghost use Rattle.rpl_verify.specs.Verified.{Accepted, verified};
ghost use Rattle.rpl_fires.specs.Fired.{fire_seen, look_cells, looks_by_values, value_in_series};

use crate::Fired;
use rpl_predef::Predefs;
use rpl_verify::Verified;
use rw_base::{NoMemory, RuleNo, StepNo};
use rw_model::Basin;
use rw_series::Series;

/// Fires rules of verified code: the rules of any policy, one after the other, once it is prepared for that policy.
pub trait Fires {
    /// Whether it is prepared for a policy.
    ghost serves: { Self → Accepted → Bool };

    /// What its last firing did.
    ghost told: { Self → Fire };

    /// The looks of its last firing.
    ghost looks: { Self → List Look };

    /// Takes the room that the rules of a policy need, where it has none yet. A policy without rules needs none. No other
    /// call takes memory.
    fn prepare(&mut self, policy: &Verified) -> Result<(), NoMemory>
        ensures { IfOk result (λ done. serves self.new policy.now ≡ true) };

    /// Fires a rule of a policy that fits the basin, at a timestep, counted from 1: what the code of the rule does there,
    /// instruction by instruction, for the values of the series, which are in the base units of their slots' dimensions. It
    /// takes no memory. `docs/FORMATS.md` says under "How a firing ends" what may come of it.
    fn fire(
        &mut self,
        policy: &Verified,
        predefs: &Predefs,
        basin: &Basin,
        series: &Series,
        rule: RuleNo,
        step: StepNo,
    )
        requires ready { serves self.old policy.now ≡ true }
        requires fits { verified basin.now policy.now.blocks ≡ Ok policy.now }
        requires exists { rule.0 ≤ count_alike RuleHead policy.now.blocks }
        requires counted { 1 ≤ rule.0 }
        ensures fires { fire_of_code policy.now.blocks basin.now rule.0 step.0
            (value_in_series series.now)
            ≡ Some (told self.new) }
        ensures seen { looks self.new
            ≡ looks_by_values (value_in_series series.now) (look_cells (looks self.new)) }
        ensures ready { serves self.new policy.now ≡ true };

    /// Returns what the last firing did.
    fn fired(&self) -> Fired<'_>
        ensures told { fire_seen result ≡ told self.now }
        ensures looks { result.looked.now ≡ looks self.now };
}
