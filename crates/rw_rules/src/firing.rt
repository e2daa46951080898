//! Lets a rule of verified code fire, and judges what it asks for.
ghost use Rattle.std.specs.Prelude.{◌≡◌, ◌≤◌, Some, length, true};
ghost use Rattle.rw_run.specs.Dispatch.{looks_at};
ghost use Rattle.rw_series.specs.Series.{held};
ghost use Rattle.rpl_fires.specs.Fired.{look_cells};
ghost use Rattle.rw_rules.specs.Firing.{HasPuts, IsRuleTurn, event_of_fired, firing_event, most_looks};

use crate::setup::RuleSetup;
use rpl_fires::Fires;
use rpl_verify::law::{accepted_code, answered_code_is_safe};
use rw_base::{RuleNo, StepNo};
use rw_series::Series;
use rw_writes::Writes;

/// Lets a machine that is prepared for a policy fire a rule of it at a timestep of the run, counted from 1. What the machine did is
/// the event that the definition makes of the firing, by what the cells hold. `writes` has what that event asks for and writes,
/// and no cell is written yet. Each look has what its cell holds, and there are no more looks than the budget of the block
/// allows. It takes no memory.
pub fn fire<M: Fires>(
    machine: &mut M,
    writes: &mut Writes,
    setup: &RuleSetup<'_>,
    series: &Series,
    rule: RuleNo,
    step: StepNo,
)
    requires ready { M.serves machine.old setup.now.policy.now ≡ true }
    requires turn { IsRuleTurn setup.now.basin.now setup.now.policy.now rule.0 step.0 }
    ensures ready { M.serves machine.new setup.now.policy.now ≡ true }
    ensures event { firing_event setup.now.basin.now setup.now.policy.now (held series.now)
        rule.0 step.0
        ≡ Some (event_of_fired setup.now.basin.now (held series.now) rule.0 step.0
        (M.told machine.new)) }
    ensures looked { looks_at (held series.now) (look_cells (M.looks machine.new))
        ≡ M.looks machine.new }
    ensures few { length (M.looks machine.new) ≤ most_looks setup.now.policy.now rule.0 }
    ensures puts { HasPuts setup.now.basin.now
        (event_of_fired setup.now.basin.now (held series.now) rule.0 step.0 (M.told machine.new))
        writes.new }
{
    accepted_code();
    answered_code_is_safe();
    machine.fire(setup.policy, setup.predefs, setup.basin, series, rule, step);
    let fired = machine.fired();
    writes.judge(setup.basin, series, rule, step, fired.puts);
}
