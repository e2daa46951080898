//! Holds the rules of verified code in a run, finds the one that is due, lets it fire and writes its puts.
ghost use Rattle.std.specs.Prelude.{◌≡◌, ◌≤◌, [], ◌∷◌, ℕ, IfOk, IfSome, Ok, option_map, true, unwrap_or};
ghost use Rattle.rw_model.specs.Draft.{Draft};
ghost use Rattle.rw_series.specs.Series.{held};
ghost use Rattle.rw_dispatch.specs.Stage.{IsStageOf, Leaves, stage};
ghost use Rattle.std.specs.Option.{option_or};
ghost use Rattle.rw_base.specs.declared.number.Cell.{Cell};
ghost use Rattle.rw_run.specs.Log.{Cells, Firing, Log, fired, last_put, opened};
ghost use Rattle.rw_run.specs.Next.{first_due};
ghost use Rattle.rw_agenda.specs.Agenda.{IsIndexed, IsListed, looked_by};
ghost use Rattle.rw_dispatch.specs.Writes.{AreWrites};
ghost use Rattle.rpl_code.specs.declared.block.BlockHead.TheVariants.{Rule as RuleHead};
ghost use Rattle.rpl_verify.specs.Fits.{count_alike};
ghost use Rattle.rpl_verify.specs.Verified.{Accepted, verified};
ghost use Rattle.rw_rules.specs.Firing.{IsRuleTurn};
ghost use Rattle.rw_rules.specs.Rules.{FiredOn, IsRulesOf, WrittenOn, ShowsLooks, Told, policy_in, rules_kept};

use crate::RuleFired;
use crate::firing::fire;
use crate::most::reads;
use crate::setup::RuleSetup;
use rpl_fires::Fires;
use rpl_verify::Verified;
use rw_agenda::Agenda;
use rw_agenda::law::index_stays;
use rw_base::{NoMemory, RuleNo, StepNo};
use rw_dispatch::{Queue, make};
use rw_firing::Look;
use rw_model::Basin;
use rw_run::Write;
use rw_run::law::index;
use rw_series::Series;
use rw_writes::{Writes, mark};
use std::alloc::Global;
use std::marker::Model;

/// Holds the rules of verified code in a run, seen as the agenda, the puts of the last firing in the run's timesteps, and those of
/// them that are to be written. The machine that fires them is lent to `fire`.
#[derive(Drop)]
pub struct Rules {
    agenda: Agenda,
    writes: Writes,
}

impl Model for Rules {
    ghost use Rattle.rw_rules.specs.Rules as specs;

    ghost Value = { specs.Rules };

    ghost view = { λ rules.
        specs.rules_kept rules.agenda rules.writes };
}

// Lets a rule fire by a machine, and has the agenda keep at what it looked.
#[inline(always)]
fn fire_by<M: Fires>(
    machine: &mut M,
    agenda: &mut Agenda,
    writes: &mut Writes,
    setup: &RuleSetup<'_>,
    series: &Series,
    rule: RuleNo,
    step: StepNo,
) -> RuleFired
    requires ready { M.serves machine.old setup.now.policy.now ≡ true }
    requires turn { IsRuleTurn setup.now.basin.now setup.now.policy.now rule.0 step.0 }
    requires made { IsRulesOf setup.now.basin.now setup.now.policy.now
        (rules_kept agenda.old writes.old) }
    ensures ready { M.serves machine.new setup.now.policy.now ≡ true }
    ensures made { IsRulesOf setup.now.basin.now setup.now.policy.now
        (rules_kept agenda.new writes.new) }
    ensures told { Told setup.now.basin.now setup.now.policy.now (held series.now) rule.0 step.0
        result (rules_kept agenda.new writes.new) }
    ensures can { AreWrites setup.now.basin.now writes.new.written }
    ensures keeps { FiredOn setup.now.policy.now (held series.now) rule.0
        (rules_kept agenda.old writes.old) (rules_kept agenda.new writes.new) }
{
    index_stays();
    fire(machine, writes, setup, series, rule, step);
    let fired = machine.fired();
    agenda.fired(rule, fired.looked);
    RuleFired {
        end: fired.end,
        count: fired.count,
    }
}

impl Rules {
    /// Returns the rules of verified code for a basin. The only error is want of memory; no other call takes any.
    pub fn for_policy(alloc: Global, policy: &Verified, basin: &Basin) -> Result<Rules, NoMemory>
        requires { verified basin.now policy.now.blocks ≡ Ok policy.now }
        ensures { IfOk result (IsRulesOf basin.now policy.now) }
    {
        let reads = reads(alloc, policy, basin)?;
        let agenda = Agenda::for_rules(alloc, basin, reads.as_slice())?;
        let writes = Writes::with_room(alloc)?;
        Ok(Rules { agenda, writes })
    }

    /// Begins a timestep: no rule has fired in it.
    pub fn begin_step(&mut self)
        ensures made { (basin : Draft) (policy : Accepted)
            → IsRulesOf basin policy self.old → IsRulesOf basin policy self.new }
        ensures fresh { (policy : Accepted) (log : Log) (step : ℕ)
            → ShowsLooks policy self.new (opened step ∷ log) }
        ensures indexed { (cells : Cells) → IsIndexed self.new.agenda cells }
    {
        self.agenda.begin_step();
    }

    /// Returns the first rule that is due, in the order of the basin's agenda; `None` exactly if there is none.
    /// `docs/DEFINITIONS.md` says under "Runs" when a rule is due.
    pub fn due(&self, series: &Series) -> Option<RuleNo>
        requires indexed { IsIndexed self.now.agenda (held series.now) }
        ensures known { IfSome result (λ rule. IsListed self.now.agenda rule.0) }
        ensures due { (basin : Draft) (policy : Accepted) (log : Log)
            → IsRulesOf basin policy self.now → ShowsLooks policy self.now log
            → option_map (λ rule. rule.0) result
            ≡ first_due basin (policy_in basin policy) (held series.now) log }
    {
        self.agenda.next(series)
    }

    /// Lets a machine that is prepared for the policy fire a rule at a timestep, counted from 1. No cell is written yet.
    pub fn fire<M: Fires>(
        &mut self,
        machine: &mut M,
        setup: &RuleSetup<'_>,
        series: &Series,
        rule: RuleNo,
        step: StepNo,
    ) -> RuleFired
        requires ready { M.serves machine.old setup.now.policy.now ≡ true }
        requires turn { IsRuleTurn setup.now.basin.now setup.now.policy.now rule.0 step.0 }
        requires made { IsRulesOf setup.now.basin.now setup.now.policy.now self.old }
        ensures ready { M.serves machine.new setup.now.policy.now ≡ true }
        ensures made { IsRulesOf setup.now.basin.now setup.now.policy.now self.new }
        ensures told { Told setup.now.basin.now setup.now.policy.now (held series.now) rule.0 step.0
            result self.new }
        ensures can { AreWrites setup.now.basin.now self.new.written }
        ensures keeps { FiredOn setup.now.policy.now (held series.now) rule.0 self.old self.new }
    {
        fire_by(
            machine,
            &mut self.agenda,
            &mut self.writes,
            setup,
            series,
            rule,
            step,
        )
    }

    /// Writes the puts of the last firing, wakes the objects that they reach, and marks the rules, as the event of that firing
    /// leaves them at its timestep.
    pub fn write(&mut self, basin: &Basin, series: &mut Series, queue: &mut Queue, step: StepNo)
        requires can { AreWrites basin.now self.old.written }
        requires made { IsStageOf basin.now (stage series.old queue.old) }
        ensures made { IsStageOf basin.now (stage series.new queue.new) }
        ensures keeps { WrittenOn (held series.old) (held series.new) self.old self.new }
        ensures leaves { (firing : Firing) → firing.written ≡ self.old.written
            → firing.step ≡ step.0
            → Leaves basin.now (fired firing) (stage series.old queue.old)
            (stage series.new queue.new) }
    {
        index();
        let writes = self.writes.written();
        make(basin, series, writes);
        queue.wake_written(basin, step, writes, None);
        mark(basin, &mut self.agenda, writes);
    }

    /// Marks each rule that looked at a cell that the writes of a dispatch reach.
    pub fn touched(&mut self, basin: &Basin, writes: &[Write])
        requires { AreWrites basin.now writes.now }
        ensures { (before after : Cells) → ((cell : Cell) → after cell
            ≡ option_or (last_put basin.now writes.now cell) (before cell))
            → WrittenOn before after self.old self.new }
    {
        index();
        mark(basin, &mut self.agenda, writes);
    }

    /// Returns what a rule looked at when it last fired; nothing if it has not fired.
    pub fn looked(&self, rule: RuleNo) -> &[Look]
        requires { IsListed self.now.agenda rule.0 }
        ensures { result.now ≡ unwrap_or (looked_by self.now.agenda rule.0) [] }
    {
        self.agenda.looked(rule)
    }

    /// Returns what the last firing asks for in the run's timesteps, written or not.
    pub fn asked(&self) -> &[Write]
        ensures { result.now ≡ self.now.asked }
    {
        self.writes.asked()
    }

    /// Returns what the last firing writes.
    pub fn written(&self) -> &[Write]
        ensures { result.now ≡ self.now.written }
    {
        self.writes.written()
    }
}
