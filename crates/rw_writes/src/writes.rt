//! Holds the puts of a firing, and those of them that are written.
ghost use Rattle.std.specs.Prelude.{◌≡◌, ◌≤◌, [], IfOk, length, All};
ghost use Rattle.rw_model.specs.Turn.{IsStep};
ghost use Rattle.rw_dispatch.specs.Writes.{AreWrites};
ghost use Rattle.rw_run.specs.Next.{asked_of_rule};
ghost use Rattle.rw_run.specs.Policy.{CanAsk};
ghost use Rattle.rw_series.specs.Series.{held};
ghost use Rattle.rw_writes.specs.Writes.{writes_of};

use crate::asked::ask_all;
use crate::limits::PUTS_MAX;
use crate::passed::keep_written;
use rw_base::{NoMemory, RuleNo, StepNo};
use rw_firing::RulePut;
use rw_model::Basin;
use rw_run::Write;
use rw_series::Series;
use std::alloc::Global;
use std::marker::Model;

/// The puts of a firing that are in the run's timesteps, and those of them that are written, in the order in which they were put,
/// seen as the two lists of what they ask for.
#[derive(Drop)]
pub struct Writes {
    asked: Vec<Write>,
    written: Vec<Write>,
}

impl Model for Writes {
    ghost use Rattle.std.specs.Prelude.{length};
    ghost use Rattle.rw_writes.specs.Writes as specs;

    ghost Value = { specs.Writes };

    ghost view = { λ w. record { asked = w.asked.items; written = w.written.items } };

    ghost invariant = { λ w. specs.HasPutRoom (length w.written.items) w.asked.cap w.written.cap };
}

impl Writes {
    /// Returns a list with room for the puts of any firing. The one error is want of memory; no other call takes any.
    pub fn with_room(alloc: Global) -> Result<Writes, NoMemory>
        ensures { IfOk result (λ writes. writes ≡ record { asked = []; written = [] }) }
    {
        let asked = Vec::with_capacity(alloc, PUTS_MAX)?;
        let written = Vec::with_capacity(alloc, PUTS_MAX)?;
        Ok(Writes { asked, written })
    }

    /// Finds those puts of a rule's firing at a timestep that are in the run, and those of them that are written, by what the
    /// cells hold: `docs/DEFINITIONS.md` says under "Runs", at a firing, which these are. A firing has at most `PUTS_MAX` puts.
    pub fn judge(
        &mut self,
        basin: &Basin,
        series: &Series,
        rule: RuleNo,
        step: StepNo,
        puts: &[RulePut],
    )
        requires step { IsStep basin.now step.0 }
        requires can { All (CanAsk basin.now) puts.now }
        requires few { length puts.now ≤ PUTS_MAX }
        ensures asked { self.new.asked ≡ asked_of_rule basin.now rule.0 step.0 puts.now }
        ensures written { self.new.written
            ≡ writes_of basin.now (held series.now) rule.0 step.0 puts.now }
        ensures can { AreWrites basin.now self.new.asked × AreWrites basin.now self.new.written }
    {
        ask_all(&mut self.asked, basin, rule, step, puts);
        keep_written(&mut self.written, basin, series, self.asked.as_slice());
    }

    /// Returns the puts that are in the run's timesteps, written or not.
    pub fn asked(&self) -> &[Write]
        ensures { result.now ≡ self.now.asked }
    {
        self.asked.as_slice()
    }

    /// Returns the puts that are written.
    pub fn written(&self) -> &[Write]
        ensures { result.now ≡ self.now.written }
    {
        self.written.as_slice()
    }
}
