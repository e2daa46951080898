//! Holds how far a session has come, and makes the run after the next batch of edits.
ghost use Rattle.std.specs.Prelude.{◌≡◌, ◌≤◌, All, length, map, IfErr, IfOk, is_some};
ghost use Rattle.rpl_verify.specs.Verified.{Accepted};
ghost use Rattle.rw_engine.specs.Passing.{CanRun, ComesTo};
ghost use Rattle.rw_inputs.specs.Edits.{IsBatch};
ghost use Rattle.rw_inputs.specs.Inputs.{IsInputsOf};
ghost use Rattle.rw_method.specs.Catalogue.{AreInOrder};
ghost use Rattle.rw_model.specs.Draft.{Draft};
ghost use Rattle.rw_rules.specs.Rules.{policy_in};
ghost use Rattle.rw_series.specs.Series.{IsCell};
ghost use Rattle.rw_rerun.specs.Kept.{changed};
ghost use Rattle.rw_rerun.specs.Next.{IsNext, PassesNext};
ghost use Rattle.rw_rerun.specs.Spare.{AreKeptFrom};
ghost use Rattle.rw_rerun.specs.Session.{Applies, CountsRuns, HoldAsBefore, IsSessionOf, IsStarted};

use crate::exchange::{exchange, exchange_for, nothing_kept};
use crate::next::{Next, pass_behind};
use crate::orders::Orders;
use crate::pass::Pass;
use crate::passing::pass_all;
use crate::spare::{Spare, found_or_fresh, spare_of};
use crate::touched::{edited, left};
use rpl_fires::Fires;
use rpl_policy::law::code_keeps_promises;
use rpl_verify::Verified;
use rpl_verify::law::answered_code_is_safe;
use rw_base::{Cell, Ledger, NoMemory, StepNo, Steps};
use rw_engine::{Engine, KeptStep, Run, RunSetup};
use rw_inputs::{Batch, Inputs, apply};
use rw_model::Basin;
use std::alloc::Global;
use std::marker::Model;
use std::mem::replace;

/// How far a session has come: its inputs, the engine of their run, what is kept of each timestep, which timesteps were run last, and
/// before which one all cells hold what they held in the run before. Beside that it has an engine from which its next run begins,
/// unless none is made yet, and the orders in which the cells of timesteps rose.
#[derive(Drop)]
pub struct State<'a> {
    pub(crate) basin: &'a Basin,
    pub(crate) policy: &'a Verified,
    pub(crate) inputs: Inputs,
    pub(crate) engine: Engine,
    pub(crate) kept: Vec<Option<KeptStep>>,
    pub(crate) reran: Vec<StepNo>,
    pub(crate) same: u16,
    pub(crate) spare: Option<Spare>,
    pub(crate) orders: Orders,
}

impl<'a> Model for State<'a> {
    ghost use Rattle.rw_rerun.specs.Session as specs;

    ghost Value = { specs.Session };

    ghost use Rattle.rw_rerun.specs.Spare.{MayBeSpare};

    ghost view = { λ s. record {
      basin = s.basin.now;
      policy = s.policy.now;
      inputs = s.inputs;
      engine = s.engine;
      kept = s.kept.items;
      reran = s.reran.items;
      same = s.same;
    } };

    ghost invariant = { λ s. MayBeSpare (record {
      basin = s.basin.now;
      policy = s.policy.now;
      inputs = s.inputs;
      engine = s.engine;
      kept = s.kept.items;
      reran = s.reran.items;
      same = s.same;
    }) s.spare };
}

impl<'a> State<'a> {
    // The run of inputs, of which no timestep is kept yet.
    pub(crate) fn start<L: Ledger, M: Fires>(
        alloc: Global,
        machine: &mut M,
        setup: &RunSetup<'a>,
        inputs: Inputs,
        traced: bool,
        steps: &mut Steps<L>,
    ) -> Result<State<'a>, NoMemory>
        requires can { CanRun setup.now.basin.now setup.now.policy.now inputs }
        requires order { AreInOrder
            (map (λ b. code (b.vtable, b.value)) setup.now.methods.now.methods.items) }
        ensures started { IfOk result (IsStarted setup.now.basin.now setup.now.policy.now inputs) }
        ensures traced { IfOk result (λ state. is_some state.engine.trace ≡ traced) }
        ensures counted { CountsRuns setup.now.basin.now steps.old steps.new result
            (λ state. state.reran) }
    {
        let mut kept = nothing_kept(alloc, setup.basin.control().stamps.count())?;
        let pass = pass_all(alloc, machine, setup, &kept, &inputs, traced, steps)?;
        let Pass {
            engine,
            reran,
            changes,
            over: _,
            orders,
        } = pass;
        exchange(&mut kept, changes);
        Ok(State {
            basin: setup.basin,
            policy: setup.policy,
            inputs,
            engine,
            kept,
            reran,
            same: 0,
            spare: None,
            orders,
        })
    }

    // Passes the timesteps of the run after a batch, which leaves so many first ones. After that there is no spare engine, and the
    // pass has the orders.
    fn pass_next<L: Ledger, M: Fires>(
        &mut self,
        alloc: Global,
        machine: &mut M,
        setup: &RunSetup<'_>,
        inputs: &Inputs,
        cells: &[Cell],
        behind: u16,
        steps: &mut Steps<L>,
    ) -> Result<Pass, NoMemory>
        requires made { IsSessionOf setup.now.basin.now setup.now.policy.now self.old }
        requires order { AreInOrder
            (map (λ b. code (b.vtable, b.value)) setup.now.methods.now.methods.items) }
        requires inputs { IsInputsOf setup.now.basin.now inputs.now }
        requires cells { All (IsCell setup.now.basin.now) cells.now }
        requires near { behind ≤ length self.old.kept }
        requires left { AreKeptFrom self.old.kept 0 behind }
        ensures passes { PassesNext setup.now.basin.now setup.now.policy.now self.old inputs.now
            cells.now behind steps.old steps.new result }
        ensures same { self.new ≡ self.old }
    {
        let found = self.spare.take();
        let traced = self.engine.run().trace.is_kept();
        let spare = found_or_fresh(
            found,
            alloc,
            setup.basin,
            setup.policy,
            &self.inputs,
            traced,
        )?;
        let orders = replace(&mut self.orders, Orders::new(alloc));
        let next = Next {
            inputs,
            cells,
            behind,
        };
        pass_behind(
            alloc, machine, setup, &self.kept, spare, orders, next, steps,
        )
    }

    // Gives way to the run after a batch. Its engine becomes the spare one, for the run after that.
    fn give_way(
        &mut self,
        setup: &RunSetup<'_>,
        inputs: Inputs,
        cells: &[Cell],
        behind: u16,
        pass: Pass,
    )
        requires { IsNext setup.now.basin.now setup.now.policy.now self.old inputs cells.now behind
            pass }
        ensures is { self.new ≡ record {
          basin = self.old.basin;
          policy = self.old.policy;
          inputs = inputs;
          engine = pass.engine;
          kept = changed self.old.kept pass.changes.items;
          reran = pass.reran.items;
          same = self.new.same;
        } }
        ensures same { HoldAsBefore self.old self.new }
    {
        answered_code_is_safe();
        code_keeps_promises();
        let Pass {
            engine,
            reran,
            changes,
            over: _,
            orders,
        } = pass;
        let was = replace(&mut self.engine, engine);
        self.spare = spare_of(was, setup.basin, &self.kept, &inputs, cells, behind);
        self.same = exchange_for(&mut self.kept, changes, cells, behind);
        self.inputs = inputs;
        self.reran = reran;
        self.orders = orders;
    }

    // The run of the inputs after a batch, by what is kept of the run before.
    pub(crate) fn apply<L: Ledger, M: Fires>(
        &mut self,
        alloc: Global,
        machine: &mut M,
        setup: &RunSetup<'_>,
        batch: &Batch,
        steps: &mut Steps<L>,
    ) -> Result<(), NoMemory>
        requires made { IsSessionOf setup.now.basin.now setup.now.policy.now self.old }
        requires order { AreInOrder
            (map (λ b. code (b.vtable, b.value)) setup.now.methods.now.methods.items) }
        requires batch { IsBatch setup.now.basin.now batch.now }
        ensures applied { IfOk result (λ done. Applies setup.now.basin.now setup.now.policy.now
            batch.now self.old self.new) }
        ensures kept { IfErr result (λ fault. self.new ≡ self.old) }
        ensures counted { CountsRuns setup.now.basin.now steps.old steps.new result
            (λ done. self.new.reran) }
    {
        let cells = edited(alloc, setup.basin, &self.inputs, batch)?;
        let inputs = apply(alloc, setup.basin, &self.inputs, batch)?;
        let behind = left(setup.basin, &self.kept, &cells);
        let pass = self.pass_next(alloc, machine, setup, &inputs, &cells, behind, steps)?;
        self.give_way(setup, inputs, &cells, behind, pass);
        Ok(())
    }

    // What the run comes to.
    pub(crate) fn run(&self) -> &Run
        ensures run { (basin : Draft) (policy : Accepted) → IsSessionOf basin policy self.now
            → ComesTo basin (policy_in basin policy) self.now.inputs result.now }
        ensures told { (basin : Draft) (policy : Accepted) → IsSessionOf basin policy self.now
            → (result.now.closed ≤ basin.control.stamps.count)
            × (result.now.trace ≡ self.now.engine.trace) }
    {
        self.engine.run()
    }

    // Which timesteps were run last.
    pub(crate) fn reran(&self) -> &[StepNo]
        ensures { result.now ≡ self.now.reran }
    {
        self.reran.as_slice()
    }

    // The timestep before which all cells hold what they held in the run before.
    pub(crate) fn same(&self) -> u16
        ensures { result ≡ self.now.same }
    {
        self.same
    }
}
