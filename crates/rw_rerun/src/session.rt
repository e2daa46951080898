//! Runs a basin from its inputs, and after each batch of edits again, as a session.
ghost use Rattle.std.specs.Prelude.{◌≡◌, ◌≤◌, map, IfErr, IfOk, is_some};
ghost use Rattle.rpl_verify.specs.Verified.{Accepted};
ghost use Rattle.rw_engine.specs.Passing.{CanRun, ComesTo};
ghost use Rattle.rw_inputs.specs.Edits.{IsBatch};
ghost use Rattle.rw_method.specs.Catalogue.{AreInOrder};
ghost use Rattle.rw_model.specs.Draft.{Draft};
ghost use Rattle.rw_rules.specs.Rules.{policy_in};
ghost use Rattle.rw_rerun.specs.Session.{Applies, CountsRuns, IsSessionOf, IsStarted};

use crate::state::State;
use rpl_fires::Fires;
use rpl_predef::Predefs;
use rpl_verify::Verified;
use rw_base::{Ledger, NoMemory, StepNo, Steps};
use rw_engine::{Run, RunSetup};
use rw_inputs::{Batch, Inputs};
use rw_method::Catalogue;
use rw_model::Basin;
use std::alloc::Global;

/// A run of some inputs, and what it goes by.
#[derive(Drop)]
pub struct Session<'a> {
    alloc: Global,
    /// What its runs go by.
    pub setup: RunSetup<'a>,
    /// How far it has come.
    pub state: State<'a>,
}

impl<'a> Session<'a> {
    /// Runs all timesteps of a basin from its inputs, up to the last one or to a fault. Each opened timestep is counted. The
    /// trace is kept where it is asked for. The one error is want of memory. `docs/DEFINITIONS.md` says under "Reuse" what
    /// is taken over later.
    pub fn start<L: Ledger, M: Fires>(
        alloc: Global,
        basin: &'a Basin,
        methods: &'a Catalogue,
        policy: &'a Verified,
        predefs: &'a Predefs,
        machine: &mut M,
        inputs: Inputs,
        traced: bool,
        steps: &mut Steps<L>,
    ) -> Result<Session<'a>, NoMemory>
        requires can { CanRun basin.now policy.now inputs }
        requires order { AreInOrder
            (map (λ b. code (b.vtable, b.value)) methods.now.methods.items) }
        ensures started { IfOk result
            (λ session. IsStarted basin.entry.now policy.entry.now inputs session.state) }
        ensures traced { IfOk result
            (λ session. is_some session.state.engine.trace ≡ traced) }
        ensures setup { IfOk result (λ session. session.setup ≡ record {
          basin = basin.entry;
          methods = methods.entry;
          policy = policy.entry;
          predefs = predefs.entry;
        }) }
        ensures counted { CountsRuns basin.entry.now steps.old steps.new result
            (λ session. session.state.reran) }
    {
        let setup = RunSetup {
            basin,
            methods,
            policy,
            predefs,
        };
        Session::start_of(alloc, machine, setup, inputs, traced, steps)
    }

    /// The same of a setup.
    pub fn start_of<L: Ledger, M: Fires>(
        alloc: Global,
        machine: &mut M,
        setup: RunSetup<'a>,
        inputs: Inputs,
        traced: bool,
        steps: &mut Steps<L>,
    ) -> Result<Session<'a>, NoMemory>
        requires can { CanRun setup.basin.now setup.policy.now inputs }
        requires order { AreInOrder
            (map (λ b. code (b.vtable, b.value)) setup.methods.now.methods.items) }
        ensures started { IfOk result (λ session. IsStarted setup.entry.basin.now
            setup.entry.policy.now inputs session.state) }
        ensures traced { IfOk result
            (λ session. is_some session.state.engine.trace ≡ traced) }
        ensures setup { IfOk result (λ session. session.setup ≡ setup.entry) }
        ensures counted { CountsRuns setup.entry.basin.now steps.old steps.new result
            (λ session. session.state.reran) }
    {
        let state = State::start(alloc, machine, &setup, inputs, traced, steps)?;
        Ok(Session {
            alloc,
            setup,
            state,
        })
    }

    /// Applies a batch of edits to its inputs, and comes to their run. A timestep of which all at which it looked is held alike is
    /// taken over; each other one is run, and counted. After want of memory the session is as before.
    pub fn apply<L: Ledger, M: Fires>(
        &mut self,
        machine: &mut M,
        batch: &Batch,
        steps: &mut Steps<L>,
    ) -> Result<(), NoMemory>
        requires made { IsSessionOf self.old.setup.basin.now
            self.old.setup.policy.now self.old.state }
        requires order { AreInOrder
            (map (λ b. code (b.vtable, b.value)) self.old.setup.methods.now.methods.items) }
        requires batch { IsBatch self.old.setup.basin.now batch.now }
        ensures applied { IfOk result (λ done. Applies self.old.setup.basin.now
            self.old.setup.policy.now batch.now self.old.state self.new.state) }
        ensures kept { (self.new.setup ≡ self.old.setup)
            × IfErr result (λ fault. self.new.state ≡ self.old.state) }
        ensures counted { CountsRuns self.old.setup.basin.now steps.old steps.new result
            (λ done. self.new.state.reran) }
    {
        self.state
            .apply(self.alloc, machine, &self.setup, batch, steps)
    }

    /// What the run of its inputs comes to. It takes no memory.
    pub fn run(&self) -> &Run
        ensures run { (basin : Draft) (policy : Accepted) → IsSessionOf basin policy self.now.state
            → ComesTo basin (policy_in basin policy) self.now.state.inputs result.now }
        ensures told { (basin : Draft) (policy : Accepted) → IsSessionOf basin policy self.now.state
            → (result.now.closed ≤ basin.control.stamps.count)
            × (result.now.trace ≡ self.now.state.engine.trace) }
    {
        self.state.run()
    }

    /// Which timesteps were run last, rising. It takes no memory.
    pub fn reran(&self) -> &[StepNo]
        ensures { result.now ≡ self.now.state.reran }
    {
        self.state.reran()
    }

    /// The timestep before which all cells hold what they held in the run before, which is 0 where there was none.
    pub fn same(&self) -> u16
        ensures { result ≡ self.now.state.same }
    {
        self.state.same()
    }
}
