//! Runs a basin from its inputs, and after each batch of edits again, by a machine of the session's own.
ghost use Rattle.std.specs.Prelude.{◌≡◌, map, IfErr, IfOk, is_some};
ghost use Rattle.rw_engine.specs.Passing.{CanRun};
ghost use Rattle.rw_inputs.specs.Edits.{IsBatch};
ghost use Rattle.rw_method.specs.Catalogue.{AreInOrder};
ghost use Rattle.rw_rerun.specs.Session.{Applies, CountsRuns, IsSessionOf, IsStarted};

use rpl_machine::Machine;
use rpl_predef::Predefs;
use rpl_verify::Verified;
use rw_base::{Ledger, NoMemory, Steps};
use rw_inputs::{Batch, Inputs};
use rw_method::Catalogue;
use rw_model::Basin;
use std::alloc::Global;

/// A session of `rw_rerun`, and the machine that fires its rules.
#[derive(Drop)]
pub struct Session<'a> {
    /// The run of its inputs. Its `run` and `reran` lend what it has come to.
    pub session: rw_rerun::Session<'a>,
    machine: Machine,
}

impl<'a> Session<'a> {
    /// Runs all timesteps of a basin from its inputs, up to the last one or to a fault. Each opened timestep is counted. The
    /// trace is kept if it is asked for. The only error is want of memory. `docs/DEFINITIONS.md` says under "Reuse" what is
    /// reused later.
    pub fn start<L: Ledger>(
        alloc: Global,
        basin: &'a Basin,
        methods: &'a Catalogue,
        policy: &'a Verified,
        predefs: &'a Predefs,
        inputs: Inputs,
        traced: bool,
        steps: &mut Steps<L>,
    ) -> Result<Session<'a>, NoMemory>
        requires can { CanRun basin.now policy.now inputs }
        requires order { AreInOrder
            (map (λ b. code (b.vtable, b.value)) methods.now.methods.items) }
        ensures started { IfOk result (λ made. IsStarted basin.entry.now policy.entry.now inputs
            made.session.state) }
        ensures traced { IfOk result
            (λ made. is_some made.session.state.engine.trace ≡ traced) }
        ensures setup { IfOk result (λ made. made.session.setup ≡ record {
          basin = basin.entry;
          methods = methods.entry;
          policy = policy.entry;
          predefs = predefs.entry;
        }) }
        ensures counted { CountsRuns basin.entry.now steps.old steps.new result
            (λ made. made.session.state.reran) }
    {
        let mut machine = Machine::new(alloc);
        let session = rw_rerun::Session::start(
            alloc,
            basin,
            methods,
            policy,
            predefs,
            &mut machine,
            inputs,
            traced,
            steps,
        )?;
        Ok(Session { session, machine })
    }

    /// Applies a batch of edits to its inputs, and runs it from them. A timestep is reused if all that it looked at is held
    /// alike; each other one is run, and counted. After want of memory the session is as before.
    pub fn apply<L: Ledger>(&mut self, batch: &Batch, steps: &mut Steps<L>) -> Result<(), NoMemory>
        requires made { IsSessionOf self.old.session.setup.basin.now
            self.old.session.setup.policy.now self.old.session.state }
        requires order { AreInOrder
            (map (λ b. code (b.vtable, b.value)) self.old.session.setup.methods.now.methods.items) }
        requires batch { IsBatch self.old.session.setup.basin.now batch.now }
        ensures applied { IfOk result (λ done. Applies self.old.session.setup.basin.now
            self.old.session.setup.policy.now batch.now self.old.session.state
            self.new.session.state) }
        ensures kept { (self.new.session.setup ≡ self.old.session.setup)
            × IfErr result (λ fault. self.new.session.state ≡ self.old.session.state) }
        ensures counted { CountsRuns self.old.session.setup.basin.now steps.old steps.new result
            (λ done. self.new.session.state.reran) }
    {
        self.session.apply(&mut self.machine, batch, steps)
    }
}
