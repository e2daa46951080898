//! Passes the timesteps of a run: each is reused from an earlier run, or run.
ghost use Rattle.std.specs.Prelude.{◌≡◌, ◌≤◌, ℕ, ⊤, map, IfSome, false, true, Ok, Some};
ghost use Rattle.rpl_verify.specs.Verified.{verified};
ghost use Rattle.rw_engine.specs.Passing.{CanRun};
ghost use Rattle.rw_method.specs.Catalogue.{AreInOrder};
ghost use Rattle.rw_model.specs.Turn.{IsStep};
ghost use Rattle.rw_record.specs.Noted.{AreHeld};
ghost use Rattle.rw_series.specs.Series.{held};
ghost use Rattle.rw_rerun.specs.UnderWay.{CanGoBy, IsReplayable, GoesOn, HandsOn, IsPassOf, IsUnlike, PassesAll, PassesRest};

use crate::orders::Orders;
use crate::pass::Pass;
use rpl_fires::Fires;
use rpl_policy::law::code_keeps_promises;
use rpl_verify::law::answered_code_is_safe;
use rw_base::{Ledger, NoMemory, StepNo, Steps};
use rw_engine::{Engine, KeptStep, RunSetup, StepEnd};
use rw_inputs::Inputs;
use rw_record::law::how_many;
use std::alloc::Global;
use std::mem::drop;

// No timestep is opened behind a fault, and none is kept.
fn skip(pass: &mut Pass, _setup: &RunSetup<'_>, _step: StepNo) -> Result<(), NoMemory>
    requires made { IsPassOf _setup.now.basin.now _setup.now.policy.now pass.old }
    requires ended { pass.old.over ≡ true }
    ensures { (steps : ℕ) → GoesOn _setup.now.basin.now _setup.now.policy.now _step.0
        (λ entry. ⊤) pass.old pass.new steps steps result }
{
    pass.changes.push(Some(None))?;
    Ok(())
}

// Takes a timestep over as its record has it.
fn take_over(
    pass: &mut Pass,
    setup: &RunSetup<'_>,
    kept: &KeptStep,
    step: StepNo,
) -> Result<(), NoMemory>
    requires made { IsPassOf setup.now.basin.now setup.now.policy.now pass.old }
    requires step { IsStep setup.now.basin.now step.0 }
    requires can { IsReplayable setup.now.basin.now step.0 kept.now }
    requires alike { AreHeld (held pass.old.engine.series) kept.now.looked }
    requires goes { pass.old.over ≡ false }
    ensures { (steps : ℕ) → GoesOn setup.now.basin.now setup.now.policy.now step.0
        (λ entry. entry ≡ Some kept.now) pass.old pass.new steps steps result }
{
    pass.changes.push(None)?;
    pass.engine.replay_kept(setup.basin, kept)?;
    Ok(())
}

// Runs a timestep, and keeps it anew. Most have as many cells as they had in the run before, and these rise as others so many did.
fn run_anew<L: Ledger, M: Fires>(
    alloc: Global,
    pass: &mut Pass,
    machine: &mut M,
    setup: &RunSetup<'_>,
    entry: &Option<KeptStep>,
    step: StepNo,
    steps: &mut Steps<L>,
) -> Result<(), NoMemory>
    requires order { AreInOrder
        (map (λ b. code (b.vtable, b.value)) setup.now.methods.now.methods.items) }
    requires made { IsPassOf setup.now.basin.now setup.now.policy.now pass.old }
    requires step { IsStep setup.now.basin.now step.0 }
    requires goes { pass.old.over ≡ false }
    ensures { GoesOn setup.now.basin.now setup.now.policy.now step.0 (IsUnlike pass.old)
        pass.old pass.new steps.old steps.new result }
{
    how_many();
    let end = pass.engine.run_step_of(machine, setup, step, steps)?;
    pass.reran.push(step)?;
    match end {
        StepEnd::Closed => {
            pass.orders.choose(alloc, entry)?;
            let kept = pass.engine.last_kept(alloc, &mut pass.orders.last)?;
            pass.changes.push(Some(kept))?;
            Ok(())
        }
        StepEnd::Fault(_) => {
            pass.over = true;
            pass.changes.push(Some(None))?;
            Ok(())
        }
    }
}

// Takes the timestep over where it is kept and all at which it looked is held alike, and runs it otherwise.
fn pass_step<L: Ledger, M: Fires>(
    alloc: Global,
    pass: &mut Pass,
    machine: &mut M,
    setup: &RunSetup<'_>,
    entry: &Option<KeptStep>,
    step: StepNo,
    steps: &mut Steps<L>,
) -> Result<(), NoMemory>
    requires order { AreInOrder
        (map (λ b. code (b.vtable, b.value)) setup.now.methods.now.methods.items) }
    requires made { IsPassOf setup.now.basin.now setup.now.policy.now pass.old }
    requires step { IsStep setup.now.basin.now step.0 }
    requires can { IfSome entry.now (IsReplayable setup.now.basin.now step.0) }
    ensures { GoesOn setup.now.basin.now setup.now.policy.now step.0 (λ kept. kept ≡ entry.now)
        pass.old pass.new steps.old steps.new result }
{
    if pass.over {
        return skip(pass, setup, step);
    }
    match entry {
        None => run_anew(alloc, pass, machine, setup, entry, step, steps),
        Some(kept) => {
            if pass.engine.is_kept_alike(kept) {
                return take_over(pass, setup, kept, step);
            }
            run_anew(alloc, pass, machine, setup, entry, step, steps)
        }
    }
}

// Passes the other timesteps, from behind so many, with what is kept of an earlier run to go by.
fn pass_rest<L: Ledger, M: Fires>(
    alloc: Global,
    pass: &mut Pass,
    machine: &mut M,
    setup: &RunSetup<'_>,
    kept: &[Option<KeptStep>],
    behind: u16,
    steps: &mut Steps<L>,
) -> Result<(), NoMemory>
    requires fits { verified setup.now.basin.now setup.now.policy.now.blocks
        ≡ Ok setup.now.policy.now }
    requires order { AreInOrder
        (map (λ b. code (b.vtable, b.value)) setup.now.methods.now.methods.items) }
    requires made { IsPassOf setup.now.basin.now setup.now.policy.now pass.old }
    requires kept { CanGoBy setup.now.basin.now kept.now }
    requires some { behind ≤ setup.now.basin.now.control.stamps.count }
    ensures { PassesRest setup.now.basin.now setup.now.policy.now kept.now behind
        pass.old pass.new steps.old steps.new result }
{
    answered_code_is_safe();
    code_keeps_promises();
    for before in behind..setup.basin.control().stamps.count() {
        let entry = &kept[usize::from(before)];
        pass_step(
            alloc,
            pass,
            machine,
            setup,
            entry,
            StepNo(before + 1),
            steps,
        )?;
    }
    Ok(())
}

/// The same of a run on its way that is handed on, where memory is there for it.
pub(crate) fn passed<L: Ledger, M: Fires>(
    alloc: Global,
    mut pass: Pass,
    machine: &mut M,
    setup: &RunSetup<'_>,
    kept: &[Option<KeptStep>],
    behind: u16,
    steps: &mut Steps<L>,
) -> Result<Pass, NoMemory>
    requires fits { verified setup.now.basin.now setup.now.policy.now.blocks
        ≡ Ok setup.now.policy.now }
    requires order { AreInOrder
        (map (λ b. code (b.vtable, b.value)) setup.now.methods.now.methods.items) }
    requires made { IsPassOf setup.now.basin.now setup.now.policy.now pass }
    requires kept { CanGoBy setup.now.basin.now kept.now }
    requires some { behind ≤ setup.now.basin.now.control.stamps.count }
    ensures { HandsOn setup.now.basin.now setup.now.policy.now kept.now behind pass
        steps.old steps.new result }
{
    match pass_rest(alloc, &mut pass, machine, setup, kept, behind, steps) {
        Ok(()) => Ok(pass),
        Err(NoMemory) => {
            drop(pass);
            Err(NoMemory)
        }
    }
}

/// Passes all timesteps from inputs, with what is kept of an earlier run to go by.
pub(crate) fn pass_all<L: Ledger, M: Fires>(
    alloc: Global,
    machine: &mut M,
    setup: &RunSetup<'_>,
    kept: &[Option<KeptStep>],
    inputs: &Inputs,
    traced: bool,
    steps: &mut Steps<L>,
) -> Result<Pass, NoMemory>
    requires can { CanRun setup.now.basin.now setup.now.policy.now inputs.now }
    requires order { AreInOrder
        (map (λ b. code (b.vtable, b.value)) setup.now.methods.now.methods.items) }
    requires kept { CanGoBy setup.now.basin.now kept.now }
    ensures { PassesAll setup.now.basin.now setup.now.policy.now inputs.now traced kept.now
        steps.old steps.new result }
{
    let engine = Engine::for_reuse(alloc, setup.basin, setup.policy, inputs, traced)?;
    let pass = Pass {
        engine,
        reran: Vec::new(alloc),
        changes: Vec::new(alloc),
        over: false,
        orders: Orders::new(alloc),
    };
    passed(alloc, pass, machine, setup, kept, 0, steps)
}
