//! Runs a basin without rules in the order of dispatches that the caller picks.
ghost use Rattle.std.specs.Prelude.{◌≡◌, ◌≤◌, ◌<◌, map, true, IfOk, IsSome, IsTrue};
ghost use Rattle.rw_model.specs.Basin.{IsBasin};
ghost use Rattle.rw_method.specs.Catalogue.{AreInOrder};
ghost use Rattle.rw_inputs.specs.Placings.{placings};
ghost use Rattle.rw_inputs.specs.Inputs.{IsInputsOf};
ghost use Rattle.rw_run.specs.Log.{Log};
ghost use Rattle.rw_run.specs.Next.{no_rules};
ghost use Rattle.rw_engine.specs.Picked.{ComesToPicked};
ghost use Rattle.rw_order.specs.AnyRun.{IsAnyRun, IsSettledLog, SettlesAs};
ghost use Rattle.rw_order.specs.Free.{order_free};

use crate::law::{any_order, inputs_are_inside};
use rpl_fires::Fires;
use rpl_predef::{
    Predef, Predefs, absolute, clamped, greatest, least, mul_div, rounded_down, sign,
};
use rpl_verify::Verified;
use rw_base::{Blank, Ledger, NoMemory, Steps};
use rw_dispatch::Pick;
use rw_engine::{RunSetup, run_by_of};
use rw_inputs::Inputs;
use rw_method::Catalogue;
use rw_model::Basin;
use rw_run::Run;
use std::alloc::Global;
use std::marker::Brand;

// The run without rules, with a count of timesteps that nobody asks for. No rule fires, but the engine takes a machine.
fn run_counted<L: Ledger, P: Pick, M: Fires>(
    alloc: Global,
    blank: Blank,
    machine: &mut M,
    basin: &Basin,
    methods: &Catalogue,
    inputs: &Inputs,
    pick: &P,
    traced: bool,
) -> Result<Run, NoMemory>
    requires name { blank.name ≡ L.name }
    requires parts { blank.parts ≡ L.parts }
    requires some { 0 < blank.parts }
    requires order { AreInOrder (map (λ b. code (b.vtable, b.value)) methods.now.methods.items) }
    requires inputs { IsInputsOf basin.now inputs.now }
    ensures run { IfOk result (ComesToPicked basin.now no_rules (P.rule pick.now) inputs.now) }
    ensures closed { IfOk result (λ run. run.closed ≤ basin.now.control.stamps.count) }
    ensures kept { IsTrue traced → IfOk result (λ run. IsSome run.trace) }
{
    let mut steps = Steps::<L>::of(blank);
    let mut functions = Vec::new(alloc);
    functions.push(Predef::of(1, least))?;
    functions.push(Predef::of(2, greatest))?;
    functions.push(Predef::of(3, absolute))?;
    functions.push(Predef::of(4, clamped))?;
    functions.push(Predef::of(5, rounded_down))?;
    functions.push(Predef::of(6, sign))?;
    functions.push(Predef::of(7, mul_div))?;
    let Ok(predefs) = Predefs::of(functions) else {
        return Err(NoMemory);
    };
    let empty = Verified::none(alloc);
    let setup = RunSetup {
        basin,
        methods,
        policy: &empty,
        predefs: &predefs,
    };
    run_by_of(alloc, machine, &setup, inputs, pick, traced, &mut steps)
}

// What a basin is, it always is.
fn is_valid(basin: &Basin)
    ensures { IsBasin basin.now }
{
    let _count = basin.object_count();
}

/// Runs all timesteps of a basin from its inputs, without rules, with a trace where one is asked for, and lets `pick` decide
/// which of the objects that wait is dispatched. Returns the run: that of the log in which each dispatch is of the object in the
/// place of the rule, one of those that wait. Where the order of dispatches is free in the basin and one order settles, this one
/// does, with the same values. The one error is want of memory. `docs/DEFINITIONS.md` has it under "Any order".
pub fn run_any<P: Pick, M: Fires>(
    alloc: Global,
    machine: &mut M,
    basin: &Basin,
    methods: &Catalogue,
    inputs: &Inputs,
    pick: &P,
    traced: bool,
) -> Result<Run, NoMemory>
    requires order { AreInOrder (map (λ b. code (b.vtable, b.value)) methods.now.methods.items) }
    requires inputs { IsInputsOf basin.now inputs.now }
    ensures run { IfOk result (ComesToPicked basin.now no_rules (P.rule pick.now) inputs.now) }
    ensures free { order_free basin.now ≡ true → (log : Log)
        → IsAnyRun basin.now (placings basin.now inputs.now) log → IsSettledLog log
        → IfOk result (SettlesAs basin.now log) }
    ensures closed { IfOk result (λ run. run.closed ≤ basin.now.control.stamps.count) }
    ensures told { IsTrue traced → IfOk result (λ run. IsSome run.trace) }
{
    any_order();
    inputs_are_inside();
    is_valid(basin);
    run_counted::<Brand, P, M>(
        alloc,
        Blank::new(1),
        machine,
        basin,
        methods,
        inputs,
        pick,
        traced,
    )
}
