//! Runs the timesteps after those that a batch of edits leaves as they are.
ghost use Rattle.std.specs.Prelude.{◌≡◌, All, IfOk, None, length, map, replicate};
ghost use Rattle.rw_engine.specs.Passing.{CanRun};
ghost use Rattle.rw_inputs.specs.Inputs.{IsInputsOf};
ghost use Rattle.rw_method.specs.Catalogue.{AreInOrder};
ghost use Rattle.rw_series.specs.Series.{IsCell};
ghost use Rattle.rw_rerun.specs.Next.{BeginsReady, IsSpareReady, PassesBehind};
ghost use Rattle.rw_rerun.specs.Spare.{AreKeptFirst, AreKeptFrom, IsSpare, IsSpareBy};
ghost use Rattle.rw_rerun.specs.UnderWay.{CanGoBy};

use crate::orders::Orders;
use crate::pass::Pass;
use crate::passing::passed;
use crate::spare::{Spare, bring, give_all, unchanged};
use rpl_fires::Fires;
use rpl_policy::law::code_keeps_promises;
use rpl_verify::law::answered_code_is_safe;
use rw_base::{Cell, Ledger, NoMemory, Steps};
use rw_engine::{KeptStep, RunSetup};
use rw_inputs::Inputs;
use rw_model::Basin;
use std::alloc::Global;
use std::mem::drop;

// Brings it behind the timesteps that are left, gives the cells anew, and answers what that changes of what is kept: nothing.
fn make_ready(
    alloc: Global,
    spare: &mut Spare,
    basin: &Basin,
    kept: &[Option<KeptStep>],
    inputs: &Inputs,
    cells: &[Cell],
    behind: u16,
) -> Result<Vec<Option<Option<KeptStep>>>, NoMemory>
    requires many { length kept.now ≡ basin.now.control.stamps.count }
    requires stands { IsSpare basin.now kept.now spare.old }
    requires known { AreKeptFrom kept.now 0 spare.old.behind }
    requires inputs { IsInputsOf basin.now inputs.now }
    requires cells { All (IsCell basin.now) cells.now }
    requires left { AreKeptFirst kept.now behind }
    ensures ready { IfOk result (λ changes.
        IsSpareReady basin.now inputs.now cells.now kept.now behind spare.old spare.new) }
    ensures changes { IfOk result (λ changes. changes.items ≡ replicate spare.new.behind None) }
{
    bring(spare, basin, kept, behind)?;
    give_all(&mut spare.engine, basin, inputs, cells);
    let changes = unchanged(alloc, spare.behind, kept.len())?;
    Ok(changes)
}

// A run on its way that has taken over the timesteps that are left.
fn pass_from(
    alloc: Global,
    mut spare: Spare,
    orders: Orders,
    basin: &Basin,
    kept: &[Option<KeptStep>],
    inputs: &Inputs,
    cells: &[Cell],
    behind: u16,
) -> Result<Pass, NoMemory>
    requires many { length kept.now ≡ basin.now.control.stamps.count }
    requires stands { IsSpare basin.now kept.now spare }
    requires known { AreKeptFrom kept.now 0 spare.behind }
    requires inputs { IsInputsOf basin.now inputs.now }
    requires cells { All (IsCell basin.now) cells.now }
    requires left { AreKeptFirst kept.now behind }
    ensures { IfOk result (BeginsReady basin.now inputs.now cells.now kept.now behind spare) }
{
    match make_ready(alloc, &mut spare, basin, kept, inputs, cells, behind) {
        Ok(changes) => Ok(Pass {
            engine: spare.engine,
            reran: Vec::new(alloc),
            changes,
            over: false,
            orders,
        }),
        Err(NoMemory) => {
            drop(spare);
            drop(orders);
            Err(NoMemory)
        }
    }
}

/// The run after a batch: its inputs, the cells that the batch changes, and how many timesteps it leaves.
#[derive(Clone, Copy)]
pub(crate) struct Next<'a> {
    pub(crate) inputs: &'a Inputs,
    pub(crate) cells: &'a [Cell],
    pub(crate) behind: u16,
}

/// Passes all timesteps by the spare engine of the run before: it is brought behind those that are left, the cells are given
/// anew, and the others are passed one by one.
pub(crate) fn pass_behind<L: Ledger, M: Fires>(
    alloc: Global,
    machine: &mut M,
    setup: &RunSetup<'_>,
    kept: &[Option<KeptStep>],
    spare: Spare,
    orders: Orders,
    next: Next<'_>,
    steps: &mut Steps<L>,
) -> Result<Pass, NoMemory>
    requires can { CanRun setup.now.basin.now setup.now.policy.now next.inputs.now }
    requires order { AreInOrder
        (map (λ b. code (b.vtable, b.value)) setup.now.methods.now.methods.items) }
    requires kept { CanGoBy setup.now.basin.now kept.now }
    requires stands { IsSpareBy setup.now.basin.now setup.now.policy.now kept.now spare }
    requires known { AreKeptFrom kept.now 0 spare.behind }
    requires cells { All (IsCell setup.now.basin.now) next.cells.now }
    requires left { AreKeptFirst kept.now next.behind }
    ensures { PassesBehind setup.now.basin.now setup.now.policy.now next.entry.inputs.now
        next.entry.cells.now kept.now next.entry.behind spare steps.old steps.new result }
{
    answered_code_is_safe();
    code_keeps_promises();
    let pass = pass_from(
        alloc,
        spare,
        orders,
        setup.basin,
        kept,
        next.inputs,
        next.cells,
        next.behind,
    )?;
    passed(alloc, pass, machine, setup, kept, next.behind, steps)
}
