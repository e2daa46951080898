//! Keeps an engine beside that of a session's run, from which the next run begins.
ghost use Rattle.std.specs.Prelude.{◌≡◌, ◌≤◌, ◌+◌, ◌-◌, All, IfOk, IfSome, None, is_some, length, replicate, true};
ghost use Rattle.rw_inputs.specs.Inputs.{IsInputsOf};
ghost use Rattle.rw_series.specs.Series.{IsCell};
ghost use Rattle.rw_engine.specs.Passing.{CanRun};
ghost use Rattle.rw_engine.specs.Shows.{CanReplay};
ghost use Rattle.rw_model.specs.Turn.{IsStep};
ghost use Rattle.rw_rerun.specs.Edited.{BecomesSpare};
ghost use Rattle.rw_rerun.specs.Session.{IsSessionOf, Session};
ghost use Rattle.rw_rerun.specs.Spare.{AreKeptFrom, BringsTo, GivesAll, IsSpare, IsSpareIn};

use rpl_policy::law::code_keeps_promises;
use rpl_verify::Verified;
use rpl_verify::law::answered_code_is_safe;
use rw_base::{Cell, NoMemory};
use rw_engine::{Engine, KeptStep};
use rw_inputs::Inputs;
use rw_model::Basin;
use std::alloc::Global;
use std::mem::drop;

/// An engine that has come behind the first timesteps of a session's run, so many of them.
#[derive(Drop)]
pub(crate) struct Spare {
    pub(crate) engine: Engine,
    pub(crate) behind: u16,
}

/// An engine of these inputs that stands before all timesteps, and keeps a trace where one is asked for.
pub(crate) fn fresh(
    alloc: Global,
    basin: &Basin,
    policy: &Verified,
    inputs: &Inputs,
    traced: bool,
) -> Result<Spare, NoMemory>
    requires can { CanRun basin.now policy.now inputs.now }
    ensures { (session : Session) (is : IsSessionOf basin.now policy.now session)
        → session.inputs ≡ inputs.now → is_some session.engine.trace ≡ traced
        → IfOk result (IsSpareIn basin.now policy.now session is.log) }
{
    let engine = Engine::for_reuse(alloc, basin, policy, inputs, traced)?;
    Ok(Spare { engine, behind: 0 })
}

/// The spare engine of a session's run, which is a fresh one where there is none yet.
pub(crate) fn found_or_fresh(
    found: Option<Spare>,
    alloc: Global,
    basin: &Basin,
    policy: &Verified,
    inputs: &Inputs,
    traced: bool,
) -> Result<Spare, NoMemory>
    requires can { CanRun basin.now policy.now inputs.now }
    ensures { (session : Session) (is : IsSessionOf basin.now policy.now session)
        → session.inputs ≡ inputs.now → is_some session.engine.trace ≡ traced
        → IfSome found (IsSpareIn basin.now policy.now session is.log)
        → IfOk result (IsSpareIn basin.now policy.now session is.log) }
{
    match found {
        Some(spare) => Ok(spare),
        None => fresh(alloc, basin, policy, inputs, traced),
    }
}

// Takes the timestep back behind which it stands.
fn go_back(spare: &mut Spare, basin: &Basin, kept: &[Option<KeptStep>])
    requires some { 1 ≤ spare.old.behind }
    requires stands { IsSpare basin.now kept.now spare.old }
    requires known { AreKeptFrom kept.now (spare.old.behind - 1) spare.old.behind }
    ensures { BringsTo basin.now kept.now (spare.old.behind - 1) spare.old spare.new }
{
    spare.behind = spare.behind - 1;
    if let Some(record) = &kept[usize::from(spare.behind)] {
        spare.engine.take_back_kept(basin, record);
    }
}

// Passes the timestep again before which it stands.
fn go_on(
    spare: &mut Spare,
    basin: &Basin,
    kept: &[Option<KeptStep>],
    step: u16,
) -> Result<(), NoMemory>
    requires next_one { step ≡ spare.old.behind + 1 }
    requires exists { IsStep basin.now step }
    requires near { step ≤ length kept.now }
    requires stands { IsSpare basin.now kept.now spare.old }
    requires known { AreKeptFrom kept.now spare.old.behind step }
    ensures { IfOk result (λ done. BringsTo basin.now kept.now step spare.old spare.new) }
{
    answered_code_is_safe();
    code_keeps_promises();
    let Some(record) = &kept[usize::from(spare.behind)] else {
        return Ok(());
    };
    spare.engine.replay_kept(basin, record)?;
    spare.behind = step;
    Ok(())
}

/// Brings it back before all timesteps but so many.
pub(crate) fn bring_back(spare: &mut Spare, basin: &Basin, kept: &[Option<KeptStep>], behind: u16)
    requires some { behind ≤ spare.old.behind }
    requires stands { IsSpare basin.now kept.now spare.old }
    requires known { AreKeptFrom kept.now behind spare.old.behind }
    ensures { BringsTo basin.now kept.now behind spare.old spare.new }
{
    while behind < spare.behind {
        go_back(spare, basin, kept);
    }
}

/// Brings it behind so many timesteps.
pub(crate) fn bring_on(
    spare: &mut Spare,
    basin: &Basin,
    kept: &[Option<KeptStep>],
    behind: u16,
) -> Result<(), NoMemory>
    requires some { spare.old.behind ≤ behind }
    requires many { length kept.now ≡ basin.now.control.stamps.count }
    requires near { behind ≤ length kept.now }
    requires stands { IsSpare basin.now kept.now spare.old }
    requires known { AreKeptFrom kept.now spare.old.behind behind }
    ensures { IfOk result (λ done. BringsTo basin.now kept.now behind spare.old spare.new) }
{
    while spare.behind < behind {
        let step = spare.behind + 1;
        go_on(spare, basin, kept, step)?;
    }
    Ok(())
}

/// Brings it, back or on, behind so many timesteps.
pub(crate) fn bring(
    spare: &mut Spare,
    basin: &Basin,
    kept: &[Option<KeptStep>],
    behind: u16,
) -> Result<(), NoMemory>
    requires many { length kept.now ≡ basin.now.control.stamps.count }
    requires near { behind ≤ length kept.now }
    requires stands { IsSpare basin.now kept.now spare.old }
    requires known { AreKeptFrom kept.now 0 spare.old.behind }
    requires left { AreKeptFrom kept.now 0 behind }
    ensures { IfOk result (λ done. BringsTo basin.now kept.now behind spare.old spare.new) }
{
    if behind < spare.behind {
        bring_back(spare, basin, kept, behind);
        return Ok(());
    }
    bring_on(spare, basin, kept, behind)
}

/// Gives these cells what the inputs give them.
pub(crate) fn give_all(engine: &mut Engine, basin: &Basin, inputs: &Inputs, cells: &[Cell])
    requires made { CanReplay basin.now engine.old }
    requires inputs { IsInputsOf basin.now inputs.now }
    requires known { All (IsCell basin.now) cells.now }
    ensures { GivesAll basin.now inputs.now cells.now engine.old engine.new }
{
    for cell in cells {
        engine.give(basin, *cell, inputs.value(*cell));
    }
}

// Whether each timestep from this one on is kept.
fn are_kept(kept: &[Option<KeptStep>], behind: u16) -> bool
    ensures { (result ≡ true) → AreKeptFrom kept.now behind (length kept.now) }
{
    for place in usize::from(behind)..kept.len() {
        if kept[place].is_none() {
            return false;
        }
    }
    true
}

// Whether at least half of the timesteps are left, and each of the others is kept.
fn can_come_back(kept: &[Option<KeptStep>], behind: u16) -> bool
    ensures { (result ≡ true) → AreKeptFrom kept.now behind (length kept.now) }
{
    kept.len() <= usize::from(behind) * 2 && are_kept(kept, behind)
}

// The engine of a run, taken back behind the timesteps that are left, and given the cells anew.
fn come_back(
    engine: Engine,
    basin: &Basin,
    kept: &[Option<KeptStep>],
    inputs: &Inputs,
    cells: &[Cell],
    behind: u16,
) -> Spare
    requires many { length kept.now ≡ basin.now.control.stamps.count }
    requires some { behind ≤ basin.now.control.stamps.count }
    requires stands { IsSpare basin.now kept.now (record {
      engine = engine;
      behind = basin.now.control.stamps.count;
    }) }
    requires inputs { IsInputsOf basin.now inputs.now }
    requires known { All (IsCell basin.now) cells.now }
    requires others { AreKeptFrom kept.now behind (length kept.now) }
    ensures { BecomesSpare basin.now inputs.now cells.now kept.now behind engine result }
{
    answered_code_is_safe();
    code_keeps_promises();
    let mut spare = Spare {
        engine,
        behind: basin.control().stamps.count(),
    };
    bring_back(&mut spare, basin, kept, behind);
    give_all(&mut spare.engine, basin, inputs, cells);
    spare
}

/// The engine of a run, behind all timesteps, as a spare one of the next run, behind those that a batch leaves. There is none where
/// less than half of them are left, since bringing it back would cost more than it gives, nor where one of the others isn't kept.
pub(crate) fn spare_of(
    engine: Engine,
    basin: &Basin,
    kept: &[Option<KeptStep>],
    inputs: &Inputs,
    cells: &[Cell],
    behind: u16,
) -> Option<Spare>
    requires many { length kept.now ≡ basin.now.control.stamps.count }
    requires some { behind ≤ basin.now.control.stamps.count }
    requires stands { IsSpare basin.now kept.now (record {
      engine = engine;
      behind = basin.now.control.stamps.count;
    }) }
    requires inputs { IsInputsOf basin.now inputs.now }
    requires known { All (IsCell basin.now) cells.now }
    ensures { IfSome result
        (BecomesSpare basin.now inputs.now cells.now kept.now behind engine) }
{
    if can_come_back(kept, behind) {
        Some(come_back(engine, basin, kept, inputs, cells, behind))
    } else {
        drop(engine);
        None
    }
}

/// So many timesteps change nothing of what is kept. The list has room for so many changes in all, so that it need not grow.
pub(crate) fn unchanged(
    alloc: Global,
    behind: u16,
    room: usize,
) -> Result<Vec<Option<Option<KeptStep>>>, NoMemory>
    ensures { IfOk result (λ changes. changes.items ≡ replicate behind None) }
{
    let mut changes = Vec::with_capacity(alloc, room)?;
    for _step in 0..behind {
        changes.push(None)?;
    }
    Ok(changes)
}
