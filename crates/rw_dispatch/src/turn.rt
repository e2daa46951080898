//! Dispatches an object: its method solves what it can, and its puts are judged and written.
ghost use Rattle.std.specs.Prelude.{◌≡◌, [], IsTrue, List, Some, map, option_map};
ghost use Rattle.rw_model.specs.Kind.{IsKind};
ghost use Rattle.rw_model.specs.Objects.{object_at};
ghost use Rattle.rw_method.specs.View.{IsViewOf};
ghost use Rattle.rw_method.specs.Catalogue.{AreInOrder};
ghost use Rattle.rw_run.specs.Log.{Cells};
ghost use Rattle.rw_dispatch.specs.Judged.{HasJudged};
ghost use Rattle.rw_firing.specs.declared.look.Look.{Look};
ghost use Rattle.rw_series.specs.Series.{held};
ghost use Rattle.rw_run.specs.Dispatch.{answered, asked_for, dispatched, looks_of, put_by, view_of};
ghost use Rattle.rw_dispatch.specs.Answer.{Ends, HasEnded, Tells, answer_of, asked_by_solution};
ghost use Rattle.rw_dispatch.specs.Putting.{ArePuts, puts_made};
ghost use Rattle.rw_dispatch.specs.Writes.{AreWrites};
ghost use Rattle.rw_dispatch.specs.Stage.{IsHeldIn, IsStageOf, Leaves, stage};
ghost use Rattle.rw_model.specs.Turn.{IsTurn};

use crate::dispatch_end::DispatchEnd;
use crate::dispatched::Dispatched;
use crate::judged::{judge, puts_made};
use crate::past::past_value;
use crate::queue::Queue;
use crate::view::{blank_view, has_late, see_slots, slot_or_none};
use crate::workspace::Workspace;
use crate::write_list::WriteList;
use crate::written::{asked_by, make};
use rw_base::{ObjectNo, StepNo};
use rw_method::{Catalogue, PutList, Solved, View};
use rw_model::{Basin, Kind};
use rw_series::Series;

// Fills the view in anew with what an object sees, and answers its kind. Its method is asked where the answer is used: each
// function that hands on a `Solved` copies it.
#[inline(always)]
fn see<'a>(
    view: &mut View,
    basin: &'a Basin,
    series: &Series,
    object: ObjectNo,
    step: StepNo,
) -> &'a Kind
    requires turn { IsTurn basin.now object.0 step.0 }
    requires made { IsHeldIn basin.now series.now }
    ensures seen { view.new ≡ view_of basin.now (held series.now) object.0 step.0 }
    ensures kind { option_map (λ found. found.kind) (object_at basin.now.objects object.0)
        ≡ Some result.now }
    ensures sound { IsKind result.now }
    ensures view { IsViewOf result.now view.new }
{
    let _objects = basin.object_count();
    // What is read of the kind is read before the view is written to.
    let kind = basin.kind(object);
    let late = has_late(kind);
    view.past = past_value(basin, series, object, step);
    view.own = object;
    see_slots(
        &mut view.now,
        &mut view.bounds,
        basin,
        series,
        object,
        step,
        late,
    );
    kind
}

// What becomes of the puts that an object asks for.
#[inline(always)]
#[tactic(auto, using(crate::proofs::Judgement::ended_clash))]
fn put_all(
    view: &View,
    basin: &Basin,
    object: ObjectNo,
    step: StepNo,
    asked: &PutList,
    writes: &mut WriteList,
    end: &mut DispatchEnd,
)
    requires turn { IsTurn basin.now object.0 step.0 }
    requires puts { ArePuts basin.now object.0 asked.now }
    requires none { writes.old ≡ [] }
    ensures answer { (cells : Cells) (looked : List Look)
        → view.entry.now ≡ view_of basin.now cells object.0 step.0
        → HasEnded basin.now cells looked object.0 step.0
        (put_by basin.now cells looked object.0 step.0 asked.now) asked.now end.new writes.new }
    ensures can { AreWrites basin.now writes.new }
{
    match judge(view, basin, object, step, asked, writes) {
        Ok(()) => *end = DispatchEnd::Solved,
        Err(clash) => {
            writes.clear();
            *end = DispatchEnd::Conflict {
                slot: clash.slot,
                held: clash.held,
                solved: clash.solved,
            };
        }
    }
}

// What becomes of what a method answers, with what is to be written. How it ended is written where it stands, arm by arm.
#[inline(always)]
fn answer(
    view: &View,
    basin: &Basin,
    object: ObjectNo,
    step: StepNo,
    solved: &Solved,
    writes: &mut WriteList,
    end: &mut DispatchEnd,
)
    requires turn { IsTurn basin.now object.0 step.0 }
    requires puts { ArePuts basin.now object.0 (asked_by_solution solved.now) }
    ensures answer { (cells : Cells) (looked : List Look)
        → view.entry.now ≡ view_of basin.now cells object.0 step.0
        → HasEnded basin.now cells looked object.0 step.0
        (answered basin.now cells looked object.0 step.0 solved.now)
        (asked_by_solution solved.now) end.new writes.new }
    ensures can { AreWrites basin.now writes.new }
{
    writes.clear();
    match solved {
        Solved::Idle => *end = DispatchEnd::Idle,
        Solved::Puts(asked) => put_all(view, basin, object, step, asked, writes, end),
        Solved::Conflict {
            place,
            held,
            solved,
        } => {
            *end = DispatchEnd::Conflict {
                slot: slot_or_none(basin, object, *place),
                held: *held,
                solved: *solved,
            };
        }
        Solved::OutOfRange { place, value } => {
            *end = DispatchEnd::OutOfRange {
                slot: slot_or_none(basin, object, *place),
                value: *value,
            };
        }
    }
}

// Keeps what puts ask for, one after another.
fn ask_all(kept: &mut WriteList, basin: &Basin, object: ObjectNo, step: StepNo, puts: &PutList)
    requires turn { IsTurn basin.now object.0 step.0 }
    requires puts { ArePuts basin.now object.0 puts.now }
    ensures { kept.new ≡ asked_for basin.now object.0 step.0 puts.now }
{
    kept.clear();
    let row = basin.row(object);
    for put in puts.as_slice() {
        kept.push(asked_by(row, object, step, put));
    }
}

// Keeps what is asked for by what a method answers.
#[inline(never)]
fn ask(kept: &mut WriteList, basin: &Basin, object: ObjectNo, step: StepNo, solved: &Solved)
    requires turn { IsTurn basin.now object.0 step.0 }
    requires puts { ArePuts basin.now object.0 (asked_by_solution solved.now) }
    ensures { kept.new ≡ asked_for basin.now object.0 step.0 (asked_by_solution solved.now) }
{
    match solved {
        Solved::Puts(puts) => ask_all(kept, basin, object, step, puts),
        _ => kept.clear(),
    }
}

// Keeps it where that is wanted.
#[inline(always)]
fn keep_asked(
    keeps: bool,
    kept: &mut WriteList,
    basin: &Basin,
    object: ObjectNo,
    step: StepNo,
    solved: &Solved,
)
    requires turn { IsTurn basin.now object.0 step.0 }
    requires puts { ArePuts basin.now object.0 (asked_by_solution solved.now) }
    ensures { IsTrue keeps
        → kept.new ≡ asked_for basin.now object.0 step.0 (asked_by_solution solved.now) }
{
    if keeps {
        ask(kept, basin, object, step, solved);
    }
}

// The puts that a method asks for.
fn asked_in(solved: Solved) -> PutList
    ensures { result ≡ asked_by_solution solved }
{
    match solved {
        Solved::Puts(asked) => asked,
        _ => PutList::none(),
    }
}

// Those of the puts that a method asks for that are written, where none is denied.
fn made_of(view: &View, basin: &Basin, object: ObjectNo, step: StepNo, solved: &Solved) -> PutList
    requires turn { IsTurn basin.now object.0 step.0 }
    requires puts { ArePuts basin.now object.0 (asked_by_solution solved.now) }
    ensures { (cells : Cells)
        → view.entry.now ≡ view_of basin.now cells object.0 step.0
        → result ≡ puts_made basin.now cells object.0 step.0 (asked_by_solution solved.now) }
{
    match solved {
        Solved::Puts(asked) => puts_made(view, basin, object, step, asked),
        _ => PutList::none(),
    }
}

// The answer of a dispatch that ended so.
fn answer_of(end: DispatchEnd, solved: Solved, written: PutList) -> Dispatched
    ensures { result ≡ answer_of end (asked_by_solution solved) written }
{
    match end {
        DispatchEnd::Idle => Dispatched::Idle,
        DispatchEnd::Solved => Dispatched::Solved {
            asked: asked_in(solved),
            written,
        },
        DispatchEnd::Conflict { slot, held, solved } => Dispatched::Conflict { slot, held, solved },
        DispatchEnd::OutOfRange { slot, value } => Dispatched::OutOfRange { slot, value },
    }
}

/// Dispatches an object at a timestep, and writes nothing yet: its method solves what it can from what its slots hold. What it
/// asks for is judged by the put rules, all by what the cells hold before. If one put is denied, that is a conflict; otherwise
/// those that are not there already are to be written. Afterwards the workspace has these, whatever it had before, and how the
/// dispatch ended, and, if it keeps that, all that was asked for. It takes no memory.
#[inline(always)]
pub fn judge_dispatch(
    basin: &Basin,
    methods: &Catalogue,
    series: &Series,
    object: ObjectNo,
    step: StepNo,
    work: &mut Workspace,
)
    requires order { AreInOrder (map (λ b. code (b.vtable, b.value)) methods.now.methods.items) }
    requires turn { IsTurn basin.now object.0 step.0 }
    requires made { IsHeldIn basin.now series.now }
    ensures ends { Ends basin.now (looks_of basin.now (held series.now) object.0 step.0)
        object.0 step.0 (dispatched basin.now (held series.now) object.0 step.0) work.new.end }
    ensures work { HasJudged basin.now
        (dispatched basin.now (held series.now) object.0 step.0) work.old work.new }
{
    let kind = see(&mut work.view, basin, series, object, step);
    let method = methods.method(kind);
    method.solve(kind, &work.view, &mut work.solved);
    answer(
        &work.view,
        basin,
        object,
        step,
        &work.solved,
        &mut work.writes,
        &mut work.end,
    );
    keep_asked(
        work.keeps,
        &mut work.asked,
        basin,
        object,
        step,
        &work.solved,
    );
}

/// Dispatches an object at a timestep: its method solves what it can from what its slots hold. What it asks for is judged by the
/// put rules, all by what the cells hold before. If one put is denied, that is a conflict; otherwise those that are not there
/// already are written, and wake the objects that they reach, but not this one. Where nothing is written, cells and queue stay as
/// they were. The law `waiting_after` of `rw_run` says that the queue then has the objects that wait after the event. It takes no
/// memory. `docs/DEFINITIONS.md` has the rules of each kind.
pub fn dispatch(
    basin: &Basin,
    methods: &Catalogue,
    series: &mut Series,
    queue: &mut Queue,
    object: ObjectNo,
    step: StepNo,
) -> Dispatched
    requires order { AreInOrder (map (λ b. code (b.vtable, b.value)) methods.now.methods.items) }
    requires turn { IsTurn basin.now object.0 step.0 }
    requires made { IsStageOf basin.now (stage series.old queue.old) }
    ensures made { IsStageOf basin.now (stage series.new queue.new) }
    ensures answer { Tells basin.now (looks_of basin.now (held series.old) object.0 step.0)
        object.0 step.0 (dispatched basin.now (held series.old) object.0 step.0) result }
    ensures leaves { Leaves basin.now (dispatched basin.now (held series.old) object.0 step.0)
        (stage series.old queue.old) (stage series.new queue.new) }
{
    let mut view = blank_view();
    let mut writes = WriteList::none();
    let mut end = DispatchEnd::Idle;
    let kind = see(&mut view, basin, series, object, step);
    let solved = methods.solve(kind, &view);
    answer(&view, basin, object, step, &solved, &mut writes, &mut end);
    let made = made_of(&view, basin, object, step, &solved);
    let writes = writes.as_slice();
    make(basin, series, writes);
    queue.wake_written(basin, step, writes, Some(object));
    answer_of(end, solved, made)
}
