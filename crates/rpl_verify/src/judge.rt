//! Judges a place of a block by what is before it.
ghost use Rattle.std.specs.Prelude.{◌≡◌, ◌<◌, ◌∷◌, [], ℕ, slice_get};
ghost use Rattle.rw_model.specs.Draft.{Draft};
ghost use Rattle.rw_model.specs.Objects.{numbered};
ghost use Rattle.rpl_code.specs.declared.block.BlockHead.{BlockHead};
ghost use Rattle.rpl_tree.specs.Mean.{predefined_functions};
ghost use Rattle.rpl_verify.specs.Kinds.{are_same_kinds};
ghost use Rattle.rpl_verify.specs.Names.{slot_seen};
ghost use Rattle.rpl_verify.specs.Places.{declared_by, mapping, visiting};
ghost use Rattle.rpl_verify.specs.Table.{call_row, function_named, invoke_row, load_row, store_row};
ghost use Rattle.rpl_verify.specs.Fits.{behind_instruction, end_kinds, ended_block, heads_of, judged_at};
ghost use Rattle.rpl_verify.specs.Walked.{GivesSeen, Goes, Lands, declares};
ghost use Rattle.rpl_verify.specs.Steps.{branched_in, carried_to, found_in, jumped_in, opened_over, scope_in, taken_by};
ghost use Rattle.rpl_verify.specs.Answered.{EndsAt, GoesAt};

use crate::VerifyKind;
use crate::block_fault::{BlockFault, placed_at};
use crate::kinds::is_same_kind;
use crate::list_loop::Loop;
use crate::names::{block_numbered, name_misfit, predefined_count};
use crate::place_fault::PlaceFault;
use crate::takes::{append, close, gather, measure, open, pass, pick, take, widen};
use crate::walk::Walk;
use rpl_code::{Block, BlockHead, Instruction, ValueKind};
use rw_model::{Basin, Name};

// Refuses a jump that goes back, or to a place that is no target or lies in another loop.
fn find(walk: &Walk, place: u32, to: u32) -> Result<(), PlaceFault>
    ensures { Lands (found_in walk.now.spots place to walk.now.before)
        (declares walk.now.spots to) result }
{
    if to <= place {
        return Err(PlaceFault::Misfit(VerifyKind::BackwardJump));
    }
    walk.find(to)
}

// Refuses operands that aren't those that are declared at a place.
fn carry(walk: &Walk, to: u32) -> Result<(), PlaceFault>
    ensures { GivesSeen (carried_to (declares walk.now.spots to) walk.now.before)
        (λ _. walk.now.before) result }
{
    if walk.carries(to) {
        Ok(())
    } else {
        Err(PlaceFault::Misfit(VerifyKind::WrongShape))
    }
}

fn branch(walk: &mut Walk, place: u32, to: u32) -> Result<(), PlaceFault>
    ensures { Goes (branched_in walk.old.spots place to walk.old.before) walk.old walk.new result }
{
    find(walk, place, to)?;
    take(walk, &[ValueKind::B])?;
    carry(walk, to)
}

fn jump(walk: &mut Walk, place: u32, to: u32) -> Result<(), PlaceFault>
    requires { place < 4294967295 }
    ensures { Goes (jumped_in walk.old.spots place to walk.old.before) walk.old walk.new result }
{
    find(walk, place, to)?;
    carry(walk, to)?;
    if walk.land(place + 1) {
        Ok(())
    } else {
        Err(PlaceFault::Misfit(VerifyKind::WrongShape))
    }
}

// A local's value becomes an operand.
fn load(walk: &mut Walk, local: Option<ValueKind>) -> Result<(), PlaceFault>
    ensures { Goes (taken_by (load_row local) walk.old.before) walk.old walk.new result }
{
    match local {
        None => Err(PlaceFault::Misfit(VerifyKind::WrongShape)),
        Some(kind) => pass(walk, &[], kind),
    }
}

// An operand becomes a local's value.
fn store(walk: &mut Walk, local: Option<ValueKind>) -> Result<(), PlaceFault>
    ensures { Goes (taken_by (store_row local) walk.old.before) walk.old walk.new result }
{
    match local {
        None => match walk.top() {
            None => Err(PlaceFault::Misfit(VerifyKind::MissingOperand)),
            Some(_) => Err(PlaceFault::Misfit(VerifyKind::WrongShape)),
        },
        Some(kind) => take(walk, &[kind]),
    }
}

// A predefined function of so many numbers, if there is one.
fn call(walk: &mut Walk, name: &Name) -> Result<(), PlaceFault>
    ensures { Goes
        (taken_by (call_row (function_named predefined_functions name.now)) walk.old.before)
        walk.old walk.new result }
{
    match predefined_count(name) {
        Some(1) => pass(walk, &[ValueKind::N], ValueKind::N),
        Some(2) => pass(walk, &[ValueKind::N, ValueKind::N], ValueKind::N),
        Some(3) => pass(
            walk,
            &[ValueKind::N, ValueKind::N, ValueKind::N],
            ValueKind::N,
        ),
        _ => Err(PlaceFault::Misfit(VerifyKind::WrongShape)),
    }
}

// A function block.
fn invoke(walk: &mut Walk, blocks: &[Block], number: u32) -> Result<(), PlaceFault>
    ensures { Goes (taken_by (invoke_row (numbered (heads_of blocks.now) number)) walk.old.before)
        walk.old walk.new result }
{
    match block_numbered(blocks, number) {
        None => Err(PlaceFault::Misfit(VerifyKind::WrongShape)),
        Some(block) => match &block.head {
            BlockHead::Rule => Err(PlaceFault::Misfit(VerifyKind::WrongShape)),
            BlockHead::Function { result, parameters } => pass(
                walk,
                parameters.as_slice(),
                *result,
            ),
        },
    }
}

// A loop over a list begins that visits each element.
fn visit(walk: &mut Walk, place: u32, locals: &[ValueKind], n: u32) -> Result<(), PlaceFault>
    ensures { Goes (opened_over place visiting (slice_get locals.now n) walk.old.before)
        walk.old walk.new result }
{
    open(walk, place, Loop::Visiting, locals.get(n as usize).copied())
}

// A loop over a list begins that makes a number for each element.
fn map(walk: &mut Walk, place: u32, locals: &[ValueKind], n: u32) -> Result<(), PlaceFault>
    ensures { Goes (opened_over place mapping (slice_get locals.now n) walk.old.before)
        walk.old walk.new result }
{
    open(walk, place, Loop::Mapping, locals.get(n as usize).copied())
}

// An instruction whose names are there.
fn act(
    blocks: &[Block],
    locals: &[ValueKind],
    walk: &mut Walk,
    place: u32,
    instruction: &Instruction,
) -> Result<(), PlaceFault>
    requires last { place < 4294967295 }
    requires here { declares walk.old.spots place ≡ declared_by instruction.now }
    ensures { (basin : Draft) (number : ℕ) (head : BlockHead) → Goes
        (behind_instruction (scope_in basin blocks.now number head locals.now walk.old.spots)
        place walk.old.before instruction.now)
        walk.old walk.new result }
{
    match instruction {
        Instruction::Num(_) => pass(walk, &[], ValueKind::N),
        Instruction::Bool(_) => pass(walk, &[], ValueKind::B),
        Instruction::Now => pass(walk, &[], ValueKind::D),
        Instruction::Slot { .. } => pass(walk, &[], ValueKind::S),
        Instruction::Load(n) => load(walk, locals.get(*n as usize).copied()),
        Instruction::Store(n) => store(walk, locals.get(*n as usize).copied()),
        Instruction::Add | Instruction::Sub | Instruction::Mul | Instruction::Div => {
            pass(walk, &[ValueKind::N, ValueKind::N], ValueKind::N)
        }
        Instruction::Neg | Instruction::ToElevation(_) | Instruction::ToStorage(_) => {
            pass(walk, &[ValueKind::N], ValueKind::N)
        }
        Instruction::Shift | Instruction::Back => {
            pass(walk, &[ValueKind::D, ValueKind::N], ValueKind::D)
        }
        Instruction::Between => pass(walk, &[ValueKind::D, ValueKind::D], ValueKind::N),
        Instruction::Eq | Instruction::Lt | Instruction::Le => {
            pass(walk, &[ValueKind::N, ValueKind::N], ValueKind::B)
        }
        Instruction::Deq | Instruction::Dlt | Instruction::Dle => {
            pass(walk, &[ValueKind::D, ValueKind::D], ValueKind::B)
        }
        Instruction::Not => pass(walk, &[ValueKind::B], ValueKind::B),
        Instruction::Read => pass(walk, &[ValueKind::S, ValueKind::D], ValueKind::N),
        Instruction::Known => pass(walk, &[ValueKind::S, ValueKind::D], ValueKind::B),
        Instruction::Month | Instruction::Day | Instruction::Year => {
            pass(walk, &[ValueKind::D], ValueKind::N)
        }
        Instruction::Call(name) => call(walk, name),
        Instruction::Invoke(b) => invoke(walk, blocks, *b),
        Instruction::List(count) => gather(walk, *count),
        Instruction::Append => append(walk),
        Instruction::Widen(room) => widen(walk, *room),
        Instruction::Item => pick(walk),
        Instruction::Length => measure(walk),
        Instruction::Jump(to) => jump(walk, place, *to),
        Instruction::Branch(to) => branch(walk, place, *to),
        Instruction::Target(_) => carry(walk, place),
        Instruction::Foreach(n) => visit(walk, place, locals, *n),
        Instruction::Next => close(walk, &[], Loop::Visiting),
        Instruction::Map(n) => map(walk, place, locals, *n),
        Instruction::Yield => close(walk, &[ValueKind::N], Loop::Mapping),
        Instruction::Put { .. } => take(walk, &[ValueKind::N]),
    }
}

// The operands and loops at the end of a block with this head.
fn end(walk: &Walk, head: &BlockHead) -> Result<(), PlaceFault>
    ensures { GivesSeen (ended_block head.now walk.now.before walk.now.before.loops)
        (λ _. walk.now.before) result }
{
    if !walk.is_shut() {
        return Err(PlaceFault::Misfit(VerifyKind::WrongShape));
    }
    if !holds_only(walk, head) {
        return Err(PlaceFault::Misfit(VerifyKind::WrongShape));
    }
    Ok(())
}

// Whether the operands are those that a block with this head leaves.
fn holds_only(walk: &Walk, head: &BlockHead) -> bool
    ensures { result ≡ are_same_kinds (end_kinds head.now) walk.now.before.kinds }
{
    match head {
        BlockHead::Rule => walk.height() == 0,
        BlockHead::Function { result, .. } => match walk.top() {
            None => false,
            Some(kind) => is_same_kind(*result, kind) && walk.height() == 1,
        },
    }
}

// An instruction whose names are there, at its place.
fn act_at(
    blocks: &[Block],
    locals: &[ValueKind],
    walk: &mut Walk,
    place: u32,
    instruction: &Instruction,
) -> Result<(), BlockFault>
    requires last { place < 4294967295 }
    requires here { declares walk.old.spots place ≡ declared_by instruction.now }
    ensures { (basin : Draft) (number : ℕ) (head : BlockHead) → GoesAt place
        (behind_instruction (scope_in basin blocks.now number head locals.now walk.old.spots)
        place walk.old.before instruction.now)
        walk.old walk.new result }
{
    match act(blocks, locals, walk, place, instruction) {
        Ok(()) => Ok(()),
        Err(fault) => Err(placed_at(place, fault)),
    }
}

/// Judges a place of a block of this number, head and locals, where the instruction names this slot, and goes on to the next.
pub(crate) fn judge(
    basin: &Basin,
    blocks: &[Block],
    number: u32,
    head: &BlockHead,
    locals: &[ValueKind],
    walk: &mut Walk,
    place: u32,
    seen: Option<u16>,
    instruction: &Instruction,
) -> Result<(), BlockFault>
    requires last { place < 4294967295 }
    requires here { declares walk.old.spots place ≡ declared_by instruction.now }
    requires slot { seen ≡ slot_seen basin.now instruction.now }
    ensures { GoesAt place
        (judged_at (scope_in basin.now blocks.now number head.now locals.now walk.old.spots)
        place walk.old.before instruction.now)
        walk.old walk.new result }
{
    match name_misfit(basin, blocks, number, head, seen, instruction) {
        Some(kind) => Err(BlockFault::Misplaced(kind, place)),
        None => act_at(blocks, locals, walk, place, instruction),
    }
}

/// Judges the end of a block with this head.
pub(crate) fn judge_end(walk: &Walk, head: &BlockHead, place: u32) -> Result<(), BlockFault>
    ensures { EndsAt place (ended_block head.now walk.now.before walk.now.before.loops)
        walk.now.before result }
{
    match end(walk, head) {
        Ok(()) => Ok(()),
        Err(fault) => Err(placed_at(place, fault)),
    }
}
