//! Writes the code of expressions.
ghost use Rattle.std.specs.Prelude.{◌≡◌, [], IfOk, drop, option_map};
ghost use Rattle.rpl_code.specs.declared.instruction.Instruction.TheVariants as I;
ghost use Rattle.rpl_tree.specs.Seen.{tree_of, trees_in};
ghost use Rattle.rpl_tree.specs.Tree.{at, bind, call, choice, convert, each, list, literal, mapped, name as name_tree, one, slot, two};
ghost use Rattle.rpl_tree.specs.declared.words.TwoWord.TheVariants as TwoWord;
ghost use Rattle.rpl_compile.specs.Seen.{callees_of, kind_seen, kinds_seen, written_of};
ghost use Rattle.rpl_compile.specs.Writes.{LeavesWritten, WritesKind};
ghost use Rattle.rpl_compile.specs.Written as Written;
ghost use Rattle.rpl_compile.specs.Written.{compiled, compiled_all, compiled_arguments, with_operand};

use crate::ahead::{ahead, list_ahead, result_named};
use crate::kind::{element_of, join, kind_of_two, numbers_like, one_kind, short};
use crate::known::{Known, function_named};
use crate::operator::{convert_line, name_of, number_of, one_line, two_lines};
use crate::writing::{
    Local, Writing, add_name, begin_branch, begin_second, drop_name, drop_operands, end_value,
    fill, give_room, line, local_named, operand, reserve,
};
use rpl_code::{Instruction, ValueKind};
use rpl_tree::{ConvertWord, Expr, LoopText, OneWord, SlotText, TwoWord};
use rw_base::NoMemory;
use std::alloc::Global;

/// Writes the code of an expression, after what is written, and returns its kind.
#[cycle(code)]
#[tactic(auto, using(rpl_tree::proofs::Viewed::tree_of_list, rpl_tree::proofs::Viewed::tree_of_call))]
pub(crate) fn code<'a>(
    known: &[Known],
    w: &mut Writing<'a>,
    e: &'a Expr,
) -> Result<ValueKind, NoMemory>
    ensures { WritesKind w.new result (compiled (callees_of known.now) (written_of w.old)
        (tree_of e.now)) }
{
    match e {
        Expr::Number { value, unit } => {
            leaf(w, ValueKind::N, Instruction::Num(number_of(*value, unit)))
        }
        Expr::Truth(truth) => leaf(w, ValueKind::B, Instruction::Bool(*truth)),
        Expr::Now => leaf(w, ValueKind::D, Instruction::Now),
        Expr::Slot(text) => slot(w, text),
        Expr::Name(name) => variable(w, name),
        Expr::Call { name, args } => call(known, w, name, args),
        Expr::Brackets(inside) => code(known, w, inside),
        Expr::List(items) => list(known, w, items),
        Expr::If { condition, yes, no } => choice(known, w, condition, yes, no),
        Expr::Let { name, value, body } => bind(known, w, name, value, body),
        Expr::For {
            names,
            list,
            first,
            body,
        } => each(known, w, names, list, first, body),
        Expr::Map { name, list, body } => mapped(known, w, name, list, body),
        Expr::One { word, arg } => one(known, w, *word, arg),
        Expr::Two { word, parts } => two(known, w, *word, &parts.first, &parts.second),
        Expr::Convert { word, object, arg } => convert(known, w, *word, object, arg),
        Expr::At(parts) => look(known, w, &parts.first, &parts.second),
    }
}

// One line that makes a value.
fn leaf(w: &mut Writing, kind: ValueKind, instruction: Instruction) -> Result<ValueKind, NoMemory>
    ensures { WritesKind w.new result
        (Written.written_step (kind_seen kind) (Written.with_line instruction (written_of w.old))) }
{
    line(w, instruction)?;
    Ok(kind)
}

fn slot(w: &mut Writing, text: &SlotText) -> Result<ValueKind, NoMemory>
    ensures { WritesKind w.new result (compiled [] (written_of w.old)
        (slot text.now.object.items text.now.slot.items)) }
{
    let object = name_of(w.alloc, &text.object)?;
    let slot = name_of(w.alloc, &text.slot)?;
    leaf(w, ValueKind::S, Instruction::Slot { object, slot })
}

fn variable<'a>(w: &mut Writing<'a>, name: &'a [u8]) -> Result<ValueKind, NoMemory>
    ensures { WritesKind w.new result (compiled [] (written_of w.old) (name_tree name.now)) }
{
    let local = local_named(&w.names, name);
    leaf(w, local.kind, Instruction::Load(local.number))
}

// ---- calls and lists

// The line that calls a function whose arguments are there.
fn call_line(alloc: Global, name: &[u8], block: Option<u32>) -> Result<Instruction, NoMemory>
    ensures { IfOk result (λ made. made ≡ Written.call_instruction name.now block) }
{
    match block {
        Some(number) => Ok(Instruction::Invoke(number)),
        None => Ok(Instruction::Call(name_of(alloc, name)?)),
    }
}

// An argument that fills a parameter of this kind.
#[cycle(code)]
fn argument<'a>(
    known: &[Known],
    w: &mut Writing<'a>,
    kind: ValueKind,
    value: &'a Expr,
) -> Result<(), NoMemory>
    ensures { LeavesWritten w.new result (Written.with_argument (kind_seen kind)
        (compiled (callees_of known.now) (written_of w.old) (tree_of value.now))) }
{
    let own = code(known, w, value)?;
    give_room(w, kind, own)?;
    operand(w, kind)
}

// Arguments for parameters of these kinds, each of which waits for those behind it.
#[cycle(code)]
fn arguments<'a>(
    known: &[Known],
    w: &mut Writing<'a>,
    takes: &[ValueKind],
    args: &'a [Expr],
) -> Result<(), NoMemory>
    ensures { LeavesWritten w.new result
        (compiled_arguments (callees_of known.now) (written_of w.old)
        (kinds_seen takes.now) (trees_in args.now)) }
{
    let mut k = 0;
    for arg in args {
        if k >= takes.len() {
            return Ok(());
        }
        argument(known, w, takes[k], arg)?;
        k += 1;
    }
    Ok(())
}

#[cycle(code)]
fn call<'a>(
    known: &[Known],
    w: &mut Writing<'a>,
    name: &'a [u8],
    args: &'a [Expr],
) -> Result<ValueKind, NoMemory>
    ensures { WritesKind w.new result (compiled (callees_of known.now) (written_of w.old)
        (call name.now (trees_in args.now))) }
{
    match function_named(known, name) {
        None => leaf(w, ValueKind::N, call_line(w.alloc, name, None)?),
        Some(f) => {
            arguments(known, w, &f.takes, args)?;
            drop_operands(w, f.takes.len());
            leaf(w, f.result, call_line(w.alloc, name, f.block)?)
        }
    }
}

// Elements, each of which waits for those behind it.
#[cycle(code)]
fn elements<'a>(known: &[Known], w: &mut Writing<'a>, items: &'a [Expr]) -> Result<(), NoMemory>
    ensures { LeavesWritten w.new result (compiled_all (callees_of known.now) (written_of w.old)
        (trees_in items.now)) }
{
    for item in items {
        let kind = code(known, w, item)?;
        operand(w, kind)?;
    }
    Ok(())
}

#[cycle(code)]
#[tactic(auto, using(crate::proofs::Counted::count_is))]
fn list<'a>(known: &[Known], w: &mut Writing<'a>, items: &'a [Expr]) -> Result<ValueKind, NoMemory>
    ensures { WritesKind w.new result (compiled (callees_of known.now) (written_of w.old)
        (list (trees_in items.now))) }
{
    let kind = list_ahead(known, &mut w.names, items)?;
    elements(known, w, items)?;
    drop_operands(w, items.len());
    leaf(w, kind, Instruction::List(short(items.len() as u64)))
}

// ---- choices

#[cycle(code)]
fn choice<'a>(
    known: &[Known],
    w: &mut Writing<'a>,
    condition: &'a Expr,
    yes: &'a Expr,
    no: &'a Expr,
) -> Result<ValueKind, NoMemory>
    ensures { WritesKind w.new result (compiled (callees_of known.now) (written_of w.old)
        (choice (tree_of condition.now) (tree_of yes.now) (tree_of no.now))) }
{
    let _test = code(known, w, condition)?;
    let branch = begin_branch(w)?;
    let first = code(known, w, yes)?;
    let kind = join(first, ahead(known, &mut w.names, no)?);
    give_room(w, kind, first)?;
    let jump = begin_second(w, branch)?;
    let second = code(known, w, no)?;
    give_room(w, kind, second)?;
    end_value(w, jump, kind)?;
    Ok(kind)
}

// `left OR right`.
#[cycle(code)]
fn or<'a>(
    known: &[Known],
    w: &mut Writing<'a>,
    left: &'a Expr,
    right: &'a Expr,
) -> Result<ValueKind, NoMemory>
    ensures { WritesKind w.new result (compiled (callees_of known.now) (written_of w.old)
        (two TwoWord.Or (tree_of left.now) (tree_of right.now))) }
{
    let _test = code(known, w, left)?;
    let branch = begin_branch(w)?;
    line(w, Instruction::Bool(true))?;
    let jump = begin_second(w, branch)?;
    let _second = code(known, w, right)?;
    end_value(w, jump, ValueKind::B)?;
    Ok(ValueKind::B)
}

// `left AND right`.
#[cycle(code)]
fn and<'a>(
    known: &[Known],
    w: &mut Writing<'a>,
    left: &'a Expr,
    right: &'a Expr,
) -> Result<ValueKind, NoMemory>
    ensures { WritesKind w.new result (compiled (callees_of known.now) (written_of w.old)
        (two TwoWord.And (tree_of left.now) (tree_of right.now))) }
{
    let _test = code(known, w, left)?;
    let branch = begin_branch(w)?;
    let _first = code(known, w, right)?;
    let jump = begin_second(w, branch)?;
    line(w, Instruction::Bool(false))?;
    end_value(w, jump, ValueKind::B)?;
    Ok(ValueKind::B)
}

// ---- names

#[cycle(code)]
fn bind<'a>(
    known: &[Known],
    w: &mut Writing<'a>,
    name: &'a [u8],
    value: &'a Expr,
    body: &'a Expr,
) -> Result<ValueKind, NoMemory>
    ensures { WritesKind w.new result (compiled (callees_of known.now) (written_of w.old)
        (bind name.now (tree_of value.now) (tree_of body.now))) }
{
    let number = reserve(w)?;
    let kind = code(known, w, value)?;
    fill(w, number, kind);
    line(w, Instruction::Store(number))?;
    add_name(w, name, Local { kind, number })?;
    let own = code(known, w, body)?;
    drop_name(w);
    Ok(own)
}

#[cycle(code)]
fn mapped<'a>(
    known: &[Known],
    w: &mut Writing<'a>,
    name: &'a [u8],
    list: &'a Expr,
    body: &'a Expr,
) -> Result<ValueKind, NoMemory>
    ensures { WritesKind w.new result (compiled (callees_of known.now) (written_of w.old)
        (mapped name.now (tree_of list.now) (tree_of body.now))) }
{
    let number = reserve(w)?;
    let all = code(known, w, list)?;
    let kind = element_of(all);
    fill(w, number, kind);
    line(w, Instruction::Map(number))?;
    add_name(w, name, Local { kind, number })?;
    let _turn = code(known, w, body)?;
    drop_name(w);
    leaf(w, numbers_like(all), Instruction::Yield)
}

// ---- operators

#[cycle(code)]
fn two<'a>(
    known: &[Known],
    w: &mut Writing<'a>,
    word: TwoWord,
    left: &'a Expr,
    right: &'a Expr,
) -> Result<ValueKind, NoMemory>
    ensures { WritesKind w.new result (compiled (callees_of known.now) (written_of w.old)
        (two word (tree_of left.now) (tree_of right.now))) }
{
    match word {
        TwoWord::Or => or(known, w, left, right),
        TwoWord::And => and(known, w, left, right),
        _ => {
            let first = code(known, w, left)?;
            operand(w, first)?;
            let second = code(known, w, right)?;
            drop_operands(w, 1);
            two_lines(w, word, first, second)?;
            Ok(kind_of_two(word, first, second))
        }
    }
}

#[cycle(code)]
fn convert<'a>(
    known: &[Known],
    w: &mut Writing<'a>,
    word: ConvertWord,
    object: &[u8],
    arg: &'a Expr,
) -> Result<ValueKind, NoMemory>
    ensures { WritesKind w.new result (compiled (callees_of known.now) (written_of w.old)
        (convert word object.now (tree_of arg.now))) }
{
    let _own = code(known, w, arg)?;
    let object = name_of(w.alloc, object)?;
    leaf(w, ValueKind::N, convert_line(word, object))
}

// A slot, and the date at which it is looked at.
#[cycle(code)]
fn asked<'a>(
    known: &[Known],
    w: &mut Writing<'a>,
    slot: &'a Expr,
    step: &'a Expr,
) -> Result<(), NoMemory>
    ensures { LeavesWritten w.new result (Written.asked (callees_of known.now) (written_of w.old)
        (at (tree_of slot.now) (tree_of step.now))) }
{
    let place = code(known, w, slot)?;
    operand(w, place)?;
    let _date = code(known, w, step)?;
    drop_operands(w, 1);
    Ok(())
}

// `slot[step]`.
#[cycle(code)]
fn look<'a>(
    known: &[Known],
    w: &mut Writing<'a>,
    slot: &'a Expr,
    step: &'a Expr,
) -> Result<ValueKind, NoMemory>
    ensures { WritesKind w.new result (compiled (callees_of known.now) (written_of w.old)
        (at (tree_of slot.now) (tree_of step.now))) }
{
    asked(known, w, slot, step)?;
    leaf(w, ValueKind::N, Instruction::Read)
}

// What KNOWN asks of an expression.
#[cycle(code)]
fn asked_of<'a>(known: &[Known], w: &mut Writing<'a>, e: &'a Expr) -> Result<(), NoMemory>
    ensures { LeavesWritten w.new result (Written.asked (callees_of known.now) (written_of w.old)
        (tree_of e.now)) }
{
    match e {
        Expr::At(parts) => asked(known, w, &parts.first, &parts.second),
        _ => Ok(()),
    }
}

#[cycle(code)]
fn one<'a>(
    known: &[Known],
    w: &mut Writing<'a>,
    word: OneWord,
    arg: &'a Expr,
) -> Result<ValueKind, NoMemory>
    ensures { WritesKind w.new result (compiled (callees_of known.now) (written_of w.old)
        (one word (tree_of arg.now))) }
{
    match word {
        OneWord::Known => {
            asked_of(known, w, arg)?;
            leaf(w, ValueKind::B, Instruction::Known)
        }
        _ => {
            let _own = code(known, w, arg)?;
            leaf(w, one_kind(word), one_line(word))
        }
    }
}

// ---- FOR

#[cycle(code)]
fn each<'a>(
    known: &[Known],
    w: &mut Writing<'a>,
    names: &'a LoopText,
    list: &'a Expr,
    first: &'a Expr,
    body: &'a Expr,
) -> Result<ValueKind, NoMemory>
    ensures { WritesKind w.new result (compiled (callees_of known.now) (written_of w.old)
        (each names.now.name.items (tree_of list.now) names.now.total.items (tree_of first.now)
        (tree_of body.now))) }
{
    let number = reserve(w)?;
    let total_number = reserve(w)?;
    let all = code(known, w, list)?;
    operand(w, all)?;
    let kind = code(known, w, first)?;
    begin_turns(w, number, total_number, element_of(all), kind)?;
    add_name(
        w,
        &names.name,
        Local {
            kind: element_of(all),
            number,
        },
    )?;
    add_name(
        w,
        &names.total,
        Local {
            kind,
            number: total_number,
        },
    )?;
    let own = code(known, w, body)?;
    drop_name(w);
    drop_name(w);
    give_room(w, kind, own)?;
    end_turns(w, total_number)?;
    Ok(kind)
}

// Behind the list and the accumulator's first value.
fn begin_turns(
    w: &mut Writing,
    item: u32,
    total: u32,
    item_kind: ValueKind,
    total_kind: ValueKind,
) -> Result<(), NoMemory>
    ensures { LeavesWritten w.new result (Written.written_with_turn item total (kind_seen item_kind)
        (kind_seen total_kind) (written_of w.old)) }
{
    drop_operands(w, 1);
    fill(w, item, item_kind);
    fill(w, total, total_kind);
    line(w, Instruction::Store(total))?;
    line(w, Instruction::Foreach(item))
}

// Behind the body, which made the accumulator's next value.
fn end_turns(w: &mut Writing, total: u32) -> Result<(), NoMemory>
    ensures { LeavesWritten w.new result (Written.with_turns_end total (written_of w.old)) }
{
    line(w, Instruction::Store(total))?;
    line(w, Instruction::Next)?;
    line(w, Instruction::Load(total))
}
