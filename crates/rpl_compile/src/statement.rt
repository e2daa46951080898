//! Writes the code of statements.
ghost use Rattle.std.specs.Prelude.{◌≡◌, IfOk, OnOk, length};
ghost use Rattle.rpl_tree.specs.Seen.{act_of, acts_in, tree_of};
ghost use Rattle.rpl_tree.specs.Tree.{assign};
ghost use Rattle.rpl_compile.specs.Seen.{callees_of, written_of};
ghost use Rattle.rpl_compile.specs.Writes.{LeavesWritten};
ghost use Rattle.rpl_compile.specs.Written.{compiled, compiled_act, compiled_acts, with_branch, with_value};

use crate::expression::code;
use crate::known::Known;
use crate::operator::{ahead_of, name_of};
use crate::writing::{
    Local, Writing, add_name, begin_branch, begin_second, drop_name, end_second, fill, line,
    reserve,
};
use rpl_code::Instruction;
use rpl_tree::{Expr, SlotText, Statement};
use rw_base::NoMemory;

/// Writes the code of statements, after what is written.
#[cycle(statements)]
pub(crate) fn statements<'a>(
    known: &[Known],
    w: &mut Writing<'a>,
    body: &'a [Statement],
) -> Result<(), NoMemory>
    ensures { LeavesWritten w.new result (compiled_acts (callees_of known.now) (written_of w.old)
        (acts_in body.now)) }
{
    for statement in body {
        write_statement(known, w, statement)?;
    }
    Ok(())
}

#[cycle(statements)]
fn write_statement<'a>(
    known: &[Known],
    w: &mut Writing<'a>,
    statement: &'a Statement,
) -> Result<(), NoMemory>
    ensures { LeavesWritten w.new result (compiled_act (callees_of known.now) (written_of w.old)
        (act_of statement.now)) }
{
    match statement {
        Statement::Assign {
            target,
            ahead,
            value,
        } => set(known, w, target, *ahead, value),
        Statement::If { condition, yes, no } => {
            let branch = begin_test(known, w, condition)?;
            statements(known, w, yes)?;
            let jump = begin_second(w, branch)?;
            statements(known, w, no)?;
            end_second(w, jump)
        }
        Statement::With { name, value, body } => {
            begin_with(known, w, name, value)?;
            statements(known, w, body)?;
            drop_name(w);
            Ok(())
        }
    }
}

// `target[t + ahead] := value;`.
fn set<'a>(
    known: &[Known],
    w: &mut Writing<'a>,
    target: &SlotText,
    ahead: i64,
    value: &'a Expr,
) -> Result<(), NoMemory>
    ensures { LeavesWritten w.new result (compiled_act (callees_of known.now) (written_of w.old)
        (assign target.now.object.items target.now.slot.items ahead (tree_of value.now))) }
{
    let _own = code(known, w, value)?;
    let object = name_of(w.alloc, &target.object)?;
    let slot = name_of(w.alloc, &target.slot)?;
    let ahead = ahead_of(ahead);
    line(
        w,
        Instruction::Put {
            object,
            slot,
            ahead,
        },
    )
}

// The condition of an IF, and the branch behind it, whose place is answered.
fn begin_test<'a>(
    known: &[Known],
    w: &mut Writing<'a>,
    condition: &'a Expr,
) -> Result<usize, NoMemory>
    ensures written { OnOk result (written_of w.new ≡ with_branch
        (compiled (callees_of known.now) (written_of w.old) (tree_of condition.now)).on) }
    ensures place { IfOk result (λ place. place ≡ length
        (compiled (callees_of known.now) (written_of w.old) (tree_of condition.now)).on.lines) }
{
    let _test = code(known, w, condition)?;
    begin_branch(w)
}

// `WITH name := value DO`.
fn begin_with<'a>(
    known: &[Known],
    w: &mut Writing<'a>,
    name: &'a [u8],
    value: &'a Expr,
) -> Result<(), NoMemory>
    ensures { LeavesWritten w.new result
        (with_value (callees_of known.now) name.now (tree_of value.now)
        (written_of w.old)) }
{
    let number = reserve(w)?;
    let kind = code(known, w, value)?;
    fill(w, number, kind);
    line(w, Instruction::Store(number))?;
    add_name(w, name, Local { kind, number })
}
