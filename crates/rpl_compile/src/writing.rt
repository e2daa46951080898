//! Holds what is written of a block so far, and writes the parts that several forms share.
ghost use Rattle.std.specs.Prelude.{◌≡◌, ◌+◌, [], ◌∷◌, ◌++◌, IfOk, OnOk, length};
ghost use Rattle.rpl_code.specs.declared.instruction.Instruction.TheVariants as Instruction;
ghost use Rattle.rpl_tree.specs.Kinds.{kind_named};
ghost use Rattle.rpl_compile.specs.Operations.{code_kind};
ghost use Rattle.rpl_compile.specs.Seen.{kind_seen, scope_seen, written_of};
ghost use Rattle.rpl_compile.specs.Site.{bound, local_named, names_in};
ghost use Rattle.rpl_compile.specs.Written as Written;

use crate::kind::{is_same_kind, room_of};
use rpl_code::{Instruction, OperandKinds, SharedKinds, ValueKind};
use rpl_scope::Scope;
use rw_base::NoMemory;
use std::alloc::Global;

/// The local of a name, and the kind of its values.
#[derive(Clone, Copy)]
pub(crate) struct Local {
    pub(crate) kind: ValueKind,
    pub(crate) number: u32,
}

/// What is written of a block so far.
#[derive(Drop)]
pub(crate) struct Writing<'a> {
    pub(crate) alloc: Global,
    /// The names that can be used.
    pub(crate) names: Scope<'a, Local>,
    /// The kinds of the locals, parameters first.
    pub(crate) locals: Vec<ValueKind>,
    /// The kinds of the operands that are there, the last one last.
    pub(crate) below: Vec<ValueKind>,
    /// What the next target may share of them.
    pub(crate) shared: SharedKinds,
    pub(crate) lines: Vec<Instruction>,
}

// ---- lines

/// Appends one line.
pub(crate) fn line(w: &mut Writing, instruction: Instruction) -> Result<(), NoMemory>
    ensures { OnOk result (written_of w.new ≡ Written.with_line instruction (written_of w.old)) }
{
    w.lines.push(instruction)?;
    Ok(())
}

// The line at a place is another.
fn put_line(w: &mut Writing, place: usize, instruction: Instruction)
    ensures { written_of w.new ≡ Written.at_line place instruction (written_of w.old) }
{
    if let Some(kept) = w.lines.get_mut(place) {
        *kept = instruction;
    }
}

/// Returns a number in 32 bits. There is no memory for more blocks, lines or locals than 32 bits can count.
pub(crate) fn number(n: usize) -> Result<u32, NoMemory>
    ensures { IfOk result (λ number. number ≡ n) }
{
    match u32::try_from(n) {
        Ok(number) => Ok(number),
        Err(_) => Err(NoMemory),
    }
}

// ---- operands

/// Adds an operand.
pub(crate) fn operand(w: &mut Writing, kind: ValueKind) -> Result<(), NoMemory>
    ensures { OnOk result (written_of w.new
        ≡ Written.with_operand (kind_seen kind) (written_of w.old)) }
{
    w.below.push(kind)?;
    Ok(())
}

/// Removes the last operands.
pub(crate) fn drop_operands(w: &mut Writing, n: usize)
    ensures { written_of w.new ≡ Written.without_operands n (written_of w.old) }
{
    let rest = w.below.len().saturating_sub(n);
    w.below.truncate(rest);
}

/// Gives a value of a kind the room of its place.
pub(crate) fn give_room(w: &mut Writing, place: ValueKind, kind: ValueKind) -> Result<(), NoMemory>
    ensures { OnOk result (written_of w.new ≡ Written.written_with_room (kind_seen place)
        (Written.written_step (kind_seen kind) (written_of w.old))) }
{
    if is_same_kind(place, kind) {
        Ok(())
    } else {
        line(w, Instruction::Widen(room_of(place)))
    }
}

// ---- names and locals

/// Adds a local, and returns its number. Its kind is not known yet.
pub(crate) fn reserve(w: &mut Writing) -> Result<u32, NoMemory>
    ensures written { OnOk result (written_of w.new ≡ Written.with_local (written_of w.old)) }
    ensures number { IfOk result (λ local. local ≡ length (written_of w.old).locals) }
{
    let local = number(w.locals.len())?;
    w.locals.push(ValueKind::N)?;
    Ok(local)
}

/// Sets the kind of a local.
pub(crate) fn fill(w: &mut Writing, local: u32, kind: ValueKind)
    ensures { written_of w.new ≡ Written.with_kind local (kind_seen kind) (written_of w.old) }
{
    if let Some(kept) = w.locals.get_mut(local as usize) {
        *kept = kind;
    }
}

/// Adds a name for a local.
pub(crate) fn add_name<'a>(
    w: &mut Writing<'a>,
    name: &'a [u8],
    local: Local,
) -> Result<(), NoMemory>
    ensures { OnOk result (written_of w.new
        ≡ Written.with_name (bound name.now (kind_seen local.kind) local.number)
        (written_of w.old)) }
{
    w.names.push(name, local)
}

/// Removes the name that was added last.
pub(crate) fn drop_name(w: &mut Writing)
    ensures { written_of w.new ≡ Written.without_name (written_of w.old) }
{
    w.names.pop();
}

/// Returns the local of a name. Where there is none, no name is asked for.
#[tactic(auto, using(crate::proofs::Found::kind_found, crate::proofs::Found::number_found))]
pub(crate) fn local_named<'a>(names: &Scope<'a, Local>, name: &'a [u8]) -> Local
    ensures kind { kind_seen result.kind ≡ kind_named (names_in
        (scope_seen names.now)) name.entry.now }
    ensures number { result.number ≡ local_named (scope_seen names.now) name.entry.now }
{
    names.find(name).unwrap_or(Local {
        kind: ValueKind::N,
        number: 0,
    })
}

// ---- branches

/// Begins a branch to a place that is not known yet, and returns its own place.
pub(crate) fn begin_branch(w: &mut Writing) -> Result<usize, NoMemory>
    ensures written { OnOk result (written_of w.new ≡ Written.with_branch (written_of w.old)) }
    ensures place { IfOk result (λ place. place ≡ length (written_of w.old).lines) }
{
    let place = w.lines.len();
    line(w, Instruction::Branch(0))?;
    Ok(place)
}

/// Writes a place that is jumped to, where all operands are there.
fn target(w: &mut Writing) -> Result<(), NoMemory>
    ensures { OnOk result (written_of w.new
        ≡ Written.with_line (Instruction.Target (written_of w.old).below) (written_of w.old)) }
{
    let kinds = OperandKinds::sharing(w.alloc, &w.below, &mut w.shared)?;
    line(w, Instruction::Target(kinds))
}

/// Ends the first part of an IF and begins the second, and returns the place of the jump between them.
pub(crate) fn begin_second(w: &mut Writing, branch: usize) -> Result<usize, NoMemory>
    ensures written { OnOk result (written_of w.new
        ≡ Written.with_second branch (written_of w.old)) }
    ensures place { IfOk result (λ place. place ≡ length (written_of w.old).lines) }
{
    let place = w.lines.len();
    let behind = number(place + 1)?;
    put_line(w, branch, Instruction::Branch(behind));
    line(w, Instruction::Jump(0))?;
    target(w)?;
    Ok(place)
}

/// Ends the second part of an IF of statements.
pub(crate) fn end_second(w: &mut Writing, jump: usize) -> Result<(), NoMemory>
    ensures { OnOk result (written_of w.new
        ≡ Written.with_end jump (written_of w.old).below (written_of w.old)) }
{
    let behind = number(w.lines.len())?;
    put_line(w, jump, Instruction::Jump(behind));
    target(w)
}

/// Ends the second part of an IF that has a value.
pub(crate) fn end_value(w: &mut Writing, jump: usize, kind: ValueKind) -> Result<(), NoMemory>
    ensures { OnOk result (written_of w.new
        ≡ Written.with_value_end jump (kind_seen kind) (written_of w.old)) }
{
    operand(w, kind)?;
    end_second(w, jump)?;
    drop_operands(w, 1);
    Ok(())
}
