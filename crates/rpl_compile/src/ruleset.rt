//! Writes the blocks of declarations, in order.
ghost use Rattle.std.specs.Prelude.{◌≡◌, ◌+◌, IfOk, OnOk, drop, map, string_bytes};
ghost use Rattle.rpl_code.specs.Spelling.{spelt};
ghost use Rattle.rpl_tree.specs.Seen.{acts_in, declared_of, parameter_of, rules_of, tree_of, type_of};
ghost use Rattle.rpl_compile.specs.Operations.{code_kind, code_kinds};
ghost use Rattle.rpl_compile.specs.Seen.{callee_seen, callees_of, kind_seen, kinds_seen, scope_seen, written_of};
ghost use Rattle.rpl_compile.specs.Translate.{predefined_callees, translate};
ghost use Rattle.rpl_compile.specs.Kinded.{AreKinded};
ghost use Rattle.rpl_compile.specs.Rooms.{AreRoomy};
ghost use Rattle.rpl_compile.specs.Written as Written;

use crate::expression::code;
use crate::kind::written_kind;
use crate::known::Known;
use crate::statement::statements;
use crate::writing::{Local, Writing, give_room, number};
use rpl_code::{Block, BlockHead, Kinds, Lines, SharedKinds, ValueKind, begin_code, push_block};
use rpl_scope::Scope;
use rpl_tree::{Declaration, Expr, Param, ParsedRules, Statement, TypeText};
use rw_base::NoMemory;
use rw_model::Basin;
use std::alloc::Global;

// The kinds of parameters, in order.

fn takes_of(alloc: Global, params: &[Param]) -> Result<Vec<ValueKind>, NoMemory>
    ensures { IfOk result (λ kinds. kinds_seen kinds.items
        ≡ Written.written_takes (map parameter_of params.now)) }
{
    let mut kinds = Vec::new(alloc);
    for param in params {
        kinds.push(written_kind(&param.kind))?;
    }
    Ok(kinds)
}

// The same, as a block's head has them.
fn parameters_of(alloc: Global, params: &[Param]) -> Result<Vec<ValueKind>, NoMemory>
    ensures { IfOk result (λ kinds. kinds.items
        ≡ code_kinds (Written.written_takes (map parameter_of params.now))) }
{
    let kinds = takes_of(alloc, params)?;
    Ok(kinds)
}

// The parameters as names, the first of them innermost.
fn names_of<'a>(alloc: Global, params: &'a [Param]) -> Result<Scope<'a, Local>, NoMemory>
    ensures { IfOk result (λ names. scope_seen names
        ≡ Written.written_parameters 0 (map parameter_of params.now)) }
{
    let mut names = Scope::new(alloc);
    let mut k = params.len();
    while k > 0 {
        k -= 1;
        let param = &params[k];
        let Ok(number) = u32::try_from(k) else {
            return Err(NoMemory);
        };
        let kind = written_kind(&param.kind);
        names.push(&param.name, Local { kind, number })?;
    }
    Ok(names)
}

// The block of a rule, for which there is room for so many lines at first.
fn rule(alloc: Global, known: &[Known], room: usize, body: &[Statement]) -> Result<Block, NoMemory>
    ensures { IfOk result (λ block. block ≡ Written.written_rule (callees_of known.now)
        (acts_in body.now)) }
{
    let mut w = Writing {
        alloc,
        names: Scope::new(alloc),
        locals: Vec::new(alloc),
        below: Vec::new(alloc),
        shared: SharedKinds::none(),
        lines: Vec::with_capacity(alloc, room)?,
    };
    statements(known, &mut w, body)?;
    w.lines.shrink_to_fit();
    Ok(Block {
        head: BlockHead::Rule,
        locals: Kinds::of(w.locals),
        lines: Lines::of(w.lines),
    })
}

// The kinds from a place on.
fn from_place(kinds: &[ValueKind], k: usize) -> &[ValueKind]
    ensures { result.now ≡ drop k kinds.entry.now }
{
    if k < kinds.len() { &kinds[k..] } else { &[] }
}

// At the beginning of a function's block.
fn begin_function<'a>(
    alloc: Global,
    params: &'a [Param],
    room: usize,
) -> Result<Writing<'a>, NoMemory>
    ensures { IfOk result (λ w. written_of w ≡ Written.begun_function
        (map parameter_of params.now)) }
{
    let names = names_of(alloc, params)?;
    let locals = parameters_of(alloc, params)?;
    Ok(Writing {
        alloc,
        names,
        locals,
        below: Vec::new(alloc),
        shared: SharedKinds::none(),
        lines: Vec::with_capacity(alloc, room)?,
    })
}

// The block of a function whose body is written.
#[tactic(auto, using(crate::proofs::Found::code_of_seen, crate::proofs::Found::params_length))]
fn end_function(
    alloc: Global,
    mut w: Writing,
    params: &[Param],
    answers: ValueKind,
) -> Result<Block, NoMemory>
    ensures { IfOk result (λ block. block ≡ Written.function_block (map parameter_of params.now)
        (kind_seen answers) (written_of w.entry)) }
{
    let takes = parameters_of(alloc, params)?;
    let locals = Vec::from_slice(alloc, from_place(&w.locals, params.len()))?;
    w.lines.shrink_to_fit();
    Ok(Block {
        head: BlockHead::Function {
            result: answers,
            parameters: Kinds::of(takes),
        },
        locals: Kinds::of(locals),
        lines: Lines::of(w.lines),
    })
}

// The block of a function.
fn function(
    alloc: Global,
    known: &[Known],
    room: usize,
    params: &[Param],
    answers: ValueKind,
    body: &Expr,
) -> Result<Block, NoMemory>
    ensures { IfOk result (λ block. block ≡ Written.written_function (callees_of known.now)
        (map parameter_of params.now) (kind_seen answers) (tree_of body.now)) }
{
    let mut w = begin_function(alloc, params, room)?;
    let own = code(known, &mut w, body)?;
    give_room(&mut w, answers, own)?;
    end_function(alloc, w, params, answers)
}

// The block of a declaration of a number. A function can be called by those that follow.
fn block_of(
    alloc: Global,
    known: &mut Vec<Known>,
    room: usize,
    number: u32,
    declaration: &Declaration,
) -> Result<Block, NoMemory>
    ensures block { IfOk result (λ block. block
        ≡ Written.written_block (callees_of known.old.items) (declared_of declaration.now)) }
    ensures known { OnOk result (callees_of known.new.items
        ≡ Written.and_callee (callees_of known.old.items) number (declared_of declaration.now)) }
{
    match declaration {
        Declaration::Rule { body, .. } => rule(alloc, known, room, body),
        Declaration::Function {
            name,
            params,
            result,
            body,
        } => {
            let result = written_kind(result);
            let block = function(alloc, known, room, params, result, body)?;
            known.push(Known {
                name: Vec::from_slice(alloc, name)?,
                takes: takes_of(alloc, params)?,
                result,
                block: Some(number),
            })?;
            Ok(block)
        }
    }
}

// A function of numbers that there is in each ruleset.
fn of_numbers(alloc: Global, name: &[u8], takes: Vec<ValueKind>) -> Result<Known, NoMemory>
    ensures { IfOk result (λ known. callee_seen known
        ≡ Written.of_numbers name.now (kinds_seen takes.items)) }
{
    Ok(Known {
        name: Vec::from_slice(alloc, name)?,
        takes,
        result: ValueKind::N,
        block: None,
    })
}

// The functions that there are in each ruleset, the last of them first.
fn predefined(alloc: Global) -> Result<Vec<Known>, NoMemory>
    ensures { IfOk result (λ known. callees_of known.items ≡ predefined_callees) }
{
    let one = ValueKind::N;
    let mut known = Vec::new(alloc);
    known.push(of_numbers(alloc, b"MulDiv", vec![in alloc; one, one, one]?)?)?;
    known.push(of_numbers(alloc, b"Sign", vec![in alloc; one]?)?)?;
    known.push(of_numbers(alloc, b"RoundDown", vec![in alloc; one, one]?)?)?;
    known.push(of_numbers(alloc, b"Clamp", vec![in alloc; one, one, one]?)?)?;
    known.push(of_numbers(alloc, b"Abs", vec![in alloc; one]?)?)?;
    known.push(of_numbers(alloc, b"Max", vec![in alloc; one, one]?)?)?;
    known.push(of_numbers(alloc, b"Min", vec![in alloc; one, one]?)?)?;
    Ok(known)
}

// The blocks of all declarations, as they are written.
fn written_blocks(alloc: Global, rules: &ParsedRules) -> Result<Vec<Block>, NoMemory>
    ensures { IfOk result (λ blocks. blocks.items
        ≡ Written.written_from predefined_callees 1 (rules_of rules.now)) }
{
    let mut known = predefined(alloc)?;
    let mut blocks = Vec::new(alloc);
    for declaration in &rules.declarations {
        let Ok(number) = u32::try_from(blocks.len() + 1) else {
            return Err(NoMemory);
        };
        let block = block_of(alloc, &mut known, 0, number, declaration)?;
        blocks.push(block)?;
    }
    Ok(blocks)
}

// The blocks of all declarations, as they are written. Each declaration goes as soon as its block is there, whose lines have the room of
// those before them from the first: a list that grows while names are made beside it finds no room in what declarations leave.
fn taken_blocks(alloc: Global, declarations: Vec<Declaration>) -> Result<Vec<Block>, NoMemory>
    ensures { IfOk result (λ blocks. blocks.items
        ≡ Written.written_from predefined_callees 1 (map declared_of declarations.items)) }
{
    let mut known = predefined(alloc)?;
    let mut room = 0;
    let mut blocks = Vec::with_capacity(alloc, declarations.len())?;
    for declaration in declarations {
        let block_number = number(blocks.len() + 1)?;
        let block = block_of(alloc, &mut known, room, block_number, &declaration)?;
        room = block.lines.as_slice().len();
        blocks.push(block)?;
    }
    Ok(blocks)
}

// The text of all declarations' blocks. No more than one block is there at a time.
fn written_text(alloc: Global, declarations: &[Declaration]) -> Result<String, NoMemory>
    ensures { IfOk result (λ text. string_bytes text ≡ spelt
        (Written.written_from predefined_callees 1 (map declared_of declarations.now))) }
{
    let mut known = predefined(alloc)?;
    let mut room = 0;
    let mut text = begin_code(alloc)?;
    for place in 0..declarations.len() {
        let declaration = &declarations[place];
        let block_number = number(place + 1)?;
        let block = block_of(alloc, &mut known, room, block_number, declaration)?;
        room = block.lines.as_slice().len();
        push_block(&mut text, &block)?;
    }
    Ok(text)
}

/// Returns the text of the blocks of a ruleset for a basin. `NoMemory` says nothing of the ruleset.
pub(crate) fn text_of(
    alloc: Global,
    rules: &ParsedRules,
    basin: &Basin,
) -> Result<Vec<u8>, NoMemory>
    requires kinded { AreKinded basin.now (rules_of rules.now) }
    requires rooms { AreRoomy (rules_of rules.now) }
    ensures { IfOk result (λ text. text.items ≡ spelt (translate (rules_of rules.now))) }
{
    let _objects = basin.object_count();
    let text = written_text(alloc, &rules.declarations)?;
    Ok(text.into_bytes())
}

/// Returns the blocks of a ruleset for a basin, and drops the ruleset. `NoMemory` says nothing of the ruleset.
pub(crate) fn into_blocks(
    alloc: Global,
    rules: ParsedRules,
    basin: &Basin,
) -> Result<Vec<Block>, NoMemory>
    requires kinded { AreKinded basin.now (rules_of rules) }
    requires rooms { AreRoomy (rules_of rules) }
    ensures { IfOk result (λ blocks. blocks.items ≡ translate (rules_of rules)) }
{
    let _objects = basin.object_count();
    let blocks = taken_blocks(alloc, rules.declarations)?;
    Ok(blocks)
}

/// Returns the blocks of a ruleset for a basin. `NoMemory` says nothing of the ruleset.
pub(crate) fn blocks_of(
    alloc: Global,
    rules: &ParsedRules,
    basin: &Basin,
) -> Result<Vec<Block>, NoMemory>
    requires kinded { AreKinded basin.now (rules_of rules.now) }
    requires rooms { AreRoomy (rules_of rules.now) }
    ensures { IfOk result (λ blocks. blocks.items ≡ translate (rules_of rules.now)) }
{
    let _objects = basin.object_count();
    let blocks = written_blocks(alloc, rules)?;
    Ok(blocks)
}
