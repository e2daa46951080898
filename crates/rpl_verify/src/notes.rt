//! Computes what an instruction costs by itself, with what is before it.
ghost use Rattle.std.specs.Prelude.{◌≡◌, ◌+◌, ℕ, List, map, slice_get};
ghost use Rattle.rw_model.specs.Draft.{Draft};
ghost use Rattle.rw_model.specs.Objects.{numbered};
ghost use Rattle.rpl_code.specs.declared.block.Block.{Block};
ghost use Rattle.rpl_code.specs.declared.block.BlockHead.{BlockHead};
ghost use Rattle.rpl_code.specs.declared.kind.ValueKind.{ValueKind};
ghost use Rattle.rpl_tree.specs.Budget.{Budget as Numbers, capped, limits};
ghost use Rattle.rpl_verify.specs.Kinds.{words_of_all};
ghost use Rattle.rpl_verify.specs.Places.{Spot};
ghost use Rattle.rpl_verify.specs.Names.{Scope};
ghost use Rattle.rpl_verify.specs.Fits.{Before, heads_of};
ghost use Rattle.rpl_verify.specs.Budget.{count_of, looks_of, part_of, puts_of, words_at, words_of_kind, words_of_parameters};
ghost use Rattle.rpl_verify.specs.Notes.{numbers_seen, end_note, limit_of, note_of, words_kept};
ghost use Rattle.rpl_verify.specs.Steps.{scope_in};

use crate::Budget;
use crate::names::block_numbered;
use crate::stacks::WORDS_CAP;
use crate::walk::Walk;
use rpl_code::{Block, BlockHead, Instruction, ValueKind};
use rw_base::limits::{INSTRUCTIONS_MAX, LOOKS_MAX, PUTS_MAX};

// The first numbers above the limits of what is counted, of looks and of puts.
const COUNT_CAP: u32 = INSTRUCTIONS_MAX as u32 + 1;

const LOOKS_CAP: u32 = LOOKS_MAX as u32 + 1;

const PUTS_CAP: u32 = PUTS_MAX as u32 + 1;

/// The numbers of a budget.
#[derive(Clone, Copy)]
pub(crate) enum Part {
    /// What is counted.
    Count,
    /// Looks.
    Looks,
    /// Puts.
    Puts,
    /// Words that are kept at a time.
    Words,
}

/// What has to be known of a place once it is judged: for how many elements the list on top has room, and the one below it, and
/// how much the instruction there counts, looks, puts and keeps, each up to the first number above its limit.
#[derive(Clone, Copy)]
pub(crate) struct Note {
    pub(crate) room: u16,
    pub(crate) below: u16,
    pub(crate) count: u32,
    pub(crate) looks: u32,
    pub(crate) puts: u32,
    pub(crate) words: u32,
}

/// Returns the first number above the limit of a part.
pub(crate) fn cap_of(part: Part) -> u32
    ensures { result ≡ limit_of part + 1 }
{
    match part {
        Part::Count => COUNT_CAP,
        Part::Looks => LOOKS_CAP,
        Part::Puts => PUTS_CAP,
        Part::Words => WORDS_CAP,
    }
}

/// Returns a sum, up to the first number above the limit.
pub(crate) fn plus(part: Part, a: u64, b: u64) -> u32
    ensures { result ≡ capped (limit_of part) (a + b) }
{
    a.saturating_add(b).min(u64::from(cap_of(part))) as u32
}

/// Returns the words of kinds, up to the first number above the limit.
pub(crate) fn words_of_all(kinds: &[ValueKind]) -> u32
    ensures { result ≡ capped limits.words (words_of_all kinds.now) }
{
    let mut sum = 0;
    for kind in kinds {
        sum = plus(Part::Words, u64::from(sum), u64::from(kind.words()));
    }
    sum
}

// The words that the parameters of a function take, up to the first number above the limit.
fn parameter_words(blocks: &[Block], number: u32) -> u32
    ensures { result ≡ capped limits.words
        (words_of_parameters (numbered (heads_of blocks.now) number)) }
{
    match block_numbered(blocks, number) {
        None => 0,
        Some(block) => match &block.head {
            BlockHead::Rule => 0,
            BlockHead::Function { parameters, .. } => words_of_all(parameters.as_slice()),
        },
    }
}

// The budget of the block of a number, and nothing where there is none.
fn called(budgets: &[Budget], number: u32) -> Budget
    ensures count { result.instructions
        ≡ part_of (λ (f : Numbers). f.count) (numbered (map numbers_seen budgets.now) number) }
    ensures looks { result.reads
        ≡ part_of (λ (f : Numbers). f.looks) (numbered (map numbers_seen budgets.now) number) }
    ensures puts { result.puts
        ≡ part_of (λ (f : Numbers). f.puts) (numbered (map numbers_seen budgets.now) number) }
    ensures words { result.words
        ≡ part_of (λ (f : Numbers). f.words) (numbered (map numbers_seen budgets.now) number) }
{
    let none = Budget {
        instructions: 0,
        reads: 0,
        puts: 0,
        words: 0,
    };
    if number == 0 {
        return none;
    }
    match budgets.get(number as usize - 1) {
        None => none,
        Some(budget) => *budget,
    }
}

/// Returns the words of a local, if there is one.
pub(crate) fn local_words(locals: &[ValueKind], n: u32) -> u32
    ensures { result ≡ words_of_kind (slice_get locals.now n) }
{
    match locals.get(n as usize) {
        None => 0,
        Some(kind) => kind.words(),
    }
}

// How much an instruction counts.
fn count(
    blocks: &[Block],
    locals: &[ValueKind],
    budgets: &[Budget],
    walk: &Walk,
    instruction: &Instruction,
) -> u32
    ensures { (basin : Draft) (number : ℕ) (head : BlockHead) (spots : List Spot) → result
        ≡ capped limits.count (count_of
        (scope_in basin blocks.now number head locals.now spots)
        (map numbers_seen budgets.now) walk.now.before instruction.now) }
{
    match instruction {
        Instruction::Load(n) => local_words(locals, *n).min(cap_of(Part::Count)),
        Instruction::Store(n) => local_words(locals, *n).min(cap_of(Part::Count)),
        Instruction::List(n) => u32::from(*n) + 1,
        Instruction::Append => u32::from(walk.room_below()) + 2,
        Instruction::Widen(room) => u32::from(*room) + 1,
        Instruction::Invoke(n) => plus(
            Part::Count,
            u64::from(parameter_words(blocks, *n)) + 1,
            called(budgets, *n).instructions,
        ),
        _ => 1,
    }
}

// How often an instruction looks.
fn looks(budgets: &[Budget], instruction: &Instruction) -> u32
    ensures { (scope : Scope) (b : Before) → result ≡ capped limits.looks
        (looks_of scope (map numbers_seen budgets.now) b instruction.now) }
{
    match instruction {
        Instruction::Read | Instruction::Known => 1,
        Instruction::Invoke(n) => plus(Part::Looks, called(budgets, *n).reads, 0),
        _ => 0,
    }
}

// How often an instruction puts.
fn puts(budgets: &[Budget], instruction: &Instruction) -> u32
    ensures { (scope : Scope) (b : Before) → result ≡ capped limits.puts
        (puts_of scope (map numbers_seen budgets.now) b instruction.now) }
{
    match instruction {
        Instruction::Put { .. } => 1,
        Instruction::Invoke(n) => plus(Part::Puts, called(budgets, *n).puts, 0),
        _ => 0,
    }
}

// The words that are kept before a place, where the locals take so many.
fn words_before(locals: u32, walk: &Walk) -> u32
    ensures { (kinds : List ValueKind) → locals ≡ capped limits.words (words_of_all kinds)
        → result ≡ capped limits.words (words_kept kinds walk.now.before) }
{
    plus(Part::Words, u64::from(locals), u64::from(walk.words()))
}

// The words that are kept while an instruction is gone through.
fn words(locals: u32, budgets: &[Budget], walk: &Walk, instruction: &Instruction) -> u32
    ensures { (scope : Scope) → locals ≡ capped limits.words (words_of_all scope.locals)
        → result ≡ capped limits.words (words_at scope
        (map numbers_seen budgets.now) walk.now.before instruction.now) }
{
    let before = words_before(locals, walk);
    match instruction {
        Instruction::Invoke(n) => plus(Part::Words, u64::from(before), called(budgets, *n).words),
        _ => before,
    }
}

/// Returns the note of a place, where the locals take this many words.
pub(crate) fn place_note(
    blocks: &[Block],
    locals: &[ValueKind],
    local_words: u32,
    budgets: &[Budget],
    walk: &Walk,
    instruction: &Instruction,
) -> Note
    requires { local_words ≡ capped limits.words (words_of_all locals.now) }
    ensures { (basin : Draft) (number : ℕ) (head : BlockHead) (spots : List Spot) → result
        ≡ note_of (scope_in basin blocks.now number head locals.now spots)
        (map numbers_seen budgets.now) walk.now.before instruction.now }
{
    Note {
        room: walk.room(),
        below: walk.room_below(),
        count: count(blocks, locals, budgets, walk, instruction),
        looks: looks(budgets, instruction),
        puts: puts(budgets, instruction),
        words: words(local_words, budgets, walk, instruction),
    }
}

/// Returns the note of the end of a block, where the locals take this many words.
pub(crate) fn end_note(local_words: u32, walk: &Walk) -> Note
    ensures { (scope : Scope) (budgets : List Numbers)
        → local_words ≡ capped limits.words (words_of_all scope.locals)
        → result ≡ end_note scope budgets walk.now.before }
{
    Note {
        room: 0,
        below: 0,
        count: 0,
        looks: 0,
        puts: 0,
        words: words_before(local_words, walk),
    }
}
