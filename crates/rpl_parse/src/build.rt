//! Builds expressions from their parts.
ghost use Rattle.std.specs.Prelude.{◌≡◌, Some, None, IfOk, IfErr, map, max};
ghost use Rattle.rpl_tree.specs.Tree.{name, literal, call, slot, list, two, at, one, brackets, choice, bind, each, mapped, convert};
ghost use Rattle.rpl_tree.specs.Seen.{tree_of};
ghost use Rattle.rpl_parse.specs.Reading.{trees_of};
ghost use Rattle.rpl_parse.specs.Tokens.{bytes_in};

use crate::look::copied;
use crate::made::{boxed, pair, three};
use crate::stop::Stop;
use crate::token::Span;
use rpl_tree::{ConvertWord, Expr, LoopText, OneWord, Pair, SlotText, TwoWord};
use std::alloc::Global;

/// Returns the greater of two depths.
pub(crate) fn max_of(a: u8, b: u8) -> u8
    ensures { result ≡ max a b }
{
    if a < b { b } else { a }
}

/// Builds `value "unit"`.
pub(crate) fn in_unit(alloc: Global, text: &[u8], value: i64, unit: Span) -> Result<Expr, Stop>
    ensures ok { IfOk result (λ e. tree_of e ≡ literal value (Some (bytes_in text.now unit))) }
    ensures err { IfErr result (λ f. f ≡ Stop.NoMemory) }
{
    let unit = copied(alloc, text, unit)?;
    Ok(Expr::Number {
        value,
        unit: Some(unit),
    })
}

/// Builds a variable.
pub(crate) fn variable(alloc: Global, text: &[u8], named: Span) -> Result<Expr, Stop>
    ensures ok { IfOk result (λ e. tree_of e ≡ name (bytes_in text.now named)) }
    ensures err { IfErr result (λ f. f ≡ Stop.NoMemory) }
{
    let bytes = copied(alloc, text, named)?;
    Ok(Expr::Name(bytes))
}

/// Builds `Object.Slot`.
#[inline(always)]
pub(crate) fn slot_text(
    alloc: Global,
    text: &[u8],
    object: Span,
    slot: Span,
) -> Result<SlotText, Stop>
    ensures object { IfOk result (λ s. s.object.items ≡ bytes_in text.now object) }
    ensures slot { IfOk result (λ s. s.slot.items ≡ bytes_in text.now slot) }
    ensures err { IfErr result (λ f. f ≡ Stop.NoMemory) }
{
    let object = copied(alloc, text, object)?;
    let slot = copied(alloc, text, slot)?;
    Ok(SlotText { object, slot })
}

/// Builds `Object.Slot` as an expression.
pub(crate) fn slot_of(
    alloc: Global,
    text: &[u8],
    object: Span,
    slot_name: Span,
) -> Result<Expr, Stop>
    ensures ok { IfOk result (λ e. tree_of e ≡ slot (bytes_in text.now object)
        (bytes_in text.now slot_name)) }
    ensures err { IfErr result (λ f. f ≡ Stop.NoMemory) }
{
    let found = slot_text(alloc, text, object, slot_name)?;
    Ok(Expr::Slot(found))
}

/// Builds `name(args)`.
pub(crate) fn call_of(
    alloc: Global,
    text: &[u8],
    named: Span,
    args: Vec<Expr>,
) -> Result<Expr, Stop>
    ensures ok { IfOk result (λ e. tree_of e ≡ call (bytes_in text.now named) (trees_of
        (map tree_of args.items))) }
    ensures err { IfErr result (λ f. f ≡ Stop.NoMemory) }
{
    let name = copied(alloc, text, named)?;
    Ok(Expr::Call { name, args })
}

/// Builds `{items}`.
#[tactic(auto, using(crate::proofs::Viewed::tree_of_list))]
pub(crate) fn list_of(items: Vec<Expr>) -> Expr
    ensures { tree_of result ≡ list (trees_of (map tree_of items.items)) }
{
    Expr::List(items)
}

/// Builds a word between two expressions, or before both.
#[inline(always)]
pub(crate) fn two(alloc: Global, word: TwoWord, left: Expr, right: Expr) -> Result<Expr, Stop>
    ensures ok { IfOk result (λ e. tree_of e ≡ two word (tree_of left) (tree_of right)) }
    ensures err { IfErr result (λ f. f ≡ Stop.NoMemory) }
{
    let parts = boxed(
        alloc,
        Pair {
            first: left,
            second: right,
        },
    )?;
    Ok(Expr::Two { word, parts })
}

/// Builds a word before an expression.
pub(crate) fn one(alloc: Global, word: OneWord, arg: Expr) -> Result<Expr, Stop>
    ensures ok { IfOk result (λ e. tree_of e ≡ one word (tree_of arg)) }
    ensures err { IfErr result (λ f. f ≡ Stop.NoMemory) }
{
    let arg = boxed(alloc, arg)?;
    Ok(Expr::One { word, arg })
}

/// Builds `(e)`.
pub(crate) fn brackets(alloc: Global, e: Expr) -> Result<Expr, Stop>
    ensures ok { IfOk result (λ r. tree_of r ≡ brackets (tree_of e)) }
    ensures err { IfErr result (λ f. f ≡ Stop.NoMemory) }
{
    let inside = boxed(alloc, e)?;
    Ok(Expr::Brackets(inside))
}

/// Builds `slot[step]`.
#[inline(always)]
pub(crate) fn at_step(alloc: Global, slot: Expr, step: Expr) -> Result<Expr, Stop>
    ensures ok { IfOk result (λ e. tree_of e ≡ at (tree_of slot) (tree_of step)) }
    ensures err { IfErr result (λ f. f ≡ Stop.NoMemory) }
{
    let parts = boxed(
        alloc,
        Pair {
            first: slot,
            second: step,
        },
    )?;
    Ok(Expr::At(parts))
}

/// Builds `IF condition THEN yes ELSE no ENDIF`.
pub(crate) fn choice(alloc: Global, condition: Expr, yes: Expr, no: Expr) -> Result<Expr, Stop>
    ensures ok { IfOk result (λ e. tree_of e ≡ choice (tree_of condition) (tree_of yes)
        (tree_of «no»)) }
    ensures err { IfErr result (λ f. f ≡ Stop.NoMemory) }
{
    let (condition, yes, no) = three(alloc, condition, yes, no)?;
    Ok(Expr::If { condition, yes, no })
}

/// Builds `LET name := value IN body ENDLET`.
pub(crate) fn binding(
    alloc: Global,
    text: &[u8],
    named: Span,
    value: Expr,
    body: Expr,
) -> Result<Expr, Stop>
    ensures ok { IfOk result (λ e. tree_of e ≡ bind (bytes_in text.now named) (tree_of value)
        (tree_of body)) }
    ensures err { IfErr result (λ f. f ≡ Stop.NoMemory) }
{
    let name = copied(alloc, text, named)?;
    let (value, body) = pair(alloc, value, body)?;
    Ok(Expr::Let { name, value, body })
}

/// The names of a FOR: of each element, and of the accumulator.
#[derive(Clone, Copy)]
pub(crate) struct LoopNames {
    /// The variable that stands for each element in turn.
    pub(crate) name: Span,
    /// The accumulator.
    pub(crate) total: Span,
}

fn loop_text(alloc: Global, text: &[u8], names: LoopNames) -> Result<Box<LoopText>, Stop>
    ensures name { IfOk result (λ made. made.value.name.items ≡ bytes_in text.now names.name) }
    ensures total { IfOk result (λ made. made.value.total.items ≡ bytes_in text.now names.total) }
    ensures err { IfErr result (λ f. f ≡ Stop.NoMemory) }
{
    let name = copied(alloc, text, names.name)?;
    let total = copied(alloc, text, names.total)?;
    boxed(alloc, LoopText { name, total })
}

/// Builds `FOR name IN list WITH total := first DO body ENDFOR`.
pub(crate) fn for_each(
    alloc: Global,
    text: &[u8],
    names: LoopNames,
    list: Expr,
    first: Expr,
    body: Expr,
) -> Result<Expr, Stop>
    ensures ok { IfOk result (λ e. tree_of e ≡ each (bytes_in text.now names.name) (tree_of list)
        (bytes_in text.now names.total) (tree_of first) (tree_of body)) }
    ensures err { IfErr result (λ f. f ≡ Stop.NoMemory) }
{
    let names = loop_text(alloc, text, names)?;
    let (list, first, body) = three(alloc, list, first, body)?;
    Ok(Expr::For {
        names,
        list,
        first,
        body,
    })
}

/// Builds `MAP name IN list DO body ENDMAP`.
pub(crate) fn mapping(
    alloc: Global,
    text: &[u8],
    named: Span,
    list: Expr,
    body: Expr,
) -> Result<Expr, Stop>
    ensures ok { IfOk result (λ e. tree_of e ≡ mapped (bytes_in text.now named) (tree_of list)
        (tree_of body)) }
    ensures err { IfErr result (λ f. f ≡ Stop.NoMemory) }
{
    let name = copied(alloc, text, named)?;
    let (list, body) = pair(alloc, list, body)?;
    Ok(Expr::Map { name, list, body })
}

/// Builds a conversion by an object's table.
pub(crate) fn conversion(
    alloc: Global,
    text: &[u8],
    word: ConvertWord,
    object: Span,
    arg: Expr,
) -> Result<Expr, Stop>
    ensures ok { IfOk result (λ e. tree_of e ≡ convert word (bytes_in text.now object)
        (tree_of arg)) }
    ensures err { IfErr result (λ f. f ≡ Stop.NoMemory) }
{
    let object = copied(alloc, text, object)?;
    let arg = boxed(alloc, arg)?;
    Ok(Expr::Convert { word, object, arg })
}
