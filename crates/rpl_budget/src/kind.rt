//! Lists the kinds of values with the room of their lists, and computes the kinds that the definitions give.
ghost use Rattle.std.specs.Prelude.{◌≡◌, ◌≤◌, ◌^◌, IfOk};
ghost use Rattle.rpl_tree.specs.declared.words.TwoWord.TheVariants as TwoWord;
ghost use Rattle.rpl_tree.specs.Kinds as Kinds;
ghost use Rattle.rpl_tree.specs.Seen.{type_of};
ghost use Rattle.rpl_tree.specs.Value as Value;
ghost use Rattle.rpl_budget.specs.Seen.{tree_kind_seen};

use rpl_tree::{OneWord, TwoWord, TypeText};
use rw_base::NoMemory;

/// The kinds of the values of expressions. A list has room for this many elements.
#[derive(Clone, Copy)]
pub(crate) enum TreeKind {
    Number,
    Truth,
    Date,
    Slot,
    Numbers(u64),
    Slots(u64),
}

pub(crate) fn is_same_kind(a: TreeKind, b: TreeKind) -> bool
    ensures { result ≡ Value.is_same_kind (tree_kind_seen a) (tree_kind_seen b) }
{
    match (a, b) {
        (TreeKind::Number, TreeKind::Number) => true,
        (TreeKind::Truth, TreeKind::Truth) => true,
        (TreeKind::Date, TreeKind::Date) => true,
        (TreeKind::Slot, TreeKind::Slot) => true,
        (TreeKind::Numbers(m), TreeKind::Numbers(n)) => m == n,
        (TreeKind::Slots(m), TreeKind::Slots(n)) => m == n,
        _ => false,
    }
}

/// Returns the number of words that a value takes.
pub(crate) fn weight(kind: TreeKind) -> u128
    ensures is { result ≡ Value.weight (tree_kind_seen kind) }
    ensures bound { result ≤ 2 ^ 64 }
{
    match kind {
        TreeKind::Numbers(m) => u128::from(m) + 1,
        TreeKind::Slots(m) => u128::from(m) + 1,
        _ => 1,
    }
}

pub(crate) fn room_of(kind: TreeKind) -> u64
    ensures { result ≡ Value.room_of (tree_kind_seen kind) }
{
    match kind {
        TreeKind::Numbers(m) => m,
        TreeKind::Slots(m) => m,
        _ => 0,
    }
}

pub(crate) fn element_of(kind: TreeKind) -> TreeKind
    ensures { tree_kind_seen result ≡ Value.element_of (tree_kind_seen kind) }
{
    match kind {
        TreeKind::Slots(_) => TreeKind::Slot,
        _ => TreeKind::Number,
    }
}

pub(crate) fn list_kind(m: u64, kind: TreeKind) -> TreeKind
    ensures { tree_kind_seen result ≡ Value.list_kind m (tree_kind_seen kind) }
{
    match kind {
        TreeKind::Slot => TreeKind::Slots(m),
        _ => TreeKind::Numbers(m),
    }
}

/// Returns the one with more room of two lists.
pub(crate) fn join(a: TreeKind, b: TreeKind) -> TreeKind
    ensures { tree_kind_seen result ≡ Kinds.join (tree_kind_seen a) (tree_kind_seen b) }
{
    if room_of(a) < room_of(b) { b } else { a }
}

pub(crate) fn one_kind(word: OneWord) -> TreeKind
    ensures { tree_kind_seen result ≡ Kinds.one_kind word }
{
    match word {
        OneWord::Not | OneWord::Known => TreeKind::Truth,
        _ => TreeKind::Number,
    }
}

fn difference_kind(a: TreeKind, b: TreeKind) -> TreeKind
    ensures { tree_kind_seen result ≡ Kinds.difference_kind (tree_kind_seen a) (tree_kind_seen b) }
{
    match (a, b) {
        (TreeKind::Date, TreeKind::Number) => TreeKind::Date,
        _ => TreeKind::Number,
    }
}

// A list with one element more. There is no memory for so many elements that their number has no successor.
fn longer(a: TreeKind, b: TreeKind) -> Result<TreeKind, NoMemory>
    ensures { IfOk result (λ kind. tree_kind_seen kind
        ≡ Kinds.two_kind TwoWord.Append (tree_kind_seen a) (tree_kind_seen b)) }
{
    let Some(room) = room_of(a).checked_add(1) else {
        return Err(NoMemory);
    };
    Ok(list_kind(room, b))
}

pub(crate) fn two_kind(word: TwoWord, a: TreeKind, b: TreeKind) -> Result<TreeKind, NoMemory>
    ensures { IfOk result (λ kind. tree_kind_seen kind
        ≡ Kinds.two_kind word (tree_kind_seen a) (tree_kind_seen b)) }
{
    match word {
        TwoWord::Plus => Ok(a),
        TwoWord::Minus => Ok(difference_kind(a, b)),
        TwoWord::Times | TwoWord::Divide => Ok(TreeKind::Number),
        TwoWord::Append => longer(a, b),
        TwoWord::Item => Ok(element_of(a)),
        _ => Ok(TreeKind::Truth),
    }
}

/// Returns the kind of the values of a type that is written.
pub(crate) fn kind_of_type(written: &TypeText) -> TreeKind
    ensures { tree_kind_seen result ≡ Kinds.kind_of_type (type_of written.now) }
{
    match written {
        TypeText::Numeric(_) => TreeKind::Number,
        TypeText::Boolean => TreeKind::Truth,
        TypeText::Datetime => TreeKind::Date,
        TypeText::Slot(_) => TreeKind::Slot,
        TypeText::NumericList(m, _) => TreeKind::Numbers(m.unsigned_abs()),
        TypeText::SlotList(m, _) => TreeKind::Slots(m.unsigned_abs()),
    }
}
