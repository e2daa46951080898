//! Computes the kinds of values, as code has them.
ghost use Rattle.std.specs.Prelude.{◌≡◌};
ghost use Rattle.rpl_code.specs.declared.kind.ValueKind.TheVariants as ValueKind;
ghost use Rattle.rpl_tree.specs.Kinds as Kinds;
ghost use Rattle.rpl_tree.specs.Seen.{type_of};
ghost use Rattle.rpl_tree.specs.Value as Value;
ghost use Rattle.rpl_compile.specs.Seen.{kind_seen};
ghost use Rattle.rpl_compile.specs.Written as Written;

use rpl_code::ValueKind;
use rpl_tree::{OneWord, TwoWord, TypeText};

/// Returns a number of 16 bits. Any other is none that is asked for.
pub(crate) fn short(n: u64) -> u16
    ensures { result ≡ Written.short n }
{
    if n < 65_536 { n as u16 } else { 0 }
}

pub(crate) fn is_same_kind(a: ValueKind, b: ValueKind) -> bool
    ensures { result ≡ Value.is_same_kind (kind_seen a) (kind_seen b) }
{
    match (a, b) {
        (ValueKind::N, ValueKind::N) => true,
        (ValueKind::B, ValueKind::B) => true,
        (ValueKind::D, ValueKind::D) => true,
        (ValueKind::S, ValueKind::S) => true,
        (ValueKind::NList(m), ValueKind::NList(n)) => m == n,
        (ValueKind::SList(m), ValueKind::SList(n)) => m == n,
        _ => false,
    }
}

pub(crate) fn room_of(kind: ValueKind) -> u16
    ensures { result ≡ Value.room_of (kind_seen kind) }
{
    match kind {
        ValueKind::NList(m) => m,
        ValueKind::SList(m) => m,
        _ => 0,
    }
}

pub(crate) fn element_of(kind: ValueKind) -> ValueKind
    ensures { kind_seen result ≡ Value.element_of (kind_seen kind) }
{
    match kind {
        ValueKind::SList(_) => ValueKind::S,
        _ => ValueKind::N,
    }
}

pub(crate) fn list_kind(m: u16, kind: ValueKind) -> ValueKind
    ensures { kind_seen result ≡ Value.list_kind m (kind_seen kind) }
{
    match kind {
        ValueKind::S => ValueKind::SList(m),
        _ => ValueKind::NList(m),
    }
}

/// Returns the kind of a list of numbers with the room of another list.
pub(crate) fn numbers_like(kind: ValueKind) -> ValueKind
    ensures { kind_seen result ≡ Value.numbers_kind (Value.room_of (kind_seen kind)) }
{
    ValueKind::NList(room_of(kind))
}

/// Returns the one with more room of two lists.
pub(crate) fn join(a: ValueKind, b: ValueKind) -> ValueKind
    ensures { kind_seen result ≡ Kinds.join (kind_seen a) (kind_seen b) }
{
    if room_of(a) < room_of(b) { b } else { a }
}

pub(crate) fn one_kind(word: OneWord) -> ValueKind
    ensures { kind_seen result ≡ Kinds.one_kind word }
{
    match word {
        OneWord::Not | OneWord::Known => ValueKind::B,
        _ => ValueKind::N,
    }
}

fn difference_kind(a: ValueKind, b: ValueKind) -> ValueKind
    ensures { kind_seen result ≡ Kinds.difference_kind (kind_seen a) (kind_seen b) }
{
    match (a, b) {
        (ValueKind::D, ValueKind::N) => ValueKind::D,
        _ => ValueKind::N,
    }
}

#[inline(always)]
pub(crate) fn kind_of_two(word: TwoWord, a: ValueKind, b: ValueKind) -> ValueKind
    ensures { kind_seen result ≡ Written.kind_of_two word (kind_seen a) (kind_seen b) }
{
    match word {
        TwoWord::Plus => a,
        TwoWord::Minus => difference_kind(a, b),
        TwoWord::Times | TwoWord::Divide => ValueKind::N,
        TwoWord::Append => list_kind(short(u64::from(room_of(a)) + 1), b),
        TwoWord::Item => element_of(a),
        _ => ValueKind::B,
    }
}

/// Returns the kind of the values of a type that is written.
pub(crate) fn written_kind(text: &TypeText) -> ValueKind
    ensures { kind_seen result ≡ Written.written_kind (type_of text.now) }
{
    match text {
        TypeText::Numeric(_) => ValueKind::N,
        TypeText::Boolean => ValueKind::B,
        TypeText::Datetime => ValueKind::D,
        TypeText::Slot(_) => ValueKind::S,
        TypeText::NumericList(m, _) => ValueKind::NList(short(m.unsigned_abs())),
        TypeText::SlotList(m, _) => ValueKind::SList(short(m.unsigned_abs())),
    }
}
