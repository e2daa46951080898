//! Decides whether a type fits where another is asked for.
ghost use Rattle.std.specs.Prelude.{◌≡◌, max};
ghost use Rattle.rw_base.specs.Answers.{unless_refused};
ghost use Rattle.rw_model.specs.Links.{is_same_dim};
ghost use Rattle.rpl_types.specs.Fits.{refusal_order, sooner, unit_misfit, length_misfit, misfit, joined_type};

use crate::TypeKind;
use rpl_tree::RplType;
use rw_base::Dim;

// Where a refusal stands in the order of those at one node.
fn order(kind: TypeKind) -> u8
    ensures { result ≡ refusal_order kind }
{
    match kind {
        TypeKind::DuplicateName => 0,
        TypeKind::UnknownName => 1,
        TypeKind::NotEarlier => 2,
        TypeKind::UnknownSlot => 3,
        TypeKind::NotSettable => 4,
        TypeKind::TargetStep => 5,
        TypeKind::UnknownUnit => 6,
        TypeKind::LiteralRange => 7,
        TypeKind::NoTable => 8,
        TypeKind::WrongCount => 9,
        TypeKind::WrongType => 10,
        TypeKind::WrongUnit => 11,
        TypeKind::ListTooLong => 12,
        TypeKind::TooCostly => 13,
    }
}

/// Returns the one that comes first, of two refusals that may be due at a node.
pub(crate) fn sooner(a: Option<TypeKind>, b: Option<TypeKind>) -> Option<TypeKind>
    ensures { result ≡ sooner a b }
{
    let Some(first) = a else {
        return b;
    };
    let Some(second) = b else {
        return a;
    };
    if order(second) < order(first) {
        Some(second)
    } else {
        Some(first)
    }
}

fn is_same_dim(a: Dim, b: Dim) -> bool
    ensures { result ≡ is_same_dim a b }
{
    a.volume == b.volume && a.length == b.length && a.step == b.step && a.energy == b.energy
}

/// Returns why a dimension does not fit where another is asked for; `None` where it does.
pub(crate) fn unit_misfit(a: Dim, b: Dim) -> Option<TypeKind>
    ensures { result ≡ unit_misfit a b }
{
    if is_same_dim(a, b) {
        None
    } else {
        Some(TypeKind::WrongUnit)
    }
}

/// Returns why a list of n items does not fit where there may be `most`; `None` where it does.
pub(crate) fn length_misfit(n: usize, most: usize) -> Option<TypeKind>
    ensures { result ≡ length_misfit n most }
{
    if n <= most {
        None
    } else {
        Some(TypeKind::ListTooLong)
    }
}

/// Returns why a value of a type does not fit where another is asked for; `None` where it does.
pub(crate) fn misfit(given: &RplType, asked: &RplType) -> Option<TypeKind>
    ensures { result ≡ misfit given.now asked.now }
{
    match (given, asked) {
        (RplType::Numeric(a), RplType::Numeric(b)) => unit_misfit(*a, *b),
        (RplType::Boolean, RplType::Boolean) => None,
        (RplType::Datetime, RplType::Datetime) => None,
        (RplType::Slot(a), RplType::Slot(b)) => unit_misfit(*a, *b),
        (RplType::NumericList(n, a), RplType::NumericList(m, b)) => list_misfit(*n, *a, *m, *b),
        (RplType::SlotList(n, a), RplType::SlotList(m, b)) => list_misfit(*n, *a, *m, *b),
        _ => Some(TypeKind::WrongType),
    }
}

// The same of two lists of numbers, or of slots.
fn list_misfit(n: u16, a: Dim, m: u16, b: Dim) -> Option<TypeKind>
    ensures { result ≡ sooner (unit_misfit a b) (length_misfit n m) }
{
    sooner(
        unit_misfit(a, b),
        length_misfit(usize::from(n), usize::from(m)),
    )
}

/// Returns the type of what is either the one or the other.
pub(crate) fn joined(a: &RplType, b: &RplType) -> Result<RplType, TypeKind>
    ensures { result ≡ joined_type a.now b.now }
{
    match (a, b) {
        (RplType::NumericList(n, x), RplType::NumericList(m, y)) => match unit_misfit(*x, *y) {
            None => Ok(RplType::NumericList(greater(*n, *m), *x)),
            Some(kind) => Err(kind),
        },
        (RplType::SlotList(n, x), RplType::SlotList(m, y)) => match unit_misfit(*x, *y) {
            None => Ok(RplType::SlotList(greater(*n, *m), *x)),
            Some(kind) => Err(kind),
        },
        _ => fitting(a, b),
    }
}

fn fitting(a: &RplType, b: &RplType) -> Result<RplType, TypeKind>
    ensures { result ≡ unless_refused (misfit a.now b.now) a.now }
{
    match misfit(a, b) {
        None => Ok(*a),
        Some(kind) => Err(kind),
    }
}

fn greater(n: u16, m: u16) -> u16
    ensures { result ≡ max n m }
{
    n.max(m)
}
