//! Finds the type of each form from the types of its parts.
ghost use Rattle.std.specs.Prelude.{◌≡◌, ◌+◌, ◌<◌, ◌&&◌, None};
ghost use Rattle.rw_base.specs.Answers.{unless_refused};
ghost use Rattle.rw_base.specs.Dimension.{times_of, per_of};
ghost use Rattle.rw_base.specs.Unit.{plain_number, timestep};
ghost use Rattle.rpl_types.specs.Fits.{longest, sooner, unit_misfit, length_misfit};
ghost use Rattle.rpl_types.specs.Forms.{append_type, choice_type, compared_type, condition_misfit, difference_type, element_type, is_boolean, is_datetime, item_type, length_type, look_type, mapped_type, measured_in, negative_type, one_type, only_if, plain, product_type, sum_type, total_type, two_type};

use crate::TypeKind;
use crate::fits::{joined, length_misfit, misfit, sooner, unit_misfit};
use rpl_tree::{OneWord, RplType, TwoWord};
use rw_base::Dim;
use rw_base::limits::LIST_MAX;

/// Returns the dimension of a number that measures nothing.
pub(crate) fn plain_number() -> Dim
    ensures { result ≡ plain_number }
{
    Dim {
        volume: 0,
        length: 0,
        step: 0,
        energy: 0,
    }
}

// The dimension of a number of timesteps.
fn timestep() -> Dim
    ensures { result ≡ timestep }
{
    Dim {
        volume: 0,
        length: 0,
        step: 1,
        energy: 0,
    }
}

/// Returns the type of a number that measures nothing.
pub(crate) fn plain() -> RplType
    ensures { result ≡ plain }
{
    RplType::Numeric(plain_number())
}

fn only_if(holds: bool, found: RplType) -> Result<RplType, TypeKind>
    ensures { result ≡ only_if holds found }
{
    if holds {
        Ok(found)
    } else {
        Err(TypeKind::WrongType)
    }
}

fn is_boolean(t: &RplType) -> bool
    ensures { result ≡ is_boolean t.now }
{
    match t {
        RplType::Boolean => true,
        _ => false,
    }
}

fn is_datetime(t: &RplType) -> bool
    ensures { result ≡ is_datetime t.now }
{
    match t {
        RplType::Datetime => true,
        _ => false,
    }
}

/// Returns the type, unless something is refused.
pub(crate) fn unless_refused(refusal: Option<TypeKind>, found: RplType) -> Result<RplType, TypeKind>
    ensures { result ≡ unless_refused refusal found }
{
    match refusal {
        None => Ok(found),
        Some(kind) => Err(kind),
    }
}

/// Returns the type of a list's items.
pub(crate) fn element_type(list: &RplType) -> Result<RplType, TypeKind>
    ensures { result ≡ element_type list.now }
{
    match list {
        RplType::NumericList(_, dim) => Ok(RplType::Numeric(*dim)),
        RplType::SlotList(_, dim) => Ok(RplType::Slot(*dim)),
        _ => Err(TypeKind::WrongType),
    }
}

// ---- one part

fn negative_type(t: &RplType) -> Result<RplType, TypeKind>
    ensures { result ≡ negative_type t.now }
{
    match t {
        RplType::Numeric(dim) => Ok(RplType::Numeric(*dim)),
        _ => Err(TypeKind::WrongType),
    }
}

fn length_type(t: &RplType) -> Result<RplType, TypeKind>
    ensures { result ≡ length_type t.now }
{
    match t {
        RplType::NumericList(_, _) | RplType::SlotList(_, _) => Ok(plain()),
        _ => Err(TypeKind::WrongType),
    }
}

/// Returns the type of a word and the expression after it, which may be a look at a slot.
pub(crate) fn one_type(word: OneWord, looks: bool, t: &RplType) -> Result<RplType, TypeKind>
    ensures { result ≡ one_type word looks t.now }
{
    match word {
        OneWord::Not => only_if(is_boolean(t), RplType::Boolean),
        OneWord::Minus => negative_type(t),
        OneWord::Known => only_if(looks, RplType::Boolean),
        OneWord::Length => length_type(t),
        OneWord::Month | OneWord::Day | OneWord::Year => only_if(is_datetime(t), plain()),
    }
}

// ---- two parts

fn compared_type(a: &RplType, b: &RplType) -> Result<RplType, TypeKind>
    ensures { result ≡ compared_type a.now b.now }
{
    match (a, b) {
        (RplType::Numeric(x), RplType::Numeric(y)) => {
            unless_refused(unit_misfit(*x, *y), RplType::Boolean)
        }
        (RplType::Datetime, RplType::Datetime) => Ok(RplType::Boolean),
        _ => Err(TypeKind::WrongType),
    }
}

fn sum_type(a: &RplType, b: &RplType) -> Result<RplType, TypeKind>
    ensures { result ≡ sum_type a.now b.now }
{
    match (a, b) {
        (RplType::Numeric(x), RplType::Numeric(y)) => {
            unless_refused(unit_misfit(*x, *y), RplType::Numeric(*x))
        }
        (RplType::Datetime, RplType::Numeric(y)) => {
            unless_refused(unit_misfit(*y, timestep()), RplType::Datetime)
        }
        _ => Err(TypeKind::WrongType),
    }
}

fn difference_type(a: &RplType, b: &RplType) -> Result<RplType, TypeKind>
    ensures { result ≡ difference_type a.now b.now }
{
    match (a, b) {
        (RplType::Datetime, RplType::Datetime) => Ok(RplType::Numeric(timestep())),
        _ => sum_type(a, b),
    }
}

#[tactic(auto, using(crate::proofs::Dimensions::product_found))]
fn times_type(a: &RplType, b: &RplType) -> Result<RplType, TypeKind>
    ensures { result ≡ product_type times_of a.now b.now }
{
    match (a, b) {
        (RplType::Numeric(x), RplType::Numeric(y)) => measured(x.times(*y)),
        _ => Err(TypeKind::WrongType),
    }
}

#[tactic(auto, using(crate::proofs::Dimensions::product_found))]
fn divide_type(a: &RplType, b: &RplType) -> Result<RplType, TypeKind>
    ensures { result ≡ product_type per_of a.now b.now }
{
    match (a, b) {
        (RplType::Numeric(x), RplType::Numeric(y)) => measured(x.per(*y)),
        _ => Err(TypeKind::WrongType),
    }
}

// A number of a dimension that a product has, if it has one.
pub(crate) fn measured(dim: Option<Dim>) -> Result<RplType, TypeKind>
    ensures { result ≡ measured_in dim }
{
    match dim {
        Some(dim) => Ok(RplType::Numeric(dim)),
        None => Err(TypeKind::WrongUnit),
    }
}

fn append_type(a: &RplType, b: &RplType) -> Result<RplType, TypeKind>
    ensures { result ≡ append_type a.now b.now }
{
    match (a, b) {
        (RplType::NumericList(m, x), RplType::Numeric(y)) => {
            match one_more(*m, *x, *y) {
                Some(kind) => Err(kind),
                None => Ok(RplType::NumericList(*m + 1, *x)),
            }
        }
        (RplType::SlotList(m, x), RplType::Slot(y)) => {
            match one_more(*m, *x, *y) {
                Some(kind) => Err(kind),
                None => Ok(RplType::SlotList(*m + 1, *x)),
            }
        }
        _ => Err(TypeKind::WrongType),
    }
}

// Why no item of a dimension can follow so many of another.
fn one_more(m: u16, a: Dim, b: Dim) -> Option<TypeKind>
    ensures refusal { result ≡ sooner (unit_misfit a b) (length_misfit (m + 1) longest) }
    ensures room { result ≡ None → m < longest }
{
    sooner(
        unit_misfit(a, b),
        length_misfit(usize::from(m) + 1, usize::from(LIST_MAX)),
    )
}

fn item_type(a: &RplType, b: &RplType) -> Result<RplType, TypeKind>
    ensures { result ≡ item_type a.now b.now }
{
    match (a, b) {
        (RplType::NumericList(_, x), RplType::Numeric(y)) => {
            unless_refused(unit_misfit(*y, plain_number()), RplType::Numeric(*x))
        }
        (RplType::SlotList(_, x), RplType::Numeric(y)) => {
            unless_refused(unit_misfit(*y, plain_number()), RplType::Slot(*x))
        }
        _ => Err(TypeKind::WrongType),
    }
}

/// Returns the type of a word between two parts.
#[inline(always)]
pub(crate) fn two_type(word: TwoWord, a: &RplType, b: &RplType) -> Result<RplType, TypeKind>
    ensures { result ≡ two_type word a.now b.now }
{
    match word {
        TwoWord::Or | TwoWord::And => only_if(both_boolean(a, b), RplType::Boolean),
        TwoWord::Equal
        | TwoWord::Unequal
        | TwoWord::Less
        | TwoWord::LessEqual
        | TwoWord::Greater
        | TwoWord::GreaterEqual => compared_type(a, b),
        TwoWord::Plus => sum_type(a, b),
        TwoWord::Minus => difference_type(a, b),
        TwoWord::Times => times_type(a, b),
        TwoWord::Divide => divide_type(a, b),
        TwoWord::Append => append_type(a, b),
        TwoWord::Item => item_type(a, b),
    }
}

fn both_boolean(a: &RplType, b: &RplType) -> bool
    ensures { result ≡ (is_boolean a.now && is_boolean b.now) }
{
    is_boolean(a) && is_boolean(b)
}

/// Returns the type of the value of a slot at a date.
pub(crate) fn look_type(slot: &RplType, date: &RplType) -> Result<RplType, TypeKind>
    ensures { result ≡ look_type slot.now date.now }
{
    match (slot, date) {
        (RplType::Slot(dim), RplType::Datetime) => Ok(RplType::Numeric(*dim)),
        _ => Err(TypeKind::WrongType),
    }
}

// ---- several parts

/// Returns the type of one of two branches, by a condition.
pub(crate) fn choice_type(
    condition: &RplType,
    yes: &RplType,
    no: &RplType,
) -> Result<RplType, TypeKind>
    ensures { result ≡ choice_type condition.now yes.now no.now }
{
    match condition {
        RplType::Boolean => joined(yes, no),
        _ => Err(TypeKind::WrongType),
    }
}

/// Returns the type of a MAP over a list, by what takes the place of an item.
pub(crate) fn mapped_type(list: &RplType, item: &RplType) -> Result<RplType, TypeKind>
    ensures { result ≡ mapped_type list.now item.now }
{
    match (list, item) {
        (RplType::NumericList(m, _), RplType::Numeric(dim)) => Ok(RplType::NumericList(*m, *dim)),
        (RplType::SlotList(m, _), RplType::Numeric(dim)) => Ok(RplType::NumericList(*m, *dim)),
        _ => Err(TypeKind::WrongType),
    }
}

/// Returns the type of a FOR, by its accumulator and the value of a turn.
pub(crate) fn total_type(total: &RplType, body: &RplType) -> Result<RplType, TypeKind>
    ensures { result ≡ total_type total.now body.now }
{
    unless_refused(misfit(body, total), *total)
}

/// Returns why a type is not that of a condition; `None` where it is.
pub(crate) fn condition_misfit(t: &RplType) -> Option<TypeKind>
    ensures { result ≡ condition_misfit t.now }
{
    match t {
        RplType::Boolean => None,
        _ => Some(TypeKind::WrongType),
    }
}
