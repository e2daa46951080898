//! Finds the type of a call from those of its arguments.
ghost use Rattle.std.specs.Prelude.{◌≡◌, ◌<◌, ◌+◌, ◌∷◌, [], None, Some, bytes_eq, drop, length, map};
ghost use Rattle.std.specs.List.{list_any};
ghost use Rattle.rpl_tree.specs.Seen.{declared_of};
ghost use Rattle.rpl_types.specs.Fits.{arguments_misfit, length_misfit, longest, misfit_among, misfit_in_places, sooner};
ghost use Rattle.rpl_types.specs.Forms.{list_type};
ghost use Rattle.rpl_types.specs.Functions.{call_type, measured_by, numbers_type, predefined_count, predefined_type, product_over_type, unknown_type, declared_type};
ghost use Rattle.rpl_types.specs.Judged.{function_names};
ghost use Rattle.rpl_types.specs.Seen.{callable_of};

use crate::TypeKind;
use crate::fits::{length_misfit, misfit, sooner};
use crate::forms::{measured, plain_number};
use crate::functions::Functions;
use rpl_scope::is_same_name;
use rpl_tree::{Declaration, RplType};
use rw_base::Dim;
use rw_base::limits::LIST_MAX;

/// Returns why not all values fit where a type is asked for; `None` where they do.
fn misfit_among(given: &[RplType], asked: &RplType) -> Option<TypeKind>
    ensures { result ≡ misfit_among given.now asked.now }
{
    let mut found = None;
    for t in given {
        found = sooner(found, misfit(t, asked));
    }
    found
}

/// Returns why not each value fits where the type in its place is asked for; `None` where each does.
fn misfit_in_places(given: &[RplType], asked: &[RplType]) -> Option<TypeKind>
    requires { length given.now ≡ length asked.now }
    ensures { result ≡ misfit_in_places given.now asked.now }
{
    let mut found = None;
    for k in 0..given.len() {
        found = sooner(found, misfit(&given[k], &asked[k]));
    }
    found
}

fn arguments_misfit(given: &[RplType], asked: &[RplType]) -> Option<TypeKind>
    ensures { result ≡ arguments_misfit given.now asked.now }
{
    if given.len() == asked.len() {
        misfit_in_places(given, asked)
    } else {
        Some(TypeKind::WrongCount)
    }
}

/// Returns the type of a list of these items.
pub(crate) fn list_type(items: &[RplType]) -> Result<RplType, TypeKind>
    ensures { result ≡ list_type items.now }
{
    let [first, rest @ ..] = items else {
        return Err(TypeKind::WrongType);
    };
    match first {
        RplType::Numeric(dim) => match row_misfit(first, rest) {
            Some(kind) => Err(kind),
            None => Ok(RplType::NumericList(rest.len() as u16 + 1, *dim)),
        },
        RplType::Slot(dim) => match row_misfit(first, rest) {
            Some(kind) => Err(kind),
            None => Ok(RplType::SlotList(rest.len() as u16 + 1, *dim)),
        },
        _ => Err(TypeKind::WrongType),
    }
}

// Why these can't follow an item in a list.
fn row_misfit(first: &RplType, rest: &[RplType]) -> Option<TypeKind>
    ensures refusal { result ≡ sooner (misfit_among rest.now first.now)
        (length_misfit (length rest.now + 1) longest) }
    ensures room { result ≡ None → length rest.now < longest }
{
    let many = length_misfit(rest.len() + 1, usize::from(LIST_MAX));
    sooner(misfit_among(rest, first), many)
}

/// Returns the number of arguments of a predefined function. `None` where there is none of the name.
pub(crate) fn predefined_count(name: &[u8]) -> Option<usize>
    ensures { result ≡ predefined_count name.now }
{
    if is_same_name(b"Min", name) {
        Some(2)
    } else if is_same_name(b"Max", name) {
        Some(2)
    } else if is_same_name(b"Abs", name) {
        Some(1)
    } else if is_same_name(b"Clamp", name) {
        Some(3)
    } else if is_same_name(b"RoundDown", name) {
        Some(2)
    } else if is_same_name(b"Sign", name) {
        Some(1)
    } else if is_same_name(b"MulDiv", name) {
        Some(3)
    } else {
        None
    }
}

fn measured_by(name: &[u8], dim: Dim) -> Dim
    ensures { result ≡ measured_by name.now dim }
{
    if is_same_name(b"Sign", name) {
        plain_number()
    } else {
        dim
    }
}

fn numbers_type(name: &[u8], args: &[RplType]) -> Result<RplType, TypeKind>
    ensures { result ≡ numbers_type (measured_by name.now) args.now }
{
    let [first, rest @ ..] = args else {
        return Err(TypeKind::WrongType);
    };
    match first {
        RplType::Numeric(dim) => match misfit_among(rest, first) {
            Some(kind) => Err(kind),
            None => Ok(RplType::Numeric(measured_by(name, *dim))),
        },
        _ => Err(TypeKind::WrongType),
    }
}

// A product of two numbers over a third.
#[tactic(auto, using(crate::proofs::Dimensions::product_found))]
fn product_over_type(args: &[RplType]) -> Result<RplType, TypeKind>
    ensures { result ≡ product_over_type args.now }
{
    match args {
        [
            RplType::Numeric(a),
            RplType::Numeric(b),
            RplType::Numeric(c),
        ] => measured(a.times_per(*b, *c)),
        _ => Err(TypeKind::WrongType),
    }
}

fn predefined_type(name: &[u8], count: usize, args: &[RplType]) -> Result<RplType, TypeKind>
    ensures { result ≡ predefined_type name.now count args.now }
{
    if args.len() != count {
        Err(TypeKind::WrongCount)
    } else if is_same_name(b"MulDiv", name) {
        product_over_type(args)
    } else {
        numbers_type(name, args)
    }
}

fn is_later(later: &[Declaration], name: &[u8]) -> bool
    ensures { result ≡ list_any (bytes_eq name.now) (function_names (map declared_of later.now)) }
{
    for declaration in later {
        if is_called(declaration, name) {
            return true;
        }
    }
    false
}

fn is_called(declaration: &Declaration, name: &[u8]) -> bool
    ensures { result
        ≡ list_any (bytes_eq name.now) (function_names (declared_of declaration.now ∷ [])) }
{
    match declaration {
        Declaration::Function { name: called, .. } => is_same_name(name, called),
        _ => false,
    }
}

fn unknown_type(later: &[Declaration], name: &[u8]) -> Result<RplType, TypeKind>
    ensures { result ≡ unknown_type (function_names (map declared_of later.now)) name.now }
{
    if is_later(later, name) {
        Err(TypeKind::NotEarlier)
    } else {
        Err(TypeKind::UnknownName)
    }
}

/// Returns the type of a call of the name, where these functions are declared before, and those declarations are not.
pub(crate) fn call_type<'a>(
    earlier: &Functions<'a>,
    later: &[Declaration],
    name: &'a [u8],
    args: &[RplType],
) -> Result<RplType, TypeKind>
    ensures { result ≡ call_type (callable_of earlier.now later.now) name.entry.now args.now }
{
    if let Some(count) = predefined_count(name) {
        return predefined_type(name, count, args);
    }
    let Some(known) = earlier.find(name) else {
        return unknown_type(later, name);
    };
    match arguments_misfit(args, &known.takes) {
        Some(kind) => Err(kind),
        None => Ok(known.result),
    }
}
