//! Judges the head of a declaration: its name, its parameters and its types.
ghost use Rattle.std.specs.Prelude.{◌≡◌, ◌&&◌, ◌||◌, None, Some, IfErr, IfOk, if◌then◌else◌, int_le, is_some, map, pos, unsigned_abs};
ghost use Rattle.rpl_tree.specs.Seen.{parameter_of, type_of};
ghost use Rattle.rpl_tree.specs.declared.rpl_type.RplType.TheVariants as RplType;
ghost use Rattle.rpl_types.specs.Fits.{longest};
ghost use Rattle.rpl_types.specs.Functions.{head_misfit, is_duplicate, param_scope, predefined_count, refusal_in, repeats_name, signature, signature_named, type_here, with_room, written_type};
ghost use Rattle.rpl_types.specs.Judged.{head_refusal};
ghost use Rattle.rpl_types.specs.Seen.{signature_of};
ghost use Rattle.rpl_types.specs.declared.stop.Stop.TheVariants as Stop;

use crate::TypeKind;
use crate::calls::predefined_count;
use crate::fits::sooner;
use crate::forms::plain;
use crate::functions::{Functions, Signature};
use crate::names::unit_named;
use crate::stop::Stop;
use rpl_scope::Scope;
use rpl_tree::{Param, RplType, TypeText};
use rw_base::limits::LIST_MAX;
use rw_base::{Dim, NoMemory};
use std::alloc::Global;

/// Returns the room of a list. `None` where there may not be so much.
fn room(m: i64) -> Option<u16>
    ensures { result
        ≡ (if int_le (pos 1) m && int_le m (pos longest) then Some (unsigned_abs m) else None) }
{
    if 1 <= m && m <= i64::from(LIST_MAX) {
        Some(m.unsigned_abs() as u16)
    } else {
        None
    }
}

fn numeric_list(m: i64, dim: Dim) -> Result<RplType, TypeKind>
    ensures { result ≡ with_room m (λ n. RplType.NumericList n dim) }
{
    match room(m) {
        Some(n) => Ok(RplType::NumericList(n, dim)),
        None => Err(TypeKind::ListTooLong),
    }
}

fn slot_list(m: i64, dim: Dim) -> Result<RplType, TypeKind>
    ensures { result ≡ with_room m (λ n. RplType.SlotList n dim) }
{
    match room(m) {
        Some(n) => Ok(RplType::SlotList(n, dim)),
        None => Err(TypeKind::ListTooLong),
    }
}

/// Returns the type that is written, or what is wrong with it.
fn written_type(text: &TypeText) -> Result<RplType, TypeKind>
    ensures { result ≡ written_type (type_of text.now) }
{
    match text {
        TypeText::Numeric(unit) => match unit_named(unit) {
            Some((dim, _)) => Ok(RplType::Numeric(dim)),
            None => Err(TypeKind::UnknownUnit),
        },
        TypeText::Boolean => Ok(RplType::Boolean),
        TypeText::Datetime => Ok(RplType::Datetime),
        TypeText::Slot(unit) => match unit_named(unit) {
            Some((dim, _)) => Ok(RplType::Slot(dim)),
            None => Err(TypeKind::UnknownUnit),
        },
        TypeText::NumericList(m, unit) => match unit_named(unit) {
            Some((dim, _)) => numeric_list(*m, dim),
            None => Err(TypeKind::UnknownUnit),
        },
        TypeText::SlotList(m, unit) => match unit_named(unit) {
            Some((dim, _)) => slot_list(*m, dim),
            None => Err(TypeKind::UnknownUnit),
        },
    }
}

fn type_misfit(text: &TypeText) -> Option<TypeKind>
    ensures { result ≡ refusal_in (written_type (type_of text.now)) }
{
    match written_type(text) {
        Ok(_) => None,
        Err(kind) => Some(kind),
    }
}

/// Returns the type that is written, and a plain number where that is none.
pub(crate) fn type_here(text: &TypeText) -> RplType
    ensures { result ≡ type_here (type_of text.now) }
{
    match written_type(text) {
        Ok(found) => found,
        Err(_) => plain(),
    }
}

/// Returns what is wrong with the types of parameters and a result; `None` where nothing is.
fn head_misfit(params: &[Param], answers: &TypeText) -> Option<TypeKind>
    ensures { result ≡ head_misfit (map parameter_of params.now) (type_of answers.now) }
{
    let mut found = None;
    for param in params {
        found = sooner(found, type_misfit(&param.kind));
    }
    sooner(found, type_misfit(answers))
}

/// Returns whether two parameters have one name.
fn repeats_name(alloc: Global, params: &[Param]) -> Result<bool, Stop>
    ensures ok { IfOk result (λ repeats. repeats ≡ repeats_name (map parameter_of params.now)) }
    ensures err { IfErr result (λ stop. stop ≡ Stop.NoMemory) }
{
    let mut seen = Scope::new(alloc);
    for param in params {
        match seen.find(&param.name) {
            Some(()) => return Ok(true),
            None => {}
        }
        match seen.push(&param.name, ()) {
            Ok(()) => {}
            Err(NoMemory) => return Err(Stop::NoMemory),
        }
    }
    Ok(false)
}

/// Returns whether a name cannot be that of a function after those.
fn is_taken<'a>(earlier: &Functions<'a>, name: &'a [u8]) -> bool
    ensures { result ≡ is_some (predefined_count name.entry.now)
        || is_some (signature_named earlier.now name.entry.now) }
{
    predefined_count(name).is_some() || earlier.find(name).is_some()
}

fn is_duplicate<'a>(
    alloc: Global,
    earlier: &Functions<'a>,
    name: &'a [u8],
    params: &[Param],
) -> Result<bool, Stop>
    ensures ok { IfOk result (λ duplicate. duplicate
        ≡ is_duplicate earlier.now name.entry.now (map parameter_of params.now)) }
    ensures err { IfErr result (λ stop. stop ≡ Stop.NoMemory) }
{
    if is_taken(earlier, name) {
        Ok(true)
    } else {
        repeats_name(alloc, params)
    }
}

/// Returns what is wrong with a function before its body is judged; `None` where nothing is.
pub(crate) fn head_refusal<'a>(
    alloc: Global,
    earlier: &Functions<'a>,
    name: &'a [u8],
    params: &[Param],
    answers: &TypeText,
) -> Result<Option<TypeKind>, Stop>
    ensures ok { IfOk result (λ refusal. refusal ≡ head_refusal earlier.now
        name.entry.now (map parameter_of params.now) (type_of answers.now)) }
    ensures err { IfErr result (λ stop. stop ≡ Stop.NoMemory) }
{
    if is_duplicate(alloc, earlier, name, params)? {
        Ok(Some(TypeKind::DuplicateName))
    } else {
        Ok(head_misfit(params, answers))
    }
}

/// Returns the parameters as variables, the first of them the innermost.
pub(crate) fn param_scope<'a>(
    alloc: Global,
    params: &'a [Param],
) -> Result<Scope<'a, RplType>, Stop>
    ensures ok { IfOk result (λ scope. scope ≡ param_scope (map parameter_of params.entry.now)) }
    ensures err { IfErr result (λ stop. stop ≡ Stop.NoMemory) }
{
    let mut scope = Scope::new(alloc);
    for behind in 0..params.len() {
        let param = &params[params.len() - 1 - behind];
        match scope.push(&param.name, type_here(&param.kind)) {
            Ok(()) => {}
            Err(NoMemory) => return Err(Stop::NoMemory),
        }
    }
    Ok(scope)
}

/// Returns the function as later declarations see it.
pub(crate) fn signature<'a>(
    alloc: Global,
    name: &'a [u8],
    params: &[Param],
    answers: &TypeText,
) -> Result<Signature<'a>, Stop>
    ensures ok { IfOk result (λ made. signature_of made
        ≡ signature name.now (map parameter_of params.now) (type_of answers.now)) }
    ensures err { IfErr result (λ stop. stop ≡ Stop.NoMemory) }
{
    let mut takes = Vec::new(alloc);
    for param in params {
        match takes.push(type_here(&param.kind)) {
            Ok(()) => {}
            Err(_) => return Err(Stop::NoMemory),
        }
    }
    Ok(Signature {
        name,
        takes,
        result: type_here(answers),
    })
}
