//! Allocates parts of a tree, of any type. The one error is want of memory.
ghost use Rattle.std.specs.Prelude.{◌≡◌, ◌++◌, ◌∷◌, [], IfOk, IfErr, OnOk};

use crate::stop::Stop;
use std::alloc::Global;

/// Makes a box.
#[inline(always)]
pub(crate) fn boxed<T: Drop>(alloc: Global, value: T) -> Result<Box<T>, Stop>
    ensures ok { IfOk result (λ b. b.value ≡ value) }
    ensures err { IfErr result (λ f. f ≡ Stop.NoMemory) }
{
    match Box::new(alloc, value) {
        Ok(b) => Ok(b),
        Err(_) => Err(Stop::NoMemory),
    }
}

/// Makes two boxes.
#[inline(always)]
pub(crate) fn pair<T: Drop>(alloc: Global, one: T, other: T) -> Result<(Box<T>, Box<T>), Stop>
    ensures one { IfOk result (λ both. both.0.value ≡ one) }
    ensures other { IfOk result (λ both. both.1.value ≡ other) }
    ensures err { IfErr result (λ f. f ≡ Stop.NoMemory) }
{
    let one = boxed(alloc, one)?;
    let other = boxed(alloc, other)?;
    Ok((one, other))
}

/// Makes three boxes.
pub(crate) fn three<T: Drop>(
    alloc: Global,
    one: T,
    other: T,
    third: T,
) -> Result<(Box<T>, Box<T>, Box<T>), Stop>
    ensures one { IfOk result (λ all. all.0.value ≡ one) }
    ensures other { IfOk result (λ all. all.1.value ≡ other) }
    ensures third { IfOk result (λ all. all.2.value ≡ third) }
    ensures err { IfErr result (λ f. f ≡ Stop.NoMemory) }
{
    let (one, other) = pair(alloc, one, other)?;
    let third = boxed(alloc, third)?;
    Ok((one, other, third))
}

/// Appends an item.
pub(crate) fn pushed<T: Drop>(items: &mut Vec<T>, one: T) -> Result<(), Stop>
    ensures ok { OnOk result (items.new.items ≡ items.old.items ++ one ∷ []) }
    ensures err { IfErr result (λ f. f ≡ Stop.NoMemory) }
{
    match items.push(one) {
        Ok(()) => Ok(()),
        Err(_) => Err(Stop::NoMemory),
    }
}
