//! Makes the methods of kinds by the kinds' numbers.
use rw_method::Method;
use rw_power::PowerReservoirMethod;
use rw_reservoir::ReservoirMethod;
use rw_routing::RoutedReachMethod;
use rw_stream::{BifurcationMethod, ConfluenceMethod, GageMethod, ReachMethod};
use rw_users::{CanalMethod, WaterUserMethod};
use std::alloc::{AllocError, Global};

/// The numbers of the kinds that have a method.
pub(crate) const ALL: &[u8] = &[1, 2, 3, 4, 5, 6, 7, 8, 9];

// The method of the kind with this number, if it has one.
fn method(alloc: Global, number: u8) -> Result<Option<Box<dyn Method>>, AllocError> {
    match number {
        1 => Ok(Some(Box::new(alloc, GageMethod)?)),
        2 => Ok(Some(Box::new(alloc, ConfluenceMethod)?)),
        3 => Ok(Some(Box::new(alloc, BifurcationMethod)?)),
        4 => Ok(Some(Box::new(alloc, ReachMethod)?)),
        5 => Ok(Some(Box::new(alloc, ReservoirMethod)?)),
        6 => Ok(Some(Box::new(alloc, WaterUserMethod)?)),
        7 => Ok(Some(Box::new(alloc, CanalMethod)?)),
        8 => Ok(Some(Box::new(alloc, PowerReservoirMethod)?)),
        9 => Ok(Some(Box::new(alloc, RoutedReachMethod)?)),
        _ => Ok(None),
    }
}

/// Adds the methods of the kinds with these numbers.
pub(crate) fn add_methods(
    alloc: Global,
    methods: &mut Vec<Box<dyn Method>>,
    numbers: &[u8],
) -> Result<(), AllocError> {
    for number in numbers {
        if let Some(method) = method(alloc, *number)? {
            methods.push(method)?;
        }
    }
    Ok(())
}

/// Returns the methods of the kinds with these numbers.
pub(crate) fn methods(alloc: Global, numbers: &[u8]) -> Result<Vec<Box<dyn Method>>, AllocError> {
    let mut methods = Vec::new(alloc);
    add_methods(alloc, &mut methods, numbers)?;
    Ok(methods)
}
