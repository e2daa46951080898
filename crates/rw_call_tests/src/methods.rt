//! Makes the methods of all kinds, and the predefined functions.
use rpl_predef::{
    Predef, Predefs, absolute, clamped, greatest, least, mul_div, rounded_down, sign,
};
use rw_method::Method;
use rw_power::PowerReservoirMethod;
use rw_reservoir::ReservoirMethod;
use rw_routing::RoutedReachMethod;
use rw_stream::{BifurcationMethod, ConfluenceMethod, GageMethod, ReachMethod};
use rw_users::{CanalMethod, WaterUserMethod};
use std::alloc::{AllocError, Global};
use std::test::Fail;

// The method of the kind with this number.
fn method(alloc: Global, number: u8) -> Result<Box<dyn Method>, AllocError> {
    match number {
        1 => Ok(Box::new(alloc, GageMethod)?),
        2 => Ok(Box::new(alloc, ConfluenceMethod)?),
        3 => Ok(Box::new(alloc, BifurcationMethod)?),
        4 => Ok(Box::new(alloc, ReachMethod)?),
        5 => Ok(Box::new(alloc, ReservoirMethod)?),
        6 => Ok(Box::new(alloc, WaterUserMethod)?),
        7 => Ok(Box::new(alloc, CanalMethod)?),
        8 => Ok(Box::new(alloc, PowerReservoirMethod)?),
        _ => Ok(Box::new(alloc, RoutedReachMethod)?),
    }
}

/// Returns the methods of all kinds.
pub(crate) fn all_methods(alloc: Global) -> Result<Vec<Box<dyn Method>>, AllocError> {
    let mut methods = Vec::new(alloc);
    for number in 1..10 {
        methods.push(method(alloc, number)?)?;
    }
    Ok(methods)
}

/// Returns the predefined functions.
pub(crate) fn predefs(alloc: Global) -> Result<Predefs, Fail> {
    let functions = vec![in alloc;
        Predef::of(1, least),
        Predef::of(2, greatest),
        Predef::of(3, absolute),
        Predef::of(4, clamped),
        Predef::of(5, rounded_down),
        Predef::of(6, sign),
        Predef::of(7, mul_div),
    ]?;
    match Predefs::of(functions) {
        Ok(predefs) => Ok(predefs),
        Err(_) => Err(Fail::from("no predefined functions")),
    }
}
