//! Tests tables of predefined functions: one that is whole, and those that are refused.
use rpl_predef::{
    Predef, Predefs, PredefsFault, absolute, clamped, greatest, least, mul_div, rounded_down, sign,
};
use rw_base::Qty;
use std::test::Fail;

fn quantity(value: i64) -> Result<Qty, Fail> {
    Ok(Qty::of(value).ok_or("no quantity")?)
}

#[test]
fn functions_are_called_by_number(rt: HostRuntime) -> Result<(), Fail> {
    let rows = vec![in rt.alloc();
        Predef::of(1, least),
        Predef::of(2, greatest),
        Predef::of(3, absolute),
        Predef::of(4, clamped),
        Predef::of(5, rounded_down),
        Predef::of(6, sign),
        Predef::of(7, mul_div),
    ]?;
    let Ok(predefs) = Predefs::of(rows) else {
        return Err(Fail::from("a table is refused"));
    };
    let (seven, three, zero) = (quantity(7)?, quantity(3)?, quantity(0)?);
    assert_eq!(rt; predefs.call(5, quantity(-7)?, three, zero).get(), -6);
    assert_eq!(rt; predefs.call(5, seven, zero, zero).get(), 7);
    assert_eq!(rt;
        predefs.call(7, quantity(-7)?, three, quantity(2)?).get(),
        -11
    );
    Ok(())
}

#[test]
fn exchanged_functions_are_refused(rt: HostRuntime) -> Result<(), Fail> {
    let rows = vec![in rt.alloc();
        Predef::of(2, greatest),
        Predef::of(1, least),
        Predef::of(3, absolute),
        Predef::of(4, clamped),
        Predef::of(5, rounded_down),
        Predef::of(6, sign),
        Predef::of(7, mul_div),
    ]?;
    assert!(rt; matches!(Predefs::of(rows), Err(PredefsFault::WrongPlace(1))));
    Ok(())
}

#[test]
fn six_functions_are_too_few(rt: HostRuntime) -> Result<(), Fail> {
    let rows = vec![in rt.alloc();
        Predef::of(1, least),
        Predef::of(2, greatest),
        Predef::of(3, absolute),
        Predef::of(4, clamped),
        Predef::of(5, rounded_down),
        Predef::of(6, sign),
    ]?;
    assert!(rt; matches!(Predefs::of(rows), Err(PredefsFault::WrongCount(6))));
    Ok(())
}
