//! Tests gages, confluences, bifurcations, reaches and routed reaches: in each table stand the values that are known, and then
//! the answer.
use crate::rows::dispatch::By::{Input, Own, Rule};
use crate::rows::dispatch::Want::{Conflict, Idle, OutOfRange, Puts};
use crate::rows::dispatch::{Table, TableRow};
use rw_base::QUANTITY_MAX;

/// GageOutflow = GageInflow, and at most 9. The object's own value isn't given.
pub(crate) const GAGES: Table<'static> = Table {
    past: None,
    bounds: &[(1, 0, 9)],
    rows: &[
        TableRow(&[], Idle),
        TableRow(&[(0, 5, Rule(2))], Puts(&[(1, 5, 2)])),
        TableRow(&[(1, 5, Input)], Puts(&[(0, 5, 0)])),
        TableRow(&[(0, 5, Input), (1, 3, Own(0))], Puts(&[(1, 5, 0)])),
        TableRow(&[(0, 5, Input), (1, 5, Rule(3))], Puts(&[])),
        TableRow(&[(0, 5, Input), (1, 6, Input)], Conflict(1, 6, 5)),
        TableRow(&[(0, 5, Rule(2)), (1, 6, Input)], Puts(&[(0, 6, 0)])),
        TableRow(&[(0, 5, Rule(3)), (1, 6, Rule(3))], Puts(&[(1, 5, 3)])),
        TableRow(&[(0, 10, Input)], OutOfRange(1, 10)),
    ],
};

/// Outflow = Inflow1 + Inflow2, where the second inflow can be below 0.
pub(crate) const CONFLUENCES: Table<'static> = Table {
    past: None,
    bounds: &[(1, -QUANTITY_MAX, QUANTITY_MAX)],
    rows: &[
        TableRow(
            &[(0, 5, Rule(2)), (1, 6, Rule(3)), (2, 10, Rule(3))],
            Puts(&[(2, 11, 3)]),
        ),
        TableRow(
            &[(0, 5, Rule(2)), (1, 6, Rule(4)), (2, 10, Rule(3))],
            Puts(&[(1, 5, 3)]),
        ),
        TableRow(
            &[(0, 5, Input), (1, 6, Input), (2, 10, Input)],
            Conflict(2, 10, 11),
        ),
        TableRow(&[(0, 5, Input)], Idle),
        TableRow(&[(1, 6, Rule(1)), (2, 11, Rule(2))], Puts(&[(0, 5, 2)])),
        TableRow(&[(0, 5, Input), (2, 4, Input)], Puts(&[(1, -1, 0)])),
        TableRow(&[(1, 6, Input), (2, 4, Input)], OutOfRange(0, -2)),
        TableRow(&[(0, 5, Input), (1, 6, Input), (2, 11, Input)], Puts(&[])),
    ],
};

/// Inflow = Outflow1 + Outflow2.
pub(crate) const BIFURCATIONS: Table<'static> = Table {
    past: None,
    bounds: &[],
    rows: &[
        TableRow(&[(0, 310, Rule(2)), (1, 31, Rule(3))], Puts(&[(2, 279, 3)])),
        TableRow(&[(1, 31, Input), (2, 279, Rule(1))], Puts(&[(0, 310, 1)])),
        TableRow(&[(0, 3, Input)], Idle),
        TableRow(&[(0, 3, Input), (1, 5, Input)], OutOfRange(2, -2)),
        TableRow(
            &[(0, 310, Input), (1, 31, Input), (2, 279, Input)],
            Puts(&[]),
        ),
        TableRow(
            &[(0, 310, Input), (1, 31, Input), (2, 280, Input)],
            Conflict(2, 280, 279),
        ),
        TableRow(
            &[(0, 310, Rule(5)), (1, 31, Rule(2)), (2, 280, Input)],
            Puts(&[(0, 311, 2)]),
        ),
    ],
};

/// Of a reach of lag 2 into which 1 flowed two timesteps ago, and 2 one timestep ago, 1 flows out, whatever flows in.
pub(crate) const LAGGED_REACHES: Table<'static> = Table {
    past: Some(1),
    bounds: &[],
    rows: &[
        TableRow(&[(0, 5, Input)], Puts(&[(1, 1, 0)])),
        TableRow(&[], Puts(&[(1, 1, 0)])),
        TableRow(&[(1, 1, Input)], Puts(&[])),
        TableRow(&[(1, 2, Input)], Conflict(1, 2, 1)),
        TableRow(&[(1, 2, Rule(3))], Puts(&[(1, 1, 0)])),
    ],
};

/// Outflow = Inflow + LocalInflow - Diversion + ReturnFlow, all of which has to be known. 5 + 3 - 2 + 1 = 7.
pub(crate) const REACHES: Table<'static> = Table {
    past: None,
    bounds: &[],
    rows: &[
        TableRow(
            &[(0, 5, Input), (2, 3, Rule(4)), (3, 2, Input), (4, 1, Input)],
            Puts(&[(1, 7, 0)]),
        ),
        TableRow(
            &[(1, 7, Rule(2)), (2, 3, Input), (3, 2, Input), (4, 1, Input)],
            Puts(&[(0, 5, 2)]),
        ),
        TableRow(&[(0, 5, Input), (2, 3, Input), (4, 1, Input)], Idle),
        TableRow(
            &[(0, 5, Input), (2, 0, Input), (3, 6, Input), (4, 0, Input)],
            OutOfRange(1, -1),
        ),
    ],
};

/// Where both ends are given, 7 agree with 5.
pub(crate) const GIVEN_REACHES: Table<'static> = Table {
    past: None,
    bounds: &[],
    rows: &[
        TableRow(
            &[
                (0, 5, Input),
                (1, 7, Input),
                (2, 3, Input),
                (3, 2, Input),
                (4, 1, Input),
            ],
            Puts(&[]),
        ),
        TableRow(
            &[
                (0, 5, Input),
                (1, 8, Input),
                (2, 3, Input),
                (3, 2, Input),
                (4, 1, Input),
            ],
            Conflict(1, 8, 7),
        ),
    ],
};

/// A quarter of the 1000 that it held and of what flows in is let go, rounded down: of 1203 as of 1200 flow out 300. It holds at
/// most 905.
pub(crate) const ROUTED_REACHES: Table<'static> = Table {
    past: Some(1000),
    bounds: &[(2, 0, 905)],
    rows: &[
        TableRow(&[(0, 200, Input)], Puts(&[(1, 300, 0), (2, 900, 0)])),
        TableRow(&[(0, 203, Rule(2))], Puts(&[(1, 300, 2), (2, 903, 2)])),
        TableRow(&[(1, 300, Input)], Puts(&[(0, 200, 0), (2, 900, 0)])),
        TableRow(&[], Idle),
        TableRow(&[(0, 200, Input), (1, 300, Rule(3))], Puts(&[(2, 900, 3)])),
        TableRow(
            &[(0, 200, Rule(5)), (1, 301, Rule(2))],
            Puts(&[(0, 204, 2), (2, 903, 2)]),
        ),
        TableRow(&[(0, 200, Input), (1, 301, Input)], Conflict(1, 301, 300)),
        TableRow(&[(1, 100, Input)], OutOfRange(0, -600)),
        TableRow(&[(0, 207, Input)], OutOfRange(2, 906)),
    ],
};
