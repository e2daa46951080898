//! Tests water users and canals: in each table stand the values that are known, and then the answer.
use crate::rows::dispatch::By::{Input, Rule};
use crate::rows::dispatch::Want::{Conflict, Idle, OutOfRange, Puts};
use crate::rows::dispatch::{Table, TableRow};

/// Diversion = DiversionRequest, at most 200. Of 105 are 34.965 used up.
pub(crate) const REQUESTS: Table<'static> = Table {
    past: None,
    bounds: &[(1, 0, 200)],
    rows: &[
        TableRow(
            &[(0, 105, Input)],
            Puts(&[(1, 105, 0), (2, 34, 0), (3, 71, 0)]),
        ),
        TableRow(&[], Idle),
        TableRow(&[(1, 100, Input)], Idle),
        TableRow(
            &[(0, 105, Input), (1, 105, Rule(2))],
            Puts(&[(2, 34, 2), (3, 71, 2)]),
        ),
        TableRow(&[(0, 105, Input), (1, 100, Input)], Conflict(1, 100, 105)),
        TableRow(
            &[(0, 105, Rule(4)), (1, 100, Rule(2))],
            Puts(&[(1, 105, 0), (2, 34, 0), (3, 71, 0)]),
        ),
        TableRow(&[(0, 201, Input)], OutOfRange(1, 201)),
    ],
};

/// Of 100 are 33.3 used up, whatever is requested.
pub(crate) const DIVERSIONS_BY_RULE: Table<'static> = Table {
    past: None,
    bounds: &[],
    rows: &[
        TableRow(&[(1, 100, Rule(3))], Puts(&[(2, 33, 3), (3, 67, 3)])),
        TableRow(&[(0, 105, Input)], Idle),
        TableRow(
            &[(0, 105, Input), (1, 100, Input)],
            Puts(&[(2, 33, 0), (3, 67, 0)]),
        ),
    ],
};

/// A tenth seeps away, rounded down. 102 is the least inflow of which 92 flow out, and 101 of which 91 do. At most 101 flow in, and 9 seep away.
pub(crate) const CANALS: Table<'static> = Table {
    past: None,
    bounds: &[(0, 0, 101), (2, 0, 9)],
    rows: &[
        TableRow(&[(1, 90, Input)], Puts(&[(0, 99, 0), (2, 9, 0)])),
        TableRow(&[(0, 99, Input)], Puts(&[(1, 90, 0), (2, 9, 0)])),
        TableRow(&[(1, 0, Input)], Puts(&[(0, 0, 0), (2, 0, 0)])),
        TableRow(&[], Idle),
        TableRow(&[(0, 99, Rule(2)), (1, 90, Rule(3))], Puts(&[(2, 9, 2)])),
        TableRow(&[(0, 99, Input), (1, 91, Input)], Conflict(1, 91, 90)),
        TableRow(&[(1, 92, Input)], OutOfRange(0, 102)),
        TableRow(&[(1, 91, Input)], OutOfRange(2, 10)),
    ],
};
