//! Tests power reservoirs: in each table stand the values that are known, and then the answer.
use crate::rows::dispatch::By::{Input, Own, Rule};
use crate::rows::dispatch::Want::{Conflict, OutOfRange, Puts};
use crate::rows::dispatch::{Table, TableRow};

/// 10 m3 for each mm. The pool stood at 300 mm, the tailwater at 100 mm: 500 m3 that fall by 200 mm give 1 kWh, and 1000 m3, the
/// greatest release, give 2 kWh.
pub(crate) const POWERS: Table<'static> = Table {
    past: Some(3000),
    bounds: &[],
    rows: &[
        TableRow(
            &[(0, 100, Input), (1, 1205, Input)],
            Puts(&[
                (2, 1895, 0),
                (3, 189, 0),
                (5, 2, 0),
                (6, 1000, 0),
                (7, 205, 0),
            ]),
        ),
        TableRow(
            &[(0, 100, Input), (4, 1, Input)],
            Puts(&[
                (1, 500, 0),
                (2, 2600, 0),
                (3, 260, 0),
                (5, 1, 0),
                (6, 500, 0),
                (7, 0, 0),
            ]),
        ),
        TableRow(&[(4, 3, Input)], OutOfRange(4, 3)),
        TableRow(
            &[
                (0, 600, Input),
                (1, 100, Own(0)),
                (2, 3100, Input),
                (4, 1, Rule(5)),
            ],
            Puts(&[(1, 500, 0), (3, 310, 0), (5, 1, 0), (6, 500, 0), (7, 0, 0)]),
        ),
        TableRow(
            &[(2, 3100, Input), (4, 1, Input)],
            Puts(&[
                (0, 600, 0),
                (1, 500, 0),
                (3, 310, 0),
                (5, 1, 0),
                (6, 500, 0),
                (7, 0, 0),
            ]),
        ),
        TableRow(
            &[(0, 100, Input), (2, 3000, Input), (4, 1, Rule(5))],
            Puts(&[(1, 100, 0), (3, 300, 0), (5, 0, 0), (6, 100, 0), (7, 0, 0)]),
        ),
        TableRow(
            &[(0, 100, Input), (2, 3000, Input), (4, 1, Input)],
            Conflict(2, 3000, 2600),
        ),
    ],
};

/// The pool stood at 50 m, the tailwater at 10 m: 10 m3 give 1 kWh, and 1000 m3, the greatest release, 100.
pub(crate) const HIGH_POWERS: Table<'static> = Table {
    past: Some(500_000),
    bounds: &[],
    rows: &[
        TableRow(
            &[(0, 100, Input), (1, 1205, Input)],
            Puts(&[
                (2, 498_895, 0),
                (3, 49_889, 0),
                (5, 100, 0),
                (6, 1000, 0),
                (7, 205, 0),
            ]),
        ),
        TableRow(
            &[(0, 100, Input), (4, 57, Input)],
            Puts(&[
                (1, 570, 0),
                (2, 499_530, 0),
                (3, 49_953, 0),
                (5, 57, 0),
                (6, 570, 0),
                (7, 0, 0),
            ]),
        ),
        TableRow(&[(0, 100, Input), (4, 101, Input)], OutOfRange(4, 101)),
        TableRow(
            &[
                (0, 670, Input),
                (1, 100, Own(0)),
                (2, 500_100, Input),
                (4, 57, Rule(5)),
            ],
            Puts(&[
                (1, 570, 0),
                (3, 50_010, 0),
                (5, 57, 0),
                (6, 570, 0),
                (7, 0, 0),
            ]),
        ),
    ],
};

/// The storage before is one that the table doesn't have: that comes before all else.
pub(crate) const POWERS_OUTSIDE_THE_TABLE: Table<'static> = Table {
    past: Some(9999),
    bounds: &[],
    rows: &[
        TableRow(&[], OutOfRange(2, 9999)),
        TableRow(&[(4, 3, Input)], OutOfRange(2, 9999)),
    ],
};
