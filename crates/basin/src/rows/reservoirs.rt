//! Tests reservoirs: in each table stand the values that are known, and then the answer.
use crate::rows::dispatch::By::{Input, Own, Rule};
use crate::rows::dispatch::Want::{Conflict, Idle, OutOfRange, Puts};
use crate::rows::dispatch::{Table, TableRow};

/// A reservoir without a table that held 1000: Storage = 1000 + Inflow - Outflow.
pub(crate) const STORAGES: Table<'static> = Table {
    past: Some(1000),
    bounds: &[],
    rows: &[
        TableRow(&[(0, 100, Input), (2, 1020, Input)], Puts(&[(1, 80, 0)])),
        TableRow(
            &[(0, 100, Input), (1, 50, Input), (2, 1020, Input)],
            Conflict(2, 1020, 1050),
        ),
        TableRow(&[(0, 0, Input), (1, 1001, Input)], OutOfRange(2, -1)),
        TableRow(&[(0, 100, Input)], Idle),
        TableRow(&[(0, 100, Input), (1, 50, Rule(3))], Puts(&[(2, 1050, 3)])),
        TableRow(&[(1, 50, Input), (2, 1050, Rule(1))], Puts(&[(0, 100, 1)])),
        TableRow(
            &[(0, 100, Input), (1, 50, Input), (2, 1050, Input)],
            Puts(&[]),
        ),
        TableRow(
            &[(0, 100, Input), (1, 50, Rule(2)), (2, 1020, Rule(1))],
            Puts(&[(1, 80, 1)]),
        ),
        TableRow(
            &[(0, 100, Input), (1, 50, Own(2)), (2, 1020, Rule(1))],
            Puts(&[(1, 80, 1)]),
        ),
        TableRow(
            &[(0, 100, Input), (1, 50, Input), (2, 1000, Own(0))],
            Puts(&[(2, 1050, 0)]),
        ),
    ],
};

/// 1000 + 100 + 10 + 5 - 20 - 50 = 1045, where the side flows are known.
pub(crate) const SIDE_FLOWS: Table<'static> = Table {
    past: Some(1000),
    bounds: &[],
    rows: &[
        TableRow(
            &[
                (0, 100, Input),
                (1, 50, Input),
                (4, 10, Input),
                (5, 20, Input),
                (6, 5, Input),
            ],
            Puts(&[(2, 1045, 0)]),
        ),
        TableRow(
            &[
                (0, 100, Input),
                (1, 50, Input),
                (4, 10, Input),
                (6, 5, Input),
            ],
            Idle,
        ),
    ],
};

/// What was stored, or flowed in as long ago as the lag, isn't known.
pub(crate) const UNKNOWN_PASTS: Table<'static> = Table {
    past: None,
    bounds: &[],
    rows: &[TableRow(&[(0, 100, Input), (1, 50, Input)], Idle)],
};

/// 250 are held, at 501 mm. Up to 1000 mm and 500 a millimetre has half a cubic metre: 170 are held at 341 mm. The table ends at 3000 mm and 2500.
pub(crate) const CONTENTS: Table<'static> = Table {
    past: Some(250),
    bounds: &[],
    rows: &[
        TableRow(
            &[(0, 0, Input), (2, 170, Rule(3))],
            Puts(&[(1, 80, 3), (3, 341, 3)]),
        ),
        TableRow(
            &[(0, 0, Input), (3, 341, Rule(4))],
            Puts(&[(1, 80, 4), (2, 170, 4)]),
        ),
        TableRow(
            &[(0, 0, Input), (2, 170, Rule(2)), (3, 500, Rule(3))],
            Puts(&[(1, 80, 2), (3, 341, 2)]),
        ),
        TableRow(
            &[(0, 0, Input), (2, 200, Rule(3)), (3, 341, Rule(2))],
            Puts(&[(1, 80, 2), (2, 170, 2)]),
        ),
        TableRow(
            &[(0, 0, Input), (2, 170, Rule(2)), (3, 500, Rule(2))],
            Puts(&[(1, 80, 2), (3, 341, 2)]),
        ),
        TableRow(
            &[(0, 0, Input), (1, 80, Rule(2))],
            Puts(&[(2, 170, 2), (3, 341, 2)]),
        ),
    ],
};

/// A storage and an elevation that are both given with priority 0 agree where either is the other's, at 501 mm or with 250.
pub(crate) const GIVEN_LEVELS: Table<'static> = Table {
    past: Some(250),
    bounds: &[],
    rows: &[
        TableRow(
            &[(0, 0, Input), (2, 250, Input), (3, 500, Input)],
            Puts(&[(1, 0, 0)]),
        ),
        TableRow(
            &[(0, 0, Input), (2, 250, Input), (3, 501, Input)],
            Puts(&[(1, 0, 0)]),
        ),
        TableRow(
            &[(0, 0, Input), (2, 250, Input), (3, 499, Input)],
            Conflict(3, 499, 501),
        ),
    ],
};

/// A storage or an elevation that the table doesn't have is out of range where the contents are taken from it, or it is solved.
pub(crate) const LEVELS_OUTSIDE_THE_TABLE: Table<'static> = Table {
    past: Some(250),
    bounds: &[],
    rows: &[
        TableRow(&[(0, 0, Input), (3, 3001, Input)], OutOfRange(3, 3001)),
        TableRow(&[(0, 0, Input), (2, 2501, Input)], OutOfRange(2, 2501)),
        TableRow(
            &[(0, 0, Input), (2, 2501, Input), (3, 500, Input)],
            OutOfRange(2, 2501),
        ),
        TableRow(
            &[(0, 0, Input), (2, 2501, Rule(3)), (3, 341, Rule(2))],
            Puts(&[(1, 80, 2), (2, 170, 2)]),
        ),
        TableRow(&[(0, 2300, Input), (1, 0, Input)], OutOfRange(2, 2550)),
        TableRow(&[(3, 3001, Input)], Idle),
    ],
};

/// From 501 mm down by 100 mm lie 50, and down to the lowest elevation all 250, after which 1 mm is the greatest elevation without volume.
pub(crate) const EVAPORATION: Table<'static> = Table {
    past: Some(250),
    bounds: &[],
    rows: &[
        TableRow(
            &[(0, 0, Input), (1, 0, Input), (7, 100, Input)],
            Puts(&[(2, 200, 0), (3, 401, 0), (8, 50, 0)]),
        ),
        TableRow(
            &[(0, 0, Input), (1, 0, Rule(2)), (7, 100, Rule(3))],
            Puts(&[(2, 200, 2), (3, 401, 2), (8, 50, 0)]),
        ),
        TableRow(
            &[(0, 0, Input), (1, 0, Input), (7, 1000, Input)],
            Puts(&[(2, 0, 0), (3, 1, 0), (8, 250, 0)]),
        ),
        TableRow(&[(0, 0, Input), (1, 0, Input)], Idle),
    ],
};

/// Where water evaporates, what was stored has to be in the table.
pub(crate) const PASTS_OUTSIDE_THE_TABLE: Table<'static> = Table {
    past: Some(9999),
    bounds: &[],
    rows: &[
        TableRow(
            &[(0, 0, Input), (1, 0, Input), (7, 100, Input)],
            OutOfRange(2, 9999),
        ),
        TableRow(&[(0, 0, Input), (7, 100, Input)], Idle),
    ],
};

/// At most 60 are released, and the rest spills.
pub(crate) const RELEASES: Table<'static> = Table {
    past: Some(250),
    bounds: &[],
    rows: &[
        TableRow(
            &[(0, 0, Input), (1, 80, Input)],
            Puts(&[(2, 170, 0), (3, 341, 0), (9, 60, 0), (10, 20, 0)]),
        ),
        TableRow(
            &[(0, 0, Input), (1, 50, Rule(1))],
            Puts(&[(2, 200, 1), (3, 401, 1), (9, 50, 1), (10, 0, 1)]),
        ),
        TableRow(
            &[(0, 0, Input), (1, 80, Rule(1)), (2, 170, Rule(2))],
            Puts(&[(3, 341, 2), (9, 60, 1), (10, 20, 1)]),
        ),
    ],
};
