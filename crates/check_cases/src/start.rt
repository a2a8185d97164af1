// The start check: a zone holds the start's Booleans with all clocks 0.
use crate::case::{Case, Group};
use crate::words::*;
use checks::Check::Start;

const GROUPS: &[Group] = &[
    Group {
        head: H_X,
        model: &[&[START]],
        zones: &[&[ZONE, X_LE, N + 5], &[ZONE]],
        cases: &[
            Case("start, two zones hold it", Start, &[]),
            Case("start, two zones hold it, the first struck", Start, &[0]),
            Case("start, two zones hold it, both struck", Start, &[0, 1]),
            Case("start, marks beyond the list", Start, &[2, 511]),
        ],
    },
    Group {
        head: H_X,
        model: &[&[START]],
        zones: &[&[ZONE_H], &[ZONE]],
        cases: &[
            Case("start, the second zone holds it", Start, &[]),
            Case("start, the second zone held it and is struck", Start, &[1]),
        ],
    },
    Group {
        head: H_X,
        model: &[&[START]],
        zones: &[],
        cases: &[Case("start, a list without zones", Start, &[])],
    },
    // Each zone has other Booleans, but for the last.
    Group {
        head: GH_X,
        model: &[&[START_H]],
        zones: &[&[ZONE], &[ZONE_G], &[ZONE_GH], &[ZONE_H]],
        cases: &[
            Case("start, h alone", Start, &[]),
            Case("start, h alone, its zone struck", Start, &[3]),
        ],
    },
    // The start is in none of the first five: x >= 1, x > 0, x < 0, x <= -1, and x <= 5 with x >= 1.
    Group {
        head: H_X,
        model: &[&[START]],
        zones: &[
            &[ZONE, NEG_X_LE, N - 1],
            &[ZONE, NEG_X_LT, N],
            &[ZONE, X_LT, N],
            &[ZONE, X_LE, N - 1],
            &[ZONE, X_LE, N + 5, NEG_X_LE, N - 1],
            &[ZONE, X_LE, N],
            &[ZONE, NEG_X_LE, N],
            &[ZONE, X_LT, N + 1],
        ],
        cases: &[
            Case("start, in x <= 0", Start, &[]),
            Case("start, in x >= 0", Start, &[5]),
            Case("start, in x < 1", Start, &[5, 6]),
            Case("start, in x >= 1, x > 0, x < 0, x <= -1", Start, &[5, 6, 7]),
        ],
    },
    // x < y, y <= x - 1, x = y.
    Group {
        head: H_XY,
        model: &[&[START]],
        zones: &[
            &[ZONE, X_Y_LT, N],
            &[ZONE, Y_X_LE, N - 1],
            &[ZONE, X_Y_LE, N, Y_X_LE, N],
        ],
        cases: &[Case("start, in x = y", Start, &[])],
    },
    Group {
        head: H_X,
        model: &[&[START], &[INVARIANT, NIL, NIL, NEG_X_LE, N - 1]],
        zones: &[&[ZONE, X_LE, N]],
        cases: &[Case("start, outside the invariant", Start, &[])],
    },
];

pub(crate) fn groups() -> &'static [Group] {
    GROUPS
}
