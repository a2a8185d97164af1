// The bad check: no state of a zone meets a bad record.
use crate::case::{Case, Group};
use crate::words::*;
use checks::Check::Bad;

const GROUPS: &[Group] = &[
    // Records: h; not h with x <= 3; h and not h; x <= 1 with x >= 2.
    Group {
        head: H_X,
        model: &[
            &[START],
            &[BAD, H, NIL],
            &[BAD, NIL, H, X_LE, N + 3],
            &[BAD, H, H],
            &[BAD, NIL, NIL, X_LE, N + 1, NEG_X_LE, N - 2],
        ],
        zones: &[
            &[ZONE],
            &[ZONE_H],
            &[ZONE_H, X_LE, N + 1, NEG_X_LE, N - 2],
            &[ZONE_H, X_LE, N + 4],
        ],
        cases: &[
            Case("bad, a Boolean is false that must be true", Bad(0, 0), &[]),
            Case("bad, a Boolean is true that must be false", Bad(1, 1), &[]),
            Case("bad, a Boolean must be true and false", Bad(1, 2), &[]),
            Case("bad, no atoms in zone and record", Bad(1, 0), &[]),
            Case("bad, no atoms in the zone", Bad(0, 1), &[]),
            Case("bad, no atoms in the record", Bad(3, 0), &[]),
            Case("bad, an empty zone", Bad(2, 0), &[]),
            Case("bad, a record that no state meets", Bad(0, 3), &[]),
        ],
    },
    // The record: h and not g.
    Group {
        head: GH_X,
        model: &[&[START], &[BAD, H, G]],
        zones: &[&[ZONE_GH], &[ZONE_H]],
        cases: &[
            Case("bad h without g, both", Bad(0, 0), &[]),
            Case("bad h without g, h", Bad(1, 0), &[]),
        ],
    },
    // Zones: x <= 3, x < 3, x >= 3, 2 < x < 3.
    Group {
        head: H_X,
        model: &[
            &[START],
            &[BAD, NIL, NIL, NEG_X_LE, N - 3],
            &[BAD, NIL, NIL, NEG_X_LT, N - 3],
            &[BAD, NIL, NIL, X_LE, N + 3],
            &[BAD, NIL, NIL, NEG_X_LT, N - 2],
            &[BAD, NIL, NIL, NEG_X_LT, N - 2, X_LT, N + 3],
            &[BAD, NIL, NIL],
            &[BAD, NIL, NIL, X_LE, N - 7],
        ],
        zones: &[
            &[ZONE, X_LE, N + 3],
            &[ZONE, X_LT, N + 3],
            &[ZONE, NEG_X_LE, N - 3],
            &[ZONE, NEG_X_LT, N - 2, X_LT, N + 3],
        ],
        cases: &[
            Case("bad, x <= 3 against x >= 3", Bad(0, 0), &[]),
            Case("bad, x < 3 against x >= 3", Bad(1, 0), &[]),
            Case("bad, x <= 3 against x > 3", Bad(0, 1), &[]),
            Case("bad, x >= 3 against x <= 3", Bad(2, 2), &[]),
            Case("bad, x <= 3 against x > 2", Bad(0, 3), &[]),
            Case("bad, x < 3 against x > 2", Bad(1, 3), &[]),
            Case("bad, x <= 3 against 2 < x < 3", Bad(0, 4), &[]),
            Case("bad, 2 < x < 3 against every x", Bad(3, 5), &[]),
            Case("bad, x <= 3 against x <= -7", Bad(0, 6), &[]),
        ],
    },
    // What follows from two atoms of the zone.
    Group {
        head: H_XY,
        model: &[
            &[START],
            &[BAD, NIL, NIL, NEG_X_LT, N - 3],
            &[BAD, NIL, NIL, NEG_X_LE, N - 3],
            &[BAD, NIL, NIL, NEG_X_LT, N - 2],
            &[BAD, NIL, NIL, NEG_X_LE, N - 2],
        ],
        zones: &[
            &[ZONE, X_Y_LE, N + 1, Y_LE, N + 2],
            &[ZONE, X_Y_LT, N + 1, Y_LE, N + 2],
            &[ZONE, X_Y_LT, N + 1, Y_LT, N + 2],
        ],
        cases: &[
            Case("bad, x - y <= 1, y <= 2 against x > 3", Bad(0, 0), &[]),
            Case("bad, x - y <= 1, y <= 2 against x >= 3", Bad(0, 1), &[]),
            Case("bad, x - y < 1, y <= 2 against x >= 3", Bad(1, 1), &[]),
            Case("bad, x - y < 1, y <= 2 against x > 2", Bad(1, 2), &[]),
            Case("bad, x - y < 1, y < 2 against x >= 2", Bad(2, 3), &[]),
        ],
    },
    Group {
        head: H_XY,
        model: &[
            &[START],
            &[BAD, NIL, NIL, Y_X_LE, N],
            &[BAD, NIL, NIL, Y_X_LE, N + 1],
            &[BAD, NIL, NIL, Y_X_LT, N + 1],
        ],
        zones: &[&[ZONE, X_Y_LE, N - 1], &[ZONE, X_Y_LT, N]],
        cases: &[
            Case("bad, x - y <= -1 against y - x <= 0", Bad(0, 0), &[]),
            Case("bad, x - y <= -1 against y - x <= 1", Bad(0, 1), &[]),
            Case("bad, x - y < 0 against y - x <= 0", Bad(1, 0), &[]),
            Case("bad, x - y < 0 against y - x < 1", Bad(1, 2), &[]),
        ],
    },
    // The invariant x <= 2 is not asked.
    Group {
        head: H_X,
        model: &[
            &[START],
            &[INVARIANT, NIL, NIL, X_LE, N + 2],
            &[BAD, NIL, NIL, NEG_X_LE, N - 4],
        ],
        zones: &[&[ZONE, X_LE, N + 5]],
        cases: &[Case("bad, states outside the invariant", Bad(0, 0), &[])],
    },
    // The greatest and the least number.
    Group {
        head: H_X,
        model: &[
            &[START],
            &[BAD, NIL, NIL, NEG_X_LE, N - 1_000_000],
            &[BAD, NIL, NIL, NEG_X_LT, N - 1_000_000],
            &[BAD, NIL, NIL, NEG_X_LT, N - 999_999],
            &[BAD, NIL, NIL, NEG_X_LE, N + 1_000_000],
            &[BAD, NIL, NIL, NEG_X_LT, N + 1_000_000],
        ],
        zones: &[
            &[ZONE, X_LE, N + 1_000_000],
            &[ZONE, X_LT, N + 1_000_000],
            &[ZONE, X_LE, N - 1_000_000],
        ],
        cases: &[
            Case("bad, x <= 1000000 against x >= 1000000", Bad(0, 0), &[]),
            Case("bad, x <= 1000000 against x > 1000000", Bad(0, 1), &[]),
            Case("bad, x < 1000000 against x > 999999", Bad(1, 2), &[]),
            Case("bad, x <= -1000000 against x >= -1000000", Bad(2, 3), &[]),
            Case("bad, x <= -1000000 against x > -1000000", Bad(2, 4), &[]),
        ],
    },
];

pub(crate) fn groups() -> &'static [Group] {
    GROUPS
}
