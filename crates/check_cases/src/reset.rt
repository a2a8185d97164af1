// The command check: clocks that are reset, beside clocks that run on.
use crate::case::{Case, Group};
use crate::words::*;
use checks::Check::Command;

const GROUPS: &[Group] = &[
    Group {
        head: H_X,
        model: &[
            &[START],
            &[COMMAND, NIL, NIL, NIL, NIL, RESET_X, N],
            &[COMMAND, NIL, NIL, NIL, NIL, RESET_X, N + 3],
            &[COMMAND, NIL, NIL, NIL, NIL, RESET_X, N + 2],
        ],
        zones: &[
            &[ZONE, X_LE, N, NEG_X_LE, N],
            &[ZONE, X_LE, N + 3, NEG_X_LE, N - 3],
            &[ZONE],
        ],
        cases: &[
            Case("reset, x := 0", Command(2, 0), &[]),
            Case("reset, x := 3", Command(2, 1), &[]),
            Case("reset, x := 2", Command(2, 2), &[]),
        ],
    },
    Group {
        head: H_X,
        model: &[&[START], &[COMMAND, NIL, NIL, NIL, NIL, RESET_X, N + 3]],
        zones: &[
            &[ZONE, X_LT, N + 3],
            &[ZONE, NEG_X_LT, N - 3],
            &[ZONE, NEG_X_LE, N - 3],
        ],
        cases: &[
            Case("reset, x := 3 in x < 3, x > 3, x >= 3", Command(0, 0), &[]),
            Case("reset, x := 3 in x < 3, x > 3", Command(0, 0), &[2]),
        ],
    },
    // The guard x >= 5 is asked of the old x.
    Group {
        head: H_X,
        model: &[
            &[START],
            &[COMMAND, NIL, NIL, NIL, NIL, RESET_X, N, NEG_X_LE, N - 5],
        ],
        zones: &[&[ZONE_H], &[ZONE, X_LE, N + 4], &[ZONE, NEG_X_LE, N - 5]],
        cases: &[
            Case("reset, x <= 4, guard x >= 5, x := 0", Command(1, 0), &[]),
            Case("reset, x >= 5, guard x >= 5, x := 0", Command(2, 0), &[]),
        ],
    },
    // Two reset clocks. With h the invariant is y - x <= 2.
    Group {
        head: H_XY,
        model: &[
            &[START],
            &[INVARIANT, H, NIL, Y_X_LE, N + 2],
            &[COMMAND, NIL, NIL, NIL, NIL, RESET_XY, N + 1, N + 4],
            &[COMMAND, NIL, NIL, H, NIL, RESET_XY, N + 1, N + 4],
            &[COMMAND, NIL, NIL, H, NIL, RESET_XY, N + 1, N + 3],
        ],
        zones: &[
            &[ZONE, Y_X_LE, N + 2],
            &[ZONE, Y_X_LE, N + 3],
            &[ZONE_H, Y_X_LT, N + 2],
            &[ZONE_H, Y_X_LE, N + 2],
        ],
        cases: &[
            Case("reset, x := 1, y := 4", Command(1, 0), &[]),
            Case("reset, x := 1, y := 4, then y - x <= 2", Command(1, 1), &[]),
            Case("reset, x := 1, y := 3, then y - x <= 2", Command(1, 2), &[]),
            Case("reset, x := 1, y := 3 in y - x < 2", Command(1, 2), &[3]),
        ],
    },
    // A reset clock and one that runs on, 2 <= y <= 5. With h the invariant is y - x <= 3.
    Group {
        head: H_XY,
        model: &[
            &[START],
            &[INVARIANT, H, NIL, Y_X_LE, N + 3],
            &[COMMAND, NIL, NIL, NIL, NIL, RESET_X, N + 1],
            &[COMMAND, NIL, NIL, H, NIL, RESET_X, N + 1],
        ],
        zones: &[
            &[ZONE, Y_X_LE, N + 3],
            &[ZONE, X_Y_LE, N - 2],
            &[ZONE, Y_X_LE, N + 4, X_Y_LE, N - 1],
            &[ZONE, Y_LE, N + 5, NEG_Y_LE, N - 2],
            &[ZONE_H, Y_LT, N + 4],
            &[ZONE_H, Y_LE, N + 4],
        ],
        cases: &[
            Case("reset, 2 <= y <= 5, x := 1", Command(3, 0), &[]),
            Case(
                "reset, 2 <= y <= 5, x := 1, then y - x <= 3",
                Command(3, 1),
                &[],
            ),
        ],
    },
    // What was known of the difference is forgotten with one reset, and known again with two.
    Group {
        head: H_XY,
        model: &[
            &[START],
            &[COMMAND, NIL, NIL, NIL, NIL, RESET_X, N],
            &[COMMAND, NIL, NIL, NIL, NIL, RESET_XY, N, N],
        ],
        zones: &[&[ZONE, X_Y_LE, N, Y_X_LE, N], &[ZONE, X_LE, N, NEG_X_LE, N]],
        cases: &[
            Case("reset, x = y, x := 0", Command(0, 0), &[]),
            Case("reset, x = y, x := 0, y := 0", Command(0, 1), &[]),
        ],
    },
    // x - y <= 1 and y <= 2 give x <= 3, also where y is then reset.
    Group {
        head: H_XY,
        model: &[
            &[START],
            &[COMMAND, NIL, NIL, NIL, NIL, RESET],
            &[COMMAND, NIL, NIL, NIL, NIL, RESET_Y, N],
        ],
        zones: &[
            &[ZONE, X_LE, N + 2],
            &[ZONE, X_LT, N + 3],
            &[ZONE, X_LE, N + 3],
            &[ZONE, X_Y_LE, N + 1, Y_LE, N + 2],
        ],
        cases: &[
            Case("reset, x - y <= 1, y <= 2, none", Command(3, 0), &[]),
            Case("reset, x - y <= 1, y <= 2, y := 0", Command(3, 1), &[]),
            Case(
                "reset, x - y <= 1, y <= 2, y := 0, x <= 3 struck",
                Command(3, 1),
                &[2],
            ),
        ],
    },
    // The least and the greatest number of a reset.
    Group {
        head: H_X,
        model: &[
            &[START],
            &[COMMAND, NIL, NIL, NIL, NIL, RESET_X, N + 1_000_000],
            &[COMMAND, NIL, NIL, NIL, NIL, RESET_X, N],
        ],
        zones: &[
            &[ZONE, X_LT, N + 1_000_000, NEG_X_LT, N],
            &[ZONE, NEG_X_LT, N - 1_000_000],
            &[ZONE, X_LE, N + 1_000_000, NEG_X_LE, N - 1_000_000],
            &[ZONE, X_LE, N - 1_000_000],
            &[ZONE, X_LE, N, NEG_X_LE, N],
        ],
        cases: &[
            Case("reset, x <= -1000000, x := 1000000", Command(3, 0), &[]),
            Case("reset, x <= -1000000, x := 0", Command(3, 1), &[]),
        ],
    },
    // Differences about 1,000,000 and 2,000,000. With h the invariant is y - x < -1,000,000.
    Group {
        head: H_XY,
        model: &[
            &[START],
            &[INVARIANT, H, NIL, Y_X_LT, N - 1_000_000],
            &[COMMAND, NIL, NIL, NIL, NIL, RESET_XY, N + 1_000_000, N],
            &[COMMAND, NIL, NIL, NIL, NIL, RESET_X, N + 1_000_000],
            &[COMMAND, NIL, NIL, H, NIL, RESET_X, N + 1_000_000],
            &[COMMAND, NIL, NIL, H, NIL, RESET_X, N + 999_995],
        ],
        zones: &[
            &[ZONE, X_Y_LT, N + 1_000_000],
            &[ZONE, Y_X_LT, N - 1_000_000],
            &[ZONE, X_Y_LE, N + 1_000_000, Y_X_LE, N - 1_000_000],
            &[ZONE, Y_LE, N - 1_000_000, NEG_Y_LE, N + 1_000_000],
            &[ZONE, NEG_Y_LE, N + 5],
            &[ZONE_H, Y_LE, N - 1],
            &[ZONE_H, Y_LT, N],
        ],
        cases: &[
            Case("reset, x := 1000000, y := 0", Command(3, 0), &[]),
            Case("reset, y = -1000000, x := 1000000", Command(3, 1), &[]),
            Case(
                "reset, y >= -5, x := 1000000, then y - x < -1000000",
                Command(4, 2),
                &[],
            ),
            Case(
                "reset, y >= -5, x := 999995, then y - x < -1000000",
                Command(4, 3),
                &[],
            ),
        ],
    },
];

pub(crate) fn groups() -> &'static [Group] {
    GROUPS
}
