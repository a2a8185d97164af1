// The command check: what may fire, and with which Booleans after it.
use crate::case::{Case, Group};
use crate::words::*;
use checks::Check::Command;

const GROUPS: &[Group] = &[
    // Conditions: h; not h; h and not h. Nothing changes.
    Group {
        head: H_X,
        model: &[
            &[START],
            &[COMMAND, H, NIL, NIL, NIL, RESET],
            &[COMMAND, NIL, H, NIL, NIL, RESET],
            &[COMMAND, H, H, NIL, NIL, RESET],
        ],
        zones: &[&[ZONE_H], &[ZONE]],
        cases: &[
            Case("command, condition false", Command(1, 0), &[]),
            Case(
                "command, condition false, zone 0 struck",
                Command(1, 0),
                &[0],
            ),
            Case(
                "command, condition false, all struck",
                Command(1, 0),
                &[0, 1],
            ),
            Case("command, condition true", Command(1, 1), &[]),
            Case(
                "command, condition never true, zone 0 struck",
                Command(0, 2),
                &[0],
            ),
        ],
    },
    // Guards: x > 3, x >= 3, x > 2, 2 < x < 3.
    Group {
        head: H_X,
        model: &[
            &[START],
            &[COMMAND, NIL, NIL, NIL, NIL, RESET, NEG_X_LT, N - 3],
            &[COMMAND, NIL, NIL, NIL, NIL, RESET, NEG_X_LE, N - 3],
            &[COMMAND, NIL, NIL, NIL, NIL, RESET, NEG_X_LT, N - 2],
            &[COMMAND, NIL, NIL, NIL, NIL, RESET],
            &[NEG_X_LT, N - 2, X_LT, N + 3],
        ],
        zones: &[&[ZONE_H], &[ZONE, NEG_X_LE, N - 3], &[ZONE, X_LE, N + 3]],
        cases: &[
            Case("command, x <= 3, guard x > 3", Command(2, 0), &[]),
            Case("command, x <= 3, guard x >= 3", Command(2, 1), &[]),
            Case("command, x <= 3, guard x > 2", Command(2, 2), &[]),
            Case("command, x <= 3, guard 2 < x < 3", Command(2, 3), &[]),
        ],
    },
    // Guards: y - x <= -1, y - x < -1, y - x < 0.
    Group {
        head: H_XY,
        model: &[
            &[START],
            &[COMMAND, NIL, NIL, NIL, NIL, RESET, Y_X_LE, N - 1],
            &[COMMAND, NIL, NIL, NIL, NIL, RESET, Y_X_LT, N - 1],
            &[COMMAND, NIL, NIL, NIL, NIL, RESET, Y_X_LT, N],
        ],
        zones: &[
            &[ZONE_H],
            &[ZONE, NEG_X_LE, N - 3, Y_LE, N + 2],
            &[ZONE, X_LE, N + 3, NEG_Y_LE, N - 2],
        ],
        cases: &[
            Case(
                "command, x <= 3, y >= 2, guard y - x <= -1",
                Command(2, 0),
                &[],
            ),
            Case(
                "command, x <= 3, y >= 2, guard y - x < -1",
                Command(2, 1),
                &[],
            ),
            Case(
                "command, x <= 3, y >= 2, guard y - x < 0",
                Command(2, 2),
                &[],
            ),
        ],
    },
    // Changes: h set and g cleared; h set; both cleared.
    Group {
        head: GH_X,
        model: &[
            &[START],
            &[COMMAND, NIL, NIL, H, G, RESET],
            &[COMMAND, NIL, NIL, H, NIL, RESET],
            &[COMMAND, NIL, NIL, NIL, GH, RESET],
        ],
        zones: &[&[ZONE_G], &[ZONE_GH], &[ZONE], &[ZONE_H]],
        cases: &[
            Case("command, g, h set and g cleared", Command(0, 0), &[]),
            Case(
                "command, g, h set and g cleared, the cover struck",
                Command(0, 0),
                &[3],
            ),
            Case("command, h, h set and g cleared", Command(3, 0), &[]),
            Case("command, g, h set", Command(0, 1), &[]),
            Case("command, g and h, both cleared", Command(1, 2), &[]),
        ],
    },
    // h is set: the zones 0 to 2 and 2 to 4 are not one zone.
    Group {
        head: H_X,
        model: &[&[START], &[COMMAND, NIL, NIL, H, NIL, RESET]],
        zones: &[
            &[ZONE, X_LE, N + 4, NEG_X_LE, N],
            &[ZONE_H, X_LE, N + 2, NEG_X_LE, N],
            &[ZONE_H, X_LE, N + 4, NEG_X_LE, N - 2],
            &[ZONE_H, X_LE, N + 4, NEG_X_LE, N],
            &[ZONE_H],
        ],
        cases: &[
            Case(
                "command, two zones together, and two alone",
                Command(0, 0),
                &[],
            ),
            Case(
                "command, two zones together, and one alone",
                Command(0, 0),
                &[3],
            ),
            Case("command, two zones together", Command(0, 0), &[3, 4]),
        ],
    },
    // x <= 1 with x >= 2 is empty, 2 < x < 3 in ticks alone.
    Group {
        head: H_X,
        model: &[&[START], &[COMMAND, NIL, NIL, NIL, NIL, RESET_X, N]],
        zones: &[
            &[ZONE_H],
            &[ZONE, X_LE, N + 1, NEG_X_LE, N - 2],
            &[ZONE, NEG_X_LT, N - 2, X_LT, N + 3],
            &[ZONE, X_LE, N, NEG_X_LE, N],
        ],
        cases: &[
            Case("command, an empty zone, x := 0", Command(1, 0), &[]),
            Case("command, 2 < x < 3, x := 0", Command(2, 0), &[]),
        ],
    },
];

pub(crate) fn groups() -> &'static [Group] {
    GROUPS
}
