// The time check: one zone holds every state that a wait reaches from a zone, a wait of 0 included.
use crate::case::{Case, Group};
use crate::words::*;
use checks::Check::Time;

const GROUPS: &[Group] = &[
    Group {
        head: H_X,
        model: &[&[START], &[INVARIANT, NIL, NIL, X_LE, N + 5]],
        zones: &[&[ZONE_H, X_LE, N + 5], &[ZONE, X_LE, N + 5]],
        cases: &[
            Case("time, x <= 5 until x <= 5", Time(1), &[]),
            Case("time, x <= 5 until x <= 5, its zone struck", Time(1), &[1]),
        ],
    },
    Group {
        head: H_X,
        model: &[&[START], &[INVARIANT, NIL, NIL, X_LE, N + 3]],
        zones: &[&[ZONE, X_LT, N + 3], &[ZONE, X_LE, N + 3]],
        cases: &[
            Case("time, x < 3 until x <= 3", Time(0), &[]),
            Case("time, x < 3 until x <= 3, the cover struck", Time(0), &[1]),
            Case("time, x < 3 until x <= 3, itself struck", Time(0), &[0]),
        ],
    },
    Group {
        head: H_X,
        model: &[&[START], &[INVARIANT, NIL, NIL, X_LT, N + 3]],
        zones: &[
            &[ZONE, X_LE, N + 2],
            &[ZONE, X_LT, N + 3],
            &[ZONE, NEG_X_LT, N - 2],
            &[ZONE, X_LE, N + 3],
        ],
        cases: &[
            Case("time, x <= 2 until x < 3", Time(0), &[]),
            Case(
                "time, x <= 2 until x < 3, all others struck",
                Time(0),
                &[1, 2, 3],
            ),
            Case("time, x > 2 until x < 3", Time(2), &[]),
            Case("time, x <= 3 until x < 3", Time(3), &[]),
        ],
    },
    // From x = 0 to x <= 4: the zones 0 to 2 and 2 to 4 are not one zone.
    Group {
        head: H_X,
        model: &[&[START], &[INVARIANT, NIL, NIL, X_LE, N + 4]],
        zones: &[
            &[ZONE, X_LE, N, NEG_X_LE, N],
            &[ZONE, X_LE, N + 2, NEG_X_LE, N],
            &[ZONE, X_LE, N + 4, NEG_X_LE, N - 2],
            &[ZONE, X_LE, N + 4, NEG_X_LE, N],
        ],
        cases: &[
            Case("time, two zones together, and one alone", Time(0), &[]),
            Case("time, two zones together", Time(0), &[3]),
        ],
    },
    // The invariant x >= 2 is asked at the beginning of a wait.
    Group {
        head: H_X,
        model: &[&[START], &[INVARIANT, NIL, NIL, NEG_X_LE, N - 2]],
        zones: &[
            &[ZONE_H],
            &[ZONE, X_LE, N + 1, NEG_X_LE, N],
            &[ZONE, X_LE, N + 2, NEG_X_LE, N],
            &[ZONE, NEG_X_LE, N - 2],
        ],
        cases: &[
            Case("time, 0 <= x <= 1 while x >= 2", Time(1), &[]),
            Case(
                "time, 0 <= x <= 1 while x >= 2, zone 0 struck",
                Time(1),
                &[0],
            ),
            Case(
                "time, 0 <= x <= 1 while x >= 2, all struck",
                Time(1),
                &[0, 1, 2, 3],
            ),
            Case("time, 0 <= x <= 2 while x >= 2", Time(2), &[]),
        ],
    },
    // Only states with x = 2 and y = 0 may wait: the cover is x - y >= 2.
    Group {
        head: H_XY,
        model: &[&[START], &[INVARIANT, NIL, NIL, NEG_X_LE, N - 2]],
        zones: &[
            &[ZONE, X_LE, N + 2, NEG_X_LE, N, Y_LE, N, NEG_Y_LE, N],
            &[ZONE, Y_X_LE, N - 2],
        ],
        cases: &[Case("time, 0 <= x <= 2, y = 0 while x >= 2", Time(0), &[])],
    },
    // From x = y = 0 until y <= 1: x < 1 is no cover, x <= 1 is one.
    Group {
        head: H_XY,
        model: &[&[START], &[INVARIANT, NIL, NIL, Y_LE, N + 1]],
        zones: &[
            &[ZONE, X_LE, N, NEG_X_LE, N, Y_LE, N, NEG_Y_LE, N],
            &[ZONE, X_LT, N + 1],
            &[ZONE, X_LE, N + 1],
        ],
        cases: &[Case("time, x = y = 0 until y <= 1", Time(0), &[])],
    },
    // A wait of 0 asks the invariant too.
    Group {
        head: H_X,
        model: &[&[START], &[INVARIANT, NIL, NIL, X_LE, N + 3]],
        zones: &[
            &[ZONE_H],
            &[ZONE, NEG_X_LE, N - 4],
            &[ZONE, NEG_X_LT, N - 3],
            &[ZONE, NEG_X_LE, N - 3],
        ],
        cases: &[
            Case("time, x >= 4 until x <= 3", Time(1), &[]),
            Case("time, x >= 3 until x <= 3", Time(3), &[]),
        ],
    },
    // With h the invariant is x <= 3, without it x <= 7.
    Group {
        head: H_X,
        model: &[
            &[START],
            &[INVARIANT, H, NIL, X_LE, N + 3],
            &[INVARIANT, NIL, H, X_LE, N + 7],
        ],
        zones: &[
            &[ZONE, X_LE, N + 3],
            &[ZONE_H, X_LE, N + 3],
            &[ZONE, X_LE, N + 7],
        ],
        cases: &[
            Case("time, x <= 3 with the invariant for h", Time(1), &[]),
            Case("time, x <= 3 with the invariant for not h", Time(0), &[]),
            Case(
                "time, x <= 3 with the invariant for not h, alone",
                Time(0),
                &[2],
            ),
        ],
    },
    // Of two invariants with three atoms all are asked.
    Group {
        head: H_X,
        model: &[
            &[START],
            &[INVARIANT, NIL, NIL, X_LE, N + 5],
            &[INVARIANT, NIL, NIL, NEG_X_LE, N - 1, X_LE, N + 4],
        ],
        zones: &[&[ZONE, X_LE, N + 4, NEG_X_LE, N - 1], &[ZONE, X_LE, N + 5]],
        cases: &[Case("time, two invariants", Time(1), &[])],
    },
    // The second command is urgent where h holds.
    Group {
        head: H_X,
        model: &[
            &[START],
            &[INVARIANT, NIL, NIL, X_LE, N + 5],
            &[COMMAND, NIL, NIL, NIL, NIL, RESET],
            &[URGENT, H, NIL, NIL, NIL, RESET],
        ],
        zones: &[
            &[ZONE_H, X_LE, N + 2],
            &[ZONE, X_LE, N + 2],
            &[ZONE_H, NEG_X_LE, N - 6],
            &[ZONE_H, X_LE, N + 5],
            &[ZONE_H],
        ],
        cases: &[
            Case("time, urgent, x <= 2", Time(0), &[]),
            Case("time, not urgent, x <= 2", Time(1), &[]),
            Case("time, urgent, x >= 6 until x <= 5", Time(2), &[]),
            Case("time, urgent, every x until x <= 5", Time(4), &[]),
        ],
    },
    // The urgent command can't fire, since x := 7 is outside the invariant; its condition holds all the same.
    Group {
        head: H_X,
        model: &[
            &[START],
            &[INVARIANT, NIL, NIL, X_LE, N + 5],
            &[URGENT, NIL, NIL, NIL, NIL, RESET_X, N + 7],
        ],
        zones: &[&[ZONE, X_LE, N + 2]],
        cases: &[Case("time, urgent and can't fire, x <= 2", Time(0), &[])],
    },
    // Urgent where h holds and g does not; the first command's condition never holds.
    Group {
        head: GH_X,
        model: &[
            &[START],
            &[INVARIANT, NIL, NIL, X_LE, N + 5],
            &[URGENT, GH, GH, NIL, NIL, RESET],
            &[URGENT, H, G, NIL, NIL, RESET],
        ],
        zones: &[&[ZONE_H, X_LE, N + 2], &[ZONE_GH, X_LE, N + 2]],
        cases: &[
            Case("time, urgent h without g, h", Time(0), &[]),
            Case("time, urgent h without g, both", Time(1), &[]),
        ],
    },
    // A wait changes no difference of two clocks.
    Group {
        head: H_XY,
        model: &[&[START]],
        zones: &[
            &[ZONE, X_Y_LE, N],
            &[ZONE, X_Y_LE, N + 1],
            &[ZONE, X_Y_LT, N + 1],
            &[ZONE, X_Y_LE, N + 1, Y_LE, N + 2],
        ],
        cases: &[
            Case("time, x - y <= 1", Time(1), &[]),
            Case("time, x - y < 1", Time(2), &[]),
            Case("time, x - y <= 1, y <= 2", Time(3), &[]),
        ],
    },
    Group {
        head: H_XY,
        model: &[&[START], &[INVARIANT, NIL, NIL, X_Y_LE, N + 1]],
        zones: &[&[ZONE, X_Y_LE, N], &[ZONE, X_Y_LE, N + 1], &[ZONE]],
        cases: &[Case("time, every x and y while x - y <= 1", Time(2), &[])],
    },
    // x - y <= 1 and y <= 2 give x <= 3.
    Group {
        head: H_XY,
        model: &[&[START], &[INVARIANT, NIL, NIL, Y_LE, N + 2]],
        zones: &[
            &[ZONE, X_LE, N + 2],
            &[ZONE, X_LT, N + 3],
            &[ZONE, X_LE, N + 3],
            &[ZONE, X_Y_LE, N + 1, Y_LE, N + 2],
        ],
        cases: &[Case("time, x - y <= 1, y <= 2 until y <= 2", Time(3), &[])],
    },
    // x <= 1 with x >= 2 is empty, 2 < x < 3 in ticks alone.
    Group {
        head: H_X,
        model: &[&[START]],
        zones: &[
            &[ZONE_H],
            &[ZONE, X_LE, N + 1, NEG_X_LE, N - 2],
            &[ZONE, NEG_X_LT, N - 2, X_LT, N + 3],
            &[ZONE, NEG_X_LT, N - 2],
        ],
        cases: &[
            Case("time, an empty zone", Time(1), &[]),
            Case("time, 2 < x < 3", Time(2), &[]),
            Case("time, 2 < x < 3, the cover struck", Time(2), &[3]),
        ],
    },
    // A wait of 0 counts.
    Group {
        head: H_X,
        model: &[&[START]],
        zones: &[
            &[ZONE, NEG_X_LT, N],
            &[ZONE, X_LE, N, NEG_X_LE, N],
            &[ZONE, NEG_X_LE, N],
        ],
        cases: &[
            Case("time, x = 0 in x >= 0", Time(1), &[]),
            Case("time, x = 0 in x > 0", Time(1), &[2]),
        ],
    },
    Group {
        head: H_X,
        model: &[&[START]],
        zones: &[&[ZONE, NEG_X_LE, N - 3], &[ZONE, NEG_X_LT, N - 2]],
        cases: &[Case("time, x > 2", Time(1), &[])],
    },
    // A clock may be negative.
    Group {
        head: H_X,
        model: &[&[START], &[INVARIANT, NIL, NIL, X_LE, N + 5]],
        zones: &[
            &[ZONE, X_LE, N + 5, NEG_X_LE, N],
            &[ZONE, X_LE, N - 4, NEG_X_LE, N + 4],
            &[ZONE, X_LE, N + 4],
            &[ZONE, X_LE, N + 5],
        ],
        cases: &[Case("time, x = -4 until x <= 5", Time(1), &[])],
    },
    // The least and the greatest number.
    Group {
        head: H_X,
        model: &[&[START], &[INVARIANT, NIL, NIL, X_LE, N + 1_000_000]],
        zones: &[
            &[ZONE, X_LE, N - 1_000_000, NEG_X_LE, N + 1_000_000],
            &[ZONE, X_LT, N + 1_000_000, NEG_X_LE, N + 1_000_000],
            &[ZONE, X_LE, N + 1_000_000, NEG_X_LT, N + 1_000_000],
            &[ZONE, X_LE, N + 1_000_000, NEG_X_LE, N + 1_000_000],
        ],
        cases: &[Case("time, x = -1000000 until x <= 1000000", Time(0), &[])],
    },
];

pub(crate) fn groups() -> &'static [Group] {
    GROUPS
}
