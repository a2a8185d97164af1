// The command check: the invariant is asked of the state after a command, with the Booleans after it, and not before.
use crate::case::{Case, Group};
use crate::words::*;
use checks::Check::Command;

const GROUPS: &[Group] = &[
    // With h the invariant is x <= 3. The first command sets h, the second clears it.
    Group {
        head: H_X,
        model: &[
            &[START],
            &[INVARIANT, H, NIL, X_LE, N + 3],
            &[COMMAND, NIL, NIL, H, NIL, RESET],
            &[COMMAND, NIL, NIL, NIL, H, RESET],
        ],
        zones: &[
            &[ZONE, X_LE, N + 3],
            &[ZONE, X_LE, N + 10],
            &[ZONE_H, X_LE, N + 3],
            &[ZONE_H, X_LE, N + 10],
        ],
        cases: &[
            Case(
                "after, x <= 10, h comes and asks x <= 3",
                Command(1, 0),
                &[],
            ),
            Case(
                "after, x <= 10, h goes and asked x <= 3",
                Command(3, 1),
                &[],
            ),
        ],
    },
    // Without h the invariant is x <= 3: the other way round.
    Group {
        head: H_X,
        model: &[
            &[START],
            &[INVARIANT, NIL, H, X_LE, N + 3],
            &[COMMAND, NIL, NIL, H, NIL, RESET],
            &[COMMAND, NIL, NIL, NIL, H, RESET],
        ],
        zones: &[
            &[ZONE, X_LE, N + 3],
            &[ZONE, X_LE, N + 10],
            &[ZONE_H, X_LE, N + 3],
            &[ZONE_H, X_LE, N + 10],
        ],
        cases: &[
            Case(
                "after, x <= 10, not h asked x <= 3 and goes",
                Command(1, 0),
                &[],
            ),
            Case(
                "after, x <= 10, not h comes and asks x <= 3",
                Command(3, 1),
                &[],
            ),
        ],
    },
    // The invariant x <= 3, with x := 2, x := 4 and x := 3.
    Group {
        head: H_X,
        model: &[
            &[START],
            &[INVARIANT, NIL, NIL, X_LE, N + 3],
            &[COMMAND, NIL, NIL, NIL, NIL, RESET_X, N + 2],
            &[COMMAND, NIL, NIL, NIL, NIL, RESET_X, N + 4],
            &[COMMAND, NIL, NIL, NIL, NIL, RESET_X, N + 3],
        ],
        zones: &[&[ZONE_H], &[ZONE, NEG_X_LE, N - 5], &[ZONE, X_LE, N + 2]],
        cases: &[
            Case("after, x >= 5, x := 2, then x <= 3", Command(1, 0), &[]),
            Case("after, x <= 2, x := 4, then x <= 3", Command(2, 1), &[]),
            Case("after, x <= 2, x := 3, then x <= 3", Command(2, 2), &[]),
        ],
    },
    Group {
        head: H_X,
        model: &[
            &[START],
            &[INVARIANT, NIL, NIL, X_LT, N + 3],
            &[COMMAND, NIL, NIL, NIL, NIL, RESET_X, N + 3],
            &[COMMAND, NIL, NIL, NIL, NIL, RESET_X, N + 2],
        ],
        zones: &[&[ZONE_H], &[ZONE, X_LE, N + 5]],
        cases: &[
            Case("after, x := 3, then x < 3", Command(1, 0), &[]),
            Case("after, x := 2, then x < 3", Command(1, 1), &[]),
        ],
    },
    // Nothing is reset: what the invariant leaves of x <= 10.
    Group {
        head: H_X,
        model: &[
            &[START],
            &[INVARIANT, NIL, NIL, X_LT, N + 3],
            &[COMMAND, NIL, NIL, NIL, NIL, RESET],
        ],
        zones: &[
            &[ZONE, X_LE, N + 2],
            &[ZONE, X_LT, N + 3],
            &[ZONE, X_LE, N + 10],
        ],
        cases: &[Case("after, x <= 10, then x < 3", Command(2, 0), &[])],
    },
];

pub(crate) fn groups() -> &'static [Group] {
    GROUPS
}
