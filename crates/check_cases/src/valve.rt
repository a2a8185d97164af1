// The two-phase valve: its nine checks, and the same files after an edit.
use crate::case::{Case, Group};
use crate::words::*;
use checks::Check::{Bad, Command, Start, Time};

// With h, x is at most 3; without it, at most 5.
const SHORT_PHASE: &[u32] = &[INVARIANT, H, NIL, X_LE, N + 3];

const LONG_PHASE: &[u32] = &[INVARIANT, NIL, H, X_LE, N + 5];

// h comes from x >= 2 on and goes from x >= 1 on; x starts again.
const TURN_ON: &[u32] = &[COMMAND, NIL, H, H, NIL, RESET_X, N, NEG_X_LE, N - 2];

const TURN_OFF: &[u32] = &[COMMAND, H, NIL, NIL, H, RESET_X, N, NEG_X_LE, N - 1];

// h with x > 3 is bad.
const TOO_LATE: &[u32] = &[BAD, H, NIL, NEG_X_LT, N - 3];

const LONG_ZONE: &[u32] = &[ZONE, X_LE, N + 5, NEG_X_LE, N];

const SHORT_ZONE: &[u32] = &[ZONE_H, X_LE, N + 3, NEG_X_LE, N];

const MODEL: &[&[u32]] = &[
    &[START],
    SHORT_PHASE,
    LONG_PHASE,
    TURN_ON,
    TURN_OFF,
    TOO_LATE,
];

const GROUPS: &[Group] = &[
    Group {
        head: H_X,
        model: MODEL,
        zones: &[LONG_ZONE, SHORT_ZONE],
        cases: &[
            Case("valve, start", Start, &[]),
            Case("valve, zone 0 bad 0", Bad(0, 0), &[]),
            Case("valve, zone 0 time", Time(0), &[]),
            Case("valve, zone 0 command 0", Command(0, 0), &[]),
            Case("valve, zone 0 command 1", Command(0, 1), &[]),
            Case("valve, zone 1 bad 0", Bad(1, 0), &[]),
            Case("valve, zone 1 time", Time(1), &[]),
            Case("valve, zone 1 command 0", Command(1, 0), &[]),
            Case("valve, zone 1 command 1", Command(1, 1), &[]),
            // The first three hold, the fourth does not.
            Case("valve, zone 1 struck, start", Start, &[1]),
            Case("valve, zone 1 struck, zone 0 time", Time(0), &[1]),
            Case(
                "valve, zone 1 struck, zone 0 command 0",
                Command(0, 0),
                &[1],
            ),
            Case(
                "valve, zone 0 struck, zone 1 command 0",
                Command(1, 0),
                &[0],
            ),
            Case(
                "valve, zone 0 struck, zone 1 command 1",
                Command(1, 1),
                &[0],
            ),
        ],
    },
    // Zone 1 with x < 3.
    Group {
        head: H_X,
        model: MODEL,
        zones: &[LONG_ZONE, &[ZONE_H, X_LT, N + 3, NEG_X_LE, N]],
        cases: &[
            Case(
                "valve, zone 1 below 3, zone 0 command 0",
                Command(0, 0),
                &[],
            ),
            Case("valve, zone 1 below 3, zone 1 bad 0", Bad(1, 0), &[]),
            Case("valve, zone 1 below 3, zone 1 time", Time(1), &[]),
        ],
    },
    // The bad record: without h, 2 < x < 3.
    Group {
        head: H_X,
        model: &[
            &[START],
            SHORT_PHASE,
            LONG_PHASE,
            TURN_ON,
            TURN_OFF,
            &[BAD, NIL, H, NEG_X_LT, N - 2, X_LT, N + 3],
        ],
        zones: &[LONG_ZONE, SHORT_ZONE],
        cases: &[
            Case("valve, bad between 2 and 3, zone 0 bad 0", Bad(0, 0), &[]),
            Case("valve, bad between 2 and 3, zone 1 bad 0", Bad(1, 0), &[]),
        ],
    },
    // A third zone that is empty: x <= 1 and x >= 2.
    Group {
        head: H_X,
        model: MODEL,
        zones: &[LONG_ZONE, SHORT_ZONE, &[ZONE, X_LE, N + 1, NEG_X_LE, N - 2]],
        cases: &[
            Case("valve, an empty zone 2, zone 2 bad 0", Bad(2, 0), &[]),
            Case("valve, an empty zone 2, zone 2 time", Time(2), &[]),
            Case(
                "valve, an empty zone 2, zone 2 command 0",
                Command(2, 0),
                &[],
            ),
            Case(
                "valve, an empty zone 2, zone 2 command 1",
                Command(2, 1),
                &[],
            ),
            Case(
                "valve, an empty zone 2, zone 0 struck, zone 2 time",
                Time(2),
                &[0],
            ),
        ],
    },
    Group {
        head: H_X,
        model: MODEL,
        zones: &[],
        cases: &[Case("valve, no zones, start", Start, &[])],
    },
    // An urgent command may have no atom.
    Group {
        head: H_X,
        model: &[
            &[START],
            SHORT_PHASE,
            LONG_PHASE,
            &[URGENT, NIL, H, H, NIL, RESET_X, N, NEG_X_LE, N - 2],
            TURN_OFF,
            TOO_LATE,
        ],
        zones: &[LONG_ZONE, SHORT_ZONE],
        cases: &[Case("valve, command 0 urgent with its atom", Start, &[])],
    },
    Group {
        head: H_X,
        model: &[
            &[START],
            SHORT_PHASE,
            LONG_PHASE,
            &[URGENT, NIL, H, H, NIL, RESET_X, N],
            TURN_OFF,
            TOO_LATE,
        ],
        zones: &[LONG_ZONE, SHORT_ZONE],
        cases: &[
            Case("valve, command 0 urgent, zone 0 time", Time(0), &[]),
            Case(
                "valve, command 0 urgent, zone 0 command 0",
                Command(0, 0),
                &[],
            ),
            Case("valve, command 0 urgent, zone 1 time", Time(1), &[]),
        ],
    },
];

pub(crate) fn groups() -> &'static [Group] {
    GROUPS
}
