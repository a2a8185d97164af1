// The smallest model, a model of 24 Booleans, and models of 15 clocks.
use crate::case::{Case, Group};
use crate::words::*;
use checks::Check::{Bad, Command, Start, Time};

// Heads: 24 Booleans and no clock; no Boolean and 15 clocks.
const BOOLEANS: u32 = 0x1000_0018;

const CLOCKS: u32 = 0x1000_01E0;

// Masks: Boolean 23, and all below it.
const TOP: u32 = 0x4080_0000;

const OTHERS: u32 = 0x407F_FFFF;

// Resets: clocks 1 to 14, and all 15.
const RESET_14: u32 = 0x5000_3FFF;

const RESET_15: u32 = 0x5000_7FFF;

// Atoms on clock 15.
const LAST_LE: u32 = 0x9000_00F0;

const LAST_LT: u32 = 0x9000_01F0;

const NEG_LAST_LE: u32 = 0x9000_000F;

const NEG_LAST_LT: u32 = 0x9000_010F;

const GROUPS: &[Group] = &[
    // No Booleans and no clocks.
    Group {
        head: BARE,
        model: &[
            &[START],
            &[INVARIANT, NIL, NIL],
            &[COMMAND, NIL, NIL, NIL, NIL, RESET],
            &[BAD, NIL, NIL],
        ],
        zones: &[&[ZONE], &[ZONE]],
        cases: &[
            Case("bare, start", Start, &[]),
            Case("bare, bad", Bad(0, 0), &[]),
            Case("bare, time", Time(1), &[]),
            Case("bare, time, zone 0 struck", Time(1), &[0]),
            Case("bare, command", Command(1, 0), &[]),
        ],
    },
    // The command takes Boolean 23 alone to all the others; Boolean 23 is bad.
    Group {
        head: BOOLEANS,
        model: &[
            &[0x2080_0000],
            &[COMMAND, TOP, OTHERS, OTHERS, TOP, RESET],
            &[BAD, TOP, NIL],
        ],
        zones: &[&[0x807F_FFFF], &[0x8080_0000], &[0x80FF_FFFF]],
        cases: &[
            Case("24 Booleans, start", Start, &[]),
            Case("24 Booleans, bad, the others", Bad(0, 0), &[]),
            Case("24 Booleans, bad, all", Bad(2, 0), &[]),
            Case("24 Booleans, command, the last alone", Command(1, 0), &[]),
            Case(
                "24 Booleans, command, all, zone 0 struck",
                Command(2, 0),
                &[0],
            ),
        ],
    },
    Group {
        head: CLOCKS,
        model: &[
            &[START],
            &[INVARIANT, NIL, NIL, X_LE, N + 1],
            // Clocks 1 to 14 become 0.
            &[COMMAND, NIL, NIL, NIL, NIL, RESET_14],
            &[N, N, N, N, N, N, N, N, N, N, N, N, N, N],
            // Clock n becomes n.
            &[COMMAND, NIL, NIL, NIL, NIL, RESET_15],
            &[N + 1, N + 2, N + 3, N + 4, N + 5, N + 6, N + 7, N + 8],
            &[N + 9, N + 10, N + 11, N + 12, N + 13, N + 14, N + 15],
            // Clock 15 is above 15; at least 15.
            &[BAD, NIL, NIL, NEG_LAST_LT, N - 15],
            &[BAD, NIL, NIL, NEG_LAST_LE, N - 15],
        ],
        zones: &[
            &[ZONE, LAST_LE, N + 14],
            &[ZONE, LAST_LE, N + 15],
            // Zone 2: clock 1 is at most 1, each other clock at most 1 above the one before. So the last is at most 15.
            &[ZONE],
            &[0x9000_0010, N + 1],
            &[0x9000_0021, N + 1],
            &[0x9000_0032, N + 1],
            &[0x9000_0043, N + 1],
            &[0x9000_0054, N + 1],
            &[0x9000_0065, N + 1],
            &[0x9000_0076, N + 1],
            &[0x9000_0087, N + 1],
            &[0x9000_0098, N + 1],
            &[0x9000_00A9, N + 1],
            &[0x9000_00BA, N + 1],
            &[0x9000_00CB, N + 1],
            &[0x9000_00DC, N + 1],
            &[0x9000_00ED, N + 1],
            &[0x9000_00FE, N + 1],
        ],
        cases: &[
            Case("chain, start, zones 0 and 1 struck", Start, &[0, 1]),
            Case("chain, bad, the last above 15", Bad(2, 0), &[]),
            Case("chain, bad, the last at least 15", Bad(2, 1), &[]),
            Case("chain, time", Time(2), &[]),
            Case("chain, time, zone 1 struck", Time(2), &[1]),
            Case("chain, all but the last reset", Command(2, 0), &[]),
            Case(
                "chain, all but the last reset, zone 1 struck",
                Command(2, 0),
                &[1],
            ),
            Case("chain, each reset", Command(2, 1), &[]),
            Case("chain, each reset, zone 1 struck", Command(2, 1), &[1]),
        ],
    },
    Group {
        head: CLOCKS,
        model: &[
            &[START],
            &[INVARIANT, NIL, NIL, X_LT, N + 1],
            // Clock 15 is at least 1.
            &[BAD, NIL, NIL, NEG_LAST_LE, N - 1],
        ],
        zones: &[
            &[ZONE, LAST_LE, N],
            &[ZONE, LAST_LE, N + 14],
            &[ZONE, LAST_LT, N + 15],
            // Zone 3: the chain with below for at most. So the last is below 15 in dense time and at most 0 in ticks.
            &[ZONE],
            &[0x9000_0110, N + 1],
            &[0x9000_0121, N + 1],
            &[0x9000_0132, N + 1],
            &[0x9000_0143, N + 1],
            &[0x9000_0154, N + 1],
            &[0x9000_0165, N + 1],
            &[0x9000_0176, N + 1],
            &[0x9000_0187, N + 1],
            &[0x9000_0198, N + 1],
            &[0x9000_01A9, N + 1],
            &[0x9000_01BA, N + 1],
            &[0x9000_01CB, N + 1],
            &[0x9000_01DC, N + 1],
            &[0x9000_01ED, N + 1],
            &[0x9000_01FE, N + 1],
        ],
        cases: &[
            Case(
                "strict chain, start, zones 0 to 2 struck",
                Start,
                &[0, 1, 2],
            ),
            Case("strict chain, bad, the last at least 1", Bad(3, 0), &[]),
            Case("strict chain, time", Time(3), &[]),
        ],
    },
];

pub(crate) fn groups() -> &'static [Group] {
    GROUPS
}
