// What the checks refuse, and in which order: a short work area, then a zone, then a record that is not there.
use crate::case::{Case, Group};
use crate::words::*;
use checks::Check::{Bad, Command, Start, Time};

// One command, one bad record, one zone.
const MODEL: &[&[u32]] = &[
    &[START],
    &[COMMAND, NIL, NIL, NIL, NIL, RESET],
    &[BAD, NIL, NIL],
];

const ZONES: &[&[u32]] = &[&[ZONE]];

// For a work area of 577 bounds.
const SHORT: &[Group] = &[Group {
    head: H_X,
    model: MODEL,
    zones: ZONES,
    cases: &[
        Case("577 bounds, start", Start, &[]),
        Case("577 bounds, bad", Bad(0, 0), &[]),
        Case("577 bounds, bad, no such zone and record", Bad(1, 1), &[]),
        Case("577 bounds, time", Time(0), &[]),
        Case("577 bounds, time, no such zone", Time(1), &[]),
        Case("577 bounds, command", Command(0, 0), &[]),
        Case(
            "577 bounds, command, no such zone and record",
            Command(1, 1),
            &[],
        ),
    ],
}];

// For a work area of 578 bounds.
const EXACT: &[Group] = &[
    Group {
        head: H_X,
        model: MODEL,
        zones: ZONES,
        cases: &[
            Case("578 bounds, bad", Bad(0, 0), &[]),
            Case("578 bounds, bad, no such record", Bad(0, 1), &[]),
            Case("578 bounds, bad, no such zone", Bad(1, 0), &[]),
            Case("578 bounds, bad, no such zone and record", Bad(1, 1), &[]),
            Case("578 bounds, time", Time(0), &[]),
            Case("578 bounds, time, no such zone", Time(1), &[]),
            Case(
                "578 bounds, time, greatest zone number",
                Time(usize::MAX),
                &[],
            ),
            Case("578 bounds, command", Command(0, 0), &[]),
            Case("578 bounds, command, no such record", Command(0, 1), &[]),
            Case(
                "578 bounds, command, greatest number",
                Command(0, usize::MAX),
                &[],
            ),
            Case("578 bounds, command, no such zone", Command(1, 0), &[]),
            Case(
                "578 bounds, command, no such zone and record",
                Command(1, 1),
                &[],
            ),
        ],
    },
    Group {
        head: H_X,
        model: &[&[START]],
        zones: ZONES,
        cases: &[
            Case("no records, bad", Bad(0, 0), &[]),
            Case("no records, command", Command(0, 0), &[]),
        ],
    },
    Group {
        head: H_X,
        model: MODEL,
        zones: &[],
        cases: &[
            Case("no zones, bad", Bad(0, 0), &[]),
            Case("no zones, time", Time(0), &[]),
            Case("no zones, command", Command(0, 0), &[]),
        ],
    },
];

// For a work area of 600 bounds.
const LONG: &[Group] = &[Group {
    head: H_X,
    model: MODEL,
    zones: ZONES,
    cases: &[Case("600 bounds, time", Time(0), &[])],
}];

pub(crate) fn with_577() -> &'static [Group] {
    SHORT
}

pub(crate) fn with_578() -> &'static [Group] {
    EXACT
}

pub(crate) fn with_600() -> &'static [Group] {
    LONG
}
