// Question 5: which kinds of words may stand where in the model, and what comes after what.
use crate::case::Case;
use crate::edit::Edit::{Insert, Put, Remove, Words};
use crate::records::{COMMAND, INVARIANT};

pub static CASES: &[Case] = &[
    // The order of the model's records.
    Case("no start", &[Remove(1, 1)], &[]),
    Case("second head", &[Insert(1, &[0x1000_0021])], &[]),
    Case("head after the start", &[Insert(2, &[0x1000_0021])], &[]),
    Case("second start", &[Insert(2, &[0x2000_0000])], &[]),
    Case(
        "start after an invariant",
        &[Insert(7, &[0x2000_0000])],
        &[],
    ),
    Case(
        "head after a bad record",
        &[Insert(35, &[0x1000_0021])],
        &[],
    ),
    Case("invariant after a command", &[Insert(21, INVARIANT)], &[]),
    Case(
        "invariant after a bad record",
        &[Insert(35, INVARIANT)],
        &[],
    ),
    Case("command after a bad record", &[Insert(35, COMMAND)], &[]),
    Case("zone after the start", &[Insert(2, &[0x8000_0000])], &[]),
    Case(
        "zone after an invariant",
        &[Insert(12, &[0x8000_0000])],
        &[],
    ),
    Case("zone after a command", &[Insert(30, &[0x8000_0000])], &[]),
    Case(
        "zone after a bad record",
        &[Insert(35, &[0x8000_0000])],
        &[],
    ),
    Case("commands and a bad record alone", &[Remove(2, 10)], &[]),
    Case("a bad record alone", &[Remove(2, 28)], &[]),
    Case("invariants and a bad record alone", &[Remove(12, 18)], &[]),
    Case("invariants and commands alone", &[Remove(30, 5)], &[]),
    Case("invariants alone", &[Remove(12, 23)], &[]),
    // Ends in the model.
    Case("end in place of the start", &[Put(1, 0xF000_0001)], &[]),
    Case("end in place of an invariant", &[Put(2, 0xF000_0002)], &[]),
    Case("end in place of a command", &[Put(12, 0xF000_000C)], &[]),
    Case("end in place of a mask", &[Put(14, 0xF000_000E)], &[]),
    Case("two ends", &[Insert(35, &[0xF000_0023])], &[]),
    Case(
        "end after an invariant word",
        &[Words(&[0x1000_0021, 0x2000_0000, 0x6000_0000])],
        &[],
    ),
    Case(
        "end after a command word",
        &[Words(&[0x1000_0021, 0x2000_0000, 0x3000_0000])],
        &[],
    ),
    Case(
        "end after the masks of a command",
        &[Words(&[
            0x1000_0021,
            0x2000_0000,
            0x3000_0000,
            0x4000_0000,
            0x4000_0000,
            0x4000_0000,
            0x4000_0000,
        ])],
        &[],
    ),
    Case(
        "end after a reset that owes a number",
        &[Words(&[
            0x1000_0021,
            0x2000_0000,
            0x3000_0000,
            0x4000_0000,
            0x4000_0000,
            0x4000_0000,
            0x4000_0000,
            0x5000_0001,
        ])],
        &[],
    ),
    Case("end after a bad word", &[Insert(35, &[0x7000_0000])], &[]),
    Case(
        "end after the first mask of a bad record",
        &[Insert(35, &[0x7000_0000, 0x4000_0000])],
        &[],
    ),
    Case("end after an atom", &[Remove(34, 1)], &[]),
    // Kinds that there are not, in the model.
    Case("kind 0 in place of the start", &[Put(1, 0x0000_0000)], &[]),
    Case(
        "kind 0 in place of an invariant",
        &[Put(2, 0x0000_0000)],
        &[],
    ),
    Case(
        "kind 11 in place of an invariant",
        &[Put(2, 0xB000_0000)],
        &[],
    ),
    Case(
        "kind 12 in place of an invariant",
        &[Put(2, 0xC000_0000)],
        &[],
    ),
    Case(
        "kind 13 in place of an invariant",
        &[Put(2, 0xD000_0000)],
        &[],
    ),
    Case(
        "kind 14 in place of an invariant",
        &[Put(2, 0xE000_0000)],
        &[],
    ),
    Case("kind 0 in place of a mask", &[Put(16, 0x0000_0000)], &[]),
    Case("kind 11 in place of an atom", &[Put(19, 0xB000_0001)], &[]),
    Case("kind 12 in place of a number", &[Put(34, 0xC800_0000)], &[]),
    Case(
        "kind 13 in place of a bad word",
        &[Put(30, 0xD000_0000)],
        &[],
    ),
    Case("kind 14 in place of a reset", &[Put(17, 0xE000_0001)], &[]),
];
