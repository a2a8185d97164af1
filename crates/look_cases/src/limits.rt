// Question 11: how many records and atoms there may be.
use crate::case::Case;
use crate::edit::Edit::{Insert, Repeat, Words};
use crate::records::{BAD, COMMAND, INVARIANT};

pub static CASES: &[Case] = &[
    // As many records as there may be, and one more.
    Case("32 invariants", &[Repeat(2, 5, 30)], &[]),
    Case("33 invariants", &[Repeat(2, 5, 31)], &[]),
    Case(
        "33 invariants without atoms",
        &[
            Words(&[0x1000_0021, 0x2000_0000]),
            Insert(2, INVARIANT),
            Repeat(2, 3, 32),
        ],
        &[],
    ),
    Case("64 commands", &[Repeat(12, 9, 62)], &[]),
    Case("65 commands", &[Repeat(12, 9, 63)], &[]),
    Case(
        "65 commands without atoms",
        &[
            Words(&[0x1000_0021, 0x2000_0000]),
            Insert(2, COMMAND),
            Repeat(2, 6, 64),
        ],
        &[],
    ),
    Case("32 bad records", &[Repeat(30, 5, 31)], &[]),
    Case("33 bad records", &[Repeat(30, 5, 32)], &[]),
    Case(
        "33 bad records without atoms",
        &[
            Words(&[0x1000_0021, 0x2000_0000]),
            Insert(2, BAD),
            Repeat(2, 3, 32),
        ],
        &[],
    ),
    Case("512 zones", &[], &[Repeat(1, 5, 510)]),
    Case("513 zones", &[], &[Repeat(1, 5, 511)]),
    Case(
        "512 zones without atoms",
        &[],
        &[Words(&[0x1000_0021, 0x8000_0000]), Repeat(1, 1, 511)],
    ),
    Case(
        "513 zones without atoms",
        &[],
        &[Words(&[0x1000_0021, 0x8000_0000]), Repeat(1, 1, 512)],
    ),
    Case(
        "as many records of each kind as there may be",
        &[Repeat(30, 5, 31), Repeat(12, 9, 62), Repeat(2, 5, 30)],
        &[Repeat(1, 5, 510)],
    ),
    // As many atoms as there may be, and one more.
    Case("64 atoms in an invariant", &[Repeat(5, 2, 63)], &[]),
    Case("65 atoms in an invariant", &[Repeat(5, 2, 64)], &[]),
    Case(
        "64 atoms in each invariant",
        &[Repeat(10, 2, 63), Repeat(5, 2, 63)],
        &[],
    ),
    Case("64 atoms in a command", &[Repeat(19, 2, 63)], &[]),
    Case("65 atoms in a command", &[Repeat(19, 2, 64)], &[]),
    Case("64 atoms in a bad record", &[Repeat(33, 2, 63)], &[]),
    Case("65 atoms in a bad record", &[Repeat(33, 2, 64)], &[]),
    Case("64 atoms in a zone", &[], &[Repeat(2, 2, 62)]),
    Case("65 atoms in a zone", &[], &[Repeat(2, 2, 63)]),
    Case(
        "64 atoms in each zone",
        &[],
        &[Repeat(7, 2, 62), Repeat(2, 2, 62)],
    ),
    Case("65 atoms in the last zone", &[], &[Repeat(7, 2, 63)]),
];
