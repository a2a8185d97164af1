// Question 7: the Booleans and clocks that words name.
use crate::case::Case;
use crate::edit::Edit::{Put, Words};

pub static CASES: &[Case] = &[
    // Booleans that are not known.
    Case("start with the known Boolean", &[Put(1, 0x2000_0001)], &[]),
    Case("start with an unknown Boolean", &[Put(1, 0x2000_0002)], &[]),
    Case("start with Boolean 23", &[Put(1, 0x2080_0000)], &[]),
    Case(
        "invariant's ones with an unknown Boolean",
        &[Put(3, 0x4000_0003)],
        &[],
    ),
    Case(
        "invariant's zeros with an unknown Boolean",
        &[Put(4, 0x4000_0002)],
        &[],
    ),
    Case(
        "command's ones with an unknown Boolean",
        &[Put(13, 0x4000_0002)],
        &[],
    ),
    Case(
        "command's zeros with Boolean 23",
        &[Put(14, 0x4080_0001)],
        &[],
    ),
    Case(
        "command's set mask with an unknown Boolean",
        &[Put(15, 0x4000_0003)],
        &[],
    ),
    Case(
        "command's clear mask with an unknown Boolean",
        &[Put(16, 0x4000_0002)],
        &[],
    ),
    Case(
        "bad record's ones with an unknown Boolean",
        &[Put(31, 0x4000_0002)],
        &[],
    ),
    Case(
        "bad record's zeros with Boolean 23",
        &[Put(32, 0x4080_0000)],
        &[],
    ),
    Case("zone with an unknown Boolean", &[], &[Put(1, 0x8000_0002)]),
    Case("zone with Boolean 23", &[], &[Put(6, 0x8080_0001)]),
    Case(
        "24 Booleans, all in use",
        &[
            Put(0, 0x1000_0038),
            Put(1, 0x20FF_FFFF),
            Put(3, 0x40FF_FFFF),
        ],
        &[Put(0, 0x1000_0038), Put(1, 0x80FF_FFFF)],
    ),
    Case(
        "23 Booleans, with Boolean 22",
        &[Put(0, 0x1000_0037), Put(1, 0x2040_0000)],
        &[Put(0, 0x1000_0037)],
    ),
    Case(
        "23 Booleans, with Boolean 23",
        &[Put(0, 0x1000_0037), Put(1, 0x2080_0000)],
        &[Put(0, 0x1000_0037)],
    ),
    Case(
        "no Booleans, and a start with one",
        &[Put(0, 0x1000_0020), Put(1, 0x2000_0001)],
        &[],
    ),
    Case(
        "no Booleans, and a mask with one",
        &[Put(0, 0x1000_0020)],
        &[],
    ),
    Case(
        "no Booleans, and a zone with one",
        &[Words(&[0x1000_0000, 0x2000_0000])],
        &[Words(&[0x1000_0000, 0x8000_0001])],
    ),
    // Clocks that are not known.
    Case("reset of an unknown clock", &[Put(17, 0x5000_0002)], &[]),
    Case("reset of clock 15", &[Put(26, 0x5000_4001)], &[]),
    Case(
        "invariant's atom with an unknown i",
        &[Put(5, 0x9000_0020)],
        &[],
    ),
    Case("invariant's atom with i 15", &[Put(5, 0x9000_00F0)], &[]),
    Case(
        "command's atom with an unknown j",
        &[Put(19, 0x9000_0002)],
        &[],
    ),
    Case("command's atom with j 15", &[Put(28, 0x9000_000F)], &[]),
    Case(
        "bad record's atom with an unknown j",
        &[Put(33, 0x9000_0102)],
        &[],
    ),
    Case(
        "bad record's atom with i and j 0",
        &[Put(33, 0x9000_0100)],
        &[],
    ),
    Case(
        "bad record's atom with i and j 1",
        &[Put(33, 0x9000_0111)],
        &[],
    ),
    Case(
        "first zone's atom with an unknown i",
        &[],
        &[Put(2, 0x9000_0020)],
    ),
    Case(
        "last zone's atom with an unknown j",
        &[],
        &[Put(9, 0x9000_0002)],
    ),
    Case(
        "last zone's atom with i and j 1",
        &[],
        &[Put(9, 0x9000_0011)],
    ),
    Case(
        "15 clocks, with clocks 14 and 15",
        &[
            Put(0, 0x1000_01E1),
            Put(5, 0x9000_00F0),
            Put(17, 0x5000_4000),
            Put(33, 0x9000_01FE),
        ],
        &[Put(0, 0x1000_01E1), Put(2, 0x9000_00EF)],
    ),
    Case(
        "14 clocks, and a reset of clock 14",
        &[Put(0, 0x1000_01C1), Put(17, 0x5000_2000)],
        &[Put(0, 0x1000_01C1)],
    ),
    Case(
        "14 clocks, and a reset of clock 15",
        &[Put(0, 0x1000_01C1), Put(17, 0x5000_4000)],
        &[Put(0, 0x1000_01C1)],
    ),
    Case(
        "14 clocks, and an atom with i 15",
        &[Put(0, 0x1000_01C1), Put(5, 0x9000_00F0)],
        &[Put(0, 0x1000_01C1)],
    ),
    Case(
        "no clocks, and an atom with i 1",
        &[Words(&[
            0x1000_0001,
            0x2000_0000,
            0x6000_0000,
            0x4000_0000,
            0x4000_0000,
            0x9000_0010,
            0xA800_0000,
        ])],
        &[Words(&[0x1000_0001])],
    ),
    Case(
        "no clocks, and an atom with j 1",
        &[Words(&[
            0x1000_0001,
            0x2000_0000,
            0x6000_0000,
            0x4000_0000,
            0x4000_0000,
            0x9000_0001,
            0xA800_0000,
        ])],
        &[Words(&[0x1000_0001])],
    ),
    Case(
        "no clocks, and an atom with i and j 0",
        &[Words(&[
            0x1000_0001,
            0x2000_0000,
            0x6000_0000,
            0x4000_0000,
            0x4000_0000,
            0x9000_0000,
            0xA800_0000,
        ])],
        &[Words(&[0x1000_0001])],
    ),
    Case(
        "no clocks, and a reset of clock 1",
        &[Words(&[
            0x1000_0001,
            0x2000_0000,
            0x3000_0000,
            0x4000_0000,
            0x4000_0000,
            0x4000_0000,
            0x4000_0000,
            0x5000_0001,
            0xA800_0000,
        ])],
        &[Words(&[0x1000_0001])],
    ),
    Case(
        "no clocks, and a zone with an atom",
        &[Words(&[0x1000_0001, 0x2000_0000])],
        &[Words(&[0x1000_0001, 0x8000_0000, 0x9000_0010, 0xA800_0000])],
    ),
];
