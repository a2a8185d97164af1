// Question 6: the unused bits of words.
use crate::case::Case;
use crate::edit::Edit::Put;

pub static CASES: &[Case] = &[
    Case("start with bit 24", &[Put(1, 0x2100_0000)], &[]),
    Case("start with bit 27", &[Put(1, 0x2800_0000)], &[]),
    Case("invariant with bit 0", &[Put(2, 0x6000_0001)], &[]),
    Case("invariant with bit 27", &[Put(7, 0x6800_0000)], &[]),
    Case("invariant's ones with bit 24", &[Put(3, 0x4100_0001)], &[]),
    Case("invariant's zeros with bit 27", &[Put(4, 0x4800_0000)], &[]),
    Case("invariant's atom with bit 9", &[Put(5, 0x9000_0210)], &[]),
    Case("command with bit 1", &[Put(12, 0x3000_0002)], &[]),
    Case("urgent command with bit 1", &[Put(12, 0x3000_0003)], &[]),
    Case("command with bit 27", &[Put(21, 0x3800_0000)], &[]),
    Case("command's ones with bit 24", &[Put(13, 0x4100_0000)], &[]),
    Case("command's zeros with bit 27", &[Put(14, 0x4800_0001)], &[]),
    Case(
        "command's set mask with bit 24",
        &[Put(15, 0x4100_0001)],
        &[],
    ),
    Case(
        "command's clear mask with bit 27",
        &[Put(16, 0x4800_0000)],
        &[],
    ),
    Case("reset with bit 15", &[Put(17, 0x5000_8001)], &[]),
    Case("reset with bit 27", &[Put(26, 0x5800_0001)], &[]),
    Case("command's atom with bit 9", &[Put(19, 0x9000_0201)], &[]),
    Case("command's atom with bit 27", &[Put(28, 0x9800_0001)], &[]),
    Case("bad record with bit 0", &[Put(30, 0x7000_0001)], &[]),
    Case("bad record with bit 27", &[Put(30, 0x7800_0000)], &[]),
    Case(
        "bad record's zeros with bit 24",
        &[Put(32, 0x4100_0000)],
        &[],
    ),
    Case("bad record's atom with bit 9", &[Put(33, 0x9000_0301)], &[]),
    Case(
        "bad record's atom with bit 27",
        &[Put(33, 0x9800_0101)],
        &[],
    ),
    Case("zone with bit 24", &[], &[Put(1, 0x8100_0000)]),
    Case("zone with bit 27", &[], &[Put(6, 0x8800_0001)]),
    Case("first zone's atom with bit 9", &[], &[Put(2, 0x9000_0210)]),
    Case("last zone's atom with bit 27", &[], &[Put(9, 0x9800_0001)]),
    Case("strict atom in a zone", &[], &[Put(2, 0x9000_0110)]),
];
