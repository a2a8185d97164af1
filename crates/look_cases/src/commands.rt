// Questions 9 and 10: what a command sets and clears, and its urgency.
use crate::case::Case;
use crate::edit::Edit::{Put, Remove, Words};

pub static CASES: &[Case] = &[
    // Set and clear masks: question 9.
    Case(
        "set and clear share a Boolean",
        &[Put(16, 0x4000_0001)],
        &[],
    ),
    Case(
        "second command's set and clear share a Boolean",
        &[Put(24, 0x4000_0001)],
        &[],
    ),
    Case(
        "set and clear share a Boolean in a command alone",
        &[Words(&[
            0x1000_0021,
            0x2000_0000,
            0x3000_0000,
            0x4000_0000,
            0x4000_0000,
            0x4000_0001,
            0x4000_0001,
            0x5000_0000,
        ])],
        &[],
    ),
    Case(
        "set and clear share Boolean 23",
        &[
            Put(0, 0x1000_0038),
            Put(15, 0x4080_0000),
            Put(16, 0x4080_0000),
        ],
        &[Put(0, 0x1000_0038)],
    ),
    Case(
        "set and clear share one of many",
        &[
            Put(0, 0x1000_0038),
            Put(15, 0x4055_5555),
            Put(16, 0x40AA_AAAB),
        ],
        &[Put(0, 0x1000_0038)],
    ),
    Case(
        "set and clear share none of many",
        &[
            Put(0, 0x1000_0038),
            Put(15, 0x4055_5555),
            Put(16, 0x40AA_AAAA),
        ],
        &[Put(0, 0x1000_0038)],
    ),
    Case(
        "command's ones and zeros share a Boolean",
        &[Put(13, 0x4000_0001)],
        &[],
    ),
    Case(
        "command's zeros and clear share a Boolean",
        &[Put(15, 0x4000_0000), Put(16, 0x4000_0001)],
        &[],
    ),
    Case(
        "invariant's ones and zeros share a Boolean",
        &[Put(4, 0x4000_0001)],
        &[],
    ),
    Case(
        "bad record's ones and zeros share a Boolean",
        &[Put(32, 0x4000_0001)],
        &[],
    ),
    // Urgent commands: question 10.
    Case("first command urgent", &[Put(12, 0x3000_0001)], &[]),
    Case("second command urgent", &[Put(21, 0x3000_0001)], &[]),
    Case(
        "urgent command alone",
        &[Words(&[
            0x1000_0021,
            0x2000_0000,
            0x3000_0001,
            0x4000_0000,
            0x4000_0000,
            0x4000_0000,
            0x4000_0000,
            0x5000_0000,
            0x9000_0010,
            0xA800_0000,
        ])],
        &[],
    ),
    Case(
        "last command urgent, and no bad record",
        &[Put(21, 0x3000_0001), Remove(30, 5)],
        &[],
    ),
    Case(
        "first command urgent without atoms",
        &[Put(12, 0x3000_0001), Remove(19, 2)],
        &[],
    ),
    Case(
        "second command urgent without atoms",
        &[Put(21, 0x3000_0001), Remove(28, 2)],
        &[],
    ),
    Case(
        "both commands urgent without atoms",
        &[
            Put(12, 0x3000_0001),
            Put(21, 0x3000_0001),
            Remove(28, 2),
            Remove(19, 2),
        ],
        &[],
    ),
];
