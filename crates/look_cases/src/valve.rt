// The words of the two-phase valve's files, each without its end.

pub const MODEL: [u32; 35] = [
    // 0: the head, one Boolean and one clock; 1: the start.
    0x1000_0021,
    0x2000_0000,
    // 2: the first invariant.
    0x6000_0000,
    0x4000_0001,
    0x4000_0000,
    0x9000_0010,
    0xA800_0003,
    // 7: the second invariant.
    0x6000_0000,
    0x4000_0000,
    0x4000_0001,
    0x9000_0010,
    0xA800_0005,
    // 12: the first command; its reset is 17, its atom 19.
    0x3000_0000,
    0x4000_0000,
    0x4000_0001,
    0x4000_0001,
    0x4000_0000,
    0x5000_0001,
    0xA800_0000,
    0x9000_0001,
    0xA7FF_FFFE,
    // 21: the second command; its reset is 26, its atom 28.
    0x3000_0000,
    0x4000_0001,
    0x4000_0000,
    0x4000_0000,
    0x4000_0001,
    0x5000_0001,
    0xA800_0000,
    0x9000_0001,
    0xA7FF_FFFF,
    // 30: the bad record.
    0x7000_0000,
    0x4000_0001,
    0x4000_0000,
    0x9000_0101,
    0xA7FF_FFFD,
];

pub const ZONES: [u32; 11] = [
    // 0: the head.
    0x1000_0021,
    // 1: the first zone.
    0x8000_0000,
    0x9000_0010,
    0xA800_0005,
    0x9000_0001,
    0xA800_0000,
    // 6: the second zone.
    0x8000_0001,
    0x9000_0010,
    0xA800_0003,
    0x9000_0001,
    0xA800_0000,
];
