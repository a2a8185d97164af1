// Records that the cases are made of, besides the valve's.

// An invariant without atoms.
pub const INVARIANT: &[u32] = &[0x6000_0000, 0x4000_0000, 0x4000_0000];

// A command that changes and resets nothing, without atoms.
pub const COMMAND: &[u32] = &[
    0x3000_0000,
    0x4000_0000,
    0x4000_0000,
    0x4000_0000,
    0x4000_0000,
    0x5000_0000,
];

// A bad record without atoms.
pub const BAD: &[u32] = &[0x7000_0000, 0x4000_0000, 0x4000_0000];

// A model with one record of each kind, each with one atom: its places are 2, 7 and 15.
// The longest model has 32 such invariants and 32 such bad records of 64 atoms each (131 words), 59 commands of 64 atoms
// (134 words) and one of 42 (90 words): with the head, the start and the end 16,383 words.
pub const ONE_OF_EACH: &[u32] = &[
    0x1000_0021,
    0x2000_0000,
    0x6000_0000,
    0x4000_0000,
    0x4000_0000,
    0x9000_0010,
    0xA800_0000,
    0x3000_0000,
    0x4000_0000,
    0x4000_0000,
    0x4000_0000,
    0x4000_0000,
    0x5000_0000,
    0x9000_0010,
    0xA800_0000,
    0x7000_0000,
    0x4000_0000,
    0x4000_0000,
    0x9000_0010,
    0xA800_0000,
];

// A list with one zone, which has one atom.
// The longest list has 126 such zones of 64 atoms each (129 words) and one of 63 (127 words): with the head and the end
// 16,383 words.
pub const HEAD_AND_ZONE: &[u32] = &[0x1000_0021, 0x8000_0000, 0x9000_0010, 0xA800_0005];
