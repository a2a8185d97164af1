// The words of the files by name. h is Boolean 0 and g is Boolean 1; x is clock 1 and y is clock 2.

// Heads: how many Booleans and clocks there are.
pub const BARE: u32 = 0x1000_0000;

pub const H_X: u32 = 0x1000_0021;

pub const H_XY: u32 = 0x1000_0041;

pub const GH_X: u32 = 0x1000_0022;

// What begins a record. A start and a zone are named after the Booleans that are true.
pub const START: u32 = 0x2000_0000;

pub const START_H: u32 = 0x2000_0001;

pub const COMMAND: u32 = 0x3000_0000;

pub const URGENT: u32 = 0x3000_0001;

pub const INVARIANT: u32 = 0x6000_0000;

pub const BAD: u32 = 0x7000_0000;

pub const ZONE: u32 = 0x8000_0000;

pub const ZONE_H: u32 = 0x8000_0001;

pub const ZONE_G: u32 = 0x8000_0002;

pub const ZONE_GH: u32 = 0x8000_0003;

// Masks: no Boolean, one of them, both. Two make a condition (ones, zeros), two more a command's change (set, clear).
pub const NIL: u32 = 0x4000_0000;

pub const H: u32 = 0x4000_0001;

pub const G: u32 = 0x4000_0002;

pub const GH: u32 = 0x4000_0003;

// Resets: a number for each clock follows.
pub const RESET: u32 = 0x5000_0000;

pub const RESET_X: u32 = 0x5000_0001;

pub const RESET_Y: u32 = 0x5000_0002;

pub const RESET_XY: u32 = 0x5000_0003;

// Atoms: a clock, a clock negated or a difference, at most (LE) or below (LT) the number that follows. So x >= 2 is
// NEG_X_LE, N - 2.
pub const X_LE: u32 = 0x9000_0010;

pub const X_LT: u32 = 0x9000_0110;

pub const NEG_X_LE: u32 = 0x9000_0001;

pub const NEG_X_LT: u32 = 0x9000_0101;

pub const Y_LE: u32 = 0x9000_0020;

pub const Y_LT: u32 = 0x9000_0120;

pub const NEG_Y_LE: u32 = 0x9000_0002;

pub const X_Y_LE: u32 = 0x9000_0012;

pub const X_Y_LT: u32 = 0x9000_0112;

pub const Y_X_LE: u32 = 0x9000_0021;

pub const Y_X_LT: u32 = 0x9000_0121;

// The number 0; N + 5 is the number 5 and N - 2 the number -2.
pub const N: u32 = 0xA800_0000;
