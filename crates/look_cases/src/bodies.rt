// Question 5 inside the model's records.
use crate::case::Case;
use crate::edit::Edit::{Insert, Put, Remove, Repeat};

pub static CASES: &[Case] = &[
    Case("mask after the start", &[Insert(2, &[0x4000_0000])], &[]),
    Case("invariant with no mask", &[Remove(3, 2)], &[]),
    Case("invariant with one mask", &[Remove(4, 1)], &[]),
    Case("invariant with one mask and no atom", &[Remove(4, 3)], &[]),
    Case(
        "invariant with three masks",
        &[Insert(5, &[0x4000_0000])],
        &[],
    ),
    Case("invariant with a reset", &[Insert(5, &[0x5000_0000])], &[]),
    Case(
        "invariant with a number before its atom",
        &[Insert(5, &[0xA800_0000])],
        &[],
    ),
    Case("invariant's atom without its number", &[Remove(6, 1)], &[]),
    Case(
        "invariant's atom with two numbers",
        &[Insert(7, &[0xA800_0000])],
        &[],
    ),
    Case("mask after an atom", &[Insert(7, &[0x4000_0000])], &[]),
    Case("invariant without atoms", &[Remove(5, 2)], &[]),
    Case("command with three masks", &[Remove(16, 1)], &[]),
    Case(
        "command with five masks",
        &[Insert(17, &[0x4000_0000])],
        &[],
    ),
    Case("command without a reset", &[Remove(17, 1)], &[]),
    Case(
        "command without a reset and its number",
        &[Remove(17, 2)],
        &[],
    ),
    Case(
        "command with two resets",
        &[Insert(18, &[0x5000_0001])],
        &[],
    ),
    Case("command's atom without its number", &[Remove(20, 1)], &[]),
    Case("command without atoms", &[Remove(19, 2)], &[]),
    Case("reset without its number", &[Remove(18, 1)], &[]),
    Case(
        "reset with a number too many",
        &[Insert(19, &[0xA800_0000])],
        &[],
    ),
    Case(
        "reset of no clock with a number",
        &[Put(17, 0x5000_0000)],
        &[],
    ),
    Case(
        "reset of no clock",
        &[Put(17, 0x5000_0000), Remove(18, 1)],
        &[],
    ),
    Case(
        "reset of two clocks with one number",
        &[Put(0, 0x1000_0041), Put(17, 0x5000_0003)],
        &[Put(0, 0x1000_0041)],
    ),
    Case(
        "reset of two clocks with one number and no atom",
        &[Put(0, 0x1000_0041), Put(17, 0x5000_0003), Remove(19, 2)],
        &[Put(0, 0x1000_0041)],
    ),
    Case(
        "reset of two clocks with two numbers",
        &[Put(0, 0x1000_0041), Put(17, 0x5000_0003), Repeat(18, 1, 1)],
        &[Put(0, 0x1000_0041)],
    ),
    Case(
        "reset of two clocks with three numbers",
        &[Put(0, 0x1000_0041), Put(17, 0x5000_0003), Repeat(18, 1, 2)],
        &[Put(0, 0x1000_0041)],
    ),
    Case(
        "reset of 15 clocks with 14 numbers",
        &[Put(0, 0x1000_01E1), Put(17, 0x5000_7FFF), Repeat(18, 1, 13)],
        &[Put(0, 0x1000_01E1)],
    ),
    Case(
        "reset of 15 clocks with 15 numbers",
        &[Put(0, 0x1000_01E1), Put(17, 0x5000_7FFF), Repeat(18, 1, 14)],
        &[Put(0, 0x1000_01E1)],
    ),
    Case("bad record with one mask", &[Remove(32, 1)], &[]),
    Case("bad record without atoms", &[Remove(33, 2)], &[]),
];
