// Question 5 in the list.
use crate::case::Case;
use crate::edit::Edit::{Insert, Put, Remove};
use crate::records::{BAD, COMMAND, INVARIANT};

pub static CASES: &[Case] = &[
    Case("start in the list", &[], &[Insert(1, &[0x2000_0000])]),
    Case("invariant in the list", &[], &[Insert(1, INVARIANT)]),
    Case("command in the list", &[], &[Insert(6, COMMAND)]),
    Case("bad record in the list", &[], &[Insert(11, BAD)]),
    Case("second head in the list", &[], &[Insert(1, &[0x1000_0021])]),
    Case("head after a zone", &[], &[Insert(6, &[0x1000_0021])]),
    Case("atom after the list's head", &[], &[Remove(1, 1)]),
    Case("mask in a zone", &[], &[Insert(2, &[0x4000_0000])]),
    Case("reset in a zone", &[], &[Insert(4, &[0x5000_0000])]),
    Case("number after a zone word", &[], &[Remove(2, 1)]),
    Case("zone's first atom without its number", &[], &[Remove(3, 1)]),
    Case("zone's last atom without its number", &[], &[Remove(5, 1)]),
    Case(
        "zone's atom with two numbers",
        &[],
        &[Insert(11, &[0xA800_0000])],
    ),
    Case(
        "end in place of the first zone",
        &[],
        &[Put(1, 0xF000_0001)],
    ),
    Case("end in place of a zone atom", &[], &[Put(2, 0xF000_0002)]),
    Case("end in place of the last zone", &[], &[Put(6, 0xF000_0006)]),
    Case("two ends in the list", &[], &[Insert(11, &[0xF000_000B])]),
    Case("end after a zone atom", &[], &[Remove(10, 1)]),
    Case(
        "end after a zone atom too many",
        &[],
        &[Insert(11, &[0x9000_0010])],
    ),
    Case("kind 0 in place of a zone", &[], &[Put(1, 0x0000_0000)]),
    Case("kind 11 in place of a zone", &[], &[Put(6, 0xB000_0001)]),
    Case(
        "kind 12 in place of a zone atom",
        &[],
        &[Put(2, 0xC000_0010)],
    ),
    Case(
        "kind 13 in place of a zone number",
        &[],
        &[Put(3, 0xD800_0005)],
    ),
    Case(
        "kind 14 in place of a zone atom",
        &[],
        &[Put(9, 0xE000_0001)],
    ),
    Case("zones without atoms", &[], &[Remove(7, 4), Remove(2, 4)]),
];
