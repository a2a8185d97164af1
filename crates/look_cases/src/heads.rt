// Question 4: the first word of a file.
use crate::case::Case;
use crate::edit::Edit::{Insert, Put, Words};
use crate::records::{BAD, COMMAND, INVARIANT};

pub static CASES: &[Case] = &[
    Case(
        "24 Booleans",
        &[Put(0, 0x1000_0038)],
        &[Put(0, 0x1000_0038)],
    ),
    Case(
        "25 Booleans",
        &[Put(0, 0x1000_0039)],
        &[Put(0, 0x1000_0039)],
    ),
    Case(
        "31 Booleans",
        &[Put(0, 0x1000_003F)],
        &[Put(0, 0x1000_003F)],
    ),
    Case("15 clocks", &[Put(0, 0x1000_01E1)], &[Put(0, 0x1000_01E1)]),
    Case(
        "24 Booleans and 15 clocks",
        &[Put(0, 0x1000_01F8)],
        &[Put(0, 0x1000_01F8)],
    ),
    Case(
        "no Booleans and no clocks",
        &[Words(&[0x1000_0000, 0x2000_0000])],
        &[Words(&[0x1000_0000])],
    ),
    Case(
        "no Booleans and no clocks in each record",
        &[
            Words(&[0x1000_0000, 0x2000_0000]),
            Insert(2, INVARIANT),
            Insert(5, COMMAND),
            Insert(11, BAD),
        ],
        &[Words(&[0x1000_0000, 0x8000_0000])],
    ),
    Case(
        "model's head with bit 9",
        &[Put(0, 0x1000_0221)],
        &[Put(0, 0x1000_0221)],
    ),
    Case(
        "model's head with bit 27",
        &[Put(0, 0x1800_0021)],
        &[Put(0, 0x1800_0021)],
    ),
    Case("model's first word of kind 0", &[Put(0, 0x0000_0021)], &[]),
    Case("model's first word a start", &[Put(0, 0x2000_0000)], &[]),
    Case("model's first word an end", &[Put(0, 0xF000_0000)], &[]),
    Case(
        "model with one Boolean more than the list",
        &[Put(0, 0x1000_0022)],
        &[],
    ),
    Case(
        "model with one clock more than the list",
        &[Put(0, 0x1000_0041)],
        &[],
    ),
    Case("list with one Boolean more", &[], &[Put(0, 0x1000_0022)]),
    Case("list with one Boolean less", &[], &[Put(0, 0x1000_0020)]),
    Case("list with one clock more", &[], &[Put(0, 0x1000_0041)]),
    Case("list with one clock less", &[], &[Put(0, 0x1000_0001)]),
    Case("list with 25 Booleans", &[], &[Put(0, 0x1000_0039)]),
    Case("list's head with bit 9", &[], &[Put(0, 0x1000_0221)]),
    Case("list's head with bit 27", &[], &[Put(0, 0x1800_0021)]),
    Case("list's first word a zone", &[], &[Put(0, 0x8000_0000)]),
];
