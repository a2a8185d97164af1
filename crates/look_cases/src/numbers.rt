// Question 8: the range of numbers.
use crate::case::Case;
use crate::edit::Edit::{Insert, Put, Remove, Repeat, Words};
use crate::records::{HEAD_AND_ZONE, ONE_OF_EACH};

pub static CASES: &[Case] = &[
    Case("invariant's number 1,000,000", &[Put(6, 0xA80F_4240)], &[]),
    Case("invariant's number 1,000,001", &[Put(6, 0xA80F_4241)], &[]),
    Case("invariant's number -1,000,000", &[Put(6, 0xA7F0_BDC0)], &[]),
    Case("invariant's number -1,000,001", &[Put(6, 0xA7F0_BDBF)], &[]),
    Case(
        "invariant's number the greatest",
        &[Put(6, 0xAFFF_FFFF)],
        &[],
    ),
    Case("invariant's number the least", &[Put(6, 0xA000_0000)], &[]),
    Case("command's number 1,000,001", &[Put(20, 0xA80F_4241)], &[]),
    Case("command's number -1,000,001", &[Put(29, 0xA7F0_BDBF)], &[]),
    Case(
        "bad record's number 1,000,000",
        &[Put(34, 0xA80F_4240)],
        &[],
    ),
    Case(
        "bad record's number 1,000,001",
        &[Put(34, 0xA80F_4241)],
        &[],
    ),
    Case(
        "bad record's number -1,000,000",
        &[Put(34, 0xA7F0_BDC0)],
        &[],
    ),
    Case(
        "bad record's number -1,000,001",
        &[Put(34, 0xA7F0_BDBF)],
        &[],
    ),
    Case("reset's number 1", &[Put(18, 0xA800_0001)], &[]),
    Case("reset's number 1,000,000", &[Put(18, 0xA80F_4240)], &[]),
    Case("reset's number 1,000,001", &[Put(18, 0xA80F_4241)], &[]),
    Case("reset's number -1", &[Put(18, 0xA7FF_FFFF)], &[]),
    Case("reset's number -1,000,000", &[Put(27, 0xA7F0_BDC0)], &[]),
    Case(
        "reset's second number -1",
        &[
            Put(0, 0x1000_0041),
            Put(17, 0x5000_0003),
            Insert(19, &[0xA7FF_FFFF]),
        ],
        &[Put(0, 0x1000_0041)],
    ),
    Case(
        "zone's numbers 1,000,000 and -1,000,000",
        &[],
        &[Put(3, 0xA80F_4240), Put(10, 0xA7F0_BDC0)],
    ),
    Case("first zone's number 1,000,001", &[], &[Put(3, 0xA80F_4241)]),
    Case(
        "first zone's number -1,000,001",
        &[],
        &[Put(3, 0xA7F0_BDBF)],
    ),
    Case("last zone's number 1,000,001", &[], &[Put(10, 0xA80F_4241)]),
    Case(
        "last zone's number -1,000,001",
        &[],
        &[Put(10, 0xA7F0_BDBF)],
    ),
    Case(
        "last number of the longest model",
        &[
            Words(ONE_OF_EACH),
            Repeat(18, 2, 63),
            Repeat(15, 131, 31),
            Repeat(13, 2, 63),
            Repeat(7, 134, 59),
            Remove(13, 44),
            Repeat(5, 2, 63),
            Repeat(2, 131, 31),
            Put(16_381, 0xA80F_4241),
        ],
        &[],
    ),
    Case(
        "last number of the longest list",
        &[],
        &[
            Words(HEAD_AND_ZONE),
            Repeat(2, 2, 63),
            Repeat(1, 129, 126),
            Remove(2, 2),
            Put(16_381, 0xA80F_4241),
        ],
    ),
];
