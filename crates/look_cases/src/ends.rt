// Question 3: the last word of a file.
use crate::case::Case;
use crate::edit::Edit::{End, Insert, Keep, Remove, Repeat, Words};
use crate::records::{HEAD_AND_ZONE, ONE_OF_EACH};

pub static CASES: &[Case] = &[
    Case(
        "model of a head and an end that counts 2",
        &[Words(&[0x1000_0021]), End(0xF000_0002)],
        &[],
    ),
    Case("model without its end", &[Keep(140)], &[]),
    Case("model's end counts one too few", &[End(0xF000_0022)], &[]),
    Case("model's end counts one too many", &[End(0xF000_0024)], &[]),
    Case("model's end with bit 27", &[End(0xF800_0023)], &[]),
    Case("model's last word of kind 14", &[End(0xE000_0023)], &[]),
    Case("model's last word of kind 0", &[End(0x0000_0023)], &[]),
    Case(
        "model of 65,532 bytes whose end counts one too many",
        &[
            Words(ONE_OF_EACH),
            Repeat(18, 2, 63),
            Repeat(15, 131, 31),
            Repeat(13, 2, 63),
            Repeat(7, 134, 59),
            Remove(13, 44),
            Repeat(5, 2, 63),
            Repeat(2, 131, 31),
            End(0xF000_3FFF),
        ],
        &[],
    ),
    Case(
        "list of a head and an end that counts 0",
        &[],
        &[Words(&[0x1000_0021]), End(0xF000_0000)],
    ),
    Case("list without its end", &[], &[Keep(44)]),
    Case("list's end counts one too few", &[], &[End(0xF000_000A)]),
    Case("list's end counts one too many", &[], &[End(0xF000_000C)]),
    Case("list's last word of kind 14", &[], &[End(0xE000_000B)]),
    Case(
        "list of 65,532 bytes cut from a longer one",
        &[],
        &[
            Words(HEAD_AND_ZONE),
            Repeat(2, 2, 63),
            Repeat(1, 129, 126),
            Remove(2, 2),
            Insert(1, &[0x8000_0000]),
            Keep(65_532),
        ],
    ),
];
