// Several faults: the answer is the first no.
use crate::case::Case;
use crate::edit::Edit::{End, Insert, Keep, Put, Remove, Repeat, Words};
use crate::records::{HEAD_AND_ZONE, INVARIANT};

pub static CASES: &[Case] = &[
    // The first question that has a no, of those to the file.
    Case(
        "too long and no multiple of four and without an end",
        &[],
        &[
            Words(HEAD_AND_ZONE),
            Repeat(2, 2, 63),
            Repeat(1, 129, 126),
            Remove(2, 2),
            Insert(1, &[0x8000_0000]),
            Keep(65_534),
        ],
    ),
    Case(
        "short length and a wrong head",
        &[Put(0, 0x0000_0000), Keep(6)],
        &[],
    ),
    Case(
        "wrong end and a wrong head",
        &[Put(0, 0x0000_0000), End(0xF000_0000)],
        &[],
    ),
    Case(
        "wrong end and no start",
        &[Remove(1, 1), End(0xF000_0000)],
        &[],
    ),
    Case(
        "wrong head and no start",
        &[Put(0, 0x1000_0039), Remove(1, 1)],
        &[],
    ),
    // Two faults of one word: the lower number.
    Case(
        "misplaced word with unused bits",
        &[Put(2, 0x8100_0000)],
        &[],
    ),
    Case(
        "start with bit 24 and an unknown Boolean",
        &[Put(1, 0x2100_0002)],
        &[],
    ),
    Case(
        "mask with bit 24 and an unknown Boolean",
        &[Put(3, 0x4100_0002)],
        &[],
    ),
    Case(
        "reset with bit 15 and an unknown clock",
        &[Put(17, 0x5000_8002)],
        &[],
    ),
    Case("atom with bit 9 and i and j 0", &[Put(5, 0x9000_0200)], &[]),
    Case(
        "zone with bit 24 and an unknown Boolean",
        &[],
        &[Put(1, 0x8100_0002)],
    ),
    Case(
        "clear mask with bit 24 that shares a Boolean",
        &[Put(16, 0x4100_0001)],
        &[],
    ),
    Case(
        "clear mask with an unknown Boolean that shares another",
        &[Put(16, 0x4000_0003)],
        &[],
    ),
    Case(
        "urgent command's atom with bit 9",
        &[Put(12, 0x3000_0001), Put(19, 0x9000_0201)],
        &[],
    ),
    Case(
        "urgent command's atom with an unknown clock",
        &[Put(12, 0x3000_0001), Put(19, 0x9000_0002)],
        &[],
    ),
    Case(
        "urgent command's atom with i and j 1",
        &[Put(12, 0x3000_0001), Put(19, 0x9000_0011)],
        &[],
    ),
    Case(
        "surplus atom with bit 9",
        &[],
        &[Repeat(2, 2, 63), Put(130, 0x9000_0210)],
    ),
    Case(
        "surplus atom with an unknown clock",
        &[],
        &[Repeat(2, 2, 63), Put(130, 0x9000_0020)],
    ),
    Case(
        "command's surplus atom with an unknown clock",
        &[Repeat(19, 2, 64), Put(147, 0x9000_0002)],
        &[],
    ),
    Case(
        "surplus invariant with bit 0",
        &[Repeat(2, 5, 31), Put(162, 0x6000_0001)],
        &[],
    ),
    Case(
        "surplus command with bit 1",
        &[Repeat(12, 9, 63), Put(588, 0x3000_0002)],
        &[],
    ),
    Case(
        "surplus bad record with bit 0",
        &[Repeat(30, 5, 32), Put(190, 0x7000_0001)],
        &[],
    ),
    Case(
        "surplus zone with an unknown Boolean",
        &[],
        &[Repeat(1, 5, 511), Put(2561, 0x8000_0002)],
    ),
    Case(
        "invariant after a command and after 32 others",
        &[Repeat(2, 5, 30), Insert(171, INVARIANT)],
        &[],
    ),
    // Faults of two words: the earlier word.
    Case(
        "unknown Boolean before unused bits",
        &[Put(9, 0x4000_0002), Put(14, 0x4100_0000)],
        &[],
    ),
    Case(
        "number out of range before a misplaced word",
        &[Put(6, 0xA80F_4241), Put(7, 0x0000_0000)],
        &[],
    ),
    Case(
        "set and clear before an unused bit",
        &[Put(16, 0x4000_0001), Put(17, 0x5000_8001)],
        &[],
    ),
    Case(
        "urgent command's atom before its number",
        &[Put(12, 0x3000_0001), Put(20, 0xAFFF_FFFF)],
        &[],
    ),
    Case(
        "urgent command's reset before its atom",
        &[Put(12, 0x3000_0001), Put(18, 0xA7FF_FFFF)],
        &[],
    ),
    Case(
        "surplus atom before its number",
        &[],
        &[Repeat(2, 2, 63), Put(131, 0xAFFF_FFFF)],
    ),
    Case(
        "surplus atom without a number",
        &[],
        &[Repeat(2, 2, 63), Remove(131, 1)],
    ),
    Case(
        "surplus invariant with no mask",
        &[Repeat(2, 5, 31), Remove(163, 2)],
        &[],
    ),
    Case(
        "surplus bad record before the end",
        &[Repeat(30, 5, 32), Remove(191, 4)],
        &[],
    ),
    Case(
        "surplus command without a body",
        &[Repeat(12, 9, 63), Remove(589, 8)],
        &[],
    ),
    Case(
        "broken invariant before a surplus one",
        &[Repeat(2, 5, 31), Put(161, 0xA80F_4241)],
        &[],
    ),
    Case(
        "unknown Booleans in both zones",
        &[],
        &[Put(1, 0x8000_0002), Put(6, 0x8000_0002)],
    ),
    // Faults of both files: the model's.
    Case(
        "an unknown Boolean in the model, and no list",
        &[Put(1, 0x2000_0002)],
        &[Keep(0)],
    ),
    Case(
        "a number out of range in the model, and another head in the list",
        &[Put(34, 0xA80F_4241)],
        &[Put(0, 0x1000_0022)],
    ),
    Case(
        "33 bad records in the model, and a list too long",
        &[Repeat(30, 5, 32)],
        &[
            Words(HEAD_AND_ZONE),
            Repeat(2, 2, 63),
            Repeat(1, 129, 126),
            Remove(2, 2),
            Insert(1, &[0x8000_0000]),
        ],
    ),
    Case("neither a model nor a list", &[Keep(0)], &[Keep(0)]),
];
