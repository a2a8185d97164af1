// As many zones, records and atoms as there may be, made by repeating. What decides comes last.
use crate::bench::Bench;
use crate::case::Case;
use crate::file::joined;
use crate::words::*;
use checks::Check::{Bad, Command, Start, Time};
use std::alloc::{AllocError, Global};
use std::io;

// Some words so many times more.
fn repeat(words: &mut Vec<u32>, times: usize, part: &[u32]) -> Result<(), AllocError> {
    for _ in 0..times {
        words.extend_from_slice(part)?;
    }
    Ok(())
}

// x is at most 5; the command clears h and x becomes 5; x >= 5 is bad.
const UP_TO_5: &[&[u32]] = &[
    &[START],
    &[INVARIANT, NIL, NIL, X_LE, N + 5],
    &[COMMAND, NIL, NIL, NIL, H, RESET_X, N + 5],
    &[BAD, NIL, NIL, NEG_X_LE, N - 5],
];

// 511 zones with h and x <= 4, and one without h and x <= 5.
fn zones_512(heap: Global) -> Result<Vec<u32>, AllocError> {
    let mut words = joined(heap, H_X, &[&[ZONE_H, X_LE, N + 4]])?;
    repeat(&mut words, 510, &[ZONE_H, X_LE, N + 4])?;
    repeat(&mut words, 1, &[ZONE, X_LE, N + 5])?;
    Ok(words)
}

const ZONE_CASES: &[Case] = &[
    Case("512 zones, start", Start, &[]),
    Case("512 zones, start, the last struck", Start, &[511]),
    Case("512 zones, bad, the last zone", Bad(511, 0), &[]),
    Case("512 zones, bad, the last zone but one", Bad(510, 0), &[]),
    Case("512 zones, time, the last zone", Time(511), &[]),
    Case("512 zones, time, the first zone", Time(0), &[]),
    Case("512 zones, time, one zone more", Time(512), &[]),
    Case("512 zones, command, the first zone", Command(0, 0), &[]),
];

// 32 invariants, x <= 5 the last; 64 commands, x := 3 the last; 32 bad records, x >= 5 the last.
fn full_model(heap: Global) -> Result<Vec<u32>, AllocError> {
    let mut words = joined(heap, H_X, &[&[START]])?;
    repeat(&mut words, 31, &[INVARIANT, NIL, NIL, X_LE, N + 9])?;
    repeat(&mut words, 1, &[INVARIANT, NIL, NIL, X_LE, N + 5])?;
    repeat(&mut words, 63, &[COMMAND, NIL, NIL, NIL, NIL, RESET_X, N])?;
    repeat(
        &mut words,
        1,
        &[COMMAND, NIL, NIL, NIL, NIL, RESET_X, N + 3],
    )?;
    repeat(&mut words, 31, &[BAD, NIL, NIL, NEG_X_LE, N - 8])?;
    repeat(&mut words, 1, &[BAD, NIL, NIL, NEG_X_LE, N - 5])?;
    Ok(words)
}

// A zone of 64 atoms, x <= 2 the last, and the zone x <= 5.
fn full_zone(heap: Global) -> Result<Vec<u32>, AllocError> {
    let mut words = joined(heap, H_X, &[&[ZONE]])?;
    repeat(&mut words, 63, &[X_LE, N + 9])?;
    repeat(&mut words, 1, &[X_LE, N + 2])?;
    repeat(&mut words, 1, &[ZONE, X_LE, N + 5])?;
    Ok(words)
}

const FULL_CASES: &[Case] = &[
    Case("full, time, 64 atoms", Time(0), &[]),
    Case("full, the last command", Command(1, 63), &[]),
    Case("full, the last command but one", Command(1, 62), &[]),
    Case("full, one command more", Command(1, 64), &[]),
    Case("full, the last bad record", Bad(1, 31), &[]),
    Case("full, the last bad record but one", Bad(1, 30), &[]),
    Case("full, the last bad record, 64 atoms", Bad(0, 31), &[]),
    Case("full, one bad record more", Bad(1, 32), &[]),
];

pub(crate) fn show(bench: &mut Bench, heap: Global) -> io::Result<()> {
    let model = joined(heap, H_X, UP_TO_5)?;
    bench.show_files(&model, &zones_512(heap)?, ZONE_CASES)?;
    bench.show_files(&full_model(heap)?, &full_zone(heap)?, FULL_CASES)
}
