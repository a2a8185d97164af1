// Tables built, and built and closed, many times over.
use bound::{Atom, Bound};
use dbm::Table;
use std::io;
use std::time::Instant;

// Builds a table of n rows in this memory, with a bound on every difference of two clocks, and closes it if asked. All
// bounds are above 0, so that equal clocks keep them. The answer is false where the memory is too short, or the table
// inconsistent. Not inlined, so that where its loops lie in the code does not hang on the loop that times it.
#[inline(never)]
fn made<B: Bound>(memory: &mut [B], n: usize, closing: bool) -> bool {
    let Some(mut t) = Table::new(memory, n) else {
        return false;
    };
    let mut row: i32 = 1000;
    // By index, since an atom is made of the two numbers.
    for i in 0..n {
        let mut d = row;
        for j in 0..n {
            if i != j {
                t.constrain(Atom {
                    i,
                    j,
                    d,
                    strict: false,
                });
            }
            d = d.wrapping_add(3);
        }
        row = row.wrapping_add(7);
    }
    !closing || t.close().is_some()
}

// The microseconds that so many tables take. Added up by hand, since the library's `as_micros` has 128 bits.
fn micros<B: Bound>(
    rt: &HostRuntime,
    memory: &mut [B],
    n: usize,
    count: u32,
    closing: bool,
) -> io::Result<u64> {
    let start = Instant::now(rt)?;
    for _ in 0..count {
        if !made(memory, n, closing) {
            eprintln!(rt; "not made")?;
        }
    }
    let span = start.elapsed(rt)?;
    Ok(
        span.as_secs()
            .wrapping_mul(1_000_000)
            .wrapping_add(u64::from(span.subsec_micros())),
    )
}

// How often in a second, for so many in so many microseconds.
fn rate(count: u32, micros: u64) -> u64 {
    if micros == 0 {
        return 0;
    }
    u64::from(count) * 1_000_000 / micros
}

pub(crate) fn measure<B: Bound>(
    rt: &HostRuntime,
    kind: &str,
    memory: &mut [B],
    n: usize,
    count: u32,
) -> io::Result<()> {
    let building = micros(rt, memory, n, count, false)?;
    let both = micros(rt, memory, n, count, true)?;
    let builds = rate(count, building);
    let all = rate(count, both);
    let closings = rate(count, both.saturating_sub(building));
    eprintln!(rt;
        "{kind}, {n} rows: {builds} a second built, {all} built and closed, {closings} closed"
    )
}
