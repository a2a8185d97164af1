//! Measures how many tables are closed in a second, and prints it to the standard error.
#![tactic(auto)]

mod timed;

use bound::{Bound, Dense, Ticks};
use std::io;
use timed::measure;

fn main(rt: HostRuntime) -> io::Result<()> {
    let mut dense = [Dense::NONE; 306];
    let mut ticks = [Ticks::NONE; 306];
    measure(&rt, "dense", &mut dense, 5, 100_000)?;
    measure(&rt, "ticks", &mut ticks, 5, 100_000)?;
    measure(&rt, "dense", &mut dense, 17, 6_000)?;
    measure(&rt, "ticks", &mut ticks, 17, 6_000)
}
