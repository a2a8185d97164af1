//! Puts small models and zone lists to the four checks, in dense time and in ticks, and prints a line for each case: the kind
//! of time, the case's name and the answer.
#![tactic(auto)]

ghost use Rattle.std.specs.Prelude.{◌≤◌};

mod after;
mod answer;
mod bad;
mod bench;
mod case;
mod file;
mod guard;
mod many;
mod refusal;
mod reset;
mod size;
mod start;
mod time;
mod valve;
mod words;

use bench::Bench;
use bound::{Bound, Dense, Ticks};
use case::Group;
use std::io;

// The cases for a work area of 578 bounds. Each file hands out its own by a function: in one that read the constants
// themselves the prover would run out of steps.
fn show_most(bench: &mut Bench, rt: &HostRuntime) -> io::Result<()> {
    let most = [
        valve::groups(),
        start::groups(),
        bad::groups(),
        time::groups(),
        guard::groups(),
        reset::groups(),
        after::groups(),
        size::groups(),
    ];
    for groups in most {
        bench.show_all(groups)?;
    }
    many::show(bench, rt.alloc())?;
    bench.show_all(refusal::with_578())
}

// Cases for work areas of N bounds.
fn show_with<const N: usize>(rt: &HostRuntime, groups: &[Group]) -> io::Result<()>
    requires { N ≤ 600 }
{
    let mut dense = [Dense::NONE; N];
    let mut ticks = [Ticks::NONE; N];
    let mut bench = Bench {
        rt,
        dense: &mut dense,
        ticks: &mut ticks,
    };
    bench.show_all(groups)
}

fn main(rt: HostRuntime) -> io::Result<()> {
    let mut dense = [Dense::NONE; 578];
    let mut ticks = [Ticks::NONE; 578];
    let mut bench = Bench {
        rt: &rt,
        dense: &mut dense,
        ticks: &mut ticks,
    };
    show_most(&mut bench, &rt)?;
    show_with::<577>(&rt, refusal::with_577())?;
    show_with::<600>(&rt, refusal::with_600())
}
