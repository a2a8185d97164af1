//! Looks the two-phase valve over after edits of its files, and prints a line for each case: its name and the answer.
#![tactic(auto)]

mod bits;
mod bodies;
mod case;
mod commands;
mod draft;
mod edit;
mod ends;
mod heads;
mod lengths;
mod limits;
mod list;
mod names;
mod numbers;
mod order;
mod records;
mod several;
mod valve;

use case::Case;
use draft::Draft;
use format::look_over;
use report::Line;
use std::io;
use valve::{MODEL, ZONES};

fn show(rt: &HostRuntime, case: &Case) -> io::Result<()> {
    let Case(name, model, zones) = *case;
    let model = Draft::edited(rt.alloc(), &MODEL, model)?.bytes()?;
    let zones = Draft::edited(rt.alloc(), &ZONES, zones)?.bytes()?;
    let line = Line(look_over(&model, &zones));
    println!(rt; "{name}: {line}")
}

fn main(rt: HostRuntime) -> io::Result<()> {
    let all = [
        lengths::CASES,
        ends::CASES,
        heads::CASES,
        order::CASES,
        bodies::CASES,
        list::CASES,
        bits::CASES,
        names::CASES,
        numbers::CASES,
        commands::CASES,
        limits::CASES,
        several::CASES,
    ];
    for case in all.into_iter().flatten() {
        show(&rt, case)?;
    }
    Ok(())
}
