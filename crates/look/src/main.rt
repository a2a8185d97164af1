//! Looks a timing model and a zone list over, and prints one line: what was read, or the first fault.
#![tactic(auto)]

use files::model_and_zones;
use format::look_over;
use report::Line;
use std::io;

fn main(rt: HostRuntime) -> io::Result<()> {
    let (model, zones) = model_and_zones(&rt)?;
    let line = Line(look_over(&model, &zones));
    println!(rt; "{line}")
}
