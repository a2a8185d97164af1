//! Settles the checks of a zone list in dense time, and prints one line.
#![tactic(auto)]

use bound::{Bound, Dense};
use files::model_and_zones;
use sheet::{Call, replay};
use std::io;

fn main(rt: HostRuntime) -> io::Result<()> {
    let (model, zones) = model_and_zones(&rt)?;
    let mut area = [Dense::NONE; 578];
    let calls = vec![in rt.alloc(); Call::Settle(578); 65_535]?;
    let sheet = replay(&model, &zones, &calls, &mut area);
    match sheet.verdict() {
        Ok(verdict) => println!(rt; "{verdict}"),
        Err(_) => println!(rt; "void"),
    }
}
