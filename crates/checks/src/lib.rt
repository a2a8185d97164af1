//! The four checks: the start, the bad, the time and the command check, for every kind of time.
#![tactic(auto)]

mod area;
mod bad;
mod calls;
mod check;
mod command;
mod cover;
mod frame;
mod listed;
mod origin;
mod pour;
mod time;

pub use area::AREA;
pub use calls::{Refusal, bad_check, command_check, decide, start_check, time_check};
pub use check::{Check, Settled};
