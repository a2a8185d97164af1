//! The table of bounds, for every kind of time.
#![tactic(auto)]

mod close;
mod square;
mod table;

pub use table::{Closed, Table};
