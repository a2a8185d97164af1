//! The sheet.
#![tactic(auto)]

mod answers;
mod call;
mod count;
mod marks;
mod next;
mod open;
mod series;
mod settle;
mod sheet;
mod strike;

pub use answers::{Refused, Verdict};
pub use call::Call;
pub use checks::{Check, Settled};
pub use series::replay;
pub use sheet::Sheet;
