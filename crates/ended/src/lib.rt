//! The printed line of a program that settles the checks of a list.
#![tactic(auto)]

ghost use Rattle.std.specs.Prelude.{Some};
ghost use Rattle.ended.specs.Ended.{ended};

use format::Fault;
use report::Report;
use sheet::Check;
use std::fmt;

// How it ended: all checks hold, so many; the check with this number failed; so many are settled, and more are left; or the
// files did not pass. No `Result`: a fault ends a program like the others, by one line.
#[derive(Clone, Copy, Debug, PartialEq, Eq)]
pub enum Ended {
    Accepted(usize),
    Failing(usize, Check),
    Unfinished(usize),
    Refused(Fault),
}

impl fmt::Display for Ended {
    ghost output = { λ e. Some (ended e) };

    fn fmt<W: fmt::Write>(&self, f: &mut fmt::Formatter<W>) -> fmt::Result {
        match *self {
            Ended::Accepted(count) => write!(f, "accepted {count}"),
            Ended::Failing(number, check) => write!(f, "failing {number} {check}"),
            Ended::Unfinished(count) => write!(f, "unfinished {count}"),
            Ended::Refused(fault) => {
                let report = Report::from(fault);
                write!(f, "{report}")
            }
        }
    }
}
