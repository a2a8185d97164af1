// The checks of a zone list by number, and what each answers.
ghost use Rattle.std.specs.Prelude.{◌≡◌, Some};
ghost use Rattle.checks.specs.Decisions.{settled_by_zone, by_answer, check_printed};

use std::fmt;

// The start check; the bad check of a zone and a bad record; the time check of a zone; the command check of a zone and a
// command.
#[derive(Clone, Copy, Debug, PartialEq, Eq)]
pub enum Check {
    Start,
    Bad(usize, usize),
    Time(usize),
    Command(usize, usize),
}

impl fmt::Display for Check {
    ghost output = { λ c. Some (check_printed c) };

    fn fmt<W: fmt::Write>(&self, f: &mut fmt::Formatter<W>) -> fmt::Result {
        match *self {
            Check::Start => write!(f, "start"),
            Check::Bad(zone, bad) => write!(f, "zone {zone} bad {bad}"),
            Check::Time(zone) => write!(f, "zone {zone} time"),
            Check::Command(zone, command) => write!(f, "zone {zone} command {command}"),
        }
    }
}

// What a settled check answers: it holds, with the number of the zone that holds what is reached, or the start; or it fails.
// No `Option<Option<usize>>`: a bad check holds and names no zone, and `Some(None)` would not say that it holds.
#[derive(Clone, Copy, Debug, PartialEq, Eq)]
pub enum Settled {
    Holds(Option<usize>),
    Fails,
}

// A start, time or command check that named a zone, or none.
impl From<Option<usize>> for Settled {
    ghost from_gives = { λ zone r. r ≡ settled_by_zone zone };

    fn from(zone: Option<usize>) -> Settled {
        match zone {
            Some(number) => Settled::Holds(Some(number)),
            None => Settled::Fails,
        }
    }
}

// A bad check that holds or not.
impl From<bool> for Settled {
    ghost from_gives = { λ holds r. r ≡ by_answer holds };

    fn from(holds: bool) -> Settled {
        if holds {
            Settled::Holds(None)
        } else {
            Settled::Fails
        }
    }
}
