// What the calls answer.
ghost use Rattle.std.specs.Prelude.{◌≡◌, Some};
ghost use Rattle.sheet.specs.Numbers.{number_of, verdict_printed};

use std::fmt;

// Why a call is refused.
#[derive(Clone, Copy, Debug, PartialEq, Eq)]
pub enum Refused {
    Void,
    ShortArea,
    NothingLeft,
    NoSuchZone,
    AlreadySo,
}

impl Refused {
    // The refusal's number: what the users tell refusals by.
    pub fn number(self) -> u8
        ensures { result ≡ number_of self }
    {
        match self {
            Refused::Void => 13,
            Refused::ShortArea => 14,
            Refused::NothingLeft => 15,
            Refused::NoSuchZone => 16,
            Refused::AlreadySo => 17,
        }
    }
}

// What a verdict says: all checks are settled and hold, so many; the check with this number failed; or so many are settled.
#[derive(Clone, Copy, Debug, PartialEq, Eq)]
pub enum Verdict {
    Accepted(usize),
    Failing(usize),
    Unfinished(usize),
}

impl fmt::Display for Verdict {
    ghost output = { λ v. Some (verdict_printed v) };

    fn fmt<W: fmt::Write>(&self, f: &mut fmt::Formatter<W>) -> fmt::Result {
        match *self {
            Verdict::Accepted(count) => write!(f, "accepted {count}"),
            Verdict::Failing(number) => write!(f, "failing {number}"),
            Verdict::Unfinished(count) => write!(f, "unfinished {count}"),
        }
    }
}
