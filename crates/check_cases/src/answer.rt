// The answer to a case.
use checks::{Check, Refusal, Settled};
use std::fmt;

// What a check answered: the zone that a start, time or command check names, or none; whether a bad check holds.
#[derive(Clone, Copy)]
pub struct Answer(pub Check, pub Result<Settled, Refusal>);

impl fmt::Display for Answer {
    fn fmt<W: fmt::Write>(&self, f: &mut fmt::Formatter<W>) -> fmt::Result {
        let Answer(check, answer) = *self;
        match (check, answer) {
            (_, Err(refusal)) => write!(f, "refused: {refusal}"),
            (Check::Bad(_, _), Ok(Settled::Holds(_))) => write!(f, "holds"),
            (Check::Bad(_, _), Ok(Settled::Fails)) => write!(f, "fails"),
            (_, Ok(Settled::Holds(Some(zone)))) => write!(f, "zone {zone}"),
            (_, Ok(_)) => write!(f, "no zone"),
        }
    }
}
