// A case: a zone, and what is asked of it.
ghost use Rattle.std.specs.Prelude.{◌≡◌, ◌<◌, IfSome};
ghost use Rattle.std.specs.List.{All};
ghost use Rattle.std.specs.Option.{ForSome};

use bound::{Atom, Bound};
use dbm::Table;
use std::fmt;

// The places of the memory that the cases share.
pub const PLACES: usize = 342;

// A table with so many rows, in so many places of the memory, and bounds added to it. Another bound may be asked for: whether
// every solution keeps it.
#[derive(Drop)]
pub struct Case<'a> {
    name: &'a str,
    places: usize,
    rows: usize,
    atoms: &'a [Atom],
    asked: Option<Atom>,
    ghost inside: { All (λ a. (a.i < rows) × (a.j < rows)) atoms.now },
    ghost asked_inside: { ForSome asked (λ a. (a.i < rows) × (a.j < rows)) },
}

// One of five lines. As a `Result` of `Option`s of a Boolean it would have to be read again to be printed.
#[derive(Clone, Copy)]
pub enum Answer {
    Refused,
    Inconsistent,
    Consistent,
    Yes,
    No,
}

impl fmt::Display for Answer {
    fn fmt<W: fmt::Write>(&self, f: &mut fmt::Formatter<W>) -> fmt::Result {
        f.write_str(match self {
            Answer::Refused => "refused",
            Answer::Inconsistent => "inconsistent",
            Answer::Consistent => "consistent",
            Answer::Yes => "yes",
            Answer::No => "no",
        })
    }
}

// Whether so many rows fit into so many places.
pub(crate) fn fits<'a>(name: &'a str, rows: usize, places: usize) -> Case<'a> {
    Case {
        name,
        places,
        rows,
        atoms: &[],
        asked: None,
    }
}

// Whether a zone has a solution. That the bounds lie in the rows is asked for here, since the type keeps it; a constructor that
// refused would be no plainer, since the cases are written out.
pub(crate) fn zone<'a>(name: &'a str, rows: usize, atoms: &'a [Atom]) -> Case<'a>
    requires { All (λ a. (a.i < rows) × (a.j < rows)) atoms.now }
{
    Case {
        name,
        places: PLACES,
        rows,
        atoms,
        asked: None,
    }
}

// Whether a zone lies in a bound.
pub(crate) fn zone_in<'a>(name: &'a str, rows: usize, atoms: &'a [Atom], asked: Atom) -> Case<'a>
    requires inside { All (λ a. (a.i < rows) × (a.j < rows)) atoms.now }
    requires row { asked.i < rows }
    requires column { asked.j < rows }
{
    Case {
        name,
        places: PLACES,
        rows,
        atoms,
        asked: Some(asked),
    }
}

impl<'a> Case<'a> {
    pub(crate) fn name(&self) -> &'a str {
        self.name
    }

    // The table with its bounds; or nothing where it does not fit.
    fn table<'m, B: Bound>(&self, memory: &'m mut [B]) -> Option<Table<'m, B>>
        ensures { IfSome result (λ t. t.square.n ≡ self.now.rows) }
    {
        let (places, _) = memory.split_at_mut_checked(self.places)?;
        let mut table = Table::new(places, self.rows)?;
        for atom in self.atoms {
            table.constrain(*atom);
        }
        Some(table)
    }

    // The answer in a kind of time.
    pub(crate) fn answer<B: Bound>(&self, memory: &mut [B]) -> Answer {
        let Some(table) = self.table(memory) else {
            return Answer::Refused;
        };
        let Some(closed) = table.close() else {
            return Answer::Inconsistent;
        };
        match self.asked {
            None => Answer::Consistent,
            Some(atom) => {
                if closed.include(atom) {
                    Answer::Yes
                } else {
                    Answer::No
                }
            }
        }
    }
}
