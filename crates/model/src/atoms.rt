// The atoms of a record.
ghost use Rattle.std.specs.Prelude.{◌≡◌};
ghost use Rattle.std.specs.Iterator.{YieldsFirstBy, item_count};
ghost use Rattle.format.specs.Syntax.{atom_of_words};
ghost use Rattle.model.specs.Views.{atom_is, atoms_in};

use crate::words::Words;
use bound::Atom;
use format::value;

// The atoms of a record, or the last ones of them.
#[derive(Clone, Copy, Debug, PartialEq, Eq)]
pub struct Atoms<'a> {
    pub(crate) words: Words<'a>,
}

// An atom's word and its number.
fn atom_of(word: u32, number: u32) -> Atom
    ensures { atom_is result ≡ atom_of_words word number }
{
    Atom {
        i: ((word >> 4) % 16) as usize,
        j: (word % 16) as usize,
        d: value(number),
        strict: (word >> 8) % 2 == 1,
    }
}

impl Iterator for Atoms<'_> {
    type Item = Atom;

    ghost next_gives = { YieldsFirstBy atom_is atoms_in };

    ghost remaining = { item_count atoms_in };

    #[tactic(auto, unfolding(format::specs::Syntax::atoms_of))]
    fn next(&mut self) -> Option<Atom> {
        let word = self.words.next()?;
        let number = self.words.next()?;
        Some(atom_of(word, number))
    }
}
