// An atom: a bound on the difference of two clocks.
ghost use Rattle.std.specs.Prelude.{◌≡◌, true, false};
ghost use Rattle.bound.specs.declared.atom.Atom.{Atom};

// Clock i minus clock j is at most d, or below d if strict. The mark stands in the words of a file, so it is a Boolean here too.
#[derive(Clone, Copy, Debug, PartialEq, Eq)]
pub struct Atom {
    pub i: usize,
    pub j: usize,
    pub d: i32,
    pub strict: bool,
}

impl Atom {
    // Clock i minus clock j is at most d.
    pub fn at_most(i: usize, j: usize, d: i32) -> Atom
        ensures { result ≡ record { i = i; j = j; d = d; strict = false } }
    {
        Atom {
            i,
            j,
            d,
            strict: false,
        }
    }

    // Clock i minus clock j is below d.
    pub fn below(i: usize, j: usize, d: i32) -> Atom
        ensures { result ≡ record { i = i; j = j; d = d; strict = true } }
    {
        Atom {
            i,
            j,
            d,
            strict: true,
        }
    }
}
