// The table of bounds, in memory that the caller lends: open while bounds are added, and then closed.
ghost use Rattle.std.specs.Prelude.{◌≡◌, ℕ, ◌+◌, ◌*◌, ◌^◌, ◌<◌, ◌≤◌, ◌⊎◌, length, ℤ, pos, ◌≤ℤ◌, Decides, MatchOption};
ghost use Rattle.dbm.specs.Table.{entry, Closed as IsClosed, Solution, Tight};

use crate::square::Square;
use bound::{Atom, Bound};

// A table of n × n bounds, n at most 17, with room for one row more. Bounds may be added to it: the sizes are those of made
// bounds, and the diagonal allows at most 0.
#[derive(Drop)]
pub struct Table<'a, B: Bound> {
    pub(crate) square: Square<'a, B>,
    pub(crate) copy: &'a mut [B],
    pub ghost row: { length copy.now ≡ square.n },
    pub ghost small: { (i j : ℕ) → i < square.n → j < square.n → B.size (entry B.NONE square.n square.bounds.now i j) ≤ 2 ^ 37 },
    pub ghost flat: { (i : ℕ) → i < square.n → (k : ℕ) (v : ℤ) → B.admits k → B.allows (entry B.NONE square.n square.bounds.now i i) k v → v ≤ℤ pos 0 },
}

// A table that was closed and has a solution. It is closed, each difference that a bound allows is reached, and the sizes are
// far below the limit of sums.
#[derive(Drop)]
pub struct Closed<'a, B: Bound> {
    pub(crate) square: Square<'a, B>,
    pub ghost closed: { ∥ IsClosed B.Bound (entry B.NONE square.n square.bounds.now) square.n ∥₁ },
    pub ghost tight: { ∥ Tight B.Bound (entry B.NONE square.n square.bounds.now) square.n ∥₁ },
    pub ghost small: { (i j : ℕ) → i < square.n → j < square.n → B.size (entry B.NONE square.n square.bounds.now i j) ≤ 2 ^ 54 },
    pub ghost solution: { ∥ Solution B.Bound (entry B.NONE square.n square.bounds.now) square.n ∥₁ },
}

impl<'a, B: Bound> Table<'a, B> {
    ghost use Rattle.dbm.specs.Calls.{EmptyTable, More, HasSolution, Closes, OpenKeeps, bound_at};

    // A table in this memory, zero on the diagonal and no bound elsewhere; or nothing where n is above 17 or the memory is
    // too short for the table and one row.
    pub fn new(memory: &'a mut [B], n: usize) -> Option<Table<'a, B>>
        ensures { MatchOption result ((17 < n) ⊎ (length memory.old < n * n + n)) (λ t. EmptyTable n t) }
    {
        if n > 17 || memory.len() < n * n + n {
            return None;
        }
        let (bounds, rest) = memory.split_at_mut(n * n);
        let (copy, _) = rest.split_at_mut(n);
        let square = Square::filled(bounds, n);
        Some(Table { square, copy })
    }

    // One more bound: the smaller stays. A row and a column are asked for, since the callers have them from files that passed, and
    // would have a refusal to unwrap.
    pub fn constrain(&mut self, atom: Atom)
        requires row { atom.i < self.old.square.n }
        requires column { atom.j < self.old.square.n }
        ensures { More self.old atom self.new }
    {
        let bound = B::make(atom.d, atom.strict);
        self.square.lower(atom.i, atom.j, bound);
    }

    // Whether every solution keeps a bound, of a table that is tight though bounds may still be added to it. That it is tight is
    // asked for here; a table that was closed has it in its type.
    pub fn include(&self, atom: Atom) -> bool
        requires tight { Tight B.Bound (bound_at self.now) self.now.square.n }
        requires row { atom.i < self.now.square.n }
        requires column { atom.j < self.now.square.n }
        ensures { Decides result (OpenKeeps self.now atom) }
    {
        let entry = self.square.at(atom.i, atom.j);
        entry.not_greater(B::make(atom.d, atom.strict))
    }

    // Closes the table; or nothing where it has no solution.
    pub fn close(self) -> Option<Closed<'a, B>>
        ensures { MatchOption result (HasSolution self.entry → ⊥) (λ t. Closes self.entry t) }
    {
        let Table { mut square, copy } = self;
        if !square.close(copy) {
            return None;
        }
        Some(Closed { square })
    }
}

impl<'a, B: Bound> Closed<'a, B> {
    ghost use Rattle.dbm.specs.Calls.{Keeps};

    // Whether every solution keeps a bound. Its row and column are asked for as above.
    pub fn include(&self, atom: Atom) -> bool
        requires row { atom.i < self.now.square.n }
        requires column { atom.j < self.now.square.n }
        ensures { Decides result (Keeps self.now atom) }
    {
        let bound = B::make(atom.d, atom.strict);
        self.square.at(atom.i, atom.j).not_greater(bound)
    }
}
