// The bounds of a table, row by row: filling them, reading one, and one more.
ghost use Rattle.std.specs.Prelude.{◌≡◌, ℕ, ◌+◌, ◌*◌, ◌<◌, ◌≤◌, length, Decides, slice_index_or, slice_set};
ghost use Rattle.bound.specs.Time.{Within};
ghost use Rattle.dbm.specs.Table.{entry, Filled, Constrained};

use bound::Bound;

// n rows of n bounds, n at most 17, in memory that is lent, there being no heap: the rows' length stands beside it. The methods
// ask for a row and a column below n: a type for an index would have to carry n, and be no plainer.
#[derive(Drop)]
pub(crate) struct Square<'a, B> {
    pub(crate) bounds: &'a mut [B],
    pub(crate) n: usize,
    pub ghost few: { n ≤ 17 },
    pub ghost whole: { length bounds.now ≡ n * n },
}

// No bound anywhere.
fn clear<B: Bound>(bounds: &mut [B])
    ensures { (p : ℕ) → slice_index_or bounds.new p B.NONE ≡ B.NONE }
{
    for b in bounds.iter_mut() {
        *b = B::NONE;
    }
}

impl<'a, B: Bound> Square<'a, B> {
    // Zero on the diagonal, no bound elsewhere. The diagonal is no part of the slice, so it goes by index.
    pub(crate) fn filled(bounds: &'a mut [B], n: usize) -> Square<'a, B>
        requires few { n ≤ 17 }
        requires whole { length bounds.old ≡ n * n }
        ensures rows { result.n ≡ n }
        ensures filled { Filled B.NONE B.ZERO n result.bounds.now }
    {
        clear(bounds);
        let mut square = Square { bounds, n };
        for i in 0..n {
            square.set(i, i, B::ZERO);
        }
        square
    }

    // Where the bound in row i and column j lies.
    pub(crate) fn place(&self, i: usize, j: usize) -> usize
        requires row { i < self.now.n }
        requires column { j < self.now.n }
        ensures at { result ≡ i * self.now.n + j }
        ensures inside { result < length self.now.bounds.now }
    {
        i * self.n + j
    }

    // The bound in row i and column j.
    pub(crate) fn at(&self, i: usize, j: usize) -> B
        requires row { i < self.now.n }
        requires column { j < self.now.n }
        ensures { result ≡ entry B.NONE self.now.n self.now.bounds.now i j }
    {
        self.bounds[self.place(i, j)]
    }

    // Row i.
    pub(crate) fn row(&self, i: usize) -> &[B]
        requires { i < self.now.n }
        ensures long { length result.now ≡ self.now.n }
        ensures bounds { (j : ℕ) → j < self.now.n → slice_index_or result.now j B.NONE ≡ entry B.NONE self.now.n self.now.bounds.now i j }
    {
        let start = self.place(i, 0);
        &self.bounds[start..start + self.n]
    }

    // Another bound in row i and column j.
    fn set(&mut self, i: usize, j: usize, bound: B)
        requires row { i < self.old.n }
        requires column { j < self.old.n }
        ensures rows { self.new.n ≡ self.old.n }
        ensures bounds { self.new.bounds.now ≡ slice_set self.old.bounds.now (i * self.old.n + j) bound }
    {
        let place = self.place(i, j);
        self.bounds[place] = bound;
    }

    // One more bound in row i and column j: the smaller stays.
    pub(crate) fn lower(&mut self, i: usize, j: usize, bound: B)
        requires row { i < self.old.n }
        requires column { j < self.old.n }
        ensures rows { self.new.n ≡ self.old.n }
        ensures lowered { Constrained B.Bound self.old.n self.old.bounds.now i j bound self.new.bounds.now }
    {
        if !self.at(i, j).not_greater(bound) {
            self.set(i, j, bound);
        }
    }

    // Whether the diagonal allows 0 at k.
    pub(crate) fn keeps_zero(&self, k: usize) -> bool
        requires { k < self.now.n }
        ensures { Decides result (Within B.admits (B.allows B.ZERO) (B.allows (entry B.NONE self.now.n self.now.bounds.now k k))) }
    {
        B::ZERO.not_greater(self.at(k, k))
    }

    // Whether the whole diagonal allows 0.
    pub(crate) fn diagonal_keeps_zero(&self) -> bool
        ensures { Decides result ((i : ℕ) → i < self.now.n → Within B.admits (B.allows B.ZERO) (B.allows (entry B.NONE self.now.n self.now.bounds.now i i))) }
    {
        (0..self.n).all(|i| self.keeps_zero(i))
    }
}
