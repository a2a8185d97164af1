// Closing a table: no entry greater than the sum of two entries through a third.
ghost use Rattle.std.specs.Prelude.{◌≡◌, ℕ, ◌+◌, ◌^◌, ◌<◌, ◌≤◌, true, false, length, ℤ, pos, ◌≤ℤ◌, slice_index_or};
ghost use Rattle.dbm.specs.Table.{Tightened, entry, SameSolutions, ConsistentTable, Solution};

use crate::square::Square;
use bound::Bound;

// The smaller of a bound and the sum of two others.
fn lowered<B: Bound>(old: B, via: B, through: B) -> B
    requires { B.size via + B.size through ≤ 2 ^ 60 }
    ensures { Tightened B.Bound old via through result }
{
    let sum = via.sum(through);
    if old.not_greater(sum) { old } else { sum }
}

// Tightens one row: each entry by `via` and the entry of the same column in the row `through`.
fn tighten<B: Bound>(row: &mut [B], via: B, through: &[B])
    requires same_length { length row.old ≡ length through.now }
    requires sizes { (j : ℕ) → j < length through.now → B.size via + B.size (slice_index_or through.now j B.NONE) ≤ 2 ^ 60 }
    ensures { (j : ℕ) → j < length row.old → Tightened B.Bound (slice_index_or row.old j B.NONE) via (slice_index_or through.now j B.NONE) (slice_index_or row.new j B.NONE) }
{
    // By index: a `zip` with `iter_mut` was tried, and the proof lacks what it leaves of the entries.
    for (j, bound) in row.iter_mut().enumerate() {
        *bound = lowered(*bound, via, through[j]);
    }
}

impl<'a, B: Bound> Square<'a, B> {
    // One turn of closing: every entry by the way through k. `copy` holds row k meanwhile.
    fn turn(&mut self, copy: &mut [B], k: usize)
        requires in_table { k < self.old.n }
        requires row { length copy.old ≡ self.old.n }
        requires sizes { (i j : ℕ) → i < self.old.n → j < self.old.n → B.size (entry B.NONE self.old.n self.old.bounds.now i j) ≤ 2 ^ 59 }
        ensures rows { self.new.n ≡ self.old.n }
        ensures tightened { (i j : ℕ) → i < self.old.n → j < self.old.n → Tightened B.Bound (entry B.NONE self.old.n self.old.bounds.now i j) (entry B.NONE self.old.n self.old.bounds.now i k) (entry B.NONE self.old.n self.old.bounds.now k j) (entry B.NONE self.old.n self.new.bounds.now i j) }
    {
        copy.copy_from_slice(self.row(k));
        // By index: `chunks_exact_mut` was tried, and the proof lacks what it leaves of the rows.
        for i in 0..self.n {
            let via = self.at(i, k);
            let start = self.place(i, 0);
            tighten(&mut self.bounds[start..start + self.n], via, copy);
        }
    }

    // Closes the table, and says whether it has a solution. No more turns are made once the diagonal shows that it has none.
    pub(crate) fn close(&mut self, copy: &mut [B]) -> bool
        requires row { length copy.old ≡ self.old.n }
        requires sizes { (i j : ℕ) → i < self.old.n → j < self.old.n → B.size (entry B.NONE self.old.n self.old.bounds.now i j) ≤ 2 ^ 37 }
        requires flat { (i : ℕ) → i < self.old.n → (k : ℕ) (v : ℤ) → B.admits k → B.allows (entry B.NONE self.old.n self.old.bounds.now i i) k v → v ≤ℤ pos 0 }
        ensures rows { self.new.n ≡ self.old.n }
        ensures same { SameSolutions B.Bound self.old.n self.old.bounds.now self.new.bounds.now }
        ensures closed { result ≡ true → ConsistentTable B.Bound (entry B.NONE self.old.n self.old.bounds.now) (entry B.NONE self.old.n self.new.bounds.now) self.old.n }
        ensures none { result ≡ false → Solution B.Bound (entry B.NONE self.old.n self.old.bounds.now) self.old.n → ⊥ }
    {
        for k in 0..self.n {
            if !self.keeps_zero(k) {
                return false;
            }
            self.turn(copy, k);
        }
        self.diagonal_keeps_zero()
    }
}
