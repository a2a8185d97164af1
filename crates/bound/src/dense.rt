// Dense time: every scale.
ghost use Rattle.std.specs.Prelude.{ℕ, ◌≤◌, false, ℤ, pos, ◌<ℤ◌};
ghost use Rattle.bound.specs.declared.dense.DenseLimit.TheVariants.{AtMost};
ghost use Rattle.bound.specs.Kinds.{DenseAllows, DenseLimitAllows, dense_limit_size};
ghost use Rattle.std.proofs.Common.{arith, rules};
ghost use Rattle.bound.specs.DenseLaws.{dense_common, dense_finer, dense_total, dense_allowed, dense_refused};

use crate::kind::Bound;
use crate::limit::Limit;

// A limit of dense time: below a number, or at most a number. Two variants, and not a number with a mark beside it: copying
// the bytes that fill such a struct up makes closing a table four times slower.
#[derive(Clone, Copy, Debug, PartialEq, Eq)]
pub enum DenseLimit {
    Below(i64),
    AtMost(i64),
}

// A bound of dense time.
pub type Dense = Option<DenseLimit>;

impl Limit for DenseLimit {
    ghost admits = { λ k. 1 ≤ k };

    ghost allows = { DenseLimitAllows };

    ghost size = { dense_limit_size };

    ghost ZERO = { AtMost (pos 0) };

    const ZERO: DenseLimit = DenseLimit::AtMost(0);

    ghost some_scale = { (1, omega arith) };

    ghost positive = { Prim.search rules };

    ghost common = { dense_common };

    ghost lower = { Prim.search rules };

    ghost finer = { λ b k m v ok both. dense_finer b k m v both };

    ghost total = { dense_total };

    ghost zero_allows = { Prim.search rules };

    ghost zero_size = { Prim.search rules };

    ghost some_allowed = { dense_allowed };

    ghost some_refused = { dense_refused };

    fn make(d: i32, strict: bool) -> DenseLimit {
        if strict {
            DenseLimit::Below(i64::from(d))
        } else {
            DenseLimit::AtMost(i64::from(d))
        }
    }

    // The smaller number is within the greater; at the same number only a weak limit is not within a strict one. No order is
    // derived for this: then Option's order, which puts none first, would order bounds too.
    fn not_greater(self, other: DenseLimit) -> bool {
        match (self, other) {
            (DenseLimit::AtMost(a), DenseLimit::Below(b)) => a < b,
            (DenseLimit::Below(a), DenseLimit::Below(b)) => a <= b,
            (DenseLimit::Below(a), DenseLimit::AtMost(b)) => a <= b,
            (DenseLimit::AtMost(a), DenseLimit::AtMost(b)) => a <= b,
        }
    }

    // A sum is strict if one of its parts is.
    fn sum(self, other: DenseLimit) -> DenseLimit {
        match (self, other) {
            (DenseLimit::AtMost(a), DenseLimit::AtMost(b)) => DenseLimit::AtMost(a + b),
            (DenseLimit::Below(a), DenseLimit::Below(b)) => DenseLimit::Below(a + b),
            (DenseLimit::Below(a), DenseLimit::AtMost(b)) => DenseLimit::Below(a + b),
            (DenseLimit::AtMost(a), DenseLimit::Below(b)) => DenseLimit::Below(a + b),
        }
    }
}

// In dense time, below 5 and at most -5 add up to below 0: the sum does not allow 0, and at every scale it allows all that is
// below 0.
pub fn strict_five_less_five() -> Dense
    ensures zero { (k : ℕ) → 1 ≤ k → DenseAllows result k (pos 0) → ⊥ }
    ensures below { (k : ℕ) (v : ℤ) → 1 ≤ k → v <ℤ pos 0 → DenseAllows result k v }
{
    let below = Dense::make(5, true);
    let at_most = Dense::make(-5, false);
    below.sum(at_most)
}
