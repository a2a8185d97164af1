// A bound is none or a limit.
ghost use Rattle.std.specs.Prelude.{◌≡◌, ℕ, ◌+◌, ◌*◌, ◌^◌, ◌≤◌, ◌⊎◌, ℤ, pos, ◌*ℤ◌, ◌≤ℤ◌, Decides, unsigned_abs, None, Some};
ghost use Rattle.bound.specs.Time.{Common, Within, Splits, Made, Same};
ghost use Rattle.bound.specs.Lifted.{Lifted, lifted_size, lifted_total};
ghost use Rattle.std.proofs.Common.{rules};

use crate::kind::Bound;

// A kind of time, by the limits of its bounds. It asks of a limit what `Bound` asks of a bound, but for none, and two laws more.
// A trait over both would have to leave out none and say less of each, so it would be no plainer.
pub trait Limit: Copy {
    ghost admits: { ℕ → Type 0 };

    ghost allows: { Self → ℕ → ℤ → Type 0 };

    ghost size: { Self → ℕ };

    // At most 0.
    ghost ZERO: { Self };

    const ZERO: Self;

    // At most d, or below d if strict.
    fn make(d: i32, strict: bool) -> Self
        ensures meaning { (k : ℕ) (v : ℤ) → admits k → Same (allows result k v) (Made d strict k v) }
        ensures small { size result ≤ 32 * (unsigned_abs d + 1) };

    // Whether `other` allows all that `self` allows, at every admitted scale.
    fn not_greater(self, other: Self) -> bool
        ensures { Decides result (Within admits (allows self) (allows other)) };

    // The limit on a sum of two differences.
    fn sum(self, other: Self) -> Self
        requires { size self + size other ≤ 2 ^ 60 }
        ensures meaning { (k : ℕ) (v : ℤ) → admits k → Same (allows result k v) (Splits admits (allows self) (allows other) k v) }
        ensures small { size result ≤ size self + size other };

    ghost some_scale: { (k : ℕ) × admits k };

    ghost positive: { (k : ℕ) → admits k → 1 ≤ k };

    ghost common: { (k l : ℕ) → admits k → admits l → Common admits k l };

    ghost lower: { (b : Self) (k : ℕ) (u v : ℤ) → admits k → allows b k v → u ≤ℤ v → allows b k u };

    ghost finer: { (b : Self) (k m : ℕ) (v : ℤ) → admits k → admits (k * m) → Same (allows b k v) (allows b (k * m) (v *ℤ pos m)) };

    ghost total: { (a b : Self) → Within admits (allows a) (allows b) ⊎ Within admits (allows b) (allows a) };

    ghost zero_allows: { (k : ℕ) (v : ℤ) → admits k → Same (allows ZERO k v) (v ≤ℤ pos 0) };

    ghost zero_size: { size ZERO ≡ 0 };

    // A limit allows some difference at each admitted scale, and not every one.
    ghost some_allowed: { (b : Self) (k : ℕ) → admits k → (v : ℤ) × allows b k v };

    ghost some_refused: { (b : Self) (k : ℕ) → admits k → (v : ℤ) × (allows b k v → ⊥) };
}

// A bound is a limit, or none.
impl<L: Limit> Bound for Option<L> {
    ghost admits = { L.admits };

    ghost allows = { Lifted L.allows };

    ghost size = { lifted_size L.size };

    ghost NONE = { None };

    ghost ZERO = { Some L.ZERO };

    const NONE: Option<L> = None;

    const ZERO: Option<L> = Some(L::ZERO);

    ghost some_scale = { L.some_scale };

    ghost positive = { L.positive };

    ghost common = { L.common };

    ghost lower = { Prim.search rules };

    ghost finer = { Prim.search rules };

    ghost total = { lifted_total L.admits L.allows L.total };

    ghost none_allows = { Prim.search rules };

    ghost zero_allows = { L.zero_allows };

    ghost none_size = { Prim.search rules };

    ghost zero_size = { L.zero_size };

    fn make(d: i32, strict: bool) -> Option<L> {
        Some(L::make(d, strict))
    }

    fn not_greater(self, other: Option<L>) -> bool {
        match (self, other) {
            (_, None) => true,
            (None, Some(_)) => false,
            (Some(a), Some(b)) => a.not_greater(b),
        }
    }

    fn sum(self, other: Option<L>) -> Option<L> {
        let a = self?;
        let b = other?;
        Some(a.sum(b))
    }
}
