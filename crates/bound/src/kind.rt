// What a kind of time is.
ghost use Rattle.std.specs.Prelude.{◌≡◌, ℕ, ◌+◌, ◌*◌, ◌^◌, ◌≤◌, ◌⊎◌, ℤ, pos, ◌*ℤ◌, ◌≤ℤ◌, Decides, unsigned_abs};
ghost use Rattle.bound.specs.Time.{Common, Within, Splits, Made, Same};

// A kind of time, by its bounds. At scale K a clock holds a whole number of units of 1/K. The kind says which scales it
// admits, and a bound says which differences of two clocks it allows at each of them.
pub trait Bound: Copy {
    ghost admits: { ℕ → Type 0 };

    ghost allows: { Self → ℕ → ℤ → Type 0 };

    ghost size: { Self → ℕ };

    // No bound at all, and at most 0.
    ghost NONE: { Self };

    const NONE: Self;

    ghost ZERO: { Self };

    const ZERO: Self;

    // At most d, or below d if strict.
    fn make(d: i32, strict: bool) -> Self
        ensures meaning { (k : ℕ) (v : ℤ) → admits k → Same (allows result k v) (Made d strict k v) }
        ensures small { size result ≤ 32 * (unsigned_abs d + 1) };

    // Whether `other` allows all that `self` allows, at every admitted scale.
    fn not_greater(self, other: Self) -> bool
        ensures { Decides result (Within admits (allows self) (allows other)) };

    // The bound on a sum of two differences.
    fn sum(self, other: Self) -> Self
        requires { size self + size other ≤ 2 ^ 60 }
        ensures meaning { (k : ℕ) (v : ℤ) → admits k → Same (allows result k v) (Splits admits (allows self) (allows other) k v) }
        ensures small { size result ≤ size self + size other };

    ghost some_scale: { (k : ℕ) × admits k };

    ghost positive: { (k : ℕ) → admits k → 1 ≤ k };

    ghost common: { (k l : ℕ) → admits k → admits l → Common admits k l };

    ghost lower: { (b : Self) (k : ℕ) (u v : ℤ) → admits k → allows b k v → u ≤ℤ v → allows b k u };

    ghost finer: { (b : Self) (k m : ℕ) (v : ℤ) → admits k → admits (k * m) → Same (allows b k v) (allows b (k * m) (v *ℤ pos m)) };

    ghost total: { (a b : Self) → Within admits (allows a) (allows b) ⊎ Within admits (allows b) (allows a) };

    ghost none_allows: { (k : ℕ) (v : ℤ) → admits k → allows NONE k v };

    ghost zero_allows: { (k : ℕ) (v : ℤ) → admits k → Same (allows ZERO k v) (v ≤ℤ pos 0) };

    ghost none_size: { size NONE ≡ 0 };

    ghost zero_size: { size ZERO ≡ 0 };
}
