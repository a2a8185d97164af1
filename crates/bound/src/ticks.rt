// Tick time: scale 1 alone.
ghost use Rattle.std.specs.Prelude.{◌≡◌, pos};
ghost use Rattle.bound.specs.Kinds.{TickLimitAllows, tick_limit_size};
ghost use Rattle.bound.specs.TickLaws.{ticks_common, ticks_total, ticks_allowed, ticks_refused};
ghost use Rattle.std.proofs.Common.{rules};

use crate::limit::Limit;

// A limit of tick time: at most a whole number. A type of its own, since the kind of time goes by the type.
#[derive(Clone, Copy, Debug, PartialEq, Eq)]
pub struct TickLimit {
    pub number: i64,
}

// A bound of tick time.
pub type Ticks = Option<TickLimit>;

impl Limit for TickLimit {
    ghost admits = { λ k. k ≡ 1 };

    ghost allows = { TickLimitAllows };

    ghost size = { tick_limit_size };

    ghost ZERO = { record { number = pos 0 } };

    const ZERO: TickLimit = TickLimit { number: 0 };

    ghost some_scale = { Prim.search rules };

    ghost positive = { Prim.search rules };

    ghost common = { ticks_common };

    ghost lower = { Prim.search rules };

    ghost finer = { Prim.search rules };

    ghost total = { ticks_total };

    ghost zero_allows = { Prim.search rules };

    ghost zero_size = { Prim.search rules };

    ghost some_allowed = { ticks_allowed };

    ghost some_refused = { ticks_refused };

    // Below d is at most d - 1.
    fn make(d: i32, strict: bool) -> TickLimit {
        let d = i64::from(d);
        let number = if strict { d - 1 } else { d };
        TickLimit { number }
    }

    fn not_greater(self, other: TickLimit) -> bool {
        self.number <= other.number
    }

    fn sum(self, other: TickLimit) -> TickLimit {
        TickLimit {
            number: self.number + other.number,
        }
    }
}
