//! Kinds of time: what a bound on the difference of two clocks means, and the two kinds dense and ticks.
#![tactic(auto)]

mod atom;
mod dense;
mod kind;
mod limit;
mod ticks;

pub use atom::Atom;
pub use dense::{Dense, DenseLimit, strict_five_less_five};
pub use kind::Bound;
pub use limit::Limit;
pub use ticks::{TickLimit, Ticks};

#[cfg(test)]
mod tests {
    use super::*;

    fn ticks(number: i64) -> Ticks {
        Some(TickLimit { number })
    }

    // The two kinds differ in what is expected of them, so each has its own tests.
    #[test]
    fn dense_orders(rt: HostRuntime) {
        let three = Dense::make(3, false);
        let four = Dense::make(4, false);
        let below_four = Dense::make(4, true);
        assert!(rt; three.not_greater(four));
        assert!(rt; !four.not_greater(three));
        assert!(rt; three.not_greater(below_four));
        assert!(rt; below_four.not_greater(four));
        assert!(rt; !four.not_greater(below_four));
        assert!(rt; below_four.not_greater(below_four));
        assert!(rt; four.not_greater(Dense::NONE));
        assert!(rt; !Dense::NONE.not_greater(four));
        assert!(rt; Dense::NONE.not_greater(Dense::NONE));
    }

    #[test]
    fn ticks_orders(rt: HostRuntime) {
        let three = Ticks::make(3, false);
        let four = Ticks::make(4, false);
        let below_four = Ticks::make(4, true);
        assert!(rt; three.not_greater(four));
        assert!(rt; !four.not_greater(three));
        assert!(rt; below_four.not_greater(three));
        assert!(rt; below_four.not_greater(four));
        assert!(rt; !four.not_greater(below_four));
        assert!(rt; four.not_greater(Ticks::NONE));
        assert!(rt; !Ticks::NONE.not_greater(four));
        assert!(rt; Ticks::NONE.not_greater(Ticks::NONE));
    }

    #[test]
    fn dense_sums(rt: HostRuntime) {
        let two = Dense::make(2, false);
        let three = Dense::make(3, false);
        assert_eq!(rt; two.sum(three), Dense::make(5, false));
        assert_eq!(rt; strict_five_less_five(), Dense::make(0, true));
        assert_eq!(rt; Dense::NONE.sum(two), Dense::NONE);
        assert_eq!(rt; two.sum(Dense::NONE), Dense::NONE);
    }

    #[test]
    fn ticks_sums(rt: HostRuntime) {
        let two = Ticks::make(2, false);
        let three = Ticks::make(3, false);
        let below_five = Ticks::make(5, true);
        let less_five = Ticks::make(-5, false);
        assert_eq!(rt; two.sum(three), Ticks::make(5, false));
        assert_eq!(rt; below_five.sum(less_five), Ticks::make(-1, false));
        assert_eq!(rt; Ticks::NONE.sum(two), Ticks::NONE);
        assert_eq!(rt; two.sum(Ticks::NONE), Ticks::NONE);
    }

    #[test]
    fn constants(rt: HostRuntime) {
        assert!(rt; Dense::NONE.is_none());
        assert!(rt; Ticks::NONE.is_none());
        assert_eq!(rt; Dense::ZERO, Some(DenseLimit::AtMost(0)));
        assert_eq!(rt; Ticks::ZERO, Some(TickLimit { number: 0 }));
        assert_eq!(rt; Dense::make(0, false), Dense::ZERO);
        assert_eq!(rt; Ticks::make(0, false), Ticks::ZERO);
    }

    #[test]
    fn extremes(rt: HostRuntime) {
        assert_eq!(rt;
            Dense::make(i32::MIN, false),
            Some(DenseLimit::AtMost(-2_147_483_648))
        );
        assert_eq!(rt;
            Dense::make(i32::MIN, true),
            Some(DenseLimit::Below(-2_147_483_648))
        );
        assert_eq!(rt;
            Dense::make(i32::MAX, false),
            Some(DenseLimit::AtMost(2_147_483_647))
        );
        assert_eq!(rt;
            Dense::make(i32::MAX, true),
            Some(DenseLimit::Below(2_147_483_647))
        );
        assert_eq!(rt; Ticks::make(i32::MIN, false), ticks(-2_147_483_648));
        assert_eq!(rt; Ticks::make(i32::MIN, true), ticks(-2_147_483_649));
        assert_eq!(rt; Ticks::make(i32::MAX, false), ticks(2_147_483_647));
        assert_eq!(rt; Ticks::make(i32::MAX, true), ticks(2_147_483_646));
    }
}
