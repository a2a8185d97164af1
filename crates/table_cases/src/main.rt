//! Closes small zones, in dense time and in ticks, and prints a line for each case: its name and the answer.
#![tactic(auto)]

mod bounds;
mod case;

use bound::{Atom, Bound, Dense, Ticks};
use bounds::{LAST, X, Y, Z, ZERO, differences, steps, steps_and};
use case::{Case, PLACES, fits, zone, zone_in};
use std::io;

// Prints the lines of one kind of time.
#[derive(Drop)]
struct Show<'a, B: Bound> {
    rt: &'a HostRuntime,
    kind: &'static str,
    memory: &'a mut [B],
}

impl<'a, B: Bound> Show<'a, B> {
    fn lines(&mut self, cases: &[Case]) -> io::Result<()> {
        let kind = self.kind;
        for case in cases {
            let name = case.name();
            let answer = case.answer(self.memory);
            println!(self.rt; "{kind}, {name}: {answer}")?;
        }
        Ok(())
    }

    // Tables and the memory they ask.
    fn places(&mut self) -> io::Result<()> {
        self.lines(&[
            fits("18 rows in 342 places", 18, 342),
            fits("17 rows in 305 places", 17, 305),
            fits("17 rows in 306 places", 17, 306),
            fits("3 rows in 11 places", 3, 11),
            fits("3 rows in 12 places", 3, 12),
            fits("no rows in no places", 0, 0),
        ])
    }

    // Bounds that follow from others.
    fn follow(&mut self) -> io::Result<()> {
        let sum = [Atom::at_most(X, Y, 1), Atom::at_most(Y, ZERO, 2)];
        let x = [Atom::at_most(X, ZERO, 3)];
        self.lines(&[
            zone_in(
                "x - y <= 1, y <= 2 in x <= 3",
                3,
                &sum,
                Atom::at_most(X, ZERO, 3),
            ),
            zone_in(
                "x - y <= 1, y <= 2 in x <= 2",
                3,
                &sum,
                Atom::at_most(X, ZERO, 2),
            ),
            zone_in(
                "x - y <= 1, y <= 2 in x < 3",
                3,
                &sum,
                Atom::below(X, ZERO, 3),
            ),
            zone_in("x <= 3 in y <= 3", 3, &x, Atom::at_most(Y, ZERO, 3)),
            zone_in(
                "x <= 3 in y <= i32::MAX",
                3,
                &x,
                Atom::at_most(Y, ZERO, i32::MAX),
            ),
        ])
    }

    // Two bounds on one difference.
    fn two(&mut self) -> io::Result<()> {
        let three = Atom::at_most(X, ZERO, 3);
        let below_three = Atom::below(X, ZERO, 3);
        let five = Atom::at_most(X, ZERO, 5);
        self.lines(&[
            zone_in("x <= 3 twice in x <= 3", 2, &[three, three], three),
            zone_in("x <= 3 twice in x < 3", 2, &[three, three], below_three),
            zone_in("x <= 3, then x <= 5 in x <= 3", 2, &[three, five], three),
            zone_in(
                "x < 3, then x <= 3 in x < 3",
                2,
                &[below_three, three],
                below_three,
            ),
            zone_in("x <= 5, then x <= 3 in x <= 3", 2, &[five, three], three),
        ])
    }

    // Zones with no solution, and their neighbours that have one.
    fn empty(&mut self) -> io::Result<()> {
        let from_three = Atom::at_most(ZERO, X, -3);
        self.lines(&[
            zone(
                "x >= 2, x <= 1",
                2,
                &[Atom::at_most(ZERO, X, -2), Atom::at_most(X, ZERO, 1)],
            ),
            zone(
                "x - y <= -1, y - z <= -1, z - x <= 1",
                4,
                &[
                    Atom::at_most(X, Y, -1),
                    Atom::at_most(Y, Z, -1),
                    Atom::at_most(Z, X, 1),
                ],
            ),
            zone(
                "x - y <= -1, y - z <= -1, z - x <= 2",
                4,
                &[
                    Atom::at_most(X, Y, -1),
                    Atom::at_most(Y, Z, -1),
                    Atom::at_most(Z, X, 2),
                ],
            ),
            zone(
                "x >= 3, x <= 3",
                2,
                &[from_three, Atom::at_most(X, ZERO, 3)],
            ),
            zone_in(
                "x >= 3, x <= 3 in x <= 3",
                2,
                &[from_three, Atom::at_most(X, ZERO, 3)],
                Atom::at_most(X, ZERO, 3),
            ),
            zone("x >= 3, x < 3", 2, &[from_three, Atom::below(X, ZERO, 3)]),
        ])
    }

    // The same with strict bounds, and on the diagonal.
    fn strict(&mut self) -> io::Result<()> {
        self.lines(&[
            zone(
                "x > 2, x < 3",
                2,
                &[Atom::below(ZERO, X, -2), Atom::below(X, ZERO, 3)],
            ),
            zone(
                "x > 1, x < 3",
                2,
                &[Atom::below(ZERO, X, -1), Atom::below(X, ZERO, 3)],
            ),
            zone("x - x <= 0", 2, &[Atom::at_most(X, X, 0)]),
            zone("x - x < 0", 2, &[Atom::below(X, X, 0)]),
            zone("x - x < 1", 2, &[Atom::below(X, X, 1)]),
        ])
    }

    // Strict against weak.
    fn marks(&mut self) -> io::Result<()> {
        let three = Atom::at_most(X, ZERO, 3);
        let below_three = Atom::below(X, ZERO, 3);
        let two = Atom::at_most(X, ZERO, 2);
        self.lines(&[
            zone_in("x < 3 in x <= 3", 2, &[below_three], three),
            zone_in("x <= 3 in x < 3", 2, &[three], below_three),
            zone_in("x < 3 in x < 3", 2, &[below_three], below_three),
            zone_in("x < 3 in x <= 2", 2, &[below_three], two),
            zone_in("x <= 2 in x < 3", 2, &[two], below_three),
        ])
    }

    // The least and the greatest number.
    fn extremes(&mut self) -> io::Result<()> {
        let most = Atom::at_most(X, ZERO, i32::MAX);
        let below_most = Atom::below(X, ZERO, i32::MAX);
        let least = Atom::at_most(X, ZERO, i32::MIN);
        let below_least = Atom::below(X, ZERO, i32::MIN);
        self.lines(&[
            zone_in("x <= i32::MAX in x <= i32::MAX", 2, &[most], most),
            zone_in("x <= i32::MAX in x < i32::MAX", 2, &[most], below_most),
            zone_in("x < i32::MIN in x <= i32::MIN", 2, &[below_least], least),
            zone_in("x <= i32::MIN in x < i32::MIN", 2, &[least], below_least),
            zone_in("x <= i32::MIN in x < i32::MAX", 2, &[least], below_most),
        ])
    }

    // Sums of them.
    fn extreme_sums(&mut self) -> io::Result<()> {
        let negated = Atom::at_most(ZERO, X, i32::MAX);
        self.lines(&[
            zone(
                "-x <= i32::MAX, x <= i32::MIN",
                2,
                &[negated, Atom::at_most(X, ZERO, i32::MIN)],
            ),
            zone(
                "-x <= i32::MAX, x <= i32::MIN + 1",
                2,
                &[negated, Atom::at_most(X, ZERO, i32::MIN + 1)],
            ),
            zone_in(
                "y - x <= i32::MAX, x <= i32::MAX in y <= i32::MAX",
                3,
                &[
                    Atom::at_most(Y, X, i32::MAX),
                    Atom::at_most(X, ZERO, i32::MAX),
                ],
                Atom::at_most(Y, ZERO, i32::MAX),
            ),
            zone_in(
                "y - x <= i32::MIN, x <= i32::MIN in y < i32::MIN",
                3,
                &[
                    Atom::at_most(Y, X, i32::MIN),
                    Atom::at_most(X, ZERO, i32::MIN),
                ],
                Atom::below(Y, ZERO, i32::MIN),
            ),
        ])
    }

    // Seventeen rows.
    fn chains(&mut self) -> io::Result<()> {
        let million = steps(1_000_000);
        self.lines(&[
            zone_in(
                "16 steps of 1000000 in the last <= 16000000",
                17,
                &million,
                Atom::at_most(LAST, ZERO, 16_000_000),
            ),
            zone_in(
                "16 steps of 1000000 in the last <= 15999999",
                17,
                &million,
                Atom::at_most(LAST, ZERO, 15_999_999),
            ),
            zone(
                "16 steps of 1000000, the last >= 16000000",
                17,
                &steps_and(1_000_000, Atom::at_most(ZERO, LAST, -16_000_000)),
            ),
            zone(
                "16 steps of 1000000, the last > 16000000",
                17,
                &steps_and(1_000_000, Atom::below(ZERO, LAST, -16_000_000)),
            ),
        ])
    }

    // Seventeen rows and the greatest and the least number.
    fn extreme_chains(&mut self) -> io::Result<()> {
        self.lines(&[
            zone(
                "16 steps of i32::MAX, the last >= -i32::MAX",
                17,
                &steps_and(i32::MAX, Atom::at_most(ZERO, LAST, i32::MAX)),
            ),
            zone_in(
                "16 steps of i32::MAX in the last <= i32::MAX",
                17,
                &steps(i32::MAX),
                Atom::at_most(LAST, ZERO, i32::MAX),
            ),
            zone_in(
                "16 steps of i32::MIN in the last < i32::MIN",
                17,
                &steps(i32::MIN),
                Atom::below(LAST, ZERO, i32::MIN),
            ),
            zone("every difference <= i32::MAX", 17, &differences(i32::MAX)),
            zone("every difference <= i32::MIN", 17, &differences(i32::MIN)),
        ])
    }

    // Every case.
    fn all(&mut self) -> io::Result<()> {
        self.places()?;
        self.follow()?;
        self.two()?;
        self.empty()?;
        self.strict()?;
        self.marks()?;
        self.extremes()?;
        self.extreme_sums()?;
        self.chains()?;
        self.extreme_chains()
    }
}

fn main(rt: HostRuntime) -> io::Result<()> {
    let mut dense = [Dense::NONE; PLACES];
    let mut ticks = [Ticks::NONE; PLACES];
    let mut show = Show {
        rt: &rt,
        kind: "dense",
        memory: &mut dense,
    };
    show.all()?;
    let mut show = Show {
        rt: &rt,
        kind: "ticks",
        memory: &mut ticks,
    };
    show.all()
}
