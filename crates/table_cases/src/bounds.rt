// The bounds of the cases: x is 1, y is 2, z is 3, and 0 stands for the number zero; of sixteen clocks the last is 16.
ghost use Rattle.std.specs.Prelude.{◌≡◌, ◌<◌, ◌+◌, false, true};
ghost use Rattle.std.specs.List.{All};

use bound::Atom;
use std::array;

pub const ZERO: usize = 0;

pub const X: usize = 1;

pub const Y: usize = 2;

pub const Z: usize = 3;

pub const LAST: usize = 16;

// Each of sixteen clocks at most a step above the one before.
pub(crate) fn steps(step: i32) -> [Atom; 16]
    ensures { All (λ a. (a.i < 17) × (a.j < 17)) result }
{
    array::from_fn(|i| Atom::at_most(i + 1, i, step))
}

// The same, and one bound more.
pub(crate) fn steps_and(step: i32, atom: Atom) -> [Atom; 17]
    requires row { atom.i < 17 }
    requires column { atom.j < 17 }
    ensures { All (λ a. (a.i < 17) × (a.j < 17)) result }
{
    array::from_fn(|i| if i < LAST {
        Atom::at_most(i + 1, i, step)
    } else {
        atom
    })
}

// The k-th difference of two of them, zero among them, at most d.
fn difference(k: usize, d: i32) -> Atom
    requires { k < 272 }
    ensures { (result.i < 17) × (result.j < 17) }
{
    let i = k / 16;
    let j = k % 16;
    Atom::at_most(i, if j < i { j } else { j + 1 }, d)
}

// Every one of them.
pub(crate) fn differences(d: i32) -> [Atom; 272]
    ensures { All (λ a. (a.i < 17) × (a.j < 17)) result }
{
    array::from_fn(|k| difference(k, d))
}
