// Frames: where a table has the clocks of a state.
ghost use Rattle.std.specs.Prelude.{◌≡◌, ℕ, ◌<◌, ◌+ℤ◌, ◌-ℤ◌, ◌≤ℤ◌};
ghost use Rattle.format.specs.Places.{least_number, greatest_number};
ghost use Rattle.model.specs.Views.{atom_is, resets_in};
ghost use Rattle.checks.specs.Systems.{same as same_frame, before as before_frame, after as AfterFrame};
ghost use Rattle.checks.specs.Frames.{shape, place, OffsetFits, Placeable, Written};

use model::{Atom, Reset, Resets};
use std::array;

// Where a clock is: the value of a row plus an offset, less the value of clock 0's row.
#[derive(Clone, Copy)]
pub(crate) struct Spot {
    pub(crate) row: usize,
    pub(crate) offset: i32,
}

// Where clock 0 and each of at most 15 clocks are.
#[derive(Clone, Copy)]
pub(crate) struct Frame {
    pub(crate) spots: [Spot; 16],
}

// An atom's number, less the offset of its first clock and plus that of its second: within two million either way.
fn shifted(number: i32, first: i32, second: i32) -> i32
    requires low { least_number ≤ℤ number }
    requires high { number ≤ℤ greatest_number }
    requires one { OffsetFits first }
    requires other { OffsetFits second }
    ensures { result ≡ (number -ℤ first) +ℤ second }
{
    number - first + second
}

impl Frame {
    // Each clock in its own row.
    pub(crate) fn same() -> Frame
        ensures { shape result ≡ same_frame }
    {
        Frame {
            spots: array::from_fn(|row| Spot { row, offset: 0 }),
        }
    }

    // Before a delay: clock 0 in the row of the second zero.
    pub(crate) fn before(second: usize) -> Frame
        ensures { shape result ≡ before_frame second }
    {
        let mut frame = Frame::same();
        frame.spots[0].row = second;
        frame
    }

    // A clock gets a number: it is in the row of zero, with its number as offset.
    fn reset(&mut self, reset: Reset)
        requires { reset.clock < 16 }
        ensures { Written self.old (record { clock = reset.clock; number = reset.number }) self.new }
    {
        self.spots[reset.clock] = Spot {
            row: 0,
            offset: reset.number,
        };
    }

    // After some resets: a reset clock in the row of zero, with its number as offset.
    pub(crate) fn after(resets: Resets) -> Frame
        ensures { shape result ≡ AfterFrame (resets_in resets.entry) }
    {
        let mut frame = Frame::same();
        for reset in resets {
            frame.reset(reset);
        }
        frame
    }

    // An atom as the table has it.
    pub(crate) fn place(&self, atom: Atom) -> Atom
        requires { (n : ℕ) × Placeable (shape self.now) n (atom_is atom) }
        ensures { atom_is result ≡ place (shape self.now) (atom_is atom) }
    {
        let first = self.spots[atom.i];
        let second = self.spots[atom.j];
        Atom {
            i: first.row,
            j: second.row,
            d: shifted(atom.d, first.offset, second.offset),
            strict: atom.strict,
        }
    }
}
