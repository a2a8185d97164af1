// The clocks that a command resets, with their numbers.
ghost use Rattle.std.specs.Prelude.{◌≡◌, ◌-◌, ◌/◌, ◌%◌, ◌^◌, find, ◌==◌};
ghost use Rattle.std.specs.List.{range_with_len};
ghost use Rattle.std.specs.Iterator.{YieldsFirstBy, item_count};
ghost use Rattle.format.specs.Words.{value as value_of_lem};
ghost use Rattle.model.specs.Views.{reset_is, resets_in};

use crate::words::Words;
use format::value;

// A clock and the number that it gets.
#[derive(Clone, Copy, Debug, PartialEq, Eq)]
pub struct Reset {
    pub clock: usize,
    pub number: i32,
}

// The resets of a command from a bit of its mask on, lowest clock first. Bit n is for clock n + 1.
#[derive(Clone, Copy, Debug, PartialEq, Eq)]
pub struct Resets<'a> {
    pub(crate) bit: u32,
    pub(crate) mask: u32,
    pub(crate) numbers: Words<'a>,
}

// A clock and the number that this word stands for.
fn reset_of(clock: usize, number: u32) -> Reset
    ensures { reset_is result ≡ record { clock = clock; number = value_of_lem number } }
{
    Reset {
        clock,
        number: value(number),
    }
}

// The lowest bit of a mask that is 1, from a bit on and below 15.
fn next_bit(mask: u32, from: u32) -> Option<u32>
    ensures { result ≡ find (λ bit. mask / 2 ^ bit % 2 == 1) (range_with_len from (15 - from)) }
{
    (from..15).find(|&bit| (mask >> bit) % 2 == 1)
}

impl Iterator for Resets<'_> {
    type Item = Reset;

    ghost next_gives = { YieldsFirstBy reset_is resets_in };

    ghost remaining = { item_count resets_in };

    fn next(&mut self) -> Option<Reset> {
        let bit = next_bit(self.mask, self.bit)?;
        let number = self.numbers.next()?;
        self.bit = bit + 1;
        Some(reset_of(bit as usize + 1, number))
    }
}
