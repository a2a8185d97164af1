// The records of a model and of a list, each a part of its file.
ghost use Rattle.std.specs.Prelude.{◌≡◌, Decides, take, drop, slice_index};
ghost use Rattle.std.specs.Int.Count.{ones};
ghost use Rattle.format.specs.Words.{words, content as content_of};
ghost use Rattle.format.specs.Syntax as said;
ghost use Rattle.format.specs.Syntax.{condition_of_words};
ghost use Rattle.model.specs.Views.{words_left};
ghost use Rattle.model.specs.States.{ConditionHolds};
ghost use Rattle.model.specs.Steps.{booleans_after_command};
ghost use Rattle.model.specs.Views.{atoms_in, resets_in, condition_is, guarded_in, command_in, zone_in};

use crate::atoms::Atoms;
use crate::records::Record;
use crate::resets::Resets;
use crate::words::{Words, word};
use format::content;

// Every Boolean in ones is true, and every one in zeros is false. Boolean n is bit n.
#[derive(Clone, Copy, Debug, PartialEq, Eq)]
pub struct Condition {
    pub ones: u32,
    pub zeros: u32,
}

impl Condition {
    // Whether the condition holds at these Booleans.
    pub fn holds(self, booleans: u32) -> bool
        ensures { Decides result (ConditionHolds (condition_is self) booleans) }
    {
        booleans & self.ones == self.ones && booleans & self.zeros == 0
    }
}

// The condition of a record that begins with its two masks.
fn condition_of(bytes: &[u8]) -> Condition
    ensures { condition_is result ≡ condition_of_words (words bytes.now) }
{
    Condition {
        ones: content(word(bytes, 1)),
        zeros: content(word(bytes, 2)),
    }
}

// An invariant or a bad record.
#[derive(Clone, Copy, Debug, PartialEq, Eq)]
pub struct Guarded<'a> {
    pub(crate) bytes: &'a [u8],
}

impl<'a> Record<'a> for Guarded<'a> {
    ghost Said = { said.Guarded };

    ghost said_by = { said.guarded_of };

    ghost says = { guarded_in };

    fn of(bytes: &'a [u8]) -> Guarded<'a> {
        Guarded { bytes }
    }
}

impl<'a> Guarded<'a> {
    pub fn condition(self) -> Condition
        ensures { condition_is result ≡ (guarded_in self.entry).condition }
    {
        condition_of(self.bytes)
    }

    pub fn atoms(self) -> Atoms<'a>
        ensures { atoms_in result ≡ (guarded_in self.entry).atoms }
    {
        Atoms {
            words: Words::of(self.bytes).past(3),
        }
    }
}

// A command.
#[derive(Clone, Copy, Debug, PartialEq, Eq)]
pub struct Command<'a> {
    pub(crate) bytes: &'a [u8],
}

impl<'a> Record<'a> for Command<'a> {
    ghost Said = { said.Command };

    ghost said_by = { said.command_of };

    ghost says = { command_in };

    fn of(bytes: &'a [u8]) -> Command<'a> {
        Command { bytes }
    }
}

impl<'a> Command<'a> {
    pub fn urgent(self) -> bool
        ensures { result ≡ (command_in self.entry).urgent }
    {
        content(word(self.bytes, 0)) == 1
    }

    pub fn condition(self) -> Condition
        ensures { condition_is result ≡ (command_in self.entry).condition }
    {
        condition_of(self.bytes)
    }

    // The Booleans after the command, where these are the Booleans before it.
    pub fn booleans_after(self, booleans: u32) -> u32
        ensures { result ≡ booleans_after_command (command_in self.entry) booleans }
    {
        let sets = content(word(self.bytes, 3));
        let clears = content(word(self.bytes, 4));
        booleans - (booleans & clears) | sets
    }

    // The clocks that it resets.
    fn reset_mask(self) -> u32
        ensures { result ≡ content_of (slice_index (words self.entry.bytes.now) 5) }
    {
        content(word(self.bytes, 5))
    }

    // The numbers of its resets, and the words of its atoms.
    fn numbers_and_atoms(self) -> (Words<'a>, Words<'a>)
        ensures numbers { words_left result.0 ≡ take (ones (content_of (slice_index (words self.entry.bytes.now) 5))) (drop 6 (words self.entry.bytes.now)) }
        ensures atoms { words_left result.1 ≡ drop (ones (content_of (slice_index (words self.entry.bytes.now) 5))) (drop 6 (words self.entry.bytes.now)) }
    {
        let count = self.reset_mask().count_ones() as usize;
        Words::of(self.bytes).past(6).split_at(count)
    }

    pub fn resets(self) -> Resets<'a>
        ensures { resets_in result ≡ (command_in self.entry).resets }
    {
        let (numbers, _) = self.numbers_and_atoms();
        Resets {
            bit: 0,
            mask: self.reset_mask(),
            numbers,
        }
    }

    pub fn atoms(self) -> Atoms<'a>
        ensures { atoms_in result ≡ (command_in self.entry).atoms }
    {
        let (_, words) = self.numbers_and_atoms();
        Atoms { words }
    }
}

// A zone of a list.
#[derive(Clone, Copy, Debug, PartialEq, Eq)]
pub struct Zone<'a> {
    pub(crate) bytes: &'a [u8],
}

impl<'a> Record<'a> for Zone<'a> {
    ghost Said = { said.Zone };

    ghost said_by = { said.zone_of };

    ghost says = { zone_in };

    fn of(bytes: &'a [u8]) -> Zone<'a> {
        Zone { bytes }
    }
}

impl<'a> Zone<'a> {
    pub fn booleans(self) -> u32
        ensures { result ≡ (zone_in self.entry).booleans }
    {
        let first = word(self.bytes, 0);
        content(first)
    }

    pub fn atoms(self) -> Atoms<'a>
        ensures { atoms_in result ≡ (zone_in self.entry).atoms }
    {
        Atoms {
            words: Words::of(self.bytes).past(1),
        }
    }
}
