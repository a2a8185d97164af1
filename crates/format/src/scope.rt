// What the head of a file says, and how long the file is.
ghost use Rattle.std.specs.Prelude.{◌+◌, ◌/◌, ◌^◌, ◌<◌, ◌≤◌, length, Some};

use crate::kind::RecordKind;
use std::fmt;

// The counts of Booleans and clocks, and the count of words in the whole file, by which a word's place is told.
#[derive(Clone, Copy, Debug, PartialEq, Eq)]
pub struct Scope {
    pub(crate) booleans: u32,
    pub(crate) clocks: u32,
    pub(crate) words: u32,
    ghost few_booleans: { booleans ≤ 24 },
    ghost few_clocks: { clocks ≤ 15 },
}

// A reader of words: those of a file that are left, and the place in the file of the next one.
#[derive(Debug, PartialEq, Eq, Drop)]
pub(crate) struct Text<'a> {
    pub(crate) scope: Scope,
    pub(crate) next: usize,
    pub(crate) bytes: &'a [u8],
    ghost countable: { next + length bytes.now / 4 < 2 ^ 64 },
}

// The two files.
#[derive(Clone, Copy, Debug, PartialEq, Eq)]
pub enum File {
    Model,
    List,
}

impl fmt::Display for File {
    ghost use Rattle.format.specs.Names.{file_name};
    ghost use Rattle.format.specs.Reading.{file_of};

    ghost output = { λ f. Some (file_name (file_of f)) };

    fn fmt<W: fmt::Write>(&self, f: &mut fmt::Formatter<W>) -> fmt::Result {
        match *self {
            File::Model => write!(f, "model"),
            File::List => write!(f, "list"),
        }
    }
}

// How many records of each kind there are.
#[derive(Clone, Copy, Debug, PartialEq, Eq)]
pub struct Tally {
    pub invariants: u16,
    pub commands: u16,
    pub bads: u16,
    pub zones: u16,
}

// Where a reader of records stands in a file: after the record that was read last, if any.
#[derive(Clone, Copy, Debug, PartialEq, Eq)]
pub struct Place {
    pub(crate) scope: Scope,
    pub(crate) file: File,
    pub(crate) last: Option<RecordKind>,
    pub(crate) tally: Tally,
}

// One record: a part of the file, the word that begins it and the words that continue it.
#[derive(Clone, Copy, Debug, PartialEq, Eq)]
pub enum Record<'a> {
    Head(&'a [u8]),
    Start(&'a [u8]),
    Invariant(&'a [u8]),
    Command(&'a [u8]),
    Bad(&'a [u8]),
    Zone(&'a [u8]),
    End(&'a [u8]),
}
