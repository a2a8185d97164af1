//! The printed line of a look-over, and what is told of a fault.
#![tactic(auto)]

ghost use Rattle.std.specs.Prelude.{◌≡◌, Some};
ghost use Rattle.format.specs.Faults.{counts, outcome, told, file_told};
ghost use Rattle.format.specs.Reading.{file_of};
ghost use Rattle.report.specs.Line.{listed, printed, reported, layer_name};

use format::FileFault::Record;
use format::RecordFault::Word;
use format::{Fault, File, FileFault, RecordFault, Summary, WordFault};
use std::fmt;

// Where a fault was found.
#[derive(Clone, Copy, Debug, PartialEq, Eq)]
pub enum Layer {
    File,
    Record,
    Word,
}

// A fault by its number, its file, the place of its word and its layer. The number is what is printed, so it stays a number.
#[derive(Clone, Copy, Debug, PartialEq, Eq)]
pub struct Report {
    pub number: u8,
    pub file: File,
    pub word: usize,
    pub layer: Layer,
}

impl Report {
    // A fault's number, the place of its word and its layer, in the order of the numbers.
    fn of_file(fault: FileFault, file: File) -> Report
        ensures { reported result ≡ file_told (file_of file) fault }
    {
        let (number, word, layer) = match fault {
            FileFault::TooLong => (1, 0, Layer::File),
            FileFault::WrongLength => (2, 0, Layer::File),
            FileFault::WrongEnd(word) => (3, word, Layer::File),
            FileFault::WrongHead => (4, 0, Layer::File),
            Record(RecordFault::Misplaced(word)) => (5, word, Layer::Record),
            Record(Word(WordFault::UnusedBits(word))) => (6, word, Layer::Word),
            Record(Word(WordFault::UnknownName(word))) => (7, word, Layer::Word),
            Record(Word(WordFault::OutOfRange(word))) => (8, word, Layer::Word),
            Record(RecordFault::SetAndClear(word)) => (9, word, Layer::Record),
            Record(RecordFault::UrgentAtom(word)) => (10, word, Layer::Record),
            Record(RecordFault::Surplus(word)) => (11, word, Layer::Record),
            FileFault::TooManyChecks => (12, 0, Layer::File),
        };
        Report {
            number,
            file,
            word,
            layer,
        }
    }
}

impl From<Fault> for Report {
    ghost from_gives = { λ f r. reported r ≡ told f };

    fn from(fault: Fault) -> Report {
        match fault {
            Fault::Model(fault) => Report::of_file(fault, File::Model),
            Fault::List(fault) => Report::of_file(fault, File::List),
        }
    }
}

impl fmt::Display for Layer {
    ghost output = { λ l. Some (layer_name l) };

    fn fmt<W: fmt::Write>(&self, f: &mut fmt::Formatter<W>) -> fmt::Result {
        match *self {
            Layer::File => write!(f, "file"),
            Layer::Record => write!(f, "record"),
            Layer::Word => write!(f, "word"),
        }
    }
}

impl fmt::Display for Report {
    ghost output = { λ r. Some (printed (reported r)) };

    fn fmt<W: fmt::Write>(&self, f: &mut fmt::Formatter<W>) -> fmt::Result {
        let Report {
            number,
            file,
            word,
            layer,
        } = *self;
        write!(f, "fault {number} {file} word {word} {layer}")
    }
}

// What was read of two files that passed, as `look` prints it.
#[derive(Clone, Copy, Debug, PartialEq, Eq)]
struct Read(Summary);

impl fmt::Display for Read {
    ghost output = { λ s. Some (listed (counts s.0)) };

    fn fmt<W: fmt::Write>(&self, f: &mut fmt::Formatter<W>) -> fmt::Result {
        let Summary {
            booleans,
            clocks,
            invariants,
            commands,
            bads,
            zones,
            checks,
        } = self.0;
        write!(
            f,
            "booleans {booleans} clocks {clocks} invariants {invariants} commands {commands} bad {bads} zones {zones} checks {checks}"
        )
    }
}

// What `look` prints of an answer.
#[derive(Clone, Copy, Debug, PartialEq, Eq)]
pub struct Line(pub Result<Summary, Fault>);

impl fmt::Display for Line {
    ghost output = { λ l. Some (printed (outcome l.0)) };

    fn fmt<W: fmt::Write>(&self, f: &mut fmt::Formatter<W>) -> fmt::Result {
        match self.0 {
            Ok(summary) => {
                let read = Read(summary);
                write!(f, "pass {read}")
            }
            Err(fault) => {
                let report = Report::from(fault);
                write!(f, "{report}")
            }
        }
    }
}
