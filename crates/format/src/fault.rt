// What the look-over finds wrong, from the word up to the file. A fault keeps its place on the way.
ghost use Rattle.std.specs.Prelude.{◌≡◌};
ghost use Rattle.format.specs.declared.fault.FileFault.TheVariants.{Record};
ghost use Rattle.format.specs.declared.fault.RecordFault.TheVariants.{Word};

// A word that may stand where it stands, but not with this content. Each case holds the word's place.
#[derive(Clone, Copy, Debug, PartialEq, Eq)]
pub enum WordFault {
    UnusedBits(usize),
    UnknownName(usize),
    OutOfRange(usize),
}

// A record that is not one: a word in the wrong place, or a word that says what its record may not.
#[derive(Clone, Copy, Debug, PartialEq, Eq)]
pub enum RecordFault {
    Misplaced(usize),
    SetAndClear(usize),
    UrgentAtom(usize),
    Surplus(usize),
    Word(WordFault),
}

// A file that is not one. The last word's place comes with a wrong end.
#[derive(Clone, Copy, Debug, PartialEq, Eq)]
pub enum FileFault {
    TooLong,
    WrongLength,
    WrongEnd(usize),
    WrongHead,
    TooManyChecks,
    Record(RecordFault),
}

// The first fault of the two files, the model's before the list's.
#[derive(Clone, Copy, Debug, PartialEq, Eq)]
pub enum Fault {
    Model(FileFault),
    List(FileFault),
}

impl From<WordFault> for RecordFault {
    ghost from_gives = { λ f r. r ≡ Word f };

    fn from(f: WordFault) -> RecordFault {
        RecordFault::Word(f)
    }
}

impl From<RecordFault> for FileFault {
    ghost from_gives = { λ f r. r ≡ Record f };

    fn from(f: RecordFault) -> FileFault {
        FileFault::Record(f)
    }
}
