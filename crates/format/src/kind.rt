// The kinds of words, and the words that begin a record.
ghost use Rattle.std.specs.Prelude.{◌≡◌, ◌≢◌, ◌==◌, true, MatchOption};
ghost use Rattle.format.specs.Words.{kind as kind_of};
ghost use Rattle.format.specs.Places.{starts_record};
ghost use Rattle.format.specs.Kinds.{code, first_code};
ghost use Rattle.format.specs.declared.kind.Kind.{Kind};

// What a word is, by its top four bits, which are the kind's number.
#[derive(Clone, Copy, Debug, PartialEq, Eq)]
pub enum Kind {
    Head = 1,
    Start = 2,
    Command = 3,
    Mask = 4,
    Reset = 5,
    Invariant = 6,
    Bad = 7,
    Zone = 8,
    Atom = 9,
    Number = 10,
    End = 15,
}

impl Kind {
    // The kind of a word, which is a part of it (so this is no `TryFrom`); nothing where its top four bits are those of no kind.
    pub fn of(word: u32) -> Option<Kind>
        ensures { MatchOption result ((k : Kind) → code k ≢ kind_of word) (λ k. code k ≡ kind_of word) }
    {
        match word >> 28 {
            1 => Some(Kind::Head),
            2 => Some(Kind::Start),
            3 => Some(Kind::Command),
            4 => Some(Kind::Mask),
            5 => Some(Kind::Reset),
            6 => Some(Kind::Invariant),
            7 => Some(Kind::Bad),
            8 => Some(Kind::Zone),
            9 => Some(Kind::Atom),
            10 => Some(Kind::Number),
            15 => Some(Kind::End),
            _ => None,
        }
    }

    // Whether a word is of this kind. By the kind's number, since the walks over a file ask this of every word.
    pub fn is_of(self, word: u32) -> bool
        ensures { result ≡ (kind_of word == code self) }
    {
        word >> 28 == self as u32
    }
}

// The kinds of records, the end left out.
#[derive(Clone, Copy, Debug, PartialEq, Eq)]
pub(crate) enum RecordKind {
    Head,
    Start,
    Invariant,
    Command,
    Bad,
    Zone,
}

// A word that begins a record, and of which kind.
#[derive(Clone, Copy, Debug, PartialEq, Eq)]
pub(crate) struct FirstWord {
    pub(crate) kind: RecordKind,
    pub(crate) word: u32,
    ghost begins: { first_code kind ≡ kind_of word },
}

impl FirstWord {
    // What a word begins: no record where it is the end, or continues one.
    pub(crate) fn of(word: u32) -> Option<FirstWord>
        ensures { MatchOption result (starts_record (kind_of word) ≡ true → kind_of word ≡ 15) (λ f. f.word ≡ word) }
    {
        let kind = match Kind::of(word)? {
            Kind::Head => RecordKind::Head,
            Kind::Start => RecordKind::Start,
            Kind::Invariant => RecordKind::Invariant,
            Kind::Command => RecordKind::Command,
            Kind::Bad => RecordKind::Bad,
            Kind::Zone => RecordKind::Zone,
            Kind::Mask | Kind::Reset | Kind::Atom | Kind::Number | Kind::End => return None,
        };
        Some(FirstWord { kind, word })
    }
}
