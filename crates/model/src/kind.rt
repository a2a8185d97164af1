// The kinds of words that begin a record.
ghost use Rattle.std.specs.Prelude.{◌≡◌, ◌==◌};
ghost use Rattle.format.specs.Words.{kind as kind_of};
ghost use Rattle.format.specs.Kinds.{code};
ghost use Rattle.model.specs.Records.{Begins};

use format::Kind;

// A kind of words that begin a record.
#[derive(Clone, Copy, Debug, PartialEq, Eq)]
pub(crate) struct RecordKind {
    pub(crate) kind: Kind,
    ghost begins: { Begins (code kind) },
}

impl RecordKind {
    pub(crate) const INVARIANT: RecordKind = RecordKind {
        kind: Kind::Invariant,
    };

    pub(crate) const COMMAND: RecordKind = RecordKind {
        kind: Kind::Command,
    };

    pub(crate) const BAD: RecordKind = RecordKind { kind: Kind::Bad };

    pub(crate) const ZONE: RecordKind = RecordKind { kind: Kind::Zone };

    // Whether a word is of this kind.
    pub(crate) fn begins(self, word: u32) -> bool
        ensures { result ≡ (kind_of word == code self.kind) }
    {
        self.kind.is_of(word)
    }
}
